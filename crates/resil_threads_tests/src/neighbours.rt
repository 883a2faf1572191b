//! Bulkheads from a text: what a text makes, and which texts are refused, why and where.

use resil_bulkheads::Neighbours;
use std::alloc::Global;
use std::process::Abort;
use std::time::Duration;

const TEXT: &str = "
[permits]
small = 2

[[bulkhead]]
name = 'prices'
config = 'small'
wait = 50

[[bulkhead]]
name = 'stock'
";

const UNKNOWN: &str = "the head has an unknown key";

const RANGE: &str = "a value of the head has the wrong type or is out of range";

const NAME: &str = "a name must be 1 to 64 bytes of ASCII letters, digits, `-`, `_` and `.`";

// Texts that are refused, with bars between their lines, each with the place of the fault and why.
const REFUSED: [(&str, &str, &str); 14] = [
    ("a = 1|b = = 2", "line 2", "the head is not TOML"),
    ("[[bulkheads]]", "the text", UNKNOWN),
    ("bulkhead = 1", "the text", RANGE),
    ("permits = 1", "permits", RANGE),
    ("[permits]|small = 65536", "permits", RANGE),
    (
        "[permits]|default = 2",
        "permits",
        "the name `default` is reserved",
    ),
    ("[permits]|'a b' = 2", "permits", NAME),
    ("[[bulkhead]]|name = 'a'|max = 3", "bulkhead 1", UNKNOWN),
    (
        "[[bulkhead]]|name = 'a'|[[bulkhead]]|wait = 1",
        "bulkhead 2",
        "a required key of the head is missing",
    ),
    ("[[bulkhead]]|name = 1", "bulkhead 1", RANGE),
    ("[[bulkhead]]|name = 'a'|wait = -1", "bulkhead 1", RANGE),
    (
        "[[bulkhead]]|name = 'a'|[[bulkhead]]|name = 'a'",
        "bulkhead 2",
        "bulkhead 1 already has that name",
    ),
    ("[[bulkhead]]|name = 'a b'", "bulkhead 1", NAME),
    (
        "[[bulkhead]]|name = 'a'|config = 'b'",
        "bulkhead 1",
        "no configuration has that name",
    ),
];

// Asserts how many concurrent calls the bulkhead of a name permits, and how many milliseconds a call waits for a permit.
fn assert_found(rt: &impl Abort, neighbours: &Neighbours, name: &str, max: u32, wait: u64) {
    let (bulkhead, longest) = neighbours.find(name).expect(rt, "a bulkhead");
    assert!(rt;
        bulkhead.name() == name && bulkhead.max() == max,
        "at {name:?}"
    );
    assert!(rt; longest == Duration::from_millis(wait), "at {name:?}");
}

// The place of the fault in a text that is refused, and why it is refused.
fn refusal(rt: &impl Abort, alloc: Global, text: &str) -> String {
    let text = text
        .replace(alloc, "|", "\n")
        .expect(rt, "room for the text");
    let refused = Neighbours::from_toml(alloc, &text).err();
    format!(in alloc; "{}", refused.expect(rt, "a refusal")).expect(rt, "room for the text")
}

#[test]
fn bulkheads_of_a_text(rt: HostRuntime) {
    let neighbours = Neighbours::from_toml(rt.alloc(), TEXT).expect(&rt, "bulkheads");
    assert_found(&rt, &neighbours, "prices", 2, 50);
    assert_found(&rt, &neighbours, "stock", 25, 0);
    assert!(rt; neighbours.find("small").is_none());
    assert!(rt; neighbours.registry.bulkheads().len() == 2);
}

#[test]
fn texts_that_are_refused(rt: HostRuntime) {
    for (text, place, why) in REFUSED {
        let shown = refusal(&rt, rt.alloc(), text);
        assert!(rt; shown.split_once(": ") == Some((place, why)), "at {text:?}");
    }
}
