//! What a recorder writes in a head, if a command uses it.

use resil_heads::HeadError;
use resil_heads::pool_head::{Uses, read_pool_head};

const ALL: Uses = Uses {
    idle_for: true,
    made: true,
    owner: true,
    began: true,
    drawing: true,
};

#[test]
fn head_of_a_recorder(rt: HostRuntime) {
    let text =
        b"core = 0\nmax = 1\nname = \"orders\"\nidle_for = 31_536_000_000_000\nmade = 3\nrecord = \"shop-7\"\n\
        began = 2026-05-27T07:32:10.2500009-01:30\n";
    let head = read_pool_head(rt.alloc(), ALL, text).expect(&rt, "a head");
    let recorded = &head.recorded;
    assert!(rt; head.name.as_str() == "orders" && recorded.owner.as_str() == "shop-7");
    assert!(rt; recorded.idle_for == Some(31_536_000_000_000) && recorded.made == 3);
    let began = recorded.began.expect(&rt, "a moment");
    assert!(rt; began.date.year == 2026 && began.date.month == 5 && began.date.day == 27);
    assert!(rt; began.hour == 7 && began.minute == 32 && began.second == 10);
    assert!(rt; began.microsecond == 250_000 && began.offset == -90);
}

#[test]
fn values_that_no_recorder_writes(rt: HostRuntime) {
    for value in [
        "idle_for = -1",
        "idle_for = 31_536_000_000_001",
        "made = -1",
        "made = \"3\"",
        "record = 7",
        "from = -1",
        "to = true",
        "from = 7\nto = 7",
        "from = 8\nto = 7",
        "most_waiting = 4_294_967_296",
        "most_workers = -1",
        "began = 2026-05-27T07:32:10",
        "began = \"2026-05-27T07:32:10Z\"",
    ] {
        let text = format!(in rt.alloc(); "core = 1\nmax = 1\n{value}\n").expect(&rt, "a text");
        let why = read_pool_head(rt.alloc(), ALL, text.as_bytes())
            .err()
            .map(|fault| fault.why());
        assert!(rt; matches!(why, Some(HeadError::BadValue)));
        assert!(rt; read_pool_head(rt.alloc(), Uses::NONE, text.as_bytes()).is_ok());
    }
}
