//! Bulkheads by name: worked examples, and 64 threads that look up one name at once.
//!
//! Their permits show that two bulkheads are one: what is taken of one isn't free in the other.

use resil_bulkhead::Bulkhead;
use resil_bulkheads::BulkheadRegistry;
use std::alloc::{AllocError, Global};
use std::process::Abort;
use std::sync::{Mutex, Wait};
use std::thread;
use std::thread::Threads;

// A registry whose `default` permits 64 calls, and whose `small` permits 2.
fn registry(rt: &impl Abort, alloc: Global) -> BulkheadRegistry {
    let mut registry = BulkheadRegistry::new(alloc, 64).expect(rt, "a registry");
    registry
        .add_config("small", 2)
        .expect(rt, "a configuration");
    registry
}

// How many permits of a bulkhead are free.
fn free(bulkhead: &Bulkhead) -> u32 {
    bulkhead.available(&mut bulkhead.new_pass())
}

// Takes a permit of a bulkhead for good, by a pass of its own.
fn take_one(rt: &impl Wait, bulkhead: &Bulkhead) -> bool {
    bulkhead.enter(rt, &mut bulkhead.new_pass())
}

// Looks up a bulkhead, and takes a permit of it for good.
fn take_one_of(
    rt: &impl Wait,
    alloc: Global,
    registry: &Mutex<BulkheadRegistry>,
    name: &str,
) -> bool {
    let asked = registry.lock(rt).bulkhead(alloc, name);
    match asked {
        Ok(bulkhead) => take_one(rt, &bulkhead),
        Err(_) => false,
    }
}

// The results of 64 threads that look up one name at once.
fn crowd(
    rt: &(impl Threads + Wait + Sync),
    alloc: Global,
    registry: &Mutex<BulkheadRegistry>,
) -> Result<Vec<bool>, AllocError> {
    thread::map_indices(
        rt,
        alloc,
        64,
        &|_| take_one_of(rt, alloc, registry, "prices"),
    )
}

// Asserts that the bulkhead of a name has this many free permits of this many.
fn assert_found(rt: &impl Abort, registry: &BulkheadRegistry, name: &str, counts: (u32, u32)) {
    let bulkhead = registry.find(name).expect(rt, "a bulkhead");
    assert!(rt; bulkhead.name() == name);
    assert!(rt; (free(bulkhead), bulkhead.max()) == counts, "at {name:?}");
}

#[test]
fn one_bulkhead_for_each_name(rt: HostRuntime) {
    let mut registry = registry(&rt, rt.alloc());
    let letters = registry
        .bulkhead_with(rt.alloc(), "letters", "small")
        .expect(&rt, "a bulkhead");
    let again = registry
        .bulkhead(rt.alloc(), "letters")
        .expect(&rt, "the same");
    assert!(rt; take_one(&rt, &letters) && free(&again) == 1);
    let _prices = registry
        .bulkhead(rt.alloc(), "prices")
        .expect(&rt, "another");
    assert_found(&rt, &registry, "letters", (1, 2));
    assert_found(&rt, &registry, "prices", (64, 64));
    assert!(rt; registry.id("prices") == Some(1) && registry.find("stock").is_none());
    assert!(rt; registry.bulkheads().len() == 2);
}

#[test]
fn sixty_four_threads_get_one_bulkhead(rt: HostRuntime) {
    let shared = Mutex::new(registry(&rt, rt.alloc()));
    let answers = crowd(&rt, rt.alloc(), &shared).expect(&rt, "room for the answers");
    assert!(rt; answers.iter().all(|entered| *entered));
    let registry = shared.into_inner();
    assert!(rt; registry.bulkheads().len() == 1);
    assert_found(&rt, &registry, "prices", (0, 64));
}
