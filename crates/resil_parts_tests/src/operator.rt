//! An operator who lowers the limit of a bulkhead while other threads call, and raises it again.
//!
//! Three threads enter and leave. Each counts itself in after it has entered and out before it leaves, so the count is never
//! above the number of permits held.

use crate::shared::{bulkhead, free};
use resil_bulkhead::Bulkhead;
use std::sync::Wait;
use std::sync::atomic::Ordering::SeqCst;
use std::sync::atomic::{AtomicBool, AtomicU32};
use std::thread;
use std::time::{Clock, Duration};

const MAX: u32 = 2;

const LOWERED: u32 = 1;

// How many calls are inside, the announced number in use, and whether the former was ever above the latter. The number in
// use is announced after a permit was retired and before one is raised, so it is never too low.
#[derive(Drop)]
struct Gauge {
    inside: AtomicU32,
    in_use: AtomicU32,
    crowded: AtomicBool,
}

// Enters if a permit is free, and leaves. The number in use falls and then rises once, so while this enters, it is at most
// what it was before or what it is after.
fn visit(rt: &impl Wait, bulkhead: &Bulkhead, gauge: &Gauge) {
    let mut pass = bulkhead.new_pass();
    let before = gauge.in_use.load(SeqCst);
    if bulkhead.enter(rt, &mut pass) {
        let others = gauge.inside.fetch_add(1, SeqCst);
        if others >= before.max(gauge.in_use.load(SeqCst)) {
            gauge.crowded.store(true, SeqCst);
        }
        thread::yield_now();
        gauge.inside.fetch_sub(1, SeqCst);
        bulkhead.leave(&mut pass);
    }
}

// Whether there were never more free than the lowered limit.
fn stays_low(bulkhead: &Bulkhead) -> bool {
    let mut low = true;
    for _ in 0..1_000u32 {
        low &= free(bulkhead) <= LOWERED;
    }
    low
}

// Lowers the limit and raises it again. Returns whether it was low in between.
fn operate<R: Clock + Wait>(rt: &R, bulkhead: &Bulkhead, gauge: &Gauge) -> bool {
    let mut pass = bulkhead.new_pass();
    if !bulkhead.enter_within(rt, &mut pass, Duration::from_secs(20)) {
        return false;
    }
    bulkhead.retire(&mut pass);
    gauge.in_use.fetch_sub(1, SeqCst);
    let low = stays_low(bulkhead);
    gauge.in_use.fetch_add(1, SeqCst);
    bulkhead.raise(&mut pass);
    low
}

// The operator is one thread, and the others visit.
fn act<R: Clock + Wait>(rt: &R, bulkhead: &Bulkhead, gauge: &Gauge, place: usize) -> bool {
    let mut low = true;
    for _ in 0..100u32 {
        if place == 0 {
            low &= operate(rt, bulkhead, gauge);
        } else {
            for _ in 0..100u32 {
                visit(rt, bulkhead, gauge);
            }
        }
    }
    low
}

#[test]
fn lowered_under_load(rt: HostRuntime) {
    let (bulkhead, _pass) = bulkhead(&rt, rt.alloc(), MAX);
    let gauge = Gauge {
        inside: AtomicU32::new(0),
        in_use: AtomicU32::new(MAX),
        crowded: AtomicBool::new(false),
    };
    let acted = thread::map_indices(
        &rt,
        rt.alloc(),
        4,
        &|place| act(&rt, &bulkhead, &gauge, place),
    );
    let acted = acted.expect(&rt, "room for the answers");
    assert!(rt; !acted.contains(&false));
    assert!(rt; !gauge.crowded.load(SeqCst) && free(&bulkhead) == MAX);
}
