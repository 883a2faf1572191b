//! Waiting for a permit: a wait that ends by a release, by a raise, by its time, and two waits at two releases; and calls
//! by clients.
//! A thread here that waits for others waits for what they did, and at most 20 s. A wait of 60 s that nobody wakes would take all
//! of that, and one that is woken is over long before half of it.

use crate::shared::{Always, bulkhead};
use resil_bulkhead::{Bulkhead, NoPermit, Permit};
use resil_call::{Call, FromFn};
use resil_layers::Decorate;
use std::sync::Wait;
use std::sync::atomic::AtomicU32;
use std::sync::atomic::Ordering::SeqCst;
use std::thread;
use std::time::{Clock, Duration, Instant};

// How many have a permit or have retired one, and how many are about to wait.
#[derive(Drop)]
struct Stage {
    having: AtomicU32,
    waiting: AtomicU32,
}

impl Stage {
    fn new() -> Stage {
        Stage {
            having: AtomicU32::new(0),
            waiting: AtomicU32::new(0),
        }
    }
}

// Waits until this many have come.
fn await_number(rt: &impl Clock, number: &AtomicU32, wanted: u32) {
    for _ in 0..20_000u32 {
        if number.load(SeqCst) >= wanted {
            return;
        }
        thread::sleep(rt, Duration::from_millis(1));
    }
}

// Whether less than half a minute has gone.
fn is_early(rt: &impl Clock, start: Option<Instant>) -> bool {
    match start {
        Some(start) => matches!(start.elapsed(rt), Ok(spent) if spent < Duration::from_secs(30)),
        None => false,
    }
}

// Announces that a permit is held or retired, until this many are about to wait for one, and some time longer.
fn hold(rt: &impl Clock, stage: &Stage, waits: u32) {
    stage.having.fetch_add(1, SeqCst);
    await_number(rt, &stage.waiting, waits);
    thread::sleep(rt, Duration::from_millis(20));
}

// Holds a permit until this many are about to wait for one, and some time longer. A waiter that is then woken mostly finds it
// taken again, and has to wait once more.
fn release_late<R: Clock + Wait>(rt: &R, bulkhead: &Bulkhead, stage: &Stage, waits: u32) -> bool {
    let mut pass = bulkhead.new_pass();
    if !bulkhead.enter(rt, &mut pass) {
        return false;
    }
    hold(rt, stage, waits);
    bulkhead.leave(&mut pass);
    if bulkhead.enter(rt, &mut pass) {
        thread::sleep(rt, Duration::from_millis(20));
        bulkhead.leave(&mut pass);
    }
    true
}

// Has the one permit retired until another thread is about to wait for it, and some time longer.
fn raise_late<R: Clock + Wait>(rt: &R, bulkhead: &Bulkhead, stage: &Stage) -> bool {
    let mut pass = bulkhead.new_pass();
    if !bulkhead.enter(rt, &mut pass) {
        return false;
    }
    bulkhead.retire(&mut pass);
    hold(rt, stage, 1);
    bulkhead.raise(&mut pass);
    true
}

// Waits for a permit once this many hold one, and keeps it. Returns whether it came early.
fn enter_late<R: Clock + Wait>(rt: &R, bulkhead: &Bulkhead, stage: &Stage, having: u32) -> bool {
    await_number(rt, &stage.having, having);
    let start = Instant::now(rt).ok();
    let mut pass = bulkhead.new_pass();
    stage.waiting.fetch_add(1, SeqCst);
    bulkhead.enter_within(rt, &mut pass, Duration::from_secs(60)) && is_early(rt, start)
}

// The same by a permit for a scope, once one thread holds the permit.
fn acquire_late<R: Clock + Wait>(rt: &R, bulkhead: &Bulkhead, stage: &Stage) -> bool {
    await_number(rt, &stage.having, 1);
    let start = Instant::now(rt).ok();
    let mut pass = bulkhead.new_pass();
    stage.waiting.fetch_add(1, SeqCst);
    Permit::enter_within(&mut pass, bulkhead, rt, Duration::from_secs(60)).is_ok()
        && is_early(rt, start)
}

#[test]
fn ends_by_a_release(rt: HostRuntime) {
    let (one, _pass) = bulkhead(&rt, rt.alloc(), 1);
    let stage = Stage::new();
    let ends = thread::join(
        &rt,
        || release_late(&rt, &one, &stage, 1),
        || enter_late(&rt, &one, &stage, 1),
    );
    assert!(rt; ends == (true, true));
}

#[test]
fn ends_by_a_raise(rt: HostRuntime) {
    let (one, _pass) = bulkhead(&rt, rt.alloc(), 1);
    let stage = Stage::new();
    let ends = thread::join(
        &rt,
        || raise_late(&rt, &one, &stage),
        || acquire_late(&rt, &one, &stage),
    );
    assert!(rt; ends == (true, true));
}

#[test]
fn two_and_two(rt: HostRuntime) {
    let (two, _pass) = bulkhead(&rt, rt.alloc(), 2);
    let stage = Stage::new();
    let ends = thread::map_indices(
        &rt,
        rt.alloc(),
        4,
        &|place| {
            if place < 2 {
                release_late(&rt, &two, &stage, 2)
            } else {
                enter_late(&rt, &two, &stage, 2)
            }
        },
    );
    let ends = ends.expect(&rt, "room for the ends");
    assert!(rt; !ends.contains(&false));
    assert!(rt; two.available(&mut two.new_pass()) == 0);
}

// Whether a call waits in vain: at least this long, and less than half a second longer.
fn waits_in_vain<R: Clock + Wait>(rt: &R, bulkhead: &Bulkhead, longest: Duration) -> bool {
    let Ok(start) = Instant::now(rt) else {
        return false;
    };
    let answer = bulkhead.client().call_within(rt, longest, &mut Always(7));
    let late = Duration::from_millis(500);
    answer == Err(NoPermit::Full)
        && matches!(start.elapsed(rt), Ok(spent) if spent >= longest && spent.saturating_sub(longest) < late)
}

#[test]
fn ends_by_its_time(rt: HostRuntime) {
    let (one, mut pass) = bulkhead(&rt, rt.alloc(), 1);
    assert!(rt; one.enter(&rt, &mut pass));
    assert!(rt; waits_in_vain(&rt, &one, Duration::from_millis(20)));
    assert!(rt; waits_in_vain(&rt, &one, Duration::from_secs(1)));
    assert!(rt; waits_in_vain(&rt, &one, Duration::ZERO));
}

#[test]
fn never_waits_for_no_permits(rt: HostRuntime) {
    let (none, mut pass) = bulkhead(&rt, rt.alloc(), 0);
    let start = Instant::now(&rt).ok();
    assert!(rt; !none.enter_within(&rt, &mut pass, Duration::from_secs(60)));
    assert!(rt; is_early(&rt, start));
}

// The sum of the answers of a chain that waits at most 10 ms, called this many times.
fn answers_in_chain<R: Clock + Wait>(rt: &R, bulkhead: &Bulkhead, calls: u32) -> u32 {
    let mut chain = Always(Ok::<u32, NoPermit>(1))
        .inside_within(bulkhead, rt, Duration::from_millis(10))
        .or_else(|_full| 0);
    let mut answers: u32 = 0;
    for _ in 0..calls {
        answers = answers.saturating_add(chain.call());
    }
    answers
}

#[test]
fn waits_in_a_chain(rt: HostRuntime) {
    let (one, mut pass) = bulkhead(&rt, rt.alloc(), 1);
    assert!(rt; answers_in_chain(&rt, &one, 3) == 3);
    assert!(rt; one.enter(&rt, &mut pass));
    assert!(rt; answers_in_chain(&rt, &one, 3) == 0);
}

#[test]
fn lent_while_held(rt: HostRuntime) {
    let (one, mut pass) = bulkhead(&rt, rt.alloc(), 1);
    let seen = one.call_holding(&rt, &mut pass, |lent| {
        (lent.held(), one.available(&mut one.new_pass()))
    });
    assert!(rt; seen == Ok((1, 0)));
    assert!(rt; one.available(&mut pass) == 1);
}

#[test]
fn clients_in_turn(rt: HostRuntime) {
    let (one, _pass) = bulkhead(&rt, rt.alloc(), 1);
    for mut client in one.clients(rt.alloc(), 2).expect(&rt, "two clients") {
        assert!(rt; client.call(&rt, &mut Always(7)) == Ok(7));
        assert!(rt; client.call_once(&mut Always(8)) == Ok(8));
    }
    let mut client = one.client();
    let inner = client.call(&rt, &mut FromFn(|| one.client().call(&rt, &mut Always(9))));
    assert!(rt; inner == Ok(Err(NoPermit::Full)));
}
