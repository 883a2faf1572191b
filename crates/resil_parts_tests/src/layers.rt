//! Layers: a permit is held while the function runs, and a call refused by a full bulkhead is tried again.

use crate::shared::{Always, bulkhead, free};
use resil_bulkhead::{Bulkhead, DEFAULT_MAX_CALLS, NoPermit, Permit};
use resil_call::{Call, EveryError, NoPause, RetryPolicy, SameWait};
use resil_layers::Decorate;
use resil_retry::{Interval, Recorded, Waits};
use std::alloc::Global;
use std::process::Abort;
use std::sync::Wait;

// Why a call has no value.
#[derive(Clone, Copy, PartialEq, Eq, Debug)]
enum Refusal {
    Full,
    Code(u16),
}

impl From<NoPermit> for Refusal {
    fn from(_refused: NoPermit) -> Refusal {
        Refusal::Full
    }
}

// One call under two permits of the same bulkhead.
fn call_under_two<R: Wait>(rt: &R, bulkhead: &Bulkhead) -> Result<u8, Refusal> {
    Always(Ok::<u8, Refusal>(1))
        .inside_by(bulkhead, rt, bulkhead.new_pass())
        .inside(bulkhead, rt)
        .call()
}

#[test]
fn permit_is_held_while_the_function_runs(rt: HostRuntime) {
    let (one, _pass) = bulkhead(&rt, rt.alloc(), 1);
    assert!(rt; call_under_two(&rt, &one) == Err(Refusal::Full) && free(&one) == 1);
}

#[test]
fn two_permits_of_many(rt: HostRuntime) {
    let (many, _pass) = Bulkhead::with_defaults(rt.alloc(), "many").expect(&rt, "a bulkhead");
    assert!(rt; call_under_two(&rt, &many) == Ok(1) && free(&many) == DEFAULT_MAX_CALLS);
}

// How many permits are free while a scope holds one that was acquired by one try.
fn free_in_scope(bulkhead: &Bulkhead) -> Result<u32, NoPermit> {
    let mut pass = bulkhead.new_pass();
    let _permit = Permit::try_once(&mut pass, bulkhead)?;
    Ok(free(bulkhead))
}

// The result of one try of a call.
fn tried_once(bulkhead: &Bulkhead) -> Result<u8, NoPermit> {
    bulkhead.call_once(&mut bulkhead.new_pass(), &mut Always(3))
}

// Whether a scope gets a permit.
fn is_acquired<R: Wait>(rt: &R, bulkhead: &Bulkhead) -> bool {
    Permit::enter(&mut bulkhead.new_pass(), bulkhead, rt).is_ok()
}

#[test]
fn permit_for_a_scope(rt: HostRuntime) {
    let (one, _pass) = bulkhead(&rt, rt.alloc(), 1);
    assert!(rt; free_in_scope(&one) == Ok(0) && free(&one) == 1);
    assert!(rt; tried_once(&one) == Ok(3) && is_acquired(&rt, &one) && free(&one) == 1);
}

// The result of three attempts at a call in a bulkhead, with waits of 10 and 20 ms between them.
fn tried_in<R: Abort + Wait>(
    rt: &R,
    bulkhead: &Bulkhead,
    waits: &mut Waits,
) -> Result<u8, Refusal> {
    let policy = RetryPolicy {
        max_attempts: 3,
        backoff: Interval::exponential(10, 2, 1, 1_000).expect(rt, "an interval"),
        retry_on: EveryError,
    };
    Always(Ok::<u8, Refusal>(1))
        .inside(bulkhead, rt)
        .retried(&policy, Recorded(waits))
        .call()
}

#[test]
fn full_bulkhead_is_tried_again(rt: HostRuntime) {
    let (none, _pass) = bulkhead(&rt, rt.alloc(), 0);
    let mut waits = Waits::new(rt.alloc(), 2).expect(&rt, "room for waits");
    assert!(rt; tried_in(&rt, &none, &mut waits) == Err(Refusal::Full));
    assert!(rt; waits.items() == [10, 20].as_slice());
}

// What a fallback for code 503 makes of an error.
fn recovered(error: Refusal) -> Result<u8, Refusal> {
    let policy = RetryPolicy {
        max_attempts: 2,
        backoff: SameWait(0),
        retry_on: EveryError,
    };
    Always(Err::<u8, Refusal>(error))
        .retried(&policy, NoPause)
        .or_else_if(
            |error: &Refusal| *error == Refusal::Code(503),
            |_error: Refusal| 9,
        )
        .call()
}

#[test]
fn fallback_of_a_named_error(rt: HostRuntime) {
    assert!(rt; recovered(Refusal::Code(503)) == Ok(9));
    assert!(rt; recovered(Refusal::Full) == Err(Refusal::Full));
}
