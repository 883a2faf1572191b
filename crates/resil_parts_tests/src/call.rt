//! The retry of any call: a wait comes between two attempts, and the clock's waits are slept.

use crate::shared::Digits;
use resil_call::{Call, EveryError, Pause, RetryPolicy, SameWait, Sleep, retry};
use std::time::{Clock, Duration};

// Refuses each call, and writes down 1.
#[derive(Drop)]
struct Refusing<'a>(&'a Digits);

impl Call for Refusing<'_> {
    type Output = Result<u8, u8>;

    fn call(&mut self) -> Result<u8, u8> {
        self.0.write(1);
        Err(5)
    }
}

// Writes down 2 at each pause.
#[derive(Drop)]
struct Writing<'a>(&'a Digits);

impl Pause for Writing<'_> {
    fn pause(&mut self, _milliseconds: u64) {
        self.0.write(2);
    }
}

#[test]
fn waits_come_between_attempts(rt: HostRuntime) {
    let order = Digits::new();
    let policy = RetryPolicy::defaults();
    let tried = retry(&policy, &mut Refusing(&order), &mut Writing(&order));
    assert!(rt; tried.attempts == 3 && tried.answer == Err(5));
    assert!(rt; order.all() == 12121);
}

#[test]
fn waits_are_slept(rt: HostRuntime) {
    let order = Digits::new();
    let policy = RetryPolicy {
        max_attempts: 3,
        backoff: SameWait(15),
        retry_on: EveryError,
    };
    let start = rt.monotonic().expect(&rt, "a clock");
    let tried = retry(&policy, &mut Refusing(&order), &mut Sleep::new(&rt));
    let slept = rt.monotonic().expect(&rt, "a clock").saturating_sub(start);
    assert!(rt; tried.answer == Err(5) && slept >= Duration::from_millis(30));
}
