//! Retries of a chain with an observer: when it is called, with what, and what is counted.

ghost use Rattle.std.specs.Prelude.{◌≡◌};

use crate::shared::{Always, Digits, Late, bulkhead};
use resil_bulkhead::NoPermit;
use resil_call::{
    ByAttempt, Call, Deadline, EveryError, NoLimit, NoPause, Pause, RetryPolicy, SameWait, Sleep,
    Tried, WaitBudget,
};
use resil_layers::{
    Decorate, DecorateWithin, OnRetry, OwnRetryCounts, RetryCounts, RetryKind, RetryObserver,
};
use std::time::Duration;

// Writes down 1 at each call, 2 when it sees a wait, 3 at the pause, and 4 when it sees the end.
#[derive(Drop)]
struct Writing<'a>(&'a Digits);

impl Call for Writing<'_> {
    type Output = Result<u8, u8>;

    fn call(&mut self) -> Result<u8, u8> {
        self.0.write(1);
        Err(5)
    }
}

impl Pause for Writing<'_> {
    fn pause(&mut self, _milliseconds: u64) {
        self.0.write(3);
    }
}

impl RetryObserver<Result<u8, u8>> for Writing<'_> {
    fn on_retry(&mut self, _attempt: u32, _milliseconds: u64) {
        self.0.write(2);
    }

    fn on_end(&mut self, _tried: &Tried<Result<u8, u8>>) {
        self.0.write(4);
    }
}

#[test]
fn told_before_each_wait_and_once_of_the_end(rt: HostRuntime) {
    let order = Digits::new();
    let policy = RetryPolicy::defaults();
    let mut chain = Writing(&order).retried_observed(
        &policy,
        Writing(&order),
        || NoLimit,
        Writing(&order),
    );
    assert!(rt; chain.call() == Err(5) && order.all() == 12312314);
}

// Waits of 6 ms after the first attempt and 7 ms after the second, in each of two calls.
#[test]
fn a_closure_is_told_the_attempt_and_the_wait(rt: HostRuntime) {
    let told = Digits::new();
    let policy = RetryPolicy {
        max_attempts: 3,
        backoff: ByAttempt(|attempt: u32| u64::from(attempt) + 5),
        retry_on: EveryError,
    };
    let log = OnRetry(|attempt: u32, milliseconds: u64| {
        told.write(u64::from(attempt));
        told.write(milliseconds);
    });
    let mut chain = Always(Err::<u8, u8>(1)).retried_observed(&policy, NoPause, || NoLimit, log);
    assert!(rt; chain.call() == Err(1) && chain.call() == Err(1) && told.all() == 16271627);
}

// This many attempts, 2 ms apart.
fn policy(max_attempts: u32) -> RetryPolicy<SameWait, EveryError>
    ensures { result.max_attempts ≡ max_attempts }
{
    RetryPolicy {
        max_attempts,
        backoff: SameWait(2),
        retry_on: EveryError,
    }
}

#[test]
fn successes_are_counted_with_and_without_a_retry(rt: HostRuntime) {
    let (policy, own) = (policy(3), OwnRetryCounts::default());
    let mut chain = Late(0).retried_observed(&policy, NoPause, || NoLimit, own);
    assert!(rt; chain.call() == Ok(3) && chain.call() == Ok(4));
    let own = chain.told.observer;
    assert!(rt; own.waits == 2 && own.successful_with_retry == 1);
    assert!(rt; own.successful_without_retry == 1 && own.failed_with_retry == 0);
    assert!(rt; own.failed_without_retry == 0 && own.exhausted == 0 && own.out_of_time == 0);
}

// Two waits of 2 ms are within 5 ms, and a third isn't, in each of two calls.
#[test]
fn limit_is_made_anew_for_each_call(rt: HostRuntime) {
    let (policy, own) = (policy(9), OwnRetryCounts::default());
    let mut chain = Always(Err::<u8, u8>(1)).retried_observed(
        &policy,
        NoPause,
        || WaitBudget(5),
        own,
    );
    for _ in 0..2 {
        assert!(rt; chain.call() == Err(1));
    }
    let own = chain.told.observer;
    assert!(rt; own.waits == 4 && own.out_of_time == 2 && own.failed_with_retry == 2);
    assert!(rt; own.exhausted == 0);
}

// One attempt is a failure without a retry, and both observers see it.
#[test]
fn two_observers_are_told(rt: HostRuntime) {
    let (policy, counts) = (policy(1), RetryCounts::new("prices"));
    let both = (&counts, OwnRetryCounts::default());
    let limit = || Deadline::after(&rt, Duration::from_secs(2));
    let mut chain = Always(Err::<u8, u8>(1)).retried_observed(
        &policy,
        Sleep::new(&rt),
        limit,
        both,
    );
    assert!(rt; chain.call() == Err(1));
    let (_, own) = chain.told.observer;
    assert!(rt; own.failed_without_retry == 1 && own.exhausted == 1 && own.waits == 0);
    assert!(rt; counts.count(RetryKind::FailedWithoutRetry) == 1 && counts.waits() == 0);
}

// Three attempts at a full bulkhead are two waits and a failure, in each of two calls.
#[test]
fn refusals_in_a_chain_are_counted(rt: HostRuntime) {
    let (full, _pass) = bulkhead(&rt, rt.alloc(), 0);
    let (policy, counts) = (policy(3), RetryCounts::new("prices"));
    let mut chain = Always(Ok::<u8, NoPermit>(1))
        .inside(&full, &rt)
        .retried_observed(&policy, NoPause, || NoLimit, &counts)
        .or_else(|_error| 0);
    for _ in 0..2 {
        assert!(rt; chain.call() == 0);
    }
    assert!(rt; counts.waits() == 4 && counts.retried() == 4 && counts.exhausted() == 2);
    assert!(rt; counts.count(RetryKind::FailedWithRetry) == 2);
}
