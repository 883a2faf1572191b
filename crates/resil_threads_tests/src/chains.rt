//! A pool in a chain of calls.

use crate::shared::{assert_that, opened};
use resil_call::{Call, FromFn, NoPause, RetryPolicy, TellsRefusal};
use resil_executor::{NoAnswer, Refused, WorkPool, work_while};
use resil_layers::{CallCounts, Counted, Decorate, Observe};
use resil_rule::{AdmitError, NoRecord};
use resil_task::{Answers, Work};
use std::alloc::Global;
use std::sync::Wait;
use std::time::{Clock, Duration};

/// Why there is no half.
#[derive(Clone, Copy, PartialEq, Eq, Debug)]
enum HalfError {
    NoAnswer(NoAnswer),
    Odd,
}

impl From<NoAnswer> for HalfError {
    fn from(none: NoAnswer) -> HalfError {
        HalfError::NoAnswer(none)
    }
}

impl TellsRefusal for HalfError {
    fn is_refusal(&self) -> bool {
        match self {
            HalfError::NoAnswer(none) => none.is_refusal(),
            HalfError::Odd => false,
        }
    }
}

/// Halves an even number.
#[derive(Drop)]
struct HalfOf(u32);

impl Answers for HalfOf {
    type Output = Result<u32, HalfError>;
}

impl Work for HalfOf {
    fn run(self) -> Result<u32, HalfError> {
        if self.0 % 2 == 0 {
            Ok(self.0 / 2)
        } else {
            Err(HalfError::Odd)
        }
    }
}

/// Has the pool halve a number, and waits at most `longest`.
fn half_of<R: Clock + Wait>(
    rt: &R,
    alloc: Global,
    pool: &WorkPool<HalfOf>,
    number: u32,
    longest: Duration,
) -> Result<u32, HalfError> {
    pool.submit_within(rt, alloc, HalfOf(number), longest)?
}

/// The half of 14, waited for at most 5 ms.
fn half<R: Clock + Wait>(rt: &R, alloc: Global, pool: &WorkPool<HalfOf>) -> Result<u32, HalfError> {
    half_of(rt, alloc, pool, 14, Duration::from_millis(5))
}

// No thread works for the pool: a job for the one worker and one for the one place in the queue are accepted, and no more.
#[test]
fn no_answer_is_told_with_its_cause(rt: HostRuntime) -> Result<(), AdmitError> {
    let alloc = rt.alloc();
    let (pool, mut closer) = opened(alloc, (1, 1, 1), NoRecord)?;
    for wanted in [
        NoAnswer::OutOfTime,
        NoAnswer::OutOfTime,
        NoAnswer::Refused(Refused::Full),
    ] {
        let is_wanted = half(&rt, alloc, &pool) == Err(HalfError::NoAnswer(wanted));
        assert_that(&rt, is_wanted, "two answers out of time, then a full pool");
    }
    pool.close(&rt, &mut closer);
    let closed = HalfError::NoAnswer(NoAnswer::Refused(Refused::Closed));
    assert_that(&rt, half(&rt, alloc, &pool) == Err(closed), "a closed pool");
    Ok(())
}

/// Asks for a half up to three times, of 13 first and then of 14.
fn half_at_last<R: Clock + Wait>(
    rt: &R,
    alloc: Global,
    pool: &WorkPool<HalfOf>,
    counts: &CallCounts,
) -> Option<u32> {
    let policy = RetryPolicy::defaults();
    let mut number: u32 = 12;
    let mut half = FromFn(|| {
        number = number.saturating_add(1).min(14);
        half_of(rt, alloc, pool, number, Duration::from_secs(60))
    })
    .counted(counts)
    .retried(&policy, NoPause);
    half.call().ok()
}

#[test]
fn each_attempt_makes_its_work(rt: HostRuntime) -> Result<(), AdmitError> {
    let alloc = rt.alloc();
    let (pool, closer) = opened(alloc, (1, 2, 8), NoRecord)?;
    let counts = CallCounts::new("halves");
    let ended = work_while(
        &rt,
        &pool,
        closer,
        20,
        || half_at_last(&rt, alloc, &pool, &counts),
    );
    assert_that(
        &rt,
        ended.answer.ok().flatten() == Some(7),
        "the half of 14",
    );
    assert_that(&rt, counts.count(Counted::Called) >= 2, "two attempts");
    assert_that(&rt, counts.count(Counted::Value) == 1, "one value");
    Ok(())
}
