//! Retries with waits that have a limit, depend on the answer, or are drawn at random.

ghost use Rattle.std.specs.Prelude.{◌≡◌};

use crate::shared::Ticks;
use resil_call::{
    Backoff, ByAnswer, Call, Deadline, End, EveryError, NoPause, Pause, RetryPolicy, SameWait,
    Sleep, WaitBudget, retry, retry_in_budget, retry_within,
};
use resil_layers::{DecorateWithin, Jitter};
use std::time::Duration;

// Returns the errors 1, 2 and so on.
#[derive(Drop)]
struct Failing(u64);

impl Call for Failing {
    type Output = Result<u8, u64>;

    fn call(&mut self) -> Result<u8, u64> {
        self.0 = self.0.saturating_add(1);
        Err(self.0)
    }
}

// Counts its pauses, and keeps the sum, the shortest and the longest.
#[derive(Drop)]
struct Waits {
    count: u64,
    sum: u64,
    least: u64,
    most: u64,
}

impl Waits {
    fn new() -> Waits {
        Waits {
            count: 0,
            sum: 0,
            least: u64::MAX,
            most: 0,
        }
    }
}

impl Pause for Waits {
    fn pause(&mut self, milliseconds: u64) {
        self.count = self.count.saturating_add(1);
        self.sum = self.sum.saturating_add(milliseconds);
        self.least = self.least.min(milliseconds);
        self.most = self.most.max(milliseconds);
    }
}

// Waits of 100 ms, 200 ms and so on.
#[derive(Drop)]
struct Hundreds;

impl Backoff for Hundreds {
    fn after(&self, attempt: u32) -> u64 {
        u64::from(attempt) * 100
    }
}

// A policy of this many attempts that tries every error again.
fn policy<B>(max_attempts: u32, backoff: B) -> RetryPolicy<B, EveryError>
    ensures { result.max_attempts ≡ max_attempts }
{
    RetryPolicy {
        max_attempts,
        backoff,
        retry_on: EveryError,
    }
}

// 100 + 200 + 300 are within 650, and 400 more aren't.
#[test]
fn a_budget_ends_a_retry(rt: HostRuntime) {
    let policy = policy(9, Hundreds);
    let mut budget = WaitBudget(650);
    let mut waits = Waits::new();
    let tried = retry_in_budget(&policy, &mut budget, &mut Failing(0), &mut waits);
    assert!(rt; tried.answer == Err(4) && tried.attempts == 4 && tried.end == End::OutOfTime);
    assert!(rt; waits.count == 3 && waits.sum == 600 && budget == WaitBudget(50));
}

// A wait of two hours doesn't begin if only an hour is left, and the answer is there at once.
#[test]
fn a_deadline_bars_what_passes_it(rt: HostRuntime) {
    let policy = policy(9, SameWait(7_200_000));
    let mut deadline = Deadline::after(&rt, Duration::from_secs(3_600));
    let mut sleep = Sleep::new(&rt);
    let tried = retry_within(&policy, &mut deadline, &mut Failing(0), &mut sleep);
    assert!(rt; tried.answer == Err(1) && tried.attempts == 1 && tried.end == End::OutOfTime);
}

// Waits of 5 ms until 50 ms are over, with 3 ms at each reading of the clock: fifteen. The last begins at 45 ms.
#[test]
fn a_deadline_allows_what_ends_in_time(rt: HostRuntime) {
    let (policy, clock) = (policy(100, SameWait(5)), Ticks::new());
    let mut deadline = Deadline::after(&clock, Duration::from_millis(50));
    let tried = retry_within(&policy, &mut deadline, &mut Failing(0), &mut NoPause);
    assert!(rt; tried.end == End::OutOfTime && tried.attempts == 16);
}

// At most ten by the machine's clock, whatever else the machine does.
#[test]
fn a_deadline_comes_by_the_clock(rt: HostRuntime) {
    let policy = policy(100, SameWait(5));
    let mut deadline = Deadline::after(&rt, Duration::from_millis(50));
    let mut sleep = Sleep::new(&rt);
    let tried = retry_within(&policy, &mut deadline, &mut Failing(0), &mut sleep);
    assert!(rt; tried.end == End::OutOfTime && tried.attempts <= 11);
}

// Each error says how long to wait before the next attempt.
#[test]
fn a_wait_is_the_one_that_the_answer_tells(rt: HostRuntime) {
    let policy = RetryPolicy {
        max_attempts: 4,
        backoff: ByAnswer(|attempt: u32, answer: &Result<u8, u64>| match answer {
            Ok(_) => u64::from(attempt),
            Err(seconds) => seconds.saturating_mul(1_000),
        }),
        retry_on: EveryError,
    };
    let mut waits = Waits::new();
    let mut budget = WaitBudget(60_000);
    let tried = retry_within(&policy, &mut budget, &mut Failing(2), &mut waits);
    assert!(rt; tried.answer == Err(6) && tried.end == End::Exhausted);
    assert!(rt; waits.sum == 12_000 && waits.least == 3_000 && waits.most == 5_000);
}

// The pauses of 101 attempts with waits of a second, as a jitter draws them.
fn drawn(mut pause: Jitter<Waits>) -> Waits {
    let policy = policy(101, SameWait(1_000));
    let _tried = retry(&policy, &mut Failing(0), &mut pause);
    pause.pause
}

#[test]
fn a_jitter_draws_from_half_to_the_whole(rt: HostRuntime) {
    let waits = drawn(Jitter::new(Waits::new(), 7));
    assert!(rt; waits.count == 100 && 500 <= waits.least && waits.most <= 1_000);
    assert!(rt; waits.least < 600 && 900 < waits.most);
    let again = drawn(Jitter::new(Waits::new(), 7));
    assert!(rt; again.sum == waits.sum);
    let other = drawn(Jitter::new(Waits::new(), 8));
    assert!(rt; other.sum != waits.sum);
}

#[test]
fn a_full_jitter_draws_from_nothing_to_the_whole(rt: HostRuntime) {
    let waits = drawn(Jitter::full(Waits::new(), 7));
    assert!(rt; waits.count == 100 && waits.least < 100 && 900 < waits.most && waits.most <= 1_000);
}

// Each call of a chain begins a new hour, and no wait of two hours ends in it. What is left is the first answer of each.
#[test]
fn the_end_of_a_layer_begins_anew_at_each_call(rt: HostRuntime) {
    let policy = policy(9, SameWait(7_200_000));
    let hour = Duration::from_secs(3_600);
    let mut chain = Failing(0).retried_within(&policy, &rt, hour, Sleep::new(&rt));
    assert!(rt; chain.call() == Err(1));
    assert!(rt; chain.call() == Err(2));
}
