//! A retry by your own rules: which answers, how long, and how to wait; and one by the defaults.

ghost use Rattle.std.specs.Prelude.{◌≤◌};

use resil_call::{ByAttempt, FromFn, NoPause, PauseBy, RetryIf, RetryPolicy, Tried, retry};

/// Counts until the count is 3 or more, in at most `attempts` attempts. The waits grow by 100 ms,
/// and are added up instead of slept.
fn count_to_three(attempts: u32) -> (Tried<u32>, u64)
    requires { 1 ≤ attempts }
    ensures { result.0.attempts ≤ attempts }
{
    let policy = RetryPolicy {
        max_attempts: attempts,
        backoff: ByAttempt(|attempt: u32| u64::from(attempt) * 100),
        retry_on: RetryIf(|count: &u32| *count < 3),
    };
    let mut count: u32 = 0;
    let mut waited: u64 = 0;
    let tried = retry(
        &policy,
        &mut FromFn(|| {
            count = count.saturating_add(1);
            count
        }),
        &mut PauseBy(|milliseconds| waited = waited.saturating_add(milliseconds)),
    );
    (tried, waited)
}

/// Calls a function that never succeeds: 3 attempts, without the waits.
fn refused() -> Tried<Result<u32, u16>>
    ensures { result.attempts ≤ 3 }
{
    let policy = RetryPolicy::defaults();
    retry(&policy, &mut FromFn(|| Err(503)), &mut NoPause)
}

/// Prints the outcome of each.
pub fn show(rt: &impl Print) -> anyhow::Result<()> {
    let (tried, waited) = count_to_three(4);
    println!(rt; "{} after {waited} ms: {:?}", tried.answer, tried.end)?;
    let (tried, waited) = count_to_three(2);
    println!(rt; "{} after {waited} ms: {:?}", tried.answer, tried.end)?;
    let tried = refused();
    println!(rt;
        "{:?} by {} attempts: {:?}",
        tried.answer, tried.attempts, tried.end
    )?;
    Ok(())
}
