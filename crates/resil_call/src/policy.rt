//! How many attempts a retry makes, how long it waits after each, and which answers it tries again.

ghost use Rattle.std.specs.Prelude.{◌≡◌};

use crate::backoff::SameWait;
use crate::retry_test::EveryError;

/// How many attempts a retry makes, how long it waits after each, and which answers it tries again
/// (Resilience4j user guide, Retry: `RetryConfig`).
///
/// ```
/// let policy = RetryPolicy {
///     max_attempts: 4,
///     backoff: ByAttempt(|attempt: u32| u64::from(attempt) * 100),
///     retry_on: EveryError,
/// };
/// ```
#[derive(Debug, Drop)]
pub struct RetryPolicy<B, A> {
    /// The maximum number of attempts, the first call included: 1 or more.
    pub max_attempts: u32,
    /// The wait after each attempt.
    pub backoff: B,
    /// Which answers are tried again.
    pub retry_on: A,
}

impl RetryPolicy<SameWait, EveryError> {
    /// Returns Resilience4j's defaults: 3 attempts, 500 ms after each, and every error is tried again.
    ///
    /// ```
    /// let tried = retry(&RetryPolicy::defaults(), &mut call, &mut Sleep::new(&rt));
    /// ```
    pub fn defaults() -> RetryPolicy<SameWait, EveryError>
        ensures attempts { result.max_attempts ≡ 3 }
        ensures waits { result.backoff.0 ≡ 500 }
    {
        RetryPolicy {
            max_attempts: 3,
            backoff: SameWait(500),
            retry_on: EveryError,
        }
    }
}
