//! Errors of retries.
//!
//! All constructors and copies of the crate share one error type, so that a caller who makes
//! several parts can use `?`. Each variant has one cause.

ghost use Rattle.std.specs.Prelude.{◌≡◌};
ghost use Rattle.resil_retry.specs.declared.error.RetryError.TheVariants.{Memory};

use std::alloc::AllocError;
use thiserror::Error;

/// Why an interval, a script, a configuration or a list of waits couldn't be made.
///
/// ```
/// match Interval::exponential(initial, 2, 1, cap) {
///     Ok(interval) => println!(rt; "{} ms after the first attempt", interval.after(1))?,
///     Err(RetryError::CapBelowInitial) => println!(rt; "{cap} ms is below {initial} ms")?,
///     Err(error) => println!(rt; "{error}")?,
/// }
/// ```
#[derive(Clone, Copy, Debug, PartialEq, Eq, Error)]
pub enum RetryError {
    /// A wait is longer than `MAX_INTERVAL`.
    #[error("an interval may be at most 31,536,000,000 ms")]
    IntervalTooLong,
    /// The multiplier isn't within `1 <= denominator <= numerator <= 1000`.
    #[error("the multiplier must have 1 <= denominator <= numerator <= 1000")]
    BadMultiplier,
    /// The cap of an exponential interval is shorter than its first wait.
    #[error("the cap is below the initial interval")]
    CapBelowInitial,
    /// A script has no outcome.
    #[error("the script has no outcome")]
    EmptyScript,
    /// A configuration has no attempt.
    #[error("a retry must have at least one attempt")]
    NoAttempts,
    /// A configuration has more attempts than `MAX_ATTEMPTS`.
    #[error("a retry may have at most 1,000 attempts")]
    TooManyAttempts,
    /// Out of memory.
    #[error("out of memory")]
    Memory,
}

impl From<AllocError> for RetryError {
    ghost from_gives = { λ _ error. error ≡ Memory };

    fn from(_refused: AllocError) -> RetryError {
        RetryError::Memory
    }
}
