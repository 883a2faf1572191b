//! The errors of the rule, and of the pools that follow it.

use std::alloc::AllocError;
use thiserror::Error;

/// A refusal. The comment on each call names the ones that it can give, in their order.
///
/// ```
/// match machine.submit(alloc, id, job) {
///     Ok(reply) => println!(rt; "{reply:?}")?,
///     Err((AdmitError::WrongNumber, _job)) => println!(rt; "not the next number")?,
///     Err((error, _job)) => println!(rt; "{error}")?,
/// }
/// ```
#[derive(Clone, Copy, Debug, PartialEq, Eq, Error)]
pub enum AdmitError {
    /// The core size isn't from 1 to 64. The bound is 1,024 for `Sizes`, and in a pool that was opened for more than 64 workers.
    #[error("the core size is not from 1 to 64, or to 1024 in a pool for more than 64 workers")]
    CoreOutOfRange,
    /// The maximum size isn't from the core size to 64, or to 1,024 for `Sizes`. For a resize the bound is the maximum size
    /// that the pool was made with.
    #[error("the maximum size is not from the core size to the largest one allowed: 64, 1024 by Sizes, or that of the opening")]
    MaxOutOfRange,
    /// The queue capacity isn't from 1 to 65,536.
    #[error("the queue capacity is not from 1 to 65536")]
    QueueOutOfRange,
    /// Out of memory. Nothing was changed.
    #[error("out of memory")]
    Memory,
    /// The submission's number isn't its caller's next one.
    #[error("not the caller's next number")]
    WrongNumber,
    /// No unfinished job with this id was picked.
    #[error("no job with this id is running")]
    NotOut,
    /// The run belongs to another plan than the one that was submitted under this id.
    #[error("the run is not of the job's plan")]
    OtherJob,
    /// An accepted job has no result.
    #[error("an accepted job has no result")]
    NotDone,
}

impl From<AllocError> for AdmitError {
    ghost use Rattle.std.specs.Prelude.{◌≡◌};
    ghost use Rattle.resil_rule.specs.declared.error.AdmitError.TheVariants.{Memory};

    ghost from_gives = { λ _ e. e ≡ Memory };

    fn from(_error: AllocError) -> AdmitError {
        AdmitError::Memory
    }
}

/// Why a submission isn't accepted, in the order in which the rule checks.
///
/// ```
/// match rule.submit(id, work) {
///     Ok(reply) => println!(rt; "{reply:?}")?,
///     Err((Refusal::Full, work)) => keep(work),
///     Err((refusal, _work)) => println!(rt; "{refusal}")?,
/// }
/// ```
#[derive(Clone, Copy, Debug, PartialEq, Eq, Error)]
pub enum Refusal {
    /// The caller isn't one whose submissions are counted. Nothing was changed.
    #[error("no such caller")]
    NoSuchCaller,
    /// The submission's number isn't its caller's next one. Nothing was changed.
    #[error("not the caller's next number")]
    WrongNumber,
    /// The queue is full, and there are as many workers as the maximum size. The submission counts.
    #[error("the pool is full")]
    Full,
    /// The pool is closed. The submission counts.
    #[error("the pool is closed")]
    Closed,
}
