//! Errors of the whole rule.

use std::alloc::AllocError;
use thiserror::Error;

/// Why limits or an audit are refused.
///
/// ```
/// match JdkLimits::new(core, max, queue) {
///     Ok(limits) => println!(rt; "at most {} workers", limits.max())?,
///     Err(error) => println!(rt; "{error}")?,
/// }
/// ```
#[derive(Clone, Copy, Debug, PartialEq, Eq, Error)]
pub enum JdkError {
    /// The core size isn't from 0 to 536,870,911.
    #[error("the core size is not from 0 to 536870911")]
    CoreOutOfRange,
    /// The maximum size isn't from 1 to 536,870,911, or is less than the core size.
    #[error("the maximum size is not from 1 and the core size to 536870911")]
    MaxOutOfRange,
    /// The queue capacity isn't from 0 to 2,147,483,647.
    #[error("the queue capacity is not from 0 to 2147483647")]
    QueueOutOfRange,
    /// Out of memory.
    #[error("out of memory")]
    Memory,
}

impl From<AllocError> for JdkError {
    ghost use Rattle.std.specs.Prelude.{◌≡◌};
    ghost use Rattle.resil_jdk.specs.declared.error.JdkError.TheVariants.{Memory};

    ghost from_gives = { λ _ e. e ≡ Memory };

    fn from(_error: AllocError) -> JdkError {
        JdkError::Memory
    }
}
