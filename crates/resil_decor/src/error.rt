//! Errors of chains and jobs.
//!
//! A run has no errors, since all its memory is reserved before: only making or copying has.
//! `Chain::new` and `Job::new` return what they got, together with the error.

ghost use Rattle.std.specs.Prelude.{◌≡◌};
ghost use Rattle.resil_decor.specs.declared.error.DecorError.TheVariants.{Memory};

use std::alloc::AllocError;
use thiserror::Error;

/// Why a chain, a job, a permitter or a copy couldn't be made.
///
/// ```
/// match Chain::new(layers) {
///     Ok(chain) => println!(rt; "{chain:?}")?,
///     Err((DecorError::TooManyLayers, _layers)) => println!(rt; "at most {MAX_LAYERS}")?,
///     Err((error, _layers)) => println!(rt; "{error}")?,
/// }
/// ```
#[derive(Clone, Copy, Debug, PartialEq, Eq, Error)]
pub enum DecorError {
    /// A chain has more layers than `MAX_LAYERS`.
    #[error("a chain may have at most 8 layers")]
    TooManyLayers,
    /// The product of the attempts of a chain's retries is above `MAX_CALLS`.
    #[error("a chain may make at most 1,000 calls")]
    TooManyCalls,
    /// Out of memory.
    #[error("out of memory")]
    Memory,
}

impl From<AllocError> for DecorError {
    ghost from_gives = { λ _ error. error ≡ Memory };

    fn from(_refused: AllocError) -> DecorError {
        DecorError::Memory
    }
}
