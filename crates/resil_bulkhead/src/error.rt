//! Errors of bulkheads.
//!
//! Only making a bulkhead has these. A caller that finds no free permit gets a `NoPermit`, or the
//! outcome `Full`.

ghost use Rattle.std.specs.Prelude.{◌≡◌};
ghost use Rattle.resil_bulkhead.specs.declared.error.BulkheadError.TheVariants.{Memory};
ghost use Rattle.resil_bulkhead.specs.Bulkhead.{error_of};

use resil_permit::PermitError;
use std::alloc::AllocError;
use thiserror::Error;

/// Why a bulkhead couldn't be made.
///
/// ```
/// match Bulkhead::new(alloc, name, max) {
///     Ok((bulkhead, pass)) => serve(bulkhead, pass),
///     Err(BulkheadError::BadName) => println!(rt; "{name:?} is no name")?,
///     Err(BulkheadError::TooManyPermits) => println!(rt; "{max} calls are too many")?,
///     Err(refused) => println!(rt; "{refused}")?,
/// }
/// ```
#[derive(Clone, Copy, PartialEq, Eq, Debug, Error)]
pub enum BulkheadError {
    /// The name isn't 1 to 64 bytes of ASCII letters, digits, `-`, `_` and `.`.
    #[error("a name must be 1 to 64 bytes of ASCII letters, digits, `-`, `_` and `.`")]
    BadName,
    /// Out of memory.
    #[error("out of memory")]
    Memory,
    /// `max` is above 65,535.
    #[error("a bulkhead permits at most 65535 concurrent calls")]
    TooManyPermits,
}

impl From<PermitError> for BulkheadError {
    ghost from_gives = { λ refused error. error ≡ error_of refused };

    fn from(refused: PermitError) -> BulkheadError {
        match refused {
            PermitError::Memory => BulkheadError::Memory,
            PermitError::TooManyPermits => BulkheadError::TooManyPermits,
        }
    }
}

impl From<AllocError> for BulkheadError {
    ghost from_gives = { λ _ error. error ≡ Memory };

    fn from(_refused: AllocError) -> BulkheadError {
        BulkheadError::Memory
    }
}
