//! Why a batch is broken off: it is out of memory, or a thread couldn't be started.

ghost use Rattle.std.specs.Prelude.{◌≡◌};
ghost use Rattle.resil_workers.specs.declared.batch.error.BatchError.TheVariants.{Memory};

use std::alloc::AllocError;

/// Why a batch is broken off.
#[derive(Clone, Copy, Debug)]
pub(crate) enum BatchError {
    /// Out of memory.
    Memory,
    /// A thread couldn't be started.
    Thread,
}

impl From<AllocError> for BatchError {
    ghost from_gives = { λ _ error. error ≡ Memory };

    fn from(_refused: AllocError) -> BatchError {
        BatchError::Memory
    }
}
