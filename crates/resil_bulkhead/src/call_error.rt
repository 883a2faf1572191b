//! An error for functions that are called under a bulkhead.

ghost use Rattle.std.specs.Prelude.{◌≡◌};
ghost use Rattle.resil_bulkhead.specs.declared.call_error.CallError.TheVariants.{NoPermit};

use crate::no_permit::NoPermit;
use resil_call::TellsRefusal;

/// Why a call under a bulkhead returned no value: there was no permit, or its function failed.
///
/// ```
/// let busy: CallError<ReadError> = CallError::from(NoPermit::Full);
/// assert!(rt; busy.is_refusal() && !CallError::Failed(ReadError::NotANumber).is_refusal());
/// ```
#[derive(Clone, Copy, PartialEq, Eq, Debug, Drop)]
pub enum CallError<E> {
    /// There was no permit, and the function wasn't called.
    NoPermit(NoPermit),
    /// The function's own error.
    Failed(E),
}

impl<E> From<NoPermit> for CallError<E> {
    ghost from_gives = { λ refused error. error ≡ NoPermit refused };

    fn from(refused: NoPermit) -> CallError<E> {
        CallError::NoPermit(refused)
    }
}

impl<E> TellsRefusal for CallError<E> {
    ghost use Rattle.std.specs.Prelude.{◌≡◌};
    ghost use Rattle.resil_bulkhead.specs.NoPermit.{is_no_permit};

    ghost IsRefusal = { λ error is. is ≡ is_no_permit error };

    fn is_refusal(&self) -> bool {
        matches!(self, CallError::NoPermit(_))
    }
}
