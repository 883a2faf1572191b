//! Why a pool returned no answer.

use crate::state::Refused;
use resil_call::TellsRefusal;
use thiserror::Error;

/// Why a pool returned no answer.
///
/// ```
/// impl From<NoAnswer> for PriceError {
///     fn from(_none: NoAnswer) -> PriceError { PriceError::Busy }
/// }
/// ```
#[derive(Clone, Copy, PartialEq, Eq, Debug, Error)]
pub enum NoAnswer {
    /// The pool refused the job, and didn't run it (Resilience4j: `BulkheadFullException`).
    #[error("the pool refused the job: {0:?}")]
    Refused(Refused),
    /// The answer didn't come in time, or the clock couldn't be read. The job is run all the same.
    #[error("no answer came in time")]
    OutOfTime,
    /// The job was dropped without a run, for example by a pool that is dropped before its end.
    #[error("the job was dropped without a run")]
    Unrun,
}

impl TellsRefusal for NoAnswer {
    ghost use Rattle.std.specs.Prelude.{◌≡◌};
    ghost use Rattle.resil_executor.specs.Dispatch.{is_refused};

    ghost IsRefusal = { λ none is. is ≡ is_refused none };

    fn is_refusal(&self) -> bool {
        matches!(self, NoAnswer::Refused(_))
    }
}
