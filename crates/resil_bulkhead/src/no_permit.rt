//! Why no permit was acquired.

use resil_call::TellsRefusal;
use thiserror::Error;

/// Why no permit was acquired (Resilience4j user guide, Bulkhead: `BulkheadFullException`). The
/// function that should have run under it wasn't called.
///
/// ```
/// impl From<NoPermit> for PriceError {
///     fn from(_refused: NoPermit) -> PriceError { PriceError::Busy }
/// }
/// ```
#[derive(Clone, Copy, PartialEq, Eq, Debug, Error)]
pub enum NoPermit {
    /// All permits in use were held.
    #[error("the bulkhead is full")]
    Full,
    /// Another pass came in between. Only a call that never waits returns this, and you may call it again.
    #[error("another call came in between")]
    Contended,
}

impl TellsRefusal for NoPermit {
    ghost use Rattle.std.specs.Prelude.{◌≡◌, true};

    ghost IsRefusal = { λ _ is. is ≡ true };

    fn is_refusal(&self) -> bool {
        true
    }
}
