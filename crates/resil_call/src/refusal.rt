//! Answers and errors of calls that may be refused.

ghost use Rattle.std.specs.Prelude.{Bool};

/// An answer that can be such a refusal: a `Result` whose error type implements `From` of it.
///
/// ```
/// impl From<Refusal> for PriceError {
///     fn from(_refused: Refusal) -> PriceError { PriceError::Busy }
/// }
/// ```
pub trait CanBeRefused<N> {}

impl<T, N, E: From<N>> CanBeRefused<N> for Result<T, E> {}

/// An error that says whether it is a refusal: the call wasn't made, for example because no permit was free.
///
/// ```
/// impl TellsRefusal for PriceError {
///     fn is_refusal(&self) -> bool {
///         matches!(self, PriceError::Busy)
///     }
/// }
/// ```
pub trait TellsRefusal {
    /// It may say so of itself.
    ghost IsRefusal: { Self → Bool → Type 0 } = { λ _ _. Unit {0} };

    /// Returns whether it is a refusal.
    fn is_refusal(&self) -> bool
        ensures { IsRefusal self.now result };
}
