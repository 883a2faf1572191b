//! Which answers are tried again.

ghost use Rattle.std.specs.Prelude.{Bool};

/// Decides which answers are tried again (Resilience4j user guide, Retry: `retryOnResultPredicate`,
/// `retryOnExceptionPredicate`).
///
/// ```
/// impl RetryTest<Answer> for UntilFound {
///     fn is_retried(&self, answer: &Answer) -> bool {
///         !answer.found
///     }
/// }
/// ```
pub trait RetryTest<T> {
    /// It can give a verdict.
    ghost CanAsk: { Self → Type 0 } = { λ _. Unit {0} };

    /// It may give this verdict on an answer.
    ghost IsVerdict: { Self → T → Bool → Type 0 } = { λ _ _ _. Unit {0} };

    /// Returns whether an answer is to be tried again.
    ///
    /// ```
    /// let test = RetryIf(|count: &u32| *count < 3);
    /// assert!(rt; test.is_retried(&2));
    /// assert!(rt; !test.is_retried(&3));
    /// ```
    fn is_retried(&self, answer: &T) -> bool
        requires { CanAsk self.now }
        ensures { IsVerdict self.now answer.now result };
}

/// A closure as a test.
#[derive(Drop)]
pub struct RetryIf<F>(pub F);

impl<T, F: Fn(&T) -> bool> RetryTest<T> for RetryIf<F> {
    ghost use Rattle.std.specs.Fn.{FnReturnsAt};

    ghost CanAsk = { λ x. F.IsAlwaysCallable x.0 };

    ghost IsVerdict = { λ x answer verdict. FnReturnsAt F.Fn x.0 answer verdict };

    fn is_retried(&self, answer: &T) -> bool {
        (self.0)(answer)
    }
}

/// Every error is tried again, and no value (Resilience4j's default).
#[derive(Clone, Copy, PartialEq, Eq, Debug)]
pub struct EveryError;

impl<T, E> RetryTest<Result<T, E>> for EveryError {
    ghost use Rattle.std.specs.Prelude.{◌↔◌, IsTrue, IsErr};

    ghost IsVerdict = { λ _ answer verdict. IsTrue verdict ↔ IsErr answer };

    fn is_retried(&self, answer: &Result<T, E>) -> bool {
        answer.is_err()
    }
}
