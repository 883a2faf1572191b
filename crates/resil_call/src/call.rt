//! Calls: functions that can be called repeatedly.

/// A function that can be called repeatedly. It can promise something of its answers, but needn't.
///
/// ```
/// impl Call for Flaky {
///     type Output = Result<u32, PriceError>;
///
///     fn call(&mut self) -> Result<u32, PriceError> { self.ask() }
/// }
/// ```
pub trait Call {
    /// What a call returns.
    type Output: Drop;

    /// It can be called.
    ghost CanCall: { Self → Type 0 } = { λ _. Unit {0} };

    /// A call may return this answer and leave the function in this state.
    ghost IsAnswer: { Self → Self.Output → Self → Type 0 } = { λ _ _ _. Unit {0} };

    /// Calls the function once. It can be called again afterwards.
    ///
    /// ```
    /// let six: u8 = 6;
    /// let mut seven = FromFn(|| six + 1);
    /// assert_eq!(rt; seven.call(), 7);
    /// ```
    fn call(&mut self) -> Self::Output
        requires { CanCall self.old }
        ensures answer { IsAnswer self.old result self.new }
        ensures can { CanCall self.new };
}

/// A closure as a call. Its caller learns what is known of the closure's result.
#[derive(Drop)]
pub struct FromFn<F>(pub F);

impl<T: Drop, F: FnMut() -> T> Call for FromFn<F> {
    type Output = T;

    ghost CanCall = { λ x. F.IsAlwaysCallable x.0 };

    ghost IsAnswer = { λ x answer y. F.step x.0 answer y.0 };

    fn call(&mut self) -> T {
        (self.0)()
    }
}
