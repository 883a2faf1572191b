//! Fallbacks around a call, as calls.

ghost use Rattle.std.specs.Prelude.{◌≡◌, Result};
ghost use Rattle.resil_layers.specs.Fallback.{IsElse, IsRecovered};

use resil_call::Call;

/// A call whose errors a function turns into values (Resilience4j user guide, Decorators: `withFallback`).
#[derive(Drop)]
pub struct OrElse<C, F> {
    /// The call inside.
    pub call: C,
    /// The value instead of an error.
    pub value: F,
}

impl<T: Drop, E: Drop, C: Call<Output = Result<T, E>>, F: FnMut(E) -> T> Call for OrElse<C, F> {
    type Output = T;

    ghost CanCall = { λ x. C.CanCall x.call × F.IsAlwaysCallable x.value };

    ghost IsAnswer = { λ x answer y. (given : Result T E) × C.IsAnswer x.call given y.call × IsElse F.step x.value y.value given answer };

    fn call(&mut self) -> T {
        match self.call.call() {
            Ok(value) => value,
            Err(error) => (self.value)(error),
        }
    }
}

/// A call with some errors, those that a test names, turned into values by a function. Other errors
/// stay (Resilience4j user guide, Decorators: `withFallback` of listed exceptions).
#[derive(Drop)]
pub struct Fallback<C, K, F> {
    /// The call inside.
    pub call: C,
    /// Which errors become values.
    pub names: K,
    /// The value instead of an error.
    pub value: F,
}

impl<T: Drop, E: Drop, C: Call<Output = Result<T, E>>, K: Fn(&E) -> bool, F: FnMut(E) -> T> Call
    for Fallback<C, K, F> {
    ghost use Rattle.std.specs.Fn.{FnReturnsAt};

    type Output = Result<T, E>;

    ghost CanCall = { λ x. C.CanCall x.call × K.IsAlwaysCallable x.names × F.IsAlwaysCallable x.value };

    ghost IsAnswer = { λ x answer y.
        (given : Result T E) × C.IsAnswer x.call given y.call × (y.names ≡ x.names)
        × IsRecovered (FnReturnsAt K.Fn x.names) F.step x.value y.value given answer };

    fn call(&mut self) -> Result<T, E> {
        match self.call.call() {
            Ok(value) => Ok(value),
            Err(error) => {
                if (self.names)(&error) {
                    Ok((self.value)(error))
                } else {
                    Err(error)
                }
            }
        }
    }
}
