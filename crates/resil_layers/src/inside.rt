//! A bulkhead around a call, as a call.

ghost use Rattle.std.specs.Prelude.{◌≡◌, Result};
ghost use Rattle.resil_bulkhead.specs.declared.no_permit.NoPermit.{NoPermit};
ghost use Rattle.resil_bulkhead.specs.Call.{IsCalled};
ghost use Rattle.resil_layers.specs.Inside.{IsAnswerOrRefusal};

use resil_bulkhead::{Bulkhead, NoPermit, Pass};
use resil_call::Call;
use std::sync::Wait;

/// A call made under a permit of a bulkhead. If no permit is free, it returns the error
/// that `NoPermit` becomes (Resilience4j user guide, Decorators: `withBulkhead`).
#[derive(Drop)]
pub struct Inside<'a, R, C> {
    /// The bulkhead that has the permits.
    pub bulkhead: &'a Bulkhead,
    /// The runtime, which waits while other passes come in between.
    pub rt: &'a R,
    /// The pass that takes the permits, of this layer's own.
    pub pass: Pass,
    /// The call inside.
    pub call: C,
    ghost source: { pass.source ≡ bulkhead.now.permits },
}

impl<'a, R: Wait, T: Drop, E: Drop + From<NoPermit>, C: Call<Output = Result<T, E>>> Call
    for Inside<'a, R, C> {
    type Output = Result<T, E>;

    ghost CanCall = { λ x. C.CanCall x.call };

    ghost IsAnswer = { λ x answer y.
        (executed : Result (Result T E) NoPermit) × (y.bulkhead ≡ x.bulkhead)
        × IsCalled C.IsAnswer x.pass y.pass x.call y.call executed × IsAnswerOrRefusal E.from_gives executed answer };

    fn call(&mut self) -> Result<T, E> {
        self.bulkhead.call(self.rt, &mut self.pass, &mut self.call)?
    }
}
