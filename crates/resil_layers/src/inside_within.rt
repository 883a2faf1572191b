//! A bulkhead around a call, as a call that waits for its permit.

ghost use Rattle.std.specs.Prelude.{◌≡◌, Result};
ghost use Rattle.std.specs.Duration.{as_nanos};
ghost use Rattle.resil_permit.specs.Passes.{PassView};
ghost use Rattle.resil_permit.specs.Waits.{HasWaited, HasWaitedBy};
ghost use Rattle.resil_bulkhead.specs.declared.no_permit.NoPermit.{NoPermit};
ghost use Rattle.resil_bulkhead.specs.Call.{IsCalled, attempt_in};
ghost use Rattle.resil_layers.specs.Inside.{IsAnswerOrRefusal};

use resil_bulkhead::{Bulkhead, NoPermit, Pass};
use resil_call::Call;
use resil_clock::Reads;
use std::sync::Wait;
use std::time::Duration;

/// A call made under a permit of a bulkhead, for which it waits a while. If no permit came
/// free, it returns the error that `NoPermit` becomes (Resilience4j user guide, Decorators:
/// `withBulkhead`, with a `maxWaitDuration`).
#[derive(Drop)]
pub struct InsideWithin<'a, R, C> {
    /// The bulkhead that has the permits.
    pub bulkhead: &'a Bulkhead,
    /// The runtime, to wait by and to read the clock.
    pub rt: &'a R,
    /// The pass that takes the permits, of this layer's own.
    pub pass: Pass,
    /// The longest wait.
    pub longest: Duration,
    /// The call inside.
    pub call: C,
    ghost source: { pass.source ≡ bulkhead.now.permits },
}

impl<'a, R: Wait + Reads, T: Drop, E: Drop + From<NoPermit>, C: Call<Output = Result<T, E>>> Call
    for InsideWithin<'a, R, C> {
    type Output = Result<T, E>;

    ghost CanCall = { λ x. C.CanCall x.call };

    ghost IsAnswer = { λ x answer y.
        (executed : Result (Result T E) NoPermit) × (waited : PassView) × (y.bulkhead ≡ x.bulkhead) × HasWaited (as_nanos x.longest) x.pass waited
        × HasWaitedBy (R.HasSaid x.rt.now) (as_nanos x.longest) x.bulkhead.now.permits.max x.pass waited (attempt_in executed)
        × IsCalled C.IsAnswer waited y.pass x.call y.call executed × IsAnswerOrRefusal E.from_gives executed answer };

    fn call(&mut self) -> Result<T, E> {
        self.bulkhead
            .call_within(self.rt, &mut self.pass, self.longest, &mut self.call)?
    }
}
