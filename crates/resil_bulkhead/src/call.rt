//! Calls of your own functions under a permit.
//!
//! The function runs in the same way as that of `call_holding`, whose clauses say that a permit is
//! held meanwhile. The calls of this file have no such clause, since their function isn't lent the
//! pass: what a pass has seen, and what the function says of its answer, would be the same if the
//! permit were released first. A test looks from inside the call.

ghost use Rattle.std.specs.Prelude.{◌≡◌, ◌<◌, ◌+◌, IsErr, IfErr, IsErrOf};
ghost use Rattle.std.specs.Duration.{as_nanos};
ghost use Rattle.resil_permit.specs.declared.event.PermitEvent.TheVariants.{Gave};
ghost use Rattle.resil_permit.specs.Passes.{PassView, held_by, retired_by, IsSamePass, AppendsEvent};
ghost use Rattle.resil_permit.specs.Waits.{HasWaited, HasWaitedBy};
ghost use Rattle.resil_bulkhead.specs.Call.{IsCalled, attempt_in};

use crate::bulkhead::Bulkhead;
use crate::no_permit::NoPermit;
use resil_call::Call;
use resil_clock::Reads;
use resil_permit::{Attempt, Pass};
use std::sync::Wait;
use std::time::Duration;

impl Bulkhead {
    /// Calls the function once under a permit and returns its answer (Resilience4j user guide,
    /// Bulkhead). Afterwards the pass holds as many permits as before, and has retired as many.
    ///
    /// It retries while other passes come in between, and so may wait for them.
    ///
    /// # Errors
    ///
    /// `Full` if no permit is free; the function isn't called.
    ///
    /// ```
    /// let (bulkhead, mut pass) = Bulkhead::new(rt.alloc(), "letters", 1)?;
    /// let seven = bulkhead.call(&rt, &mut pass, &mut FromFn(|| six + 1))?;
    /// ```
    pub fn call<R: Wait, C: Call>(
        &self,
        rt: &R,
        pass: &mut Pass,
        call: &mut C,
    ) -> Result<C::Output, NoPermit>
        requires source { pass.old.source ≡ self.now.permits }
        requires can { C.CanCall call.old }
        ensures pass { IsSamePass pass.old pass.new }
        ensures executed { IsCalled C.IsAnswer pass.old pass.new call.old call.new result }
        ensures full { IfErr result (λ refused. refused ≡ NoPermit.Full) }
        ensures nobody { self.now.permits.max ≡ 0 → IsErr result }
        ensures held { held_by pass.new ≡ held_by pass.old }
        ensures retired { retired_by pass.new ≡ retired_by pass.old }
        ensures can { C.CanCall call.new }
    {
        if !self.enter(rt, pass) {
            return Err(NoPermit::Full);
        }
        Ok(self.call_and_release(pass, call))
    }

    /// Like `call`, but if no permit is free, waits for one for at most `longest` (Resilience4j user
    /// guide, Bulkhead: `maxWaitDuration`). With zero it is `call`. Waiting isn't fair: a newer
    /// caller may get the permit first.
    ///
    /// # Errors
    ///
    /// `Full` if no permit came free; the function isn't called.
    ///
    /// ```
    /// let longest = Duration::from_millis(50);
    /// let seven = bulkhead.call_within(&rt, &mut pass, longest, &mut FromFn(|| six + 1))?;
    /// ```
    pub fn call_within<R: Wait + Reads, C: Call>(
        &self,
        rt: &R,
        pass: &mut Pass,
        longest: Duration,
        call: &mut C,
    ) -> Result<C::Output, NoPermit>
        requires source { pass.old.source ≡ self.now.permits }
        requires can { C.CanCall call.old }
        ensures pass { IsSamePass pass.old pass.new }
        ensures executed { (waited : PassView) × HasWaited (as_nanos longest) pass.old waited × IsCalled C.IsAnswer waited pass.new call.old call.new result }
        ensures by_the_clock { (waited : PassView) × HasWaitedBy (R.HasSaid rt.now) (as_nanos longest) self.now.permits.max pass.old waited (attempt_in result) × IsCalled C.IsAnswer waited pass.new call.old call.new result }
        ensures at_once { as_nanos longest ≡ 0 → IsCalled C.IsAnswer pass.old pass.new call.old call.new result }
        ensures full { IfErr result (λ refused. refused ≡ NoPermit.Full) }
        ensures nobody { self.now.permits.max ≡ 0 → IsErr result }
        ensures held { held_by pass.new ≡ held_by pass.old }
        ensures retired { retired_by pass.new ≡ retired_by pass.old }
        ensures can { C.CanCall call.new }
    {
        if !self.enter_within(rt, pass, longest) {
            return Err(NoPermit::Full);
        }
        Ok(self.call_and_release(pass, call))
    }

    /// Like `call`, but tries only once and never waits.
    ///
    /// # Errors
    ///
    /// `Full` if no permit is free, `Contended` if another pass came in between; the function isn't called.
    ///
    /// ```
    /// let seven = bulkhead.call_once(&mut pass, &mut FromFn(|| six + 1))?;
    /// ```
    #[tactic(auto, using(crate::proofs::NoPermits::never_contended, crate::proofs::NoPermits::never_taken))]
    pub fn call_once<C: Call>(&self, pass: &mut Pass, call: &mut C) -> Result<C::Output, NoPermit>
        requires source { pass.old.source ≡ self.now.permits }
        requires can { C.CanCall call.old }
        ensures pass { IsSamePass pass.old pass.new }
        ensures executed { IsCalled C.IsAnswer pass.old pass.new call.old call.new result }
        ensures nobody { self.now.permits.max ≡ 0 → IsErrOf result NoPermit.Full }
        ensures held { held_by pass.new ≡ held_by pass.old }
        ensures retired { retired_by pass.new ≡ retired_by pass.old }
        ensures can { C.CanCall call.new }
    {
        match self.permits.try_once(pass) {
            Attempt::Taken => Ok(self.call_and_release(pass, call)),
            Attempt::Full => Err(NoPermit::Full),
            Attempt::Contended => Err(NoPermit::Contended),
        }
    }

    // Calls the function under a permit that the pass holds, and releases the permit.
    fn call_and_release<C: Call>(&self, pass: &mut Pass, call: &mut C) -> C::Output
        requires source { pass.old.source ≡ self.now.permits }
        requires held { 0 < held_by pass.old }
        requires can { C.CanCall call.old }
        ensures pass { IsSamePass pass.old pass.new }
        ensures gave { AppendsEvent pass.old (Gave pass.old.number) (λ _. Unit {0}) pass.new }
        ensures held { held_by pass.old ≡ held_by pass.new + 1 }
        ensures retired { retired_by pass.new ≡ retired_by pass.old }
        ensures answer { C.IsAnswer call.old result call.new }
        ensures can { C.CanCall call.new }
    {
        self.hold(
            pass,
            call,
            |_lent: &Pass, call: &mut C| -> C::Output
                requires { C.CanCall call.old }
                ensures answer { C.IsAnswer call.old result call.new }
                ensures can { C.CanCall call.new }
            { call.call() },
        )
    }
}
