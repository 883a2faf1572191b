//! Calls that lend their function the pass that holds the permit.
//!
//! Every call under a permit runs its function at the one line of `hold`. It can call it only with a pass that holds a
//! permit, because it doesn't know of other passes that the function may be called with them. While the pass is lent,
//! nobody can release the permit.

ghost use Rattle.std.specs.Prelude.{◌≡◌, ◌<◌, ◌+◌, IsErr, IfErr};
ghost use Rattle.resil_permit.specs.declared.event.PermitEvent.TheVariants.{Gave};
ghost use Rattle.resil_permit.specs.Passes.{held_by, retired_by, IsSamePass, AppendsEvent};
ghost use Rattle.resil_bulkhead.specs.Holding.{CanRunUnder, IsCalledHolding};

use crate::bulkhead::Bulkhead;
use crate::no_permit::NoPermit;
use resil_permit::Pass;
use std::sync::Wait;

impl Bulkhead {
    /// Calls the function once with the pass, while the pass holds a permit, and returns its answer. A function that may
    /// be called only under a permit says so by what it requires of the pass.
    ///
    /// It retries while other passes come in between, and so may wait for them.
    ///
    /// # Errors
    ///
    /// `Full` if no permit is free; the function isn't called.
    ///
    /// ```
    /// let held = bulkhead.call_holding(&rt, &mut pass, |lent| lent.held())?;
    /// ```
    pub fn call_holding<R: Wait, T, F: FnOnce(&Pass) -> T>(
        &self,
        rt: &R,
        pass: &mut Pass,
        call: F,
    ) -> Result<T, NoPermit>
        requires source { pass.old.source ≡ self.now.permits }
        requires can { CanRunUnder self.now.permits (F.pre call) }
        ensures pass { IsSamePass pass.old pass.new }
        ensures executed { IsCalledHolding (F.post call) pass.old pass.new result }
        ensures full { IfErr result (λ refused. refused ≡ NoPermit.Full) }
        ensures nobody { self.now.permits.max ≡ 0 → IsErr result }
        ensures held { held_by pass.new ≡ held_by pass.old }
        ensures retired { retired_by pass.new ≡ retired_by pass.old }
    {
        if !self.enter(rt, pass) {
            return Err(NoPermit::Full);
        }
        let lend = |lent: &Pass, _nothing: &mut ()| -> T
            requires { F.pre call lent }
            ensures { F.post call lent.entry result }
        { call(lent) };
        Ok(self.hold(pass, &mut (), lend))
    }

    // Calls the function with the pass, which holds a permit, and with the state that it changes, then releases the permit.
    pub(crate) fn hold<S, T, F: FnOnce(&Pass, &mut S) -> T>(
        &self,
        pass: &mut Pass,
        changed: &mut S,
        call: F,
    ) -> T
        requires source { pass.old.source ≡ self.now.permits }
        requires held { 0 < held_by pass.old }
        requires can { (given : _) → given.now ≡ changed.old → CanRunUnder self.now.permits (λ lent. F.pre call lent given) }
        ensures pass { IsSamePass pass.old pass.new }
        ensures gave { AppendsEvent pass.old (Gave pass.old.number) (λ _. Unit {0}) pass.new }
        ensures held { held_by pass.old ≡ held_by pass.new + 1 }
        ensures retired { retired_by pass.new ≡ retired_by pass.old }
        ensures answer { (lent : _) × (given : _) × (left : _) × (lent.now ≡ pass.old) × (given.now ≡ changed.old) × (left.now ≡ changed.new) × F.post call lent given result left }
    {
        let answer = call(pass, changed);
        self.leave(pass);
        answer
    }
}
