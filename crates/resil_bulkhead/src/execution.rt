//! Calls of callees through a bulkhead: like the call of any function under a permit, but the
//! result is an outcome, and a refusal is the error `Full`.
//!
//! A call that finds a free permit acquires it, calls the function once and releases the permit,
//! whatever the function returns. A call that finds none doesn't call the function. The function may use
//! passes of the bulkhead that it is called through, so nothing is said of the permits while it runs.

ghost use Rattle.std.specs.Prelude.{◌≡◌, IsSomeAnd};
ghost use Rattle.resil_permit.specs.Passes.{held_by, retired_by, IsSamePass};
ghost use Rattle.resil_bulkhead.specs.Execution.{WasRefused, IsExecuted, IsExecutedOnce};

use crate::bulkhead::Bulkhead;
use crate::no_permit::NoPermit;
use resil_permit::Pass;
use resil_retry::{Callee, Kind, Outcome};
use std::sync::Wait;

// The outcome of a call that finds no free permit.
const FULL: Outcome = Outcome::Error(Kind::Full);

impl Bulkhead {
    /// Calls the function once under a permit and returns its outcome, or returns the error `Full`
    /// if no permit is free and doesn't call it (Resilience4j user guide, Bulkhead). Afterwards the
    /// pass holds as many permits as before, and has retired as many. The function runs in the same
    /// way as that of `call_holding`, which holds the permit meanwhile; no clause of this call says
    /// so, and a test shows it.
    ///
    /// It retries while other passes come in between, and so may wait for them.
    ///
    /// ```
    /// let outcome = bulkhead.execute(&rt, &mut pass, &mut Player::new(&script));
    /// ```
    pub fn execute<R: Wait, C: Callee>(&self, rt: &R, pass: &mut Pass, callee: &mut C) -> Outcome
        requires { pass.old.source ≡ self.now.permits }
        ensures pass { IsSamePass pass.old pass.new }
        ensures executed { IsExecuted C.script pass.old pass.new callee.old callee.new result }
        ensures nobody { self.now.permits.max ≡ 0 → WasRefused pass.old pass.new callee.old callee.new result }
        ensures held { held_by pass.new ≡ held_by pass.old }
        ensures retired { retired_by pass.new ≡ retired_by pass.old }
    {
        self.call(rt, pass, callee).unwrap_or(FULL)
    }

    /// Like `execute`, but tries only once and never waits. It returns the outcome of the function,
    /// the error `Full` if no permit is free, or `None` if another pass came in between. In the last
    /// two cases the function isn't called. It runs in the same way as that of `execute`.
    pub fn execute_once<C: Callee>(&self, pass: &mut Pass, callee: &mut C) -> Option<Outcome>
        requires { pass.old.source ≡ self.now.permits }
        ensures pass { IsSamePass pass.old pass.new }
        ensures executed { IsExecutedOnce C.script pass.old pass.new callee.old callee.new result }
        ensures nobody { self.now.permits.max ≡ 0 → IsSomeAnd result (WasRefused pass.old pass.new callee.old callee.new) }
        ensures held { held_by pass.new ≡ held_by pass.old }
        ensures retired { retired_by pass.new ≡ retired_by pass.old }
    {
        match self.call_once(pass, callee) {
            Ok(outcome) => Some(outcome),
            Err(NoPermit::Full) => Some(FULL),
            Err(NoPermit::Contended) => None,
        }
    }
}
