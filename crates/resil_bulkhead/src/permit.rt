//! A permit for a scope, released at the end of the scope.
//!
//! The pass comes first: it is lent to the permit, and it comes back if there is no permit.

ghost use Rattle.std.specs.Prelude.{◌≡◌, ◌<◌, ◌+◌, IfOk, IfErr};
ghost use Rattle.std.specs.Borrow.{sem, RestsIfErr};
ghost use Rattle.std.specs.Duration.{as_nanos};
ghost use Rattle.resil_permit.specs.contracts.pass.Pass.{the_row};
ghost use Rattle.resil_permit.specs.declared.event.PermitEvent.TheVariants.{Gave};
ghost use Rattle.resil_permit.specs.declared.permits.Attempt.TheVariants as tried;
ghost use Rattle.resil_permit.specs.Passes.{PassView, held_by, retired_by, IsSamePass, AppendsEvent};
ghost use Rattle.resil_permit.specs.TryAcquire.{IsTry};
ghost use Rattle.resil_permit.specs.Waits.{HasWaited, HasWaitedBy};
ghost use Rattle.resil_bulkhead.specs.NoPermit.{IsRefused, IsRefusedAtLast};

use crate::bulkhead::Bulkhead;
use crate::no_permit::NoPermit;
use resil_clock::Reads;
use resil_permit::{Attempt, Pass};
use std::sync::Wait;
use std::time::Duration;

/// A permit of a bulkhead that a pass holds. It is released when this value goes out of scope, also
/// if a `?` leaves the function.
///
/// ```
/// let _permit = Permit::enter(&mut pass, &bulkhead, &rt)?;
/// write(&letter)?;
/// ```
pub struct Permit<'a> {
    bulkhead: &'a Bulkhead,
    pass: &'a mut Pass,
    ghost source: { pass.now.source ≡ bulkhead.now.permits },
}

impl<'a> Permit<'a> {
    /// Acquires a permit of the bulkhead for the pass (Resilience4j user guide, Bulkhead:
    /// `tryAcquirePermission`).
    ///
    /// It retries while other passes come in between, and so may wait for them.
    ///
    /// # Errors
    ///
    /// `Full` if no permit is free.
    ///
    /// ```
    /// let _permit = Permit::enter(&mut pass, &bulkhead, &rt)?;
    /// let number = text.parse::<u32>().map_err(|_| ReadError::NotANumber)?;
    /// ```
    pub fn enter<R: Wait>(
        pass: &'a mut Pass,
        bulkhead: &'a Bulkhead,
        rt: &R,
    ) -> Result<Permit<'a>, NoPermit>
        requires { pass.old.source ≡ bulkhead.now.permits }
        ensures* refused { sem 𝓛 (RestsIfErr the_row pass.entry (λ permit. permit.pass.ghost_name) result (λ left. IfErr result (IsRefused pass.old left))) }
        ensures reference { IfOk result (λ permit. permit.pass.ghost_name ≡ pass.entry.ghost_name) }
        ensures took { IfOk result (λ permit. IsTry pass.old permit.pass.now tried.Taken) }
        ensures held { IfOk result (λ permit. held_by permit.pass.now ≡ held_by pass.old + 1) }
        ensures retired { IfOk result (λ permit. retired_by permit.pass.now ≡ retired_by pass.old) }
        ensures pass { IfOk result (λ permit. IsSamePass pass.old permit.pass.now) }
        ensures full { IfErr result (λ refused. refused ≡ NoPermit.Full) }
    {
        if !bulkhead.enter(rt, pass) {
            return Err(NoPermit::Full);
        }
        Ok(Permit::new(bulkhead, pass))
    }

    /// Like `enter`, but if no permit is free, waits for one for at most `longest`
    /// (`maxWaitDuration`). With zero it is `enter`.
    ///
    /// # Errors
    ///
    /// `Full` if no permit came free.
    ///
    /// ```
    /// let longest = Duration::from_millis(50);
    /// let _permit = Permit::enter_within(&mut pass, &bulkhead, &rt, longest)?;
    /// ```
    pub fn enter_within<R: Wait + Reads>(
        pass: &'a mut Pass,
        bulkhead: &'a Bulkhead,
        rt: &R,
        longest: Duration,
    ) -> Result<Permit<'a>, NoPermit>
        requires { pass.old.source ≡ bulkhead.now.permits }
        ensures* refused { sem 𝓛 (RestsIfErr the_row pass.entry (λ permit. permit.pass.ghost_name) result (λ left. IfErr result (λ _. IsRefusedAtLast (R.HasSaid rt.now) (as_nanos longest) bulkhead.now.permits.max pass.old left))) }
        ensures reference { IfOk result (λ permit. permit.pass.ghost_name ≡ pass.entry.ghost_name) }
        ensures took { IfOk result (λ permit. (waited : PassView) × HasWaited (as_nanos longest) pass.old waited × IsTry waited permit.pass.now tried.Taken) }
        ensures by_the_clock { IfOk result (λ permit. (waited : PassView) × HasWaitedBy (R.HasSaid rt.now) (as_nanos longest) bulkhead.now.permits.max pass.old waited tried.Taken × IsTry waited permit.pass.now tried.Taken) }
        ensures held { IfOk result (λ permit. held_by permit.pass.now ≡ held_by pass.old + 1) }
        ensures retired { IfOk result (λ permit. retired_by permit.pass.now ≡ retired_by pass.old) }
        ensures pass { IfOk result (λ permit. IsSamePass pass.old permit.pass.now) }
        ensures full { IfErr result (λ refused. refused ≡ NoPermit.Full) }
    {
        if !bulkhead.enter_within(rt, pass, longest) {
            return Err(NoPermit::Full);
        }
        Ok(Permit::new(bulkhead, pass))
    }

    /// Like `enter`, but tries only once and never waits.
    ///
    /// # Errors
    ///
    /// `Full` if no permit is free, `Contended` if another pass came in between.
    ///
    /// ```
    /// match Permit::try_once(&mut pass, &bulkhead) {
    ///     Ok(_permit) => write(&letter)?,
    ///     Err(NoPermit::Full) => println!(rt; "no permit is free")?,
    ///     Err(NoPermit::Contended) => println!(rt; "another pass came in between")?,
    /// }
    /// ```
    pub fn try_once(pass: &'a mut Pass, bulkhead: &'a Bulkhead) -> Result<Permit<'a>, NoPermit>
        requires { pass.old.source ≡ bulkhead.now.permits }
        ensures* refused { sem 𝓛 (RestsIfErr the_row pass.entry (λ permit. permit.pass.ghost_name) result (λ left. IfErr result (IsRefused pass.old left))) }
        ensures reference { IfOk result (λ permit. permit.pass.ghost_name ≡ pass.entry.ghost_name) }
        ensures took { IfOk result (λ permit. IsTry pass.old permit.pass.now tried.Taken) }
        ensures held { IfOk result (λ permit. held_by permit.pass.now ≡ held_by pass.old + 1) }
        ensures retired { IfOk result (λ permit. retired_by permit.pass.now ≡ retired_by pass.old) }
        ensures pass { IfOk result (λ permit. IsSamePass pass.old permit.pass.now) }
    {
        match bulkhead.permits.try_once(pass) {
            Attempt::Taken => Ok(Permit::new(bulkhead, pass)),
            Attempt::Full => Err(NoPermit::Full),
            Attempt::Contended => Err(NoPermit::Contended),
        }
    }

    // The permit that the pass acquired last.
    fn new(bulkhead: &'a Bulkhead, pass: &'a mut Pass) -> Permit<'a>
        requires source { pass.old.source ≡ bulkhead.now.permits }
        requires held { 0 < held_by pass.old }
        ensures reference { result.pass.ghost_name ≡ pass.entry.ghost_name }
        ensures pass { result.pass.now ≡ pass.old }
    {
        Permit { bulkhead, pass }
    }
}

impl Drop for Permit<'_> {
    fn drop(self)
        ensures pass { IsSamePass self.entry.pass.now self.exit.1.0.now }
        ensures gave { 0 < held_by self.entry.pass.now → AppendsEvent self.entry.pass.now (Gave self.entry.pass.now.number) (λ _. Unit {0}) self.exit.1.0.now }
        ensures held { 0 < held_by self.entry.pass.now → held_by self.entry.pass.now ≡ held_by self.exit.1.0.now + 1 }
        ensures retired { retired_by self.exit.1.0.now ≡ retired_by self.entry.pass.now }
    {
        let Permit { bulkhead, pass } = self;
        if pass.held() > 0 {
            bulkhead.leave(pass);
        }
    }
}
