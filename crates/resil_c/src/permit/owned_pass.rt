//! A pass together with the permits that it came from, so that no call has to require that they belong together.
ghost use Rattle.std.specs.Prelude.{◌≡◌, ◌≢◌, ◌+◌, ◌<◌, ◌↔◌, [], length, IfOk, IsErrOf};
ghost use Rattle.std.specs.Bool.{OnTrue, OnFalse};
ghost use Rattle.resil_permit.specs.declared.event.PermitEvent.TheVariants.{Gave, Retired, Raised};
ghost use Rattle.resil_permit.specs.Passes.{held_by, retired_by, own_events, IsSamePass, HasSeenMore, AppendsEvent};
ghost use Rattle.resil_permit.specs.TryAcquire.{IsTry, held_after};
ghost use Rattle.resil_permit.specs.History.{holders, in_use_count};

use resil_permit::{Attempt, Pass, PermitError, Permits};
use std::alloc::{AllocError, Global};
use std::marker::Model;
use std::sync::Arc;

/// The pass by which a thread takes permits and gives them back, together with the permits, which it shares with other passes.
#[derive(Drop)]
pub struct OwnedPass {
    permits: Arc<Permits, Global>,
    pass: Pass,
}

impl Model for OwnedPass {
    ghost use Rattle.std.specs.Prelude.{◌≡◌};
    ghost use Rattle.std.specs.Arc.{arc_value};
    ghost use Rattle.resil_permit.specs.Passes.{PassView};

    ghost Value = { PassView };

    ghost view = { λ p. p.pass };

    ghost invariant = { λ p. p.pass.source ≡ arc_value p.permits };
}

impl OwnedPass {
    // The first pass of `max` permits, all free.
    pub(crate) fn new(alloc: Global, max: u32) -> Result<OwnedPass, PermitError>
        ensures max { IfOk result (λ p. p.source.max ≡ max) }
        ensures pass { IfOk result (λ p. (p.seen ≡ []) × (held_by p ≡ 0)) }
        ensures retired { IfOk result (λ p. retired_by p ≡ 0) }
        ensures too_many { IsErrOf result PermitError.TooManyPermits ↔ (65535 < max) }
    {
        let (permits, pass) = Permits::new(alloc, max)?;
        match Arc::new(alloc, permits) {
            Ok(permits) => Ok(OwnedPass { permits, pass }),
            Err(_) => Err(PermitError::Memory),
        }
    }

    // A pass of the same permits, which holds nothing.
    pub(crate) fn split(&mut self) -> Result<OwnedPass, AllocError>
        ensures old { self.new ≡ self.old }
        ensures source { IfOk result (λ p. p.source ≡ self.old.source) }
        ensures seen { IfOk result (λ p. p.seen ≡ self.old.seen) }
        ensures number { IfOk result (λ p. (p.number ≢ self.old.number) × (own_events p ≡ [])) }
        ensures held { IfOk result (λ p. held_by p ≡ 0) }
        ensures retired { IfOk result (λ p. retired_by p ≡ 0) }
    {
        let permits = Arc::try_clone(&self.permits)?;
        let pass = permits.split(&mut self.pass);
        Ok(OwnedPass { permits, pass })
    }

    pub(crate) fn try_once(&mut self) -> Attempt
        ensures pass { IsSamePass self.old self.new }
        ensures tried { IsTry self.old self.new result }
        ensures held { held_by self.new ≡ held_after (held_by self.old) result }
        ensures retired { retired_by self.new ≡ retired_by self.old }
    {
        self.permits.try_once(&mut self.pass)
    }

    // Gives a permit back. If the pass holds none, it returns `false` and does nothing.
    pub(crate) fn leave(&mut self) -> bool
        ensures pass { IsSamePass self.old self.new }
        ensures gave { OnTrue result (AppendsEvent self.old (Gave self.old.number) (λ _. Unit {0}) self.new) }
        ensures held { OnTrue result (held_by self.old ≡ held_by self.new + 1) }
        ensures retired { retired_by self.new ≡ retired_by self.old }
        ensures none { OnFalse result ((held_by self.old ≡ 0) × (self.new ≡ self.old)) }
    {
        if self.pass.held() == 0 {
            return false;
        }
        self.permits.release_without_wake(&mut self.pass);
        true
    }

    // Retires a permit. If the pass holds none, it returns `false` and does nothing.
    pub(crate) fn retire(&mut self) -> bool
        ensures pass { IsSamePass self.old self.new }
        ensures kept_back { OnTrue result (AppendsEvent self.old (Retired self.old.number) (λ _. Unit {0}) self.new) }
        ensures held { OnTrue result (held_by self.old ≡ held_by self.new + 1) }
        ensures retired { OnTrue result (retired_by self.new ≡ retired_by self.old + 1) }
        ensures none { OnFalse result ((held_by self.old ≡ 0) × (self.new ≡ self.old)) }
    {
        let holds = self.pass.held() > 0;
        if holds {
            self.permits.retire(&mut self.pass);
        }
        holds
    }

    // Raises a permit. If the pass has retired none, it returns `false` and does nothing.
    pub(crate) fn raise(&mut self) -> bool
        ensures pass { IsSamePass self.old self.new }
        ensures raised { OnTrue result (AppendsEvent self.old (Raised self.old.number) (λ _. Unit {0}) self.new) }
        ensures held { held_by self.new ≡ held_by self.old }
        ensures retired { OnTrue result (retired_by self.old ≡ retired_by self.new + 1) }
        ensures none { OnFalse result ((retired_by self.old ≡ 0) × (self.new ≡ self.old)) }
    {
        let has_retired = self.pass.retired() > 0;
        if has_retired {
            self.permits.raise_without_wake(&mut self.pass);
        }
        has_retired
    }

    // How many permits the pass has retired.
    pub(crate) fn retired(&self) -> u32
        ensures { result ≡ retired_by self.now }
    {
        self.pass.retired()
    }

    pub(crate) fn available(&mut self) -> u32
        ensures pass { IsSamePass self.old self.new }
        ensures seen { HasSeenMore self.old self.new }
        ensures free { result + length (holders self.new.seen) ≡ in_use_count self.old.source.max self.new.seen }
        ensures held { held_by self.new ≡ held_by self.old }
        ensures retired { retired_by self.new ≡ retired_by self.old }
    {
        self.permits.available(&mut self.pass)
    }
}
