//! The bulkhead, and acquiring and releasing its permits by hand.
//!
//! A bulkhead is permits with a name. Each call that runs holds one of them, so there are never more
//! calls running than permits. The permits know which pass acquired one and which released it; the
//! bulkhead keeps no other state, so threads share it without a lock.

ghost use Rattle.std.specs.Prelude.{◌≡◌, ◌≢◌, ◌<◌, ◌≤◌, ◌+◌, ◌↔◌, [], length, false, IfOk, OnOk, IsErrOf};
ghost use Rattle.std.specs.Duration.{as_nanos};
ghost use Rattle.resil_permit.specs.declared.event.PermitEvent.TheVariants.{Gave, Retired, Raised};
ghost use Rattle.resil_permit.specs.History.{holders, in_use_count};
ghost use Rattle.resil_permit.specs.Passes.{PassView, held_by, retired_by, own_events, IsSamePass, HasSeenMore, AppendsEvent};
ghost use Rattle.resil_permit.specs.TryAcquire.{IsTry, held_after};
ghost use Rattle.resil_permit.specs.Waits.{HasWaited, HasWaitedBy};
ghost use Rattle.resil_name.specs.Name.{IsName};

use crate::error::BulkheadError;
use resil_clock::Reads;
use resil_name::is_name;
use resil_permit::{Acquire, Pass, Permits};
use std::alloc::Global;
use std::marker::Model;
use std::sync::Wait;
use std::time::Duration;

/// How many concurrent calls a bulkhead permits by default (Resilience4j user guide, Bulkhead:
/// `maxConcurrentCalls`).
///
/// ```
/// let (bulkhead, pass) = Bulkhead::new(rt.alloc(), "prices", DEFAULT_MAX_CALLS)?;
/// ```
pub const DEFAULT_MAX_CALLS: u32 = 25;

/// A limit on the number of concurrent calls, with a name.
///
/// Modelled on the semaphore Bulkhead (Resilience4j user guide, Bulkhead, `maxConcurrentCalls`).
///
/// ```
/// let (bulkhead, mut pass) = Bulkhead::new(rt.alloc(), "prices", 25)?;
/// let mut operator = bulkhead.split(&mut pass);
/// println!(rt; "free: {}", bulkhead.available(&mut operator))?;
/// ```
///
/// In a whole program: crates/resil_guide/src/bulkhead.rt.
#[derive(Drop)]
pub struct Bulkhead {
    name: String,
    pub(crate) permits: Permits,
}

impl Model for Bulkhead {
    ghost use Rattle.std.specs.Prelude.{◌≤◌, string_bytes};
    ghost use Rattle.resil_bulkhead.specs.Bulkhead.{BulkheadView};

    ghost Value = { BulkheadView };

    ghost view = { λ b. record { name = string_bytes b.name; permits = b.permits } };
}

impl Bulkhead {
    /// Makes a bulkhead that permits at most `max` concurrent calls, 0 to 65,535, and its first pass.
    /// With 0 every call is refused.
    ///
    /// # Errors
    ///
    /// In this order: `BadName` if the name isn't 1 to 64 bytes of ASCII letters, digits, `-`, `_` and
    /// `.`; `TooManyPermits` if `max` is above 65,535; `Memory` if out of memory.
    pub fn new(alloc: Global, name: &str, max: u32) -> Result<(Bulkhead, Pass), BulkheadError>
        ensures name { IfOk result (λ r. r.0.name ≡ name.now) }
        ensures max { IfOk result (λ r. r.0.permits.max ≡ max) }
        ensures pass { IfOk result (λ r. (r.1.source ≡ r.0.permits) × (r.1.seen ≡ []) × (held_by r.1 ≡ 0)) }
        ensures retired { IfOk result (λ r. retired_by r.1 ≡ 0) }
        ensures allowed { OnOk result (IsName name.now × (max ≤ 65535)) }
        ensures bad_name { IsErrOf result BulkheadError.BadName ↔ (¬ IsName name.now) }
        ensures too_many { IsErrOf result BulkheadError.TooManyPermits ↔ (IsName name.now × (65535 < max)) }
        ensures memory { IsErrOf result BulkheadError.Memory → (IsName name.now × (max ≤ 65535)) }
    {
        if !is_name(name) {
            return Err(BulkheadError::BadName);
        }
        let (permits, pass) = Permits::new(alloc, max)?;
        let name = String::from_str(alloc, name)?;
        Ok((Bulkhead { name, permits }, pass))
    }

    /// Makes a bulkhead that permits `DEFAULT_MAX_CALLS` concurrent calls, and its first pass.
    ///
    /// # Errors
    ///
    /// In this order: `BadName` if the name isn't 1 to 64 bytes of ASCII letters, digits, `-`, `_` and
    /// `.`; `Memory` if out of memory.
    ///
    /// ```
    /// let (bulkhead, mut pass) = Bulkhead::with_defaults(rt.alloc(), "prices")?;
    /// ```
    pub fn with_defaults(alloc: Global, name: &str) -> Result<(Bulkhead, Pass), BulkheadError>
        ensures name { IfOk result (λ r. r.0.name ≡ name.now) }
        ensures max { IfOk result (λ r. r.0.permits.max ≡ 25) }
        ensures pass { IfOk result (λ r. (r.1.source ≡ r.0.permits) × (r.1.seen ≡ []) × (held_by r.1 ≡ 0)) }
        ensures bad_name { IsErrOf result BulkheadError.BadName ↔ (¬ IsName name.now) }
        ensures few { ¬ IsErrOf result BulkheadError.TooManyPermits }
    {
        Bulkhead::new(alloc, name, DEFAULT_MAX_CALLS)
    }

    /// Returns the name that it was made with.
    pub fn name(&self) -> &str
        ensures { result.now ≡ self.now.name }
    {
        self.name.as_str()
    }

    /// Returns how many concurrent calls it permits while none of its permits is retired.
    pub fn max(&self) -> u32
        ensures { result ≡ self.now.permits.max }
    {
        self.permits.max()
    }
}

impl Bulkhead {
    ghost use Rattle.resil_bulkhead.specs.Bulkhead.{attempt_of};

    /// Acquires a permit and returns `true`, or returns `false` if none is free. It retries while
    /// other passes come in between, and so may wait for them.
    ///
    /// ```
    /// if bulkhead.enter(&rt, &mut pass) {
    ///     let answer = ask(&neighbour);
    ///     bulkhead.leave(&mut pass);
    /// }
    /// ```
    #[tactic(auto, using(crate::proofs::NoPermits::never_taken))]
    pub fn enter<R: Wait>(&self, rt: &R, pass: &mut Pass) -> bool
        requires { pass.old.source ≡ self.now.permits }
        ensures pass { IsSamePass pass.old pass.new }
        ensures tried { IsTry pass.old pass.new (attempt_of result) }
        ensures nobody { self.now.permits.max ≡ 0 → result ≡ false }
        ensures held { held_by pass.new ≡ held_after (held_by pass.old) (attempt_of result) }
        ensures retired { retired_by pass.new ≡ retired_by pass.old }
    {
        self.permits.try_acquire(rt, pass) == Acquire::Taken
    }

    /// Like `enter`, but if no permit is free, waits for one for at most `longest` (Resilience4j user
    /// guide, Bulkhead: `maxWaitDuration`). With zero it is `enter`. Waiting isn't fair: a newer
    /// caller may get the permit first.
    ///
    /// ```
    /// if bulkhead.enter_within(&rt, &mut pass, Duration::from_millis(50)) {
    ///     let answer = ask(&neighbour);
    ///     bulkhead.leave(&mut pass);
    /// }
    /// ```
    #[tactic(auto, using(crate::proofs::NoPermits::never_taken))]
    pub fn enter_within<R: Wait + Reads>(&self, rt: &R, pass: &mut Pass, longest: Duration) -> bool
        requires { pass.old.source ≡ self.now.permits }
        ensures pass { IsSamePass pass.old pass.new }
        ensures tried { (waited : PassView) × HasWaited (as_nanos longest) pass.old waited × IsTry waited pass.new (attempt_of result) }
        ensures by_the_clock { (waited : PassView) × HasWaitedBy (R.HasSaid rt.now) (as_nanos longest) self.now.permits.max pass.old waited (attempt_of result) × IsTry waited pass.new (attempt_of result) }
        ensures at_once { as_nanos longest ≡ 0 → IsTry pass.old pass.new (attempt_of result) }
        ensures nobody { self.now.permits.max ≡ 0 → result ≡ false }
        ensures held { held_by pass.new ≡ held_after (held_by pass.old) (attempt_of result) }
        ensures retired { retired_by pass.new ≡ retired_by pass.old }
    {
        self.permits.acquire_within(rt, pass, longest) == Acquire::Taken
    }

    /// Releases a permit that the pass holds, and wakes a caller that waits for one, if there is any.
    pub fn leave(&self, pass: &mut Pass)
        requires source { pass.old.source ≡ self.now.permits }
        requires held { 0 < held_by pass.old }
        ensures pass { IsSamePass pass.old pass.new }
        ensures gave { AppendsEvent pass.old (Gave pass.old.number) (λ _. Unit {0}) pass.new }
        ensures held { held_by pass.old ≡ held_by pass.new + 1 }
        ensures retired { retired_by pass.new ≡ retired_by pass.old }
    {
        self.permits.release(pass);
    }

    /// Retires a permit that the pass holds. The pass keeps the permit back: the permit is then neither
    /// free nor held, and the bulkhead permits one concurrent call less until this pass raises it again.
    ///
    /// ```
    /// if bulkhead.enter(&rt, &mut operator) {
    ///     bulkhead.retire(&mut operator);
    /// }
    /// ```
    pub fn retire(&self, pass: &mut Pass)
        requires source { pass.old.source ≡ self.now.permits }
        requires held { 0 < held_by pass.old }
        ensures pass { IsSamePass pass.old pass.new }
        ensures kept_back { AppendsEvent pass.old (Retired pass.old.number) (λ _. Unit {0}) pass.new }
        ensures held { held_by pass.old ≡ held_by pass.new + 1 }
        ensures retired { retired_by pass.new ≡ retired_by pass.old + 1 }
    {
        self.permits.retire(pass);
    }

    /// Raises a permit that the pass has retired. The permit is then free, and the bulkhead permits
    /// one concurrent call more, never more than it was made with.
    ///
    /// ```
    /// if operator.retired() > 0 {
    ///     bulkhead.raise(&mut operator);
    /// }
    /// ```
    pub fn raise(&self, pass: &mut Pass)
        requires source { pass.old.source ≡ self.now.permits }
        requires retired { 0 < retired_by pass.old }
        ensures pass { IsSamePass pass.old pass.new }
        ensures raised { AppendsEvent pass.old (Raised pass.old.number) (λ _. Unit {0}) pass.new }
        ensures held { held_by pass.new ≡ held_by pass.old }
        ensures retired { retired_by pass.old ≡ retired_by pass.new + 1 }
    {
        self.permits.raise(pass);
    }

    /// Returns how many permits are free at one moment of the call: those in use that nobody holds.
    pub fn available(&self, pass: &mut Pass) -> u32
        requires { pass.old.source ≡ self.now.permits }
        ensures pass { IsSamePass pass.old pass.new }
        ensures seen { HasSeenMore pass.old pass.new }
        ensures free { result + length (holders pass.new.seen) ≡ in_use_count self.now.permits.max pass.new.seen }
        ensures held { held_by pass.new ≡ held_by pass.old }
        ensures retired { retired_by pass.new ≡ retired_by pass.old }
    {
        self.permits.available(pass)
    }

    /// Makes a new pass, for any thread. It holds nothing.
    ///
    /// ```
    /// let mut pass = bulkhead.new_pass();
    /// ```
    pub fn new_pass(&self) -> Pass
        ensures source { result.source ≡ self.now.permits }
        ensures number { own_events result ≡ [] }
        ensures held { held_by result ≡ 0 }
        ensures retired { retired_by result ≡ 0 }
    {
        self.permits.new_pass()
    }

    /// Makes a new pass for another thread. It holds nothing and has seen what this one has seen. This
    /// one stays as it is.
    pub fn split(&self, pass: &mut Pass) -> Pass
        requires { pass.old.source ≡ self.now.permits }
        ensures old { pass.new ≡ pass.old }
        ensures source { result.source ≡ pass.old.source }
        ensures seen { result.seen ≡ pass.old.seen }
        ensures number { (result.number ≢ pass.old.number) × (own_events result ≡ []) }
        ensures held { held_by result ≡ 0 }
        ensures retired { retired_by result ≡ 0 }
    {
        self.permits.split(pass)
    }
}
