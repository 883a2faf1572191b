//! The permit word and all its atomic steps.
//!
//! The word is the number of free permits. A try loads it and, if it isn't 0, exchanges it for one less; a release adds 1. A pass that
//! retires a permit keeps it back: it adds nothing to the word, and one permit less is in use until the same pass raises the permit again,
//! which adds 1. Between any two steps there is one legal permit history, every pass has seen a prefix of it that includes all its own
//! events, and the word is the number of permits in use less those held. There is no lock, and none of the public calls of this file blocks.
ghost use Rattle.std.specs.Prelude.{◌≡◌, ◌≢◌, ℕ, ◌+◌, ◌<◌, ◌≤◌, ◌↔◌, [], length, IfOk, IsErrOf};
ghost use Rattle.resil_permit.specs.History.{holders, in_use_count, IsLegal};
ghost use Rattle.resil_permit.specs.Passes.{Source, held_by, retired_by, own_events, IsSamePass, HasSeenMore, AppendsEvent};
ghost use Rattle.resil_permit.specs.TryAcquire.{IsTry, held_after};
ghost use Rattle.resil_permit.specs.declared.event.PermitEvent.TheVariants.{Gave, Retired, Raised};
ghost use mathlib.Core.List.{IsPrefix};

use crate::pass::Pass;
use crate::protocol::{
    AcquireExchange, AcquireLoad, Add, Copied, FinishJoin, Merged, NewPass, NumberSeat, PermitRule,
    PlainLoad, Raise, Retire, View,
};
use atomic_table::Table;
use std::alloc::Global;
use std::marker::Model;
use std::sync::Wait;
use std::sync::atomic::AtomicU64;
use std::sync::atomic::Ordering::SeqCst;
use std::time::Duration;
use thiserror::Error;

/// The maximum number of permits.
pub const MAX_PERMITS: u32 = 65_535;

/// Why permits couldn't be made.
///
/// ```
/// match Permits::new(alloc, max) {
///     Ok((permits, pass)) => serve(permits, pass),
///     Err(PermitError::TooManyPermits) => println!(rt; "at most {MAX_PERMITS} permits")?,
///     Err(PermitError::Memory) => println!(rt; "out of memory")?,
/// }
/// ```
#[derive(Clone, Copy, PartialEq, Eq, Debug, Error)]
pub enum PermitError {
    /// Out of memory.
    #[error("out of memory")]
    Memory,
    /// `max` is above 65,535.
    #[error("there are more than 65535 permits")]
    TooManyPermits,
}

/// The result of one try.
///
/// ```
/// match permits.try_once(&mut pass) {
///     Attempt::Taken => permits.release(&mut pass),
///     Attempt::Full => println!(rt; "no permit is free")?,
///     Attempt::Contended => println!(rt; "another pass came in between")?,
/// }
/// ```
#[derive(Clone, Copy, PartialEq, Eq, Debug)]
pub enum Attempt {
    /// The pass has taken a permit.
    Taken,
    /// No permit was free.
    Full,
    /// Another pass changed the word between the load and the exchange. Nothing was done.
    Contended,
}

/// A number of permits that threads share.
///
/// Modelled on the semaphore of a Bulkhead (Resilience4j user guide, Bulkhead, maxConcurrentCalls).
///
/// ```
/// let (permits, mut pass) = Permits::new(alloc, 25)?;
/// if permits.try_acquire(&rt, &mut pass) == Acquire::Taken {
///     permits.release(&mut pass);
/// }
/// ```
#[derive(Drop)]
pub struct Permits {
    table: Table<(), View, u32, PermitRule, Global>,
    max: u32,
    // How many callers wait for a permit. No clause mentions it.
    waiting: AtomicU64,
}

impl Model for Permits {
    ghost Value = { Source };

    ghost view = { λ p. record { table_id = p.table.shared.table_id; max = p.max } };

    ghost invariant = { λ p. (p.table.shared.key ≡ p.max) × (p.table.shared.table_id.words ≡ 1) × (p.max ≤ 65535) };
}

impl Permits {
    /// Makes `max` permits, all free, and their first pass.
    ///
    /// # Errors
    ///
    /// In this order: `TooManyPermits` if `max` is above 65,535; `Memory` if out of memory.
    #[tactic(auto, using(crate::proofs::ProtocolSteps::opens))]
    pub fn new(alloc: Global, max: u32) -> Result<(Permits, Pass), PermitError>
        ensures max { IfOk result (λ r. r.0.max ≡ max) }
        ensures pass { IfOk result (λ r. (r.1.source ≡ r.0) × (r.1.seen ≡ []) × (held_by r.1 ≡ 0)) }
        ensures retired { IfOk result (λ r. retired_by r.1 ≡ 0) }
        ensures too_many { IsErrOf result PermitError.TooManyPermits ↔ (65535 < max) }
    {
        if max > MAX_PERMITS {
            return Err(PermitError::TooManyPermits);
        }
        match Table::of_words(alloc, &[u64::from(max)], &max) {
            Ok((table, seat)) => {
                let pass = Pass {
                    seat,
                    held: 0,
                    retired: 0,
                };
                let permits = Permits {
                    table,
                    max,
                    waiting: AtomicU64::new(0),
                };
                Ok((permits, pass))
            }
            Err(_) => Err(PermitError::Memory),
        }
    }

    /// Returns the number of permits at the start: those free, held or retired.
    pub fn max(&self) -> u32
        ensures { result ≡ self.now.max }
    {
        self.max
    }
}

impl Permits {
    /// Tries once to take a permit: one load and, if it finds a free permit, one compare-exchange.
    pub fn try_once(&self, pass: &mut Pass) -> Attempt
        requires { pass.old.source ≡ self.now }
        ensures pass { IsSamePass pass.old pass.new }
        ensures tried { IsTry pass.old pass.new result }
        ensures held { held_by pass.new ≡ held_after (held_by pass.old) result }
        ensures retired { retired_by pass.new ≡ retired_by pass.old }
    {
        let word = &self.table.shared;
        let free = word.load::<AcquireLoad>(&mut pass.seat, 0);
        if free == 0 {
            return Attempt::Full;
        }
        let found = word.compare_exchange::<AcquireExchange>(&mut pass.seat, 0, free, free - 1);
        if found != free {
            return Attempt::Contended;
        }
        pass.held += 1;
        Attempt::Taken
    }

    /// Gives back a permit that the pass holds, and wakes a caller that waits for one, if there is any: one add and one load.
    ///
    /// ```
    /// let held = pass.held();
    /// if held > 0 {
    ///     permits.release(&mut pass);
    ///     assert_eq!(rt; pass.held() + 1, held);
    /// }
    /// ```
    pub fn release(&self, pass: &mut Pass)
        requires source { pass.old.source ≡ self.now }
        requires held { 0 < held_by pass.old }
        ensures pass { IsSamePass pass.old pass.new }
        ensures gave { AppendsEvent pass.old (Gave pass.old.number) (λ _. Unit {0}) pass.new }
        ensures held { held_by pass.old ≡ held_by pass.new + 1 }
        ensures retired { retired_by pass.new ≡ retired_by pass.old }
    {
        self.release_without_wake(pass);
        self.wake_waiter();
    }

    /// Like `release`, for permits that nobody waits for: one add. It doesn't wake a caller that does wait.
    ///
    /// ```
    /// if pass.held() > 0 {
    ///     permits.release_without_wake(&mut pass);
    /// }
    /// ```
    pub fn release_without_wake(&self, pass: &mut Pass)
        requires source { pass.old.source ≡ self.now }
        requires held { 0 < held_by pass.old }
        ensures pass { IsSamePass pass.old pass.new }
        ensures gave { AppendsEvent pass.old (Gave pass.old.number) (λ _. Unit {0}) pass.new }
        ensures held { held_by pass.old ≡ held_by pass.new + 1 }
        ensures retired { retired_by pass.new ≡ retired_by pass.old }
    {
        self.table.shared.fetch_add::<Add>(&mut pass.seat, 0, 1);
        pass.held -= 1;
    }

    /// Retires a permit that the pass holds: one add of 0. The pass keeps the permit back. The permit is then neither free nor held, and one
    /// permit less is in use until this pass raises it again.
    ///
    /// ```
    /// if permits.try_once(&mut operator) == Attempt::Taken {
    ///     permits.retire(&mut operator);
    /// }
    /// ```
    pub fn retire(&self, pass: &mut Pass)
        requires source { pass.old.source ≡ self.now }
        requires held { 0 < held_by pass.old }
        ensures pass { IsSamePass pass.old pass.new }
        ensures kept_back { AppendsEvent pass.old (Retired pass.old.number) (λ _. Unit {0}) pass.new }
        ensures held { held_by pass.old ≡ held_by pass.new + 1 }
        ensures retired { retired_by pass.new ≡ retired_by pass.old + 1 }
    {
        self.table.shared.fetch_add::<Retire>(&mut pass.seat, 0, 0);
        pass.held -= 1;
        pass.retired += 1;
    }

    /// Raises a permit that the pass has retired, and wakes a caller that waits for one, if there is any: one add of 1 and one load. The
    /// permit is then free, and one permit more is in use, never more than at the start.
    ///
    /// ```
    /// if operator.retired() > 0 {
    ///     permits.raise(&mut operator);
    /// }
    /// ```
    pub fn raise(&self, pass: &mut Pass)
        requires source { pass.old.source ≡ self.now }
        requires retired { 0 < retired_by pass.old }
        ensures pass { IsSamePass pass.old pass.new }
        ensures raised { AppendsEvent pass.old (Raised pass.old.number) (λ _. Unit {0}) pass.new }
        ensures held { held_by pass.new ≡ held_by pass.old }
        ensures retired { retired_by pass.old ≡ retired_by pass.new + 1 }
    {
        self.raise_without_wake(pass);
        self.wake_waiter();
    }

    /// Like `raise`, for permits that nobody waits for: one add of 1.
    ///
    /// ```
    /// if operator.retired() > 0 {
    ///     permits.raise_without_wake(&mut operator);
    /// }
    /// ```
    pub fn raise_without_wake(&self, pass: &mut Pass)
        requires source { pass.old.source ≡ self.now }
        requires retired { 0 < retired_by pass.old }
        ensures pass { IsSamePass pass.old pass.new }
        ensures raised { AppendsEvent pass.old (Raised pass.old.number) (λ _. Unit {0}) pass.new }
        ensures held { held_by pass.new ≡ held_by pass.old }
        ensures retired { retired_by pass.old ≡ retired_by pass.new + 1 }
    {
        self.table.shared.fetch_add::<Raise>(&mut pass.seat, 0, 1);
        pass.retired -= 1;
    }

    /// Returns the number of free permits at this point, that is, those in use that nobody holds: one load.
    ///
    /// ```
    /// println!(rt; "free: {}", permits.available(&mut operator))?;
    /// ```
    pub fn available(&self, pass: &mut Pass) -> u32
        requires { pass.old.source ≡ self.now }
        ensures pass { IsSamePass pass.old pass.new }
        ensures seen { HasSeenMore pass.old pass.new }
        ensures free { result + length (holders pass.new.seen) ≡ in_use_count self.now.max pass.new.seen }
        ensures held { held_by pass.new ≡ held_by pass.old }
        ensures retired { retired_by pass.new ≡ retired_by pass.old }
    {
        self.table.shared.load::<PlainLoad>(&mut pass.seat, 0) as u32
    }

    /// Makes a new pass, for any thread. It holds nothing and has seen a whole history up to now: one load.
    ///
    /// ```
    /// let mut pass = permits.new_pass();
    /// ```
    #[tactic(auto, using(crate::proofs::ProtocolSteps::enters))]
    pub fn new_pass(&self) -> Pass
        ensures source { result.source ≡ self.now }
        ensures number { own_events result ≡ [] }
        ensures legal { IsLegal self.now.max result.seen }
        ensures held { held_by result ≡ 0 }
        ensures retired { retired_by result ≡ 0 }
    {
        let (_, seat) = self.table.shared.load_new_seat::<NewPass>(0);
        Pass {
            seat,
            held: 0,
            retired: 0,
        }
    }

    /// Makes a new pass for another thread. It holds nothing and has seen what this pass has seen. This one stays as it is.
    ///
    /// Its number differs from that of every other pass of these permits, dropped ones included: `holds_between_steps` says so of all passes,
    /// and `join` of the two that it gets.
    pub fn split(&self, pass: &mut Pass) -> Pass
        requires { pass.old.source ≡ self.now }
        ensures old { pass.new ≡ pass.old }
        ensures source { result.source ≡ pass.old.source }
        ensures seen { result.seen ≡ pass.old.seen }
        ensures number { (result.number ≢ pass.old.number) × (own_events result ≡ []) }
        ensures held { held_by result ≡ 0 }
        ensures retired { retired_by result ≡ 0 }
    {
        let mut seat = self.table.shared.split_seat::<Copied>(&mut pass.seat);
        self.table.shared.load::<NumberSeat>(&mut seat, 0);
        Pass {
            seat,
            held: 0,
            retired: 0,
        }
    }

    /// Joins `from`, which holds no permit and has retired none, into `into`. `into` has then seen what either had. The two had different
    /// numbers.
    ///
    /// ```
    /// let other = permits.split(&mut pass);
    /// permits.join(&mut pass, other);
    /// ```
    pub fn join(&self, into: &mut Pass, from: Pass)
        requires source { (into.old.source ≡ self.now) × (from.source ≡ self.now) }
        requires held { held_by from ≡ 0 }
        requires retired { retired_by from ≡ 0 }
        ensures pass { IsSamePass into.old into.new }
        ensures seen { HasSeenMore into.old into.new }
        ensures both { IsPrefix from.seen into.new.seen }
        ensures numbers { from.number ≢ into.old.number }
        ensures held { held_by into.new ≡ held_by into.old }
        ensures retired { retired_by into.new ≡ retired_by into.old }
    {
        let Pass { seat, .. } = from;
        self.table.shared.join_seat::<Merged>(&mut into.seat, seat);
        self.table.shared.load::<FinishJoin>(&mut into.seat, 0);
    }
}

// The callers that wait for a permit. Nothing here changes the permit word.
impl Permits {
    // Counts one more waiting caller, from its first try on.
    pub(crate) fn begin_wait(&self) {
        self.waiting.fetch_add(1, SeqCst);
    }

    // Counts one waiting caller less.
    pub(crate) fn end_wait(&self) {
        self.waiting.fetch_sub(1, SeqCst);
    }

    // Sleeps while no permit is free, for at most `longest`.
    pub(crate) fn sleep<R: Wait>(&self, rt: &R, longest: Duration) {
        self.table.shared.park_timeout(rt, 0, 0, longest);
    }

    // Wakes one sleeping caller, if any waits. Called after the add that made a permit free.
    fn wake_waiter(&self) {
        if self.waiting.load(SeqCst) != 0 {
            self.table.shared.wake_one(0);
        }
    }
}
