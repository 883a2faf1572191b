//! Limits on the sum of all waits of a retry.

ghost use Rattle.std.specs.Prelude.{ℕ, Bool, None, IsTrue, ◌≡◌, ◌+◌, ◌*◌, ◌≤◌, ◌↔◌};
ghost use Rattle.std.specs.Duration.{as_nanos};
ghost use Rattle.resil_call.specs.Limit.{Unlimited, IsSpent, IsInTime};

use resil_clock::Reads;
use std::time::{Duration, Instant};

/// Decides before each wait of a retry whether it may begin.
///
/// ```
/// let mut limit = WaitBudget(10_000);
/// assert!(rt; limit.allows(4_000) && limit.allows(6_000));
/// assert!(rt; !limit.allows(1));
/// ```
pub trait WaitLimit {
    /// It may give this answer for a wait of this number of milliseconds, and be left in this state.
    ghost IsAllowed: { Self → ℕ → Bool → Self → Type 0 } = { λ _ _ _ _. Unit {0} };

    /// Returns whether a wait of this number of milliseconds may begin.
    fn allows(&mut self, milliseconds: u64) -> bool
        ensures { IsAllowed self.old milliseconds result self.new };
}

/// Every wait may begin.
#[derive(Clone, Copy, PartialEq, Eq, Debug)]
pub struct NoLimit;

impl WaitLimit for NoLimit {
    ghost IsAllowed = { Unlimited };

    fn allows(&mut self, _milliseconds: u64) -> bool {
        true
    }
}

/// A budget: all waits together take at most this number of milliseconds.
#[derive(Clone, Copy, PartialEq, Eq, Debug)]
pub struct WaitBudget(pub u64);

impl WaitLimit for WaitBudget {
    ghost IsAllowed = { IsSpent };

    fn allows(&mut self, milliseconds: u64) -> bool {
        match self.0.checked_sub(milliseconds) {
            Some(left) => {
                self.0 = left;
                true
            }
            None => false,
        }
    }
}

/// A deadline: no wait begins that would end after it, by a clock. If the clock can't be read, no
/// wait is allowed.
///
/// ```
/// let mut limit = Deadline::after(&rt, Duration::from_secs(2));
/// let tried = retry_within(&policy, &mut limit, &mut call, &mut Sleep::new(&rt));
/// ```
#[derive(Drop)]
pub struct Deadline<'a, R: Reads> {
    clock: &'a R,
    start: Option<Instant>,
    length: Duration,
}

impl<'a, R: Reads> Deadline<'a, R> {
    /// Makes a deadline that is `length` from now.
    pub fn after(clock: &'a R, length: Duration) -> Deadline<'a, R>
        ensures clock { result.clock.now ≡ clock.now }
        ensures length { result.length ≡ length }
        ensures read { R.HasSaid clock.now None result.start }
    {
        Deadline {
            clock,
            start: clock.read(None),
            length,
        }
    }

    // Whether a wait of this number of milliseconds ends in time if `spent` has passed already.
    fn fits(&self, spent: Duration, milliseconds: u64) -> bool
        ensures { IsTrue result ↔ (as_nanos spent + milliseconds * 1000000 ≤ as_nanos self.now.length) }
    {
        match self.length.checked_sub(spent) {
            Some(left) => Duration::from_millis(milliseconds) <= left,
            None => false,
        }
    }
}

impl<R: Reads> WaitLimit for Deadline<'_, R> {
    // The clock is read once, and a wait may begin exactly if it ends in time by that reading.
    ghost IsAllowed = { λ x milliseconds allowed y. (y ≡ x) × IsInTime (R.HasSaid x.clock.now) (as_nanos x.length) x.start milliseconds allowed };

    fn allows(&mut self, milliseconds: u64) -> bool {
        let Some(start) = self.start else {
            return false;
        };
        match self.clock.read(self.start) {
            Some(now) => self.fits(now.duration_since(start), milliseconds),
            None => false,
        }
    }
}
