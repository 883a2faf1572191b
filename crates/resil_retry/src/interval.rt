//! Intervals: how long a retry waits after each attempt, in milliseconds.
//!
//! No wait is longer than `MAX_INTERVAL`. An exponential interval starts at `initial` and is
//! multiplied by `numerator / denominator` from attempt to attempt, truncated at each step, so no
//! wait is shorter than the one before it. The multiplier is at least 1 and at most 1000, so a wait
//! below the cap can be multiplied in 64 bits. Once a wait has reached the cap, or truncation
//! leaves it unchanged, all later waits are the same.

ghost use Rattle.std.specs.Prelude.{ℕ, ◌≡◌, ◌≤◌, ◌<◌, ◌↔◌, ◌⊎◌, ◌+◌, ◌*◌, ◌/◌, min, OkIff, IsErrOf};
ghost use Rattle.resil_retry.specs.Interval.{interval, interval_limit, uncapped_wait, IsMultiplier, IsBackoff};
ghost use Rattle.resil_retry.specs.declared.interval.Backoff.TheVariants.{Fixed, Exponential};

use crate::error::RetryError;
use std::marker::Model;

/// The longest wait, in milliseconds: 365 days. The limit is this library's own. It is also the
/// usual cap.
pub const MAX_INTERVAL: u64 = 31_536_000_000;

// The maximum numerator and denominator of a multiplier, a limit of this library: within it a wait
// below the cap can be multiplied in 64 bits.
const MAX_MULTIPLIER_TERM: u32 = 1_000;

// How the waits of a retry grow.
#[derive(Clone, Copy, Debug, PartialEq, Eq)]
enum Backoff {
    // One wait, in milliseconds, after every attempt.
    Fixed(u64),
    // A wait, in milliseconds, that grows by a fraction from attempt to attempt, up to a cap.
    Exponential {
        initial: u64,
        numerator: u32,
        denominator: u32,
        cap: u64,
    },
}

/// How long to wait after each attempt (Resilience4j user guide, Retry, interval functions).
///
/// ```
/// let same = Interval::fixed(500)?;
/// let doubled = Interval::exponential(10, 2, 1, 1_000)?;
/// ```
#[derive(Clone, Copy, Debug, PartialEq, Eq)]
pub struct Interval {
    backoff: Backoff,
}

impl Model for Interval {
    ghost use Rattle.resil_retry.specs.declared.interval.Backoff.{Backoff};
    ghost use Rattle.resil_retry.specs.Interval.{IsBackoff};

    ghost Value = { Backoff };

    ghost view = { λ i. i.backoff };

    ghost invariant = { λ i. IsBackoff i.backoff };

    ghost inverse = { λ b. record { backoff = b } };
}

impl Interval {
    /// A wait of `ms` milliseconds after every attempt. 0 is allowed.
    ///
    /// # Errors
    ///
    /// `IntervalTooLong` if `ms` is above `MAX_INTERVAL`.
    pub fn fixed(ms: u64) -> Result<Interval, RetryError>
        ensures made { OkIff result (ms ≤ interval_limit) (Fixed ms) }
        ensures too_long { IsErrOf result RetryError.IntervalTooLong ↔ (interval_limit < ms) }
    {
        if ms > MAX_INTERVAL {
            return Err(RetryError::IntervalTooLong);
        }
        Ok(Interval {
            backoff: Backoff::Fixed(ms),
        })
    }

    /// A wait of `initial` milliseconds after the first attempt, which grows by
    /// `numerator / denominator` from attempt to attempt, truncated to whole milliseconds at each
    /// step, and never exceeds `cap` milliseconds.
    ///
    /// # Errors
    ///
    /// In this order: `IntervalTooLong` if `initial` or `cap` is above `MAX_INTERVAL`;
    /// `BadMultiplier` unless `1 <= denominator <= numerator <= 1000`; `CapBelowInitial` if `cap`
    /// is below `initial`.
    ///
    /// ```
    /// let growing = Interval::exponential(500, 3, 2, 2_000)?;
    /// assert_eq!(rt; growing.after(2), 750);
    /// assert_eq!(rt; growing.after(5), 2_000);
    /// ```
    pub fn exponential(
        initial: u64,
        numerator: u32,
        denominator: u32,
        cap: u64,
    ) -> Result<Interval, RetryError>
        ensures made { OkIff result (IsBackoff (Exponential initial numerator denominator cap)) (Exponential initial numerator denominator cap) }
        ensures too_long { IsErrOf result RetryError.IntervalTooLong ↔ ((interval_limit < initial) ⊎ (interval_limit < cap)) }
        ensures bad_multiplier { IsErrOf result RetryError.BadMultiplier
            ↔ ((initial ≤ interval_limit) × (cap ≤ interval_limit) × ¬ IsMultiplier numerator denominator) }
        ensures cap_below_initial { IsErrOf result RetryError.CapBelowInitial
            ↔ ((initial ≤ interval_limit) × IsMultiplier numerator denominator × (cap < initial)) }
    {
        if initial > MAX_INTERVAL || cap > MAX_INTERVAL {
            return Err(RetryError::IntervalTooLong);
        }
        if denominator < 1 || numerator < denominator || numerator > MAX_MULTIPLIER_TERM {
            return Err(RetryError::BadMultiplier);
        }
        if cap < initial {
            return Err(RetryError::CapBelowInitial);
        }
        Ok(Interval {
            backoff: Backoff::Exponential {
                initial,
                numerator,
                denominator,
                cap,
            },
        })
    }

    /// Returns the wait after an attempt, in milliseconds. Attempts are numbered from 1.
    pub fn after(&self, attempt: u32) -> u64
        requires { 1 ≤ attempt }
        ensures rule { result ≡ interval self.now attempt }
        ensures limit { result ≤ interval_limit }
    {
        match self.backoff {
            Backoff::Fixed(ms) => ms,
            Backoff::Exponential {
                initial,
                numerator,
                denominator,
                cap,
            } => capped_wait(
                cap,
                initial,
                u64::from(numerator),
                u64::from(denominator),
                attempt - 1,
            ),
        }
    }

    /// Returns the wait after the next attempt, in milliseconds, if `wait` is the one after an
    /// attempt. It takes one step, however many attempts there were: a retry goes from wait to wait.
    pub fn next(&self, wait: u64) -> u64
        ensures rule { (attempt : ℕ) → 1 ≤ attempt → wait ≡ interval self.now attempt → result ≡ interval self.now (attempt + 1) }
        ensures limit { result ≤ interval_limit }
    {
        match self.backoff {
            Backoff::Fixed(ms) => ms,
            Backoff::Exponential {
                initial: _,
                numerator,
                denominator,
                cap,
            } => next_wait(cap, wait, u64::from(numerator), u64::from(denominator)),
        }
    }
}

/// The same wait after every attempt, or waits that grow up to a cap.
impl resil_call::Backoff for Interval {
    ghost use Rattle.std.specs.Prelude.{◌≡◌};
    ghost use Rattle.resil_retry.specs.Interval.{interval};

    ghost IsWait = { λ backoff attempt wait. wait ≡ interval backoff attempt };

    fn after(&self, attempt: u32) -> u64 {
        Interval::after(self, attempt)
    }

    fn next(&self, attempt: u32, last: u64) -> u64 {
        if attempt == 1 {
            return Interval::after(self, 1);
        }
        Interval::next(self, last)
    }
}

// The wait after this one, or the cap if that is less. A wait that has reached the cap stays there.
fn next_wait(cap: u64, wait: u64, numerator: u64, denominator: u64) -> u64
    requires multiplier { IsMultiplier numerator denominator }
    requires limit { cap ≤ interval_limit }
    ensures rule { (first steps : ℕ) → wait ≡ min (uncapped_wait first numerator denominator steps) cap
        → result ≡ min (uncapped_wait first numerator denominator (steps + 1)) cap }
    ensures limit { result ≤ cap }
{
    if wait < cap {
        cap.min(wait * numerator / denominator)
    } else {
        cap
    }
}

// What the first wait grows to in this number of steps, or the cap if that is less. The loop ends
// at the first step that reaches the cap or changes nothing.
fn capped_wait(cap: u64, first: u64, numerator: u64, denominator: u64, steps: u32) -> u64
    requires multiplier { IsMultiplier numerator denominator }
    requires start { first ≤ cap }
    requires limit { cap ≤ interval_limit }
    ensures { result ≡ min (uncapped_wait first numerator denominator steps) cap }
{
    let mut wait = first;
    for step in 0..steps {
        let next = wait * numerator / denominator;
        if next >= cap {
            return cap;
        }
        if next == wait {
            return wait;
        }
        wait = next;
    }
    wait
}
