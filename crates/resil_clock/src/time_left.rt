//! A time that has started, and how much of it is left.
ghost use Rattle.std.specs.Prelude.{Option, Some, None, ◌≡◌, ◌<◌, ◌≤◌, ◌+◌, ◌-◌, IfSome, IfNone};
ghost use Rattle.std.specs.Duration.{as_nanos};
ghost use Rattle.std.specs.Time.{instant_nanos};
ghost use Rattle.std.specs.declared.time.Instant.{Instant};
ghost use Rattle.resil_clock.specs.Readings.{IsLeftBy};

use crate::reads::Reads;
use std::time::{Duration, Instant};

/// A time that has started, and the last reading of the clock.
///
/// ```
/// let Some(mut time) = TimeLeft::start(&rt, Duration::from_millis(50)) else {
///     return Ok(());
/// };
/// while let Some(left) = time.left(&rt) {
///     std::thread::sleep(&rt, left);
/// }
/// ```
#[derive(Clone, Copy)]
pub struct TimeLeft {
    start: Instant,
    longest: Duration,
    last: Instant,
}

impl TimeLeft {
    /// A time that starts now and lasts `longest`, or nothing if the clock can't be read.
    pub fn start<R: Reads>(clock: &R, longest: Duration) -> Option<TimeLeft>
        ensures longest { IfSome result (λ time. time.longest ≡ longest) }
        ensures last { IfSome result (λ time. time.last ≡ time.start) }
        ensures read { IfSome result (λ time. R.HasSaid clock.now None (Some time.start)) }
        ensures unread { IfNone result (R.HasSaid clock.now None None) }
    {
        let start = clock.read(None)?;
        Some(TimeLeft {
            start,
            longest,
            last: start,
        })
    }

    /// How much of it is left by the clock, which is read once. Nothing if the time is over or the clock can't be read.
    pub fn left<R: Reads>(&mut self, clock: &R) -> Option<Duration>
        ensures start { self.new.start ≡ self.old.start }
        ensures longest { self.new.longest ≡ self.old.longest }
        ensures some { IfSome result (λ left. R.HasSaid clock.now (Some self.old.last) (Some self.new.last) × IsLeftBy self.old.start (as_nanos self.old.longest) (Some self.new.last) result) }
        ensures none { IfNone result ((said : Option Instant) × R.HasSaid clock.now (Some self.old.last) said × IsLeftBy self.old.start (as_nanos self.old.longest) said result) }
    {
        let now = clock.read(Some(self.last))?;
        self.last = now;
        self.left_at(now)
    }

    // The same at a reading of the clock: the time spent by then and the time left add up to the longest time.
    fn left_at(&self, now: Instant) -> Option<Duration>
        ensures some { IfSome result (λ left. 0 < as_nanos left) }
        ensures left { IfSome result (λ left. instant_nanos now - instant_nanos self.now.start + as_nanos left ≡ as_nanos self.now.longest) }
        ensures over { IfNone result (as_nanos self.now.longest ≤ instant_nanos now - instant_nanos self.now.start) }
    {
        let spent = now.duration_since(self.start);
        let left = self.longest.checked_sub(spent)?;
        if left.is_zero() { None } else { Some(left) }
    }
}
