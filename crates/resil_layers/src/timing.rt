//! How long calls take, by a given clock.

ghost use Rattle.std.specs.Prelude.{◌≡◌};

use crate::observed::Observer;
use std::sync::atomic::Ordering::SeqCst;
use std::sync::atomic::{AtomicIsize, AtomicU64};
use std::time::{Clock, Duration};

/// The sum of the times that calls took, and the longest, in whole microseconds: words that threads add to and any thread
/// may read. No clause says what a word holds.
///
/// ```
/// let times = CallTimes::new("prices");
/// let mut chain = FromFn(|| ask(&neighbour)).observed(Timing::new(&times, &rt));
/// ```
#[derive(Drop)]
pub struct CallTimes<'a> {
    name: &'a str,
    total: AtomicU64,
    longest: AtomicIsize,
}

// A time in whole microseconds, at most 292,000 years.
fn microseconds(time: Duration) -> isize {
    isize::try_from(time.as_micros()).unwrap_or(isize::MAX)
}

impl<'a> CallTimes<'a> {
    /// Makes times that are all 0, under this name.
    pub fn new(name: &'a str) -> CallTimes<'a>
        ensures { result.name.now ≡ name.now }
    {
        CallTimes {
            name,
            total: AtomicU64::new(0),
            longest: AtomicIsize::new(0),
        }
    }

    /// Returns the name.
    pub fn name(&self) -> &'a str
        ensures { result.now ≡ self.now.name.now }
    {
        self.name
    }

    /// Adds the time of a call.
    pub fn add(&self, time: Duration) {
        let long = microseconds(time);
        self.total
            .fetch_add(u64::try_from(long).unwrap_or(0), SeqCst);
        self.longest.fetch_max(long, SeqCst);
    }

    /// Returns how long all calls took together.
    pub fn total(&self) -> Duration {
        Duration::from_micros(self.total.load(SeqCst))
    }

    /// Returns how long the longest took.
    pub fn longest(&self) -> Duration {
        Duration::from_micros(u64::try_from(self.longest.load(SeqCst)).unwrap_or(0))
    }
}

/// An observer that measures each call. A call isn't added if the clock can't be read when it begins or ends.
#[derive(Drop)]
pub struct Timing<'a, R> {
    times: &'a CallTimes<'a>,
    clock: &'a R,
    began: Option<Duration>,
}

impl<'a, R: Clock> Timing<'a, R> {
    /// Makes an observer that adds to these times, by this clock.
    pub fn new(times: &'a CallTimes<'a>, clock: &'a R) -> Timing<'a, R> {
        Timing {
            times,
            clock,
            began: None,
        }
    }
}

impl<T, R: Clock> Observer<T> for Timing<'_, R> {
    fn before(&mut self) {
        self.began = self.clock.monotonic().ok();
    }

    fn after(&mut self, _answer: &T) {
        let Some(began) = self.began else {
            return;
        };
        if let Ok(now) = self.clock.monotonic() {
            self.times.add(now.saturating_sub(began));
        }
    }
}
