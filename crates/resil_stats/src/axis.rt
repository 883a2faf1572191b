//! The axis of a chart of events that have times: where a moment is, which moments share a column, and how far apart ticks are.
//!
//! Everything is computed in whole microseconds, and in 128 bits if 64 are too few.

ghost use Rattle.std.specs.Prelude.{ℕ, ◌≡◌, ◌≤◌, ◌<◌, ◌⊎◌, ◌-◌, ◌*◌};
ghost use Rattle.resil_stats.specs.Axis.{IsSpanEnd, IsSpanLength, IsTickStep, column_end, period_of, span_length, span_of, tick_unit, x_at};

use crate::spans::time_at;

/// From when to when an axis goes: two times in microseconds or, if events have no times, two places.
#[derive(Clone, Copy)]
pub struct Period {
    /// The beginning.
    pub first: u64,
    /// The end.
    pub last: u64,
}

// The units of ticks, in microseconds.
pub(crate) const MILLISECOND: u64 = 1000;

pub(crate) const SECOND: u64 = 1_000_000;

pub(crate) const MINUTE: u64 = 60_000_000;

pub(crate) const HOUR: u64 = 3_600_000_000;

pub(crate) const DAY: u64 = 86_400_000_000;

// The distances that ticks may have, in microseconds: the last ones are days.
const TICK_STEPS: [u64; 59] = [
    1,
    2,
    5,
    10,
    20,
    50,
    100,
    200,
    500,
    1000,
    2000,
    5000,
    10_000,
    20_000,
    50_000,
    100_000,
    200_000,
    500_000,
    1_000_000,
    2_000_000,
    5_000_000,
    10_000_000,
    20_000_000,
    30_000_000,
    60_000_000,
    120_000_000,
    300_000_000,
    600_000_000,
    900_000_000,
    1_800_000_000,
    3_600_000_000,
    7_200_000_000,
    10_800_000_000,
    21_600_000_000,
    43_200_000_000,
    86_400_000_000,
    172_800_000_000,
    432_000_000_000,
    864_000_000_000,
    1_728_000_000_000,
    4_320_000_000_000,
    8_640_000_000_000,
    17_280_000_000_000,
    43_200_000_000_000,
    86_400_000_000_000,
    172_800_000_000_000,
    432_000_000_000_000,
    864_000_000_000_000,
    1_728_000_000_000_000,
    4_320_000_000_000_000,
    8_640_000_000_000_000,
    17_280_000_000_000_000,
    43_200_000_000_000_000,
    86_400_000_000_000_000,
    172_800_000_000_000_000,
    432_000_000_000_000_000,
    864_000_000_000_000_000,
    1_728_000_000_000_000_000,
    4_320_000_000_000_000_000,
];

/// The period of the first `count` events.
pub(crate) fn period_of(times: &[u64], count: usize) -> Period
    ensures { result ≡ period_of times.now count }
{
    Period {
        first: time_at(times, 0),
        last: time_at(times, count.saturating_sub(1)),
    }
}

// The wider of two steps, if four of the other one are no longer than this.
fn wider(length: u64, widest: u64, step: u64) -> u64
    ensures one { (result ≡ widest) ⊎ ((result ≡ step) × (4 * step ≤ length)) }
    ensures kept { widest ≤ result }
    ensures fitting { 4 * step ≤ length → step ≤ result }
{
    if step <= length / 4 {
        widest.max(step)
    } else {
        widest
    }
}

impl Period {
    /// From its first time to its last one.
    pub(crate) fn length(self) -> u64
        ensures { result ≡ self.last - self.first }
    {
        self.last.saturating_sub(self.first)
    }

    /// The position of a moment, in hundredths of a pixel: between the ends of the axis, and no earlier moment is further right.
    pub(crate) fn x_of(self, time: u64) -> u32
        ensures place { result ≡ x_at self time }
        ensures between { (9200 ≤ result) × (result ≤ 78600) × (time ≤ self.last → result ≤ 77200) }
        ensures order { (later : ℕ) → time ≤ later → result ≤ x_at self later }
    {
        let along = 68_000 * u128::from(time.saturating_sub(self.first));
        let x = 9200 + along / u128::from(self.length().max(1));
        x.min(78_600) as u32
    }

    /// How long the span of a column is: the least length for which 350 spans hold the whole period.
    pub(crate) fn span_length(self) -> u64
        ensures length { result ≡ span_length self }
        ensures least { IsSpanLength self result }
    {
        self.length() / 350 + 1
    }

    /// The span in which a moment lies, from 0.
    pub(crate) fn span_of(self, time: u64) -> u64
        ensures { result ≡ span_of self time }
    {
        time.saturating_sub(self.first) / self.span_length()
    }

    /// The beginning of the span in which a moment lies, and its end, at which the next one begins.
    pub(crate) fn ends_of(self, time: u64) -> (u64, u64) {
        let long = self.span_length();
        let before = self.span_of(time).saturating_mul(long);
        let start = self.first.saturating_add(before);
        (start, start.saturating_add(long))
    }

    /// The end of the column that has the span in which a moment lies, in hundredths of a pixel: also if no time is as late.
    pub(crate) fn column_end(self, time: u64) -> u32
        ensures end { result ≡ column_end self time }
        ensures one_moment { self.last ≡ self.first → time ≡ self.first → result ≡ 77200 }
    {
        let long = self.span_length();
        let before = self.span_of(time).saturating_mul(long);
        let along = 68_000 * (u128::from(before) + u128::from(long));
        let end = 9200 + along / u128::from(self.length().max(1));
        end.min(78_600) as u32
    }

    /// How far apart ticks are, in microseconds.
    pub(crate) fn tick_step(self) -> u64
        ensures { IsTickStep (self.last - self.first) result }
    {
        let mut widest = 1;
        for step in TICK_STEPS {
            widest = wider(self.length(), widest, step);
        }
        widest
    }

    /// The unit of ticks that are this far apart, in microseconds. For ticks closer than a second, it is one in which the whole
    /// period isn't a fraction.
    pub(crate) fn tick_unit(self, step: u64) -> u64
        ensures { result ≡ tick_unit (self.last - self.first) step }
    {
        if step >= DAY {
            DAY
        } else if step >= HOUR {
            HOUR
        } else if step >= MINUTE {
            MINUTE
        } else if self.length() >= SECOND {
            SECOND
        } else if self.length() >= MILLISECOND {
            MILLISECOND
        } else {
            1
        }
    }
}

/// The end of the events that follow the first `done` in the span of the next one, out of the first `count`.
pub(crate) fn span_end(times: &[u64], period: Period, count: usize, done: usize) -> usize
    requires { done < count }
    ensures later { done < result }
    ensures within { result ≤ count }
    ensures span { IsSpanEnd times.now period count done result }
{
    let span = period.span_of(time_at(times, done));
    for end in done + 1..count {
        if period.span_of(time_at(times, end)) != span {
            return end;
        }
    }
    count
}
