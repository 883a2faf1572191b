//! The window of a chart: which events of a history are drawn, and how high its scales go.
//!
//! A window shows the state of the whole history there: nothing is counted anew from its beginning.

ghost use Rattle.std.specs.Prelude.{◌≡◌, ◌≤◌, ◌<◌, count_by, filter, length, max, nat_le, nat_lt, option_map, take};
ghost use Rattle.resil_stats.specs.Window.{before_of, height_of, is_marked, is_reached, through_of, whole_of, window_of};

use crate::axis::{Period, period_of};
use crate::bars::Bar;
use crate::marks::Mark;

/// From when to when to draw a history, and how high its scales go at least.
#[derive(Clone, Copy)]
pub struct Extent {
    /// The beginning: a time in microseconds or, if the history has no times, a place from 1. By default, that of the first event.
    pub from: Option<u64>,
    /// The end. By default, that of the last event that can be drawn.
    pub to: Option<u64>,
    /// The jobs that wait.
    pub waiting: Option<u32>,
    /// The workers.
    pub workers: Option<u32>,
}

impl Extent {
    /// The whole history, with the scales that fit it.
    pub const WHOLE: Extent = Extent {
        from: None,
        to: None,
        waiting: None,
        workers: None,
    };
}

/// Which events of a history are drawn, and from where to where its axis goes.
#[derive(Clone, Copy)]
pub struct Window {
    /// How many events there are before it.
    pub before: usize,
    /// The place of its last event, or `before` if it has none.
    pub end: usize,
    /// The beginning and the end of its axis, in microseconds or as places.
    pub period: Period,
    /// Whether neither a beginning nor an end is given.
    pub is_whole: bool,
}

/// How high the scales go, if that is given: as high as the numbers, if these are higher.
#[derive(Clone, Copy)]
pub struct Heights {
    /// The jobs that wait.
    pub waiting: Option<usize>,
    /// The workers.
    pub workers: Option<usize>,
}

// How many times are below one.
fn count_earlier(times: &[u64], time: u64) -> usize
    ensures { result ≡ count_by (λ other. nat_lt other time) times.now }
{
    times.iter().filter(|other| **other < time).count()
}

// How many times are no higher than one.
fn count_up_to(times: &[u64], time: u64) -> usize
    ensures { result ≡ count_by (λ other. nat_le other time) times.now }
{
    times.iter().filter(|other| **other <= time).count()
}

// The times of the first `count` events.
fn first_times(times: &[u64], count: usize) -> &[u64]
    ensures { result.now ≡ take count times.now }
{
    &times[..count.min(times.len())]
}

// How many of the first `count` events are before a beginning.
fn before_of(times: Option<&[u64]>, count: usize, from: u64) -> usize
    ensures { result ≡ before_of (option_map (λ times. times.now) times.entry) count from }
{
    match times {
        Some(times) => count_earlier(first_times(times, count), from),
        None => from.saturating_sub(1).min(count as u64) as usize,
    }
}

// How many of the first `count` events are no later than an end.
fn through_of(times: Option<&[u64]>, count: usize, to: u64) -> usize
    ensures { result ≡ through_of (option_map (λ times. times.now) times.entry) count to }
{
    match times {
        Some(times) => count_up_to(first_times(times, count), to),
        None => to.min(count as u64) as usize,
    }
}

// From the first of `count` events to the last one.
fn whole_of(times: Option<&[u64]>, count: usize) -> Period
    ensures { result ≡ whole_of (option_map (λ times. times.now) times.entry) count }
{
    match times {
        Some(times) => period_of(times, count),
        None => Period {
            first: 1,
            last: count as u64,
        },
    }
}

/// The window of `count` events, which may have times.
pub(crate) fn window_of(extent: Extent, times: Option<&[u64]>, count: usize) -> Window
    ensures window { result ≡ window_of extent (option_map (λ times. times.now) times.entry) count }
    ensures order { result.before ≤ result.end }
    ensures within { result.end ≤ count }
{
    let before = match extent.from {
        Some(from) => before_of(times, count, from),
        None => 0,
    };
    let through = match extent.to {
        Some(to) => through_of(times, count, to),
        None => count,
    };
    let whole = whole_of(times, count);
    Window {
        before,
        end: before.max(through),
        period: Period {
            first: extent.from.unwrap_or(whole.first),
            last: extent.to.unwrap_or(whole.last),
        },
        is_whole: extent.from.is_none() && extent.to.is_none(),
    }
}

// How high a scale goes, if that is given: as high as the numbers, if these are higher.
fn height_of(asked: Option<u32>, most: usize) -> Option<usize>
    ensures { result ≡ height_of asked most }
{
    match asked {
        Some(asked) => Some(most.max(asked as usize)),
        None => None,
    }
}

impl Heights {
    /// How high the scales go of a chart with this many jobs that wait and this many workers.
    pub(crate) fn of(extent: Extent, waiting: usize, workers: usize) -> Heights
        ensures waiting { result.waiting ≡ height_of extent.waiting waiting }
        ensures workers { result.workers ≡ height_of extent.workers workers }
    {
        Heights {
            waiting: height_of(extent.waiting, waiting),
            workers: height_of(extent.workers, workers),
        }
    }
}

impl Window {
    /// How many events are in it.
    pub fn events(&self) -> usize {
        self.end.saturating_sub(self.before)
    }

    // Whether a bar reaches into it.
    fn is_reached(&self, bar: &Bar) -> bool
        ensures { result ≡ is_reached self.now bar.now }
    {
        self.before < bar.to && bar.from <= self.end
    }

    // Whether a mark is in it.
    fn is_marked(&self, mark: &Mark) -> bool
        ensures { result ≡ is_marked self.now mark.now }
    {
        self.before < mark.at && mark.at <= self.end
    }

    /// Drops the bars that don't reach into it.
    pub(crate) fn cut_bars(&self, bars: &mut Vec<Bar>)
        ensures { bars.new.items ≡ filter (is_reached self.now) bars.old.items }
    {
        bars.retain(|bar| self.is_reached(bar));
    }

    /// Drops the marks that aren't in it.
    pub(crate) fn cut_marks(&self, marks: &mut Vec<Mark>)
        ensures { marks.new.items ≡ filter (is_marked self.now) marks.old.items }
    {
        marks.retain(|mark| self.is_marked(mark));
    }
}
