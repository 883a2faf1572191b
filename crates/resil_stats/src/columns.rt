//! The columns of a history that is too long for each event to be drawn, or of a pool with too many workers for a row each.
//!
//! There are at most 350 columns. Each has the same number of events, except for the last one, which has those that are left. If events have
//! times, a column has the events of one of 350 equal spans of time. It shows the maximum of each number, because readers look for peaks.

ghost use Rattle.std.specs.Prelude.{◌≡◌, ◌≤◌, ◌+◌, ◌<◌, IfOk, count_by, length, map, option_map};
ghost use Rattle.resil_stats.specs.Columns.{AreColumnsOf, HasLastSizes, IsColumnEnd, IsColumnOf, IsPeakAmong, IsWidth, greatest, is_gathered};
ghost use Rattle.resil_stats.specs.Stats.{is_full, is_refused_closed};

use crate::axis::span_end;
use crate::depth::Level;
use crate::window::Window;
use resil_jdk::{JdkEvent, JdkReply};
use std::alloc::{AllocError, Global};

// The most events that are drawn one by one.
const MOST_DRAWN: usize = 4000;

// The most workers that get a row each.
const MOST_ROWS: usize = 64;

// The most columns of a chart.
const MOST_COLUMNS: usize = 350;

/// Events that are drawn together.
#[derive(Clone, Copy)]
pub struct Column {
    /// The place of its first event.
    pub from: usize,
    /// The place of its last event.
    pub to: usize,
    /// The most jobs that wait after any of its events.
    pub waiting: usize,
    /// The most workers after any of its events.
    pub workers: usize,
    /// The place of the first of its events after which the most jobs run.
    pub peak: usize,
    /// How many submissions were refused because the pool was full.
    pub full: usize,
    /// How many submissions were refused because the pool was closed.
    pub closed: usize,
    /// The core size after its last event, in workers.
    pub core: u32,
    /// The maximum size after its last event, in workers.
    pub max: u32,
}

/// Returns how many events make a column: the smallest number with which this many events fit into 350 columns.
pub fn column_width(events: usize) -> usize
    ensures { IsWidth events result }
{
    events.div_ceil(MOST_COLUMNS)
}

// Whether an event is a submission that was refused because the pool was full.
fn is_full(event: &JdkEvent) -> bool
    ensures { result ≡ is_full event.now }
{
    matches!(
        event,
        JdkEvent::Submit {
            reply: JdkReply::Full,
            ..
        }
    )
}

// Whether an event is a submission that was refused because the pool was closed.
fn is_refused_closed(event: &JdkEvent) -> bool
    ensures { result ≡ is_refused_closed event.now }
{
    matches!(
        event,
        JdkEvent::Submit {
            reply: JdkReply::Closed,
            ..
        }
    )
}

// How many submissions were refused because the pool was full.
fn count_full(events: &[JdkEvent]) -> usize
    ensures { result ≡ count_by is_full events.now }
{
    events.iter().filter(|event| is_full(event)).count()
}

// How many submissions were refused because the pool was closed.
fn count_closed(events: &[JdkEvent]) -> usize
    ensures { result ≡ count_by is_refused_closed events.now }
{
    let refused = events.iter().filter(|event| is_refused_closed(event));
    refused.count()
}

// The most jobs that wait at any of the levels, 0 if there are none.
fn most_waiting(levels: &[Level]) -> usize
    ensures { result ≡ greatest (map (λ level. level.waiting) levels.now) }
{
    levels.iter().fold(0, |most, level| most.max(level.waiting))
}

// The most workers at any of the levels, 0 if there are none.
fn most_workers(levels: &[Level]) -> usize
    ensures { result ≡ greatest (map (λ level. level.workers) levels.now) }
{
    levels.iter().fold(0, |most, level| most.max(level.workers))
}

/// Whether the events of a window are gathered into columns, given the levels of the whole history.
pub(crate) fn is_gathered(window: Window, levels: &[Level]) -> bool
    ensures { result ≡ is_gathered window levels.now }
{
    window.end.saturating_sub(window.before) > MOST_DRAWN || most_workers(levels) > MOST_ROWS
}

// The first level at which the most jobs run.
#[tactic(auto, using(crate::proofs::ColumnLaws::peak_is))]
fn peak_of(levels: &[Level]) -> Level
    requires { 0 < length levels.now }
    ensures { IsPeakAmong levels.now (length levels.now) result }
{
    let mut peak = 0;
    for index in 1..levels.len() {
        if levels[peak].running < levels[index].running {
            peak = index;
        }
    }
    levels[peak]
}

// The column of the events from index `start` up to index `end`, which it doesn't include.
#[tactic(auto, using(std::proofs::lemmas::Option::gets))]
fn gather_column(events: &[JdkEvent], levels: &[Level], start: usize, end: usize) -> Column
    requires order { start < end }
    requires within { end ≤ length events.now }
    requires same { length events.now ≡ length levels.now }
    ensures column { IsColumnOf events.now levels.now result }
    ensures sizes { HasLastSizes levels.now result }
    ensures from { result.from ≡ start + 1 }
    ensures to { result.to ≡ end }
{
    let (own, after) = (&events[start..end], &levels[start..end]);
    let last = levels[end - 1];
    Column {
        from: start + 1,
        to: end,
        waiting: most_waiting(after),
        workers: most_workers(after),
        peak: peak_of(after).at,
        full: count_full(own),
        closed: count_closed(own),
        core: last.core,
        max: last.max,
    }
}

// The end of a column that begins after the first `done` events: the end of its span of time, or after as many events as a column has.
fn column_end(times: Option<&[u64]>, window: Window, done: usize) -> usize
    requires order { window.before ≤ done }
    requires more { done < window.end }
    ensures later { done < result }
    ensures within { result ≤ window.end }
    ensures column { IsColumnEnd (option_map (λ times. times.now) times.entry) window done result }
{
    match times {
        Some(times) => span_end(times, window.period, window.end, done),
        None => {
            let width = column_width(window.end - window.before);
            done + width.min(window.end - done)
        }
    }
}

/// Returns the columns of the events of a window, by their times if they have any. There is a level for each event of the history.
/// Errors: `AllocError` when out of memory.
pub(crate) fn columns_of(
    alloc: Global,
    events: &[JdkEvent],
    levels: &[Level],
    times: Option<&[u64]>,
    window: Window,
) -> Result<Vec<Column>, AllocError>
    requires same { length events.now ≡ length levels.now }
    requires order { window.before ≤ window.end }
    requires within { window.end ≤ length levels.now }
    ensures { IfOk result (λ columns. AreColumnsOf events.now levels.now (option_map (λ times. times.now) times.entry) window columns.items) }
{
    let mut columns = Vec::new(alloc);
    let mut done = window.before;
    while done < window.end {
        let end = column_end(times, window, done);
        columns.push(gather_column(events, levels, done, end))?;
        done = end;
    }
    Ok(columns)
}
