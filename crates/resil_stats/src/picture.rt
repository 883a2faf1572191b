//! The chart of a history: what is drawn of it, up to its first illegal event.

ghost use Rattle.std.specs.Prelude.{◌≡◌, ◌≤◌, IfOk, filter, length, option_map};
ghost use Rattle.resil_jdk.specs.Admission.{IsLegal};
ghost use Rattle.resil_rule.specs.Limits.{Sizes};
ghost use Rattle.resil_stats.specs.Columns.{is_gathered};
ghost use Rattle.resil_stats.specs.Depth.{AreLevelsOf, opening_sizes};
ghost use Rattle.resil_stats.specs.Marks.{marks_in};
ghost use Rattle.resil_stats.specs.Picture.{AreBarsIn, AreDrawn, first_illegal};
ghost use Rattle.resil_stats.specs.Stats.{AreJdkStatsOf, legal_part};
ghost use Rattle.resil_stats.specs.Window.{height_of, is_marked, window_of};

use crate::areas::{Running, areas_of};
use crate::bars::{Bar, bars_of};
use crate::columns::{Column, columns_of, is_gathered};
use crate::depth::{Level, levels_of, opening_sizes};
use crate::marks::{Mark, marks_of};
use crate::stats::{JdkStats, count_jdk};
use crate::window::{Extent, Heights, Window, window_of};
use resil_jdk::{JdkEvent, JdkLimits};
use resil_rule::Verdict;
use std::alloc::{AllocError, Global};

/// The first illegal event of a history.
#[derive(Clone, Copy)]
pub struct Illegal {
    /// Its place in the history, from 1.
    pub at: usize,
    /// The event.
    pub event: JdkEvent,
}

/// What is drawn of a history.
#[derive(Drop)]
pub struct Picture {
    /// The sizes that the pool was opened with.
    pub limits: JdkLimits,
    /// The core size and the maximum size that it begins with: those of a resize before all else, or those of its opening.
    pub opening: (u32, u32),
    /// How many events the history has, illegal ones too.
    pub events: usize,
    /// The numbers of the history, for the title.
    pub stats: JdkStats,
    /// Which of its events are drawn, and from where to where the axis goes.
    pub window: Window,
    /// How high the scales go, if the extent says so.
    pub heights: Heights,
    /// The refusals, starts, culls and removals in the window, and what was done to the pool there, in their order.
    pub marks: Vec<Mark>,
    /// How full the pool is after each event.
    pub levels: Vec<Level>,
    /// What is drawn of the jobs that ran.
    pub drawn: Drawn,
    /// The first illegal event, if there is one.
    pub illegal: Option<Illegal>,
}

/// What is drawn of the jobs that ran: each of them, or columns if there are too many events or workers.
#[derive(Drop)]
pub struct Drawn {
    /// The bars that reach into the window, in the order of the starts of their jobs: none if events are gathered.
    pub bars: Vec<Bar>,
    /// The columns of the window.
    pub columns: Vec<Column>,
    /// How many jobs run after each event of the history, by how they started: none if events aren't gathered.
    pub areas: Vec<Running>,
}

impl Drawn {
    /// Whether events are gathered into columns.
    pub fn is_gathered(&self) -> bool {
        !self.areas.is_empty()
    }
}

impl Picture {
    /// Whether it is of the whole history, in the scales that fit it.
    pub fn is_plain(&self) -> bool {
        self.window.is_whole && self.heights.waiting.is_none() && self.heights.workers.is_none()
    }
}

// The bars of events that reach into a window. Errors: `AllocError` when out of memory.
fn bars_in(alloc: Global, window: Window, events: &[JdkEvent]) -> Result<Vec<Bar>, AllocError>
    requires { (legal : Sizes) × IsLegal legal events.now }
    ensures { IfOk result (λ bars. AreBarsIn window events.now bars.items) }
{
    let mut bars = bars_of(alloc, events)?;
    window.cut_bars(&mut bars);
    Ok(bars)
}

// The marks of events that are in a window. Errors: `AllocError` when out of memory.
fn marks_in(alloc: Global, window: Window, events: &[JdkEvent]) -> Result<Vec<Mark>, AllocError>
    ensures { IfOk result (λ marks. marks.items ≡ filter (is_marked window) (marks_in events.now)) }
{
    let mut marks = marks_of(alloc, events)?;
    window.cut_marks(&mut marks);
    Ok(marks)
}

// What is drawn in a window of events with these levels. Errors: `AllocError` when out of memory.
fn drawn_of(
    alloc: Global,
    window: Window,
    events: &[JdkEvent],
    levels: &[Level],
    times: Option<&[u64]>,
) -> Result<Drawn, AllocError>
    requires legal { (legal : Sizes) × IsLegal legal events.now }
    requires same { length events.now ≡ length levels.now }
    requires order { window.before ≤ window.end }
    requires within { window.end ≤ length levels.now }
    ensures { IfOk result (AreDrawn window events.now levels.now (option_map (λ times. times.now) times.entry)) }
{
    if is_gathered(window, levels) {
        Ok(Drawn {
            bars: Vec::new(alloc),
            columns: columns_of(alloc, events, levels, times, window)?,
            areas: areas_of(alloc, events)?,
        })
    } else {
        Ok(Drawn {
            bars: bars_in(alloc, window, events)?,
            columns: Vec::new(alloc),
            areas: Vec::new(alloc),
        })
    }
}

// The first illegal event by a verdict.
fn illegal_in(history: &[JdkEvent], verdict: Verdict) -> Option<Illegal>
    ensures { option_map (λ i. (i.at, i.event)) result ≡ first_illegal verdict history.now }
{
    let Verdict::FirstIllegal(at) = verdict else {
        return None;
    };
    match history.get(at.saturating_sub(1)) {
        Some(event) => Some(Illegal { at, event: *event }),
        None => None,
    }
}

/// The events of a history that are drawn or counted, by the verdict on it.
pub fn legal_part(history: &[JdkEvent], verdict: Verdict) -> &[JdkEvent]
    ensures { result.now ≡ legal_part verdict history.now }
{
    match verdict {
        Verdict::Legal => history,
        Verdict::FirstIllegal(position) => {
            let count = position.saturating_sub(1).min(history.len());
            &history[..count]
        }
    }
}

/// The chart of a history with this verdict in a pool of these limits: of the part of it that an extent asks for, in columns by the times
/// of its events if they have times. Its levels and its numbers are those of the whole history.
///
/// # Errors
///
/// `AllocError` when out of memory.
///
/// ```
/// let picture = picture_of(alloc, Extent::WHOLE, &limits, Verdict::Legal, &history, None)?;
/// for bar in picture.drawn.bars.iter() {
///     println!(rt; "row {}: job {}", bar.row, bar.id.number)?;
/// }
/// ```
pub fn picture_of(
    alloc: Global,
    extent: Extent,
    limits: &JdkLimits,
    verdict: Verdict,
    history: &[JdkEvent],
    times: Option<&[u64]>,
) -> Result<Picture, AllocError>
    requires { (legal : Sizes) × IsLegal legal (legal_part verdict history.now) }
    ensures limits { IfOk result (λ picture. picture.limits ≡ limits.now) }
    ensures opening { IfOk result (λ picture. picture.opening ≡ opening_sizes limits.now (legal_part verdict history.now)) }
    ensures events { IfOk result (λ picture. picture.events ≡ length history.now) }
    ensures numbers { IfOk result (λ picture. AreJdkStatsOf 0 (legal_part verdict history.now) picture.stats) }
    ensures verdict { IfOk result (λ picture. picture.stats.verdict ≡ verdict) }
    ensures window { IfOk result (λ picture. picture.window ≡ window_of extent (option_map (λ times. times.now) times.entry) (length (legal_part verdict history.now))) }
    ensures most_waiting { IfOk result (λ picture. picture.heights.waiting ≡ height_of extent.waiting picture.stats.most.waiting) }
    ensures most_workers { IfOk result (λ picture. picture.heights.workers ≡ height_of extent.workers picture.stats.most.workers) }
    ensures marks { IfOk result (λ picture. picture.marks.items ≡ filter (is_marked picture.window) (marks_in (legal_part verdict history.now))) }
    ensures levels { IfOk result (λ picture. AreLevelsOf limits.now (legal_part verdict history.now) picture.levels.items) }
    ensures drawn { IfOk result (λ picture. AreDrawn picture.window (legal_part verdict history.now) picture.levels.items (option_map (λ times. times.now) times.entry) picture.drawn) }
    ensures illegal { IfOk result (λ picture. option_map (λ i. (i.at, i.event)) picture.illegal ≡ first_illegal verdict history.now) }
{
    let events = legal_part(history, verdict);
    let window = window_of(extent, times, events.len());
    let levels = levels_of(alloc, limits, events)?;
    let drawn = drawn_of(alloc, window, events, &levels, times)?;
    let stats = count_jdk(alloc, verdict, 0, events)?;
    Ok(Picture {
        limits: *limits,
        opening: opening_sizes(limits, events),
        events: history.len(),
        window,
        heights: Heights::of(extent, stats.most.waiting, stats.most.workers),
        stats,
        marks: marks_in(alloc, window, events)?,
        levels,
        drawn,
        illegal: illegal_in(history, verdict),
    })
}
