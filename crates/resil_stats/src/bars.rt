//! The bars of a history: one for each job that a worker began to run.
//!
//! The events are gone over once. Each row knows where its last bar ends. A job that starts takes the first row that is
//! free by then, and its finish is looked for in the events that follow. Bars are drawn only for at most 64 workers. So
//! at most 64 rows are searched, and at most 64 jobs look over one event.

ghost use Rattle.std.specs.Prelude.{◌≡◌, ◌≤◌, ◌+◌, ◌++◌, ◌∷◌, [], length, IfOk, OnOk};
ghost use Rattle.std.specs.List.{position_or_len};
ghost use Rattle.resil_jdk.specs.Admission.{IsLegal};
ghost use Rattle.resil_rule.specs.Limits.{Sizes};
ghost use Rattle.resil_stats.specs.Bars.{AreBarsOf, IsPut, free_row, is_finish_of, start_at};

use resil_jdk::{JdkEvent, JdkReply};
use resil_rule::Id;
use std::alloc::{AllocError, Global};

/// How a job started.
#[derive(Clone, Copy, PartialEq, Eq)]
pub enum Start {
    /// With a new worker below the core size.
    Core,
    /// With a new worker above the core size.
    Extra,
    /// A worker took it from the queue.
    Queued,
    /// An idle worker got it at once, since the pool has no queue.
    Handed,
}

/// The bar of a job that started.
#[derive(Clone, Copy)]
pub struct Bar {
    /// The job.
    pub id: Id,
    /// How it started.
    pub start: Start,
    /// The place of its start in the history, from 1.
    pub from: usize,
    /// The place of its finish, or the place after the last event if it isn't finished.
    pub to: usize,
    /// The row, from 1.
    pub row: usize,
}

// The bars so far, and the place where the last bar of each row ends.
#[derive(Drop)]
struct BarDrawing {
    bars: Vec<Bar>,
    ends: Vec<usize>,
}

/// The job that starts at an event, and how.
pub(crate) fn start_at(event: JdkEvent) -> Option<(Id, Start)>
    ensures { result ≡ start_at event }
{
    match event {
        JdkEvent::Submit { id, reply } => match reply {
            JdkReply::Core => Some((id, Start::Core)),
            JdkReply::Extra => Some((id, Start::Extra)),
            JdkReply::Handed => Some((id, Start::Handed)),
            JdkReply::First | JdkReply::Queued | JdkReply::Full | JdkReply::Closed => None,
        },
        JdkEvent::Take(id) => Some((id, Start::Queued)),
        _ => None,
    }
}

// Whether an event is the finish of a job.
fn is_finish_of(event: &JdkEvent, id: Id) -> bool
    ensures { result ≡ is_finish_of id event.now }
{
    match event {
        JdkEvent::Finish(other) => id == *other,
        _ => false,
    }
}

// The index at which a job is finished among events, from 0: the number of events if it isn't.
fn finish_in(events: &[JdkEvent], id: Id) -> usize
    ensures finish { result ≡ position_or_len (is_finish_of id) events.now }
    ensures within { result ≤ length events.now }
{
    let before = events.iter().take_while(|event| !is_finish_of(event, id));
    before.count()
}

// The first row whose last bar ends before a place, from 0: a new one if all end later.
fn free_row(ends: &[usize], place: usize) -> usize
    ensures row { result ≡ free_row place ends.now }
    ensures within { result ≤ length ends.now }
{
    ends.iter().take_while(|end| **end >= place).count()
}

// Puts the end of a bar into a row, which may be one more than there are. Errors: `AllocError` when out of memory.
fn put_end(ends: &mut Vec<usize>, row: usize, end: usize) -> Result<(), AllocError>
    requires { row ≤ length ends.old.items }
    ensures { OnOk result (IsPut ends.old.items ends.new.items row end) }
{
    if row < ends.len() {
        ends[row] = end;
    } else {
        ends.push(end)?;
    }
    Ok(())
}

impl BarDrawing {
    // Draws a job from its start to its finish, in the first free row. Errors: `AllocError` when out of memory.
    fn begin(&mut self, id: Id, start: Start, from: usize, to: usize) -> Result<(), AllocError>
        ensures bars { OnOk result (self.new.bars.items ≡ self.old.bars.items ++ record { id = id; start = start; from = from; to = to; row = free_row from self.old.ends.items + 1 } ∷ []) }
        ensures ends { OnOk result (IsPut self.old.ends.items self.new.ends.items (free_row from self.old.ends.items) to) }
    {
        let row = free_row(&self.ends, from);
        put_end(&mut self.ends, row, to)?;
        let row = row + 1;
        self.bars.push(Bar {
            id,
            start,
            from,
            to,
            row,
        })?;
        Ok(())
    }
}

/// The bars of legal events, in the order of their jobs' starts.
/// Errors: `AllocError` when out of memory.
pub(crate) fn bars_of(alloc: Global, events: &[JdkEvent]) -> Result<Vec<Bar>, AllocError>
    requires { (limits : Sizes) × IsLegal limits events.now }
    ensures { IfOk result (λ bars. AreBarsOf events.now bars.items) }
{
    let mut drawing = BarDrawing {
        bars: Vec::new(alloc),
        ends: Vec::new(alloc),
    };
    for (index, event) in events.iter().enumerate() {
        let Some((id, start)) = start_at(*event) else {
            continue;
        };
        let from = index + 1;
        let to = from + 1 + finish_in(&events[from..], id);
        drawing.begin(id, start, from, to)?;
    }
    Ok(drawing.bars)
}
