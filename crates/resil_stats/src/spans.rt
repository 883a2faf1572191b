//! How long the jobs of a history of any version waited and ran, and how long idle workers took to come, by the times of its events.
//!
//! A span of a job begins at one event and ends at another. A wait goes from the submission to the start, and a run from the start to the
//! finish. A wake goes from the submission to the take, for a job that was queued while more workers were idle than jobs waited. So a table
//! of where each job's span began gives the span at the event that ends it. Jobs may leave the queue from anywhere in it.

ghost use Rattle.std.specs.Prelude.{◌≡◌, ◌-◌, ◌++◌, ◌∷◌, [], ℕ, List, IfOk, OnOk, length, nat_lt, option_and_then, slice_get, slice_index};
ghost use Rattle.std.specs.List.{cons_option};
ghost use Rattle.std.specs.Option.{option_map};
ghost use Rattle.resil_rule.specs.Limits.{Sizes};
ghost use Rattle.resil_rule.specs.declared.event.Id.{Id};
ghost use Rattle.resil_jdk.specs.Admission.{IsLegal};
ghost use Rattle.resil_jdk.specs.History.{accepted_id, finished_id, taken_id};
ghost use Rattle.resil_jdk.specs.declared.event.JdkEvent.{JdkEvent};
ghost use Rattle.resil_stats.specs.Spans.{AreBegun, AreJdkSpansOf, AreRanksOf, begun_at, begun_id, ended_id, jdk_waits, span, spans, started_id, woken_id};
ghost use Rattle.resil_stats.specs.Stats.{IsJdkLoadAfter};

use crate::stats::Load;
use resil_jdk::{JdkEvent, JdkReply};
use resil_rule::Id;
use std::alloc::{AllocError, Global};
use std::collections::HashMap;

/// The ranks of some spans of time, in microseconds, by the nearest rank; none if there is no span.
#[derive(Clone, Copy, PartialEq, Eq, Debug)]
pub struct Ranks {
    /// The median: of n spans in ascending order, the one at place ⌈n/2⌉.
    pub median: Option<u64>,
    /// The 99th percentile: the one at place ⌈99n/100⌉.
    pub p99: Option<u64>,
    /// The greatest.
    pub most: Option<u64>,
}

/// How long jobs waited and ran, and how long idle workers took to come.
#[derive(Clone, Copy, PartialEq, Eq, Debug)]
pub struct JdkSpans {
    /// From a job's submission to its start, of all jobs that started.
    pub waits: Ranks,
    /// From a job's start to its finish, of all jobs that are finished.
    pub runs: Ranks,
    /// From submission to take, of the jobs that were queued while more workers were idle than jobs waited.
    pub wakes: Ranks,
}

/// Which spans are measured.
#[derive(Clone, Copy)]
pub(crate) enum Measure {
    /// From a job's submission to its start.
    Wait,
    /// From a job's start to its finish.
    Run,
    /// From submission to take, of a job that is queued while more workers are idle than jobs wait.
    Wake,
}

// The job that an event accepts.
fn accepted_id(event: JdkEvent) -> Option<Id>
    ensures { result ≡ accepted_id event }
{
    match event {
        JdkEvent::Submit { id, reply } => match reply {
            JdkReply::Core
            | JdkReply::First
            | JdkReply::Queued
            | JdkReply::Handed
            | JdkReply::Extra => Some(id),
            JdkReply::Full | JdkReply::Closed => None,
        },
        _ => None,
    }
}

// The job that a worker begins to run at an event.
fn started_id(event: JdkEvent) -> Option<Id>
    ensures { result ≡ started_id event }
{
    match event {
        JdkEvent::Submit { id, reply } => match reply {
            JdkReply::Core | JdkReply::Handed | JdkReply::Extra => Some(id),
            JdkReply::First | JdkReply::Queued | JdkReply::Full | JdkReply::Closed => None,
        },
        JdkEvent::Take(id) => Some(id),
        _ => None,
    }
}

// The job of a submission that is queued while more workers are idle than jobs wait.
fn woken_id(load: Load, event: JdkEvent) -> Option<Id>
    ensures { (before : List JdkEvent) → IsJdkLoadAfter before load → result ≡ woken_id before event }
{
    match event {
        JdkEvent::Submit {
            id,
            reply: JdkReply::Queued,
        } => (load.waiting < load.idle()).then_some(id),
        _ => None,
    }
}

// The job whose span begins at the event of an index, by the load before it. The first events restate a state, and begin no wait and no wake.
fn begun_id(
    measure: Measure,
    restated: usize,
    index: usize,
    load: Load,
    event: JdkEvent,
) -> Option<Id>
    ensures { (before : List JdkEvent) → index ≡ length before → IsJdkLoadAfter before load → result ≡ begun_id measure restated before event }
{
    match measure {
        Measure::Run => started_id(event),
        Measure::Wait => {
            if index < restated {
                None
            } else {
                accepted_id(event)
            }
        }
        Measure::Wake => {
            if index < restated {
                None
            } else {
                woken_id(load, event)
            }
        }
    }
}

// The job whose span ends at an event.
fn ended_id(measure: Measure, event: JdkEvent) -> Option<Id>
    ensures { result ≡ ended_id measure event }
{
    match measure {
        Measure::Wait => started_id(event),
        Measure::Run => match event {
            JdkEvent::Finish(id) => Some(id),
            _ => None,
        },
        Measure::Wake => match event {
            JdkEvent::Take(id) => Some(id),
            _ => None,
        },
    }
}

// Notes where the span of a job begins, if one does. Errors: `AllocError` when out of memory.
fn note(
    begun: &mut HashMap<(u16, u64), usize>,
    id: Option<Id>,
    index: usize,
) -> Result<(), AllocError>
    ensures { OnOk result ((all : List (Id × ℕ)) → AreBegun all begun.old → AreBegun (all ++ cons_option (option_map (λ id. (id, index)) id) []) begun.new) }
{
    match id {
        Some(id) => {
            begun.insert((id.caller, id.number), index)?;
            Ok(())
        }
        None => Ok(()),
    }
}

/// The time at an index, 0 if there is none.
pub(crate) fn time_at(times: &[u64], index: usize) -> u64
    ensures { result ≡ slice_index times.now index }
{
    times.get(index).copied().unwrap_or(0)
}

// The span of a job that ends at an index, if one ends there and it began.
fn ended_span(
    begun: &HashMap<(u16, u64), usize>,
    id: Option<Id>,
    times: &[u64],
    index: usize,
) -> Option<u64>
    ensures { (all : List (Id × ℕ)) → AreBegun all begun.now → result ≡ option_and_then (λ id. option_map (λ from. span times.now from index) (begun_at all id)) id }
{
    let Some(id) = id else {
        return None;
    };
    let Some(from) = begun.get(&(id.caller, id.number)).copied() else {
        return None;
    };
    Some(time_at(times, index).saturating_sub(time_at(times, from)))
}

// Adds a span to others, if it is one. Errors: `AllocError` when out of memory.
fn push_some(spans: &mut Vec<u64>, span: Option<u64>) -> Result<(), AllocError>
    ensures { OnOk result (spans.new.items ≡ spans.old.items ++ cons_option span []) }
{
    let Some(span) = span else {
        return Ok(());
    };
    spans.push(span)?;
    Ok(())
}

// The spans of legal events, in the order in which they end. Errors: `AllocError` when out of memory.
fn measured(
    alloc: Global,
    measure: Measure,
    restated: usize,
    events: &[JdkEvent],
    times: &[u64],
) -> Result<Vec<u64>, AllocError>
    requires { (limits : Sizes) × IsLegal limits events.now }
    ensures { IfOk result (λ lengths. lengths.items ≡ spans measure restated times.now events.now) }
{
    let mut load = Load::default();
    let mut begun = HashMap::new(alloc);
    let mut lengths = Vec::new(alloc);
    for (index, event) in events.iter().enumerate() {
        let id = begun_id(measure, restated, index, load, *event);
        note(&mut begun, id, index)?;
        let span = ended_span(&begun, ended_id(measure, *event), times, index);
        push_some(&mut lengths, span)?;
        load = load.after(*event);
    }
    Ok(lengths)
}

// The number at a place, from 1, of some numbers in ascending order.
fn at_place(ascending: &[u64], place: usize) -> Option<u64>
    ensures { result ≡ slice_get ascending.now (place - 1) }
{
    ascending.get(place.saturating_sub(1)).copied()
}

/// The ranks of some spans, in microseconds.
pub fn ranks_of(spans: Vec<u64>) -> Ranks
    ensures { AreRanksOf spans.items result }
{
    let mut ascending = spans;
    ascending.sort_unstable();
    let count = ascending.len();
    Ranks {
        median: at_place(&ascending, count.div_ceil(2)),
        p99: at_place(&ascending, count - count / 100),
        most: at_place(&ascending, count),
    }
}

/// How long the jobs of legal events waited, by the times of the events. The first `restated` events restate the state in which the
/// record begins: the jobs that they submit have no wait.
///
/// # Errors
///
/// `AllocError` when out of memory.
pub fn waits_of_jdk(
    alloc: Global,
    restated: usize,
    events: &[JdkEvent],
    times: &[u64],
) -> Result<Ranks, AllocError>
    requires { (limits : Sizes) × IsLegal limits events.now }
    ensures { IfOk result (AreRanksOf (jdk_waits restated times.now events.now)) }
{
    let waits = measured(alloc, Measure::Wait, restated, events, times)?;
    Ok(ranks_of(waits))
}

/// How long the jobs of legal events waited and ran, and how long idle workers took to come, by the times of the events. The first
/// `restated` events restate the state in which the record begins: the jobs that they submit have no wait and no wake.
///
/// # Errors
///
/// `AllocError` when out of memory.
pub fn spans_of_jdk(
    alloc: Global,
    restated: usize,
    events: &[JdkEvent],
    times: &[u64],
) -> Result<JdkSpans, AllocError>
    requires { (limits : Sizes) × IsLegal limits events.now }
    ensures { IfOk result (AreJdkSpansOf restated events.now times.now) }
{
    let waits = waits_of_jdk(alloc, restated, events, times)?;
    let runs = measured(alloc, Measure::Run, restated, events, times)?;
    let wakes = measured(alloc, Measure::Wake, restated, events, times)?;
    Ok(JdkSpans {
        waits,
        runs: ranks_of(runs),
        wakes: ranks_of(wakes),
    })
}
