//! `timeline`: the chart of a history of any version, in a pool of any sizes.
//!
//! It draws the events before the first illegal one, by the verdict of `judge`, in the words of the whole rule. A head may say when the
//! first event was, from when to when the history is drawn, and how high the scales go.

ghost use Rattle.std.specs.Prelude.{◌≡◌, IfOk, MatchResult, option_map, string_bytes};
ghost use Rattle.resil_heads.specs.CommandError.{IsError};
ghost use Rattle.resil_jdk.specs.Admission.{IsLegal};
ghost use Rattle.resil_rule.specs.Limits.{Sizes};
ghost use Rattle.resil_stats.specs.Stats.{legal_part};
ghost use Rattle.resil_stats.specs.Svg.{IsHistorySvg};
ghost use Rattle.resil_view.specs.Command.{IsPictureText, IsShownRefusal, IsTimelineText, extent_of};
ghost use Rattle.resil_view.specs.Judge.{events_of};

use crate::judge::{AnyHistory, Events, own_limits, read_parts, verdict_of};
use crate::read::{check_order, known_results};
use resil_heads::CommandError;
use resil_heads::drawing::Drawing;
use resil_heads::pool_head::{Moment, PoolHead, Uses};
use resil_input::answer::InWords;
use resil_jdk::{JdkEvent, JdkLimits, jdk_history, rule_at_last};
use resil_record::answer::JdkInWords;
use resil_record::text::reply_name;
use resil_rule::{Id, Verdict, answer_to_last};
use resil_stats::results::JobResult;
use resil_stats::{Caption, Extent, OutcomesById, picture_of, svg_text};
use std::alloc::{AllocError, Global};
use std::fmt;

/// What is used of a head besides the sizes and the name: when the first event was, and what is to be drawn.
pub const DRAWN_USES: Uses = Uses {
    idle_for: false,
    made: false,
    owner: false,
    began: true,
    drawing: true,
};

// An event as a chart has it.
#[derive(Clone, Copy)]
struct Told(JdkEvent);

impl fmt::Display for Told {
    fn fmt<W: fmt::Write>(&self, f: &mut fmt::Formatter<W>) -> fmt::Result {
        let (name, id) = match self.0 {
            JdkEvent::Submit { id, reply } => {
                let (Id { caller, number }, name) = (id, reply_name(reply));
                return write!(f, "submit {caller}.{number} {name}");
            }
            JdkEvent::Resized { core, max } => {
                return write!(f, "resize to core {core}, max {max}");
            }
            JdkEvent::Take(id) => ("take", id),
            JdkEvent::Finish(id) => ("finish", id),
            JdkEvent::Remove(id) => ("remove", id),
            JdkEvent::IdleEnd => return f.write_str("idle"),
            JdkEvent::Close => return f.write_str("close"),
            JdkEvent::Start => return f.write_str("start"),
            JdkEvent::Cull => return f.write_str("cull"),
            JdkEvent::Stop => return f.write_str("stop"),
            JdkEvent::TimeOut(true) => return f.write_str("time_out on"),
            JdkEvent::TimeOut(false) => return f.write_str("time_out off"),
        };
        let Id { caller, number } = id;
        write!(f, "{name} {caller}.{number}")
    }
}

// The first illegal event of a history and what the rule says there, by the rule that judged it; nothing of a legal one. Errors:
// `AllocError` when out of memory.
fn illegal_text(
    alloc: Global,
    limits: &JdkLimits,
    history: &Events,
    events: &[JdkEvent],
    verdict: Verdict,
) -> Result<String, AllocError> {
    let Verdict::FirstIllegal(at) = verdict else {
        return Ok(String::new(alloc));
    };
    if let (Events::Own(own), Some(sizes)) = (history, own_limits(limits)) {
        let first = own.get(..at).unwrap_or(own);
        let event = events.get(at.saturating_sub(1)).copied();
        return match (event, answer_to_last(alloc, sizes, first)) {
            (Some(event), Some(answer)) => {
                format!(in alloc; "{}: {}", Told(event), InWords(answer))
            }
            _ => Err(AllocError),
        };
    }
    match rule_at_last(alloc, *limits, events.get(..at).unwrap_or(events)) {
        Some((rule, event)) => {
            format!(in alloc; "{}: {}", Told(event), JdkInWords(rule.answer_to(event)))
        }
        None => Err(AllocError),
    }
}

// The time of day of a moment, in microseconds since midnight, UTC.
fn time_of_day(at: &Moment) -> u64 {
    let behind = 1440i32.saturating_sub(i32::from(at.offset));
    let hours = u64::from(at.hour).saturating_mul(60);
    let minutes = hours.saturating_add(u64::from(at.minute));
    let minutes = minutes.saturating_add(u64::try_from(behind).unwrap_or(1440)) % 1440;
    let seconds = minutes
        .saturating_mul(60)
        .saturating_add(u64::from(at.second));
    let microseconds = seconds.saturating_mul(1_000_000);
    microseconds.saturating_add(u64::from(at.microsecond))
}

// The times of a history, if it has some.
fn times_of(history: &AnyHistory) -> Option<&[u64]>
    ensures { option_map (λ times. times.now) result ≡ option_map (λ times. times.items) history.now.times }
{
    match &history.times {
        Some(times) => Some(times),
        None => None,
    }
}

// How far a chart reaches, by what a head says of it.
fn extent_of(drawing: Drawing) -> Extent
    ensures { result ≡ extent_of drawing }
{
    Extent {
        from: drawing.from,
        to: drawing.to,
        waiting: drawing.most_waiting,
        workers: drawing.most_workers,
    }
}

// The text of the chart of a history with this verdict, whose events are in the words of the whole rule, with the results of its jobs.
// Errors: `AllocError` when out of memory.
fn shown(
    alloc: Global,
    head: &PoolHead,
    verdict: Verdict,
    history: &AnyHistory,
    events: &[JdkEvent],
    results: &[JobResult],
) -> Result<Vec<u8>, AllocError>
    requires { (limits : Sizes) × IsLegal limits (legal_part verdict events.now) }
    ensures { IfOk result (λ text. IsHistorySvg (extent_of head.now.drawing) (string_bytes head.now.name) head.now.limits verdict events.now (option_map (λ times. times.items) history.now.times) text.items) }
{
    let outcomes = OutcomesById::of(alloc, results)?;
    let illegal = illegal_text(alloc, &head.limits, &history.events, events, verdict)?;
    let times = times_of(history);
    let extent = extent_of(head.drawing);
    let picture = picture_of(alloc, extent, &head.limits, verdict, events, times)?;
    let caption = Caption {
        name: head.name.as_str(),
        began: head.recorded.began.map(|began| time_of_day(&began)),
        illegal: illegal.as_str(),
    };
    svg_text(alloc, caption, &picture, times, &outcomes)
}

// The text of the chart of a history, with the results of its jobs. Errors: `AllocError` when out of memory.
fn drawn(
    alloc: Global,
    head: &PoolHead,
    history: &AnyHistory,
    results: &[JobResult],
) -> Result<Vec<u8>, AllocError>
    ensures { IfOk result (λ text. IsPictureText (extent_of head.now.drawing) (string_bytes head.now.name) head.now.limits (events_of history.now.events) (option_map (λ times. times.items) history.now.times) text.items) }
{
    let verdict = verdict_of(alloc, &head.limits, &history.events)?;
    match &history.events {
        Events::Own(events) => {
            let events = jdk_history(alloc, events)?;
            shown(alloc, head, verdict, history, &events, results)
        }
        Events::Whole(events) => shown(alloc, head, verdict, history, events, results),
    }
}

/// The text of the chart of the history that an input has. Errors: as those of `view_text`.
pub(crate) fn drawn_text(alloc: Global, input: &[u8]) -> Result<Vec<u8>, CommandError>
    ensures { MatchResult result (λ text. IsTimelineText input.now text.items) (IsError (IsShownRefusal input.now)) }
{
    let (head, history, results) = match read_parts(alloc, DRAWN_USES, input) {
        Ok(read) => read,
        Err(why) => return Err(why),
    };
    let results = known_results(alloc, results)?;
    check_order(&history.times)?;
    match drawn(alloc, &head, &history, &results) {
        Ok(text) => Ok(text),
        Err(_) => Err(CommandError::Memory),
    }
}
