//! `judge`: the verdict on a history of any version, in a pool of any sizes.
//!
//! A history of versions 1 to 3 is judged by the rule of `audit` if that takes the sizes: so `judge` writes what `audit` writes. All
//! others are judged by the whole rule of the JDK's `ThreadPoolExecutor`.

ghost use Rattle.std.specs.Prelude.{◌≡◌, IfNone, IfOk, IfSome, MatchResult, option_map};
ghost use Rattle.resil_heads.specs.CommandError.{IsError};
ghost use Rattle.resil_heads.specs.PoolHead.{pool_head_of, said_of};
ghost use Rattle.resil_rule.specs.Limits.{AreLimits};
ghost use Rattle.resil_jdk.specs.Verdict as whole;
ghost use Rattle.resil_record.specs.Body.{IsRecordBodyError};
ghost use Rattle.resil_view.specs.Judge.{IsAnyBody, IsAnyBodyError, IsJudgeRefusal, IsJudgeText, IsJudgment, IsPoolRefusal, IsVerdictText, JudgesAsAudit, events_of, in_own_words};
ghost use Rattle.resil_view.specs.Read.{IsReadFrom};

use crate::read::{check_order, known_results, split_body};
use resil_heads::pool_head::{PoolHead, Uses, read_pool_head};
use resil_heads::{CommandError, InputRefusal};
use resil_input::csv_rows::{BodyError, open_body};
use resil_input::framing::split_input;
use resil_jdk::timed::{events_in, times_in};
use resil_jdk::{JdkEvent, JdkLimits, jdk_history};
use resil_record::body::{is_record, read_rows};
use resil_replay::audit::verdict_text;
use resil_replay::timed::{History, read_history};
use resil_rule::{Event, Limits, Verdict};
use std::alloc::{AllocError, Global};

/// The events of a history.
#[derive(Drop)]
pub(crate) enum Events {
    /// Those of versions 1 to 3.
    Own(Vec<Event>),
    /// Those of version 4.
    Whole(Vec<JdkEvent>),
}

/// A history of any version.
#[derive(Drop)]
pub(crate) struct AnyHistory {
    /// Its events.
    pub events: Events,
    /// The time of each event, in microseconds, if its version has them.
    pub times: Option<Vec<u64>>,
}

// Reads the history in a body of version 4. Errors: as `read_any`.
fn read_whole(alloc: Global, body: &[u8]) -> Result<AnyHistory, BodyError>
    ensures { MatchResult result (λ read. IsAnyBody body.now (events_of read.events) (option_map (λ times. times.items) read.times)) (IsRecordBodyError body.now) }
{
    let rows = read_rows(alloc, body)?;
    let events = events_in(alloc, &rows)?;
    let times = times_in(alloc, &rows)?;
    Ok(AnyHistory {
        events: Events::Whole(events),
        times: Some(times),
    })
}

/// Reads the history in a body, in the version that its header says.
///
/// # Errors
///
/// The first that is met: `Memory` when out of memory; `BadHeader` if the first record is missing or isn't the header of a version;
/// `BadRow` with the position of the first record that isn't an event, or has no time, in that version.
pub(crate) fn read_any(alloc: Global, body: &[u8]) -> Result<AnyHistory, BodyError>
    ensures { MatchResult result (λ read. IsAnyBody body.now (events_of read.events) (option_map (λ times. times.items) read.times)) (IsAnyBodyError body.now) }
{
    let opened = open_body(alloc, body)?;
    if is_record(&opened) {
        return read_whole(alloc, body);
    }
    let History { events, times } = read_history(alloc, body)?;
    Ok(AnyHistory {
        events: Events::Own(events),
        times,
    })
}

/// What the head says, with some of its values used, the history and the text of the results of an input. Errors, in this order:
/// `Refused` as `NoBody`; as `Head`; as `BadHeader` or `BadRow`.
pub(crate) fn read_parts(
    alloc: Global,
    uses: Uses,
    input: &[u8],
) -> Result<(PoolHead, AnyHistory, Option<&[u8]>), CommandError>
    ensures { MatchResult result (λ read. IsReadFrom (pool_head_of uses) IsAnyBody input.now (said_of read.0) (events_of read.1.events) (option_map (λ times. times.items) read.1.times) (option_map (λ results. results.now) read.2)) (IsError (IsPoolRefusal uses input.now)) }
{
    let (head, body) = split_input(input).ok_or(InputRefusal::NoBody)?;
    let said = read_pool_head(alloc, uses, head)?;
    let (history, results) = split_body(body);
    let history = read_any(alloc, history)?;
    Ok((said, history, results))
}

// The verdict on a history by the whole rule. Errors: `AllocError` when out of memory.
fn whole_verdict(
    alloc: Global,
    limits: &JdkLimits,
    events: &[JdkEvent],
) -> Result<Verdict, AllocError>
    ensures { IfOk result (whole.IsVerdict limits.now events.now) }
{
    // The only error of an audit is that it is out of memory.
    match resil_jdk::audit(alloc, limits, events) {
        Ok(verdict) => Ok(verdict),
        Err(_) => Err(AllocError),
    }
}

/// The sizes of a pool, if `audit` takes them.
pub(crate) fn own_limits(limits: &JdkLimits) -> Option<Limits>
    ensures own { IfSome result (λ own. (own ≡ limits.now) × AreLimits limits.now) }
    ensures none { IfNone result (¬ AreLimits limits.now) }
{
    match Limits::new(limits.core(), limits.max(), limits.queue()) {
        Ok(own) => Some(own),
        Err(_) => None,
    }
}

// The verdict on a history of versions 1 to 3: by the rule of `audit` if that takes the sizes. Errors: `AllocError` when out of memory.
fn own_verdict(alloc: Global, limits: &JdkLimits, events: &[Event]) -> Result<Verdict, AllocError>
    ensures { IfOk result (IsJudgment limits.now (in_own_words events.now)) }
{
    match own_limits(limits) {
        Some(own) => match resil_rule::audit(alloc, &own, events) {
            Ok(verdict) => Ok(verdict),
            Err(_) => Err(AllocError),
        },
        None => {
            let events = jdk_history(alloc, events)?;
            whole_verdict(alloc, limits, &events)
        }
    }
}

/// The verdict on a history. Errors: `AllocError` when out of memory.
pub(crate) fn verdict_of(
    alloc: Global,
    limits: &JdkLimits,
    events: &Events,
) -> Result<Verdict, AllocError>
    ensures { IfOk result (IsJudgment limits.now (events_of events.now)) }
{
    match events {
        Events::Own(events) => own_verdict(alloc, limits, events),
        Events::Whole(events) => whole_verdict(alloc, limits, events),
    }
}

// The line of the verdict on a history. Errors: `AllocError` when out of memory.
fn judged(alloc: Global, limits: &JdkLimits, events: &Events) -> Result<Vec<u8>, AllocError>
    ensures { IfOk result (λ text. IsVerdictText limits.now (events_of events.now) text.items) }
{
    let verdict = verdict_of(alloc, limits, events)?;
    verdict_text(alloc, verdict)
}

/// The line of the verdict on the history that an input has. Errors: as those of `view_text`.
pub(crate) fn judge_text(alloc: Global, input: &[u8]) -> Result<Vec<u8>, CommandError>
    ensures { MatchResult result (λ text. IsJudgeText input.now text.items) (IsError (IsJudgeRefusal input.now)) }
{
    let (head, history, results) = match read_parts(alloc, Uses::NONE, input) {
        Ok(read) => read,
        Err(why) => return Err(why),
    };
    known_results(alloc, results)?;
    check_order(&history.times)?;
    match judged(alloc, &head.limits, &history.events) {
        Ok(text) => Ok(text),
        Err(_) => Err(CommandError::Memory),
    }
}

/// The law of `judge` and `audit`: what `audit` writes for an input without results, `judge` writes too, and it refuses no such input.
pub fn judges_as_audit()
    ensures { JudgesAsAudit }
{}
