//! `stats`: the numbers of a history of any version, in a pool of any sizes.
//!
//! It counts the events before the first illegal one, by the verdict of `judge`, in the words of the whole rule. A head may say how many
//! of the first events restate the state in which a record begins.

ghost use Rattle.std.specs.Prelude.{◌≡◌, ◌≤◌, IfOk, MatchResult, length, option_map};
ghost use Rattle.resil_heads.specs.CommandError.{IsError};
ghost use Rattle.resil_jdk.specs.Admission.{IsLegal};
ghost use Rattle.resil_rule.specs.Limits.{Sizes};
ghost use Rattle.resil_stats.specs.Stats.{legal_part};
ghost use Rattle.resil_view.specs.Judge.{events_of};
ghost use Rattle.resil_view.specs.Numbers.{AreSpansIn, IsManyMade, IsNumbersText, IsStatsRefusal, IsStatsText, IsTableOf, jdk_events};

use crate::judge::{AnyHistory, Events, read_parts, verdict_of};
use crate::read::{check_order, known_results};
use resil_heads::pool_head::Uses;
use resil_heads::{CommandError, HeadError, InputRefusal};
use resil_jdk::{JdkEvent, JdkLimits, jdk_history};
use resil_rule::Verdict;
use resil_stats::{JdkSpans, count_jdk, legal_part, spans_of_jdk, stats_text};
use std::alloc::{AllocError, Global};

/// What is used of a recorder's values in a head: how many events restate a state.
pub(crate) const USES: Uses = Uses {
    idle_for: false,
    made: true,
    owner: false,
    began: false,
    drawing: false,
};

// The spans of legal events, if their history has times. Errors: `AllocError` when out of memory.
fn known_spans(
    alloc: Global,
    restated: usize,
    events: &[JdkEvent],
    times: &Option<Vec<u64>>,
) -> Result<Option<JdkSpans>, AllocError>
    requires { (limits : Sizes) × IsLegal limits events.now }
    ensures { IfOk result (AreSpansIn restated events.now (option_map (λ times. times.items) times.now)) }
{
    let Some(times) = times else {
        return Ok(None);
    };
    match spans_of_jdk(alloc, restated, events, times) {
        Ok(spans) => Ok(Some(spans)),
        Err(error) => Err(error),
    }
}

// The text of the numbers of a history with this verdict. Errors: `AllocError` when out of memory.
fn table_of(
    alloc: Global,
    verdict: Verdict,
    restated: usize,
    history: &[JdkEvent],
    times: &Option<Vec<u64>>,
    is_whole: bool,
) -> Result<Vec<u8>, AllocError>
    requires { (limits : Sizes) × IsLegal limits (legal_part verdict history.now) }
    ensures { IfOk result (λ text. IsTableOf verdict restated history.now (option_map (λ times. times.items) times.now) is_whole text.items) }
{
    let events = legal_part(history, verdict);
    let stats = count_jdk(alloc, verdict, restated, events)?;
    let spans = known_spans(alloc, restated, events, times)?;
    stats_text(alloc, &stats, spans, is_whole)
}

// The text of the numbers of a history in a pool of these sizes. Errors: `AllocError` when out of memory.
fn counted(
    alloc: Global,
    limits: &JdkLimits,
    restated: usize,
    history: &AnyHistory,
) -> Result<Vec<u8>, AllocError>
    ensures { IfOk result (λ text. IsNumbersText limits.now restated (events_of history.now.events) (option_map (λ times. times.items) history.now.times) text.items) }
{
    let verdict = verdict_of(alloc, limits, &history.events)?;
    match &history.events {
        Events::Own(events) => {
            let events = jdk_history(alloc, events)?;
            table_of(alloc, verdict, restated, &events, &history.times, false)
        }
        Events::Whole(events) => {
            table_of(alloc, verdict, restated, events, &history.times, true)
        }
    }
}

// How many events a history has.
fn count_of(events: &Events) -> usize
    ensures { result ≡ length (jdk_events (events_of events.now)) }
{
    match events {
        Events::Own(events) => events.len(),
        Events::Whole(events) => events.len(),
    }
}

// How many events restate a state. Errors: `Refused` as `Head` of `BadValue` if there are fewer events.
fn restated_in(made: u64, events: &Events) -> Result<usize, CommandError>
    ensures { MatchResult result (λ restated. (restated ≡ made) × (made ≤ length (jdk_events (events_of events.now)))) (IsError (IsManyMade made (events_of events.now))) }
{
    let count = count_of(events);
    match usize::try_from(made) {
        Ok(made) if made <= count => Ok(made),
        _ => Err(CommandError::Refused(InputRefusal::Head(HeadError::BadValue))),
    }
}

/// The text of the numbers of the history that an input has. Errors: as those of `view_text`.
pub(crate) fn numbers_text(alloc: Global, input: &[u8]) -> Result<Vec<u8>, CommandError>
    ensures { MatchResult result (λ text. IsStatsText input.now text.items) (IsError (IsStatsRefusal input.now)) }
{
    let (head, history, results) = match read_parts(alloc, USES, input) {
        Ok(read) => read,
        Err(why) => return Err(why),
    };
    known_results(alloc, results)?;
    check_order(&history.times)?;
    let restated = match restated_in(head.recorded.made, &history.events) {
        Ok(restated) => restated,
        Err(why) => return Err(why),
    };
    match counted(alloc, &head.limits, restated, &history) {
        Ok(text) => Ok(text),
        Err(_) => Err(CommandError::Memory),
    }
}
