//! The text of the numbers of a history: a table, as `csv` writes it.
//!
//! Each number is a record of its name, its caller and its value; a number of the whole history has no
//! caller. No name, number or verdict has a comma, a quote or a line end in it, so a record is its
//! fields with commas between them.

ghost use Rattle.std.specs.Prelude.{◌≡◌, IfOk, OnOk, string_bytes, true};
ghost use Rattle.resil_input.specs.CsvTable.{record_text, table_text};
ghost use Rattle.resil_stats.specs.Text.{IsExtended, caller_records, callers_records, span_fields, spans_records, stats_records, stats_text, total_fields, total_records, verdict_fields, whole_records};

use crate::spans::JdkSpans;
use crate::stats::{CallerStats, JdkStats};
use resil_rule::Verdict;
use std::alloc::{AllocError, Global};
use std::collections::BTreeMap;

// Writes a number of the whole history. Errors: `AllocError` when out of memory.
fn push_total(alloc: Global, text: &mut String, name: &str, value: usize) -> Result<(), AllocError>
    ensures { OnOk result (IsExtended (string_bytes text.old) (string_bytes text.new) (record_text (total_fields name.now value))) }
{
    let record = format!(in alloc; "{name},,{value}\n")?;
    text.push_str(record.as_str())
}

// Writes a span of time, or an empty value if there is none. Errors: `AllocError` when out of memory.
fn push_span(
    alloc: Global,
    text: &mut String,
    name: &str,
    span: Option<u64>,
) -> Result<(), AllocError>
    ensures { OnOk result (IsExtended (string_bytes text.old) (string_bytes text.new) (record_text (span_fields name.now span))) }
{
    match span {
        Some(span) => {
            let record = format!(in alloc; "{name},,{span}\n")?;
            text.push_str(record.as_str())
        }
        None => {
            let record = format!(in alloc; "{name},,\n")?;
            text.push_str(record.as_str())
        }
    }
}

// Writes how long jobs waited and ran, and how long idle workers took to come, if that is known. Errors: `AllocError` when out of
// memory.
fn push_spans(alloc: Global, text: &mut String, spans: Option<JdkSpans>) -> Result<(), AllocError>
    ensures { OnOk result (IsExtended (string_bytes text.old) (string_bytes text.new) (table_text (spans_records spans))) }
{
    let Some(spans) = spans else {
        return Ok(());
    };
    let (waits, runs, wakes) = (spans.waits, spans.runs, spans.wakes);
    push_span(alloc, text, "wait_median", waits.median)?;
    push_span(alloc, text, "wait_p99", waits.p99)?;
    push_span(alloc, text, "wait_most", waits.most)?;
    push_span(alloc, text, "run_median", runs.median)?;
    push_span(alloc, text, "run_p99", runs.p99)?;
    push_span(alloc, text, "run_most", runs.most)?;
    push_span(alloc, text, "wake_median", wakes.median)?;
    push_span(alloc, text, "wake_p99", wakes.p99)?;
    Ok(())
}

// What one caller submitted. Errors: `AllocError` when out of memory.
fn caller_text(alloc: Global, caller: u16, numbers: CallerStats) -> Result<String, AllocError>
    ensures { IfOk result (λ text. string_bytes text ≡ table_text (caller_records (caller, numbers))) }
{
    let CallerStats {
        submissions,
        accepted,
        refused,
    } = numbers;
    format!(in alloc;
        "submissions,{caller},{submissions}\naccepted,{caller},{accepted}\nrefused,{caller},{refused}\n"
    )
}

// Writes what each caller submitted. Errors: `AllocError` when out of memory.
fn push_callers(
    alloc: Global,
    text: &mut String,
    callers: &BTreeMap<u16, CallerStats>,
) -> Result<(), AllocError>
    ensures { OnOk result (IsExtended (string_bytes text.old) (string_bytes text.new) (table_text (callers_records callers.now.entries))) }
{
    for (caller, numbers) in callers.iter() {
        let records = caller_text(alloc, *caller, *numbers)?;
        text.push_str(records.as_str())?;
    }
    Ok(())
}

// Writes the verdict. Errors: `AllocError` when out of memory.
fn push_verdict(alloc: Global, text: &mut String, verdict: Verdict) -> Result<(), AllocError>
    ensures { OnOk result (IsExtended (string_bytes text.old) (string_bytes text.new) (record_text (verdict_fields verdict))) }
{
    match verdict {
        Verdict::Legal => text.push_str("verdict,,legal\n"),
        Verdict::FirstIllegal(position) => {
            let record = format!(in alloc; "verdict,,illegal {position}\n")?;
            text.push_str(record.as_str())
        }
    }
}

// Writes the numbers of the whole history. Errors: `AllocError` when out of memory.
fn push_totals(alloc: Global, text: &mut String, stats: &JdkStats) -> Result<(), AllocError>
    ensures { OnOk result (IsExtended (string_bytes text.old) (string_bytes text.new) (table_text (total_records stats.now))) }
{
    let (answers, counts, most) = (stats.answers, stats.counts, stats.most);
    push_total(alloc, text, "submissions", answers.submissions)?;
    push_total(alloc, text, "core", answers.core)?;
    push_total(alloc, text, "queued", answers.queued)?;
    push_total(alloc, text, "extra", answers.extra)?;
    push_total(alloc, text, "full", answers.full)?;
    push_total(alloc, text, "closed", answers.closed)?;
    push_total(alloc, text, "taken", counts.taken)?;
    push_total(alloc, text, "finished", counts.finished)?;
    push_total(alloc, text, "idle_ends", counts.idle_ends)?;
    push_total(alloc, text, "resizes", counts.resizes)?;
    push_total(alloc, text, "most_waiting", most.waiting)?;
    push_total(alloc, text, "most_running", most.running)?;
    push_total(alloc, text, "most_workers", most.workers)?;
    push_total(alloc, text, "never_started", stats.never_started)?;
    push_total(alloc, text, "refused_idle", answers.refused_idle)?;
    push_total(alloc, text, "extra_idle", answers.extra_idle)?;
    Ok(())
}

// Writes the numbers that only version 4 has words for. Errors: `AllocError` when out of memory.
fn push_own_totals(alloc: Global, text: &mut String, stats: &JdkStats) -> Result<(), AllocError>
    ensures { OnOk result (IsExtended (string_bytes text.old) (string_bytes text.new) (table_text (whole_records stats.now true))) }
{
    let (answers, counts) = (stats.answers, stats.counts);
    push_total(alloc, text, "first", answers.first)?;
    push_total(alloc, text, "handed", answers.handed)?;
    push_total(alloc, text, "started", counts.started)?;
    push_total(alloc, text, "culled", counts.culled)?;
    push_total(alloc, text, "removed", counts.removed)?;
    push_total(alloc, text, "stops", counts.stops)?;
    push_total(alloc, text, "time_outs", counts.time_outs)?;
    Ok(())
}

// Writes the numbers that only version 4 has words for, if the history is in that version. Errors: `AllocError` when out of memory.
fn push_whole(
    alloc: Global,
    text: &mut String,
    stats: &JdkStats,
    is_whole: bool,
) -> Result<(), AllocError>
    ensures { OnOk result (IsExtended (string_bytes text.old) (string_bytes text.new) (table_text (whole_records stats.now is_whole))) }
{
    if is_whole {
        push_own_totals(alloc, text, stats)
    } else {
        Ok(())
    }
}

// Writes all numbers. Errors: `AllocError` when out of memory.
fn push_numbers(
    alloc: Global,
    text: &mut String,
    stats: &JdkStats,
    spans: Option<JdkSpans>,
    is_whole: bool,
) -> Result<(), AllocError>
    ensures { OnOk result (IsExtended (string_bytes text.old) (string_bytes text.new) (table_text (stats_records stats.now spans is_whole))) }
{
    push_totals(alloc, text, stats)?;
    push_whole(alloc, text, stats, is_whole)?;
    push_spans(alloc, text, spans)?;
    push_callers(alloc, text, &stats.callers)?;
    push_verdict(alloc, text, stats.verdict)?;
    Ok(())
}

/// The text of the numbers of a history: first the header `name,caller,value`. Then comes a record for each number of the whole
/// history, with an empty caller; seven more if it is in version 4; and eight spans of time, in microseconds, if they are known.
/// Then come three records for each caller that submitted, by its number ascending. The last record is `verdict,,` with `legal`, or
/// `illegal` and the position of the first illegal event, from 1.
///
/// # Errors
///
/// `AllocError` when out of memory.
pub fn stats_text(
    alloc: Global,
    stats: &JdkStats,
    spans: Option<JdkSpans>,
    is_whole: bool,
) -> Result<Vec<u8>, AllocError>
    ensures { IfOk result (λ text. text.items ≡ stats_text stats.now spans is_whole) }
{
    let mut text = String::from_str(alloc, "name,caller,value\n")?;
    match push_numbers(alloc, &mut text, stats, spans, is_whole) {
        Ok(()) => Ok(text.into_bytes()),
        Err(error) => Err(error),
    }
}
