//! What a pool reports, as strings that a test can name.

use crate::shared::passed;
use resil_admission::{Event, Id, Row};
use resil_workers::Report;
use std::alloc::{AllocError, Global};
use std::process::Abort;

/// Asserts that a string is the one that is wanted.
fn is(rt: &impl Abort, text: &str, wanted: &str) {
    assert_eq!(rt; text, wanted);
}

/// Adds a comma, if there is something before it.
fn push_comma(told: &mut String) -> Result<(), AllocError> {
    if told.is_empty() {
        return Ok(());
    }
    told.push_str(", ")
}

/// Adds what happened to a job, such as `take 1-2`: job 1-2 is submission 2 of caller 1.
fn push_job(told: &mut String, word: &str, id: Id) -> Result<(), AllocError> {
    write!(told, "{word} {}-{}", id.caller, id.number)
}

fn push_event(told: &mut String, event: Event) -> Result<(), AllocError> {
    push_comma(told)?;
    match event {
        Event::Submit { id, reply } => write!(told, "{reply:?} {}-{}", id.caller, id.number),
        Event::Take(id) => push_job(told, "take", id),
        Event::Finish(id) => push_job(told, "finish", id),
        Event::IdleEnd => told.push_str("idle-end"),
        Event::Close => told.push_str("close"),
        Event::Resized { core, max } => write!(told, "resize {core} {max}"),
    }
}

/// Asserts that a report's history is the one that is wanted.
pub fn is_history(rt: &impl Abort, alloc: Global, report: &Report, wanted: &str) {
    let mut told = String::new(alloc);
    for event in report.history.iter() {
        passed(rt, push_event(&mut told, *event));
    }
    is(rt, told.as_str(), wanted);
}

/// Adds a result, such as `1-1 Value(7) by 1 []`: job 1-1 has the value 7 by one call, and requested no permit.
fn push_result(told: &mut String, row: &Row) -> Result<(), AllocError> {
    push_comma(told)?;
    let Row { id, run } = row;
    let (outcome, calls, asked) = (run.outcome(), run.calls(), run.asked());
    write!(
        told,
        "{}-{} {outcome:?} by {calls} {asked:?}",
        id.caller, id.number
    )
}

/// Asserts that a report's results are those that are wanted.
pub fn are_results(rt: &impl Abort, alloc: Global, report: &Report, wanted: &str) {
    let mut told = String::new(alloc);
    for row in report.results.iter() {
        passed(rt, push_result(&mut told, row));
    }
    is(rt, told.as_str(), wanted);
}
