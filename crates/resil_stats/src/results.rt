//! The results of a run, which may follow a history as `run` writes them.
//!
//! An empty line and the header of the results separate the two. Each result has a row: the id of a job, its outcome
//! and its calls, its waits, and the bulkheads that it asked for a permit, with their answers.

ghost use Rattle.std.specs.Prelude.{◌≡◌, ◌&&◌, ℕ, [], get_or, MatchResult, option_map};
ghost use Rattle.csv.specs.Records.{fields_of};
ghost use Rattle.resil_input.specs.Framing.{lines_of};
ghost use Rattle.resil_stats.specs.Results.{AreResults, IsResultsError, are_items, begins_results, is_answer, is_empty_line, is_results_line, is_wait, parse_result_fields, results_of};

use csv::ByteRecord;
use resil_input::csv_rows::{self, BodyError};
use resil_input::fields::field_at;
use resil_input::number::{parse_caller, parse_from_zero, parse_number};
use resil_input::outcome_text::parse_outcome;
use resil_retry::Outcome;
use resil_rule::Id;
use std::alloc::{AllocError, Global};
use std::collections::BTreeMap;

/// How a job of a run ended.
#[derive(Clone, Copy)]
pub struct JobResult {
    /// The job.
    pub id: Id,
    /// How it ended.
    pub outcome: Outcome,
    /// How often its innermost function was called.
    pub calls: u64,
}

// The fields of the header.
const HEADER: &[&str] = &["caller", "number", "outcome", "calls", "waits", "asked"];

// Whether a line is empty, apart from its line end.
fn is_empty_line(line: &[u8]) -> bool
    ensures { result ≡ is_empty_line line.now }
{
    matches!(line, b"\n" | b"\r\n")
}

// Whether a line is the header of results, apart from its line end.
fn is_results_line(line: &[u8]) -> bool
    ensures { result ≡ is_results_line line.now }
{
    line == b"caller,number,outcome,calls,waits,asked\n".as_slice()
        || line == b"caller,number,outcome,calls,waits,asked\r\n".as_slice()
        || line == b"caller,number,outcome,calls,waits,asked".as_slice()
}

// Whether the first line of a text is the header of results.
#[tactic(auto, unfolding(resil_input::specs::Framing::lines_of))]
fn begins_results(text: &[u8]) -> bool
    ensures { result ≡ begins_results (lines_of text.now) }
{
    match text.split_inclusive(|byte| *byte == b'\n').next() {
        Some(line) => is_results_line(line),
        None => false,
    }
}

// Whether a line is empty, and the header of the results follows it.
fn parts_results(line: &[u8], rest: &[u8]) -> bool
    ensures { result ≡ (is_empty_line line.now && begins_results (lines_of rest.now)) }
{
    is_empty_line(line) && begins_results(rest)
}

/// The history and the results of a body, before and after the first empty line that the header of the results follows,
/// or `None` if it has no results.
///
/// The history keeps its last newline, and the results begin with their header.
pub fn split_results(body: &[u8]) -> Option<(&[u8], &[u8])>
    ensures { option_map (λ p. (p.0.now, p.1.now)) result ≡ results_of body.now }
{
    let mut start = 0;
    for line in body.split_inclusive(|byte| *byte == b'\n') {
        let end = start + line.len();
        if parts_results(line, &body[end..]) {
            return Some((&body[..start], &body[end..]));
        }
        start = end;
    }
    None
}

// Whether an item is a wait, in milliseconds.
fn is_wait(item: &[u8]) -> bool
    ensures { result ≡ is_wait item.now }
{
    parse_from_zero(item).is_some()
}

// Whether an item is the id of a bulkhead, followed by `y` or `n`.
fn is_answer(item: &[u8]) -> bool
    ensures { result ≡ is_answer item.now }
{
    let Some(end) = item.len().checked_sub(1) else {
        return false;
    };
    let letter = item[end];
    parse_from_zero(&item[..end]).is_some() && (letter == b'y' || letter == b'n')
}

// Whether a field is waits, separated by semicolons, or empty.
fn are_waits(field: &[u8]) -> bool
    ensures { result ≡ are_items is_wait field.now }
{
    field.is_empty() || field.split(|byte| *byte == b';').all(|item| is_wait(item))
}

// Whether a field is answers, separated by semicolons, or empty.
fn are_answers(field: &[u8]) -> bool
    ensures { result ≡ are_items is_answer field.now }
{
    field.is_empty()
        || field
            .split(|byte| *byte == b';')
            .all(|item| is_answer(item))
}

// Reads the result of a record of six fields. The first two name its job.
fn parse_result(fields: &ByteRecord) -> Option<JobResult>
    ensures { let at = λ (i : ℕ). get_or (fields_of fields.now) i [] in result ≡ parse_result_fields (at 0) (at 1) (at 2) (at 3) (at 4) (at 5) }
{
    let caller = parse_caller(field_at(fields, 0))?;
    let number = parse_number(field_at(fields, 1))?;
    let outcome = parse_outcome(field_at(fields, 2))?;
    let calls = parse_from_zero(field_at(fields, 3))?;
    if are_waits(field_at(fields, 4)) && are_answers(field_at(fields, 5)) {
        let id = Id { caller, number };
        Some(JobResult { id, outcome, calls })
    } else {
        None
    }
}

/// Reads results, in order.
///
/// # Errors
///
/// The first that is met: `Memory` when out of memory; `BadHeader` if the first record is missing or isn't the header;
/// `BadRow` with the position of the first record that isn't a result.
pub fn read_results(alloc: Global, text: &[u8]) -> Result<Vec<JobResult>, BodyError>
    ensures { MatchResult result (λ rows. AreResults text.now rows.items) (IsResultsError text.now) }
{
    csv_rows::read_rows(alloc, HEADER, |fields| Ok(parse_result(fields)), text)
}

/// How jobs ended, by their ids. If a job has two results, the first counts.
#[derive(Drop)]
pub struct OutcomesById {
    by_id: BTreeMap<(u16, u64), Outcome>,
}

impl OutcomesById {
    /// How the jobs ended that have results.
    ///
    /// # Errors
    ///
    /// `AllocError` when out of memory.
    pub fn of(alloc: Global, results: &[JobResult]) -> Result<OutcomesById, AllocError> {
        let mut by_id = BTreeMap::new(alloc);
        for result in results.iter().rev() {
            by_id.insert((result.id.caller, result.id.number), result.outcome)?;
        }
        Ok(OutcomesById { by_id })
    }

    /// How a job ended, if that is known.
    pub(crate) fn get(&self, id: Id) -> Option<Outcome> {
        self.by_id.get(&(id.caller, id.number)).copied()
    }
}
