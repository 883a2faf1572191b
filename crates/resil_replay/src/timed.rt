//! Version 3 of the text of a history: that of version 2, with the time of each event at the end; and the reading of all three versions.
//!
//! Each row is read by itself, so `first_back` of `resil_rule` says whether times ascend. The text of a history with times is read as
//! that history with those times.

ghost use Rattle.std.specs.Prelude.{◌≡◌, ℕ, List, IfOk, MatchResult};
ghost use Rattle.csv.specs.Records.{fields_of};
ghost use Rattle.resil_input.specs.CsvRows.{IsBodyError};
ghost use Rattle.resil_input.specs.ReaderState.{IsOpened};
ghost use Rattle.resil_replay.specs.Timed.{IsHistoryBody, IsHistoryBodyError, IsTimedBody, TimedHistoriesRoundTrip, parse_timed, timed_header, timed_text};

use crate::events::{self, parse_event};
use crate::history::{COLUMNS, push_row};
use crate::id::{CALLER, NUMBER};
use crate::layout::{HEADER, Layout};
use crate::sizes::SIZE;
use csv::ByteRecord;
use resil_heads::forms::{Body, Form};
use resil_input::csv_rows::{BodyError, OpenBody, open_body};
use resil_input::csv_table::CsvTable;
use resil_input::fields::field_at;
use resil_input::number::parse_from_zero;
use resil_rule::{Event, Timed, events_in, times_in};
use std::alloc::{AllocError, Global};
use std::marker::Model;

/// What a body of version 3 may contain, and, without times, what a body of the others may.
pub const BODY: Body = Body {
    header: HEADER,
    forms: &[
        Form::Word,
        CALLER,
        NUMBER,
        Form::Reply,
        SIZE,
        SIZE,
        Form::Number(0, u64::MAX),
    ],
    rows: &[
        ("submit", &[0, 1, 2, 3, 6]),
        ("take", &[0, 1, 2, 6]),
        ("finish", &[0, 1, 2, 6]),
        ("idle", &[0, 6]),
        ("close", &[0, 6]),
        ("resize", &[0, 4, 5, 6]),
    ],
    has_resizes: false,
};

/// A history as a body has it.
#[derive(Drop)]
pub struct History {
    /// Its events, in order.
    pub events: Vec<Event>,
    /// The time of each event, in microseconds, if the body is of version 3.
    pub times: Option<Vec<u64>>,
}

impl Model for History {
    ghost use Rattle.std.specs.Prelude.{option_map};
    ghost use Rattle.resil_replay.specs.Timed.{HistoryView};

    ghost Value = { HistoryView };

    ghost view = { λ h. record { events = h.events.items; times = option_map (λ times. times.items) h.times } };
}

// Reads an event and its time from the fields of a record.
fn parse_timed(fields: &ByteRecord) -> Option<Timed>
    ensures { result ≡ parse_timed (fields_of fields.now) }
{
    let event = parse_event(fields)?;
    let at = parse_from_zero(field_at(fields, 6))?;
    Some(Timed { event, at })
}

/// Reads the events and times of an open body of version 3, in order.
///
/// # Errors
///
/// The first that occurs: `BadHeader` if the first record isn't the header; `Memory` if out of memory; `BadRow` with the position of
/// the first record that isn't an event, or has no time.
pub fn read_opened(alloc: Global, opened: OpenBody<'_>) -> Result<Vec<Timed>, BodyError>
    requires { (body : List ℕ) × IsOpened body opened }
    ensures { (body : List ℕ) → IsOpened body opened.entry → MatchResult result (λ rows. IsTimedBody body rows.items) (IsBodyError timed_header parse_timed body) }
{
    if !opened.has_header(HEADER) {
        return Err(BodyError::BadHeader);
    }
    opened.rows(alloc, |fields| Ok(parse_timed(fields)))
}

/// Reads the history in a body, in the version that its header says.
///
/// # Errors
///
/// The first that occurs: `Memory` if out of memory; `BadHeader` if the first record is missing or isn't the header of a version;
/// `BadRow` with the position of the first record that isn't an event, or has no time, in that version.
pub fn read_history(alloc: Global, body: &[u8]) -> Result<History, BodyError>
    ensures { MatchResult result (λ read. IsHistoryBody body.now read.events read.times) (IsHistoryBodyError body.now) }
{
    let opened = open_body(alloc, body)?;
    match Layout::of(&opened) {
        Some(Layout::Untimed(_)) => {
            let events = events::read_opened(alloc, opened)?;
            Ok(History {
                events,
                times: None,
            })
        }
        Some(Layout::Timed) => {
            let rows = read_opened(alloc, opened)?;
            let events = events_in(alloc, &rows)?;
            let times = times_in(alloc, &rows)?;
            Ok(History {
                events,
                times: Some(times),
            })
        }
        None => Err(BodyError::BadHeader),
    }
}

/// Returns the text of a history in version 3: the header `event,caller,number,reply,core,max,at`, then a record for each event, in order.
///
/// # Errors
///
/// `AllocError` if out of memory.
#[tactic(auto, using(crate::proofs::HistoryLaws::all_fields))]
pub fn timed_text(alloc: Global, history: &[Timed]) -> Result<Vec<u8>, AllocError>
    ensures { IfOk result (λ text. text.items ≡ timed_text history.now) }
{
    let mut table = CsvTable::new(Vec::new(alloc), &COLUMNS)?;
    for timed in history {
        push_row(&mut table, 7, timed.event, timed.at)?;
    }
    table.into_text()
}

/// The law of the texts of histories with times: such a text is read as that history with those times, and as no other.
pub fn timed_text_reads_back()
    ensures { TimedHistoriesRoundTrip }
{}
