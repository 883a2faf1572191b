//! The bodies of `audit`: a history, as `replay` and `run` write it, with a row for each event.
//!
//! The header is read first, and says which of the two versions of a history's text it is. A field that an event
//! doesn't use must be empty, and a field that its version doesn't have is empty. Each row is read by itself: a history
//! that is read here may be illegal; only the audit says. The text of a history is read as that history.

ghost use Rattle.std.specs.Prelude.{◌≡◌, ℕ, List, MatchResult};
ghost use Rattle.csv.specs.Records.{fields_of};
ghost use Rattle.resil_input.specs.ReaderState.{IsOpened, header_of};
ghost use Rattle.resil_replay.specs.Events.{parse_reply, parse_event, IsAuditBody, IsAuditBodyError, HistoriesRoundTrip};
ghost use Rattle.resil_replay.specs.Versions.{VersionsUnique, VersionsExcludeErrors, VersionErrorsUnique};
ghost use Rattle.resil_replay.specs.History.{history_header};
ghost use Rattle.resil_replay.specs.declared.history.Version.{Version};

use crate::id::parse_id;
use crate::layout::Layout;
use crate::sizes::parse_sizes;
use csv::ByteRecord;
use resil_input::csv_rows::{BodyError, OpenBody, open_body};
use resil_input::fields::{field_at, is_text};
use resil_rule::{Event, Reply};
use std::alloc::Global;

// Reads the name of a reply.
fn parse_reply(name: &[u8]) -> Option<Reply>
    ensures { result ≡ parse_reply name.now }
{
    if is_text(name, "core") {
        Some(Reply::Core)
    } else if is_text(name, "queued") {
        Some(Reply::Queued)
    } else if is_text(name, "extra") {
        Some(Reply::Extra)
    } else if is_text(name, "full") {
        Some(Reply::Full)
    } else if is_text(name, "closed") {
        Some(Reply::Closed)
    } else {
        None
    }
}

/// Reads an event from the fields of a record. Fields that the event doesn't use must be empty.
pub(crate) fn parse_event(fields: &ByteRecord) -> Option<Event>
    ensures { result ≡ parse_event (fields_of fields.now) }
{
    let event = field_at(fields, 0);
    let caller = field_at(fields, 1);
    let number = field_at(fields, 2);
    let reply = field_at(fields, 3);
    let core = field_at(fields, 4);
    let max = field_at(fields, 5);
    if is_text(event, "resize") && caller.is_empty() && number.is_empty() && reply.is_empty() {
        let (core, max) = parse_sizes(core, max)?;
        Some(Event::Resized { core, max })
    } else if !core.is_empty() || !max.is_empty() {
        None
    } else if is_text(event, "submit") {
        let id = parse_id(caller, number)?;
        let reply = parse_reply(reply)?;
        Some(Event::Submit { id, reply })
    } else if !reply.is_empty() {
        None
    } else if is_text(event, "take") {
        parse_id(caller, number).map(Event::Take)
    } else if is_text(event, "finish") {
        parse_id(caller, number).map(Event::Finish)
    } else if !caller.is_empty() || !number.is_empty() {
        None
    } else if is_text(event, "idle") {
        Some(Event::IdleEnd)
    } else if is_text(event, "close") {
        Some(Event::Close)
    } else {
        None
    }
}

/// Reads the events of an open body of a version without times, in order.
///
/// # Errors
///
/// The first that occurs: `Memory` if out of memory; `BadRow` with the position of the first record that isn't an event.
pub(crate) fn read_opened(alloc: Global, opened: OpenBody<'_>) -> Result<Vec<Event>, BodyError>
    requires opened { (body : List ℕ) × IsOpened body opened }
    requires version { (version : Version) × (header_of opened ≡ history_header version) }
    ensures { (body : List ℕ) → IsOpened body opened.entry → MatchResult result (λ history. IsAuditBody body history.items) (IsAuditBodyError body) }
{
    opened.rows(alloc, |fields| Ok(parse_event(fields)))
}

/// Reads the history in a body of `audit`, in the version that its header says.
///
/// # Errors
///
/// The first that occurs: `Memory` if out of memory; `BadHeader` if the first record is missing or isn't the header of
/// a version; `BadRow` with the position of the first record that isn't an event in that version.
pub fn read_rows(alloc: Global, body: &[u8]) -> Result<Vec<Event>, BodyError>
    ensures { MatchResult result (λ history. IsAuditBody body.now history.items) (IsAuditBodyError body.now) }
{
    let opened = open_body(alloc, body)?;
    match Layout::of(&opened) {
        Some(Layout::Untimed(_)) => read_opened(alloc, opened),
        Some(Layout::Timed) => Err(BodyError::BadHeader),
        None => Err(BodyError::BadHeader),
    }
}

/// The law of the texts of histories: the text of a history, in a version that has its events and with ids from 1 on,
/// is read as that history, and as no other.
pub fn text_reads_back()
    ensures { HistoriesRoundTrip }
{}

/// The law of reading: a body alone determines how it is read. It has at most one version and one history, a body with
/// a history has no error but `Memory`, and a body has at most one error besides `Memory`.
pub fn bodies_unique()
    ensures rows { VersionsUnique history_header parse_event }
    ensures fault { VersionsExcludeErrors history_header parse_event }
    ensures faults { VersionErrorsUnique history_header parse_event }
{}
