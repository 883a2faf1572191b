//! The bodies of `replay`: what is done to a pool, one row after the other.
//!
//! Under the long header a row may resize the pool. A field that a row doesn't use must be empty. All
//! rows are read before the first one is carried out, so a row that can't be read is reported even if
//! the pool would refuse an earlier one.

ghost use Rattle.std.specs.Prelude.{◌≡◌, map, MatchResult};
ghost use Rattle.csv.specs.Records.{fields_of};
ghost use Rattle.resil_input.specs.CsvRows.{IsBody, IsBodyError};
ghost use Rattle.resil_replay.specs.Versions.{VersionsUnique, VersionsExcludeErrors, VersionErrorsUnique};
ghost use Rattle.resil_replay.specs.Rows.{replay_rows_header, parse_replay_row, IsReplayBody, IsReplayBodyError};

use crate::history::Version;
use crate::id::{CALLER, NUMBER, parse_id};
use crate::sizes::{SIZE, parse_sizes};
use csv::ByteRecord;
use resil_admission::Id;
use resil_heads::forms::{Body, Form};
use resil_input::csv_rows::{self, BodyError};
use resil_input::fields::{field_at, is_text};
use std::alloc::Global;

/// One row of a `replay`.
#[derive(Clone, Copy)]
pub enum ReplayRow {
    /// The submission of a job, `submit,caller,number`.
    Submit(Id),
    /// The end of a job that a worker runs, `finish,caller,number`.
    Finish(Id),
    /// An idle worker takes the job at the front of the queue, `take,,`.
    Take,
    /// The end of an idle worker, `idle,,`.
    Idle,
    /// The closing of the pool, `close,,`.
    Close,
    /// The core size and the maximum size are set, `resize,,,core,max`.
    Resize { core: u32, max: u32 },
}

/// The rows of a `replay`, and the version of the text of their history.
#[derive(Drop)]
pub struct ReplayBody {
    /// Version 2 exactly if the header is the long one.
    pub version: Version,
    /// What is done to the pool, in order.
    pub rows: Vec<ReplayRow>,
}

// The fields of the short header.
const SHORT_HEADER: &[&str] = &["event", "caller", "number"];

// The fields of the long header.
const LONG_HEADER: &[&str] = &["event", "caller", "number", "core", "max"];

/// What a body may contain.
pub const BODY: Body = Body {
    header: LONG_HEADER,
    forms: &[Form::Word, CALLER, NUMBER, SIZE, SIZE],
    rows: &[
        ("submit", &[0, 1, 2]),
        ("finish", &[0, 1, 2]),
        ("take", &[0]),
        ("idle", &[0]),
        ("close", &[0]),
        ("resize", &[0, 3, 4]),
    ],
    has_resizes: true,
};

// Reads a row from the fields of a record. Fields that the row doesn't use must be empty.
fn parse_replay_row(fields: &ByteRecord) -> Option<ReplayRow>
    ensures { result ≡ parse_replay_row (fields_of fields.now) }
{
    let event = field_at(fields, 0);
    let caller = field_at(fields, 1);
    let number = field_at(fields, 2);
    let core = field_at(fields, 3);
    let max = field_at(fields, 4);
    if is_text(event, "resize") && caller.is_empty() && number.is_empty() {
        let (core, max) = parse_sizes(core, max)?;
        Some(ReplayRow::Resize { core, max })
    } else if !core.is_empty() || !max.is_empty() {
        None
    } else if is_text(event, "submit") {
        parse_id(caller, number).map(ReplayRow::Submit)
    } else if is_text(event, "finish") {
        parse_id(caller, number).map(ReplayRow::Finish)
    } else if !caller.is_empty() || !number.is_empty() {
        None
    } else if is_text(event, "take") {
        Some(ReplayRow::Take)
    } else if is_text(event, "idle") {
        Some(ReplayRow::Idle)
    } else if is_text(event, "close") {
        Some(ReplayRow::Close)
    } else {
        None
    }
}

// Reads the rows of a body under a header. Errors: as for `read_rows`.
fn read_under(alloc: Global, header: &[&str], body: &[u8]) -> Result<Vec<ReplayRow>, BodyError>
    ensures { let names = map (λ name. name.now) header.now in
        MatchResult result (λ rows. IsBody names parse_replay_row body.now rows.items) (IsBodyError names parse_replay_row body.now) }
{
    csv_rows::read_rows(alloc, header, |fields| Ok(parse_replay_row(fields)), body)
}

/// Reads the rows of a body of `replay`, in order, under the short header or the long one.
///
/// # Errors
///
/// The first that occurs: `Memory` if out of memory; `BadHeader` if the first record is missing or is
/// neither header; `BadRow` with the position of the first record that isn't a row under that header.
pub fn read_rows(alloc: Global, body: &[u8]) -> Result<ReplayBody, BodyError>
    ensures { MatchResult result (λ read. IsReplayBody body.now read.version read.rows.items) (IsReplayBodyError body.now) }
{
    match read_under(alloc, SHORT_HEADER, body) {
        Ok(rows) => Ok(ReplayBody {
            version: Version::One,
            rows,
        }),
        Err(BodyError::BadHeader) => Ok(ReplayBody {
            version: Version::Two,
            rows: read_under(alloc, LONG_HEADER, body)?,
        }),
        Err(why) => Err(why),
    }
}

/// The law of reading: a body alone determines how it is read. It has at most one version and one list of
/// rows, a body with rows has no error but `Memory`, and a body has at most one error besides `Memory`.
pub fn bodies_unique()
    ensures rows { VersionsUnique replay_rows_header parse_replay_row }
    ensures fault { VersionsExcludeErrors replay_rows_header parse_replay_row }
    ensures faults { VersionErrorsUnique replay_rows_header parse_replay_row }
{}
