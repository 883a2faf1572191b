//! The bodies of `simulate`: the jobs of a load, or a history with times, in version 3 or 4. A body's header says which. All rows are
//! read before anything else is said of them.

ghost use Rattle.std.specs.Prelude.{◌≡◌, MatchResult};
ghost use Rattle.csv.specs.Records.{fields_of};
ghost use Rattle.resil_simulate.specs.Rows.{AreRows, IsBodyRefused, parse_row};

use crate::history::in_whole_words;
use csv::ByteRecord;
use resil_heads::forms::{Body, Form};
use resil_input::csv_rows::{BodyError, open_body};
use resil_input::fields::field_at;
use resil_input::number::parse_from_zero;
use resil_jdk::TimedJdkEvent;
use resil_record::body::{self, is_record};
use resil_replay::timed;
use std::alloc::Global;

/// What the bodies of jobs may have.
pub const LOAD_BODY: Body = Body {
    header: &["at", "takes"],
    forms: &[Form::Number(0, u64::MAX), Form::Number(0, 4_294_967_295)],
    rows: &[],
    has_resizes: false,
};

/// A job of a load, in microseconds.
#[derive(Clone, Copy)]
pub struct LoadRow {
    /// When it is submitted, since any start.
    pub at: u64,
    /// How long it runs.
    pub takes: u32,
}

/// The rows of a body, in order.
#[derive(Drop)]
pub enum Rows {
    /// The jobs of a load.
    Load(Vec<LoadRow>),
    /// The events of a history of version 3 or 4, with their times.
    History(Vec<TimedJdkEvent>),
}

// Reads a job from the fields of a record.
fn parse_row(fields: &ByteRecord) -> Option<LoadRow>
    ensures { result ≡ parse_row (fields_of fields.now) }
{
    let at = parse_from_zero(field_at(fields, 0))?;
    let takes = u32::try_from(parse_from_zero(field_at(fields, 1))?).ok()?;
    Some(LoadRow { at, takes })
}

/// Reads the rows of a body of `simulate`.
///
/// # Errors
///
/// The first that is met: `Memory` when out of memory; `BadHeader` if the first record is missing, or is none of these headers; `BadRow`
/// with the position of the first record that isn't a row under its header.
pub fn read_rows(alloc: Global, body: &[u8]) -> Result<Rows, BodyError>
    ensures { MatchResult result (AreRows body.now) (IsBodyRefused body.now) }
{
    let opened = open_body(alloc, body)?;
    if opened.has_header(LOAD_BODY.header) {
        let rows = opened.rows(alloc, |fields| Ok(parse_row(fields)))?;
        return Ok(Rows::Load(rows));
    }
    if is_record(&opened) {
        let history = body::read_rows(alloc, body)?;
        return Ok(Rows::History(history));
    }
    let history = timed::read_opened(alloc, opened)?;
    Ok(Rows::History(in_whole_words(alloc, &history)?))
}
