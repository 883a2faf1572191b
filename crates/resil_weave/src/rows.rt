//! The bodies of `weave`: the single steps of callers, one row after the other.
//!
//! Callers are numbered from 0. All rows are read before the first step is made, so a row that
//! can't be read is reported even if an earlier step can't be made.

ghost use Rattle.std.specs.Prelude.{◌≡◌, MatchResult};
ghost use Rattle.csv.specs.Records.{fields_of};
ghost use Rattle.resil_weave.specs.Rows.{parse_step, parse_step_caller, CallersAreDecimal, CallersRoundTrip, IsWeaveBody, IsWeaveBodyError};

use csv::ByteRecord;
use resil_heads::forms::{Body, Form};
use resil_input::csv_rows::{self, BodyError};
use resil_input::fields::{field_at, is_text};
use resil_input::number::parse_from_zero;
use resil_permit::Step;
use std::alloc::Global;

// The fields of the header.
const HEADER: &[&str] = &["step", "caller"];

/// What a body may contain.
pub const BODY: Body = Body {
    header: HEADER,
    forms: &[Form::Word, Form::Number(0, 65_535)],
    rows: &[
        ("load", &[0, 1]),
        ("exchange", &[0, 1]),
        ("add", &[0, 1]),
        ("retire", &[0, 1]),
        ("raise", &[0, 1]),
    ],
    has_resizes: false,
};

// Reads the number of a caller, from 0 to 65,535.
fn parse_step_caller(field: &[u8]) -> Option<u16>
    ensures { result ≡ parse_step_caller field.now }
{
    u16::try_from(parse_from_zero(field)?).ok()
}

// Reads a step from the fields of a record: `load`, `exchange`, `add`, `retire` or `raise`, and its
// caller.
fn parse_step(fields: &ByteRecord) -> Option<Step>
    ensures { result ≡ parse_step (fields_of fields.now) }
{
    let name = field_at(fields, 0);
    let caller = field_at(fields, 1);
    if is_text(name, "load") {
        parse_step_caller(caller).map(Step::Load)
    } else if is_text(name, "exchange") {
        parse_step_caller(caller).map(Step::Exchange)
    } else if is_text(name, "add") {
        parse_step_caller(caller).map(Step::Add)
    } else if is_text(name, "retire") {
        parse_step_caller(caller).map(Step::Retire)
    } else if is_text(name, "raise") {
        parse_step_caller(caller).map(Step::Raise)
    } else {
        None
    }
}

/// Reads the steps of a body of `weave`, in order.
///
/// # Errors
///
/// The first that occurs: `Memory` if out of memory; `BadHeader` if the first record is missing or
/// isn't the header; `BadRow` with the position of the first record that isn't a step.
pub fn read_rows(alloc: Global, body: &[u8]) -> Result<Vec<Step>, BodyError>
    ensures { MatchResult result (λ steps. IsWeaveBody body.now steps.items) (IsWeaveBodyError body.now) }
{
    csv_rows::read_rows(alloc, HEADER, |fields| Ok(parse_step(fields)), body)
}

/// The law of the callers of steps: a caller is read from its decimal text, and from no other text.
pub fn callers_round_trip()
    ensures written { CallersRoundTrip }
    ensures read { CallersAreDecimal }
{}
