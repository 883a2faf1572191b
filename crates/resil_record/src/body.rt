//! A body of version 4: a header, and a row for each event. Each row is read by itself.

ghost use Rattle.std.specs.Prelude.{◌≡◌, ◌↔◌, IsTrue, MatchResult};
ghost use Rattle.resil_input.specs.ReaderState.{header_of};
ghost use Rattle.resil_record.specs.Body.{IsRecordBody, IsRecordBodyError, record_header};

use crate::row::parse_row;
use resil_heads::forms::{Body, Form};
use resil_input::csv_rows::{self, BodyError, OpenBody};
use resil_jdk::TimedJdkEvent;
use std::alloc::Global;

// The fields of the header.
const HEADER: &[&str] = &[
    "event", "caller", "number", "reply", "core", "max", "time_out", "at",
];

// What the fields of a caller, a number, a size and a time may be.
const CALLER: Form = Form::Number(1, 65_535);

const NUMBER: Form = Form::Number(1, u64::MAX);

const SIZE: Form = Form::Number(0, 4_294_967_295);

const TIME: Form = Form::Number(0, u64::MAX);

/// What the bodies of version 4 may have.
pub const BODY: Body = Body {
    header: HEADER,
    forms: &[
        Form::Word,
        CALLER,
        NUMBER,
        Form::JdkReply,
        SIZE,
        SIZE,
        Form::Switch,
        TIME,
    ],
    rows: &[
        ("submit", &[0, 1, 2, 3, 7]),
        ("take", &[0, 1, 2, 7]),
        ("finish", &[0, 1, 2, 7]),
        ("remove", &[0, 1, 2, 7]),
        ("idle", &[0, 7]),
        ("start", &[0, 7]),
        ("cull", &[0, 7]),
        ("close", &[0, 7]),
        ("stop", &[0, 7]),
        ("time_out", &[0, 6, 7]),
        ("resize", &[0, 4, 5, 7]),
    ],
    has_resizes: false,
};

/// Whether the header of an open body is that of version 4.
pub fn is_record(opened: &OpenBody<'_>) -> bool
    ensures { IsTrue result ↔ (header_of opened.now ≡ record_header) }
{
    opened.has_header(HEADER)
}

/// Reads the events and times of a body of version 4, in order.
///
/// # Errors
///
/// The first that is met: `Memory` when out of memory; `BadHeader` if the first record is missing or isn't the header; `BadRow` with
/// the position, from 1, of the first record that isn't an event or has no time.
pub fn read_rows(alloc: Global, body: &[u8]) -> Result<Vec<TimedJdkEvent>, BodyError>
    ensures { MatchResult result (λ history. IsRecordBody body.now history.items) (IsRecordBodyError body.now) }
{
    csv_rows::read_rows(alloc, HEADER, |fields| Ok(parse_row(fields)), body)
}
