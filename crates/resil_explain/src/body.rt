//! What is wrong with a body that is refused: its header, or a row, by its line, its text and its field.

use crate::place::{Line, NameList};
use csv::{ByteRecord, ReaderBuilder};
use resil_heads::forms::{Body, Form, RowForm};
use resil_heads::subject::Subject;
use resil_input::csv_rows::has_fields;
use std::alloc::Global;
use std::fmt;

/// What is wrong with a row.
#[derive(Clone, Copy)]
pub(crate) enum RowFault {
    /// It has this many fields, not as many as this header; and the row that its first field names, if it names one.
    Width(usize, &'static [&'static str], Option<RowForm>),
    /// It is a resize, and that needs this header.
    Resize(&'static [&'static str]),
    /// A field, and what it must be.
    Field(&'static str, Form),
    /// The first field, and what it may be.
    Word(&'static str, &'static [RowForm]),
}

// Writes the form of a row under a header: the names of the fields that it uses.
fn write_row<W: fmt::Write>(
    f: &mut fmt::Formatter<W>,
    header: &[&str],
    (word, used): RowForm,
) -> fmt::Result {
    write!(f, "; write `{word}")?;
    for (index, column) in header.iter().enumerate().skip(1) {
        f.write_char(',')?;
        if used.contains(&index) {
            f.write_str(column)?;
        }
    }
    f.write_char('`')
}

impl fmt::Display for RowFault {
    fn fmt<W: fmt::Write>(&self, f: &mut fmt::Formatter<W>) -> fmt::Result {
        match *self {
            RowFault::Width(found, header, row) => {
                let wanted = header.len();
                write!(f, "it has {found} fields, but the header has {wanted}")?;
                match row {
                    Some(row) => write_row(f, header, row),
                    None => Ok(()),
                }
            }
            RowFault::Resize(header) => {
                let header = NameList(header, ",");
                write!(f, "a resize needs the header `{header}`")
            }
            RowFault::Field(column, form) => write!(f, "the field {column} must be {form}"),
            RowFault::Word(column, words) => {
                let rows = NameList(words, ", ");
                write!(f, "the field {column} must be one of {rows}")
            }
        }
    }
}

/// A hint at something in a line that is often not read as it was meant.
pub(crate) fn remark(line: &[u8]) -> &'static str {
    if line.starts_with(b"#") {
        "; a body can't have comment lines"
    } else if line.contains(&b' ') || line.contains(&b'\t') {
        "; remove the blanks, which aren't ignored"
    } else {
        ""
    }
}

/// The record at a position of a body, the header being at 0, if there is one. `None` when out of memory.
pub(crate) fn read_record(
    alloc: Global,
    body: &[u8],
    position: usize,
) -> Option<Option<ByteRecord>> {
    let mut reader = ReaderBuilder::new()
        .has_headers(false)
        .flexible(true)
        .from_reader(alloc, body);
    let mut record = ByteRecord::new(alloc);
    for _record in 0..position.saturating_add(1) {
        match reader.read_byte_record(&mut record) {
            Ok(true) => {}
            Ok(false) => return Some(None),
            Err(_) => return None,
        }
    }
    Some(Some(record))
}

/// The line of a record of the body of an input, after the line ends before it.
pub(crate) fn line_of<'a>(input: &'a [u8], body: &[u8], record: &ByteRecord) -> Line<'a> {
    let start = start_of(record);
    let rest = body.iter().skip(start);
    let ends = rest.take_while(|byte| matches!(**byte, b'\n' | b'\r'));
    let before = input.len().saturating_sub(body.len());
    let place = before.saturating_add(start);
    Line::from(input, place.saturating_add(ends.count()))
}

/// The body up to the end of its record at a position, the header being at 0. `None` when out of memory.
pub(crate) fn part_upto(alloc: Global, body: &[u8], position: usize) -> Option<&[u8]> {
    match read_record(alloc, body, position.saturating_add(1))? {
        Some(next) => body.get(..start_of(&next)),
        None => Some(body),
    }
}

// The place at which a record begins, with the line ends before it.
fn start_of(record: &ByteRecord) -> usize {
    let position = record.position().map_or(0, |position| position.byte());
    usize::try_from(position).unwrap_or(0)
}

// The row that a record's first field names, if it names one.
fn row_of(body: Body, record: &ByteRecord) -> Option<RowForm> {
    let word = record.get(0)?;
    let found = body.rows.iter().find(|row| row.0.as_bytes() == word);
    found.copied()
}

// The fields that a record uses, by its first field; none if that names no row.
fn used(body: Body, record: &ByteRecord) -> Option<&'static [usize]> {
    if body.rows.is_empty() {
        return Some(&[0, 1]);
    }
    Some(row_of(body, record)?.1)
}

// What is wrong with a record that has as many fields as the header, if it isn't a row. There are `callers` callers.
fn field_fault(body: Body, record: &ByteRecord, callers: u16) -> Option<RowFault> {
    let Some(used) = used(body, record) else {
        return Some(RowFault::Word(body.header.first()?, body.rows));
    };
    for (index, (column, form)) in body.header.iter().zip(body.forms).enumerate() {
        let form = if used.contains(&index) {
            *form
        } else {
            Form::Empty
        };
        if !form.has_field(record.get(index)?, callers) {
            return Some(RowFault::Field(column, form));
        }
    }
    None
}

/// What a command's body may have under this header.
pub(crate) fn body_under<S: Subject>(subject: S, header: &ByteRecord) -> Body {
    let mut others = subject.other_bodies().iter();
    match others.find(|(_, other)| has_fields(header, other.header)) {
        Some((_, other)) => *other,
        None => subject.body(),
    }
}

/// What is wrong with a record that isn't a row under a header of these bodies.
pub(crate) fn row_fault(
    bodies: Body,
    record: &ByteRecord,
    header: &ByteRecord,
    callers: u16,
) -> Option<RowFault> {
    let short = bodies.without_resizes();
    let body = if has_fields(header, short.header) {
        short
    } else {
        bodies
    };
    if !has_fields(header, body.header) {
        return None;
    }
    let row = row_of(body, record);
    if row.is_none() && row_of(bodies, record).is_some() {
        return Some(RowFault::Resize(bodies.header));
    }
    if record.len() != header.len() {
        return Some(RowFault::Width(record.len(), body.header, row));
    }
    field_fault(body, record, callers)
}
