//! The rows of a body, from the records that `csv` reads in it: a header, then one record for each row.
//!
//! A body is the list of its records; `csv` handles quotes, a byte order mark, empty lines and line
//! ends. After each read, the records already read and those still to come make up that list, so no
//! record is lost and none is read twice.

ghost use Rattle.std.specs.Prelude.{◌≡◌, ℕ, List, Option, map, MatchResult, IfOk, IfErr, IsTrue, ◌↔◌};
ghost use Rattle.csv.specs.Records.{fields_of};
ghost use Rattle.resil_input.specs.declared.csv_rows.BodyError.TheVariants.{Memory};
ghost use Rattle.resil_input.specs.CsvRows.{AnswersRows, IsBody, IsBodyError, IsUnopened, RowsUnique, RowsExcludeErrors, ErrorsUnique};
ghost use Rattle.resil_input.specs.ReaderState.{IsBetweenRecords, IsOpened, GivesNext, header_of};

use crate::fields::{field_at, is_text};
use csv::{ByteRecord, ErrorKind, Reader, ReaderBuilder};
use std::alloc::{AllocError, AllocFailed, Global};
use thiserror::Error;

/// Why the rows of a body can't be read.
#[derive(Clone, Copy, Debug, Error)]
pub enum BodyError {
    /// Out of memory.
    #[error("out of memory")]
    Memory,
    /// The first record is missing, or isn't the header.
    #[error("the first record is not the header")]
    BadHeader,
    /// The record at this position isn't a row. The first one after the header has position 1.
    #[error("row {0} is invalid")]
    BadRow(usize),
}

impl From<AllocError> for BodyError {
    ghost from_gives = { λ _ error. error ≡ Memory };

    fn from(_refused: AllocError) -> BodyError {
        BodyError::Memory
    }
}

impl<T: Drop> From<AllocFailed<T>> for BodyError {
    ghost from_gives = { λ _ error. error ≡ Memory };

    fn from(_refused: AllocFailed<T>) -> BodyError {
        BodyError::Memory
    }
}

/// Whether a record has exactly these fields, in this order.
pub fn has_fields(fields: &ByteRecord, names: &[&str]) -> bool
    ensures { IsTrue result ↔ (fields_of fields.now ≡ map (λ name. name.now) names.now) }
{
    if fields.len() != names.len() {
        return false;
    }
    for (index, name) in names.iter().enumerate() {
        if !is_text(field_at(fields, index), name) {
            return false;
        }
    }
    true
}

// What a reader reads next.
#[derive(Clone, Copy)]
enum Next {
    // A record with as many fields as the first one.
    Record,
    // A record with another number of fields.
    UnequalLength,
    // The end of the body.
    End,
}

// Reads the next record. Errors: `Memory` when out of memory.
fn next_record(reader: &mut Reader<&[u8]>, fields: &mut ByteRecord) -> Result<Next, BodyError>
    ensures comes { IsBetweenRecords reader.old → IfOk result (GivesNext reader.old reader.new (fields_of fields.new)) }
    ensures memory { IfErr result (λ error. error ≡ Memory) }
{
    match reader.read_byte_record(fields) {
        Ok(true) => Ok(Next::Record),
        Ok(false) => Ok(Next::End),
        Err(error) => match error.kind() {
            ErrorKind::UnequalLengths { .. } => Ok(Next::UnequalLength),
            _ => Err(BodyError::Memory),
        },
    }
}

/// A body whose first record was read.
#[derive(Drop)]
pub struct OpenBody<'a> {
    // The reader of the records after the first one.
    reader: Reader<&'a [u8]>,
    // The first record.
    header: ByteRecord,
}

/// Opens a body, whose header may be one of several: reads its first record.
///
/// # Errors
///
/// The first that is met: `Memory` when out of memory; `BadHeader` if there is no record.
pub fn open_body(alloc: Global, body: &[u8]) -> Result<OpenBody<'_>, BodyError>
    ensures opened { IfOk result (IsOpened body.now) }
    ensures refused { IfErr result (IsUnopened body.now) }
{
    let mut reader = ReaderBuilder::new()
        .has_headers(false)
        .from_reader(alloc, body);
    let mut header = ByteRecord::new(alloc);
    match next_record(&mut reader, &mut header)? {
        Next::Record => Ok(OpenBody { reader, header }),
        Next::UnequalLength | Next::End => Err(BodyError::BadHeader),
    }
}

impl OpenBody<'_> {
    /// Whether its first record has exactly these fields, in this order.
    pub fn has_header(&self, names: &[&str]) -> bool
        ensures { IsTrue result ↔ (header_of self.now ≡ map (λ name. name.now) names.now) }
    {
        has_fields(&self.header, names)
    }

    /// Reads the rows after the header, in order. `row_of` reads the row of a record with as many fields as the header, or `None`
    /// if it isn't a row; it fails when out of memory.
    ///
    /// # Errors
    ///
    /// The first that is met: `Memory` when out of memory; `BadRow` with the position of the first record that isn't a row.
    pub fn rows<R: Drop, F: Fn(&ByteRecord) -> Result<Option<R>, AllocError> + Drop>(
        self,
        alloc: Global,
        row_of: F,
    ) -> Result<Vec<R>, BodyError>
        requires calls { F.IsAlwaysCallable row_of }
        requires opened { (body : List ℕ) × IsOpened body self }
        ensures { (body : List ℕ) (parse : List (List ℕ) → Option R) → IsOpened body self.entry → AnswersRows (F.post row_of) (header_of self.entry) parse
            → MatchResult result (λ rows. IsBody (header_of self.entry) parse body rows.items) (IsBodyError (header_of self.entry) parse body) }
    {
        let OpenBody {
            mut reader,
            header: mut fields,
        } = self;
        let mut rows = Vec::new(alloc);
        'rows: loop {
            match next_record(&mut reader, &mut fields)? {
                Next::Record => match row_of(&fields)? {
                    Some(row) => rows.push(row)?,
                    None => return Err(BodyError::BadRow(rows.len() + 1)),
                },
                Next::UnequalLength => return Err(BodyError::BadRow(rows.len() + 1)),
                Next::End => return Ok(rows),
            }
        }
    }
}

/// Reads the rows of a body, in order: the records after one with the fields of the header. `row_of` reads the row of a record
/// with as many fields as the header, or `None` if it isn't a row; it fails when out of memory.
///
/// # Errors
///
/// The first that is met: `Memory` when out of memory; `BadHeader` if the first record is missing or isn't the header; `BadRow`
/// with the position of the first record that isn't a row.
pub fn read_rows<R: Drop, F: Fn(&ByteRecord) -> Result<Option<R>, AllocError> + Drop>(
    alloc: Global,
    header: &[&str],
    row_of: F,
    body: &[u8],
) -> Result<Vec<R>, BodyError>
    requires { F.IsAlwaysCallable row_of }
    ensures { let names = map (λ name. name.now) header.now in
        (parse : List (List ℕ) → Option R) → AnswersRows (F.post row_of) names parse
        → MatchResult result (λ rows. IsBody names parse body.now rows.items) (IsBodyError names parse body.now) }
{
    let opened = open_body(alloc, body)?;
    if !opened.has_header(header) {
        return Err(BodyError::BadHeader);
    }
    opened.rows(alloc, row_of)
}

/// The law of bodies: a body alone determines how it is read. It has at most one list of rows, a
/// body with rows has no error but `Memory`, and a body has at most one error besides `Memory`.
pub fn readings_unique<R>()
    ensures rows { (header : List (List ℕ)) (parse : List (List ℕ) → Option R) → RowsUnique header parse }
    ensures fault { (header : List (List ℕ)) (parse : List (List ℕ) → Option R) → RowsExcludeErrors header parse }
    ensures faults { (header : List (List ℕ)) (parse : List (List ℕ) → Option R) → ErrorsUnique header parse }
{}
