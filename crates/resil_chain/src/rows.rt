//! The bodies of `chain`: a script for each job, and the answers of the bulkheads around its function.
//!
//! A script is one or more outcomes with semicolons between them, and the answers are any number of
//! the letters `y` and `n`. All rows are read before the first job is run, so if any row can't be
//! read, no job is run.

ghost use Rattle.std.specs.Prelude.{◌≡◌, option_map, MatchResult, IfOk};
ghost use Rattle.csv.specs.Records.{fields_of};
ghost use Rattle.resil_chain.specs.Rows.{parse_chain_row, parse_grant, parse_grants, IsChainBody, IsChainBodyError};

use csv::ByteRecord;
use resil_heads::forms::{Body, Form};
use resil_input::csv_rows::{self, BodyError};
use resil_input::fields::field_at;
use resil_input::script::parse_script;
use resil_retry::Script;
use std::alloc::{AllocError, Global};
use std::marker::Model;

/// One row of a `chain`.
#[derive(Drop)]
pub struct ChainRow {
    /// The outcomes of the innermost function, call by call. Later calls have the last one.
    pub script: Script,
    /// The answers of the bulkheads, in the order in which a permit is requested from them.
    pub grants: Vec<bool>,
}

impl Model for ChainRow {
    ghost use Rattle.resil_chain.specs.Rows.{ChainRowView};

    ghost Value = { ChainRowView };

    ghost view = { λ row. record { script = row.script; grants = row.grants.items } };
}

// The fields of the header.
const HEADER: &[&str] = &["script", "grants"];

/// What a body may contain.
pub const BODY: Body = Body {
    header: HEADER,
    forms: &[Form::Script, Form::Grants],
    rows: &[],
    has_resizes: false,
};

// Reads an answer: `y` grants a permit, `n` doesn't.
fn parse_grant(letter: u8) -> Option<bool>
    ensures { result ≡ parse_grant letter }
{
    match letter {
        b'y' => Some(true),
        b'n' => Some(false),
        _ => None,
    }
}

// Reads answers, any number of letters. Errors: `AllocError` if out of memory.
fn parse_grants(alloc: Global, letters: &[u8]) -> Result<Option<Vec<bool>>, AllocError>
    ensures { IfOk result (λ grants. option_map (λ g. g.items) grants ≡ parse_grants letters.now) }
{
    let mut grants = Vec::new(alloc);
    for letter in letters {
        let Some(granted) = parse_grant(*letter) else {
            return Ok(None);
        };
        grants.push(granted)?;
    }
    Ok(Some(grants))
}

// Reads a row from the fields of a record. Errors: `AllocError` if out of memory.
fn parse_chain_row(alloc: Global, fields: &ByteRecord) -> Result<Option<ChainRow>, AllocError>
    ensures { IfOk result (λ row. row ≡ parse_chain_row (fields_of fields.now)) }
{
    let Some(script) = parse_script(alloc, field_at(fields, 0))? else {
        return Ok(None);
    };
    let Some(grants) = parse_grants(alloc, field_at(fields, 1))? else {
        return Ok(None);
    };
    Ok(Some(ChainRow { script, grants }))
}

/// Reads the rows of a body of `chain`, in order.
///
/// # Errors
///
/// The first that occurs: `Memory` if out of memory; `BadHeader` if the first record is missing or
/// isn't the header; `BadRow` with the position of the first record that isn't a row.
pub fn read_rows(alloc: Global, body: &[u8]) -> Result<Vec<ChainRow>, BodyError>
    ensures { MatchResult result (λ rows. IsChainBody body.now rows.items) (IsChainBodyError body.now) }
{
    csv_rows::read_rows(alloc, HEADER, |fields| parse_chain_row(alloc, fields), body)
}
