//! The bodies of `run`: the jobs, each with the caller that submits it and its script.
//!
//! A row names one of the pool's callers. The rows of one caller are its jobs in the order of
//! submission. All rows are read before the first job is submitted, so if any row can't be read, no job is run.

ghost use Rattle.std.specs.Prelude.{◌≡◌, IfOk, MatchResult};
ghost use Rattle.csv.specs.Records.{fields_of};
ghost use Rattle.resil_driver.specs.Run.Rows.{parse_caller_up_to, parse_job, IsRunBody, IsRunBodyError};

use csv::ByteRecord;
use resil_heads::forms::{Body, Form};
use resil_input::csv_rows::{self, BodyError};
use resil_input::fields::field_at;
use resil_input::number::parse_caller;
use resil_input::script::parse_script;
use resil_retry::Script;
use std::alloc::{AllocError, Global};

// The fields of the header.
const RUN_HEADER: &[&str] = &["caller", "script"];

/// What a body may contain.
pub const RUN_BODY: Body = Body {
    header: RUN_HEADER,
    forms: &[Form::Caller, Form::Script],
    rows: &[],
    has_resizes: false,
};

/// One row of a `run`.
#[derive(Drop)]
pub struct ScriptedJob {
    /// The caller that submits the job, from 1.
    pub caller: u16,
    /// The outcomes of the innermost function, call by call. Later calls have the last one.
    pub script: Script,
}

// Reads the number of a caller, from 1 to `callers`.
fn parse_caller_up_to(callers: u16, field: &[u8]) -> Option<u16>
    ensures { result ≡ parse_caller_up_to callers field.now }
{
    let caller = parse_caller(field)?;
    if caller > callers {
        return None;
    }
    Some(caller)
}

// Reads a job from the fields of a record. Errors: `AllocError` if out of memory.
fn parse_job(
    alloc: Global,
    callers: u16,
    fields: &ByteRecord,
) -> Result<Option<ScriptedJob>, AllocError>
    ensures { IfOk result (λ job. job ≡ parse_job callers (fields_of fields.now)) }
{
    let Some(caller) = parse_caller_up_to(callers, field_at(fields, 0)) else {
        return Ok(None);
    };
    let Some(script) = parse_script(alloc, field_at(fields, 1))? else {
        return Ok(None);
    };
    Ok(Some(ScriptedJob { caller, script }))
}

/// Reads the jobs of a body of `run`, in order. Each names a caller from 1 to `callers`.
///
/// # Errors
///
/// The first that occurs: `Memory` if out of memory; `BadHeader` if the first record is missing or
/// isn't the header; `BadRow` with the position of the first record that isn't a job.
pub fn read_rows(alloc: Global, callers: u16, body: &[u8]) -> Result<Vec<ScriptedJob>, BodyError>
    ensures { MatchResult result (λ jobs. IsRunBody callers body.now jobs.items) (IsRunBodyError callers body.now) }
{
    csv_rows::read_rows(
        alloc,
        RUN_HEADER,
        |fields| parse_job(alloc, callers, fields),
        body,
    )
}
