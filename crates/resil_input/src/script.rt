//! The script of a job, as one field of a row writes it: one or more outcomes, separated by semicolons.
//!
//! An empty field isn't a script, since an empty text isn't an outcome.

ghost use Rattle.std.specs.Prelude.{◌≡◌, Contains, IfErr, IfOk};
ghost use Rattle.resil_input.specs.Script.{parse_script};

use crate::outcome_text::parse_outcome;
use resil_retry::Script;
use std::alloc::{AllocError, Global};
use std::marker::Model;

/// Reads a script: one or more outcomes, separated by semicolons. `None` for any other text. A text without a semicolon
/// takes no memory.
///
/// # Errors
///
/// `AllocError` when out of memory, which can happen only if there is a semicolon.
pub fn parse_script(alloc: Global, text: &[u8]) -> Result<Option<Script>, AllocError>
    ensures script { IfOk result (λ script. script ≡ parse_script text.now) }
    ensures error { IfErr result (λ _. Contains text.now 59) }
{
    if text.contains(&b';') {
        parse_outcomes(alloc, text)
    } else {
        Ok(parse_outcome(text).map(Script::one))
    }
}

// Reads a script of any number of outcomes. Errors: `AllocError` when out of memory.
fn parse_outcomes(alloc: Global, text: &[u8]) -> Result<Option<Script>, AllocError>
    ensures { IfOk result (λ script. script ≡ parse_script text.now) }
{
    let mut outcomes = Vec::new(alloc);
    for item in text.split(|byte| *byte == b';') {
        let Some(outcome) = parse_outcome(item) else {
            return Ok(None);
        };
        outcomes.push(outcome)?;
    }
    Ok(Script::new(outcomes).ok())
}
