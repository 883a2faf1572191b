//! `weave`: makes callers' steps on one permit word, and writes what each step showed.
//!
//! One thread makes the steps, in the order of the rows, so every interleaving of callers can be
//! written down as an input. `head` and `rows` are what is read, `woven` is the text, and
//! `resil_permit` makes the steps.
#![tactic(auto)]

ghost use Rattle.std.specs.Prelude.{MatchResult};
ghost use Rattle.resil_heads.specs.CommandError.{IsError};
ghost use Rattle.resil_weave.specs.Weave.{IsWeaveText, IsWeaveRefusal};

pub mod head;
pub mod rows;
pub mod subject;
mod worked_heads;
pub mod woven;

use head::read_head;
use resil_heads::{CommandError, InputRefusal};
use resil_input::framing::split_input;
use rows::read_rows;
use std::alloc::Global;
pub use worked_heads::worked_weave_heads;
use woven::woven_text;

/// Returns the text of the steps in the rows of an input, and of what each step showed.
///
/// # Errors
///
/// In this order: `Refused` as `NoBody`; as `Head`; as `BadHeader` or `BadRow`; as `Step`, for the
/// first step that can't be made. `Memory` may come at any step.
pub fn text(alloc: Global, input: &[u8]) -> Result<Vec<u8>, CommandError>
    ensures { MatchResult result (λ text. IsWeaveText input.now text.items) (IsError (IsWeaveRefusal input.now)) }
{
    let (head, body) = split_input(input).ok_or(InputRefusal::NoBody)?;
    let permits = read_head(alloc, head)?;
    let steps = read_rows(alloc, body)?;
    let woven = resil_permit::weave(alloc, permits, &steps)?;
    Ok(woven_text(alloc, &steps, &woven)?)
}
