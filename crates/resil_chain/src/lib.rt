//! `chain`: runs a job for each row through the layers of the head, and writes the result of each.
//!
//! No bulkhead is made: each row has the answers of its bulkheads. `head` and `rows` are what is
//! read, and `runs` runs the jobs and writes the text, with the fields of `run_fields` for each run.
#![tactic(auto)]

ghost use Rattle.std.specs.Prelude.{MatchResult};
ghost use Rattle.resil_chain.specs.Chain.{IsChainText, IsChainRefusal};
ghost use Rattle.resil_heads.specs.CommandError.{IsError};

pub mod head;
pub mod rows;
pub mod run_fields;
pub mod runs;
pub mod subject;
mod worked_heads;

use head::read_head;
use resil_heads::{CommandError, InputRefusal};
use resil_input::framing::split_input;
use rows::read_rows;
use runs::run_chain;
use std::alloc::Global;
pub use worked_heads::worked_chain_heads;

/// Returns the text of the results of the rows of an input, each run through the layers of its head.
///
/// # Errors
///
/// In this order: `Refused` as `NoBody`; as `Head`; as `BadHeader` or `BadRow`. `Memory` may come at any step.
pub fn text(alloc: Global, input: &[u8]) -> Result<Vec<u8>, CommandError>
    ensures { MatchResult result (λ text. IsChainText input.now text.items) (IsError (IsChainRefusal input.now)) }
{
    let (head, body) = split_input(input).ok_or(InputRefusal::NoBody)?;
    let chain = read_head(alloc, head)?;
    let rows = read_rows(alloc, body)?;
    Ok(run_chain(alloc, &chain, rows)?)
}
