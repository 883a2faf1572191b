//! `audit`: judges a history, and writes whether it is legal, in one line.
//!
//! An illegal history isn't refused: the verdict names its first illegal event.

ghost use Rattle.std.specs.Prelude.{◌≡◌, IfOk, MatchResult};
ghost use Rattle.resil_replay.specs.Audit.{IsAuditText, IsAuditRefusal, verdict_text};
ghost use Rattle.resil_heads.specs.CommandError.{IsError};

use crate::events::read_rows;
use crate::head::read_head;
use resil_heads::{CommandError, InputRefusal};
use resil_input::framing::split_input;
use resil_rule::{Event, Limits, Verdict};
use std::alloc::{AllocError, Global};

/// Returns the text of the verdict on the history in the rows of an input.
///
/// # Errors
///
/// In this order: `Refused` as `NoBody`; as `Head`; as `BadHeader` or `BadRow`. `Memory` may come at any step.
pub fn text(alloc: Global, input: &[u8]) -> Result<Vec<u8>, CommandError>
    ensures { MatchResult result (λ text. IsAuditText input.now text.items) (IsError (IsAuditRefusal input.now)) }
{
    let (head, body) = split_input(input).ok_or(InputRefusal::NoBody)?;
    let limits = read_head(alloc, head)?;
    let history = read_rows(alloc, body)?;
    // The only error of an audit is out of memory.
    let Ok(verdict) = resil_rule::audit(alloc, &limits, &history) else {
        return Err(CommandError::Memory);
    };
    Ok(verdict_text(alloc, verdict)?)
}

/// Returns the line of a verdict: `legal`, or `illegal` and the position of the first illegal event, from 1.
///
/// # Errors
///
/// `AllocError` if out of memory.
pub fn verdict_text(alloc: Global, verdict: Verdict) -> Result<Vec<u8>, AllocError>
    ensures { IfOk result (λ text. text.items ≡ verdict_text verdict) }
{
    let text = match verdict {
        Verdict::Legal => format!(in alloc; "legal\n")?,
        Verdict::FirstIllegal(position) => format!(in alloc; "illegal {position}\n")?,
    };
    Ok(text.into_bytes())
}
