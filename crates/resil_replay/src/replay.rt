//! `replay`: carries out a list of events on one pool, and writes its history.
//!
//! All rows are read before the first one is carried out, so a bad row anywhere is reported before
//! an event that the pool refuses.

ghost use Rattle.std.specs.Prelude.{◌≡◌, MatchResult};
ghost use Rattle.resil_heads.specs.CommandError.{IsError};
ghost use Rattle.resil_replay.specs.Replay.{IsReplayText, IsReplayRefusal, from_replay_error};

use crate::head::read_head;
use crate::history::history_text;
use crate::play::{ReplayError, play};
use crate::rows::{ReplayBody, read_rows};
use resil_heads::{CommandError, InputRefusal};
use resil_input::framing::split_input;
use std::alloc::Global;

impl From<ReplayError> for CommandError {
    ghost from_gives = { λ why error. error ≡ from_replay_error why };

    fn from(why: ReplayError) -> CommandError {
        match why {
            ReplayError::Memory => CommandError::Memory,
            ReplayError::Refused(position, why) => CommandError::Refused(InputRefusal::Row(
                position, why,
            )),
        }
    }
}

/// Returns the text of the history of the rows of an input on one pool.
///
/// # Errors
///
/// In this order: `Refused` as `NoBody`; as `Head`; as `BadHeader` or `BadRow`; as `Row`, for the
/// first row that can't be carried out. `Memory` may come at any step.
pub fn text(alloc: Global, input: &[u8]) -> Result<Vec<u8>, CommandError>
    ensures { MatchResult result (λ text. IsReplayText input.now text.items) (IsError (IsReplayRefusal input.now)) }
{
    let (head, body) = split_input(input).ok_or(InputRefusal::NoBody)?;
    let limits = read_head(alloc, head)?;
    let ReplayBody { version, rows } = read_rows(alloc, body)?;
    let machine = play(alloc, limits, &rows)?;
    // The history says everything that the rows did, so the text may reuse their room.
    drop(rows);
    Ok(history_text(alloc, version, machine.history())?)
}
