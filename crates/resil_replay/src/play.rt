//! Carries out the rows of a replay, in order, on one pool.
//!
//! After each row the pool has the history of the rows so far: the legal one with their events. The
//! first row that the pool refuses ends the replay.

ghost use Rattle.std.specs.Prelude.{◌≡◌, List, MatchResult, IfErr, OnOk};
ghost use Rattle.resil_rule.specs.Limits.{Sizes};
ghost use Rattle.resil_replay.specs.Play.{IsHistoryOf, IsReplayError, IsRowError, error_at_row};
ghost use Rattle.resil_replay.specs.State.{IsCarriedOut};
ghost use Rattle.resil_replay.specs.declared.rows.ReplayRow.{ReplayRow};
ghost use Rattle.resil_rule.specs.declared.event.Event.{Event};

use crate::pool::{ReplayPool, RowError};
use crate::rows::ReplayRow;
use resil_admission::{Limits, Machine};
use resil_heads::RowRefusal;
use std::alloc::Global;
use thiserror::Error;

/// Why not all rows were carried out.
#[derive(Clone, Copy, Debug, Error)]
pub enum ReplayError {
    /// Out of memory.
    #[error("out of memory")]
    Memory,
    /// The pool refused the row at this position, from 1.
    #[error("row {0} is refused")]
    Refused(usize, RowRefusal),
}

// Carries out one row. Errors: `Memory` if out of memory; `Refused` if the pool refuses the row.
fn apply_row(alloc: Global, pool: &mut ReplayPool, row: ReplayRow) -> Result<(), RowError>
    ensures played { OnOk result (IsCarriedOut row pool.old pool.new) }
    ensures refused { IfErr result (IsRowError pool.old.limits pool.old.history row) }
{
    match row {
        ReplayRow::Submit(id) => pool.submit(alloc, id),
        ReplayRow::Finish(id) => pool.finish(id),
        ReplayRow::Take => pool.take(),
        ReplayRow::Idle => pool.idle(),
        ReplayRow::Close => {
            pool.close();
            Ok(())
        }
        ReplayRow::Resize { core, max } => pool.resize(core, max),
    }
}

// The error of a replay whose row at a position has this error.
fn error_at_row(position: usize, why: RowError) -> ReplayError
    ensures { result ≡ error_at_row position why }
{
    match why {
        RowError::Memory => ReplayError::Memory,
        RowError::Refused(why) => ReplayError::Refused(position, why),
    }
}

/// Carries out all rows on a new pool of these limits, and returns its machine.
///
/// # Errors
///
/// The first that occurs: `Memory` if out of memory; `Refused` with the position of the first row
/// that the pool refuses, and why.
pub fn play(alloc: Global, limits: Limits, rows: &[ReplayRow]) -> Result<Machine, ReplayError>
    ensures { MatchResult result (λ m. (m.limits ≡ limits) × IsHistoryOf limits rows.now m.history) (IsReplayError limits rows.now) }
{
    let Ok(mut pool) = ReplayPool::new(alloc, limits) else {
        return Err(ReplayError::Memory);
    };
    for (index, row) in rows.iter().enumerate() {
        if let Err(why) = apply_row(alloc, &mut pool, *row) {
            return Err(error_at_row(index + 1, why));
        }
    }
    Ok(pool.into_machine())
}

/// The law of replays: rows determine their history.
pub fn histories_unique()
    ensures { (limits : Sizes) (rows : List ReplayRow) (one other : List Event) → IsHistoryOf limits rows one → IsHistoryOf limits rows other → one ≡ other }
{}
