//! What the lock protects: the machine, and what the last turn wrote.
ghost use Rattle.std.specs.Prelude.{◌≡◌, Some, None, if◌then◌else◌};
ghost use Rattle.resil_pool.specs.Lock.{plain};

use crate::lock::logged_event::LoggedEvent;
use crate::lock::opening::PoolOpening;
use crate::lock::plan_seen::PlanSeen;
use resil_admission::Machine;
use resil_lock::{Guarded, Note, WithJoins};

/// What the last turn wrote, with the plan for a submission.
#[derive(Drop)]
pub struct Written {
    pub(crate) note: Note,
    pub(crate) plan: Option<PlanSeen>,
}

/// The machine, and what the last turn wrote.
#[derive(Drop)]
pub struct PoolState {
    pub(crate) machine: Machine,
    pub(crate) last: Option<Written>,
}

/// The note of an act that wrote this, or of one that wrote nothing.
pub(crate) fn note_if(written: bool, note: Note) -> Option<Written>
    ensures { result ≡ if written then Some (plain note) else None }
{
    if written {
        Some(Written { note, plan: None })
    } else {
        None
    }
}

impl Guarded for PoolState {
    ghost use Rattle.resil_pool.specs.Lock.{is_own, StandsFor, MayHaveWritten, told, HasWork};

    type Key = PoolOpening;

    type Entry = LoggedEvent;

    ghost StandsFor = { StandsFor };

    ghost MayHaveWritten = { MayHaveWritten };

    ghost is_own = { is_own };

    ghost written = { told };

    ghost HasWork = { HasWork };

    /// Whether there is a job to pick, or the pool is closed.
    fn has_work(&self) -> bool {
        self.machine.closed() || self.machine.can_pick()
    }
}

impl WithJoins for PoolState {
    ghost spent_key = { record { limits = record { core = 1; max = 1; queue = 0 }; callers = 0 } };
}
