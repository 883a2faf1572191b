//! The laws of the turn. Each is a function whose contract states the law.
ghost use Rattle.std.specs.Prelude.{◌≡◌, ℕ, [], Option, None};
ghost use Rattle.atomic_table.specs.Table as table;
ghost use Rattle.resil_pool.specs.Words.{PlanView, RunView, MachineView, with_submission, with_finish, IsPicked, Id, Reply, LoggedEvent, PoolState, PoolOpening};
ghost use Rattle.resil_pool.specs.Lock.{closer_number, AllNameCallers, LockSeatState, IsTurn, AppendsToMachine, AppendsAtMostOne, AppendsCloseAtMost};
ghost use Rattle.resil_lock.specs.declared.protocol.View.{View};
ghost use Rattle.resil_pool.specs.BetweenTurns.{HoldsBetweenTurns};
ghost use Rattle.resil_pool.specs.NamedCallers.{IsCallersNumber, KeepsNames, LeavesNames};

use crate::lock::{LoggedEvent, PoolOpening, PoolState};
use atomic_table::TableRule;
use resil_admission::Event;
use resil_lock::{BoxedState, LockRule, View};

/// Between any two steps, whichever threads make them, the word is 1 exactly while one seat holds the turn, and the
/// machine is in its slot exactly while the word is 0. There is one legal history, the machine's. Every seat has seen a
/// prefix of it that includes all its own events. All seats have different numbers. There are never more jobs running
/// than the maximum size that the pool was opened with, and each job that was picked and not ended is one of them.
pub fn holds_between_turns()
    ensures { (opening : PoolOpening) (s : table.State (Option PoolState) (View PoolOpening LoggedEvent)) → ⟦<LockRule<BoxedState<PoolState>> as TableRule<Option<BoxedState<PoolState>>, View<PoolOpening, LoggedEvent>, PoolOpening>>⟧.holds opening s → HoldsBetweenTurns opening.limits s.words s.homes s.views }
{}

/// In a pool with this many callers, each submission in the history names one of them, from 1 to their number. This is
/// true when the pool is opened. A turn of a caller keeps it true, whatever it writes, and so does a turn of the closer.
/// So do a submission, a pick, a finish, anything that a worker writes, a closing and a resize.
pub fn submissions_name_callers()
    ensures opening { (callers : ℕ) → AllNameCallers callers [] }
    ensures callers_turn { (callers : ℕ) (me : LockSeatState) (plan : Option PlanView) (machine : MachineView) → IsCallersNumber callers me.0.number → IsTurn me plan machine → LeavesNames callers me machine }
    ensures closers_turn { (callers : ℕ) (me : LockSeatState) (plan : Option PlanView) (machine : MachineView) → me.0.number ≡ closer_number → IsTurn me plan machine → LeavesNames callers me machine }
    ensures submission { (callers : ℕ) (old new : MachineView) (id : Id) (reply : Reply) (plan : PlanView) → IsCallersNumber callers id.caller → new ≡ with_submission old id reply plan → KeepsNames callers old new }
    ensures pick { (callers : ℕ) (old new : MachineView) (id : Id) → IsPicked old id new → KeepsNames callers old new }
    ensures finish { (callers : ℕ) (old new : MachineView) (id : Id) (run : RunView) → new ≡ with_finish old id run → KeepsNames callers old new }
    ensures worker { (callers : ℕ) (old new : MachineView) → AppendsAtMostOne old new → KeepsNames callers old new }
    ensures closing { (callers : ℕ) (old new : MachineView) → AppendsCloseAtMost old new → KeepsNames callers old new }
    ensures resize { (callers : ℕ) (old new : MachineView) (core max : ℕ) → AppendsToMachine None old (Event.Resized core max) new → KeepsNames callers old new }
{}
