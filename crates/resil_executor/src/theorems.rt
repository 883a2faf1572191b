//! What the clauses of a worker rule out for any bodies: laws, carried by functions that do nothing.

ghost use Rattle.std.specs.Prelude.{Option};
ghost use Rattle.atomic_table.specs.Table.{State as TableState};
ghost use Rattle.resil_lock.specs.declared.protocol.View.{View as ViewOf};
ghost use Rattle.resil_executor.specs.declared.opening.Opening.{Opening as OpeningOf};
ghost use Rattle.resil_executor.specs.Log.{Entry as EntryOf};
ghost use Rattle.resil_executor.specs.declared.state.State.{State as StateOf};
ghost use Rattle.resil_executor.specs.Laws.{PickedIsEnded, EndedWasPicked, OnlyWorkersPick, ALookIsATurn, EndStays, NothingLeftIsOver, HoldsOfTheLog};

use crate::log::Entry;
use crate::opening::Opening;
use crate::state::BoxedState;
use atomic_table::TableRule;
use resil_lock::{LockRule, View};
use resil_rule::Record;
use resil_task::by_hand::RunOnce;

/// A worker that picked a job and wrote nothing more hasn't worked. So a body of `Executor::work` that drops a job that it took,
/// or runs it and never ends it, can't meet `worked`.
///
/// ```
/// picked_is_ended::<(), Errand, NoRecord>(); // From here on a proof has PickedIsEnded.
/// ```
pub fn picked_is_ended<C, W: RunOnce<C>, H>()
    ensures { PickedIsEnded (Opening H) W.HasRun }
{}

/// A worker that picked a job, then ended one, and so has worked, ended the job that it picked.
///
/// ```
/// ended_was_picked::<(), Errand, NoRecord>(); // From here on a proof has EndedWasPicked.
/// ```
pub fn ended_was_picked<C, W: RunOnce<C>, H>()
    ensures { EndedWasPicked (Opening H) W.HasRun }
{}

/// Neither a visitor's seat nor the closer's can have written a pick, so no body can lose a job through such a seat.
///
/// ```
/// only_workers_pick::<Errand>(); // From here on a proof has OnlyWorkersPick.
/// ```
pub fn only_workers_pick<W>()
    ensures { OnlyWorkersPick W }
{}

/// A look is a turn. A visitor that was made and has had no turn meets no clause of a call that looks, such as
/// `Executor::numbers`, `join_for` and `submit`. So no body of these calls that doesn't look can meet the clauses either.
///
/// ```
/// a_look_is_a_turn::<Errand, NoRecord>(); // From here on a proof has ALookIsATurn.
/// ```
pub fn a_look_is_a_turn<W, H>()
    ensures { ALookIsATurn W (Opening H) }
{}

/// The end of a pool is final. No event that may come after it accepts, starts or ends a job. Only refused
/// submissions, idle ends and resizes may still come.
///
/// ```
/// end_stays(); // From here on a proof has EndStays.
/// ```
#[tactic(auto, using(crate::proofs::HistoryLaws::end_stays))]
pub fn end_stays()
    ensures { EndStays }
{}

/// Numbers show the end: if a pool is closed, no job waits and none runs, then each accepted job is finished. The
/// history that a visitor's numbers belong to begins with what the visitor had seen, including its own submissions.
///
/// ```
/// nothing_left_is_over(); // From here on a proof has NothingLeftIsOver.
/// ```
#[tactic(auto, using(crate::proofs::HistoryLaws::nothing_left_is_over))]
pub fn nothing_left_is_over()
    ensures { NothingLeftIsOver }
{}

/// Between any two steps of any threads: there is one legal log, which consists of what the seats wrote, and each seat has
/// seen a prefix of it. Never more jobs run than the maximum size at the opening. Each job is picked at most once and
/// ended at most once, by the same worker's seat, and these ends are the finishes of the history.
///
/// ```
/// holds_of_the_log::<Errand, NoRecord>(); // From here on a proof has HoldsOfTheLog of each such pool.
/// ```
pub fn holds_of_the_log<W: Drop, H: Record>()
    ensures { (opening : OpeningOf H) (s : TableState (Option (StateOf W H)) (ViewOf (OpeningOf H) (EntryOf W))) → ⟦<LockRule<BoxedState<W, H>> as TableRule<Option<BoxedState<W, H>>, View<Opening<H>, Entry<W>>, Opening<H>>>⟧.holds opening s → HoldsOfTheLog opening.limits s.views }
{}
