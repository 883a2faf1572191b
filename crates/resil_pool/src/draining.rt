//! Draining a pool, which ends its life: `drain` closes it, takes the machine out for good, joins the callers into the
//! closer, runs what is left with the permitter, and takes the machine apart.
//!
//! A pool gives a report only if all its parts are passed in: a caller of each number, and an end of each worker. Then every
//! accepted job has exactly one result, and the history, the results and the receipts agree. The history is legal whatever
//! the threads did, since each turn wrote what the rule of admission allows. By the rule of the lock it agrees with the
//! receipts, and each result is of the plan on its receipt. So nothing is compared, and no drain returns `ReceiptsDiffer`. No
//! run of the drain's own is refused, since nobody else has ended a job that it picks.
//!
//! The callers are joined while the closer holds the lock. The closer has then seen the whole history, so each caller's
//! submissions in it are those on its receipts, whatever the drain returns.
//!
//! `callers` joins the callers and puts their receipts in order, and `report` is what comes out.

ghost use Rattle.std.specs.Prelude.{◌≡◌, ◌↔◌, ℕ, true, false, List, All, Any, IsSome, IsTrue, IfOk, IfErr, map};
ghost use Rattle.resil_pool.specs.Words.{IsPrefix, IsLegal, is_closed, HasNoneToPick, Event, Row};
ghost use Rattle.resil_pool.specs.Lock.{NamesCaller, events_in, EndsOnlyPicked};
ghost use Rattle.resil_pool.specs.Draining.{AreReceiptsOf, AreSubmissions, AreCollected, HasRunOn, Ran, RanInDrain, HasAllHandles, IsPartMissing, IsStranger, IsReceiptsDiffer, IsDrainError, HandsBack, Ended};

mod callers;
mod report;

use crate::draining::callers::{are_numbered, join_callers};
use crate::draining::report::into_report;
use crate::lock::PoolState;
use crate::parts::{Caller, Closer, WorkerEnd};
use crate::pool::Pool;
pub use report::{DrainFault, Report};
use resil_admission::Machine;
use resil_decor::Permitter;
use std::sync::Wait;

// Picks, runs and finishes what is left, until there is nothing to pick. Each run is accepted, since no job was finished that
// wasn't picked.
fn run_remaining<R: Wait, P: Permitter>(rt: &R, machine: &mut Machine, permitter: &mut P)
    requires legal { IsLegal machine.old.limits machine.old.history }
    requires few { EndsOnlyPicked machine.old }
    ensures ran_on { HasRunOn machine.old machine.new }
    ensures ran { (made : List Row) × Ran P.AnsweredBetween permitter.old machine.old made permitter.new machine.new }
    ensures none_left { HasNoneToPick machine.new }
    ensures held { (id : ℕ) → P.held permitter.new id ≡ P.held permitter.old id }
{
    for _ in rt.forever() {
        let Some((id, job)) = machine.pick() else {
            return;
        };
        let run = job.run(permitter);
        match machine.finish_picked(id, run) {
            Ok(()) => {}
            Err(_refused) => unreachable!(),
        }
    }
    unreachable!()
}

/// Drains a pool. If all its parts are passed in, it closes the pool if that is open, takes the machine out and joins the
/// callers. Then it runs what is left with the permitter, and takes the machine apart. So the history of a report has a
/// closing. It allocates nothing; it waits while other seats hold the turn.
///
/// # Errors
///
/// In this order: `PartMissing` if a caller or a worker's end is missing, with everything that was passed in; `Stranger` if
/// an accepted job has no result. `ReceiptsDiffer` never occurs: the rule of the lock excludes it.
///
/// ```
/// let mut no_bulkheads = Passes::new(&rt, &[], Vec::new(alloc));
/// if let Ok(report) = drain(&rt, pool, closer, callers, ends, &mut no_bulkheads) {
///     println!(rt; "{} jobs ran", report.results.len())?;
/// }
/// ```
pub fn drain<R: Wait, P: Permitter>(
    rt: &R,
    pool: Pool,
    mut closer: Closer,
    callers: Vec<Caller>,
    ends: Vec<WorkerEnd>,
    permitter: &mut P,
) -> Result<Report, DrainFault>
    requires closer { closer.source ≡ pool.source }
    requires callers { All (λ c. c.source ≡ pool.source) callers.items }
    ensures parts { IfOk result (λ _. HasAllHandles pool callers.items ends.items) }
    ensures one_legal_history { IfOk result (λ r. IsLegal pool.source.limits r.history.items) }
    ensures closed { IfOk result (λ r. is_closed r.history.items ≡ true) }
    ensures each_callers_submissions { IfOk result (λ r. AreSubmissions r.history.items (map (λ own. own.items) r.receipts.items)) }
    ensures receipts_handed_in { IfOk result (λ r. AreReceiptsOf callers.items (map (λ own. own.items) r.receipts.items)) }
    ensures no_others { IfOk result (λ r. All (NamesCaller pool.callers) r.history.items) }
    ensures collected_exactly_once { IfOk result (λ r. AreCollected r.history.items (map (λ own. own.items) r.receipts.items) r.results.items) }
    ensures begins { IfOk result (λ r. All (λ c. IsPrefix (events_in c.seen) r.history.items) callers.items) }
    ensures begins_with_closers { IfOk result (λ r. IsPrefix (events_in closer.seen) r.history.items) }
    ensures ran { IfOk result (λ r. (before : List Event) × (made : List Row) × RanInDrain P.AnsweredBetween permitter.old permitter.new before made r.history.items r.results.items) }
    ensures part_missing { IsDrainError IsPartMissing result ↔ ¬ HasAllHandles pool callers.items ends.items }
    ensures handed_back { IfErr result (HandsBack pool closer callers.items ends.items) }
    ensures nothing_asked { IsDrainError IsPartMissing result → permitter.new ≡ permitter.old }
    ensures stranger { HasAllHandles pool callers.items ends.items → Any (λ e. IsSome e.refused) ends.items → IsDrainError IsStranger result }
    ensures receipts_agree { ¬ IsDrainError IsReceiptsDiffer result }
    ensures ended { HasAllHandles pool callers.items ends.items → Ended pool callers.items ends.items result }
    ensures none_refused { HasAllHandles pool callers.items ends.items → (how : Ended pool callers.items ends.items result) × (how.all_accepted ≡ true) × ¬ Any (λ e. IsSome e.refused) ends.items }
    ensures held { (id : ℕ) → P.held permitter.new id ≡ P.held permitter.old id }
{
    if !has_all_handles(&pool, callers.as_slice(), ends.as_slice()) {
        return Err(DrainFault::PartMissing(pool, closer, callers, ends));
    }
    pool.close(rt, &mut closer);
    let Closer { mut seat } = closer;
    let Pool {
        lock,
        limits: _,
        callers: count,
        keep_alive: _,
        receipts,
    } = pool;
    let state = lock.take(rt, &mut seat);
    let receipts = join_callers(&lock, &mut seat, callers, receipts, count);
    let inner = Box::into_inner(state.inner);
    let PoolState {
        mut machine,
        last: _last,
    } = inner;
    run_remaining(rt, &mut machine, permitter);
    into_report(machine, receipts)
}

// Whether all parts are there.
fn has_all_handles(pool: &Pool, callers: &[Caller], ends: &[WorkerEnd]) -> bool
    ensures { IsTrue result ↔ HasAllHandles pool.now callers.now ends.now }
{
    are_numbered(callers, pool.callers) && ends.len() == pool.limits.max() as usize
}
