//! The report of a drained pool: its history, its results and its receipts.
//!
//! The machine is taken apart. By the rule of the lock what comes out of it agrees with the callers' receipts, so nothing is compared.

ghost use Rattle.std.specs.Prelude.{◌≡◌, ◌↔◌, List, All, IfOk, length, map};
ghost use Rattle.resil_pool.specs.Words.{IsLegal, AllDone, AreResultsOf, Row};
ghost use Rattle.resil_pool.specs.Draining.{AreSubmissions, AreCollected, AgreeWithReceipts, IsPartMissing, IsStranger, IsReceiptsDiffer, IsDrainError, Differ};
ghost use Rattle.resil_pool.specs.Lock.{NamesCaller};

use crate::parts::{Caller, Closer, WorkerEnd};
use crate::pool::Pool;
use crate::receipt::Receipt;
use resil_admission::{Event, Machine, Row};

/// What remains of a pool that was drained.
///
/// ```
/// for row in &report.results {
///     println!(rt; "{:?} by {} calls", row.run.outcome(), row.run.calls())?;
/// }
/// ```
///
/// In a whole program: crates/resil_guide/src/pool.rt.
#[derive(Drop)]
pub struct Report {
    /// All events, oldest first.
    pub history: Vec<Event>,
    /// The result of each accepted job, in order of acceptance.
    pub results: Vec<Row>,
    /// The receipts of the callers: the first list is caller 1's.
    pub receipts: Vec<Vec<Receipt>>,
}

/// Why a pool wasn't drained.
///
/// ```
/// match drain(&rt, pool, closer, callers, ends, &mut no_bulkheads) {
///     Ok(report) => println!(rt; "{} jobs ran", report.results.len())?,
///     Err(DrainFault::PartMissing(pool, closer, callers, ends)) => go_on(pool, closer, callers, ends),
///     Err(DrainFault::Stranger | DrainFault::ReceiptsDiffer) => println!(rt; "no report")?,
/// }
/// ```
#[derive(Drop)]
pub enum DrainFault {
    /// The callers' numbers aren't 1 to the number of callers, each once, or there aren't as many ends as workers. All parts come
    /// back, and nothing was done.
    PartMissing(Pool, Closer, Vec<Caller>, Vec<WorkerEnd>),
    /// An accepted job has no result. The pool is gone.
    Stranger,
    /// A caller's receipts aren't its submissions in the history, a submission names no caller of the pool, or a result isn't of
    /// the plan on its receipt. The pool is gone. This never occurs: the rule of the lock excludes it.
    ReceiptsDiffer,
}

// Takes the machine apart. Errors: `Stranger` if an accepted job has no result.
pub(crate) fn into_report(
    machine: Machine,
    receipts: Vec<Vec<Receipt>>,
) -> Result<Report, DrainFault>
    requires agree { (rows : List Row) → AreResultsOf machine.jobs rows → AgreeWithReceipts (length receipts.items) machine.history rows (map (λ own. own.items) receipts.items) }
    ensures history { IfOk result (λ r. r.history.items ≡ machine.history) }
    ensures results { IfOk result (λ r. AreResultsOf machine.jobs r.results.items) }
    ensures receipts { IfOk result (λ r. r.receipts.items ≡ receipts.items) }
    ensures one_legal_history { IfOk result (λ r. IsLegal machine.limits r.history.items) }
    ensures each_callers_submissions { IfOk result (λ r. AreSubmissions r.history.items (map (λ own. own.items) r.receipts.items)) }
    ensures no_others { IfOk result (λ r. All (NamesCaller (length receipts.items)) r.history.items) }
    ensures collected_exactly_once { IfOk result (λ r. AreCollected r.history.items (map (λ own. own.items) r.receipts.items) r.results.items) }
    ensures stranger { IsDrainError IsStranger result ↔ ¬ AllDone machine.jobs }
    ensures receipts_differ { IsDrainError IsReceiptsDiffer result ↔ (AllDone machine.jobs × Differ (length receipts.items) machine (map (λ own. own.items) receipts.items)) }
    ensures receipts_agree { ¬ IsDrainError IsReceiptsDiffer result }
    ensures at_an_end { ¬ IsDrainError IsPartMissing result }
{
    match machine.into_parts() {
        Ok((history, results)) => Ok(Report {
            history,
            results,
            receipts,
        }),
        Err((_not_done, _machine)) => Err(DrainFault::Stranger),
    }
}
