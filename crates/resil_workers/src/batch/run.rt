//! The run of a batch: a pool from its opening to its report.
//!
//! The pool is opened, its workers are made ready, the rows are submitted and the workers work, in one of two orders, and the
//! pool is drained. All parts that `drain` needs come back from the threads, so none can be missing.

ghost use Rattle.std.specs.Prelude.{◌≡◌, ◌≤◌, ◌<◌, ◌↔◌, ◌⊎◌, ℕ, [], All, false, true, IfErr, IfOk, IsErrOf, IsOk, IsTrue, Ok, OnErr, OnOk, length, map};
ghost use mathlib.Core.List.{IsPrefix};
ghost use Rattle.resil_rule.specs.History.{is_closed};
ghost use Rattle.resil_rule.specs.Admission.{IsLegal};
ghost use Rattle.resil_decor.specs.Passes.{held_of};
ghost use Rattle.resil_pool.specs.Draining.Report.{AreSubmissions, AreCollected};
ghost use Rattle.resil_workers.specs.Batch.Submit.{AreCallers, ReceiptsMatchRows, IsFrom, ArePlansOf};
ghost use Rattle.resil_pool.specs.Lock.LoggedEvent.{NamesCaller, events_in};
ghost use Rattle.resil_pool.specs.Hold.{BeginsWithRows};
ghost use Rattle.resil_workers.specs.Batch.WorkerThreads.{AreReadyWorkers};
ghost use Rattle.resil_workers.specs.Batch.Run.{IsFinishedBatch, HasStranger};

use crate::batch::caller_threads::submit_on_threads;
use crate::batch::error::BatchError;
use crate::batch::shared::Batch;
use crate::batch::submit::{all_from, submit_in_order};
use crate::batch::worker_threads::{ReadyWorkers, join_workers, prepare_workers, start_workers};
use resil_admission::Limits;
use resil_decor::Passes;
use resil_pool::{
    Caller, Closer, Hook, JobRow, MAX_CALLERS, Pool, Report, SubmitError, Worker, WorkerEnd,
    close_held, drain, open_pool,
};
use std::alloc::Global;
use std::sync::Wait;
use std::thread;
use std::thread::Threads;
use thiserror::Error;

/// How to open the pool of a run.
#[derive(Clone, Copy)]
pub struct RunConfig {
    /// The sizes of the pool.
    pub limits: Limits,
    /// A worker asks to end after this many empty polls in a row; 0 means 1.
    pub keep_alive: u32,
    /// How many callers there are, numbered from 1: 0 to 64.
    pub callers: u16,
}

/// Why a run returned no report.
///
/// ```
/// match run_jobs(&rt, alloc, config, &mut no_bulkheads, rows, &NoHook, false) {
///     Ok(report) => println!(rt; "{} jobs ran", report.results.len())?,
///     Err(RunError::BadCaller) => println!(rt; "callers are 1 to {}", config.callers)?,
///     Err(error) => println!(rt; "{error}")?,
/// }
/// ```
#[derive(Clone, Copy, Debug, PartialEq, Eq, Error)]
pub enum RunError {
    /// More than 64 callers were requested.
    #[error("there are more than 64 callers")]
    TooManyCallers,
    /// A row names no caller of the run.
    #[error("a row names a caller that the run doesn't have")]
    BadCaller,
    /// Out of memory.
    #[error("out of memory")]
    Memory,
    /// A thread couldn't be started.
    #[error("a thread could not be started")]
    NoThread,
    /// An accepted job has no result.
    #[error("a run was refused, or a job has no result")]
    Stranger,
    /// The rows were held, but aren't in the history in their order.
    #[error("the held rows are not in the history in their order")]
    ReceiptsDiffer,
}

impl From<BatchError> for RunError {
    ghost use Rattle.resil_workers.specs.declared.batch.run.RunError.TheVariants.{Memory, NoThread};

    ghost from_gives = { λ _ error. (error ≡ Memory) ⊎ (error ≡ NoThread) };

    fn from(refused: BatchError) -> RunError {
        match refused {
            BatchError::Memory => RunError::Memory,
            BatchError::Thread => RunError::NoThread,
        }
    }
}

// The workers work, each on a thread of its own, and each caller submits its rows on one. Then the pool is closed, even if memory
// or a thread is missing, so that no worker polls forever.
fn submit_beside_work<'a, R: Threads + Wait + Sync, H: Hook + Sync>(
    batch: &Batch<'_, R, H>,
    pool: &Pool,
    mut closer: Closer,
    callers: Vec<Caller>,
    workers: ReadyWorkers<'a, R>,
) -> (Closer, Result<(Vec<Caller>, Vec<WorkerEnd>), BatchError>)
    requires closer { closer.source ≡ pool.now.source }
    requires callers { AreCallers pool.now.source callers.items }
    requires new { All (λ c. c.receipts ≡ []) callers.items }
    requires workers { AreReadyWorkers pool.now.source (length workers.each.items) workers }
    ensures closer { result.0.source ≡ pool.now.source }
    ensures closed { is_closed (events_in result.0.seen) ≡ true }
    ensures finished { IfOk result.1 (λ r. IsFinishedBatch batch.now.rows.now pool.now.source (length callers.items) (length workers.entry.each.items) r.0.items r.1.items) }
{
    thread::scope(
        thread::scope_env(),
        batch.rt,
        move |scope| -> (Closer, Result<(Vec<Caller>, Vec<WorkerEnd>), BatchError>)
            requires closer { closer.source ≡ pool.now.source }
            requires callers { All (λ c. (c.source ≡ pool.now.source) × (c.receipts ≡ [])) callers.items }
            requires workers { AreReadyWorkers pool.now.source (length workers.each.items) workers }
            ensures closer { result.0.source ≡ pool.entry.now.source }
            ensures closed { is_closed (events_in result.0.seen) ≡ true }
            ensures sources { IfOk result.1 (λ r. All (λ c. c.source ≡ pool.entry.now.source) r.0.items) }
            ensures numbers { IfOk result.1 (λ r. map (λ c. c.number) r.0.items ≡ map (λ c. c.number) callers.items) }
            ensures told { IfOk result.1 (λ r. ReceiptsMatchRows batch.entry.now.rows.now r.0.items) }
            ensures ends { IfOk result.1 (λ r. length r.1.items ≡ length workers.entry.each.items) }
        {
            let (threads, started) = start_workers(scope, batch, pool, &mut closer, workers);
            let sent = match started {
                Ok(()) => submit_on_threads(scope, batch, pool, callers),
                Err(error) => Err(error),
            };
            pool.close(batch.rt, &mut closer);
            let ends = join_workers(batch.rt, threads);
            match sent {
                Ok(callers) => (closer, Ok((callers, ends))),
                Err(refused) => (closer, Err(refused)),
            }
        },
    )
}

// The workers of a closed pool work until nothing is left, each on a thread of its own. Errors: `Thread`.
fn work_off<'a, R: Threads + Wait + Sync, H: Hook + Sync>(
    batch: &Batch<'_, R, H>,
    pool: &Pool,
    mut closer: Closer,
    workers: ReadyWorkers<'a, R>,
) -> (Closer, Result<Vec<WorkerEnd>, BatchError>)
    requires closer { closer.source ≡ pool.now.source }
    requires closed { is_closed (events_in closer.seen) ≡ true }
    requires workers { AreReadyWorkers pool.now.source (length workers.each.items) workers }
    ensures closer { result.0.source ≡ pool.now.source }
    ensures begins { IsPrefix closer.seen result.0.seen }
    ensures ends { IfOk result.1 (λ ends. length ends.items ≡ length workers.entry.each.items) }
{
    thread::scope(
        thread::scope_env(),
        batch.rt,
        move |scope| -> (Closer, Result<Vec<WorkerEnd>, BatchError>)
            requires closer { closer.source ≡ pool.now.source }
            requires workers { AreReadyWorkers pool.now.source (length workers.each.items) workers }
            ensures closer { result.0.source ≡ pool.entry.now.source }
            ensures begins { IsPrefix closer.seen result.0.seen }
            ensures ends { IfOk result.1 (λ ends. length ends.items ≡ length workers.entry.each.items) }
        {
            let (threads, started) = start_workers(scope, batch, pool, &mut closer, workers);
            let ends = join_workers(batch.rt, threads);
            match started {
                Ok(()) => (closer, Ok(ends)),
                Err(refused) => (closer, Err(refused)),
            }
        },
    )
}

// All rows are submitted in their order, the pool is closed, and then the workers work. Errors, in this order: `Memory` if out of
// memory for a row, `NoThread`, `ReceiptsDiffer`.
fn submit_then_work<'a, R: Threads + Wait + Sync, H: Hook + Sync>(
    batch: &Batch<'_, R, H>,
    pool: &Pool,
    mut closer: Closer,
    mut callers: Vec<Caller>,
    workers: ReadyWorkers<'a, R>,
) -> Result<(Closer, Vec<Caller>, Vec<WorkerEnd>), RunError>
    requires closer { closer.source ≡ pool.now.source }
    requires callers { AreCallers pool.now.source callers.items }
    requires new { All (λ c. c.receipts ≡ []) callers.items }
    requires rows { All (IsFrom (length callers.items)) batch.now.rows.now }
    requires workers { AreReadyWorkers pool.now.source (length workers.each.items) workers }
    ensures closer { IfOk result (λ r. r.0.source ≡ pool.now.source) }
    ensures finished { IfOk result (λ r. IsFinishedBatch batch.now.rows.now pool.now.source (length callers.items) (length workers.entry.each.items) r.1.items r.2.items) }
    ensures begins { IfOk result (λ r. BeginsWithRows batch.now.rows.now (events_in r.0.seen)) }
    ensures refused { IfErr result (λ error. (error ≡ RunError.Memory) ⊎ (error ≡ RunError.NoThread) ⊎ (error ≡ RunError.ReceiptsDiffer)) }
{
    let submitted = submit_in_order(batch.rt, batch.alloc, pool, &mut callers, batch.rows);
    let in_order = close_held(batch.rt, pool, &mut closer, batch.rows);
    let (closer, worked) = work_off(batch, pool, closer, workers);
    let ends = answer_held(submitted, worked, in_order)?;
    Ok((closer, callers, ends))
}

// The result of a batch with `hold`: a row was refused because it was out of memory, or else a thread is missing, or else the rows are out
// of order.
fn answer_held(
    submitted: Result<(), SubmitError>,
    worked: Result<Vec<WorkerEnd>, BatchError>,
    in_order: bool,
) -> Result<Vec<WorkerEnd>, RunError>
    ensures row_first { OnErr submitted (IsErrOf result RunError.Memory) }
    ensures thread_next { IsErrOf result RunError.NoThread → IsOk submitted }
    ensures order_last { IsErrOf result RunError.ReceiptsDiffer → IsOk submitted × IsOk worked }
    ensures ends { IfOk result (λ ends. worked ≡ Ok ends) }
    ensures in_order { OnOk result (IsTrue in_order) }
    ensures submitted { OnOk result (IsOk submitted) }
    ensures refused { IfErr result (λ error. (error ≡ RunError.Memory) ⊎ (error ≡ RunError.NoThread) ⊎ (error ≡ RunError.ReceiptsDiffer)) }
{
    if submitted.is_err() {
        return Err(RunError::Memory);
    }
    let ends = worked?;
    if !in_order {
        return Err(RunError::ReceiptsDiffer);
    }
    Ok(ends)
}

// The workers are made ready, the rows are submitted and the workers work, in one of two orders.
fn submit_and_work<'a, R: Threads + Wait + Sync, H: Hook + Sync>(
    batch: &Batch<'_, R, H>,
    pool: &Pool,
    closer: Closer,
    callers: Vec<Caller>,
    workers: Vec<Worker>,
    passes: &mut Passes<'a, R>,
) -> Result<(Closer, Vec<Caller>, Vec<WorkerEnd>), RunError>
    requires closer { closer.source ≡ pool.now.source }
    requires callers { AreCallers pool.now.source callers.items }
    requires new { All (λ c. c.receipts ≡ []) callers.items }
    requires rows { All (IsFrom (length callers.items)) batch.now.rows.now }
    requires workers { All (λ w. w.source ≡ pool.now.source) workers.items }
    ensures closer { IfOk result (λ r. r.0.source ≡ pool.now.source) }
    ensures finished { IfOk result (λ r. IsFinishedBatch batch.now.rows.now pool.now.source (length callers.items) (length workers.items) r.1.items r.2.items) }
    ensures begins { IsTrue batch.now.hold → IfOk result (λ r. BeginsWithRows batch.now.rows.now (events_in r.0.seen)) }
    ensures refused { IfErr result (λ error. (error ≡ RunError.Memory) ⊎ (error ≡ RunError.NoThread) ⊎ (error ≡ RunError.ReceiptsDiffer)) }
    ensures order { IsErrOf result RunError.ReceiptsDiffer → IsTrue batch.now.hold }
    ensures passes { passes.new ≡ passes.old }
{
    let workers = prepare_workers(batch.alloc, pool, workers, passes)?;
    if batch.hold {
        return submit_then_work(batch, pool, closer, callers, workers);
    }
    let (closer, done) = submit_beside_work(batch, pool, closer, callers, workers);
    let (callers, ends) = done?;
    Ok((closer, callers, ends))
}

// Opens a pool, has its rows submitted and its jobs run. It refuses more than 64 callers, and a row that names none of them.
fn finish_batch<'a, R: Threads + Wait + Sync, H: Hook + Sync>(
    batch: &Batch<'_, R, H>,
    config: RunConfig,
    passes: &mut Passes<'a, R>,
) -> Result<(Pool, Closer, Vec<Caller>, Vec<WorkerEnd>), RunError>
    ensures limits { IfOk result (λ r. r.0.source.limits ≡ config.limits) }
    ensures number { IfOk result (λ r. r.0.callers ≡ config.callers) }
    ensures closer { IfOk result (λ r. r.1.source ≡ r.0.source) }
    ensures finished { IfOk result (λ r. IsFinishedBatch batch.now.rows.now r.0.source config.callers config.limits.max r.2.items r.3.items) }
    ensures begins { IsTrue batch.now.hold → IfOk result (λ r. BeginsWithRows batch.now.rows.now (events_in r.1.seen)) }
    ensures too_many { IsErrOf result RunError.TooManyCallers ↔ (64 < config.callers) }
    ensures bad_caller { IsErrOf result RunError.BadCaller ↔ ((config.callers ≤ 64) × ¬ All (IsFrom config.callers) batch.now.rows.now) }
    ensures stranger { ¬ IsErrOf result RunError.Stranger }
    ensures order { IsErrOf result RunError.ReceiptsDiffer → IsTrue batch.now.hold }
    ensures passes { passes.new ≡ passes.old }
{
    if config.callers > MAX_CALLERS {
        return Err(RunError::TooManyCallers);
    }
    if !all_from(batch.rows, config.callers) {
        return Err(RunError::BadCaller);
    }
    let Ok((pool, closer, callers, workers)) = open_pool(
        batch.alloc,
        config.limits,
        config.keep_alive,
        config.callers,
    ) else {
        return Err(RunError::Memory);
    };
    match submit_and_work(batch, &pool, closer, callers, workers, passes) {
        Ok((closer, callers, ends)) => Ok((pool, closer, callers, ends)),
        Err(error) => Err(error),
    }
}

/// Runs the jobs of these rows on a pool of its own, and drains it. With `hold` all rows are submitted in row order on the
/// calling thread, the pool is closed, and only then the workers start. Without it, each caller submits its rows, in row order,
/// on a thread of its own while the workers run; then the pool is closed. Each worker is a thread, and gives its jobs passes that
/// are split from these.
///
/// # Errors
///
/// In this order: `TooManyCallers` if there are more than `MAX_CALLERS`; `BadCaller` if a row's caller isn't from 1 to the number of
/// callers; `Memory` if out of memory; `NoThread` if a thread can't be started; `Stranger` as a drain returns it; `ReceiptsDiffer`
/// only with `hold`, if the history before the closing isn't the rows' submissions in row order. With `hold`, a row's want of memory
/// comes before a missing thread. If memory or a thread is missing once workers were started, the pool is closed and there is no
/// report. Each worker leaves once there is no job to pick; without a report no clause says which jobs were run.
///
/// ```
/// let rows = Vec::from_array(alloc, [JobRow { caller: 1, plan }])?;
/// let mut no_bulkheads = Passes::new(&rt, &[], Vec::new(alloc));
/// let report = run_jobs(&rt, alloc, config, &mut no_bulkheads, rows, &NoHook, false)?;
/// ```
///
/// In a whole program: crates/resil_guide/src/pool.rt.
pub fn run_jobs<'a, R: Threads + Wait + Sync, H: Hook + Sync>(
    rt: &R,
    alloc: Global,
    config: RunConfig,
    passes: &mut Passes<'a, R>,
    rows: Vec<JobRow>,
    hook: &H,
    hold: bool,
) -> Result<Report, RunError>
    ensures one_legal_history { IfOk result (λ r. IsLegal config.limits r.history.items) }
    ensures each_callers_submissions { IfOk result (λ r. AreSubmissions r.history.items (map (λ own. own.items) r.receipts.items)) }
    ensures callers { IfOk result (λ r. length r.receipts.items ≡ config.callers) }
    ensures no_others { IfOk result (λ r. All (NamesCaller config.callers) r.history.items) }
    ensures collected_exactly_once { IfOk result (λ r. AreCollected r.history.items (map (λ own. own.items) r.receipts.items) r.results.items) }
    ensures plans { IfOk result (λ r. ArePlansOf rows.items (map (λ own. own.items) r.receipts.items)) }
    ensures held_rows { IsTrue hold → IfOk result (λ r. BeginsWithRows rows.items r.history.items) }
    ensures too_many { IsErrOf result RunError.TooManyCallers ↔ (64 < config.callers) }
    ensures bad_caller { IsErrOf result RunError.BadCaller ↔ ((config.callers ≤ 64) × ¬ All (IsFrom config.callers) rows.items) }
    ensures stranger { IsErrOf result RunError.Stranger → HasStranger config.limits config.callers rows.items }
    ensures receipts_differ { IsErrOf result RunError.ReceiptsDiffer → IsTrue hold }
    ensures held { (id : ℕ) → held_of passes.new id ≡ held_of passes.old id }
{
    let batch = Batch {
        rt,
        alloc,
        rows: rows.as_slice(),
        hold,
        hook,
    };
    let (pool, closer, callers, ends) = finish_batch(&batch, config, passes)?;
    match drain(rt, pool, closer, callers, ends, passes) {
        Ok(report) => Ok(report),
        // All parts were passed in, and the receipts are what the history says.
        Err(_fault) => Err(RunError::Stranger),
    }
}
