//! Runs the jobs of a `run` on a pool of its own.
//!
//! The pool has the sizes of the head. Each job is its row's script under a copy of the layers of the head,
//! and the workers share one bulkhead for each id that the layers name. All rows are there before the pool is
//! opened, and the hook does nothing before or after a job.

ghost use Rattle.std.specs.Prelude.{◌≡◌, ◌≢◌, ◌≤◌, All, IfErr, IfOk, Ok, map};
ghost use Rattle.resil_rule.specs.Limits.{AreLimits};
ghost use Rattle.resil_driver.specs.Run.Play.{HasPlayed, IsOfCaller, IsPlayError, from_run_error, row_for_job};

use crate::run::bulkheads::make_bulkheads;
use crate::run::head::RunHead;
use crate::run::rows::ScriptedJob;
use crate::run::runner::{JobRunner, RunBatch, run_settings};
use resil_decor::{Chain, Plan};
use resil_heads::{CommandError, InputRefusal, RunRefusal};
use resil_words::RunOptions;
use resil_workers::{JobRow, Report, RunError};
use std::alloc::{AllocError, Global};
use std::sync::Wait;
use std::thread::Threads;

// The row of a job: its caller, and the layers around its script. Errors: `AllocError` if out of memory.
fn row_for_job(alloc: Global, chain: &Chain, job: ScriptedJob) -> Result<JobRow, AllocError>
    ensures { IfOk result (λ row. row ≡ row_for_job chain.now job) }
{
    let ScriptedJob { caller, script } = job;
    let Ok(layers) = chain.copy(alloc) else {
        return Err(AllocError);
    };
    Ok(JobRow {
        caller,
        plan: Plan::new(layers, script),
    })
}

// The rows of the jobs, in order, which share one copy of the layers. Errors: `AllocError` if out of memory.
fn rows_of(alloc: Global, chain: &Chain, jobs: Vec<ScriptedJob>) -> Result<Vec<JobRow>, AllocError>
    ensures { IfOk result (λ rows. rows.items ≡ map (row_for_job chain.now) jobs.items) }
{
    let Ok(shared) = chain.copy(alloc) else {
        return Err(AllocError);
    };
    let mut rows = Vec::new(alloc);
    for job in jobs {
        let row = row_for_job(alloc, &shared, job)?;
        rows.push(row)?;
    }
    Ok(rows)
}

// The error of the command for an error of a run. The run has at most 64 callers, and its rows name
// them, so two errors never come.
fn run_error(error: RunError) -> CommandError
    requires callers { error ≢ RunError.TooManyCallers }
    requires rows { error ≢ RunError.BadCaller }
    ensures { result ≡ from_run_error error }
{
    match error {
        RunError::Memory => CommandError::Memory,
        RunError::NoThread => CommandError::NoThread,
        RunError::Stranger => CommandError::Refused(InputRefusal::Run(RunRefusal::Stranger)),
        RunError::ReceiptsDiffer => CommandError::Refused(InputRefusal::Run(
            RunRefusal::ReceiptsDiffer,
        )),
        RunError::TooManyCallers | RunError::BadCaller => unreachable!(),
    }
}

/// What a head and the words request of a run.
#[derive(Clone, Copy)]
pub(crate) struct RunRequest<'a> {
    /// The head, which its reader keeps: so no error on the way has to drop it.
    pub head: &'a RunHead,
    /// The options of `run`.
    pub words: RunOptions,
}

/// Returns the report of the jobs, which callers numbered from 1 submit to a pool of the head's sizes. With
/// `--hold` all are submitted before a worker starts; without it the callers and the workers start together.
///
/// # Errors
///
/// `Memory`; `NoThread` if a thread can't be started; `Refused` as `Run` if the run has no report.
pub(crate) fn play_run<J: JobRunner, R: Threads + Wait + Sync>(
    runner: &J,
    rt: &R,
    alloc: Global,
    request: RunRequest<'_>,
    jobs: Vec<ScriptedJob>,
) -> Result<Report, CommandError>
    requires limits { AreLimits request.head.now.limits }
    requires callers { request.words.callers ≤ 64 }
    requires jobs { All (IsOfCaller request.words.callers) jobs.items }
    ensures error { IfErr result (IsPlayError (HasPlayed J.MayAnswer request.entry.head.now request.entry.words jobs.items)) }
    ensures report { IfOk result (λ r. HasPlayed J.MayAnswer request.entry.head.now request.entry.words jobs.items (Ok r)) }
{
    let RunRequest { head, words } = request;
    let settings = run_settings(head, words);
    let rows = rows_of(alloc, &head.chain, jobs)?;
    let (bulkheads, passes) = make_bulkheads(alloc, &head.bulkheads)?;
    let batch = RunBatch {
        settings,
        bulkheads: bulkheads.as_slice(),
        passes,
        rows,
    };
    match runner.run(rt, alloc, batch) {
        Ok(report) => Ok(report),
        Err(error) => Err(run_error(error)),
    }
}
