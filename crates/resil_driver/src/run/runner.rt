//! Runners: they run the jobs of a `run`.
//!
//! A runner gets the settings of the pool, the bulkheads and the rows. What it may then return is its own meaning,
//! and its caller knows nothing else of it: so a report or an error that `run` passes on is one that a runner
//! returned for exactly these settings, bulkheads and rows. The runner over threads passes them to `run_jobs` as
//! they are, and compares the answers of the report with the bulkheads.

ghost use Rattle.std.specs.Prelude.{◌≡◌, ◌≢◌, ◌≤◌, All, IfErr, map};
ghost use Rattle.std.specs.Thread.{IsSync};
ghost use Rattle.resil_rule.specs.Limits.{AreLimits};
ghost use Rattle.resil_decor.specs.Passes.{sources_of};
ghost use Rattle.resil_workers.specs.Batch.Submit.{IsFrom};
ghost use Rattle.resil_driver.specs.Run.Play.{run_settings};

use crate::run::grants::may_have_answered;
use crate::run::head::RunHead;
use resil_bulkhead::{Bulkhead, Pass};
use resil_decor::Passes;
use resil_words::RunOptions;
use resil_workers::{JobRow, NoHook, Report, RunConfig, RunError, run_jobs};
use std::alloc::Global;
use std::sync::Wait;
use std::thread::Threads;

/// The settings of a run, besides its bulkheads and its rows.
#[derive(Clone, Copy)]
pub struct RunSettings {
    /// The sizes of the pool, its keep-alive, and how many callers there are.
    pub config: RunConfig,
    /// Whether all rows are submitted before a worker starts.
    pub hold: bool,
}

/// Returns the settings that a head and the words give.
pub(crate) fn run_settings(head: &RunHead, words: RunOptions) -> RunSettings
    ensures { result ≡ run_settings head.now words }
{
    RunSettings {
        config: RunConfig {
            limits: head.limits,
            keep_alive: head.keep_alive,
            callers: words.callers,
        },
        hold: words.hold,
    }
}

/// The jobs of a run, with the pool that they are submitted to and the bulkheads that they use.
#[derive(Drop)]
pub struct RunBatch<'a> {
    /// What the pool is opened with, and when its workers start.
    pub settings: RunSettings,
    /// The bulkheads that the jobs use, by their ids.
    pub bulkheads: &'a [Bulkhead],
    /// A pass of each of the bulkheads, in the same order.
    pub passes: Vec<Pass>,
    /// The jobs, each with the caller that submits it.
    pub rows: Vec<JobRow>,
}

/// Runs the jobs of a `run`.
pub trait JobRunner {
    ghost use Rattle.std.specs.Prelude.{List, Result};
    ghost use Rattle.resil_bulkhead.specs.Bulkhead.{BulkheadView};
    ghost use Rattle.resil_workers.specs.declared.batch.run.RunError.{RunError};
    ghost use Rattle.resil_pool.specs.declared.hold.JobRow.{JobRow};
    ghost use Rattle.resil_pool.specs.declared.draining.report.Report.{Report};
    ghost use Rattle.resil_driver.specs.declared.run.runner.RunSettings.{RunSettings};

    /// What a run with these settings, with these bulkheads by their ids and of these rows may return.
    ghost MayAnswer: { RunSettings → List BulkheadView → List JobRow → Result Report RunError → Type 0 };

    /// Returns the report of the rows, which callers numbered from 1 submit to a pool of the settings. Its jobs use
    /// the bulkheads; there is a pass of each of them. It may start threads of this runtime, and wait.
    ///
    /// # Errors
    ///
    /// `Memory`; `NoThread` if a thread can't be started; `Stranger` and `ReceiptsDiffer` if there is no report;
    /// `Stranger` also if a job was granted more permits of a bulkhead at once than the bulkhead has.
    fn run<R: Threads + Wait + Sync>(
        &self,
        rt: &R,
        alloc: Global,
        batch: RunBatch<'_>,
    ) -> Result<Report, RunError>
        requires shared { IsSync R.row }
        requires limits { AreLimits batch.settings.config.limits }
        requires callers { batch.settings.config.callers ≤ 64 }
        requires passes { sources_of batch.passes.items ≡ map (λ b. b.permits) batch.bulkheads.now }
        requires rows { All (IsFrom batch.settings.config.callers) batch.rows.items }
        ensures callers { IfErr result (λ error. error ≢ RunError.TooManyCallers) }
        ensures rows { IfErr result (λ error. error ≢ RunError.BadCaller) }
        ensures answer { MayAnswer batch.entry.settings batch.entry.bulkheads.now batch.entry.rows.items result };
}

/// Runs the jobs of a `run` on threads.
pub struct ThreadRunner;

impl JobRunner for ThreadRunner {
    ghost use Rattle.resil_driver.specs.Run.Play.{MayAnswerOnThreads};

    ghost MayAnswer = { MayAnswerOnThreads };

    fn run<R: Threads + Wait + Sync>(
        &self,
        rt: &R,
        alloc: Global,
        batch: RunBatch<'_>,
    ) -> Result<Report, RunError> {
        let RunBatch {
            settings: RunSettings { config, hold },
            bulkheads,
            passes,
            rows,
        } = batch;
        let mut passes = Passes::new(rt, bulkheads, passes);
        match run_jobs(rt, alloc, config, &mut passes, rows, &NoHook, hold) {
            Ok(report) if !may_have_answered(bulkheads, &report.results) => Err(RunError::Stranger),
            answer => answer,
        }
    }
}
