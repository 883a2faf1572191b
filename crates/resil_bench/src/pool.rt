//! Jobs through a pool, from its opening to its report. Its queue has room for them all.

use crate::job::plan;
use crate::round::Round;
use anyhow::anyhow;
use resil_admission::Limits;
use resil_decor::Passes;
use resil_workers::{JobRow, NoHook, RunConfig, run_jobs};
use std::alloc::Global;
use std::sync::Wait;
use std::thread::Threads;

/// A worker asks to end after this many empty polls in a row.
pub(crate) const KEEP_ALIVE: u32 = 1000;

/// The capacity of the queue.
pub(crate) const QUEUE: u32 = 65_536;

// A row for each job, of the callers in turn.
fn rows_of(alloc: Global, callers: u16, jobs: u32) -> anyhow::Result<Vec<JobRow>> {
    let mut rows = Vec::new(alloc);
    let mut caller: u16 = 0;
    for _ in 0..jobs {
        caller = if caller < callers { caller + 1 } else { 1 };
        rows.push(JobRow {
            caller,
            plan: plan(alloc)?,
        })?;
    }
    Ok(rows)
}

/// Runs the jobs, and returns how many results the report has.
pub(crate) fn run<R: Threads + Wait + Sync>(
    rt: &R,
    alloc: Global,
    round: Round,
) -> anyhow::Result<u64> {
    let Ok(callers) = u16::try_from(round.callers) else {
        return Err(anyhow!("there are too many callers"));
    };
    let config = RunConfig {
        limits: Limits::new(round.workers, round.workers, QUEUE)?,
        keep_alive: KEEP_ALIVE,
        callers,
    };
    let rows = rows_of(alloc, callers, round.count)?;
    let mut nobody = Passes::new(rt, &[], Vec::new(alloc));
    match run_jobs(rt, alloc, config, &mut nobody, rows, &NoHook, false) {
        Ok(report) => Ok(report.results.len() as u64),
        Err(error) => Err(error.into()),
    }
}
