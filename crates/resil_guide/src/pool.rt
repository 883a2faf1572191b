//! A pool of two workers: two callers submit a job each, from threads of their own. Then the pool is
//! closed and drained, and its report is written.
//!
//! The function that owns the report uses no `?`: that keeps the proof short.

use resil_admission::Limits;
use resil_decor::{Chain, Passes, Plan};
use resil_retry::{Outcome, Script};
use resil_workers::{JobRow, NoHook, Report, RunConfig, run_jobs};
use std::alloc::Global;
use std::sync::Wait;
use std::thread::Threads;

/// A caller's submission: a job without layers, with a call that returns this value.
fn row(alloc: Global, caller: u16, value: i64) -> anyhow::Result<JobRow> {
    let chain = Chain::new(Vec::new(alloc)).map_err(|refused| refused.0)?;
    let script = Script::new(Vec::from_array(alloc, [Outcome::Value(value)])?)?;
    let plan = Plan::new(chain, script);
    Ok(JobRow { caller, plan })
}

/// Runs a job of each of two callers on a pool that starts two workers at once.
fn report<R: Threads + Wait + Sync>(rt: &R, alloc: Global) -> anyhow::Result<Report> {
    let config = RunConfig {
        limits: Limits::new(2, 2, 2)?,
        keep_alive: 20,
        callers: 2,
    };
    let rows = Vec::from_array(alloc, [row(alloc, 1, 7)?, row(alloc, 2, 7)?])?;
    let mut no_bulkheads = Passes::new(rt, &[], Vec::new(alloc));
    let report = run_jobs(rt, alloc, config, &mut no_bulkheads, rows, &NoHook, false)?;
    Ok(report)
}

/// Prints each job's outcome, and the replies to each caller.
fn print(rt: &impl Print, report: &Report) -> anyhow::Result<()> {
    for result in &report.results {
        println!(rt; "{:?}", result.run.outcome())?;
    }
    for (index, receipts) in report.receipts.iter().enumerate() {
        for receipt in receipts.iter() {
            println!(rt; "caller {}: {:?}", index + 1, receipt.reply)?;
        }
    }
    Ok(())
}

/// Runs the jobs, and prints their report.
pub fn show<R: AllocGlobal + Print + Threads + Wait + Sync>(rt: &R) -> anyhow::Result<()> {
    let report = report(rt, rt.alloc())?;
    print(rt, &report)
}
