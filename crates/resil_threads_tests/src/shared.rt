//! What the tests have in common: jobs, permitters, runs of rows, and pools for your own jobs.
//!
//! Most of what tests do may end the process, by `passed` or `expect`, if it doesn't succeed: then a function that owns
//! something has one way out, and not one more for each call. In tests of refused growths, what allocates returns the refusal.

ghost use Rattle.std.specs.Prelude.{◌≡◌, [], Ok, IfOk};
ghost use Rattle.resil_executor.specs.Seats.{IsOf};

use resil_admission::{AdmitError, Limits, Verdict};
use resil_bulkhead::{Bulkhead, Pass};
use resil_decor::{Chain, DecorError, Job, Layer, Listed, Passes, Plan};
use resil_executor::{Executor, ExecutorCloser};
use resil_retry::{Outcome, RetryError, Script};
use resil_rule::{AllEvents, Record, Sizes, audit_by};
use resil_workers::{Hook, JobRow, NoHook, Report, RunConfig, RunError, run_jobs};
use std::alloc::{AllocError, Global};
use std::process::Abort;
use std::sync::Wait;
use std::thread::Threads;

/// The value of a call that has to succeed.
pub fn passed<T, E>(rt: &impl Abort, given: Result<T, E>) -> T
    ensures { given ≡ Ok result }
{
    match given {
        Ok(value) => value,
        Err(_refused) => panic!(rt; "a call was refused"),
    }
}

/// Asserts that something holds, and reports it if it doesn't. A call of this adds less to the proof of a test than an
/// assertion in the test.
pub fn assert_that(rt: &impl Abort, is: bool, wanted: &str) {
    assert!(rt; is, "wanted: {wanted}");
}

/// The result of a call that returns what it got together with an error. What came back is dropped.
pub fn answer<T, E: Drop, B: Drop>(given: Result<T, (E, B)>) -> Result<T, E> {
    match given {
        Ok(value) => Ok(value),
        Err((error, _)) => Err(error),
    }
}

/// A script of one call, which has this value.
fn script(alloc: Global, value: i64) -> Result<Script, RetryError> {
    Script::new(Vec::from_slice(alloc, &[Outcome::Value(value)])?)
}

/// Bulkheads as layers.
fn layers(alloc: Global, bulkheads: &[u16]) -> Result<Vec<Layer>, AllocError> {
    let mut layers = Vec::new(alloc);
    for id in bulkheads {
        layers.push(Layer::Bulkhead(*id))?;
    }
    Ok(layers)
}

/// A plan under these layers, with one call, which has this value.
fn plan_of(alloc: Global, layers: Vec<Layer>, value: i64) -> Result<Plan, DecorError> {
    let chain = answer(Chain::new(layers))?;
    match script(alloc, value) {
        Ok(script) => Ok(Plan::new(chain, script)),
        Err(_) => Err(DecorError::Memory),
    }
}

/// A plan under these bulkheads, with one call, which has this value.
pub fn plan(alloc: Global, bulkheads: &[u16], value: i64) -> Result<Plan, DecorError> {
    plan_of(alloc, layers(alloc, bulkheads)?, value)
}

/// A job of this plan.
pub fn job_of(alloc: Global, plan: Plan) -> Result<Job, DecorError> {
    answer(Job::new(alloc, plan))
}

/// A permitter that gives these answers.
pub fn listed(rt: &impl Abort, alloc: Global, answers: &[bool]) -> Listed {
    let answers = Vec::from_slice(alloc, answers).expect(rt, "room for answers");
    Listed::new(alloc, answers).expect(rt, "a permitter")
}

/// Sizes in their ranges.
pub fn limits(rt: &impl Abort, (core, max, queue): (u32, u32, u32)) -> Limits {
    Limits::new(core, max, queue).expect(rt, "sizes in their ranges")
}

/// The settings of a run on a pool of these sizes with this many callers.
pub fn config(rt: &impl Abort, sizes: (u32, u32, u32), callers: u16) -> RunConfig {
    RunConfig {
        limits: limits(rt, sizes),
        keep_alive: 20,
        callers,
    }
}

/// Adds a row of this caller under these bulkheads, with one call, which has this value.
pub fn push_row(
    alloc: Global,
    rows: &mut Vec<JobRow>,
    caller: u16,
    bulkheads: &[u16],
    value: i64,
) -> Result<(), DecorError> {
    let plan = plan(alloc, bulkheads, value)?;
    match rows.push(JobRow { caller, plan }) {
        Ok(()) => Ok(()),
        Err(_) => Err(DecorError::Memory),
    }
}

/// Rows with the settings of their pool.
#[derive(Drop)]
pub struct Batch {
    /// The pool's sizes and its callers.
    pub config: RunConfig,
    /// The rows.
    pub rows: Vec<JobRow>,
    /// Whether all are submitted before the first one is run.
    pub hold: bool,
}

/// Runs rows.
pub fn run_rows<R: Threads + Wait + Sync, H: Hook + Sync>(
    rt: &R,
    alloc: Global,
    passes: &mut Passes<R>,
    hook: &H,
    batch: Batch,
) -> Result<Report, RunError> {
    let Batch { config, rows, hold } = batch;
    run_jobs(rt, alloc, config, passes, rows, hook, hold)
}

/// Runs rows without bulkheads.
pub fn run<R: Threads + Wait + Sync>(
    rt: &R,
    alloc: Global,
    batch: Batch,
) -> Result<Report, RunError> {
    let mut nobody = Passes::new(rt, &[], Vec::new(alloc));
    run_rows(rt, alloc, &mut nobody, &NoHook, batch)
}

/// A row of each of this many callers, under these bulkheads, with one call, which has the value 7.
pub fn rows_of_seven(
    alloc: Global,
    callers: u16,
    bulkheads: &[u16],
) -> Result<Vec<JobRow>, DecorError> {
    let mut rows = Vec::new(alloc);
    for caller in 0..callers {
        push_row(alloc, &mut rows, caller + 1, bulkheads, 7)?;
    }
    Ok(rows)
}

/// The result of such rows on one worker.
fn run_sevens<R: Abort + Threads + Wait + Sync>(
    rt: &R,
    alloc: Global,
    passes: &mut Passes<R>,
    (callers, bulkheads, hold): (u16, &[u16], bool),
) -> Result<Report, RunError> {
    let config = config(rt, (1, 1, u32::from(callers)), callers);
    match rows_of_seven(alloc, callers, bulkheads) {
        Ok(rows) => run_rows(rt, alloc, passes, &NoHook, Batch { config, rows, hold }),
        Err(_) => Err(RunError::Memory),
    }
}

/// Asserts that the one permit of a bulkhead is free.
fn is_free(rt: &impl Abort, bulkhead: &Bulkhead, pass: &mut Pass)
    requires { pass.old.source ≡ bulkhead.now.permits }
    ensures { pass.new.source ≡ pass.old.source }
{
    assert_that(rt, bulkhead.available(pass) == 1, "a free permit");
}

/// The report of such rows if bulkhead 0 has one permit, made once more if it was out of memory or no thread could be
/// started. The permit is free after each run.
pub fn report_under_bulkhead<R: Abort + Threads + Wait + Sync>(
    rt: &R,
    alloc: Global,
    callers: u16,
    layers: &[u16],
    hold: bool,
) -> Result<Report, RunError> {
    let Ok(mut inside) = Vec::with_capacity(alloc, 1) else {
        return Err(RunError::Memory);
    };
    let Ok((bulkhead, mut pass)) = Bulkhead::new(alloc, "db", 1) else {
        return Err(RunError::Memory);
    };
    inside.push_reserved(bulkhead.split(&mut pass));
    let bulkheads = [bulkhead];
    let mut passes = Passes::new(rt, &bulkheads, inside);
    let ran = run_sevens(rt, alloc, &mut passes, (callers, layers, hold));
    is_free(rt, &bulkheads[0], &mut pass);
    match ran {
        Err(RunError::Memory | RunError::NoThread) => {
            let ran = run_sevens(rt, alloc, &mut passes, (callers, layers, hold));
            is_free(rt, &bulkheads[0], &mut pass);
            ran
        }
        ran => ran,
    }
}

/// A pool of these sizes, which keeps this record.
pub fn opened<W: Drop, H: Record>(
    alloc: Global,
    sizes: (u32, u32, u32),
    blank: H,
) -> Result<(Executor<W, H>, ExecutorCloser<W, H>), AdmitError>
    requires { H.IsRecordOf [] blank }
    ensures mine { IfOk result (λ r. IsOf r.0 r.1.seat) }
{
    let (core, max, queue) = sizes;
    Executor::open(alloc, Sizes::new(core, max, queue)?, blank)
}

/// Asserts that the history of a pool so far is legal.
pub fn is_legal<W: Drop, R: Abort + Wait>(
    rt: &R,
    alloc: Global,
    pool: &Executor<W, AllEvents>,
) -> Result<(), AdmitError> {
    let mut visitor = pool.visitor();
    let Ok(history) = pool.history(rt, alloc, &mut visitor) else {
        return Err(AdmitError::Memory);
    };
    match audit_by(alloc, &pool.limits(), &history) {
        Ok(verdict) => {
            assert_that(rt, verdict == Verdict::Legal, "a legal history");
            Ok(())
        }
        Err(_) => Err(AdmitError::Memory),
    }
}
