//! A pool of jobs that stays open.

ghost use Rattle.std.specs.Prelude.{◌≡◌, All, IfOk};

use crate::job::plan;
use crate::open::{Submit, answer};
use crate::pool::{KEEP_ALIVE, QUEUE};
use crate::started::Started;
use anyhow::anyhow;
use resil_admission::{Id, Limits};
use resil_decor::{Job, Passes};
use resil_workers::{Caller, Closer, Hook, Pool, Worker, WorkerEnd, open_pool};
use std::alloc::{AllocError, Global};
use std::sync::Wait;
use std::thread;
use std::thread::Threads;
use std::time::Clock;

impl Hook for Started {
    fn before(&self, _id: Id) {
        self.start();
    }

    fn after(&self, _id: Id) {}
}

// Submits to a pool of jobs.
#[derive(Drop)]
struct Submitter<'a> {
    alloc: Global,
    pool: &'a Pool,
    caller: Caller,
    ghost own: { caller.source ≡ pool.now.source },
}

impl Submit for Submitter<'_> {
    fn submit<R: Wait>(&mut self, rt: &R) -> anyhow::Result<()> {
        let job = Job::new(self.alloc, plan(self.alloc)?).map_err(|refused| refused.0)?;
        let submitted = self.pool.submit(rt, self.alloc, &mut self.caller, job);
        submitted.map_err(|refused| refused.0)?;
        Ok(())
    }
}

// What the calling thread does while the workers work: it answers the lines, and closes the pool.
fn serve<R: Input + Print + AllocGlobal + Clock + Wait>(
    rt: &R,
    pool: &Pool,
    closer: &mut Closer,
    caller: Caller,
    started: &Started,
) -> anyhow::Result<()>
    requires closer { closer.old.source ≡ pool.now.source }
    requires caller { caller.source ≡ pool.now.source }
{
    let alloc = rt.alloc();
    let mut submitter = Submitter {
        alloc,
        pool,
        caller,
    };
    let answered = answer(rt, &mut submitter, started);
    pool.close(rt, closer);
    answered
}

// Works until the pool is closed and no job is left.
fn work<R: Wait>(rt: &R, alloc: Global, pool: &Pool, worker: Worker, started: &Started) -> WorkerEnd
    requires { worker.source ≡ pool.now.source }
{
    let mut nobody = Passes::new(rt, &[], Vec::new(alloc));
    pool.work(rt, worker, &mut nobody, started)
}

// All workers work, each on a thread of its own.
fn work_all<R: Threads + Wait + Sync>(
    rt: &R,
    alloc: Global,
    pool: &Pool,
    workers: Vec<Worker>,
    started: &Started,
) -> Result<Vec<WorkerEnd>, AllocError>
    requires { All (λ worker. worker.source ≡ pool.now.source) workers.items }
{
    thread::map_vec(
        rt,
        workers,
        &|worker: Worker| -> WorkerEnd
            requires { worker.source ≡ pool.now.source }
        { work(rt, alloc, pool, worker, started) },
    )
}

// A pool of this many workers, with its one caller.
fn opened(alloc: Global, workers: u32) -> anyhow::Result<(Pool, (Closer, Caller, Vec<Worker>))>
    ensures closer { IfOk result (λ r. r.1.0.source ≡ r.0.source) }
    ensures caller { IfOk result (λ r. r.1.1.source ≡ r.0.source) }
    ensures workers { IfOk result (λ r. All (λ worker. worker.source ≡ r.0.source) r.1.2.items) }
{
    let limits = Limits::new(workers, workers, QUEUE)?;
    let (pool, closer, mut callers, workers) = open_pool(alloc, limits, KEEP_ALIVE, 1)?;
    match callers.pop() {
        Some(caller) => Ok((pool, (closer, caller, workers))),
        None => Err(anyhow!("there is one caller")),
    }
}

// All workers work while the calling thread serves.
fn serve_beside_workers<R: Input + Print + AllocGlobal + Clock + Threads + Wait + Sync>(
    rt: &R,
    alloc: Global,
    pool: &Pool,
    parts: (Closer, Caller, Vec<Worker>),
    started: &Started,
) -> anyhow::Result<()>
    requires closer { parts.0.source ≡ pool.now.source }
    requires caller { parts.1.source ≡ pool.now.source }
    requires workers { All (λ worker. worker.source ≡ pool.now.source) parts.2.items }
{
    let (mut closer, caller, workers) = parts;
    let (ends, answered) = thread::join(
        rt,
        move || -> Result<Vec<WorkerEnd>, AllocError>
            requires { All (λ worker. worker.source ≡ pool.now.source) workers.items }
        { work_all(rt, alloc, pool, workers, started) },
        move || -> anyhow::Result<()>
            requires closer { closer.source ≡ pool.now.source }
            requires caller { caller.source ≡ pool.now.source }
        { serve(rt, pool, &mut closer, caller, started) },
    );
    drop(ends);
    answered
}

/// Opens a pool of this many workers, answers the lines up to `close` while they work, and returns how many jobs have started.
pub(crate) fn run<R: Input + Print + AllocGlobal + Clock + Threads + Wait + Sync>(
    rt: &R,
    alloc: Global,
    workers: u32,
) -> anyhow::Result<u64> {
    let (pool, parts) = opened(alloc, workers)?;
    let started = Started::new();
    match serve_beside_workers(rt, alloc, &pool, parts, &started) {
        Ok(()) => Ok(started.count()),
        Err(error) => Err(error),
    }
}
