//! The workers of a batch, each on a thread of its own, with passes of its own.
//!
//! Room for the threads and for the workers' ends is made before the first thread starts. If a thread can't be started,
//! the pool is closed, so that the workers that were started leave.

ghost use Rattle.std.specs.Prelude.{◌≡◌, ◌≤◌, List, [], All, IfOk, OnOk, OnErr, true, length, vec_capacity};
ghost use mathlib.Core.List.{IsPrefix};
ghost use Rattle.resil_permit.specs.Passes.{PassView};
ghost use Rattle.resil_decor.specs.Passes.{AreSplitFrom, GaveAnswers};
ghost use Rattle.resil_rule.specs.History.{is_closed};
ghost use Rattle.resil_pool.specs.Lock.LoggedEvent.{events_in};
ghost use Rattle.resil_pool.specs.Worker.{HasRunJobs};
ghost use Rattle.resil_workers.specs.Batch.WorkerThreads.{AreReadyWorkers};

use crate::batch::error::BatchError;
use crate::batch::shared::Batch;
use resil_decor::Passes;
use resil_pool::{Closer, Hook, Pool, Worker, WorkerEnd};
use std::alloc::{AllocError, Global};
use std::sync::Wait;
use std::thread::{JoinHandle, Scope, Threads};

/// A worker, and the passes that it gives to its jobs.
#[derive(Drop)]
pub(crate) struct ReadyWorker<'a, R: Wait> {
    worker: Worker,
    passes: Passes<'a, R>,
}

/// The threads of the workers that were started, and room for the workers' ends.
#[derive(Drop)]
pub(crate) struct WorkerThreads {
    started: Vec<JoinHandle<WorkerEnd>>,
    ends: Vec<WorkerEnd>,
}

/// All workers of a pool before they start, and room for their threads.
#[derive(Drop)]
pub(crate) struct ReadyWorkers<'a, R: Wait> {
    pub(crate) each: Vec<ReadyWorker<'a, R>>,
    threads: WorkerThreads,
}

// Makes room for this many threads of workers, and for their ends.
fn room_for(alloc: Global, count: usize) -> Result<WorkerThreads, AllocError>
    ensures started { IfOk result (λ room. (room.started.items ≡ []) × (count ≤ vec_capacity room.started)) }
    ensures ends { IfOk result (λ room. (room.ends.items ≡ []) × (count ≤ vec_capacity room.ends)) }
{
    let started = Vec::with_capacity(alloc, count)?;
    let ends = Vec::with_capacity(alloc, count)?;
    Ok(WorkerThreads { started, ends })
}

// Gives each worker passes that are split from these, and makes room for its thread and its end.
pub(crate) fn prepare_workers<'a, R: Wait>(
    alloc: Global,
    pool: &Pool,
    workers: Vec<Worker>,
    passes: &mut Passes<'a, R>,
) -> Result<ReadyWorkers<'a, R>, BatchError>
    requires { All (λ w. w.source ≡ pool.now.source) workers.items }
    ensures passes { passes.new ≡ passes.old }
    ensures ready { IfOk result (AreReadyWorkers pool.now.source (length workers.items)) }
    ensures split { IfOk result (λ ready. All (λ one. AreSplitFrom passes.old one.passes) ready.each.items) }
{
    let threads = room_for(alloc, workers.len())?;
    let mut each = Vec::with_capacity(alloc, workers.len())?;
    for worker in workers {
        let Ok(passes) = passes.split(alloc) else {
            return Err(BatchError::Memory);
        };
        each.push_reserved(ReadyWorker { worker, passes });
    }
    Ok(ReadyWorkers { each, threads })
}

// Works until the pool is closed and nothing is left. Its jobs ask its own passes, and no others.
fn work<R: Wait, H: Hook>(rt: &R, pool: &Pool, ready: ReadyWorker<'_, R>, hook: &H) -> WorkerEnd
    requires { ready.worker.source ≡ pool.now.source }
    ensures given { (passes : List PassView) × HasRunJobs GaveAnswers ready.entry.passes passes ready.entry.worker.runs result.runs }
{
    let ReadyWorker { worker, mut passes } = ready;
    pool.work(rt, worker, &mut passes, hook)
}

// Starts a thread for each worker. If one can't be started, the pool is closed, that worker works on the calling thread
// until nothing is left, and the others aren't started.
pub(crate) fn start_workers<'s, 'a: 's, E: 's, R: Threads + Wait + Sync, H: Hook + Sync>(
    scope: &'s Scope<'s, E>,
    batch: &Batch<'s, R, H>,
    pool: &'s Pool,
    closer: &mut Closer,
    workers: ReadyWorkers<'a, R>,
) -> (WorkerThreads, Result<(), BatchError>)
    requires closer { closer.old.source ≡ pool.now.source }
    requires workers { AreReadyWorkers pool.now.source (length workers.each.items) workers }
    ensures closer { closer.new.source ≡ closer.old.source }
    ensures begins { IsPrefix closer.old.seen closer.new.seen }
    ensures closed { OnErr result.1 (is_closed (events_in closer.new.seen) ≡ true) }
    ensures room { (result.0.ends.items ≡ []) × (length result.0.started.items ≤ vec_capacity result.0.ends) }
    ensures number { OnOk result.1 (length result.0.started.items ≡ length workers.entry.each.items) }
{
    let rt = batch.rt;
    let hook = batch.hook;
    let ReadyWorkers { each, threads } = workers;
    let WorkerThreads { mut started, ends } = threads;
    for ready in each {
        match scope.spawn(
            move || -> WorkerEnd
                requires { ready.worker.source ≡ pool.now.source }
                ensures given { (passes : List PassView) × HasRunJobs GaveAnswers ready.entry.passes passes ready.entry.worker.runs result.runs }
            { work(rt, pool, ready, hook) },
        ) {
            Ok(thread) => started.push_reserved(thread),
            Err(refused) => {
                pool.close(rt, closer);
                drop((refused.value)());
                return (WorkerThreads { started, ends }, Err(BatchError::Thread));
            }
        }
    }
    (WorkerThreads { started, ends }, Ok(()))
}

// Waits for the threads of the workers that were started.
pub(crate) fn join_workers<R: Threads>(rt: &R, threads: WorkerThreads) -> Vec<WorkerEnd>
    requires room { (threads.ends.items ≡ []) × (length threads.started.items ≤ vec_capacity threads.ends) }
    ensures { length result.items ≡ length threads.started.items }
{
    let WorkerThreads { started, mut ends } = threads;
    for thread in started {
        ends.push_reserved(thread.join(rt));
    }
    ends
}
