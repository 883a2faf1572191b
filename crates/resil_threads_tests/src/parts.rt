//! A pool with all its parts: its owner may make each call, without a contract of its own.

ghost use Rattle.std.specs.Prelude.{◌≡◌, All};
ghost use Rattle.std.specs.Arc.{arc_value};

use crate::shared::{answer, job_of, limits, passed, plan};
use resil_decor::{Job, Passes, Permitter};
use resil_pool::close_held;
use resil_workers::{
    Caller, Closer, Hook, OpenError, Pool, Receipt, Report, ResizeError, SubmitError, Ticket,
    Worker, WorkerEnd, drain, open_pool,
};
use std::alloc::Global;
use std::process::Abort;
use std::sync::{Arc, Wait};

/// A pool with its parts, and with the ends of the workers that have left.
#[derive(Drop)]
pub struct Parts {
    /// The pool.
    pub pool: Arc<Pool>,
    /// Its closer.
    pub closer: Closer,
    /// Its callers.
    pub callers: Vec<Caller>,
    /// Its workers.
    pub workers: Vec<Worker>,
    /// The ends of its workers, with room for all.
    pub ends: Vec<WorkerEnd>,
    ghost closer_of_pool: { closer.source ≡ (arc_value pool).source },
    ghost callers_of_pool: { All (λ caller. caller.source ≡ (arc_value pool).source) callers.items },
    ghost workers_of_pool: { All (λ worker. worker.source ≡ (arc_value pool).source) workers.items },
}

impl Parts {
    /// A pool of these sizes with this many callers.
    pub fn open(
        rt: &impl Abort,
        alloc: Global,
        sizes: (u32, u32, u32),
        callers: u16,
    ) -> Result<Parts, OpenError> {
        let limits = limits(rt, sizes);
        let ends = Vec::with_capacity(alloc, limits.max() as usize)?;
        let (pool, closer, callers, workers) = open_pool(alloc, limits, 20, callers)?;
        let Ok(pool) = Arc::new(alloc, pool) else {
            return Err(OpenError::Memory);
        };
        Ok(Parts {
            pool,
            closer,
            callers,
            workers,
            ends,
        })
    }

    /// Submits a job by a caller, 0 for the first. A refused job comes back.
    pub fn submit<R: Abort + Wait>(
        &mut self,
        rt: &R,
        alloc: Global,
        caller: usize,
        job: Job,
    ) -> Result<Ticket, (SubmitError, Job)> {
        let caller = self.callers.get_mut(caller).expect(rt, "a caller");
        self.pool.submit(rt, alloc, caller, job)
    }

    /// The receipts of a caller.
    pub fn receipts(&self, caller: usize) -> &[Receipt] {
        match self.callers.get(caller) {
            Some(caller) => caller.receipts(),
            None => &[],
        }
    }

    /// Submits a job under these bulkheads, with one call, which has this value.
    pub fn submit_value<R: Abort + Wait>(
        &mut self,
        rt: &R,
        alloc: Global,
        caller: usize,
        bulkheads: &[u16],
        value: i64,
    ) {
        let job = passed(rt, job_of(alloc, passed(rt, plan(alloc, bulkheads, value))));
        passed(rt, answer(self.submit(rt, alloc, caller, job)));
    }

    /// Resizes the pool by its first caller.
    pub fn resize<R: Abort + Wait>(
        &mut self,
        rt: &R,
        core: u32,
        max: u32,
    ) -> Result<(), ResizeError> {
        let caller = self.callers.first_mut().expect(rt, "a caller");
        self.pool.resize(rt, caller, core, max)
    }

    /// Closes the pool.
    pub fn close<R: Wait>(&mut self, rt: &R) {
        self.pool.close(rt, &mut self.closer);
    }

    /// Closes the pool as one with rows, here none, that were submitted while it was held. Returns whether nothing was submitted.
    pub fn close_held<R: Wait>(&mut self, rt: &R) -> bool {
        close_held(rt, &self.pool, &mut self.closer, &[])
    }

    /// One more owner of the pool, and its last worker.
    pub fn worker(&mut self, rt: &impl Abort) -> (Arc<Pool>, Worker)
        ensures { result.1.source ≡ (arc_value result.0).source }
    {
        let pool = passed(rt, self.pool.clone());
        (pool, self.workers.pop().expect(rt, "a worker"))
    }

    /// The last worker works, and leaves.
    pub fn work<R: Abort + Wait, P: Permitter, H: Hook>(
        &mut self,
        rt: &R,
        permitter: &mut P,
        hook: &H,
    ) {
        let (pool, worker) = self.worker(rt);
        let end = pool.work(rt, worker, permitter, hook);
        passed(rt, self.ends.push(end));
    }

    /// The report of the pool, drained by this permitter: workers that didn't leave never worked. It doesn't allocate.
    pub fn drained_by<R: Abort + Wait, P: Permitter>(self, rt: &R, permitter: &mut P) -> Report {
        let Parts {
            pool,
            closer,
            callers,
            workers,
            mut ends,
        } = self;
        for worker in workers {
            passed(rt, ends.push(worker.unused()));
        }
        let pool = passed(rt, Arc::try_unwrap(pool));
        passed(rt, drain(rt, pool, closer, callers, ends, permitter))
    }

    /// The same without bulkheads.
    pub fn drained<R: Abort + Wait>(self, rt: &R, alloc: Global) -> Report {
        self.drained_by(rt, &mut Passes::new(rt, &[], Vec::new(alloc)))
    }
}
