//! A pool for your own jobs that stays open.

ghost use Rattle.resil_executor.specs.Seats.{IsOf};

use crate::open::{Submit, answer};
use crate::pool::{KEEP_ALIVE, QUEUE};
use crate::started::Started;
use anyhow::anyhow;
use resil_executor::by_hand::Visitor;
use resil_executor::{Ended, Executor, ExecutorCloser, work_while};
use resil_rule::{NoRecord, Sizes};
use resil_task::by_hand::RunOnce;
use std::alloc::Global;
use std::sync::Wait;
use std::thread::Threads;
use std::time::Clock;

/// A job that counts itself as started, and ends once enough jobs have started.
#[derive(Drop)]
struct Tick<'a>(&'a Started);

impl RunOnce<()> for Tick<'_> {
    type Output = ();

    fn run(self, _context: &mut ()) {
        self.0.start();
    }
}

// Submits to a pool of such jobs.
#[derive(Drop)]
struct Submitter<'v, 'a> {
    pool: &'v Executor<Tick<'a>>,
    visitor: Visitor<Tick<'a>>,
    started: &'a Started,
    ghost mine: { IsOf pool.now visitor.seat },
}

impl Submit for Submitter<'_, '_> {
    fn submit<R: Wait>(&mut self, rt: &R) -> anyhow::Result<()> {
        match self
            .pool
            .submit_job(rt, &mut self.visitor, Tick(self.started))
        {
            Ok(_) => Ok(()),
            Err(_) => Err(anyhow!("a work was refused")),
        }
    }
}

// Answers the requests while the workers of an open pool work.
fn serve<'a, R: Input + Print + AllocGlobal + Clock + Threads + Wait + Sync>(
    rt: &R,
    pool: &Executor<Tick<'a>>,
    closer: ExecutorCloser<Tick<'a>>,
    started: &'a Started,
) -> anyhow::Result<()>
    requires mine { IsOf pool.now closer.seat }
{
    let Ended { answer, .. } = work_while(rt, pool, closer, KEEP_ALIVE, || {
        let visitor = pool.visitor();
        let mut submitter = Submitter {
            pool,
            visitor,
            started,
        };
        answer(rt, &mut submitter, started)
    });
    match answer {
        Ok(answered) => answered,
        Err(_) => Err(anyhow!("no thread could be started")),
    }
}

/// Opens a pool of this many workers, answers the lines up to `close` while they work, and returns how many jobs have started.
pub(crate) fn run<R: Input + Print + AllocGlobal + Clock + Threads + Wait + Sync>(
    rt: &R,
    alloc: Global,
    workers: u32,
) -> anyhow::Result<u64> {
    let started = Started::new();
    let sizes = Sizes::new(workers, workers, QUEUE)?;
    let (pool, closer) = Executor::open(alloc, sizes, NoRecord)?;
    match serve(rt, &pool, closer, &started) {
        Ok(()) => Ok(started.count()),
        Err(error) => Err(error),
    }
}
