//! Your own jobs that do nothing, with no answer, through a pool that keeps no record.

ghost use Rattle.resil_executor.specs.Seats.{IsOf};

use crate::pool::{KEEP_ALIVE, QUEUE};
use crate::round::Round;
use anyhow::anyhow;
use resil_executor::{Ended, Executor, ExecutorCloser, work_while};
use resil_rule::{NoRecord, Sizes};
use resil_task::by_hand::RunOnce;
use std::alloc::Global;
use std::sync::Wait;
use std::thread;
use std::thread::Threads;

/// A job that does nothing.
#[derive(Drop)]
struct Nothing;

impl RunOnce<()> for Nothing {
    type Output = ();

    fn run(self, _context: &mut ()) {}
}

// Submits this many jobs that do nothing.
fn submit_all<R: Wait>(rt: &R, pool: &Executor<Nothing>, works: u32) {
    let mut visitor = pool.visitor();
    for _ in 0..works {
        drop(pool.submit_job(rt, &mut visitor, Nothing));
    }
}

// Runs the jobs of the callers on an open pool, and returns how many were finished.
fn finished<R: Threads + Wait + Sync>(
    rt: &R,
    alloc: Global,
    pool: &Executor<Nothing>,
    closer: ExecutorCloser<Nothing>,
    round: Round,
) -> anyhow::Result<u64>
    requires mine { IsOf pool.now closer.seat }
{
    let each = round.count / round.callers.max(1);
    let Ended { answer, .. } = work_while(rt, pool, closer, KEEP_ALIVE, || {
        thread::map_indices(
            rt,
            alloc,
            round.callers as usize,
            &|_| submit_all(rt, pool, each),
        )
    });
    match answer {
        Ok(callers) => drop(callers?),
        Err(_) => return Err(anyhow!("no thread could be started")),
    }
    Ok(pool.numbers(rt).finished)
}

/// Runs the jobs of the callers, and returns how many were finished.
pub(crate) fn run<R: Threads + Wait + Sync>(
    rt: &R,
    alloc: Global,
    round: Round,
) -> anyhow::Result<u64> {
    let sizes = Sizes::new(round.workers, round.workers, QUEUE)?;
    let (pool, closer) = Executor::open(alloc, sizes, NoRecord)?;
    finished(rt, alloc, &pool, closer, round)
}
