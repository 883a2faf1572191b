//! Jobs that need something of their worker: those that submit to their own pool, and those that are lent a counter.

ghost use Rattle.resil_executor.specs.Seats.{IsOf};

use crate::shared::{assert_that, is_legal, opened};
use resil_executor::by_hand::{ExecutorWorker, Look};
use resil_executor::{Ended, Executor, ExecutorCloser, WorkPool, Workers, work_while_with};
use resil_rule::{AdmitError, AllEvents, NoRecord};
use resil_task::by_hand::{RunOnce, Task};
use resil_task::{Answers, WorkAt};
use std::alloc::Global;
use std::process::Abort;
use std::sync::Wait;
use std::sync::atomic::{AtomicU32, Ordering};
use std::thread::Threads;

/// Submits itself once more to its own pool, this many times.
#[derive(Drop)]
struct Again(u32);

/// The place in which jobs find their own pool.
#[derive(Drop)]
struct Own<'a, R> {
    rt: &'a R,
    pool: &'a Executor<Again, AllEvents>,
}

impl<'a, R: Wait> RunOnce<Own<'a, R>> for Again {
    type Output = ();

    fn run(self, context: &mut Own<'a, R>) {
        if self.0 > 0 {
            let pool = context.pool;
            drop(pool.submit_job(context.rt, &mut pool.visitor(), Again(self.0 - 1)));
        }
    }
}

/// Runs a job, and returns whether there was one.
fn run_one<R: Wait>(
    rt: &R,
    pool: &Executor<Again, AllEvents>,
    worker: &mut ExecutorWorker<Again, AllEvents>,
) -> bool
    requires mine { IsOf pool.now worker.old.seat }
    ensures mine { IsOf pool.now worker.new.seat }
{
    let mut own = Own { rt, pool };
    match pool.look(rt, worker, false) {
        Look::Found(picked) => {
            let ran = picked.run(&mut own);
            pool.finish::<Own<'_, R>, R>(rt, worker, ran);
            true
        }
        Look::Nothing | Look::Over => false,
    }
}

/// Submits the first of three works. Asserts that a worker runs them, and no more.
fn run_three<R: Abort + Wait>(
    rt: &R,
    pool: &Executor<Again, AllEvents>,
    closer: &mut ExecutorCloser<Again, AllEvents>,
)
    requires mine { IsOf pool.now closer.old.seat }
{
    let mut worker = pool.hire(closer);
    drop(pool.submit_job(rt, &mut pool.visitor(), Again(2)));
    assert_that(rt, run_one(rt, pool, &mut worker), "a first work");
    assert_that(rt, run_one(rt, pool, &mut worker), "a second work");
    assert_that(rt, run_one(rt, pool, &mut worker), "a third work");
    assert_that(rt, !run_one(rt, pool, &mut worker), "no fourth work");
}

#[test]
fn works_submit_to_their_own_pool(rt: HostRuntime) -> Result<(), AdmitError> {
    let alloc = rt.alloc();
    let (pool, mut closer) = opened(alloc, (1, 1, 8), AllEvents::new(alloc))?;
    run_three(&rt, &pool, &mut closer);
    is_legal(&rt, alloc, &pool)
}

/// Counts in its worker's context, and returns how many came before.
#[derive(Drop)]
struct Count;

impl Answers for Count {
    type Output = u32;
}

impl WorkAt<&AtomicU32> for Count {
    fn run(self, counter: &mut &AtomicU32) -> u32 {
        counter.fetch_add(1, Ordering::SeqCst)
    }
}

/// Submits jobs that count, while two threads lend them the same counter. Returns whether all were answered.
fn count_beside<R: Threads + Wait + Sync>(
    rt: &R,
    alloc: Global,
    pool: &WorkPool<Count>,
    closer: ExecutorCloser<Task<Count>>,
    counter: &AtomicU32,
) -> Result<bool, AdmitError>
    requires mine { IsOf pool.now closer.seat }
{
    let Ok(contexts) = Vec::from_array(alloc, [counter, counter]) else {
        return Err(AdmitError::Memory);
    };
    let workers = Workers {
        contexts,
        own: counter,
        keep_alive: 20,
    };
    let Ended { answer, .. } = work_while_with(
        rt,
        pool,
        closer,
        workers,
        || ask_counts(rt, alloc, pool, 200),
    );
    Ok(answer.unwrap_or(false))
}

/// Whether a job that counts is accepted and answered.
fn is_counted<R: Wait>(rt: &R, alloc: Global, pool: &WorkPool<Count>) -> bool {
    match pool.submit(rt, alloc, Count) {
        Ok((_id, before)) => before.wait(rt).is_ok(),
        Err(_) => false,
    }
}

/// Submits this many jobs that count, one after the other. Returns whether all were answered.
fn ask_counts<R: Wait>(rt: &R, alloc: Global, pool: &WorkPool<Count>, count: u32) -> bool {
    let mut all = true;
    for _ in 0..count {
        all = is_counted(rt, alloc, pool) && all;
    }
    all
}

#[test]
fn works_are_lent_the_contexts_of_their_threads(rt: HostRuntime) -> Result<(), AdmitError> {
    let counter = AtomicU32::new(0);
    let (pool, closer) = opened(rt.alloc(), (1, 2, 200), NoRecord)?;
    let all = count_beside(&rt, rt.alloc(), &pool, closer, &counter)?;
    assert_that(&rt, all, "200 works answered");
    let counted = counter.load(Ordering::SeqCst);
    assert_that(&rt, counted == 200, "each work run once");
    Ok(())
}
