//! How pools end: jobs that are cancelled, waits for what was accepted, and pools that were made smaller.

ghost use Rattle.resil_executor.specs.Seats.{IsOf};

use crate::shared::{assert_that, opened};
use resil_executor::by_hand::{ExecutorWorker, Look, Looks, Round};
use resil_executor::{Executor, ExecutorCloser, WorkPool};
use resil_rule::{AdmitError, NoRecord};
use resil_task::by_hand::{RunOnce, Task};
use resil_task::{Answers, Pending, Stop, Stoppable, Work};
use std::alloc::Global;
use std::process::Abort;
use std::sync::Wait;
use std::time::{Clock, Duration};

/// Returns its number.
#[derive(Drop)]
struct Echo(u32);

impl Answers for Echo {
    type Output = u32;
}

impl Work for Echo {
    fn run(self) -> u32 {
        self.0
    }
}

/// A job that can be cancelled, submitted.
fn submitted<R: Abort + Wait>(
    rt: &R,
    alloc: Global,
    pool: &WorkPool<Stoppable<Echo>>,
    number: u32,
    stop: &Stop,
) -> Pending<Stoppable<Echo>> {
    let stop = stop.share().expect(rt, "one more owner");
    let work = Stoppable::new(Echo(number), stop);
    let accepted = pool.submit(rt, alloc, work).ok();
    let (_id, pending) = accepted.expect(rt, "a work accepted");
    pending
}

/// Runs one job, cancels what is left, and ends the pool.
fn call_off_behind_one<R: Abort + Wait>(
    rt: &R,
    pool: &WorkPool<Stoppable<Echo>>,
    closer: ExecutorCloser<Task<Stoppable<Echo>>>,
    stop: &Stop,
)
    requires mine { IsOf pool.now closer.seat }
{
    let mut closer = closer;
    let mut worker = pool.hire(&mut closer);
    let round = pool.work_once(rt, &mut worker, &mut Looks::new(1), &mut ());
    assert_that(rt, round == Round::Ran, "the first work run");
    stop.call();
    drop(pool.end(rt, &mut closer, &mut ()));
}

#[test]
fn works_that_are_called_off_come_back(rt: HostRuntime) -> Result<(), AdmitError> {
    let alloc = rt.alloc();
    let (pool, closer) = opened(alloc, (1, 1, 8), NoRecord)?;
    let stop = Stop::new(alloc).expect(&rt, "what calls works off");
    let first = submitted(&rt, alloc, &pool, 1, &stop);
    let second = submitted(&rt, alloc, &pool, 2, &stop);
    call_off_behind_one(&rt, &pool, closer, &stop);
    assert_that(&rt, stop.is_called(), "called off");
    assert_that(
        &rt,
        matches!(first.wait(&rt), Ok(Ok(1))),
        "the first one's answer",
    );
    assert_that(
        &rt,
        matches!(second.wait(&rt), Ok(Err(Echo(2)))),
        "the second one back",
    );
    assert_that(&rt, pool.numbers(&rt).finished == 2, "both in the history");
    Ok(())
}

/// Does nothing.
#[derive(Drop)]
struct Nothing;

impl RunOnce<()> for Nothing {
    type Output = ();

    fn run(self, _context: &mut ()) {}
}

/// A pool of two workers and a queue, with three jobs.
fn with_three<R: Abort + Wait>(rt: &R, pool: &Executor<Nothing>) {
    for _ in 0..3 {
        let submitted = pool.submit_job(rt, &mut pool.visitor(), Nothing);
        assert_that(rt, submitted.is_ok(), "a work accepted");
    }
}

/// Whether a poll finds nothing.
fn finds_nothing<R: Wait>(
    rt: &R,
    pool: &Executor<Nothing>,
    worker: &mut ExecutorWorker<Nothing>,
) -> bool
    requires mine { IsOf pool.now worker.old.seat }
    ensures mine { IsOf pool.now worker.new.seat }
{
    matches!(pool.look(rt, worker, false), Look::Nothing)
}

/// Sets the sizes to 1 while both workers run: the first one that is done finds no job until the sizes are 2 again.
fn shrink_and_grow<R: Abort + Wait>(
    rt: &R,
    pool: &Executor<Nothing>,
    closer: ExecutorCloser<Nothing>,
)
    requires mine { IsOf pool.now closer.seat }
{
    let mut closer = closer;
    let mut one = pool.hire(&mut closer);
    let mut two = pool.hire(&mut closer);
    let Look::Found(first) = pool.look(rt, &mut one, false) else {
        return rt.abort();
    };
    let Look::Found(_second) = pool.look(rt, &mut two, false) else {
        return rt.abort();
    };
    let resized = pool.resize(rt, &mut closer, 1, 1).is_ok();
    assert_that(rt, resized, "sizes of 1");
    let ran = first.run(&mut ());
    pool.finish::<(), R>(rt, &mut one, ran);
    assert_that(rt, finds_nothing(rt, pool, &mut one), "one that holds back");
    let resized = pool.resize(rt, &mut closer, 2, 2).is_ok();
    assert_that(rt, resized, "sizes of 2");
    let found = matches!(pool.look(rt, &mut one, false), Look::Found(_));
    assert_that(rt, found, "the third work");
}

#[test]
fn a_smaller_pool_holds_back(rt: HostRuntime) -> Result<(), AdmitError> {
    let (pool, closer) = opened(rt.alloc(), (2, 2, 8), NoRecord)?;
    with_three(&rt, &pool);
    shrink_and_grow(&rt, &pool, closer);
    Ok(())
}

/// Whether all is finished within a millisecond.
fn is_finished<R: Clock + Wait>(rt: &R, pool: &Executor<Nothing>) -> bool {
    pool.join_for(rt, Duration::from_millis(1)).into_value()
}

/// Whether it is closed.
fn is_closed<R: Wait>(rt: &R, pool: &Executor<Nothing>) -> bool {
    let mut visitor = pool.visitor();
    pool.is_closed(rt, &mut visitor)
}

/// Ends the pool on this thread.
fn end<R: Wait>(rt: &R, pool: &Executor<Nothing>, closer: ExecutorCloser<Nothing>)
    requires mine { IsOf pool.now closer.seat }
{
    let mut closer = closer;
    drop(pool.end(rt, &mut closer, &mut ()));
}

#[test]
fn a_join_waits_for_what_was_accepted(rt: HostRuntime) -> Result<(), AdmitError> {
    let (pool, closer) = opened(rt.alloc(), (1, 1, 8), NoRecord)?;
    assert_that(&rt, is_finished(&rt, &pool), "nothing to wait for");
    with_three(&rt, &pool);
    assert_that(&rt, !is_finished(&rt, &pool), "three that nobody runs");
    assert_that(&rt, !is_closed(&rt, &pool), "an open pool");
    end(&rt, &pool, closer);
    assert_that(&rt, is_finished(&rt, &pool), "all finished");
    assert_that(&rt, is_closed(&rt, &pool), "a closed pool");
    Ok(())
}
