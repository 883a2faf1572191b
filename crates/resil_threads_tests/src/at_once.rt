//! How many jobs run at once: never more than the maximum size, however many workers are hired.

ghost use Rattle.resil_executor.specs.Seats.{IsOf};

use crate::shared::{assert_that, opened};
use resil_executor::by_hand::ExecutorWorker;
use resil_executor::{Executor, ExecutorCloser};
use resil_rule::{AdmitError, NoRecord};
use resil_task::by_hand::RunOnce;
use std::process::Abort;
use std::sync::Wait;
use std::sync::atomic::{AtomicU32, Ordering};
use std::thread;
use std::thread::Threads;

/// Counts how many of its kind run at once, and the most that did.
#[derive(Drop)]
struct Inside<'a> {
    inside: &'a AtomicU32,
    most: &'a AtomicU32,
}

impl RunOnce<()> for Inside<'_> {
    type Output = ();

    fn run(self, _context: &mut ()) {
        let now = self.inside.fetch_add(1, Ordering::SeqCst).wrapping_add(1);
        let _ = self.most.fetch_max(now, Ordering::SeqCst);
        for _ in 0..20_000 {
            std::hint::spin_loop();
        }
        let _ = self.inside.fetch_sub(1, Ordering::SeqCst);
    }
}

/// Submits 200 jobs to a pool with room for them.
fn submit_all<'a, R: Abort + Wait>(
    rt: &R,
    pool: &Executor<Inside<'a>>,
    inside: &'a AtomicU32,
    most: &'a AtomicU32,
) {
    for _ in 0..200 {
        let submitted = pool.submit_job(rt, &mut pool.visitor(), Inside { inside, most });
        assert_that(rt, submitted.is_ok(), "a work accepted");
    }
}

/// Works until the pool is over.
fn work<'a, R: Wait>(rt: &R, pool: &Executor<Inside<'a>>, worker: ExecutorWorker<Inside<'a>>)
    requires mine { IsOf pool.now worker.seat }
{
    let mut worker = worker;
    pool.work(rt, &mut worker, &mut (), 20);
}

/// Two workers work, each on a thread.
fn work_by_two<'a, R: Threads + Wait + Sync>(
    rt: &R,
    pool: &Executor<Inside<'a>>,
    one: ExecutorWorker<Inside<'a>>,
    two: ExecutorWorker<Inside<'a>>,
)
    requires mine { IsOf pool.now one.seat × IsOf pool.now two.seat }
{
    thread::join(
        rt,
        move ||
            requires mine { IsOf pool.now one.seat }
        { work(rt, pool, one) },
        move ||
            requires mine { IsOf pool.now two.seat }
        { work(rt, pool, two) },
    );
}

/// Closes the pool, and has three workers run what it accepted.
fn run_by_three<'a, R: Threads + Wait + Sync>(
    rt: &R,
    pool: &Executor<Inside<'a>>,
    closer: ExecutorCloser<Inside<'a>>,
)
    requires mine { IsOf pool.now closer.seat }
{
    let mut closer = closer;
    let one = pool.hire(&mut closer);
    let two = pool.hire(&mut closer);
    thread::join(
        rt,
        move ||
            requires mine { IsOf pool.now one.seat × IsOf pool.now two.seat }
        { work_by_two(rt, pool, one, two) },
        move ||
            requires mine { IsOf pool.now closer.seat }
        {
            let mut closer = closer;
            drop(pool.end(rt, &mut closer, &mut ()));
        },
    );
}

#[test]
fn never_more_at_once_than_the_greatest_size(rt: HostRuntime) -> Result<(), AdmitError> {
    let inside = AtomicU32::new(0);
    let most = AtomicU32::new(0);
    let (pool, closer) = opened(rt.alloc(), (1, 1, 200), NoRecord)?;
    submit_all(&rt, &pool, &inside, &most);
    run_by_three(&rt, &pool, closer);
    let most = most.load(Ordering::SeqCst);
    assert_that(&rt, most == 1, "one at once");
    Ok(())
}
