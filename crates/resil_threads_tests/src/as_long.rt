//! Waits and idle workers that last as long as they should: each of these tests fails if one ends at once, and if it lasts ten times
//! as long, or forever.

use crate::in_time::{Meeting, submitted};
use crate::shared::{assert_that, opened, passed};
use resil_executor::{WorkPool, Workers, work_while_with};
use resil_rule::{AdmitError, NoRecord};
use resil_task::Pending;
use std::alloc::Global;
use std::process::Abort;
use std::sync::atomic::AtomicU32;
use std::sync::atomic::Ordering::SeqCst;
use std::sync::{Arc, Wait};
use std::thread;
use std::time::{Clock, Duration, Instant};

// What is waited for takes five seconds, or until it should end.
const LONGEST: u64 = 100;

// How often a wait is measured: other threads may hold up all but one.
const TRIALS: u32 = 4;

/// Whether a wait that began at `start` has ended by six times its time. Asserts that it has lasted that long.
fn has_ended_in_time<R: Abort + Clock>(rt: &R, start: Instant) -> bool {
    let took = start.elapsed(rt).expect(rt, "a clock");
    assert_that(
        rt,
        took >= Duration::from_millis(LONGEST),
        "a wait that lasts",
    );
    took < Duration::from_millis(6 * LONGEST)
}

/// Waits for an answer that doesn't come, as often as there are trials, and asserts that one of the waits ended in time.
fn wait_in_vain<R: Abort + Clock + Wait>(rt: &R, pending: Pending<Meeting>) -> Pending<Meeting> {
    let mut pending = pending;
    let mut in_time = false;
    for _ in 0..TRIALS {
        let start = Instant::now(rt).expect(rt, "a clock");
        let Err(back) = pending.wait_for(rt, Duration::from_millis(LONGEST)) else {
            return rt.abort();
        };
        pending = back;
        in_time |= has_ended_in_time(rt, start);
    }
    assert_that(rt, in_time, "a wait for an answer that ends");
    pending
}

/// Waits for a pool with a job that doesn't end, as often as there are trials, and asserts that one of the waits ended in time.
fn join_in_vain<R: Abort + Clock + Wait>(rt: &R, pool: &WorkPool<Meeting>) {
    let mut in_time = false;
    for _ in 0..TRIALS {
        let start = Instant::now(rt).expect(rt, "a clock");
        let joined = pool.join_for(rt, Duration::from_millis(LONGEST));
        assert_that(rt, !*joined, "a work that isn't finished");
        in_time |= has_ended_in_time(rt, start);
    }
    assert_that(rt, in_time, "a join that ends");
}

/// Waits for an answer and for the pool in vain, and then lets the job end.
fn wait_for_both<R: Abort + Clock + Wait>(
    rt: &R,
    alloc: Global,
    pool: &WorkPool<Meeting>,
    came: &Arc<AtomicU32>,
) {
    let pending = wait_in_vain(rt, submitted(rt, alloc, pool, came));
    join_in_vain(rt, pool);
    came.fetch_add(1, SeqCst);
    assert_that(
        rt,
        matches!(pending.wait(rt), Ok(true)),
        "an answer at the end",
    );
}

#[test]
fn waits_end_by_their_time(rt: HostRuntime) -> Result<(), AdmitError> {
    let alloc = rt.alloc();
    let came = passed(&rt, Arc::new(alloc, AtomicU32::new(0)));
    let (pool, closer) = opened(alloc, (1, 1, 8), NoRecord)?;
    let workers = passed(&rt, Workers::alike(alloc, &rt, 1, 20));
    let both = || wait_for_both(&rt, alloc, &pool, &came);
    drop(work_while_with(&rt, &pool, closer, workers, both));
    Ok(())
}

/// Waits until the pool has one worker, for at most ten thousand polls.
fn wait_for_one_worker<R: Clock + Wait>(rt: &R, pool: &WorkPool<Meeting>) {
    for _ in 0..10_000 {
        if pool.numbers(rt).workers < 2 {
            break;
        }
        thread::sleep(rt, Duration::from_millis(1));
    }
}

/// Three jobs, for a core worker, the queue and an extra worker, meet and end. The extra worker then polls twelve times in vain,
/// sleeping between its polls for 1, 2, 4 .. 64 ms and 64 ms each time from then on, 383 ms in all. The core worker stays.
fn let_one_end<R: Abort + Clock + Wait>(
    rt: &R,
    alloc: Global,
    pool: &WorkPool<Meeting>,
    came: &Arc<AtomicU32>,
) {
    let start = Instant::now(rt).expect(rt, "a clock");
    let one = submitted(rt, alloc, pool, came);
    let two = submitted(rt, alloc, pool, came);
    let three = submitted(rt, alloc, pool, came);
    for pending in [one, two, three] {
        assert_that(rt, matches!(pending.wait(rt), Ok(true)), "three that met");
    }
    wait_for_one_worker(rt, pool);
    let took = start.elapsed(rt).expect(rt, "a clock");
    assert_that(
        rt,
        took >= Duration::from_millis(200),
        "a worker that is kept alive",
    );
    assert_that(rt, took < Duration::from_secs(8), "a worker that ends");
    assert_that(
        rt,
        pool.numbers(rt).workers == 1,
        "a core worker that stays",
    );
}

#[test]
fn a_worker_above_the_core_size_ends_by_its_time(rt: HostRuntime) -> Result<(), AdmitError> {
    let alloc = rt.alloc();
    let came = passed(&rt, Arc::new(alloc, AtomicU32::new(0)));
    let (pool, closer) = opened(alloc, (1, 2, 1), NoRecord)?;
    let workers = passed(&rt, Workers::alike(alloc, &rt, 2, 12));
    let one = || let_one_end(&rt, alloc, &pool, &came);
    drop(work_while_with(&rt, &pool, closer, workers, one));
    Ok(())
}
