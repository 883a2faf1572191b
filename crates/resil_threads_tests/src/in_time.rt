//! Workers that work at the same time, and that are woken: each of these tests passes only if nobody waits for the end of a sleep.

use crate::parts::Parts;
use crate::quiet::{Ended, work};
use crate::shared::{assert_that, opened, passed};
use resil_executor::{WorkPool, Workers, work_while, work_while_with};
use resil_rule::{AdmitError, NoRecord};
use resil_task::by_hand::{Plain, Replier, RunOnce, one_shot};
use resil_task::{Answers, Pending, WorkAt};
use std::alloc::Global;
use std::process::Abort;
use std::sync::atomic::Ordering::SeqCst;
use std::sync::atomic::{AtomicU32, AtomicU64};
use std::sync::{Arc, Mutex, Wait};
use std::thread;
use std::time::{Clock, Duration, Instant};

/// Rests for this many milliseconds.
#[derive(Drop)]
struct Rest(u64);

impl Answers for Rest {
    type Output = ();
}

impl<R: Clock> WorkAt<&R> for Rest {
    fn run(self, rt: &mut &R) {
        thread::sleep(*rt, Duration::from_millis(self.0));
    }
}

/// Ends once two of its kind have come, or after five seconds. It returns whether they have.
#[derive(Drop)]
pub(crate) struct Meeting(Arc<AtomicU32>);

impl Answers for Meeting {
    type Output = bool;
}

impl<R: Clock> WorkAt<&R> for Meeting {
    fn run(self, rt: &mut &R) -> bool {
        self.0.fetch_add(1, SeqCst);
        for _ in 0..5_000 {
            if self.0.load(SeqCst) >= 2 {
                return true;
            }
            thread::sleep(*rt, Duration::from_millis(1));
        }
        false
    }
}

/// A meeting, submitted.
pub(crate) fn submitted<R: Abort + Wait>(
    rt: &R,
    alloc: Global,
    pool: &WorkPool<Meeting>,
    came: &Arc<AtomicU32>,
) -> Pending<Meeting> {
    let meeting = Meeting(passed(rt, came.clone()));
    let accepted = pool.submit(rt, alloc, meeting).ok();
    let (_id, pending) = accepted.expect(rt, "a work accepted");
    pending
}

// Two jobs are accepted before the workers begin: each worker takes one, and leaves the other one to the other worker.
#[test]
fn works_that_wait_for_each_other_meet(rt: HostRuntime) -> Result<(), AdmitError> {
    let alloc = rt.alloc();
    for _ in 0..5 {
        let came = passed(&rt, Arc::new(alloc, AtomicU32::new(0)));
        let (pool, closer) = opened(alloc, (2, 2, 8), NoRecord)?;
        let one = submitted(&rt, alloc, &pool, &came);
        let two = submitted(&rt, alloc, &pool, &came);
        let workers = passed(&rt, Workers::alike(alloc, &rt, 2, 20));
        drop(work_while_with(&rt, &pool, closer, workers, || ()));
        assert_that(&rt, matches!(one.wait(&rt), Ok(true)), "one that met");
        assert_that(&rt, matches!(two.wait(&rt), Ok(true)), "two that met");
    }
    Ok(())
}

#[test]
fn a_join_lasts_as_long_as_the_work(rt: HostRuntime) -> Result<(), AdmitError> {
    let (pool, closer) = opened(rt.alloc(), (1, 1, 8), NoRecord)?;
    let workers = passed(&rt, Workers::alike(rt.alloc(), &rt, 1, 20));
    let ended = work_while_with(&rt, &pool, closer, workers, || {
        drop(pool.submit(&rt, rt.alloc(), Rest(20)));
        pool.join_for(&rt, Duration::from_secs(10)).into_value()
    });
    assert_that(&rt, matches!(ended.answer, Ok(true)), "a work that ended");
    Ok(())
}

/// Asserts that this many trips succeed, each after this many milliseconds of rest, and that at least a third of them take less than
/// this many: other threads may hold up the rest.
fn are_in_time<R: Abort + Clock, F: Fn() -> bool>(rt: &R, times: (u32, u64, u64), trip: F)
    requires { F.IsAlwaysCallable trip }
{
    let (trips, rest, longest) = times;
    let mut in_time: u32 = 0;
    for _ in 0..trips {
        thread::sleep(rt, Duration::from_millis(rest));
        let start = Instant::now(rt).expect(rt, "a clock");
        assert_that(rt, trip(), "what was waited for");
        let took = start.elapsed(rt).expect(rt, "a clock");
        in_time = in_time.saturating_add(u32::from(took < Duration::from_millis(longest)));
    }
    assert_that(rt, in_time >= trips / 3, "sleepers that are woken");
}

// After a rest of 33 ms a worker sleeps from about 31 to 63 ms, and would wake 30 ms late. A wait for an answer wakes after 50 ms.
const TRIPS: (u32, u64, u64) = (60, 33, 10);

#[test]
fn answers_come_in_time(rt: HostRuntime) -> Result<(), AdmitError> {
    let alloc = rt.alloc();
    let (pool, closer) = opened(alloc, (1, 1, 8), NoRecord)?;
    let workers = passed(&rt, Workers::alike(alloc, &rt, 1, 20));
    drop(work_while_with(&rt, &pool, closer, workers, || {
        are_in_time(&rt, TRIPS, || match pool.submit(&rt, alloc, Rest(0)) {
            Ok((_id, pending)) => pending.wait(&rt).is_ok(),
            Err(_) => false,
        });
        are_in_time(&rt, TRIPS, || {
            let longest = Duration::from_secs(10);
            pool.submit_within(&rt, alloc, Rest(0), longest).is_ok()
        });
    }));
    Ok(())
}

/// Replies.
#[derive(Drop)]
struct Reply(Replier<Plain<bool>>);

impl RunOnce<()> for Reply {
    type Output = ();

    fn run(self, _context: &mut ()) {
        self.0.reply(Plain(true));
    }
}

#[test]
fn replies_come_in_time(rt: HostRuntime) -> Result<(), AdmitError> {
    let alloc = rt.alloc();
    let (pool, closer) = opened::<Reply, NoRecord>(alloc, (1, 1, 8), NoRecord)?;
    drop(work_while(&rt, &pool, closer, 20, || {
        are_in_time(&rt, TRIPS, || {
            let (replier, reply) = passed(&rt, one_shot::<Plain<bool>>(alloc, &()));
            drop(pool.submit_job(&rt, &mut pool.visitor(), Reply(replier)));
            reply.wait(&rt).is_some()
        })
    }));
    Ok(())
}

// The submitting thread polls each millisecond whether its job has ended.
#[test]
fn jobs_begin_in_time(rt: HostRuntime) {
    let alloc = rt.alloc();
    let parts = Mutex::new(passed(&rt, Parts::open(&rt, alloc, (1, 1, 8), 1)));
    let ended = Ended(AtomicU64::new(0));
    let submitted = AtomicU64::new(0);
    let submit = || {
        are_in_time(&rt, TRIPS, || {
            parts.lock(&rt).submit_value(&rt, alloc, 0, &[], 1);
            ended.are(&rt, submitted.fetch_add(1, SeqCst).wrapping_add(1))
        });
        parts.lock(&rt).close(&rt);
    };
    thread::join(&rt, || work(&rt, alloc, &parts, &ended), submit);
    let report = parts.into_inner().drained(&rt, alloc);
    assert_that(&rt, report.results.len() == 60, "a result of each trip");
}

// A pool is closed after a rest of 100 ms, while its workers sleep from about 63 to 127.
#[test]
fn pools_end_in_time(rt: HostRuntime) {
    let alloc = rt.alloc();
    are_in_time(
        &rt,
        (12, 0, 118),
        || match opened::<Reply, NoRecord>(alloc, (2, 2, 8), NoRecord) {
            Ok((pool, closer)) => {
                let rest = || thread::sleep(&rt, Duration::from_millis(100));
                work_while(&rt, &pool, closer, 20, rest).answer.is_ok()
            }
            Err(_) => false,
        },
    );
}

// The same for a pool that is closed after its rows, here none, while its worker sleeps from about 63 to 127 ms.
#[test]
fn held_pools_end_in_time(rt: HostRuntime) {
    let alloc = rt.alloc();
    are_in_time(&rt, (12, 0, 118), || {
        let parts = Mutex::new(passed(&rt, Parts::open(&rt, alloc, (1, 1, 8), 1)));
        let ended = Ended(AtomicU64::new(0));
        let close = || {
            thread::sleep(&rt, Duration::from_millis(100));
            parts.lock(&rt).close_held(&rt)
        };
        let ((), in_order) = thread::join(&rt, || work(&rt, alloc, &parts, &ended), close);
        let report = parts.into_inner().drained(&rt, alloc);
        in_order && report.results.is_empty()
    });
}
