//! A pool at rest: its sleeping workers are woken, and nothing is lost if they sleep and wake again and again.

use crate::parts::Parts;
use crate::render::is_history;
use crate::shared::{assert_that, passed};
use resil_admission::Id;
use resil_decor::Passes;
use resil_workers::Hook;
use std::alloc::Global;
use std::cell::Cell;
use std::process::Abort;
use std::sync::atomic::AtomicU64;
use std::sync::atomic::Ordering::SeqCst;
use std::sync::{Mutex, Wait};
use std::thread;
use std::thread::Threads;
use std::time::{Clock, Duration};

/// How often the calling thread polls whether all jobs have ended, a millisecond apart.
const LOOKS: u32 = 10_000;

/// Counts the jobs that have ended.
#[derive(Drop)]
pub struct Ended(pub AtomicU64);

impl Hook for Ended {
    fn before(&self, _id: Id) {}

    fn after(&self, _id: Id) {
        self.0.fetch_add(1, SeqCst);
    }
}

impl Ended {
    /// Whether this many have ended by the last poll.
    pub fn are<R: Clock>(&self, rt: &R, jobs: u64) -> bool {
        for _ in 0..LOOKS {
            if self.0.load(SeqCst) >= jobs {
                return true;
            }
            thread::sleep(rt, Duration::from_millis(1));
        }
        false
    }
}

/// What one thread does while the workers work: it rests, and then submits two jobs in each round, with a rest between
/// them. Rests are in milliseconds.
#[derive(Clone, Copy)]
struct Rounds {
    first_rest: u64,
    count: u64,
    rest: u64,
}

/// Does the rounds.
fn submit_all<R: Abort + Clock + Wait>(
    rt: &R,
    alloc: Global,
    parts: &Mutex<Parts>,
    rounds: Rounds,
) {
    thread::sleep(rt, Duration::from_millis(rounds.first_rest));
    for _ in 0..rounds.count {
        parts.lock(rt).submit_value(rt, alloc, 0, &[], 1);
        thread::sleep(rt, Duration::from_millis(rounds.rest));
        parts.lock(rt).submit_value(rt, alloc, 0, &[], 1);
    }
}

/// Does the rounds, waits for the jobs to end, and closes the pool. Asserts that all have ended by the last poll.
fn do_rounds<R: Abort + Clock + Wait>(
    rt: &R,
    alloc: Global,
    parts: &Mutex<Parts>,
    ended: &Ended,
    rounds: Rounds,
) {
    submit_all(rt, alloc, parts, rounds);
    let all_ended = ended.are(rt, rounds.count.saturating_mul(2));
    parts.lock(rt).close(rt);
    assert_that(rt, all_ended, "jobs that have ended");
}

/// A worker works until the pool is closed and no job is left.
pub fn work<R: Abort + Wait, H: Hook>(rt: &R, alloc: Global, parts: &Mutex<Parts>, hook: &H) {
    let (pool, worker) = parts.lock(rt).worker(rt);
    let mut nobody = Passes::new(rt, &[], Vec::new(alloc));
    let end = pool.work(rt, worker, &mut nobody, hook);
    passed(rt, parts.lock(rt).ends.push(end));
}

/// How many results there are of rounds with this many workers, each on a thread of its own besides that of the rounds.
fn result_count<R: Abort + Clock + Threads + Wait + Sync>(
    rt: &R,
    alloc: Global,
    workers: u32,
    rounds: Rounds,
) -> usize {
    let parts = Mutex::new(passed(rt, Parts::open(rt, alloc, (workers, workers, 65_536), 1)));
    let ended = Ended(AtomicU64::new(0));
    let count = (workers as usize).saturating_add(1);
    let worked = thread::map_indices(
        rt,
        alloc,
        count,
        &|place| {
            if place == 0 {
                do_rounds(rt, alloc, &parts, &ended, rounds);
            } else {
                work(rt, alloc, &parts, &ended);
            }
        },
    );
    passed(rt, worked);
    parts.into_inner().drained(rt, alloc).results.len()
}

// All workers sleep when the first job comes, or when the pool is closed.
#[test]
fn submissions_and_closing_after_a_rest(rt: HostRuntime) {
    for count in 0..2u64 {
        let rounds = Rounds {
            first_rest: 200,
            count,
            rest: 200,
        };
        let results = result_count(&rt, rt.alloc(), 8, rounds);
        assert_that(
            &rt,
            results as u64 == 2 * count,
            "two results of each round",
        );
    }
}

// A thousand rounds in all, of one to eight workers.
#[test]
fn rounds_with_rests(rt: HostRuntime) {
    let rounds = Rounds {
        first_rest: 1,
        count: 125,
        rest: 1,
    };
    for workers in 1..9 {
        let results = result_count(&rt, rt.alloc(), workers, rounds);
        assert_that(&rt, results == 250, "two results of each round");
    }
}

/// Submits a job after the first one, and closes the pool after the second.
#[derive(Drop)]
struct Following<'a, R: Abort + Wait> {
    rt: &'a R,
    alloc: Global,
    parts: &'a Mutex<Parts>,
    is_first: Cell<bool>,
}

impl<'a, R: Abort + Wait> Hook for Following<'a, R> {
    fn before(&self, _id: Id) {}

    fn after(&self, _id: Id) {
        let mut parts = self.parts.lock(self.rt);
        if self.is_first.replace(false) {
            parts.submit_value(self.rt, self.alloc, 0, &[], 1);
        } else {
            parts.close(self.rt);
        }
    }
}

// What a hook submits after a job comes after the job's finish.
#[test]
fn job_submitted_by_a_hook(rt: HostRuntime) {
    let alloc = rt.alloc();
    let mut parts = passed(&rt, Parts::open(&rt, alloc, (1, 1, 1), 1));
    parts.submit_value(&rt, alloc, 0, &[], 1);
    let parts = Mutex::new(parts);
    let hook = Following {
        rt: &rt,
        alloc,
        parts: &parts,
        is_first: Cell::new(true),
    };
    work(&rt, alloc, &parts, &hook);
    let report = parts.into_inner().drained(&rt, alloc);
    let history = "Core 1-1, finish 1-1, Queued 1-2, take 1-2, finish 1-2, close, idle-end";
    is_history(&rt, alloc, &report, history);
}
