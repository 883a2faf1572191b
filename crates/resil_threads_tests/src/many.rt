//! A pool of as many workers as a pool may have.

use crate::shared::{assert_that, opened, passed};
use resil_executor::{WorkPool, Workers, work_while_with};
use resil_rule::{AdmitError, NoRecord};
use resil_task::{Answers, Pending, WorkAt};
use std::alloc::Global;
use std::process::Abort;
use std::sync::atomic::AtomicU32;
use std::sync::atomic::Ordering::SeqCst;
use std::sync::{Arc, Wait};
use std::thread;
use std::time::{Clock, Duration};

/// The number of workers, and of jobs that wait for each other.
const MANY: u32 = 1_024;

/// A job that ends once as many of its kind have begun as there are workers, or after a minute. It answers whether they have.
#[derive(Drop)]
struct Crowd(Arc<AtomicU32>);

impl Answers for Crowd {
    type Output = bool;
}

impl<R: Clock> WorkAt<&R> for Crowd {
    fn run(self, rt: &mut &R) -> bool {
        self.0.fetch_add(1, SeqCst);
        for _ in 0..6_000 {
            if self.0.load(SeqCst) >= MANY {
                return true;
            }
            thread::sleep(*rt, Duration::from_millis(10));
        }
        false
    }
}

/// Submits as many jobs as there are workers.
fn submitted<R: Abort + Wait>(
    rt: &R,
    alloc: Global,
    pool: &WorkPool<Crowd>,
    came: &Arc<AtomicU32>,
) -> Vec<Pending<Crowd>> {
    let mut all = Vec::new(alloc);
    for _ in 0..MANY {
        let job = Crowd(passed(rt, came.clone()));
        let accepted = pool.submit(rt, alloc, job).ok();
        let (_id, pending) = accepted.expect(rt, "a job accepted");
        passed(rt, all.push(pending));
    }
    all
}

#[test]
fn jobs_of_1024_workers_wait_for_each_other(rt: HostRuntime) -> Result<(), AdmitError> {
    let alloc = rt.alloc();
    let came = passed(&rt, Arc::new(alloc, AtomicU32::new(0)));
    let (pool, closer) = opened(alloc, (MANY, MANY, 8), NoRecord)?;
    let all = submitted(&rt, alloc, &pool, &came);
    let workers = passed(&rt, Workers::alike(alloc, &rt, MANY, 20));
    drop(work_while_with(&rt, &pool, closer, workers, || ()));
    for pending in all {
        let met = matches!(pending.wait(&rt), Ok(true));
        assert_that(&rt, met, "a job that met all others");
    }
    Ok(())
}
