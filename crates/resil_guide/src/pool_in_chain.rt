//! A pool in a chain: the pool runs a new job for each attempt, and 0 means no answer in time.

use resil_calls::{Call, Decorate, FromFn, NoPause, RetryPolicy};
use resil_pools::{Answers, NoRecord, Sizes, Work, WorkPool, work_while};
use std::sync::Wait;
use std::thread::Threads;
use std::time::{Clock, Duration};

/// Halves a number.
#[derive(Drop)]
struct HalfOf(u32);

impl Answers for HalfOf {
    type Output = u32;
}

impl Work for HalfOf {
    fn run(self) -> u32 {
        self.0 / 2
    }
}

/// A half by the pool, in three attempts. Each waits at most 2 s, and the result is 0 if none has an answer.
fn half_or_0<R: AllocGlobal + Clock + Wait>(rt: &R, pool: &WorkPool<HalfOf>) -> u32 {
    let longest = Duration::from_secs(2);
    FromFn(|| pool.submit_within(rt, rt.alloc(), HalfOf(14), longest))
        .retried(&RetryPolicy::defaults(), NoPause)
        .or_else(|_none| 0)
        .call()
}

/// Asks while threads work for the pool, and once more when it is closed.
pub fn show<R: AllocGlobal + Clock + Print + Threads + Wait + Sync>(rt: &R) -> anyhow::Result<()> {
    let (pool, closer) = WorkPool::open(rt.alloc(), Sizes::new(1, 2, 8)?, NoRecord)?;
    let ended = work_while(rt, &pool, closer, 20, || half_or_0(rt, &pool));
    println!(rt; "{:?}, then {}", ended.answer.ok(), half_or_0(rt, &pool))?;
    Ok(())
}
