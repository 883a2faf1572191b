//! A pool for your own jobs: two threads work, and the program waits for an answer.

use resil_pools::{Answers, NoRecord, Sizes, Work, WorkPool, work_while};
use std::sync::Wait;
use std::thread::Threads;

/// Halves a number.
#[derive(Drop)]
struct HalfOf(u32);

impl Answers for HalfOf {
    type Output = u32;
}

impl Work for HalfOf {
    fn run(self) -> u32 {
        self.0 / 2
    }
}

/// Asks for a half on a pool of its own.
pub fn show<R: AllocGlobal + Print + Threads + Wait + Sync>(rt: &R) -> anyhow::Result<()> {
    let alloc = rt.alloc();
    let (pool, closer) = WorkPool::open(alloc, Sizes::new(1, 2, 8)?, NoRecord)?;
    let ended = work_while(rt, &pool, closer, 20, || {
        pool.submit(rt, alloc, HalfOf(14)).ok()?.1.wait(rt).ok()
    });
    println!(rt; "{:?}", ended.answer.ok().flatten())?;
    Ok(())
}
