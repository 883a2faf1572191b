//! Jobs that need something of their worker: each thread has a connection, and lends it to the jobs that it runs.

use resil_pools::{Answers, NoRecord, Sizes, WorkAt, WorkPool, Workers, work_while_with};
use std::sync::Wait;
use std::thread::Threads;

/// A connection to the backend, which counts the calls that it makes.
#[derive(Drop)]
struct Connection(u32);

/// Asks the backend for the price of an item.
#[derive(Drop)]
struct PriceOf(u32);

impl Answers for PriceOf {
    type Output = u32;
}

impl WorkAt<Connection> for PriceOf {
    fn run(self, connection: &mut Connection) -> u32 {
        connection.0 = connection.0.saturating_add(1);
        self.0.saturating_mul(2)
    }
}

/// Asks for a price on a pool of its own.
pub fn show<R: AllocGlobal + Print + Threads + Wait + Sync>(rt: &R) -> anyhow::Result<()> {
    let alloc = rt.alloc();
    let workers = Workers {
        contexts: Vec::from_array(alloc, [Connection(0), Connection(0)])?,
        own: Connection(0),
        keep_alive: 20,
    };
    let (prices, closer) = WorkPool::open(alloc, Sizes::new(1, 2, 8)?, NoRecord)?;
    let ended = work_while_with(rt, &prices, closer, workers, || {
        let (_id, price) = prices.submit(rt, alloc, PriceOf(7)).ok()?;
        price.wait(rt).ok()
    });
    println!(rt; "{:?}", ended.answer.ok().flatten())?;
    Ok(())
}
