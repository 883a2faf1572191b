//! A service that asks two backends, each on a pool of its own: while it waits for the slow one, the fast one's answers come.
//! Each job asks its backend under a bulkhead, and again if the backend has no time; 0 means no answer.

use resil_calls::{Bulkhead, Call, Decorate, FromFn, NoPause, NoPermit, RetryPolicy};
use resil_pools::{
    AllEvents, Answers, Sizes, WorkAt, WorkPool, Workers, audit_by, work_while_with,
};
use std::alloc::Global;
use std::sync::Wait;
use std::thread::{Threads, sleep};
use std::time::{Clock, Duration};

/// Asks how many of an item there are. The backend has no time at first, and then answers after this many milliseconds.
#[derive(Drop)]
struct CountOf(u32, u64);

impl Answers for CountOf {
    type Output = u32;
}

/// What its worker lends it: the runtime, to sleep by, and the bulkhead of the dependency.
impl<R: Wait + Clock> WorkAt<(&R, &Bulkhead)> for CountOf {
    fn run(self, (rt, bulkhead): &mut (&R, &Bulkhead)) -> u32 {
        let CountOf(item, after) = self;
        let policy = RetryPolicy::defaults();
        let mut has_time = false;
        let ask = FromFn(|| {
            sleep(*rt, Duration::from_millis(after));
            let had_time = std::mem::replace(&mut has_time, true);
            had_time.then_some(item).ok_or(NoPermit::Full)
        });
        ask.inside(bulkhead, *rt)
            .retried(&policy, NoPause)
            .or_else(|_no_time| 0)
            .call()
    }
}

type Counts = WorkPool<CountOf, AllEvents>;

/// How many of an item there are, by the pool of a backend; 0 if the pool refuses.
fn count<R: Wait>(rt: &R, alloc: Global, pool: &Counts, item: u32) -> u32 {
    match pool.submit(rt, alloc, CountOf(item, 1)) {
        Ok((_id, count)) => count.wait(rt).unwrap_or(0),
        Err(_) => 0,
    }
}

/// Asks for a stock, on a pool of its own, and for two prices meanwhile.
fn ask_both<R: Threads + Wait + Clock + Sync>(
    rt: &R,
    alloc: Global,
    prices: &Counts,
) -> anyhow::Result<Option<(u32, u32)>> {
    let (bulkhead, _pass) = Bulkhead::new(alloc, "stock", 1)?;
    let workers = Workers::alike(alloc, (rt, &bulkhead), 1, 20)?;
    let (stock, closer) = Counts::open(alloc, Sizes::new(1, 1, 8)?, AllEvents::new(alloc))?;
    let ended = work_while_with(rt, &stock, closer, workers, || {
        let (_id, slow) = stock.submit(rt, alloc, CountOf(7, 50)).ok()?;
        let sum = count(rt, alloc, prices, 2).saturating_add(count(rt, alloc, prices, 4));
        Some((sum, slow.wait(rt).ok()?))
    });
    Ok(ended.answer.ok().flatten())
}

/// Asks both, and judges the history of the prices' pool.
pub fn show<R: AllocGlobal + Print + Threads + Wait + Clock + Sync>(rt: &R) -> anyhow::Result<()> {
    let alloc = rt.alloc();
    let (bulkhead, _pass) = Bulkhead::new(alloc, "prices", 2)?;
    let workers = Workers::alike(alloc, (rt, &bulkhead), 2, 20)?;
    let (prices, closer) = Counts::open(alloc, Sizes::new(1, 2, 8)?, AllEvents::new(alloc))?;
    let ask = || ask_both(rt, alloc, &prices);
    let ended = work_while_with(rt, &prices, closer, workers, ask);
    println!(rt; "{:?}", ended.answer.ok().transpose()?.flatten())?;
    let history = prices.history(rt, alloc, &mut prices.visitor())?;
    let verdict = audit_by(alloc, &prices.limits(), &history)?;
    println!(rt; "{} events: {verdict:?}", history.len())?;
    Ok(())
}
