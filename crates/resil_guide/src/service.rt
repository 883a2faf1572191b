//! A service that asks two backends, from four threads. The bulkheads come from a text, a call waits if its bulkhead is
//! full, failures are retried after waits that grow and are drawn at random, the time limit is two seconds, and the
//! fallback is 0. The outcomes of the calls are counted by name.
//!
//! The function that owns the bulkheads uses no `?` after them: that keeps the proof short.

use resil_calls::{
    Call, CallCounts, CallError, CallsText, Decorate, DecorateWithin, EveryError, FromFn, Interval,
    Jitter, Neighbours, Observe, RetryPolicy, Sleep, counts_by_name,
};
use std::sync::Wait;
use std::thread::{self, Threads};
use std::time::{Clock, Duration};

/// The backends: that of the prices gets at most 25 concurrent calls, the default, and that of the stock 2; a call waits 50
/// ms for a permit.
const NEIGHBOURS: &str = "
[permits]
small = 2
[[bulkhead]]
name = 'prices'
wait = 50
[[bulkhead]]
name = 'stock'
config = 'small'
wait = 50
";

/// What a backend answers: that of the prices answers 42; that of the stock is down.
fn answer_of(name: &str) -> Result<u32, CallError<&'static str>> {
    match name {
        "prices" => Ok(42),
        _ => Err(CallError::Failed("down")),
    }
}

/// What the threads share.
#[derive(Drop)]
struct Service<'a> {
    neighbours: &'a Neighbours,
    counts: &'a [CallCounts<'a>],
    backoff: Interval,
}

impl Service<'_> {
    /// Asks a backend up to three times, in at most two seconds. No backend has any other name.
    fn ask<R: Clock + Wait>(&self, rt: &R, name: &str) -> Option<u32> {
        let (bulkhead, wait) = self.neighbours.find(name)?;
        let counts = self.counts.iter().find(|counts| counts.name() == name)?;
        let policy = RetryPolicy {
            max_attempts: 3,
            backoff: self.backoff,
            retry_on: EveryError,
        };
        let pause = Jitter::new(Sleep::new(rt), 7);
        let mut chain = FromFn(|| answer_of(name))
            .inside_within(bulkhead, rt, wait)
            .counted(counts)
            .retried_within(&policy, rt, Duration::from_secs(2), pause)
            .or_else(|_error| 0);
        Some(chain.call())
    }

    /// Asks both backends twenty times, and adds their answers up.
    fn serve<R: Clock + Wait>(&self, rt: &R) -> u32 {
        let mut sum: u32 = 0;
        for _round in 0..20 {
            for name in ["prices", "stock"] {
                sum = sum.saturating_add(self.ask(rt, name).unwrap_or(0));
            }
        }
        sum
    }
}

/// Serves from four threads, and prints the sum of their answers, and the outcomes of the calls to the prices.
fn serve_all<R: AllocGlobal + Clock + Print + Sync + Threads + Wait>(
    rt: &R,
    neighbours: &Neighbours,
) -> anyhow::Result<()> {
    let alloc = rt.alloc();
    let counts = counts_by_name(alloc, neighbours.registry.bulkheads())?;
    let service = Service {
        neighbours,
        counts: &counts,
        backoff: Interval::exponential(1, 2, 1, 100)?,
    };
    let served = thread::map_indices(rt, alloc, 4, &|_| service.serve(rt))?;
    let sum = served
        .iter()
        .fold(0u32, |sum, some| sum.saturating_add(*some));
    println!(rt; "{sum} in all")?;
    print!(rt; "{}", CallsText(&counts[..counts.len().min(1)]))?;
    Ok(())
}

/// Makes the bulkheads of the text, and serves.
pub fn show<R: AllocGlobal + Clock + Print + Sync + Threads + Wait>(rt: &R) -> anyhow::Result<()> {
    let neighbours = Neighbours::from_toml(rt.alloc(), NEIGHBOURS)?;
    serve_all(rt, &neighbours)
}
