//! A pool that stays open: what an idle one costs, and how long a job takes to its start. It answers the lines up to `close`.

use crate::request::{Request, next_request};
use crate::started::Started;
use crate::tail::{PAIRS, Times};
use std::sync::Wait;
use std::time::Clock;

// How many jobs are submitted before their start is waited for, for a line `jobs`, and how often this is done.
const AHEAD: u64 = 1_000;

const PARTS: u64 = 100;

/// What an open pool is submitted to by.
pub(crate) trait Submit {
    /// Submits a job that counts as started once it runs, and ends once enough jobs have started.
    fn submit<R: Wait>(&mut self, rt: &R) -> anyhow::Result<()>;
}

// Submits this many jobs to a pool that has none, and waits for the last one to start.
fn start<P: Submit, R: Wait>(
    rt: &R,
    pool: &mut P,
    started: &Started,
    jobs: u64,
) -> anyhow::Result<()> {
    let all = started.count().saturating_add(jobs);
    for _ in 0..jobs {
        pool.submit(rt)?;
    }
    started.wait_for(rt, all);
    Ok(())
}

// The same for 100,000 jobs, some at a time.
fn start_by_parts<P: Submit, R: Wait>(
    rt: &R,
    pool: &mut P,
    started: &Started,
) -> anyhow::Result<()> {
    for _ in 0..PARTS {
        start(rt, pool, started, AHEAD)?;
    }
    Ok(())
}

// Runs two jobs many times. The first ends once the second has started. Each pair is timed.
fn time_pairs<P: Submit, R: Clock + Wait>(
    rt: &R,
    pool: &mut P,
    started: &Started,
    times: &mut Times,
) -> anyhow::Result<()> {
    for _ in 0..PAIRS {
        let begin = times.start(rt)?;
        started.hold_until(started.count().saturating_add(2));
        start(rt, pool, started, 2)?;
        started.hold_until(0);
        times.add(rt, begin)?;
    }
    Ok(())
}

/// Answers the requests up to the end.
pub(crate) fn answer<P: Submit, R: Input + Print + AllocGlobal + Clock + Wait>(
    rt: &R,
    pool: &mut P,
    started: &Started,
) -> anyhow::Result<()> {
    let mut times = Times::new(rt.alloc());
    println!(rt; "open")?;
    for _ in 0..u64::MAX {
        match next_request(rt)? {
            Request::Echo => {}
            Request::Job => start(rt, pool, started, 1)?,
            Request::Jobs => start_by_parts(rt, pool, started)?,
            Request::Pairs => time_pairs(rt, pool, started, &mut times)?,
            Request::Times => times.print(rt)?,
            Request::Close => break,
        }
        println!(rt; "done")?;
    }
    Ok(())
}
