//! The work that is measured: pairs on permits and on a bare word, jobs of a pool, your own jobs, the rule alone, and a pool that is idle.
//!
//! Each line of standard input requests a round, and the line that answers it says that the round is over, with what it counted. `bench/run` writes
//! the lines, and measures the time and the processor time from outside; only a line `times` prints times.
//!
//! | Line | What is done |
//! |---|---|
//! | `permits THREADS PAIRS` | each thread takes and gives back a permit this often |
//! | `bare THREADS PAIRS` | the same by a bare loop over one word |
//! | `pool CALLERS WORKERS JOBS` | a pool of this many workers runs the jobs of the callers, none refused |
//! | `works CALLERS WORKERS WORKS` | a pool for your own jobs runs those of the callers, which do nothing |
//! | `answers CALLERS WORKERS WORKS` | the same, with an answer for each job, which is compared |
//! | `judged CALLERS WORKERS WORKS` | the same with a record of all events, which is judged at the end |
//! | `busy WORKERS JOBS` | the rule alone while all workers have a job: one more is submitted, a random one ends, and the one that waits is picked |
//! | `own WORKERS` | as `open`, with a pool for your own jobs; a line `jobs` is answered once 100,000 have started, a thousand at a time |
//! | `open WORKERS` | a pool is open until the line `close`; a line `job` is answered once its job has started, and a line `echo` at once; `pairs` times 100 pairs of jobs, and `times` prints all times so far |
#![tactic(auto)]

mod answers;
mod bare;
mod busy;
mod idle;
mod job;
mod open;
mod own;
mod permits;
mod pool;
mod request;
mod round;
mod started;
mod tail;
mod total;
mod works;

use anyhow::anyhow;
use round::{Kind, Round};
use std::sync::Wait;
use std::thread::Threads;
use std::time::Clock;

// The round that the next line requests, or none at the end of input.
fn next_round<R: Input>(rt: &R, line: &mut String) -> anyhow::Result<Option<Round>> {
    if rt.read_line(line)? == 0 {
        return Ok(None);
    }
    match Round::parse(line.as_str()) {
        Some(round) => Ok(Some(round)),
        None => Err(anyhow!("the line asks for no round")),
    }
}

// Does the work of a round, and returns what it counted.
fn counted<R: Input + Print + AllocGlobal + Clock + Threads + Wait + Sync>(
    rt: &R,
    round: Round,
) -> anyhow::Result<u64> {
    let alloc = rt.alloc();
    match round.kind {
        Kind::Permits => permits::run(rt, alloc, round),
        Kind::Bare => bare::run(rt, alloc, round),
        Kind::Pool => pool::run(rt, alloc, round),
        Kind::Works => works::run(rt, alloc, round),
        Kind::Answers => answers::run(rt, alloc, round),
        Kind::Judged => answers::run_judged(rt, alloc, round),
        Kind::Busy => busy::run(alloc, round),
        Kind::Own => own::run(rt, alloc, round.workers),
        Kind::Open => idle::run(rt, alloc, round.workers),
    }
}

fn main(rt: HostRuntime) -> anyhow::Result<()> {
    for _ in 0..u64::MAX {
        let mut line = String::new(rt.alloc());
        let next = next_round(&rt, &mut line);
        drop(line);
        let Some(round) = next? else { break };
        let count = counted(&rt, round)?;
        println!(rt; "{count} {}", round.kind.counts())?;
    }
    Ok(())
}
