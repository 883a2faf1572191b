//! The times of pairs of jobs on idle workers. The first job of a pair ends only once the second has begun, like one that calls
//! a slow backend, so a pair takes as long as it takes to wake both workers.
//!
//! Before each pair the caller waits for 0 to 20 microseconds, a different time each: meanwhile the workers go from searching to sleeping.

use std::alloc::Global;
use std::time::{Clock, Duration, Instant};

/// How many pairs are timed for a line `pairs`.
pub(crate) const PAIRS: u32 = 100;

// One more than the longest pause before a pair, in nanoseconds, and the step by which the next pause is longer, or else shorter.
const PAUSES: u64 = 20_001;

const STEP: u64 = 997;

/// The times of the pairs so far, in nanoseconds: each from before its first submission until its caller sees that both jobs
/// have begun.
#[derive(Drop)]
pub(crate) struct Times {
    nanos: Vec<u64>,
}

impl Times {
    /// No times yet.
    pub(crate) fn new(alloc: Global) -> Times {
        Times {
            nanos: Vec::new(alloc),
        }
    }

    /// Waits for the pause before the next pair, and returns when the pair starts.
    pub(crate) fn start<R: Clock>(&self, rt: &R) -> anyhow::Result<Instant> {
        let longest = Duration::from_nanos(self.nanos.len() as u64 % PAUSES * STEP % PAUSES);
        let start = Instant::now(rt)?;
        for _ in 0..u64::MAX {
            if start.elapsed(rt)? >= longest {
                break;
            }
            std::hint::spin_loop();
        }
        Ok(Instant::now(rt)?)
    }

    /// Adds the time of a pair that started at `start`.
    pub(crate) fn add<R: Clock>(&mut self, rt: &R, start: Instant) -> anyhow::Result<()> {
        let nanos = start.elapsed(rt)?.as_nanos();
        self.nanos.push(u64::try_from(nanos).unwrap_or(u64::MAX))?;
        Ok(())
    }

    /// Prints all times in a line.
    pub(crate) fn print<R: Print>(&self, rt: &R) -> anyhow::Result<()> {
        for nanos in &self.nanos {
            print!(rt; "{nanos} ")?;
        }
        println!(rt; "ns")?;
        Ok(())
    }
}
