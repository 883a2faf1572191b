//! Pairs of taking and giving back a permit, by threads that share as many permits as there are threads.

ghost use Rattle.std.specs.Prelude.{◌≡◌, ◌≤◌, All, IfOk};

use crate::round::Round;
use crate::total::total;
use resil_permit::{Acquire, Pass, Permits};
use std::alloc::{AllocError, Global};
use std::sync::Wait;
use std::thread;
use std::thread::Threads;

// This many pairs by one thread. Returns how often a permit was taken.
fn pairs_of<R: Wait>(rt: &R, permits: &Permits, mut pass: Pass, pairs: u32) -> u64
    requires { pass.source ≡ permits.now }
    ensures { result ≤ pairs }
{
    let mut taken: u64 = 0;
    for _ in 0..pairs {
        if let Acquire::Taken = permits.try_acquire(rt, &mut pass) {
            permits.release(&mut pass);
            taken += 1;
        }
    }
    taken
}

// A pass for each thread, split from the first.
fn passes_of(
    alloc: Global,
    permits: &Permits,
    first: &mut Pass,
    threads: u32,
) -> anyhow::Result<Vec<Pass>>
    requires { first.old.source ≡ permits.now }
    ensures { IfOk result (λ passes. All (λ pass. pass.source ≡ permits.now) passes.items) }
{
    let mut passes = Vec::new(alloc);
    for _ in 0..threads {
        passes.push(permits.split(first))?;
    }
    Ok(passes)
}

// This many pairs by each of the threads that have these passes. Returns how often a permit was taken.
fn pairs_of_all<R: Threads + Wait + Sync>(
    rt: &R,
    permits: &Permits,
    passes: Vec<Pass>,
    pairs: u32,
) -> Result<u64, AllocError>
    requires { All (λ pass. pass.source ≡ permits.now) passes.items }
{
    let taken = thread::map_vec(
        rt,
        passes,
        &|pass: Pass| -> u64
            requires { pass.source ≡ permits.now }
        { pairs_of(rt, permits, pass, pairs) },
    )?;
    Ok(total(taken.as_slice()))
}

/// Has each of this many threads do this many pairs, and returns how often a permit was taken.
pub(crate) fn run<R: Threads + Wait + Sync>(
    rt: &R,
    alloc: Global,
    round: Round,
) -> anyhow::Result<u64> {
    let (permits, mut first) = Permits::new(alloc, round.callers)?;
    let passes = passes_of(alloc, &permits, &mut first, round.callers)?;
    Ok(pairs_of_all(rt, &permits, passes, round.count)?)
}
