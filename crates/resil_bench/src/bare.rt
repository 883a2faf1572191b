//! The same pairs by a bare loop of load, exchange and add on one word, with nothing proved of it.

ghost use Rattle.std.specs.Prelude.{◌≤◌};

use crate::round::Round;
use crate::total::total;
use std::alloc::Global;
use std::sync::Wait;
use std::sync::atomic::{AtomicU64, Ordering};
use std::thread;
use std::thread::Threads;

// Takes one off the word if it isn't 0.
fn take<R: Wait>(rt: &R, word: &AtomicU64) -> bool {
    for _ in rt.forever() {
        let free = word.load(Ordering::SeqCst);
        if free == 0 {
            return false;
        }
        match word.compare_exchange(
            free,
            free.wrapping_sub(1),
            Ordering::SeqCst,
            Ordering::SeqCst,
        ) {
            Ok(_) => return true,
            Err(_) => thread::yield_now(),
        }
    }
    unreachable!()
}

// This many pairs by one thread. Returns how often one was taken.
fn pairs_of<R: Wait>(rt: &R, word: &AtomicU64, pairs: u32) -> u64
    ensures { result ≤ pairs }
{
    let mut taken: u64 = 0;
    for _ in 0..pairs {
        if take(rt, word) {
            word.fetch_add(1, Ordering::SeqCst);
            taken += 1;
        }
    }
    taken
}

/// Has each of this many threads do this many pairs, and returns how often one was taken.
pub(crate) fn run<R: Threads + Wait + Sync>(
    rt: &R,
    alloc: Global,
    round: Round,
) -> anyhow::Result<u64> {
    let word = AtomicU64::new(u64::from(round.callers));
    let taken = thread::map_indices(
        rt,
        alloc,
        round.callers as usize,
        &|_| pairs_of(rt, &word, round.count),
    )?;
    Ok(total(taken.as_slice()))
}
