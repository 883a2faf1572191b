//! How many jobs have started, and the waits for the next ones.

use std::sync::Wait;
use std::sync::atomic::AtomicU64;
use std::sync::atomic::Ordering::SeqCst;
use std::thread;

// How often a wait polls before it yields at each poll.
const SPINS: u32 = 2000;

/// How many jobs have started, and how many must have started before any of them ends.
#[derive(Drop)]
pub(crate) struct Started {
    count: AtomicU64,
    until: AtomicU64,
}

// Waits between two polls.
fn rest(tries: &mut u32) {
    if *tries < SPINS {
        std::hint::spin_loop();
    } else {
        thread::yield_now();
    }
    *tries = tries.saturating_add(1);
}

impl Started {
    /// None yet.
    pub(crate) fn new() -> Started {
        Started {
            count: AtomicU64::new(0),
            until: AtomicU64::new(0),
        }
    }

    /// How many have started.
    pub(crate) fn count(&self) -> u64 {
        self.count.load(SeqCst)
    }

    /// Has each job from now on end only once this many have started.
    pub(crate) fn hold_until(&self, count: u64) {
        self.until.store(count, SeqCst);
    }

    /// Waits until this many have started.
    pub(crate) fn wait_for<R: Wait>(&self, rt: &R, count: u64) {
        let mut tries: u32 = 0;
        for _ in rt.forever() {
            if self.count() >= count {
                return;
            }
            rest(&mut tries);
        }
        unreachable!()
    }

    /// Counts a job, which has no handle to wait with, and holds it until enough jobs have started.
    pub(crate) fn start(&self) {
        // Once this job is counted, its caller may set the count of the next pair.
        let until = self.until.load(SeqCst);
        self.count.fetch_add(1, SeqCst);
        let mut tries: u32 = 0;
        for _ in 0..u64::MAX {
            if self.count() >= until {
                return;
            }
            rest(&mut tries);
        }
    }
}
