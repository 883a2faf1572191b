//! The door: where seats wait while another seat holds the lock.
//!
//! The door consists of plain words next to the lock, which no clause covers. A seat that finds the lock taken pauses,
//! each time twice as long, and later sleeps. The seat that releases the lock wakes one that sleeps, but not at each
//! release: a wake-up takes as long as several turns, and moves the machine to the cache of another processor. So the
//! lock is left to the seats that are awake, and a sleeper is called in only after many releases, or once a worker
//! finds no job. Being called in doesn't give that seat the lock: any seat may take it first.
//!
//! A seat announces that it will sleep before it looks at the lock for the last time, and a holder releases the lock
//! before it checks whether a seat sleeps. So one of the two sees the other. This isn't proved. The seats that are
//! awake may also leave before they have released the lock often enough. So a sleep ends after at most 100
//! microseconds.

use crate::apart::Apart;
use std::sync::Wait;
use std::sync::atomic::Ordering::SeqCst;
use std::time::Duration;

// After this many failed tries in a row a seat sleeps. The pause before that is 64 hints to the processor.
const PAUSES: u32 = 7;

// The number of the release, counted from when a seat went to sleep, at which one is woken.
const RELEASES: u64 = 1_024;

// The longest sleep, in microseconds.
const LONGEST_SLEEP: u64 = 100;

/// Seats that wait for the lock sleep on its words. Each word has its own cache line.
#[derive(Drop)]
pub(crate) struct Door {
    // 0 if no seat sleeps, or else the number of the next release since one went to sleep, counted from 1.
    waiting: Apart,
    // How many times a seat was woken. Seats sleep on this word.
    openings: Apart,
}

impl Door {
    /// A door at which no seat waits.
    pub(crate) fn new() -> Door {
        Door {
            waiting: Apart::new(0),
            openings: Apart::new(0),
        }
    }

    /// Counts a release, and wakes a sleeping seat if there were enough releases. It is called after the lock was released.
    pub(crate) fn open(&self) {
        let release = self.waiting.word.load(SeqCst);
        if release == 0 {
            return;
        }
        if release < RELEASES {
            self.waiting.word.store(release + 1, SeqCst);
        } else {
            self.call_in();
        }
    }

    /// Wakes a seat that sleeps, if there is one.
    pub(crate) fn call_in(&self) {
        if self.waiting.word.load(SeqCst) != 0 {
            self.waiting.word.store(0, SeqCst);
            self.openings.word.fetch_add(1, SeqCst);
            self.openings.word.wake_one();
        }
    }

    /// Whether a seat that failed this many times in a row tries again at once, after a pause.
    pub(crate) fn has_paused(&self, tries: u32) -> bool {
        if tries >= PAUSES {
            return false;
        }
        for _ in 0..1u32 << tries {
            std::hint::spin_loop();
        }
        true
    }

    /// Announces that a seat is about to sleep. Returns how many times a seat was woken until now.
    pub(crate) fn announce(&self) -> u64 {
        let openings = self.openings.word.load(SeqCst);
        self.expect_sleeper();
        openings
    }

    /// Sleeps for at most 100 microseconds, or not at all if a seat was woken since that count was read. Other seats
    /// may still be asleep after that, which it notes.
    pub(crate) fn sleep<R: Wait>(&self, rt: &R, openings: u64) {
        let longest = Duration::from_micros(LONGEST_SLEEP);
        self.openings
            .word
            .park_timeout(rt, (openings & 0xffff_ffff) as u32, longest);
        self.expect_sleeper();
    }

    // Notes that a seat may sleep. Releases are counted from now on, unless they are counted already.
    fn expect_sleeper(&self) {
        if self.waiting.word.load(SeqCst) == 0 {
            self.waiting.word.store(1, SeqCst);
        }
    }
}
