//! The bell: workers that find no job wait here, without taking turns.
//!
//! The bell is four plain words next to the lock. No clause covers them: contracts hold whether or not it rings. `ready` is 0 only if the
//! last turn left workers nothing to do: no job to pick, and no end of their pool. Only the seat that holds the lock writes it, so its
//! writes are in the order of the turns. A worker reads it without a turn.
//!
//! At most one worker searches: it polls `ready` for a short while, then sleeps. All others sleep. A submission wakes one sleeper to
//! search, if no worker searches. A searcher that finds a job stops searching, and wakes the next worker if it leaves more to do.
//!
//! A worker that searches or sleeps watches the bell. If none does, a release doesn't ask the state for work, and sets `ready` to 1: there
//! may be work. A release also asks after a look that found no job, since its worker starts to watch next. That worker reads `ready`
//! once it is counted as a searcher or a sleeper. So 0 means that the last turn asked and left nothing to do, never that nobody asked.
//!
//! The order of a submission's steps: its turn reads `searcher` and `sleepers` and writes `ready`; after the release it reads
//! `sleepers`, then `ready`, changes the searcher from `NONE` to `WOKEN`, raises `rings` and wakes one sleeper. The order of a worker's
//! steps if it found nothing: it becomes the searcher, if there is none or one is called; it raises `sleepers`, reads `rings`, sets the
//! searcher to `NONE` if it was the searcher, and reads `ready`, then the searcher. It sleeps only if there is nothing to do, nobody
//! is called, and `rings` hasn't changed.
//!
//! So a submission that finds nobody asleep came before the worker's last read of `ready`, which sees it. A submission that finds a
//! searcher leaves the job to it. A searcher that gives up and then reads 1 from `ready` rings once it has found a job, since others may
//! have counted on it for theirs. A submission that calls a worker does so before the sleeper's last read of the searcher, or raises
//! `rings` after the sleeper has read it. So no worker falls asleep next to a call that nobody has taken.
//! `models/bell.pml` is a model of this, in which no sleep times out. It is no proof of the code.

use crate::apart::Apart;
use std::sync::Wait;
use std::sync::atomic::Ordering::SeqCst;
use std::time::Duration;

// How often a searcher polls `ready` before it sleeps.
const LOOKS: u32 = 200;

// The longest sleep takes 2 to this power in milliseconds. The first one takes 1 ms.
const LONGEST_SLEEP: u32 = 6;

// No worker searches.
const NONE: u64 = 0;
// A worker searches.
const AWAKE: u64 = 1;
// A worker is called: it was woken to search.
const WOKEN: u64 = 2;

/// The words that idle workers wait on, each on a cache line of its own.
#[derive(Drop)]
pub(crate) struct Bell {
    // 1 if there may be something to do. 0 if the last turn left nothing to do.
    ready: Apart,
    // Whether a worker searches: `NONE`, `AWAKE` or `WOKEN`.
    searcher: Apart,
    // The number of workers that sleep or are about to.
    sleepers: Apart,
    // The number of rings. Sleepers sleep on this word.
    rings: Apart,
}

impl Bell {
    /// A bell that has never rung.
    pub(crate) fn new() -> Bell {
        Bell {
            ready: Apart::new(0),
            searcher: Apart::new(NONE),
            sleepers: Apart::new(0),
            rings: Apart::new(0),
        }
    }

    /// Sets whether there may be something to do. Only the seat that holds the lock may call it.
    pub(crate) fn set_ready(&self, ready: bool) {
        let ready = u64::from(ready);
        if self.ready.word.load(SeqCst) != ready {
            self.ready.word.store(ready, SeqCst);
        }
    }

    /// Wakes a worker if there is something to do, a worker sleeps, and none searches.
    pub(crate) fn ring(&self) {
        if self.sleepers.word.load(SeqCst) != 0
            && self.is_ready()
            && self.change_searcher(NONE, WOKEN)
        {
            self.rings.word.fetch_add(1, SeqCst);
            self.rings.word.wake_one();
        }
    }

    /// Wakes all workers.
    pub(crate) fn ring_for_all(&self) {
        self.rings.word.fetch_add(1, SeqCst);
        self.rings.word.wake_all();
    }

    /// Whether a worker watches: it searches, sleeps, is about to sleep, or is called.
    pub(crate) fn is_watched(&self) -> bool {
        self.searcher.word.load(SeqCst) != NONE || self.sleepers.word.load(SeqCst) != 0
    }

    fn is_ready(&self) -> bool {
        self.ready.word.load(SeqCst) != 0
    }

    // Whether a worker is called and hasn't taken the call yet.
    fn calls(&self) -> bool {
        self.searcher.word.load(SeqCst) == WOKEN
    }

    // Changes the searcher to `to` and returns true if it was `from`. Otherwise it changes nothing.
    fn change_searcher(&self, from: u64, to: u64) -> bool {
        self.searcher
            .word
            .compare_exchange(from, to, SeqCst, SeqCst)
            .is_ok()
    }

    // Polls `ready` for a while. Returns whether there may be something to do.
    fn search(&self) -> bool {
        for _ in 0..LOOKS {
            if self.is_ready() {
                return true;
            }
            std::hint::spin_loop();
        }
        false
    }
}

/// One worker at the bell: whether it searches, and how often it has slept.
#[derive(Drop)]
pub(crate) struct Sleeper {
    // Whether this worker searches.
    searches: bool,
    // Whether it gave the search up and then saw that there may be something to do.
    gave_up: bool,
    // The number of its sleeps since it last found a job.
    waits: u32,
}

impl Sleeper {
    /// A worker that hasn't slept yet.
    pub(crate) fn new() -> Sleeper {
        Sleeper {
            searches: false,
            gave_up: false,
            waits: 0,
        }
    }

    /// Call this when the worker has found a job. If it was the searcher, it wakes another worker if there is more to do.
    pub(crate) fn found(&mut self, bell: &Bell) {
        if self.searches {
            bell.searcher.word.store(NONE, SeqCst);
        }
        if self.searches || self.gave_up {
            bell.ring();
        }
        self.searches = false;
        self.gave_up = false;
        self.waits = 0;
    }

    /// Call this when the worker has found no job. It waits until there may be something to do: at most 1 ms at first, and at most 64 ms
    /// after some empty polls.
    pub(crate) fn wait<R: Wait>(&mut self, rt: &R, bell: &Bell) {
        let searches = self.searches
            || bell.change_searcher(NONE, AWAKE)
            || bell.change_searcher(WOKEN, AWAKE);
        if searches && bell.search() {
            self.searches = true;
            return;
        }
        bell.sleepers.word.fetch_add(1, SeqCst);
        let rings = bell.rings.word.load(SeqCst);
        if searches {
            bell.searcher.word.store(NONE, SeqCst);
        }
        let ready = bell.is_ready();
        self.gave_up = searches && ready;
        if !ready && !bell.calls() {
            let longest = Duration::from_millis(1 << self.waits.min(LONGEST_SLEEP));
            bell.rings
                .word
                .park_timeout(rt, (rings & 0xffff_ffff) as u32, longest);
        }
        bell.sleepers.word.fetch_sub(1, SeqCst);
        self.searches = bell.change_searcher(WOKEN, AWAKE);
        self.waits = self.waits.saturating_add(1);
    }
}
