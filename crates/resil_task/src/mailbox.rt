//! The mailbox: it keeps what was sent until it is taken, and its receiver sleeps on it.
//!
//! The word next to the value is plain, and no clause mentions it: contracts hold whether or not it wakes anybody. A
//! receiver marks that it will sleep before it reads the word for the last time, and the sender writes the word after
//! the value. So one of them sees the other, and no wake-up is lost. This isn't proved. If it were wrong, it would only
//! cost time: a sleep ends after at most 50 ms.
//!
//! Only a receiver that sleeps, or is about to, costs the sender a system call.

ghost use Rattle.std.specs.Prelude.{◌≡◌, IfSome, IfNone};
ghost use Rattle.std.specs.Duration.{as_nanos};
ghost use Rattle.resil_clock.specs.Waits.{IsOutOfTime};

use counted_slot::{Counted, FREE, Fits, PRESENT, TAKEN};
use resil_clock::{Reads, TimeLeft};
use std::marker::Model;
use std::sync::Wait;
use std::sync::atomic::AtomicU64;
use std::sync::atomic::Ordering::SeqCst;
use std::time::Duration;

// How often a receiver reads the word before it sleeps.
const LOOKS: u32 = 200;

// The longest sleep, in milliseconds.
const LONGEST_SLEEP: u64 = 50;

// Nothing was sent, and nobody sleeps.
const AWAKE: u64 = 0;
// Nothing was sent, and the receiver sleeps or is about to.
const ASLEEP: u64 = 1;
// Something was sent.
const SENT: u64 = 2;

/// A mailbox between one sender and one receiver. Contracts see the tag that its value fits.
#[derive(Drop)]
pub(crate) struct Mailbox<X: Fits> {
    value: Counted<Option<X>>,
    // `AWAKE`, `ASLEEP` or `SENT`.
    word: AtomicU64,
}

impl<X: Fits> Model for Mailbox<X> {
    ghost Value = { X.Tag };

    ghost view = { λ mailbox. mailbox.value };
}

impl<X: Fits + Drop> Mailbox<X> {
    /// An empty mailbox for a value that fits this tag.
    pub(crate) fn new(tag: &X::Tag) -> Mailbox<X>
        ensures { result ≡ tag.now }
    {
        Mailbox {
            value: Counted::new(None, tag),
            word: AtomicU64::new(AWAKE),
        }
    }

    /// Puts a value in, and wakes the receiver if it sleeps. A sender does so once.
    pub(crate) fn put(&self, sent: X)
        requires { X.fits self.now sent }
    {
        let (found, claim) = self.value.turn(FREE, TAKEN);
        if found == FREE {
            drop(claim.put(Some(sent), PRESENT));
        } else {
            claim.done();
        }
        if self.word.swap(SENT, SeqCst) == ASLEEP {
            self.word.wake_all();
        }
    }

    /// Takes what was sent, if it is there.
    pub(crate) fn take(&self) -> Option<X>
        ensures { IfSome result (X.fits self.now) }
    {
        if self.word.load(SeqCst) != SENT {
            return None;
        }
        let (found, claim) = self.value.turn(PRESENT, TAKEN);
        if found == PRESENT {
            claim.put(None, FREE)
        } else {
            claim.done();
            None
        }
    }

    /// Waits until something was sent, and takes it.
    pub(crate) fn take_once_sent<R: Wait>(&self, rt: &R) -> X
        ensures { X.fits self.now result }
    {
        for _ in rt.forever() {
            if let Some(sent) = self.take() {
                return sent;
            }
            self.sleep(rt, Duration::MAX);
        }
        unreachable!()
    }

    /// Waits for at most `duration`. It returns nothing if nothing was sent by then, or if the clock can't be read.
    pub(crate) fn take_within<R: Wait + Reads>(&self, rt: &R, duration: Duration) -> Option<X>
        ensures fits { IfSome result (X.fits self.now) }
        ensures out_of_time { IfNone result (IsOutOfTime (R.HasSaid rt.now) (as_nanos duration)) }
    {
        if let Some(sent) = self.take() {
            return Some(sent);
        }
        let mut time = TimeLeft::start(rt, duration)?;
        for _ in rt.forever() {
            if let Some(sent) = self.take() {
                return Some(sent);
            }
            let left = time.left(rt)?;
            self.sleep(rt, left);
        }
        unreachable!()
    }

    // Waits until something was sent, for at most `longest` and at most 50 ms.
    fn sleep<R: Wait>(&self, rt: &R, longest: Duration) {
        for _ in 0..LOOKS {
            if self.word.load(SeqCst) == SENT {
                return;
            }
            std::hint::spin_loop();
        }
        let _ = self.word.compare_exchange(AWAKE, ASLEEP, SeqCst, SeqCst);
        let longest = longest.min(Duration::from_millis(LONGEST_SLEEP));
        self.word.park_timeout(rt, ASLEEP as u32, longest);
    }
}
