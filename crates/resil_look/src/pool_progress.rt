//! What is reported on standard error while a command is at work.

use resil_simulate::command::Progress;
use std::rt::Clock;
use std::time::Instant;

/// Reports how many pools are done, from the second second on and once a second.
#[derive(Drop)]
pub(crate) struct PoolProgress<'a, R> {
    rt: &'a R,
    // When the program began, if the clock said so.
    since: Option<Instant>,
    // The last second in which it reported.
    told_at: u64,
}

impl<'a, R: Clock> PoolProgress<'a, R> {
    /// Nothing is reported yet.
    pub(crate) fn new(rt: &'a R) -> PoolProgress<'a, R> {
        PoolProgress {
            rt,
            since: Instant::now(rt).ok(),
            told_at: 0,
        }
    }

    // The seconds since then, if the clock says so.
    fn seconds(&self) -> Option<u64> {
        let elapsed = self.since?.elapsed(self.rt).ok()?;
        Some(elapsed.as_secs())
    }
}

impl<'a, R: Clock + Eprint> Progress for PoolProgress<'a, R> {
    fn done(&mut self, count: usize, of: usize) {
        match self.seconds() {
            Some(seconds) if seconds > self.told_at && count < of => {
                self.told_at = seconds;
                drop(eprintln!(self.rt; "resil: {count} of {of} pools are done"));
            }
            _ => {}
        }
    }
}
