//! The numbers of a history, counted while its events happen: the history isn't kept.
//!
//! What is kept grows with the jobs that wait and with the jobs that started, each of which has a wait.

ghost use Rattle.std.specs.Prelude.{◌≡◌, ◌<◌, ◌+◌, ◌-◌, ◌*◌, ◌^◌, ◌++◌, ◌∷◌, [], List, OnOk, drop, option_map, slice_get, if◌then◌else◌};
ghost use Rattle.std.specs.List.{cons_option};
ghost use Rattle.resil_jdk.specs.Timed.{events_in, times_in};
ghost use Rattle.resil_jdk.specs.declared.event.JdkEvent.{JdkEvent};
ghost use Rattle.resil_jdk.specs.declared.timed.TimedJdkEvent.{TimedJdkEvent};
ghost use Rattle.resil_simulate.specs.Numbers.{AreNumbersOf, is_finish};
ghost use Rattle.resil_simulate.specs.Tally.{AreSubmissionsOf, HasHistory, IsTallyOf, IsTimed, MayAdd, MaySubmit, queue_by, wait_by};

use crate::numbers::{Areas, PoolNumbers};
use resil_jdk::{JdkEvent, JdkReply, TimedJdkEvent};
use resil_rule::Id;
use resil_stats::{Load, ranks_of};
use std::alloc::{AllocError, Global};
use std::collections::VecDeque;

// How many jobs were submitted, and how many of them the full pool refused.
#[derive(Clone, Copy, Default)]
struct Submissions {
    all: usize,
    refused: usize,
}

impl Submissions {
    // The submissions with one more event.
    fn after(self, event: JdkEvent) -> Submissions
        requires { MaySubmit self }
        ensures { (events : List JdkEvent) → AreSubmissionsOf events self → AreSubmissionsOf (events ++ event ∷ []) result }
    {
        let JdkEvent::Submit { reply, .. } = event else {
            return self;
        };
        Submissions {
            all: self.all + 1,
            refused: self.refused + usize::from(reply == JdkReply::Full),
        }
    }
}

// A job that waits, and when it was submitted.
#[derive(Clone, Copy)]
struct WaitingJob {
    id: Id,
    at: u64,
}

// The jobs that wait, the one that waits longest first, and how long the jobs waited that started.
#[derive(Drop)]
struct Waits {
    queue: VecDeque<WaitingJob>,
    done: Vec<u64>,
}

impl Waits {
    // The job at the front of the queue is taken at a time. Errors: `AllocError` when out of memory.
    fn take(&mut self, at: u64) -> Result<(), AllocError>
        ensures queue { OnOk result (self.new.queue.items ≡ drop 1 self.old.queue.items) }
        ensures done { OnOk result (self.new.done.items ≡ self.old.done.items ++ cons_option (option_map (λ job. at - job.at) (slice_get self.old.queue.items 0)) []) }
    {
        if let Some(job) = self.queue.pop_front() {
            self.done.push(at.saturating_sub(job.at))?;
        }
        Ok(())
    }

    // One more event has happened. Errors: `AllocError` when out of memory.
    fn add(&mut self, timed: TimedJdkEvent) -> Result<(), AllocError>
        ensures queue { OnOk result (self.new.queue.items ≡ queue_by timed.event timed.at self.old.queue.items) }
        ensures done { OnOk result (self.new.done.items ≡ self.old.done.items ++ cons_option (wait_by timed.event timed.at self.old.queue.items) []) }
    {
        match timed.event {
            JdkEvent::Submit { id, reply } => match reply {
                JdkReply::Core | JdkReply::Handed | JdkReply::Extra => self.done.push(0)?,
                JdkReply::First | JdkReply::Queued => {
                    self.queue.push_back(WaitingJob { id, at: timed.at })?;
                }
                JdkReply::Full | JdkReply::Closed => {}
            },
            JdkEvent::Take(_) => self.take(timed.at)?,
            JdkEvent::Remove(id) => self.queue.retain(|job| job.id != id),
            _ => {}
        }
        Ok(())
    }
}

// The time of the last event, the time of all jobs and workers up to it, and up to the last finish.
#[derive(Clone, Copy, Default)]
struct Spent {
    time: u64,
    so_far: Areas,
    finished: Areas,
}

impl Spent {
    // The time spent up to one more event, after a load.
    fn up_to(self, load: Load, timed: TimedJdkEvent) -> Spent
        requires run_time { self.so_far.run_time + load.running * (timed.at - self.time) < 2 ^ 128 }
        requires worker_time { self.so_far.worker_time + load.workers * (timed.at - self.time) < 2 ^ 128 }
        ensures time { result.time ≡ timed.at }
        ensures run_time { result.so_far.run_time ≡ self.so_far.run_time + load.running * (timed.at - self.time) }
        ensures worker_time { result.so_far.worker_time ≡ self.so_far.worker_time + load.workers * (timed.at - self.time) }
        ensures finished { result.finished ≡ (if is_finish timed.event then result.so_far else self.finished) }
    {
        let lasts = timed.at.saturating_sub(self.time);
        let so_far = self.so_far.plus(load, lasts);
        let finished = match timed.event {
            JdkEvent::Finish(_) => so_far,
            _ => self.finished,
        };
        Spent {
            time: timed.at,
            so_far,
            finished,
        }
    }
}

/// The numbers of a history so far, and what the next event needs.
#[derive(Drop)]
pub(crate) struct Tally {
    submissions: Submissions,
    // After the last event, and the most so far.
    load: Load,
    most: Load,
    waits: Waits,
    spent: Spent,
}

impl Tally {
    /// The numbers of no event. It doesn't allocate.
    pub(crate) fn new(alloc: Global) -> Tally
        ensures { IsTallyOf [] result }
    {
        Tally {
            submissions: Submissions::default(),
            load: Load::default(),
            most: Load::default(),
            waits: Waits {
                queue: VecDeque::new(alloc),
                done: Vec::new(alloc),
            },
            spent: Spent::default(),
        }
    }

    /// Counts one more event of a legal history whose times ascend.
    ///
    /// # Errors
    ///
    /// `AllocError` when out of memory.
    pub(crate) fn add(&mut self, timed: TimedJdkEvent) -> Result<(), AllocError>
        requires { MayAdd self.old timed }
        ensures { OnOk result ((history : List TimedJdkEvent) → IsTallyOf history self.old → IsTimed (history ++ timed ∷ []) → IsTallyOf (history ++ timed ∷ []) self.new) }
    {
        self.submissions = self.submissions.after(timed.event);
        self.spent = self.spent.up_to(self.load, timed);
        self.load = self.load.after(timed.event);
        self.most = self.most.max(self.load);
        self.waits.add(timed)?;
        Ok(())
    }

    /// The numbers of the events.
    pub(crate) fn numbers(self) -> PoolNumbers
        requires { HasHistory self }
        ensures { (history : List TimedJdkEvent) → IsTallyOf history self → IsTimed history → AreNumbersOf 0 (events_in history) (times_in history) result }
    {
        let busy = self.spent.finished.busy();
        let waits = self.waits;
        PoolNumbers {
            submitted: self.submissions.all,
            refused: self.submissions.refused,
            waits: ranks_of(waits.done),
            most_waiting: self.most.waiting,
            most_workers: self.most.workers,
            busy,
        }
    }
}
