//! What the whole rule answers to the last of some events, once it has carried out those before it, and the state of the pool there.

ghost use Rattle.std.specs.Prelude.{◌≡◌, length};
ghost use Rattle.resil_jdk.specs.declared.rule.answer.JdkState.{JdkState};

use super::JdkRule;
use crate::{JdkEvent, JdkLimits, JdkReply};
use resil_rule::Id;
use std::alloc::Global;

/// What the rule says of an event that it doesn't allow.
#[derive(Clone, Copy, Debug, PartialEq, Eq)]
pub enum JdkAnswer {
    /// The reply that a submission gets.
    Reply(JdkReply),
    /// The number of this caller's next submission.
    Next(u16, u64),
    /// The job at the front of the queue.
    Front(Id),
    /// No job waits in the queue.
    NoneWaits,
    /// A job waits in the queue.
    OneWaits,
    /// This job doesn't wait in the queue.
    NotQueued,
    /// No worker is idle.
    NoneIdle,
    /// The pool is open, and has no more workers than the core size.
    NoneSpare,
    /// There are no more workers than the maximum size, and the pool isn't stopped.
    NoneAbove,
    /// There are as many workers as the core size.
    NoneBelow,
    /// The pool is closed, and no job waits for the worker.
    NoUse,
    /// No job of that id runs.
    NotOut,
    /// The pool is closed already.
    Closed,
    /// The pool is stopped.
    Stopped,
    /// The largest maximum size that a resize may set: that of the opening.
    Greatest(u32),
    /// The event is allowed.
    Allowed,
}

/// What a pool has at some moment.
#[derive(Clone, Copy, Debug, PartialEq, Eq)]
pub struct JdkState {
    /// How many workers there are.
    pub workers: u32,
    /// How many of them run a job.
    pub running: usize,
    /// How many jobs wait in the queue.
    pub waiting: usize,
    /// The core size, in workers.
    pub core: u32,
    /// The maximum size, in workers.
    pub max: u32,
    /// The capacity of the queue, in jobs.
    pub queue: u32,
    /// Whether core workers time out.
    pub time_out: bool,
    /// Whether it is closed.
    pub closed: bool,
    /// Whether it is stopped.
    pub stopped: bool,
}

impl JdkRule {
    /// What the pool has now.
    pub fn state(&self) -> JdkState
        ensures { let v = self.now in result ≡ record { workers = v.workers; running = length v.runs; waiting = length v.waits; core = v.core; max = v.max; queue = v.limits.queue; time_out = v.time_out; closed = v.closed; stopped = v.stopped } }
    {
        JdkState {
            workers: self.workers,
            running: self.runs.len(),
            waiting: self.waits.len(),
            core: self.core,
            max: self.max,
            queue: self.limits.queue(),
            time_out: self.time_out,
            closed: self.closed,
            stopped: self.stopped,
        }
    }

    /// Why it doesn't allow an event (ThreadPoolExecutor class documentation).
    pub fn answer_to(&self, event: JdkEvent) -> JdkAnswer {
        match event {
            JdkEvent::Submit { id, reply: _ } => self.answer_to_submission(id),
            JdkEvent::Take(_) => self.answer_to_take(),
            JdkEvent::Finish(_) => JdkAnswer::NotOut,
            JdkEvent::IdleEnd if self.waits.len() > 0 => JdkAnswer::OneWaits,
            JdkEvent::IdleEnd if self.has_idle_worker() => JdkAnswer::NoneSpare,
            JdkEvent::Close => JdkAnswer::Closed,
            JdkEvent::Resized { core: _, max: _ } => JdkAnswer::Greatest(self.limits.max()),
            JdkEvent::Start if self.stopped => JdkAnswer::Stopped,
            JdkEvent::Start if self.workers >= self.core => JdkAnswer::NoneBelow,
            JdkEvent::Start => JdkAnswer::NoUse,
            JdkEvent::Cull if self.has_idle_worker() => JdkAnswer::NoneAbove,
            JdkEvent::IdleEnd | JdkEvent::Cull => JdkAnswer::NoneIdle,
            JdkEvent::Remove(_) => JdkAnswer::NotQueued,
            JdkEvent::Stop => JdkAnswer::Stopped,
            JdkEvent::TimeOut(_) => JdkAnswer::Allowed,
        }
    }

    // Why it doesn't allow a submission.
    fn answer_to_submission(&self, id: Id) -> JdkAnswer {
        if self.is_next(id) {
            return JdkAnswer::Reply(self.next_reply());
        }
        let made = self.made.get(id.caller as usize).copied().unwrap_or(0);
        JdkAnswer::Next(id.caller, made.saturating_add(1))
    }

    // Why it doesn't allow a take.
    fn answer_to_take(&self) -> JdkAnswer {
        if self.stopped {
            return JdkAnswer::Stopped;
        }
        match self.line.iter().find(|id| self.waits.contains(**id)) {
            None => JdkAnswer::NoneWaits,
            Some(front) if self.has_idle_worker() => JdkAnswer::Front(*front),
            Some(_) => JdkAnswer::NoneIdle,
        }
    }
}

/// A rule of these limits that has carried out all events but the last, and that one, or `None` if there is none, if one of those
/// before it isn't allowed, or when out of memory.
pub fn rule_at_last(
    alloc: Global,
    limits: JdkLimits,
    events: &[JdkEvent],
) -> Option<(JdkRule, JdkEvent)> {
    let (last, before) = events.split_last()?;
    let mut rule = JdkRule::new(alloc, limits);
    for event in before {
        if !rule.follow(*event).ok()? {
            return None;
        }
    }
    Some((rule, *last))
}
