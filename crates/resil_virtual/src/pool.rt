//! A pool while it runs a load: what its workers do, which jobs wait, and what has happened.
//!
//! Events that are due at one moment happen in this order: the worker that has just finished a job takes one that waits; a finish, of the job
//! that began first; a look of a woken worker, if a job waits; the submission that comes then; an end of an idle worker, which takes a
//! job if one waits.

ghost use Rattle.std.specs.Prelude.{◌≡◌, ◌<◌, ◌+◌, ◌^◌, ◌++◌, ◌==◌, ◌∷◌, [], IfNone, IfOk, IfSome, None as nothing, OnOk, Some, length, map, option_map, slice_get, if◌then◌else◌};
ghost use Rattle.std.specs.Option.{option_map_or};
ghost use Rattle.resil_jdk.specs.RuleView.{begins};
ghost use Rattle.resil_jdk.specs.Timed.{events_in};
ghost use Rattle.resil_virtual.specs.Jobs.{SameJobs};
ghost use Rattle.resil_virtual.specs.Load.{IsLoad};
ghost use Rattle.resil_virtual.specs.Due.{earliest, end_at, end_from, ends_due, finishes, has_spare, idle_by, looks_due, own_takes, sooner, submissions_due, take_at};
ghost use Rattle.resil_virtual.specs.Pool.{HasParts, IsPool, arrivals_of, due_in, history_of, left, left_in, plan_of, reply_by, to_queue, to_worker};
ghost use Rattle.resil_virtual.specs.Simulated.{IsSimulated, opening};

use crate::arrival::Arrival;
use crate::due::sooner;
use crate::idle::{Idle, IdleWorkers};
use crate::jobs::RunningJobs;
use crate::virtual_pool::VirtualPool;
use resil_jdk::{JdkEvent, JdkReply, TimedJdkEvent};
use resil_rule::Id;
use std::alloc::{AllocError, Global};
use std::collections::VecDeque;

/// A load that a pool runs, one event after another. It keeps what the pool needs to go on, and none of the events.
///
/// ```
/// let limits = JdkLimits::new(1, 1, 1)?;
/// let plan = VirtualPool { limits, time_out: false, idle_for: 0, wakes: 0 };
/// let job = Arrival { id: Id { caller: 1, number: 1 }, at: 0, takes: 500, earliest_end: 0 };
/// let arrivals = [job];
/// let mut simulation = Simulation::new(alloc, plan, &arrivals);
/// while let Some(timed) = simulation.next()? {
///     println!(rt; "{} {:?}", timed.at, timed.event)?;
/// }
/// ```
#[derive(Drop)]
pub struct Simulation<'a> {
    plan: VirtualPool,
    // The load, and how many of its jobs were submitted.
    arrivals: &'a [Arrival],
    next: usize,
    // How many workers there are.
    workers: u32,
    // The jobs that wait.
    queue: VecDeque<Arrival>,
    // The jobs that run.
    running: RunningJobs,
    // The idle workers, the one that has been idle longest first.
    idle: IdleWorkers,
    // The time of the last event, and whether it is a finish, whose worker looks for a job at once.
    time: u64,
    own_look: bool,
    // How many events it has returned. With the pool and the load, their number determines what has happened.
    steps: u128,
}

// The take of a job at a time, if both are there.
fn take_at(front: Option<Id>, at: Option<u64>) -> Option<TimedJdkEvent>
    ensures { result ≡ option_map_or (λ id. option_map (take_at id) at) front nothing }
{
    match (front, at) {
        (Some(id), Some(at)) => Some(TimedJdkEvent {
            event: JdkEvent::Take(id),
            at,
        }),
        _ => None,
    }
}

// The end at a time, if there is one.
fn end_at(at: Option<u64>) -> Option<TimedJdkEvent>
    ensures { result ≡ option_map end_at at }
{
    match at {
        Some(at) => Some(TimedJdkEvent {
            event: JdkEvent::IdleEnd,
            at,
        }),
        None => None,
    }
}

// The event that comes first; of several of one moment the first in this order.
fn first_event(
    own: Option<TimedJdkEvent>,
    finish: Option<TimedJdkEvent>,
    look: Option<TimedJdkEvent>,
    submission: Option<TimedJdkEvent>,
    end: Option<TimedJdkEvent>,
) -> Option<TimedJdkEvent>
    ensures { result ≡ sooner (λ timed. timed.at) own (sooner (λ timed. timed.at) finish (sooner (λ timed. timed.at) look (sooner (λ timed. timed.at) submission end))) }
{
    let later = sooner(finish, sooner(look, sooner(submission, end)));
    sooner(own, later)
}

impl<'a> Simulation<'a> {
    /// A load before its first job comes. What has happened so far is the opening of the pool, `VirtualPool::opening`, which `next` doesn't
    /// hand out. It doesn't allocate.
    pub fn new(alloc: Global, plan: VirtualPool, arrivals: &'a [Arrival]) -> Simulation<'a>
        requires { IsLoad plan.idle_for plan.wakes arrivals.now }
        ensures pool { IsPool result }
        ensures load { (plan_of result ≡ plan) × (arrivals_of result ≡ arrivals.now) }
        ensures history { history_of result ≡ opening plan }
    {
        Simulation {
            plan,
            arrivals,
            next: 0,
            workers: 0,
            queue: VecDeque::new(alloc),
            running: RunningJobs::new(alloc),
            idle: IdleWorkers::new(alloc),
            time: 0,
            own_look: false,
            steps: 0,
        }
    }

    // The job that waits longest.
    fn front(&self) -> Option<Id>
        ensures { result ≡ slice_get (map (λ job. job.id) self.now.queue.items) 0 }
    {
        self.queue.front().map(|job| job.id)
    }

    // Whether no job waits.
    fn no_job_waits(&self) -> bool
        ensures { result ≡ (length self.now.queue.items == 0) }
    {
        self.queue.len() == 0
    }

    // Whether there are more workers than may stay.
    fn has_spare(&self) -> bool
        requires { HasParts self.now self.now.steps (history_of self.now) }
        ensures { result ≡ has_spare self.now.plan (events_in (history_of self.now)) }
    {
        let kept = if self.plan.time_out {
            0
        } else {
            self.plan.limits.core()
        };
        kept < self.workers
    }

    // The answer to the next submission.
    fn reply(&self) -> JdkReply
        ensures { result ≡ reply_by self.now.plan.limits self.now.workers (length self.now.queue.items) (length self.now.running.items) }
    {
        let limits = self.plan.limits;
        if self.workers < limits.core() {
            JdkReply::Core
        } else if self.queue.len() < limits.queue() as usize {
            if self.workers == 0 {
                JdkReply::First
            } else {
                JdkReply::Queued
            }
        } else if limits.queue() == 0 && self.running.len() < self.workers as usize {
            JdkReply::Handed
        } else if self.workers < limits.max() {
            JdkReply::Extra
        } else {
            JdkReply::Full
        }
    }

    // The take of the worker that has just finished a job.
    fn next_own(&self) -> Option<TimedJdkEvent>
        requires { HasParts self.now self.now.steps (history_of self.now) }
        ensures { result ≡ earliest (λ timed. timed.at) (own_takes (history_of self.now)) }
    {
        if !self.own_look {
            return None;
        }
        take_at(self.front(), Some(self.time))
    }

    // The finish that comes first.
    fn next_finish(&self) -> Option<TimedJdkEvent>
        requires { HasParts self.now self.now.steps (history_of self.now) }
        ensures { result ≡ earliest (λ timed. timed.at) (finishes self.now.arrivals.now (history_of self.now)) }
    {
        match self.running.first() {
            Some(job) => Some(TimedJdkEvent {
                event: JdkEvent::Finish(job.id()),
                at: job.due,
            }),
            None => None,
        }
    }

    // The take of the woken worker that looks first.
    fn next_look(&self) -> Option<TimedJdkEvent>
        requires { HasParts self.now self.now.steps (history_of self.now) }
        ensures { result ≡ earliest (λ timed. timed.at) (looks_due (history_of self.now) self.now.idle.items) }
    {
        take_at(self.front(), self.idle.first_look())
    }

    // The job that comes next.
    fn next_job(&self) -> Option<Arrival>
        ensures { result ≡ slice_get self.now.arrivals.now self.now.next }
    {
        self.arrivals.get(self.next).copied()
    }

    // The submission that comes next.
    fn next_submission(&self) -> Option<TimedJdkEvent>
        requires { HasParts self.now self.now.steps (history_of self.now) }
        ensures { result ≡ earliest (λ timed. timed.at) (submissions_due self.now.plan self.now.arrivals.now (history_of self.now)) }
    {
        match self.next_job() {
            Some(job) => Some(TimedJdkEvent {
                event: JdkEvent::Submit {
                    id: job.id,
                    reply: self.reply(),
                },
                at: job.at,
            }),
            None => None,
        }
    }

    // The end that comes first, or the take of that worker if a job waits.
    fn next_end(&self) -> Option<TimedJdkEvent>
        requires { HasParts self.now self.now.steps (history_of self.now) }
        ensures { result ≡ earliest (λ timed. timed.at) (ends_due self.now.plan (history_of self.now) self.now.idle.items) }
    {
        let front = self.front();
        let first = self.idle.first_end();
        if front.is_some() {
            return take_at(front, first);
        }
        if !self.has_spare() {
            return None;
        }
        end_at(first)
    }

    // What happens next.
    fn next_event(&self) -> Option<TimedJdkEvent>
        requires { HasParts self.now self.now.steps (history_of self.now) }
        ensures { result ≡ due_in self.now }
    {
        first_event(
            self.next_own(),
            self.next_finish(),
            self.next_look(),
            self.next_submission(),
            self.next_end(),
        )
    }

    // The job is where the answer says, and a worker has begun if it says so. Errors: `AllocError` when out of memory.
    fn place(&mut self, job: Arrival, reply: JdkReply) -> Result<(), AllocError>
        requires room { self.old.workers + 1 < 2 ^ 32 }
        requires runs { job.at + job.takes < 2 ^ 64 }
        requires wakes { job.at + self.old.plan.wakes + self.old.plan.idle_for < 2 ^ 64 }
        ensures rest { OnOk result (self.new ≡ record self.old { workers = self.old.workers + begins reply; queue = self.new.queue; running = self.new.running; idle = self.new.idle }) }
        ensures queue { OnOk result (self.new.queue.items ≡ self.old.queue.items ++ to_queue reply job) }
        ensures running { OnOk result (SameJobs (to_worker self.old.steps reply job ++ self.old.running.items) self.new.running.items) }
        ensures idle { OnOk result (self.new.idle.items ≡ idle_by self.old.plan [] self.old.idle.items (JdkEvent.Submit job.id reply) job.at) }
    {
        match reply {
            JdkReply::Core | JdkReply::Extra => {
                self.workers += 1;
                self.running.run(job, job.at, self.steps)?;
            }
            JdkReply::Handed => {
                self.idle.pop();
                self.running.run(job, job.at, self.steps)?;
            }
            JdkReply::First => {
                self.workers += 1;
                self.queue.push_back(job)?;
                let look = job.at + self.plan.wakes;
                self.idle.push(Idle {
                    end: Some(look + self.plan.idle_for),
                    look: Some(look),
                })?;
            }
            JdkReply::Queued => {
                self.queue.push_back(job)?;
                self.idle.wake_first(job.at + self.plan.wakes);
            }
            JdkReply::Full | JdkReply::Closed => {}
        }
        Ok(())
    }

    // The next job is submitted. Errors: `AllocError` when out of memory.
    fn submit(&mut self, id: Id, reply: JdkReply, at: u64) -> Result<(), AllocError>
        requires pool { HasParts self.old self.old.steps (history_of self.old) }
        requires due { due_in self.old ≡ Some (record { event = JdkEvent.Submit id reply; at = at }) }
        ensures pool { OnOk result (HasParts self.new (self.old.steps + 1) (history_of self.old ++ (record { event = JdkEvent.Submit id reply; at = at }) ∷ [])) }
        ensures less { OnOk result (left self.new.plan self.new.arrivals.now self.new.next (history_of self.old ++ (record { event = JdkEvent.Submit id reply; at = at }) ∷ []) < left_in self.old) }
        ensures load { OnOk result ((self.new.plan ≡ self.old.plan) × (self.new.arrivals.now ≡ self.old.arrivals.now) × (self.new.steps ≡ self.old.steps)) }
    {
        let Some(job) = self.next_job() else {
            return Ok(());
        };
        let none_waits = self.no_job_waits();
        self.idle.pass(none_waits, job.at);
        self.place(job, reply)?;
        self.next += 1;
        self.own_look = false;
        self.time = job.at;
        Ok(())
    }

    // The job at the front of the queue.
    fn front_job(&self) -> Option<Arrival>
        ensures { result ≡ slice_get self.now.queue.items 0 }
    {
        self.queue.front().copied()
    }

    // A worker takes the job at the front of the queue. Errors: `AllocError` when out of memory.
    fn take(&mut self, id: Id, at: u64) -> Result<(), AllocError>
        requires pool { HasParts self.old self.old.steps (history_of self.old) }
        requires due { due_in self.old ≡ Some (take_at id at) }
        ensures pool { OnOk result (HasParts self.new (self.old.steps + 1) (history_of self.old ++ (take_at id at) ∷ [])) }
        ensures less { OnOk result (left self.new.plan self.new.arrivals.now self.new.next (history_of self.old ++ (take_at id at) ∷ []) < left_in self.old) }
        ensures load { OnOk result ((self.new.plan ≡ self.old.plan) × (self.new.arrivals.now ≡ self.old.arrivals.now) × (self.new.steps ≡ self.old.steps)) }
    {
        let Some(job) = self.front_job() else {
            return Ok(());
        };
        self.idle.pass(false, at);
        self.idle.remove_taker(self.own_look, at);
        self.queue.pop_front();
        self.running.run(job, at, self.steps)?;
        self.own_look = false;
        self.time = at;
        Ok(())
    }

    // When a worker that falls idle at a time may end, if ever.
    fn end_from(&self, at: u64) -> Option<u64>
        requires pool { HasParts self.now self.now.steps (history_of self.now) }
        requires fits { at + self.now.plan.idle_for < 2 ^ 64 }
        ensures { result ≡ end_from self.now.plan (events_in (history_of self.now)) at }
    {
        if self.has_spare() {
            Some(at + self.plan.idle_for)
        } else {
            None
        }
    }

    // A job is finished. Its worker is idle if no job waits. Errors: `AllocError` when out of memory.
    fn finish(&mut self, id: Id, at: u64) -> Result<(), AllocError>
        requires pool { HasParts self.old self.old.steps (history_of self.old) }
        requires due { due_in self.old ≡ Some (record { event = JdkEvent.Finish id; at = at }) }
        ensures pool { OnOk result (HasParts self.new (self.old.steps + 1) (history_of self.old ++ (record { event = JdkEvent.Finish id; at = at }) ∷ [])) }
        ensures less { OnOk result (left self.new.plan self.new.arrivals.now self.new.next (history_of self.old ++ (record { event = JdkEvent.Finish id; at = at }) ∷ []) < left_in self.old) }
        ensures load { OnOk result ((self.new.plan ≡ self.old.plan) × (self.new.arrivals.now ≡ self.old.arrivals.now) × (self.new.steps ≡ self.old.steps)) }
    {
        let none_waits = self.no_job_waits();
        let end = self.end_from(at);
        self.idle.pass(none_waits, at);
        self.running.remove_first();
        if none_waits {
            self.idle.push(Idle { end, look: None })?;
        }
        self.own_look = true;
        self.time = at;
        Ok(())
    }

    // An idle worker ends.
    fn end(&mut self, at: u64)
        requires pool { HasParts self.old self.old.steps (history_of self.old) }
        requires due { due_in self.old ≡ Some (end_at at) }
        ensures pool { HasParts self.new (self.old.steps + 1) (history_of self.old ++ end_at at ∷ []) }
        ensures less { left self.new.plan self.new.arrivals.now self.new.next (history_of self.old ++ end_at at ∷ []) < left_in self.old }
        ensures load { (self.new.plan ≡ self.old.plan) × (self.new.arrivals.now ≡ self.old.arrivals.now) × (self.new.steps ≡ self.old.steps) }
    {
        self.idle.pass(true, at);
        self.idle.remove_ending(at);
        self.workers -= 1;
        self.own_look = false;
        self.time = at;
    }

    // Carries out the event that is due. Errors: `AllocError` when out of memory.
    fn carry_out(&mut self, timed: TimedJdkEvent) -> Result<(), AllocError>
        requires pool { HasParts self.old self.old.steps (history_of self.old) }
        requires due { due_in self.old ≡ Some timed }
        ensures pool { OnOk result (HasParts self.new (self.old.steps + 1) (history_of self.old ++ timed ∷ [])) }
        ensures less { OnOk result (left self.new.plan self.new.arrivals.now self.new.next (history_of self.old ++ timed ∷ []) < left_in self.old) }
        ensures load { OnOk result ((self.new.plan ≡ self.old.plan) × (self.new.arrivals.now ≡ self.old.arrivals.now) × (self.new.steps ≡ self.old.steps)) }
    {
        match timed.event {
            JdkEvent::Submit { id, reply } => self.submit(id, reply, timed.at),
            JdkEvent::Take(id) => self.take(id, timed.at),
            JdkEvent::Finish(id) => self.finish(id, timed.at),
            _ => {
                self.end(timed.at);
                Ok(())
            }
        }
    }

    /// Carries out what happens next, and returns it: the event that follows on `history_of`. `None` when nothing is due any more: then what has
    /// happened is the history of the load.
    ///
    /// # Errors
    ///
    /// `AllocError` when out of memory. Nothing is known of the simulation after it.
    pub fn next(&mut self) -> Result<Option<TimedJdkEvent>, AllocError>
        requires { IsPool self.old }
        ensures pool { OnOk result (IsPool self.new) }
        ensures load { OnOk result ((plan_of self.new ≡ plan_of self.old) × (arrivals_of self.new ≡ arrivals_of self.old)) }
        ensures event { IfOk result (λ next. IfSome next (λ timed. history_of self.new ≡ history_of self.old ++ timed ∷ [])) }
        ensures less { IfOk result (λ next. IfSome next (λ timed. left_in self.new < left_in self.old)) }
        ensures same { IfOk result (λ next. IfNone next (self.new ≡ self.old)) }
        ensures end { IfOk result (λ next. IfNone next (IsSimulated (plan_of self.new) (arrivals_of self.new) (history_of self.new))) }
    {
        let Some(timed) = self.next_event() else {
            return Ok(None);
        };
        self.carry_out(timed)?;
        self.steps += 1;
        Ok(Some(timed))
    }
}
