//! The whole rule of a ThreadPoolExecutor, over the ids of its jobs.
//!
//! It keeps no history: only numbers, the jobs that wait and those that run. An event takes the same time however many these
//! are, except for the growth of a table. The memory is that of the most jobs that were in the pool at once and of a count
//! for each caller, and never that of the sizes: a queue may have room for 2,147,483,647 jobs.
//!
//! The jobs in the queue are in a line, the oldest first, and in a set. A job that leaves the queue leaves the set, and the
//! line later: from its front at the next look-up, or once more than half of the line have left.

ghost use Rattle.std.specs.Prelude.{◌≡◌, ◌↔◌, ◌≤◌, ◌<◌, ◌+◌, ◌-◌, ◌++◌, ◌∷◌, [], ℕ, suc, max, true, false, not, filter, length, slice_get, slice_index_or, IsTrue, IfOk, IfErr, IsOk, OnOk, OnErr, if◌then◌else◌, ◌==◌};
ghost use Rattle.std.specs.Bool.{OnTrue, OnFalse};
ghost use Rattle.resil_rule.specs.History.{is_among, times};
ghost use Rattle.resil_jdk.specs.RuleInvariant.{RuleInvariant};
ghost use Rattle.resil_jdk.specs.RuleView.{JdkView, opened, next_reply, made_by, kept, queue_of, joined, May, IsStep, IsTidied, IsPlaced, IsSameQueue};
ghost use Rattle.resil_jdk.specs.RuleState.{IsStateOf, Follows, StaysAt, IsBarred};

pub mod answer;

use super::jobs::Jobs;
use super::{JdkError, JdkEvent, JdkLimits, JdkReply};
use resil_rule::Id;
use std::alloc::{AllocError, Global};
use std::collections::VecDeque;
use std::marker::Model;

/// The rule of a pool, used by one thread at a time (ThreadPoolExecutor class documentation).
///
/// ```
/// let mut rule = JdkRule::new(alloc, JdkLimits::new(0, 1, 0)?);
/// let id = Id { caller: 1, number: 1 };
/// assert!(rt; rule.follow(JdkEvent::Submit { id, reply: JdkReply::Extra })?);
/// assert!(rt; !rule.follow(JdkEvent::Take(id))?);
/// ```
#[derive(Drop)]
pub struct JdkRule {
    // The sizes at making.
    limits: JdkLimits,
    // The core size now.
    core: u32,
    // The maximum size now.
    max: u32,
    // Whether core workers time out.
    time_out: bool,
    // Whether it is closed.
    closed: bool,
    // Whether it is stopped.
    stopped: bool,
    // How many workers there are.
    workers: u32,
    // The jobs that were queued, oldest first; some that have left the queue may still be here.
    line: VecDeque<Id>,
    // The jobs that wait.
    waits: Jobs,
    // The jobs that run.
    runs: Jobs,
    // How many submissions each caller made, by its number.
    made: Vec<u64>,
}

impl Model for JdkRule {
    ghost Value = { JdkView };

    ghost view = { λ c. record { limits = c.limits; core = c.core; max = c.max; time_out = c.time_out; closed = c.closed; stopped = c.stopped; workers = c.workers; line = c.line.items; waits = c.waits; runs = c.runs; made = c.made.items } };

    ghost invariant = { RuleInvariant };
}

impl JdkRule {
    /// The rule of an open pool of these limits without workers or jobs. It takes no memory.
    pub fn new(alloc: Global, limits: JdkLimits) -> JdkRule
        ensures opened { result ≡ opened limits }
        ensures history { IsStateOf [] result }
    {
        JdkRule {
            limits,
            core: limits.core(),
            max: limits.max(),
            time_out: false,
            closed: false,
            stopped: false,
            workers: 0,
            line: VecDeque::new(alloc),
            waits: Jobs::new(alloc),
            runs: Jobs::new(alloc),
            made: Vec::new(alloc),
        }
    }

    /// The answer to the next submission (ThreadPoolExecutor class documentation): the first line that fits decides. That
    /// `Closed` and `Full` are two answers is our own.
    ///
    /// | When | Answer |
    /// |---|---|
    /// | the pool is closed | `Closed` |
    /// | there are fewer workers than the core size, even if some are idle | `Core` |
    /// | fewer jobs wait than the queue's capacity, and there is no worker | `First` |
    /// | fewer jobs wait than the queue's capacity | `Queued` |
    /// | the queue's capacity is 0, and a worker is idle | `Handed` |
    /// | there are fewer workers than the maximum size | `Extra` |
    /// | otherwise | `Full` |
    ///
    /// ```
    /// let has_room = !matches!(rule.next_reply(), JdkReply::Full | JdkReply::Closed);
    /// ```
    pub fn next_reply(&self) -> JdkReply
        ensures rule_of_admission { result ≡ next_reply self.now }
    {
        if self.closed {
            JdkReply::Closed
        } else if self.workers < self.core {
            JdkReply::Core
        } else if self.waits.len() < self.limits.queue() as usize {
            if self.workers == 0 {
                JdkReply::First
            } else {
                JdkReply::Queued
            }
        } else if self.limits.queue() == 0 && self.has_idle_worker() {
            JdkReply::Handed
        } else if self.workers < self.max {
            JdkReply::Extra
        } else {
            JdkReply::Full
        }
    }

    /// Takes the rule one event further, and returns whether it allows it: a submission with the reply that it has, a job
    /// that is taken, finished or removed by its id (ThreadPoolExecutor class documentation). An event that it doesn't allow
    /// leaves it as it was.
    ///
    /// # Errors
    ///
    /// `Memory`, for a submission and a take, when out of memory; then it is as it was.
    #[tactic(auto, using(crate::proofs::StepLaws::barred, crate::proofs::StepLaws::stays))]
    pub fn follow(&mut self, event: JdkEvent) -> Result<bool, JdkError>
        ensures allowed { IfOk result (λ allowed. OnTrue allowed (Follows self.old event self.new)) }
        ensures refused { IfOk result (λ allowed. OnFalse allowed (IsBarred self.old event)) }
        ensures stays { IfOk result (λ allowed. OnFalse allowed (StaysAt self.old self.new)) }
        ensures limits { self.new.limits ≡ self.old.limits }
        ensures memory { IfErr result (λ e. (e ≡ JdkError.Memory) × StaysAt self.old self.new) }
    {
        match event {
            JdkEvent::Submit { id, reply } => self.submit(id, reply),
            JdkEvent::Take(id) => self.take(id),
            JdkEvent::Finish(id) => Ok(self.finish(id)),
            JdkEvent::IdleEnd => Ok(self.idle_end()),
            JdkEvent::Close => Ok(self.close()),
            JdkEvent::Resized { core, max } => Ok(self.resize(core, max)),
            JdkEvent::Start => Ok(self.start()),
            JdkEvent::Cull => Ok(self.cull()),
            JdkEvent::Remove(id) => Ok(self.remove(id)),
            JdkEvent::Stop => Ok(self.stop()),
            JdkEvent::TimeOut(on) => {
                self.set_time_out(on);
                Ok(true)
            }
        }
    }

    // Whether some worker has no job.
    fn has_idle_worker(&self) -> bool
        ensures { IsTrue result ↔ (length self.now.runs < self.now.workers) }
    {
        self.runs.len() < self.workers as usize
    }

    // Whether an id is its caller's next one. There is none past what 64 bits can count.
    fn is_next(&self, id: Id) -> bool
        ensures { IsTrue result ↔ (id.number ≡ suc (made_by self.now id.caller)) }
    {
        let made = self.made.get(id.caller as usize).copied().unwrap_or(0);
        id.number != 0 && id.number - 1 == made
    }

    // How many workers stay when nothing waits.
    fn kept(&self) -> u32
        ensures { result ≡ kept self.now }
    {
        if self.time_out { 0 } else { self.core }
    }

    // A submission and its answer.
    fn submit(&mut self, id: Id, reply: JdkReply) -> Result<bool, JdkError>
        ensures may { IfOk result (λ allowed. OnTrue allowed (May self.old (JdkEvent.Submit id reply))) }
        ensures placed { IfOk result (λ allowed. OnTrue allowed (IsPlaced self.old id reply self.new)) }
        ensures made { IfOk result (λ allowed. OnTrue allowed ((caller : ℕ) → made_by self.new caller ≡ made_by self.old caller + (if id.caller == caller then 1 else 0))) }
        ensures refused { IfOk result (λ allowed. OnFalse allowed (¬ May self.old (JdkEvent.Submit id reply))) }
        ensures tidied { IfOk result (λ allowed. OnFalse allowed (IsTidied self.old self.new)) }
        ensures memory { IfErr result (λ e. (e ≡ JdkError.Memory) × IsTidied self.old self.new) }
        ensures limits { self.new.limits ≡ self.old.limits }
    {
        if !self.is_next(id) || reply != self.next_reply() {
            return Ok(false);
        }
        count_up_to(&mut self.made, id.caller)?;
        if !self.place(id, reply)? {
            return Ok(false);
        }
        self.made[id.caller as usize] = id.number;
        Ok(true)
    }

    // Puts a job where the answer says, and returns whether it wasn't there.
    fn place(&mut self, id: Id, reply: JdkReply) -> Result<bool, JdkError>
        requires answer { reply ≡ next_reply self.old }
        requires sizes { (1 ≤ self.old.limits.max) × (self.old.core ≤ self.old.limits.max) × (self.old.max ≤ self.old.limits.max) }
        ensures new { IfOk result (λ placed. placed ≡ not (is_among id (joined self.old reply))) }
        ensures placed { IfOk result (λ placed. OnTrue placed (IsPlaced self.old id reply self.new)) }
        ensures made { self.new.made ≡ self.old.made }
        ensures unchanged { IfOk result (λ placed. OnFalse placed (self.new ≡ self.old)) }
        ensures memory { IfErr result (λ e. (e ≡ JdkError.Memory) × (self.new ≡ self.old)) }
    {
        match reply {
            JdkReply::Core => self.run_by_new(id),
            JdkReply::First => self.enqueue_first(id),
            JdkReply::Queued => self.enqueue(id),
            JdkReply::Handed => Ok(self.runs.insert(id)?),
            JdkReply::Extra => self.run_by_new(id),
            JdkReply::Full => Ok(true),
            JdkReply::Closed => Ok(true),
        }
    }

    // A new worker runs a job, if it doesn't run yet.
    fn run_by_new(&mut self, id: Id) -> Result<bool, JdkError>
        requires { self.old.workers < self.old.limits.max }
        ensures new { IfOk result (λ placed. placed ≡ not (is_among id self.old.runs)) }
        ensures placed { IfOk result (λ placed. OnTrue placed (self.new ≡ record self.old { workers = self.old.workers + 1; runs = self.new.runs })) }
        ensures runs { IfOk result (λ placed. OnTrue placed ((x : Id) → times x self.new.runs ≡ times x self.old.runs + times x (id ∷ []))) }
        ensures unchanged { IfOk result (λ placed. OnFalse placed (self.new ≡ self.old)) }
        ensures memory { IfErr result (λ e. (e ≡ JdkError.Memory) × (self.new ≡ self.old)) }
    {
        if !self.runs.insert(id)? {
            return Ok(false);
        }
        self.workers += 1;
        Ok(true)
    }

    // Puts a job into the queue, and a worker begins, if it isn't there yet.
    fn enqueue_first(&mut self, id: Id) -> Result<bool, JdkError>
        requires { self.old.workers < self.old.limits.max }
        ensures new { IfOk result (λ placed. placed ≡ not (is_among id self.old.waits)) }
        ensures placed { IfOk result (λ placed. OnTrue placed (self.new ≡ record self.old { workers = self.old.workers + 1; line = self.old.line ++ id ∷ []; waits = self.new.waits })) }
        ensures waits { IfOk result (λ placed. OnTrue placed ((x : Id) → times x self.new.waits ≡ times x self.old.waits + times x (id ∷ []))) }
        ensures unchanged { IfOk result (λ placed. OnFalse placed (self.new ≡ self.old)) }
        ensures memory { IfErr result (λ e. (e ≡ JdkError.Memory) × (self.new ≡ self.old)) }
    {
        if !self.enqueue(id)? {
            return Ok(false);
        }
        self.workers += 1;
        Ok(true)
    }

    // Puts a job into the queue, if it isn't there yet.
    fn enqueue(&mut self, id: Id) -> Result<bool, JdkError>
        ensures new { IfOk result (λ placed. placed ≡ not (is_among id self.old.waits)) }
        ensures placed { IfOk result (λ placed. OnTrue placed (self.new ≡ record self.old { line = self.old.line ++ id ∷ []; waits = self.new.waits })) }
        ensures waits { IfOk result (λ placed. OnTrue placed ((x : Id) → times x self.new.waits ≡ times x self.old.waits + times x (id ∷ []))) }
        ensures unchanged { IfOk result (λ placed. OnFalse placed (self.new ≡ self.old)) }
        ensures memory { IfErr result (λ e. (e ≡ JdkError.Memory) × (self.new ≡ self.old)) }
    {
        self.line.reserve(1)?;
        if !self.waits.insert(id)? {
            return Ok(false);
        }
        self.line.push_back_reserved(id);
        Ok(true)
    }

    // A worker takes the job at the front of the queue.
    fn take(&mut self, id: Id) -> Result<bool, JdkError>
        ensures may { IfOk result (λ allowed. OnTrue allowed (May self.old (JdkEvent.Take id))) }
        ensures refused { IfOk result (λ allowed. OnFalse allowed (¬ May self.old (JdkEvent.Take id))) }
        ensures left { IfOk result (λ allowed. OnTrue allowed ((x : Id) → times x self.new.waits + times x (id ∷ []) ≡ times x self.old.waits)) }
        ensures runs { IfOk result (λ allowed. OnTrue allowed ((x : Id) → times x self.new.runs ≡ times x self.old.runs + times x (id ∷ []))) }
        ensures rest { self.new ≡ record self.old { line = self.new.line; waits = self.new.waits; runs = self.new.runs } }
        ensures line { IsSameQueue self.old.waits self.old.line self.new.line }
        ensures unchanged { IfOk result (λ allowed. OnFalse allowed ((self.new.waits ≡ self.old.waits) × (self.new.runs ≡ self.old.runs))) }
        ensures memory { IfErr result (λ e. (e ≡ JdkError.Memory) × (self.new.waits ≡ self.old.waits) × (self.new.runs ≡ self.old.runs)) }
        ensures limits { self.new.limits ≡ self.old.limits }
    {
        if self.stopped || !self.has_idle_worker() {
            return Ok(false);
        }
        if front_of(&mut self.line, &self.waits) != Some(id) {
            return Ok(false);
        }
        if !self.runs.insert(id)? {
            return Ok(false);
        }
        self.waits.remove(id);
        Ok(true)
    }

    // A worker finishes a job.
    fn finish(&mut self, id: Id) -> bool
        ensures may { result ≡ is_among id self.old.runs }
        ensures runs { OnTrue result ((x : Id) → times x self.new.runs + times x (id ∷ []) ≡ times x self.old.runs) }
        ensures rest { self.new ≡ record self.old { runs = self.new.runs } }
        ensures unchanged { OnFalse result (self.new ≡ self.old) }
        ensures limits { self.new.limits ≡ self.old.limits }
    {
        self.runs.remove(id)
    }

    // A job leaves the queue without a worker.
    fn remove(&mut self, id: Id) -> bool
        ensures may { result ≡ is_among id self.old.waits }
        ensures left { OnTrue result ((x : Id) → times x self.new.waits + times x (id ∷ []) ≡ times x self.old.waits) }
        ensures rest { self.new ≡ record self.old { line = self.new.line; waits = self.new.waits } }
        ensures line { IsSameQueue self.new.waits self.old.line self.new.line }
        ensures unchanged { OnFalse result (self.new ≡ self.old) }
        ensures limits { self.new.limits ≡ self.old.limits }
    {
        if !self.waits.remove(id) {
            return false;
        }
        drop_left(&mut self.line, &self.waits);
        true
    }

    // An idle worker ends.
    fn idle_end(&mut self) -> bool
        ensures may { OnTrue result (May self.old JdkEvent.IdleEnd) }
        ensures event { OnTrue result (self.new ≡ record self.old { workers = self.old.workers - 1 }) }
        ensures refused { OnFalse result (¬ May self.old JdkEvent.IdleEnd) }
        ensures unchanged { OnFalse result (self.new ≡ self.old) }
        ensures limits { self.new.limits ≡ self.old.limits }
    {
        let is_spare = self.workers > self.kept() || self.closed;
        if self.waits.len() > 0 || !self.has_idle_worker() || !is_spare {
            return false;
        }
        self.workers -= 1;
        true
    }

    // A worker without a job ends though jobs may wait.
    fn cull(&mut self) -> bool
        ensures may { OnTrue result (May self.old JdkEvent.Cull) }
        ensures event { OnTrue result (self.new ≡ record self.old { workers = self.old.workers - 1 }) }
        ensures refused { OnFalse result (¬ May self.old JdkEvent.Cull) }
        ensures unchanged { OnFalse result (self.new ≡ self.old) }
        ensures limits { self.new.limits ≡ self.old.limits }
    {
        let is_spare = self.workers > self.max || self.stopped;
        if !self.has_idle_worker() || !is_spare {
            return false;
        }
        self.workers -= 1;
        true
    }

    // A worker begins without a job.
    fn start(&mut self) -> bool
        ensures may { OnTrue result (May self.old JdkEvent.Start) }
        ensures event { OnTrue result (self.new ≡ record self.old { workers = self.old.workers + 1 }) }
        ensures refused { OnFalse result (¬ May self.old JdkEvent.Start) }
        ensures unchanged { OnFalse result (self.new ≡ self.old) }
        ensures limits { self.new.limits ≡ self.old.limits }
    {
        let has_use = !self.closed || self.waits.len() > 0;
        if self.workers >= self.core || self.stopped || !has_use {
            return false;
        }
        self.workers += 1;
        true
    }

    // The pool is closed.
    fn close(&mut self) -> bool
        ensures may { OnTrue result (May self.old JdkEvent.Close) }
        ensures event { OnTrue result (self.new ≡ record self.old { closed = true }) }
        ensures refused { OnFalse result (¬ May self.old JdkEvent.Close) }
        ensures unchanged { OnFalse result (self.new ≡ self.old) }
        ensures limits { self.new.limits ≡ self.old.limits }
    {
        if self.closed {
            return false;
        }
        self.closed = true;
        true
    }

    // The pool is stopped, and by that closed.
    fn stop(&mut self) -> bool
        ensures may { OnTrue result (May self.old JdkEvent.Stop) }
        ensures event { OnTrue result (self.new ≡ record self.old { closed = true; stopped = true }) }
        ensures refused { OnFalse result (¬ May self.old JdkEvent.Stop) }
        ensures unchanged { OnFalse result (self.new ≡ self.old) }
        ensures limits { self.new.limits ≡ self.old.limits }
    {
        if self.stopped {
            return false;
        }
        self.closed = true;
        self.stopped = true;
        true
    }

    // The core and maximum sizes are set.
    fn resize(&mut self, core: u32, max: u32) -> bool
        ensures may { OnTrue result (May self.old (JdkEvent.Resized core max)) }
        ensures event { OnTrue result (self.new ≡ record self.old { core = core; max = max }) }
        ensures refused { OnFalse result (¬ May self.old (JdkEvent.Resized core max)) }
        ensures unchanged { OnFalse result (self.new ≡ self.old) }
        ensures limits { self.new.limits ≡ self.old.limits }
    {
        if core > max || max < 1 || max > self.limits.max() {
            return false;
        }
        self.core = core;
        self.max = max;
        true
    }

    // Whether core workers time out is set.
    fn set_time_out(&mut self, on: bool)
        ensures { self.new ≡ record self.old { time_out = on } }
    {
        self.time_out = on;
    }
}

// The first job in the line that waits. Those before it leave the line.
fn front_of(line: &mut VecDeque<Id>, waits: &Jobs) -> Option<Id>
    ensures front { result ≡ slice_get (filter (λ id. is_among id waits.now) line.old.items) 0 }
    ensures same { IsSameQueue waits.now line.old.items line.new.items }
{
    while let Some(front) = line.front().copied() {
        if waits.contains(front) {
            return Some(front);
        }
        line.pop_front();
    }
    None
}

// Drops the jobs that don't wait from the line, if they are more than half of it.
fn drop_left(line: &mut VecDeque<Id>, waits: &Jobs)
    ensures { IsSameQueue waits.now line.old.items line.new.items }
{
    if line.len() / 2 > waits.len() {
        line.retain(|id| waits.contains(*id));
    }
}

// Counts the callers from 0 to this one; those that weren't counted yet have made no submission. Errors: `AllocError` when
// out of memory, and then each caller has the submissions that it had.
fn count_up_to(made: &mut Vec<u64>, caller: u16) -> Result<(), AllocError>
    ensures reaches { OnOk result (caller < length made.new.items) }
    ensures same { (other : ℕ) → slice_index_or made.new.items other 0 ≡ slice_index_or made.old.items other 0 }
{
    while made.len() <= caller as usize {
        made.push(0)?;
    }
    Ok(())
}
