//! The rule of admission over the jobs that wait, in the memory that it takes when it is made.
//!
//! A rule keeps no history. It keeps the numbers of workers and of submissions, the jobs that weren't picked
//! yet, and the ids of the jobs that are out. The contract of each call says how it changes these, and which
//! event it adds to every history that may have led to them. So a caller that keeps a history, or a ghost of
//! one, has the rule's promises about that history.
//!
//! `new` takes all the room, and `reserve_caller` takes more of it for callers. No other call allocates. Only
//! `find` searches: it looks through the places of the jobs that are out.

ghost use Rattle.std.specs.Prelude.{◌≡◌, ◌↔◌, ◌≤◌, ◌<◌, ◌-◌, ◌+◌, ℕ, None as nothing, Some, [], max, suc, true, false, if◌then◌else◌, length, option_map, slice_get, slice_index_or, IsTrue, IsOk, IfOk, IfErr, IfSome, IfNone, OnOk, OnErr};
ghost use Rattle.std.specs.Bool.{OnTrue, OnFalse};
ghost use Rattle.resil_rule.specs.History.{is_among};
ghost use Rattle.resil_rule.specs.Slots.{ids_out};
ghost use Rattle.resil_rule.specs.Limits.{AreSizesWithin};
ghost use Rattle.resil_rule.specs.Sizes.{IsCoreOf, IsRefusedResize};
ghost use Rattle.resil_rule.specs.RuleInvariant.{RuleInvariant};
ghost use Rattle.resil_rule.specs.RuleView.{RuleView, opened, busy, owed, next_reply, made_by, is_acceptance, with_submission, with_finish, with_close, with_idle_end, with_sizes, MayEndIdle, HasOneToPick};
ghost use Rattle.resil_rule.specs.RuleState.{IsStateOf, Follows, StaysAt, IsPicked, HasNoneToPick, IsSubmitRefusal};

use super::slots::{Slot, Slots};
use super::{AdmitError, Event, Id, Refusal, Reply, Sizes};
use circular_buffer::HeapCircularBuffer;
use std::alloc::{AllocError, Global};
use std::marker::Model;

/// The origin of a picked job. Only a take from the queue is an event.
#[derive(Clone, Copy, Debug, PartialEq, Eq)]
pub enum Origin {
    /// It had its own worker from its submission on.
    OwnStart,
    /// It was taken from the front of the queue.
    Queue,
}

/// A job that was picked. It is out until it is finished.
#[derive(Drop)]
pub struct Picked<W: Drop> {
    /// Its id and its place, which `Rule::finish` takes.
    pub slot: Slot,
    /// Its origin.
    pub origin: Origin,
    /// What was submitted.
    pub work: W,
}

/// The rule of a pool, used by one thread at a time (ThreadPoolExecutor class documentation, core and
/// maximum pool sizes, queuing, rejected tasks).
///
/// ```
/// let mut rule = Rule::new(alloc, Sizes::new(2, 4, 100)?, 2)?;
/// match rule.submit(Id { caller: 1, number: 1 }, work) {
///     Ok(reply) => println!(rt; "{reply:?}")?,
///     Err((refusal, _work)) => println!(rt; "{refusal}")?,
/// }
/// if let Some(picked) = rule.pick() {
///     run(picked.work);
///     rule.finish(picked.slot);
/// }
/// ```
#[derive(Drop)]
pub struct Rule<W: Drop> {
    // The sizes that it was made with.
    limits: Sizes,
    // The current core size.
    core: u32,
    // The current maximum size.
    max: u32,
    // Whether it is closed.
    closed: bool,
    // How many workers there are.
    workers: u32,
    // The jobs with their own worker that weren't picked yet, oldest first.
    unpicked: HeapCircularBuffer<(Id, W)>,
    // The jobs in the queue, oldest first.
    waiting: HeapCircularBuffer<(Id, W)>,
    // The jobs that are out.
    out: Slots,
    // How many submissions each caller made, by its number.
    made: Vec<u64>,
}

impl<W: Drop> Model for Rule<W> {
    ghost Value = { RuleView W };

    ghost view = { λ c. record { limits = c.limits; core = c.core; max = c.max; closed = c.closed; workers = c.workers; unpicked = c.unpicked.items; waiting = c.waiting.items; out = c.out; made = c.made.items } };

    ghost invariant = { RuleInvariant };
}

impl<W: Drop> Rule<W> {
    /// The rule of an open pool of these sizes, without workers or jobs, for the callers from 0 to
    /// `callers - 1`. At most 65,536 callers can be named. It takes the room for a full queue, for as many
    /// jobs as there may be workers, and for the count of each caller's submissions.
    ///
    /// # Errors
    ///
    /// `Memory` if out of memory.
    #[tactic(auto, using(crate::proofs::SlotLaws::places))]
    pub fn new(alloc: Global, limits: Sizes, callers: usize) -> Result<Rule<W>, AdmitError>
        ensures opened { IfOk result (λ c. c ≡ opened limits callers) }
        ensures history { IfOk result (IsStateOf []) }
        ensures memory { IfErr result (λ e. e ≡ AdmitError.Memory) }
    {
        let max = limits.max() as usize;
        let queue = limits.queue() as usize;
        Ok(Rule {
            limits,
            core: limits.core(),
            max: limits.max(),
            closed: false,
            workers: 0,
            unpicked: HeapCircularBuffer::with_capacity(alloc, max)?,
            waiting: HeapCircularBuffer::with_capacity(alloc, queue)?,
            out: Slots::new(alloc, max)?,
            made: vec![in alloc; 0; callers]?,
        })
    }

    /// Makes room to count a caller's submissions, which adds no event. A pool uses it for callers that
    /// weren't known when it was opened.
    ///
    /// # Errors
    ///
    /// `Memory` if the caller isn't counted yet and it is out of memory.
    ///
    /// ```
    /// rule.reserve_caller(65_535)?;
    /// ```
    pub fn reserve_caller(&mut self, caller: u16) -> Result<(), AdmitError>
        ensures known { OnOk result (caller < length self.new.made) }
        ensures known_before { length self.old.made ≤ length self.new.made }
        ensures no_others { length self.new.made ≤ max (length self.old.made) (suc caller) }
        ensures ready { caller < length self.old.made → IsOk result }
        ensures made { (other : ℕ) → made_by self.new other ≡ made_by self.old other }
        ensures rest { self.new ≡ record self.old { made = self.new.made } }
        ensures follows { StaysAt self.old self.new }
        ensures memory { IfErr result (λ e. e ≡ AdmitError.Memory) }
    {
        count_up_to(&mut self.made, caller)?;
        Ok(())
    }

    /// The reply to the next submission, by the rule of admission (ThreadPoolExecutor class documentation). The first
    /// line that fits decides. `Closed` apart from `Full` is our own.
    ///
    /// | When | Reply |
    /// |---|---|
    /// | the pool is closed | `Closed` |
    /// | there are fewer workers than the core size, even if some are idle | `Core` |
    /// | fewer jobs wait than the queue's capacity | `Queued` |
    /// | there are fewer workers than the maximum size | `Extra` |
    /// | otherwise | `Full` |
    ///
    /// ```
    /// let has_room = matches!(rule.next_reply(), Reply::Core | Reply::Queued | Reply::Extra);
    /// ```
    pub fn next_reply(&self) -> Reply
        ensures rule_of_admission { result ≡ next_reply self.now }
    {
        if self.closed {
            Reply::Closed
        } else if self.workers < self.core {
            Reply::Core
        } else if self.waiting.len() < self.limits.queue() as usize {
            Reply::Queued
        } else if self.workers < self.max {
            Reply::Extra
        } else {
            Reply::Full
        }
    }

    /// Submits work under its caller's next number. The reply, by the rule of admission, is `Core`, `Queued`
    /// or `Extra`, as `next_reply` gives it.
    ///
    /// # Errors
    ///
    /// In this order, each with the work handed back: `NoSuchCaller` if the caller's submissions aren't counted,
    /// and `WrongNumber` if the number isn't one more than the caller's submissions so far, both with nothing
    /// changed; `Closed` and `Full` by the rule, which count as submissions and are events like the others.
    ///
    /// ```
    /// let id = Id { caller: 1, number: rule.submissions(1) + 1 };
    /// let reply = rule.submit(id, work).map_err(|refused| refused.0)?;
    /// ```
    pub fn submit(&mut self, id: Id, work: W) -> Result<Reply, (Refusal, W)>
        ensures accepted { IfOk result (λ reply. (reply ≡ next_reply self.old) × (is_acceptance reply ≡ true) × (self.new ≡ with_submission self.old id work reply)) }
        ensures follows { IfOk result (λ reply. Follows self.old (Event.Submit id reply) self.new) }
        ensures refused { IfErr result (λ e. IsSubmitRefusal self.old id e.0 self.new) }
        ensures work_back { IfErr result (λ e. e.1 ≡ work) }
    {
        if self.made.len() <= id.caller as usize {
            return Err((Refusal::NoSuchCaller, work));
        }
        if !self.is_next(id) {
            return Err((Refusal::WrongNumber, work));
        }
        let reply = self.next_reply();
        match self.submit_with_reply(id, work, reply) {
            None => Ok(reply),
            Some(work) if reply == Reply::Closed => Err((Refusal::Closed, work)),
            Some(work) => Err((Refusal::Full, work)),
        }
    }

    /// Submits work under its caller's next number with the reply that `next_reply` gave. It is for a caller that must know the reply before
    /// anything changes, to take memory for an accepted job or to compare the reply. Returns the work if it is refused.
    ///
    /// ```
    /// let reply = rule.next_reply();
    /// record.reserve(rule.owed() + 3)?;
    /// let refused = rule.submit_with_reply(id, work, reply);
    /// ```
    pub fn submit_with_reply(&mut self, id: Id, work: W, reply: Reply) -> Option<W>
        requires known { id.caller < length self.old.made }
        requires next { id.number ≡ suc (made_by self.old id.caller) }
        requires reply { reply ≡ next_reply self.old }
        ensures submitted { self.new ≡ with_submission self.old id work reply }
        ensures follows { Follows self.old (Event.Submit id reply) self.new }
        ensures refused { result ≡ (if is_acceptance reply then nothing else Some work) }
    {
        self.made[id.caller as usize] = id.number;
        match reply {
            Reply::Core | Reply::Extra => {
                self.workers += 1;
                self.unpicked.try_push_back((id, work)).unwrap();
                None
            }
            Reply::Queued => {
                self.waiting.try_push_back((id, work)).unwrap();
                None
            }
            Reply::Full | Reply::Closed => Some(work),
        }
    }

    /// Whether an id is its caller's next one. After the largest number of 64 bits there is none.
    pub fn is_next(&self, id: Id) -> bool
        ensures { IsTrue result ↔ (id.number ≡ suc (made_by self.now id.caller)) }
    {
        id.number != 0 && id.number - 1 == self.submissions(id.caller)
    }

    /// Picks the oldest job that has its own worker and wasn't picked yet. If there is none, and fewer jobs
    /// run than there are workers, it takes the job at the front of the queue. The result says which of the
    /// two it was, and which place the job has until it is finished.
    #[tactic(auto, using(crate::proofs::SlotLaws::places))]
    pub fn pick(&mut self) -> Option<Picked<W>>
        ensures picked { IfSome result (λ p. IsPicked self.old p self.new) }
        ensures some { HasOneToPick self.old → IfNone result ⊥ }
        ensures none { IfNone result (HasNoneToPick self.old) }
        ensures unchanged { IfNone result (self.new ≡ self.old) }
    {
        if let Some((id, work)) = self.unpicked.pop_front() {
            let place = self.out.put(id);
            return Some(Picked {
                slot: Slot { id, place },
                origin: Origin::OwnStart,
                work,
            });
        }
        if self.out.len() >= self.workers as usize {
            return None;
        }
        let (id, work) = self.waiting.pop_front()?;
        let place = self.out.put(id);
        Some(Picked {
            slot: Slot { id, place },
            origin: Origin::Queue,
            work,
        })
    }

    /// Ends the run of a job that is out. Returns whether the job was out, that is, whether `pick` returned
    /// it with this place and it isn't finished yet.
    ///
    /// ```
    /// assert!(rt; rule.finish(picked.slot));
    /// assert!(rt; !rule.finish(picked.slot));
    /// ```
    #[tactic(auto, using(crate::proofs::SlotLaws::places, crate::proofs::RuleLaws::finish_follows))]
    pub fn finish(&mut self, slot: Slot) -> bool
        ensures out { IsTrue result ↔ (slice_get self.old.out slot.place ≡ Some (Some slot.id)) }
        ensures event { OnTrue result (self.new ≡ with_finish self.old slot) }
        ensures follows { OnTrue result (Follows self.old (Event.Finish slot.id) self.new) }
        ensures unchanged { OnFalse result (self.new ≡ self.old) }
    {
        self.out.clear(slot)
    }

    /// The id and the place of a job that is out. It looks through as many places as the maximum size at the
    /// opening, for a caller that knows only the id.
    pub fn find(&self, id: Id) -> Option<Slot>
        ensures found { IfSome result (λ slot. (slot.id ≡ id) × (slice_get self.now.out slot.place ≡ Some (Some id))) }
        ensures none { IfNone result (is_among id (ids_out self.now.out) ≡ false) }
    {
        let place = self.out.find(id)?;
        Some(Slot { id, place })
    }

    /// Closes the pool, and returns whether it was open. Jobs that were accepted can still be picked.
    ///
    /// ```
    /// assert!(rt; rule.close() && !rule.close());
    /// ```
    pub fn close(&mut self) -> bool
        ensures closes { IsTrue result ↔ (self.old.closed ≡ false) }
        ensures event { OnTrue result (self.new ≡ with_close self.old) }
        ensures follows { OnTrue result (Follows self.old Event.Close self.new) }
        ensures unchanged { OnFalse result (self.new ≡ self.old) }
    {
        if self.closed {
            return false;
        }
        self.closed = true;
        true
    }

    /// Ends an idle worker, and returns whether it did. It does so if no job waits, fewer jobs run than there
    /// are workers, and either there are more workers than the core size or the pool is closed.
    ///
    /// ```
    /// while rule.idle_end() {}
    /// ```
    #[tactic(auto, using(crate::proofs::RuleLaws::steps))]
    pub fn idle_end(&mut self) -> bool
        ensures ends { IsTrue result ↔ MayEndIdle self.old }
        ensures event { OnTrue result (self.new ≡ with_idle_end self.old) }
        ensures follows { OnTrue result (Follows self.old Event.IdleEnd self.new) }
        ensures unchanged { OnFalse result (self.new ≡ self.old) }
    {
        if !self.may_end_idle() {
            return false;
        }
        self.workers -= 1;
        true
    }

    /// Whether an idle worker may end, that is, whether `idle_end` would end one.
    pub fn may_end_idle(&self) -> bool
        ensures { IsTrue result ↔ MayEndIdle self.now }
    {
        let is_spare = self.workers > self.core || self.closed;
        self.waiting.is_empty() && self.has_idle_worker() && is_spare
    }

    /// Whether some worker has no job.
    pub fn has_idle_worker(&self) -> bool
        ensures { IsTrue result ↔ (busy self.now < self.now.workers) }
    {
        self.running() < self.workers as usize
    }

    /// Sets the core size and the maximum size, in workers, from here on. It starts and ends no worker, and
    /// doesn't change the capacity of the queue.
    ///
    /// # Errors
    ///
    /// In this order, with nothing changed: `CoreOutOfRange` if the core size isn't from 1 to `Sizes::most_core` of the
    /// sizes that the rule was made with, which is 64, or 1,024 if those are for more than 64 workers; `MaxOutOfRange` if
    /// the maximum size is less than the core size, or greater than the maximum size that the rule was made with.
    ///
    /// ```
    /// rule.resize(2, 3)?;
    /// ```
    pub fn resize(&mut self, core: u32, max: u32) -> Result<(), AdmitError>
        ensures within { IsOk result ↔ AreSizesWithin self.old.limits core max }
        ensures core { OnOk result (IsCoreOf self.old.limits core) }
        ensures event { OnOk result (self.new ≡ with_sizes self.old core max) }
        ensures follows { OnOk result (Follows self.old (Event.Resized core max) self.new) }
        ensures refused { IfErr result (IsRefusedResize self.old.limits core max) }
        ensures unchanged { OnErr result (self.new ≡ self.old) }
    {
        self.check_sizes(core, max)?;
        self.core = core;
        self.max = max;
        Ok(())
    }

    /// Whether `resize` would set these sizes.
    ///
    /// # Errors
    ///
    /// The errors of `resize`, in the same order.
    pub fn check_sizes(&self, core: u32, max: u32) -> Result<(), AdmitError>
        ensures within { IsOk result ↔ AreSizesWithin self.now.limits core max }
        ensures core { OnOk result (IsCoreOf self.now.limits core) }
        ensures refused { IfErr result (IsRefusedResize self.now.limits core max) }
    {
        let greatest = self.limits.max();
        let most = self.limits.most_core();
        if core < 1 || core > most {
            return Err(AdmitError::CoreOutOfRange);
        }
        if core > max || max > greatest {
            return Err(AdmitError::MaxOutOfRange);
        }
        Ok(())
    }

    /// Whether it is closed.
    pub fn closed(&self) -> bool
        ensures { result ≡ self.now.closed }
    {
        self.closed
    }

    /// How many workers there are: never more than the maximum size at the opening.
    pub fn workers(&self) -> u32
        ensures workers { result ≡ self.now.workers }
        ensures limit { (result ≤ self.now.limits.max) × (result ≤ 1024) }
    {
        self.workers
    }

    /// How many workers have a job, picked or not.
    pub fn running(&self) -> usize
        ensures running { result ≡ busy self.now }
        ensures limit { (result ≤ self.now.workers) × (result ≤ 1024) }
    {
        self.unpicked.len() + self.out.len()
    }

    /// How many jobs with their own worker weren't picked yet.
    pub fn unpicked(&self) -> usize
        ensures { result ≡ length self.now.unpicked }
    {
        self.unpicked.len()
    }

    /// How many jobs wait in the queue: never more than its capacity.
    pub fn waiting(&self) -> usize
        ensures waiting { result ≡ length self.now.waiting }
        ensures limit { (result ≤ self.now.limits.queue) × (result ≤ 65536) }
    {
        self.waiting.len()
    }

    /// How many more jobs the queue has room for.
    pub fn room(&self) -> usize
        ensures { result + length self.now.waiting ≡ self.now.limits.queue }
    {
        self.limits.queue() as usize - self.waiting.len()
    }

    /// The number of events that may still come of what the rule has, whatever else is submitted: the take and the
    /// finish of each job that waits, the finish of each job that runs, the end of each worker, and the closing. A
    /// pool whose record has room for that many events can run out of memory only in a submission or a resize.
    ///
    /// ```
    /// record.reserve(rule.owed() + 3)?;
    /// ```
    pub fn owed(&self) -> usize
        ensures owed { result ≡ owed self.now }
        ensures limit { result ≤ 133121 }
    {
        let closing = usize::from(!self.closed);
        2 * self.waiting() + self.running() + self.workers() as usize + closing
    }

    /// The id of the job at the front of the queue.
    pub fn front(&self) -> Option<Id>
        ensures { result ≡ option_map (λ job. job.0) (slice_get self.now.waiting 0) }
    {
        match self.waiting.front() {
            Some(job) => Some(job.0),
            None => None,
        }
    }

    /// The current core size, in workers.
    pub fn core(&self) -> u32
        ensures { result ≡ self.now.core }
    {
        self.core
    }

    /// The current maximum size, in workers.
    pub fn max(&self) -> u32
        ensures { result ≡ self.now.max }
    {
        self.max
    }

    /// The sizes that it was made with.
    pub fn limits(&self) -> Sizes
        ensures { result ≡ self.now.limits }
    {
        self.limits
    }

    /// How many submissions a caller made, refused ones too.
    pub fn submissions(&self, caller: u16) -> u64
        ensures { result ≡ made_by self.now caller }
    {
        self.made.get(caller as usize).copied().unwrap_or(0)
    }
}

// Counts the callers from 0 to this one. Those that weren't counted yet begin with no submission. Errors: `AllocError`
// if out of memory; then the number of each caller's submissions is unchanged.
fn count_up_to(made: &mut Vec<u64>, caller: u16) -> Result<(), AllocError>
    ensures reaches { OnOk result (caller < length made.new.items) }
    ensures grows { length made.old.items ≤ length made.new.items }
    ensures no_further { length made.new.items ≤ max (length made.old.items) (suc caller) }
    ensures ready { caller < length made.old.items → IsOk result }
    ensures same { (other : ℕ) → slice_index_or made.new.items other 0 ≡ slice_index_or made.old.items other 0 }
{
    while made.len() <= caller as usize {
        made.push(0)?;
    }
    Ok(())
}
