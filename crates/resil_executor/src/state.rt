//! The state under the lock: the rule of admission, what the last turn noted, and the record of the history.
//!
//! The record has room for all events that may come of what the rule has: the finish of each job that runs, the
//! take and the finish of each job that waits, the end of each worker, and the closing. A submission and a resize
//! make room for more before they change anything, so only these two can be refused with `Memory`.
ghost use Rattle.std.specs.Prelude.{◌≡◌, ◌≤◌, ◌⊎◌, ◌+◌, ◌<◌, [], ◌++◌, ◌∷◌, List, true, false, suc, length, slice_get, IfOk, IfErr, IfSome, IfNone, OnOk, OnErr, IsTrue, ◌↔◌, Some, None as nothing};
ghost use Rattle.std.specs.Bool.{OnTrue, OnFalse};
ghost use Rattle.resil_rule.specs.History.{is_among};
ghost use Rattle.resil_rule.specs.Slots.{ids_out};
ghost use Rattle.resil_rule.specs.Sizes.{IsRefusedResize};
ghost use Rattle.resil_rule.specs.RuleState.{IsStateOf, Follows};
ghost use Rattle.resil_rule.specs.RuleView.{opened, busy, owed, made_by, is_acceptance, with_finish, MayEndIdle};
ghost use Rattle.resil_rule.specs.declared.event.Event.{Event as AnEvent};
ghost use Rattle.resil_executor.specs.Turn.{Steps, Writes, WritesNone, Accepts, Refuses, Picks, IsPlain, IsVisit, HasNoneToRun, HasWork, IsOverNow, MayBegin};
ghost use Rattle.resil_lock.specs.Work.{OnFound, OnNothing, OnOver};
ghost use Rattle.resil_executor.specs.Kept.{unfinished, events_of, Keeps, LacksRoom};
ghost use Rattle.resil_lock.specs.declared.log.Note.TheVariants as note;
ghost use Rattle.resil_rule.specs.declared.rule.Origin.TheVariants as origin;

use crate::job::PickedJob;
use crate::log::Entry;
use crate::opening::Opening;
use resil_lock::{Guarded, Look, Note};
use resil_rule::{AdmitError, Event, Id, Origin, Record, Refusal, Reply, Rule, Sizes, Slot};
use resil_task::by_hand::RunOnce;
use std::alloc::{AllocError, Global};

// The caller of all submissions of a pool. A text of events numbers its callers from 1.
const CALLER: u16 = 1;

/// Why a job isn't accepted.
///
/// ```
/// match pool.submit_job(&rt, &mut visitor, work) {
///     Ok((id, _reply)) => println!(rt; "job {} runs or waits", id.number)?,
///     Err((Refused::Full | Refused::Memory, work)) => later.push(work)?,
///     Err((Refused::Closed | Refused::Spent, _work)) => println!(rt; "too late")?,
/// }
/// ```
#[derive(Clone, Copy, Debug, PartialEq, Eq)]
pub enum Refused {
    /// There were 2^64 - 1 submissions, and no more can be counted. Nothing is written.
    Spent,
    /// Out of memory, for the record of the history or for the answer. Nothing is written.
    Memory,
    /// The pool is closed.
    Closed,
    /// The queue is full, and there are as many workers as the maximum size.
    Full,
}

/// The numbers of a pool between two turns.
///
/// ```
/// let numbers = pool.numbers(&rt);
/// println!(rt; "{} run, {} wait", numbers.running, numbers.waiting)?;
/// ```
#[derive(Clone, Copy, Debug, PartialEq, Eq)]
pub struct Numbers {
    /// How many workers there are.
    pub workers: u32,
    /// How many workers have a job.
    pub running: usize,
    /// How many jobs wait in the queue.
    pub waiting: usize,
    /// How many more jobs may wait.
    pub room: usize,
    /// The core size, in workers.
    pub core: u32,
    /// The maximum size, in workers.
    pub max: u32,
    /// How many jobs were accepted.
    pub accepted: u64,
    /// How many submissions were refused, by `Full` or `Closed`.
    pub refused: u64,
    /// How many jobs are finished.
    pub finished: u64,
    /// Whether it is closed.
    pub closed: bool,
}

/// The rule, what the last turn noted, how many jobs were accepted, and the record of the history.
#[derive(Drop)]
pub struct State<W: Drop, H: Record> {
    rule: Rule<W>,
    last: Option<Note>,
    accepted: u64,
    kept: H,
}

/// The state in its own block of memory. Contracts see the state.
pub type BoxedState<W, H> = resil_lock::BoxedState<State<W, H>>;

impl<W: Drop, H: Record> Guarded for State<W, H> {
    ghost use Rattle.resil_executor.specs.Log.{StandsFor, MayHaveWritten, entries_of};
    ghost use Rattle.resil_executor.specs.Kept.{KeepsUp};
    ghost use Rattle.resil_executor.specs.Turn.{HasWork};

    type Key = Opening<H>;

    type Entry = Entry<W>;

    ghost StandsFor = { λ opening log state. StandsFor opening.limits log state.rule × KeepsUp H.IsRecordOf H.HasRoom log state.rule state.accepted state.kept × (H.capacity state.kept ≡ H.capacity opening.blank.value) };

    ghost MayHaveWritten = { MayHaveWritten };

    ghost written = { λ state. entries_of state.rule state.last };

    ghost HasWork = { λ state. HasWork state.rule };

    /// Whether there is a job to pick that may begin, or the pool is over. While the last jobs of a closed pool run,
    /// workers without a job sleep.
    fn has_work(&self) -> bool {
        self.is_over()
            || self.rule.unpicked() > 0
            || (self.rule.waiting() > 0 && self.rule.has_idle_worker() && !self.holds_back())
    }
}

// The pool's own next id. After the largest number of 64 bits there is none.
fn next_id<W: Drop>(rule: &Rule<W>) -> Option<Id>
    ensures next { IfSome result (λ id. (id.caller ≡ 1) × (id.number ≡ suc (made_by rule.now 1))) }
    ensures counted { IfSome result (λ _. made_by rule.now 1 < 18446744073709551615) }
    ensures spent { IfNone result (made_by rule.now 1 ≡ 18446744073709551615) }
{
    let number = rule.submissions(CALLER).checked_add(1)?;
    Some(Id {
        caller: CALLER,
        number,
    })
}

// Ends a job that is out, and returns where it was: at the given place, or else at the place that a search finds.
fn end_job<W: Drop>(rule: &mut Rule<W>, slot: Slot) -> Slot
    requires out { is_among slot.id (ids_out rule.old.out) ≡ true }
    ensures id { result.id ≡ slot.id }
    ensures place { slice_get rule.old.out result.place ≡ Some (Some result.id) }
    ensures event { rule.new ≡ with_finish rule.old result }
    ensures follows { Follows rule.old (Event.Finish result.id) rule.new }
{
    if rule.finish(slot) {
        return slot;
    }
    let Some(found) = rule.find(slot.id) else {
        unreachable!()
    };
    rule.finish(found);
    found
}

impl<W: Drop, H: Record> State<W, H> {
    /// The state of a pool that was just opened, with a record of no events.
    ///
    /// # Errors
    ///
    /// `Memory` if out of memory.
    pub fn new(alloc: Global, limits: Sizes, blank: H) -> Result<State<W, H>, AdmitError>
        requires blank { H.IsRecordOf [] blank }
        ensures opened { IfOk result (λ s. (s.rule ≡ opened limits 2) × (s.last ≡ nothing) × (s.accepted ≡ 0)) }
        ensures history { IfOk result (λ s. IsStateOf [] s.rule) }
        ensures recorded { IfOk result (λ s. H.IsRecordOf [] s.kept × H.HasRoom 1 s.kept) }
        ensures capacity { IfOk result (λ s. H.capacity s.kept ≡ H.capacity blank) }
        ensures memory { IfErr result (λ e. e ≡ AdmitError.Memory) }
    {
        let mut kept = blank;
        kept.reserve(1)?;
        let rule = Rule::new(alloc, limits, 2)?;
        Ok(State {
            rule,
            last: None,
            accepted: 0,
            kept,
        })
    }

    // Whether no job is taken from the queue because as many run as the current maximum size allows. A job with its own worker was
    // let in under the sizes at its submission.
    fn holds_back(&self) -> bool
        ensures held { OnTrue result (self.now.rule.max ≤ busy self.now.rule) }
        ensures free { OnFalse result (MayBegin self.now.rule) }
    {
        self.rule.unpicked() == 0 && self.rule.running() >= self.rule.max() as usize
    }

    // Makes room for this many events besides those that are owed.
    fn make_room(&mut self, events: usize) -> Result<(), AllocError>
        requires few { events ≤ 3 }
        requires owed { H.HasRoom (owed self.old.rule) self.old.kept }
        ensures same { (self.new.rule ≡ self.old.rule) × (self.new.last ≡ self.old.last) × (self.new.accepted ≡ self.old.accepted) }
        ensures kept { (history : List AnEvent) → H.IsRecordOf history self.old.kept → H.IsRecordOf history self.new.kept }
        ensures room { OnOk result (H.HasRoom (owed self.new.rule + events) self.new.kept) }
        ensures owed { H.HasRoom (owed self.new.rule) self.new.kept }
        ensures capacity { H.capacity self.new.kept ≡ H.capacity self.old.kept }
        ensures lacks { OnErr result (LacksRoom H.HasRoom) }
        ensures refused { OnErr result (¬ H.HasRoom (owed self.old.rule + events) self.old.kept) }
    {
        let all = self.rule.owed() + events;
        self.kept.reserve(all)
    }

    // Notes an event, and writes it into the record.
    fn note(&mut self, event: Event)
        requires room { H.HasRoom (suc (owed self.old.rule)) self.old.kept }
        ensures same { (self.new.rule ≡ self.old.rule) × (self.new.last ≡ Some (note.Event event)) × (self.new.accepted ≡ self.old.accepted) }
        ensures recorded { (history : List AnEvent) → H.IsRecordOf history self.old.kept → H.IsRecordOf (history ++ event ∷ []) self.new.kept }
        ensures room { H.HasRoom (owed self.new.rule) self.new.kept }
        ensures capacity { H.capacity self.new.kept ≡ H.capacity self.old.kept }
    {
        self.kept.write(event);
        self.last = Some(Note::Event(event));
    }

    // Notes a pick. Only a take from the queue is an event.
    fn note_pick(&mut self, from: Origin, id: Id)
        requires started { from ≡ origin.OwnStart → H.HasRoom (owed self.old.rule) self.old.kept }
        requires took { from ≡ origin.Queue → H.HasRoom (suc (owed self.old.rule)) self.old.kept }
        ensures same { (self.new.rule ≡ self.old.rule) × (self.new.accepted ≡ self.old.accepted) }
        ensures own { from ≡ origin.OwnStart → self.new.last ≡ Some (note.Started id) }
        ensures queue { from ≡ origin.Queue → self.new.last ≡ Some (note.Event (Event.Take id)) }
        ensures recorded { (history : List AnEvent) → H.IsRecordOf history self.old.kept → H.IsRecordOf (history ++ events_of self.new.last) self.new.kept }
        ensures room { H.HasRoom (owed self.new.rule) self.new.kept }
        ensures capacity { H.capacity self.new.kept ≡ H.capacity self.old.kept }
    {
        match from {
            Origin::OwnStart => self.last = Some(Note::Started(id)),
            Origin::Queue => self.note(Event::Take(id)),
        }
    }

    /// A turn that submits a job under the pool's own next number.
    ///
    /// # Errors
    ///
    /// In this order, each with the job handed back: `Spent`, `Memory`, `Closed`, `Full`.
    pub fn submit(&mut self, work: W) -> Result<(Id, Reply), (Refused, W)>
        requires known { 1 < length self.old.rule.made }
        requires room { H.HasRoom (owed self.old.rule) self.old.kept }
        requires count { self.old.accepted ≤ made_by self.old.rule 1 }
        ensures accepted { IfOk result (λ r. Accepts self.old.rule r.0 r.1 work self.new.rule self.new.last) }
        ensures refused { IfErr result (λ e. Refuses self.old.rule e.0 self.new.rule self.new.last) }
        ensures memory { IfErr result (λ e. e.0 ≡ Refused.Memory → LacksRoom H.HasRoom × (made_by self.new.rule 1 < 18446744073709551615)) }
        ensures counted { made_by self.new.rule 1 ≤ 18446744073709551615 }
        ensures visit { IsVisit self.new.rule self.new.last }
        ensures keeps { Keeps H.IsRecordOf H.HasRoom self.old.rule self.old.accepted self.old.kept self.new.rule self.new.last self.new.accepted self.new.kept }
        ensures capacity { H.capacity self.new.kept ≡ H.capacity self.old.kept }
        ensures lacks { IfErr result (λ e. e.0 ≡ Refused.Memory → ¬ H.HasRoom (owed self.old.rule + 3) self.old.kept) }
        ensures own { IfOk result (λ r. r.0.caller ≡ 1) }
        ensures acceptance { IfOk result (λ r. is_acceptance r.1 ≡ true) }
        ensures work_back { IfErr result (λ e. e.1 ≡ work) }
    {
        self.last = None;
        let Some(id) = next_id(&self.rule) else {
            return Err((Refused::Spent, work));
        };
        let Ok(()) = self.make_room(3) else {
            return Err((Refused::Memory, work));
        };
        match self.rule.submit(id, work) {
            Ok(reply) => {
                self.accepted += 1;
                self.note(Event::Submit { id, reply });
                Ok((id, reply))
            }
            Err((Refusal::Full, work)) => {
                let reply = Reply::Full;
                self.note(Event::Submit { id, reply });
                Err((Refused::Full, work))
            }
            Err((Refusal::Closed, work)) => {
                let reply = Reply::Closed;
                self.note(Event::Submit { id, reply });
                Err((Refused::Closed, work))
            }
            Err((Refusal::NoSuchCaller | Refusal::WrongNumber, _)) => unreachable!(),
        }
    }

    /// A turn that polls for a job. If there is none, or none may begin after a resize, an idle worker may end.
    pub fn look(&mut self, timed_out: bool) -> Look<PickedJob<W>>
        requires room { H.HasRoom (owed self.old.rule) self.old.kept }
        ensures found { OnFound result (λ picked. Picks self.old.rule picked.slot.id picked.work self.new.rule self.new.last) }
        ensures may { OnFound result (λ _. MayBegin self.old.rule) }
        ensures nothing { OnNothing result (Steps self.old.rule self.new.last self.new.rule × IsPlain self.new.rule self.new.last) }
        ensures none { OnNothing result (HasNoneToRun self.old.rule) }
        ensures over { OnOver result (IsOverNow self.new.rule) }
        ensures keeps { Keeps H.IsRecordOf H.HasRoom self.old.rule self.old.accepted self.old.kept self.new.rule self.new.last self.new.accepted self.new.kept }
        ensures capacity { H.capacity self.new.kept ≡ H.capacity self.old.kept }
    {
        if let Some(picked) = self.pick() {
            return Look::Found(picked);
        }
        self.rest(timed_out);
        if self.is_over() {
            Look::Over
        } else {
            Look::Nothing
        }
    }

    // Picks a job that may begin.
    fn pick(&mut self) -> Option<PickedJob<W>>
        requires room { H.HasRoom (owed self.old.rule) self.old.kept }
        ensures picked { IfSome result (λ p. Picks self.old.rule p.slot.id p.work self.new.rule self.new.last) }
        ensures may { IfSome result (λ _. MayBegin self.old.rule) }
        ensures nothing_there { IfNone result (HasNoneToRun self.old.rule) }
        ensures none { IfNone result ((self.new.rule ≡ self.old.rule) × (self.new.accepted ≡ self.old.accepted) × (self.new.kept ≡ self.old.kept)) }
        ensures keeps { IfSome result (λ _. Keeps H.IsRecordOf H.HasRoom self.old.rule self.old.accepted self.old.kept self.new.rule self.new.last self.new.accepted self.new.kept) }
        ensures capacity { H.capacity self.new.kept ≡ H.capacity self.old.kept }
    {
        if self.holds_back() {
            return None;
        }
        let picked = self.rule.pick()?;
        self.note_pick(picked.origin, picked.slot.id);
        Some(PickedJob {
            slot: picked.slot,
            work: picked.work,
        })
    }

    // The rest of a turn that finds no job: an idle worker may end.
    fn rest(&mut self, timed_out: bool)
        requires room { H.HasRoom (owed self.old.rule) self.old.kept }
        ensures steps { Steps self.old.rule self.new.last self.new.rule }
        ensures plain { IsPlain self.new.rule self.new.last }
        ensures asks { (timed_out ≡ true) ⊎ (self.old.rule.closed ≡ true) → MayEndIdle self.old.rule → self.new.last ≡ Some (note.Event Event.IdleEnd) }
        ensures waits { timed_out ≡ false → self.old.rule.closed ≡ false → self.new.last ≡ nothing }
        ensures keeps { Keeps H.IsRecordOf H.HasRoom self.old.rule self.old.accepted self.old.kept self.new.rule self.new.last self.new.accepted self.new.kept }
        ensures capacity { H.capacity self.new.kept ≡ H.capacity self.old.kept }
    {
        self.last = None;
        if !timed_out && !self.rule.closed() {
            return;
        }
        if self.rule.idle_end() {
            self.note(Event::IdleEnd);
        }
    }

    // Whether the pool is closed, no job waits and none runs.
    fn is_over(&self) -> bool
        ensures { IsTrue result ↔ IsOverNow self.now.rule }
    {
        self.rule.closed() && self.rule.waiting() == 0 && self.rule.running() == 0
    }

    /// A turn that ends a job that is out and was run. `_output` is what its run returned.
    pub fn finish<C>(&mut self, slot: Slot, _output: &W::Output)
    where
        W: RunOnce<C>,
        requires ran { (from : C) × (work : W) × (to : C) × W.HasRun from work _output.now to }
        requires out { is_among slot.id (ids_out self.old.rule.out) ≡ true }
        requires room { H.HasRoom (owed self.old.rule) self.old.kept }
        ensures writes { Writes self.old.rule (Event.Finish slot.id) self.new.rule self.new.last }
        ensures keeps { Keeps H.IsRecordOf H.HasRoom self.old.rule self.old.accepted self.old.kept self.new.rule self.new.last self.new.accepted self.new.kept }
        ensures capacity { H.capacity self.new.kept ≡ H.capacity self.old.kept }
    {
        let slot = end_job(&mut self.rule, slot);
        self.note(Event::Finish(slot.id));
    }

    /// A turn that closes the pool, and returns whether it was open.
    pub fn close(&mut self) -> bool
        requires room { H.HasRoom (owed self.old.rule) self.old.kept }
        ensures closed { OnTrue result (Writes self.old.rule Event.Close self.new.rule self.new.last) }
        ensures was_closed { OnFalse result (WritesNone self.old.rule self.new.rule self.new.last × (self.old.rule.closed ≡ true)) }
        ensures plain { IsPlain self.new.rule self.new.last }
        ensures keeps { Keeps H.IsRecordOf H.HasRoom self.old.rule self.old.accepted self.old.kept self.new.rule self.new.last self.new.accepted self.new.kept }
        ensures capacity { H.capacity self.new.kept ≡ H.capacity self.old.kept }
    {
        self.last = None;
        let closes = self.rule.close();
        if closes {
            self.note(Event::Close);
        }
        closes
    }

    /// A turn that sets the sizes.
    ///
    /// # Errors
    ///
    /// The errors of `Rule::resize`, in the same order, then `Memory` if the record has no room and it is out of memory, with nothing written.
    pub fn resize(&mut self, core: u32, max: u32) -> Result<(), AdmitError>
        requires room { H.HasRoom (owed self.old.rule) self.old.kept }
        ensures resized { OnOk result (Writes self.old.rule (Event.Resized core max) self.new.rule self.new.last) }
        ensures refused { OnErr result (WritesNone self.old.rule self.new.rule self.new.last) }
        ensures why { IfErr result (IsRefusedResize self.old.rule.limits core max) }
        ensures memory { IfErr result (λ e. e ≡ AdmitError.Memory → ¬ H.HasRoom (owed self.old.rule + 1) self.old.kept) }
        ensures plain { IsPlain self.new.rule self.new.last }
        ensures keeps { Keeps H.IsRecordOf H.HasRoom self.old.rule self.old.accepted self.old.kept self.new.rule self.new.last self.new.accepted self.new.kept }
        ensures capacity { H.capacity self.new.kept ≡ H.capacity self.old.kept }
    {
        self.last = None;
        self.rule.check_sizes(core, max)?;
        self.make_room(1)?;
        self.rule.resize(core, max)?;
        self.note(Event::Resized { core, max });
        Ok(())
    }

    /// A turn that reads the numbers of the pool, and notes nothing.
    pub fn numbers(&mut self) -> Numbers
        requires count { self.old.accepted ≤ made_by self.old.rule 1 }
        requires jobs { unfinished self.old.rule ≤ self.old.accepted }
        ensures none { WritesNone self.old.rule self.new.rule self.new.last }
        ensures same { (self.new.accepted ≡ self.old.accepted) × (self.new.kept ≡ self.old.kept) × (self.new.rule ≡ self.old.rule) }
        ensures workers { result.workers ≡ self.new.rule.workers }
        ensures running { result.running ≡ busy self.new.rule }
        ensures waiting { result.waiting ≡ length self.new.rule.waiting }
        ensures room { result.room + result.waiting ≡ self.new.rule.limits.queue }
        ensures sizes { (result.core ≡ self.new.rule.core) × (result.max ≡ self.new.rule.max) }
        ensures accepted { result.accepted ≡ self.new.accepted }
        ensures refused { result.refused + result.accepted ≡ made_by self.new.rule 1 }
        ensures finished { result.finished + unfinished self.new.rule ≡ self.new.accepted }
        ensures closed { result.closed ≡ self.new.rule.closed }
    {
        self.last = None;
        let running = self.rule.running();
        let waiting = self.rule.waiting();
        Numbers {
            workers: self.rule.workers(),
            running,
            waiting,
            room: self.rule.room(),
            core: self.rule.core(),
            max: self.rule.max(),
            accepted: self.accepted,
            refused: self.rule.submissions(CALLER) - self.accepted,
            finished: self.accepted - waiting as u64 - running as u64,
            closed: self.rule.closed(),
        }
    }

    /// A turn that notes nothing.
    pub fn note_nothing(&mut self)
        ensures none { WritesNone self.old.rule self.new.rule self.new.last }
        ensures same { (self.new.accepted ≡ self.old.accepted) × (self.new.kept ≡ self.old.kept) × (self.new.rule ≡ self.old.rule) }
    {
        self.last = None;
    }

    /// The record of the history.
    pub fn kept(&self) -> &H
        ensures { result.now ≡ self.now.kept }
    {
        &self.kept
    }
}
