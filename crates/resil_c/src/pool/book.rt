//! The book of a pool: the rule over its callers' jobs, the last events, and two counts.
//!
//! The work of a job is 64 bits that mean something to the service only. The book keeps them until the job is picked.
//! `new` takes all memory. The contract of each call says which event it adds to every history that the book may stand
//! for. The book keeps the last events of such a history, and its numbers.
ghost use Rattle.std.specs.Prelude.{◌≡◌, ◌↔◌, ◌⊎◌, ◌<◌, ◌≤◌, ◌+◌, not, Some, [], if◌then◌else◌, suc, length, slice_get, false, IsTrue, IsOk, IfOk, IfErr, IfSome, IfNone, OnOk, OnErr};
ghost use Rattle.std.specs.Bool.{OnTrue, OnFalse};
ghost use Rattle.resil_rule.specs.Limits.{AreSizesWithin};
ghost use Rattle.resil_rule.specs.Sizes.{AreSizes, IsCoreOf, IsRefusedResize};
ghost use Rattle.resil_rule.specs.RuleView.{MayEndIdle, HasOneToPick, is_acceptance, made_by, next_reply, with_finish, with_sizes, with_idle_end, with_close};
ghost use Rattle.resil_rule.specs.RuleState.{HasNoneToPick};
ghost use Rattle.resil_c.specs.Book.{in_64_bits, opened_book, has_caller, answer_to, next_id, counts_of, AreCallers, IsOpenRefusal, IsSubmitted, IsPicked, IsBookOf, Follows};
ghost use Rattle.resil_c.specs.PlainData.{submit_number};

use crate::pool::plain_data::{BookError, MAX_CALLERS, PoolCounts, by_rule};
use resil_rule::{
    AdmitError, Event, Id, LastEvents, Origin, Picked, Record, Refusal, Reply, Rule, Sizes, Slot,
};
use std::alloc::Global;
use std::marker::Model;

/// A pool whose jobs are 64 bits of the service.
#[derive(Drop)]
pub struct Book {
    rule: Rule<u64>,
    last: LastEvents,
    // How many submissions the rule refused. The count stops at the largest number of 64 bits.
    refused: u64,
    // How many jobs are finished. The count stops at the largest number of 64 bits.
    finished: u64,
    // How many callers there are, numbered from 1. The rule counts them from 0.
    callers: u32,
}

impl Model for Book {
    ghost use Rattle.std.specs.Prelude.{◌≡◌, ◌≤◌, ◌+◌, length};
    ghost use Rattle.resil_c.specs.Book.{BookView};

    ghost Value = { BookView };

    ghost view = { λ b. record { rule = b.rule; last = b.last; refused = b.refused; finished = b.finished } };

    // A place fits into 32 bits, and the rule counts the callers.
    ghost invariant = { λ b. (length b.rule.out ≤ 1024) × (length b.rule.made ≡ b.callers + 1) };
}

// The count of refusals after a reply of the rule.
fn refused_after(refused: u64, reply: Reply) -> u64
    ensures { result ≡ (if not (is_acceptance reply) then in_64_bits (refused + 1) else refused) }
{
    match reply {
        Reply::Core | Reply::Queued | Reply::Extra => refused,
        Reply::Full | Reply::Closed => refused.saturating_add(1),
    }
}

impl Book {
    // An open book of these sizes, for this many callers, which keeps this many of the last events.
    pub(crate) fn new(
        alloc: Global,
        core: u32,
        max: u32,
        queue: u32,
        callers: u32,
        kept: u32,
    ) -> Result<Book, BookError>
        ensures opened { IfOk result (λ b. b ≡ opened_book (record { core = core; max = max; queue = queue }) callers kept) }
        ensures history { IfOk result (IsBookOf []) }
        ensures in_range { OnOk result (AreSizes (record { core = core; max = max; queue = queue }) × AreCallers callers) }
        ensures refused { IfErr result (IsOpenRefusal (record { core = core; max = max; queue = queue }) callers) }
    {
        let sizes = Sizes::new(core, max, queue)?;
        if callers < 1 || callers > MAX_CALLERS {
            return Err(BookError::CallersRange);
        }
        let rule = Rule::new(alloc, sizes, callers as usize + 1)?;
        let Ok(last) = LastEvents::new(alloc, kept as usize) else {
            return Err(BookError::Memory);
        };
        Ok(Book {
            rule,
            last,
            refused: 0,
            finished: 0,
            callers,
        })
    }

    // Submits work under its caller's next number. If it is refused, the caller still has the work.
    pub(crate) fn submit(&mut self, id: Id, work: u64) -> Result<Reply, Refusal>
        ensures answer { result ≡ answer_to self.old id }
        ensures submitted { submit_number result ≤ 4 → IsSubmitted id work self.old self.new }
        ensures unchanged { (submit_number result ≡ 5) ⊎ (submit_number result ≡ 6) → self.new ≡ self.old }
    {
        if !self.has_caller(id.caller) {
            return Err(Refusal::NoSuchCaller);
        }
        if !self.rule.is_next(id) {
            return Err(Refusal::WrongNumber);
        }
        by_rule(self.submit_next(id, work))
    }

    // The id of a caller's next submission. After the largest number of 64 bits there is none, and the id
    // that it returns is refused.
    pub(crate) fn next_id(&self, caller: u16) -> Id
        ensures { result ≡ next_id self.now caller }
    {
        let number = self.rule.submissions(caller).saturating_add(1);
        Id { caller, number }
    }

    // Whether a caller has this number.
    fn has_caller(&self, caller: u16) -> bool
        ensures { result ≡ has_caller self.now caller }
    {
        caller != 0 && u32::from(caller) <= self.callers
    }

    // Submits work under its caller's next number, and returns the reply of the rule.
    fn submit_next(&mut self, id: Id, work: u64) -> Reply
        requires caller { id.caller < length self.old.rule.made }
        requires next { id.number ≡ suc (made_by self.old.rule id.caller) }
        ensures answer { result ≡ next_reply self.old.rule }
        ensures submitted { IsSubmitted id work self.old self.new }
    {
        let reply = self.rule.next_reply();
        self.rule.submit_with_reply(id, work, reply);
        self.last.write(Event::Submit { id, reply });
        self.refused = refused_after(self.refused, reply);
        reply
    }

    // Picks the job that runs next, as the rule does. A take is an event.
    pub(crate) fn pick(&mut self) -> Option<Picked<u64>>
        ensures picked { IfSome result (λ p. IsPicked p.origin p.slot p.work self.old self.new) }
        ensures place { IfSome result (λ p. p.slot.place < 1024) }
        ensures some { HasOneToPick self.old.rule → IfNone result ⊥ }
        ensures none { IfNone result (HasNoneToPick self.old.rule) }
        ensures unchanged { IfNone result (self.new ≡ self.old) }
    {
        let picked = self.rule.pick()?;
        if picked.origin == Origin::Queue {
            self.last.write(Event::Take(picked.slot.id));
        }
        Some(picked)
    }

    // Ends a job that is out, and returns whether it was.
    pub(crate) fn finish(&mut self, slot: Slot) -> bool
        ensures out { IsTrue result ↔ (slice_get self.old.rule.out slot.place ≡ Some (Some slot.id)) }
        ensures event { OnTrue result (self.new.rule ≡ with_finish self.old.rule slot) }
        ensures follows { OnTrue result (Follows self.old (Event.Finish slot.id) self.new) }
        ensures unchanged { OnFalse result (self.new ≡ self.old) }
    {
        if !self.rule.finish(slot) {
            return false;
        }
        self.last.write(Event::Finish(slot.id));
        self.finished = self.finished.saturating_add(1);
        true
    }

    // Sets the sizes from here on, in workers.
    pub(crate) fn resize(&mut self, core: u32, max: u32) -> Result<(), AdmitError>
        ensures within { IsOk result ↔ AreSizesWithin self.old.rule.limits core max }
        ensures core { OnOk result (IsCoreOf self.old.rule.limits core) }
        ensures event { OnOk result (self.new.rule ≡ with_sizes self.old.rule core max) }
        ensures follows { OnOk result (Follows self.old (Event.Resized core max) self.new) }
        ensures refused { IfErr result (IsRefusedResize self.old.rule.limits core max) }
        ensures unchanged { OnErr result (self.new ≡ self.old) }
    {
        self.rule.resize(core, max)?;
        self.last.write(Event::Resized { core, max });
        Ok(())
    }

    // Ends an idle worker, and returns whether it did.
    pub(crate) fn idle_end(&mut self) -> bool
        ensures ends { IsTrue result ↔ MayEndIdle self.old.rule }
        ensures event { OnTrue result (self.new.rule ≡ with_idle_end self.old.rule) }
        ensures follows { OnTrue result (Follows self.old Event.IdleEnd self.new) }
        ensures unchanged { OnFalse result (self.new ≡ self.old) }
    {
        let ended = self.rule.idle_end();
        if ended {
            self.last.write(Event::IdleEnd);
        }
        ended
    }

    // Closes the pool, and returns whether it was open.
    pub(crate) fn close(&mut self) -> bool
        ensures closes { IsTrue result ↔ (self.old.rule.closed ≡ false) }
        ensures event { OnTrue result (self.new.rule ≡ with_close self.old.rule) }
        ensures follows { OnTrue result (Follows self.old Event.Close self.new) }
        ensures unchanged { OnFalse result (self.new ≡ self.old) }
    {
        let closed = self.rule.close();
        if closed {
            self.last.write(Event::Close);
        }
        closed
    }

    // The numbers, all at one moment. Each accepted job runs, waits or is finished.
    pub(crate) fn numbers(&self) -> PoolCounts
        ensures { result ≡ counts_of self.now }
    {
        let running = self.rule.running() as u32;
        let waiting = self.rule.waiting() as u32;
        PoolCounts {
            accepted: self
                .finished
                .saturating_add(u64::from(running) + u64::from(waiting)),
            refused: self.refused,
            finished: self.finished,
            core: self.rule.core(),
            max: self.rule.max(),
            greatest: self.rule.limits().max(),
            capacity: self.rule.limits().queue(),
            workers: self.rule.workers(),
            running,
            waiting,
            closed: u32::from(self.rule.closed()),
        }
    }

    // How many of the last events it has.
    pub(crate) fn event_count(&self) -> usize
        ensures { result ≡ length self.now.last.events }
    {
        self.last.len()
    }

    // How many events came before those.
    pub(crate) fn lost(&self) -> u64
        ensures { result ≡ self.now.last.lost }
    {
        self.last.lost()
    }

    // One of the last events, by its index from 0, oldest first.
    pub(crate) fn event(&self, index: usize) -> Option<Event>
        ensures { result ≡ slice_get self.now.last.events index }
    {
        self.last.get(index)
    }
}
