//! The history of a pool that keeps a record, which can be read while the pool runs.
ghost use Rattle.std.specs.Prelude.{◌≡◌, IfOk, length};
ghost use Rattle.resil_rule.specs.Record.{IsLastOf};
ghost use Rattle.resil_executor.specs.Log.{events_in};
ghost use Rattle.resil_executor.specs.Turn.{SeesMore};
ghost use Rattle.resil_executor.specs.Seats.{limits_of, blank_of, IsOf, known_to};

use crate::executor::{Executor, Visitor};
use resil_rule::{AllEvents, Event, LastEvents};
use std::alloc::{AllocError, Global};
use std::sync::Wait;

/// The last events of a history, and how many came before them.
///
/// ```
/// let (pool, _closer): (Executor<Errand, LastEvents>, _) = Executor::open(alloc, limits, LastEvents::new(alloc, 100)?)?;
/// let last = pool.last_events(&rt, alloc, &mut pool.visitor())?;
/// println!(rt; "{} events, and {} before these", last.events.len(), last.lost)?;
/// ```
#[derive(Drop)]
pub struct LastHistory {
    /// The last events, oldest first.
    pub events: Vec<Event>,
    /// How many events before them were lost. The count stops at 2^64 - 1.
    pub lost: u64,
}

// What a record of the last events holds. Errors: `AllocError` if out of memory.
fn last_history(alloc: Global, last: &LastEvents) -> Result<LastHistory, AllocError>
    ensures events { IfOk result (λ history. history.events.items ≡ last.now.events) }
    ensures lost { IfOk result (λ history. history.lost ≡ last.now.lost) }
{
    let mut events = Vec::with_capacity(alloc, last.len())?;
    for index in 0..last.len() {
        let Some(event) = last.get(index) else {
            unreachable!()
        };
        events.push(event)?;
    }
    Ok(LastHistory {
        events,
        lost: last.lost(),
    })
}

impl<W: Drop> Executor<W, AllEvents> {
    /// The whole history, read in one turn, which writes nothing: all that the pool's turns wrote until then. Other turns wait while it is copied.
    ///
    /// # Errors
    ///
    /// `AllocError` if out of memory.
    ///
    /// ```
    /// let (pool, _closer): (Executor<Errand, AllEvents>, _) = Executor::open(alloc, limits, AllEvents::new(alloc))?;
    /// let history = pool.history(&rt, alloc, &mut pool.visitor())?;
    /// let text = history_text(alloc, Version::Two, &history)?;
    /// ```
    pub fn history<R: Wait>(
        &self,
        rt: &R,
        alloc: Global,
        visitor: &mut Visitor<W, AllEvents>,
    ) -> Result<Vec<Event>, AllocError>
        requires mine { IsOf self.now visitor.old.seat }
        ensures mine { IsOf self.now visitor.new.seat }
        ensures sees { SeesMore (limits_of self.now) (known_to visitor.old.seat) (known_to visitor.new.seat) }
        ensures events { IfOk result (λ events. events.items ≡ events_in (known_to visitor.new.seat).seen) }
    {
        let mut state = self.lock.take(rt, &mut visitor.seat);
        state.inner.note_nothing();
        let events = Vec::from_slice(alloc, state.inner.kept().events());
        self.lock.release(&mut visitor.seat, state);
        events
    }
}

impl<W: Drop> Executor<W, LastEvents> {
    /// The last events, as many as the record keeps, read in one turn, which writes nothing. Other turns wait while they are copied.
    ///
    /// # Errors
    ///
    /// `AllocError` if out of memory.
    pub fn last_events<R: Wait>(
        &self,
        rt: &R,
        alloc: Global,
        visitor: &mut Visitor<W, LastEvents>,
    ) -> Result<LastHistory, AllocError>
        requires mine { IsOf self.now visitor.old.seat }
        ensures mine { IsOf self.now visitor.new.seat }
        ensures sees { SeesMore (limits_of self.now) (known_to visitor.old.seat) (known_to visitor.new.seat) }
        ensures events { IfOk result (λ last. IsLastOf (events_in (known_to visitor.new.seat).seen) (record { events = last.events.items; capacity = (blank_of self.now).capacity; lost = last.lost })) }
    {
        let mut state = self.lock.take(rt, &mut visitor.seat);
        state.inner.note_nothing();
        let history = last_history(alloc, state.inner.kept());
        self.lock.release(&mut visitor.seat, state);
        history
    }
}
