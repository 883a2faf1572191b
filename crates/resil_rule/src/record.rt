//! Records of events, for a pool that keeps its history next to its rule.
//!
//! A record gets each event once, after the call of the rule that made it, and has room for it by then.
//! `NoRecord` keeps nothing. `LastEvents` keeps the last events, in memory of its own. `AllEvents` keeps all
//! of them, and allocates before the rule's call: if it is out of memory there, nothing was changed.

ghost use Rattle.std.specs.Prelude.{◌≡◌, ◌-◌, ◌≤◌, ◌++◌, ◌∷◌, [], ℕ, List, Option, suc, length, vec_len, vec_capacity, slice_get, IsOk, IfOk, OnOk};
ghost use Rattle.resil_rule.specs.Record.{AllView, LastView, IsLastOf};

use super::Event;
use circular_buffer::HeapCircularBuffer;
use std::alloc::{AllocError, Global};
use std::marker::Model;

/// What gets the events of a pool, one after the other.
///
/// ```
/// record.reserve(1)?;
/// if rule.close() {
///     record.write(Event::Close);
/// }
/// ```
pub trait Record: Drop {
    ghost use Rattle.resil_rule.specs.declared.event.Event.{Event};

    /// It holds what a record keeps of this history.
    ghost IsRecordOf: { List Event → Self → Type 0 };

    /// It has room for this many events.
    ghost HasRoom: { ℕ → Self → Type 0 };

    /// How many events it keeps at most: the last ones. `None` if it keeps all. This never changes.
    ghost capacity: { Self → Option ℕ };

    /// Makes room for this many more events. What it holds stays, and so does the room that it has.
    ///
    /// # Errors
    ///
    /// `AllocError` if the room isn't there yet and it is out of memory.
    fn reserve(&mut self, events: usize) -> Result<(), AllocError>
        ensures room { OnOk result (HasRoom events self.new) }
        ensures kept { (history : List Event) → IsRecordOf history self.old → IsRecordOf history self.new }
        ensures room_kept { (count : ℕ) → HasRoom count self.old → HasRoom count self.new }
        ensures capacity { capacity self.new ≡ capacity self.old }
        ensures ready { HasRoom events self.old → IsOk result };

    /// Writes an event after the others, into room that was made for it.
    fn write(&mut self, event: Event)
        requires room { HasRoom 1 self.old }
        ensures written { (history : List Event) → IsRecordOf history self.old → IsRecordOf (history ++ event ∷ []) self.new }
        ensures room { (events : ℕ) → HasRoom (suc events) self.old → HasRoom events self.new }
        ensures capacity { capacity self.new ≡ capacity self.old };

    /// A record with room for some events has room for fewer.
    ghost has_less_room: { (fewer events : ℕ) (r : Self) → fewer ≤ events → HasRoom events r → HasRoom fewer r };
}

/// No record: it has no bytes, and its calls do nothing.
///
/// ```
/// let mut record = NoRecord;
/// record.write(Event::Close);
/// ```
#[derive(Clone, Copy, Debug)]
pub struct NoRecord;

impl Record for NoRecord {
    ghost use Rattle.std.specs.Prelude.{Some};

    ghost IsRecordOf = { λ _ _. Unit {0} };

    ghost HasRoom = { λ _ _. Unit {0} };

    ghost capacity = { λ _. Some 0 };

    ghost has_less_room = { λ _ _ _ _ _. tt };

    fn reserve(&mut self, _events: usize) -> Result<(), AllocError> {
        Ok(())
    }

    fn write(&mut self, _event: Event) {}
}

/// The record of all events.
///
/// ```
/// let mut record = AllEvents::new(alloc);
/// record.reserve(1)?;
/// record.write(Event::Close);
/// assert_eq!(rt; record.events().len(), 1);
/// ```
#[derive(Drop)]
pub struct AllEvents {
    events: Vec<Event>,
}

impl Model for AllEvents {
    ghost Value = { AllView };

    ghost view = { λ all. record { events = all.events.items; room = vec_capacity all.events - vec_len all.events } };
}

impl AllEvents {
    /// The record of no events yet. It allocates nothing.
    pub fn new(alloc: Global) -> AllEvents
        ensures { result ≡ record { events = []; room = 0 } }
    {
        AllEvents {
            events: Vec::new(alloc),
        }
    }

    /// All events, oldest first.
    pub fn events(&self) -> &[Event]
        ensures { result.now ≡ self.now.events }
    {
        self.events.as_slice()
    }

    /// The list of all events, oldest first, by value.
    pub fn into_events(self) -> Vec<Event>
        ensures { result.items ≡ self.events }
    {
        self.events
    }

    /// How many more events fit without allocating.
    pub fn room(&self) -> usize
        ensures { result ≡ self.now.room }
    {
        self.events.capacity() - self.events.len()
    }
}

impl Record for AllEvents {
    ghost use Rattle.std.specs.Prelude.{None};
    ghost use Rattle.std.proofs.Math.Nat.{le_trans};

    ghost IsRecordOf = { λ history all. all.events ≡ history };

    ghost HasRoom = { λ events all. events ≤ all.room };

    ghost capacity = { λ _. None };

    ghost has_less_room = { λ _ _ _ less room. le_trans less room };

    fn reserve(&mut self, events: usize) -> Result<(), AllocError> {
        self.events.reserve(events)
    }

    fn write(&mut self, event: Event) {
        self.events.push(event).unwrap();
    }
}

/// The record of the last events, as many as it was made for. It takes all its memory when it is made.
///
/// ```
/// let mut record = LastEvents::new(alloc, 1)?;
/// record.write(Event::IdleEnd);
/// record.write(Event::Close);
/// assert!(rt; record.lost() == 1 && record.get(0) == Some(Event::Close));
/// ```
#[derive(Drop)]
pub struct LastEvents {
    // The last events, oldest first.
    last: HeapCircularBuffer<Event>,
    // How many events before them were lost.
    lost: u64,
}

impl Model for LastEvents {
    ghost Value = { LastView };

    ghost view = { λ l. record { events = l.last.items; capacity = l.last.capacity; lost = l.lost } };
}

impl LastEvents {
    /// The record of no events yet, with the memory for `count` events. If `count` is 0 it loses every event.
    ///
    /// # Errors
    ///
    /// `AllocError` if out of memory.
    pub fn new(alloc: Global, count: usize) -> Result<LastEvents, AllocError>
        ensures empty { IfOk result (λ last. last ≡ record { events = []; capacity = count; lost = 0 }) }
        ensures history { IfOk result (IsLastOf []) }
    {
        Ok(LastEvents {
            last: HeapCircularBuffer::with_capacity(alloc, count)?,
            lost: 0,
        })
    }

    /// How many events were lost: all that were written, except the last ones, which it holds. The count
    /// stops at 2^64 - 1, which also means more.
    pub fn lost(&self) -> u64
        ensures { result ≡ self.now.lost }
    {
        self.lost
    }

    /// How many events it holds.
    pub fn len(&self) -> usize
        ensures { result ≡ length self.now.events }
    {
        self.last.len()
    }

    /// One of the events that it holds, counted from 0, oldest first.
    pub fn get(&self, index: usize) -> Option<Event>
        ensures { result ≡ slice_get self.now.events index }
    {
        self.last.get(index).copied()
    }
}

impl Record for LastEvents {
    ghost use Rattle.std.specs.Prelude.{Some};
    ghost use Rattle.resil_rule.specs.declared.event.Event.{Event};

    ghost IsRecordOf = { IsLastOf };

    ghost HasRoom = { λ _ _. Unit {0} };

    ghost capacity = { λ last. Some last.capacity };

    ghost has_less_room = { λ _ _ _ _ _. tt };

    fn reserve(&mut self, _events: usize) -> Result<(), AllocError>
        ensures ready { IsOk result }
        ensures unchanged { self.new ≡ self.old }
    {
        Ok(())
    }

    fn write(&mut self, event: Event)
        ensures written { (history : List Event) → IsLastOf history self.old → IsLastOf (history ++ event ∷ []) self.new }
        ensures capacity { self.new.capacity ≡ self.old.capacity }
    {
        if self.last.push_back(event).is_some() {
            self.lost = self.lost.saturating_add(1);
        }
    }
}
