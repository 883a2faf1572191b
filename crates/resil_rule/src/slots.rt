//! The jobs that are out, each at its own place.
//!
//! `put` gives the free place that was cleared last, and a place is free again once it is cleared. So a job is found by its place at
//! once. The free places are kept in a ring, so neither `put` nor `clear` searches. All places exist from the making on.

ghost use Rattle.std.specs.Prelude.{◌≡◌, ◌↔◌, ◌<◌, ◌+◌, List, Option, None as nothing, Some, false, length, position, replicate, slice_get, slice_set, IsTrue, IfOk, IfSome, IfNone};
ghost use Rattle.std.specs.Bool.{OnTrue, OnFalse};
ghost use Rattle.resil_rule.specs.History.{is_among};
ghost use Rattle.resil_rule.specs.Slots.{AreFree, ids_out, is_of};
ghost use Rattle.resil_rule.specs.declared.event.Id.{Id as IdOf};

use super::Id;
use circular_buffer::HeapCircularBuffer;
use std::alloc::{AllocError, Global};
use std::marker::Model;

/// A job that is out, and the place that it has until it is finished.
#[derive(Clone, Copy, Debug, PartialEq, Eq)]
pub struct Slot {
    /// The id of the job.
    pub id: Id,
    /// Its place, from 0 to one less than the maximum size at the opening.
    pub place: usize,
}

// The jobs that are out, by their places.
#[derive(Drop)]
pub(crate) struct Slots {
    // The id of the job at each place.
    jobs: Vec<Option<Id>>,
    // The places without a job. The first one is given next.
    free: HeapCircularBuffer<usize>,
}

impl Model for Slots {
    ghost Value = { List (Option IdOf) };

    ghost view = { λ s. s.jobs.items };

    ghost invariant = { λ s. (length s.free.items + length (ids_out s.jobs.items) ≡ length s.jobs.items) × (s.free.capacity ≡ length s.jobs.items) × AreFree s.jobs.items s.free.items };
}

impl Slots {
    // As many places as `count`, all free. Errors: `AllocError` if out of memory.
    #[tactic(auto, using(crate::proofs::SlotLaws::places))]
    pub(crate) fn new(alloc: Global, count: usize) -> Result<Slots, AllocError>
        ensures { IfOk result (λ s. s ≡ replicate count nothing) }
    {
        Ok(Slots {
            jobs: vec![in alloc; None; count]?,
            free: all_free(alloc, count)?,
        })
    }

    // How many jobs are out.
    pub(crate) fn len(&self) -> usize
        ensures { result ≡ length (ids_out self.now) }
    {
        self.jobs.len() - self.free.len()
    }

    // Gives a job a free place: the one that was cleared last.
    #[tactic(auto, using(crate::proofs::SlotLaws::places))]
    pub(crate) fn put(&mut self, id: Id) -> usize
        requires { length (ids_out self.old) < length self.old }
        ensures free { slice_get self.old result ≡ Some nothing }
        ensures put { self.new ≡ slice_set self.old result (Some id) }
    {
        let place = self.free.pop_front().unwrap();
        self.jobs[place] = Some(id);
        place
    }

    // Whether a job is at its place.
    pub(crate) fn holds(&self, slot: Slot) -> bool
        ensures { IsTrue result ↔ (slice_get self.now slot.place ≡ Some (Some slot.id)) }
    {
        match self.jobs.get(slot.place) {
            Some(Some(id)) => *id == slot.id,
            _ => false,
        }
    }

    // Clears the place of a job, and returns whether the job was there.
    #[tactic(auto, using(crate::proofs::SlotLaws::places))]
    pub(crate) fn clear(&mut self, slot: Slot) -> bool
        ensures was_there { IsTrue result ↔ (slice_get self.old slot.place ≡ Some (Some slot.id)) }
        ensures cleared { OnTrue result (self.new ≡ slice_set self.old slot.place nothing) }
        ensures unchanged { OnFalse result (self.new ≡ self.old) }
    {
        if !self.holds(slot) {
            return false;
        }
        self.jobs[slot.place] = None;
        self.free.try_push_front(slot.place).unwrap();
        true
    }

    // The place of a job, if it is out. It looks through all places.
    #[tactic(auto, using(crate::proofs::SlotLaws::unfound))]
    pub(crate) fn find(&self, id: Id) -> Option<usize>
        ensures found { IfSome result (λ place. slice_get self.now place ≡ Some (Some id)) }
        ensures none { IfNone result (is_among id (ids_out self.now) ≡ false) }
    {
        place_of(&self.jobs, id)
    }
}

// The first place that has the job of this id.
fn place_of(jobs: &[Option<Id>], id: Id) -> Option<usize>
    ensures { result ≡ position (is_of id) jobs.now }
{
    jobs.iter().position(|job| is_of(*job, id))
}

// Whether a place has the job of this id.
fn is_of(job: Option<Id>, id: Id) -> bool
    ensures { result ≡ is_of id job }
{
    match job {
        Some(other) => id == other,
        None => false,
    }
}

// As many places as `count`, all free, in ascending order. Errors: `AllocError` if out of memory.
fn all_free(alloc: Global, count: usize) -> Result<HeapCircularBuffer<usize>, AllocError>
    ensures many { IfOk result (λ free. (length free.items ≡ count) × (free.capacity ≡ count)) }
    ensures free { IfOk result (λ free. AreFree (replicate count nothing) free.items) }
{
    let mut free = HeapCircularBuffer::with_capacity(alloc, count)?;
    let mut left = count;
    while left > 0 {
        left -= 1;
        free.try_push_front(left).unwrap();
    }
    Ok(free)
}
