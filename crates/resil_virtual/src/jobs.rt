//! The jobs that run, and the one that finishes first.

ghost use Rattle.std.specs.Prelude.{◌≡◌, ◌<◌, ◌+◌, ◌^◌, ◌∷◌, [], IfSome, OnOk, length};
ghost use Rattle.resil_virtual.specs.Jobs.{IsSoonest, SameJobs, begun_at, id_of};

use crate::arrival::Arrival;
use resil_rule::Id;
use std::alloc::{AllocError, Global};
use std::cmp::Reverse;
use std::collections::BinaryHeap;
use std::marker::Model;

/// A job that runs. One that finishes sooner is less than another one; of two that finish at one moment, the one that began first is.
#[derive(Clone, Copy, PartialEq, Eq, PartialOrd, Ord)]
pub(crate) struct RunningJob {
    // When it finishes.
    pub(crate) due: u64,
    // Its place in the order in which jobs begin.
    pub(crate) order: u128,
    // Its id.
    pub(crate) caller: u16,
    pub(crate) number: u64,
}

impl RunningJob {
    /// Its id.
    pub(crate) fn id(&self) -> Id
        ensures { result ≡ id_of self.now }
    {
        Id {
            caller: self.caller,
            number: self.number,
        }
    }
}

/// The jobs that run. What is due is kept in a heap, so that a start and a finish take time by the logarithm of their number.
#[derive(Drop)]
pub(crate) struct RunningJobs {
    heap: BinaryHeap<Reverse<RunningJob>>,
}

impl Model for RunningJobs {
    ghost use Rattle.std.specs.Prelude.{map};
    ghost use Rattle.std.specs.BinaryHeap.{IsHeap, heap_items};
    ghost use Rattle.resil_virtual.specs.Jobs.{JobsView, soonest_first};

    ghost Value = { JobsView };

    ghost view = { λ j. record { items = map (λ last. last.0) (heap_items j.heap) } };

    ghost invariant = { λ j. IsHeap soonest_first (heap_items j.heap) };
}

impl RunningJobs {
    /// No jobs. It doesn't allocate.
    pub(crate) fn new(alloc: Global) -> RunningJobs
        ensures { result.items ≡ [] }
    {
        RunningJobs {
            heap: BinaryHeap::new(alloc),
        }
    }

    /// How many jobs run.
    pub(crate) fn len(&self) -> usize
        ensures { result ≡ length self.now.items }
    {
        self.heap.as_slice().len()
    }

    /// The job that finishes first. If several finish at one moment, the one that began first.
    pub(crate) fn first(&self) -> Option<RunningJob>
        ensures { IsSoonest result self.now.items }
    {
        match self.heap.peek() {
            Some(top) => Some(top.0),
            None => None,
        }
    }

    /// A worker begins a job at a time, after those that began before in this order. Errors: `AllocError` when out of memory.
    pub(crate) fn run(&mut self, job: Arrival, at: u64, order: u128) -> Result<(), AllocError>
        requires { at + job.takes < 2 ^ 64 }
        ensures { OnOk result (SameJobs (begun_at at order job ∷ self.old.items) self.new.items) }
    {
        self.heap.push(Reverse(RunningJob {
            due: (at + job.takes).max(job.earliest_end),
            order,
            caller: job.id.caller,
            number: job.id.number,
        }))?;
        Ok(())
    }

    /// The job that finishes first is gone.
    pub(crate) fn remove_first(&mut self) -> Option<RunningJob>
        ensures first { IsSoonest result self.old.items }
        ensures rest { IfSome result (λ job. SameJobs (job ∷ self.new.items) self.old.items) }
    {
        let Some(top) = self.heap.pop() else {
            return None;
        };
        Some(top.0)
    }
}
