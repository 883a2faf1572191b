//! The place of each accepted job, by caller and number.
//!
//! A caller counts its submissions from 1. Each caller has a vector. At n - 1 it has, for the submission of number n, the index
//! of its job among the accepted ones, or nothing if it was refused. So a job is found by two indices, never by a search.

ghost use Rattle.std.specs.Prelude.{◌≡◌, ◌≤◌, ◌<◌, ◌+◌, [], Some, length, OnOk, if◌then◌else◌};
ghost use Rattle.resil_rule.specs.declared.event.Id.{Id as IdOf};
ghost use Rattle.resil_rule.specs.History.{is_same_id};
ghost use Rattle.resil_admission.specs.SubmissionTable.{index_before, no_place, row_at, place_at};

use super::Id;
use std::alloc::{AllocError, Global};
use std::marker::Model;

/// The index of a job, or none. It is one word; an `Option<usize>` would be two.
#[derive(Clone, Copy)]
pub(crate) struct Place {
    /// One more than the index, or 0 for none.
    behind: usize,
}

impl Place {
    // No index.
    fn none() -> Place
        ensures { result ≡ no_place }
    {
        Place { behind: 0 }
    }

    // An index.
    fn at(index: usize) -> Place
        requires { index < 18446744073709551615 }
        ensures { result.behind ≡ index + 1 }
    {
        Place { behind: index + 1 }
    }

    // The index, if there is one.
    fn index(self) -> Option<usize>
        ensures { result ≡ index_before self.behind }
    {
        self.behind.checked_sub(1)
    }
}

/// The table: a vector for each caller, by its number.
#[derive(Drop)]
pub(crate) struct SubmissionTable {
    alloc: Global,
    rows: Vec<Vec<Place>>,
}

impl Model for SubmissionTable {
    ghost use Rattle.std.specs.Prelude.{List, map};
    ghost use Rattle.resil_admission.specs.declared.submission_table.Place.{Place as PlaceOf};

    ghost Value = { List (List PlaceOf) };

    ghost view = { λ p. map (λ row. row.items) p.rows.items };
}

impl SubmissionTable {
    // A table without jobs. It doesn't allocate.
    pub(crate) fn new(alloc: Global) -> SubmissionTable
        ensures { result ≡ [] }
    {
        SubmissionTable {
            alloc,
            rows: Vec::new(alloc),
        }
    }

    // The index of the accepted job of this id, if there is one.
    pub(crate) fn get(&self, id: Id) -> Option<usize>
        ensures { result ≡ place_at self.now id }
    {
        let row = self.rows.get(id.caller as usize)?;
        let index = id.number.checked_sub(1)?;
        row.get(index as usize)?.index()
    }

    // Makes a place for the job of an id, and those before it. Errors: out of memory. The index stored for each id stays.
    pub(crate) fn reserve(&mut self, id: Id) -> Result<(), AllocError>
        ensures has { OnOk result (id.number ≤ length (row_at self.new id.caller)) }
        ensures same { (other : IdOf) → place_at self.new other ≡ place_at self.old other }
    {
        let caller = id.caller as usize;
        while self.rows.len() <= caller {
            self.rows.push(Vec::new(self.alloc))?;
        }
        let row = &mut self.rows[caller];
        let count = row.len().max(id.number as usize);
        row.resize(count, Place::none())
    }

    // Puts the index of a job at the place that was made for its id.
    pub(crate) fn set(&mut self, id: Id, index: usize)
        requires { (1 ≤ id.number) × (id.number ≤ length (row_at self.old id.caller)) × (index < 18446744073709551615) }
        ensures { (other : IdOf) → place_at self.new other ≡ (if is_same_id id other then Some index else place_at self.old other) }
    {
        let row = &mut self.rows[id.caller as usize];
        row[(id.number - 1) as usize] = Place::at(index);
    }
}
