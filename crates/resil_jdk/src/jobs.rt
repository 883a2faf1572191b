//! Jobs of a pool, as a set of their ids. A look-up takes the same time for any number of jobs, and so does an edit,
//! except for the growth of the table. The memory is that of the most jobs that were in the set at once.

ghost use Rattle.std.specs.Prelude.{◌≡◌, ◌+◌, ◌<◌, ◌^◌, ◌∷◌, [], List, ℕ, map, not, length, IfOk, OnErr};
ghost use Rattle.std.specs.Bool.{OnTrue, OnFalse};
ghost use Rattle.resil_rule.specs.History.{is_among, times};
ghost use Rattle.resil_rule.specs.declared.event.Id.{Id};
ghost use Rattle.resil_jdk.specs.Jobs.{ids_of};

use resil_rule::Id;
use std::alloc::{AllocError, Global};
use std::collections::HashSet;
use std::marker::Model;

/// A set of jobs. Contracts see their ids, in any order.
#[derive(Drop)]
pub(crate) struct Jobs {
    // The caller and the number of each.
    keys: HashSet<(u16, u64)>,
}

impl Model for Jobs {
    ghost Value = { List Id };

    ghost view = { λ c. ids_of c.keys.keys };
}

// What a job is found by.
fn key_of(id: Id) -> (u16, u64)
    ensures { result ≡ (id.caller, id.number) }
{
    (id.caller, id.number)
}

impl Jobs {
    /// No jobs. It takes no memory.
    pub(crate) fn new(alloc: Global) -> Jobs
        ensures { result ≡ [] }
    {
        Jobs {
            keys: HashSet::new(alloc),
        }
    }

    /// How many they are.
    pub(crate) fn len(&self) -> usize
        ensures { result ≡ length self.now }
    {
        self.keys.len()
    }

    /// Whether a job is among them.
    pub(crate) fn contains(&self, id: Id) -> bool
        ensures { result ≡ is_among id self.now }
    {
        self.keys.contains(&key_of(id))
    }

    /// Adds a job, and returns whether it wasn't among them.
    ///
    /// # Errors
    ///
    /// `AllocError` when out of memory; then nothing is changed.
    pub(crate) fn insert(&mut self, id: Id) -> Result<bool, AllocError>
        ensures added { IfOk result (λ added. added ≡ not (is_among id self.old)) }
        ensures more { IfOk result (λ added. OnTrue added ((x : Id) → times x self.new ≡ times x self.old + times x (id ∷ []))) }
        ensures unchanged { IfOk result (λ added. OnFalse added (self.new ≡ self.old)) }
        ensures memory { OnErr result (self.new ≡ self.old) }
    {
        let added = self.keys.insert(key_of(id))?;
        Ok(added)
    }

    /// Takes a job out, and returns whether it was among them.
    pub(crate) fn remove(&mut self, id: Id) -> bool
        ensures had { result ≡ is_among id self.old }
        ensures less { OnTrue result ((x : Id) → times x self.new + times x (id ∷ []) ≡ times x self.old) }
        ensures unchanged { OnFalse result (self.new ≡ self.old) }
    {
        self.keys.remove(&key_of(id))
    }
}
