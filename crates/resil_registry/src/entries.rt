//! Names with values, in the order in which they were added.
//!
//! No name occurs twice, and an entry keeps its index for good, since entries are only added at the
//! end. A map in insertion order holds them, so a name is found without going over the list. The
//! rest of the crate sees a list of names with values, and nothing of the map.

ghost use Rattle.std.specs.Prelude.{◌≡◌, ◌++◌, ◌∷◌, [], length, map, slice_get, option_map, None, IfOk, IfErr, OnOk, OnErr};
ghost use Rattle.std.specs.List.{IsDistinct};
ghost use Rattle.std.specs.Str.{bytes_eq};
ghost use Rattle.std.specs.String.{string_bytes};
ghost use Rattle.resil_registry.specs.Entries.{names_of, index_of};

use indexmap::IndexMap;
use indexmap::map::Keys;
use std::alloc::Global;
use std::marker::Model;

// A list of names with values. Each name occurs once.
#[derive(Drop)]
pub(crate) struct Entries<V> {
    table: IndexMap<String, V>,
}

impl<V> Model for Entries<V> {
    ghost use Rattle.std.specs.Prelude.{List, ℕ, map};
    ghost use Rattle.std.specs.String.{string_bytes};

    ghost Value = { List (List ℕ × V) };

    ghost view = { λ e. map (λ entry. (string_bytes entry.0, entry.1)) e.table.entries };
}

impl<V> Entries<V> {
    // An empty list. This allocates nothing.
    pub(crate) fn new(alloc: Global) -> Self
        ensures { result ≡ [] }
    {
        Entries {
            table: IndexMap::new(alloc),
        }
    }

    // The number of entries.
    pub(crate) fn len(&self) -> usize
        ensures { result ≡ length self.now }
    {
        self.table.len()
    }

    // The names as the keys of the map, in order.
    pub(crate) fn keys(&self) -> Keys<'_, String, V>
        ensures names { map string_bytes result ≡ names_of self.now }
        ensures distinct { IsDistinct bytes_eq (names_of self.now) }
    {
        self.table.keys()
    }

    // The index of a name, if it is there.
    pub(crate) fn index_of(&self, name: &str) -> Option<usize>
        ensures { result ≡ index_of name.now self.now }
    {
        self.table.get_index_of(name)
    }

    // The name and the value at an index, if the list is long enough.
    pub(crate) fn get(&self, index: usize) -> Option<(&str, &V)>
        ensures { option_map (λ entry. (entry.0.now, entry.1.now)) result ≡ slice_get self.now index }
    {
        let (name, value) = self.table.get_index(index)?;
        Some((name.as_str(), value))
    }

    // Adds a new name at the end, and returns its index. Errors: the value comes back, with nothing
    // changed, if out of memory.
    pub(crate) fn append(&mut self, name: &str, value: V) -> Result<usize, V>
    where
        V: Drop,
        requires { index_of name.now self.old ≡ None }
        ensures index { IfOk result (λ index. index ≡ length self.old) }
        ensures appended { OnOk result (self.new ≡ self.old ++ (name.now, value) ∷ []) }
        ensures value_back { IfErr result (λ refused. refused ≡ value) }
        ensures unchanged { OnErr result (self.new ≡ self.old) }
    {
        let index = self.table.len();
        let Ok(key) = String::from_str(*self.table.allocator(), name) else {
            return Err(value);
        };
        match self.table.insert(key, value) {
            Ok(_) => Ok(index),
            Err(refused) => Err(refused.value.1),
        }
    }
}
