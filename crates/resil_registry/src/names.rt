//! The names of a registry's instances.
//!
//! They are borrowed from the registry, in order of id, so going over them allocates nothing and the
//! registry can't change meanwhile. The iterator is this crate's own: it shows contracts a list of
//! names, and nothing of the map that holds them.

ghost use Rattle.std.specs.Prelude.{◌≡◌, length, map, Some, IfSome};
ghost use Rattle.std.specs.String.{string_bytes};
ghost use Rattle.std.specs.Iterator.{at_most, UpTo};
ghost use Rattle.std.specs.Iterator.SizeHint.{IsWithinCount};
ghost use Rattle.std.specs.Map.Iter.{TakesFirst};

use indexmap::map::Keys;
use std::iter::FusedIterator;
use std::marker::Model;

/// Goes over the names of a registry's instances, in order of id.
///
/// ```
/// for name in registry.names() {
///     println!(rt; "{name}")?;
/// }
/// ```
#[derive(Drop)]
pub struct Names<'a> {
    keys: Keys<'a, String, usize>,
}

impl<'a> Model for Names<'a> {
    ghost use Rattle.std.specs.Prelude.{List, ℕ, map};
    ghost use Rattle.std.specs.String.{string_bytes};

    ghost Value = { List (List ℕ) };

    ghost view = { λ n. map string_bytes n.keys };
}

impl<'a> Names<'a> {
    // An iterator over the keys of the map of instances.
    pub(crate) fn new(keys: Keys<'a, String, usize>) -> Self
        ensures { result ≡ map string_bytes keys.entry }
    {
        Names { keys }
    }
}

impl<'a> Iterator for Names<'a> {
    type Item = &'a str;

    ghost next_gives = { TakesFirst (λ name. name.now) };

    ghost remaining = { λ left. at_most (length left) };

    fn next(&mut self) -> Option<&'a str> {
        let name = self.keys.next()?;
        Some(name.as_str())
    }

    fn size_hint(&self) -> (usize, Option<usize>)
        ensures exact { result ≡ (length self.now, Some (length self.now)) }
        ensures lower { IsWithinCount result.0 (at_most (length self.now)) }
        ensures upper { IfSome result.1 (UpTo (at_most (length self.now))) }
    {
        let len = self.len();
        (len, Some(len))
    }
}

impl ExactSizeIterator for Names<'_> {
    fn len(&self) -> usize {
        self.keys.len()
    }
}

impl FusedIterator for Names<'_> {}
