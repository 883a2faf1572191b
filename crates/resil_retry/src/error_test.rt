//! Error tests: which kinds of error a layer acts on.
//!
//! A kind is named if it isn't ignored and the test lists it or lists none, so a kind in both lists
//! is ignored. A retry tries again after an error of a named kind.

ghost use Rattle.std.specs.Prelude.{◌≡◌, ◌↔◌, IsTrue, IfOk, IfErr, IfSome};
ghost use Rattle.resil_retry.specs.ErrorTest.{names, IsNamed};
ghost use Rattle.resil_retry.specs.KindTable.{TellsNames};

use crate::error::RetryError;
use crate::kind_table::KindTable;
use crate::outcome::Kind;
use std::alloc::{AllocError, Global};
use std::marker::Model;

// The maximum length of a list that is searched from its start at each question. A copy of a test
// with a longer list keeps a table of all kinds.
const MAX_SEARCHED: usize = 64;

/// A test of kinds of error: it names the kinds of its first list, or every kind if that list is
/// empty, except those that it ignores (Resilience4j user guide, Retry: `retryExceptions`,
/// `ignoreExceptions`).
#[derive(Debug, Drop)]
pub struct ErrorTest {
    named: Vec<Kind>,
    ignored: Vec<Kind>,
    // For each kind whether the test names it, if the lists are long.
    table: Option<KindTable>,
}

impl Model for ErrorTest {
    ghost use Rattle.std.specs.Prelude.{IfSome};
    ghost use Rattle.resil_retry.specs.ErrorTest.{ErrorTestView};
    ghost use Rattle.resil_retry.specs.KindTable.{TellsNames};

    ghost Value = { ErrorTestView };

    ghost view = { λ t. record { named = t.named.items; ignored = t.ignored.items } };

    ghost invariant = { λ t. IfSome t.table (TellsNames (record { named = t.named.items; ignored = t.ignored.items })) };
}

impl ErrorTest {
    /// Makes a test that names the kinds of the first list and ignores those of the second. If
    /// `named` is empty, it names every kind that it doesn't ignore.
    ///
    /// ```
    /// let ignored = Vec::from_array(alloc, [Kind::Code(404)])?;
    /// let test = ErrorTest::new(Vec::new(alloc), ignored);
    /// assert!(rt; test.names(Kind::Code(503)));
    /// assert!(rt; !test.names(Kind::Code(404)));
    /// ```
    pub fn new(named: Vec<Kind>, ignored: Vec<Kind>) -> ErrorTest
        ensures { result ≡ record { named = named.items; ignored = ignored.items } }
    {
        ErrorTest::with_table(named, ignored, None)
    }

    // A test of these lists, with a table of the kinds that it names or without one.
    fn with_table(named: Vec<Kind>, ignored: Vec<Kind>, table: Option<KindTable>) -> ErrorTest
        requires { IfSome table (TellsNames (record { named = named.items; ignored = ignored.items })) }
        ensures { result ≡ record { named = named.items; ignored = ignored.items } }
    {
        ErrorTest {
            named,
            ignored,
            table,
        }
    }

    /// Returns whether the test names the kind: a retry tries again after an error of that kind.
    pub fn names(&self, kind: Kind) -> bool
        ensures value { result ≡ names self.now kind }
        ensures rule { IsTrue result ↔ IsNamed self.now kind }
    {
        self.look_up(kind)
    }

    // Returns whether the test names the kind: by the table, or by the lists.
    fn look_up(&self, kind: Kind) -> bool
        ensures { result ≡ names self.now kind }
    {
        match &self.table {
            Some(table) => table.answer(kind),
            None => is_named(&self.named, &self.ignored, kind),
        }
    }

    /// Returns a copy with memory of its own.
    ///
    /// # Errors
    ///
    /// `Memory` if out of memory.
    pub fn copy(&self, alloc: Global) -> Result<ErrorTest, RetryError>
        ensures copied { IfOk result (λ copy. copy ≡ self.now) }
        ensures refused { IfErr result (λ error. error ≡ RetryError.Memory) }
    {
        let named = Vec::from_slice(alloc, &self.named)?;
        let ignored = Vec::from_slice(alloc, &self.ignored)?;
        let table = table_of(alloc, &named, &ignored)?;
        Ok(ErrorTest::with_table(named, ignored, table))
    }

    /// Returns whether both tests name and ignore the same kinds, listed in the same order.
    pub fn same(&self, other: &ErrorTest) -> bool
        ensures { IsTrue result ↔ (self.now ≡ other.now) }
    {
        self.named == other.named && self.ignored == other.ignored
    }
}

// Returns whether a test of these lists names the kind.
fn is_named(named: &[Kind], ignored: &[Kind], kind: Kind) -> bool
    ensures { result ≡ names (record { named = named.now; ignored = ignored.now }) kind }
{
    !ignored.contains(&kind) && (named.is_empty() || named.contains(&kind))
}

// For each kind whether a test of these lists names it, if they are long. Errors: `AllocError` if
// out of memory.
fn table_of(
    alloc: Global,
    named: &[Kind],
    ignored: &[Kind],
) -> Result<Option<KindTable>, AllocError>
    ensures { IfOk result (λ table. IfSome table (TellsNames (record { named = named.now; ignored = ignored.now }))) }
{
    if named.len() <= MAX_SEARCHED && ignored.len() <= MAX_SEARCHED {
        return Ok(None);
    }
    let mut table = KindTable::new(alloc, named.is_empty())?;
    table.set(named, true);
    table.set(ignored, false);
    Ok(Some(table))
}
