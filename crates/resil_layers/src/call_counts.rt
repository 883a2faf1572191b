//! Counts of calls: words that threads share, or numbers of a chain's own.

ghost use Rattle.std.specs.Prelude.{◌≡◌};

use crate::counting::{Count, Counted};
use resil_bulkhead::Bulkhead;
use std::alloc::{AllocError, Global};
use std::sync::Arc;
use std::sync::atomic::AtomicU64;
use std::sync::atomic::Ordering::SeqCst;

/// How many calls began, and their outcomes, in words that threads add to and any thread may read. No clause says what a word
/// holds. Counting a call takes two atomic adds and doesn't allocate.
///
/// ```
/// let counts = CallCounts::new("prices");
/// let mut chain = FromFn(|| ask(&neighbour)).inside(&bulkhead, &rt).counted(&counts);
/// ```
#[derive(Drop)]
pub struct CallCounts<'a> {
    name: &'a str,
    called: AtomicU64,
    values: AtomicU64,
    errors: AtomicU64,
    refused: AtomicU64,
}

impl<'a> CallCounts<'a> {
    /// Makes counts that are all 0, under this name.
    pub fn new(name: &'a str) -> CallCounts<'a>
        ensures { result.name.now ≡ name.now }
    {
        CallCounts {
            name,
            called: AtomicU64::new(0),
            values: AtomicU64::new(0),
            errors: AtomicU64::new(0),
            refused: AtomicU64::new(0),
        }
    }

    /// Returns the name.
    pub fn name(&self) -> &'a str
        ensures { result.now ≡ self.now.name.now }
    {
        self.name
    }

    // The word of what is counted, to add to or to read.
    fn word(&self, what: Counted) -> &AtomicU64 {
        match what {
            Counted::Called => &self.called,
            Counted::Value => &self.values,
            Counted::Error => &self.errors,
            Counted::Refused => &self.refused,
        }
    }

    /// Returns how often this was counted.
    pub fn count(&self, what: Counted) -> u64 {
        self.word(what).load(SeqCst)
    }
}

impl Count for &CallCounts<'_> {
    fn add(&mut self, what: Counted) {
        self.word(what).fetch_add(1, SeqCst);
    }
}

/// Makes counts for each of these bulkheads, under its name, in the same order.
///
/// # Errors
///
/// `AllocError` if out of memory.
///
/// ```
/// let counts = counts_by_name(alloc, registry.bulkheads())?;
/// ```
pub fn counts_by_name<'a>(
    alloc: Global,
    bulkheads: &'a [Arc<Bulkhead>],
) -> Result<Vec<CallCounts<'a>>, AllocError> {
    let mut all = Vec::new(alloc);
    for bulkhead in bulkheads {
        all.push(CallCounts::new(bulkhead.name()))?;
    }
    Ok(all)
}

/// The outcomes of the calls of one chain, in numbers of its own. None exceeds 2^64 - 1.
///
/// ```
/// let mut chain = FromFn(|| ask(&neighbour)).counted(OwnCounts::default());
/// let price = chain.call();
/// assert!(rt; chain.observer.0.called == 1);
/// ```
#[derive(Clone, Copy, Debug, Default)]
pub struct OwnCounts {
    /// How many calls began.
    pub called: u64,
    /// How many returned a value.
    pub values: u64,
    /// How many returned an error that isn't a refusal.
    pub errors: u64,
    /// How many were refused.
    pub refused: u64,
}

impl Count for OwnCounts {
    ghost use Rattle.std.specs.Prelude.{◌≡◌};
    ghost use Rattle.resil_layers.specs.Counting.{with_one_more};

    ghost IsAdded = { λ x what y. y ≡ with_one_more x what };

    fn add(&mut self, what: Counted) {
        match what {
            Counted::Called => self.called = self.called.saturating_add(1),
            Counted::Value => self.values = self.values.saturating_add(1),
            Counted::Error => self.errors = self.errors.saturating_add(1),
            Counted::Refused => self.refused = self.refused.saturating_add(1),
        }
    }
}
