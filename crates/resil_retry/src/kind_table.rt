//! Tables of kinds: an answer for each kind of error, found in one step.

ghost use Rattle.std.specs.Prelude.{◌≡◌, ◌<◌, if◌then◌else◌, IfOk};
ghost use Rattle.resil_retry.specs.ErrorTest.{has_kind};
ghost use Rattle.resil_retry.specs.KindTable.{answer_of, index_of, HasIndex};
ghost use Rattle.resil_retry.specs.declared.outcome.Kind.{Kind};

use crate::outcome::Kind;
use std::alloc::{AllocError, Global};
use std::marker::Model;

// How many kinds there are: the codes, `Full` and `Exceeded`.
const KINDS: usize = 65_538;

// An answer for each kind.
#[derive(Debug, Drop)]
pub(crate) struct KindTable {
    answers: Vec<bool>,
}

impl Model for KindTable {
    ghost use Rattle.std.specs.Prelude.{◌≡◌, Bool, List, length};

    ghost Value = { List Bool };

    ghost view = { λ t. t.answers.items };

    ghost invariant = { λ t. length t.answers.items ≡ 65538 };
}

impl KindTable {
    // Makes a table with this answer for every kind. Errors: `AllocError` if out of memory.
    pub(crate) fn new(alloc: Global, answer: bool) -> Result<KindTable, AllocError>
        ensures { IfOk result (λ table. (kind : Kind) → HasIndex kind → answer_of table kind ≡ answer) }
    {
        let answers = vec![in alloc; answer; KINDS]?;
        Ok(KindTable { answers })
    }

    // Sets this answer for the kinds of a list, and leaves the others as they are.
    pub(crate) fn set(&mut self, kinds: &[Kind], answer: bool)
        ensures { (kind : Kind) → HasIndex kind → answer_of self.new kind ≡ (if has_kind kinds.now kind then answer else answer_of self.old kind) }
    {
        for kind in kinds {
            self.answers[index_of(*kind)] = answer;
        }
    }

    // The answer for a kind.
    pub(crate) fn answer(&self, kind: Kind) -> bool
        ensures answer { result ≡ answer_of self.now kind }
        ensures kind { HasIndex kind }
    {
        self.answers[index_of(kind)]
    }
}

// The index of a kind in a table.
fn index_of(kind: Kind) -> usize
    ensures index { result ≡ index_of kind }
    ensures within { HasIndex kind }
{
    match kind {
        Kind::Full => 0,
        Kind::Exceeded => 1,
        Kind::Code(code) => 2 + usize::from(code),
    }
}
