//! A permitter that answers from a list.
//!
//! It answers each question, for any id, by the next answer of the list, and with no after its end,
//! so a run can be replayed with answers that were written down. Questions and held permits are
//! kept in room reserved when it was made, so asking doesn't allocate.

ghost use Rattle.std.specs.Prelude.{◌≡◌, ◌==◌, [], IfOk, IfErr};
ghost use Rattle.std.specs.List.{position_from};
ghost use Rattle.resil_decor.specs.Permitter.{IsAnswered, IsHeldAfter, IsGivenBack};
ghost use Rattle.resil_decor.specs.Listed.{answers_of, held_of, is_next_answer, AreNextAnswers};

use crate::error::DecorError;
use crate::permitter::{Asked, Permitter};
use std::alloc::Global;
use std::marker::Model;

/// A permitter that answers from a list, for any id.
#[derive(Drop)]
pub struct Listed {
    answers: Vec<bool>,
    asked: Vec<Asked>,
    held: Vec<u16>,
}

impl Model for Listed {
    ghost use Rattle.resil_decor.specs.Listed.{ListedView, ListedInvariant};

    ghost Value = { ListedView };

    ghost view = { λ l. record { answers = l.answers.items; asked = l.asked.items; held = l.held.items } };

    ghost invariant = { ListedInvariant };
}

impl Listed {
    /// Makes a permitter that answers from this list, in its order, and with no after its end.
    ///
    /// # Errors
    ///
    /// `Memory` if out of memory.
    ///
    /// ```
    /// let mut answers = Listed::new(alloc, Vec::from_array(alloc, [true, false])?)?;
    /// assert!(rt; answers.enter(0));
    /// assert!(rt; !answers.enter(0));
    /// ```
    pub fn new(alloc: Global, answers: Vec<bool>) -> Result<Listed, DecorError>
        ensures made { IfOk result (λ listed. listed ≡ record { answers = answers.items; asked = []; held = [] }) }
        ensures refused { IfErr result (λ error. error ≡ DecorError.Memory) }
    {
        let asked = Vec::with_capacity(alloc, answers.len())?;
        let held = Vec::with_capacity(alloc, answers.len())?;
        Ok(Listed {
            answers,
            asked,
            held,
        })
    }
}

impl Permitter for Listed {
    ghost use Rattle.std.specs.Prelude.{◌≡◌, ◌∷◌, []};
    ghost use Rattle.resil_decor.specs.Permitter.{IsAnswered, IsHeldAfter, IsGivenBack};
    ghost use Rattle.resil_decor.specs.Listed.{answers_of, held_of, is_next_answer, AreNextAnswers};
    ghost use Rattle.resil_decor.specs.ListedLaws.{none_between, append_between};

    ghost answers = { answers_of };

    ghost held = { held_of };

    ghost AnsweredBetween = { AreNextAnswers };

    fn enter(&mut self, id: u16) -> bool
        ensures next { is_next_answer self.old result }
        ensures answered { IsAnswered (answers_of self.old) (record { id = id; granted = result }) (answers_of self.new) }
        ensures held { IsHeldAfter (held_of self.old) (record { id = id; granted = result }) (held_of self.new) }
        ensures given { AreNextAnswers self.old (record { id = id; granted = result } ∷ []) self.new }
    {
        let Some(&granted) = self.answers.get(self.asked.len()) else {
            return false;
        };
        self.asked.push_reserved(Asked { id, granted });
        if granted {
            self.held.push_reserved(id);
        }
        granted
    }

    fn leave(&mut self, id: u16) {
        let index = index_of(&self.held, id).unwrap();
        self.held.remove(index);
    }

    ghost none_between = { none_between };

    ghost append_between = { append_between };
}

// The index of the first entry of a list that is this id.
fn index_of(ids: &[u16], id: u16) -> Option<usize>
    ensures { result ≡ position_from (λ other. other == id) 0 ids.now }
{
    ids.iter().position(|other| *other == id)
}
