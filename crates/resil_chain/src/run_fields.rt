//! The fields of a run's record: its outcome, the calls of its innermost function, its waits, and its
//! questions to bulkheads, with their answers.
//!
//! Waits and answers are items with semicolons between them, and a field without items is empty. No
//! item contains a comma, a quote or a line end, so such a field never needs quotes.

ghost use Rattle.std.specs.Prelude.{String, ◌≡◌, ◌++◌, map, OnOk};
ghost use Rattle.std.specs.Fmt.{decimal};
ghost use Rattle.std.specs.String.{string_bytes};
ghost use Rattle.resil_chain.specs.RunFields.{asked_item, items_text, run_fields};

use itoa::Buffer;
use resil_decor::{Asked, Run};
use resil_input::outcome_text::push_outcome;
use std::alloc::{AllocError, Global};
use std::marker::Model;

/// The texts of a run's fields. Their room is reused for one run after the other.
#[derive(Drop)]
pub struct RunTexts {
    outcome: String,
    calls: String,
    waits: String,
    asked: String,
}

impl Model for RunTexts {
    ghost use Rattle.std.specs.Prelude.{ℕ, List, [], ◌∷◌};
    ghost use Rattle.std.specs.String.{string_bytes};

    ghost Value = { List (List ℕ) };

    ghost view = { λ t. string_bytes t.outcome ∷ string_bytes t.calls ∷ string_bytes t.waits ∷ string_bytes t.asked ∷ [] };
}

impl RunTexts {
    /// Makes texts without room yet.
    pub fn new(alloc: Global) -> RunTexts {
        RunTexts {
            outcome: String::new(alloc),
            calls: String::new(alloc),
            waits: String::new(alloc),
            asked: String::new(alloc),
        }
    }

    /// Writes the texts of a run instead of the previous ones.
    ///
    /// # Errors
    ///
    /// `AllocError` if out of memory. Nothing is then known of the texts.
    pub fn write(&mut self, run: &Run) -> Result<(), AllocError>
        ensures { OnOk result (self.new ≡ run_fields run.now) }
    {
        self.outcome.clear();
        push_outcome(&mut self.outcome, run.outcome())?;
        let mut digits = Buffer::new();
        self.calls.clear();
        self.calls.push_str(digits.format(run.calls()))?;
        write_items(&mut self.waits, run.waits())?;
        write_items(&mut self.asked, run.asked())
    }

    /// Returns the texts: the outcome, the calls, the waits, and the questions to bulkheads.
    pub fn fields(&self) -> [&[u8]; 4]
        ensures { map (λ field. field.now) result ≡ self.now }
    {
        [
            self.outcome.as_bytes(),
            self.calls.as_bytes(),
            self.waits.as_bytes(),
            self.asked.as_bytes(),
        ]
    }
}

// An item of a field with several items.
trait Item: Copy {
    ghost use Rattle.std.specs.Prelude.{ℕ, List};

    // The text of an item.
    ghost text_of: { Self → List ℕ };

    // Adds the text of the item. Errors: `AllocError` if out of memory.
    fn push(self, text: &mut String) -> Result<(), AllocError>
        ensures { OnOk result (string_bytes text.new ≡ string_bytes text.old ++ text_of self) };
}

// A wait, in milliseconds.
impl Item for u64 {
    ghost text_of = { decimal };

    fn push(self, text: &mut String) -> Result<(), AllocError> {
        let mut digits = Buffer::new();
        text.push_str(digits.format(self))
    }
}

// The id of a bulkhead that a permit was requested from, and `y` if it granted one, else `n`.
impl Item for Asked {
    ghost text_of = { asked_item };

    fn push(self, text: &mut String) -> Result<(), AllocError> {
        let mut digits = Buffer::new();
        text.push_str(digits.format(self.id))?;
        text.push_str(if self.granted { "y" } else { "n" })
    }
}

// Writes items, with semicolons between them, instead of what was there. Errors: `AllocError` if out of memory.
#[tactic(auto, using(crate::proofs::RunFieldLaws::items_text_flat))]
fn write_items<I: Item>(text: &mut String, items: &[I]) -> Result<(), AllocError>
    ensures { OnOk result (string_bytes text.new ≡ items_text (map I.text_of items.now)) }
{
    text.clear();
    let Some((first, rest)) = items.split_first() else {
        return Ok(());
    };
    first.push(text)?;
    for item in rest {
        text.push(';')?;
        item.push(text)?;
    }
    Ok(())
}
