//! Runs the steps of several callers on one word, in one given order and without threads.
//!
//! The callers' steps are interleaved, so any race of two callers for a permit can be written down and looked at. All
//! memory is reserved before the first step is made.
ghost use Rattle.std.specs.Prelude.{◌≡◌, ◌+◌, ◌<◌, ◌≤◌, ◌↔◌, [], ◌∷◌, ◌++◌, length, vec_len, IfOk, IfErr, IsErrOf, IsOkUnless};
ghost use Rattle.std.specs.Option.{option_to_list};
ghost use Rattle.std.specs.Vec.{vec_capacity};
ghost use Rattle.resil_permit.specs.declared.interleaving.WeaveError.TheVariants.{Memory};
ghost use Rattle.resil_permit.specs.WordMachine.{start, event_shown, CanMakeAll};
ghost use Rattle.resil_permit.specs.Weaving.{IsWoven, KeepsLaw, IsRefusedFor, error_at};

use crate::event::PermitEvent;
use crate::permits::MAX_PERMITS;
use crate::step::{Shown, Step};
use crate::word_machine::{StepError, WordMachine};
use std::alloc::{AllocError, Global};
use thiserror::Error;

/// Why the steps couldn't be woven. The place of a step is counted from 1.
///
/// ```
/// match weave(alloc, 2, &steps) {
///     Ok(woven) => println!(rt; "{:?}", woven.shown)?,
///     Err(WeaveError::NotHolding(step)) => println!(rt; "step {step}: nothing to let go")?,
///     Err(error) => println!(rt; "{error}")?,
/// }
/// ```
#[derive(Clone, Copy, PartialEq, Eq, Debug, Error)]
pub enum WeaveError {
    /// Out of memory.
    #[error("out of memory")]
    Memory,
    /// `max` is above 65,535.
    #[error("there are more than 65535 permits")]
    TooManyPermits,
    /// The step at this place is an exchange, but its caller has loaded no number.
    #[error("step {0}: the caller has loaded nothing to exchange")]
    NotLoaded(usize),
    /// The step at this place is an add or a retire, but its caller holds no permit.
    #[error("step {0}: the caller holds no permit")]
    NotHolding(usize),
    /// The step at this place isn't an exchange, but its caller has loaded a number.
    #[error("step {0}: the caller has loaded a number and must exchange it first")]
    StillLoaded(usize),
    /// The step at this place is a raise, but its caller has retired no permit.
    #[error("step {0}: the caller has retired no permit")]
    NotRetired(usize),
}

impl From<AllocError> for WeaveError {
    ghost from_gives = { λ _ e. e ≡ Memory };

    fn from(_error: AllocError) -> WeaveError {
        WeaveError::Memory
    }
}

impl StepError {
    fn at(self, place: usize) -> WeaveError
        ensures { result ≡ error_at self place }
    {
        match self {
            StepError::NotLoaded => WeaveError::NotLoaded(place),
            StepError::NotHolding => WeaveError::NotHolding(place),
            StepError::StillLoaded => WeaveError::StillLoaded(place),
            StepError::NotRetired => WeaveError::NotRetired(place),
        }
    }
}

/// What the woven steps showed, and the state they left.
///
/// ```
/// let woven = weave(alloc, 1, &[Step::Load(7), Step::Load(8), Step::Exchange(7)])?;
/// assert_eq!(rt; (woven.shown.len(), woven.events.len(), woven.word), (3, 1, 0));
/// ```
#[derive(PartialEq, Eq, Debug, Drop)]
pub struct Woven {
    /// What each step showed, in order.
    pub shown: Vec<Shown>,
    /// The permit history: the events of the steps that took, gave back, were refused, retired or raised.
    pub events: Vec<PermitEvent>,
    /// The number of free permits after the last step.
    pub word: u32,
}

impl Woven {
    fn push(&mut self, caller: u16, shown: Shown)
        requires shown { vec_len self.old.shown < vec_capacity self.old.shown }
        requires events { vec_len self.old.events < vec_capacity self.old.events }
        ensures shown { self.new.shown.items ≡ self.old.shown.items ++ shown ∷ [] }
        ensures events { self.new.events.items ≡ self.old.events.items ++ option_to_list (event_shown caller shown) }
        ensures shown_count { vec_len self.new.shown ≡ vec_len self.old.shown + 1 }
        ensures events_count { vec_len self.new.events ≤ vec_len self.old.events + 1 }
        ensures shown_room { vec_capacity self.old.shown ≤ vec_capacity self.new.shown }
        ensures events_room { vec_capacity self.old.events ≤ vec_capacity self.new.events }
    {
        self.shown.push(shown).unwrap();
        if let Some(event) = shown.event(caller) {
            self.events.push(event).unwrap();
        }
    }
}

/// Makes the steps in order on a word that starts at `max`, and returns what each step showed, the permit history and
/// the last word.
///
/// # Errors
///
/// In this order: `TooManyPermits` if `max` is above 65,535; `Memory` if out of memory; then the first step that can't
/// be made, with its place, counted from 1: `StillLoaded` if it isn't an exchange and its caller has loaded a number;
/// `NotLoaded` if it is an exchange and its caller has loaded none; `NotHolding` for an add or a retire by a caller
/// that holds no permit; `NotRetired` for a raise by a caller that has retired none.
///
/// ```
/// let race = [Step::Load(0), Step::Load(1), Step::Exchange(0), Step::Exchange(1)];
/// let woven = weave(alloc, 1, &race)?;
/// let shown = [Shown::Loaded, Shown::Loaded, Shown::Took, Shown::Lost];
/// assert_eq!(rt; woven.shown.as_slice(), shown.as_slice());
/// ```
pub fn weave(alloc: Global, max: u32, steps: &[Step]) -> Result<Woven, WeaveError>
    ensures woven { IfOk result (IsWoven max steps.now) }
    ensures law { IfOk result (KeepsLaw max) }
    ensures too_many { IsErrOf result WeaveError.TooManyPermits ↔ (65535 < max) }
    ensures refused { IfErr result (IsRefusedFor max steps.now) }
    ensures made { max ≤ 65535 → CanMakeAll (start max) steps.now → IsOkUnless result Memory }
{
    if max > MAX_PERMITS {
        return Err(WeaveError::TooManyPermits);
    }
    let mut machine = WordMachine::new(alloc, max)?;
    let mut woven = Woven {
        shown: Vec::with_capacity(alloc, steps.len())?,
        events: Vec::with_capacity(alloc, steps.len())?,
        word: max,
    };
    for (index, step) in steps.iter().enumerate() {
        match machine.make(*step) {
            Ok(shown) => woven.push(step.caller(), shown),
            Err(stuck) => return Err(stuck.at(index + 1)),
        }
    }
    woven.word = machine.word;
    Ok(woven)
}
