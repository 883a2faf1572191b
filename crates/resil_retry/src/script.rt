//! Scripts: what a function returns, call by call.
//!
//! A script is a list of outcomes that is never empty, so every call has an outcome. A call returns the first outcome and drops it,
//! unless it is the only one: then all later calls return it too.

ghost use Rattle.std.specs.Prelude.{◌≡◌, ◌<◌, ◌↔◌, ◌∷◌, [], length, IsTrue, OkIff, IsErrOf, IfOk, IfErr};
ghost use Rattle.std.specs.Arc.{arc_value};

use crate::callee::Callee;
use crate::error::RetryError;
use crate::outcome::Outcome;
use resil_call::Call;
use std::alloc::Global;
use std::marker::Model;
use std::sync::Arc;

/// The outcomes of a function's calls: the n-th call returns the n-th one, and each call after the last outcome returns that one again.
#[derive(Debug, Drop)]
pub struct Script {
    outcomes: Outcomes,
}

// The outcomes of a script. Most scripts have one outcome, which is stored inline, so copying such a script doesn't allocate. Copying any
// other allocates memory for all outcomes, which several owners can then share; a copy of that copy is one more owner.
#[derive(Debug, Drop)]
enum Outcomes {
    // The only one.
    One(Outcome),
    // All of them, with one owner.
    Many(Vec<Outcome>),
    // All of them, with one or more owners, in any threads.
    Shared(Arc<Vec<Outcome>, Global>),
}

impl Model for Script {
    ghost use Rattle.std.specs.Prelude.{List, length, ◌<◌};
    ghost use Rattle.resil_retry.specs.declared.outcome.Outcome.{Outcome};

    ghost Value = { List Outcome };

    ghost use Rattle.resil_retry.specs.Script.{outcomes_at};

    ghost view = { λ s. outcomes_at s.outcomes };

    ghost invariant = { λ s. 0 < length (outcomes_at s.outcomes) };
}

impl Script {
    /// Makes a script of these outcomes, in their order.
    ///
    /// # Errors
    ///
    /// `EmptyScript` if there are none.
    ///
    /// ```
    /// let script = Script::new(Vec::from_array(alloc, [Outcome::Value(7)])?)?;
    /// let refused = Script::new(Vec::new(alloc)).err();
    /// assert_eq!(rt; refused, Some(RetryError::EmptyScript));
    /// ```
    pub fn new(outcomes: Vec<Outcome>) -> Result<Script, RetryError>
        ensures made { OkIff result (0 < length outcomes.items) outcomes.items }
        ensures empty { IsErrOf result RetryError.EmptyScript ↔ (outcomes.items ≡ []) }
    {
        let outcomes = match outcomes.as_slice() {
            [] => return Err(RetryError::EmptyScript),
            [only] => Outcomes::One(*only),
            _ => Outcomes::Many(outcomes),
        };
        Ok(Script { outcomes })
    }

    /// Makes the script of this one outcome, which all calls return. It doesn't allocate.
    pub fn one(outcome: Outcome) -> Script
        ensures { result ≡ outcome ∷ [] }
    {
        Script {
            outcomes: Outcomes::One(outcome),
        }
    }

    /// Returns a copy. Copying a script of one outcome doesn't allocate. The first copy of any other allocates, and copies of that copy share its outcomes.
    ///
    /// # Errors
    ///
    /// `Memory` if out of memory.
    pub fn copy(&self, alloc: Global) -> Result<Script, RetryError>
        ensures copied { IfOk result (λ copy. copy ≡ self.now) }
        ensures refused { IfErr result (λ error. error ≡ RetryError.Memory) }
    {
        let outcomes = match &self.outcomes {
            Outcomes::One(only) => Outcomes::One(*only),
            Outcomes::Many(outcomes) => Outcomes::Shared(share_copy(alloc, outcomes)?),
            Outcomes::Shared(outcomes) => Outcomes::Shared(Arc::try_clone(outcomes)?),
        };
        Ok(Script { outcomes })
    }

    /// Returns whether both scripts have equal outcomes in the same order.
    pub fn same(&self, other: &Script) -> bool
        ensures { IsTrue result ↔ (self.now ≡ other.now) }
    {
        self.as_slice() == other.as_slice()
    }

    // The outcomes, in their order.
    fn as_slice(&self) -> &[Outcome]
        ensures outcomes { result.now ≡ self.now }
        ensures some { 0 < length self.now }
    {
        match &self.outcomes {
            Outcomes::One(only) => std::slice::from_ref(only),
            Outcomes::Many(outcomes) => outcomes,
            Outcomes::Shared(outcomes) => outcomes,
        }
    }
}

// A copy of the outcomes that several owners can share. Errors: `Memory`. It is called for few copies, so this code stays out of the others.
#[cold]
fn share_copy(alloc: Global, outcomes: &[Outcome]) -> Result<Arc<Vec<Outcome>, Global>, RetryError>
    ensures shared { IfOk result (λ shared. (arc_value shared).items ≡ outcomes.now) }
    ensures refused { IfErr result (λ error. error ≡ RetryError.Memory) }
{
    match Arc::new(alloc, Vec::from_slice(alloc, outcomes)?) {
        Ok(shared) => Ok(shared),
        Err(_) => Err(RetryError::Memory),
    }
}

/// A callee that plays a script from its start. It doesn't allocate.
#[derive(Drop)]
pub struct Player<'a> {
    left: &'a [Outcome],
}

impl<'a> Model for Player<'a> {
    ghost use Rattle.std.specs.Prelude.{List, length, ◌<◌};
    ghost use Rattle.resil_retry.specs.declared.outcome.Outcome.{Outcome};

    ghost Value = { List Outcome };

    ghost view = { λ p. p.left.now };

    ghost invariant = { λ p. 0 < length p.left.now };
}

impl<'a> Player<'a> {
    /// Makes a player at the start of the script.
    ///
    /// ```
    /// // The script is Error(Code(503)), Value(7).
    /// let mut player = Player::new(&script);
    /// assert_eq!(rt; player.call(), Outcome::Error(Kind::Code(503)));
    /// assert_eq!(rt; player.call(), Outcome::Value(7));
    /// ```
    pub fn new(script: &'a Script) -> Player<'a>
        ensures { result ≡ script.now }
    {
        Player {
            left: script.as_slice(),
        }
    }
}

impl Call for Player<'_> {
    ghost use Rattle.std.specs.Prelude.{◌≡◌, Some};
    ghost use Rattle.resil_retry.specs.Script.{first, rest};

    type Output = Outcome;

    ghost IsAnswer = { λ x outcome y. (first x ≡ Some outcome) × (y ≡ rest x) };

    fn call(&mut self) -> Outcome {
        let outcome = self.left[0];
        if self.left.len() > 1 {
            self.left = &self.left[1..];
        }
        outcome
    }
}

impl Callee for Player<'_> {
    ghost script = { λ p. p };

    ghost can_call = { λ _. tt };

    ghost answers = { λ _ _ _ made. made };
}
