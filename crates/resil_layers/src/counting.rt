//! What is counted of a call, and the observer that counts.

ghost use Rattle.resil_layers.specs.Counting.{IsCountedAs};
ghost use Rattle.resil_layers.specs.declared.counting.Counted.{Counted};

use crate::observed::Observer;
use resil_call::TellsRefusal;

/// What is counted of calls: each call when it begins, and each by its outcome.
#[derive(Clone, Copy, PartialEq, Eq, Debug)]
pub enum Counted {
    /// A call began.
    Called,
    /// It returned a value.
    Value,
    /// It returned an error that isn't a refusal.
    Error,
    /// It returned an error that is the refusal of a permit.
    Refused,
}

/// Counts calls: in words that threads share, or in numbers of its own.
pub trait Count {
    /// One more of this may leave it in this state.
    ghost IsAdded: { Self → Counted → Self → Type 0 } = { λ _ _ _. Unit {0} };

    /// Counts one more.
    fn add(&mut self, what: Counted)
        ensures { IsAdded self.old what self.new };
}

// How an answer is counted.
pub(crate) fn counted_as<T, E: TellsRefusal>(answer: &Result<T, E>) -> Counted
    ensures { IsCountedAs E.IsRefusal answer.now result }
{
    match answer {
        Ok(_) => Counted::Value,
        Err(error) => {
            if error.is_refusal() {
                Counted::Refused
            } else {
                Counted::Error
            }
        }
    }
}

/// An observer that counts each call once when it begins, and once by its answer.
#[derive(Drop)]
pub struct Counting<K>(pub K);

impl<T, E: TellsRefusal, K: Count> Observer<Result<T, E>> for Counting<K> {
    ghost use Rattle.resil_layers.specs.Counting.{IsCountedAs};
    ghost use Rattle.resil_layers.specs.declared.counting.Counted.{Counted};
    ghost use Rattle.resil_layers.specs.declared.counting.Counted.TheVariants.{Called};

    ghost IsBefore = { λ x y. K.IsAdded x.0 Called y.0 };

    ghost IsAfter = { λ x answer y. (what : Counted) × IsCountedAs E.IsRefusal answer what × K.IsAdded x.0 what y.0 };

    fn before(&mut self) {
        self.0.add(Counted::Called);
    }

    fn after(&mut self, answer: &Result<T, E>) {
        self.0.add(counted_as(answer));
    }
}
