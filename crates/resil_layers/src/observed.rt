//! A layer that reports each call to an observer.

ghost use Rattle.std.specs.Prelude.{◌≡◌};

use crate::counting::{Count, Counting};
use resil_call::Call;

/// Observes each call: once before it, and once after it with its answer.
///
/// ```
/// impl<T, E> Observer<Result<T, E>> for Failures {
///     fn before(&mut self) {}
///
///     fn after(&mut self, answer: &Result<T, E>) {
///         if answer.is_err() {
///             self.0 = self.0.saturating_add(1);
///         }
///     }
/// }
/// ```
pub trait Observer<T> {
    /// It can observe a call.
    ghost CanTell: { Self → Type 0 } = { λ _. Unit {0} };

    /// The start of a call may leave it in this state.
    ghost IsBefore: { Self → Self → Type 0 } = { λ _ _. Unit {0} };

    /// This answer may leave it in this state.
    ghost IsAfter: { Self → T → Self → Type 0 } = { λ _ _ _. Unit {0} };

    /// A call begins.
    fn before(&mut self)
        requires { CanTell self.old }
        ensures before { IsBefore self.old self.new }
        ensures can { CanTell self.new };

    /// A call has returned this answer.
    fn after(&mut self, answer: &T)
        requires { CanTell self.old }
        ensures after { IsAfter self.old answer.now self.new }
        ensures can { CanTell self.new };
}

/// A closure that sees each answer.
#[derive(Drop)]
pub struct Inspect<F>(pub F);

impl<T, F: FnMut(&T)> Observer<T> for Inspect<F> {
    ghost use Rattle.std.specs.Prelude.{◌≡◌};
    ghost use Rattle.std.specs.Fn.{CalledAt};

    ghost CanTell = { λ x. F.IsAlwaysCallable x.0 };

    ghost IsBefore = { λ x y. y ≡ x };

    ghost IsAfter = { λ x answer y. CalledAt F.FnMut x.0 answer tt y.0 };

    fn before(&mut self) {}

    fn after(&mut self, answer: &T) {
        (self.0)(answer);
    }
}

/// A call with an observer, which is called before it, and after it with the very answer.
#[derive(Drop)]
pub struct Observed<C, O> {
    /// The call inside.
    pub call: C,
    /// The observer.
    pub observer: O,
}

impl<C: Call, O: Observer<C::Output>> Call for Observed<C, O> {
    type Output = C::Output;

    ghost CanCall = { λ x. C.CanCall x.call × O.CanTell x.observer };

    ghost IsAnswer = { λ x answer y.
        (between : O) × O.IsBefore x.observer between × C.IsAnswer x.call answer y.call × O.IsAfter between answer y.observer };

    fn call(&mut self) -> C::Output {
        self.observer.before();
        let answer = self.call.call();
        self.observer.after(&answer);
        answer
    }
}

/// Observers around any call.
///
/// ```
/// let mut chain = FromFn(|| ask(&neighbour))
///     .inside(&bulkhead, &rt)
///     .counted(&counts)
///     .or_else(|_error| 0);
/// let price = chain.call();
/// println!(rt; "{} refused", counts.count(Counted::Refused))?;
/// ```
pub trait Observe: Call + Sized {
    /// Reports the call to this observer.
    fn observed<O>(self, observer: O) -> Observed<Self, O>
        ensures call { result.call ≡ self }
        ensures observer { result.observer ≡ observer }
    {
        Observed {
            call: self,
            observer,
        }
    }

    /// Shows the answers of the call to a closure.
    fn inspect<F>(self, told: F) -> Observed<Self, Inspect<F>>
        ensures call { result.call ≡ self }
        ensures told { result.observer.0 ≡ told }
    {
        self.observed(Inspect(told))
    }

    /// Counts the call by its answer.
    fn counted<K: Count>(self, counts: K) -> Observed<Self, Counting<K>>
        ensures call { result.call ≡ self }
        ensures counts { result.observer.0 ≡ counts }
    {
        self.observed(Counting(counts))
    }
}

impl<C: Call> Observe for C {}
