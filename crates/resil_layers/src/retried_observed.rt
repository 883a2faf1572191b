//! A retry around a call, as a call with an observer.

ghost use Rattle.std.specs.Prelude.{ℕ, ◌≡◌, ◌≤◌};
ghost use Rattle.resil_call.specs.declared.tried.Tried.{Tried};
ghost use Rattle.resil_call.specs.Retry.{IsRetriedWithin};
ghost use Rattle.resil_layers.specs.RetriedObserved.{IsTold};
ghost use Rattle.resil_layers.specs.declared.retried_observed.Telling.{Telling};

use resil_call::{BackoffFor, Call, Pause, RetryPolicy, RetryTest, Tried, WaitLimit, retry_within};
use std::marker::PhantomData;

/// Observes each retry: once before each wait, and once at the end (Resilience4j user guide, Retry: `onRetry`, `onSuccess`,
/// `onError`). The first attempt isn't a retry.
///
/// ```
/// impl<T> RetryObserver<T> for LongestWait {
///     fn on_retry(&mut self, _attempt: u32, milliseconds: u64) {
///         self.0 = self.0.max(milliseconds);
///     }
///
///     fn on_end(&mut self, _tried: &Tried<T>) {}
/// }
/// ```
pub trait RetryObserver<T> {
    /// It can observe a retry.
    ghost CanTell: { Self → Type 0 } = { λ _. Unit {0} };

    /// The wait after the attempt of this number may leave it in this state.
    ghost IsRetry: { Self → ℕ → ℕ → Self → Type 0 } = { λ _ _ _ _. Unit {0} };

    /// The end of this retry may leave it in this state.
    ghost IsEnd: { Self → Tried T → Self → Type 0 } = { λ _ _ _. Unit {0} };

    /// The attempt of this number, from 1 on, is to be tried again, after a wait of this many milliseconds, which begins now.
    fn on_retry(&mut self, attempt: u32, milliseconds: u64)
        requires { CanTell self.old }
        ensures retry { IsRetry self.old attempt milliseconds self.new }
        ensures can { CanTell self.new };

    /// The retry has ended with this outcome.
    fn on_end(&mut self, tried: &Tried<T>)
        requires { CanTell self.old }
        ensures end { IsEnd self.old tried.now self.new }
        ensures can { CanTell self.new };
}

/// A closure that sees each wait: the number of the attempt before it, and its milliseconds.
#[derive(Drop)]
pub struct OnRetry<F>(pub F);

impl<T, F: FnMut(u32, u64)> RetryObserver<T> for OnRetry<F> {
    ghost CanTell = { λ x. F.IsAlwaysCallable x.0 };

    ghost IsRetry = { λ x attempt milliseconds y. F.step x.0 attempt milliseconds tt y.0 };

    ghost IsEnd = { λ x _ y. y ≡ x };

    fn on_retry(&mut self, attempt: u32, milliseconds: u64) {
        (self.0)(attempt, milliseconds);
    }

    fn on_end(&mut self, _tried: &Tried<T>) {}
}

/// Two observers. Both see everything.
impl<T, A: RetryObserver<T>, B: RetryObserver<T>> RetryObserver<T> for (A, B) {
    ghost CanTell = { λ x. A.CanTell x.0 × B.CanTell x.1 };

    ghost IsRetry = { λ x attempt milliseconds y. A.IsRetry x.0 attempt milliseconds y.0 × B.IsRetry x.1 attempt milliseconds y.1 };

    ghost IsEnd = { λ x tried y. A.IsEnd x.0 tried y.0 × B.IsEnd x.1 tried y.1 };

    fn on_retry(&mut self, attempt: u32, milliseconds: u64) {
        self.0.on_retry(attempt, milliseconds);
        self.1.on_retry(attempt, milliseconds);
    }

    fn on_end(&mut self, tried: &Tried<T>) {
        self.0.on_end(tried);
        self.1.on_end(tried);
    }
}

/// A pause that reports each wait to an observer before it begins.
#[derive(Drop)]
pub struct Telling<T, P, O> {
    // The number of the attempt before the next wait.
    pub(crate) attempt: u32,
    /// The pause between the attempts.
    pub pause: P,
    /// The observer.
    pub observer: O,
    pub(crate) of: PhantomData<T>,
}

impl<T, P: Pause, O: RetryObserver<T>> Pause for Telling<T, P, O> {
    ghost HasRoom = { λ x more. P.HasRoom x.pause more × O.CanTell x.observer };

    ghost IsPaused = { IsTold O.IsRetry P.IsPaused };

    fn pause(&mut self, milliseconds: u64) {
        self.observer.on_retry(self.attempt, milliseconds);
        self.attempt = self.attempt.saturating_add(1);
        self.pause.pause(milliseconds);
    }
}

/// A call that retries another one and returns its last answer. It has a limit of the waits, made anew for each call, and
/// reports each wait, before it begins, and the end to an observer.
#[derive(Drop)]
pub struct RetriedObserved<'a, T, B, A, C, P, F, O> {
    /// The policy: how many attempts, after which waits, and for which answers.
    pub policy: &'a RetryPolicy<B, A>,
    /// Makes the limit of a call's waits.
    pub limit: F,
    /// The pause between the attempts, and the observer that it reports to.
    pub told: Telling<T, P, O>,
    /// The call that is retried.
    pub call: C,
    ghost attempts: { 1 ≤ policy.now.max_attempts },
}

impl<
    'a,
    T: Drop,
    B: BackoffFor<T>,
    A: RetryTest<T>,
    C: Call<Output = T>,
    P: Pause,
    L: WaitLimit + Drop,
    F: Fn() -> L,
    O: RetryObserver<T>,
> Call for RetriedObserved<'a, T, B, A, C, P, F, O> {
    type Output = T;

    ghost CanCall = { λ x.
        C.CanCall x.call × A.CanAsk x.policy.now.retry_on × B.CanAsk x.policy.now.backoff × ((n : ℕ) → P.HasRoom x.told.pause n)
        × F.IsAlwaysCallable x.limit × O.CanTell x.told.observer };

    // Attempts are numbered from 1; `last` is the pause and the observer after the retry, before the observer sees the end.
    ghost IsAnswer = { λ x answer y.
        (tried : Tried T) × (limit : L) × (rest : L) × (last : Telling T P O)
        × (tried.answer ≡ answer) × F.post x.limit limit × (y.policy ≡ x.policy) × (y.limit ≡ x.limit)
        × IsRetriedWithin C.IsAnswer (A.IsVerdict x.policy.now.retry_on) (B.IsWaitFor x.policy.now.backoff) (IsTold O.IsRetry P.IsPaused) L.IsAllowed x.policy.now.max_attempts x.call y.call (record x.told { attempt = 1 }) last limit rest tried
        × O.IsEnd last.observer tried y.told.observer × (y.told.pause ≡ last.pause) };

    fn call(&mut self) -> T {
        let mut limit = (self.limit)();
        self.told.attempt = 1;
        let tried = retry_within(self.policy, &mut limit, &mut self.call, &mut self.told);
        self.told.observer.on_end(&tried);
        tried.answer
    }
}
