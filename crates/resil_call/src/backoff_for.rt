//! Backoffs that may look at the answer.

ghost use Rattle.std.specs.Prelude.{ℕ, ◌≤◌, ◌<◌, ◌-◌};

use crate::backoff::Backoff;

/// The wait after an attempt and its answer (Resilience4j user guide, Retry: `intervalBiFunction`).
/// Every `Backoff` is also one of these. It ignores the answer.
///
/// ```
/// impl BackoffFor<Result<u32, Refusal>> for AsTold {
///     fn next_for(&self, _attempt: u32, _last: u64, answer: &Result<u32, Refusal>) -> u64 {
///         match answer {
///             Err(refusal) => refusal.retry_after,
///             Ok(_) => 0,
///         }
///     }
/// }
/// ```
pub trait BackoffFor<T> {
    /// It can give a wait.
    ghost CanAsk: { Self → Type 0 } = { λ _. Unit {0} };

    /// After this attempt and this answer the wait may be this number of milliseconds.
    ghost IsWaitFor: { Self → ℕ → T → ℕ → Type 0 } = { λ _ _ _ _. Unit {0} };

    /// It may have returned this wait after this attempt.
    ghost HasSaid: { Self → ℕ → ℕ → Type 0 } = { λ _ _ _. Unit {0} };

    /// Returns the wait after an attempt and its answer, in milliseconds. Attempts are numbered from
    /// 1; `last` is the wait after the previous attempt, or any number for attempt 1.
    fn next_for(&self, attempt: u32, last: u64, answer: &T) -> u64
        requires can { CanAsk self.now }
        requires numbered { 1 ≤ attempt }
        requires follows { 1 < attempt → HasSaid self.now (attempt - 1) last }
        ensures wait { IsWaitFor self.now attempt answer.now result }
        ensures said { HasSaid self.now attempt result };
}

impl<T, B: Backoff> BackoffFor<T> for B {
    ghost CanAsk = { λ x. B.CanAsk x };

    ghost IsWaitFor = { λ x attempt _ wait. B.IsWait x attempt wait };

    ghost HasSaid = { λ x attempt wait. B.IsWait x attempt wait };

    fn next_for(&self, attempt: u32, last: u64, _answer: &T) -> u64 {
        self.next(attempt, last)
    }
}

/// The wait that a closure returns for the attempt's number and its answer.
///
/// ```
/// let backoff = ByAnswer(|attempt: u32, answer: &Result<u32, u64>| match answer {
///     Err(retry_after) => *retry_after,
///     Ok(_) => u64::from(attempt) * 100,
/// });
/// ```
#[derive(Drop)]
pub struct ByAnswer<F>(pub F);

impl<T, F: Fn(u32, &T) -> u64> BackoffFor<T> for ByAnswer<F> {
    ghost use Rattle.std.specs.Prelude.{◌≡◌};
    ghost use Rattle.std.specs.Borrow.{Bor};

    ghost CanAsk = { λ x. F.IsAlwaysCallable x.0 };

    ghost IsWaitFor = { λ x attempt answer wait. (shown : Bor T) × (shown.now ≡ answer) × F.post x.0 attempt shown wait };

    fn next_for(&self, attempt: u32, _last: u64, answer: &T) -> u64 {
        (self.0)(attempt, answer)
    }
}
