//! Backoffs: how long to wait after each attempt, in milliseconds.

ghost use Rattle.std.specs.Prelude.{ℕ, ◌≤◌, ◌<◌, ◌-◌};

/// The wait after each attempt (Resilience4j user guide, Retry: `waitDuration`,
/// `intervalFunction`).
///
/// ```
/// impl Backoff for Doubled {
///     fn after(&self, attempt: u32) -> u64 {
///         u64::from(attempt) * 200
///     }
/// }
/// ```
pub trait Backoff {
    /// It can give a wait.
    ghost CanAsk: { Self → Type 0 } = { λ _. Unit {0} };

    /// After this attempt the wait may be this number of milliseconds.
    ghost IsWait: { Self → ℕ → ℕ → Type 0 } = { λ _ _ _. Unit {0} };

    /// Returns the wait after an attempt, in milliseconds. Attempts are numbered from 1.
    fn after(&self, attempt: u32) -> u64
        requires can { CanAsk self.now }
        requires numbered { 1 ≤ attempt }
        ensures { IsWait self.now attempt result };

    /// Like `after`, if the wait after the previous attempt is known: `last`. For attempt 1 `last`
    /// may be any number. A backoff whose waits grow from one another needn't count from the first.
    fn next(&self, attempt: u32, last: u64) -> u64
        requires can { CanAsk self.now }
        requires numbered { 1 ≤ attempt }
        requires follows { 1 < attempt → IsWait self.now (attempt - 1) last }
        ensures { IsWait self.now attempt result }
    {
        let _last = last;
        self.after(attempt)
    }
}

/// The same wait after every attempt, in milliseconds.
#[derive(Clone, Copy, PartialEq, Eq, Debug)]
pub struct SameWait(pub u64);

impl Backoff for SameWait {
    ghost use Rattle.std.specs.Prelude.{◌≡◌};

    ghost IsWait = { λ x _ wait. wait ≡ x.0 };

    fn after(&self, _attempt: u32) -> u64 {
        self.0
    }
}

/// The wait that a closure returns for the attempt's number.
#[derive(Drop)]
pub struct ByAttempt<F>(pub F);

impl<F: Fn(u32) -> u64> Backoff for ByAttempt<F> {
    ghost CanAsk = { λ x. F.IsAlwaysCallable x.0 };

    ghost IsWait = { λ x attempt wait. F.post x.0 attempt wait };

    fn after(&self, attempt: u32) -> u64 {
        (self.0)(attempt)
    }
}
