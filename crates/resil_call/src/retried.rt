//! A retry around a call, as a call.

ghost use Rattle.std.specs.Prelude.{ℕ, ◌≤◌, ◌≡◌};
ghost use Rattle.resil_call.specs.declared.tried.Tried.{Tried};
ghost use Rattle.resil_call.specs.Retry.{IsRetried};

use crate::backoff::Backoff;
use crate::call::Call;
use crate::pause::Pause;
use crate::policy::RetryPolicy;
use crate::retry_loop::retry;
use crate::retry_test::RetryTest;

/// A call that retries another one and returns its last answer (Resilience4j user guide,
/// Decorators: `withRetry`).
///
/// ```
/// let call = FromFn(|| -> Result<u32, u16> { Err(503) });
/// let mut chain = Retried { policy: &policy, pause: NoPause, call };
/// for _ in 0..3 {
///     let answer = chain.call();
/// }
/// ```
#[derive(Drop)]
pub struct Retried<'a, B, A, C, P> {
    /// The policy: how many attempts, after which waits, and for which answers.
    pub policy: &'a RetryPolicy<B, A>,
    /// The pause between the attempts.
    pub pause: P,
    /// The call that is retried.
    pub call: C,
    ghost attempts: { 1 ≤ policy.now.max_attempts },
}

impl<'a, B: Backoff, A: RetryTest<C::Output>, C: Call, P: Pause> Call for Retried<'a, B, A, C, P> {
    type Output = C::Output;

    ghost CanCall = { λ x. C.CanCall x.call × A.CanAsk x.policy.now.retry_on × B.CanAsk x.policy.now.backoff × ((n : ℕ) → P.HasRoom x.pause n) };

    ghost IsAnswer = { λ x answer y.
        (tried : Tried C.Output) × (tried.answer ≡ answer) × (y.policy ≡ x.policy)
        × IsRetried C.IsAnswer (A.IsVerdict x.policy.now.retry_on) (B.IsWait x.policy.now.backoff) P.IsPaused x.policy.now.max_attempts x.call y.call x.pause y.pause tried };

    fn call(&mut self) -> C::Output {
        retry(self.policy, &mut self.call, &mut self.pause).answer
    }
}
