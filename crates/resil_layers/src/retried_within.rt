//! A retry with a time limit by the clock around a call, as a call.

ghost use Rattle.std.specs.Prelude.{ℕ, ◌≤◌, ◌≡◌, None};
ghost use Rattle.std.specs.Duration.{as_nanos};
ghost use Rattle.resil_call.specs.declared.limit.Deadline.{Deadline};
ghost use Rattle.resil_call.specs.declared.tried.Tried.{Tried};
ghost use Rattle.resil_call.specs.Limit.{IsInTime};
ghost use Rattle.resil_call.specs.Retry.{IsRetriedWithin};

use crate::retried_observed::{RetriedObserved, RetryObserver, Telling};
use resil_call::{
    BackoffFor, Call, Deadline, Pause, RetryPolicy, RetryTest, WaitLimit, retry_within,
};
use resil_clock::Reads;
use std::marker::PhantomData;
use std::time::Duration;

/// A call that retries another one and returns its last answer, with no wait that would end later than `longest` after the call
/// began. The time starts anew with each call.
///
/// ```
/// let call = FromFn(|| -> Result<u32, u16> { Err(503) });
/// let longest = Duration::from_secs(2);
/// let mut chain = RetriedWithin { policy: &policy, clock: &rt, longest, pause: Sleep::new(&rt), call };
/// let answer = chain.call();
/// ```
#[derive(Drop)]
pub struct RetriedWithin<'a, R, B, A, C, P> {
    /// The policy: how many attempts, after which waits, and for which answers.
    pub policy: &'a RetryPolicy<B, A>,
    /// The clock.
    pub clock: &'a R,
    /// How long after the start of a call its waits may end.
    pub longest: Duration,
    /// The pause between the attempts.
    pub pause: P,
    /// The call that is retried.
    pub call: C,
    ghost attempts: { 1 ≤ policy.now.max_attempts },
}

impl<'a, R: Reads, B: BackoffFor<C::Output>, A: RetryTest<C::Output>, C: Call, P: Pause> Call
    for RetriedWithin<'a, R, B, A, C, P> {
    type Output = C::Output;

    ghost CanCall = { λ x. C.CanCall x.call × A.CanAsk x.policy.now.retry_on × B.CanAsk x.policy.now.backoff × ((n : ℕ) → P.HasRoom x.pause n) };

    ghost IsAnswer = { λ x answer y.
        (tried : Tried C.Output) × (limit : Deadline R) × (rest : Deadline R)
        × (tried.answer ≡ answer) × (y.policy ≡ x.policy) × (y.longest ≡ x.longest) × (limit.length ≡ x.longest)
        × (limit.clock.now ≡ x.clock.now) × R.HasSaid x.clock.now None limit.start
        × IsRetriedWithin C.IsAnswer (A.IsVerdict x.policy.now.retry_on) (B.IsWaitFor x.policy.now.backoff) P.IsPaused (λ (d : Deadline R) milliseconds allowed (e : Deadline R). (e ≡ d) × IsInTime (R.HasSaid d.clock.now) (as_nanos d.length) d.start milliseconds allowed) x.policy.now.max_attempts x.call y.call x.pause y.pause limit rest tried };

    fn call(&mut self) -> C::Output {
        let mut limit = Deadline::after(self.clock, self.longest);
        retry_within(self.policy, &mut limit, &mut self.call, &mut self.pause).answer
    }
}

/// A retry with a time limit or with any limit, put around any call.
///
/// ```
/// let mut chain = FromFn(|| ask(&neighbour))
///     .retried_within(&policy, &rt, Duration::from_secs(2), Sleep::new(&rt))
///     .or_else(|_error| 0);
/// let price = chain.call();
/// ```
pub trait DecorateWithin: Call + Sized {
    /// Retries the call by the policy, which has at least one attempt, with these pauses, and with no wait that would end later
    /// than `longest` after the call began. The time starts anew with each call.
    fn retried_within<
        'a,
        R: Reads,
        B: BackoffFor<Self::Output>,
        A: RetryTest<Self::Output>,
        P: Pause,
    >(
        self,
        policy: &'a RetryPolicy<B, A>,
        clock: &'a R,
        longest: Duration,
        pause: P,
    ) -> RetriedWithin<'a, R, B, A, Self, P>
        requires attempts { 1 ≤ policy.now.max_attempts }
        ensures call { result.call ≡ self }
        ensures policy { result.policy.now ≡ policy.now }
        ensures clock { result.clock.now ≡ clock.now }
        ensures longest { result.longest ≡ longest }
        ensures pause { result.pause ≡ pause }
    {
        RetriedWithin {
            policy,
            clock,
            longest,
            pause,
            call: self,
        }
    }

    /// Like `retried_within`, with any limit, which is made anew for each call, and with an observer that sees each wait, before
    /// it begins, and the end.
    ///
    /// ```
    /// let counts = RetryCounts::new("prices");
    /// let logging = OnRetry(|attempt: u32, milliseconds: u64| log(attempt, milliseconds));
    /// let limit = || Deadline::after(&rt, Duration::from_secs(2));
    /// let mut chain = FromFn(|| ask(&neighbour))
    ///     .retried_observed(&policy, Sleep::new(&rt), limit, (&counts, logging));
    /// let price = chain.call();
    /// println!(rt; "{} waits", counts.waits())?;
    /// ```
    fn retried_observed<
        'a,
        B: BackoffFor<Self::Output>,
        A: RetryTest<Self::Output>,
        P: Pause,
        L: WaitLimit,
        F: Fn() -> L,
        O: RetryObserver<Self::Output>,
    >(
        self,
        policy: &'a RetryPolicy<B, A>,
        pause: P,
        limit: F,
        observer: O,
    ) -> RetriedObserved<'a, Self::Output, B, A, Self, P, F, O>
        requires attempts { 1 ≤ policy.now.max_attempts }
        ensures call { result.call ≡ self }
        ensures policy { result.policy.now ≡ policy.now }
        ensures pause { result.told.pause ≡ pause }
        ensures limit { result.limit ≡ limit }
        ensures observer { result.told.observer ≡ observer }
    {
        RetriedObserved {
            policy,
            limit,
            told: Telling {
                attempt: 1,
                pause,
                observer,
                of: PhantomData,
            },
            call: self,
        }
    }
}

impl<C: Call> DecorateWithin for C {}
