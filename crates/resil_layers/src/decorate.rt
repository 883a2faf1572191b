//! Writing a chain of layers, innermost first.

ghost use Rattle.std.specs.Prelude.{◌≡◌, ◌≤◌, []};
ghost use Rattle.resil_permit.specs.Passes.{held_by, own_events};

use crate::fallback::{Fallback, OrElse};
use crate::inside::Inside;
use crate::inside_within::InsideWithin;
use resil_bulkhead::{Bulkhead, NoPermit, Pass};
use resil_call::{Backoff, Call, CanBeRefused, Pause, Retried, RetryPolicy, RetryTest};
use std::time::Duration;

/// Layers around any call. A chain reads from the innermost layer on (Resilience4j user guide,
/// Decorators: `Decorators.ofSupplier`).
///
/// ```
/// let mut chain = FromFn(|| ask(&neighbour))
///     .inside(&bulkhead, &rt)
///     .retried(&policy, Sleep::new(&rt))
///     .or_else(|_error| 0);
/// for item in items {
///     let price = chain.call();
/// }
/// ```
pub trait Decorate: Call + Sized {
    /// Puts the call under a permit of the bulkhead, taken by a new pass of the layer's own
    /// (`withBulkhead`). A refusal becomes an error of the call's, by its `From<NoPermit>`.
    fn inside<'a, R>(self, bulkhead: &'a Bulkhead, rt: &'a R) -> Inside<'a, R, Self>
    where
        Self::Output: CanBeRefused<NoPermit>,
        ensures call { result.call ≡ self }
        ensures bulkhead { result.bulkhead.now ≡ bulkhead.now }
        ensures number { own_events result.pass ≡ [] }
        ensures held { held_by result.pass ≡ 0 }
    {
        self.inside_by(bulkhead, rt, bulkhead.new_pass())
    }

    /// Like `inside`, but this pass of the bulkhead's takes the permits.
    fn inside_by<'a, R>(self, bulkhead: &'a Bulkhead, rt: &'a R, pass: Pass) -> Inside<'a, R, Self>
    where
        Self::Output: CanBeRefused<NoPermit>,
        requires source { pass.source ≡ bulkhead.now.permits }
        ensures call { result.call ≡ self }
        ensures bulkhead { result.bulkhead.now ≡ bulkhead.now }
        ensures pass { result.pass ≡ pass }
    {
        Inside {
            bulkhead,
            rt,
            pass,
            call: self,
        }
    }

    /// Like `inside`, but if no permit is free, the call waits for one for at most `longest`
    /// (`maxWaitDuration`).
    fn inside_within<'a, R>(
        self,
        bulkhead: &'a Bulkhead,
        rt: &'a R,
        longest: Duration,
    ) -> InsideWithin<'a, R, Self>
    where
        Self::Output: CanBeRefused<NoPermit>,
        ensures call { result.call ≡ self }
        ensures bulkhead { result.bulkhead.now ≡ bulkhead.now }
        ensures clock { result.rt.now ≡ rt.now }
        ensures longest { result.longest ≡ longest }
        ensures number { own_events result.pass ≡ [] }
        ensures held { held_by result.pass ≡ 0 }
    {
        InsideWithin {
            bulkhead,
            rt,
            pass: bulkhead.new_pass(),
            longest,
            call: self,
        }
    }

    /// Retries the call by the policy, which has at least one attempt, with these pauses (`withRetry`).
    fn retried<'a, B: Backoff, A: RetryTest<Self::Output>, P: Pause>(
        self,
        policy: &'a RetryPolicy<B, A>,
        pause: P,
    ) -> Retried<'a, B, A, Self, P>
        requires attempts { 1 ≤ policy.now.max_attempts }
        ensures call { result.call ≡ self }
        ensures policy { result.policy.now ≡ policy.now }
        ensures pause { result.pause ≡ pause }
    {
        Retried {
            policy,
            pause,
            call: self,
        }
    }

    /// Replaces the errors of the call by values (`withFallback`).
    fn or_else<F>(self, value: F) -> OrElse<Self, F>
        ensures call { result.call ≡ self }
        ensures value { result.value ≡ value }
    {
        OrElse { call: self, value }
    }

    /// Replaces the errors of the call that a test names by values (`withFallback` of listed exceptions).
    ///
    /// ```
    /// let mut chain = FromFn(|| ask(&neighbour))
    ///     .or_else_if(|error: &AskError| error.is_timeout(), |_error| 0);
    /// let price = chain.call();
    /// ```
    fn or_else_if<K, F>(self, names: K, value: F) -> Fallback<Self, K, F>
        ensures call { result.call ≡ self }
        ensures names { result.names ≡ names }
        ensures value { result.value ≡ value }
    {
        Fallback {
            call: self,
            names,
            value,
        }
    }
}

impl<C: Call> Decorate for C {}
