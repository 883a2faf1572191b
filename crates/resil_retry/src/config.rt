//! The configuration of a retry.
//!
//! A configuration has at least one attempt, since the first call is one, and at most
//! `MAX_ATTEMPTS`, so the waits of a retry fit into room reserved before it starts. The rest is the
//! policy of a retry of any call: the interval gives the wait after an attempt, and the result test
//! and the error test say which outcomes are to be retried.

ghost use Rattle.std.specs.Prelude.{◌≡◌, ◌≤◌, ◌<◌, ◌↔◌, IsTrue, OkIff, IsErrOf, IfOk, IfErr};
ghost use Rattle.resil_retry.specs.Config.{again, attempt_limit, policy_of, wait_after};
ghost use Rattle.resil_retry.specs.Interval.{interval_limit};
ghost use Rattle.resil_retry.specs.Retry.{exhausted_outcome};

use crate::error::RetryError;
use crate::error_test::ErrorTest;
use crate::interval::Interval;
use crate::outcome::{Kind, Outcome};
use crate::outcome_test::OutcomeTest;
use crate::result_test::ResultTest;
use resil_call::{RetryPolicy, RetryTest};
use std::alloc::Global;
use std::marker::Model;

/// The maximum number of attempts of a retry, the first call included (Resilience4j user guide,
/// Retry: `maxAttempts`). The limit is this library's own.
pub const MAX_ATTEMPTS: u32 = 1_000;

/// How many attempts a retry makes, after which waits and for which outcomes (Resilience4j user
/// guide, Retry: `maxAttempts`, `intervalFunction`, `retryOnResultPredicate`,
/// `retryOnExceptionPredicate`, `failAfterMaxAttempts`).
///
/// ```
/// let every_error = ErrorTest::new(Vec::new(alloc), Vec::new(alloc));
/// let interval = Interval::exponential(10, 2, 1, 1_000)?;
/// let config = RetryConfig::new(3, interval, ResultTest::Never, every_error, false)?;
/// ```
#[derive(Debug, Drop)]
pub struct RetryConfig {
    policy: RetryPolicy<Interval, OutcomeTest>,
    fail_after_max: bool,
}

impl Model for RetryConfig {
    ghost use Rattle.std.specs.Prelude.{◌≤◌};
    ghost use Rattle.resil_retry.specs.Config.{RetryConfigView, attempt_limit};

    ghost Value = { RetryConfigView };

    ghost view = { λ c. record {
      max_attempts = c.policy.max_attempts;
      interval = c.policy.backoff;
      result_test = c.policy.retry_on.result_test;
      error_test = c.policy.retry_on.error_test;
      fail_after_max = c.fail_after_max;
    } };

    ghost invariant = { λ c. (1 ≤ c.policy.max_attempts) × (c.policy.max_attempts ≤ attempt_limit) };
}

impl RetryConfig {
    /// Makes a configuration of these parts: the number of attempts, the first call included; the
    /// wait after each; the values and the errors that are to be retried; and whether a value that
    /// is still to be retried after the last attempt becomes the error `Exceeded`.
    ///
    /// # Errors
    ///
    /// In this order: `NoAttempts` if `max_attempts` is 0; `TooManyAttempts` if it is above `MAX_ATTEMPTS`.
    ///
    /// ```
    /// let negative = ResultTest::Below(0);
    /// let every_error = ErrorTest::new(Vec::new(alloc), Vec::new(alloc));
    /// let config = RetryConfig::new(3, Interval::fixed(500)?, negative, every_error, true)?;
    /// assert!(rt; config.max_attempts() == 3 && config.fails_after_max());
    /// ```
    pub fn new(
        max_attempts: u32,
        interval: Interval,
        result_test: ResultTest,
        error_test: ErrorTest,
        fail_after_max: bool,
    ) -> Result<RetryConfig, RetryError>
        ensures made { OkIff result ((1 ≤ max_attempts) × (max_attempts ≤ attempt_limit)) (record {
          max_attempts = max_attempts;
          interval = interval;
          result_test = result_test;
          error_test = error_test;
          fail_after_max = fail_after_max;
        }) }
        ensures no_attempts { IsErrOf result RetryError.NoAttempts ↔ (max_attempts ≡ 0) }
        ensures too_many { IsErrOf result RetryError.TooManyAttempts ↔ (attempt_limit < max_attempts) }
    {
        if max_attempts == 0 {
            return Err(RetryError::NoAttempts);
        }
        if max_attempts > MAX_ATTEMPTS {
            return Err(RetryError::TooManyAttempts);
        }
        let retry_on = OutcomeTest {
            result_test,
            error_test,
        };
        let policy = RetryPolicy {
            max_attempts,
            backoff: interval,
            retry_on,
        };
        Ok(RetryConfig {
            policy,
            fail_after_max,
        })
    }

    /// Returns how many attempts, after which waits and for which outcomes, as the policy of a
    /// retry of any call.
    ///
    /// ```
    /// let tried = resil_call::retry(config.policy(), &mut Player::new(&script), &mut NoPause);
    /// ```
    pub fn policy(&self) -> &RetryPolicy<Interval, OutcomeTest>
        ensures value { result.now ≡ policy_of self.now }
        ensures least { 1 ≤ result.now.max_attempts }
    {
        &self.policy
    }

    /// Returns the number of attempts, from 1 to `MAX_ATTEMPTS`. The first call is one of them.
    pub fn max_attempts(&self) -> u32
        ensures value { result ≡ self.now.max_attempts }
        ensures least { 1 ≤ result }
        ensures most { result ≤ attempt_limit }
    {
        self.policy.max_attempts
    }

    /// Returns whether a value that is still to be retried after the last attempt becomes the error `Exceeded`.
    pub fn fails_after_max(&self) -> bool
        ensures { result ≡ self.now.fail_after_max }
    {
        self.fail_after_max
    }

    /// Returns whether an outcome is to be retried: a value by the result test, an error by the error test.
    ///
    /// ```
    /// // The result test is ResultTest::Below(0).
    /// assert!(rt; config.again(Outcome::Value(-1)));
    /// assert!(rt; !config.again(Outcome::Value(0)));
    /// ```
    pub fn again(&self, outcome: Outcome) -> bool
        ensures { result ≡ again self.now outcome }
    {
        self.policy.retry_on.is_retried(&outcome)
    }

    /// Returns the outcome of a retry if no attempt is left and this outcome is still to be
    /// retried: the outcome itself, or the error `Exceeded` instead of a value if the configuration
    /// fails after the last attempt (Resilience4j user guide, Retry: `failAfterMaxAttempts`).
    ///
    /// ```
    /// // The configuration fails after the last attempt.
    /// let outcome = config.exhausted_outcome(Outcome::Value(-1));
    /// assert_eq!(rt; outcome, Outcome::Error(Kind::Exceeded));
    /// ```
    pub fn exhausted_outcome(&self, outcome: Outcome) -> Outcome
        ensures { result ≡ exhausted_outcome self.now outcome }
    {
        match outcome {
            Outcome::Value(_) if self.fail_after_max => Outcome::Error(Kind::Exceeded),
            _ => outcome,
        }
    }

    /// Returns the wait after an attempt, in milliseconds. Attempts are numbered from 1.
    ///
    /// ```
    /// // The interval is Interval::exponential(10, 2, 1, 1_000)?.
    /// assert_eq!(rt; config.wait(1), 10);
    /// assert_eq!(rt; config.wait(3), 40);
    /// ```
    pub fn wait(&self, attempt: u32) -> u64
        requires { 1 ≤ attempt }
        ensures rule { result ≡ wait_after self.now attempt }
        ensures limit { result ≤ interval_limit }
    {
        self.policy.backoff.after(attempt)
    }

    /// Returns a copy with memory of its own.
    ///
    /// # Errors
    ///
    /// `Memory` if out of memory.
    pub fn copy(&self, alloc: Global) -> Result<RetryConfig, RetryError>
        ensures copied { IfOk result (λ copy. copy ≡ self.now) }
        ensures refused { IfErr result (λ error. error ≡ RetryError.Memory) }
    {
        let retry_on = OutcomeTest {
            result_test: self.policy.retry_on.result_test,
            error_test: self.policy.retry_on.error_test.copy(alloc)?,
        };
        let policy = RetryPolicy {
            max_attempts: self.policy.max_attempts,
            backoff: self.policy.backoff,
            retry_on,
        };
        Ok(RetryConfig {
            policy,
            fail_after_max: self.fail_after_max,
        })
    }

    /// Returns whether both configurations have equal parts.
    pub fn same(&self, other: &RetryConfig) -> bool
        ensures { IsTrue result ↔ (self.now ≡ other.now) }
    {
        self.policy.backoff == other.policy.backoff
            && self.policy.max_attempts == other.policy.max_attempts
            && self.policy.retry_on.result_test == other.policy.retry_on.result_test
            && self
                .policy
                .retry_on
                .error_test
                .same(&other.policy.retry_on.error_test)
            && self.fail_after_max == other.fail_after_max
    }
}
