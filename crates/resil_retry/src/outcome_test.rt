//! Outcome tests: which outcomes are to be retried.

use crate::error_test::ErrorTest;
use crate::outcome::Outcome;
use crate::result_test::ResultTest;
use resil_call::RetryTest;

/// Which outcomes are to be retried: values by a result test, errors by an error test.
///
/// ```
/// let policy = RetryPolicy {
///     max_attempts: 3,
///     backoff: Interval::fixed(500)?,
///     retry_on: OutcomeTest { result_test: ResultTest::Never, error_test: every_error },
/// };
/// ```
#[derive(Debug, Drop)]
pub struct OutcomeTest {
    /// Which values.
    pub result_test: ResultTest,
    /// Which errors.
    pub error_test: ErrorTest,
}

impl RetryTest<Outcome> for OutcomeTest {
    ghost use Rattle.std.specs.Prelude.{◌≡◌};
    ghost use Rattle.resil_retry.specs.OutcomeTest.{is_retried};

    ghost IsVerdict = { λ test outcome verdict. verdict ≡ is_retried test outcome };

    fn is_retried(&self, outcome: &Outcome) -> bool {
        match *outcome {
            Outcome::Value(value) => self.result_test.matches(value),
            Outcome::Error(kind) => self.error_test.names(kind),
        }
    }
}
