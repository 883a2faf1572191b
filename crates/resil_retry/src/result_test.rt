//! Result tests: which values are to be retried.
//!
//! A test compares a value with one number. It is plain data and not a function of the user's, so a
//! configuration can be copied and compared, and a test always has an answer.

ghost use Rattle.std.specs.Prelude.{◌≡◌};
ghost use Rattle.resil_retry.specs.ResultTest.{matches};

/// A test of values. A value that it matches is to be retried (Resilience4j user guide, Retry:
/// `retryOnResultPredicate`).
#[derive(Clone, Copy, Debug, PartialEq, Eq)]
pub enum ResultTest {
    /// Matches no value.
    Never,
    /// Matches only this value.
    Equal(i64),
    /// Matches each smaller value.
    Below(i64),
    /// Matches this value and each greater one.
    AtLeast(i64),
}

impl ResultTest {
    // Returns whether the test matches a value.
    pub(crate) fn matches(self, value: i64) -> bool
        ensures { result ≡ matches self value }
    {
        match self {
            ResultTest::Never => false,
            ResultTest::Equal(wanted) => value == wanted,
            ResultTest::Below(limit) => value < limit,
            ResultTest::AtLeast(least) => value >= least,
        }
    }
}
