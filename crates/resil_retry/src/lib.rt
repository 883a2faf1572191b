//! Retries: intervals, scripts of outcomes, and the retry rule over any call that can be retried
//! (modelled on Resilience4j's module retry; user guide, chapter Retry).
//!
//! Attempts are numbered from 1 and the first call is one of them. An outcome that isn't to be
//! retried is returned at once. One that is to be retried is followed by the wait of its attempt
//! and by the next attempt, while attempts are left. `retry_of` in `specs/Retry.antt` defines what
//! a retry returns. Waits are recorded, not slept, in room reserved before, so a retry allocates
//! nothing and can't fail.
#![tactic(auto)]

mod callee;
mod config;
mod error;
mod error_test;
mod interval;
mod kind_table;
mod outcome;
mod outcome_test;
mod recorded;
mod result_test;
mod script;
mod waits;

pub use callee::{Callee, retry};
pub use config::{MAX_ATTEMPTS, RetryConfig};
pub use error::RetryError;
pub use error_test::ErrorTest;
pub use interval::{Interval, MAX_INTERVAL};
pub use outcome::{Ending, Kind, Outcome};
pub use outcome_test::OutcomeTest;
pub use recorded::{Recorded, recorded_waits};
pub use result_test::ResultTest;
pub use script::{Player, Script};
pub use waits::Waits;
