//! Your own functions, retried: what a call is, which answers are tried again, how to wait between
//! attempts, how long all waits together may be, and the one retry loop over these (modelled on
//! Resilience4j's module retry; user guide, chapter Retry).
//!
//! A function can promise something of its answers, but needn't. The same goes for a backoff, a
//! test of answers, a pause and a limit. `IsRetriedWithin` in `specs/Retry.antt` defines what a
//! retry does with them: which answers came, why it ended, the wait after each attempt but the
//! last, and what the limit said of it. `IsRetried` is the case without a limit. A layer around a
//! call is a call itself, so layers can be stacked.
#![tactic(auto)]

mod backoff;
mod backoff_for;
mod call;
mod limit;
mod pause;
mod policy;
mod refusal;
mod retried;
mod retry_loop;
mod retry_test;
mod shared;
mod tried;

pub use backoff::{Backoff, ByAttempt, SameWait};
pub use backoff_for::{BackoffFor, ByAnswer};
pub use call::{Call, FromFn};
pub use limit::{Deadline, NoLimit, WaitBudget, WaitLimit};
pub use pause::{NoPause, Pause, PauseBy, Sleep};
pub use policy::RetryPolicy;
pub use refusal::{CanBeRefused, TellsRefusal};
pub use retried::Retried;
pub use retry_loop::{retry, retry_in_budget, retry_sharing, retry_sharing_within, retry_within};
pub use retry_test::{EveryError, RetryIf, RetryTest};
pub use tried::{End, Tried};
