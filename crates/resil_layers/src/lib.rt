//! Layers around your own functions: a bulkhead, a retry, a fallback and an observer around a call (modelled on Resilience4j's
//! Decorators and events; user guide, chapters Bulkhead, Decorators and Micrometer).
//!
//! A layer around a call is a call itself, so you write a chain innermost first and read it from there:
//! `FromFn(read).inside(..).retried(..).or_else(..)`. A chain allocates nothing. The `IsAnswer` of its outermost layer says
//! what the chain does, in terms of that of the next one.
//!
//! What an observer sees depends on its place in the chain: around the function it sees each call that was permitted, around a
//! bulkhead the refusals too, inside a retry each attempt, and around a retry the whole. An observer of the retry itself sees
//! each wait before it begins, and the end. No lock is held while an observer runs. Counts are words that threads add to and an
//! operator reads, as a text for Prometheus.
//!
//! A jitter is a pause around another one, so that callers that were refused together don't come back together (user guide,
//! Retry: randomized intervals). It draws each wait from a generator of its own, which starts from a seed, so two runs with the
//! same seed draw the same. `IsDrawn` in `specs/Jitter.antt` gives the range that it draws from: never above the backoff's wait.
#![tactic(auto)]

mod call_counts;
mod counting;
mod decorate;
mod fallback;
mod inside;
mod inside_within;
mod jitter;
mod observed;
mod retried_observed;
mod retried_within;
mod retry_counts;
mod text;
mod timing;

pub use call_counts::{CallCounts, OwnCounts, counts_by_name};
pub use counting::{Count, Counted, Counting};
pub use decorate::Decorate;
pub use fallback::{Fallback, OrElse};
pub use inside::Inside;
pub use inside_within::InsideWithin;
pub use jitter::{Jitter, Spread};
pub use observed::{Inspect, Observe, Observed, Observer};
pub use retried_observed::{OnRetry, RetriedObserved, RetryObserver, Telling};
pub use retried_within::{DecorateWithin, RetriedWithin};
pub use retry_counts::{OwnRetryCounts, RetryCounts, RetryKind};
pub use text::{BulkheadsText, CallsText, RetriesText, TimesText};
pub use timing::{CallTimes, Timing};
