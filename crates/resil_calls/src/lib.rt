//! Bulkheads, retries, fallbacks and registries around your own functions: all names that a user's program needs, in one
//! import. Each line says which crate a name is from; import what your own clauses name from `resil_permit` and the others.
//!
//! Bulkheads (`resil_bulkhead`, user guide of Resilience4j, Bulkhead):
//! - `Bulkhead`: a limit, with a name, on the number of concurrent calls
//! - `Client`: a bulkhead with a pass of its own, for loops, workers and jobs
//! - `Pass`: what one thread takes permits with
//! - `Permit`: a permit for a scope
//! - `NoPermit`: why there is no permit
//! - `BulkheadError`: why there is no bulkhead
//! - `DEFAULT_MAX_CALLS`: the permits of a bulkhead by default, 25
//!
//! Functions and retries (`resil_call`, Retry):
//! - `Call`: a function that can be called repeatedly
//! - `FromFn`: a closure as a call
//! - `retry`, `retry_within`, `retry_in_budget`: retries a call: plainly, with a limit, with a budget of waits
//! - `Tried`, `End`: the outcome, and why it ended
//! - `RetryPolicy`: how many attempts, which waits, which answers are tried again
//! - `RetryTest`, `EveryError`, `RetryIf`: which answers are tried again
//! - `Backoff`, `SameWait`, `ByAttempt`: the wait after an attempt
//! - `BackoffFor`, `ByAnswer`: the wait after an attempt and its answer
//! - `Interval`, `MAX_INTERVAL` (`resil_retry`): waits that are fixed or grow
//! - `RetryError` (`resil_retry`): why there is no interval
//! - `Pause`, `Sleep`, `NoPause`, `PauseBy`: how to wait
//! - `Jitter`, `Spread` (`resil_layers`): random waits
//! - `WaitLimit`, `NoLimit`, `WaitBudget`, `Deadline`: how long all waits may take
//!
//! Layers (`resil_layers`, Decorators):
//! - `Decorate`, `DecorateWithin`: puts layers around a call
//! - `Inside`, `InsideWithin`: a call under a bulkhead, with a wait for the permit
//! - `Retried`, `RetriedWithin`, `RetriedObserved`: a call with retries, with a time limit, with an observer
//! - `OrElse`, `Fallback`: a value instead of an error
//! - `CallError` (`resil_bulkhead`): the error of a function that may be refused
//! - `CanBeRefused`, `TellsRefusal` (`resil_call`): the answers that a refused call may have, and whether an error is a refusal
//!
//! Observers and counts (`resil_layers`, Events and Micrometer):
//! - `Observe`, `Observed`, `Observer`, `Inspect`: reports each call to an observer, or to a closure
//! - `Count`, `Counted`, `Counting`: counts each call by its outcome
//! - `CallCounts`, `counts_by_name`, `CallTimes`, `Timing`: counts and times that threads share, and the observer that adds to the times
//! - `OwnCounts`: the counts of one chain
//! - `RetryObserver`, `OnRetry`, `Telling`: reports each wait of a retry, and its end, to an observer, or to a closure
//! - `RetryCounts`, `OwnRetryCounts`, `RetryKind`: the outcomes of retries
//! - `BulkheadsText`, `CallsText`, `RetriesText`, `TimesText`: their texts for Prometheus
//!
//! Registries (`resil_registry`, `resil_bulkheads`):
//! - `Registry`: configurations and instances by name
//! - `RegistryError`: why a registry has no such instance
//! - `DEFAULT_CONFIG`: the name of the default configuration
//! - `BulkheadRegistry`: the one bulkhead of each name
//! - `Neighbours`: the bulkheads that a TOML text names
//! - `TextError`, `HeadError`, `Place`: what is wrong with such a text, and where
#![tactic(auto)]

pub use resil_bulkhead::{
    Bulkhead, BulkheadError, CallError, Client, DEFAULT_MAX_CALLS, NoPermit, Pass, Permit,
};
pub use resil_bulkheads::{BulkheadRegistry, HeadError, Neighbours, Place, TextError};
pub use resil_call::{
    Backoff, BackoffFor, ByAnswer, ByAttempt, Call, CanBeRefused, Deadline, End, EveryError,
    FromFn, NoLimit, NoPause, Pause, PauseBy, Retried, RetryIf, RetryPolicy, RetryTest, SameWait,
    Sleep, TellsRefusal, Tried, WaitBudget, WaitLimit, retry, retry_in_budget, retry_within,
};
pub use resil_layers::{
    BulkheadsText, CallCounts, CallTimes, CallsText, Count, Counted, Counting, Decorate,
    DecorateWithin, Fallback, Inside, InsideWithin, Inspect, Jitter, Observe, Observed, Observer,
    OnRetry, OrElse, OwnCounts, OwnRetryCounts, RetriedObserved, RetriedWithin, RetriesText,
    RetryCounts, RetryKind, RetryObserver, Spread, Telling, TimesText, Timing, counts_by_name,
};
pub use resil_registry::{DEFAULT_CONFIG, Registry, RegistryError};
pub use resil_retry::{Interval, MAX_INTERVAL, RetryError};
