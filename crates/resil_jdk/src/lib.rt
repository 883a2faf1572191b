//! The whole rule of the JDK's `ThreadPoolExecutor`, next to that of `resil_rule`.
//!
//! `resil_rule` has the rule of our own pools: a core size from 1, a queue with a bound, at most 64 workers. A pool of the JDK may
//! have no core worker, hand jobs over without a queue, have more workers, begin and cull workers without a job, time out core
//! workers, remove jobs from its queue, and stop. `JdkEvent` and `JdkLimits` have the words for that; `specs/History.antt` says
//! what a history of events means, and `specs/Admission.antt` which event may come next. `audit` judges a history by one pass of
//! `JdkRule`. A history that `resil_rule` has words for is legal by both rules or by none (`legal_alike`).
//!
//! The rule is that of the class documentation of `java.util.concurrent.ThreadPoolExecutor`; `JdkRule::next_reply` says how it
//! answers a submission. This rule doesn't cover pools with a queue that isn't first in, first out, with a thread factory that
//! fails, or with jobs in the queue before the pool is made, nor `ScheduledThreadPoolExecutor`.
#![tactic(auto)]

mod error;
mod event;
mod from_rule;
mod jobs;
mod laws;
mod limits;
mod rule;
pub mod timed;
mod verdict;

pub use error::JdkError;
pub use event::{JdkEvent, JdkReply};
pub use from_rule::{jdk_event, jdk_history};
pub use laws::{
    jobs_conserved, legal_alike, running_within_workers, worked_histories, workers_within_opening,
};
pub use limits::JdkLimits;
pub use rule::JdkRule;
pub use rule::answer::{JdkAnswer, JdkState, rule_at_last};
pub use timed::TimedJdkEvent;
pub use verdict::{audit, verdicts_are_one};
