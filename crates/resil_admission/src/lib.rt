//! The sequential pool: which submissions it accepts, which jobs workers take, and the history of all that.
//!
//! It follows the rule of admission, `Rule::next_reply` of `resil_rule`, with the sizes of the last
//! `Machine::resize`. A resize begins and ends no worker.
//!
//! What is kept true: the history of a pool is legal, that is, each of its events is one that the rule
//! allows after the events before it. A job that is picked has the plan that was submitted under its id,
//! and its result is a run of that plan. A call that returns an error changes nothing. In `resil_rule`,
//! `specs/History.antt` says what a history means, and `specs/Admission.antt` which event may come next.
//!
//! `machine` is the pool: a `Rule` of jobs, the record of all events, and `jobs`. The rule decides and
//! returns the jobs to run; the machine makes room beforehand, writes the resulting event, and keeps
//! plans and runs. The types of the rule, and the audit of a history, are re-exported from `resil_rule`.
#![tactic(auto)]

mod jobs;
mod kept_job;
mod machine;
mod row;
mod submission_table;

pub use jobs::Accepted;
pub use machine::Machine;
pub use resil_rule::{
    AdmitError, Event, Id, Limits, Reply, Verdict, audit, verdicts_are_one, worked_histories,
    workers_within_opening,
};
pub use row::Row;
