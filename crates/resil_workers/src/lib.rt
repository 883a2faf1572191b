//! Rows that say which caller submits what, run on a pool of threads of its own, from its opening to its report.
//!
//! What is kept true is the contract of `run_jobs`: a report has a legal history, a receipt for each row, with the row's
//! plan, in row order for each caller, and exactly one result of each accepted job. Every thread that is started is joined.
//!
//! `batch` has the rows, the threads and the run. The pool itself is that of `resil_pool`. This crate re-exports its names.
#![tactic(auto)]

mod batch;

pub use batch::{RunConfig, RunError, run_jobs};
pub use resil_pool::{
    Caller, Closer, DrainFault, Hook, JobRow, MAX_CALLERS, NoHook, OpenError, Pool, Receipt,
    Report, ResizeError, SubmitError, Ticket, Worker, WorkerEnd, drain, holds_between_turns,
    open_pool, submissions_name_callers,
};
