//! A pool of threads for your own jobs. It has a maximum number of workers and of queued jobs, its refusals are
//! real, and each accepted job is run at most once.
//!
//! Such a pool is an `Executor`: it has the rule of admission under a lock. Each of its calls is one turn. The state says
//! what the turn wrote, and the lock adds that to the log. The log has the jobs too, and exists in proofs only. If you
//! want a history, the pool keeps a record of the last events, or of all. Without a record it takes all its memory when it
//! is opened. A pool for jobs that answer is a `WorkPool`, with `open`, `submit` and `work_while`; its `submit_within` is
//! one call of a chain. A `PoolText` writes a pool's numbers for Prometheus. The parts below are in `by_hand`: a thread
//! takes turns with a `Visitor` or an `ExecutorWorker`, and closes with the `ExecutorCloser`. These have no bytes:
//! contracts see in them what the log was, and what their own turns wrote.
//!
//! The theorem, for any order of the threads' steps: never more jobs run at once than the maximum size at the opening. A
//! refusal was real at that point. Each accepted job is run at most once, by its own `run`, between its pick and its
//! finish. A worker has at most one job in hand. The answer of a job is what that run returned, and is delivered at most
//! once. When `work_while` returns, each accepted job is finished, and each thread ran what it ended. `holds_of_the_log`
//! states what holds of all threads together, `Executor::submit` the refusals, `Executor::finish` and `Executor::work`
//! that jobs that were ended were run, and `work_while` the end.
#![tactic(auto)]

pub mod by_hand;
mod executor;
mod history;
mod job;
mod log;
mod no_answer;
mod opening;
mod pool_text;
mod seen;
mod state;
mod submission;
mod theorems;
mod threads;
mod turns;
mod worker;
mod works;

pub use executor::{Executor, ExecutorCloser};
pub use history::LastHistory;
pub use no_answer::NoAnswer;
pub use pool_text::PoolText;
pub use seen::Seen;
pub use state::{Numbers, Refused};
pub use theorems::{
    a_look_is_a_turn, end_stays, ended_was_picked, holds_of_the_log, nothing_left_is_over,
    only_workers_pick, picked_is_ended,
};
pub use threads::{Ended, Workers, work_while, work_while_with};
pub use works::WorkPool;
