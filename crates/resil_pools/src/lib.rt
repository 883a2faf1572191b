//! Pools of threads for your own jobs: all names that a user's program needs, in one import.
//!
//! Jobs (`resil_task`):
//! - `Work`: a job that is run once and returns an answer
//! - `WorkAt`: a job that also needs something that its worker lends it
//! - `Answers`: the answer of such a job
//! - `Pending`: a blocking future of the answer
//! - `Stoppable`, `Stop`: a job that can be cancelled, and what cancels it
//!
//! Pools (`resil_executor`, user guide of Resilience4j, ThreadPoolBulkhead):
//! - `WorkPool`: a pool of threads for jobs with answers
//! - `Executor`: a pool for anything that can be run
//! - `work_while`, `work_while_with`: threads work for a pool while a closure runs, then the pool is over
//! - `Workers`: what the threads lend to the jobs, one for each thread
//! - `Ended`: what the closure returned, and who has seen the end
//! - `ExecutorCloser`: closes and resizes a pool
//! - `Refused`: why a job isn't accepted
//! - `Numbers`: the state of a pool in numbers, all from one moment
//! - `PoolText`: these numbers as a text for Prometheus
//! - `LastHistory`: the last events of a history, and how many came before them
//!
//! A pool in a chain (`resil_executor`, Decorators):
//! - `NoAnswer`: why `submit_within`, which submits a job and waits for its answer, returned none
//!
//! The rule (`resil_rule`, class documentation of ThreadPoolExecutor):
//! - `Sizes`: core size, maximum size and the queue's capacity, for up to 1,024 workers
//! - `Limits`: the same for up to 64, as a pool has that records everything
//! - `Id`: the number of a submission
//! - `Reply`: the pool's reply to a submission
//! - `Event`: what happens to a pool
//! - `Record`, `NoRecord`, `LastEvents`, `AllEvents`: the record of a history: none, the last events, all
//! - `AdmitError`: why a pool isn't opened or resized
//! - `audit_by`, `Verdict`: judges a history by sizes; `audit` by limits
//!
//! By hand:
//! - `by_hand`: turns at a pool, with a `Visitor` or an `ExecutorWorker`
//! - `tasks`: the layer below `Work`: `RunOnce`, repliers, the two ends of an answer
#![tactic(auto)]

pub use resil_executor::{
    Ended, Executor, ExecutorCloser, LastHistory, NoAnswer, Numbers, PoolText, Refused, Seen,
    WorkPool, Workers, by_hand, work_while, work_while_with,
};
pub use resil_rule::{
    AdmitError, AllEvents, Event, Id, LastEvents, Limits, NoRecord, Record, Reply, Sizes, Verdict,
    audit, audit_by,
};
pub use resil_task::{Answers, Pending, Stop, Stoppable, Work, WorkAt, by_hand as tasks};
