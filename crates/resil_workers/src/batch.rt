//! A batch: rows that say which caller submits what, run on a pool of its own, from its opening to its report.
//!
//! A batch is done once all its rows are submitted and all its workers have left; then the pool is drained. So the report has a
//! receipt for each row, with the row's plan, in row order for each caller. With `hold` the rows are submitted in their order
//! before any worker starts, so no reply depends on how threads run; without it, callers and workers run concurrently. Every
//! thread that is started is joined, and if memory or a thread is refused, the pool is closed first, so that the workers leave.
//!
//! `row_jobs` makes the jobs of the rows, `submit` submits them, `worker_threads` and `caller_threads` start and join threads,
//! `shared` is what all these threads share, `run` puts it all together, and `error` says why the threads of a batch may not finish.

mod caller_threads;
mod error;
mod row_jobs;
mod run;
mod shared;
mod submit;
mod worker_threads;

pub use run::{RunConfig, RunError, run_jobs};
