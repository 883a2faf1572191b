//! A thread pool that threads share: callers submit jobs, workers run them, and one legal history records all of it.
//!
//! The rule of the turn: all seats of a pool share one machine by its lock. A seat that holds the lock has the machine and
//! has seen the whole history. It writes at most one event, which the rule of admission allows, and releases the lock. So
//! between any two steps there is one legal history. Each seat has seen a prefix of it with all submissions of its own.
//!
//! The main theorem is the contract of `drain`: a drained pool returns a report with a legal history. In it each
//! caller's submissions are those on its receipts, and each accepted job has exactly one result.
//!
//! `lock` has the turns at the lock, which is that of `resil_lock`. `pool` opens and closes, `submit` and `worker` are
//! the two sides of a pool, and `resize` changes its sizes. `parts` is what the threads hold, `draining` ends a pool,
//! and `hold` closes it after rows. `laws` has the laws of the turn. Import these from `resil_workers`, which re-exports
//! everything but `close_held`.
#![tactic(auto)]

mod draining;
mod hold;
mod hook;
mod laws;
mod lock;
mod parts;
mod pool;
mod receipt;
mod resize;
mod submit;
mod worker;

pub use draining::{DrainFault, Report, drain};
pub use hold::{JobRow, close_held};
pub use hook::{Hook, NoHook};
pub use laws::{holds_between_turns, submissions_name_callers};
pub use parts::{Caller, Closer, Worker, WorkerEnd};
pub use pool::{MAX_CALLERS, OpenError, Pool, open_pool};
pub use receipt::{Receipt, Ticket};
pub use resize::ResizeError;
pub use submit::SubmitError;
