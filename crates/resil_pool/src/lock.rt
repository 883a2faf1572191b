//! The lock of a pool, which passes the whole history on to the next holder.
//!
//! Many seats share one machine by it. Each call of a pool is one turn: it takes the state, lets it write at most one event, and
//! releases the lock. So each holder finds the machine as the previous one left it, and all events are in one legal history. All
//! seats are split from the closer's, and a seat's number is its index among all. What a seat has seen is a prefix of the
//! history with all submissions of its own.
//!
//! `state` is what the lock protects, with plans as `plan_seen` has them. `logged_event` is what the history is made of, and
//! `opening` what is fixed when a pool is opened. Each turn begins with `Lock::take` and ends with `Lock::release`.

mod logged_event;
mod opening;
mod plan_seen;
mod state;

pub(crate) use logged_event::LoggedEvent;
pub(crate) use opening::PoolOpening;
pub(crate) use plan_seen::PlanSeen;
use resil_lock::BoxedState;
pub(crate) use state::{PoolState, Written, note_if};

/// The lock over the machine, which threads share.
pub(crate) type Lock = resil_lock::Lock<BoxedState<PoolState>>;

/// What one thread takes the lock with. Only contracts see what it has seen of the history, and what its own turns wrote.
pub(crate) type LockSeat = resil_lock::LockSeat<BoxedState<PoolState>, PoolOpening, LoggedEvent>;
