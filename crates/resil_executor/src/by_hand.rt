//! The parts of which a `WorkPool` is made: turns by hand, with the seats that see what was written, and the jobs that a worker picks and ends.

pub use crate::executor::{ExecutorWorker, Visitor};
pub use crate::job::{PickedJob, RanJob};
pub use crate::log::Entry;
pub use crate::opening::Opening;
pub use crate::state::{BoxedState, State};
pub use crate::threads::ThreadWork;
pub use resil_lock::{Logged, Look, Looks, Note, Round};
