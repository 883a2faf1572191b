//! An event of the whole rule with the time at which it happened, and lists of them.

ghost use Rattle.std.specs.Prelude.{◌≡◌, IfOk};
ghost use Rattle.resil_jdk.specs.Timed.{events_in, times_in};

use crate::event::JdkEvent;
use std::alloc::{AllocError, Global};

/// An event, and when it happened.
#[derive(Clone, Copy, Debug, PartialEq, Eq)]
pub struct TimedJdkEvent {
    /// The event.
    pub event: JdkEvent,
    /// Its time, in microseconds since any start.
    pub at: u64,
}

/// The events alone, in order.
///
/// # Errors
///
/// `AllocError` when out of memory.
pub fn events_in(alloc: Global, history: &[TimedJdkEvent]) -> Result<Vec<JdkEvent>, AllocError>
    ensures { IfOk result (λ events. events.items ≡ events_in history.now) }
{
    history.iter().map(|timed| timed.event).collect(alloc)
}

/// The times alone, in order.
///
/// # Errors
///
/// `AllocError` when out of memory.
pub fn times_in(alloc: Global, history: &[TimedJdkEvent]) -> Result<Vec<u64>, AllocError>
    ensures { IfOk result (λ times. times.items ≡ times_in history.now) }
{
    history.iter().map(|timed| timed.at).collect(alloc)
}
