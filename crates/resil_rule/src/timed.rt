//! Histories with times: each event with the moment when it happened.
//!
//! A time is a number of microseconds since any start. Nothing prevents times from going back, so `first_back` says whether they ascend.

ghost use Rattle.std.specs.Prelude.{◌≡◌, IfOk, MatchOption};
ghost use Rattle.resil_rule.specs.Timed.{AreAscending, GoesBackAt, events_in, times_in};

use super::Event;
use std::alloc::{AllocError, Global};

/// An event, and when it happened.
#[derive(Clone, Copy)]
pub struct Timed {
    /// The event.
    pub event: Event,
    /// Its time, in microseconds since any start.
    pub at: u64,
}

/// The events without their times.
///
/// # Errors
///
/// `AllocError` if out of memory.
pub fn events_in(alloc: Global, history: &[Timed]) -> Result<Vec<Event>, AllocError>
    ensures { IfOk result (λ events. events.items ≡ events_in history.now) }
{
    history.iter().map(|timed| timed.event).collect(alloc)
}

/// The times without their events.
///
/// # Errors
///
/// `AllocError` if out of memory.
pub fn times_in(alloc: Global, history: &[Timed]) -> Result<Vec<u64>, AllocError>
    ensures { IfOk result (λ times. times.items ≡ times_in history.now) }
{
    history.iter().map(|timed| timed.at).collect(alloc)
}

/// The position, from 1, of the first time that is lower than the one before it, or `None` if the times ascend.
pub fn first_back(times: &[u64]) -> Option<usize>
    ensures { MatchOption result (AreAscending times.now) (GoesBackAt times.now) }
{
    for index in 1..times.len() {
        if times[index] < times[index - 1] {
            return Some(index + 1);
        }
    }
    None
}
