//! What the log of a pool is made of, with any payload.

use resil_rule::{Event, Id};

/// What a turn noted.
#[derive(Clone, Copy)]
pub enum Note {
    /// An event.
    Event(Event),
    /// A worker picked a job that has its own worker. This is no event.
    Started(Id),
}

/// One entry of a log. It exists in contracts only.
pub struct Logged<P> {
    /// What the turn noted.
    pub note: Note,
    /// The payload of the entry: for a submission, its work.
    pub payload: P,
}
