//! The jobs of a load.

use resil_rule::Id;

/// A job of a load: its submission, when it comes and how long it runs, in microseconds.
#[derive(Clone, Copy, Debug, PartialEq, Eq)]
pub struct Arrival {
    /// The id of its submission.
    pub id: Id,
    /// When it is submitted, since any start.
    pub at: u64,
    /// How long it runs.
    pub takes: u64,
    /// The earliest moment at which its run may end, since the same start as `at`: 0 if it ends once it has run for `takes`.
    pub earliest_end: u64,
}
