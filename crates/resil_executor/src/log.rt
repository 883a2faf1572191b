//! What the log of a pool is made of.

use resil_lock::Logged;

/// One entry of a log, with the job of an accepted submission. It exists in contracts only.
pub type Entry<W> = Logged<Option<W>>;
