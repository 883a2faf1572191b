//! What is fixed when a pool is opened.

use resil_admission::Limits;

/// What a pool was opened with. Its lock keeps it, so that each seat knows it.
#[derive(Clone, Copy)]
pub struct PoolOpening {
    /// The sizes.
    pub limits: Limits,
    /// How many callers there are. Their numbers are 1 to this number.
    pub callers: u16,
}
