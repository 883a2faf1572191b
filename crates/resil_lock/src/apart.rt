//! A word that shares no cache line with other such words, so that threads that write those don't take the line away.

use std::sync::atomic::AtomicU64;

/// A word, followed by the rest of a cache line of 64 bytes.
#[derive(Drop)]
pub(crate) struct Apart {
    pub(crate) word: AtomicU64,
    _rest: [u64; 7],
}

impl Apart {
    /// A word with this value.
    pub(crate) fn new(value: u64) -> Apart {
        Apart {
            word: AtomicU64::new(value),
            _rest: [0; 7],
        }
    }
}
