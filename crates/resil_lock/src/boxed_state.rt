//! A state in its own block of memory.

use crate::protocol::{Guarded, WithJoins};
use std::marker::Model;

/// A state in its own block of memory, so that a turn moves a pointer instead of the state. Contracts see the state.
///
/// ```
/// let state = BoxedState { inner: Box::new(alloc, state)? };
/// let (lock, mut opener) = Lock::new(alloc, state, &key)?;
/// ```
#[derive(Drop)]
pub struct BoxedState<T: Drop> {
    /// The block.
    pub inner: Box<T>,
}

impl<T: Drop> Model for BoxedState<T> {
    ghost Value = { T };

    ghost view = { λ b. b.inner.value };
}

impl<T: Guarded> Guarded for BoxedState<T> {
    type Key = T::Key;

    type Entry = T::Entry;

    ghost StandsFor = { T.StandsFor };

    ghost MayHaveWritten = { T.MayHaveWritten };

    ghost is_own = { T.is_own };

    ghost written = { T.written };

    ghost HasWork = { T.HasWork };

    fn has_work(&self) -> bool {
        self.inner.has_work()
    }
}

impl<T: WithJoins> WithJoins for BoxedState<T> {
    ghost spent_key = { T.spent_key };
}
