//! The list of waits that retries record.
//!
//! The room of a list is the memory that was reserved for it when it was made and isn't used yet,
//! so a retry records its waits without allocating.

ghost use Rattle.std.specs.Prelude.{◌≡◌, ◌<◌, ◌+◌, ◌++◌, ◌∷◌, [], IfOk, IfErr};

use crate::error::RetryError;
use resil_call::Pause;
use std::alloc::Global;
use std::marker::Model;

/// Waits in milliseconds, in the order in which they were recorded, and room for more.
#[derive(Drop)]
pub struct Waits {
    items: Vec<u64>,
}

impl Model for Waits {
    ghost use Rattle.std.specs.Prelude.{◌-◌, vec_len, vec_capacity};
    ghost use Rattle.resil_retry.specs.Waits.{WaitsView};

    ghost Value = { WaitsView };

    ghost view = { λ w. record { items = w.items.items; room = vec_capacity w.items - vec_len w.items } };
}

impl Waits {
    /// Makes an empty list with room for `room` waits.
    ///
    /// # Errors
    ///
    /// `Memory` if out of memory.
    pub fn new(alloc: Global, room: usize) -> Result<Waits, RetryError>
        ensures made { IfOk result (λ waits. waits ≡ record { items = []; room = room }) }
        ensures refused { IfErr result (λ error. error ≡ RetryError.Memory) }
    {
        let items = Vec::with_capacity(alloc, room)?;
        Ok(Waits { items })
    }

    /// Returns the waits, in milliseconds, in the order in which they were recorded.
    pub fn items(&self) -> &[u64]
        ensures { result.now ≡ self.now.items }
    {
        &self.items
    }

    /// Returns how many more waits can be recorded.
    pub fn room(&self) -> usize
        ensures { result ≡ self.now.room }
    {
        self.items.capacity() - self.items.len()
    }

    // Records one more wait.
    pub(crate) fn record(&mut self, wait: u64)
        requires { 0 < self.old.room }
        ensures items { self.new.items ≡ self.old.items ++ wait ∷ [] }
        ensures room { self.new.room + 1 ≡ self.old.room }
    {
        self.items.push_reserved(wait);
    }
}

/// Waits are recorded, not slept, in the room reserved for them.
impl Pause for Waits {
    ghost use Rattle.std.specs.Prelude.{◌≡◌, ◌≤◌, ◌+◌, ◌++◌, ◌∷◌, []};

    ghost HasRoom = { λ waits more. more ≤ waits.room };

    ghost IsPaused = { λ old wait new. (new.items ≡ old.items ++ wait ∷ []) × (new.room + 1 ≡ old.room) };

    fn pause(&mut self, milliseconds: u64) {
        self.record(milliseconds);
    }
}
