//! A pass: what one thread takes permits with.
//!
//! A pass belongs to the permits that it came from. Contracts see its number and the history that it has seen;
//! running code can read neither. How many permits it holds, and how many it has retired, follows from its own
//! events in that history.
ghost use Rattle.std.specs.Prelude.{◌≡◌};
ghost use Rattle.resil_permit.specs.Passes.{PassView, pass_view, IsAtRest, held_by, retired_by};

use crate::protocol::View;
use atomic_table::Seat;
use std::marker::Model;

/// What one thread takes permits with and gives them back with. If a pass is dropped while it holds permits, or
/// while it has retired some, these are never given back.
///
/// ```
/// let (permits, mut pass) = Permits::new(alloc, 2)?;
/// let mut of_a_thread = permits.split(&mut pass);
/// ```
#[derive(Drop)]
pub struct Pass {
    pub(crate) seat: Seat<(), View>,
    pub(crate) held: u32,
    pub(crate) retired: u32,
}

impl Model for Pass {
    ghost Value = { PassView };

    ghost view = { λ p. pass_view p.seat.table_id p.seat.me };

    ghost invariant = { λ p. IsAtRest p.seat.me p.held p.retired };
}

impl Pass {
    /// Returns how many permits the pass holds: 0 to the number of all permits.
    pub fn held(&self) -> u32
        ensures { result ≡ held_by self.now }
    {
        self.held
    }

    /// Returns how many permits the pass has retired and not raised again: 0 to the number of all permits. They are
    /// neither free nor held.
    pub fn retired(&self) -> u32
        ensures { result ≡ retired_by self.now }
    {
        self.retired
    }
}
