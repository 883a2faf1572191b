//! Records the waits of a retry inside a chain.

ghost use Rattle.std.specs.Prelude.{ℕ, ◌≡◌, ◌≤◌, ◌++◌, ◌∷◌, [], List, length};
ghost use Rattle.std.specs.List.{FoldsTo};
ghost use Rattle.resil_retry.specs.Waits.{WaitsView, AreRecorded};

use crate::waits::Waits;
use resil_call::Pause;

/// Records pauses in a list of waits while it has room, and then leaves the list as it is. So it
/// can pause any number of times. A retry inside a chain needs that: it doesn't know how often the
/// chain will be called.
///
/// ```
/// let mut waits = Waits::new(alloc, 100)?;
/// let mut chain = FromFn(|| ask(&neighbour)).retried(&policy, Recorded(&mut waits));
/// ```
#[derive(Drop)]
pub struct Recorded<'a>(pub &'a mut Waits);

impl Pause for Recorded<'_> {
    ghost use Rattle.std.specs.Prelude.{◌≡◌, ◌∷◌, []};
    ghost use Rattle.resil_retry.specs.Waits.{AreRecorded};

    ghost IsPaused = { λ x wait y. AreRecorded x.0.now (wait ∷ []) y.0.now × (y.0.ghost_name ≡ x.0.ghost_name) };

    fn pause(&mut self, milliseconds: u64) {
        if self.0.room() > 0 {
            self.0.record(milliseconds);
        }
    }
}

/// The law of pauses recorded one after the other: the first of their waits are recorded, as many
/// as fit, in their order; and all of them if there was room enough.
pub fn recorded_waits()
    ensures one_by_one { (waits : List ℕ) (old new : WaitsView) → FoldsTo (λ x wait y. AreRecorded x (wait ∷ []) y) old waits new → AreRecorded old waits new }
    ensures all { (waits : List ℕ) (old new : WaitsView) → AreRecorded old waits new → length waits ≤ old.room → new.items ≡ old.items ++ waits }
{}
