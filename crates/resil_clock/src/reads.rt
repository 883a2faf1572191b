//! A clock of which contracts know what it said, and after which reading.

ghost use Rattle.std.specs.Prelude.{Option};
ghost use Rattle.std.specs.declared.time.Instant.{Instant};

use std::time::{Clock, Instant};

/// A clock of which contracts know what it said. Each `Clock` is one.
///
/// ```
/// let start = rt.read(None);
/// let later = rt.read(start);
/// ```
pub trait Reads {
    /// After this earlier reading, or after none, the clock has said this: nothing if it can't be read. The meaning of this
    /// relation is abstract to all code that is generic over the clock.
    ghost HasSaid: { Self → Option Instant → Option Instant → Type 0 } = { λ _ _ _. Unit {0} };

    /// The time now, or nothing if the clock can't be read. Only contracts see the earlier reading.
    fn read(&self, earlier: Option<Instant>) -> Option<Instant>
        ensures { HasSaid self.now earlier result };
}

impl<R: Clock> Reads for R {
    fn read(&self, _earlier: Option<Instant>) -> Option<Instant> {
        Instant::now(self).ok()
    }
}
