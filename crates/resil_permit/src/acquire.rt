//! Taking a permit while other threads compete for it: the one call here that may wait for them.
ghost use Rattle.std.specs.Prelude.{◌≡◌};
ghost use Rattle.resil_permit.specs.Passes.{held_by, retired_by, IsSamePass};
ghost use Rattle.resil_permit.specs.TryAcquire.{IsTry, held_after, last_try};

use crate::pass::Pass;
use crate::permits::{Attempt, Permits};
use std::sync::Wait;
use std::thread;

/// The result of a call that retries for as long as it is contended.
///
/// ```
/// match permits.try_acquire(&rt, &mut pass) {
///     Acquire::Taken => permits.release(&mut pass),
///     Acquire::Full => println!(rt; "no permit is free")?,
/// }
/// ```
#[derive(Clone, Copy, PartialEq, Eq, Debug)]
pub enum Acquire {
    /// The pass has taken a permit.
    Taken,
    /// No permit was free.
    Full,
}

impl Permits {
    /// Takes a permit, or finds that none is free. It retries while it is contended, and so may wait for other
    /// threads.
    pub fn try_acquire<R: Wait>(&self, rt: &R, pass: &mut Pass) -> Acquire
        requires { pass.old.source ≡ self.now }
        ensures pass { IsSamePass pass.old pass.new }
        ensures tried { IsTry pass.old pass.new (last_try result) }
        ensures held { held_by pass.new ≡ held_after (held_by pass.old) (last_try result) }
        ensures retired { retired_by pass.new ≡ retired_by pass.old }
    {
        for _ in rt.forever() {
            match self.try_once(pass) {
                Attempt::Taken => return Acquire::Taken,
                Attempt::Full => return Acquire::Full,
                Attempt::Contended => thread::yield_now(),
            }
        }
        unreachable!()
    }
}
