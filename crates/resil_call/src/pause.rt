//! Pauses: what waits between the attempts of a retry.

ghost use Rattle.std.specs.Prelude.{ℕ, ◌+◌};

use std::thread;
use std::time::{Clock, Duration};

/// Pauses between the attempts of a retry, or records the waits.
///
/// ```
/// impl Pause for Stopwatch {
///     fn pause(&mut self, milliseconds: u64) {
///         self.waited = self.waited.saturating_add(milliseconds);
///     }
/// }
/// ```
pub trait Pause {
    /// It can pause this many more times.
    ghost HasRoom: { Self → ℕ → Type 0 } = { λ _ _. Unit {0} };

    /// A pause of this number of milliseconds may leave it in this state.
    ghost IsPaused: { Self → ℕ → Self → Type 0 } = { λ _ _ _. Unit {0} };

    /// Pauses for this number of milliseconds.
    fn pause(&mut self, milliseconds: u64)
        requires { (more : ℕ) × HasRoom self.old (1 + more) }
        ensures paused { IsPaused self.old milliseconds self.new }
        ensures room { (more : ℕ) → HasRoom self.old (1 + more) → HasRoom self.new more };
}

/// Sleeps for each pause, by a clock. No contract says how long it really took.
#[derive(Drop)]
pub struct Sleep<'a, R: Clock> {
    clock: &'a R,
}

impl<'a, R: Clock> Sleep<'a, R> {
    /// Returns a pause that sleeps by this clock.
    pub fn new(clock: &'a R) -> Sleep<'a, R> {
        Sleep { clock }
    }
}

impl<R: Clock> Pause for Sleep<'_, R> {
    fn pause(&mut self, milliseconds: u64) {
        thread::sleep(self.clock, Duration::from_millis(milliseconds));
    }
}

/// Doesn't wait: the next attempt is made at once.
#[derive(Clone, Copy, PartialEq, Eq, Debug)]
pub struct NoPause;

impl Pause for NoPause {
    fn pause(&mut self, _milliseconds: u64) {}
}

/// Pauses by calling a closure with the milliseconds.
///
/// ```
/// let pause = PauseBy(|milliseconds| waited = waited.saturating_add(milliseconds));
/// ```
#[derive(Drop)]
pub struct PauseBy<F>(pub F);

impl<F: FnMut(u64)> Pause for PauseBy<F> {
    ghost HasRoom = { λ x _. F.IsAlwaysCallable x.0 };

    ghost IsPaused = { λ x milliseconds y. F.step x.0 milliseconds tt y.0 };

    fn pause(&mut self, milliseconds: u64) {
        (self.0)(milliseconds);
    }
}
