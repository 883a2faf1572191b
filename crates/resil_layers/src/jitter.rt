//! A pause that waits for a random part of each wait.

ghost use Rattle.std.specs.Prelude.{ℕ, ◌≡◌};
ghost use Rattle.resil_layers.specs.Jitter.{IsDrawn};

use rand::RngExt;
use rand_core::{Rng, SeedableRng};
use rand_xoshiro::Xoshiro256PlusPlus;
use resil_call::Pause;

/// The range that a jitter draws from. It always ends at the whole wait.
#[derive(Clone, Copy, PartialEq, Eq, Debug)]
pub enum Spread {
    /// From half of the wait on (equal jitter).
    Equal,
    /// From zero on (full jitter).
    Full,
}

/// A pause for a random part of each wait: the wait goes through a generator before it goes to
/// another pause. No pause is longer than the backoff says.
///
/// ```
/// let mut pause = Jitter::new(Sleep::new(&rt), 7);
/// let tried = retry(&policy, &mut call, &mut pause);
/// ```
#[derive(Drop)]
pub struct Jitter<P> {
    /// The pause for the part that is drawn.
    pub pause: P,
    spread: Spread,
    rng: Xoshiro256PlusPlus,
}

impl<P> Jitter<P> {
    /// Makes a jitter that draws between half of each wait and the whole, by a generator with this seed.
    pub fn new(pause: P, seed: u64) -> Jitter<P>
        ensures pause { result.pause ≡ pause }
        ensures spread { result.spread ≡ Spread.Equal }
    {
        Jitter {
            pause,
            spread: Spread::Equal,
            rng: Xoshiro256PlusPlus::seed_from_u64(seed),
        }
    }

    /// Makes a jitter that draws between zero and the whole of each wait, by a generator with this seed.
    ///
    /// ```
    /// let mut pause = Jitter::full(Sleep::new(&rt), 7);
    /// ```
    pub fn full(pause: P, seed: u64) -> Jitter<P>
        ensures pause { result.pause ≡ pause }
        ensures spread { result.spread ≡ Spread.Full }
    {
        Jitter {
            pause,
            spread: Spread::Full,
            rng: Xoshiro256PlusPlus::seed_from_u64(seed),
        }
    }
}

impl<P: Pause> Pause for Jitter<P> {
    ghost HasRoom = { λ x more. P.HasRoom x.pause more };

    ghost IsPaused = { λ x milliseconds y. (drawn : ℕ) × IsDrawn x.spread milliseconds drawn × P.IsPaused x.pause drawn y.pause × (y.spread ≡ x.spread) };

    fn pause(&mut self, milliseconds: u64) {
        let drawn = draw(&mut self.rng, self.spread, milliseconds);
        self.pause.pause(drawn);
    }
}

// Draws a part of a wait, in milliseconds.
fn draw<G: Rng>(rng: &mut G, spread: Spread, milliseconds: u64) -> u64
    ensures { IsDrawn spread milliseconds result }
{
    match spread {
        Spread::Equal => rng.random_range(milliseconds - milliseconds / 2..=milliseconds),
        Spread::Full => rng.random_range(0..=milliseconds),
    }
}
