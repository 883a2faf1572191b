//! A call and a pause as one value, which both change.

use crate::pause::Pause;

// A call and a pause, for as long as they are lent.
#[derive(Drop)]
pub(crate) struct CallAndPause<'a, C, P> {
    pub(crate) call: &'a mut C,
    pub(crate) pause: &'a mut P,
}

impl<C, P: Pause> Pause for CallAndPause<'_, C, P> {
    ghost use Rattle.std.specs.Prelude.{ℕ, ◌≡◌, ◌+◌};

    ghost HasRoom = { λ x more. P.HasRoom x.pause.now more };

    ghost IsPaused = { λ x milliseconds y.
        P.IsPaused x.pause.now milliseconds y.pause.now × ((more : ℕ) → P.HasRoom x.pause.now (1 + more) → P.HasRoom y.pause.now more)
        × (y.call ≡ x.call) × (y.pause.ghost_name ≡ x.pause.ghost_name) };

    fn pause(&mut self, milliseconds: u64) {
        self.pause.pause(milliseconds);
    }
}
