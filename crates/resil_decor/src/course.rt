//! The state that the attempts of a retry share, and that records its waits.

ghost use Rattle.std.specs.Prelude.{◌≤◌};
ghost use Rattle.resil_decor.specs.RunLog.{IsWaitWritten};

use crate::run_log::RunLog;
use resil_call::Pause;
use resil_retry::Player;

// The function's script, the permitter and the log, for as long as they are lent.
#[derive(Drop)]
pub(crate) struct Course<'a, 's, P> {
    pub(crate) player: &'a mut Player<'s>,
    pub(crate) permitter: &'a mut P,
    pub(crate) log: &'a mut RunLog,
}

// Waits are recorded, not slept, in the room reserved for them.
impl<P> Pause for Course<'_, '_, P> {
    ghost use Rattle.std.specs.Prelude.{◌≡◌};

    ghost HasRoom = { λ x more. more ≤ x.log.now.wait_room };

    ghost IsPaused = { λ x wait y. (y.player ≡ x.player) × (y.permitter ≡ x.permitter) × (y.log.ghost_name ≡ x.log.ghost_name) × IsWaitWritten x.log.now wait y.log.now };

    fn pause(&mut self, milliseconds: u64) {
        self.log.push_wait(milliseconds);
    }
}
