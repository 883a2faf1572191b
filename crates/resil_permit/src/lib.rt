//! Permits that threads share: a word that counts the free ones, and one history: who took a permit, gave one
//! back, was refused one, retired one or raised one again.
//!
//! A retired permit is kept back by its holder. It is neither free nor held, and one permit less is in use until the
//! same pass raises it. So an operator can lower a limit while calls run and raise it again, but never above the
//! number at the start.
//!
//! `Permits` and `Pass` are the running permits. The contract of each call says what the call adds to the history
//! that its pass has seen. `weave` runs single steps of several callers on the word in one given order, without
//! threads, so that a race can be written down and looked at. The functions of `laws` say what holds in every order
//! of the steps, and that the running permits make the same steps.
#![tactic(auto)]

mod acquire;
mod event;
mod interleaving;
mod laws;
mod pass;
mod permits;
mod protocol;
mod step;
mod wait;
mod word_machine;

pub use acquire::Acquire;
pub use event::PermitEvent;
pub use interleaving::{WeaveError, Woven, weave};
pub use laws::{all_add_up, every_interleaving, holds_between_steps, running_word_is_the_machine};
pub use pass::Pass;
pub use permits::{Attempt, MAX_PERMITS, PermitError, Permits};
pub use step::{Shown, Step};
