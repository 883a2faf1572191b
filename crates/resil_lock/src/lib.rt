//! A lock over a state that stands for a log. A seat that takes the lock sees the whole log, and a seat that
//! releases it has written what the state says that its turn wrote.
//!
//! A `Guarded` state needn't keep its log. It says which logs it stands for, and what its last turn wrote; the lock adds
//! up what all turns wrote. So between any two steps there is one log. Each seat has seen a prefix of it, and it
//! consists of exactly what the seats wrote. A seat has a `Rank`, and the state says what a seat of each rank may write.
//! A seat of rank `Member` has a number. If the state lets only the opener and the members write, that number is the
//! seat's place among all seats, and the holder may join a member's seat away.
//!
//! `lock` has all atomic steps, and `protocol` what seats know and what a step lets them know. `bell` and `door` are where
//! threads sleep. No clause covers them, and each sleep ends by itself. `work` has the loop of the workers, and `laws`
//! what holds between any two steps. `log` and `boxed_state` are for pools: what their logs consist of, and a state in its
//! own block.
#![tactic(auto)]

mod apart;
mod bell;
mod boxed_state;
mod door;
mod laws;
mod lock;
mod log;
mod protocol;
mod work;

pub use boxed_state::BoxedState;
pub use laws::holds_between_steps;
pub use lock::Lock;
pub use log::{Logged, Note};
pub use protocol::{Guarded, LockRule, LockSeat, Phase, Rank, View, WithJoins};
pub use work::{Look, Looks, Round, Rounds};
