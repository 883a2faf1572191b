//! What holds of a lock between any two steps, over any state: the contract of a function that does nothing.
ghost use Rattle.std.specs.Prelude.{Option};
ghost use Rattle.atomic_table.specs.Table.{State};
ghost use Rattle.resil_lock.specs.declared.protocol.View.{View as ViewOf};
ghost use Rattle.resil_lock.specs.BetweenSteps.{HoldsBetweenSteps};

use crate::protocol::{Guarded, LockRule, View};
use atomic_table::TableRule;

/// Between any two steps of any threads: the word is 1 exactly while one seat holds the lock, and the state is in its slot exactly while the
/// word is 0. There is one log for which that state stands. It consists of exactly what the seats wrote, and each seat has seen a prefix of it.
///
/// ```
/// holds_between_steps::<Count>(); // From here on a proof has it of each lock over a `Count`.
/// ```
pub fn holds_between_steps<S: Guarded>()
    ensures { (key : S.Key) (s : State (Option S) (ViewOf S.Key S.Entry)) → ⟦<LockRule<S> as TableRule<Option<S>, View<S::Key, S::Entry>, S::Key>>⟧.holds key s → HoldsBetweenSteps S.StandsFor S.MayHaveWritten S.is_own key s.words s.homes s.views }
{}
