//! The laws of the permit word. Each is a function whose contract states the law.
ghost use Rattle.std.specs.Prelude.{ℕ};
ghost use Rattle.atomic_table.specs.Table.{State};
ghost use Rattle.resil_permit.specs.declared.protocol.View.{View};
ghost use Rattle.resil_permit.specs.WordMachine.{EveryInterleaving};
ghost use Rattle.resil_permit.specs.Conservation.{AllAddUp};
ghost use Rattle.resil_permit.specs.BetweenSteps.{HoldsBetweenSteps};
ghost use Rattle.resil_permit.specs.RunningWord.{OpensAsMachine, LoadsAsMachine, ExchangesAsMachine, AddsAsMachine, RetiresAsMachine, RaisesAsMachine, LooksAsNoStep, SplitsAsNoStep, EntersAsNoStep, JoinsAsNoStep, IsIdle, AwaitsNumber, AwaitsEndOfJoin};

use crate::protocol::{
    AcquireExchange, AcquireLoad, Add, Copied, FinishJoin, Merged, NewPass, NumberSeat, PermitRule,
    PlainLoad, Raise, Retire, View,
};
use atomic_table::{Join, Play, Split, TableRule};

/// Any number of callers may load, exchange, add, retire and raise in any order: their events are a legal permit
/// history. The word and the permits held add up to the permits in use, and these are never more than at the start.
#[tactic(auto, using(crate::proofs::Machines::every_interleaving))]
pub fn every_interleaving()
    ensures { EveryInterleaving }
{}

/// Under the rule of the word, the free permits and those that all passes hold or have retired, dropped passes
/// included, add up to the number at the start. So no more permits than that are ever held.
pub fn all_add_up()
    ensures { AllAddUp }
{}

/// Between any two steps, whichever threads make them, there is one legal permit history. Every pass has seen a prefix
/// of it that includes all its own events. All passes have different numbers, and the word is the number of permits in
/// use that nobody holds.
#[tactic(auto, using(crate::proofs::BetweenSteps::holds_between_steps))]
pub fn holds_between_steps()
    ensures { (max : ℕ) (s : State (Unit {0}) View) → ⟦<PermitRule as TableRule<(), View, u32>>⟧.holds max s → HoldsBetweenSteps max s.words s.views }
{}

/// What threads do to the running word and its passes is what the callers of the word machine do, step by step. The
/// machine has the same word, the longest seen history as its events, and a caller for each pass. If the table of all
/// passes represents the machine after some steps, then once a pass makes a step it represents the machine after one
/// step more, of the same name. A plain load, a new pass, a split and a join are no steps of the machine.
pub fn running_word_is_the_machine()
    ensures opening { OpensAsMachine ⟦<PermitRule as TableRule<(), View, u32>>⟧.holds ⟦<PermitRule as TableRule<(), View, u32>>⟧.first }
    ensures load { LoadsAsMachine ⟦<PermitRule as TableRule<(), View, u32>>⟧.holds ⟦<AcquireLoad as Play<(), View>>⟧.then }
    ensures exchange { ExchangesAsMachine ⟦<PermitRule as TableRule<(), View, u32>>⟧.holds ⟦<AcquireExchange as Play<(), View>>⟧.then }
    ensures add { AddsAsMachine ⟦<PermitRule as TableRule<(), View, u32>>⟧.holds ⟦<Add as Play<(), View>>⟧.then }
    ensures retire { RetiresAsMachine ⟦<PermitRule as TableRule<(), View, u32>>⟧.holds ⟦<Retire as Play<(), View>>⟧.then }
    ensures raise { RaisesAsMachine ⟦<PermitRule as TableRule<(), View, u32>>⟧.holds ⟦<Raise as Play<(), View>>⟧.then }
    ensures plain_load { LooksAsNoStep ⟦<PermitRule as TableRule<(), View, u32>>⟧.holds IsIdle ⟦<PlainLoad as Play<(), View>>⟧.then }
    ensures new_pass { EntersAsNoStep ⟦<PermitRule as TableRule<(), View, u32>>⟧.holds ⟦<PermitRule as TableRule<(), View, u32>>⟧.first ⟦<NewPass as Play<(), View>>⟧.then }
    ensures split { SplitsAsNoStep ⟦<PermitRule as TableRule<(), View, u32>>⟧.holds ⟦<Copied as Split<View>>⟧.left ⟦<Copied as Split<View>>⟧.right }
    ensures end_of_split { LooksAsNoStep ⟦<PermitRule as TableRule<(), View, u32>>⟧.holds AwaitsNumber ⟦<NumberSeat as Play<(), View>>⟧.then }
    ensures join { JoinsAsNoStep ⟦<PermitRule as TableRule<(), View, u32>>⟧.holds ⟦<Merged as Join<View>>⟧.both ⟦<Merged as Join<View>>⟧.spent }
    ensures end_of_join { LooksAsNoStep ⟦<PermitRule as TableRule<(), View, u32>>⟧.holds AwaitsEndOfJoin ⟦<FinishJoin as Play<(), View>>⟧.then }
{}
