//! What a pass knows, the rule of the permit word, and what each kind of step shows. It exists in proofs alone.
//!
//! There is one legal permit history, the log. Each pass has seen a prefix of it that includes all its own events, and
//! some pass has seen all of it. The word is the number of permits in use that nobody holds. A pass's number is the
//! index of its seat among all seats. `specs/Log` has the laws that hold of every such log; this file has what is
//! particular to permits.
ghost use Rattle.resil_permit.specs.Rule.{Rule, first_pass_view, splitting_view, joining_pass_view, joined_view};
ghost use Rattle.resil_permit.specs.Steps.{AfterPlainLoad, AfterAcquireLoad, AfterAcquireExchange, AfterAdd, AfterNewPass, AfterNumberSeat, AfterPassJoin};
ghost use Rattle.resil_permit.specs.declared.event.PermitEvent.TheVariants.{Gave, Retired, Raised};

use crate::event::PermitEvent;
use atomic_table::{Join, Play, Split, TableRule};
use std::collections::LinkedList;

/// What a pass is doing between two steps.
pub enum Phase {
    /// Between two calls.
    Idle,
    /// Between the load and the exchange of a try: the number loaded.
    Loaded(u64),
    /// Between the two loads of a join: the number of the other pass, and what each of the two had seen.
    Joining(u64, LinkedList<PermitEvent>, LinkedList<PermitEvent>),
    /// Between the two loads of a split: a new pass, which has no number of its own yet.
    Splitting,
    /// Joined into another pass.
    Joined,
}

/// What a pass knows. No value of it is made.
pub struct View {
    /// The pass's number.
    pub number: u64,
    /// The number of permits at the start.
    pub max: u64,
    /// The permit history as far as the pass has seen it.
    pub seen: LinkedList<PermitEvent>,
    /// What the pass is doing.
    pub phase: Phase,
}

// The rule of a table with one word, the number of free permits, and no slots. The key is the number at the start.
pub(crate) struct PermitRule;

impl TableRule<(), View, u32> for PermitRule {
    ghost holds = { Rule };

    ghost first = { first_pass_view };
}

// A plain load.
pub(crate) struct PlainLoad;

impl Play<(), View> for PlainLoad {
    ghost then = { AfterPlainLoad };
}

// The load of a try.
pub(crate) struct AcquireLoad;

impl Play<(), View> for AcquireLoad {
    ghost then = { AfterAcquireLoad };
}

// The compare-exchange of a try.
pub(crate) struct AcquireExchange;

impl Play<(), View> for AcquireExchange {
    ghost then = { AfterAcquireExchange };
}

// The add of a release.
pub(crate) struct Add;

impl Play<(), View> for Add {
    ghost then = { AfterAdd Gave };
}

// The add of a retire, which adds nothing.
pub(crate) struct Retire;

impl Play<(), View> for Retire {
    ghost then = { AfterAdd Retired };
}

// The add of a raise.
pub(crate) struct Raise;

impl Play<(), View> for Raise {
    ghost then = { AfterAdd Raised };
}

// The load that makes a pass from none, not by a split.
pub(crate) struct NewPass;

impl Play<(), View> for NewPass {
    ghost then = { AfterNewPass };
}

// The load that ends a split.
pub(crate) struct NumberSeat;

impl Play<(), View> for NumberSeat {
    ghost then = { AfterNumberSeat };
}

// The load that ends a join.
pub(crate) struct FinishJoin;

impl Play<(), View> for FinishJoin {
    ghost then = { AfterPassJoin };
}

// A new pass starts as a copy of its parent, which stays as it is.
pub(crate) struct Copied;

impl Split<View> for Copied {
    ghost left = { λ v. v };

    ghost right = { splitting_view };
}

// When a pass joins another, it takes the longer of the two histories.
pub(crate) struct Merged;

impl Join<View> for Merged {
    ghost both = { joining_pass_view };

    ghost spent = { joined_view };
}
