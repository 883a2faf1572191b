//! A plan that only clauses read.
ghost use Rattle.std.specs.Prelude.{◌≡◌};
ghost use Rattle.std.specs.Borrow.{ftrue};
ghost use Rattle.resil_decor.specs.Plan.{PlanView};

use resil_decor::Plan;
use std::marker::{Model, PhantomData};

/// A plan as clauses see it. It has no bytes, and may be sent to another thread.
#[derive(Drop)]
pub struct PlanSeen {
    marker: PhantomData<()>,
    pub(crate) ghost value: { PlanView },
}

impl Model for PlanSeen {
    ghost also_owns = { λ _. ftrue };
}

impl PlanSeen {
    /// What clauses see of this plan.
    pub(crate) fn of(plan: &Plan) -> PlanSeen
        ensures { result.value ≡ plan.now }
    {
        let _ = plan;
        PlanSeen {
            marker: PhantomData,
        }
    }
}
