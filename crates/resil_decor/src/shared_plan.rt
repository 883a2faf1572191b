//! Plans that several owners share.
//!
//! A job, its run, and anyone who compares the run with the job that was submitted need the plan at
//! the same time. So it is on the heap once, and each of them has a pointer to it.

ghost use Rattle.std.specs.Prelude.{◌≡◌, IfOk, IfErr};

use crate::error::DecorError;
use crate::plan::Plan;
use std::alloc::Global;
use std::marker::Model;
use std::sync::Arc;

/// A plan with one or more owners, in any threads.
///
/// ```
/// let submitted = job.shared_plan()?;
/// let run = job.run(&mut passes);
/// assert!(rt; run.plan().same(submitted.plan()));
/// ```
#[derive(Drop)]
pub struct SharedPlan {
    plan: Arc<Plan, Global>,
}

impl Model for SharedPlan {
    ghost use Rattle.std.specs.Arc.{arc_value};
    ghost use Rattle.resil_decor.specs.Plan.{PlanView};

    ghost Value = { PlanView };

    ghost view = { λ s. arc_value s.plan };
}

impl SharedPlan {
    /// Makes a plan with one owner.
    ///
    /// # Errors
    ///
    /// The plan itself, if out of memory.
    pub fn new(alloc: Global, plan: Plan) -> Result<SharedPlan, Plan>
        ensures made { IfOk result (λ shared. shared ≡ plan) }
        ensures plan_back { IfErr result (λ back. back ≡ plan) }
    {
        match Arc::new(alloc, plan) {
            Ok(plan) => Ok(SharedPlan { plan }),
            Err(failed) => Err(failed.value),
        }
    }

    /// Makes one more owner of the plan. It doesn't allocate.
    ///
    /// # Errors
    ///
    /// `Memory` if there are more owners than can be counted.
    pub fn share(&self) -> Result<SharedPlan, DecorError>
        ensures shared { IfOk result (λ shared. shared ≡ self.now) }
        ensures refused { IfErr result (λ error. error ≡ DecorError.Memory) }
    {
        let plan = Arc::try_clone(&self.plan)?;
        Ok(SharedPlan { plan })
    }

    /// Returns the plan.
    pub fn plan(&self) -> &Plan
        ensures { result.now ≡ self.now }
    {
        &self.plan
    }
}
