//! The jobs of rows that come one after the other.
//!
//! If a plan has no layers and is the same as that of the previous row, it is on the heap once, for both jobs. Layers may
//! name any number of errors, so plans with layers aren't compared.

ghost use Rattle.std.specs.Prelude.{◌≡◌, IfOk};

use resil_decor::{DecorError, Job, Plan, SharedPlan};
use std::alloc::Global;

/// Makes the jobs of rows, one after the other.
#[derive(Drop)]
pub(crate) struct RowJobs {
    // The plan of the previous row, if there is one.
    last: Option<SharedPlan>,
}

impl RowJobs {
    // Before the first row.
    pub(crate) fn new() -> RowJobs {
        RowJobs { last: None }
    }

    // The job of the next row, by its plan. Errors: `Memory`.
    pub(crate) fn next(&mut self, alloc: Global, plan: &Plan) -> Result<Job, DecorError>
        ensures { IfOk result (λ job. job ≡ plan.now) }
    {
        if let Some(last) = &self.last {
            if last.plan().same_without_layers(plan) {
                return Job::sharing(alloc, last);
            }
        }
        let job = job_of_copy(alloc, plan)?;
        self.last = Some(job.shared_plan()?);
        Ok(job)
    }
}

// A job of a copy of this plan. Errors: `Memory`.
fn job_of_copy(alloc: Global, plan: &Plan) -> Result<Job, DecorError>
    ensures { IfOk result (λ job. job ≡ plan.now) }
{
    match Job::new(alloc, plan.copy(alloc)?) {
        Ok(job) => Ok(job),
        Err((error, _plan)) => Err(error),
    }
}
