//! Jobs: plans with room for everything that their run writes.
//!
//! A job reserves the maximum number of waits and answers that its plan allows. So its run allocates nothing and
//! can't fail, and a job can be run only once. Its plan is on the heap once; its run uses it there, and so does
//! each further job made of the same plan.

ghost use Rattle.std.specs.Prelude.{ℕ, ◌≡◌, reverse, IfOk, IfErr};
ghost use Rattle.resil_decor.specs.Permitter.{AreAnswered};
ghost use Rattle.resil_decor.specs.RunLog.{IsReadyFor, max_permit_requests};
ghost use Rattle.resil_decor.specs.ChainLimits.{IsChain};
ghost use Rattle.resil_decor.specs.Run.{IsValue};

use crate::error::DecorError;
use crate::layer::Layer;
use crate::layer_calls::call_through;
use crate::permitter::Permitter;
use crate::plan::Plan;
use crate::run::Run;
use crate::run_log::RunLog;
use crate::shared_plan::SharedPlan;
use resil_retry::Player;
use std::alloc::{AllocError, Global};
use std::marker::Model;

/// A plan that is ready to run, once.
///
/// ```
/// let job = Job::new(alloc, Plan::new(chain, script)).map_err(|refused| refused.0)?;
/// let run = job.run(&mut passes);
/// ```
#[derive(Drop)]
pub struct Job {
    plan: SharedPlan,
    log: RunLog,
}

impl Model for Job {
    ghost use Rattle.std.specs.Prelude.{reverse};
    ghost use Rattle.resil_decor.specs.Plan.{PlanView};
    ghost use Rattle.resil_decor.specs.RunLog.{IsReadyFor};

    ghost Value = { PlanView };

    ghost view = { λ j. j.plan };

    ghost invariant = { λ j. IsReadyFor (reverse j.plan.layers) j.log };
}

impl Job {
    /// Makes a job of this plan, with room for everything that its run writes.
    ///
    /// # Errors
    ///
    /// `Memory` if out of memory; the plan comes back.
    pub fn new(alloc: Global, plan: Plan) -> Result<Job, (DecorError, Plan)>
        ensures made { IfOk result (λ job. job ≡ plan) }
        ensures refused { IfErr result (λ e. e.0 ≡ DecorError.Memory) }
        ensures plan_back { IfErr result (λ e. e.1 ≡ plan) }
    {
        let Ok(log) = log_for(alloc, &plan) else {
            return Err((DecorError::Memory, plan));
        };
        match SharedPlan::new(alloc, plan) {
            Ok(plan) => Ok(Job { plan, log }),
            Err(plan) => Err((DecorError::Memory, plan)),
        }
    }

    /// Makes a job of a plan that it shares with its other owners. It allocates only room for what its run writes.
    ///
    /// # Errors
    ///
    /// `Memory` if out of memory.
    ///
    /// ```
    /// let plan = job.shared_plan()?;
    /// let further = Job::sharing(alloc, &plan)?;
    /// ```
    pub fn sharing(alloc: Global, plan: &SharedPlan) -> Result<Job, DecorError>
        ensures made { IfOk result (λ job. job ≡ plan.now) }
        ensures refused { IfErr result (λ error. error ≡ DecorError.Memory) }
    {
        let log = log_for(alloc, plan.plan())?;
        let plan = plan.share()?;
        Ok(Job { plan, log })
    }

    /// Returns the plan that the job runs.
    pub fn plan(&self) -> &Plan
        ensures { result.now ≡ self.now }
    {
        self.plan.plan()
    }

    /// Returns the plan that the job runs, as one more owner of it. It doesn't allocate.
    ///
    /// # Errors
    ///
    /// `Memory` if the plan has more owners than can be counted.
    pub fn shared_plan(&self) -> Result<SharedPlan, DecorError>
        ensures shared { IfOk result (λ plan. plan ≡ self.now) }
        ensures refused { IfErr result (λ error. error ≡ DecorError.Memory) }
    {
        self.plan.share()
    }

    /// Runs the job: calls the function through the chain, from the outermost layer in, and returns the result.
    /// Each permit that was granted is given back. It doesn't allocate and can't fail.
    pub fn run<P: Permitter>(self, permitter: &mut P) -> Run
        ensures plan { result.plan ≡ self }
        ensures value { IsValue result }
        ensures answered { AreAnswered (P.answers permitter.old) result.asked (P.answers permitter.new) }
        ensures held { (id : ℕ) → P.held permitter.new id ≡ P.held permitter.old id }
        ensures given { P.AnsweredBetween permitter.old result.asked permitter.new }
    {
        let Job { plan, mut log } = self;
        let called = plan.plan();
        let mut player = Player::new(called.script());
        let outcome = call_through(called.layers(), &mut player, permitter, &mut log);
        Run { plan, outcome, log }
    }
}

// An empty log with room for everything that a run of the plan writes. Errors: out of memory.
fn log_for(alloc: Global, plan: &Plan) -> Result<RunLog, AllocError>
    ensures { IfOk result (IsReadyFor (reverse plan.now.layers)) }
{
    let asked = max_permit_requests(plan.layers());
    let waits = plan.max_calls() as usize - 1;
    RunLog::new(alloc, waits, asked)
}

// The maximum number of questions to bulkheads in a run through these layers, innermost first.
fn max_permit_requests(layers: &[Layer]) -> usize
    requires { IsChain layers.now }
    ensures { result ≡ max_permit_requests (reverse layers.now) }
{
    let Some((outermost, inside)) = layers.split_last() else {
        return 0;
    };
    let asked = max_permit_requests(inside);
    match outermost {
        Layer::Retry(config) => config.max_attempts() as usize * asked,
        Layer::Bulkhead(_) => 1 + asked,
        Layer::Fallback { .. } => asked,
    }
}
