//! Runs: the results of jobs.
//!
//! Only `Job::run` makes a run, and the type ensures that the run is a value of its plan. So a run
//! that is passed on needs no proof of where it came from.

ghost use Rattle.std.specs.Prelude.{◌≡◌, ◌↔◌, IsTrue};
ghost use Rattle.resil_decor.specs.Grants.{IsWithin};
ghost use Rattle.resil_decor.specs.Run.{RunView, IsValue};

use crate::grants::{Left, Recount};
use crate::permitter::Asked;
use crate::plan::Plan;
use crate::run_log::RunLog;
use crate::shared_plan::SharedPlan;
use resil_bulkhead::Bulkhead;
use resil_retry::{Outcome, Player};
use std::marker::Model;

/// The result of a job: its plan, and the outcome, calls and waits that the chain defines for the
/// script and the answers that the run got. No answer is left over.
///
/// ```
/// println!(rt; "{:?} by {} calls, after {:?} ms", run.outcome(), run.calls(), run.waits())?;
/// ```
#[derive(Drop)]
pub struct Run {
    pub(crate) plan: SharedPlan,
    pub(crate) outcome: Outcome,
    pub(crate) log: RunLog,
}

impl Model for Run {
    ghost use Rattle.resil_decor.specs.Run.{RunView, IsValue};

    ghost Value = { RunView };

    ghost view = { λ r. record {
      plan = r.plan;
      outcome = r.outcome;
      calls = r.log.calls;
      waits = r.log.waits;
      asked = r.log.asked;
    } };

    ghost invariant = { λ r. IsValue (record {
      plan = r.plan;
      outcome = r.outcome;
      calls = r.log.calls;
      waits = r.log.waits;
      asked = r.log.asked;
    }) };
}

impl Run {
    /// Returns the plan that was run.
    pub fn plan(&self) -> &Plan
        ensures plan { result.now ≡ self.now.plan }
        ensures value { IsValue self.now }
    {
        self.plan.plan()
    }

    /// Returns the outcome of the call through the chain.
    ///
    /// ```
    /// match run.outcome() {
    ///     Outcome::Value(value) => println!(rt; "{value}")?,
    ///     Outcome::Error(kind) => println!(rt; "{kind:?}")?,
    /// }
    /// ```
    pub fn outcome(&self) -> Outcome
        ensures { result ≡ self.now.outcome }
    {
        self.outcome
    }

    /// Returns how often the innermost function was called, from 0 to `MAX_CALLS`.
    pub fn calls(&self) -> u32
        ensures { result ≡ self.now.calls }
    {
        self.log.calls()
    }

    /// Returns the waits of all retries, in milliseconds, in their order.
    pub fn waits(&self) -> &[u64]
        ensures { result.now ≡ self.now.waits }
    {
        self.log.waits()
    }

    /// Returns the questions to bulkheads, with their answers, in order.
    pub fn asked(&self) -> &[Asked]
        ensures { result.now ≡ self.now.asked }
    {
        self.log.asked()
    }

    /// Returns whether these bulkheads, by their ids, may have given the answers of the run: it
    /// never held more permits of a bulkhead at once than that has (Resilience4j user guide,
    /// Bulkhead, `maxConcurrentCalls`).
    ///
    /// ```
    /// // Two layers of the chain are bulkhead 0, and both granted a permit.
    /// let (bulkhead, _pass) = Bulkhead::new(alloc, "prices", 1)?;
    /// assert!(rt; !run.fits(&[bulkhead]));
    /// ```
    pub fn fits(&self, bulkheads: &[Bulkhead]) -> bool
        ensures { IsTrue result ↔ IsWithin bulkheads.now self.now }
    {
        let plan = self.plan.plan();
        let layers = plan.layers();
        let mut left = Left {
            player: Player::new(plan.script()),
            asked: self.asked(),
        };
        let recount = Recount { layers, bulkheads };
        recount.call_through(layers.len(), &mut left).is_some()
    }
}
