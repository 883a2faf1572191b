//! Plans: a chain with the script of its innermost call.
//!
//! A plan says everything that a run depends on, except for the answers of bulkheads. It is data that can be copied and
//! compared, so a result can be checked against the plan that was submitted.

ghost use Rattle.std.specs.Prelude.{◌≡◌, ◌↔◌, [], IsTrue, IfOk, IfErr};
ghost use Rattle.resil_decor.specs.ChainLimits.{IsChain, max_calls};

use crate::chain::Chain;
use crate::error::DecorError;
use crate::layer::Layer;
use resil_retry::Script;
use std::alloc::Global;
use std::marker::Model;

/// A chain of layers around a function with a script.
#[derive(Debug, Drop)]
pub struct Plan {
    chain: Chain,
    script: Script,
}

impl Model for Plan {
    ghost use Rattle.resil_decor.specs.Plan.{PlanView};

    ghost Value = { PlanView };

    ghost view = { λ p. record { layers = p.chain; script = p.script } };
}

impl Plan {
    /// Makes the plan to call a function with this script through this chain.
    ///
    /// ```
    /// let chain = Chain::new(Vec::new(alloc)).map_err(|refused| refused.0)?;
    /// let plan = Plan::new(chain, Script::one(Outcome::Value(7)));
    /// ```
    pub fn new(chain: Chain, script: Script) -> Plan
        ensures { result ≡ record { layers = chain; script = script } }
    {
        Plan { chain, script }
    }

    /// Returns a copy with memory of its own.
    ///
    /// # Errors
    ///
    /// `Memory` if out of memory.
    pub fn copy(&self, alloc: Global) -> Result<Plan, DecorError>
        ensures copied { IfOk result (λ copy. copy ≡ self.now) }
        ensures refused { IfErr result (λ error. error ≡ DecorError.Memory) }
    {
        let chain = self.chain.copy(alloc)?;
        let Ok(script) = self.script.copy(alloc) else {
            return Err(DecorError::Memory);
        };
        Ok(Plan { chain, script })
    }

    /// Returns whether both plans have equal layers and equal scripts.
    pub fn same(&self, other: &Plan) -> bool
        ensures { IsTrue result ↔ (self.now ≡ other.now) }
    {
        self.chain.same(&other.chain) && self.script.same(&other.script)
    }

    /// Returns whether both plans have no layers and equal scripts. It is a cheap way to see that two plans are the same;
    /// layers may name any number of errors.
    pub fn same_without_layers(&self, other: &Plan) -> bool
        ensures { IsTrue result ↔ ((self.now.layers ≡ []) × (self.now ≡ other.now)) }
    {
        self.layers().is_empty() && other.layers().is_empty() && self.script.same(&other.script)
    }

    // The layers, innermost first.
    pub(crate) fn layers(&self) -> &[Layer]
        ensures layers { result.now ≡ self.now.layers }
        ensures allowed { IsChain self.now.layers }
    {
        self.chain.layers()
    }

    // The maximum number of calls of the function inside the chain.
    pub(crate) fn max_calls(&self) -> u32
        ensures { result ≡ max_calls self.now.layers }
    {
        self.chain.max_calls()
    }

    // The script of the innermost call.
    pub(crate) fn script(&self) -> &Script
        ensures { result.now ≡ self.now.script }
    {
        &self.script
    }
}
