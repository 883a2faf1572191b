//! Chains of layers, innermost first.
//!
//! A chain has few layers, and its retries together make few calls. So the size of what a run may
//! write is bounded before it starts, and room for all of it can be reserved.

ghost use Rattle.std.specs.Prelude.{◌≡◌, ◌≤◌, ◌<◌, ◌↔◌, IsTrue, IfOk, IfErr, MatchOption};
ghost use Rattle.resil_decor.specs.ChainLimits.{call_limit, max_calls, IsChain, IsChainError};

use crate::error::DecorError;
use crate::layer::Layer;
use crate::layers::Layers;
use std::alloc::Global;
use std::marker::Model;

/// The maximum number of layers of a chain (Resilience4j user guide, Decorators). The limit is this
/// library's own.
pub const MAX_LAYERS: usize = 8;

/// The maximum number of calls that a chain may make of the function inside it: the product of the attempts
/// of its retries (Resilience4j user guide, Retry: `maxAttempts`). The limit is this library's own.
pub const MAX_CALLS: u32 = 1_000;

/// Layers around a call, innermost first (Resilience4j user guide, Decorators).
///
/// ```
/// let layers = Vec::from_array(alloc, [Layer::Bulkhead(0), Layer::Retry(config)])?;
/// let chain = Chain::new(layers).map_err(|refused| refused.0)?;
/// ```
#[derive(Debug, Drop)]
pub struct Chain {
    layers: Layers,
}

impl Model for Chain {
    ghost use Rattle.std.specs.Prelude.{List};
    ghost use Rattle.resil_decor.specs.declared.layer.Layer.{Layer};
    ghost use Rattle.resil_decor.specs.ChainLimits.{IsChain};

    ghost Value = { List Layer };

    ghost view = { λ c. c.layers };

    ghost invariant = { λ c. IsChain c.layers };
}

impl Chain {
    /// Makes a chain of these layers, innermost first. A chain may have no layers.
    ///
    /// # Errors
    ///
    /// In this order, each with the layers returned: `TooManyLayers` if there are more than
    /// `MAX_LAYERS`; `TooManyCalls` if the product of the attempts of all retries is above `MAX_CALLS`.
    ///
    /// ```
    /// match Chain::new(layers) {
    ///     Ok(chain) => Ok(Plan::new(chain, script)),
    ///     Err((error, _layers)) => Err(error),
    /// }
    /// ```
    pub fn new(layers: Vec<Layer>) -> Result<Chain, (DecorError, Vec<Layer>)>
        ensures made { IfOk result (λ chain. chain ≡ layers.items) }
        ensures allowed { IfOk result IsChain }
        ensures refused { IfErr result (λ e. IsChainError layers.items e.0) }
        ensures layers_back { IfErr result (λ e. e.1 ≡ layers) }
    {
        if layers.len() > MAX_LAYERS {
            return Err((DecorError::TooManyLayers, layers));
        }
        if product_of_attempts(&layers).is_none() {
            return Err((DecorError::TooManyCalls, layers));
        }
        Ok(Chain {
            layers: Layers::new(layers),
        })
    }

    // The layers, innermost first.
    pub(crate) fn layers(&self) -> &[Layer]
        ensures layers { result.now ≡ self.now }
        ensures allowed { IsChain self.now }
    {
        self.layers.as_slice()
    }

    // The maximum number of calls of the function inside the chain.
    pub(crate) fn max_calls(&self) -> u32
        ensures { result ≡ max_calls self.now }
    {
        product_of_attempts(self.layers()).unwrap()
    }

    /// Returns a copy with memory of its own.
    ///
    /// # Errors
    ///
    /// `Memory` if out of memory.
    pub fn copy(&self, alloc: Global) -> Result<Chain, DecorError>
        ensures copied { IfOk result (λ copy. copy ≡ self.now) }
        ensures refused { IfErr result (λ error. error ≡ DecorError.Memory) }
    {
        let layers = self.layers.copy(alloc)?;
        Ok(Chain { layers })
    }

    // Whether both chains have equal layers in the same order.
    pub(crate) fn same(&self, other: &Chain) -> bool
        ensures { IsTrue result ↔ (self.now ≡ other.now) }
    {
        same_layers(self.layers(), other.layers())
    }
}

// The product of the attempts, or `None` if it is above `MAX_CALLS`.
fn product_of_attempts(layers: &[Layer]) -> Option<u32>
    ensures { MatchOption result (call_limit < max_calls layers.now) (λ calls. (calls ≡ max_calls layers.now) × (1 ≤ calls) × (calls ≤ call_limit)) }
{
    let Some((layer, others)) = layers.split_first() else {
        return Some(1);
    };
    let calls = layer.attempts() * product_of_attempts(others)?;
    if calls > MAX_CALLS {
        return None;
    }
    Some(calls)
}

// Whether both lists have equal layers in the same order.
fn same_layers(some: &[Layer], others: &[Layer]) -> bool
    ensures { IsTrue result ↔ (some.now ≡ others.now) }
{
    match (some.split_first(), others.split_first()) {
        (None, None) => true,
        (Some((layer, more)), Some((other, others))) => {
            layer.same(other) && same_layers(more, others)
        }
        _ => false,
    }
}
