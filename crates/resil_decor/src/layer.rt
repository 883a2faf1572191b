//! Layers: the parts of a chain around a call.
//!
//! There are three kinds, each a part of Resilience4j: retry, bulkhead and fallback. A layer names
//! its bulkhead by an id and keeps no permit, so layers can be copied and compared.

ghost use Rattle.std.specs.Prelude.{◌≡◌, ◌≤◌, ◌↔◌, IsTrue, IfOk, IfErr};
ghost use Rattle.resil_decor.specs.ChainLimits.{attempts_of};
ghost use Rattle.resil_retry.specs.Config.{attempt_limit};

use crate::error::DecorError;
use resil_retry::{ErrorTest, RetryConfig};
use std::alloc::Global;

/// One layer of a chain.
///
/// ```
/// let or_zero = Layer::Fallback { catch: every_error, value: 0 };
/// ```
#[derive(Debug, Drop)]
pub enum Layer {
    /// Retries the call, as its configuration says (Resilience4j user guide, Retry).
    Retry(RetryConfig),
    /// Asks the bulkhead with this id for a permit before the call, and gives it back afterwards
    /// (Resilience4j user guide, Bulkhead). Without a permit the outcome is the error `Full`.
    Bulkhead(u16),
    /// Returns the value if the call inside returns an error that the test names; every other
    /// outcome passes (Resilience4j user guide, Decorators).
    Fallback {
        /// The errors that are replaced.
        catch: ErrorTest,
        /// The value that replaces them.
        value: i64,
    },
}

impl Layer {
    // The maximum number of times that the layer makes the call inside it.
    pub(crate) fn attempts(&self) -> u32
        ensures value { result ≡ attempts_of self.now }
        ensures least { 1 ≤ result }
        ensures most { result ≤ attempt_limit }
    {
        match self {
            Layer::Retry(config) => config.max_attempts(),
            Layer::Bulkhead(_) | Layer::Fallback { .. } => 1,
        }
    }

    // A copy with memory of its own. Errors: `Memory`.
    pub(crate) fn copy(&self, alloc: Global) -> Result<Layer, DecorError>
        ensures copied { IfOk result (λ copy. copy ≡ self.now) }
        ensures refused { IfErr result (λ error. error ≡ DecorError.Memory) }
    {
        match self {
            Layer::Retry(config) => match config.copy(alloc) {
                Ok(config) => Ok(Layer::Retry(config)),
                Err(_) => Err(DecorError::Memory),
            },
            Layer::Bulkhead(id) => Ok(Layer::Bulkhead(*id)),
            Layer::Fallback { catch, value } => match catch.copy(alloc) {
                Ok(catch) => Ok(Layer::Fallback {
                    catch,
                    value: *value,
                }),
                Err(_) => Err(DecorError::Memory),
            },
        }
    }

    // Whether both layers are of one kind with equal parts.
    pub(crate) fn same(&self, other: &Layer) -> bool
        ensures { IsTrue result ↔ (self.now ≡ other.now) }
    {
        match (self, other) {
            (Layer::Retry(a), Layer::Retry(b)) => a.same(b),
            (Layer::Bulkhead(a), Layer::Bulkhead(b)) => a == b,
            (Layer::Fallback { catch: a, value: x }, Layer::Fallback { catch: b, value: y }) => {
                x == y && a.same(b)
            }
            _ => false,
        }
    }
}
