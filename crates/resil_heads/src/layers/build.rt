//! Builds the layers that a head asks for: intervals, retries, bulkheads with their ids, fallbacks, and the chain of them all.
//!
//! The first part that can't be built gives the error. The registry goes from one layer to the next, so layers with the same
//! name share one bulkhead.

ghost use Rattle.std.specs.Prelude.{◌≡◌};
ghost use Rattle.resil_heads.specs.Checks.{GivesBy};
ghost use Rattle.resil_heads.specs.LayerBuild.{build_interval, build_retry, build_layer, build_layers};

use crate::error::{FaultyKey, HeadError, HeadFault, Part};
use crate::layers::bulkheads::obtained;
use crate::layers::values::{IntervalSpec, LayerSpec, RetrySpec};
use resil_decor::Layer;
use resil_registry::Registry;
use resil_retry::{Interval, MAX_INTERVAL, RetryConfig, RetryError};
use std::alloc::Global;
use std::marker::Model;

// The fault of an interval that a retry refuses for this reason.
fn refused_interval(said: IntervalSpec, why: RetryError) -> HeadFault
    ensures { result ≡ HeadError.Retry why }
{
    let refused = HeadError::Retry(why);
    match (why, said) {
        (RetryError::IntervalTooLong, IntervalSpec::Exponential { initial, .. })
            if initial <= MAX_INTERVAL => HeadFault::at(FaultyKey::Known("cap"), refused),
        _ => HeadFault::from(refused),
    }
}

// The interval, if a retry takes it. Errors: `IntervalTooLong`, `BadMultiplier`, `CapBelowInitial`.
fn build_interval(said: IntervalSpec) -> Result<Interval, HeadFault>
    ensures { result ≡ build_interval said }
{
    let interval = match said {
        IntervalSpec::Fixed(ms) => Interval::fixed(ms),
        IntervalSpec::Exponential {
            initial,
            numerator,
            denominator,
            cap,
        } => Interval::exponential(initial, numerator, denominator, cap),
    };
    match interval {
        Ok(interval) => Ok(interval),
        Err(why) => Err(refused_interval(said, why)),
    }
}

// A retry of these parts. Errors: those of its interval; then `NoAttempts`, `TooManyAttempts`.
fn build_retry(said: RetrySpec) -> Result<RetryConfig, HeadFault>
    ensures { result ≡ build_retry said }
{
    let interval = build_interval(said.interval)?;
    let retry = RetryConfig::new(
        said.attempts,
        interval,
        said.result_test,
        said.error_test,
        said.fail_after_max,
    );
    Ok(retry.map_err(HeadError::Retry)?)
}

// The layer that a head asks for; a bulkhead has the id that the registry gives it. Errors: for a retry those of its parts;
// for a bulkhead `BadName`, `NoSuchConfig`, `Memory`, in this order.
fn build_layer(registry: &mut Registry<u16>, said: LayerSpec) -> Result<Layer, HeadFault>
    ensures { GivesBy (λ layer. record { layer = layer; lists = registry.new }) result (build_layer registry.old said.entry) }
{
    match said {
        LayerSpec::Retry(retry) => Ok(Layer::Retry(build_retry(retry)?)),
        LayerSpec::Bulkhead { name, config } => {
            let id = obtained(registry, name, config)?;
            // Every chain has so few layers that each id fits.
            Ok(Layer::Bulkhead(u16::try_from(id).unwrap_or(u16::MAX)))
        }
        LayerSpec::Fallback { catch, value } => Ok(Layer::Fallback { catch, value }),
    }
}

/// The layers, each built in turn. Errors: that of the first layer that can't be built; `Memory`.
#[tactic(auto, using(crate::proofs::BulkheadLaws::after_layers_next))]
pub(super) fn build_layers(
    alloc: Global,
    registry: &mut Registry<u16>,
    asked: Vec<LayerSpec>,
) -> Result<Vec<Layer>, HeadFault>
    ensures { GivesBy (λ layers. record { layers = layers.items; lists = registry.new }) result (build_layers registry.old asked.entry.items) }
{
    let mut layers = Vec::new(alloc);
    for said in asked {
        match build_layer(registry, said) {
            Ok(layer) => layers.push(layer)?,
            Err(fault) => return Err(fault.of(Part::Layer(layers.len()))),
        }
    }
    Ok(layers)
}
