//! The layers of a head, with the bulkheads that they name, for `chain` and `run`.
//!
//! A head is read whole before the first of its parts is built, so that a bad value in the last layer is reported before an interval
//! that is too long in the first. First it is read what each layer says (`values`), and then the configurations, the layers and the
//! chain are built (`bulkheads`, `build`).

ghost use Rattle.toml.specs.View.{table_view};
ghost use Rattle.resil_heads.specs.Checks.{Gives};
ghost use Rattle.resil_heads.specs.Document.{keys_of};
ghost use Rattle.resil_heads.specs.LayerBuild.{build_layers};
ghost use Rattle.resil_heads.specs.Layers.{parse_chain, build_chain};

mod build;
pub(crate) mod bulkheads;
mod values;

use crate::error::{HeadError, HeadFault, Part};
use crate::forms::{Form, Key};
use crate::layers::build::build_layers;
pub use crate::layers::bulkheads::{DEFAULT_PERMITS, byte_order_is_of_members};
use crate::layers::bulkheads::{ConfigSpec, configured, parse_configs, permits_in};
pub use crate::layers::values::{EXPONENTIAL_RETRY_KEYS, title_and_keys};
use crate::layers::values::{LayerSpec, requested_layers};
use resil_decor::{Chain, Layer, MAX_CALLS, MAX_LAYERS};
use resil_registry::Registry;
use std::alloc::Global;
use std::marker::Model;
use toml::Table;

/// The configurations of the bulkheads, by their names.
pub const PERMITS: Key = Key::Optional("permits", Form::Configurations);

/// The layers, innermost first.
pub const LAYER: Key = Key::Optional("layer", Form::Tables("layer"));

/// What a head says of its chain, by its values alone: nothing is built of them yet.
#[derive(Drop)]
pub struct ChainSpec<'a> {
    configurations: Vec<ConfigSpec<'a>>,
    layers: Vec<LayerSpec<'a>>,
}

impl<'a> Model for ChainSpec<'a> {
    ghost use Rattle.resil_heads.specs.Layers.{ChainSpecView};

    ghost Value = { ChainSpecView };

    ghost view = { λ c. record { configurations = c.configurations.items; layers = c.layers.items } };
}

/// A chain, and the bulkheads that its layers name.
#[derive(Drop)]
pub struct BuiltChain {
    /// The layers, innermost first.
    pub chain: Chain,
    /// The bulkheads by their ids, each with its number of permits.
    pub bulkheads: Registry<u16>,
}

impl Model for BuiltChain {
    ghost use Rattle.resil_heads.specs.LayerBuild.{BuiltLayers};

    ghost Value = { BuiltLayers };

    ghost view = { λ c. record { layers = c.chain; lists = c.bulkheads } };
}

/// What a table with these keys says of its chain.
///
/// # Errors
///
/// The first in this order: `BadValue` if `permits` isn't a table or `layer` isn't an array of tables; `MissingKey` or `BadValue` for
/// the first layer that has no kind or an unknown one; `BadValue` for an unknown backoff; `UnknownKey`; `MissingKey`; `BadValue`.
/// `Memory` may come at any step.
#[tactic(auto, unfolding(crate::specs::Layers::parse_chain))]
pub fn parse_chain<'a>(
    alloc: Global,
    keys: &[Key],
    head: &'a Table,
) -> Result<ChainSpec<'a>, HeadFault>
    ensures { Gives result (parse_chain (keys_of keys.now) (table_view head.now)) }
{
    let permits = permits_in(head)?;
    let layers = requested_layers(alloc, keys, head)?;
    let configurations = parse_configs(alloc, permits)?;
    Ok(ChainSpec {
        configurations,
        layers,
    })
}

// The first of some layers that make no chain: one too many, or the layer that makes too many calls.
fn excess(layers: &[Layer]) -> Part {
    let mut calls = 1u32;
    if layers.len() <= MAX_LAYERS {
        for (place, layer) in layers.iter().enumerate() {
            if let Layer::Retry(retry) = layer {
                calls = calls.saturating_mul(retry.max_attempts());
            }
            if calls > MAX_CALLS {
                return Part::Layer(place);
            }
        }
    }
    Part::Layer(MAX_LAYERS)
}

/// The chain that a head asks for, with its bulkheads.
///
/// # Errors
///
/// The first in this order: `Registry` for the first configuration that can't be added; `Retry` or
/// `Registry` for the first layer that can't be built; `Chain`. `Memory` may come at any step.
#[tactic(auto, unfolding(crate::specs::Layers::build_chain))]
pub fn build_chain(alloc: Global, said: ChainSpec) -> Result<BuiltChain, HeadFault>
    ensures { Gives result (build_chain said.entry) }
{
    let mut bulkheads = configured(alloc, said.configurations)?;
    let layers = build_layers(alloc, &mut bulkheads, said.layers)?;
    match Chain::new(layers) {
        Ok(chain) => Ok(BuiltChain { chain, bulkheads }),
        Err((why, layers)) => {
            let fault = HeadFault::from(HeadError::Chain(why));
            Err(fault.of(excess(&layers)))
        }
    }
}
