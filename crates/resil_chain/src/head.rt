//! The head of a `chain`: the layers around a call, innermost first.
//!
//! It is checked in stages, each over the whole head before the next one begins: it is TOML,
//! `permits` is a table and `layer` an array of tables, each layer has a kind and each retry a
//! backoff, each key is known, the required keys are there, and each value is of its kind and in
//! its range. Last, the configurations are added in byte order of their names, and the layers are
//! built in order and make a chain. The first stage that fails gives the error.

ghost use Rattle.std.specs.Prelude.{IfOk, length};
ghost use Rattle.toml.specs.View.{table_view};
ghost use Rattle.resil_heads.specs.Checks.{Gives};
ghost use Rattle.resil_heads.specs.Layers.{parse_chain, build_chain};
ghost use Rattle.resil_chain.specs.Head.{chain_in, chain_head_of};
ghost use Rattle.resil_heads.specs.Ranges.{AreLayersInRange};

use resil_decor::Chain;
use resil_heads::HeadFault;
use resil_heads::document::read_document;
use resil_heads::forms::Key;
use resil_heads::layers::{LAYER, PERMITS, build_chain, parse_chain};
use resil_registry::Registry;
use std::alloc::Global;
use std::marker::Model;
use toml::Table;

/// The keys of the head.
pub const CHAIN_KEYS: &[Key] = &[PERMITS, LAYER];

/// Makes the chain of the table of a head. Errors: as for `read_head`, except `BadToml`.
#[tactic(auto, unfolding(crate::specs::Head::chain_in))]
pub fn chain_in(alloc: Global, head: &Table) -> Result<Chain, HeadFault>
    ensures { Gives result (chain_in (table_view head.now)) }
{
    let said = parse_chain(alloc, CHAIN_KEYS, head)?;
    let built = build_chain(alloc, said)?;
    Ok(built.chain)
}

/// Makes the chain of a head. Its keys are `permits`, a table of configurations, each a name with a
/// number of permits from 0 to 65,535, and `layer`, an array of tables, innermost first; either may
/// be absent. The configuration `default` has 25 permits.
///
/// # Errors
///
/// The first in this order: `BadToml`; `BadValue` if `permits` isn't a table or `layer` isn't an
/// array of tables; `MissingKey` or `BadValue` for the first layer that has no kind or an unknown
/// one; `BadValue` for an unknown backoff; `UnknownKey`; `MissingKey`; `BadValue`; `Registry` for
/// the first configuration, in byte order of the names, that can't be added; `Retry` or `Registry`
/// for the first layer that can't be built; `Chain`. `Memory` may come at any stage.
pub fn read_head(alloc: Global, head: &[u8]) -> Result<Chain, HeadFault>
    ensures answer { Gives result (chain_head_of head.now) }

    // The layers make a chain, each interval and each number of attempts is one that a retry takes,
    // and the ids of bulkheads are below the number of layers.
    ensures in_range { IfOk result (λ layers. AreLayersInRange (length layers) layers) }
{
    let table = read_document(alloc, head)?;
    Ok(chain_in(alloc, &table)?)
}
