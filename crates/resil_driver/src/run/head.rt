//! The head of a `run`: the sizes of the pool, its keep-alive, and the layers around each job with
//! the bulkheads that they name.
//!
//! Its keys are `keep_alive`, those of a pool's head and those of a chain's. It is checked in the stages
//! of both at once, each over the whole head before the next one begins: it is TOML, each layer has a
//! shape, each key is known, the required keys are there, and each value is of its kind and in its
//! range. Last, the pool accepts its sizes, the configurations are added in byte order of their names,
//! and the layers are built in order and make a chain. The first stage that fails gives the error.

ghost use Rattle.std.specs.Prelude.{IfOk, length};
ghost use Rattle.toml.specs.View.{table_view};
ghost use Rattle.resil_rule.specs.Limits.{AreLimits};
ghost use Rattle.resil_heads.specs.Checks.{Gives};
ghost use Rattle.resil_heads.specs.Ranges.{ArePermitsInRange, AreLayersInRange};
ghost use Rattle.resil_driver.specs.Run.Head.{parse_run, run_head_of};

use resil_admission::Limits;
use resil_decor::Chain;
use resil_heads::HeadFault;
use resil_heads::document::read_document;
use resil_heads::keys::count_at;
use resil_heads::layers::{build_chain, parse_chain};
use resil_heads::run::RUN_KEYS;
use resil_heads::sizes::parse_limits;
use resil_registry::Registry;
use std::alloc::Global;
use std::marker::Model;
use toml::Table;

// How many empty polls in a row end a worker above the core size, if a head doesn't say
// (ThreadPoolExecutor class documentation, keep-alive times; counted in polls, not in time).
const DEFAULT_KEEP_ALIVE: u32 = 20;

/// What the head of a `run` says.
#[derive(Drop)]
pub struct RunHead {
    /// The sizes of the pool.
    pub limits: Limits,
    /// The keep-alive, in empty polls in a row.
    pub keep_alive: u32,
    /// The bulkheads by their ids, each with its number of permits.
    pub bulkheads: Registry<u16>,
    /// The layers around each job, innermost first.
    pub chain: Chain,
}

impl Model for RunHead {
    ghost use Rattle.resil_driver.specs.Run.Head.{RunHeadView};

    ghost Value = { RunHeadView };

    ghost view = { λ h. record { limits = h.limits; keep_alive = h.keep_alive; bulkheads = h.bulkheads; layers = h.chain } };
}

// What the table of a head says. Errors: as for `read_head`, except `BadToml`.
#[tactic(auto, unfolding(crate::specs::Run::Head::parse_run, resil_heads::specs::Layers::parse_chain))]
fn parse_run(alloc: Global, head: &Table) -> Result<RunHead, HeadFault>
    ensures answer { Gives result (parse_run (table_view head.now)) }
    ensures in_range { IfOk result (λ said. AreLimits said.limits) }
{
    let asked = parse_chain(alloc, RUN_KEYS, head)?;
    let keep_alive = count_at("keep_alive", DEFAULT_KEEP_ALIVE, head)?;
    let limits = parse_limits(head)?;
    let built = build_chain(alloc, asked)?;
    Ok(RunHead {
        limits,
        keep_alive,
        bulkheads: built.bulkheads,
        chain: built.chain,
    })
}

/// Returns what the head of a `run` says. Its keys are `core` and `max` (workers, both required),
/// `queue` (jobs, 100 by default), `keep_alive` (empty polls in a row, 20 by default), each an
/// integer from 0 to 4,294,967,295, and `permits` and `layer` as in the head of a `chain`. A
/// bulkhead has the permits of its configuration, 25 for `default`.
///
/// # Errors
///
/// The first in this order: `BadToml`; `BadValue` if `permits` isn't a table or `layer` isn't an
/// array of tables; `MissingKey` or `BadValue` for the first layer that has no kind or an unknown
/// one; `BadValue` for an unknown backoff; `UnknownKey`; `MissingKey`; `BadValue`; `Limits` if the
/// pool refuses the sizes; `Registry` for the first configuration, in byte order of the names, that
/// can't be added; `Retry` or `Registry` for the first layer that can't be built; `Chain`. `Memory`
/// may come at any stage.
pub fn read_head(alloc: Global, head: &[u8]) -> Result<RunHead, HeadFault>
    ensures answer { Gives result (run_head_of head.now) }
    ensures in_range { IfOk result (λ said. AreLimits said.limits) }

    // The layers make a chain, each interval and each number of attempts is one that a retry
    // accepts, and each bulkhead of a layer is one of the registry.
    ensures layers_in_range { IfOk result (λ said. AreLayersInRange (length said.bulkheads.instances) said.layers) }
    ensures permits_in_range { IfOk result (λ said. ArePermitsInRange said.bulkheads) }
{
    let table = read_document(alloc, head)?;
    Ok(parse_run(alloc, &table)?)
}
