//! The bulkheads of a head: the configurations in its table `permits`, and the ids of its layers.
//!
//! A registry has the configurations and gives each name its id. It is made anew for each head, so the ids of a chain count its bulkheads
//! from 0, in the order in which its layers name them. The configurations are added in byte order of their names
//! (`specs/ByteOrder.antt`), so their order in the text never decides which of them gives the error.

ghost use Rattle.std.specs.Prelude.{◌≡◌};
ghost use Rattle.std.specs.Option.{option_map_or};
ghost use Rattle.toml.specs.Data.{no_members};
ghost use Rattle.toml.specs.View.{view, table_view};
ghost use Rattle.resil_heads.specs.Checks.{GivesBy, Gives};
ghost use Rattle.resil_heads.specs.ByteOrder.{AreInByteOrder, in_byte_order};
ghost use Rattle.resil_heads.specs.Keys.{each};
ghost use Rattle.resil_heads.specs.LayerBulkheads.{permits_in, parse_permits, parse_config, registry_error, unconfigured, with_configuration, configured, obtained};

use crate::error::{HeadError, HeadFault, Part, at_key};
use crate::keys::{HeadText, parse_integer, parse_table, value_at};
use resil_registry::{Registry, RegistryError};
use std::alloc::Global;
use toml::{Table, Value};

/// The permits of a bulkhead if a head names no number (Resilience4j user guide, Bulkhead, `maxConcurrentCalls`).
pub const DEFAULT_PERMITS: u16 = 25;

/// What a head says of a configuration.
#[derive(Drop)]
pub(crate) struct ConfigSpec<'a> {
    /// Its name.
    pub name: HeadText<'a>,
    /// How many permits a bulkhead of it has.
    pub permits: u16,
}

/// The table of configurations, if there is one. Errors: `BadValue` if it isn't a table.
pub(crate) fn permits_in<'a>(head: &'a Table) -> Result<Option<&'a Table>, HeadFault>
    ensures { GivesBy (λ permits. option_map_or (λ table. table_view table.now) permits no_members) result (permits_in (table_view head.now)) }
{
    at_key(
        "permits",
        value_at("permits", head).map(parse_table).transpose(),
    )
}

// A number of permits, from 0 to 65,535. Errors: `BadValue`.
fn parse_permits(value: &Value) -> Result<u16, HeadError>
    ensures { result ≡ parse_permits (view value.now) }
{
    u16::try_from(parse_integer(value)?).map_err(|_| HeadError::BadValue)
}

/// The configurations of a head, in byte order of their names. Errors: `BadValue` for the first value that isn't a number of permits;
/// `Memory`.
#[tactic(auto, using(crate::proofs::LayerLaws::each_turn))]
pub(crate) fn parse_configs<'a>(
    alloc: Global,
    permits: Option<&'a Table>,
) -> Result<Vec<ConfigSpec<'a>>, HeadFault>
    ensures { GivesBy (λ said. said.items) result (each parse_config (in_byte_order (option_map_or (λ table. table_view table.now) permits.entry no_members))) }
{
    let mut said = Vec::new(alloc);
    let Some(table) = permits else {
        return Ok(said);
    };
    'entries: for (name, value) in table.iter() {
        match parse_permits(value) {
            Ok(permits) => {
                let name = HeadText::new(name.as_str());
                said.push(ConfigSpec { name, permits })?;
            }
            Err(why) => return Err(HeadFault::from(why).of(Part::Configuration(said.len()))),
        }
    }
    Ok(said)
}

/// The error of a head if a registry refuses a part of it.
pub fn registry_error(why: RegistryError) -> HeadError
    ensures { result ≡ registry_error why }
{
    match why {
        RegistryError::Memory => HeadError::Memory,
        RegistryError::ReservedName
        | RegistryError::NoSuchConfig
        | RegistryError::NameTaken
        | RegistryError::BadName => HeadError::Registry(why),
    }
}

// Adds a configuration. Errors: `BadName`, `ReservedName`, `NameTaken`, `Memory`.
#[tactic(auto, using(crate::proofs::BulkheadLaws::configuration_added, crate::proofs::BulkheadLaws::configuration_refused))]
fn add_configuration(registry: &mut Registry<u16>, said: ConfigSpec) -> Result<(), HeadError>
    ensures { GivesBy (λ _. registry.new) result (with_configuration registry.old said.entry) }
{
    match registry.add_config(said.name.as_str(), said.permits) {
        Ok(()) => Ok(()),
        Err((why, _)) => Err(registry_error(why)),
    }
}

/// A registry with the default configuration and these. Errors: that of the first configuration that can't be added; `Memory`.
pub(crate) fn configured(alloc: Global, said: Vec<ConfigSpec>) -> Result<Registry<u16>, HeadFault>
    ensures { Gives result (configured unconfigured said.entry.items) }
{
    let Ok(mut registry) = Registry::new(alloc, DEFAULT_PERMITS) else {
        return Err(HeadFault::from(HeadError::Memory));
    };
    let mut place = 0usize;
    for configuration in said {
        match add_configuration(&mut registry, configuration) {
            Ok(()) => place = place.saturating_add(1),
            Err(why) => return Err(HeadFault::from(why).of(Part::Configuration(place))),
        }
    }
    Ok(registry)
}

/// The id of the bulkhead of that name. Errors: `BadName`, `NoSuchConfig`, `Memory`, in this order.
#[tactic(auto, using(crate::proofs::BulkheadLaws::obtained_given, crate::proofs::BulkheadLaws::obtained_refused))]
pub(crate) fn obtained(
    registry: &mut Registry<u16>,
    name: HeadText,
    config: HeadText,
) -> Result<usize, HeadError>
    ensures { GivesBy (λ id. record { id = id; lists = registry.new }) result (obtained registry.old name.entry config.entry) }
{
    match registry.obtain_with(name.as_str(), config.as_str()) {
        Ok(id) => Ok(id),
        Err(why) => Err(registry_error(why)),
    }
}

/// The law of byte order: a table has its members in byte order of their keys. Only its contract is used.
pub fn byte_order_is_of_members(table: &Table)
    ensures { AreInByteOrder (table_view table.now) }
{
    let _members = table.iter();
}
