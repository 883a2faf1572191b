//! The bulkheads of a service, as a TOML text names them. The table `permits` has configurations by name, as in a head, and each
//! `[[bulkhead]]` has a name, a configuration and the longest wait for a permit.
//!
//! A text is read in steps, in this order: `read_text`, `read_configurations`, `read_tables`, and `parse_bulkhead_table` for each
//! table. The caller of these makes the bulkheads.

ghost use Rattle.std.specs.Prelude.{◌≡◌, Ok, Some, map, IfOk};
ghost use Rattle.toml.specs.Parse.{parse_document};
ghost use Rattle.toml.specs.View.{table_view};
ghost use Rattle.resil_heads.specs.Bulkheads.{parse_configurations, bulkhead_tables, parse_bulkhead_table, text_keys};
ghost use Rattle.resil_heads.specs.Checks.{Gives};
ghost use Rattle.resil_heads.specs.Document.{check_known};

use crate::document::{check_keys, check_known};
use crate::error::{HeadError, HeadFault};
use crate::forms::{Form, Key};
pub use crate::keys::HeadText;
use crate::keys::{parse_text, required, tables_at, text_at, wait_at};
use crate::layers::PERMITS;
pub use crate::layers::bulkheads::registry_error;
use crate::layers::bulkheads::{configured, parse_configs, permits_in};
use resil_registry::{DEFAULT_CONFIG, Registry};
use std::alloc::Global;
use std::fmt;
use thiserror::Error;
use toml::Table;

// The keys of the text.
const TEXT_KEYS: &[Key] = &[PERMITS, Key::Optional("bulkhead", Form::Tables("bulkhead"))];

// The keys of a bulkhead.
const BULKHEAD_KEYS: &[Key] = &[
    Key::Required("name", Form::Text),
    Key::Optional("config", Form::Text),
    Key::Optional("wait", Form::Wait),
];

/// What a text says of a bulkhead.
#[derive(Drop)]
pub struct BulkheadSpec<'a> {
    /// Its name.
    pub name: HeadText<'a>,
    /// The name of its configuration.
    pub config: HeadText<'a>,
    /// The longest wait for a permit, in milliseconds.
    pub wait: u64,
}

/// Which part of a text is refused.
#[derive(Clone, Copy, PartialEq, Eq, Debug)]
pub enum Place {
    /// The line with this number, from 1.
    Line(usize),
    /// The keys of the whole text, or the reader is out of memory.
    Text,
    /// The table of configurations.
    Permits,
    /// The bulkhead with this number, from 1.
    Bulkhead(usize),
}

impl fmt::Display for Place {
    fn fmt<W: fmt::Write>(&self, f: &mut fmt::Formatter<W>) -> fmt::Result {
        match self {
            Place::Line(line) => write!(f, "line {line}"),
            Place::Text => write!(f, "the text"),
            Place::Permits => write!(f, "permits"),
            Place::Bulkhead(number) => write!(f, "bulkhead {number}"),
        }
    }
}

/// Why a text is refused, and where.
#[derive(Clone, Copy, Debug, Error)]
#[error("{place}: {why}")]
pub struct TextError {
    /// Which part is refused.
    pub place: Place,
    /// Why.
    pub why: HeadError,
}

// The error of a place.
fn at(place: Place, why: HeadError) -> TextError {
    TextError { place, why }
}

// The number of the line in which the byte at this index is.
fn line_at(text: &str, index: usize) -> usize {
    let ends = text.bytes().take(index).filter(|byte| *byte == b'\n');
    ends.count().saturating_add(1)
}

/// The table that a text writes, with known keys only.
///
/// # Errors
///
/// In this order: `BadToml` with its line, or `Memory`; `UnknownKey`.
pub fn read_text(alloc: Global, text: &str) -> Result<Table, TextError>
    ensures parsed { IfOk result (λ table. parse_document text.now ≡ Some (table_view table)) }
    ensures known { IfOk result (λ table. check_known text_keys (table_view table) ≡ Ok tt) }
{
    match toml::table_from_str(alloc, text) {
        Ok(table) => match check_known(TEXT_KEYS, &table) {
            Ok(()) => Ok(table),
            Err(fault) => Err(at(Place::Text, fault.why())),
        },
        Err(error) => match error.span() {
            Some(span) => Err(at(Place::Line(line_at(text, span.start)), HeadError::BadToml)),
            None => Err(at(Place::Text, HeadError::Memory)),
        },
    }
}

// The configurations of a text in a registry. Errors: `BadValue`, `Registry`, `Memory`.
#[tactic(auto, unfolding(crate::specs::Bulkheads::parse_configurations))]
fn parse_configurations(alloc: Global, text: &Table) -> Result<Registry<u16>, HeadFault>
    ensures { Gives result (parse_configurations (table_view text.now)) }
{
    let permits = permits_in(text)?;
    let said = parse_configs(alloc, permits)?;
    configured(alloc, said)
}

/// The registry that has the configurations of a text, and no instance.
///
/// # Errors
///
/// For `permits`: `BadValue`; then, for the first configuration that can't be added, in byte order of their names, `BadName`,
/// `ReservedName`. `Memory` may come at any step.
pub fn read_configurations(alloc: Global, text: &Table) -> Result<Registry<u16>, TextError>
    ensures { IfOk result (λ names. parse_configurations (table_view text.now) ≡ Ok names) }
{
    match parse_configurations(alloc, text) {
        Ok(names) => Ok(names),
        Err(fault) => Err(at(Place::Permits, fault.why())),
    }
}

/// The tables of the bulkheads, in their order.
///
/// # Errors
///
/// `BadValue` for the whole text if `bulkhead` isn't an array of tables; `Memory`.
pub fn read_tables<'a>(alloc: Global, text: &'a Table) -> Result<Vec<&'a Table>, TextError>
    ensures { IfOk result (λ tables. bulkhead_tables (table_view text.now) ≡ Ok (map (λ table. table_view table.now) tables.items)) }
{
    tables_at(alloc, "bulkhead", text).map_err(|fault| at(Place::Text, fault.why()))
}

/// What the table of a bulkhead says. Without `config` the configuration is `default`, and without `wait` the bulkhead waits for no
/// permit.
///
/// # Errors
///
/// In this order: `UnknownKey`; `MissingKey` if it has no `name`; `BadValue`.
#[tactic(auto, unfolding(crate::specs::Bulkheads::parse_bulkhead_table))]
pub fn parse_bulkhead_table<'a>(keys: &'a Table) -> Result<BulkheadSpec<'a>, HeadError>
    ensures { result ≡ parse_bulkhead_table (table_view keys.now) }
{
    check_keys(BULKHEAD_KEYS, keys)?;
    let name = parse_text(required("name", keys)?)?;
    let config = text_at("config", DEFAULT_CONFIG, keys)?;
    let wait = wait_at("wait", 0, keys)?;
    Ok(BulkheadSpec { name, config, wait })
}
