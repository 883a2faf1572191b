//! A head as a TOML table, and its keys.
//!
//! A head is checked in stages, each over the whole table before the next one begins: it is TOML, each key is known, the required keys
//! are present, each value is of its kind and in its range, and last come the checks of the command. The first stage that fails gives
//! the error, so the order of the keys in the text never decides.

ghost use Rattle.std.specs.Prelude.{◌≡◌, map};
ghost use Rattle.toml.specs.View.{table_view};
ghost use Rattle.toml.specs.Errors.{IsBlank};
ghost use Rattle.resil_heads.specs.Document.{name_of, keys_of, document_of, is_known, has_needed, check_known, check_required, check_keys};
ghost use Rattle.resil_heads.specs.Checks.{GivesBy};

use crate::error::{FaultyKey, HeadError, HeadFault};
use crate::forms::Key;
use crate::keys::value_at;
use std::alloc::Global;
use std::str;
use toml::Table;

/// The table that the bytes of a head write.
///
/// # Errors
///
/// `BadToml` if the bytes aren't UTF-8 or aren't a TOML document (a key that is there twice is one reason); `Memory` when out of
/// memory.
#[tactic(auto, using(crate::proofs::DocumentLaws::document_of_bytes, crate::proofs::DocumentLaws::document_of_text))]
pub fn read_document(alloc: Global, bytes: &[u8]) -> Result<Table, HeadError>
    ensures answer { GivesBy table_view result (document_of bytes.now) }
    ensures memory { result ≡ Err HeadError.Memory → ¬ IsBlank bytes.now }
{
    let Ok(text) = str::from_utf8(bytes) else {
        return Err(HeadError::BadToml);
    };
    match toml::table_from_str(alloc, text) {
        Ok(table) => Ok(table),
        Err(error) if error.is_memory() => Err(HeadError::Memory),
        Err(_) => Err(HeadError::BadToml),
    }
}

// Whether the name of a key is one of those listed.
fn is_known(keys: &[Key], name: &str) -> bool
    ensures { result ≡ is_known (map name_of keys.now) name.now }
{
    keys.iter().any(|key| key.name() == name)
}

// Whether a table has a key, if it needs it.
fn has_needed(key: Key, table: &Table) -> bool
    ensures { result ≡ has_needed (table_view table.now) key }
{
    match key {
        Key::Required(name, _) => value_at(name, table).is_some(),
        Key::Optional(..) => true,
    }
}

// The fault of a table that has unknown keys: the first of them.
fn unknown(keys: &[Key], table: &Table) -> HeadFault
    ensures { result ≡ HeadError.UnknownKey }
{
    let first = table.keys().position(|name| !is_known(keys, name.as_str()));
    let key = first.map_or(FaultyKey::Whole, FaultyKey::Other);
    HeadFault::at(key, HeadError::UnknownKey)
}

// The fault of a table that lacks some of these keys: the first of them.
fn missing(keys: &[Key], table: &Table) -> HeadFault
    ensures { result ≡ HeadError.MissingKey }
{
    let first = keys.iter().find(|key| !has_needed(**key, table));
    let key = first.map_or(FaultyKey::Whole, |key| FaultyKey::Known(key.name()));
    HeadFault::at(key, HeadError::MissingKey)
}

/// Checks that each key of a table is one of these. Errors: `UnknownKey`.
pub(crate) fn check_known(keys: &[Key], table: &Table) -> Result<(), HeadFault>
    ensures { result ≡ check_known (keys_of keys.now) (table_view table.now) }
{
    let all = table.keys().all(|name| is_known(keys, name.as_str()));
    if all {
        Ok(())
    } else {
        Err(unknown(keys, table))
    }
}

/// Checks that a table has each of the keys that is required. Errors: `MissingKey`.
pub(crate) fn check_required(keys: &[Key], table: &Table) -> Result<(), HeadFault>
    ensures { result ≡ check_required (keys_of keys.now) (table_view table.now) }
{
    let all = keys.iter().all(|key| has_needed(*key, table));
    if all {
        Ok(())
    } else {
        Err(missing(keys, table))
    }
}

/// Checks that a table has no keys but these, and each of them that is required.
///
/// # Errors
///
/// In this order: `UnknownKey`; `MissingKey`.
pub fn check_keys(keys: &[Key], table: &Table) -> Result<(), HeadFault>
    ensures { result ≡ check_keys (keys_of keys.now) (table_view table.now) }
{
    check_known(keys, table)?;
    check_required(keys, table)
}
