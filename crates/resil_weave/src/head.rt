//! The head of a `weave`: how many permits there are when its steps begin.
//!
//! It is checked in the stages of a pool's head, but no key is required: it is TOML, each key is
//! known, the value is of its kind and in its range, and last there are no more permits than a word
//! can count. The first stage that fails gives the error.

ghost use Rattle.std.specs.Prelude.{◌≡◌, ◌≤◌, IfOk};
ghost use Rattle.toml.specs.View.{table_view};
ghost use Rattle.toml.specs.Errors.{IsBlank};
ghost use Rattle.resil_heads.specs.Checks.{Gives};
ghost use Rattle.resil_weave.specs.Head.{requested_permits, check_permits, weave_head_of};

use resil_heads::document::{check_keys, read_document};
use resil_heads::forms::{Form, Key};
use resil_heads::keys::count_at;
use resil_heads::layers::DEFAULT_PERMITS;
use resil_heads::{HeadError, HeadFault};
use resil_permit::MAX_PERMITS;
use std::alloc::Global;
use toml::Table;

/// The keys of the head.
pub const WEAVE_KEYS: &[Key] = &[Key::Optional("permits", Form::Count(0, 65_535))];

// The permits that the table of a head requests. Errors: `UnknownKey`, `BadValue`.
fn requested_permits(table: &Table) -> Result<u32, HeadFault>
    ensures { result ≡ requested_permits (table_view table.now) }
{
    check_keys(WEAVE_KEYS, table)?;
    count_at("permits", u32::from(DEFAULT_PERMITS), table)
}

// The permits, if a word can count them. Errors: `TooManyPermits` above 65,535.
fn check_permits(permits: u32) -> Result<u32, HeadError>
    ensures { result ≡ check_permits permits }
{
    if permits > MAX_PERMITS {
        Err(HeadError::TooManyPermits)
    } else {
        Ok(permits)
    }
}

/// Returns the permits in the head of a `weave`, at most 65,535. Its one key is `permits`, an
/// integer from 0 to 4,294,967,295, 25 by default.
///
/// # Errors
///
/// The first in this order: `BadToml`; `UnknownKey`; `BadValue`; `TooManyPermits` above 65,535.
/// `Memory` may come while the head is read.
pub fn read_head(alloc: Global, bytes: &[u8]) -> Result<u32, HeadFault>
    ensures answer { Gives result (weave_head_of bytes.now) }
    ensures countable { IfOk result (λ permits. permits ≤ 65535) }

    // A blank head doesn't allocate.
    ensures memory { result ≡ Err HeadError.Memory → ¬ IsBlank bytes.now }
{
    let table = read_document(alloc, bytes)?;
    Ok(check_permits(requested_permits(&table)?)?)
}
