//! The values at the keys of a table, each read as its kind.
//!
//! A value that isn't of its kind, or isn't in its range, is the error `BadValue`, and a key that is absent gives its
//! default. So each reader of this module has the error `BadValue` and no other, except `Memory` if it takes an
//! allocator, and `MissingKey` of `required`.

ghost use Rattle.std.specs.Prelude.{◌≡◌, Some, None, [], chars, length, map, nat_lt, option_map, string_bytes, MatchResult};
ghost use Rattle.toml.specs.Data.{get_member};
ghost use Rattle.toml.specs.View.{view, table_view};
ghost use Rattle.resil_retry.specs.declared.result_test.ResultTest.TheVariants.{Never};
ghost use Rattle.resil_heads.specs.Checks.{GivesBy};
ghost use Rattle.resil_input.specs.OutcomeText.{parse_kind};
ghost use Rattle.resil_heads.specs.Keys.{parse_at, parse_named, parse_short_text, parse_text, parse_count, parse_integer, parse_wait, parse_flag, parse_fraction, parse_kinds, parse_table, parse_tables, result_test_from_name};

use crate::error::{FaultyKey, HeadError, HeadFault, at_key};
use resil_input::outcome_text::{parse_kind, parse_signed};
use resil_retry::{Kind, ResultTest};
use std::alloc::Global;
use std::marker::Model;
use toml::{Table, Value};

/// A string of the head. Contracts see it as its bytes.
#[derive(Drop)]
pub struct HeadText<'a> {
    text: &'a str,
}

impl<'a> Model for HeadText<'a> {
    ghost use Rattle.std.specs.Prelude.{List, ℕ};

    ghost Value = { List ℕ };

    ghost view = { λ t. t.text.now };
}

impl<'a> HeadText<'a> {
    /// This string.
    pub(crate) fn new(text: &'a str) -> HeadText<'a>
        ensures { result ≡ text.now }
    {
        HeadText { text }
    }

    /// The string itself.
    pub fn as_str(&self) -> &'a str
        ensures { result.now ≡ self.now }
    {
        self.text
    }
}

/// The value at a key.
#[tactic(auto, using(toml::proofs::Views::table_get))]
pub fn value_at<'a>(key: &str, table: &'a Table) -> Option<&'a Value>
    ensures { option_map (λ value. view value.now) result ≡ get_member key.now (table_view table.now) }
{
    table.get(key)
}

/// The value at a required key. Errors: `MissingKey`.
pub fn required<'a>(key: &'static str, table: &'a Table) -> Result<&'a Value, HeadFault>
    ensures { MatchResult result (λ value. get_member key.now (table_view table.now) ≡ Some (view value.now)) (λ why. (why ≡ HeadError.MissingKey) × (get_member key.now (table_view table.now) ≡ None)) }
{
    let missing = HeadFault::at(FaultyKey::Known(key), HeadError::MissingKey);
    value_at(key, table).ok_or(missing)
}

/// Any string.
pub(crate) fn parse_text<'a>(value: &'a Value) -> Result<HeadText<'a>, HeadError>
    ensures { result ≡ parse_text (view value.now) }
{
    value.as_str().map(HeadText::new).ok_or(HeadError::BadValue)
}

/// The string at a key.
pub(crate) fn text_at<'a>(
    key: &'static str,
    default: &'a str,
    table: &'a Table,
) -> Result<HeadText<'a>, HeadFault>
    ensures { result ≡ parse_at parse_text default.now key.now (table_view table.now) }
{
    let read = value_at(key, table).map_or(Ok(HeadText::new(default)), parse_text);
    at_key(key, read)
}

/// The string of at most 64 characters at a key, empty if it is absent.
///
/// # Errors
///
/// `BadValue` for any other value; `Memory`.
#[tactic(auto, using(std::proofs::lemmas::Str::chars_from_encodes))]
pub fn short_text_at(alloc: Global, key: &'static str, table: &Table) -> Result<String, HeadFault>
    ensures { GivesBy string_bytes result (parse_short_text key.now (table_view table.now)) }
{
    let text = text_at(key, "", table)?.as_str();
    if text.chars().count() > 64 {
        return Err(HeadFault::at(FaultyKey::Known(key), HeadError::BadValue));
    }
    Ok(text.to_string(alloc)?)
}

/// Any integer of 64 bits.
pub(crate) fn parse_integer(value: &Value) -> Result<i64, HeadError>
    ensures { result ≡ parse_integer (view value.now) }
{
    value.as_integer().ok_or(HeadError::BadValue)
}

/// An integer from 0 to 4,294,967,295.
pub fn parse_count(value: &Value) -> Result<u32, HeadError>
    ensures { result ≡ parse_count (view value.now) }
{
    u32::try_from(parse_integer(value)?).map_err(|_| HeadError::BadValue)
}

/// The number at a key, from 0 to 4,294,967,295, or the default if it is absent.
///
/// # Errors
///
/// `BadValue` for any other value.
pub fn count_at(key: &'static str, default: u32, table: &Table) -> Result<u32, HeadFault>
    ensures { result ≡ parse_at parse_count default key.now (table_view table.now) }
{
    at_key(key, value_at(key, table).map_or(Ok(default), parse_count))
}

/// An integer from 0 on.
pub(crate) fn parse_wait(value: &Value) -> Result<u64, HeadError>
    ensures { result ≡ parse_wait (view value.now) }
{
    u64::try_from(parse_integer(value)?).map_err(|_| HeadError::BadValue)
}

/// The integer from 0 on at a key, as a wait in milliseconds.
pub fn wait_at(key: &'static str, default: u64, table: &Table) -> Result<u64, HeadFault>
    ensures { result ≡ parse_at parse_wait default key.now (table_view table.now) }
{
    at_key(key, value_at(key, table).map_or(Ok(default), parse_wait))
}

/// True or false at a key.
pub(crate) fn flag_at(key: &'static str, default: bool, table: &Table) -> Result<bool, HeadFault>
    ensures { result ≡ parse_at parse_flag default key.now (table_view table.now) }
{
    match value_at(key, table) {
        Some(value) => at_key(key, value.as_bool().ok_or(HeadError::BadValue)),
        None => Ok(default),
    }
}

/// An array of two numbers, the numerator and the denominator.
#[tactic(auto, using(crate::proofs::LayerLaws::other_fraction))]
pub(crate) fn parse_fraction(value: &Value) -> Result<(u32, u32), HeadError>
    ensures { result ≡ parse_fraction (view value.now) }
{
    let Some(items) = value.as_array() else {
        return Err(HeadError::BadValue);
    };
    match items.as_slice() {
        [numerator, denominator] => Ok((parse_count(numerator)?, parse_count(denominator)?)),
        _ => Err(HeadError::BadValue),
    }
}

// A kind of error, by its string.
fn parse_kind_value(value: &Value) -> Result<Kind, HeadError>
    ensures { result ≡ parse_named parse_kind (view value.now) }
{
    let kind = value.as_str().and_then(|text| parse_kind(text.as_bytes()));
    kind.ok_or(HeadError::BadValue)
}

// The kinds of error in a value, if it is an array of them.
#[tactic(auto, using(crate::proofs::LayerLaws::each_next))]
fn parse_kinds(alloc: Global, key: &'static str, value: &Value) -> Result<Vec<Kind>, HeadFault>
    ensures { GivesBy (λ kinds. kinds.items) result (parse_kinds (view value.now)) }
{
    let Some(items) = value.as_array() else {
        return Err(HeadFault::at(FaultyKey::Known(key), HeadError::BadValue));
    };
    let mut kinds = Vec::new(alloc);
    for item in items.as_slice() {
        match parse_kind_value(item) {
            Ok(kind) => kinds.push(kind)?,
            Err(why) => return Err(HeadFault::at(FaultyKey::Item(key, kinds.len()), why)),
        }
    }
    Ok(kinds)
}

/// The kinds of error at a key, none if it is absent.
pub(crate) fn kinds_at(
    alloc: Global,
    key: &'static str,
    table: &Table,
) -> Result<Vec<Kind>, HeadFault>
    ensures { GivesBy (λ kinds. kinds.items) result (parse_at parse_kinds [] key.now (table_view table.now)) }
{
    match value_at(key, table) {
        Some(value) => parse_kinds(alloc, key, value),
        None => Ok(Vec::new(alloc)),
    }
}

// The test of values that a string names: `never`, or `=`, `<` or `>=` and an integer.
fn result_test_from_name(text: &[u8]) -> Option<ResultTest>
    ensures { result ≡ result_test_from_name text.now }
{
    match text {
        b"never" => Some(ResultTest::Never),
        [b'=', digits @ ..] => parse_signed(digits).map(ResultTest::Equal),
        [b'<', digits @ ..] => parse_signed(digits).map(ResultTest::Below),
        [b'>', b'=', digits @ ..] => parse_signed(digits).map(ResultTest::AtLeast),
        _ => None,
    }
}

// A test of values, by its string. Errors: `BadValue` if the value isn't a test.
fn parse_result_test(value: &Value) -> Result<ResultTest, HeadError>
    ensures { result ≡ parse_named result_test_from_name (view value.now) }
{
    let text = value.as_str().ok_or(HeadError::BadValue)?;
    result_test_from_name(text.as_bytes()).ok_or(HeadError::BadValue)
}

/// The test of values at a key; if it is absent, no value is retried.
pub(crate) fn result_test_at(key: &'static str, table: &Table) -> Result<ResultTest, HeadFault>
    ensures { result ≡ parse_at (parse_named result_test_from_name) Never key.now (table_view table.now) }
{
    let read = value_at(key, table).map_or(Ok(ResultTest::Never), parse_result_test);
    at_key(key, read)
}

/// The table that a value is.
pub(crate) fn parse_table<'a>(value: &'a Value) -> Result<&'a Table, HeadError>
    ensures { GivesBy (λ table. table_view table.now) result (parse_table (view value.now)) }
{
    value.as_table().ok_or(HeadError::BadValue)
}

// The tables in a value, if it is an array of them.
#[tactic(auto, using(crate::proofs::LayerLaws::each_next))]
fn parse_tables<'a>(alloc: Global, value: &'a Value) -> Result<Vec<&'a Table>, HeadError>
    ensures { GivesBy (λ tables. map (λ table. table_view table.now) tables.items) result (parse_tables (view value.now)) }
{
    let Some(items) = value.as_array() else {
        return Err(HeadError::BadValue);
    };
    let mut tables = Vec::new(alloc);
    for item in items.as_slice() {
        tables.push(parse_table(item)?)?;
    }
    Ok(tables)
}

/// The tables in the array at a key, none if it is absent.
pub(crate) fn tables_at<'a>(
    alloc: Global,
    key: &'static str,
    table: &'a Table,
) -> Result<Vec<&'a Table>, HeadFault>
    ensures { GivesBy (λ tables. map (λ table. table_view table.now) tables.items) result (parse_at parse_tables [] key.now (table_view table.now)) }
{
    match value_at(key, table) {
        Some(value) => at_key(key, parse_tables(alloc, value)),
        None => Ok(Vec::new(alloc)),
    }
}
