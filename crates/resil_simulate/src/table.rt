//! The text of the numbers of a history and of pools: a table with a record for each, as `csv` writes it. No field needs quotes.

ghost use Rattle.std.specs.Prelude.{◌≡◌, [], IfOk, string_bytes};
ghost use Rattle.resil_input.specs.CsvTable.{record_text};
ghost use Rattle.resil_simulate.specs.Table.{pool_fields, pools_text, size_text};
ghost use Rattle.resil_stats.specs.Text.{span_word};

use crate::numbers::PoolNumbers;
use resil_jdk::JdkLimits;
use std::alloc::{AllocError, Global};

// A number as a field, empty if there is none. Errors: `AllocError` when out of memory.
fn field_of(alloc: Global, number: Option<u64>) -> Result<String, AllocError>
    ensures { IfOk result (λ text. string_bytes text ≡ span_word number) }
{
    match number {
        Some(number) => format!(in alloc; "{number}"),
        None => String::from_str(alloc, ""),
    }
}

// The fields of sizes, with commas between them. Errors: `AllocError` when out of memory.
fn sizes_text(alloc: Global, sizes: Option<JdkLimits>) -> Result<String, AllocError>
    ensures { IfOk result (λ text. string_bytes text ≡ size_text sizes) }
{
    let Some(limits) = sizes else {
        return String::from_str(alloc, ",,");
    };
    let (core, max, queue) = (limits.core(), limits.max(), limits.queue());
    format!(in alloc; "{core},{max},{queue}")
}

// The record of a pool, or of what really happened. Errors: `AllocError` when out of memory.
fn pool_text(
    alloc: Global,
    sizes: Option<JdkLimits>,
    numbers: &PoolNumbers,
) -> Result<String, AllocError>
    ensures { IfOk result (λ text. string_bytes text ≡ record_text (pool_fields sizes numbers.now)) }
{
    let (submitted, refused, waits) = (numbers.submitted, numbers.refused, numbers.waits);
    let (waiting, workers) = (numbers.most_waiting, numbers.most_workers);
    let sizes = sizes_text(alloc, sizes)?;
    let median = field_of(alloc, waits.median)?;
    let p99 = field_of(alloc, waits.p99)?;
    let most = field_of(alloc, waits.most)?;
    let busy = field_of(alloc, numbers.busy)?;
    format!(in alloc;
        "{sizes},{submitted},{refused},{median},{p99},{most},{waiting},{workers},{busy}\n"
    )
}

// The header, and the record of what really happened if that is known. Errors: `AllocError` when out of memory.
fn first_text(alloc: Global, own: &Option<PoolNumbers>) -> Result<String, AllocError>
    ensures { IfOk result (λ text. string_bytes text ≡ pools_text own.now []) }
{
    let header =
        "core,max,queue,submitted,refused,wait_median,wait_p99,wait_most,most_waiting,most_workers,busy\n";
    let mut text = String::from_str(alloc, header)?;
    let Some(own) = own else {
        return Ok(text);
    };
    let record = pool_text(alloc, None, own)?;
    text.push_str(record.as_str())?;
    Ok(text)
}

/// The text of the numbers of pools, each with its sizes. It has the header
/// `core,max,queue,submitted,refused,wait_median,wait_p99,wait_most,most_waiting,most_workers,busy`; if there are numbers of what really
/// happened, a record of them with empty sizes; then a record for each pool, in order, in microseconds and thousandths. A number that
/// doesn't exist is an empty field.
///
/// # Errors
///
/// `AllocError` when out of memory.
pub fn table_text(
    alloc: Global,
    own: &Option<PoolNumbers>,
    pools: &[(JdkLimits, PoolNumbers)],
) -> Result<Vec<u8>, AllocError>
    ensures { IfOk result (λ text. text.items ≡ pools_text own.now pools.now) }
{
    let mut text = first_text(alloc, own)?;
    for pool in pools {
        let record = pool_text(alloc, Some(pool.0), &pool.1)?;
        text.push_str(record.as_str())?;
    }
    Ok(text.into_bytes())
}
