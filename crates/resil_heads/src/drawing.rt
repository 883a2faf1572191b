//! What a head says of the chart of its history: from when to when it is drawn, and how high the scales of its bands go.

ghost use Rattle.std.specs.Prelude.{◌≡◌};
ghost use Rattle.toml.specs.View.{table_view};
ghost use Rattle.resil_heads.specs.Drawing.{is_later, parse_end, parse_most, parse_used_drawing};
ghost use Rattle.resil_heads.specs.Keys.{parse_known, parse_wait};

use crate::error::{HeadError, HeadFault, at_key};
use crate::keys::{parse_count, parse_wait, value_at};
use toml::Table;

/// From when to when a history is drawn, and how high its scales go.
#[derive(Clone, Copy, Debug)]
pub struct Drawing {
    /// The beginning: a time in microseconds on the clock of the history or, if the history has no times, the place of an
    /// event, from 1. By default, that of the first event.
    pub from: Option<u64>,
    /// The end, above the beginning. By default, that of the last event.
    pub to: Option<u64>,
    /// How high the scale of the jobs that wait goes, at least.
    pub most_waiting: Option<u32>,
    /// How high the scale of the workers goes, at least.
    pub most_workers: Option<u32>,
}

impl Drawing {
    /// The whole history, in the scales that fit it.
    pub const WHOLE: Drawing = Drawing {
        from: None,
        to: None,
        most_waiting: None,
        most_workers: None,
    };
}

// The integer from 0 on at a key, if it is there. Errors: `BadValue`.
fn moment_at(key: &'static str, table: &Table) -> Result<Option<u64>, HeadFault>
    ensures { result ≡ parse_known parse_wait key.now (table_view table.now) }
{
    match value_at(key, table) {
        Some(value) => Ok(Some(at_key(key, parse_wait(value))?)),
        None => Ok(None),
    }
}

// The number from 0 to 4,294,967,295 at a key, if it is there. Errors: `BadValue`.
fn most_at(key: &'static str, table: &Table) -> Result<Option<u32>, HeadFault>
    ensures { result ≡ parse_most key.now (table_view table.now) }
{
    match value_at(key, table) {
        Some(value) => Ok(Some(at_key(key, parse_count(value))?)),
        None => Ok(None),
    }
}

// Whether an end is above a beginning, if both are there.
fn is_later(from: Option<u64>, to: Option<u64>) -> bool
    ensures { result ≡ is_later from to }
{
    match (from, to) {
        (Some(from), Some(to)) => from < to,
        _ => true,
    }
}

// The end of what is drawn, if it is there. Errors: `BadValue`, also if it isn't above the beginning.
fn end_at(from: Option<u64>, table: &Table) -> Result<Option<u64>, HeadFault>
    ensures { result ≡ parse_end from (table_view table.now) }
{
    let to = moment_at("to", table)?;
    let later = is_later(from, to).then_some(to).ok_or(HeadError::BadValue);
    at_key("to", later)
}

/// What a table says of the chart if that is used, else the whole history. Errors: `BadValue`.
pub(crate) fn drawing_at(is_used: bool, table: &Table) -> Result<Drawing, HeadFault>
    ensures { result ≡ parse_used_drawing is_used (table_view table.now) }
{
    if !is_used {
        return Ok(Drawing::WHOLE);
    }
    let from = moment_at("from", table)?;
    let to = end_at(from, table)?;
    let most_waiting = most_at("most_waiting", table)?;
    let most_workers = most_at("most_workers", table)?;
    Ok(Drawing {
        from,
        to,
        most_waiting,
        most_workers,
    })
}
