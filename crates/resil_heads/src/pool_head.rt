//! The head of a history that the whole rule judges: the sizes of any pool of the JDK, its name, and what its recorder wrote there.
//!
//! A recorder writes its name, the time of its first event, and how many events recreate the state in which its file begins. A command
//! says which of these it uses (`Uses`). It reads past the others, so a value that one command refuses may be any value for another.

ghost use Rattle.std.specs.Prelude.{◌≡◌, None, [], IfOk, string_bytes};
ghost use Rattle.toml.specs.View.{table_view, view};
ghost use Rattle.resil_jdk.specs.Limits.{AreJdkLimits};
ghost use Rattle.resil_heads.specs.Checks.{GivesBy};
ghost use Rattle.resil_heads.specs.PoolHead.{minutes_of, moment_from, parse_began, parse_idle_for, parse_made, parse_moment, parse_owner, parse_recorded, parse_used, parse_year, pool_head_of, recorded_view, said_of};

use crate::document::{check_keys, read_document};
use crate::drawing::{Drawing, drawing_at};
use crate::error::{HeadError, HeadFault, at_key};
use crate::forms::{Form, Key};
use crate::keys::{parse_wait, short_text_at, value_at, wait_at};
use crate::layers::{LAYER, PERMITS};
use crate::run::KEEP_ALIVE;
use crate::sizes::{JDK_CORE, JDK_MAX, JDK_QUEUE, parse_jdk_limits};
use resil_jdk::JdkLimits;
use std::alloc::Global;
use toml::{Table, Value};
use toml_datetime::{Date, Datetime, Offset};

// The longest time after which an idle worker may end, in microseconds: 365 days.
const MAX_IDLE: u64 = 31_536_000_000_000;

/// The keys of the head.
pub const POOL_KEYS: &[Key] = &[
    JDK_CORE,
    JDK_MAX,
    JDK_QUEUE,
    KEEP_ALIVE,
    PERMITS,
    LAYER,
    Key::Optional("name", Form::ShortText(64)),
    Key::Optional("idle_for", Form::Integer(0, 31_536_000_000_000)),
    Key::Optional("made", Form::Made),
    Key::Optional("record", Form::ShortText(64)),
    Key::Optional("began", Form::Moment),
    Key::Optional("from", Form::Integer(0, i64::MAX)),
    Key::Optional("to", Form::Above("from")),
    Key::Optional("most_waiting", Form::Integer(0, 4_294_967_295)),
    Key::Optional("most_workers", Form::Integer(0, 4_294_967_295)),
];

/// Which values of a recorder a command uses, and whether it draws.
#[derive(Clone, Copy, Debug)]
pub struct Uses {
    /// `idle_for`, an integer from 0 to 31,536,000,000,000, a year in microseconds.
    pub idle_for: bool,
    /// `made`, an integer from 0 on.
    pub made: bool,
    /// `record`, a string of at most 64 characters.
    pub owner: bool,
    /// `began`, an offset date-time.
    pub began: bool,
    /// `from`, `to`, `most_waiting` and `most_workers`, integers: what of the history is drawn, and on which scales.
    pub drawing: bool,
}

impl Uses {
    /// None of them.
    pub const NONE: Uses = Uses {
        idle_for: false,
        made: false,
        owner: false,
        began: false,
        drawing: false,
    };
}

/// An offset date-time of TOML (RFC 3339), to the microsecond.
#[derive(Clone, Copy, Debug)]
pub struct Moment {
    /// The day of the calendar.
    pub date: Date,
    /// The hour of that day, 0 to 23.
    pub hour: u8,
    /// The minute of that hour, 0 to 59.
    pub minute: u8,
    /// The second of that minute, 0 to 60: a minute may have a leap second.
    pub second: u8,
    /// The microsecond of that second, 0 to 999,999. A finer fraction is cut off.
    pub microsecond: u32,
    /// How many minutes the clock is ahead of UTC, -1,439 to 1,439.
    pub offset: i16,
}

/// What a recorder wrote in a head.
#[derive(Drop)]
pub struct RecorderHead {
    /// After how many microseconds an idle worker may end, if the head says that.
    pub idle_for: Option<u64>,
    /// How many of the first events recreate the state in which the file begins. This may be more than there are events.
    pub made: u64,
    /// Whose record it is, empty if the head doesn't say that.
    pub owner: String,
    /// When the first event was, if the head says that.
    pub began: Option<Moment>,
}

/// What the head of a pool says.
#[derive(Drop)]
pub struct PoolHead {
    /// The sizes of the pool.
    pub limits: JdkLimits,
    /// Its name, empty if it has none.
    pub name: String,
    /// What its recorder wrote.
    pub recorded: RecorderHead,
    /// What of its history is drawn.
    pub drawing: Drawing,
}

// How many minutes an offset is ahead of UTC.
fn minutes_of(offset: Offset) -> i16
    ensures { result ≡ minutes_of offset }
{
    match offset {
        Offset::Z => 0,
        Offset::Custom { minutes } => minutes,
    }
}

// The moment of a date-time that has a date, a time of day and an offset.
fn moment_from(at: &Datetime) -> Option<Moment>
    ensures { result ≡ moment_from at.now }
{
    let (date, time, offset) = (at.date?, at.time?, at.offset?);
    Some(Moment {
        date,
        hour: time.hour,
        minute: time.minute,
        second: time.second.unwrap_or(0),
        microsecond: time.nanosecond.unwrap_or(0) / 1_000,
        offset: minutes_of(offset),
    })
}

// An offset date-time. Errors: `BadValue`.
fn parse_moment(value: &Value) -> Result<Moment, HeadError>
    ensures { result ≡ parse_moment (view value.now) }
{
    match value.as_datetime() {
        Some(at) => moment_from(at).ok_or(HeadError::BadValue),
        None => Err(HeadError::BadValue),
    }
}

// Microseconds, from 0 to a year, which is 31,536,000,000,000. Errors: `BadValue`.
fn parse_year(value: &Value) -> Result<u64, HeadError>
    ensures { result ≡ parse_year (view value.now) }
{
    let length = parse_wait(value)?;
    (length <= MAX_IDLE)
        .then_some(length)
        .ok_or(HeadError::BadValue)
}

// After how many microseconds an idle worker may end, if that is used and there. Errors: `BadValue`.
fn idle_for_at(is_used: bool, table: &Table) -> Result<Option<u64>, HeadFault>
    ensures { result ≡ parse_used is_used None parse_idle_for (table_view table.now) }
{
    if !is_used {
        return Ok(None);
    }
    match value_at("idle_for", table) {
        Some(value) => Ok(Some(at_key("idle_for", parse_year(value))?)),
        None => Ok(None),
    }
}

// How many of the first events recreate a state, if that is used, else 0. Errors: `BadValue`.
fn made_at(is_used: bool, table: &Table) -> Result<u64, HeadFault>
    ensures { result ≡ parse_used is_used 0 parse_made (table_view table.now) }
{
    if !is_used {
        return Ok(0);
    }
    wait_at("made", 0, table)
}

// Whose record it is, if that is used, else nothing. Errors: `BadValue`, `Memory`.
fn owner_at(alloc: Global, is_used: bool, table: &Table) -> Result<String, HeadFault>
    ensures { GivesBy string_bytes result (parse_used is_used [] parse_owner (table_view table.now)) }
{
    if !is_used {
        return Ok(String::new(alloc));
    }
    short_text_at(alloc, "record", table)
}

// When the first event was, if that is used and there. Errors: `BadValue`.
fn began_at(is_used: bool, table: &Table) -> Result<Option<Moment>, HeadFault>
    ensures { result ≡ parse_used is_used None parse_began (table_view table.now) }
{
    if !is_used {
        return Ok(None);
    }
    match value_at("began", table) {
        Some(value) => Ok(Some(at_key("began", parse_moment(value))?)),
        None => Ok(None),
    }
}

// What a recorder wrote in a table, if it is used. Errors: `BadValue`, `Memory`.
fn parse_recorded(alloc: Global, uses: Uses, table: &Table) -> Result<RecorderHead, HeadFault>
    ensures { GivesBy recorded_view result (parse_recorded uses (table_view table.now)) }
{
    let idle_for = idle_for_at(uses.idle_for, table)?;
    let made = made_at(uses.made, table)?;
    let owner = owner_at(alloc, uses.owner, table)?;
    let began = began_at(uses.began, table)?;
    Ok(RecorderHead {
        idle_for,
        made,
        owner,
        began,
    })
}

/// What the bytes of a head say. The sizes of a pool of the JDK are at `core`, `max` (workers, both required) and `queue` (jobs, 100 if
/// it is absent); its `name` has at most 64 characters. What its recorder wrote and what is to be drawn are read if they are used. Every
/// other key of `POOL_KEYS` may have any value.
///
/// # Errors
///
/// The first in this order: `BadToml`; `UnknownKey`; `MissingKey`; `BadValue` if a size isn't an integer from 0 to 4,294,967,295, or
/// another value that is used isn't of its kind or not in its range; `Limits` for the first size that is out of the range of
/// `JdkLimits`. `Memory` may come at any stage.
#[tactic(auto, unfolding(crate::specs::PoolHead::pool_head_of))]
pub fn read_pool_head(alloc: Global, uses: Uses, bytes: &[u8]) -> Result<PoolHead, HeadFault>
    ensures answer { GivesBy said_of result (pool_head_of uses bytes.now) }
    ensures in_range { IfOk result (λ head. AreJdkLimits head.limits) }
{
    let table = read_document(alloc, bytes)?;
    check_keys(POOL_KEYS, &table)?;
    let name = short_text_at(alloc, "name", &table)?;
    let recorded = parse_recorded(alloc, uses, &table)?;
    let drawing = drawing_at(uses.drawing, &table)?;
    let limits = parse_jdk_limits(&table)?;
    Ok(PoolHead {
        limits,
        name,
        recorded,
        drawing,
    })
}
