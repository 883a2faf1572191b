//! The head of a load: the sizes that it is carried out on, one or more for each of the three, when an idle worker may end, and how the
//! jobs of a history are taken. It reads past anything else that a recorder writes.

ghost use Rattle.std.specs.Prelude.{◌≡◌, ◌≤◌, All, IfOk, filter, length};
ghost use Rattle.toml.specs.View.{table_view, view};
ghost use Rattle.resil_jdk.specs.Limits.{AreJdkLimits};
ghost use Rattle.resil_heads.specs.Checks.{GivesBy};
ghost use Rattle.resil_simulate.specs.Head.{check_each, combinations, is_pool, load_head_of, micros_at, parse_counts, parse_takes, parse_terms, parse_time_out, parse_unfinished, parse_ways, plan_of, pools_from};

use resil_heads::document::{check_keys, read_document};
use resil_heads::forms::{Form, Key};
use resil_heads::keys::{parse_count, required, value_at, wait_at};
use resil_heads::sizes::DEFAULT_QUEUE;
use resil_heads::{FaultyKey, HeadError, HeadFault, at_key};
use resil_jdk::JdkLimits;
use resil_rule::AdmitError;
use std::alloc::{AllocError, Global};
use toml::{Table, Value};

// After how many microseconds an idle worker may end if a head doesn't say it (Resilience4j user guide, Bulkhead, `keepAliveDuration`).
const DEFAULT_IDLE: u64 = 20_000;

/// The keys of the head.
pub const LOAD_KEYS: &[Key] = &[
    Key::Required("core", Form::Sizes(0, JdkLimits::MAX_WORKERS)),
    Key::Required("max", Form::Sizes(1, JdkLimits::MAX_WORKERS)),
    Key::Optional("queue", Form::Sizes(0, JdkLimits::MAX_WAITING)),
    Key::Optional("idle_for", Form::Integer(0, 31_536_000_000_000)),
    Key::Optional("wakes", Form::Integer(0, 1_000_000)),
    Key::Optional("time_out", Form::Flag),
    Key::Optional("takes", Form::Count(0, 4_294_967_295)),
    Key::Optional("unfinished", Form::Unfinished),
    Key::Optional("made", Form::Made),
    Key::Optional("name", Form::ShortText(64)),
    Key::Optional("record", Form::ShortText(64)),
    Key::Optional("began", Form::Moment),
];

/// How long a job of a history that was started there and has no finish runs in another pool.
#[derive(Clone, Copy, Debug, PartialEq, Eq)]
pub enum Unfinished {
    /// As long as it ran there, up to the last event.
    Run,
    /// What the head says at `takes`.
    Takes,
}

/// How the jobs of a history are taken.
#[derive(Clone, Copy, Debug)]
pub struct Terms {
    /// For how many microseconds a job runs that was never started there, if the head says so.
    pub takes: Option<u32>,
    /// How long a job runs that was started and has no finish.
    pub unfinished: Unfinished,
    /// How many of the first events restate the state in which the history begins. This may be more than there are events.
    pub made: u64,
}

/// How the workers of a pool end and wake.
#[derive(Clone, Copy, Debug)]
pub struct Ways {
    /// After how many microseconds an idle worker may end.
    pub idle_for: u64,
    /// How many microseconds a worker takes to wake, 0 to 1,000,000.
    pub wakes: u64,
    /// Whether core workers may end too.
    pub time_out: bool,
}

/// What the head of a load says.
#[derive(Drop)]
pub struct LoadHead {
    /// The pools that it is carried out on, 1 to 512 of them.
    pub pools: Vec<JdkLimits>,
    /// How the workers of each pool end and wake.
    pub ways: Ways,
    /// How the jobs of a history are taken.
    pub terms: Terms,
}

// A number, or the 1 to 8 numbers of an array. Errors: `BadValue`, `Memory`.
#[tactic(auto, using(resil_heads::proofs::LayerLaws::each_next))]
fn parse_counts(alloc: Global, value: &Value) -> Result<Vec<u32>, HeadError>
    ensures answer { GivesBy (λ counts. counts.items) result (parse_counts (view value.now)) }
    ensures few { IfOk result (λ counts. length counts.items ≤ 8) }
{
    let Some(items) = value.as_array() else {
        return Ok(vec![in alloc; parse_count(value)?]?);
    };
    let mut counts = Vec::new(alloc);
    for item in items.as_slice() {
        counts.push(parse_count(item)?)?;
    }
    if counts.is_empty() || counts.len() > 8 {
        return Err(HeadError::BadValue);
    }
    Ok(counts)
}

// Checks that each of the sizes is from the least to the greatest. Errors: `Limits` with this reason.
fn check_each(least: u32, greatest: u32, why: AdmitError, sizes: &[u32]) -> Result<(), HeadError>
    ensures { result ≡ check_each least greatest why sizes.now }
{
    let all = sizes.iter().all(|size| least <= *size && *size <= greatest);
    all.then_some(()).ok_or(HeadError::Limits(why))
}

// The combinations that a pool takes. Errors: out of memory.
fn combine(
    alloc: Global,
    cores: &[u32],
    maxes: &[u32],
    queues: &[u32],
) -> Result<Vec<JdkLimits>, AllocError>
    ensures { IfOk result (λ pools. pools.items ≡ filter is_pool (combinations cores.now maxes.now queues.now)) }
{
    let mut pools = Vec::new(alloc);
    for core in cores {
        for max in maxes {
            for queue in queues {
                if let Ok(limits) = JdkLimits::new(*core, *max, *queue) {
                    pools.push(limits)?;
                }
            }
        }
    }
    Ok(pools)
}

// The pools of sizes. Errors: `Limits`, `Memory`.
#[tactic(auto, using(crate::proofs::HeadLaws::are_limits, crate::proofs::HeadLaws::few_pools))]
fn pools_from(
    alloc: Global,
    cores: &[u32],
    maxes: &[u32],
    queues: &[u32],
) -> Result<Vec<JdkLimits>, HeadError>
    ensures answer { GivesBy (λ pools. pools.items) result (pools_from cores.now maxes.now queues.now) }
    ensures in_range { IfOk result (λ pools. All AreJdkLimits pools.items × (1 ≤ length pools.items)) }
    ensures few { length cores.now ≤ 8 → length maxes.now ≤ 8 → length queues.now ≤ 8 → IfOk result (λ pools. length pools.items ≤ 512) }
{
    check_each(0, JdkLimits::MAX_WORKERS, AdmitError::CoreOutOfRange, cores)?;
    check_each(1, JdkLimits::MAX_WORKERS, AdmitError::MaxOutOfRange, maxes)?;
    check_each(
        0,
        JdkLimits::MAX_WAITING,
        AdmitError::QueueOutOfRange,
        queues,
    )?;
    let pools = combine(alloc, cores, maxes, queues)?;
    if pools.is_empty() {
        return Err(HeadError::Limits(AdmitError::MaxOutOfRange));
    }
    Ok(pools)
}

// The microseconds at `takes`, if it is there. Errors: `BadValue`.
fn parse_takes(table: &Table) -> Result<Option<u32>, HeadFault>
    ensures { result ≡ parse_takes (table_view table.now) }
{
    match value_at("takes", table) {
        Some(value) => Ok(Some(at_key("takes", parse_count(value))?)),
        None => Ok(None),
    }
}

// How long an unfinished job runs: as long as it did there, if the head doesn't say it. Errors: `BadValue`.
fn parse_unfinished(table: &Table) -> Result<Unfinished, HeadFault>
    ensures { result ≡ parse_unfinished (table_view table.now) }
{
    let Some(value) = value_at("unfinished", table) else {
        return Ok(Unfinished::Run);
    };
    match value.as_str() {
        Some("run") => Ok(Unfinished::Run),
        Some("takes") => Ok(Unfinished::Takes),
        _ => Err(HeadFault::at(FaultyKey::Known("unfinished"), HeadError::BadValue)),
    }
}

// How the jobs of a history are taken. Errors: `BadValue`.
fn parse_terms(table: &Table) -> Result<Terms, HeadFault>
    ensures { result ≡ parse_terms (table_view table.now) }
{
    let takes = parse_takes(table)?;
    let unfinished = parse_unfinished(table)?;
    let made = wait_at("made", 0, table)?;
    Ok(Terms {
        takes,
        unfinished,
        made,
    })
}

// Microseconds at a key, up to the most, or the default if it is absent. Errors: `BadValue`.
fn micros_at(key: &'static str, default: u64, most: u64, table: &Table) -> Result<u64, HeadFault>
    ensures { result ≡ micros_at key.now default most (table_view table.now) }
{
    let length = wait_at(key, default, table)?;
    if length > most {
        return Err(HeadFault::at(FaultyKey::Known(key), HeadError::BadValue));
    }
    Ok(length)
}

// Whether core workers may end too; by default they may not. Errors: `BadValue`.
fn parse_time_out(table: &Table) -> Result<bool, HeadFault>
    ensures { result ≡ parse_time_out (table_view table.now) }
{
    let Some(value) = value_at("time_out", table) else {
        return Ok(false);
    };
    match value.as_bool() {
        Some(is_on) => Ok(is_on),
        None => Err(HeadFault::at(FaultyKey::Known("time_out"), HeadError::BadValue)),
    }
}

// How workers end and wake. Errors: `BadValue`.
fn parse_ways(table: &Table) -> Result<Ways, HeadFault>
    ensures { result ≡ parse_ways (table_view table.now) }
{
    let idle_for = micros_at("idle_for", DEFAULT_IDLE, 31_536_000_000_000, table)?;
    let wakes = micros_at("wakes", 0, 1_000_000, table)?;
    let time_out = parse_time_out(table)?;
    Ok(Ways {
        idle_for,
        wakes,
        time_out,
    })
}

/// What the head of a load says. There is a pool for each combination of `core`, `max` (workers, both required) and `queue` (jobs, 100 if
/// it is absent) whose core size is at most the maximum size, in the order of the arrays, with the queue varying fastest. The other keys
/// are `idle_for`, from 0 to 31,536,000,000,000 microseconds, 20,000 if it is absent; `wakes`, from 0 to 1,000,000 microseconds, and
/// `time_out`, 0 and false if they are absent; `takes`, from 0 to 4,294,967,295 microseconds, `None` if it is absent; `unfinished`, `"run"`
/// (also if it is absent) or `"takes"`; and `made`, from 0 on, 0 if it is absent. `name`, `record` and `began` may have any value.
///
/// # Errors
///
/// The first in this order: `BadToml`; `UnknownKey`; `MissingKey`; `BadValue` if a size is neither an integer from 0 to 4,294,967,295
/// nor an array of 1 to 8 of them, or else `idle_for`, `wakes`, `time_out`, `takes`, `unfinished` or `made` isn't of its kind, or is out of
/// its range; `Limits` for the first of `core`, `max` and `queue` that has an item out of its range, and for `max` if no combination is left.
/// `Memory` may come at any stage.
#[tactic(auto, unfolding(crate::specs::Head::load_head_of))]
pub fn read_load_head(alloc: Global, bytes: &[u8]) -> Result<LoadHead, HeadFault>
    ensures answer { GivesBy plan_of result (load_head_of bytes.now) }
    ensures in_range { IfOk result (λ head. All AreJdkLimits head.pools.items × (1 ≤ length head.pools.items) × (length head.pools.items ≤ 512)) }
{
    let table = read_document(alloc, bytes)?;
    check_keys(LOAD_KEYS, &table)?;
    let cores = at_key("core", parse_counts(alloc, required("core", &table)?))?;
    let maxes = at_key("max", parse_counts(alloc, required("max", &table)?))?;
    let queues = match value_at("queue", &table) {
        Some(value) => at_key("queue", parse_counts(alloc, value))?,
        None => vec![in alloc; DEFAULT_QUEUE]?,
    };
    let ways = parse_ways(&table)?;
    let terms = parse_terms(&table)?;
    let pools = pools_from(alloc, &cores, &maxes, &queues)?;
    Ok(LoadHead { pools, ways, terms })
}
