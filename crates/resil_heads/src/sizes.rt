//! The sizes of a pool, as the table of a head gives them.
//!
//! The sizes that are read are ones that a pool takes, so a head never opens a pool out of its ranges.

ghost use Rattle.std.specs.Prelude.{◌≡◌, IfOk, IsOkAnd};
ghost use Rattle.toml.specs.View.{table_view};
ghost use Rattle.resil_rule.specs.Limits.{AreLimits, IsSizeRefusal};
ghost use Rattle.resil_rule.specs.declared.error.AdmitError.{AdmitError};
ghost use Rattle.resil_jdk.specs.Limits.{AreJdkLimits};
ghost use Rattle.resil_heads.specs.Sizes.{build_jdk_limits, parse_sizes, parse_jdk_limits, parse_limits};

use crate::error::{HeadError, HeadFault, at_key};
use crate::forms::{Form, Key};
use crate::keys::{count_at, parse_count, required};
use resil_jdk::{JdkError, JdkLimits};
use resil_rule::{AdmitError, Limits};
use toml::Table;

/// The core size, in workers.
pub const CORE: Key = Key::Required("core", Form::Count(1, Limits::MAX_WORKERS as i64));

/// The maximum size, in workers.
pub const MAX: Key = Key::Required("max", Form::Count(1, Limits::MAX_WORKERS as i64));

/// The capacity of the queue, in jobs.
pub const QUEUE: Key = Key::Optional("queue", Form::Count(1, Limits::MAX_WAITING as i64));

/// The core size of a pool of the JDK, in workers.
pub(crate) const JDK_CORE: Key = Key::Required("core", Form::Count(0, 536_870_911));

/// The maximum size of such a pool, in workers.
pub(crate) const JDK_MAX: Key = Key::Required("max", Form::Count(1, 536_870_911));

/// The capacity of the queue of such a pool, in jobs.
pub(crate) const JDK_QUEUE: Key = Key::Optional("queue", Form::Count(0, 2_147_483_647));

/// The capacity of the queue if a head names none, in jobs (Resilience4j user guide, Bulkhead, `queueCapacity`).
pub const DEFAULT_QUEUE: u32 = 100;

/// The limits that a table gives by its keys `core` and `max` (workers) and `queue` (jobs, 100 if it is absent). It takes no memory.
///
/// # Errors
///
/// In this order, each for the first size at fault: `MissingKey` if `core` or `max` is absent, `BadValue` if it isn't an integer
/// from 0 to 4,294,967,295; then `Limits` if the pool refuses the sizes.
#[tactic(auto, unfolding(crate::specs::Sizes::parse_limits))]
pub fn parse_limits(table: &Table) -> Result<Limits, HeadFault>
    ensures answer { result ≡ parse_limits (table_view table.now) }
    ensures in_range { IfOk result AreLimits }
    ensures refused_sizes { (why : AdmitError) → result ≡ Err (HeadError.Limits why)
        → IsOkAnd (parse_sizes (table_view table.now)) (λ sizes. IsSizeRefusal sizes why) }
{
    let core = at_key("core", parse_count(required("core", table)?))?;
    let max = at_key("max", parse_count(required("max", table)?))?;
    let queue = count_at("queue", DEFAULT_QUEUE, table)?;
    Ok(Limits::new(core, max, queue).map_err(HeadError::Limits)?)
}

// The limits of a pool of the JDK of these sizes. Errors: `Limits` by the names that all pools have, `Memory` never.
fn build_jdk_limits(core: u32, max: u32, queue: u32) -> Result<JdkLimits, HeadError>
    ensures answer { result ≡ build_jdk_limits (record { core = core; max = max; queue = queue }) }
    ensures in_range { IfOk result AreJdkLimits }
{
    match JdkLimits::new(core, max, queue) {
        Ok(limits) => Ok(limits),
        Err(JdkError::CoreOutOfRange) => Err(HeadError::Limits(AdmitError::CoreOutOfRange)),
        Err(JdkError::MaxOutOfRange) => Err(HeadError::Limits(AdmitError::MaxOutOfRange)),
        Err(JdkError::QueueOutOfRange) => Err(HeadError::Limits(AdmitError::QueueOutOfRange)),
        Err(JdkError::Memory) => Err(HeadError::Memory),
    }
}

/// The limits of a pool of the JDK that a table gives by the same keys. It takes no memory.
///
/// # Errors
///
/// In this order, each for the first size at fault: `MissingKey` if `core` or `max` is absent, `BadValue` if it isn't an integer
/// from 0 to 4,294,967,295; then `Limits` if `JdkLimits` refuses the sizes, by the name that `Limits` has for it.
#[tactic(auto, unfolding(crate::specs::Sizes::parse_jdk_limits))]
pub fn parse_jdk_limits(table: &Table) -> Result<JdkLimits, HeadFault>
    ensures answer { result ≡ parse_jdk_limits (table_view table.now) }
    ensures in_range { IfOk result AreJdkLimits }
{
    let core = at_key("core", parse_count(required("core", table)?))?;
    let max = at_key("max", parse_count(required("max", table)?))?;
    let queue = count_at("queue", DEFAULT_QUEUE, table)?;
    Ok(build_jdk_limits(core, max, queue)?)
}
