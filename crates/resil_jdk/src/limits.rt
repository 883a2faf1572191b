//! The sizes that a pool is opened with. A resize leaves them as they are: they limit what it may set.

ghost use Rattle.std.specs.Prelude.{◌≡◌, IfOk, IfErr};
ghost use Rattle.resil_rule.specs.Limits.{Sizes};
ghost use Rattle.resil_jdk.specs.Limits.{AreJdkLimits, IsSizeRefusal};

use super::JdkError;
use std::marker::Model;

/// The sizes of a pool: the core size (0 to 536,870,911 workers), the maximum size (1 to 536,870,911, and at least the core
/// size) and the capacity of the queue (0 to 2,147,483,647 jobs; 0 is a direct handoff). After the ThreadPoolExecutor class
/// documentation. The JDK compares only the low 29 bits of its sizes: with a maximum of 536,870,912 its pool rejects each
/// task. A `LinkedBlockingQueue` without a bound has a capacity of 2,147,483,647.
///
/// ```
/// let cached = JdkLimits::new(0, JdkLimits::MAX_WORKERS, 0)?;
/// let fixed = JdkLimits::new(8, 8, JdkLimits::MAX_WAITING)?;
/// ```
#[derive(Clone, Copy, Debug)]
pub struct JdkLimits {
    core: u32,
    max: u32,
    queue: u32,
}

impl Model for JdkLimits {
    ghost Value = { Sizes };

    ghost view = { λ l. record { core = l.core; max = l.max; queue = l.queue } };

    ghost invariant = { λ l. AreJdkLimits (record { core = l.core; max = l.max; queue = l.queue }) };

    ghost inverse = { λ s. record { core = s.core; max = s.max; queue = s.queue } };
}

impl JdkLimits {
    /// The largest size that a pool may have, in workers.
    pub const MAX_WORKERS: u32 = 536_870_911;

    /// The largest capacity that a queue may have, in jobs.
    pub const MAX_WAITING: u32 = 2_147_483_647;

    /// The limits of these sizes.
    ///
    /// # Errors
    ///
    /// In this order: `CoreOutOfRange` if the core size is above `MAX_WORKERS`; `MaxOutOfRange` if the maximum size isn't
    /// from 1 to `MAX_WORKERS`, or is less than the core size; `QueueOutOfRange` if the capacity is above `MAX_WAITING`.
    pub fn new(core: u32, max: u32, queue: u32) -> Result<JdkLimits, JdkError>
        ensures sizes { IfOk result (λ limits. limits ≡ record { core = core; max = max; queue = queue }) }
        ensures in_range { IfOk result AreJdkLimits }
        ensures refused { IfErr result (IsSizeRefusal (record { core = core; max = max; queue = queue })) }
    {
        if core > JdkLimits::MAX_WORKERS {
            return Err(JdkError::CoreOutOfRange);
        }
        if max < 1 || max < core || max > JdkLimits::MAX_WORKERS {
            return Err(JdkError::MaxOutOfRange);
        }
        if queue > JdkLimits::MAX_WAITING {
            return Err(JdkError::QueueOutOfRange);
        }
        Ok(JdkLimits { core, max, queue })
    }

    /// The core size, in workers.
    pub fn core(&self) -> u32
        ensures { result ≡ self.now.core }
    {
        self.core
    }

    /// The maximum size, in workers.
    pub fn max(&self) -> u32
        ensures { result ≡ self.now.max }
    {
        self.max
    }

    /// The capacity of the queue, in jobs.
    pub fn queue(&self) -> u32
        ensures { result ≡ self.now.queue }
    {
        self.queue
    }
}
