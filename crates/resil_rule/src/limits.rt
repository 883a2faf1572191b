//! The sizes that a pool is opened with. A resize doesn't change them; they say how far it may go.

ghost use Rattle.std.specs.Prelude.{◌≡◌, IfOk, IfErr};
ghost use Rattle.resil_rule.specs.Limits.{Sizes as SizesView, AreLimits, IsSizeRefusal};

use super::{AdmitError, Sizes};
use std::marker::Model;

/// The sizes of a pool: the core size (1 to 64), the maximum size (core size to 64) and the capacity of the
/// queue (1 to 65,536 jobs). After the ThreadPoolExecutor class documentation; the ranges are our own.
///
/// ```
/// let limits = Limits::new(2, 4, 100)?;
/// let mut machine = Machine::new(alloc, limits)?;
/// ```
#[derive(Clone, Copy, Debug)]
pub struct Limits {
    core: u32,
    max: u32,
    queue: u32,
}

impl Model for Limits {
    ghost Value = { SizesView };

    ghost view = { λ l. record { core = l.core; max = l.max; queue = l.queue } };

    ghost invariant = { λ l. AreLimits (record { core = l.core; max = l.max; queue = l.queue }) };

    ghost inverse = { λ s. record { core = s.core; max = s.max; queue = s.queue } };
}

impl Limits {
    /// The largest maximum size that a pool may have, in workers.
    pub const MAX_WORKERS: u32 = 64;

    /// The largest capacity that a queue may have, in jobs.
    pub const MAX_WAITING: u32 = 65_536;

    /// The limits with these sizes.
    ///
    /// # Errors
    ///
    /// In this order: `CoreOutOfRange` if the core size isn't from 1 to `MAX_WORKERS`; `MaxOutOfRange` if the maximum size isn't from
    /// the core size to `MAX_WORKERS`; `QueueOutOfRange` if the capacity isn't from 1 to `MAX_WAITING`.
    ///
    /// ```
    /// match Limits::new(core, max, queue) {
    ///     Ok(limits) => println!(rt; "at most {} workers", limits.max())?,
    ///     Err(error) => println!(rt; "{error}")?,
    /// }
    /// ```
    pub fn new(core: u32, max: u32, queue: u32) -> Result<Limits, AdmitError>
        ensures sizes { IfOk result (λ limits. limits ≡ record { core = core; max = max; queue = queue }) }
        ensures in_range { IfOk result AreLimits }
        ensures refused { IfErr result (IsSizeRefusal (record { core = core; max = max; queue = queue })) }
    {
        if core < 1 || core > Limits::MAX_WORKERS {
            return Err(AdmitError::CoreOutOfRange);
        }
        if max < core || max > Limits::MAX_WORKERS {
            return Err(AdmitError::MaxOutOfRange);
        }
        if queue < 1 || queue > Limits::MAX_WAITING {
            return Err(AdmitError::QueueOutOfRange);
        }
        Ok(Limits { core, max, queue })
    }

    /// The limits with the numbers of these sizes, which must be in the ranges of `Limits`, as in a pool that was opened by limits.
    pub fn of(sizes: Sizes) -> Limits
        requires { AreLimits sizes }
        ensures { result ≡ sizes }
    {
        Limits {
            core: sizes.core(),
            max: sizes.max(),
            queue: sizes.queue(),
        }
    }

    /// The core size, in workers.
    pub fn core(&self) -> u32
        ensures { result ≡ self.now.core }
    {
        self.core
    }

    /// The maximum size, in workers.
    pub fn max(&self) -> u32
        ensures { result ≡ self.now.max }
    {
        self.max
    }

    /// The capacity of the queue, in jobs.
    pub fn queue(&self) -> u32
        ensures { result ≡ self.now.queue }
    {
        self.queue
    }
}
