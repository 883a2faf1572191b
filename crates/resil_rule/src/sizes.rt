//! The sizes of a pool, which may have more workers than `Limits` allows.

ghost use Rattle.std.specs.Prelude.{◌≡◌, ◌≤◌, IfOk, IfErr};
ghost use Rattle.resil_rule.specs.Limits.{Sizes as SizesView};
ghost use Rattle.resil_rule.specs.Sizes.{AreSizes, IsSizesRefusal, most_core};

use super::{AdmitError, Limits};
use std::marker::Model;

/// The sizes of a pool of up to 1,024 workers: the core size (1 to 1,024), the maximum size (core size to 1,024) and the capacity of the queue
/// (1 to 65,536 jobs). All `Limits` are such sizes too. After the ThreadPoolExecutor class documentation; the ranges are our own.
///
/// ```
/// let sizes = Sizes::new(200, 400, 100)?;
/// let mut rule: Rule<u64> = Rule::new(alloc, sizes, 2)?;
/// ```
#[derive(Clone, Copy, Debug)]
pub struct Sizes {
    core: u32,
    max: u32,
    queue: u32,
}

impl Model for Sizes {
    ghost Value = { SizesView };

    ghost view = { λ s. record { core = s.core; max = s.max; queue = s.queue } };

    ghost invariant = { λ s. AreSizes (record { core = s.core; max = s.max; queue = s.queue }) };

    ghost inverse = { λ s. record { core = s.core; max = s.max; queue = s.queue } };
}

impl From<Limits> for Sizes {
    ghost use Rattle.std.specs.Prelude.{◌≡◌};
    ghost use Rattle.resil_rule.specs.Limits.{AreLimits};

    // The same numbers, in the ranges of `Limits`.
    ghost from_gives = { λ limits sizes. (sizes ≡ limits) × AreLimits sizes };

    fn from(limits: Limits) -> Sizes {
        Sizes {
            core: limits.core(),
            max: limits.max(),
            queue: limits.queue(),
        }
    }
}

impl Sizes {
    /// The largest maximum size that a pool may have, in workers.
    pub const MAX_WORKERS: u32 = 1_024;

    /// The sizes with these numbers.
    ///
    /// # Errors
    ///
    /// In this order: `CoreOutOfRange` if the core size isn't from 1 to `MAX_WORKERS`; `MaxOutOfRange` if the maximum size isn't from
    /// the core size to `MAX_WORKERS`; `QueueOutOfRange` if the capacity isn't from 1 to `Limits::MAX_WAITING`.
    ///
    /// ```
    /// match Sizes::new(core, max, queue) {
    ///     Ok(sizes) => println!(rt; "at most {} workers", sizes.max())?,
    ///     Err(error) => println!(rt; "{error}")?,
    /// }
    /// ```
    pub fn new(core: u32, max: u32, queue: u32) -> Result<Sizes, AdmitError>
        ensures sizes { IfOk result (λ sizes. sizes ≡ record { core = core; max = max; queue = queue }) }
        ensures in_range { IfOk result AreSizes }
        ensures refused { IfErr result (IsSizesRefusal (record { core = core; max = max; queue = queue })) }
    {
        if core < 1 || core > Sizes::MAX_WORKERS {
            return Err(AdmitError::CoreOutOfRange);
        }
        if max < core || max > Sizes::MAX_WORKERS {
            return Err(AdmitError::MaxOutOfRange);
        }
        if queue < 1 || queue > Limits::MAX_WAITING {
            return Err(AdmitError::QueueOutOfRange);
        }
        Ok(Sizes { core, max, queue })
    }

    /// The core size, in workers.
    pub fn core(&self) -> u32
        ensures { result ≡ self.now.core }
    {
        self.core
    }

    /// The maximum size, in workers.
    pub fn max(&self) -> u32
        ensures { result ≡ self.now.max }
    {
        self.max
    }

    /// The capacity of the queue, in jobs.
    pub fn queue(&self) -> u32
        ensures { result ≡ self.now.queue }
    {
        self.queue
    }

    /// The largest core size that a resize may set, in workers: 64, as for `Limits`, or 1,024 in a pool that was opened for more than 64.
    pub fn most_core(&self) -> u32
        ensures most { result ≡ most_core self.now }
        ensures no_less { self.now.max ≤ result }
    {
        if self.max > Limits::MAX_WORKERS {
            Sizes::MAX_WORKERS
        } else {
            Limits::MAX_WORKERS
        }
    }
}
