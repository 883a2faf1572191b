//! How full the pool is after each event of a history.

ghost use Rattle.std.specs.Prelude.{◌≡◌, IfOk};
ghost use Rattle.resil_jdk.specs.Admission.{IsLegal};
ghost use Rattle.resil_rule.specs.Limits.{Sizes};
ghost use Rattle.resil_stats.specs.Depth.{AreLevelsOf, opening_sizes, sizes_after};

use crate::stats::Load;
use resil_jdk::{JdkEvent, JdkLimits};
use std::alloc::{AllocError, Global};

/// How full the pool is after an event, and its sizes.
#[derive(Clone, Copy)]
pub struct Level {
    /// The place of the event in the history, from 1.
    pub at: usize,
    /// The jobs in the queue.
    pub waiting: usize,
    /// The jobs that run.
    pub running: usize,
    /// The workers, busy and idle.
    pub workers: usize,
    /// The core size, in workers.
    pub core: u32,
    /// The maximum size, in workers.
    pub max: u32,
}

// The core size and the maximum size after one more event.
fn sizes_after(sizes: (u32, u32), event: JdkEvent) -> (u32, u32)
    ensures { result ≡ sizes_after sizes event }
{
    match event {
        JdkEvent::Resized { core, max } => (core, max),
        _ => sizes,
    }
}

/// The core size and the maximum size that a pool begins with: those of a resize before all else, or those of its opening.
pub(crate) fn opening_sizes(limits: &JdkLimits, events: &[JdkEvent]) -> (u32, u32)
    ensures { result ≡ opening_sizes limits.now events.now }
{
    let sizes = (limits.core(), limits.max());
    match events.first() {
        Some(event) => sizes_after(sizes, *event),
        None => sizes,
    }
}

/// How full the pool is after each of some legal events, in their order.
/// Errors: `AllocError` when out of memory.
pub(crate) fn levels_of(
    alloc: Global,
    limits: &JdkLimits,
    events: &[JdkEvent],
) -> Result<Vec<Level>, AllocError>
    requires { (legal : Sizes) × IsLegal legal events.now }
    ensures { IfOk result (λ levels. AreLevelsOf limits.now events.now levels.items) }
{
    let mut load = Load::default();
    let mut sizes = (limits.core(), limits.max());
    let mut levels = Vec::new(alloc);
    for (index, event) in events.iter().enumerate() {
        load = load.after(*event);
        sizes = sizes_after(sizes, *event);
        levels.push(Level {
            at: index + 1,
            waiting: load.waiting,
            running: load.running,
            workers: load.workers,
            core: sizes.0,
            max: sizes.1,
        })?;
    }
    Ok(levels)
}
