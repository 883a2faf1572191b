//! A pool, and its visitors, workers and closer: each has a seat at the pool's lock.
ghost use Rattle.std.specs.Prelude.{◌≡◌, []};
ghost use Rattle.resil_lock.specs.declared.protocol.Phase.TheVariants.{Idle};
ghost use Rattle.resil_lock.specs.declared.protocol.Rank.TheVariants as rank;

use crate::log::Entry;
use crate::opening::Opening;
use crate::state::BoxedState;
use resil_lock::{Lock, LockSeat};
use resil_rule::{NoRecord, Record, Sizes};
use std::alloc::Global;

/// A pool of threads for your own jobs, which threads share by `&`. `H` is the record of its history: `NoRecord`
/// keeps none, `LastEvents` the last events, and `AllEvents` all of them.
///
/// ```
/// let (pool, mut closer) = Executor::open(alloc, Sizes::new(2, 4, 100)?, NoRecord)?;
/// let submitted = pool.submit_job(&rt, &mut pool.visitor(), work);
/// pool.close(&rt, &mut closer);
/// ```
#[derive(Drop)]
pub struct Executor<W: Drop, H: Record = NoRecord> {
    /// The lock over the pool's state.
    pub lock: Lock<BoxedState<W, H>>,
    // The sizes that it was opened with.
    pub(crate) limits: Sizes,
    // The allocator that starting threads uses.
    pub(crate) alloc: Global,
    ghost sizes: { lock.table.shared.key.limits ≡ limits },
}

/// The seat by which a thread submits jobs and reads the numbers. It takes no memory, and any thread may have one.
///
/// ```
/// let mut visitor = pool.visitor();
/// ```
#[derive(Drop)]
pub struct Visitor<W: Drop, H: Record = NoRecord> {
    /// The seat at the lock.
    pub seat: LockSeat<BoxedState<W, H>, Opening<H>, Entry<W>>,
    ghost rest: { (seat.me.0.phase ≡ Idle) × (seat.me.1 ≡ []) },
    ghost rank: { seat.me.0.rank ≡ rank.Visitor },
}

/// The seat by which a thread runs jobs. It takes no memory.
///
/// ```
/// let mut worker = pool.hire(&mut closer);
/// ```
#[derive(Drop)]
pub struct ExecutorWorker<W: Drop, H: Record = NoRecord> {
    /// The seat at the lock.
    pub seat: LockSeat<BoxedState<W, H>, Opening<H>, Entry<W>>,
    ghost rest: { (seat.me.0.phase ≡ Idle) × (seat.me.1 ≡ []) },
    ghost rank: { seat.me.0.rank ≡ rank.Worker },
}

/// The seat that closes and resizes a pool, and hires its workers. There is one, which `open` returns.
///
/// ```
/// let worker = pool.hire(&mut closer);
/// ```
#[derive(Drop)]
pub struct ExecutorCloser<W: Drop, H: Record = NoRecord> {
    /// The seat at the lock.
    pub seat: LockSeat<BoxedState<W, H>, Opening<H>, Entry<W>>,
    ghost rest: { (seat.me.0.phase ≡ Idle) × (seat.me.1 ≡ []) },
    ghost rank: { seat.me.0.rank ≡ rank.Opener },
}
