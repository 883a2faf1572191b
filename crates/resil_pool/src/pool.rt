//! A pool from its opening to its closing.
//!
//! Everything that changes while a pool is used is in its machine, under the lock; the rest is set when it is opened.
//! Opening allocates all the memory that draining will need, and makes every seat: the closer's first, then the
//! callers' with the numbers 1, 2 and so on, then the workers'.

ghost use Rattle.std.specs.Prelude.{◌≡◌, ◌<◌, ◌≤◌, ◌↔◌, ◌+◌, [], true, IfOk, IsErrOf, replicate, vec_capacity};
ghost use Rattle.resil_pool.specs.Words.{IsPrefix, is_closed, IsLegal};
ghost use Rattle.resil_pool.specs.declared.pool.OpenError.TheVariants.{Memory};
ghost use Rattle.resil_pool.specs.Lock.{events_in, closer_view, pool_id, told, IsMoved, WritesAtMost, SeesClosing, WroteCloseAtMost};
ghost use Rattle.resil_pool.specs.Parts.{new_callers, new_worker};

use crate::lock::{Lock, LockSeat, PoolOpening, PoolState, note_if};
use crate::parts::{Caller, Closer, Worker};
use crate::receipt::Receipt;
use resil_admission::{Event, Limits, Machine};
use resil_lock::{BoxedState, Note};
use std::alloc::{AllocError, Global};
use std::marker::Model;
use std::sync::Wait;
use thiserror::Error;

/// The maximum number of callers of a pool.
pub const MAX_CALLERS: u16 = 64;

/// Why a pool wasn't opened.
///
/// ```
/// match open_pool(alloc, limits, 20, count) {
///     Ok((pool, closer, callers, workers)) => serve(pool, closer, callers, workers),
///     Err(OpenError::TooManyCallers) => println!(rt; "at most {MAX_CALLERS} callers")?,
///     Err(OpenError::Memory) => println!(rt; "out of memory")?,
/// }
/// ```
#[derive(Clone, Copy, Debug, PartialEq, Eq, Error)]
pub enum OpenError {
    /// More than 64 callers were requested.
    #[error("there are more than 64 callers")]
    TooManyCallers,
    /// Out of memory.
    #[error("out of memory")]
    Memory,
}

impl From<AllocError> for OpenError {
    ghost from_gives = { λ _ error. error ≡ Memory };

    fn from(_refused: AllocError) -> OpenError {
        OpenError::Memory
    }
}

/// A thread-pool bulkhead that threads share (Resilience4j user guide, Bulkhead, ThreadPoolBulkhead).
///
/// A pool is first open, then closed, then drained. `open_pool` returns an open pool, which accepts jobs by the rule
/// of admission. `Pool::close` closes it for good: it accepts no more jobs, accepted jobs still run, and a worker
/// leaves when no job is left to pick. `drain` takes a pool with all its parts, closes it if it is open, runs what is
/// left, and returns the report; then there is no pool any more.
///
/// ```
/// let (pool, mut closer, mut callers, workers) = open_pool(alloc, limits, 20, 1)?;
/// let mut caller = callers.pop().ok_or_else(|| anyhow!("there is a caller"))?;
/// let ticket = pool.submit(&rt, alloc, &mut caller, job).map_err(|refused| refused.0)?;
/// pool.close(&rt, &mut closer);
/// ```
#[derive(Drop)]
pub struct Pool {
    // The lock over the machine, which has the history and the accepted jobs.
    pub(crate) lock: Lock,
    // The sizes that the pool was opened with, which are the machine's too.
    pub(crate) limits: Limits,
    // How many callers there are. Their numbers are 1 to this number, at most 64.
    pub(crate) callers: u16,
    // A worker asks to end after this many empty polls in a row: at least 1.
    pub(crate) keep_alive: u32,
    // The report's list of receipts: empty, with room for each caller's, so that draining doesn't allocate.
    pub(crate) receipts: Vec<Vec<Receipt>>,
}

impl Model for Pool {
    ghost use Rattle.std.specs.Prelude.{◌≡◌, ◌≤◌, ◌<◌, [], vec_capacity};
    ghost use Rattle.resil_pool.specs.Lock.{pool_id};
    ghost use Rattle.resil_pool.specs.Pool.{PoolView};

    ghost Value = { PoolView };

    ghost view = { λ p. record { source = pool_id p.lock.table.shared.table_id p.lock.table.shared.key; callers = p.callers; keep_alive = p.keep_alive } };

    ghost invariant = { λ p. (p.lock.table.shared.key.limits ≡ p.limits) × (p.lock.table.shared.key.callers ≡ p.callers) × (p.receipts.items ≡ []) × (p.callers ≤ vec_capacity p.receipts) × (p.callers ≤ 64) };
}

/// Opens a pool of these limits with this many callers, numbered from 1, and as many workers as the maximum size.
/// There may be no callers at all. After `keep_alive` empty polls in a row a worker asks to end; 0 means 1.
///
/// Between two empty polls a worker sleeps, unless there is something to do: 1 ms at first, then twice as long each
/// time, and never longer than 64 ms. So it asks to end after 20 empty polls, in about a second, and an idle pool uses
/// almost no processor time. A submission wakes a sleeping worker, and closing wakes them all. That is only tested: no
/// clause says when a worker polls, and a lost wake-up would cost at most 64 ms.
///
/// # Errors
///
/// In this order: `TooManyCallers` if there are more than `MAX_CALLERS`; `Memory` if out of memory.
///
/// ```
/// let limits = Limits::new(1, 4, 100)?;
/// let (pool, closer, callers, workers) = open_pool(alloc, limits, 20, 2)?;
/// assert_eq!(rt; (callers.len(), workers.len()), (2, 4));
/// ```
pub fn open_pool(
    alloc: Global,
    limits: Limits,
    keep_alive: u32,
    callers: u16,
) -> Result<(Pool, Closer, Vec<Caller>, Vec<Worker>), OpenError>
    ensures limits { IfOk result (λ r. r.0.source.limits ≡ limits) }
    ensures number { IfOk result (λ r. r.0.callers ≡ callers) }
    ensures keep_alive { IfOk result (λ r. (1 ≤ keep_alive → r.0.keep_alive ≡ keep_alive) × (keep_alive ≡ 0 → r.0.keep_alive ≡ 1)) }
    ensures closer { IfOk result (λ r. r.1 ≡ new_worker r.0.source) }
    ensures callers { IfOk result (λ r. r.2.items ≡ new_callers r.0.source callers) }
    ensures workers { IfOk result (λ r. r.3.items ≡ replicate limits.max (new_worker r.0.source)) }
    ensures too_many { IsErrOf result OpenError.TooManyCallers ↔ (64 < callers) }
{
    if callers > MAX_CALLERS {
        return Err(OpenError::TooManyCallers);
    }
    let receipts = Vec::with_capacity(alloc, usize::from(callers))?;
    let caller_room = Vec::with_capacity(alloc, usize::from(callers))?;
    let worker_room = Vec::with_capacity(alloc, limits.max() as usize)?;
    let Ok((lock, mut seat)) = make_lock(alloc, PoolOpening { limits, callers }) else {
        return Err(OpenError::Memory);
    };
    let submitters = make_callers(alloc, &lock, &mut seat, caller_room, callers);
    let workers = make_workers(&lock, &mut seat, worker_room, limits.max());
    let pool = Pool {
        lock,
        limits,
        callers,
        keep_alive: keep_alive.max(1),
        receipts,
    };
    Ok((pool, Closer { seat }, submitters, workers))
}

// The lock over a new machine, and the closer's seat.
fn make_lock(alloc: Global, opening: PoolOpening) -> Result<(Lock, LockSeat), AllocError>
    ensures key { IfOk result (λ r. r.0.table.shared.key ≡ opening) }
    ensures seat { IfOk result (λ r. (r.1.table_id ≡ r.0.table.shared.table_id) × (r.1.me ≡ (closer_view opening 1, []))) }
{
    let Ok(machine) = Machine::new(alloc, opening.limits) else {
        return Err(AllocError);
    };
    let last = None;
    let inner = Box::new(alloc, PoolState { machine, last })?;
    resil_lock::Lock::new(alloc, BoxedState { inner }, &opening)
}

// Callers, numbered from 1, in a list with room for them.
fn make_callers(
    alloc: Global,
    lock: &Lock,
    closer: &mut LockSeat,
    mut callers: Vec<Caller>,
    count: u16,
) -> Vec<Caller>
    requires source { closer.old.table_id ≡ lock.now.table.shared.table_id }
    requires closer { closer.old.me ≡ (closer_view lock.now.table.shared.key 1, []) }
    requires room { (callers.items ≡ []) × (count ≤ vec_capacity callers) × (count ≤ 64) }
    requires number { lock.now.table.shared.key.callers ≡ count }
    ensures source { closer.new.table_id ≡ closer.old.table_id }
    ensures closer { closer.new.me ≡ (closer_view lock.now.table.shared.key (1 + count), []) }
    ensures callers { result.items ≡ new_callers (pool_id lock.now.table.shared.table_id lock.now.table.shared.key) count }
{
    for made in 0..count {
        callers.push_reserved(Caller {
            seat: lock.admit(closer),
            number: made + 1,
            receipts: Vec::new(alloc),
        });
    }
    callers
}

// Workers, in a list with room for them.
fn make_workers(
    lock: &Lock,
    closer: &mut LockSeat,
    mut workers: Vec<Worker>,
    count: u32,
) -> Vec<Worker>
    requires source { closer.old.table_id ≡ lock.now.table.shared.table_id }
    requires closer { closer.old.me ≡ (closer_view lock.now.table.shared.key closer.old.me.0.made, []) }
    requires room { (workers.items ≡ []) × (count ≤ vec_capacity workers) }
    ensures source { closer.new.table_id ≡ closer.old.table_id }
    ensures closer { closer.new.me ≡ (closer_view lock.now.table.shared.key closer.new.me.0.made, []) }
    ensures workers { result.items ≡ replicate count (new_worker (pool_id lock.now.table.shared.table_id lock.now.table.shared.key)) }
{
    for _ in 0..count {
        workers.push_reserved(Worker {
            seat: lock.admit(closer),
        });
    }
    workers
}

impl Pool {
    /// Closes the pool, in one turn, and wakes all sleeping workers. Closing it again changes nothing. No other call
    /// closes a pool, except for `drain` and `close_held`.
    pub fn close<R: Wait>(&self, rt: &R, closer: &mut Closer)
        requires { closer.old.source ≡ self.now.source }
        ensures source { closer.new.source ≡ closer.old.source }
        ensures legal { IsLegal closer.old.source.limits (events_in closer.new.seen) }
        ensures begins { IsPrefix closer.old.seen closer.new.seen }
        ensures seen { SeesClosing closer.old.source.limits closer.old.seen closer.new.seen }
        ensures wrote { WroteCloseAtMost closer.old.wrote closer.new.wrote }
        ensures closed { is_closed (events_in closer.new.seen) ≡ true }
    {
        let mut state = self.lock.take(rt, &mut closer.seat);
        state.inner.close();
        self.lock.release(&mut closer.seat, state);
        self.lock.ring_for_all();
    }
}

impl PoolState {
    // Closes the machine, if it is open.
    pub(crate) fn close(&mut self)
        ensures wrote { IsMoved self.old.machine (told self.new) self.new.machine }
        ensures closes { WritesAtMost Event.Close (told self.new) }
        ensures closed { is_closed self.new.machine.history ≡ true }
    {
        let closes = self.machine.close();
        self.last = note_if(closes, Note::Event(Event::Close));
    }
}
