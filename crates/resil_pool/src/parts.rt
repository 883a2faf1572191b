//! The parts of a pool, one for each thread that uses it: its callers, its workers and their ends, its closer.
//!
//! Each has a seat of the pool's lock. What a seat has seen of the history, and what its own turns wrote there, is for contracts alone: no running
//! code reads it. Between two calls a seat doesn't hold the lock, what it has seen is legal, and a caller's receipts are its own submissions in what
//! it has seen.

ghost use Rattle.std.specs.Prelude.{◌≡◌};
ghost use Rattle.resil_pool.specs.Parts.{end_of};

use crate::lock::LockSeat;
use crate::receipt::Receipt;
use std::marker::Model;

/// The token with which a pool is closed and drained.
#[derive(Drop)]
pub struct Closer {
    pub(crate) seat: LockSeat,
}

impl Model for Closer {
    ghost use Rattle.resil_pool.specs.Parts.{SeatView, IsCloser, seat_view};

    ghost Value = { SeatView };

    ghost view = { λ c. seat_view c.seat.table_id c.seat.me };

    ghost invariant = { λ c. IsCloser c.seat.me };
}

/// What one thread submits jobs with. It has a number of its own.
///
/// ```
/// let ticket = pool.submit(&rt, alloc, &mut caller, job).map_err(|refused| refused.0)?;
/// println!(rt; "caller {}: {:?}", caller.number(), ticket.reply)?;
/// ```
#[derive(Drop)]
pub struct Caller {
    pub(crate) seat: LockSeat,
    // The seat's number, which is the caller's too.
    pub(crate) number: u16,
    // The replies to the caller's submissions, in their order.
    pub(crate) receipts: Vec<Receipt>,
}

impl Model for Caller {
    ghost use Rattle.resil_pool.specs.Parts.{CallerView, IsCaller, caller_view};

    ghost Value = { CallerView };

    ghost view = { λ c. caller_view c.seat.table_id c.seat.me c.number c.receipts.items };

    ghost invariant = { λ c. IsCaller c.seat.me c.number c.receipts.items };
}

impl Caller {
    /// Returns the caller's number: 1 to the number of callers.
    pub fn number(&self) -> u16
        ensures { result ≡ self.now.number }
    {
        self.number
    }

    /// Returns the replies to the caller's submissions, in their order.
    pub fn receipts(&self) -> &[Receipt]
        ensures { result.now ≡ self.now.receipts }
    {
        self.receipts.as_slice()
    }
}

/// What one thread works with.
#[derive(Drop)]
pub struct Worker {
    pub(crate) seat: LockSeat,
}

impl Model for Worker {
    ghost use Rattle.resil_pool.specs.Lock.{IsSettled};
    ghost use Rattle.resil_pool.specs.Parts.{SeatView, IsWitness, seat_view};

    ghost Value = { SeatView };

    ghost view = { λ w. seat_view w.seat.table_id w.seat.me };

    ghost invariant = { λ w. IsWitness w.seat.me × IsSettled w.seat.me.0.own };
}

impl Worker {
    /// Ends a worker that never worked.
    pub fn unused(self) -> WorkerEnd
        ensures { result ≡ end_of self }
    {
        let Worker { seat } = self;
        WorkerEnd { seat }
    }
}

/// What a worker leaves, which draining its pool needs. No run of it was refused.
///
/// ```
/// pool.close(&rt, &mut closer);
/// let end = pool.work(&rt, worker, &mut passes, &NoHook);
/// let ends = Vec::from_array(alloc, [end])?;
/// let drained = drain(&rt, pool, closer, callers, ends, &mut passes);
/// ```
#[derive(Drop)]
pub struct WorkerEnd {
    pub(crate) seat: LockSeat,
}

impl Model for WorkerEnd {
    ghost use Rattle.resil_pool.specs.Lock.{IsSettled};
    ghost use Rattle.resil_pool.specs.Parts.{EndView, IsWitness, seat_view, end_of};
    ghost use Rattle.resil_pool.specs.EndCode.{end_code};

    ghost Value = { EndView };

    ghost coded = { end_code };

    ghost view = { λ e. end_of (seat_view e.seat.table_id e.seat.me) };

    ghost invariant = { λ e. IsWitness e.seat.me × IsSettled e.seat.me.0.own };
}
