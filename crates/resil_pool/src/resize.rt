//! Changing the sizes of a pool while it runs.
//!
//! A resize is one event of the history. Submissions and idle ends after it follow the new sizes.

ghost use Rattle.std.specs.Prelude.{◌≡◌, ◌↔◌, ◌++◌, ◌∷◌, [], None, map, OnOk, OnErr};
ghost use Rattle.std.specs.Result.{IsErrOf};
ghost use Rattle.resil_rule.specs.Limits.{IsCore, AreSizesWithin};
ghost use Rattle.resil_pool.specs.Lock.{log_event, own_in, SeesMore, told, IsMoved};
ghost use Rattle.resil_pool.specs.Parts.{IsSameCaller, submission_of};
ghost use Rattle.resil_pool.specs.Resize.{SeesResize};

use crate::lock::{PoolState, note_if};
use crate::parts::Caller;
use crate::pool::Pool;
use resil_admission::{AdmitError, Event, Limits};
use resil_lock::Note;
use std::sync::Wait;
use thiserror::Error;

/// Why a pool wasn't resized.
///
/// ```
/// match pool.resize(&rt, &mut caller, core, max) {
///     Ok(()) => println!(rt; "resized")?,
///     Err(ResizeError::Memory) => println!(rt; "out of memory: try again")?,
///     Err(error) => println!(rt; "{error}")?,
/// }
/// ```
#[derive(Clone, Copy, Debug, PartialEq, Eq, Error)]
pub enum ResizeError {
    /// The core size isn't from 1 to 64.
    #[error("the core size is not from 1 to 64")]
    CoreOutOfRange,
    /// The maximum size is below the core size, or above the one that the pool was opened with.
    #[error("the maximum size is not from the core size to the maximum size at the opening")]
    MaxOutOfRange,
    /// Out of memory. The receipts are as they were.
    #[error("out of memory")]
    Memory,
}

impl Pool {
    /// Sets the core size and the maximum size, in workers, from here on, in one turn of the caller's
    /// (ThreadPoolExecutor class documentation, `setCorePoolSize` and `setMaximumPoolSize`, both at once). Making it an
    /// event of the history is our own. It is written even if the sizes stay the same, and even if the pool is closed.
    ///
    /// A resize begins and ends no worker: a worker begins with a submission, and a worker above the core size leaves
    /// by an idle end. So there may be more workers than the maximum size, but never more than the maximum size that
    /// the pool was opened with. The queue's capacity stays, and so do all jobs and receipts. It waits while other
    /// seats hold the lock.
    ///
    /// # Errors
    ///
    /// In this order, with the receipts as they were: `CoreOutOfRange` if the core size isn't from 1 to 64;
    /// `MaxOutOfRange` if the maximum size is below the core size, or above the one that the pool was opened with;
    /// `Memory` if out of memory. A refused resize writes nothing.
    ///
    /// ```
    /// // The pool was opened with Limits::new(1, 4, 100)?.
    /// pool.resize(&rt, &mut caller, 2, 3)?;
    /// ```
    pub fn resize<R: Wait>(
        &self,
        rt: &R,
        caller: &mut Caller,
        core: u32,
        max: u32,
    ) -> Result<(), ResizeError>
        requires { caller.old.source ≡ self.now.source }
        ensures caller { IsSameCaller caller.old caller.new }
        ensures receipts { caller.new.receipts ≡ caller.old.receipts }
        ensures seen { OnOk result (SeesResize caller.old.source.limits caller.old.number caller.old.seen core max caller.new.seen) }
        ensures own { own_in caller.new.number caller.new.seen ≡ map (submission_of caller.new.number) caller.new.receipts }
        ensures wrote { OnOk result (caller.new.wrote ≡ caller.old.wrote ++ log_event None (Event.Resized core max) ∷ []) }
        ensures core { IsErrOf result ResizeError.CoreOutOfRange ↔ ¬ IsCore core }
        ensures max { IsErrOf result ResizeError.MaxOutOfRange ↔ (IsCore core × ¬ AreSizesWithin self.now.source.limits core max) }
        ensures unseen { OnErr result (SeesMore caller.old.source.limits caller.old.number caller.old.seen caller.new.seen) }
        ensures unwritten { OnErr result (caller.new.wrote ≡ caller.old.wrote) }
    {
        let mut state = self.lock.take(rt, &mut caller.seat);
        let answer = state.inner.resize(core, max);
        self.lock.release(&mut caller.seat, state);
        answer
    }
}

impl PoolState {
    // Sets the sizes of the machine. It compares the core size with 64, since nothing here says that the maximum size
    // that the pool was opened with is at most 64.
    fn resize(&mut self, core: u32, max: u32) -> Result<(), ResizeError>
        ensures wrote { IsMoved self.old.machine (told self.new) self.new.machine }
        ensures resized { OnOk result (told self.new ≡ log_event None (Event.Resized core max) ∷ []) }
        ensures nothing { OnErr result (told self.new ≡ []) }
        ensures core { IsErrOf result ResizeError.CoreOutOfRange ↔ ¬ IsCore core }
        ensures max { IsErrOf result ResizeError.MaxOutOfRange ↔ (IsCore core × ¬ AreSizesWithin self.old.machine.limits core max) }
    {
        self.last = None;
        if core < 1 || core > Limits::MAX_WORKERS {
            return Err(ResizeError::CoreOutOfRange);
        }
        match self.machine.resize(core, max) {
            Ok(()) => {
                self.last = note_if(true, Note::Event(Event::Resized { core, max }));
                Ok(())
            }
            Err(AdmitError::MaxOutOfRange) => Err(ResizeError::MaxOutOfRange),
            Err(AdmitError::Memory) => Err(ResizeError::Memory),
            Err(_) => unreachable!(),
        }
    }
}
