//! The callers of a batch, each on a thread of its own.
//!
//! Each thread promises that its caller submitted the caller's rows, in row order. All threads that were started are
//! joined, even if one couldn't be started.

ghost use Rattle.std.specs.Prelude.{◌≡◌, ◌≤◌, [], All, IfOk, OnOk, length, map, vec_capacity};
ghost use Rattle.std.specs.List.{range_with_len};
ghost use Rattle.resil_workers.specs.Batch.Submit.{AreCallers, ReceiptsMatchRows};
ghost use Rattle.resil_workers.specs.Batch.CallerThreads.{HasSubmitted, PromisesRowsOf};

use crate::batch::error::BatchError;
use crate::batch::shared::Batch;
use crate::batch::submit::{Submitted, submit_own};
use resil_pool::{Caller, Hook, JobRow, Pool};
use std::alloc::Global;
use std::snapshot::Snapshot;
use std::sync::Wait;
use std::thread::{Promise, PromisedHandle, Scope, Threads};

/// What the thread of a caller promises: that the caller submitted its rows, in row order.
#[derive(Drop)]
pub(crate) struct SubmitPromise<'r> {
    caller: Snapshot<Caller>,
    rows: &'r [JobRow],
}

impl<'r> Promise<Submitted> for SubmitPromise<'r> {
    ghost use Rattle.resil_workers.specs.Batch.CallerThreads.{HasSubmitted};

    ghost kept_by = { λ p sent. HasSubmitted p.rows.now p.caller.value sent };
}

// Starts a thread for each caller, up to the first one that can't be started.
fn start_callers<'s, E: 's, R: Threads + Wait + Sync, H: Hook + Sync>(
    scope: &'s Scope<'s, E>,
    batch: &Batch<'s, R, H>,
    pool: &'s Pool,
    callers: Vec<Caller>,
    mut threads: Vec<PromisedHandle<Submitted, SubmitPromise<'s>>>,
) -> (
    Vec<PromisedHandle<Submitted, SubmitPromise<'s>>>,
    Result<(), BatchError>,
)
    requires callers { All (λ c. (c.source ≡ pool.now.source) × (c.receipts ≡ [])) callers.items }
    requires room { (threads.items ≡ []) × (length callers.items ≤ vec_capacity threads) }
    ensures few { length result.0.items ≤ length callers.items }
    ensures sending { All (λ t. PromisesRowsOf batch.now.rows.now pool.entry.now.source t.promise.rows.now t.promise.caller.value) result.0.items }
    ensures numbers { OnOk result.1 (map (λ t. t.promise.caller.value.number) result.0.items ≡ map (λ c. c.number) callers.items) }
{
    let rt = batch.rt;
    let alloc = batch.alloc;
    let rows = batch.rows;
    for caller in callers {
        let promise = SubmitPromise {
            caller: Snapshot::of(&caller),
            rows,
        };
        match scope.spawn_with(
            promise,
            move || -> Submitted
                requires { caller.source ≡ pool.now.source }
                ensures { HasSubmitted rows.entry.now caller result }
            {
                let mut caller = caller;
                let outcome = submit_own(rt, alloc, pool, &mut caller, rows);
                Submitted { caller, outcome }
            },
        ) {
            Ok(thread) => threads.push_reserved(thread),
            Err(_refused) => return (threads, Err(BatchError::Thread)),
        }
    }
    (threads, Ok(()))
}

// Each caller submits its rows, in row order, on a thread of its own. All these threads are joined. Errors: `Thread`
// if one can't be started, `Memory`.
pub(crate) fn submit_on_threads<'s, E: 's, R: Threads + Wait + Sync, H: Hook + Sync>(
    scope: &'s Scope<'s, E>,
    batch: &Batch<'s, R, H>,
    pool: &'s Pool,
    callers: Vec<Caller>,
) -> Result<Vec<Caller>, BatchError>
    requires { All (λ c. (c.source ≡ pool.now.source) × (c.receipts ≡ [])) callers.items }
    ensures sources { IfOk result (λ sent. All (λ c. c.source ≡ pool.entry.now.source) sent.items) }
    ensures numbers { IfOk result (λ sent. map (λ c. c.number) sent.items ≡ map (λ c. c.number) callers.items) }
    ensures told { IfOk result (λ sent. ReceiptsMatchRows batch.now.rows.now sent.items) }
{
    let room = Vec::with_capacity(batch.alloc, callers.len())?;
    let mut sent = Vec::with_capacity(batch.alloc, callers.len())?;
    let (threads, started) = start_callers(scope, batch, pool, callers, room);
    let mut out_of_memory = false;
    for thread in threads {
        let Submitted { caller, outcome } = thread.join(batch.rt);
        sent.push_reserved(caller);
        out_of_memory |= outcome.is_err();
    }
    if out_of_memory {
        return Err(BatchError::Memory);
    }
    started?;
    Ok(sent)
}
