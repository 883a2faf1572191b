//! How the rows of a batch are submitted: each by the caller that it names, in row order.

ghost use Rattle.std.specs.Prelude.{◌≡◌, ◌++◌, ◌∷◌, ◌↔◌, [], All, IsTrue, OnOk, length};
ghost use Rattle.resil_pool.specs.Parts.{IsSameCaller};
ghost use Rattle.resil_workers.specs.Batch.Submit.{AreCallers, ReceiptsMatchRows, IsFrom, plans_of, plans_on_receipts};

use crate::batch::row_jobs::RowJobs;
use resil_decor::Plan;
use resil_pool::{Caller, JobRow, Pool, SubmitError};
use std::alloc::Global;
use std::sync::Wait;

/// A caller after it submitted its rows, or those before the first one that was refused.
#[derive(Drop)]
pub(crate) struct Submitted {
    pub(crate) caller: Caller,
    pub(crate) outcome: Result<(), SubmitError>,
}

// Whether each row names a caller from 1 to `callers`.
pub(crate) fn all_from(rows: &[JobRow], callers: u16) -> bool
    ensures { IsTrue result ↔ All (IsFrom callers) rows.now }
{
    rows.iter()
        .all(|row| 1 <= row.caller && row.caller <= callers)
}

// Submits the job of the next row, which has this plan.
fn submit_next<R: Wait>(
    rt: &R,
    alloc: Global,
    pool: &Pool,
    caller: &mut Caller,
    jobs: &mut RowJobs,
    plan: &Plan,
) -> Result<(), SubmitError>
    requires { caller.old.source ≡ pool.now.source }
    ensures same { IsSameCaller caller.old caller.new }
    ensures told { OnOk result (plans_on_receipts caller.new ≡ plans_on_receipts caller.old ++ plan.now ∷ []) }
{
    let Ok(job) = jobs.next(alloc, plan) else {
        return Err(SubmitError::Memory);
    };
    match pool.submit(rt, alloc, caller, job) {
        Ok(_ticket) => Ok(()),
        Err((error, _job)) => Err(error),
    }
}

// Submits the rows of one caller, in row order.
pub(crate) fn submit_own<R: Wait>(
    rt: &R,
    alloc: Global,
    pool: &Pool,
    caller: &mut Caller,
    rows: &[JobRow],
) -> Result<(), SubmitError>
    requires { caller.old.source ≡ pool.now.source }
    ensures same { IsSameCaller caller.old caller.new }
    ensures told { OnOk result (plans_on_receipts caller.new ≡ plans_on_receipts caller.old ++ plans_of rows.now caller.old.number) }
{
    let mut jobs = RowJobs::new();
    for row in rows {
        if row.caller != caller.number() {
            continue;
        }
        submit_next(rt, alloc, pool, caller, &mut jobs, &row.plan)?;
    }
    Ok(())
}

// Submits all rows in their order, each by its caller.
pub(crate) fn submit_in_order<R: Wait>(
    rt: &R,
    alloc: Global,
    pool: &Pool,
    callers: &mut Vec<Caller>,
    rows: &[JobRow],
) -> Result<(), SubmitError>
    requires callers { AreCallers pool.now.source callers.old.items }
    requires new { All (λ c. c.receipts ≡ []) callers.old.items }
    requires rows { All (IsFrom (length callers.old.items)) rows.now }
    ensures number { length callers.new.items ≡ length callers.old.items }
    ensures callers { AreCallers pool.now.source callers.new.items }
    ensures told { OnOk result (ReceiptsMatchRows rows.now callers.new.items) }
{
    let mut jobs = RowJobs::new();
    for row in rows {
        let caller = &mut callers[usize::from(row.caller) - 1];
        submit_next(rt, alloc, pool, caller, &mut jobs, &row.plan)?;
    }
    Ok(())
}
