//! Submitting a job.
//!
//! All memory that a submission needs outside of the machine is allocated before its turn: room for the receipt, and a
//! copy of the plan. So a submission that was written always has its receipt.

ghost use Rattle.std.specs.Prelude.{◌≡◌, ◌↔◌, ◌+◌, ◌<◌, ◌++◌, ◌∷◌, [], Some, length, map, IfOk, IfErr, IsTrue, OnErr, vec_capacity};
ghost use Rattle.resil_rule.specs.History.{is_submit_of};
ghost use Rattle.resil_pool.specs.Hold.{submitter};
ghost use Rattle.resil_pool.specs.Lock.{own_in, SeesMore, SeesOwn, told};
ghost use Rattle.resil_pool.specs.Submit.{AnswersSubmission};
ghost use Rattle.resil_pool.specs.Parts.{IsSameCaller, receipt_of, submission_of};

use crate::lock::{PlanSeen, PoolState, Written};
use crate::parts::Caller;
use crate::pool::Pool;
use crate::receipt::{Receipt, Ticket};
use resil_admission::{AdmitError, Event, Id, Reply};
use resil_decor::{Job, Plan};
use resil_lock::Note;
use std::alloc::Global;
use std::sync::Wait;
use thiserror::Error;

/// Why a job wasn't submitted.
///
/// ```
/// match pool.submit(&rt, alloc, &mut caller, job) {
///     Ok(ticket) => println!(rt; "{:?}", ticket.reply)?,
///     Err((SubmitError::Memory, _job)) => println!(rt; "out of memory")?,
/// }
/// ```
#[derive(Clone, Copy, Debug, PartialEq, Eq, Error)]
pub enum SubmitError {
    /// Out of memory. The pool and the receipts are as they were.
    #[error("out of memory")]
    Memory,
}

impl Pool {
    /// Submits a job under the caller's next number, in one turn, and replies by the rule of admission
    /// (`Rule::next_reply`; ThreadPoolExecutor class documentation). On `Core` and `Extra` a new worker is started for
    /// the job, on `Queued` it waits for a worker, on `Full` and `Closed` it is dropped.
    ///
    /// The receipt is added to the caller's, whatever the reply. It waits while other seats hold the lock. If there is
    /// then a job to pick and all workers sleep, it wakes one.
    ///
    /// # Errors
    ///
    /// `Memory` if out of memory; the job is returned, and the caller's next number stays the same.
    ///
    /// ```
    /// let ticket = pool.submit(&rt, alloc, &mut caller, job).map_err(|refused| refused.0)?;
    /// assert_eq!(rt; ticket.number, caller.receipts().len() as u64);
    /// ```
    pub fn submit<R: Wait>(
        &self,
        rt: &R,
        alloc: Global,
        caller: &mut Caller,
        job: Job,
    ) -> Result<Ticket, (SubmitError, Job)>
        requires { caller.old.source ≡ self.now.source }
        ensures caller { IsSameCaller caller.old caller.new }
        ensures number { IfOk result (λ ticket. ticket.number ≡ length caller.old.receipts + 1) }
        ensures receipt { IfOk result (λ ticket. caller.new.receipts ≡ caller.old.receipts ++ receipt_of ticket job ∷ []) }
        ensures seen { IfOk result (λ ticket. SeesOwn caller.old.source.limits caller.old.number caller.old.seen (submission_of caller.old.number (receipt_of ticket job)) caller.new.seen) }
        ensures own { own_in caller.new.number caller.new.seen ≡ map (submission_of caller.new.number) caller.new.receipts }
        ensures wrote { IfOk result (λ ticket. caller.new.wrote ≡ caller.old.wrote ++ submission_of caller.old.number (receipt_of ticket job) ∷ []) }
        ensures refused { IfErr result (λ e. e.0 ≡ SubmitError.Memory) }
        ensures unchanged { OnErr result (caller.new.receipts ≡ caller.old.receipts) }
        ensures unseen { OnErr result (SeesMore caller.old.source.limits caller.old.number caller.old.seen caller.new.seen) }
        ensures unwritten { OnErr result (caller.new.wrote ≡ caller.old.wrote) }
        ensures job_back { IfErr result (λ e. e.1 ≡ job) }
    {
        if caller.receipts.reserve(1).is_err() {
            return Err((SubmitError::Memory, job));
        }
        let Ok(plan) = job.plan().copy(alloc) else {
            return Err((SubmitError::Memory, job));
        };
        let number = caller.receipts.len() as u64 + 1;
        let id = Id {
            caller: caller.number,
            number,
        };
        let mut state = self.lock.take(rt, &mut caller.seat);
        let answer = state.inner.submit(alloc, id, job);
        self.lock.release(&mut caller.seat, state);
        self.lock.ring();
        match answer {
            Ok(reply) => Ok(keep_receipt(&mut caller.receipts, number, reply, plan)),
            Err((error, job)) => {
                drop(plan);
                Err((memory_of(error), job))
            }
        }
    }
}

impl PoolState {
    // Submits the job to the machine, and notes what was written, with the plan.
    fn submit(&mut self, alloc: Global, id: Id, job: Job) -> Result<Reply, (AdmitError, Job)>
        ensures { AnswersSubmission self.old.machine id job result (told self.new) self.new.machine }
    {
        let plan = PlanSeen::of(job.plan());
        self.last = None;
        match self.machine.submit(alloc, id, job) {
            Ok(reply) => {
                self.last = Some(Written {
                    note: Note::Event(Event::Submit { id, reply }),
                    plan: Some(plan),
                });
                Ok(reply)
            }
            Err(refused) => Err(refused),
        }
    }
}

// Adds the receipt of a submission, for which there is room, and returns its ticket.
fn keep_receipt(receipts: &mut Vec<Receipt>, number: u64, reply: Reply, plan: Plan) -> Ticket
    requires { length receipts.old.items < vec_capacity receipts.old }
    ensures kept { receipts.new.items ≡ receipts.old.items ++ receipt_of result plan ∷ [] }
    ensures ticket { result ≡ record { number = number; reply = reply } }
{
    receipts.push_reserved(Receipt {
        number,
        reply,
        plan,
    });
    Ticket { number, reply }
}

// A submission with its caller's next number can be refused for only one reason.
fn memory_of(error: AdmitError) -> SubmitError
    requires { error ≡ AdmitError.Memory }
    ensures { result ≡ SubmitError.Memory }
{
    match error {
        AdmitError::Memory => SubmitError::Memory,
        _ => unreachable!(),
    }
}

// Whether the event is a submission of this caller.
pub(crate) fn is_submission_of(event: &Event, caller: u16) -> bool
    ensures names { IsTrue result ↔ (submitter event.now ≡ Some caller) }
    ensures passes { result ≡ is_submit_of caller event.now }
{
    match event {
        Event::Submit { id, .. } => id.caller == caller,
        Event::Take(_) | Event::Finish(_) | Event::IdleEnd | Event::Close | Event::Resized { .. } =>
            false,
    }
}
