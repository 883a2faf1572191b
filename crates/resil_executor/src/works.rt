//! Jobs that answer: one call submits a job, and one waits for its answer.
ghost use Rattle.std.specs.Prelude.{◌≡◌, IfOk, IfErr};
ghost use Rattle.resil_rule.specs.declared.event.Reply.{Reply as AReply};
ghost use Rattle.resil_executor.specs.Turn.{SeesAccepted, SeesRefusal};
ghost use Rattle.resil_executor.specs.Seats.{limits_of, new_visitor, IsOf, known_to};

use crate::executor::{Executor, Visitor};
use crate::seen::Seen;
use crate::state::Refused;
use resil_rule::{Id, NoRecord, Record};
use resil_task::by_hand::Task;
use resil_task::{Answers, Pending};
use std::alloc::Global;
use std::sync::Wait;

/// A pool of threads for jobs that answer, each a `Work` or a `WorkAt`. Threads share it by `&`. `H` is the record of its
/// history, as for `Executor`.
///
/// ```
/// let (prices, closer) = WorkPool::open(alloc, Sizes::new(2, 4, 100)?, NoRecord)?;
/// let ended = work_while(&rt, &prices, closer, 20, || {
///     let (_id, price) = prices.submit(&rt, alloc, PriceOf { item: 7 }).ok()?;
///     price.wait(&rt).ok()
/// });
/// ```
pub type WorkPool<W, H = NoRecord> = Executor<Task<W>, H>;

impl<X: Answers, H: Record> Executor<Task<X>, H> {
    /// Submits a job, in one turn. Returns its number and the `Pending` that waits for its answer (Resilience4j user guide, ThreadPoolBulkhead:
    /// `executeSupplier`). The number, or a refusal, comes with the call's own visitor, which saw it; `submit_by` takes a visitor of yours.
    ///
    /// # Errors
    ///
    /// In this order, each with the job handed back: `Memory` if out of memory for the answer, and then the errors of `submit_job`.
    ///
    /// ```
    /// match prices.submit(&rt, alloc, PriceOf { item: 7 }) {
    ///     Ok((_id, pending)) => show(pending.wait(&rt)),
    ///     Err((refused, work)) => keep(refused.into_value(), work),
    /// }
    /// ```
    pub fn submit<R: Wait>(
        &self,
        rt: &R,
        alloc: Global,
        work: X,
    ) -> Result<(Seen<Id, Task<X>, H>, Pending<X>), (Seen<Refused, Task<X>, H>, X)>
        requires can { X.CanRun work }
        ensures mine { IfOk result (λ r. IsOf self.now r.0.visitor.seat) }
        ensures mine_too { IfErr result (λ e. IsOf self.now e.0.visitor.seat) }
        ensures pending { IfOk result (λ r. r.1 ≡ work) }
        ensures accepted { IfOk result (λ r. (reply : AReply) × SeesAccepted (limits_of self.now) (new_visitor self.now) r.0.value reply work (known_to r.0.visitor.seat)) }
        ensures own { IfOk result (λ r. r.0.value.caller ≡ 1) }
        ensures refused { IfErr result (λ e. SeesRefusal (limits_of self.now) (new_visitor self.now) e.0.value (known_to e.0.visitor.seat)) }
        ensures work_back { IfErr result (λ e. e.1 ≡ work) }
    {
        let mut visitor = self.visitor();
        match self.submit_by(rt, alloc, &mut visitor, work) {
            Ok((value, pending)) => Ok((Seen { value, visitor }, pending)),
            Err((value, work)) => Err((Seen { value, visitor }, work)),
        }
    }

    /// The same with your own visitor, which has then seen the submission: only a turn at this pool can have shown it.
    ///
    /// # Errors
    ///
    /// The errors of `submit`, in the same order.
    ///
    /// ```
    /// let mut visitor = prices.visitor();
    /// match prices.submit_by(&rt, alloc, &mut visitor, PriceOf { item: 7 }) {
    ///     Ok((_id, pending)) => show(pending.wait(&rt)),
    ///     Err((refused, work)) => keep(refused, work),
    /// }
    /// ```
    pub fn submit_by<R: Wait>(
        &self,
        rt: &R,
        alloc: Global,
        visitor: &mut Visitor<Task<X>, H>,
        work: X,
    ) -> Result<(Id, Pending<X>), (Refused, X)>
        requires mine { IsOf self.now visitor.old.seat }
        requires can { X.CanRun work }
        ensures mine { IsOf self.now visitor.new.seat }
        ensures pending { IfOk result (λ r. r.1 ≡ work) }
        ensures accepted { IfOk result (λ r. (reply : AReply) × SeesAccepted (limits_of self.now) (known_to visitor.old.seat) r.0 reply work (known_to visitor.new.seat)) }
        ensures own { IfOk result (λ r. r.0.caller ≡ 1) }
        ensures refused { IfErr result (λ e. SeesRefusal (limits_of self.now) (known_to visitor.old.seat) e.0 (known_to visitor.new.seat)) }
        ensures work_back { IfErr result (λ e. e.1 ≡ work) }
    {
        match Task::new(alloc, work) {
            Ok((task, pending)) => match self.submit_job(rt, visitor, task) {
                Ok((id, _reply)) => Ok((id, pending)),
                Err((refused, task)) => Err((refused, task.into_work(pending))),
            },
            Err((_error, work)) => Err((Refused::Memory, work)),
        }
    }
}
