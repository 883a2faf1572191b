//! Jobs in a chain: each call submits one and waits for its answer.

ghost use Rattle.std.specs.Prelude.{◌≡◌, false, IfOk, IfErr, OnOk};
ghost use Rattle.std.specs.Duration.{as_nanos};
ghost use Rattle.resil_clock.specs.Waits.{IsOutOfTime};
ghost use Rattle.resil_executor.specs.declared.no_answer.NoAnswer.TheVariants.{OutOfTime};
ghost use Rattle.resil_executor.specs.Turn.{SeesRefusal};
ghost use Rattle.resil_executor.specs.Seats.{limits_of, new_visitor, IsOf, known_to};
ghost use Rattle.resil_executor.specs.Dispatch.{is_refused, SeesItAccepted, SeesNoAnswer, WasSubmitted, WasUnanswered};

use crate::executor::{Executor, Visitor};
use crate::no_answer::NoAnswer;
use crate::state::Refused;
use resil_clock::Reads;
use resil_rule::Record;
use resil_task::by_hand::Task;
use resil_task::{Answers, Pending};
use std::alloc::Global;
use std::sync::Wait;
use std::time::Duration;

impl<X: Answers, H: Record> Executor<Task<X>, H> {
    /// Submits a job, in one turn, and waits for its answer for at most `longest` (Resilience4j user guide, Decorators:
    /// `withThreadPoolBulkhead`). In a closure it is a call, and each attempt submits a job of its own. A job whose answer comes too late is
    /// run all the same. Some visitor saw what the clauses say, and its pool need not be this one; `submit_within_by` takes a visitor of this pool.
    ///
    /// # Errors
    ///
    /// In this order: `Refused` if the pool refuses the job, with the reason; `OutOfTime` if no answer came in time or the clock couldn't
    /// be read; `Unrun` if the job was dropped without a run.
    ///
    /// ```
    /// let ask = || prices.submit_within(&rt, alloc, PriceOf { item: 7 }, longest);
    /// let price: u32 = FromFn(ask).retried(&policy, Sleep::new(&rt)).or_else(|_none| 0).call();
    /// ```
    pub fn submit_within<R: Wait + Reads>(
        &self,
        rt: &R,
        alloc: Global,
        work: X,
        longest: Duration,
    ) -> Result<X::Output, NoAnswer>
        requires can { X.CanRun work }
        ensures answered { IfOk result (X.IsAnswer work) }
        ensures accepted { OnOk result (WasSubmitted (limits_of self.now) (new_visitor self.now) work) }
        ensures none { IfErr result (WasUnanswered (limits_of self.now) (new_visitor self.now) work) }
        ensures out_of_time { IfErr result (λ none. none ≡ OutOfTime → IsOutOfTime (R.HasSaid rt.now) (as_nanos longest)) }
    {
        let mut visitor = self.visitor();
        self.submit_within_by(rt, alloc, &mut visitor, work, longest)
    }

    /// The same with your own visitor, which has then seen the submission.
    ///
    /// # Errors
    ///
    /// The errors of `submit_within`, in the same order.
    ///
    /// ```
    /// let mut visitor = prices.visitor();
    /// let price = prices.submit_within_by(&rt, alloc, &mut visitor, PriceOf { item: 7 }, longest);
    /// ```
    pub fn submit_within_by<R: Wait + Reads>(
        &self,
        rt: &R,
        alloc: Global,
        visitor: &mut Visitor<Task<X>, H>,
        work: X,
        longest: Duration,
    ) -> Result<X::Output, NoAnswer>
        requires mine { IsOf self.now visitor.old.seat }
        requires can { X.CanRun work }
        ensures mine { IsOf self.now visitor.new.seat }
        ensures answered { IfOk result (X.IsAnswer work) }
        ensures accepted { OnOk result (SeesItAccepted (limits_of self.now) (known_to visitor.old.seat) work (known_to visitor.new.seat)) }
        ensures none { IfErr result (SeesNoAnswer (limits_of self.now) (known_to visitor.old.seat) work (known_to visitor.new.seat)) }
        ensures out_of_time { IfErr result (λ none. none ≡ OutOfTime → IsOutOfTime (R.HasSaid rt.now) (as_nanos longest)) }
    {
        match self.submit_awaited(rt, alloc, visitor, work, longest) {
            Ok(awaited) => awaited.answer(rt),
            Err(refused) => Err(NoAnswer::Refused(refused)),
        }
    }

    // Submits a job and returns what waits for its answer, for at most `longest`.
    fn submit_awaited<R: Wait>(
        &self,
        rt: &R,
        alloc: Global,
        visitor: &mut Visitor<Task<X>, H>,
        work: X,
        longest: Duration,
    ) -> Result<Awaited<X>, Refused>
        requires mine { IsOf self.now visitor.old.seat }
        requires can { X.CanRun work }
        ensures mine { IsOf self.now visitor.new.seat }
        ensures work { IfOk result (λ awaited. awaited.pending ≡ work) }
        ensures longest { IfOk result (λ awaited. awaited.longest ≡ longest) }
        ensures accepted { OnOk result (SeesItAccepted (limits_of self.now) (known_to visitor.old.seat) work (known_to visitor.new.seat)) }
        ensures refused { IfErr result (λ why. SeesRefusal (limits_of self.now) (known_to visitor.old.seat) why (known_to visitor.new.seat)) }
    {
        match self.submit_by(rt, alloc, visitor, work) {
            Ok((_id, pending)) => Ok(Awaited { pending, longest }),
            Err((refused, _work)) => Err(refused),
        }
    }
}

// What waits for an answer, and for how long at most.
#[derive(Drop)]
struct Awaited<X: Answers> {
    pending: Pending<X>,
    longest: Duration,
}

impl<X: Answers> Awaited<X> {
    // Waits for the answer.
    fn answer<R: Wait + Reads>(self, rt: &R) -> Result<X::Output, NoAnswer>
        ensures answered { IfOk result (X.IsAnswer self.pending) }
        ensures none { IfErr result (λ none. is_refused none ≡ false) }
        ensures out_of_time { IfErr result (λ none. none ≡ OutOfTime → IsOutOfTime (R.HasSaid rt.now) (as_nanos self.longest)) }
    {
        match self.pending.wait_for(rt, self.longest) {
            Ok(Ok(answer)) => Ok(answer),
            Ok(Err(_work)) => Err(NoAnswer::Unrun),
            Err(_pending) => Err(NoAnswer::OutOfTime),
        }
    }
}
