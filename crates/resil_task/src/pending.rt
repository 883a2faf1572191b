//! The future of a job's answer.

ghost use Rattle.std.specs.Prelude.{◌≡◌, IfOk, IfErr, MatchResult};
ghost use Rattle.std.specs.Duration.{as_nanos};
ghost use Rattle.resil_clock.specs.Waits.{IsOutOfTime};

use crate::ends::Receiver;
use crate::task::Answered;
use crate::work::Answers;
use resil_clock::Reads;
use std::marker::Model;
use std::sync::Wait;
use std::time::Duration;

/// A blocking future of the answer of a job, which comes once. It may be dropped at any time: the job
/// runs all the same. Contracts see the job.
///
/// ```
/// match pending.wait(&rt) {
///     Ok(price) => show(price),
///     Err(work) => ask_again(work),
/// }
/// ```
#[derive(Drop)]
pub struct Pending<W: Answers> {
    receiver: Receiver<Answered<W>>,
}

impl<W: Answers> Model for Pending<W> {
    ghost Value = { W };

    ghost view = { λ pending. pending.receiver };
}

impl<W: Answers> Pending<W> {
    // Makes the future of what a task sends.
    pub(crate) fn new(receiver: Receiver<Answered<W>>) -> Pending<W>
        ensures { result ≡ receiver }
    {
        Pending { receiver }
    }

    // Returns the receiver that the task sends to.
    pub(crate) fn into_receiver(self) -> Receiver<Answered<W>>
        ensures { result ≡ self }
    {
        let Pending { receiver } = self;
        receiver
    }

    /// Waits for the answer (Resilience4j user guide, ThreadPoolBulkhead: `CompletionStage`).
    ///
    /// # Errors
    /// The job, if it was dropped without a run.
    ///
    /// ```
    /// let price = pending.wait(&rt).ok();
    /// ```
    pub fn wait<R: Wait>(self, rt: &R) -> Result<W::Output, W>
        ensures { MatchResult result (λ answer. W.IsAnswer self answer) (λ back. back ≡ self) }
    {
        self.receiver.wait(rt).0
    }

    /// Waits for at most `duration`.
    ///
    /// # Errors
    /// The future itself, if nothing came in that time, or if the clock couldn't be read and nothing is
    /// there. You can wait for it again.
    ///
    /// ```
    /// match pending.wait_for(&rt, Duration::from_millis(200)) {
    ///     Ok(answer) => show(answer),
    ///     Err(pending) => later.push(pending)?,
    /// }
    /// ```
    pub fn wait_for<R: Wait + Reads>(
        self,
        rt: &R,
        duration: Duration,
    ) -> Result<Result<W::Output, W>, Pending<W>>
        ensures fits { IfOk result (λ came. MatchResult came (λ answer. W.IsAnswer self answer) (λ back. back ≡ self)) }
        ensures back { IfErr result (λ pending. pending ≡ self) }
        ensures out_of_time { IfErr result (λ _. IsOutOfTime (R.HasSaid rt.now) (as_nanos duration)) }
    {
        match self.receiver.wait_for(rt, duration) {
            Ok(answered) => Ok(answered.0),
            Err(receiver) => Err(Pending { receiver }),
        }
    }

    /// Returns what came, if it is there. It never waits.
    ///
    /// # Errors
    /// The future itself, if nothing has come yet.
    ///
    /// ```
    /// match pending.try_take() {
    ///     Ok(answer) => show(answer),
    ///     Err(pending) => later.push(pending)?,
    /// }
    /// ```
    pub fn try_take(self) -> Result<Result<W::Output, W>, Pending<W>>
        ensures fits { IfOk result (λ came. MatchResult came (λ answer. W.IsAnswer self answer) (λ back. back ≡ self)) }
        ensures back { IfErr result (λ pending. pending ≡ self) }
    {
        match self.receiver.try_take() {
            Ok(answered) => Ok(answered.0),
            Err(receiver) => Err(Pending { receiver }),
        }
    }
}
