//! The calls of a pool: each is one turn at the state under its lock.
ghost use Rattle.std.specs.Prelude.{◌≡◌, ◌≤◌, ◌<◌, ◌+◌, [], true, length, IfOk, IfErr, OnOk, OnErr};
ghost use Rattle.std.specs.Bool.{OnTrue, OnFalse};
ghost use Rattle.std.specs.Duration.{as_nanos};
ghost use Rattle.resil_rule.specs.History.{is_closed, submissions};
ghost use Rattle.resil_rule.specs.Sizes.{IsRefusedResize};
ghost use Rattle.resil_rule.specs.RuleView.{is_acceptance};
ghost use Rattle.resil_executor.specs.Log.{events_in};
ghost use Rattle.resil_executor.specs.Joining.{IsLook, HasJoinedBy, HasJoinedSince};
ghost use Rattle.resil_executor.specs.Kept.{LacksRoom};
ghost use Rattle.resil_executor.specs.Turn.{SeesLast, SeesMore, SeesAccepted, SeesRefusal, AreNumbersAfter, AllFinished};
ghost use Rattle.resil_executor.specs.Seats.{limits_of, blank_of, new_visitor, IsAt, IsOf, known_to, HasHired};

use crate::executor::{Executor, ExecutorCloser, ExecutorWorker, Visitor};
use crate::opening::Opening;
use crate::seen::Seen;
use crate::state::{BoxedState, Numbers, Refused, State};
use resil_clock::{Reads, TimeLeft};
use resil_lock::Lock;
use resil_rule::{AdmitError, Event, Id, Record, Reply, Sizes};
use std::alloc::Global;
use std::snapshot::Snapshot;
use std::sync::Wait;
use std::thread;
use std::time::{Clock, Duration};

impl<W: Drop, H: Record> Executor<W, H> {
    /// An open pool of these sizes, with a record of no events yet, and its closer. It takes all its memory here, except for the record of all
    /// events, which grows by each submission and resize, and for the handles of threads (`work_while`).
    ///
    /// # Errors
    ///
    /// `Memory` if out of memory.
    pub fn open(
        alloc: Global,
        limits: Sizes,
        blank: H,
    ) -> Result<(Executor<W, H>, ExecutorCloser<W, H>), AdmitError>
        requires blank { H.IsRecordOf [] blank }
        ensures limits { IfOk result (λ r. limits_of r.0 ≡ limits) }
        ensures record { IfOk result (λ r. blank_of r.0 ≡ blank) }
        ensures closer { IfOk result (λ r. IsOf r.0 r.1.seat) }
        ensures blank { IfOk result (λ r. ((known_to r.1.seat).seen ≡ []) × ((known_to r.1.seat).own ≡ [])) }
        ensures memory { IfErr result (λ e. e ≡ AdmitError.Memory) }
    {
        let opening = Opening {
            limits,
            blank: Snapshot::of(&blank),
        };
        let state = State::new(alloc, limits, blank)?;
        let Ok(inner) = Box::new(alloc, state) else {
            return Err(AdmitError::Memory);
        };
        let (lock, seat) = Lock::new(alloc, BoxedState { inner }, &opening)?;
        let pool = Executor {
            lock,
            limits,
            alloc,
        };
        Ok((pool, ExecutorCloser { seat }))
    }

    /// The sizes that it was opened with.
    pub fn limits(&self) -> Sizes
        ensures { result ≡ limits_of self.now }
    {
        self.limits
    }

    /// A worker of this pool, which has seen nothing yet. The closer counts it.
    pub fn hire(&self, closer: &mut ExecutorCloser<W, H>) -> ExecutorWorker<W, H>
        requires { IsAt self.now closer.old.seat }
        ensures closer { HasHired closer.old.seat closer.new.seat }
        ensures source { IsAt self.now result.seat }
        ensures limits { (known_to result.seat).key ≡ (known_to closer.old.seat).key }
        ensures blank { ((known_to result.seat).seen ≡ []) × ((known_to result.seat).own ≡ []) }
    {
        ExecutorWorker {
            seat: self.lock.hire(&mut closer.seat),
        }
    }

    /// A visitor, which has seen nothing yet.
    pub fn visitor(&self) -> Visitor<W, H>
        ensures source { IsAt self.now result.seat }
        ensures blank { known_to result.seat ≡ new_visitor self.now }
    {
        Visitor {
            seat: self.lock.seat(),
        }
    }

    /// Submits anything that the pool runs, in one turn, under the pool's own next number, and wakes a worker that
    /// sleeps. A `WorkPool` has `submit`, for jobs that answer.
    ///
    /// # Errors
    ///
    /// In this order, each with the job handed back: `Spent` if no more submissions can be counted, and only then; `Memory` if the
    /// record has no room and it is out of memory; `Closed` and `Full` by the rule of admission (`Rule::next_reply`).
    ///
    /// ```
    /// match pool.submit_job(&rt, &mut visitor, work) {
    ///     Ok((id, reply)) => println!(rt; "job {}: {reply:?}", id.number)?,
    ///     Err((refused, work)) => keep(refused, work),
    /// }
    /// ```
    pub fn submit_job<R: Wait>(
        &self,
        rt: &R,
        visitor: &mut Visitor<W, H>,
        work: W,
    ) -> Result<(Id, Reply), (Refused, W)>
        requires mine { IsOf self.now visitor.old.seat }
        ensures mine { IsOf self.now visitor.new.seat }
        ensures accepted { IfOk result (λ r. SeesAccepted (limits_of self.now) (known_to visitor.old.seat) r.0 r.1 work (known_to visitor.new.seat)) }
        ensures refused { IfErr result (λ e. SeesRefusal (limits_of self.now) (known_to visitor.old.seat) e.0 (known_to visitor.new.seat)) }
        ensures memory { IfErr result (λ e. e.0 ≡ Refused.Memory → LacksRoom H.HasRoom × (length (submissions (events_in (known_to visitor.new.seat).seen) 1) < 18446744073709551615)) }
        ensures counted { length (submissions (events_in (known_to visitor.new.seat).seen) 1) ≤ 18446744073709551615 }
        ensures own { IfOk result (λ r. r.0.caller ≡ 1) }
        ensures acceptance { IfOk result (λ r. is_acceptance r.1 ≡ true) }
        ensures work_back { IfErr result (λ e. e.1 ≡ work) }
    {
        let mut state = self.lock.take(rt, &mut visitor.seat);
        let answer = state.inner.submit(work);
        self.lock.release(&mut visitor.seat, state);
        self.lock.ring();
        answer
    }

    /// Closes the pool, in one turn, and returns whether it was open. All workers wake. Jobs that were accepted are still run.
    pub fn close<R: Wait>(&self, rt: &R, closer: &mut ExecutorCloser<W, H>) -> bool
        requires mine { IsOf self.now closer.old.seat }
        ensures mine { IsOf self.now closer.new.seat }
        ensures made { (known_to closer.new.seat).made ≡ (known_to closer.old.seat).made }
        ensures closed { OnTrue result (SeesLast (limits_of self.now) (known_to closer.old.seat) Event.Close (known_to closer.new.seat)) }
        ensures was_closed { OnFalse result (SeesMore (limits_of self.now) (known_to closer.old.seat) (known_to closer.new.seat) × (is_closed (events_in (known_to closer.new.seat).seen) ≡ true)) }
    {
        let mut state = self.lock.take(rt, &mut closer.seat);
        let closes = state.inner.close();
        self.lock.release(&mut closer.seat, state);
        self.lock.ring_for_all();
        closes
    }

    /// Sets the core size and the maximum size, in workers, from here on, in one turn (ThreadPoolExecutor class documentation, core and
    /// maximum pool sizes). It starts and ends no worker. If there are more workers than the maximum size, the surplus holds back: no job
    /// is taken from the queue while as many run as the maximum size allows. If the maximum size grows, a worker that sleeps is woken.
    ///
    /// # Errors
    ///
    /// The errors of `Rule::resize`, in the same order, then `Memory` if the record has no room and it is out of memory, with nothing written.
    pub fn resize<R: Wait>(
        &self,
        rt: &R,
        closer: &mut ExecutorCloser<W, H>,
        core: u32,
        max: u32,
    ) -> Result<(), AdmitError>
        requires mine { IsOf self.now closer.old.seat }
        ensures mine { IsOf self.now closer.new.seat }
        ensures resized { OnOk result (SeesLast (limits_of self.now) (known_to closer.old.seat) (Event.Resized core max) (known_to closer.new.seat)) }
        ensures refused { OnErr result (SeesMore (limits_of self.now) (known_to closer.old.seat) (known_to closer.new.seat)) }
        ensures why { IfErr result (IsRefusedResize (limits_of self.now) core max) }
        ensures memory { IfErr result (λ e. e ≡ AdmitError.Memory → LacksRoom H.HasRoom) }
    {
        let mut state = self.lock.take(rt, &mut closer.seat);
        let resized = state.inner.resize(core, max);
        self.lock.release(&mut closer.seat, state);
        self.lock.ring();
        resized
    }

    /// Whether the pool is closed, in one turn, which writes nothing (ExecutorService, `isShutdown`).
    ///
    /// ```
    /// if pool.is_closed(&rt, &mut visitor) {
    ///     println!(rt; "no more works")?;
    /// }
    /// ```
    pub fn is_closed<R: Wait>(&self, rt: &R, visitor: &mut Visitor<W, H>) -> bool
        requires mine { IsOf self.now visitor.old.seat }
        ensures mine { IsOf self.now visitor.new.seat }
        ensures sees { SeesMore (limits_of self.now) (known_to visitor.old.seat) (known_to visitor.new.seat) }
        ensures closed { result ≡ is_closed (events_in (known_to visitor.new.seat).seen) }
    {
        self.numbers_by(rt, visitor).closed
    }

    /// Waits until all accepted jobs are finished, for at most `duration`, or until the clock can't be read. Returns whether all are
    /// finished, as the last poll saw it. It polls every millisecond, and at least once. It closes nothing and writes nothing, and jobs
    /// that are submitted meanwhile count too (ExecutorService, `awaitTermination`, of an open pool). The answer comes with the call's own
    /// visitor, which saw it; `join_for_by` takes a visitor of yours.
    ///
    /// ```
    /// if !*pool.join_for(&rt, Duration::from_secs(2)) {
    ///     println!(rt; "some works aren't finished")?;
    /// }
    /// ```
    pub fn join_for<R: Clock + Reads + Wait>(&self, rt: &R, duration: Duration) -> Seen<bool, W, H>
        ensures mine { IsOf self.now result.visitor.seat }
        ensures sees { SeesMore (limits_of self.now) (new_visitor self.now) (known_to result.visitor.seat) }
        ensures joined { OnTrue result.value (AllFinished (events_in (known_to result.visitor.seat).seen)) }
        ensures not_joined { OnFalse result.value (¬ AllFinished (events_in (known_to result.visitor.seat).seen)) }
        ensures by_the_clock { HasJoinedBy (R.HasSaid rt.now) (as_nanos duration) (limits_of self.now) (new_visitor self.now) (known_to result.visitor.seat) result.value }
    {
        let mut visitor = self.visitor();
        let value = self.join_for_by(rt, &mut visitor, duration);
        Seen { value, visitor }
    }

    /// The same with your own visitor, which has then seen what the last poll saw.
    ///
    /// ```
    /// let joined = pool.join_for_by(&rt, &mut visitor, Duration::from_secs(2));
    /// ```
    pub fn join_for_by<R: Clock + Reads + Wait>(
        &self,
        rt: &R,
        visitor: &mut Visitor<W, H>,
        duration: Duration,
    ) -> bool
        requires mine { IsOf self.now visitor.old.seat }
        ensures mine { IsOf self.now visitor.new.seat }
        ensures sees { SeesMore (limits_of self.now) (known_to visitor.old.seat) (known_to visitor.new.seat) }
        ensures joined { OnTrue result (AllFinished (events_in (known_to visitor.new.seat).seen)) }
        ensures not_joined { OnFalse result (¬ AllFinished (events_in (known_to visitor.new.seat).seen)) }
        ensures by_the_clock { HasJoinedBy (R.HasSaid rt.now) (as_nanos duration) (limits_of self.now) (known_to visitor.old.seat) (known_to visitor.new.seat) result }
    {
        let first = self.have_all_finished(rt, visitor);
        if first || duration.is_zero() {
            return first;
        }
        match TimeLeft::start(rt, duration) {
            Some(time) => self.join_until(rt, visitor, time),
            None => first,
        }
    }

    // Polls every millisecond until all jobs are finished, or the time, which has just begun, is over.
    fn join_until<R: Clock + Reads + Wait>(
        &self,
        rt: &R,
        visitor: &mut Visitor<W, H>,
        mut time: TimeLeft,
    ) -> bool
        requires mine { IsOf self.now visitor.old.seat }
        requires begins { time.last ≡ time.start }
        ensures mine { IsOf self.now visitor.new.seat }
        ensures sees { SeesMore (limits_of self.now) (known_to visitor.old.seat) (known_to visitor.new.seat) }
        ensures joined { OnTrue result (AllFinished (events_in (known_to visitor.new.seat).seen)) }
        ensures not_joined { OnFalse result (¬ AllFinished (events_in (known_to visitor.new.seat).seen)) }
        ensures by_the_clock { HasJoinedSince (R.HasSaid rt.now) (as_nanos time.longest) time.start (limits_of self.now) (known_to visitor.old.seat) (known_to visitor.new.seat) result }
    {
        for _ in rt.forever() {
            if self.have_all_finished(rt, visitor) {
                return true;
            }
            let Some(_left) = time.left(rt) else {
                return false;
            };
            thread::sleep(rt, Duration::from_millis(1));
        }
        unreachable!()
    }

    // Whether all accepted jobs are finished, as one poll sees it.
    fn have_all_finished<R: Wait>(&self, rt: &R, visitor: &mut Visitor<W, H>) -> bool
        requires mine { IsOf self.now visitor.old.seat }
        ensures mine { IsOf self.now visitor.new.seat }
        ensures look { IsLook (limits_of self.now) (known_to visitor.old.seat) (known_to visitor.new.seat) }
        ensures finished { OnTrue result (AllFinished (events_in (known_to visitor.new.seat).seen)) }
        ensures unfinished { OnFalse result (¬ AllFinished (events_in (known_to visitor.new.seat).seen)) }
    {
        let numbers = self.numbers_by(rt, visitor);
        numbers.running == 0 && numbers.waiting == 0
    }

    /// The numbers of the pool, read in one turn, which writes nothing. They come with the call's own visitor, which saw them;
    /// `numbers_by` takes a visitor of yours.
    pub fn numbers<R: Wait>(&self, rt: &R) -> Seen<Numbers, W, H>
        ensures mine { IsOf self.now result.visitor.seat }
        ensures sees { SeesMore (limits_of self.now) (new_visitor self.now) (known_to result.visitor.seat) }
        ensures numbers { AreNumbersAfter (limits_of self.now) (events_in (known_to result.visitor.seat).seen) result.value }
    {
        let mut visitor = self.visitor();
        let value = self.numbers_by(rt, &mut visitor);
        Seen { value, visitor }
    }

    /// The same with your own visitor, which has then seen the history that the numbers belong to.
    ///
    /// ```
    /// let numbers = pool.numbers_by(&rt, &mut visitor);
    /// ```
    pub fn numbers_by<R: Wait>(&self, rt: &R, visitor: &mut Visitor<W, H>) -> Numbers
        requires mine { IsOf self.now visitor.old.seat }
        ensures mine { IsOf self.now visitor.new.seat }
        ensures sees { SeesMore (limits_of self.now) (known_to visitor.old.seat) (known_to visitor.new.seat) }
        ensures one_turn { (known_to visitor.new.seat).turns ≡ (known_to visitor.old.seat).turns + 1 }
        ensures numbers { AreNumbersAfter (limits_of self.now) (events_in (known_to visitor.new.seat).seen) result }
    {
        let mut state = self.lock.take(rt, &mut visitor.seat);
        let numbers = state.inner.numbers();
        self.lock.release(&mut visitor.seat, state);
        numbers
    }
}
