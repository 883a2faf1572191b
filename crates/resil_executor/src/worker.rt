//! What a worker does from its first poll for a job to its end.
//!
//! A worker polls for a job in one turn, runs it outside of any turn, and ends it in another turn. It never holds the lock
//! while it runs a job. The loop is that of `resil_lock`.
ghost use Rattle.std.specs.Prelude.{◌≡◌};
ghost use Rattle.resil_rule.specs.declared.event.Event.TheVariants.{Finish};
ghost use Rattle.resil_lock.specs.Work.{OnFound, OnNothing, OnOver};
ghost use Rattle.resil_executor.specs.Log.{accepted_in};
ghost use Rattle.resil_executor.specs.Turn.{HasPicked, HasRested, HasWorked, SeesLast, SeesOver, IsDue, IsOfItsRun};
ghost use Rattle.resil_executor.specs.Seats.{limits_of, IsOf, known_to};

use crate::executor::{Executor, ExecutorWorker};
use crate::job::{PickedJob, RanJob};
use resil_lock::{Look, Looks, Round, Rounds};
use resil_rule::Record;
use resil_task::by_hand::RunOnce;
use std::sync::Wait;

impl<W: Drop, H: Record> Executor<W, H> {
    /// Polls for a job, in one turn. If there is none, or as many run as the maximum size allows after a resize, an idle worker may
    /// end: if the pool is closed, or if this worker is `timed_out` and there are more workers than the core size.
    ///
    /// ```
    /// if let Look::Found(picked) = pool.look(&rt, &mut worker, false) {
    ///     let ran = picked.run(&mut ());
    ///     pool.finish::<(), _>(&rt, &mut worker, ran);
    /// }
    /// ```
    pub fn look<R: Wait>(
        &self,
        rt: &R,
        worker: &mut ExecutorWorker<W, H>,
        timed_out: bool,
    ) -> Look<PickedJob<W>>
        requires mine { IsOf self.now worker.old.seat }
        ensures mine { IsOf self.now worker.new.seat }
        ensures found { OnFound result (λ picked. HasPicked (limits_of self.now) picked.slot.id picked.work (known_to worker.old.seat) (known_to worker.new.seat)) }
        ensures nothing { OnNothing result (HasRested (limits_of self.now) (known_to worker.old.seat) (known_to worker.new.seat)) }
        ensures over { OnOver result (SeesOver (limits_of self.now) (known_to worker.new.seat)) }
    {
        let mut state = self.lock.take(rt, &mut worker.seat);
        let look = state.inner.look(timed_out);
        self.lock.release_after(&mut worker.seat, state, &look);
        look
    }

    /// Ends a job that this worker picked and ran, in one turn, and returns what its run returned. It can't fail. The output
    /// comes from a run of the very job that was accepted under its id.
    pub fn finish<C, R: Wait>(
        &self,
        rt: &R,
        worker: &mut ExecutorWorker<W, H>,
        ran: RanJob<W::Output>,
    ) -> W::Output
    where
        W: RunOnce<C>,
        requires ran { IsOfItsRun W.HasRun (accepted_in (known_to worker.old.seat).seen) ran.slot.id ran.output }
        requires mine { IsOf self.now worker.old.seat }
        requires due { IsDue ran.slot.id (known_to worker.old.seat).own }
        ensures mine { IsOf self.now worker.new.seat }
        ensures ended { SeesLast (limits_of self.now) (known_to worker.old.seat) (Finish ran.slot.id) (known_to worker.new.seat) }
        ensures output { result ≡ ran.output }
    {
        let RanJob { slot, output } = ran;
        let mut state = self.lock.take(rt, &mut worker.seat);
        state.inner.finish::<C>(slot, &output);
        self.lock.release(&mut worker.seat, state);
        output
    }

    /// Polls for a job, runs the one that it finds in the worker's context, and ends it.
    ///
    /// ```
    /// let mut looks = Looks::new(20);
    /// if pool.work_once(&rt, &mut worker, &mut looks, &mut ()) == Round::Nothing {
    ///     looks.sleep(&rt, &pool.lock);
    /// }
    /// ```
    pub fn work_once<C, R: Wait>(
        &self,
        rt: &R,
        worker: &mut ExecutorWorker<W, H>,
        looks: &mut Looks,
        context: &mut C,
    ) -> Round
    where
        W: RunOnce<C>,
        requires mine { IsOf self.now worker.old.seat }
        ensures mine { IsOf self.now worker.new.seat }
        ensures worked { HasWorked (limits_of self.now) W.HasRun (known_to worker.old.seat) (known_to worker.new.seat) }
        ensures over { result ≡ Round.Over → SeesOver (limits_of self.now) (known_to worker.new.seat) }
    {
        match self.look(rt, worker, looks.timed_out()) {
            Look::Found(picked) => {
                looks.has_found(&self.lock);
                let ran = picked.run(context);
                drop(self.finish::<C, R>(rt, worker, ran));
                Round::Ran
            }
            Look::Nothing => Round::Nothing,
            Look::Over => Round::Over,
        }
    }

    /// Works until the pool is over: it is closed, and all jobs that it accepted are finished. So when one worker ends, all
    /// do, and each waits for the last job that runs. It runs jobs in the context that it is lent.
    ///
    /// While there is no job it sleeps between two polls, for 1 ms at first and for at most 64 ms. After `keep_alive` empty polls in a row an idle
    /// worker of the rule may end (ThreadPoolExecutor class documentation, keep-alive times); the thread goes on polling.
    ///
    /// ```
    /// let mut worker = pool.hire(&mut closer);
    /// pool.close(&rt, &mut closer);
    /// pool.work(&rt, &mut worker, &mut (), 20);
    /// ```
    pub fn work<C, R: Wait>(
        &self,
        rt: &R,
        worker: &mut ExecutorWorker<W, H>,
        context: &mut C,
        keep_alive: u32,
    )
    where
        W: RunOnce<C>,
        requires mine { IsOf self.now worker.old.seat }
        ensures mine { IsOf self.now worker.new.seat }
        ensures worked { HasWorked (limits_of self.now) W.HasRun (known_to worker.old.seat) (known_to worker.new.seat) }
        ensures over { SeesOver (limits_of self.now) (known_to worker.new.seat) }
    {
        let mut at_work = AtWork {
            pool: self,
            worker,
            context,
        };
        self.lock.work(rt, &mut at_work, keep_alive);
    }
}

// A running worker: its pool, its seat there, and the context in which its jobs are run.
#[derive(Drop)]
struct AtWork<'a, W: Drop, H: Record, C> {
    pool: &'a Executor<W, H>,
    worker: &'a mut ExecutorWorker<W, H>,
    context: &'a mut C,
}

impl<C, W: RunOnce<C> + Drop, H: Record> Rounds for AtWork<'_, W, H, C> {
    ghost use Rattle.resil_executor.specs.Turn.{HasWorked, SeesOver};
    ghost use Rattle.resil_executor.specs.Seats.{limits_of, IsOf, known_to};

    ghost CanGo = { λ x. IsOf x.pool.now x.worker.now.seat };

    ghost HasGone = { λ x y. (y.pool ≡ x.pool) × (y.worker.ghost_name ≡ x.worker.ghost_name) × (y.context.ghost_name ≡ x.context.ghost_name) × HasWorked (limits_of x.pool.now) W.HasRun (known_to x.worker.now.seat) (known_to y.worker.now.seat) };

    ghost IsOver = { λ x. SeesOver (limits_of x.pool.now) (known_to x.worker.now.seat) };

    fn round<R: Wait>(&mut self, rt: &R, looks: &mut Looks) -> Round {
        self.pool.work_once(rt, self.worker, looks, self.context)
    }
}
