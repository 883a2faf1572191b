//! Working: what a worker does from its first poll for a job to its end.
//!
//! A worker polls for a job in one turn, runs it outside of any turn, and finishes it in another turn. So a turn writes at most
//! one event, and a worker never holds the lock while it runs a job. By the rule of the lock a seat ends only jobs that it picked,
//! so a job is out until its own worker ends it, and no run is refused. A poll that finds no job may ask, in the same turn, to end
//! an idle worker. After the turn the worker lets in a seat that sleeps at the door, if there is one, and waits at the bell.

ghost use Rattle.std.specs.Prelude.{◌≡◌, ◌<◌, ◌++◌, ◌∷◌, [], ℕ, IfSome, Some, None, true, false};
ghost use Rattle.resil_pool.specs.Words.{IsPrefix, is_among, is_closed, IsAllowed, IsLegal, IsPicked, HasNoneToPick, jobs_in_flight, plan_of, with_event, with_finish};
ghost use Rattle.resil_lock.specs.Work.{OnFound, OnNothing, OnOver};
ghost use Rattle.resil_lock.specs.declared.log.Note.TheVariants as note;
ghost use Rattle.resil_pool.specs.Lock.{events_in, runs_in, finish_of, IsDue, IsSettled, Tallies, told, IsResting, IsMoved, Takes, TookATurn, WritesAtMost};
ghost use Rattle.resil_pool.specs.Parts.{IsWitness};
ghost use Rattle.resil_pool.specs.Worker.{EndsIdle, EndsWith, HasNoTake, HasFirstRefusal, HasRunJob, HasRunJobs, HasWorked, IsAtEnd, OnNoJob, HasRunTakes, KeepsPlan, TakesAtMost, WasRefused, takes_in};

use crate::hook::Hook;
use crate::lock::{LockSeat, PoolState, note_if};
use crate::parts::{Worker, WorkerEnd};
use crate::pool::Pool;
use resil_admission::{Event, Id};
use resil_decor::{Job, Permitter, Run};
use resil_lock::{Look, Looks, Note, Round, Rounds};
use std::sync::Wait;

// The note of a pick: a take if the history has grown, otherwise the start of a job with a worker of its own.
fn note_of_pick(id: Id, before: usize, after: usize) -> Note
    ensures took { before < after → result ≡ note.Event (Event.Take id) }
    ensures started { ¬ (before < after) → result ≡ note.Started id }
{
    if before < after {
        Note::Event(Event::Take(id))
    } else {
        Note::Started(id)
    }
}

impl PoolState {
    // Polls for a job. If there is none, the worker asks to end if the pool is closed, or if it has `timed_out` after enough empty polls.
    fn look(&mut self, timed_out: bool) -> Look<(Id, Job)>
        ensures found { OnFound result (λ picked. IsPicked self.old.machine picked.0 self.new.machine × (plan_of self.old.machine.jobs picked.0 ≡ Some picked.1)) }
        ensures none { OnNothing result (HasNoneToPick self.old.machine) }
        ensures no_take { OnNothing result (HasNoTake self.new.machine) }
        ensures open { OnNoJob result (is_closed self.old.machine.history ≡ false) }
        ensures unchanged { timed_out ≡ false → OnNoJob result (self.new.machine ≡ self.old.machine) }
        ensures asks { timed_out ≡ true → OnNoJob result (IsAllowed self.old.machine.limits self.old.machine.history Event.IdleEnd → self.new.machine ≡ with_event self.old.machine Event.IdleEnd) }
        ensures wrote { IsMoved self.old.machine (told self.new) self.new.machine }
        ensures picks { OnFound result (λ picked. Takes picked.0 (told self.new)) }
        ensures rests { OnNothing result (WritesAtMost Event.IdleEnd (told self.new)) }
        ensures left { OnOver result (IsAtEnd self.new.machine.limits self.new.machine.history) }
    {
        let before = self.machine.history().len();
        if let Some((id, job)) = self.machine.pick() {
            let written = note_of_pick(id, before, self.machine.history().len());
            self.last = note_if(true, written);
            return Look::Found((id, job));
        }
        if self.machine.closed() {
            self.end_if_allowed();
            return Look::Over;
        }
        if timed_out {
            self.end_if_allowed();
        } else {
            self.last = None;
        }
        Look::Nothing
    }

    // Asks the machine to end an idle worker. The machine does so if the rule of admission allows it.
    fn end_if_allowed(&mut self)
        requires { HasNoTake self.old.machine }
        ensures { EndsIdle self.old.machine self.new.machine (told self.new) }
    {
        let ended = self.machine.idle_end();
        self.last = note_if(ended, Note::Event(Event::IdleEnd));
    }

    // Ends the run of a job that is out. The run is of the plan submitted under the id, so it is accepted.
    fn finish(&mut self, id: Id, run: Run)
        requires out { is_among id (jobs_in_flight self.old.machine) ≡ true }
        requires plan { plan_of self.old.machine.jobs id ≡ Some run.plan }
        ensures finished { self.new.machine ≡ with_finish self.old.machine id run }
        ensures wrote { IsMoved self.old.machine (told self.new) self.new.machine }
        ensures kept { told self.new ≡ finish_of id run ∷ [] }
    {
        match self.machine.finish_picked(id, run) {
            Ok(()) => self.last = note_if(true, Note::Event(Event::Finish(id))),
            Err(_refused) => unreachable!(),
        }
    }
}

impl Pool {
    // A turn with one poll.
    fn look<R: Wait>(&self, rt: &R, seat: &mut LockSeat, timed_out: bool) -> Look<(Id, Job)>
        requires source { seat.old.table_id ≡ self.now.source.table_id }
        requires rest { IsResting seat.old.me }
        ensures source { seat.new.table_id ≡ seat.old.table_id }
        ensures turn { TookATurn seat.old.me seat.new.me }
        ensures ends_none { runs_in seat.new.me.0.own ≡ runs_in seat.old.me.0.own }
        ensures takes { OnFound result (λ picked. TakesAtMost picked.0 (takes_in seat.old.me.0.own) (takes_in seat.new.me.0.own)) }
        ensures takes_none { OnNothing result (takes_in seat.new.me.0.own ≡ takes_in seat.old.me.0.own) }
        ensures picks { OnFound result (λ picked. Tallies seat.old.me.0.own (picked.0 ∷ []) [] seat.new.me.0.own) }
        ensures picks_none { OnNothing result (Tallies seat.old.me.0.own [] [] seat.new.me.0.own) }
        ensures found { OnFound result (λ picked. KeepsPlan seat.new.me.0.seen picked.0 picked.1) }
        ensures left { OnOver result (IsAtEnd seat.old.me.0.key.limits (events_in seat.new.me.0.seen)) }
    {
        let mut state = self.lock.take(rt, seat);
        let look = state.inner.look(timed_out);
        self.lock.release_after(seat, state, &look);
        look
    }

    // Runs a job that the seat picked, with this permitter, and ends it in one turn. The run is of the plan that the log keeps
    // with the job's submission. It isn't refused: by the rule of the lock the job is out until its own worker ends it.
    fn run_job<R: Wait, P: Permitter, H: Hook>(
        &self,
        rt: &R,
        seat: &mut LockSeat,
        picked: (Id, Job),
        permitter: &mut P,
        hook: &H,
    )
        requires source { seat.old.table_id ≡ self.now.source.table_id }
        requires rest { IsResting seat.old.me }
        requires due { IsDue picked.0 seat.old.me.0.own }
        requires known { KeepsPlan seat.old.me.0.seen picked.0 picked.1 }
        ensures source { seat.new.table_id ≡ seat.old.table_id }
        ensures turn { TookATurn seat.old.me seat.new.me }
        ensures ends { Tallies seat.old.me.0.own [] (picked.0 ∷ []) seat.new.me.0.own }
        ensures finished { EndsWith (events_in seat.new.me.0.seen) (Event.Finish picked.0) }
        ensures given { HasRunJob P.AnsweredBetween permitter.old permitter.new picked.0 picked.1 (runs_in seat.old.me.0.own) (runs_in seat.new.me.0.own) }
        ensures takes_none { takes_in seat.new.me.0.own ≡ takes_in seat.old.me.0.own }
        ensures held { (id : ℕ) → P.held permitter.new id ≡ P.held permitter.old id }
    {
        let (id, job) = picked;
        hook.before(id);
        let run = job.run(permitter);
        let mut state = self.lock.take(rt, seat);
        state.inner.finish(id, run);
        self.lock.release(seat, state);
        hook.after(id);
    }

    /// Works until the pool is closed and no job is left to pick: polls repeatedly, and runs each job that it picks with this
    /// permitter, and no other job. The pool refuses no run: a worker ends only the jobs that it picked. It waits while other seats
    /// hold the lock, and for the pool to be closed. While there is no job it sleeps, at most 64 ms between two polls (`open_pool`).
    ///
    /// A worker leaves the pool for one of two reasons:
    ///
    /// 1. `keep_alive` polls in a row were empty, and there are more workers than the core size (ThreadPoolExecutor class
    ///    documentation, keep-alive times). Its thread goes on polling for jobs.
    /// 2. The pool is closed and no job is left to pick. Then its thread ends.
    ///
    /// ```
    /// let mut no_bulkheads = Passes::new(&rt, &[], Vec::new(alloc));
    /// pool.close(&rt, &mut closer);
    /// let end = pool.work(&rt, worker, &mut no_bulkheads, &NoHook);
    /// ```
    pub fn work<R: Wait, P: Permitter, H: Hook>(
        &self,
        rt: &R,
        worker: Worker,
        permitter: &mut P,
        hook: &H,
    ) -> WorkerEnd
        requires { worker.source ≡ self.now.source }
        ensures source { result.source ≡ worker.source }
        ensures begins { IsPrefix worker.seen result.seen }
        ensures legal { IsLegal result.source.limits (events_in result.seen) }
        ensures end { IsAtEnd result.source.limits (events_in result.seen) }
        ensures given { HasRunJobs P.AnsweredBetween permitter.old permitter.new worker.runs result.runs }
        ensures first_refusal { HasFirstRefusal P.AnsweredBetween permitter.old permitter.new worker.runs result.runs result.refused }
        ensures takes { HasRunTakes P.AnsweredBetween permitter.old permitter.new worker.runs result.runs (takes_in worker.wrote) (takes_in result.wrote) result.refused }
        ensures real_refusal { IfSome result.refused (WasRefused result.source.limits result.seen) }
        ensures none_refused { result.refused ≡ None }
        ensures held { (id : ℕ) → P.held permitter.new id ≡ P.held permitter.old id }
    {
        let Worker { mut seat } = worker;
        make_rounds(
            rt,
            &mut WorkerRounds {
                pool: self,
                seat: &mut seat,
                permitter,
                hook,
            },
        );
        WorkerEnd { seat }
    }
}

// A worker at work: its pool, its seat there, and what it is lent.
#[derive(Drop)]
struct WorkerRounds<'a, P, H> {
    pool: &'a Pool,
    seat: &'a mut LockSeat,
    permitter: &'a mut P,
    hook: &'a H,
}

// Makes rounds until the worker sees that its pool is over.
fn make_rounds<R: Wait, P: Permitter, H: Hook>(rt: &R, at_work: &mut WorkerRounds<'_, P, H>)
    requires source { at_work.old.seat.now.table_id ≡ at_work.old.pool.now.source.table_id }
    requires rest { IsWitness at_work.old.seat.now.me }
    requires settled { IsSettled at_work.old.seat.now.me.0.own }
    ensures rest { IsWitness at_work.new.seat.now.me }
    ensures settled { IsSettled at_work.new.seat.now.me.0.own }
    ensures made { HasWorked P.AnsweredBetween P.held at_work.old at_work.new }
    ensures end { IsAtEnd at_work.new.seat.now.me.0.key.limits (events_in at_work.new.seat.now.me.0.seen) }
{
    let pool = at_work.pool;
    pool.lock.work(rt, at_work, pool.keep_alive);
}

impl<P: Permitter, H: Hook> Rounds for WorkerRounds<'_, P, H> {
    ghost use Rattle.std.specs.Prelude.{◌≡◌};
    ghost use Rattle.resil_pool.specs.Lock.{events_in, IsSettled};
    ghost use Rattle.resil_pool.specs.Parts.{IsWitness};
    ghost use Rattle.resil_pool.specs.Worker.{HasMadeRound, IsAtEnd};

    ghost CanGo = { λ x. (x.seat.now.table_id ≡ x.pool.now.source.table_id) × IsWitness x.seat.now.me × IsSettled x.seat.now.me.0.own };

    ghost HasGone = { λ x y. (y.pool ≡ x.pool) × (y.seat.ghost_name ≡ x.seat.ghost_name) × (y.permitter.ghost_name ≡ x.permitter.ghost_name) × (y.seat.now.table_id ≡ x.seat.now.table_id) × HasMadeRound P.AnsweredBetween P.held x.permitter.now y.permitter.now x.seat.now.me.0 y.seat.now.me.0 };

    ghost IsOver = { λ x. IsAtEnd x.seat.now.me.0.key.limits (events_in x.seat.now.me.0.seen) };

    fn round<R: Wait>(&mut self, rt: &R, looks: &mut Looks) -> Round {
        let pool = self.pool;
        match pool.look(rt, self.seat, looks.timed_out()) {
            Look::Found(picked) => {
                looks.has_found(&pool.lock);
                pool.run_job(rt, self.seat, picked, self.permitter, self.hook);
                Round::Ran
            }
            Look::Nothing => Round::Nothing,
            Look::Over => Round::Over,
        }
    }
}
