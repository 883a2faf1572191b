//! The sequential pool: the rule of admission with its history and its jobs.
//!
//! A machine keeps the rule's state, all events, and each accepted job with its plan and its run. `Rule` alone decides what happens;
//! here the events are written, and the plans and runs are kept. No call goes through the history, and only `into_parts` goes through
//! the jobs. Only `new`, `submit` and `resize` allocate, and the last two do so before a job or an event is added: an accepted job has
//! room for its take, its finish, the end of its worker and its result.

ghost use Rattle.std.specs.Prelude.{◌≡◌, ◌↔◌, ◌≤◌, ◌<◌, ◌+◌, [], ℕ, length, Some, true, false, IsTrue, IsOk, IfOk, IfErr, IfSome, OnOk, OnErr, IfNone};
ghost use Rattle.std.specs.Bool.{OnTrue, OnFalse};
ghost use Rattle.resil_rule.specs.History.{accepted, is_among, is_closed, next_number};
ghost use Rattle.resil_rule.specs.Admission.{IsAllowed, IsLegal};
ghost use Rattle.resil_rule.specs.Limits.{IsResizeRefusal};
ghost use Rattle.resil_rule.specs.RuleView.{made_by, owed, is_acceptance};
ghost use Rattle.resil_rule.specs.RuleState.{StaysAt};
ghost use Rattle.resil_admission.specs.JobsView.{HasPlace};
ghost use Rattle.resil_admission.specs.MachineView.{MachineView, jobs_in_flight, plan_of, ids_of, with_event, with_submission, with_finish, IsPicked, HasOneToPick, HasNoneToPick, IsSubmitRefusal, IsFinishRefusal, AllDone, AreResultsOf};

use super::jobs::Jobs;
use super::{AdmitError, Event, Id, Limits, Reply, Row};
use resil_decor::{Job, Run};
use resil_rule::{AllEvents, Origin, Picked, Record, Rule};
use std::alloc::Global;
use std::marker::Model;

/// A pool, used by one thread at a time.
///
/// ```
/// let mut machine = Machine::new(alloc, Limits::new(1, 2, 1)?)?;
/// let reply = machine.submit(alloc, id, job).map_err(|refused| refused.0)?;
/// if let Some((id, job)) = machine.pick() {
///     let run = job.run(&mut passes);
///     machine.finish(id, run).map_err(|refused| refused.0)?;
/// }
/// ```
#[derive(Drop)]
pub struct Machine {
    /// The rule, over ids alone. The ring of waiting ids has the capacity of the queue.
    rule: Rule<()>,
    /// All events so far, with room for those that may follow without another submission or resize.
    history: AllEvents,
    /// Each accepted job in order of acceptance: itself until it is picked, its plan, and its run once it is finished.
    jobs: Jobs,
}

impl Model for Machine {
    ghost use Rattle.std.specs.Prelude.{◌-◌, length};
    ghost use Rattle.resil_rule.specs.History.{started};
    ghost use Rattle.resil_admission.specs.MachineView.{MachineView};

    ghost Value = { MachineView };

    ghost use Rattle.resil_admission.specs.MachineInvariant.{MachineInvariant};

    ghost view = { λ m. record { limits = m.rule.limits; history = m.history.events; picked = length (started m.history.events) - length m.rule.unpicked; jobs = m.jobs.jobs } };

    ghost invariant = { MachineInvariant };
}

impl Machine {
    /// Makes an open pool of these limits without workers or jobs.
    ///
    /// # Errors
    ///
    /// `Memory` if out of memory.
    pub fn new(alloc: Global, limits: Limits) -> Result<Machine, AdmitError>
        ensures empty { IfOk result (λ m. m ≡ record { limits = limits; history = []; picked = 0; jobs = [] }) }
        ensures memory { IfErr result (λ e. e ≡ AdmitError.Memory) }
    {
        let mut history = AllEvents::new(alloc);
        history.reserve(1)?;
        Ok(Machine {
            rule: Rule::new(alloc, limits.into(), 0)?,
            history,
            jobs: Jobs::new(alloc),
        })
    }

    /// Submits a job under its caller's next number, and replies by the rule of admission (`Rule::next_reply`; ThreadPoolExecutor
    /// class documentation). On `Core` and `Extra` the job gets a new worker, on `Queued` it waits in the queue, on `Full` and
    /// `Closed` it is dropped. An accepted job is kept until it is picked. Its plan, which both share, is kept until its run comes,
    /// which has that plan too. Each reply is an event of the history.
    ///
    /// # Errors
    ///
    /// In this order, with the job returned and nothing changed: `WrongNumber` if the number isn't one more than the caller's
    /// submissions so far; `Memory` if out of memory.
    ///
    /// ```
    /// let mut machine = Machine::new(alloc, Limits::new(1, 2, 1)?)?;
    /// let id = Id { caller: 1, number: 1 };
    /// let reply = machine.submit(alloc, id, job).map_err(|refused| refused.0)?;
    /// assert_eq!(rt; reply, Reply::Core);
    /// ```
    pub fn submit(&mut self, alloc: Global, id: Id, job: Job) -> Result<Reply, (AdmitError, Job)>
        ensures event { IfOk result (λ reply. self.new ≡ with_submission self.old id reply job) }
        ensures allowed { IfOk result (λ reply. IsAllowed self.old.limits self.old.history (Event.Submit id reply)) }
        ensures refused { IfErr result (λ e. IsSubmitRefusal self.old id e.0) }
        ensures unchanged { OnErr result (self.new ≡ self.old) }
        ensures job_back { IfErr result (λ e. e.1 ≡ job) }
    {
        if !self.rule.is_next(id) {
            return Err((AdmitError::WrongNumber, job));
        }
        let Ok(()) = make_room(&mut self.rule, &mut self.history, &mut self.jobs, id) else {
            return Err((AdmitError::Memory, job));
        };
        let reply = self.rule.next_reply();
        if !is_acceptance(reply) {
            self.rule.submit_with_reply(id, (), reply);
            self.history.write(Event::Submit { id, reply });
            return Ok(reply);
        }
        let Ok(()) = self.jobs.reserve() else {
            return Err((AdmitError::Memory, job));
        };
        let Ok(plan) = job.shared_plan() else {
            return Err((AdmitError::Memory, job));
        };
        self.rule.submit_with_reply(id, (), reply);
        self.history.write(Event::Submit { id, reply });
        self.jobs.push(id, job, plan);
        Ok(reply)
    }

    /// Returns the oldest job with a worker of its own that hasn't been picked yet. If there is none, and fewer jobs run than there
    /// are workers, it takes the job at the front of the queue. Only a take is an event of the history.
    pub fn pick(&mut self) -> Option<(Id, Job)>
        ensures picked { IfSome result (λ p. IsPicked self.old p.0 self.new) }
        ensures plan { IfSome result (λ p. plan_of self.old.jobs p.0 ≡ Some p.1) }
        ensures none { IfNone result (HasNoneToPick self.old) }
        ensures unchanged { IfNone result (self.new ≡ self.old) }
    {
        let Picked { slot, origin, .. } = self.rule.pick()?;
        // A job that the rule returns wasn't picked before, so it is kept here.
        let job = self.jobs.pick(slot.id).unwrap();
        match origin {
            Origin::OwnStart => Some((slot.id, job)),
            Origin::Queue => {
                self.history.write(Event::Take(slot.id));
                Some((slot.id, job))
            }
        }
    }

    /// Returns whether there is a job to pick: whether `pick` would return one.
    pub fn can_pick(&self) -> bool
        ensures some { OnTrue result (HasOneToPick self.now) }
        ensures none { OnFalse result (HasNoneToPick self.now) }
    {
        if self.rule.unpicked() > 0 {
            return true;
        }
        self.rule.has_idle_worker() && self.rule.waiting() > 0
    }

    /// Ends the run of a job that is out, and keeps the run.
    ///
    /// # Errors
    ///
    /// In this order, with the run returned and nothing changed: `NotOut` if no job that was picked and isn't finished has that id;
    /// `OtherJob` if the run is of another plan than the one submitted under it.
    ///
    /// ```
    /// match machine.finish(id, run) {
    ///     Ok(()) => println!(rt; "finished")?,
    ///     Err((AdmitError::NotOut, _run)) => println!(rt; "no such job is out")?,
    ///     Err((error, _run)) => println!(rt; "{error}")?,
    /// }
    /// ```
    pub fn finish(&mut self, id: Id, run: Run) -> Result<(), (AdmitError, Run)>
        ensures out { IsOk result ↔ (is_among id (jobs_in_flight self.old) ≡ true) × (plan_of self.old.jobs id ≡ Some run.plan) }
        ensures event { OnOk result (self.new ≡ with_finish self.old id run) }
        ensures refused { IfErr result (λ e. IsFinishRefusal self.old id run.plan e.0) }
        ensures unchanged { OnErr result (self.new ≡ self.old) }
        ensures run_back { IfErr result (λ e. e.1 ≡ run) }
    {
        let Some(_slot) = self.rule.find(id) else {
            return Err((AdmitError::NotOut, run));
        };
        if !is_run_of(&self.jobs, id, &run) {
            return Err((AdmitError::OtherJob, run));
        }
        self.finish_picked(id, run)
    }

    /// Ends the run of a job that is out, like `finish`, if the caller knows that the run is of the plan submitted under the id, as it
    /// is for a job picked here: so no plans are compared, however long their lists are.
    ///
    /// # Errors
    ///
    /// `NotOut` if no job that was picked and isn't finished has that id; the run is returned, and nothing changed.
    ///
    /// ```
    /// if let Some((id, job)) = machine.pick() {
    ///     let run = job.run(&mut passes);
    ///     machine.finish_picked(id, run).map_err(|refused| refused.0)?;
    /// }
    /// ```
    pub fn finish_picked(&mut self, id: Id, run: Run) -> Result<(), (AdmitError, Run)>
        requires { plan_of self.old.jobs id ≡ Some run.plan }
        ensures out { IsOk result ↔ (is_among id (jobs_in_flight self.old) ≡ true) × (plan_of self.old.jobs id ≡ Some run.plan) }
        ensures event { OnOk result (self.new ≡ with_finish self.old id run) }
        ensures refused { IfErr result (λ e. IsFinishRefusal self.old id run.plan e.0) }
        ensures unchanged { OnErr result (self.new ≡ self.old) }
        ensures run_back { IfErr result (λ e. e.1 ≡ run) }
    {
        let Some(slot) = self.rule.find(id) else {
            return Err((AdmitError::NotOut, run));
        };
        // A job that is out was accepted, so it is kept here.
        let Some(index) = self.jobs.index_of(id) else {
            unreachable!()
        };
        // For the proof alone: the run says that its value is a value of its plan.
        let _plan = run.plan();
        self.rule.finish(slot);
        self.history.write(Event::Finish(id));
        self.jobs.record_run(index, id, run);
        Ok(())
    }

    /// Sets the core size and the maximum size, in workers, from here on (`setCorePoolSize` and `setMaximumPoolSize` of
    /// ThreadPoolExecutor, both at once; making it an event of the history is our own). It is written even if the sizes stay the same,
    /// and even if the pool is closed.
    ///
    /// A resize begins and ends no worker: a worker begins with a submission, and a worker above the core size ends by `idle_end`. So
    /// there may be more workers than the maximum size, but never more than the maximum size that the pool was made with. The capacity
    /// of the queue stays, and so do all jobs.
    ///
    /// # Errors
    ///
    /// In this order, with nothing changed: `CoreOutOfRange` if the core size isn't from 1 to `Limits::MAX_WORKERS`; `MaxOutOfRange`
    /// if the maximum size is below the core size, or above the one that the pool was made with; `Memory` if out of memory.
    ///
    /// ```
    /// let mut machine = Machine::new(alloc, Limits::new(1, 4, 100)?)?;
    /// machine.resize(2, 3)?;
    /// ```
    pub fn resize(&mut self, core: u32, max: u32) -> Result<(), AdmitError>
        ensures event { OnOk result (self.new ≡ with_event self.old (Event.Resized core max)) }
        ensures allowed { OnOk result (IsAllowed self.old.limits self.old.history (Event.Resized core max)) }
        ensures refused { IfErr result (IsResizeRefusal self.old.limits core max) }
        ensures unchanged { OnErr result (self.new ≡ self.old) }
    {
        self.rule.check_sizes(core, max)?;
        self.history.reserve(self.rule.owed() + 1)?;
        self.rule.resize(core, max)?;
        self.history.write(Event::Resized { core, max });
        Ok(())
    }

    /// Ends an idle worker, and returns whether it did: only if nothing waits, fewer jobs run than there are workers, and there are
    /// more workers than the core size or the pool is closed.
    pub fn idle_end(&mut self) -> bool
        ensures ends { IsTrue result ↔ IsAllowed self.old.limits self.old.history Event.IdleEnd }
        ensures event { OnTrue result (self.new ≡ with_event self.old Event.IdleEnd) }
        ensures unchanged { OnFalse result (self.new ≡ self.old) }
    {
        if !self.rule.idle_end() {
            return false;
        }
        self.history.write(Event::IdleEnd);
        true
    }

    /// Closes the pool, and returns whether it was open. A closed pool stays as it is.
    pub fn close(&mut self) -> bool
        ensures closes { IsTrue result ↔ (is_closed self.old.history ≡ false) }
        ensures event { OnTrue result (self.new ≡ with_event self.old Event.Close) }
        ensures unchanged { OnFalse result (self.new ≡ self.old) }
    {
        if !self.rule.close() {
            return false;
        }
        self.history.write(Event::Close);
        true
    }

    /// Returns whether the pool is closed.
    pub fn closed(&self) -> bool
        ensures { result ≡ is_closed self.now.history }
    {
        self.rule.closed()
    }

    /// Returns all events so far, oldest first. Between any two calls they are a legal history.
    pub fn history(&self) -> &[Event]
        ensures events { result.now ≡ self.now.history }
        ensures legal { IsLegal self.now.limits self.now.history }
        ensures accepted { ids_of self.now.jobs ≡ accepted self.now.history }
    {
        self.history.events()
    }

    /// Returns the limits that the pool was made with.
    pub fn limits(&self) -> Limits
        ensures { result ≡ self.now.limits }
    {
        Limits::of(self.rule.limits())
    }

    /// Returns the history, and the result of each accepted job, in order of acceptance.
    ///
    /// # Errors
    ///
    /// `NotDone` if an accepted job has no result; the machine is returned.
    ///
    /// ```
    /// match machine.into_parts() {
    ///     Ok((history, rows)) => println!(rt; "{} events, {} jobs", history.len(), rows.len())?,
    ///     Err((error, _machine)) => println!(rt; "{error}")?,
    /// }
    /// ```
    pub fn into_parts(self) -> Result<(Vec<Event>, Vec<Row>), (AdmitError, Machine)>
        ensures done { IsOk result ↔ AllDone self.jobs }
        ensures history { IfOk result (λ parts. parts.0.items ≡ self.history) }
        ensures results { IfOk result (λ parts. AreResultsOf self.jobs parts.1.items) }
        ensures accepted { IfOk result (λ parts. ids_of self.jobs ≡ accepted self.history) }
        ensures legal { IfOk result (λ parts. IsLegal self.limits self.history) }
        ensures refused { IfErr result (λ e. e.0 ≡ AdmitError.NotDone) }
        ensures machine_back { IfErr result (λ e. e.1 ≡ self) }
    {
        let Machine {
            rule,
            history,
            jobs,
        } = self;
        match jobs.into_rows() {
            Ok(rows) => Ok((history.into_events(), rows)),
            Err(jobs) => Err((
                AdmitError::NotDone,
                Machine {
                    rule,
                    history,
                    jobs,
                },
            )),
        }
    }
}

// Whether a reply is one of the three that accept.
fn is_acceptance(reply: Reply) -> bool
    ensures { result ≡ is_acceptance reply }
{
    matches!(reply, Reply::Core | Reply::Queued | Reply::Extra)
}

// Makes room for the event of a submission, for those that may follow because of it, and for the place of its job. Errors: out of
// memory. It adds neither a job nor an event.
fn make_room(
    rule: &mut Rule<()>,
    history: &mut AllEvents,
    jobs: &mut Jobs,
    id: Id,
) -> Result<(), AdmitError>
    ensures caller { OnOk result (id.caller < length rule.new.made) }
    ensures events { OnOk result (owed rule.new + 3 ≤ history.new.room) }
    ensures place { OnOk result (HasPlace jobs.new id) }
    ensures rule { rule.new ≡ record rule.old { made = rule.new.made } }
    ensures made { (other : ℕ) → made_by rule.new other ≡ made_by rule.old other }
    ensures stays { StaysAt rule.old rule.new }
    ensures kept { history.new.events ≡ history.old.events }
    ensures room { history.old.room ≤ history.new.room }
    ensures jobs { jobs.new.jobs ≡ jobs.old.jobs }
    ensures unpicked { jobs.new.kept ≡ jobs.old.kept }
    ensures memory { IfErr result (λ e. e ≡ AdmitError.Memory) }
{
    history.reserve(rule.owed() + 3)?;
    rule.reserve_caller(id.caller)?;
    jobs.reserve_place(id)?;
    Ok(())
}

// Whether the run is of the plan submitted under the id.
fn is_run_of(jobs: &Jobs, id: Id, run: &Run) -> bool
    ensures same { IsTrue result ↔ (plan_of jobs.now.jobs id ≡ Some run.now.plan) }
{
    let Some(index) = jobs.index_of(id) else {
        return false;
    };
    match jobs.plan_at(index) {
        Some(submitted) => submitted.same(run.plan()),
        None => false,
    }
}
