//! The pool of a replay: one machine, and the jobs that are out, that is, picked and not finished.
//!
//! A job that gets a worker of its own is picked at once, and a picked job is kept here until its finish,
//! which runs it. So each job that a worker runs is here, with the plan that was submitted under its id.
//! Room for a job is reserved before the machine is called, so a refused row leaves everything as it was.

ghost use Rattle.std.specs.Prelude.{◌≡◌, [], false, IfOk, IfErr, IfSome, OnOk, IfNone, position};
ghost use Rattle.resil_rule.specs.History.{is_among, is_same_id};
ghost use Rattle.resil_replay.specs.Play.{IsRowError};
ghost use Rattle.resil_replay.specs.State.{HasReplayed, IsCarriedOut};
ghost use Rattle.resil_replay.specs.Pool.{ids_in_flight, IsRemoved};
ghost use Rattle.resil_replay.specs.declared.rows.ReplayRow.{ReplayRow};

use crate::rows::ReplayRow;
use resil_admission::{AdmitError, Id, Limits, Machine, Reply};
use resil_decor::{Chain, Job, Listed, Plan, SharedPlan};
use resil_heads::RowRefusal;
use resil_retry::{Outcome, Script};
use std::alloc::{AllocError, Global};
use std::marker::Model;

/// Why a row wasn't carried out.
#[derive(Clone, Copy)]
pub(crate) enum RowError {
    /// Out of memory.
    Memory,
    /// The pool refuses the row.
    Refused(RowRefusal),
}

/// A machine, the jobs that were picked and haven't finished, the plan that all jobs share, and a permitter
/// that grants nothing, for jobs without bulkheads.
#[derive(Drop)]
pub(crate) struct ReplayPool {
    machine: Machine,
    out: Vec<(Id, Job)>,
    plan: SharedPlan,
    no_bulkheads: Listed,
}

impl Model for ReplayPool {
    ghost use Rattle.resil_admission.specs.MachineView.{MachineView};

    ghost Value = { MachineView };

    ghost use Rattle.resil_replay.specs.Pool.{ReplayPoolInvariant};

    ghost view = { λ p. p.machine };

    ghost invariant = { λ p. ReplayPoolInvariant p.machine p.out.items };
}

impl ReplayPool {
    /// Makes a new pool of these limits. Its jobs have no layers, and a function that returns the value 0.
    ///
    /// # Errors
    ///
    /// `AllocError` if out of memory.
    pub(crate) fn new(alloc: Global, limits: Limits) -> Result<ReplayPool, AllocError>
        ensures { IfOk result (HasReplayed limits []) }
    {
        let chain = Chain::new(Vec::new(alloc)).map_err(|_| AllocError)?;
        let plan = Plan::new(chain, Script::one(Outcome::Value(0)));
        let plan = SharedPlan::new(alloc, plan).map_err(|_| AllocError)?;
        let no_bulkheads = Listed::new(alloc, Vec::new(alloc)).map_err(|_| AllocError)?;
        let machine = Machine::new(alloc, limits).map_err(|_| AllocError)?;
        Ok(ReplayPool {
            machine,
            out: Vec::new(alloc),
            plan,
            no_bulkheads,
        })
    }

    /// Submits a job. It is picked at once if a worker was started for it.
    ///
    /// # Errors
    ///
    /// With nothing changed: `WrongNumber` if the number isn't the caller's next one; `Memory` if out of memory.
    pub(crate) fn submit(&mut self, alloc: Global, id: Id) -> Result<(), RowError>
        ensures played { OnOk result (IsCarriedOut (ReplayRow.Submit id) self.old self.new) }
        ensures refused { IfErr result (IsRowError self.old.limits self.old.history (ReplayRow.Submit id)) }
    {
        if self.out.reserve(1).is_err() {
            return Err(RowError::Memory);
        }
        let Ok(job) = Job::sharing(alloc, &self.plan) else {
            return Err(RowError::Memory);
        };
        match self.machine.submit(alloc, id, job) {
            Ok(Reply::Core | Reply::Extra) => {
                let picked = self.machine.pick().unwrap();
                self.out.push_reserved(picked);
                Ok(())
            }
            Ok(Reply::Queued | Reply::Full | Reply::Closed) => Ok(()),
            Err((AdmitError::WrongNumber, _)) => Err(RowError::Refused(RowRefusal::WrongNumber)),
            Err(_) => Err(RowError::Memory),
        }
    }

    /// Runs the job that is out under an id, and passes its run to the machine.
    ///
    /// # Errors
    ///
    /// `NotOut` if no job of this id is out.
    pub(crate) fn finish(&mut self, id: Id) -> Result<(), RowError>
        ensures played { OnOk result (IsCarriedOut (ReplayRow.Finish id) self.old self.new) }
        ensures refused { IfErr result (IsRowError self.old.limits self.old.history (ReplayRow.Finish id)) }
    {
        let Some(job) = remove_job(&mut self.out, id) else {
            return Err(RowError::Refused(RowRefusal::NotOut));
        };
        match self
            .machine
            .finish_picked(id, job.run(&mut self.no_bulkheads))
        {
            Ok(()) => Ok(()),
            Err(_) => Err(RowError::Refused(RowRefusal::NotOut)),
        }
    }

    /// Lets an idle worker take the job at the front of the queue.
    ///
    /// # Errors
    ///
    /// In this order, with nothing changed: `Memory` if out of memory; `NotAllowed` if no job waits or no
    /// worker is idle.
    pub(crate) fn take(&mut self) -> Result<(), RowError>
        ensures played { OnOk result (IsCarriedOut ReplayRow.Take self.old self.new) }
        ensures refused { IfErr result (IsRowError self.old.limits self.old.history ReplayRow.Take) }
    {
        if self.out.reserve(1).is_err() {
            return Err(RowError::Memory);
        }
        match self.machine.pick() {
            Some(picked) => {
                self.out.push_reserved(picked);
                Ok(())
            }
            None => Err(RowError::Refused(RowRefusal::NotAllowed)),
        }
    }

    /// Ends an idle worker.
    ///
    /// # Errors
    ///
    /// `NotAllowed`, with nothing changed, if no worker may end.
    pub(crate) fn idle(&mut self) -> Result<(), RowError>
        ensures played { OnOk result (IsCarriedOut ReplayRow.Idle self.old self.new) }
        ensures refused { IfErr result (IsRowError self.old.limits self.old.history ReplayRow.Idle) }
    {
        if !self.machine.idle_end() {
            return Err(RowError::Refused(RowRefusal::NotAllowed));
        }
        Ok(())
    }

    /// Sets the core size and the maximum size.
    ///
    /// # Errors
    ///
    /// In this order, with nothing changed: `CoreOutOfRange` if the core size isn't from 1 to 64;
    /// `MaxOutOfRange` if the maximum size is below it or above that of the limits; `Memory` if out of memory.
    pub(crate) fn resize(&mut self, core: u32, max: u32) -> Result<(), RowError>
        ensures played { OnOk result (IsCarriedOut (ReplayRow.Resize core max) self.old self.new) }
        ensures refused { IfErr result (IsRowError self.old.limits self.old.history (ReplayRow.Resize core max)) }
    {
        match self.machine.resize(core, max) {
            Ok(()) => Ok(()),
            Err(AdmitError::CoreOutOfRange) => Err(RowError::Refused(RowRefusal::CoreOutOfRange)),
            Err(AdmitError::MaxOutOfRange) => Err(RowError::Refused(RowRefusal::MaxOutOfRange)),
            Err(_) => Err(RowError::Memory),
        }
    }

    /// Closes the pool. A closed pool stays as it is.
    pub(crate) fn close(&mut self)
        ensures { IsCarriedOut ReplayRow.Close self.old self.new }
    {
        self.machine.close();
    }

    /// The machine itself.
    pub(crate) fn into_machine(self) -> Machine
        ensures { result ≡ self }
    {
        let ReplayPool {
            machine,
            out: _,
            plan: _,
            no_bulkheads: _,
        } = self;
        machine
    }
}

// Removes the first job of an id from the jobs that are out.
fn remove_job(out: &mut Vec<(Id, Job)>, id: Id) -> Option<Job>
    ensures taken { IfSome result (λ job. IsRemoved out.old.items id job out.new.items) }
    ensures none { IfNone result (is_among id (ids_in_flight out.old.items) ≡ false) }
    ensures unchanged { IfNone result (out.new.items ≡ out.old.items) }
{
    match index_of(out, id) {
        Some(index) => Some(out.remove(index).1),
        None => None,
    }
}

// The index of the first job of an id, from 0.
fn index_of(out: &[(Id, Job)], id: Id) -> Option<usize>
    ensures { result ≡ position (λ job. is_same_id id job.0) out.now }
{
    out.iter().position(|job| id == job.0)
}
