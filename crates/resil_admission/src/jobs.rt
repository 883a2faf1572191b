//! The accepted jobs of a pool: each with its plan, and with its run if it has one.
//!
//! A job is here until it is picked, and its plan stays. Jobs stay in order of acceptance, so that a run can
//! be compared with the plan that was submitted, and the results are in that order. The results of the
//! oldest jobs, up to the first one that isn't finished, are rows, returned later as they are. The later
//! jobs wait in a queue for their rows, and the room that they had there is reused. A table maps the id of a
//! job to its place, so a job is never searched for. So a pool that runs for a long time has one row for
//! each job, one table entry for each submission, and little more. The room for the rows is reserved
//! together with the jobs, so returning them doesn't allocate.

ghost use Rattle.std.specs.Prelude.{◌≡◌, ◌↔◌, ◌⊎◌, ◌<◌, ◌≤◌, true, false, ◌++◌, ◌∷◌, [], None, Some, option_map, slice_get, position, IsTrue, IsSome, IsOk, IfOk, IfErr, IfSome, OnOk, OnErr};
ghost use Rattle.std.specs.List.{list_all};
ghost use Rattle.std.specs.Option.{is_some};
ghost use Rattle.resil_decor.specs.Run.{IsValue};
ghost use Rattle.resil_rule.specs.History.{is_same_id, is_among};
ghost use Rattle.resil_admission.specs.MachineView.{plan_of, ids_of, with_run, AllDone, AreResultsOf};
ghost use Rattle.resil_admission.specs.JobsInvariant.{unpicked_in};
ghost use Rattle.resil_admission.specs.JobsView.{HasPlace};
ghost use Rattle.resil_rule.specs.declared.event.Id.{Id as IdOf};

use super::kept_job::KeptJob;
use super::submission_table::SubmissionTable;
use super::{Id, Row};
use resil_decor::{Job, Plan, Run, SharedPlan};
use std::alloc::{AllocError, Global};
use std::collections::VecDeque;
use std::marker::Model;

/// An accepted job: its submission, its plan, and its run if it has one. Contracts mention it; no call returns one.
#[derive(Drop)]
pub struct Accepted {
    pub(crate) id: Id,
    pub(crate) plan: Plan,
    pub(crate) run: Option<Run>,
}

/// The accepted jobs, in order of acceptance.
#[derive(Drop)]
pub(crate) struct Jobs {
    /// The results of the oldest jobs, with room for those of all jobs.
    rows: Vec<Row>,
    /// The jobs after them, oldest first.
    later: VecDeque<KeptJob>,
    /// The place of each job, by its id.
    places: SubmissionTable,
}

impl Model for Jobs {
    ghost use Rattle.std.specs.Prelude.{◌-◌, ◌+◌, vec_len, vec_capacity};
    ghost use Rattle.std.specs.VecDeque.{deque_len, deque_capacity};
    ghost use Rattle.resil_admission.specs.JobsView.{JobsView};
    ghost use Rattle.resil_admission.specs.JobsInvariant.{JobsInvariant, jobs_of, jobs_kept, all_kept};

    ghost Value = { JobsView };

    ghost view = { λ j. record {
      jobs = jobs_kept j.rows.items (jobs_of j.later.items);
      kept = all_kept j.rows.items j.later.items;
      places = j.places;
      room = deque_capacity j.later - deque_len j.later;
      result_room = vec_capacity j.rows - (vec_len j.rows + deque_len j.later);
    } };

    ghost invariant = { JobsInvariant };
}

impl Jobs {
    // No jobs yet. It doesn't allocate.
    pub(crate) fn new(alloc: Global) -> Jobs
        ensures { result.jobs ≡ [] }
    {
        Jobs {
            rows: Vec::new(alloc),
            later: VecDeque::new(alloc),
            places: SubmissionTable::new(alloc),
        }
    }

    // Makes a place for a submission's job in the table. Errors: out of memory.
    pub(crate) fn reserve_place(&mut self, id: Id) -> Result<(), AllocError>
        ensures has { OnOk result (HasPlace self.new id) }
        ensures jobs { self.new.jobs ≡ self.old.jobs }
        ensures kept { self.new.kept ≡ self.old.kept }
    {
        self.places.reserve(id)
    }

    // Makes room for one more job and its result. Errors: out of memory.
    pub(crate) fn reserve(&mut self) -> Result<(), AllocError>
        ensures room { OnOk result ((0 < self.new.room) × (0 < self.new.result_room)) }
        ensures jobs { self.new.jobs ≡ self.old.jobs }
        ensures kept { self.new.kept ≡ self.old.kept }
        ensures places { self.new.places ≡ self.old.places }
    {
        self.rows.reserve(self.later.len().saturating_add(1))?;
        self.later.reserve(1)
    }

    // Keeps one more job, of this plan, which hasn't been picked yet.
    pub(crate) fn push(&mut self, id: Id, job: Job, plan: SharedPlan)
        requires plan { job ≡ plan }
        requires room { (0 < self.old.room) × (0 < self.old.result_room) }
        requires place { HasPlace self.old id }
        requires number { 1 ≤ id.number }
        requires new { is_among id (ids_of self.old.jobs) ≡ false }
        ensures jobs { self.new.jobs ≡ self.old.jobs ++ record { id = id; plan = plan; run = None } ∷ [] }
        ensures unpicked { (other : IdOf) → (is_same_id other id ≡ true) ⊎ (unpicked_in self.old.kept other ≡ true) → unpicked_in self.new.kept other ≡ true }
    {
        let index = self.rows.len() + self.later.len();
        self.places.set(id, index);
        self.later.push_back_reserved(KeptJob::new(id, job, plan));
    }

    // Returns the job of an id that hasn't been picked yet.
    pub(crate) fn pick(&mut self, id: Id) -> Option<Job>
        ensures some { unpicked_in self.old.kept id ≡ true → IsSome result }
        ensures plan { IfSome result (λ job. plan_of self.old.jobs id ≡ Some job) }
        ensures jobs { self.new.jobs ≡ self.old.jobs }
        ensures others { (other : IdOf) → is_same_id other id ≡ false → unpicked_in self.new.kept other ≡ unpicked_in self.old.kept other }
    {
        let index = self.places.get(id)?.checked_sub(self.rows.len())?;
        self.later[index].pick()
    }

    // The index of the job of an id, from 0.
    pub(crate) fn index_of(&self, id: Id) -> Option<usize>
        ensures { result ≡ position (is_same_id id) (ids_of self.now.jobs) }
    {
        self.places.get(id)
    }

    // The plan of the job at an index, from 0.
    pub(crate) fn plan_at(&self, index: usize) -> Option<&Plan>
        ensures { option_map (λ plan. plan.now) result ≡ option_map (λ job. job.plan) (slice_get self.now.jobs index) }
    {
        let made = self.rows.len();
        if index < made {
            Some(self.rows[index].run.plan())
        } else {
            self.later.get(index - made).map(|job| job.plan())
        }
    }

    // Keeps the run of the job at an index, from 0, which is the job of this id, and makes rows of at most
    // two finished jobs.
    pub(crate) fn record_run(&mut self, index: usize, id: Id, run: Run)
        requires index { position (is_same_id id) (ids_of self.old.jobs) ≡ Some index }
        requires plan { plan_of self.old.jobs id ≡ Some run.plan }
        requires value { IsValue run }
        ensures jobs { self.new.jobs ≡ with_run self.old.jobs id run }
        ensures others { (other : IdOf) → is_same_id other id ≡ false → unpicked_in self.new.kept other ≡ unpicked_in self.old.kept other }
    {
        self.keep_run(index, id, run);
        self.make_row();
        self.make_row();
    }

    // Keeps the run of the job at an index, from 0. It is the job of this id, which only the contract reads.
    fn keep_run(&mut self, index: usize, id: Id, run: Run)
        requires index { position (is_same_id id) (ids_of self.old.jobs) ≡ Some index }
        requires plan { plan_of self.old.jobs id ≡ Some run.plan }
        requires value { IsValue run }
        ensures jobs { self.new.jobs ≡ with_run self.old.jobs id run }
        ensures others { (other : IdOf) → is_same_id other id ≡ false → unpicked_in self.new.kept other ≡ unpicked_in self.old.kept other }
    {
        let made = self.rows.len();
        if index < made {
            set_run(&mut self.rows[index], run);
        } else {
            self.later[index - made].finish(run);
        }
    }

    // Makes the row of the oldest job without one, if that job is finished.
    fn make_row(&mut self)
        ensures jobs { self.new.jobs ≡ self.old.jobs }
        ensures unpicked { (other : IdOf) → unpicked_in self.new.kept other ≡ unpicked_in self.old.kept other }
    {
        let finished = match self.later.front() {
            Some(job) => job.is_finished(),
            None => false,
        };
        if !finished {
            return;
        }
        if let Some(job) = self.later.pop_front() {
            job.push_row(&mut self.rows);
        }
    }

    // Whether each job has its run.
    fn all_done(&self) -> bool
        ensures { result ≡ list_all (λ job. is_some job.run) self.now.jobs }
    {
        all_finished(&self.later)
    }

    // The results of all jobs, in order of acceptance, or all jobs again if one has no result.
    pub(crate) fn into_rows(self) -> Result<Vec<Row>, Jobs>
        ensures done { IsOk result ↔ AllDone self.jobs }
        ensures results { IfOk result (λ rows. AreResultsOf self.jobs rows.items) }
        ensures jobs_back { IfErr result (λ jobs. jobs ≡ self) }
    {
        if !self.all_done() {
            return Err(self);
        }
        let Jobs {
            mut rows,
            mut later,
            places: _places,
        } = self;
        while let Some(job) = later.pop_front() {
            job.push_row(&mut rows);
        }
        Ok(rows)
    }
}

// Replaces the run of a row.
fn set_run(row: &mut Row, run: Run)
    ensures { row.new ≡ record row.old { run = run } }
{
    row.run = run;
}

// Whether each of these jobs has its run.
fn all_finished(jobs: &VecDeque<KeptJob>) -> bool
    ensures { result ≡ list_all (λ kept. is_some kept.job.run) jobs.now.items }
{
    jobs.iter().all(|job| job.is_finished())
}
