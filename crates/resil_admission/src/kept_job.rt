//! An accepted job that is kept until its row is made.
//!
//! Until it is picked, the job itself is here. It has its plan until it is finished, and then its run,
//! which has that plan too.

ghost use Rattle.std.specs.Prelude.{◌≡◌, ◌++◌, None, Some, true, false, vec_len, vec_capacity, ◌<◌, ◌≤◌, ◌+◌, IsTrue, if◌then◌else◌};
ghost use Rattle.std.specs.Option.{is_some};
ghost use Rattle.resil_admission.specs.JobsInvariant.{result_row};

use super::{Id, Row};
use resil_decor::{Job, Plan, Run, SharedPlan};
use std::marker::Model;

/// The progress of a job.
#[derive(Drop)]
pub(crate) enum Progress {
    /// Its run hasn't ended: the job, if it hasn't been picked yet, and its plan, which both share.
    Unfinished { job: Option<Job>, plan: SharedPlan },
    /// Its run, which has its plan.
    Finished(Run),
}

/// An accepted job: its submission and its progress.
#[derive(Drop)]
pub(crate) struct KeptJob {
    id: Id,
    progress: Progress,
}

impl Model for KeptJob {
    ghost use Rattle.resil_admission.specs.KeptJob.{KeptView, HasOwnPlan, kept_at};

    ghost Value = { KeptView };

    ghost view = { λ k. kept_at k.id k.progress };

    ghost invariant = { λ k. HasOwnPlan k.progress };
}

impl KeptJob {
    // A job of this plan that hasn't been picked yet.
    pub(crate) fn new(id: Id, job: Job, plan: SharedPlan) -> KeptJob
        requires { job ≡ plan }
        ensures { result ≡ record { job = record { id = id; plan = plan; run = None }; unpicked = true } }
    {
        KeptJob {
            id,
            progress: Progress::Unfinished {
                job: Some(job),
                plan,
            },
        }
    }

    // Returns the job, if it hasn't been picked yet.
    pub(crate) fn pick(&mut self) -> Option<Job>
        ensures job { result ≡ (if self.old.unpicked then Some self.old.job.plan else None) }
        ensures picked { self.new ≡ record self.old { unpicked = false } }
    {
        match &mut self.progress {
            Progress::Unfinished { job, .. } => job.take(),
            Progress::Finished(_) => None,
        }
    }

    // Its plan.
    pub(crate) fn plan(&self) -> &Plan
        ensures { result.now ≡ self.now.job.plan }
    {
        match &self.progress {
            Progress::Unfinished { plan, .. } => plan.plan(),
            Progress::Finished(run) => run.plan(),
        }
    }

    // Whether it has its run.
    pub(crate) fn is_finished(&self) -> bool
        ensures run { result ≡ is_some self.now.job.run }
        ensures picked { IsTrue result → self.now.unpicked ≡ false }
    {
        matches!(self.progress, Progress::Finished(_))
    }

    // Gives it its run, and with it the run's plan.
    pub(crate) fn finish(&mut self, run: Run)
        ensures { self.new ≡ record { job = record self.old.job { plan = run.plan; run = Some run }; unpicked = false } }
    {
        self.progress = Progress::Finished(run);
    }

    // Appends its row, if it has its run.
    pub(crate) fn push_row(self, rows: &mut Vec<Row>)
        requires { vec_len rows.old < vec_capacity rows.old }
        ensures row { rows.new.items ≡ rows.old.items ++ result_row self.job }
        ensures len { vec_len rows.new ≤ vec_len rows.old + 1 }
        ensures capacity { vec_capacity rows.new ≡ vec_capacity rows.old }
    {
        let KeptJob { id, progress } = self;
        if let Progress::Finished(run) = progress {
            rows.push_reserved(Row { id, run });
        }
    }
}
