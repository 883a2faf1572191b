//! What the history that seats see is made of: what each turn wrote, with the plan of the job for a submission, and with
//! the run of the job for a finish. With the plans in it, the history alone says what each accepted job was to run.

use resil_admission::Row;
use resil_decor::Plan;
use resil_lock::Logged;

/// The plan or the run that came with what a turn wrote. No value of it is made.
pub struct Carried {
    /// For a submission, the plan of its job.
    pub plan: Option<Plan>,
    /// For a finish, its job and the run that is kept.
    pub ended: Option<Row>,
}

/// What a turn wrote, with the plan or the run that came with it.
pub type LoggedEvent = Logged<Carried>;
