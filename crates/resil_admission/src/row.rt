//! The result of an accepted job.

use super::Id;
use resil_decor::Run;

/// The run of the job that was accepted under this id.
///
/// ```
/// for row in &rows {
///     println!(rt; "{} of caller {}: {:?}", row.id.number, row.id.caller, row.run.outcome())?;
/// }
/// ```
#[derive(Drop)]
pub struct Row {
    /// The submission of the job.
    pub id: Id,
    /// The run of the job, with its outcome.
    pub run: Run,
}
