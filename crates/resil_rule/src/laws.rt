//! Small histories on which the definitions are computed, and laws of all legal histories.

ghost use Rattle.resil_rule.specs.Admission.{IsAllowed, IsLegal, WorkersWithinOpening, RunningWithinWorkers, JobsConserved};
ghost use Rattle.resil_rule.specs.Examples.{sizes, four_submissions, core_before_reuse, idle_worker_full_queue, queued_twice, machine_resized, pool_resized, answered_by_opening, last_worker_ended};

use super::Event;

/// Five histories that are legal, three that aren't, and resizes that the rule refuses. The function does
/// nothing: its contract is the point.
pub fn worked_histories()
    ensures four_submissions { IsLegal (sizes 1 2 1) four_submissions }
    ensures core_before_reuse { IsLegal (sizes 2 2 1) core_before_reuse }
    ensures idle_worker_full_queue { IsLegal (sizes 1 1 1) idle_worker_full_queue }
    ensures queued_twice { ¬ IsLegal (sizes 1 1 1) queued_twice }
    ensures machine_resized { IsLegal (sizes 1 2 1) machine_resized }
    ensures pool_resized { IsLegal (sizes 1 2 1) pool_resized }
    ensures answered_by_opening { ¬ IsLegal (sizes 1 2 1) answered_by_opening }
    ensures last_worker_ended { ¬ IsLegal (sizes 1 2 1) last_worker_ended }
    ensures above_opening { ¬ IsAllowed (sizes 1 2 1) machine_resized (Event.Resized 2 3) }
    ensures max_below_core { ¬ IsAllowed (sizes 1 2 1) machine_resized (Event.Resized 2 1) }
    ensures no_core { ¬ IsAllowed (sizes 1 2 1) machine_resized (Event.Resized 0 1) }
    ensures core_above_opening { ¬ IsAllowed (sizes 1 2 1) pool_resized (Event.Resized 65 65) }
{}

/// The law of resizes: they never let in more workers than the maximum size at the opening.
pub fn workers_within_opening()
    ensures { WorkersWithinOpening }
{}

/// The law of concurrent jobs: no more run than there are workers. With `workers_within_opening`, no more jobs run at
/// once than the maximum size at the opening.
pub fn running_within_workers()
    ensures { RunningWithinWorkers }
{}

/// The law of conservation: each accepted job waits, runs or is finished. It is in exactly one of these states,
/// once. So no job is lost, and none is run or finished twice.
pub fn jobs_conserved()
    ensures { JobsConserved }
{}
