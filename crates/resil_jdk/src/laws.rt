//! Small histories on which the definitions are worked out, by computation alone, and laws of all legal ones.

ghost use Rattle.resil_jdk.specs.Admission.{IsLegal, WorkersWithinOpening, RunningWithinWorkers, JobsConserved};
ghost use Rattle.resil_jdk.specs.FromRule.{AreLegalAlike};
ghost use Rattle.resil_jdk.specs.Examples.{sizes, core_zero, cached, culled, stopped, timed_out, discarded, queued_without_worker, handed_to_nobody, removed_then_taken, taken_when_stopped, culled_within_maximum, started_when_stopped};

/// Six histories that are legal, and six that aren't. The function does nothing: its contract is the point.
pub fn worked_histories()
    ensures core_zero { IsLegal (sizes 0 2 1) core_zero }
    ensures cached { IsLegal (sizes 0 2 0) cached }
    ensures culled { IsLegal (sizes 1 2 1) culled }
    ensures stopped { IsLegal (sizes 1 1 2) stopped }
    ensures timed_out { IsLegal (sizes 1 1 1) timed_out }
    ensures discarded { IsLegal (sizes 1 1 1) discarded }
    ensures queued_without_worker { ¬ IsLegal (sizes 0 2 1) queued_without_worker }
    ensures handed_to_nobody { ¬ IsLegal (sizes 0 1 0) handed_to_nobody }
    ensures removed_then_taken { ¬ IsLegal (sizes 1 1 1) removed_then_taken }
    ensures taken_when_stopped { ¬ IsLegal (sizes 1 1 1) taken_when_stopped }
    ensures culled_within_maximum { ¬ IsLegal (sizes 1 2 1) culled_within_maximum }
    ensures started_when_stopped { ¬ IsLegal (sizes 1 1 1) started_when_stopped }
{}

/// The law of resizes: there are never more workers than the maximum size of the opening, whatever they set.
pub fn workers_within_opening()
    ensures { WorkersWithinOpening }
{}

/// The law of jobs at once: no more run than there are workers. With `workers_within_opening` no more jobs run at once than
/// the maximum size of the opening.
pub fn running_within_workers()
    ensures { RunningWithinWorkers }
{}

/// The law of conservation: each accepted job waits, runs, is finished or was removed, and is only one of these, once. So no
/// job is lost, and none is run or finished twice.
pub fn jobs_conserved()
    ensures { JobsConserved }
{}

/// The law of the two rules: a history of `resil_rule`'s rule, with sizes that it takes, is legal by the whole rule exactly
/// if it is legal by that one, as long as no resize sets the core size 0.
pub fn legal_alike()
    ensures { AreLegalAlike }
{}
