//! How many jobs run after each event, by how they started.
//!
//! This is drawn instead of bars if a history is gathered into columns. A table has how each job that started did so. An event
//! therefore costs the same, however many jobs run.

ghost use Rattle.std.specs.Prelude.{◌≡◌, ◌-◌, ◌∷◌, [], ◌++◌, List, IfOk, OnOk, option_and_then};
ghost use Rattle.std.specs.List.{cons_option};
ghost use Rattle.std.specs.Option.{option_map};
ghost use Rattle.resil_rule.specs.declared.event.Id.{Id};
ghost use Rattle.resil_stats.specs.Areas.{AreAreasOf, IsTally, MayBeTallied, finished_job};
ghost use Rattle.resil_stats.specs.Spans.{AreBegun, begun_at};
ghost use Rattle.resil_stats.specs.declared.bars.Start.{Start};

use crate::bars::{Start, start_at};
use resil_jdk::JdkEvent;
use resil_rule::Id;
use std::alloc::{AllocError, Global};
use std::collections::HashMap;

/// Some jobs, by how they started.
#[derive(Clone, Copy, Default)]
pub struct Running {
    /// With a new worker below the core size.
    pub core: usize,
    /// With a new worker above the core size.
    pub extra: usize,
    /// Taken from the queue.
    pub queued: usize,
    /// Handed to an idle worker.
    pub handed: usize,
}

impl Running {
    /// All of them.
    pub fn all(&self) -> usize {
        let own = self.core.saturating_add(self.extra);
        own.saturating_add(self.queued).saturating_add(self.handed)
    }

    // Counts one more start.
    #[tactic(auto, using(crate::proofs::AreaLaws::start_few, crate::proofs::AreaLaws::start_more))]
    fn count(&mut self, start: Start)
        requires { MayBeTallied self.old }
        ensures { (starts : List Start) → IsTally starts self.old → IsTally (starts ++ start ∷ []) self.new }
    {
        match start {
            Start::Core => self.core += 1,
            Start::Extra => self.extra += 1,
            Start::Queued => self.queued += 1,
            Start::Handed => self.handed += 1,
        }
    }

    // Counts one more start, if it is one.
    fn count_some(&mut self, start: Option<Start>)
        requires { MayBeTallied self.old }
        ensures { (starts : List Start) → IsTally starts self.old → IsTally (starts ++ cons_option start []) self.new }
    {
        match start {
            Some(start) => self.count(start),
            None => {}
        }
    }

    // These jobs less the others.
    fn less(self, others: Running) -> Running
        ensures core { result.core ≡ self.core - others.core }
        ensures extra { result.extra ≡ self.extra - others.extra }
        ensures queued { result.queued ≡ self.queued - others.queued }
        ensures handed { result.handed ≡ self.handed - others.handed }
    {
        Running {
            core: self.core.saturating_sub(others.core),
            extra: self.extra.saturating_sub(others.extra),
            queued: self.queued.saturating_sub(others.queued),
            handed: self.handed.saturating_sub(others.handed),
        }
    }
}

// The job that is finished at an event.
fn finished_job(event: JdkEvent) -> Option<Id>
    ensures { result ≡ finished_job event }
{
    match event {
        JdkEvent::Finish(id) => Some(id),
        _ => None,
    }
}

// How a job had started, by the table of the jobs that started.
fn known_start(begun: &HashMap<(u16, u64), Start>, job: Option<Id>) -> Option<Start>
    ensures { (all : List (Id × Start)) → AreBegun all begun.now → result ≡ option_and_then (begun_at all) job }
{
    let Some(id) = job else {
        return None;
    };
    begun.get(&(id.caller, id.number)).copied()
}

// How the job started that starts at an event, if one does.
fn start_of(job: Option<(Id, Start)>) -> Option<Start>
    ensures { result ≡ option_map (λ job. job.1) job }
{
    match job {
        Some((_, start)) => Some(start),
        None => None,
    }
}

// Notes how a job started, if one did. Errors: `AllocError` when out of memory.
fn note(begun: &mut HashMap<(u16, u64), Start>, job: Option<(Id, Start)>) -> Result<(), AllocError>
    ensures { OnOk result ((all : List (Id × Start)) → AreBegun all begun.old → AreBegun (all ++ cons_option job []) begun.new) }
{
    match job {
        Some((id, start)) => {
            begun.insert((id.caller, id.number), start)?;
            Ok(())
        }
        None => Ok(()),
    }
}

/// How many jobs run after each event, by how they started: those that started in this way, less those of them that are finished.
/// Errors: `AllocError` when out of memory.
pub(crate) fn areas_of(alloc: Global, events: &[JdkEvent]) -> Result<Vec<Running>, AllocError>
    ensures { IfOk result (λ areas. AreAreasOf events.now areas.items) }
{
    let mut started = Running::default();
    let mut finished = Running::default();
    let mut begun = HashMap::new(alloc);
    let mut areas = Vec::new(alloc);
    for event in events {
        finished.count_some(known_start(&begun, finished_job(*event)));
        let job = start_at(*event);
        note(&mut begun, job)?;
        started.count_some(start_of(job));
        areas.push(started.less(finished))?;
    }
    Ok(areas)
}
