//! The jobs of a history: its submissions, with any reply, each with how long it ran there.
//!
//! The times of starts and of finishes are put into tables by the jobs' ids, so that each event costs the same however many jobs wait.

ghost use Rattle.std.specs.Prelude.{◌≡◌, ◌≤◌, ◌<◌, ◌+◌, ◌^◌, ℕ, List, Some, None, drop, length, IfOk, OnOk, if◌then◌else◌, ◌==◌};
ghost use Rattle.std.specs.BTreeMap.{IsOrdered, get};
ghost use Rattle.std.specs.Option.{option_or};
ghost use Rattle.std.specs.Ordering.{nat_cmp};
ghost use Rattle.resil_jdk.specs.declared.event.JdkEvent.{JdkEvent};
ghost use Rattle.resil_jdk.specs.declared.timed.TimedJdkEvent.{TimedJdkEvent};
ghost use Rattle.resil_stats.specs.Stats.{AreJdkCallersOf};
ghost use Rattle.resil_simulate.specs.History.{AreTimesOf, arrival_by, arrivals_by, earliest_end_by, first_without, in_whole_words, job_at, key, last_at, ran_from, ran_of, run_by, submissions_in};
ghost use Rattle.resil_simulate.specs.declared.history.JobMoment.TheVariants as moment;

use crate::head::{Terms, Unfinished};
use resil_jdk::{JdkEvent, JdkReply, TimedJdkEvent, jdk_event};
use resil_rule::{Id, Timed};
use resil_stats::CallerStats;
use resil_virtual::Arrival;
use std::alloc::{AllocError, Global};
use std::collections::BTreeMap;

/// A history in version 3, in the words of the whole rule.
///
/// # Errors
///
/// `AllocError` when out of memory.
pub fn in_whole_words(alloc: Global, history: &[Timed]) -> Result<Vec<TimedJdkEvent>, AllocError>
    ensures { IfOk result (λ all. all.items ≡ in_whole_words history.now) }
{
    let all = history.iter().map(|timed| TimedJdkEvent {
        event: jdk_event(timed.event),
        at: timed.at,
    });
    all.collect(alloc)
}

// What happens to a job once.
#[derive(Clone, Copy)]
enum JobMoment {
    Start,
    Finish,
}

/// How long a job of a history ran there, in microseconds.
#[derive(Clone, Copy)]
pub enum Ran {
    /// From its start to its finish.
    Whole(u64),
    /// From its start to the last event, and when that is, since any start: it has no finish.
    Cut { us: u64, until: u64 },
    /// It was refused or removed, or waits until the end.
    Never,
}

/// A submission of a history.
#[derive(Clone, Copy)]
pub struct SubmittedJob {
    /// The place of its event, from 1.
    pub place: usize,
    /// Its id.
    pub id: Id,
    /// When it was submitted, in microseconds since any start.
    pub at: u64,
    /// How long its job ran.
    pub ran: Ran,
}

// The job that an event starts, or finishes.
fn job_at(moment: JobMoment, event: JdkEvent) -> Option<Id>
    ensures { result ≡ job_at moment event }
{
    match (moment, event) {
        (JobMoment::Start, JdkEvent::Submit { id, reply }) => match reply {
            JdkReply::Core | JdkReply::Handed | JdkReply::Extra => Some(id),
            JdkReply::First | JdkReply::Queued | JdkReply::Full | JdkReply::Closed => None,
        },
        (JobMoment::Start, JdkEvent::Take(id)) | (JobMoment::Finish, JdkEvent::Finish(id)) => Some(
            id,
        ),
        _ => None,
    }
}

// An id as one number.
fn key_of(id: Id) -> u128
    ensures key { result ≡ key id }
    ensures small { id.number < 2 ^ 64 }
{
    u128::from(id.caller) * 18_446_744_073_709_551_616 + u128::from(id.number)
}

// Puts the time of a job into a table, if it has none yet. Errors: `AllocError` when out of memory.
fn keep_first(times: &mut BTreeMap<u128, u64>, key: u128, at: u64) -> Result<(), AllocError>
    requires { IsOrdered nat_cmp times.old }
    ensures ordered { IsOrdered nat_cmp times.new }
    ensures kept { OnOk result ((other : ℕ) → get nat_cmp times.new other ≡ option_or (get nat_cmp times.old other) (if key == other then Some at else None)) }
{
    if times.get(&key).is_none() {
        times.insert(key, at)?;
    }
    Ok(())
}

// The times at which jobs start, or are finished, by their ids. Errors: `AllocError` when out of memory.
fn times_of(
    alloc: Global,
    moment: JobMoment,
    history: &[TimedJdkEvent],
) -> Result<BTreeMap<u128, u64>, AllocError>
    ensures times { IfOk result (AreTimesOf moment history.now) }
    ensures ordered { IfOk result (IsOrdered nat_cmp) }
{
    let mut times = BTreeMap::new(alloc);
    for timed in history {
        let Some(id) = job_at(moment, timed.event) else {
            continue;
        };
        keep_first(&mut times, key_of(id), timed.at)?;
    }
    Ok(times)
}

// The time of the last event, 0 if there is none.
fn last_at(history: &[TimedJdkEvent]) -> u64
    ensures { result ≡ last_at history.now }
{
    let mut last = 0;
    for timed in history {
        last = timed.at;
    }
    last
}

// How long a job ran that started.
fn ran_from(start: u64, finish: Option<u64>, last: u64) -> Ran
    ensures { result ≡ ran_from start finish last }
{
    match finish {
        Some(finish) => Ran::Whole(finish.saturating_sub(start)),
        None => Ran::Cut {
            us: last.saturating_sub(start),
            until: last,
        },
    }
}

// How long a job ran, by the times of starts and finishes and that of the last event.
fn ran_of(starts: &BTreeMap<u128, u64>, finishes: &BTreeMap<u128, u64>, last: u64, id: Id) -> Ran
    ensures { (history : List TimedJdkEvent) → AreTimesOf moment.Start history starts.now → AreTimesOf moment.Finish history finishes.now → last ≡ last_at history → result ≡ ran_of history id }
{
    let key = key_of(id);
    match starts.get(&key).copied() {
        Some(start) => ran_from(start, finishes.get(&key).copied(), last),
        None => Ran::Never,
    }
}

// The submissions in the rest of a history, after its first events. Errors: `AllocError` when out of memory.
fn submissions_behind(
    alloc: Global,
    restated: usize,
    history: &[TimedJdkEvent],
    rest: &[TimedJdkEvent],
) -> Result<Vec<SubmittedJob>, AllocError>
    requires few { restated + length rest.now < 2 ^ 64 }
    requires rest { rest.now ≡ drop restated history.now }
    ensures { IfOk result (λ jobs. jobs.items ≡ submissions_in restated history.now) }
{
    let starts = times_of(alloc, JobMoment::Start, history)?;
    let finishes = times_of(alloc, JobMoment::Finish, history)?;
    let last = last_at(history);
    let mut jobs = Vec::new(alloc);
    for (index, timed) in rest.iter().enumerate() {
        let JdkEvent::Submit { id, .. } = timed.event else {
            continue;
        };
        jobs.push(SubmittedJob {
            place: restated + index + 1,
            id,
            at: timed.at,
            ran: ran_of(&starts, &finishes, last, id),
        })?;
    }
    Ok(jobs)
}

/// The submissions of a history, in order, after its first `restated` events, which restate the state in which it begins.
///
/// # Errors
///
/// `AllocError` when out of memory.
pub fn submissions_in(
    alloc: Global,
    restated: usize,
    history: &[TimedJdkEvent],
) -> Result<Vec<SubmittedJob>, AllocError>
    requires { restated ≤ length history.now }
    ensures { IfOk result (λ jobs. jobs.items ≡ submissions_in restated history.now) }
{
    submissions_behind(alloc, restated, history, &history[restated..])
}

// How long a job runs in another pool, if it ran to its end, or the head says it.
fn run_by(terms: Terms, ran: Ran) -> Option<u64>
    ensures { result ≡ run_by terms ran }
{
    match (ran, terms.unfinished) {
        (Ran::Whole(us), _) | (Ran::Cut { us, .. }, Unfinished::Run) => Some(us),
        (Ran::Cut { .. }, Unfinished::Takes) | (Ran::Never, _) => terms.takes.map(u64::from),
    }
}

// The earliest moment at which the run of a job may end in another pool: the last event, if the job ran there up to that event and the
// head says no other run.
fn earliest_end_by(terms: Terms, ran: Ran) -> u64
    ensures { result ≡ earliest_end_by terms ran }
{
    match (ran, terms.unfinished) {
        (Ran::Cut { until, .. }, Unfinished::Run) => until,
        _ => 0,
    }
}

/// The place of the first submission without any statement of how long its job runs.
pub fn first_without(terms: Terms, jobs: &[SubmittedJob]) -> Option<usize>
    ensures { result ≡ first_without terms jobs.now }
{
    let without = jobs.iter().find(|job| run_by(terms, job.ran).is_none())?;
    Some(without.place)
}

// A submission as a job of a load. `callers` has the numbers of the callers that submitted in the events that are left out.
fn arrival_by(terms: Terms, callers: &BTreeMap<u16, CallerStats>, job: &SubmittedJob) -> Arrival
    requires { IsOrdered nat_cmp callers.now }
    ensures { (restated : List JdkEvent) → AreJdkCallersOf restated callers.now → result ≡ arrival_by terms restated job.now }
{
    let Id { caller, number } = job.id;
    let before = callers.get(&caller).map_or(0, |stats| stats.submissions);
    Arrival {
        id: Id {
            caller,
            number: number.saturating_sub(before as u64),
        },
        at: job.at,
        takes: run_by(terms, job.ran).unwrap_or(0),
        earliest_end: earliest_end_by(terms, job.ran),
    }
}

/// The jobs of a load by submissions, in order. `callers` has the numbers of the callers that submitted in the events that are left out.
///
/// # Errors
///
/// `AllocError` when out of memory.
pub fn arrivals_by(
    alloc: Global,
    terms: Terms,
    callers: &BTreeMap<u16, CallerStats>,
    jobs: &[SubmittedJob],
) -> Result<Vec<Arrival>, AllocError>
    requires { IsOrdered nat_cmp callers.now }
    ensures { (restated : List JdkEvent) → AreJdkCallersOf restated callers.now → IfOk result (λ arrivals. arrivals.items ≡ arrivals_by terms restated jobs.now) }
{
    let mut arrivals = Vec::new(alloc);
    for job in jobs {
        arrivals.push(arrival_by(terms, callers, job))?;
    }
    Ok(arrivals)
}
