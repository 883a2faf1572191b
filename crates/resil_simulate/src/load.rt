//! The jobs of a load, by the rows of its body or by a history. All rows are compared with each other first, then each with the end of
//! time.

ghost use Rattle.std.specs.Prelude.{◌≡◌, ◌≤◌, ◌<◌, IfErr, IfOk, MatchOption, MatchResult, length, take};
ghost use Rattle.std.specs.BTreeMap.{IsOrdered};
ghost use Rattle.std.specs.Ordering.{nat_cmp};
ghost use Rattle.resil_heads.specs.CommandError.{IsError};
ghost use Rattle.resil_jdk.specs.Admission.{IsLegal};
ghost use Rattle.resil_jdk.specs.Timed.{events_in};
ghost use Rattle.resil_rule.specs.Limits.{Sizes};
ghost use Rattle.resil_stats.specs.Stats.{AreJdkCallersOf};
ghost use Rattle.resil_virtual.specs.Load.{IsLoad, times_of};
ghost use Rattle.resil_simulate.specs.History.{arrivals_by, submissions_in};
ghost use Rattle.resil_simulate.specs.Load.{AreInTime, IsHistoryLoadRefusal, IsHistoryRefusal, IsLateRefusal, IsLoadRefusal, IsTooLateAt, IsUsable, arrivals_of, jobs_in};

use crate::head::{Terms, Ways};
use crate::history::{SubmittedJob, arrivals_by, first_without, submissions_in};
use crate::legality::first_illegal;
use crate::rows::LoadRow;
use resil_heads::{CommandError, HeadError, InputRefusal, LoadRefusal};
use resil_jdk::timed::{events_in, times_in};
use resil_jdk::{JdkEvent, TimedJdkEvent};
use resil_rule::{Id, Verdict, first_back};
use resil_stats::{CallerStats, JdkStats, count_jdk};
use resil_virtual::Arrival;
use std::alloc::{AllocError, Global};
use std::collections::BTreeMap;

// The refusal of the row at a position, from 1.
fn refused(position: usize, why: LoadRefusal) -> CommandError
    ensures { result ≡ CommandError.Refused (InputRefusal.Load position why) }
{
    CommandError::Refused(InputRefusal::Load(position, why))
}

// The jobs of rows, in order. Errors: `AllocError` when out of memory.
#[tactic(auto, using(crate::proofs::LoadLaws::arrivals_push))]
fn arrivals_of(alloc: Global, rows: &[LoadRow]) -> Result<Vec<Arrival>, AllocError>
    ensures { IfOk result (λ arrivals. arrivals.items ≡ arrivals_of rows.now) }
{
    let mut arrivals = Vec::new(alloc);
    for (index, row) in rows.iter().enumerate() {
        let number = index as u64 + 1;
        let takes = u64::from(row.takes);
        arrivals.push(Arrival {
            id: Id { caller: 1, number },
            at: row.at,
            takes,
            earliest_end: 0,
        })?;
    }
    Ok(arrivals)
}

// When jobs come. Errors: `AllocError` when out of memory.
fn times_of(alloc: Global, arrivals: &[Arrival]) -> Result<Vec<u64>, AllocError>
    ensures { IfOk result (λ times. times.items ≡ times_of arrivals.now) }
{
    arrivals.iter().map(|arrival| arrival.at).collect(alloc)
}

// The position, from 1, of the first job that comes too late, or `None` if each is in time.
fn first_late(arrivals: &[Arrival], ways: Ways) -> Option<usize>
    ensures { MatchOption result (AreInTime ways arrivals.now) (IsTooLateAt ways arrivals.now) }
{
    let mut spent: u128 = 0;
    let mut latest = 0;
    for (index, arrival) in arrivals.iter().enumerate() {
        spent += u128::from(arrival.takes) + u128::from(ways.wakes);
        latest = arrival.earliest_end.max(latest);
        let at = u128::from(arrival.at.max(latest));
        if at + spent + u128::from(ways.idle_for) > u128::from(u64::MAX) {
            return Some(index + 1);
        }
    }
    None
}

/// The jobs of rows: submissions of caller 1, numbered from 1.
///
/// # Errors
///
/// In this order, each for the first such row: `TimeGoesBack`; `TimeTooLate`. `Memory` may come at any step.
pub fn load_of(alloc: Global, rows: &[LoadRow], ways: Ways) -> Result<Vec<Arrival>, CommandError>
    ensures arrivals { IfOk result (λ arrivals. arrivals.items ≡ arrivals_of rows.now) }
    ensures load { IfOk result (λ arrivals. IsLoad ways.idle_for ways.wakes arrivals.items) }
    ensures refused { IfErr result (IsError (IsLoadRefusal ways (arrivals_of rows.now))) }
{
    let arrivals = arrivals_of(alloc, rows)?;
    let times = times_of(alloc, &arrivals)?;
    if let Some(position) = first_back(&times) {
        return Err(refused(position, LoadRefusal::TimeGoesBack));
    }
    match first_late(&arrivals, ways) {
        Some(position) => Err(refused(position, LoadRefusal::TimeTooLate)),
        None => Ok(arrivals),
    }
}

// How many events restate a state. Errors: `Refused` as `Head` of `BadValue` if there are fewer events.
fn restated_in(made: u64, history: &[TimedJdkEvent]) -> Result<usize, CommandError>
    ensures { MatchResult result (λ restated. (restated ≡ made) × (made ≤ length history.now)) (λ why. (why ≡ CommandError.Refused (InputRefusal.Head HeadError.BadValue)) × (length history.now < made)) }
{
    match usize::try_from(made) {
        Ok(made) if made <= history.len() => Ok(made),
        _ => Err(CommandError::Refused(InputRefusal::Head(HeadError::BadValue))),
    }
}

// Whether a history of these submissions can be carried out. Errors: `NoTakes`, `Illegal`, `TimeGoesBack`; `Memory` at any step.
fn check_history(
    alloc: Global,
    terms: Terms,
    history: &[TimedJdkEvent],
    events: &[JdkEvent],
    jobs: &[SubmittedJob],
) -> Result<(), CommandError>
    requires made { terms.made ≤ length history.now }
    requires events { events.now ≡ events_in history.now }
    requires jobs { jobs.now ≡ submissions_in terms.made history.now }
    ensures { MatchResult result (λ _. IsUsable terms history.now) (IsError (IsHistoryRefusal terms history.now)) }
{
    if let Some(place) = first_without(terms, jobs) {
        return Err(refused(place, LoadRefusal::NoTakes));
    }
    if let Some(position) = first_illegal(alloc, events)? {
        return Err(refused(position, LoadRefusal::Illegal));
    }
    let times = times_in(alloc, history)?;
    match first_back(&times) {
        Some(position) => Err(refused(position, LoadRefusal::TimeGoesBack)),
        None => Ok(()),
    }
}

// What callers submitted in events. Errors: `AllocError` when out of memory.
fn callers_in(alloc: Global, events: &[JdkEvent]) -> Result<BTreeMap<u16, CallerStats>, AllocError>
    requires { (limits : Sizes) × IsLegal limits events.now }
    ensures callers { IfOk result (AreJdkCallersOf events.now) }
    ensures ordered { IfOk result (IsOrdered nat_cmp) }
{
    let JdkStats { callers, .. } = count_jdk(alloc, Verdict::Legal, 0, events)?;
    Ok(callers)
}

// The jobs of submissions. The first `restated` events are left out. Errors: `AllocError` when out of memory.
fn jobs_of(
    alloc: Global,
    terms: Terms,
    restated: usize,
    events: &[JdkEvent],
    jobs: &[SubmittedJob],
) -> Result<Vec<Arrival>, AllocError>
    requires few { restated ≤ length events.now }
    requires legal { (limits : Sizes) × IsLegal limits events.now }
    ensures { IfOk result (λ arrivals. arrivals.items ≡ arrivals_by terms (take restated events.now) jobs.now) }
{
    let callers = callers_in(alloc, &events[..restated])?;
    arrivals_by(alloc, terms, &callers, jobs)
}

// Whether each of the jobs of submissions is in time. Errors: `TimeTooLate`.
fn check_times(arrivals: &[Arrival], ways: Ways, jobs: &[SubmittedJob]) -> Result<(), CommandError>
    requires { length jobs.now ≡ length arrivals.now }
    ensures { MatchResult result (λ _. AreInTime ways arrivals.now) (IsError (IsLateRefusal ways arrivals.now jobs.now)) }
{
    match first_late(arrivals, ways) {
        Some(position) => Err(refused(jobs[position - 1].place, LoadRefusal::TimeTooLate)),
        None => Ok(()),
    }
}

/// The jobs of a history: its submissions after the events that restate a state, with their callers. Each takes as long as it ran there.
/// A job that was started and has no finish takes as long as it ran up to the last event, and ends no earlier than that, or takes what
/// the terms say. A job that was never started takes what the terms say.
///
/// # Errors
///
/// In this order: `Head` of `BadValue` if more events than there are restate a state; then, each for the first such row, `NoTakes`;
/// `Illegal`; `TimeGoesBack`; `TimeTooLate`. `Memory` may come at any step.
#[tactic(auto, using(crate::proofs::HistoryLaws::late_refused))]
pub fn load_of_history(
    alloc: Global,
    history: &[TimedJdkEvent],
    ways: Ways,
    terms: Terms,
) -> Result<Vec<Arrival>, CommandError>
    ensures arrivals { IfOk result (λ arrivals. arrivals.items ≡ jobs_in terms history.now) }
    ensures usable { IfOk result (λ _. IsUsable terms history.now) }
    ensures load { IfOk result (λ arrivals. IsLoad ways.idle_for ways.wakes arrivals.items) }
    ensures refused { IfErr result (IsError (IsHistoryLoadRefusal ways terms history.now)) }
{
    let restated = restated_in(terms.made, history)?;
    let jobs = submissions_in(alloc, restated, history)?;
    let events = events_in(alloc, history)?;
    check_history(alloc, terms, history, &events, &jobs)?;
    let arrivals = jobs_of(alloc, terms, restated, &events, &jobs)?;
    check_times(&arrivals, ways, &jobs)?;
    Ok(arrivals)
}
