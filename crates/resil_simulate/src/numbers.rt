//! The numbers of a history that `simulate` writes.
//!
//! `resil_stats` counts how often things happen and how long jobs waited. The time that jobs ran, and that workers existed to run them,
//! is added up event by event: their number after an event, times the time to the next event.

ghost use Rattle.std.specs.Prelude.{◌≡◌, ◌≤◌, ◌<◌, ◌+◌, ◌*◌, ◌/◌, ◌^◌, ◌==◌, IfOk, None as nothing, Some, if◌then◌else◌};
ghost use Rattle.resil_jdk.specs.Admission.{IsLegal};
ghost use Rattle.resil_jdk.specs.Limits.{AreJdkLimits};
ghost use Rattle.resil_jdk.specs.Timed.{events_in, times_in};
ghost use Rattle.resil_rule.specs.Limits.{Sizes};
ghost use Rattle.resil_rule.specs.Timed.{AreAscending};
ghost use Rattle.resil_simulate.specs.Numbers.{AreNumbersOf, HasTimes, busy, run_time, worker_time};

use resil_jdk::timed::{events_in, times_in};
use resil_jdk::{JdkEvent, TimedJdkEvent};
use resil_rule::Verdict;
use resil_stats::{Load, Ranks, count_jdk, waits_of_jdk};
use std::alloc::{AllocError, Global};

/// The numbers of a history.
#[derive(Clone, Copy)]
pub struct PoolNumbers {
    /// The submissions, refused ones too.
    pub submitted: usize,
    /// The submissions that were refused since the pool was full.
    pub refused: usize,
    /// How long the jobs waited that started, in microseconds.
    pub waits: Ranks,
    /// The most jobs that waited at one moment.
    pub most_waiting: usize,
    /// The most workers that there were at one moment.
    pub most_workers: usize,
    /// How busy the workers were up to the last finish, in thousandths, rounded down, or `None` if there was no worker for any time.
    pub busy: Option<u64>,
}

/// Microseconds of all jobs that ran, and of all workers.
#[derive(Clone, Copy, Default)]
pub(crate) struct Areas {
    pub(crate) run_time: u128,
    pub(crate) worker_time: u128,
}

impl Areas {
    /// With the time of a load that lasts for some microseconds.
    pub(crate) fn plus(self, load: Load, lasts: u64) -> Areas
        requires run_time { self.run_time + load.running * lasts < 2 ^ 128 }
        requires worker_time { self.worker_time + load.workers * lasts < 2 ^ 128 }
        ensures run_time { result.run_time ≡ self.run_time + load.running * lasts }
        ensures worker_time { result.worker_time ≡ self.worker_time + load.workers * lasts }
    {
        let lasts = u128::from(lasts);
        Areas {
            run_time: self.run_time + load.running as u128 * lasts,
            worker_time: self.worker_time + load.workers as u128 * lasts,
        }
    }

    /// How busy the workers were, in thousandths of their time, rounded down, or `None` if they have no time.
    pub(crate) fn busy(self) -> Option<u64>
        requires { (self.run_time ≤ self.worker_time) × (self.worker_time < 2 ^ 93) }
        ensures { result ≡ (if self.worker_time == 0 then nothing else Some (self.run_time * 1000 / self.worker_time)) }
    {
        if self.worker_time == 0 {
            None
        } else {
            Some((self.run_time * 1000 / self.worker_time) as u64)
        }
    }
}

// The time of jobs and of workers up to the last finish.
fn areas_of(events: &[JdkEvent], times: &[u64]) -> Areas
    requires { HasTimes events.now times.now }
    ensures run_time { result.run_time ≡ run_time events.now times.now }
    ensures worker_time { result.worker_time ≡ worker_time events.now times.now }
{
    let mut load = Load::default();
    let mut so_far = Areas::default();
    let mut finished = so_far;
    for (index, event) in events.iter().enumerate() {
        let lasts = times[index].saturating_sub(times[index.saturating_sub(1)]);
        so_far = so_far.plus(load, lasts);
        load = load.after(*event);
        let JdkEvent::Finish(_) = event else {
            continue;
        };
        finished = so_far;
    }
    finished
}

// How busy the workers were.
fn busy_of(events: &[JdkEvent], times: &[u64]) -> Option<u64>
    requires { HasTimes events.now times.now }
    ensures { result ≡ busy events.now times.now }
{
    areas_of(events, times).busy()
}

/// The numbers of a legal history whose times ascend. The first `restated` events restate the state in which it begins: their submissions
/// don't count in any submission, refusal or wait.
///
/// # Errors
///
/// `AllocError` when out of memory.
pub fn numbers_of(
    alloc: Global,
    restated: usize,
    history: &[TimedJdkEvent],
) -> Result<PoolNumbers, AllocError>
    requires legal { (limits : Sizes) × AreJdkLimits limits × IsLegal limits (events_in history.now) }
    requires ascending { AreAscending (times_in history.now) }
    ensures { IfOk result (AreNumbersOf restated (events_in history.now) (times_in history.now)) }
{
    let events = events_in(alloc, history)?;
    let times = times_in(alloc, history)?;
    let waits = waits_of_jdk(alloc, restated, &events, &times)?;
    let stats = count_jdk(alloc, Verdict::Legal, restated, &events)?;
    Ok(PoolNumbers {
        submitted: stats.answers.submissions,
        refused: stats.answers.full,
        waits,
        most_waiting: stats.most.waiting,
        most_workers: stats.most.workers,
        busy: busy_of(&events, &times),
    })
}
