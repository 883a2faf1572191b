//! Runs of rows: what is refused, what is written with hold and without, and that threads share the pool at the same time.

use crate::render::{are_results, is_history};
use crate::shared::{
    Batch, assert_that, config, passed, push_row, report_under_bulkhead, run, run_rows,
};
use resil_admission::{Event, Id, Verdict, audit};
use resil_decor::Passes;
use resil_workers::{Hook, JobRow, Receipt, Report, RunConfig};
use std::alloc::Global;
use std::process::Abort;
use std::sync::{Mutex, Wait};
use std::thread::{self, Threads};
use std::time::{Clock, Duration};

/// This many rows of each of these callers without layers, with the values 1, 2, and so on.
fn rows(rt: &impl Abort, alloc: Global, callers: &[u16], each: usize) -> Vec<JobRow> {
    let mut rows = Vec::new(alloc);
    let mut value: i64 = 0;
    for _ in 0..each {
        for caller in callers {
            value = value.wrapping_add(1);
            passed(rt, push_row(alloc, &mut rows, *caller, &[], value));
        }
    }
    rows
}

/// The report of rows without bulkheads.
fn reported<R: Abort + Threads + Wait + Sync>(
    rt: &R,
    alloc: Global,
    config: RunConfig,
    rows: Vec<JobRow>,
    hold: bool,
) -> Report {
    passed(rt, run(rt, alloc, Batch { config, rows, hold }))
}

// Held rows are submitted in their order, also those of several callers.
#[test]
fn held_rows_stand_in_order(rt: HostRuntime) {
    let alloc = rt.alloc();
    let rows = rows(&rt, alloc, &[1, 2, 1, 2], 1);
    let report = reported(&rt, alloc, config(&rt, (1, 1, 2), 2), rows, true);
    let history = "Core 1-1, Queued 2-1, Queued 1-2, Full 2-2, close, \
         finish 1-1, take 2-1, finish 2-1, take 1-2, finish 1-2, idle-end";
    is_history(&rt, alloc, &report, history);
    let results = "1-1 Value(1) by 1 [], 2-1 Value(2) by 1 [], 1-2 Value(3) by 1 []";
    are_results(&rt, alloc, &report, results);
}

/// How many events of a history are submissions.
fn submission_count(history: &[Event]) -> usize {
    let mut count = 0usize;
    for event in history {
        if let Event::Submit { .. } = event {
            count = count.wrapping_add(1);
        }
    }
    count
}

/// Asserts that each of four callers has 250 receipts.
fn are_receipts_of_four(rt: &impl Abort, receipts: &[Vec<Receipt>]) {
    assert_that(rt, receipts.len() == 4, "four callers");
    for own in receipts {
        assert_that(rt, own.len() == 250, "250 receipts of each caller");
    }
}

// Four callers submit on threads of their own while eight workers run.
#[test]
fn many_turns(rt: HostRuntime) {
    let alloc = rt.alloc();
    let config = config(&rt, (4, 8, 16), 4);
    let rows = rows(&rt, alloc, &[1, 2, 3, 4], 250);
    let report = reported(&rt, alloc, config, rows, false);
    let history = report.history.as_slice();
    assert_that(&rt, submission_count(history) == 1000, "1000 submissions");
    let is_legal = matches!(audit(alloc, &config.limits, history), Ok(Verdict::Legal));
    assert_that(&rt, is_legal, "a legal history");
    are_receipts_of_four(&rt, report.receipts.as_slice());
}

/// How many of this many rows of one caller have results, submitted without hold.
fn finished<R: Abort + Threads + Wait + Sync>(
    rt: &R,
    alloc: Global,
    config: &RunConfig,
    jobs: usize,
) -> usize {
    let rows = rows(rt, alloc, &[1], jobs);
    reported(rt, alloc, *config, rows, false).results.len()
}

/// The maximum number of runs until one shows that workers run while callers submit.
const MAX_RUNS: u32 = 100;

// Two jobs are accepted if the worker starts after the caller has submitted all, and more if it runs meanwhile.
#[test]
fn workers_beside_callers(rt: HostRuntime) {
    let config = config(&rt, (1, 1, 1), 1);
    let mut runs_beside = false;
    for _ in 0..MAX_RUNS {
        runs_beside = finished(&rt, rt.alloc(), &config, 1_000) > 2;
        if runs_beside {
            break;
        }
    }
    assert_that(
        &rt,
        runs_beside,
        "a worker that runs while jobs are submitted",
    );
}

// A job under two layers of one bulkhead, which has one permit.
#[test]
fn nested_same(rt: HostRuntime) {
    let report = passed(
        &rt,
        report_under_bulkhead(&rt, rt.alloc(), 1, &[0, 0], true),
    );
    let wanted =
        "1-1 Error(Full) by 0 [Asked { id: 0, granted: true }, Asked { id: 0, granted: false }]";
    are_results(&rt, rt.alloc(), &report, wanted);
}

/// How often a job that is held polls whether the other is done, a millisecond apart.
const MAX_TURNS: u32 = 30_000;

/// Holds the first job of caller 1 until another is done, for at most this many polls.
#[derive(Drop)]
struct Meeting<'a, R: Wait + Clock> {
    rt: &'a R,
    other: Id,
    other_through: Mutex<bool>,
    met: Mutex<bool>,
}

impl<'a, R: Wait + Clock> Hook for Meeting<'a, R> {
    fn before(&self, id: Id) {
        if id == self.other {
            return;
        }
        for _ in 0..MAX_TURNS {
            if *self.other_through.lock(self.rt) {
                *self.met.lock(self.rt) = true;
                return;
            }
            thread::sleep(self.rt, Duration::from_millis(1));
        }
    }

    fn after(&self, id: Id) {
        if id == self.other {
            *self.other_through.lock(self.rt) = true;
        }
    }
}

/// Asserts that the first job of caller 1 ends after another, which is the second row. It is held until then, and the rows
/// are submitted without hold, each by its caller.
fn assert_meeting<R: Abort + Threads + Wait + Clock + Sync>(
    rt: &R,
    alloc: Global,
    callers: &[u16],
    other: Id,
) {
    let meeting = Meeting {
        rt,
        other,
        other_through: Mutex::new(false),
        met: Mutex::new(false),
    };
    let mut nobody = Passes::new(rt, &[], Vec::new(alloc));
    let batch = Batch {
        config: config(rt, (2, 2, 1), other.caller),
        rows: rows(rt, alloc, callers, 1),
        hold: false,
    };
    let report = passed(rt, run_rows(rt, alloc, &mut nobody, &meeting, batch));
    let met = *meeting.met.lock(rt);
    assert_that(rt, met, "a job that ends while another is held");
    assert_that(rt, report.results.len() == 2, "two results");
}

// A job waits for another of its caller's, and for the job of another caller, which submits while it runs or before.
#[test]
fn two_at_once(rt: HostRuntime) {
    for (caller, number) in [(1, 2), (2, 1)] {
        assert_meeting(&rt, rt.alloc(), &[1, caller], Id { caller, number });
    }
}

/// How many pools are opened one after the other to check that an idle worker never closes one.
const POOLS: u32 = 200;

// A worker that asks to end after each empty poll closes nothing: all rows are accepted, and have results.
#[test]
fn idle_workers_close_nothing(rt: HostRuntime) {
    let config = RunConfig {
        keep_alive: 1,
        ..config(&rt, (1, 2, 3), 1)
    };
    for _ in 0..POOLS {
        assert_that(
            &rt,
            finished(&rt, rt.alloc(), &config, 3) == 3,
            "three results",
        );
    }
}
