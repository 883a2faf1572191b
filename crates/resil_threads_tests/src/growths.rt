//! Calls of the pool that allocate or start threads, when out of memory or threads.
//!
//! `tools/refuse_in_tests` runs each of these tests with one growth refused, for every growth, and with all refused from one
//! growth on, and likewise with starts of threads. A call that is refused has changed nothing visible, and returns what it
//! got. Called once more, it returns what it returns with ample memory: these tests check that too when nothing is refused.

use crate::parts::Parts;
use crate::shared::{
    Batch, answer, assert_that, config, job_of, plan, report_under_bulkhead, rows_of_seven, run,
};
use resil_admission::{Event, Id, Reply, Row};
use resil_decor::{Asked, DecorError, Plan};
use resil_retry::Outcome;
use resil_workers::{OpenError, Report, ResizeError, RunError, SubmitError, Ticket};
use std::alloc::Global;
use std::process::Abort;
use std::sync::Wait;
use std::test::Fail;
use std::thread::Threads;

/// How many callers and workers a pool of limits 1, 2, 1 has.
fn opened_parts(rt: &impl Abort, alloc: Global) -> Result<(usize, usize), OpenError> {
    let parts = Parts::open(rt, alloc, (1, 2, 1), 2)?;
    Ok((parts.callers.len(), parts.workers.len()))
}

#[test]
fn refused_growth_of_an_opened_pool(rt: HostRuntime) -> Result<(), Fail> {
    let parts = match opened_parts(&rt, rt.alloc()) {
        Err(OpenError::Memory) => opened_parts(&rt, rt.alloc()),
        answer => answer,
    };
    assert_that(&rt, parts? == (2, 2), "two callers and two workers");
    Ok(())
}

/// Submits a job of a copy of this plan, once more if it was out of memory. The refused job came back, and the caller has
/// no receipt of it.
fn submitted_at_last<R: Abort + Wait>(
    rt: &R,
    alloc: Global,
    parts: &mut Parts,
    caller: usize,
    same: &Plan,
) -> Result<Ticket, DecorError> {
    let job = job_of(alloc, same.copy(alloc)?)?;
    let receipts = parts.receipts(caller).len();
    match parts.submit(rt, alloc, caller, job) {
        Ok(ticket) => Ok(ticket),
        Err((SubmitError::Memory, job)) => {
            assert_that(rt, job.plan().same(same), "the refused job");
            assert_that(rt, parts.receipts(caller).len() == receipts, "no receipt");
            match answer(parts.submit(rt, alloc, caller, job)) {
                Ok(ticket) => Ok(ticket),
                Err(SubmitError::Memory) => Err(DecorError::Memory),
            }
        }
    }
}

/// The ticket of a job with one call, which has this value.
fn ticket<R: Abort + Wait>(
    rt: &R,
    alloc: Global,
    parts: &mut Parts,
    caller: usize,
    value: i64,
) -> Result<Ticket, DecorError> {
    let same = plan(alloc, &[], value)?;
    submitted_at_last(rt, alloc, parts, caller, &same)
}

/// Asserts that this is the ticket of a job with one call, which has this value.
fn gets<R: Abort + Wait>(
    rt: &R,
    alloc: Global,
    parts: &mut Parts,
    (caller, value): (usize, i64),
    (number, reply): (u64, Reply),
) -> Result<(), DecorError> {
    match ticket(rt, alloc, parts, caller, value) {
        Ok(ticket) => {
            assert_that(
                rt,
                ticket == Ticket { number, reply },
                "its number and its reply",
            );
            Ok(())
        }
        Err(refused) => Err(refused),
    }
}

/// Caller 1 submits `V1`, caller 2 submits `V2` and `V3`.
fn submit_three<R: Abort + Wait>(
    rt: &R,
    alloc: Global,
    parts: &mut Parts,
) -> Result<(), DecorError> {
    gets(rt, alloc, parts, (0, 1), (1, Reply::Core))?;
    gets(rt, alloc, parts, (1, 2), (1, Reply::Queued))?;
    gets(rt, alloc, parts, (1, 3), (2, Reply::Full))?;
    assert_that(rt, parts.receipts(0).len() == 1, "one receipt of caller 1");
    assert_that(rt, parts.receipts(1).len() == 2, "two receipts of caller 2");
    Ok(())
}

/// Asserts that results have these values, each by one call, which requested these permits.
fn are_rows(rt: &impl Abort, results: &[Row], values: &[i64], asked: &[Asked]) {
    assert_that(rt, results.len() == values.len(), "a result of each");
    for (result, value) in results.iter().zip(values) {
        assert_that(
            rt,
            result.run.outcome() == Outcome::Value(*value),
            "its value",
        );
        assert_that(rt, result.run.calls() == 1, "one call");
        assert_that(rt, result.run.asked() == asked, "its permits");
    }
}

/// A submission with its reply.
fn submission(id: Id, reply: Reply) -> Event {
    Event::Submit { id, reply }
}

/// Asserts the report of the three submissions, without allocating.
fn is_of_three(rt: &impl Abort, report: &Report) {
    let [first, second, third] = [(1, 1), (2, 1), (2, 2)].map(|(caller, number)| Id {
        caller,
        number,
    });
    let history = [
        submission(first, Reply::Core),
        submission(second, Reply::Queued),
        submission(third, Reply::Full),
        Event::Close,
        Event::Finish(first),
        Event::Take(second),
        Event::Finish(second),
    ];
    let is_history = report.history.as_slice() == history.as_slice();
    assert_that(rt, is_history, "the history of three submissions");
    are_rows(rt, report.results.as_slice(), &[1, 2], &[]);
}

/// Makes the three submissions, and asserts their report. What is refused is passed on once nothing is owned.
fn three_are_drained<R: Abort + Wait>(
    rt: &R,
    alloc: Global,
    parts: Parts,
) -> Result<(), DecorError> {
    let mut parts = parts;
    let submitted = submit_three(rt, alloc, &mut parts);
    let report = parts.drained(rt, alloc);
    if submitted.is_ok() {
        is_of_three(rt, &report);
    }
    submitted
}

// The submission of each of the three is refused at each of its growths. After the last one the drain doesn't allocate:
// if all memory is refused from there on, the last line of the test is the first that notices.
#[test]
fn refused_growth_none_after_acceptance(rt: HostRuntime) -> Result<(), Fail> {
    let alloc = rt.alloc();
    three_are_drained(&rt, alloc, Parts::open(&rt, alloc, (1, 1, 1), 2)?)?;
    let _grown: Vec<u8> = Vec::with_capacity(alloc, 1)?;
    Ok(())
}

/// Resizes a pool four times to 2 and 2, each once more if it was out of memory.
fn resize_four_times<R: Abort + Wait>(rt: &R, parts: &mut Parts) -> Result<(), ResizeError> {
    for _ in 0..4 {
        if parts.resize(rt, 2, 2).is_err() {
            parts.resize(rt, 2, 2)?;
        }
    }
    Ok(())
}

/// Whether a history is that of four resizes to 2 and 2.
fn are_four_resizes(history: &[Event]) -> bool {
    let resize = Event::Resized { core: 2, max: 2 };
    history == [resize, resize, resize, resize, Event::Close].as_slice()
}

// If one resize was out of memory, the pool is as it was, and the next one is written. The drain doesn't allocate.
#[test]
fn refused_growth_of_a_resize(rt: HostRuntime) -> Result<(), Fail> {
    let mut parts = Parts::open(&rt, rt.alloc(), (1, 2, 1), 1)?;
    let resized = resize_four_times(&rt, &mut parts);
    let report = parts.drained(&rt, rt.alloc());
    let are_four = are_four_resizes(report.history.as_slice());
    assert_that(&rt, resized.is_err() || are_four, "four resizes");
    Ok(resized?)
}

/// Asserts that two rows have the value 7 by one call, for which bulkhead 0 gave a permit.
fn are_sevens<R: Abort + Threads + Wait + Sync>(
    rt: &R,
    alloc: Global,
    hold: bool,
) -> Result<(), RunError> {
    let report = report_under_bulkhead(rt, alloc, 2, &[0], hold)?;
    let granted = Asked {
        id: 0,
        granted: true,
    };
    are_rows(rt, report.results.as_slice(), &[7, 7], &[granted]);
    Ok(())
}

// The rows are held, and then they aren't.
#[test]
fn refused_growth_of_a_run(rt: HostRuntime) -> Result<(), Fail> {
    are_sevens(&rt, rt.alloc(), true)?;
    are_sevens(&rt, rt.alloc(), false)?;
    Ok(())
}

/// How many results two rows without layers have on two workers.
fn count_results<R: Abort + Threads + Wait + Sync>(
    rt: &R,
    alloc: Global,
) -> Result<usize, RunError> {
    let Ok(rows) = rows_of_seven(alloc, 2, &[]) else {
        return Err(RunError::Memory);
    };
    let config = config(rt, (2, 2, 2), 2);
    let report = run(
        rt,
        alloc,
        Batch {
            config,
            rows,
            hold: false,
        },
    )?;
    Ok(report.results.len())
}

// If the thread of a worker is refused, the worker works on the calling thread, and the first one may work at the same
// time. Both would poll forever if the pool weren't closed by then.
#[test]
fn refused_growth_of_a_run_on_two_workers(rt: HostRuntime) -> Result<(), Fail> {
    let counted = match count_results(&rt, rt.alloc()) {
        Err(RunError::Memory | RunError::NoThread) => count_results(&rt, rt.alloc()),
        answer => answer,
    };
    assert_that(&rt, counted? == 2, "two results");
    Ok(())
}
