//! Hostile use of pools of typed jobs. Those that keep their whole history are judged at their end: it is legal.
//!
//! What may be out of memory or threads is tried once more then, and returns what it returns with ample memory:
//! `tools/refuse_in_tests` refuses each growth and each start of a thread in turn.

ghost use Rattle.std.specs.Prelude.{◌≡◌};
ghost use Rattle.resil_executor.specs.Seats.{IsOf};

use crate::shared::{assert_that, is_legal, opened};
use resil_executor::{Ended, ExecutorCloser, Numbers, Refused, WorkPool, work_while};
use resil_rule::{AdmitError, AllEvents, Event, Id, LastEvents, NoRecord, Record};
use resil_task::by_hand::Task;
use resil_task::{Answers, Pending, Work};
use std::alloc::{AllocError, Global};
use std::process::Abort;
use std::sync::Wait;
use std::test::Fail;
use std::thread;
use std::thread::Threads;

/// Doubles a number.
#[derive(Drop)]
struct Double(u32);

impl Answers for Double {
    type Output = u64;

    ghost use Rattle.std.specs.Prelude.{◌≡◌, ◌*◌};

    ghost IsAnswer = { λ double answer. answer ≡ 2 * double.0 };
}

impl Work for Double {
    fn run(self) -> u64 {
        2 * u64::from(self.0)
    }
}

type Doubles<H> = WorkPool<Double, H>;

type DoublesCloser<H> = ExecutorCloser<Task<Double>, H>;

/// Submits a job, and returns the future of its answer.
fn submitted<H: Record, R: Wait>(
    rt: &R,
    alloc: Global,
    pool: &Doubles<H>,
    work: Double,
) -> Result<Pending<Double>, (Refused, Double)> {
    match pool.submit(rt, alloc, work) {
        Ok((_id, pending)) => Ok(pending),
        Err((refused, work)) => Err((refused.into_value(), work)),
    }
}

/// Submits a job, once more if it was out of memory. The refused job came back, and nothing was written.
fn submitted_at_last<H: Record, R: Abort + Wait>(
    rt: &R,
    alloc: Global,
    pool: &Doubles<H>,
    number: u32,
) -> Result<Pending<Double>, AllocError> {
    let before = pool.numbers(rt);
    let (refused, work) = match submitted(rt, alloc, pool, Double(number)) {
        Ok(pending) => return Ok(pending),
        Err(back) => back,
    };
    let after = pool.numbers(rt);
    assert_that(
        rt,
        refused == Refused::Memory,
        "no other refusal than that of memory",
    );
    assert_that(rt, work.0 == number, "the refused work");
    assert_that(rt, after.accepted == before.accepted, "no work accepted");
    assert_that(rt, after.refused == before.refused, "no refusal counted");
    match submitted(rt, alloc, pool, work) {
        Ok(pending) => Ok(pending),
        Err(_) => Err(AllocError),
    }
}

/// Whether the answer for this number is its double.
fn is_double(answered: Result<u64, Double>, number: u32) -> bool {
    match answered {
        Ok(answer) => answer == 2 * u64::from(number),
        Err(_) => false,
    }
}

/// The load on a pool: how many callers there are, each on a thread of its own, and in how many parts of how many jobs each
/// submits. The jobs of a part are submitted before the first answer is waited for.
#[derive(Clone, Copy)]
struct Load {
    callers: usize,
    parts: u32,
    at_once: u32,
}

/// Submits `count` jobs, with the numbers from `first` on.
fn submit_part<H: Record, R: Abort + Wait>(
    rt: &R,
    alloc: Global,
    pool: &Doubles<H>,
    (first, count): (u32, u32),
    pending: &mut Vec<Pending<Double>>,
) -> Result<(), AllocError> {
    for number in first..first.saturating_add(count) {
        pending.push(submitted_at_last(rt, alloc, pool, number)?)?;
    }
    Ok(())
}

/// Submits `count` jobs, with the numbers from `first` on. Asserts that the answer of each accepted one is its double.
fn ask_part<H: Record, R: Abort + Wait>(
    rt: &R,
    alloc: Global,
    pool: &Doubles<H>,
    first: u32,
    count: u32,
) -> Result<(), AllocError> {
    let mut pending = Vec::new(alloc);
    let submitted = submit_part(rt, alloc, pool, (first, count), &mut pending);
    let mut number = first;
    for one in pending {
        assert_that(rt, is_double(one.wait(rt), number), "a double");
        number = number.wrapping_add(1);
    }
    submitted
}

/// Submits the load of a caller. Returns whether all of it was accepted.
fn ask<H: Record, R: Abort + Wait>(
    rt: &R,
    alloc: Global,
    pool: &Doubles<H>,
    load: Load,
    caller: usize,
) -> bool {
    let each = load.parts.wrapping_mul(load.at_once);
    let mut first = ((caller % 64) as u32).wrapping_mul(each);
    for _ in 0..load.parts {
        if ask_part(rt, alloc, pool, first, load.at_once).is_err() {
            return false;
        }
        first = first.wrapping_add(load.at_once);
    }
    true
}

/// Submits the load of all callers. Returns whether all of it was accepted.
fn ask_all<H: Record + Send, R: Abort + Threads + Wait + Sync>(
    rt: &R,
    alloc: Global,
    pool: &Doubles<H>,
    load: Load,
) -> bool {
    match thread::map_indices(
        rt,
        alloc,
        load.callers,
        &|caller| ask(rt, alloc, pool, load, caller),
    ) {
        Ok(all) => !all.contains(&false),
        Err(_) => false,
    }
}

/// Does so while the pool's threads work, if one could be started. Asserts that everything accepted is finished then.
fn serve<H: Record + Send, R: Abort + Threads + Wait + Sync>(
    rt: &R,
    alloc: Global,
    pool: &Doubles<H>,
    closer: DoublesCloser<H>,
    load: Load,
) -> Result<Numbers, AdmitError>
    requires mine { IsOf pool.now closer.seat }
{
    let Ended { answer, .. } = work_while(rt, pool, closer, 20, || ask_all(rt, alloc, pool, load));
    let is_refused = matches!(answer, Ok(false));
    let after = pool.numbers(rt);
    assert_that(
        rt,
        after.closed && after.refused == 0,
        "a closed pool without refusals",
    );
    assert_that(
        rt,
        after.finished == after.accepted,
        "all that was accepted finished",
    );
    if is_refused {
        return Err(AdmitError::Memory);
    }
    Ok(after.into_value())
}

/// The same with a pool of these sizes that keeps all events. Asserts that its history is legal.
fn serve_legally<R: Abort + Threads + Wait + Sync>(
    rt: &R,
    alloc: Global,
    sizes: (u32, u32, u32),
    load: Load,
) -> Result<Numbers, AdmitError> {
    let (pool, closer) = opened(alloc, sizes, AllEvents::new(alloc))?;
    let after = serve(rt, alloc, &pool, closer, load);
    match is_legal(rt, alloc, &pool) {
        Ok(()) => after,
        Err(error) => Err(error),
    }
}

#[test]
fn callers_on_64_threads_get_their_own_answers(rt: HostRuntime) -> Result<(), Fail> {
    let load = Load {
        callers: 64,
        parts: 20,
        at_once: 1,
    };
    let after = serve_legally(&rt, rt.alloc(), (1, 2, 1_000), load)?;
    assert_that(
        &rt,
        after.accepted == 1_280 && after.workers == 0,
        "1280 works",
    );
    Ok(())
}

#[test]
fn refused_growth_of_a_submission(rt: HostRuntime) -> Result<(), Fail> {
    let load = Load {
        callers: 1,
        parts: 3,
        at_once: 1,
    };
    serve_legally(&rt, rt.alloc(), (1, 2, 8), load)?;
    Ok(())
}

// 200,000 jobs of 64 callers through a pool of two workers that keeps no record.
#[test]
fn two_hundred_thousand_works_are_answered_by_their_own_answers(
    rt: HostRuntime,
) -> Result<(), Fail> {
    let load = Load {
        callers: 64,
        parts: 25,
        at_once: 125,
    };
    let (pool, closer) = opened(rt.alloc(), (2, 2, 8_000), NoRecord)?;
    let after = serve(&rt, rt.alloc(), &pool, closer, load);
    let is_all = match after {
        Ok(after) => after.accepted == 200_000 && after.workers == 0,
        Err(_) => false,
    };
    assert_that(&rt, is_all, "200,000 works");
    Ok(())
}

/// Submits four jobs. The first isn't waited for; the caller waits for the others by what comes back.
fn four_submitted<R: Abort + Wait>(
    rt: &R,
    alloc: Global,
    pool: &Doubles<AllEvents>,
) -> Vec<Pending<Double>> {
    let mut pending = Vec::new(alloc);
    drop(submitted(rt, alloc, pool, Double(0)));
    let all = submit_part(rt, alloc, pool, (1, 3), &mut pending);
    assert_that(rt, all.is_ok(), "three more works accepted");
    pending
}

/// The sum of the answers that are there.
fn sum_of(pending: Vec<Pending<Double>>) -> u64 {
    let mut sum: u64 = 0;
    for one in pending {
        if let Ok(Ok(answer)) = one.try_take() {
            sum = sum.saturating_add(answer);
        }
    }
    sum
}

/// The sum of the answers to four jobs that are submitted while the pool's threads work. It is taken after the end.
fn sum_of_four<R: Abort + Threads + Wait + Sync>(
    rt: &R,
    alloc: Global,
    pool: &Doubles<AllEvents>,
    closer: DoublesCloser<AllEvents>,
) -> Option<u64>
    requires mine { IsOf pool.now closer.seat }
{
    let Ended { answer, .. } = work_while(rt, pool, closer, 20, || four_submitted(rt, alloc, pool));
    match answer {
        Ok(pending) => Some(sum_of(pending)),
        Err(_) => None,
    }
}

/// Asserts that a job isn't accepted after the closing, and comes back.
fn is_late<R: Abort + Wait>(rt: &R, alloc: Global, pool: &Doubles<AllEvents>) {
    let late = submitted(rt, alloc, pool, Double(9));
    let is_back = matches!(late, Err((Refused::Closed, Double(9))));
    assert_that(rt, is_back, "no work after the closing");
}

// A pool closes after four jobs, and finishes them.
#[test]
fn closing_lets_no_accepted_work_go(rt: HostRuntime) -> Result<(), AdmitError> {
    let alloc = rt.alloc();
    let (pool, closer) = opened(alloc, (1, 1, 8), AllEvents::new(alloc))?;
    let sum = sum_of_four(&rt, alloc, &pool, closer);
    assert_that(&rt, sum == Some(12), "the sum of three doubles");
    is_late(&rt, alloc, &pool);
    let after = pool.numbers(&rt);
    assert_that(
        &rt,
        after.accepted == 4 && after.finished == 4,
        "four works",
    );
    assert_that(&rt, after.refused == 1, "one refusal");
    is_legal(&rt, alloc, &pool)
}

/// Submits three jobs, without waiting for them, to a pool that keeps the last events, and ends it.
fn leave_three<R: Wait>(
    rt: &R,
    alloc: Global,
    pool: &Doubles<LastEvents>,
    closer: DoublesCloser<LastEvents>,
)
    requires mine { IsOf pool.now closer.seat }
{
    let mut closer = closer;
    for _ in 0..3 {
        drop(submitted(rt, alloc, pool, Double(1)));
    }
    drop(pool.end(rt, &mut closer, &mut ()));
}

/// Asserts that the last events are those in which the second of three jobs is finished, and the third run.
fn is_after_three<R: Abort + Wait>(
    rt: &R,
    alloc: Global,
    pool: &Doubles<LastEvents>,
) -> Result<(), Fail> {
    let mut visitor = pool.visitor();
    let last = pool.last_events(rt, alloc, &mut visitor)?;
    let second = Id {
        caller: 1,
        number: 2,
    };
    let third = Id {
        caller: 1,
        number: 3,
    };
    let end = [
        Event::Finish(second),
        Event::Take(third),
        Event::Finish(third),
        Event::IdleEnd,
    ];
    assert_that(rt, last.lost == 6, "six events before the last");
    assert_that(
        rt,
        last.events.as_slice() == end.as_slice(),
        "the last four events",
    );
    Ok(())
}

// Three submissions and the closing come first. The first submission starts the one worker. Then the first job is ended, and
// each waiting job is taken and ended.
#[test]
fn last_events_are_the_end_of_the_history(rt: HostRuntime) -> Result<(), Fail> {
    let alloc = rt.alloc();
    let (pool, closer) = opened(alloc, (1, 1, 8), LastEvents::new(alloc, 4)?)?;
    leave_three(&rt, alloc, &pool, closer);
    is_after_three(&rt, alloc, &pool)
}

/// Submits jobs before and after the sizes are set to 1, and closes. Returns whether all were accepted.
fn resize_between<R: Abort + Wait>(
    rt: &R,
    alloc: Global,
    pool: &Doubles<AllEvents>,
    closer: DoublesCloser<AllEvents>,
) -> bool
    requires mine { IsOf pool.now closer.seat }
{
    let load = Load {
        callers: 2,
        parts: 20,
        at_once: 1,
    };
    let mut closer = closer;
    let before = ask(rt, alloc, pool, load, 0);
    let resized = pool.resize(rt, &mut closer, 1, 1).is_ok();
    let after = ask(rt, alloc, pool, load, 1);
    pool.close(rt, &mut closer);
    before && resized && after
}

/// Does this while a worker works.
fn resize_under_load<R: Abort + Threads + Wait + Sync>(
    rt: &R,
    alloc: Global,
    pool: &Doubles<AllEvents>,
    closer: DoublesCloser<AllEvents>,
) -> bool
    requires mine { IsOf pool.now closer.seat }
{
    let mut closer = closer;
    let worker = pool.hire(&mut closer);
    let (_, all) = thread::join(
        rt,
        move ||
            requires mine { IsOf pool.now worker.seat }
        {
            let mut worker = worker;
            pool.work(rt, &mut worker, &mut (), 20);
        },
        move ||
            requires mine { IsOf pool.now closer.seat }
        { resize_between(rt, alloc, pool, closer) },
    );
    all
}

#[test]
fn sizes_are_set_to_one_under_load(rt: HostRuntime) -> Result<(), AdmitError> {
    let alloc = rt.alloc();
    let (pool, closer) = opened(alloc, (2, 4, 8), AllEvents::new(alloc))?;
    let all = resize_under_load(&rt, alloc, &pool, closer);
    assert_that(&rt, all, "works and sizes that are accepted");
    let after = pool.numbers(&rt);
    assert_that(&rt, after.core == 1 && after.max == 1, "sizes of 1");
    assert_that(&rt, after.finished == 40, "40 works");
    is_legal(&rt, alloc, &pool)
}
