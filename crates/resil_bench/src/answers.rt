//! Your own jobs with an answer each, which is compared. A round may be judged: then the pool records all events, and
//! its history has to be legal.

ghost use Rattle.std.specs.Prelude.{[]};
ghost use Rattle.resil_executor.specs.Seats.{IsOf};

use crate::pool::{KEEP_ALIVE, QUEUE};
use crate::round::Round;
use crate::total::total;
use anyhow::anyhow;
use resil_executor::{Ended, ExecutorCloser, WorkPool, work_while};
use resil_rule::{AllEvents, NoRecord, Record, Sizes, Verdict, audit_by};
use resil_task::by_hand::Task;
use resil_task::{Answers, Pending, Work};
use std::alloc::{AllocError, Global};
use std::ops::Range;
use std::sync::Wait;
use std::thread;
use std::thread::Threads;

/// A job that answers its number.
#[derive(Drop)]
struct Echo(u64);

impl Answers for Echo {
    type Output = u64;
}

impl Work for Echo {
    fn run(self) -> u64 {
        self.0
    }
}

// Submits the jobs of these numbers, and returns the futures of their answers.
fn submitted<H: Record, R: Wait>(
    rt: &R,
    alloc: Global,
    pool: &WorkPool<Echo, H>,
    numbers: Range<u64>,
) -> Result<Vec<Pending<Echo>>, AllocError> {
    let mut visitor = pool.visitor();
    let mut all = Vec::new(alloc);
    for number in numbers {
        if let Ok((_id, pending)) = pool.submit_by(rt, alloc, &mut visitor, Echo(number)) {
            all.push(pending)?;
        }
    }
    Ok(all)
}

// How many of these answers are those of the jobs from this number on.
fn right_answers<R: Wait>(rt: &R, all: Vec<Pending<Echo>>, first: u64) -> u64 {
    let mut right: u64 = 0;
    let mut number = first;
    for pending in all {
        if pending.wait(rt).is_ok_and(|answer| answer == number) {
            right = right.saturating_add(1);
        }
        number = number.saturating_add(1);
    }
    right
}

// Runs the jobs of one caller, this many at a time, and returns how many answers were right.
fn answers_of<H: Record, R: Wait>(
    rt: &R,
    alloc: Global,
    pool: &WorkPool<Echo, H>,
    numbers: Range<u64>,
    at_once: u64,
) -> u64 {
    let mut right: u64 = 0;
    let mut next = numbers.start;
    for _ in numbers.start..numbers.end {
        if next >= numbers.end {
            break;
        }
        let end = numbers.end.min(next.saturating_add(at_once));
        if let Ok(all) = submitted(rt, alloc, pool, next..end) {
            right = right.saturating_add(right_answers(rt, all, next));
        }
        next = end;
    }
    right
}

// Runs the jobs of the callers on an open pool, as many at a time as its queue has room for, each with a number of its
// own. Returns how many answers were right.
fn right_in_all<H: Record + Send, R: Threads + Wait + Sync>(
    rt: &R,
    alloc: Global,
    pool: &WorkPool<Echo, H>,
    closer: ExecutorCloser<Task<Echo>, H>,
    round: Round,
) -> anyhow::Result<u64>
    requires mine { IsOf pool.now closer.seat }
{
    let callers = round.callers.max(1);
    let (each, at_once) = (u64::from(round.count / callers), u64::from(QUEUE / callers));
    let Ended { answer, .. } = work_while(rt, pool, closer, KEEP_ALIVE, || {
        thread::map_indices(
            rt,
            alloc,
            callers as usize,
            &|caller| {
                let first = (caller as u64).saturating_mul(each);
                answers_of(rt, alloc, pool, first..first.saturating_add(each), at_once)
            },
        )
    });
    match answer {
        Ok(rights) => Ok(total(&rights?)),
        Err(_) => Err(anyhow!("no thread could be started")),
    }
}

// Opens a pool with this record, and runs the jobs of the callers on it. Returns how many answers were right.
fn answered<H: Record + Send, R: Threads + Wait + Sync>(
    rt: &R,
    alloc: Global,
    round: Round,
    blank: H,
) -> anyhow::Result<(WorkPool<Echo, H>, u64)>
    requires { H.IsRecordOf [] blank }
{
    let sizes = Sizes::new(round.workers, round.workers, QUEUE)?;
    let (pool, closer) = WorkPool::open(alloc, sizes, blank)?;
    match right_in_all(rt, alloc, &pool, closer, round) {
        Ok(right) => Ok((pool, right)),
        Err(error) => Err(error),
    }
}

/// Runs the jobs of the callers, and returns how many answers were right.
pub(crate) fn run<R: Threads + Wait + Sync>(
    rt: &R,
    alloc: Global,
    round: Round,
) -> anyhow::Result<u64> {
    let (_pool, right) = answered(rt, alloc, round, NoRecord)?;
    Ok(right)
}

// Whether the history of a pool is legal.
fn is_legal<R: Wait>(
    rt: &R,
    alloc: Global,
    pool: &WorkPool<Echo, AllEvents>,
) -> anyhow::Result<bool> {
    let history = pool.history(rt, alloc, &mut pool.visitor())?;
    Ok(audit_by(alloc, &pool.limits(), &history)? == Verdict::Legal)
}

/// Like `run`, with a record of all events, which has to be a legal history.
pub(crate) fn run_judged<R: Threads + Wait + Sync>(
    rt: &R,
    alloc: Global,
    round: Round,
) -> anyhow::Result<u64> {
    let (pool, right) = answered(rt, alloc, round, AllEvents::new(alloc))?;
    match is_legal(rt, alloc, &pool) {
        Ok(true) => Ok(right),
        Ok(false) => Err(anyhow!("the history isn't legal")),
        Err(error) => Err(error),
    }
}
