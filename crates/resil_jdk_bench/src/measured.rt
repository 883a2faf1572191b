//! How long an audit takes: by the whole rule for pools with 500 workers; by that of `resil_rule` for pools with 8 workers, and
//! with 64, the most that it takes.

use resil_jdk::{JdkEvent, JdkLimits, JdkReply};
use resil_rule::{Event, Id, Limits, Reply, Verdict};
use std::alloc::Global;
use std::time::{Clock, Instant};

// How many events a history has at least.
const EVENTS: u64 = 1_000_000;

// How often each audit is measured.
const ROUNDS: u32 = 7;

// The number of a job of caller 1.
fn job(number: u64) -> Id {
    Id { caller: 1, number }
}

// A pool of this many workers that are all busy: a job is queued, a worker finishes its job, and takes that one, again and again.
fn queued(alloc: Global, workers: u64) -> anyhow::Result<Vec<Event>> {
    let mut events = Vec::new(alloc);
    for number in 1..=workers {
        events.push(Event::Submit {
            id: job(number),
            reply: Reply::Core,
        })?;
    }
    for oldest in 1..=EVENTS / 3 {
        let next = job(workers.saturating_add(oldest));
        events.push(Event::Submit {
            id: next,
            reply: Reply::Queued,
        })?;
        events.push(Event::Finish(job(oldest)))?;
        events.push(Event::Take(next))?;
    }
    Ok(events)
}

// The same history in the words of the whole rule.
fn as_jdk(alloc: Global, events: &[Event]) -> anyhow::Result<Vec<JdkEvent>> {
    let mut history = Vec::new(alloc);
    for event in events {
        history.push(match *event {
            Event::Submit { id, reply } => JdkEvent::Submit {
                id,
                reply: match reply {
                    Reply::Core => JdkReply::Core,
                    Reply::Queued => JdkReply::Queued,
                    Reply::Extra => JdkReply::Extra,
                    Reply::Full => JdkReply::Full,
                    Reply::Closed => JdkReply::Closed,
                },
            },
            Event::Take(id) => JdkEvent::Take(id),
            Event::Finish(id) => JdkEvent::Finish(id),
            Event::IdleEnd => JdkEvent::IdleEnd,
            Event::Close => JdkEvent::Close,
            Event::Resized { core, max } => JdkEvent::Resized { core, max },
        })?;
    }
    Ok(history)
}

// A cached pool of this many workers: a worker finishes its job, and gets the next one directly, again and again.
fn handed(alloc: Global, workers: u64) -> anyhow::Result<Vec<JdkEvent>> {
    let mut events = Vec::new(alloc);
    for number in 1..=workers {
        events.push(JdkEvent::Submit {
            id: job(number),
            reply: JdkReply::Extra,
        })?;
    }
    for oldest in 1..=EVENTS / 2 {
        events.push(JdkEvent::Finish(job(oldest)))?;
        events.push(JdkEvent::Submit {
            id: job(workers.saturating_add(oldest)),
            reply: JdkReply::Handed,
        })?;
    }
    Ok(events)
}

// Prints how long an audit took, in nanoseconds for each event, and its verdict.
fn tell<R: Print + Clock>(
    rt: &R,
    name: &str,
    start: Instant,
    events: usize,
    verdict: Verdict,
) -> anyhow::Result<()> {
    let nanos = start.elapsed(rt)?.as_nanos();
    let count = u128::try_from(events.max(1))?;
    println!(rt; "{name}: {} ns an event, {verdict:?}", nanos / count)?;
    Ok(())
}

/// Prints how long the audits take, by turns.
pub(crate) fn measure_all<R: Print + AllocGlobal + Clock>(rt: &R) -> anyhow::Result<()> {
    let alloc = rt.alloc();
    let small = queued(alloc, 8)?;
    let most = queued(alloc, 64)?;
    let large = as_jdk(alloc, queued(alloc, 500)?.as_slice())?;
    let cached = handed(alloc, 500)?;
    let of_eight = Limits::new(8, 8, 100)?;
    let of_most = Limits::new(64, 64, 100)?;
    let of_many = JdkLimits::new(500, 500, JdkLimits::MAX_WAITING)?;
    let handing = JdkLimits::new(0, 500, 0)?;
    for _ in 0..ROUNDS {
        let start = Instant::now(rt)?;
        let verdict = resil_rule::audit(alloc, &of_eight, small.as_slice())?;
        tell(rt, "resil_rule, 8 workers", start, small.len(), verdict)?;
        let start = Instant::now(rt)?;
        let verdict = resil_rule::audit(alloc, &of_most, most.as_slice())?;
        tell(rt, "resil_rule, 64 workers", start, most.len(), verdict)?;
        let start = Instant::now(rt)?;
        let verdict = resil_jdk::audit(alloc, &of_many, large.as_slice())?;
        tell(
            rt,
            "resil_jdk, 500 workers and a queue",
            start,
            large.len(),
            verdict,
        )?;
        let start = Instant::now(rt)?;
        let verdict = resil_jdk::audit(alloc, &handing, cached.as_slice())?;
        tell(
            rt,
            "resil_jdk, 500 workers by handoff",
            start,
            cached.len(),
            verdict,
        )?;
    }
    Ok(())
}
