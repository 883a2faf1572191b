//! A worked example of the rule of admission over jobs of any type, step by step, and of the records that may be kept with it.
//!
//! Steps and replies are strings, worked out by hand from the rule of admission. The helpers have no contracts, so a test rests
//! on what it asserts.

use crate::shared::{assert_all_shown, assert_text, id, part, reply_word, yes_no};
use resil_rule::{
    AllEvents, Event, Id, LastEvents, NoRecord, Origin, Picked, Record, Refusal, Rule, Sizes,
};
use std::alloc::{AllocError, Global};
use std::mem::size_of;
use std::process::Abort;

// The job that is submitted under an id.
fn work_of(id: Id) -> u64 {
    id.number.wrapping_mul(1_000) ^ u64::from(id.caller)
}

// The reply to a submission, as a word. A refused job comes back.
fn submitted(rule: &mut Rule<u64>, id: Id) -> &'static str {
    match rule.submit(id, work_of(id)) {
        Ok(reply) => reply_word(reply),
        Err((Refusal::Full, work)) if work == work_of(id) => "full",
        Err(_) => "another",
    }
}

// The origin of the picked job, as a word, if it is the wanted job with its own number.
fn picked(rule: &mut Rule<u64>, wanted: Id) -> &'static str {
    let Some(Picked { slot, origin, work }) = rule.pick() else {
        return "none";
    };
    match origin {
        _ if slot.id != wanted || work != work_of(wanted) => "another",
        Origin::OwnStart => "own",
        Origin::Queue => "queue",
    }
}

// Whether a job is found and finished.
fn finished(rule: &mut Rule<u64>, id: Id) -> bool {
    match rule.find(id) {
        Some(slot) => rule.finish(slot),
        None => false,
    }
}

// Whether a rule says so of itself, or of a job.
fn says(rule: &Rule<u64>, what: &str, id: Id) -> bool {
    match what {
        "front" => rule.front() == Some(id),
        "next" => rule.is_next(id),
        "idle-worker" => rule.has_idle_worker(),
        "may-end" => rule.may_end_idle(),
        "closed" => rule.closed(),
        _ => false,
    }
}

// The result of a call with this job, as a word.
fn answered(rule: &mut Rule<u64>, call: &str, id: Id) -> &'static str {
    match call {
        "submit" => submitted(rule, id),
        "pick" => picked(rule, id),
        "finish" => yes_no(finished(rule, id)),
        "reserve" => yes_no(rule.reserve_caller(id.caller).is_ok()),
        "resize" => yes_no(rule.check_sizes(2, 2).is_ok() && rule.resize(2, 2).is_ok()),
        "close" => yes_no(rule.close()),
        "idle-end" => yes_no(rule.idle_end()),
        "next-reply" => reply_word(rule.next_reply()),
        _ => yes_no(says(rule, call, id)),
    }
}

// Plays steps, separated by commas.
fn played(rt: &impl Abort, rule: &mut Rule<u64>, steps: &str) {
    for step in steps.split(", ") {
        let answer = answered(rule, part(step, " ", 0), id(part(step, " ", 1)));
        assert_text(rt, answer, part(step, " ", 2), step);
    }
}

// The sizes, and how many workers there are, jobs that run, that are to be picked and that wait, and submissions of caller 1.
fn counts(rule: &Rule<u64>) -> ([u32; 3], [usize; 4], u64) {
    let jobs = [rule.running(), rule.unpicked(), rule.waiting(), rule.room()];
    (
        [rule.core(), rule.max(), rule.workers()],
        jobs,
        rule.submissions(1),
    )
}

// A rule with a job that was started for its own worker, one more that is out, and two that wait. It is resized, closed and drained.
const BUSY: &str =
    "reserve 3-0 yes, submit 1-1 core, pick 1-1 own, submit 1-2 queued, submit 1-3 queued, submit 1-4 extra, \
    submit 0-1 full, finish 1-1 yes";

const DRAINED: &str =
    "front 1-2 yes, next-reply - full, next 1-5 yes, next 1-4 no, idle-worker - yes, may-end - no, closed - no, \
    resize - yes, close - yes, pick 1-4 own, pick 1-2 queue, finish 1-4 yes, finish 1-2 yes, pick 1-3 queue, \
    finish 1-3 yes, may-end - yes, idle-end - yes, idle-end - yes, idle-end - no, idle-worker - no, next-reply - closed";

#[test]
fn rule_by_hand(rt: HostRuntime) {
    let sizes = Sizes::new(1, 2, 2).expect(&rt, "sizes");
    let mut rule = Rule::new(rt.alloc(), sizes, 2).expect(&rt, "a rule");
    played(&rt, &mut rule, BUSY);
    assert!(rt; counts(&rule) == ([1, 2, 2], [1, 1, 2, 0], 4) && rule.owed() == 8);
    played(&rt, &mut rule, DRAINED);
    assert!(rt; counts(&rule) == ([2, 2, 0], [0, 0, 0, 2], 4) && rule.limits().core() == 1);
}

#[test]
fn refusals_as_text(rt: HostRuntime) {
    let refusals = [
        Refusal::NoSuchCaller,
        Refusal::WrongNumber,
        Refusal::Full,
        Refusal::Closed,
    ];
    let texts =
        "no such caller\nnot the caller's next number\nthe pool is full\nthe pool is closed";
    assert_all_shown(&rt, rt.alloc(), &refusals, texts);
}

const THREE: [Event; 3] = [
    Event::Resized { core: 1, max: 1 },
    Event::IdleEnd,
    Event::Close,
];

// Writes three events to a record, each once there is room for it.
fn tell<R: Record>(record: &mut R) -> Result<(), AllocError> {
    for event in THREE {
        record.reserve(1)?;
        record.write(event);
    }
    Ok(())
}

// Whether a record that keeps two events has lost one of three.
fn loses_one(record: &mut LastEvents) -> Result<bool, AllocError> {
    tell(record)?;
    let is_kept = record.get(0) == Some(Event::IdleEnd) && record.get(1) == Some(Event::Close);
    Ok(is_kept && record.lost() == 1 && record.len() == 2)
}

// Whether a record keeps all three events.
fn keeps_all(record: &mut AllEvents) -> Result<bool, AllocError> {
    record.reserve(5)?;
    let has_room = record.room() >= 5;
    tell(record)?;
    Ok(has_room && record.room() >= 2 && record.events() == THREE.as_slice())
}

#[test]
fn records(rt: HostRuntime) {
    let mut last = LastEvents::new(rt.alloc(), 2).expect(&rt, "room for two events");
    assert!(rt; loses_one(&mut last) == Ok(true));
    let mut all = AllEvents::new(rt.alloc());
    assert!(rt;
        keeps_all(&mut all) == Ok(true) && all.into_events().as_slice() == THREE.as_slice()
    );
    assert!(rt; tell(&mut NoRecord).is_ok() && size_of::<NoRecord>() == 0);
}
