//! Calls that allocate, when out of memory.
//!
//! `tools/refuse_in_tests` runs each of these tests with one growth refused, for every growth, and with all refused from one
//! growth on. A call that reports out of memory has changed nothing, and returns what it got. Called once more, it returns what
//! it returns with ample memory: these tests check that too when no growth is refused.

ghost use Rattle.std.specs.Prelude.{◌≡◌, map};
ghost use Rattle.resil_decor.specs.Passes.{sources_of};

use crate::shared::{Sketch, answer, config, job_of, listed, plan_of, script};
use resil_admission::{AdmitError, Event, Id, Limits, Machine, Reply, Row, Verdict, audit};
use resil_bulkhead::{Bulkhead, BulkheadError, Pass};
use resil_decor::{DecorError, Job, Passes, Permitter, Plan, Run};
use resil_permit::{PermitError, PermitEvent, Permits, Shown, Step, WeaveError, weave};
use resil_registry::{Registry, RegistryError};
use resil_retry::{Kind, Outcome, RetryConfig, RetryError, Script, Waits};
use std::alloc::Global;
use std::process::Abort;
use std::sync::Wait;
use std::test::Fail;

// The result of a call, which is made once more if it was out of memory.
macro_rules! at_last {
    ($call:expr, $memory:pat) => {
        match $call {
            Err($memory) => $call,
            answer => answer,
        }
    };
}

const V7: Outcome = Outcome::Value(7);

// Whether copies of a script and a configuration are equal to them, and there is room for waits.
fn are_made(alloc: Global, script: &Script, config: &RetryConfig) -> Result<bool, RetryError> {
    let is_script = at_last!(script.copy(alloc), RetryError::Memory)?.same(script);
    let is_config = at_last!(config.copy(alloc), RetryError::Memory)?.same(config);
    let room = at_last!(Waits::new(alloc, 999), RetryError::Memory)?.room();
    Ok(is_script && is_config && room == 999)
}

// The same for a configuration with a test that names these kinds.
fn makes_retry(alloc: Global, named: &[Kind]) -> Result<bool, RetryError> {
    let script = script(alloc, &[Outcome::Error(Kind::Code(1)), V7])?;
    let config = config(alloc, 3, named, &[Kind::Code(2)])?;
    are_made(alloc, &script, &config)
}

// A copy of a test that names more than 64 kinds has a table of all kinds, whose growth may be refused too.
#[test]
fn refused_growth_of_a_retry(rt: HostRuntime) -> Result<(), Fail> {
    for named in [[Kind::Code(1), Kind::Full].as_slice(), &[Kind::Full; 65]] {
        assert!(rt; makes_retry(rt.alloc(), named)?);
    }
    Ok(())
}

// A plan with a call that returns 7, inside a bulkhead, under a retry, under a fallback.
fn plan(alloc: Global) -> Result<Plan, DecorError> {
    let layers = [
        Sketch::Bulkhead(0),
        Sketch::Retry(3, &[Kind::Code(1), Kind::Full], &[Kind::Code(2)]),
        Sketch::Fallback(9, &[Kind::Code(1), Kind::Full], &[Kind::Code(2)]),
    ];
    plan_of(alloc, &layers, &[V7])
}

// Whether two permits are made.
fn makes_permits(alloc: Global) -> Result<bool, PermitError> {
    let (permits, mut pass) = Permits::new(alloc, 2)?;
    Ok(permits.max() == 2 && permits.available(&mut pass) == 2 && pass.held() == 0)
}

// Whether a bulkhead of one permit is made.
fn makes_bulkhead(alloc: Global) -> Result<bool, BulkheadError> {
    let (bulkhead, mut pass) = Bulkhead::new(alloc, "db", 1)?;
    Ok(bulkhead.name() == "db" && bulkhead.available(&mut pass) == 1)
}

// Whether the steps of two callers with one permit show what each did, the two events are written, and no permit is free.
fn weaves(alloc: Global) -> Result<bool, WeaveError> {
    let (first, second) = (Step::Load(0), Step::Load(1));
    let steps = [first, second, Step::Exchange(0), Step::Exchange(1), second];
    let shown = [
        Shown::Loaded,
        Shown::Loaded,
        Shown::Took,
        Shown::Lost,
        Shown::Refused,
    ];
    let events = [PermitEvent::Took(0), PermitEvent::Refused(1)];
    let woven = weave(alloc, 1, &steps)?;
    let is_shown = woven.shown.as_slice() == shown.as_slice();
    Ok(is_shown && woven.events.as_slice() == events.as_slice() && woven.word == 0)
}

#[test]
fn refused_growth_of_permits(rt: HostRuntime) -> Result<(), Fail> {
    assert!(rt; at_last!(makes_permits(rt.alloc()), PermitError::Memory)?);
    assert!(rt; at_last!(makes_bulkhead(rt.alloc()), BulkheadError::Memory)?);
    assert!(rt; at_last!(weaves(rt.alloc()), WeaveError::Memory)?);
    Ok(())
}

// A job of this plan. If it was out of memory, the plan came back, and the job is made once more.
fn job_at_last(rt: &impl Abort, alloc: Global, plan: Plan, same: &Plan) -> Result<Job, DecorError> {
    match Job::new(alloc, plan) {
        Err((DecorError::Memory, back)) => {
            assert!(rt; back.same(same));
            job_of(alloc, back)
        }
        given => answer(given),
    }
}

// Whether a run has this value by this many calls, waited twice, and asked three times.
fn is_run(run: &Run, value: i64, calls: u32) -> bool {
    run.outcome() == Outcome::Value(value)
        && run.calls() == calls
        && run.waits() == [500, 500].as_slice()
        && run.asked().len() == 3
}

// Whether a second job with its plan has that plan, and its run shows what a permitter that says no twice grants at last.
fn is_job(alloc: Global, job: &Job, same: &Plan) -> Result<bool, DecorError> {
    let mut permitter = at_last!(listed(alloc, &[false, false, true]), DecorError::Memory)?;
    let plan = job.shared_plan()?;
    let second = at_last!(Job::sharing(alloc, &plan), DecorError::Memory)?;
    Ok(second.plan().same(same) && is_run(&second.run(&mut permitter), 7, 1))
}

// The same for a job made of a copy of a plan.
fn makes_job(rt: &impl Abort, alloc: Global, same: &Plan) -> Result<bool, DecorError> {
    let copy = at_last!(same.copy(alloc), DecorError::Memory)?;
    let job = job_at_last(rt, alloc, copy, same)?;
    is_job(alloc, &job, same)
}

#[test]
fn refused_growth_of_a_job(rt: HostRuntime) -> Result<(), Fail> {
    let plan = plan(rt.alloc())?;
    assert!(rt; makes_job(&rt, rt.alloc(), &plan)?);
    Ok(())
}

// Whether one permit of the first bulkhead can be taken, and no more. It is given back.
fn has_one<P: Permitter>(permitter: &mut P) -> bool {
    if !permitter.enter(0) {
        return false;
    }
    let is_alone = !permitter.enter(0);
    permitter.leave(0);
    is_alone
}

// Splits passes, once more if it was out of memory. The refused split took nothing.
fn split_at_last<'a, R: Wait + Abort>(
    rt: &R,
    alloc: Global,
    first: &mut Passes<'a, R>,
) -> Result<Passes<'a, R>, DecorError> {
    match first.split(alloc) {
        Err(DecorError::Memory) => {
            assert!(rt; has_one(first));
            first.split(alloc)
        }
        answer => answer,
    }
}

// Whether two callers that share the passes of two bulkheads get a permit of each. The first bulkhead has no other permit.
fn share_at_last<R: Wait + Abort>(
    rt: &R,
    alloc: Global,
    bulkheads: &[Bulkhead],
    passes: Vec<Pass>,
) -> Result<bool, DecorError>
    requires { sources_of passes.items ≡ map (λ b. b.permits) bulkheads.now }
{
    let mut first = Passes::new(rt, bulkheads, passes);
    let mut second = split_at_last(rt, alloc, &mut first)?;
    Ok(first.enter(0) && second.enter(1) && !second.enter(0))
}

#[test]
fn refused_growth_of_split_passes(rt: HostRuntime) -> Result<(), Fail> {
    let mut passes = Vec::with_capacity(rt.alloc(), 2)?;
    let (db, of_db) = Bulkhead::new(rt.alloc(), "db", 1)?;
    let (web, of_web) = Bulkhead::new(rt.alloc(), "web", 2)?;
    passes.push_reserved(of_db);
    passes.push_reserved(of_web);
    assert!(rt; share_at_last(&rt, rt.alloc(), &[db, web], passes)?);
    Ok(())
}

// The id of a job of caller 1.
fn id(number: u64) -> Id {
    Id { caller: 1, number }
}

// A submission of caller 1 with its reply.
fn submission(number: u64, reply: Reply) -> Event {
    Event::Submit {
        id: id(number),
        reply,
    }
}

// The last event is illegal if one job may wait.
#[test]
fn refused_growth_of_an_audit(rt: HostRuntime) -> Result<(), Fail> {
    let history = [
        submission(1, Reply::Core),
        submission(2, Reply::Queued),
        submission(3, Reply::Queued),
    ];
    let limits = Limits::new(1, 1, 1)?;
    let verdict = at_last!(audit(rt.alloc(), &limits, &history), AdmitError::Memory);
    assert!(rt; verdict? == Verdict::FirstIllegal(3));
    Ok(())
}

// The reply to a submission, which is made once more if it was out of memory. The refused one wrote no event and returned the job.
fn reply_at_last(
    rt: &impl Abort,
    alloc: Global,
    machine: &mut Machine,
    (number, job): (u64, Job),
    (before, plan): (&[Event], &Plan),
) -> Result<Reply, AdmitError> {
    match machine.submit(alloc, id(number), job) {
        Err((AdmitError::Memory, job)) => {
            assert!(rt; machine.history() == before && job.plan().same(plan));
            answer(machine.submit(alloc, id(number), job))
        }
        given => answer(given),
    }
}

// Submits a job of a copy of a plan, if there is memory for it. The reply is that of the last event.
fn submit_at_last(
    rt: &impl Abort,
    alloc: Global,
    machine: &mut Machine,
    number: u64,
    plan: &Plan,
) -> Result<(), Fail> {
    let before = Vec::from_slice(alloc, machine.history())?;
    let job = job_of(alloc, plan.copy(alloc)?)?;
    let reply = reply_at_last(rt, alloc, machine, (number, job), (&before, plan))?;
    assert!(rt; machine.history().last() == Some(&submission(number, reply)));
    Ok(())
}

// Resizes a machine, once more if it was out of memory. The refused resize wrote no event, and the other one did.
fn resize_at_last(rt: &impl Abort, machine: &mut Machine) -> Result<(), AdmitError> {
    let count = machine.history().len();
    at_last!(machine.resize(1, 1), AdmitError::Memory)?;
    assert!(rt; machine.history().len() == count.wrapping_add(1));
    Ok(())
}

// Runs a job without permits, and finishes it.
fn finish(rt: &impl Wait, alloc: Global, machine: &mut Machine, (id, job): (Id, Job)) -> bool {
    let run = job.run(&mut Passes::new(rt, &[], Vec::new(alloc)));
    machine.finish(id, run).is_ok()
}

// Picks, runs and finishes this many jobs, one after the other. Returns whether there were this many.
fn run_many(rt: &impl Wait, alloc: Global, machine: &mut Machine, count: u32) -> bool {
    for _ in 0..count {
        let Some(picked) = machine.pick() else {
            return false;
        };
        if !finish(rt, alloc, machine, picked) {
            return false;
        }
    }
    true
}

// Picks a job, and finishes it after this many others.
fn run_last(rt: &impl Wait, alloc: Global, machine: &mut Machine, others: u32) -> bool {
    match machine.pick() {
        Some(picked) => {
            run_many(rt, alloc, machine, others) && finish(rt, alloc, machine, picked)
        }
        None => false,
    }
}

// Calls of a machine.
#[derive(Clone, Copy)]
enum Calls {
    // Submits jobs of one plan with the numbers from the first to the second.
    Submit(u64, u64),
    // This many resizes to 1 and 1.
    Resize(u32),
    Close,
    // Picks, runs and finishes this many jobs, one after the other.
    Run(u32),
    // Picks a job, and finishes it after this many others.
    RunLast(u32),
    IdleEnd,
}

// Makes these calls. Those other than submissions and resizes don't allocate, and have their effect.
fn make(
    rt: &(impl Wait + Abort),
    alloc: Global,
    machine: &mut Machine,
    plan: &Plan,
    calls: Calls,
) -> Result<(), Fail> {
    let has_effect = match calls {
        Calls::Submit(first, last) => {
            for number in first..=last {
                submit_at_last(rt, alloc, machine, number, plan)?;
            }
            true
        }
        Calls::Resize(count) => {
            for _ in 0..count {
                resize_at_last(rt, machine)?;
            }
            true
        }
        Calls::Close => machine.close() && machine.closed(),
        Calls::Run(count) => run_many(rt, alloc, machine, count),
        Calls::RunLast(others) => run_last(rt, alloc, machine, others),
        Calls::IdleEnd => machine.idle_end(),
    };
    assert!(rt; has_effect);
    Ok(())
}

// The history and the results of a new machine of these limits after these calls, with jobs of a plan, if that could be made.
fn parts_after(
    rt: &(impl Wait + Abort),
    alloc: Global,
    plan: Result<Plan, DecorError>,
    (core, max, queue): (u32, u32, u32),
    all: &[Calls],
) -> Result<(Vec<Event>, Vec<Row>), Fail> {
    let (plan, limits) = (plan?, Limits::new(core, max, queue)?);
    let mut machine = at_last!(Machine::new(alloc, limits), AdmitError::Memory)?;
    for calls in all {
        make(rt, alloc, &mut machine, &plan, *calls)?;
    }
    Ok(answer(machine.into_parts())?)
}

// Four submissions, the last of which is refused, and resizes.
#[test]
fn refused_growth_of_a_submission(rt: HostRuntime) -> Result<(), Fail> {
    let calls = [
        Calls::Submit(1, 4),
        Calls::Close,
        Calls::Resize(4),
        Calls::Run(3),
    ];
    let (history, rows) = parts_after(&rt, rt.alloc(), plan(rt.alloc()), (1, 2, 1), &calls)?;
    let submissions = [
        submission(1, Reply::Core),
        submission(2, Reply::Queued),
        submission(3, Reply::Extra),
        submission(4, Reply::Full),
        Event::Close,
        Event::Resized { core: 1, max: 1 },
    ];
    assert!(rt; history.starts_with(&submissions) && rows.len() == 3);
    Ok(())
}

// Whether the results are those of the jobs 1 to 30.
fn are_thirty(rows: &[Row]) -> bool {
    let mut number = 0u64;
    for row in rows {
        number = number.wrapping_add(1);
        if row.id.number != number {
            return false;
        }
    }
    rows.len() == 30
}

// Thirty jobs without layers, the first of which finishes last.
#[test]
fn refused_growth_of_submissions(rt: HostRuntime) -> Result<(), Fail> {
    let plan = plan_of(rt.alloc(), &[], &[V7]);
    let calls = [Calls::Submit(1, 30), Calls::RunLast(29)];
    let (_, rows) = parts_after(&rt, rt.alloc(), plan, (2, 2, 30), &calls)?;
    assert!(rt; are_thirty(&rows));
    Ok(())
}

// Whether each of two results has the value 9 after two waits.
fn are_two_nines(rows: &[Row]) -> bool {
    for row in rows {
        if !is_run(&row.run, 9, 0) {
            return false;
        }
    }
    rows.len() == 2
}

// After the last submission no call allocates. If all memory is refused from there on, the last line of the test is the first that notices.
#[test]
fn refused_growth_none_after_acceptance(rt: HostRuntime) -> Result<(), Fail> {
    let calls = [
        Calls::Submit(1, 2),
        Calls::Close,
        Calls::Submit(3, 3),
        Calls::Run(2),
        Calls::IdleEnd,
    ];
    let (history, rows) = parts_after(&rt, rt.alloc(), plan(rt.alloc()), (1, 1, 1), &calls)?;
    let two_runs = [
        submission(1, Reply::Core),
        submission(2, Reply::Queued),
        Event::Close,
        submission(3, Reply::Closed),
        Event::Finish(id(1)),
        Event::Take(id(2)),
        Event::Finish(id(2)),
        Event::IdleEnd,
    ];
    assert!(rt; history.as_slice() == two_runs.as_slice() && are_two_nines(&rows));
    let _grown: Vec<u8> = Vec::with_capacity(rt.alloc(), 1)?;
    Ok(())
}

// A registry with this default, made once more if it was out of memory. The default then came back.
fn registry_at_last(alloc: Global, default: u32) -> Result<Registry<u32>, RegistryError> {
    match Registry::new(alloc, default) {
        Err((RegistryError::Memory, back)) => answer(Registry::new(alloc, back)),
        made => answer(made),
    }
}

// Adds a configuration of 2, and looks three names up. Returns whether they get two instances.
fn looks_up(registry: &mut Registry<u32>) -> Result<bool, RegistryError> {
    at_last!(
        answer(registry.add_config("small", 2)),
        RegistryError::Memory
    )?;
    let first = at_last!(registry.obtain("a"), RegistryError::Memory)?;
    let second = at_last!(registry.obtain_with("b", "small"), RegistryError::Memory)?;
    let again = registry.obtain_with("a", "none")?;
    let is_first = registry.names().next() == Some("a") && registry.names().len() == 2;
    Ok((first, second, again) == (0, 1, 0) && is_first)
}

#[test]
fn refused_growth_of_a_registry(rt: HostRuntime) -> Result<(), Fail> {
    let mut registry = registry_at_last(rt.alloc(), 25)?;
    assert!(rt; registry.is_empty() && looks_up(&mut registry)?);
    assert!(rt; registry.len() == 2 && registry.find("b") == Some(1));
    assert!(rt; registry.get(0) == Some(("a", &25)) && registry.config("small") == Some(&2));
    Ok(())
}
