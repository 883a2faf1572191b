//! Answers that come from another thread, that come late, and that don't come.

ghost use Rattle.std.specs.Prelude.{◌≡◌, ◌/◌};

use crate::shared::assert_that;
use resil_task::by_hand::{Plain, RunOnce, Task, one_shot};
use resil_task::{Answers, Pending, Work};
use std::alloc::Global;
use std::process::Abort;
use std::sync::Wait;
use std::thread;
use std::thread::Threads;
use std::time::Duration;

/// Halves a number.
#[derive(Drop)]
struct Halve(u64);

impl Answers for Halve {
    type Output = u64;

    ghost IsAnswer = { λ halve answer. answer ≡ halve.0 / 2 };
}

impl Work for Halve {
    fn run(self) -> u64 {
        self.0 / 2
    }
}

/// A task for the half of 14, and the future of its answer.
fn half_of_14(rt: &impl Abort, alloc: Global) -> (Task<Halve>, Pending<Halve>)
    ensures { result.1 ≡ result.0 }
{
    match Task::new(alloc, Halve(14)) {
        Ok(made) => made,
        Err(_) => panic!(rt; "no room for a task"),
    }
}

/// Runs a task.
fn run(task: Task<Halve>) {
    task.run(&mut ());
}

/// Asserts that there is an answer, which is 7.
fn is_seven(rt: &impl Abort, answered: Option<Result<u64, Halve>>) {
    assert_that(rt, matches!(answered, Some(Ok(7))), "the answer 7");
}

/// Waits for an answer, or doesn't.
fn waited<R: Wait>(rt: &R, pending: Pending<Halve>, waits: bool) -> Option<Result<u64, Halve>> {
    if waits {
        return Some(pending.wait(rt));
    }
    None
}

/// Runs a task while its answer is waited for, or not.
fn run_beside<R: Threads + Wait + Sync>(
    rt: &R,
    task: Task<Halve>,
    pending: Pending<Halve>,
    waits: bool,
) -> Option<Result<u64, Halve>> {
    let (_, answered) = thread::join(rt, move || run(task), move || waited(rt, pending, waits));
    answered
}

#[test]
fn answer_comes_from_another_thread(rt: HostRuntime) {
    let (task, pending) = half_of_14(&rt, rt.alloc());
    is_seven(&rt, run_beside(&rt, task, pending, true));
}

#[test]
fn late_answer_comes_after_a_wait_that_timed_out(rt: HostRuntime) {
    let (task, pending) = half_of_14(&rt, rt.alloc());
    let Err(pending) = pending.wait_for(&rt, Duration::from_millis(5)) else {
        panic!(rt; "it came early");
    };
    let Err(pending) = pending.try_take() else {
        panic!(rt; "it came early");
    };
    run(task);
    is_seven(&rt, pending.wait_for(&rt, Duration::from_millis(5)).ok());
}

#[test]
fn answer_that_is_there_is_taken(rt: HostRuntime) {
    let (task, pending) = half_of_14(&rt, rt.alloc());
    run(task);
    is_seven(&rt, pending.try_take().ok());
}

#[test]
fn work_that_is_let_go_comes_back(rt: HostRuntime) {
    let (task, pending) = half_of_14(&rt, rt.alloc());
    drop(task);
    let back = pending.wait(&rt);
    assert_that(
        &rt,
        matches!(back, Err(Halve(14))),
        "the work of a task let go",
    );
    let (task, pending) = half_of_14(&rt, rt.alloc());
    let back = task.into_work(pending);
    assert_that(&rt, back.0 == 14, "the work of a task that isn't accepted");
}

#[test]
fn nobody_has_to_wait(rt: HostRuntime) {
    let (task, pending) = half_of_14(&rt, rt.alloc());
    drop(pending);
    run(task);
    let (task, pending) = half_of_14(&rt, rt.alloc());
    run_beside(&rt, task, pending, false);
    let (task, pending) = half_of_14(&rt, rt.alloc());
    run(task);
    drop(pending);
}

#[test]
fn reply_comes_or_none_of_a_replier_let_go(rt: HostRuntime) {
    let alloc = rt.alloc();
    let (half_to, half) = one_shot::<Plain<u64>>(alloc, &()).expect(&rt, "room for a reply");
    let (none_to, none) = one_shot::<Plain<u64>>(alloc, &()).expect(&rt, "room for a reply");
    half_to.reply(Plain(7));
    drop(none_to);
    assert_that(&rt, matches!(half.wait(&rt), Some(Plain(7))), "the reply 7");
    assert_that(
        &rt,
        none.wait(&rt).is_none(),
        "no reply of a replier let go",
    );
}
