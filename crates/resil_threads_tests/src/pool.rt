//! A pool with all its parts on one thread: what it replies, writes, drains and reports to the hook.

use crate::parts::Parts;
use crate::render::{are_results, is_history};
use crate::shared::{assert_that, listed, passed};
use resil_admission::Id;
use resil_decor::{Listed, Permitter};
use resil_workers::Hook;
use std::alloc::Global;
use std::cell::Cell;
use std::process::Abort;
use std::sync::Wait;

/// Writes down the hook's calls: 1 before a job, 3 after it.
#[derive(Drop)]
struct Order {
    calls: Cell<u64>,
}

impl Order {
    fn add(&self, call: u64) {
        self.calls
            .set(self.calls.get().wrapping_mul(10).wrapping_add(call));
    }
}

impl Hook for Order {
    fn before(&self, _id: Id) {
        self.add(1);
    }

    fn after(&self, _id: Id) {
        self.add(3);
    }
}

/// Writes 2 when a job runs: when it requests a permit. It answers from a list.
#[derive(Drop)]
struct Asking<'a> {
    order: &'a Order,
    listed: Listed,
}

impl<'a> Permitter for Asking<'a> {
    ghost use Rattle.resil_decor.specs.Listed.{answers_of, held_of, AreNextAnswers};
    ghost use Rattle.resil_decor.specs.ListedLaws.{none_between, append_between};

    ghost answers = { λ a. answers_of a.listed };

    ghost held = { λ a. held_of a.listed };

    ghost AnsweredBetween = { λ old given new. AreNextAnswers old.listed given new.listed };

    fn enter(&mut self, id: u16) -> bool {
        self.order.add(2);
        self.listed.enter(id)
    }

    fn leave(&mut self, id: u16) {
        self.listed.leave(id);
    }

    ghost none_between = { λ a. none_between a.listed };

    ghost append_between = { λ a b c. append_between a.listed b.listed c.listed };
}

/// The only worker of a pool works, with a permitter that gives these answers. Returns the calls of the hook and the permitter.
fn order_of_work<R: Abort + Wait>(
    rt: &R,
    alloc: Global,
    parts: &mut Parts,
    answers: &[bool],
) -> u64 {
    let order = Order {
        calls: Cell::new(0),
    };
    let listed = listed(rt, alloc, answers);
    let mut asking = Asking {
        order: &order,
        listed,
    };
    parts.work(rt, &mut asking, &order);
    order.calls.get()
}

/// A pool of these sizes with this many callers.
fn opened(rt: &impl Abort, alloc: Global, sizes: (u32, u32, u32), callers: u16) -> Parts {
    passed(rt, Parts::open(rt, alloc, sizes, callers))
}

/// A pool of limits 1, 1, 1, to which caller 1 has submitted a job of value 1, and caller 2 jobs of 2 and 3.
fn opened_for_three<R: Abort + Wait>(rt: &R, alloc: Global) -> Parts {
    let mut parts = opened(rt, alloc, (1, 1, 1), 2);
    parts.submit_value(rt, alloc, 0, &[], 1);
    parts.submit_value(rt, alloc, 1, &[], 2);
    parts.submit_value(rt, alloc, 1, &[], 3);
    parts
}

#[test]
fn worker_on_the_calling_thread(rt: HostRuntime) {
    let alloc = rt.alloc();
    let mut parts = opened_for_three(&rt, alloc);
    parts.close(&rt);
    parts.close(&rt);
    let order = order_of_work(&rt, alloc, &mut parts, &[]);
    assert_that(
        &rt,
        order == 1313,
        "two jobs between two calls of the hook each",
    );
    let report = parts.drained(&rt, alloc);
    let history =
        "Core 1-1, Queued 2-1, Full 2-2, close, finish 1-1, take 2-1, finish 2-1, idle-end";
    is_history(&rt, alloc, &report, history);
    are_results(
        &rt,
        alloc,
        &report,
        "1-1 Value(1) by 1 [], 2-1 Value(2) by 1 []",
    );
}

#[test]
fn hook_round_the_run(rt: HostRuntime) {
    let alloc = rt.alloc();
    let mut parts = opened(&rt, alloc, (1, 1, 1), 1);
    parts.submit_value(&rt, alloc, 0, &[0], 1);
    parts.close(&rt);
    parts.close(&rt);
    let order = order_of_work(&rt, alloc, &mut parts, &[true]);
    assert_that(
        &rt,
        order == 123,
        "a job that asks between the calls of the hook",
    );
}

// What is left is run with the permitter that the drain gets.
#[test]
fn granted_in_drain(rt: HostRuntime) {
    let alloc = rt.alloc();
    let mut parts = opened(&rt, alloc, (1, 1, 1), 1);
    parts.submit_value(&rt, alloc, 0, &[0], 1);
    let mut listed = listed(&rt, alloc, &[true]);
    let report = parts.drained_by(&rt, &mut listed);
    let results = "1-1 Value(1) by 1 [Asked { id: 0, granted: true }]";
    are_results(&rt, alloc, &report, results);
}
