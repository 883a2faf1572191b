//! Observers: in which order they run, what threads count together, what a clock measures, and the texts.

use crate::shared::{Always, Digits, Late, Ticks, assert_shown};
use resil_bulkhead::{Bulkhead, NoPermit};
use resil_call::{Call, End, NoLimit, NoPause, RetryPolicy, Tried};
use resil_layers::{
    BulkheadsText, CallCounts, CallTimes, CallsText, Count, Counted, Decorate, DecorateWithin,
    Observe, Observer, OwnCounts, RetriesText, RetryCounts, TimesText, Timing, counts_by_name,
};
use std::alloc::Global;
use std::process::Abort;
use std::sync::{Arc, Wait};
use std::thread;
use std::time::Duration;

// Writes down 1 before each call, 2 at it and 3 after it.
#[derive(Drop)]
struct Writing<'a>(&'a Digits);

impl Call for Writing<'_> {
    type Output = u8;

    fn call(&mut self) -> u8 {
        self.0.write(2);
        7
    }
}

impl Observer<u8> for Writing<'_> {
    fn before(&mut self) {
        self.0.write(1);
    }

    fn after(&mut self, _answer: &u8) {
        self.0.write(3);
    }
}

#[test]
fn told_before_and_after_each_call(rt: HostRuntime) {
    let order = Digits::new();
    let mut call = Writing(&order).observed(Writing(&order));
    assert!(rt; call.call() == 7 && call.call() == 7);
    assert!(rt; order.all() == 123123);
}

// Calls in turn a function that returns a value and one that fails, this many times each, and a full bulkhead once.
fn call_all<R: Wait>(rt: &R, full: &Bulkhead, counts: &CallCounts, times: u32) {
    let mut value = Always(Ok::<u8, NoPermit>(1)).counted(counts);
    let mut refused = Always(Ok::<u8, NoPermit>(1))
        .inside(full, rt)
        .counted(counts);
    for _ in 0..times {
        let _value = value.call();
    }
    let _refused = refused.call();
}

#[test]
fn threads_count_together(rt: HostRuntime) {
    let (full, _pass) = Bulkhead::new(rt.alloc(), "full", 0).expect(&rt, "a bulkhead");
    let counts = CallCounts::new("prices");
    let ran = thread::map_indices(&rt, rt.alloc(), 8, &|_| call_all(&rt, &full, &counts, 100));
    assert!(rt; ran.is_ok() && counts.count(Counted::Called) == 808);
    assert!(rt; counts.count(Counted::Value) == 800 && counts.count(Counted::Refused) == 8);
    assert!(rt; counts.count(Counted::Error) == 0);
}

#[test]
fn counts_of_ones_own(rt: HostRuntime) {
    let (full, _pass) = Bulkhead::new(rt.alloc(), "full", 0).expect(&rt, "a bulkhead");
    let mut call = Always(Ok::<u8, NoPermit>(1))
        .inside(&full, &rt)
        .counted(OwnCounts::default());
    let _refused = call.call();
    let own = call.observer.0;
    assert!(rt; own.called == 1 && own.refused == 1 && own.values == 0 && own.errors == 0);
}

#[test]
fn calls_are_measured_by_the_clock(rt: HostRuntime) {
    let (times, clock) = (CallTimes::new("prices"), Ticks::new());
    let mut call = Always(7_u8).observed(Timing::new(&times, &clock));
    assert!(rt; call.call() == 7 && call.call() == 7);
    assert!(rt; times.total() == Duration::from_millis(6));
    assert!(rt; times.longest() == Duration::from_millis(3));
}

const BULKHEADS: &str = "# TYPE resilience4j_bulkhead_available_concurrent_calls gauge
resilience4j_bulkhead_available_concurrent_calls{name=\"prices\"} 3
resilience4j_bulkhead_available_concurrent_calls{name=\"stock\"} 25
# TYPE resilience4j_bulkhead_max_allowed_concurrent_calls gauge
resilience4j_bulkhead_max_allowed_concurrent_calls{name=\"prices\"} 4
resilience4j_bulkhead_max_allowed_concurrent_calls{name=\"stock\"} 25
";

const CALLS: &str = "# TYPE resil_calls_total counter
resil_calls_total{name=\"prices\"} 2
resil_calls_total{name=\"stock\"} 0
# TYPE resil_answers_total counter
resil_answers_total{name=\"prices\",kind=\"value\"} 1
resil_answers_total{name=\"prices\",kind=\"error\"} 0
resil_answers_total{name=\"prices\",kind=\"refused\"} 1
resil_answers_total{name=\"stock\",kind=\"value\"} 0
resil_answers_total{name=\"stock\",kind=\"error\"} 0
resil_answers_total{name=\"stock\",kind=\"refused\"} 0
";

const RETRIES: &str = "# TYPE resilience4j_retry_calls_total counter
resilience4j_retry_calls_total{name=\"a \\\"b\\\"\",kind=\"successful_without_retry\"} 0
resilience4j_retry_calls_total{name=\"a \\\"b\\\"\",kind=\"successful_with_retry\"} 1
resilience4j_retry_calls_total{name=\"a \\\"b\\\"\",kind=\"failed_without_retry\"} 1
resilience4j_retry_calls_total{name=\"a \\\"b\\\"\",kind=\"failed_with_retry\"} 1
# TYPE resil_retries_total counter
resil_retries_total{name=\"a \\\"b\\\"\"} 3
# TYPE resil_retry_ends_total counter
resil_retry_ends_total{name=\"a \\\"b\\\"\",end=\"exhausted\"} 1
resil_retry_ends_total{name=\"a \\\"b\\\"\",end=\"out_of_time\"} 1
# TYPE resil_retry_events_total counter
resil_retry_events_total{name=\"a \\\"b\\\"\",kind=\"retry\"} 1
";

const TIMES: &str = "# TYPE resil_call_seconds_total counter
resil_call_seconds_total{name=\"prices\"} 2.000050
# TYPE resil_call_seconds_max gauge
resil_call_seconds_max{name=\"prices\"} 1.500000
";

// Two bulkheads. The first has 4 permits, one of them taken for good, and the second 25.
fn two_bulkheads<R: Abort + Wait>(rt: &R, alloc: Global) -> Vec<Arc<Bulkhead>> {
    let (prices, mut pass) = Bulkhead::new(alloc, "prices", 4).expect(rt, "a bulkhead");
    assert!(rt; prices.enter(rt, &mut pass));
    let (stock, _pass) = Bulkhead::new(alloc, "stock", 25).expect(rt, "a bulkhead");
    let prices = Arc::new(alloc, prices).expect(rt, "room for a bulkhead");
    let stock = Arc::new(alloc, stock).expect(rt, "room for a bulkhead");
    Vec::from_array(alloc, [prices, stock]).expect(rt, "room for two bulkheads")
}

#[test]
fn text_of_bulkheads(rt: HostRuntime) {
    let bulkheads = two_bulkheads(&rt, rt.alloc());
    assert_shown(&rt, rt.alloc(), &BulkheadsText(&bulkheads), BULKHEADS);
}

// One value of the first bulkhead, and one refusal.
fn count_two(first: &CallCounts) {
    let mut counts = first;
    for what in [
        Counted::Called,
        Counted::Value,
        Counted::Called,
        Counted::Refused,
    ] {
        counts.add(what);
    }
}

#[test]
fn text_of_calls(rt: HostRuntime) {
    let bulkheads = two_bulkheads(&rt, rt.alloc());
    let counts = counts_by_name(rt.alloc(), &bulkheads).expect(&rt, "room for counts");
    count_two(counts.get(0).expect(&rt, "a bulkhead"));
    assert_shown(&rt, rt.alloc(), &CallsText(&counts), CALLS);
}

// A retry that ended this way.
fn tried(answer: Result<u8, u8>, attempts: u32, end: End) -> Tried<Result<u8, u8>> {
    Tried {
        answer,
        attempts,
        end,
    }
}

#[test]
fn text_of_retries(rt: HostRuntime) {
    let counts = [RetryCounts::new("a \"b\"")];
    let policy = RetryPolicy::defaults();
    let mut chain = Late(1).retried_observed(&policy, NoPause, || NoLimit, &counts[0]);
    assert!(rt; chain.call() == Ok(3));
    counts[0].add(&tried(Ok(1), 3, End::Exhausted));
    counts[0].add(&tried(Err(2), 1, End::OutOfTime));
    assert_shown(&rt, rt.alloc(), &RetriesText(&counts), RETRIES);
}

#[test]
fn text_of_times(rt: HostRuntime) {
    let times = [CallTimes::new("prices")];
    times[0].add(Duration::from_millis(1_500));
    times[0].add(Duration::from_micros(500_050));
    assert_shown(&rt, rt.alloc(), &TimesText(&times), TIMES);
}
