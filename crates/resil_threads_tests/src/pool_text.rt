//! What a monitoring page reads of a pool.

use crate::shared::assert_that;
use resil_executor::{Numbers, PoolText};
use std::alloc::Global;
use std::process::Abort;

const POOL: &str = "# TYPE resilience4j_bulkhead_queue_depth gauge
resilience4j_bulkhead_queue_depth{name=\"orders\"} 3
# TYPE resilience4j_bulkhead_queue_capacity gauge
resilience4j_bulkhead_queue_capacity{name=\"orders\"} 8
# TYPE resilience4j_bulkhead_active_thread_count gauge
resilience4j_bulkhead_active_thread_count{name=\"orders\"} 2
# TYPE resilience4j_bulkhead_thread_pool_size gauge
resilience4j_bulkhead_thread_pool_size{name=\"orders\"} 4
# TYPE resilience4j_bulkhead_core_thread_pool_size gauge
resilience4j_bulkhead_core_thread_pool_size{name=\"orders\"} 1
# TYPE resilience4j_bulkhead_max_thread_pool_size gauge
resilience4j_bulkhead_max_thread_pool_size{name=\"orders\"} 6
# TYPE resil_pool_accepted_total counter
resil_pool_accepted_total{name=\"orders\"} 20
# TYPE resil_pool_refused_total counter
resil_pool_refused_total{name=\"orders\"} 7
# TYPE resil_pool_finished_total counter
resil_pool_finished_total{name=\"orders\"} 15
";

// A backslash, a quote and a newline in a name are escaped by a backslash.
const QUOTED: &str = "resil_pool_finished_total{name=\"a \\\"b\\\"\\\\\\n\"} 15\n";

/// The text of a pool of this name.
fn text_of(rt: &impl Abort, alloc: Global, name: &str) -> String {
    let numbers = Numbers {
        workers: 4,
        running: 2,
        waiting: 3,
        room: 5,
        core: 1,
        max: 6,
        accepted: 20,
        refused: 7,
        finished: 15,
        closed: false,
    };
    let pool = PoolText { name, numbers };
    format!(in alloc; "{pool}").expect(rt, "room for a text")
}

#[test]
fn text_of_a_pool(rt: HostRuntime) {
    let text = text_of(&rt, rt.alloc(), "orders");
    assert_that(&rt, text.as_str() == POOL, "each metric with its type");
    let text = text_of(&rt, rt.alloc(), "a \"b\"\\\n");
    assert_that(&rt, text.ends_with(QUOTED), "a name that is quoted");
}
