//! A pool in virtual time: what would happen to a load on sizes that nobody has tried.
//!
//! A load says when jobs come, and how long each runs. `simulate` runs it by the rule of the JDK's `ThreadPoolExecutor`, without a
//! thread or a clock, and returns what happens as a history with times; `Simulation` hands out one event after another, and keeps none.
//! `specs/Due.antt` says what is due next, and `specs/Simulated.antt` that it happens until nothing is due.
#![tactic(auto)]

ghost use Rattle.std.specs.Prelude.{IfOk};
ghost use Rattle.resil_virtual.specs.Load.{IsLoad};
ghost use Rattle.resil_virtual.specs.Simulated.{IsSimulated};

mod arrival;
mod due;
mod idle;
mod jobs;
mod laws;
mod pool;
mod virtual_pool;

pub use arrival::Arrival;
pub use laws::{one_history, same_at_once, worked_loads};
pub use pool::Simulation;
use resil_jdk::TimedJdkEvent;
use std::alloc::{AllocError, Global};
pub use virtual_pool::VirtualPool;

/// Returns what happens to a load in a pool. Nobody closes or resizes the pool. If core workers time out, the history begins with that
/// event, at 0.
///
/// # Errors
///
/// `AllocError` when out of memory.
///
/// ```
/// let job = |number, at| Arrival { id: Id { caller: 1, number }, at, takes: 500, earliest_end: 0 };
/// let limits = JdkLimits::new(1, 1, 1)?;
/// let pool = VirtualPool { limits, time_out: false, idle_for: 0, wakes: 0 };
/// // One worker runs both jobs, so the second one waits for 400 microseconds.
/// let history = simulate(alloc, &pool, &[job(1, 0), job(2, 100)])?;
/// for timed in &history {
///     println!(rt; "{} {:?}", timed.at, timed.event)?;
/// }
/// assert_eq!(rt; history.last().map(|timed| timed.at), Some(1_000));
/// ```
pub fn simulate(
    alloc: Global,
    pool: &VirtualPool,
    arrivals: &[Arrival],
) -> Result<Vec<TimedJdkEvent>, AllocError>
    requires { IsLoad pool.now.idle_for pool.now.wakes arrivals.now }
    ensures simulated { IfOk result (λ history. IsSimulated pool.now arrivals.now history.items) }
{
    let mut history = Vec::new(alloc);
    if let Some(timed) = pool.opening() {
        history.push(timed)?;
    }
    let mut simulation = Simulation::new(alloc, *pool, arrivals);
    while let Some(timed) = simulation.next()? {
        history.push(timed)?;
    }
    Ok(history)
}
