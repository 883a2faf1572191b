//! A backend that times out, called under a bulkhead, retried after growing waits, and replaced by 0 if no attempt is left.
//!
//! The function that owns the bulkhead uses no `?` after it: that keeps the proof short.

ghost use Rattle.std.specs.Prelude.{◌≤◌};

use resil_bulkhead::{Bulkhead, NoPermit};
use resil_call::{Call, EveryError, RetryPolicy, Sleep};
use resil_layers::Decorate;
use resil_retry::Interval;
use std::sync::Wait;
use std::time::{Clock, Duration};

/// Why there is no price.
#[derive(Clone, Copy, Debug)]
enum PriceError {
    TimedOut,
    Full,
}

impl From<NoPermit> for PriceError {
    fn from(_refused: NoPermit) -> PriceError {
        PriceError::Full
    }
}

/// A backend that times out this many times before it answers.
#[derive(Drop)]
struct Flaky {
    failures: u32,
}

impl Call for Flaky {
    type Output = Result<u32, PriceError>;

    fn call(&mut self) -> Result<u32, PriceError> {
        if self.failures > 0 {
            self.failures -= 1;
            return Err(PriceError::TimedOut);
        }
        Ok(42)
    }
}

/// A layer of your own: a call that counts its errors.
#[derive(Drop)]
struct Counted<C> {
    call: C,
    errors: u32,
}

impl<T: Drop, E: Drop, C: Call<Output = Result<T, E>>> Call for Counted<C> {
    type Output = Result<T, E>;

    ghost CanCall = { λ x. C.CanCall x.call };

    fn call(&mut self) -> Result<T, E> {
        let answer = self.call.call();
        if answer.is_err() {
            self.errors = self.errors.saturating_add(1);
        }
        answer
    }
}

/// The backend's price, or 0.
fn price<R: Clock + Wait>(
    rt: &R,
    policy: &RetryPolicy<Interval, EveryError>,
    bulkhead: &Bulkhead,
    failures: u32,
) -> u32
    requires policy { 1 ≤ policy.now.max_attempts }
{
    let mut chain = Flaky { failures }
        .inside(bulkhead, rt)
        .retried(policy, Sleep::new(rt))
        .or_else(|_error| 0);
    chain.call()
}

/// Prints the answers of a chain that is called twice, with a backend that answers its fifth call, and how often it failed.
fn print_two<R: Clock + Print + Wait>(
    rt: &R,
    policy: &RetryPolicy<Interval, EveryError>,
    bulkhead: &Bulkhead,
) -> anyhow::Result<()>
    requires policy { 1 ≤ policy.now.max_attempts }
{
    let call = Flaky { failures: 4 }.inside_within(bulkhead, rt, Duration::from_millis(50));
    let mut chain = Counted { call, errors: 0 }
        .retried(policy, Sleep::new(rt))
        .or_else(|_error| 0);
    for n in 1..3u8 {
        println!(rt; "call {n}: {}", chain.call())?;
    }
    println!(rt; "errors: {}", chain.call.call.errors)?;
    Ok(())
}

/// Prints the prices of a backend that answers at once, at its third call, and too late.
fn print_prices<R: Clock + Print + Wait>(
    rt: &R,
    policy: &RetryPolicy<Interval, EveryError>,
    bulkhead: &Bulkhead,
) -> anyhow::Result<()>
    requires policy { 1 ≤ policy.now.max_attempts }
{
    let at_once = price(rt, policy, bulkhead, 0);
    let start = rt.monotonic()?;
    let later = price(rt, policy, bulkhead, 2);
    let waited = rt.monotonic()?.saturating_sub(start) >= Duration::from_millis(30);
    let never = price(rt, policy, bulkhead, 3);
    println!(rt; "{at_once}; {later}, and waited 30 ms: {waited}; {never}")?;
    print_two(rt, policy, bulkhead)
}

/// The prices by a policy of three attempts, under a bulkhead of two permits.
pub fn show<R: AllocGlobal + Clock + Print + Wait>(rt: &R) -> anyhow::Result<()> {
    let policy = RetryPolicy {
        max_attempts: 3,
        backoff: Interval::exponential(10, 2, 1, 1_000)?,
        retry_on: EveryError,
    };
    let (bulkhead, _pass) = Bulkhead::new(rt.alloc(), "prices", 2)?;
    print_prices(rt, &policy, &bulkhead)
}
