//! The price from a backend: at most 25 concurrent calls, three attempts, and 0 if all of them fail.
#![tactic(auto)]

use resil_bulkhead::{Bulkhead, NoPermit};
use resil_call::{Call, FromFn, RetryPolicy, Sleep};
use resil_layers::Decorate;

fn main(rt: HostRuntime) -> anyhow::Result<()> {
    let (prices, _pass) = Bulkhead::new(rt.alloc(), "prices", 25)?;
    let policy = RetryPolicy::defaults();
    let mut price = FromFn(|| -> Result<u32, NoPermit> { Ok(42) })
        .inside(&prices, &rt)
        .retried(&policy, Sleep::new(&rt))
        .or_else(|_error| 0);
    for _ in 0..3 {
        println!(rt; "{}", price.call())?;
    }
    Ok(())
}
