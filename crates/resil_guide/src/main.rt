//! Calls that are limited and retried, and pools of threads: each module is the program of a chapter of docs/GUIDE.md.
//! `main` runs them one after the other.
#![tactic(auto)]

mod bulkhead;
mod chain;
mod connections;
mod executor;
mod neighbours;
mod observed;
mod pool;
mod pool_in_chain;
mod registry;
mod retry;
mod service;

fn main(rt: HostRuntime) -> anyhow::Result<()> {
    println!(rt; "bulkhead:")?;
    bulkhead::show(&rt)?;
    println!(rt; "retry:")?;
    retry::show(&rt)?;
    println!(rt; "chain:")?;
    chain::show(&rt)?;
    println!(rt; "observed:")?;
    observed::show(&rt)?;
    println!(rt; "registry:")?;
    registry::show(&rt)?;
    println!(rt; "service:")?;
    service::show(&rt)?;
    println!(rt; "executor:")?;
    executor::show(&rt)?;
    println!(rt; "connections:")?;
    connections::show(&rt)?;
    println!(rt; "neighbours:")?;
    neighbours::show(&rt)?;
    println!(rt; "pool_in_chain:")?;
    pool_in_chain::show(&rt)?;
    println!(rt; "pool:")?;
    pool::show(&rt)
}
