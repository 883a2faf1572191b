//! Bulkheads by name: a registry says how many calls each permits.
//!
//! The function that owns the registry or a bulkhead uses no `?`: that keeps the proof short.

use anyhow::anyhow;
use resil_bulkhead::{Bulkhead, DEFAULT_MAX_CALLS};
use resil_registry::Registry;
use std::alloc::Global;

/// Prints a bulkhead's name, and how many concurrent calls it permits.
fn print(rt: &impl Print, bulkhead: &Bulkhead) -> anyhow::Result<()> {
    println!(rt; "{}: {}", bulkhead.name(), bulkhead.max())?;
    Ok(())
}

/// Prints the bulkhead of an instance of the registry.
fn print_instance(
    rt: &impl Print,
    alloc: Global,
    registry: &Registry<u32>,
    id: usize,
) -> anyhow::Result<()> {
    let (name, max) = registry
        .get(id)
        .ok_or_else(|| anyhow!("there is no such instance"))?;
    let (bulkhead, _pass) = Bulkhead::new(alloc, name, *max)?;
    print(rt, &bulkhead)
}

/// Looks names up in a registry. By its default a bulkhead permits 25 calls; one that is `small` permits 2.
fn look_up(rt: &impl Print, alloc: Global, registry: &mut Registry<u32>) -> anyhow::Result<()> {
    registry
        .add_config("small", 2)
        .map_err(|refused| refused.0)?;
    let prices = registry.obtain("prices")?;
    let letters = registry.obtain_with("letters", "small")?;
    let again = registry.obtain_with("prices", "small")?;
    println!(rt; "{}", prices == again)?;
    print_instance(rt, alloc, registry, prices)?;
    print_instance(rt, alloc, registry, letters)?;
    let refused = registry.obtain("no name");
    println!(rt; "{refused:?}")?;
    Ok(())
}

/// Looks up in a registry of its own.
pub fn show<R: AllocGlobal + Print>(rt: &R) -> anyhow::Result<()> {
    let alloc = rt.alloc();
    let mut registry = Registry::new(alloc, DEFAULT_MAX_CALLS).map_err(|refused| refused.0)?;
    look_up(rt, alloc, &mut registry)
}
