//! The bulkheads of a `run`: one for each id of a registry, in order of id.
//!
//! So an id names the same bulkhead in a layer, in the registry and in the list made here, and
//! layers with one name share its permits.

ghost use Rattle.std.specs.Prelude.{◌≡◌, map, IfOk};
ghost use Rattle.resil_bulkhead.specs.Name.{IsName};
ghost use Rattle.resil_decor.specs.Passes.{sources_of};
ghost use Rattle.resil_driver.specs.Run.Bulkheads.{AreMadeFrom};

use resil_bulkhead::{Bulkhead, BulkheadError, Pass};
use resil_registry::Registry;
use std::alloc::{AllocError, Global};

// A bulkhead of that name and number of permits, with its first pass. Errors: `AllocError` if out of memory.
fn make_bulkhead(alloc: Global, name: &str, permits: u16) -> Result<(Bulkhead, Pass), AllocError>
    requires { IsName name.now }
    ensures name { IfOk result (λ made. made.0.name ≡ name.now) }
    ensures permits { IfOk result (λ made. made.0.permits.max ≡ permits) }
    ensures pass { IfOk result (λ made. made.1.source ≡ made.0.permits) }
{
    match Bulkhead::new(alloc, name, u32::from(permits)) {
        Ok(made) => Ok(made),
        Err(BulkheadError::Memory) => Err(AllocError),
        Err(BulkheadError::BadName | BulkheadError::TooManyPermits) => unreachable!(),
    }
}

/// Makes a bulkhead for each instance of a registry, in order of id, and a pass of each in the same order. A
/// bulkhead has its instance's name, and permits as many concurrent calls as the instance's configuration says
/// (Resilience4j user guide, Bulkhead, `maxConcurrentCalls`).
///
/// # Errors
///
/// `AllocError` if out of memory.
pub fn make_bulkheads(
    alloc: Global,
    registry: &Registry<u16>,
) -> Result<(Vec<Bulkhead>, Vec<Pass>), AllocError>
    ensures bulkheads { IfOk result (λ made. AreMadeFrom registry.now made.0.items) }
    ensures passes { IfOk result (λ made. sources_of made.1.items ≡ map (λ b. b.permits) made.0.items) }
{
    let mut bulkheads = Vec::new(alloc);
    let mut passes = Vec::new(alloc);
    'instances: while let Some((name, permits)) = registry.get(bulkheads.len()) {
        let (bulkhead, pass) = make_bulkhead(alloc, name, *permits)?;
        bulkheads.push(bulkhead)?;
        passes.push(pass)?;
    }
    Ok((bulkheads, passes))
}
