//! The job that all pools get: no layers, and a call that returns a number at once.

use resil_decor::{Chain, Plan};
use resil_retry::{Outcome, Script};
use std::alloc::Global;

/// The plan of the job.
pub(crate) fn plan(alloc: Global) -> anyhow::Result<Plan> {
    let script = Script::new(Vec::from_array(alloc, [Outcome::Value(1)])?)?;
    let chain = Chain::new(Vec::new(alloc)).map_err(|refused| refused.0)?;
    Ok(Plan::new(chain, script))
}
