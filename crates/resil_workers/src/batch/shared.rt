//! What all threads of a batch share.

use resil_pool::{Hook, JobRow};
use std::alloc::Global;
use std::sync::Wait;

/// The rows of a batch, whether the workers wait until all of them are submitted, and the hook around each job.
#[derive(Drop)]
pub(crate) struct Batch<'b, R: Wait, H: Hook> {
    pub(crate) rt: &'b R,
    pub(crate) alloc: Global,
    pub(crate) rows: &'b [JobRow],
    pub(crate) hold: bool,
    pub(crate) hook: &'b H,
}
