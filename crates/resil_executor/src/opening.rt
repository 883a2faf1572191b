//! What is fixed when a pool is opened.

use resil_rule::Sizes;
use std::snapshot::Snapshot;

/// The key of a pool's lock: what is fixed when the pool is opened.
#[derive(Drop)]
pub struct Opening<H> {
    /// The sizes.
    pub limits: Sizes,
    /// The record of no events yet. It has no bytes here: contracts see in it how many events the record keeps.
    pub blank: Snapshot<H>,
}
