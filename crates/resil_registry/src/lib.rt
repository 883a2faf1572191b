//! Registries: named configurations, and named instances made from them (modelled on Resilience4j's
//! registries; user guide, chapter Bulkhead).
//!
//! A registry returns the instance that it has under a name. If it has none, it makes one, with the
//! configuration named `default` or with another named one. An instance's id is its index in the
//! order of making, from 0; it never changes.
#![tactic(auto)]

mod entries;
mod error;
mod names;
mod registry;

pub use error::RegistryError;
pub use names::Names;
pub use registry::{DEFAULT_CONFIG, Registry};
pub use resil_name::{MAX_NAME_LEN, is_name};
