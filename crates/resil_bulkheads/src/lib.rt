//! Bulkheads by name: one instance of each name for all callers, made at the first request by a named
//! configuration (modelled on Resilience4j's `BulkheadRegistry`; user guide, chapter Bulkhead).
//!
//! Threads share a registry by `&` and look names up in it: two threads that look up one name get
//! the same permits. If threads also make bulkheads, put the registry in a `Mutex`. `Neighbours`
//! has the bulkheads that a TOML text names, with the wait for a permit of each.
#![tactic(auto)]

mod neighbours;
mod registry;

pub use neighbours::Neighbours;
pub use registry::BulkheadRegistry;
pub use resil_heads::HeadError;
pub use resil_heads::bulkheads::{Place, TextError};
pub use resil_registry::RegistryError;
