//! The semaphore bulkhead: a limit, with a name, on the number of concurrent calls (modelled on Resilience4j's
//! module bulkhead; user guide, chapter Bulkhead).
//!
//! A call acquires a permit, runs the function and releases the permit, whether the function returns a value or
//! an error. A call that finds no free permit is refused at once with the error `Full`, and its function isn't
//! called. Each thread uses a pass of its own, split from another. A pass counts the permits that it holds, and
//! contracts see each permit that it acquired and released (`specs/Call.antt`, `specs/Execution.antt`). There
//! is no lock, and only making a bulkhead allocates memory.
//!
//! An operator can lower the limit while calls run: a pass enters and retires its permit, so that one call less
//! is permitted at once, and raises it again later.
#![tactic(auto)]

mod bulkhead;
mod call;
mod call_error;
mod client;
mod error;
mod execution;
mod holding;
mod no_permit;
mod permit;

pub use bulkhead::{Bulkhead, DEFAULT_MAX_CALLS};
pub use call_error::CallError;
pub use client::Client;
pub use error::BulkheadError;
pub use no_permit::NoPermit;
pub use permit::Permit;
pub use resil_name::{MAX_NAME_LEN, is_name};
pub use resil_permit::Pass;
