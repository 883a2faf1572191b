//! The permits: each thread has a handle to its own pass, which is on the heap together with its permits.
//!
//! No call waits for another thread. The header is `include/resil_permit.h`.

pub mod exports;
pub mod handle;
pub mod owned_pass;
