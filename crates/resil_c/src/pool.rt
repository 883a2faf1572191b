//! The rule of a pool: the rule of `resil_rule` over jobs of 64 bits, for a service that has its own threads.
//!
//! The service asks the pool what becomes of a submission and which job comes next, and runs the jobs itself. It must
//! hold its own lock around the calls. The header is `include/resil_pool.h`.

pub mod book;
pub mod exports;
pub mod handle;
pub mod plain_data;
