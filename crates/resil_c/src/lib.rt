//! The proved permits, the proved rule of a pool and the proved waits of a retry for C, and for languages that call C:
//! `resil_permit`, `resil_rule` and the intervals of `resil_retry`, under C names.
//!
//! A caller in C has a handle, which is one pointer, to a pass or a pool on the heap. A handle goes into a call by
//! value, which empties the caller's copy, and comes back through `back`. In the logic it owns what it points to, so
//! each clause of the libraries below is stated again for the handle's value. The headers are in `include/`.
#![tactic(auto)]

mod box_parts;
pub mod permit;
pub mod pool;
pub mod retry;

// What calls return for an empty handle.
const EMPTY: u8 = 255;
