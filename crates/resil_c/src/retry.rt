//! The waits of a retry: the intervals of `resil_retry`, for a service that waits itself.
//!
//! An interval is plain data, which the caller keeps: no call here takes memory, and none waits. The header is
//! `include/resil_retry.h`.

pub mod exports;
pub mod interval;
