//! A clock whose readings contracts can speak of, and how much of a time is left by these readings.
//!
//! A contract that says 'there is a reading of the clock such that ..' holds for a reading that nobody made. So a caller asks
//! for a reading after an earlier one. What the clock has said after which reading is a relation that is abstract to all code
//! that waits by the clock, and only `read` returns a value for which it holds. So code that claims a reading has read the
//! clock.
#![tactic(auto)]

mod reads;
mod time_left;

pub use reads::Reads;
pub use time_left::TimeLeft;
