//! The commands of one thread over bytes, for a page of the web: what the programs write for `replay`, `audit`, `judge`, `stats`, `timeline`
//! and `simulate`, and what they say of it on standard error.
//!
//! `exports` is what the page calls. `output` hands an output over to the caller's memory, `said` collects what is said of a refusal, and
//! `head` says what the head of an input says.
#![tactic(auto)]

pub mod exports;
mod head;
mod output;
mod said;
