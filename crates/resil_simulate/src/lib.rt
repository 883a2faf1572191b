//! `simulate`: which sizes a pool needs, for a known load.
//!
//! `resil_virtual` carries out the load in virtual time. This crate reads the input and writes the text. `head` has the sizes, `rows`
//! the body, `history` the jobs of a body that is a history, `legality` whether some pool has it, `load` the jobs that are carried out,
//! `numbers` the numbers of a history, `tally` those of one that isn't kept, `table` the text, and `command` everything in its order;
//! `subject` is what is said of a refusal.
#![tactic(auto)]

pub mod command;
pub mod head;
pub mod history;
pub mod legality;
pub mod load;
pub mod numbers;
pub mod rows;
mod subject;
pub mod table;
mod tally;
mod version;
