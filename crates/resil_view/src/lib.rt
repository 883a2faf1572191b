//! `judge`, `stats` and `timeline` over bytes: what is written for an input.
//!
//! `command` makes the text of a view: `judge` has the verdict on a history of any version, `numbers` its numbers, `drawn` its chart, and
//! `read` is what all views read. `subject` is what is said of a refusal. The caller has read the input, and writes the output.
#![tactic(auto)]

mod command;
mod drawn;
mod judge;
mod numbers;
mod read;
mod subject;

pub use command::{HistoryView, MAX_HISTORY_LEN, view_text};
pub use drawn::DRAWN_USES;
pub use judge::judges_as_audit;
