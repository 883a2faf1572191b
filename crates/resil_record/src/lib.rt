//! Version 4 of the text of a history: that of a pool by the whole rule of the JDK's `ThreadPoolExecutor`, with the time of each event.
//!
//! `row` reads a record, `body` a body, and `text` writes one. The words, the columns and the order of
//! the fields are those of version 3, with one column more for the time-out of core workers, so a row of version 3 with an empty field
//! there is a row of version 4. What was written reads back as the same history (`record_reads_back`). A history that is read here may
//! be illegal: `resil_jdk` judges it.
#![tactic(auto)]

pub mod answer;
pub mod body;
mod row;
pub mod text;

pub use text::record_reads_back;
