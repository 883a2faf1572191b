//! What every command reads and writes: the bytes of an input and of an output, the status of an
//! output, the head and the body of an input, the rows of a body, the numbers, outcomes and replies in
//! their fields, and the sentences for what the rule answers.
//!
//! Nothing here knows a command. An input is read in one way only: the first line that is just `---`
//! separates head and body, the records of a body are those that `csv` reads, and a number or an
//! outcome has exactly one text.
#![tactic(auto)]

pub mod answer;
pub mod csv_rows;
pub mod csv_table;
pub mod fields;
pub mod framing;
pub mod io;
pub mod kept;
pub mod number;
pub mod outcome_text;
pub mod output;
pub mod script;
