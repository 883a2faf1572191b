//! The program except for its `main`: what the words request, and what is written for an input.
//!
//! `command` picks the text of a single-threaded command by its name, and `program` reads the words
//! and the input, refuses an input that is too long, and writes the answer with its status.
//!
//! `run` is the command of that name. It is the only one that starts threads and may wait. So there are
//! two entry points: `drive_single` for the other commands, which has no runtime, and `drive` for all.
#![tactic(auto)]

mod command;
mod program;
pub mod run;

pub use program::{drive, drive_single};
pub use resil_heads::{CommandError, InputRefusal, RunRefusal, StepRefusal, refusal_line};
pub use resil_input::output::{Output, Status, write_output};
pub use resil_replay::text_reads_back;
pub use resil_words::{Request, RunOptions, Single, UsageError, parse_args, worked_run_options};
