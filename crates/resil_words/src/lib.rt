//! The arguments of the program: which command they request, with its options.
#![tactic(auto)]

mod command_line;

pub use command_line::{
    MAX_CALLERS, Request, RunOptions, Single, UsageError, parse_args, worked_run_options,
};
