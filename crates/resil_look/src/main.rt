//! The program `resil_look`: the verdict, the numbers and the chart of a history, and the outcome of a
//! load.
//!
//! It passes its arguments, its standard input and its standard output to `look`.
#![tactic(auto)]

mod look;
mod pool_progress;
mod said;

use pool_progress::PoolProgress;
use resil_explain::start;
use std::process::ExitCode;
use std::rt::{Clock, Env};

fn run<R: Env + Input + Print + Eprint + AllocGlobal + Clock>(rt: &R) -> u8 {
    start!(
        rt,
        |words, reader, writer| look::look(
            rt.alloc(),
            words,
            reader,
            writer,
            &mut PoolProgress::new(rt)
        ),
        said::explain_look
    )
}

fn main(rt: HostRuntime) -> ExitCode {
    ExitCode::from(run(&rt))
}
