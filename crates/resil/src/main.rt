//! The program `resil`: what a pool, a permit word or a chain of decorators makes of an input of
//! rows, and whether a history is legal.
//!
//! It passes its words, its standard input and its standard output to `drive` of `resil_driver`.
#![tactic(auto)]

mod said;

use resil_driver::drive;
use resil_explain::start;
use std::process::ExitCode;
use std::rt::Env;
use std::sync::Wait;
use std::thread::Threads;

fn run<R: Env + Input + Print + Eprint + AllocGlobal + Threads + Wait + Sync>(rt: &R) -> u8 {
    start!(
        rt,
        |words, reader, writer| drive(rt, words, reader, writer),
        said::explain_command
    )
}

fn main(rt: HostRuntime) -> ExitCode {
    ExitCode::from(run(&rt))
}
