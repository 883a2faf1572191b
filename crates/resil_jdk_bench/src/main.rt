//! Judges histories of the JDK's pools, and measures how long an audit takes.
//!
//! | Word | What is done |
//! |---|---|
//! | `judge` | judges the histories on standard input, and prints a line for each: `legal`, or `illegal N` with the position, from 1, of its first illegal event |
//! | `time` | prints how long audits by both rules take |
//!
//! A history is a line `pool,CORE,MAX,QUEUE`, then a row for each event, then a line `end`. A row has seven fields, and those that
//! an event doesn't have are empty:
//!
//! | Event | Row |
//! |---|---|
//! | a submission | `submit,CALLER,NUMBER,REPLY,,,`, with the reply `core`, `first`, `queued`, `handed`, `extra`, `full` or `closed` |
//! | a take, a finish, a removal | `take,CALLER,NUMBER,,,,`, `finish,CALLER,NUMBER,,,,`, `remove,CALLER,NUMBER,,,,` |
//! | an idle end, a worker that begins, one that is culled | `idle,,,,,,`, `start,,,,,,`, `cull,,,,,,` |
//! | a closing, a stop | `close,,,,,,`, `stop,,,,,,` |
//! | a resize | `resize,,,,CORE,MAX,` |
//! | the time-out of core workers | `time_out,,,,,,on`, `time_out,,,,,,off` |
#![tactic(auto)]

mod judged;
mod measured;
mod row;

use anyhow::anyhow;
use std::env;
use std::rt::Env;
use std::time::Clock;

fn run<R: Env + Input + Print + AllocGlobal + Clock>(rt: &R, word: &str) -> anyhow::Result<()> {
    match word {
        "judge" => judged::judge_all(rt),
        "time" => measured::measure_all(rt),
        _ => Err(anyhow!("the word is judge or time")),
    }
}

fn main(rt: HostRuntime) -> anyhow::Result<()> {
    let mut words = env::args(&rt)?;
    let _program = words.next();
    match words.next() {
        Some(word) => run(&rt, word.as_str()),
        None => Err(anyhow!("one word is needed, judge or time")),
    }
}
