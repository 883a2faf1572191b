//! The whole program, when out of memory.
//!
//! `tools/refuse_in_tests` runs each of these tests with one growth refused, for every growth, and with
//! all refused from one growth on. If nothing is refused, the first answers are the right ones.

use crate::shared::{Host, run_program, run_single};
use std::test::Fail;

const NO_MEMORY: &[u8] = b"refused memory\n";

const NO_THREAD: &[u8] = b"refused threads\n";

const STEPS: &[u8] = b"permits = 1\n---\nstep,caller\nload,0\n";

const WOVEN: &[u8] = b"step,caller,shown\nload,0,loaded\nword,,1\n";

// How the program ends, or the part of it that starts no thread. It writes into room that was reserved.
fn ended(
    rt: &impl Host,
    is_single: bool,
    words: &[&str],
    input: &[u8],
) -> Result<(Option<u8>, Vec<u8>), Fail> {
    let room = Vec::with_capacity(rt.alloc(), 200)?;
    if is_single {
        let (status, _, written) = run_single(rt.alloc(), words, input, room);
        return Ok((status, written));
    }
    let end = run_program(rt, words, input, room);
    Ok((Some(end.status), end.writer))
}

// Asserts how it ends for an input, once more if it reported that it was out of memory or threads.
fn ends_at_last(
    rt: &impl Host,
    is_single: bool,
    words: &[&str],
    input: &[u8],
    (status, text): (Option<u8>, &[u8]),
) -> Result<(), Fail> {
    let mut end = ended(rt, is_single, words, input)?;
    if end.0 == Some(3) {
        let line = end.1.as_slice();
        assert!(rt; line == NO_MEMORY || line == NO_THREAD && !is_single);
        end = ended(rt, is_single, words, input)?;
    }
    assert!(rt; end.0 == status && end.1.as_slice() == text);
    Ok(())
}

#[test]
fn refused_growth_of_the_program(rt: HostRuntime) -> Result<(), Fail> {
    ends_at_last(&rt, false, &["resil", "weave"], STEPS, (Some(0), WOVEN))?;
    let run = ["resil", "run", "--hold"];
    let jobs = b"core = 1\nmax = 1\n---\ncaller,script\n1,V7\n";
    let report = b"event,caller,number,reply\nsubmit,1,1,core\nclose,,,\nfinish,1,1,\nidle,,,\n\n\
        caller,number,outcome,calls,waits,asked\n1,1,V7,1,,\n";
    ends_at_last(&rt, false, &run, jobs, (Some(0), report))
}

// The words of `run` are read, and left to threads.
#[test]
fn refused_growth_of_the_program_on_one_thread(rt: HostRuntime) -> Result<(), Fail> {
    ends_at_last(&rt, true, &["resil", "weave"], STEPS, (Some(0), WOVEN))?;
    let rows = b"core = 1\nmax = 1\n---\nevent,caller,number\nsubmit,1,1\n";
    let history = b"event,caller,number,reply\nsubmit,1,1,core\n";
    ends_at_last(&rt, true, &["resil", "replay"], rows, (Some(0), history))?;
    let run = ["resil", "run", "--callers", "2"];
    ends_at_last(&rt, true, &run, rows, (None, b""))
}
