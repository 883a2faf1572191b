//! What standard error says of the arguments of `resil`, and of an output, given what the arguments request.

use resil_chain::subject::ChainSubject;
use resil_driver::run::subject::RunSubject;
use resil_explain::{explain_input, is_explained, say_commands, say_words};
use resil_replay::subject::{AuditSubject, ReplaySubject};
use resil_weave::subject::WeaveSubject;
use resil_words::{Request, Single, UsageError, parse_args};
use std::alloc::Global;

// The maximum number of arguments that are read.
const MOST_WORDS: usize = 64;

// How many of the arguments, from the first on, form the longest valid request, or `None` if out of memory.
fn accepted(alloc: Global, words: &[&str]) -> Option<usize> {
    let mut most = 0usize;
    for count in 2..words.len().min(MOST_WORDS) {
        match parse_args(alloc, words.get(..count)?) {
            Ok(_) => most = count,
            Err(UsageError::Usage) => {}
            Err(UsageError::Memory) => return None,
        }
    }
    Some(most)
}

// Reports on standard error which argument is refused, or nothing if out of memory.
fn explain_words<R: Eprint>(rt: &R, alloc: Global, words: &[&str]) {
    let Some(most) = accepted(alloc, words) else {
        return;
    };
    if most == 0 {
        let commands = "the commands are replay, audit, chain, weave and run";
        return say_commands(rt, words.get(1), commands);
    }
    let allowed =
        "run takes --hold and --callers N, where N is from 1 to 64; the other commands take no arguments";
    say_words(rt, words.get(most), allowed);
}

/// Reports on standard error what the status and the first line of an output of `resil` mean for its arguments and its input, if
/// it refuses something.
pub(crate) fn explain_command<R: Eprint + AllocGlobal>(
    rt: &R,
    words: &[&str],
    code: u8,
    line: &[u8],
    input: Option<&[u8]>,
) {
    if code == 2 {
        return explain_words(rt, rt.alloc(), words);
    }
    if !is_explained(code, line) {
        return;
    }
    let input = input.unwrap_or(&[]);
    match parse_args(rt.alloc(), words) {
        Ok(Request::Single(Single::Replay)) => explain_input(rt, ReplaySubject, code, line, input),
        Ok(Request::Single(Single::Audit)) => explain_input(rt, AuditSubject, code, line, input),
        Ok(Request::Single(Single::Chain)) => explain_input(rt, ChainSubject, code, line, input),
        Ok(Request::Single(Single::Weave)) => explain_input(rt, WeaveSubject, code, line, input),
        Ok(Request::Run(options)) => {
            let callers = options.callers;
            explain_input(rt, RunSubject { callers }, code, line, input)
        }
        Err(_) => {}
    }
}
