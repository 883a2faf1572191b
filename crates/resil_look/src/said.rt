//! What `resil_look` reports on standard error about its arguments, and about an output by what they ask for.

use crate::look::{LookRequest, limit_of, requested, view_named};
use resil_explain::{explain_input, say_commands, say_words};
use resil_input::io::MAX_INPUT_LEN;

// Reports on standard error which argument is refused.
fn explain_words<R: Eprint>(rt: &R, words: &[&str]) {
    let (place, allowed) = match words.get(1) {
        Some(word) if *word == "simulate" => {
            let has_history = words.get(2).is_some_and(|word| *word == "--history");
            let place = if has_history { 3 } else { 2 };
            (place, "simulate takes --history and no other argument")
        }
        Some(word) if view_named(word).is_some() => {
            (2, "judge, stats and timeline take no arguments")
        }
        word => {
            let commands = "the commands are judge, stats, timeline and simulate";
            return say_commands(rt, word, commands);
        }
    };
    say_words(rt, words.get(place), allowed);
}

// Reports on standard error how long an input for this request may be.
fn explain_length<R: Eprint>(rt: &R, request: LookRequest) {
    let limit = limit_of(request);
    let head = MAX_INPUT_LEN;
    drop(eprintln!(rt;
        "resil: an input may have at most {limit} bytes, and its head with the `---` line at most {head}"
    ));
}

/// Explains on standard error what the status and the first line of an output of `resil_look` mean for its arguments and its input, if
/// it refuses something.
pub(crate) fn explain_look<R: Eprint + AllocGlobal>(
    rt: &R,
    words: &[&str],
    code: u8,
    line: &[u8],
    input: Option<&[u8]>,
) {
    let input = input.unwrap_or(&[]);
    match requested(words) {
        Some(request) if line == b"refused input TooLong\n".as_slice() => {
            explain_length(rt, request)
        }
        Some(LookRequest::View(view)) => explain_input(rt, view, code, line, input),
        Some(LookRequest::Simulate(shown)) => explain_input(rt, shown, code, line, input),
        None => explain_words(rt, words),
    }
}
