//! The arguments that a program is started with, and which of them is refused.

use crate::place::ShownBytes;
use crate::told::explain;
use resil_heads::subject::Subject;
use resil_input::output::Output;
use std::alloc::{AllocError, Global};
use std::env;
use std::io::ErrorKind;
use std::rt::Env;

// The version of both programs, which is that of the crates for rustc.
const VERSION: &str = "0.5.0";

/// The arguments that a program was started with, as strings (beyond the port). Errors: `Usage` if one isn't UTF-8; `NoMemory`.
pub fn own_words(rt: &(impl Env + AllocGlobal)) -> Result<Vec<String>, Output> {
    match env::args(rt) {
        Ok(args) => args.collect(rt.alloc()).map_err(|_| Output::NoMemory),
        Err(error) if error.kind() == ErrorKind::OutOfMemory => Err(Output::NoMemory),
        Err(_) => Err(Output::Usage),
    }
}

/// The same arguments, borrowed (beyond the port). Errors: out of memory.
pub fn borrowed<'a>(alloc: Global, words: &'a [String]) -> Result<Vec<&'a str>, AllocError> {
    words.iter().map(|word| word.as_str()).collect(alloc)
}

/// Reports on standard error which argument is refused, if there is one, and what is allowed there.
pub fn say_words<R: Eprint>(rt: &R, word: Option<&&str>, allowed: &str) {
    match word {
        Some(word) => {
            let word = ShownBytes(word.as_bytes());
            drop(eprintln!(rt; "resil: unexpected argument `{word}`; {allowed}"));
        }
        None => drop(eprintln!(rt; "resil: missing argument; {allowed}")),
    }
}

/// Reports on standard error that a word names no command, or that there is none, with the commands and the version.
pub fn say_commands<R: Eprint>(rt: &R, word: Option<&&str>, commands: &str) {
    match word {
        Some(word) => {
            let word = ShownBytes(word.as_bytes());
            drop(eprintln!(rt; "resil: unknown command `{word}`; {commands}"));
        }
        None => drop(eprintln!(rt; "resil: missing command; {commands}")),
    }
    drop(eprintln!(rt; "resil: version {VERSION}"));
}

/// Whether an output with this status and this first line is explained: it refuses the input, or the history is illegal.
pub fn is_explained(code: u8, line: &[u8]) -> bool {
    code == 1 || line.starts_with(b"illegal ")
}

/// Explains on standard error what the status and the first line of an output mean for a command's input, if it is refused or illegal.
pub fn explain_input<R: Eprint + AllocGlobal, S: Subject>(
    rt: &R,
    subject: S,
    code: u8,
    line: &[u8],
    input: &[u8],
) {
    if is_explained(code, line) {
        let _said = explain(rt, subject, line, input);
    }
}
