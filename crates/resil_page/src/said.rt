//! What is said of an answer, collected as text.

use crate::output::{Command, limit_of};
use resil_explain::explain_input;
use resil_input::io::MAX_INPUT_LEN;
use resil_replay::subject::{AuditSubject, ReplaySubject};
use std::alloc::Global;
use std::cell::RefCell;
use std::fmt::{Display, Write};
use std::io;

// The lines that were said.
#[derive(Drop)]
struct Said {
    lines: RefCell<String>,
}

impl Eprint for Said {
    fn eprint<D: Display + Drop>(&self, value: D) -> io::Result<()> {
        let mut lines = self.lines.try_borrow_mut()?;
        write!(lines, "{value}")?;
        Ok(())
    }

    fn eprintln<D: Display + Drop>(&self, value: D) -> io::Result<()> {
        let mut lines = self.lines.try_borrow_mut()?;
        writeln!(lines, "{value}")?;
        Ok(())
    }
}

// Says how long an input of a command may be, as the program of `judge`, `stats`, `timeline` and `simulate` does.
fn explain_length<R: Eprint>(rt: &R, command: Command) {
    let limit = limit_of(command);
    let head = MAX_INPUT_LEN;
    drop(eprintln!(rt;
        "resil: an input may have at most {limit} bytes, and its head with the `---` line at most {head}"
    ));
}

/// What the program says on standard error of a command's answer for an input, by its status and its first line.
pub(crate) fn said_of(
    alloc: Global,
    command: Option<Command>,
    code: u8,
    line: &[u8],
    input: &[u8],
) -> String {
    let said = Said {
        lines: RefCell::new(String::new(alloc)),
    };
    let rt = (said, alloc);
    match command {
        Some(Command::Replay) => explain_input(&rt, ReplaySubject, code, line, input),
        Some(Command::Audit) => explain_input(&rt, AuditSubject, code, line, input),
        Some(Command::Head(_)) | None => {}
        Some(command) if line == b"refused input TooLong\n".as_slice() => {
            explain_length(&rt, command)
        }
        Some(Command::View(view)) => explain_input(&rt, view, code, line, input),
        Some(Command::Simulate(shown)) => explain_input(&rt, shown, code, line, input),
    }
    let (said, _) = rt;
    said.lines.into_inner()
}
