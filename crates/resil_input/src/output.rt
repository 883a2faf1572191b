//! What is written, and the status that goes with it.
//!
//! An output is whole before its first byte is written, and its status is returned only if all of it
//! was written.

ghost use Rattle.std.specs.Prelude.{◌≡◌};
ghost use Rattle.resil_input.specs.Output.{IsWritten, bytes_of, code_of, status_of};

use crate::io::{OutputWriter, write_text};

/// How a call of the program ended.
#[derive(Clone, Copy)]
pub enum Status {
    /// 0: the output was written.
    Done,
    /// 1: the input was refused, in one line.
    Refused,
    /// 2: the arguments were refused, a request for help or the version included.
    Usage,
    /// 3: out of memory.
    NoMemory,
    /// 3: a thread couldn't be started.
    NoThread,
    /// 4: a read or a write failed.
    Failed,
}

impl Status {
    /// The number of the status.
    pub fn code(self) -> u8
        ensures { result ≡ code_of self }
    {
        match self {
            Status::Done => 0,
            Status::Refused => 1,
            Status::Usage => 2,
            Status::NoMemory => 3,
            Status::NoThread => 3,
            Status::Failed => 4,
        }
    }
}

/// What is to be written.
#[derive(Drop)]
pub enum Output {
    /// The text of the command.
    Text(Vec<u8>),
    /// The line of a refusal of the input.
    Line(String),
    /// The line for refused arguments.
    Usage,
    /// The line for being out of memory.
    NoMemory,
    /// The line for a thread that couldn't be started.
    NoThread,
}

impl Output {
    /// The status that goes with the output, and its bytes.
    pub fn parts(&self) -> (Status, &[u8])
        ensures status { result.0 ≡ status_of self.now }
        ensures bytes { result.1.now ≡ bytes_of self.now }
    {
        match self {
            Output::Text(text) => (Status::Done, text.as_slice()),
            Output::Line(line) => (Status::Refused, line.as_bytes()),
            Output::Usage => (Status::Usage, b"refused usage\n"),
            Output::NoMemory => (Status::NoMemory, b"refused memory\n"),
            Output::NoThread => (Status::NoThread, b"refused threads\n"),
        }
    }
}

/// Writes an output. Returns its status, or `Failed` if a write failed after a prefix of it.
pub fn write_output<W: OutputWriter>(writer: &mut W, output: &Output) -> Status
    ensures { IsWritten (W.contents writer.old) (W.contents writer.new) (W.has_failed writer.old) (W.has_failed writer.new) output.now result }
{
    let (status, bytes) = output.parts();
    match write_text(writer, bytes) {
        Ok(()) => status,
        Err(_) => Status::Failed,
    }
}
