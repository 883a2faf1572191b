//! The program over any reader and writer.
//!
//! All input is read before anything is answered, and an answer is complete before its first byte is written. An input that is too
//! long is refused here, before any command sees it, so the commands are defined on inputs within the limit. The reader and the
//! writer themselves say whether a call to them has failed, so that this is distinguished from every other end.

ghost use Rattle.std.specs.Prelude.{◌≡◌, ◌≤◌, ◌⊎◌, ◌||◌, ◌+◌, ℕ, List, Option, true, false, Some, None, map, is_err, IfErr, IfOk, IfSome};
ghost use Rattle.resil_input.specs.Io.{ConsumesAtMost, input_limit};
ghost use Rattle.resil_words.specs.CommandLine.{IsRun, request_of, single_of};
ghost use Rattle.resil_driver.specs.Program.{DrivesTo, IsAnswerTo, WritesNoMemory};

use crate::command::command_text;
use crate::run::{self, ThreadRunner};
use resil_heads::{error_output, too_long_output};
use resil_input::io::{Input, InputReader, OutputWriter, ReadError, read_input};
use resil_input::output::{Output, Status, write_output};
use resil_words::{Request, RunOptions, Single, UsageError, parse_args};
use std::alloc::Global;
use std::sync::Wait;
use std::thread::Threads;

// The output of a single-threaded command, for what a reader returns. Errors: a read failed.
fn single_output<R: InputReader>(
    alloc: Global,
    single: Single,
    reader: &mut R,
) -> Result<Output, ReadError>
    ensures output { IfOk result (IsAnswerTo (Some (Request.Single single)) (R.remaining reader.old)) }
    ensures taken { ConsumesAtMost (input_limit + 1) (R.remaining reader.old) (R.remaining reader.new) }
    ensures failed { R.has_failed reader.new ≡ (R.has_failed reader.old || is_err result) }
{
    match read_input(alloc, reader) {
        Ok(Input::Whole(bytes)) => {
            let answer = command_text(alloc, single, &bytes);
            reader.take_back(bytes);
            match answer {
                Ok(text) => Ok(Output::Text(text)),
                Err(error) => Ok(error_output(alloc, error)),
            }
        }
        Ok(Input::TooLong) => Ok(too_long_output(alloc)),
        Err(ReadError::Memory) => Ok(Output::NoMemory),
        Err(ReadError::Reader) => Err(ReadError::Reader),
    }
}

// The output of `run`, for what a reader returns. Errors: a read failed.
fn run_output<R: Threads + Wait + Sync, S: InputReader>(
    rt: &R,
    alloc: Global,
    words: RunOptions,
    reader: &mut S,
) -> Result<Output, ReadError>
    requires { words.callers ≤ 64 }
    ensures output { IfOk result (IsAnswerTo (Some (Request.Run words)) (S.remaining reader.old)) }
    ensures taken { ConsumesAtMost (input_limit + 1) (S.remaining reader.old) (S.remaining reader.new) }
    ensures failed { S.has_failed reader.new ≡ (S.has_failed reader.old || is_err result) }
{
    match read_input(alloc, reader) {
        Ok(Input::Whole(bytes)) => {
            let answer = run::text(&ThreadRunner, rt, alloc, words, &bytes);
            reader.take_back(bytes);
            match answer {
                Ok(text) => Ok(Output::Text(text)),
                Err(error) => Ok(error_output(alloc, error)),
            }
        }
        Ok(Input::TooLong) => Ok(too_long_output(alloc)),
        Err(ReadError::Memory) => Ok(Output::NoMemory),
        Err(ReadError::Reader) => Err(ReadError::Reader),
    }
}

// Writes the output, if no read failed, and returns the number of its status.
fn write_answer<W: OutputWriter>(writer: &mut W, output: Result<Output, ReadError>) -> u8
    ensures drives { (requested : Option Request) (input : Option (List ℕ)) → IfOk output (IsAnswerTo requested input) → DrivesTo requested input (W.contents writer.old) (W.contents writer.new) result }
    ensures memory { IfOk output (λ out. out ≡ Output.NoMemory → WritesNoMemory (W.contents writer.old) (W.contents writer.new) result) }
    ensures unwritten { IfErr output (λ _. (result ≡ 4) × (writer.new ≡ writer.old)) }
    ensures failed { result ≡ 4 → (is_err output ≡ true) ⊎ (W.has_failed writer.new ≡ true) }
    ensures no_fault { W.has_failed writer.old ≡ false → W.has_failed writer.new ≡ true → result ≡ 4 }
{
    match output {
        Ok(output) => write_output(writer, &output).code(),
        Err(_) => Status::Failed.code(),
    }
}

/// The program for all single-threaded commands: it reads the words, then the input, and writes the answer. It returns the number
/// of a [`Status`], or `None`, with nothing read and nothing written, if the words name `run`.
///
/// It needs the words, with the program's name first, and any reader and writer; a `FailureTracking` makes them from those of `std`.
pub fn drive_single<R: InputReader, W: OutputWriter>(
    alloc: Global,
    words: &[&str],
    reader: &mut R,
    writer: &mut W,
) -> Option<u8>
    ensures none { result ≡ None → IsRun (request_of (map (λ word. word.now) words.now)) × (reader.new ≡ reader.old) × (writer.new ≡ writer.old) }
    ensures run { IsRun (request_of (map (λ word. word.now) words.now)) → IfSome result (WritesNoMemory (W.contents writer.old) (W.contents writer.new)) }
    ensures drives { IfSome result (DrivesTo (request_of (map (λ word. word.now) words.now)) (R.remaining reader.old) (W.contents writer.old) (W.contents writer.new)) }
    ensures failed { result ≡ Some 4 → (R.has_failed reader.new ≡ true) ⊎ (W.has_failed writer.new ≡ true) }
    ensures no_read_fault { R.has_failed reader.old ≡ false → R.has_failed reader.new ≡ true → (result ≡ Some 4) × (writer.new ≡ writer.old) }
    ensures no_write_fault { W.has_failed writer.old ≡ false → W.has_failed writer.new ≡ true → result ≡ Some 4 }
    ensures taken { ConsumesAtMost (input_limit + 1) (R.remaining reader.old) (R.remaining reader.new) }
    ensures unread { single_of (request_of (map (λ word. word.now) words.now)) ≡ None → reader.new ≡ reader.old }
{
    match parse_args(alloc, words) {
        Ok(Request::Single(single)) => {
            let output = single_output(alloc, single, reader);
            Some(write_answer(writer, output))
        }
        Ok(Request::Run(_)) => None,
        Err(UsageError::Usage) => Some(write_answer(writer, Ok(Output::Usage))),
        Err(UsageError::Memory) => Some(write_answer(writer, Ok(Output::NoMemory))),
    }
}

/// The whole program: the words (the program's name first), all input, all output. It returns the number of a [`Status`]. All
/// commands but `run` are those of [`drive_single`]; `run` starts threads, and waits for them.
///
/// It needs what [`drive_single`] needs, and a runtime: for memory, and for threads if the words name `run`.
pub fn drive<R: Threads + Wait + Sync + AllocGlobal, S: InputReader, W: OutputWriter>(
    rt: &R,
    words: &[&str],
    reader: &mut S,
    writer: &mut W,
) -> u8
    ensures drives { DrivesTo (request_of (map (λ word. word.now) words.now)) (S.remaining reader.old) (W.contents writer.old) (W.contents writer.new) result }
    ensures failed { result ≡ 4 → (S.has_failed reader.new ≡ true) ⊎ (W.has_failed writer.new ≡ true) }
    ensures no_read_fault { S.has_failed reader.old ≡ false → S.has_failed reader.new ≡ true → (result ≡ 4) × (writer.new ≡ writer.old) }
    ensures no_write_fault { W.has_failed writer.old ≡ false → W.has_failed writer.new ≡ true → result ≡ 4 }
    ensures taken { ConsumesAtMost (input_limit + 1) (S.remaining reader.old) (S.remaining reader.new) }
    ensures unread { request_of (map (λ word. word.now) words.now) ≡ None → reader.new ≡ reader.old }
{
    let alloc = rt.alloc();
    match parse_args(alloc, words) {
        Ok(Request::Single(single)) => {
            let output = single_output(alloc, single, reader);
            write_answer(writer, output)
        }
        Ok(Request::Run(run)) => {
            let output = run_output(rt, alloc, run, reader);
            write_answer(writer, output)
        }
        Err(UsageError::Usage) => write_answer(writer, Ok(Output::Usage)),
        Err(UsageError::Memory) => write_answer(writer, Ok(Output::NoMemory)),
    }
}
