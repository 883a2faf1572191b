//! Why a command has no text to write.
//!
//! The error of each step becomes a `CommandError` by `?`, with the row that the step named, so each command reads as its steps. All
//! conversions are here, except those for carrying out the rows of `replay` and for a run, which are with their commands.

ghost use Rattle.std.specs.Prelude.{◌≡◌, MatchResult};
ghost use Rattle.resil_heads.specs.CommandError.{IsErrorOutput, from_body_error, from_head_error, from_weave_error};
ghost use Rattle.resil_heads.specs.declared.command_error.CommandError.TheVariants.{Memory, Refused};
ghost use Rattle.resil_heads.specs.declared.refusal.InputRefusal.TheVariants.{TooLong};
ghost use Rattle.resil_input.specs.declared.output.Output.{Output};

use crate::error::{HeadError, HeadFault};
use crate::refusal::{InputRefusal, StepRefusal, refusal_line};
use resil_input::csv_rows::BodyError;
use resil_input::output::Output;
use resil_permit::WeaveError;
use std::alloc::{AllocError, Global};
use thiserror::Error;

/// Why there is no text.
#[derive(Clone, Copy, Debug, Error)]
pub enum CommandError {
    /// Out of memory.
    #[error("out of memory")]
    Memory,
    /// A thread couldn't be started.
    #[error("a thread could not be started")]
    NoThread,
    /// The input is refused.
    #[error("the input is refused")]
    Refused(InputRefusal),
}

impl From<AllocError> for CommandError {
    ghost from_gives = { λ _ error. error ≡ Memory };

    fn from(_refused: AllocError) -> CommandError {
        CommandError::Memory
    }
}

impl From<InputRefusal> for CommandError {
    ghost from_gives = { λ why error. error ≡ Refused why };

    fn from(why: InputRefusal) -> CommandError {
        CommandError::Refused(why)
    }
}

impl From<HeadFault> for CommandError {
    ghost from_gives = { λ fault error. error ≡ from_head_error fault };

    fn from(fault: HeadFault) -> CommandError {
        match fault.why() {
            HeadError::Memory => CommandError::Memory,
            other => CommandError::Refused(InputRefusal::Head(other)),
        }
    }
}

impl From<BodyError> for CommandError {
    ghost from_gives = { λ why error. error ≡ from_body_error why };

    fn from(why: BodyError) -> CommandError {
        match why {
            BodyError::Memory => CommandError::Memory,
            BodyError::BadHeader => CommandError::Refused(InputRefusal::BadHeader),
            BodyError::BadRow(position) => CommandError::Refused(InputRefusal::BadRow(position)),
        }
    }
}

impl From<WeaveError> for CommandError {
    ghost from_gives = { λ why error. error ≡ from_weave_error why };

    fn from(why: WeaveError) -> CommandError {
        let (position, step) = match why {
            WeaveError::Memory => return CommandError::Memory,
            WeaveError::TooManyPermits => {
                return CommandError::Refused(InputRefusal::Head(HeadError::TooManyPermits));
            }
            WeaveError::NotLoaded(position) => (position, StepRefusal::NotLoaded),
            WeaveError::NotHolding(position) => (position, StepRefusal::NotHolding),
            WeaveError::StillLoaded(position) => (position, StepRefusal::StillLoaded),
            WeaveError::NotRetired(position) => (position, StepRefusal::NotRetired),
        };
        CommandError::Refused(InputRefusal::Step(position, step))
    }
}

/// The output for an input that is too long, which is refused before a command sees it. It is `NoMemory` if its line is out of memory.
pub fn too_long_output(alloc: Global) -> Output
    ensures { IsErrorOutput (Refused TooLong) result }
{
    error_output(alloc, CommandError::Refused(InputRefusal::TooLong))
}

/// The output of a command's result: its text, or that of `error_output`.
pub fn made_output(alloc: Global, made: Result<Vec<u8>, CommandError>) -> Output
    ensures { MatchResult made (λ text. result ≡ Output.Text text) (λ error. IsErrorOutput error result) }
{
    match made {
        Ok(text) => Output::Text(text),
        Err(error) => error_output(alloc, error),
    }
}

/// The output of a command without a text. It is `NoMemory` if its line is out of memory.
pub fn error_output(alloc: Global, error: CommandError) -> Output
    ensures { IsErrorOutput error result }
{
    match error {
        CommandError::Memory => Output::NoMemory,
        CommandError::NoThread => Output::NoThread,
        CommandError::Refused(why) => match refusal_line(alloc, why) {
            Ok(line) => Output::Line(line),
            Err(_) => Output::NoMemory,
        },
    }
}
