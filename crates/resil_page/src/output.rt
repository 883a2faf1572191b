//! The output of a command for an input, and its bytes in the memory of a caller.

ghost use Rattle.std.specs.Prelude.{◌≡◌, MatchResult};
ghost use Rattle.resil_heads.specs.CommandError.{IsError};
ghost use Rattle.resil_page.specs.Page.{IsCommandOutput, IsCommandRefusal, IsCommandText, IsFilled, IsHandedOver, IsPageOutput, command_of, limit_of};

use crate::head::{HeadOf, head_text};
use resil_heads::length::is_too_long;
use resil_heads::{CommandError, made_output, too_long_output};
use resil_input::io::MAX_INPUT_LEN;
use resil_input::output::Output;
use resil_replay::{audit, replay};
use resil_simulate::command::{self, LoadView, MAX_LOAD_LEN, Untold};
use resil_view::{HistoryView, MAX_HISTORY_LEN, view_text};
use std::alloc::Global;

/// A command of one thread, or what the page needs of a head.
#[derive(Clone, Copy, Debug, PartialEq, Eq)]
pub(crate) enum Command {
    /// `replay`.
    Replay,
    /// `audit`.
    Audit,
    /// `judge`, `stats` or `timeline`.
    View(HistoryView),
    /// `simulate`.
    Simulate(LoadView),
    /// What the head of an input says.
    Head(HeadOf),
}

/// The command of a number.
pub(crate) fn command_of(number: u8) -> Option<Command>
    ensures { result ≡ command_of number }
{
    match number {
        0 => Some(Command::Replay),
        1 => Some(Command::Audit),
        2 => Some(Command::View(HistoryView::Judge)),
        3 => Some(Command::View(HistoryView::Stats)),
        4 => Some(Command::View(HistoryView::Timeline)),
        5 => Some(Command::Simulate(LoadView::Numbers)),
        6 => Some(Command::Simulate(LoadView::History)),
        7 => Some(Command::Head(HeadOf::History)),
        8 => Some(Command::Head(HeadOf::Load)),
        _ => None,
    }
}

/// The maximum length of an input of a command, in bytes: that of the program. A head is taken with an input as long as the command that reads
/// such heads takes.
pub(crate) fn limit_of(command: Command) -> usize
    ensures { result ≡ limit_of command }
{
    match command {
        Command::Replay | Command::Audit => MAX_INPUT_LEN,
        Command::View(_) | Command::Head(HeadOf::History) => MAX_HISTORY_LEN,
        Command::Simulate(_) | Command::Head(HeadOf::Load) => MAX_LOAD_LEN,
    }
}

// The text of a command for an input. Errors: as those of the command.
fn command_text(alloc: Global, command: Command, input: &[u8]) -> Result<Vec<u8>, CommandError>
    ensures { MatchResult result (λ text. IsCommandText command input.now text.items) (IsError (IsCommandRefusal command input.now)) }
{
    match command {
        Command::Replay => replay::text(alloc, input),
        Command::Audit => audit::text(alloc, input),
        Command::View(view) => view_text(alloc, view, input),
        Command::Simulate(shown) => command::text(alloc, shown, input, &mut Untold),
        Command::Head(whose) => head_text(alloc, whose, input),
    }
}

// The output of a command for an input. An input that is too long, or whose head is, is refused first.
#[tactic(auto, using(resil_heads::proofs::OutputLaws::error_answers, resil_heads::proofs::OutputLaws::too_long_answers))]
fn command_output(alloc: Global, command: Command, input: &[u8]) -> Output
    ensures { IsCommandOutput command input.now result }
{
    if is_too_long(limit_of(command), input) {
        return too_long_output(alloc);
    }
    made_output(alloc, command_text(alloc, command, input))
}

/// The output of a command, if there is one, for an input.
pub(crate) fn output_for(alloc: Global, command: Option<Command>, input: &[u8]) -> Output
    ensures { IsPageOutput command input.now result }
{
    match command {
        Some(command) => command_output(alloc, command, input),
        None => Output::Usage,
    }
}

/// Fills the front of a space with bytes, where they fit; else it is left as it was.
pub(crate) fn fill(bytes: &[u8], space: &mut [u8])
    ensures { IsFilled bytes.now space.old space.new }
{
    if bytes.len() <= space.len() {
        space[..bytes.len()].copy_from_slice(bytes);
    }
}

/// Hands an output over: its bytes to the front of a space, where they fit, how many they are, and the number of its status.
pub(crate) fn hand_over(output: &Output, space: &mut [u8], count: &mut usize) -> u8
    ensures { IsHandedOver output.now space.old space.new count.new result }
{
    let (status, bytes) = output.parts();
    *count = bytes.len();
    fill(bytes, space);
    status.code()
}
