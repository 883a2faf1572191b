//! What a page calls. Each answer is put at the front of the caller's space, if it fits there. Otherwise the space is as it was, and the
//! caller may call again with a larger one.

ghost use Rattle.std.specs.Prelude.{◌≡◌, List, ℕ, length};
ghost use Rattle.resil_page.specs.Page.{IsFilled, IsHandedOver, IsPageOutput, command_of};
ghost use Rattle.resil_input.specs.declared.output.Output.{Output};

use crate::output::{command_of, fill, hand_over, output_for};
use crate::said::said_of;
use std::alloc::Global;

/// Hands over the output of a command for an input: 0 is `replay`, 1 `audit`, 2 `judge`, 3 `stats`, 4 `timeline`, 5 `simulate` and
/// 6 `simulate --history`; 7 and 8 give what the head of a history says, and that of a load; another number is answered as wrong words.
/// `count` is set to the number of its bytes, and the answer is the number of its status.
#[unsafe(no_mangle)]
pub extern "C" fn resil_page_answer(
    alloc: Global,
    command: u8,
    input: &[u8],
    space: &mut [u8],
    count: &mut usize,
) -> u8
    ensures { (out : Output) × IsPageOutput (command_of command) input.now out × IsHandedOver out space.old space.new count.new result }
{
    let output = output_for(alloc, command_of(command), input);
    hand_over(&output, space, count)
}

/// Hands over what the program says on standard error of an answer for an input, by its status and its first line. The answer is the
/// number of its bytes.
#[unsafe(no_mangle)]
pub extern "C" fn resil_page_said(
    alloc: Global,
    command: u8,
    code: u8,
    line: &[u8],
    input: &[u8],
    space: &mut [u8],
) -> usize
    ensures { (said : List ℕ) × IsFilled said space.old space.new × (result ≡ length said) }
{
    let said = said_of(alloc, command_of(command), code, line, input);
    fill(said.as_bytes(), space);
    said.len()
}
