//! The single-threaded commands, by their name.

ghost use Rattle.std.specs.Prelude.{MatchResult};
ghost use Rattle.resil_heads.specs.CommandError.{IsError};
ghost use Rattle.resil_driver.specs.Command.{IsRefusalOf, IsTextOf};

use resil_heads::CommandError;
use resil_replay::{audit, replay};
use resil_words::Single;
use std::alloc::Global;

/// Returns the text that a command writes for an input. It doesn't check whether the input is too long.
///
/// # Errors
///
/// `Refused` as the command refuses the input. `Memory` may come at any step.
pub(crate) fn command_text(
    alloc: Global,
    single: Single,
    input: &[u8],
) -> Result<Vec<u8>, CommandError>
    ensures { MatchResult result (λ text. IsTextOf single input.now text.items) (IsError (IsRefusalOf single input.now)) }
{
    match single {
        Single::Replay => replay::text(alloc, input),
        Single::Audit => audit::text(alloc, input),
        Single::Chain => resil_chain::text(alloc, input),
        Single::Weave => resil_weave::text(alloc, input),
    }
}
