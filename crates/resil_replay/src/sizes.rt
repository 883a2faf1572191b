//! The sizes of a resize, as two fields of a row write them: the core size and the maximum size.
//!
//! Each number that fits its type is read, even 0: it is for the pool to refuse it.

ghost use Rattle.std.specs.Prelude.{◌≡◌};
ghost use Rattle.resil_replay.specs.Sizes.{parse_size, parse_sizes, SizesAreDecimal, SizesRoundTrip};

use resil_heads::forms::Form;
use resil_input::number::parse_from_zero;

/// What the field of a size may be.
pub(crate) const SIZE: Form = Form::Number(0, 4_294_967_295);

// Reads a size, from 0 to 4,294,967,295.
fn parse_size(field: &[u8]) -> Option<u32>
    ensures { result ≡ parse_size field.now }
{
    u32::try_from(parse_from_zero(field)?).ok()
}

/// Reads a core size and a maximum size from two fields, each from 0 to 4,294,967,295.
pub(crate) fn parse_sizes(core: &[u8], max: &[u8]) -> Option<(u32, u32)>
    ensures { result ≡ parse_sizes core.now max.now }
{
    let core = parse_size(core)?;
    let max = parse_size(max)?;
    Some((core, max))
}

/// The law of these sizes: a size is read from its decimal text, and from no other text.
pub fn sizes_round_trip()
    ensures written { SizesRoundTrip }
    ensures read { SizesAreDecimal }
{}
