//! How long an input may be, and its head.
//!
//! Each program has limits for its inputs. A head is at most a mebibyte in all of them: its table can take a thousand times the memory of
//! its text, while the rows of a body take a few times the memory of theirs. Lengths are checked before TOML is read.

ghost use Rattle.std.specs.Prelude.{◌≡◌};
ghost use Rattle.resil_heads.specs.Length.{has_long_head, is_too_long};

use resil_input::framing::split_input;
use resil_input::io::MAX_INPUT_LEN;

/// Whether an input has more bytes than a limit, or has more than 1,048,576 and its separator line isn't within the first 1,048,576.
pub fn is_too_long(limit: usize, input: &[u8]) -> bool
    ensures { result ≡ is_too_long limit input.now }
{
    input.len() > limit || has_long_head(input)
}

// Whether an input is longer than a head may be, and the head with its separator line is.
fn has_long_head(input: &[u8]) -> bool
    ensures { result ≡ has_long_head input.now }
{
    if input.len() <= MAX_INPUT_LEN {
        return false;
    }
    match split_input(input) {
        Some((_, body)) => input.len().saturating_sub(body.len()) > MAX_INPUT_LEN,
        None => true,
    }
}
