//! The head and the body of an input.
//!
//! The first line that is just `---` separates them. Lines are found by their bytes, before anything
//! is known of the head: a line ends with a newline, or with the input. The separator may have one
//! carriage return before its newline.

ghost use Rattle.std.specs.Prelude.{◌≡◌, option_map};
ghost use Rattle.resil_input.specs.Framing.{is_separator, parts_of};

/// The head and the body, before and after the first separator line, or `None` if no line is
/// one.
///
/// The head keeps its last newline. The separator is in neither part.
pub fn split_input(input: &[u8]) -> Option<(&[u8], &[u8])>
    ensures { option_map (λ p. (p.0.now, p.1.now)) result ≡ parts_of input.now }
{
    let mut start = 0;
    for line in input.split_inclusive(|byte| *byte == b'\n') {
        let end = start + line.len();
        if is_separator(line) {
            return Some((&input[..start], &input[end..]));
        }
        start = end;
    }
    None
}

// Whether a line is just `---`, apart from its line end.
fn is_separator(line: &[u8]) -> bool
    ensures { result ≡ is_separator line.now }
{
    line == b"---\n".as_slice() || line == b"---\r\n".as_slice() || line == b"---".as_slice()
}
