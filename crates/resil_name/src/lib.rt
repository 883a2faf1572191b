//! Names: which strings may name a thing that callers look up.
//!
//! A name is short and has no space, quote, comma or newline, so it can be written into a list, a
//! table or a message as it is. Two names are equal only if their bytes are.
#![tactic(auto)]

ghost use Rattle.std.specs.Prelude.{◌≡◌, ◌↔◌, IsTrue};
ghost use Rattle.std.specs.List.{AllPass};
ghost use Rattle.resil_name.specs.Name.{is_name_byte, IsName};

/// The maximum length of a name, in bytes. The limit is this library's own.
pub const MAX_NAME_LEN: usize = 64;

/// Returns whether the string is a name: 1 to 64 bytes of ASCII letters, digits, `-`, `_` and `.`.
///
/// ```
/// assert!(rt; is_name("prices-2"));
/// assert!(rt; !is_name("two prices"));
/// ```
pub fn is_name(name: &str) -> bool
    ensures { IsTrue result ↔ IsName name.now }
{
    !name.is_empty() && name.len() <= MAX_NAME_LEN && has_name_bytes(name.as_bytes())
}

// Whether each byte may be in a name.
fn has_name_bytes(bytes: &[u8]) -> bool
    ensures { IsTrue result ↔ AllPass is_name_byte bytes.now }
{
    bytes.iter().all(|byte| is_name_byte(*byte))
}

// Whether the byte is an ASCII letter, a digit, `-`, `_` or `.`.
fn is_name_byte(byte: u8) -> bool
    ensures { result ≡ is_name_byte byte }
{
    byte.is_ascii_alphanumeric() || matches!(byte, b'-' | b'_' | b'.')
}
