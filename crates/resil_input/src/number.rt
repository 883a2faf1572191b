//! The numbers in the fields of a body: decimal, from 1 or from 0, with neither a plus sign nor
//! leading zeros.
//!
//! A number is read from exactly one text, the decimal one that the program itself writes. So what
//! the program wrote reads back as the same number.

ghost use Rattle.std.specs.Prelude.{◌≡◌, ◌^◌};
ghost use Rattle.resil_input.specs.Number.{parse_number, parse_caller, parse_from_zero, NumbersRoundTrip, NumbersAreDecimal};

use crate::fields::is_text;

/// Reads a number from 1 to 18,446,744,073,709,551,615, or `None` if a field isn't the decimal
/// text of one.
pub fn parse_number(field: &[u8]) -> Option<u64>
    ensures { result ≡ parse_number field.now }
{
    match field {
        [b'1'..=b'9', ..] => str::from_utf8(field).ok()?.parse().ok(),
        _ => None,
    }
}

/// Reads the number of a caller, from 1 to 65,535, or `None` if a field isn't the decimal text
/// of one.
pub fn parse_caller(field: &[u8]) -> Option<u16>
    ensures { result ≡ parse_caller field.now }
{
    u16::try_from(parse_number(field)?).ok()
}

/// Reads a number from 0 to 18,446,744,073,709,551,615, or `None` if a field isn't the decimal
/// text of one.
pub fn parse_from_zero(field: &[u8]) -> Option<u64>
    ensures { result ≡ parse_from_zero (2 ^ 64) field.now }
{
    if is_text(field, "0") {
        Some(0)
    } else {
        parse_number(field)
    }
}

/// The law of these numbers: a number is read from its decimal text, and from no other text.
pub fn numbers_round_trip()
    ensures written { NumbersRoundTrip }
    ensures read { NumbersAreDecimal }
{}
