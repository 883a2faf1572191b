//! The texts of signed integers, of kinds of error and of outcomes.
//!
//! Each value has exactly one text, the one that the program itself writes, and is read from that
//! text alone: no leading zeros, no plus sign, and a minus only before a value below 0. So what the
//! program wrote reads back as the same value. Reading takes no memory.

ghost use Rattle.std.specs.Prelude.{String, ◌≡◌, ◌<◌, ◌++◌, IfOk, OnOk};
ghost use Rattle.std.specs.Fmt.{signed_decimal};
ghost use Rattle.std.specs.String.{string_bytes};
ghost use Rattle.resil_input.specs.OutcomeText.{RoundTrips, FitsValue, FitsKind, FitsOutcome, negative, parse_kind, kind_text, parse_outcome, outcome_text, parse_signed};

use crate::number::parse_number;
use itoa::Buffer;
use resil_retry::{Kind, Outcome};
use std::alloc::{AllocError, Global};

// The integer below 0 of this size, or `None` if it is below -9,223,372,036,854,775,808.
fn negative(size: u64) -> Option<i64>
    requires { 0 < size }
    ensures { result ≡ negative size }
{
    let less_by_one = i64::try_from(size - 1).ok()?;
    Some(-1 - less_by_one)
}

/// Reads an integer from -9,223,372,036,854,775,808 to 9,223,372,036,854,775,807, or `None` if a
/// text isn't the decimal text of one.
pub fn parse_signed(text: &[u8]) -> Option<i64>
    ensures { result ≡ parse_signed text.now }
{
    if text == b"0".as_slice() {
        return Some(0);
    }
    match text {
        [b'-', digits @ ..] => negative(parse_number(digits)?),
        _ => i64::try_from(parse_number(text)?).ok(),
    }
}

/// Reads a kind of error: `E` and a code from 0 to 65,535, `FULL` or `EXCEEDED`. `None` for any
/// other text.
pub fn parse_kind(text: &[u8]) -> Option<Kind>
    ensures { result ≡ parse_kind text.now }
{
    if text == b"FULL".as_slice() {
        return Some(Kind::Full);
    }
    if text == b"EXCEEDED".as_slice() {
        return Some(Kind::Exceeded);
    }
    match text {
        [b'E', digits @ ..] => u16::try_from(parse_signed(digits)?).ok().map(Kind::Code),
        _ => None,
    }
}

/// Reads an outcome: `V` and a signed integer, or a kind of error. `None` for any other text.
pub fn parse_outcome(text: &[u8]) -> Option<Outcome>
    ensures { result ≡ parse_outcome text.now }
{
    match text {
        [b'V', digits @ ..] => parse_signed(digits).map(Outcome::Value),
        _ => parse_kind(text).map(Outcome::Error),
    }
}

/// Adds the text of an outcome: `V` and the value, or the text of the kind of error.
///
/// # Errors
///
/// `AllocError` when out of memory.
pub fn push_outcome(text: &mut String, outcome: Outcome) -> Result<(), AllocError>
    ensures { OnOk result (string_bytes text.new ≡ string_bytes text.old ++ outcome_text outcome) }
{
    match outcome {
        Outcome::Value(value) => {
            let mut digits = Buffer::new();
            text.push('V')?;
            text.push_str(digits.format(value))
        }
        Outcome::Error(Kind::Code(code)) => {
            let mut digits = Buffer::new();
            text.push('E')?;
            text.push_str(digits.format(code))
        }
        Outcome::Error(Kind::Full) => text.push_str("FULL"),
        Outcome::Error(Kind::Exceeded) => text.push_str("EXCEEDED"),
    }
}

/// The text of an outcome: `V` and the value, or the text of the kind of error.
///
/// # Errors
///
/// `AllocError` when out of memory.
pub fn outcome_text(alloc: Global, outcome: Outcome) -> Result<String, AllocError>
    ensures { IfOk result (λ text. string_bytes text ≡ outcome_text outcome) }
{
    let mut text = String::new(alloc);
    push_outcome(&mut text, outcome)?;
    Ok(text)
}

/// The law of these texts: a value is read from its own text, and from no other text.
pub fn outcomes_round_trip()
    ensures integers { RoundTrips parse_signed FitsValue signed_decimal }
    ensures kinds { RoundTrips parse_kind FitsKind kind_text }
    ensures outcomes { RoundTrips parse_outcome FitsOutcome outcome_text }
{}
