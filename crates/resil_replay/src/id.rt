//! The id of a job, as two fields of a row write it: its caller, and the number of its submission.
//!
//! Both count from 1 and fit their types, so an id that is read here can be the id of a submission.

ghost use Rattle.std.specs.Prelude.{◌≡◌};
ghost use Rattle.resil_replay.specs.Id.{parse_id};

use resil_heads::forms::Form;
use resil_input::number::{parse_caller, parse_number};
use resil_rule::Id;

/// What the field of a caller may be.
pub(crate) const CALLER: Form = Form::Number(1, 65_535);

/// What the field of a number may be.
pub(crate) const NUMBER: Form = Form::Number(1, 18_446_744_073_709_551_615);

/// Reads an id from two fields: a caller from 1 to 65,535, and a number from 1 to
/// 18,446,744,073,709,551,615.
pub(crate) fn parse_id(caller: &[u8], number: &[u8]) -> Option<Id>
    ensures { result ≡ parse_id caller.now number.now }
{
    let caller = parse_caller(caller)?;
    let number = parse_number(number)?;
    Some(Id { caller, number })
}
