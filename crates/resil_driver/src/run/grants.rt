//! Whether the bulkheads of a `run` may have given the answers in its results.
//!
//! A pool accepts any permitter that its workers bring, so its report doesn't say who granted a permit. The answers
//! are compared with the bulkheads once the report is there.

ghost use Rattle.std.specs.Prelude.{◌↔◌, All, IsTrue};
ghost use Rattle.resil_driver.specs.Run.Play.{AreWithin};

use resil_admission::Row;
use resil_bulkhead::Bulkhead;

/// Whether these bulkheads, by their ids, may have given all answers in these results: no job was granted more permits
/// of one at once than the bulkhead has.
pub(crate) fn may_have_answered(bulkheads: &[Bulkhead], results: &[Row]) -> bool
    ensures { IsTrue result ↔ AreWithin bulkheads.now results.now }
{
    results.iter().all(|row| row.run.fits(bulkheads))
}
