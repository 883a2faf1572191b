//! `judge`, `stats` and `timeline`: the text of a view of the history that an input has.
//!
//! All three read any history of a pool of the JDK. Its head may be that of a `run`, and the results of a run may follow it. The
//! results are read after the history, and one that can't be read is refused; then a time that goes back is. Each view has a module
//! of its own.

ghost use Rattle.std.specs.Prelude.{MatchResult};
ghost use Rattle.resil_heads.specs.CommandError.{IsError};
ghost use Rattle.resil_view.specs.Command.{IsViewRefusal, IsViewText};

use crate::drawn::drawn_text;
use crate::judge::judge_text;
use crate::numbers::numbers_text;
use resil_heads::CommandError;
use std::alloc::Global;

/// The maximum length of an input with a history, in bytes: 16 mebibytes.
pub const MAX_HISTORY_LEN: usize = 16_777_216;

/// What the arguments ask for.
#[derive(Clone, Copy, Debug, PartialEq, Eq)]
pub enum HistoryView {
    /// `judge`: say whether a history is legal.
    Judge,
    /// `stats`: count the events of a history, and write its numbers.
    Stats,
    /// `timeline`: draw a history.
    Timeline,
}

/// The text of a view of the history that an input has.
///
/// # Errors
///
/// In this order: `Refused` as `NoBody`; as `Head`; as `BadHeader` or `BadRow`, as `audit` refuses a history without times; as
/// `BadResult` if a result can't be read; as `Load` for `TimeGoesBack`; of `stats` as `Head` for `BadValue` if by the head more
/// events restate a state than there are. `Memory` may come at any step.
pub fn view_text(alloc: Global, view: HistoryView, input: &[u8]) -> Result<Vec<u8>, CommandError>
    ensures { MatchResult result (λ text. IsViewText view input.now text.items) (IsError (IsViewRefusal view input.now)) }
{
    match view {
        HistoryView::Judge => judge_text(alloc, input),
        HistoryView::Stats => numbers_text(alloc, input),
        HistoryView::Timeline => drawn_text(alloc, input),
    }
}
