//! The versions in which the text of a history is read: those that `audit` accepts, and the one with times.
//!
//! The header of each version is the first columns of the last version's. A body is opened once, and its header says the version.

ghost use Rattle.std.specs.Prelude.{◌≡◌, ◌≢◌, IfNone, IfSome, map};
ghost use Rattle.resil_input.specs.ReaderState.{header_of};
ghost use Rattle.resil_replay.specs.Layout.{layout_header};
ghost use Rattle.resil_replay.specs.declared.layout.Layout.{Layout};

use crate::history::Version;
use resil_input::csv_rows::OpenBody;

// The fields of the header of version 3.
pub(crate) const HEADER: &[&str] = &["event", "caller", "number", "reply", "core", "max", "at"];

/// A version in which a history is read.
#[derive(Clone, Copy)]
pub(crate) enum Layout {
    /// A version without times.
    Untimed(Version),
    /// Version 3, with times.
    Timed,
}

impl Layout {
    // The fields of its header.
    fn header(self) -> &'static [&'static str]
        ensures { map (λ name. name.now) result.now ≡ layout_header self }
    {
        match self {
            Layout::Untimed(Version::One) => &HEADER[..4],
            Layout::Untimed(Version::Two) => &HEADER[..6],
            Layout::Timed => HEADER,
        }
    }

    /// Returns the version that the header of a body says.
    pub(crate) fn of(opened: &OpenBody<'_>) -> Option<Layout>
        ensures some { IfSome result (λ layout. header_of opened.now ≡ layout_header layout) }
        ensures none { IfNone result ((layout : Layout) → header_of opened.now ≢ layout_header layout) }
    {
        let one = Layout::Untimed(Version::One);
        let two = Layout::Untimed(Version::Two);
        let three = Layout::Timed;
        if opened.has_header(one.header()) {
            Some(one)
        } else if opened.has_header(two.header()) {
            Some(two)
        } else if opened.has_header(three.header()) {
            Some(three)
        } else {
            None
        }
    }
}
