//! The text of a history: a header, then one record for each event.
//!
//! It has two versions. Version 2 has two more columns, one for each of the two sizes, and has resizes; version 1 is its
//! first four columns. No two events that a version can write have the same record, so no two histories of such events
//! have the same text, and a text that was written can be read back.

ghost use Rattle.std.specs.Prelude.{◌≡◌, ◌≤◌, ◌++◌, ◌∷◌, [], codes, length, map, take, IfOk, OnOk, decimal};
ghost use Rattle.resil_input.specs.CsvTable.{ArePlain, HasColumns, record_text, text_so_far};
ghost use Rattle.resil_replay.specs.History.{HistoryTextInjective, columns_of, event_fields, example_history, history_text, record_fields, resized_history};

use itoa::Buffer;
use resil_admission::Event;
use resil_input::answer::reply_name;
use resil_input::csv_table::CsvTable;
use std::alloc::{AllocError, Global};

/// The versions of the text of a history.
#[derive(Clone, Copy)]
pub enum Version {
    /// Four columns: an event, its job and its reply.
    One,
    /// Six columns: those of version 1, then the two sizes of a resize.
    Two,
}

impl Version {
    // The number of its columns.
    fn columns(self) -> usize
        ensures { result ≡ columns_of self }
    {
        match self {
            Version::One => 4,
            Version::Two => 6,
        }
    }
}

/// The names of all columns: those of the sizes are the fifth and the sixth, that of the times is the last.
pub(crate) const COLUMNS: [&[u8]; 7] = [
    b"event", b"caller", b"number", b"reply", b"core", b"max", b"at",
];

// Writes a record of the first fields, as many as there are columns. Errors: `AllocError` if out of memory.
fn push_fields(table: &mut CsvTable, columns: usize, fields: &[&[u8]]) -> Result<(), AllocError>
    requires columns { HasColumns table.old columns }
    requires few { columns ≤ length fields.now }
    requires plain { ArePlain (map (λ f. f.now) fields.now) }
    ensures columns { OnOk result (HasColumns table.new columns) }
    ensures text { OnOk result (text_so_far table.new ≡ text_so_far table.old ++ record_text (take columns (map (λ f. f.now) fields.now))) }
{
    table.push(&fields[..columns])
}

/// Writes the record of an event and its time, in the first of the seven columns. Errors: `AllocError` if out of memory.
#[tactic(auto, using(resil_input::proofs::PlainLaws::IsPlain_number, crate::proofs::HistoryLaws::IsPlain_reply_name))]
pub(crate) fn push_row(
    table: &mut CsvTable,
    columns: usize,
    event: Event,
    at: u64,
) -> Result<(), AllocError>
    requires columns { HasColumns table.old columns }
    requires few { columns ≤ 7 }
    ensures columns { OnOk result (HasColumns table.new columns) }
    ensures text { OnOk result (text_so_far table.new ≡ text_so_far table.old ++ record_text (take columns (event_fields event ++ decimal at ∷ []))) }
{
    let mut one = Buffer::new();
    let mut other = Buffer::new();
    let mut time = Buffer::new();
    let at = time.format(at).as_bytes();
    match event {
        Event::Submit { id, reply } => {
            let caller = one.format(id.caller).as_bytes();
            let number = other.format(id.number).as_bytes();
            let reply = reply_name(reply).as_bytes();
            push_fields(
                table,
                columns,
                &[b"submit", caller, number, reply, b"", b"", at],
            )
        }
        Event::Take(id) => {
            let caller = one.format(id.caller).as_bytes();
            let number = other.format(id.number).as_bytes();
            push_fields(
                table,
                columns,
                &[b"take", caller, number, b"", b"", b"", at],
            )
        }
        Event::Finish(id) => {
            let caller = one.format(id.caller).as_bytes();
            let number = other.format(id.number).as_bytes();
            push_fields(
                table,
                columns,
                &[b"finish", caller, number, b"", b"", b"", at],
            )
        }
        Event::IdleEnd => push_fields(table, columns, &[b"idle", b"", b"", b"", b"", b"", at]),
        Event::Close => push_fields(table, columns, &[b"close", b"", b"", b"", b"", b"", at]),
        Event::Resized { core, max } => {
            let core = one.format(core).as_bytes();
            let max = other.format(max).as_bytes();
            push_fields(table, columns, &[b"resize", b"", b"", b"", core, max, at])
        }
    }
}

// Writes the record of an event in a version without times. Errors: `AllocError` if out of memory.
#[tactic(auto, using(crate::proofs::HistoryLaws::first_fields))]
fn push_event(table: &mut CsvTable, version: Version, event: Event) -> Result<(), AllocError>
    requires { HasColumns table.old (columns_of version) }
    ensures columns { OnOk result (HasColumns table.new (columns_of version)) }
    ensures text { OnOk result (text_so_far table.new ≡ text_so_far table.old ++ record_text (record_fields version event)) }
{
    push_row(table, version.columns(), event, 0)
}

/// Returns the text of a history in a version: the header `event,caller,number,reply`, and in version 2 also `,core,max`, then
/// a record for each event, in order. Version 1 has no columns for the sizes of a resize: it is for histories without one.
///
/// # Errors
///
/// `AllocError` if out of memory.
pub fn history_text(
    alloc: Global,
    version: Version,
    history: &[Event],
) -> Result<Vec<u8>, AllocError>
    ensures { IfOk result (λ text. text.items ≡ history_text version history.now) }
{
    let mut table = CsvTable::new(Vec::new(alloc), &COLUMNS[..version.columns()])?;
    for event in history {
        push_event(&mut table, version, *event)?;
    }
    table.into_text()
}

/// Facts about the texts of histories, as they are defined: no two histories have the same text of a
/// version, and the texts of two examples.
pub fn history_text_injective()
    ensures tells { HistoryTextInjective }
    ensures example { history_text Version.One example_history ≡ codes "event,caller,number,reply\nsubmit,1,1,core\nsubmit,1,2,queued\nsubmit,1,3,extra\nsubmit,1,4,full\n" }
    ensures resized { history_text Version.Two resized_history ≡ codes "event,caller,number,reply,core,max\nsubmit,1,1,core,,\nresize,,,,2,2\nsubmit,1,2,core,,\nresize,,,,1,1\nsubmit,1,3,queued,,\nsubmit,1,4,full,,\n" }
{}
