//! The text of a history in version 4, which is read as that history.

ghost use Rattle.std.specs.Prelude.{◌≡◌, ◌++◌, IfOk, OnOk};
ghost use Rattle.std.specs.Fmt.{decimal};
ghost use Rattle.resil_input.specs.CsvTable.{HasColumns, IsPlain, record_text as line_text, text_so_far};
ghost use Rattle.resil_record.specs.Row.{reply_name, switch_name};
ghost use Rattle.resil_record.specs.Text.{RecordsRoundTrip, job_fields, lone_fields, record_text, row_fields, size_fields, switch_fields};

use itoa::Buffer;
use resil_input::csv_table::CsvTable;
use resil_jdk::{JdkEvent, JdkReply, TimedJdkEvent};
use resil_rule::Id;
use std::alloc::{AllocError, Global};

// The names of the columns.
const COLUMNS: [&[u8]; 8] = [
    b"event",
    b"caller",
    b"number",
    b"reply",
    b"core",
    b"max",
    b"time_out",
    b"at",
];

/// The name of a reply, as in a history.
pub fn reply_name(reply: JdkReply) -> &'static str
    ensures { result.now ≡ reply_name reply }
{
    match reply {
        JdkReply::Core => "core",
        JdkReply::First => "first",
        JdkReply::Queued => "queued",
        JdkReply::Handed => "handed",
        JdkReply::Extra => "extra",
        JdkReply::Full => "full",
        JdkReply::Closed => "closed",
    }
}

// The name of a time-out that is on or off.
fn switch_name(on: bool) -> &'static str
    ensures { result.now ≡ switch_name on }
{
    if on { "on" } else { "off" }
}

// Writes the record of an event that names a job. Errors: `AllocError` when out of memory.
#[tactic(auto, using(resil_input::proofs::PlainLaws::IsPlain_number))]
fn push_job(
    table: &mut CsvTable,
    name: &'static [u8],
    id: Id,
    reply: &'static [u8],
    at: u64,
) -> Result<(), AllocError>
    requires columns { HasColumns table.old 8 }
    requires name { IsPlain name.now }
    requires reply { IsPlain reply.now }
    ensures columns { OnOk result (HasColumns table.new 8) }
    ensures text { OnOk result (text_so_far table.new ≡ text_so_far table.old ++ line_text (job_fields name.now id reply.now (decimal at))) }
{
    let mut one = Buffer::new();
    let mut other = Buffer::new();
    let mut time = Buffer::new();
    let caller = one.format(id.caller).as_bytes();
    let number = other.format(id.number).as_bytes();
    let at = time.format(at).as_bytes();
    table.push(&[name, caller, number, reply, b"", b"", b"", at])
}

// Writes the record of an event that has only its name. Errors: `AllocError` when out of memory.
#[tactic(auto, using(resil_input::proofs::PlainLaws::IsPlain_number))]
fn push_lone(table: &mut CsvTable, name: &'static [u8], at: u64) -> Result<(), AllocError>
    requires columns { HasColumns table.old 8 }
    requires name { IsPlain name.now }
    ensures columns { OnOk result (HasColumns table.new 8) }
    ensures text { OnOk result (text_so_far table.new ≡ text_so_far table.old ++ line_text (lone_fields name.now (decimal at))) }
{
    let mut time = Buffer::new();
    let at = time.format(at).as_bytes();
    table.push(&[name, b"", b"", b"", b"", b"", b"", at])
}

// Writes the record of a resize. Errors: `AllocError` when out of memory.
#[tactic(auto, using(resil_input::proofs::PlainLaws::IsPlain_number))]
fn push_sizes(table: &mut CsvTable, core: u32, max: u32, at: u64) -> Result<(), AllocError>
    requires { HasColumns table.old 8 }
    ensures columns { OnOk result (HasColumns table.new 8) }
    ensures text { OnOk result (text_so_far table.new ≡ text_so_far table.old ++ line_text (size_fields core max (decimal at))) }
{
    let mut one = Buffer::new();
    let mut other = Buffer::new();
    let mut time = Buffer::new();
    let core = one.format(core).as_bytes();
    let max = other.format(max).as_bytes();
    let at = time.format(at).as_bytes();
    table.push(&[b"resize", b"", b"", b"", core, max, b"", at])
}

// Writes the record of a time-out that is set. Errors: `AllocError` when out of memory.
#[tactic(auto, using(resil_input::proofs::PlainLaws::IsPlain_number, crate::proofs::TextLaws::IsPlain_switch_name))]
fn push_switch(table: &mut CsvTable, on: bool, at: u64) -> Result<(), AllocError>
    requires { HasColumns table.old 8 }
    ensures columns { OnOk result (HasColumns table.new 8) }
    ensures text { OnOk result (text_so_far table.new ≡ text_so_far table.old ++ line_text (switch_fields on (decimal at))) }
{
    let mut time = Buffer::new();
    let on = switch_name(on).as_bytes();
    let at = time.format(at).as_bytes();
    table.push(&[b"time_out", b"", b"", b"", b"", b"", on, at])
}

// Writes the record of an event and its time. Errors: `AllocError` when out of memory.
#[tactic(auto, using(crate::proofs::TextLaws::IsPlain_reply_name))]
fn push_row(table: &mut CsvTable, timed: TimedJdkEvent) -> Result<(), AllocError>
    requires { HasColumns table.old 8 }
    ensures columns { OnOk result (HasColumns table.new 8) }
    ensures text { OnOk result (text_so_far table.new ≡ text_so_far table.old ++ line_text (row_fields timed)) }
{
    let at = timed.at;
    match timed.event {
        JdkEvent::Submit { id, reply } => {
            push_job(table, b"submit", id, reply_name(reply).as_bytes(), at)
        }
        JdkEvent::Take(id) => push_job(table, b"take", id, b"", at),
        JdkEvent::Finish(id) => push_job(table, b"finish", id, b"", at),
        JdkEvent::Remove(id) => push_job(table, b"remove", id, b"", at),
        JdkEvent::Resized { core, max } => push_sizes(table, core, max, at),
        JdkEvent::TimeOut(on) => push_switch(table, on, at),
        JdkEvent::IdleEnd => push_lone(table, b"idle", at),
        JdkEvent::Close => push_lone(table, b"close", at),
        JdkEvent::Start => push_lone(table, b"start", at),
        JdkEvent::Cull => push_lone(table, b"cull", at),
        JdkEvent::Stop => push_lone(table, b"stop", at),
    }
}

/// The text of a history in version 4: the header `event,caller,number,reply,core,max,time_out,at`, then a record for each event, in
/// order.
///
/// # Errors
///
/// `AllocError` when out of memory.
pub fn record_text(alloc: Global, history: &[TimedJdkEvent]) -> Result<Vec<u8>, AllocError>
    ensures { IfOk result (λ text. text.items ≡ record_text history.now) }
{
    let mut table = CsvTable::new(Vec::new(alloc), &COLUMNS)?;
    for timed in history {
        push_row(&mut table, *timed)?;
    }
    table.into_text()
}

/// The law of these texts: the text of a history, whose ids are from 1, is read as that history with those times, and as no other.
pub fn record_reads_back()
    ensures { RecordsRoundTrip }
{}
