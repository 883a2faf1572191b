//! The text of a `weave`: what each step showed, and the permit word after the last step.
//!
//! It is one table. Each step has its record again, as it was read, with what it showed in the last
//! field. The last record is that of the word, with the number of free permits in that field.

ghost use Rattle.std.specs.Prelude.{◌≡◌, ◌++◌, IfOk, OnOk};
ghost use Rattle.resil_input.specs.CsvTable.{HasColumns, IsPlain, record_text, text_so_far};
ghost use Rattle.resil_weave.specs.Woven.{EachStepHasRecord, caller_fields, shown_name, step_fields, word_fields, woven_text};

use itoa::Buffer;
use resil_input::csv_table::CsvTable;
use resil_permit::{Shown, Step, Woven};
use std::alloc::{AllocError, Global};

// The name of what a step showed.
fn shown_name(shown: Shown) -> &'static [u8]
    ensures { result.now ≡ shown_name shown }
{
    match shown {
        Shown::Loaded => b"loaded",
        Shown::Refused => b"refused",
        Shown::Took => b"took",
        Shown::Lost => b"lost",
        Shown::Gave => b"gave",
        Shown::Retired => b"retired",
        Shown::Raised => b"raised",
    }
}

// Writes the record of a step of this name. Errors: `AllocError` if out of memory.
#[tactic(auto, using(resil_input::proofs::PlainLaws::IsPlain_number))]
fn push_named(
    table: &mut CsvTable,
    name: &[u8],
    caller: u16,
    shown: &[u8],
) -> Result<(), AllocError>
    requires columns { HasColumns table.old 3 }
    requires plain_name { IsPlain name.now }
    requires plain_shown { IsPlain shown.now }
    ensures columns { OnOk result (HasColumns table.new 3) }
    ensures text { OnOk result (text_so_far table.new ≡ text_so_far table.old ++ record_text (caller_fields name.now caller shown.now)) }
{
    let mut digits = Buffer::new();
    table.push(&[name, digits.format(caller).as_bytes(), shown])
}

// Writes the record of a step and of what it showed. Errors: `AllocError` if out of memory.
fn push_step(table: &mut CsvTable, step: Step, shown: Shown) -> Result<(), AllocError>
    requires { HasColumns table.old 3 }
    ensures columns { OnOk result (HasColumns table.new 3) }
    ensures text { OnOk result (text_so_far table.new ≡ text_so_far table.old ++ record_text (step_fields step shown)) }
{
    match step {
        Step::Load(caller) => push_named(table, b"load", caller, shown_name(shown)),
        Step::Exchange(caller) => push_named(table, b"exchange", caller, shown_name(shown)),
        Step::Add(caller) => push_named(table, b"add", caller, shown_name(shown)),
        Step::Retire(caller) => push_named(table, b"retire", caller, shown_name(shown)),
        Step::Raise(caller) => push_named(table, b"raise", caller, shown_name(shown)),
    }
}

// Writes the record of the word. Errors: `AllocError` if out of memory.
#[tactic(auto, using(resil_input::proofs::PlainLaws::IsPlain_number))]
fn push_word(table: &mut CsvTable, word: u32) -> Result<(), AllocError>
    requires { HasColumns table.old 3 }
    ensures { OnOk result (text_so_far table.new ≡ text_so_far table.old ++ record_text (word_fields word)) }
{
    let mut digits = Buffer::new();
    table.push(&[b"word", b"", digits.format(word).as_bytes()])
}

/// Returns the text of woven steps: the header `step,caller,shown`, then for each step, in order, its
/// own record with what it showed (`loaded`, `refused`, `took`, `lost`, `gave`, `retired` or `raised`),
/// and at the end the record `word,,` with the number of free permits.
///
/// # Errors
///
/// `AllocError` if out of memory.
pub fn woven_text(alloc: Global, steps: &[Step], woven: &Woven) -> Result<Vec<u8>, AllocError>
    ensures { IfOk result (λ text. text.items ≡ woven_text steps.now woven.now.shown.items woven.now.word) }
{
    let header: [&[u8]; 3] = [b"step", b"caller", b"shown"];
    let mut table = CsvTable::new(Vec::new(alloc), &header)?;
    for (step, shown) in steps.iter().zip(woven.shown.iter()) {
        push_step(&mut table, *step, *shown)?;
    }
    push_word(&mut table, woven.word)?;
    table.into_text()
}

/// The law of these texts: if all steps were made, each of them has a record.
pub fn each_step_has_record()
    ensures { EachStepHasRecord }
{}
