//! The text of a `run`: what its pool did, and how each accepted job ended.
//!
//! It is the text of the report's history, an empty line, and one table with a record for each result
//! in order of acceptance: the job's caller and number, then the fields of its run as in the text of
//! a `chain`. No record of a history is an empty line, so the first empty line separates the two.

ghost use Rattle.std.specs.Prelude.{◌≡◌, ◌++◌, IfOk, OnOk};
ghost use Rattle.resil_driver.specs.Run.Report.{ReportExample, report_text, result_fields};
ghost use Rattle.resil_input.specs.CsvTable.{HasColumns, record_text, text_so_far};

use itoa::Buffer;
use resil_admission::{Event, Row};
use resil_chain::run_fields::RunTexts;
use resil_input::csv_table::CsvTable;
use resil_replay::history::{Version, history_text};
use std::alloc::{AllocError, Global};

// Writes the record of a result. Errors: `AllocError` if out of memory.
fn push_result(table: &mut CsvTable, texts: &mut RunTexts, row: &Row) -> Result<(), AllocError>
    requires { HasColumns table.old 6 }
    ensures columns { OnOk result (HasColumns table.new 6) }
    ensures text { OnOk result (text_so_far table.new ≡ text_so_far table.old ++ record_text (result_fields row.now)) }
{
    let mut caller_digits = Buffer::new();
    let mut number_digits = Buffer::new();
    let caller = caller_digits.format(row.id.caller).as_bytes();
    let number = number_digits.format(row.id.number).as_bytes();
    texts.write(&row.run)?;
    let [outcome, calls, waits, asked] = texts.fields();
    table.push(&[caller, number, outcome, calls, waits, asked])
}

/// Returns the text of the report of a `run`: the text of the history, version 1, one empty line, the
/// header `caller,number,outcome,calls,waits,asked`, then a record for each result, in order of acceptance.
///
/// # Errors
///
/// `AllocError` if out of memory.
pub fn report_text(alloc: Global, history: &[Event], results: &[Row]) -> Result<Vec<u8>, AllocError>
    ensures { IfOk result (λ text. text.items ≡ report_text history.now results.now) }
{
    let mut text = history_text(alloc, Version::One, history)?;
    text.push(b'\n')?;
    let header: [&[u8]; 6] = [
        b"caller", b"number", b"outcome", b"calls", b"waits", b"asked",
    ];
    let mut table = CsvTable::new(text, &header)?;
    let mut texts = RunTexts::new(alloc);
    for row in results {
        push_result(&mut table, &mut texts, row)?;
    }
    table.into_text()
}

/// A fact about the text of a report, as it is defined: the text of an example.
pub fn report_text_of_example()
    ensures { ReportExample }
{}
