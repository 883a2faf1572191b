//! Runs the jobs of a `chain`, one for each row, and writes the run of each: one table, with a
//! record for each run in order.
//! Each row is a job of its own, and the answers of its bulkheads are the row's grants alone:
//! nothing is kept from one row for the next. So the run of a row doesn't depend on the other rows.

ghost use Rattle.std.specs.Prelude.{◌++◌, ◌∷◌, [], List, IfOk, OnOk};
ghost use Rattle.resil_input.specs.CsvTable.{HasColumns, text_so_far};
ghost use Rattle.resil_chain.specs.Rows.{ChainRowView};
ghost use Rattle.resil_chain.specs.Runs.{IsRunOf, IsTextOfRuns};

use crate::rows::ChainRow;
use crate::run_fields::RunTexts;
use resil_decor::{Chain, Job, Listed, Plan, Run};
use resil_input::csv_table::CsvTable;
use std::alloc::{AllocError, Global};

/// Runs the job of a row through the layers.
///
/// # Errors
///
/// `AllocError` if out of memory.
pub fn run_row(alloc: Global, chain: &Chain, row: ChainRow) -> Result<Run, AllocError>
    ensures { IfOk result (λ run. IsRunOf chain.now row run) }
{
    let ChainRow { script, grants } = row;
    let Ok(layers) = chain.copy(alloc) else {
        return Err(AllocError);
    };
    let Ok(job) = Job::new(alloc, Plan::new(layers, script)) else {
        return Err(AllocError);
    };
    let Ok(mut listed) = Listed::new(alloc, grants) else {
        return Err(AllocError);
    };
    Ok(job.run(&mut listed))
}

/// Runs the job of each row through the layers, in order, and returns the text of the runs. All jobs
/// share one copy of the layers, and a run is dropped once its record is written.
///
/// # Errors
///
/// `AllocError` if out of memory.
pub fn run_chain(alloc: Global, chain: &Chain, rows: Vec<ChainRow>) -> Result<Vec<u8>, AllocError>
    ensures { IfOk result (λ text. IsTextOfRuns chain.now rows.items text.items) }
{
    let Ok(shared) = chain.copy(alloc) else {
        return Err(AllocError);
    };
    let header: [&[u8]; 4] = [b"outcome", b"calls", b"waits", b"asked"];
    let mut table = CsvTable::new(Vec::new(alloc), &header)?;
    let mut texts = RunTexts::new(alloc);
    for row in rows {
        push_row(alloc, &mut table, &mut texts, &shared, row)?;
    }
    table.into_text()
}

// Runs the job of one more row, and writes its run. Errors: `AllocError` if out of memory.
fn push_row(
    alloc: Global,
    table: &mut CsvTable,
    texts: &mut RunTexts,
    chain: &Chain,
    row: ChainRow,
) -> Result<(), AllocError>
    requires { HasColumns table.old 4 }
    ensures columns { OnOk result (HasColumns table.new 4) }
    ensures text { OnOk result ((rows : List ChainRowView) → IsTextOfRuns chain.now rows (text_so_far table.old) → IsTextOfRuns chain.now (rows ++ row ∷ []) (text_so_far table.new)) }
{
    let run = run_row(alloc, chain, row)?;
    texts.write(&run)?;
    table.push(&texts.fields())
}
