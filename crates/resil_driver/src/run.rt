//! `run`: runs jobs on a pool of threads, and writes its history and its results.
//!
//! The steps are those of each command: split, head, rows, run, text. `head` and `rows` are what is
//! read, and `report` is the text, which begins as that of `replay`. Only running the jobs may find
//! that a thread can't be started: `play` opens a pool for them, with the bulkheads that `bulkheads`
//! makes, and a `runner` runs them; `grants` compares the answers in a report with the bulkheads.

ghost use Rattle.std.specs.Prelude.{◌≡◌, ◌≤◌, ℕ, Err, List, MatchResult};
ghost use Rattle.resil_rule.specs.Limits.{AreLimits};
ghost use Rattle.resil_driver.specs.Run.Head.{run_head_of};
ghost use Rattle.resil_heads.specs.CommandError.{IsRunError};
ghost use Rattle.resil_heads.specs.Parts.{SplitsInto};
ghost use Rattle.resil_driver.specs.Run.{HasRun, IsErrorFor, IsRunRefusal, IsRunText};

mod bulkheads;
mod grants;
pub mod head;
mod play;
pub mod report;
pub mod rows;
mod runner;
pub mod subject;
mod worked_heads;

use crate::run::head::read_head;
use crate::run::play::{RunRequest, play_run};
use crate::run::report::report_text;
use crate::run::rows::read_rows;
pub use crate::run::runner::{JobRunner, RunBatch, RunSettings, ThreadRunner};
pub use crate::run::worked_heads::worked_run_heads;
use resil_heads::{CommandError, InputRefusal};
use resil_input::framing::split_input;
use resil_words::RunOptions;
use resil_workers::RunError;
use std::alloc::Global;
use std::sync::Wait;
use std::thread::Threads;

// The words take as many callers as a pool does.
const _: () = prove!(resil_words::MAX_CALLERS == resil_workers::MAX_CALLERS);

/// Returns the text of the report of the jobs of an input, which this runner runs. It may wait.
///
/// # Errors
///
/// In this order: `Refused` as `NoBody`; as `Head`; as `BadHeader` or `BadRow`; then `NoThread` if
/// a thread can't be started, or `Refused` as `Run`. `Memory` may come at any step.
pub fn text<J: JobRunner, R: Threads + Wait + Sync>(
    runner: &J,
    rt: &R,
    alloc: Global,
    words: RunOptions,
    input: &[u8],
) -> Result<Vec<u8>, CommandError>
    requires { words.callers ≤ 64 }
    ensures { MatchResult result (λ text. IsRunText J.MayAnswer words input.now text.items) (IsRunError (HasRun J.MayAnswer words input.now (Err RunError.NoThread)) (IsRunRefusal J.MayAnswer words input.now)) }
{
    let (head, body) = split_input(input).ok_or(InputRefusal::NoBody)?;
    let head = read_head(alloc, head)?;
    text_for(runner, rt, alloc, RunRequest { head: &head, words }, body)
}

// The text of the report of the jobs of a body, for the input that it is the body of. Errors: as
// for `text`, except those of the head.
fn text_for<J: JobRunner, R: Threads + Wait + Sync>(
    runner: &J,
    rt: &R,
    alloc: Global,
    request: RunRequest<'_>,
    body: &[u8],
) -> Result<Vec<u8>, CommandError>
    requires limits { AreLimits request.head.now.limits }
    requires callers { request.words.callers ≤ 64 }
    ensures { (input : List ℕ) → SplitsInto run_head_of input request.entry.head.now body.now
        → MatchResult result (λ text. IsRunText J.MayAnswer request.entry.words input text.items) (IsErrorFor J.MayAnswer request.entry.words input) }
{
    let jobs = read_rows(alloc, request.words.callers, body)?;
    let report = play_run(runner, rt, alloc, request, jobs)?;
    Ok(report_text(alloc, &report.history, &report.results)?)
}
