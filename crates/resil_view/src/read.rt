//! What all views read after the history of an input: the results of a run, and the order of the times.

ghost use Rattle.std.specs.Prelude.{◌≡◌, MatchResult, option_map};
ghost use Rattle.resil_heads.specs.CommandError.{IsError};
ghost use Rattle.resil_stats.specs.Results.{history_part, results_of};
ghost use Rattle.resil_view.specs.Read.{AreInOrder, AreRead, IsOrderRefusal, IsResultsRefusal};

use resil_heads::{CommandError, InputRefusal, LoadRefusal};
use resil_input::csv_rows::BodyError;
use resil_rule::first_back;
use resil_stats::results::{JobResult, read_results, split_results};
use std::alloc::Global;

/// The history and the results of a body: all of it is the history if it has no results.
pub(crate) fn split_body(body: &[u8]) -> (&[u8], Option<&[u8]>)
    ensures history { result.0.now ≡ history_part body.now }
    ensures results { option_map (λ results. results.now) result.1 ≡ option_map (λ parts. parts.1) (results_of body.now) }
{
    match split_results(body) {
        Some((history, results)) => (history, Some(results)),
        None => (body, None),
    }
}

/// The results of a text if there is one, else none. Errors: `Memory`; `Refused` as `BadResult`.
pub(crate) fn known_results(
    alloc: Global,
    results: Option<&[u8]>,
) -> Result<Vec<JobResult>, CommandError>
    ensures { MatchResult result (λ _. AreRead (option_map (λ text. text.now) results.entry)) (IsError (IsResultsRefusal (option_map (λ text. text.now) results.entry))) }
{
    let Some(text) = results else {
        return Ok(Vec::new(alloc));
    };
    match read_results(alloc, text) {
        Ok(rows) => Ok(rows),
        Err(BodyError::Memory) => Err(CommandError::Memory),
        Err(_) => Err(CommandError::Refused(InputRefusal::BadResult)),
    }
}

/// Checks the times of a history, if it has some. Errors: `Refused` as `TimeGoesBack`, for the first event whose time is lower than
/// that of the one before it.
pub(crate) fn check_order(times: &Option<Vec<u64>>) -> Result<(), CommandError>
    ensures { MatchResult result (λ _. AreInOrder (option_map (λ times. times.items) times.now)) (IsError (IsOrderRefusal (option_map (λ times. times.items) times.now))) }
{
    let Some(times) = times else {
        return Ok(());
    };
    match first_back(times) {
        None => Ok(()),
        Some(position) => {
            let why = LoadRefusal::TimeGoesBack;
            Err(CommandError::Refused(InputRefusal::Load(position, why)))
        }
    }
}
