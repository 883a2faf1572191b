//! The program over any reader and writer: its arguments, all input, all output.
//!
//! It reads all input before it answers anything, and makes an answer whole before it writes its first
//! byte.

ghost use Rattle.std.specs.Prelude.{◌≡◌, ◌≤◌, ◌⊎◌, ◌||◌, ◌+◌, ℕ, List, Option, true, false, None, Some, map, is_err, IfOk, MatchResult};
ghost use Rattle.resil_heads.specs.CommandError.{IsError};
ghost use Rattle.resil_input.specs.Io.{ConsumesAtMost, IsInputUpTo};
ghost use Rattle.resil_input.specs.Output.{IsWritten, code_of};
ghost use Rattle.resil_input.specs.declared.output.Output.{Output};
ghost use Rattle.resil_input.specs.declared.output.Status.{Status};
ghost use Rattle.resil_look.specs.Look.{IsLooked, IsRequestOutput, IsRequestRefusal, IsRequestText, limit_of, most_read, request_named, requested, view_named};

use resil_heads::length::is_too_long;
use resil_heads::{CommandError, made_output, too_long_output};
use resil_input::io::{Input, InputReader, OutputWriter, ReadError, read_up_to};
use resil_input::output::{Output, write_output};
use resil_simulate::command::{self, LoadView, MAX_LOAD_LEN, Progress};
use resil_view::{HistoryView, MAX_HISTORY_LEN, view_text};
use std::alloc::Global;

/// What the arguments ask for.
#[derive(Clone, Copy, Debug, PartialEq, Eq)]
pub(crate) enum LookRequest {
    /// A view of a history.
    View(HistoryView),
    /// The outcome of a load.
    Simulate(LoadView),
}

/// What the arguments ask for. The first of them is the program's name.
pub(crate) fn requested(words: &[&str]) -> Option<LookRequest>
    ensures { result ≡ requested (map (λ word. word.now) words.now) }
{
    match *words {
        [_, word] => request_named(word),
        [_, word, option] if word == "simulate" && option == "--history" => {
            Some(LookRequest::Simulate(LoadView::History))
        }
        _ => None,
    }
}

// What a single word asks for.
fn request_named(word: &str) -> Option<LookRequest>
    ensures { result ≡ request_named word.now }
{
    if word == "simulate" {
        return Some(LookRequest::Simulate(LoadView::Numbers));
    }
    let view = view_named(word)?;
    Some(LookRequest::View(view))
}

/// The view that a word asks for.
pub(crate) fn view_named(word: &str) -> Option<HistoryView>
    ensures { result ≡ view_named word.now }
{
    if word == "judge" {
        Some(HistoryView::Judge)
    } else if word == "stats" {
        Some(HistoryView::Stats)
    } else if word == "timeline" {
        Some(HistoryView::Timeline)
    } else {
        None
    }
}

/// The maximum length of an input for this request, in bytes.
pub(crate) fn limit_of(request: LookRequest) -> usize
    ensures { result ≡ limit_of request }
{
    match request {
        LookRequest::View(_) => MAX_HISTORY_LEN,
        LookRequest::Simulate(_) => MAX_LOAD_LEN,
    }
}

// The text that answers a request about an input. Errors: those of a view, or of `simulate`.
fn request_text<P: Progress>(
    alloc: Global,
    request: LookRequest,
    input: &[u8],
    told: &mut P,
) -> Result<Vec<u8>, CommandError>
    ensures { MatchResult result (λ text. IsRequestText request input.now text.items) (IsError (IsRequestRefusal request input.now)) }
{
    match request {
        LookRequest::View(view) => view_text(alloc, view, input),
        LookRequest::Simulate(shown) => command::text(alloc, shown, input, told),
    }
}

// The output that answers a request about an input. An input that is too long, or whose head is, is refused first.
#[tactic(auto, using(resil_heads::proofs::OutputLaws::error_answers, resil_heads::proofs::OutputLaws::too_long_answers))]
fn whole_output<P: Progress>(
    alloc: Global,
    request: LookRequest,
    input: &[u8],
    told: &mut P,
) -> Output
    ensures { IsRequestOutput request input.now result }
{
    if is_too_long(limit_of(request), input) {
        return too_long_output(alloc);
    }
    made_output(alloc, request_text(alloc, request, input, told))
}

// The output that answers a request about what was read of an input.
#[tactic(auto, using(resil_heads::proofs::OutputLaws::longer_than, resil_heads::proofs::OutputLaws::too_long_answers))]
fn request_output<P: Progress>(
    alloc: Global,
    request: LookRequest,
    input: &Input,
    told: &mut P,
) -> Output
    ensures { (bytes : List ℕ) → IsInputUpTo (limit_of request) bytes input.now → IsRequestOutput request bytes result }
{
    match input {
        Input::TooLong => too_long_output(alloc),
        Input::Whole(bytes) => whole_output(alloc, request, bytes, told),
    }
}

// The output that answers a request about what a reader reads. Errors: a read failed.
fn read_output<R: InputReader, P: Progress>(
    alloc: Global,
    request: LookRequest,
    reader: &mut R,
    told: &mut P,
) -> Result<Output, ReadError>
    ensures output { IfOk result (IsLooked (Some request) (R.remaining reader.old)) }
    ensures taken { ConsumesAtMost (most_read (Some request)) (R.remaining reader.old) (R.remaining reader.new) }
    ensures failed { R.has_failed reader.new ≡ (R.has_failed reader.old || is_err result) }
{
    match read_up_to(alloc, reader, limit_of(request)) {
        Ok(input) => {
            let output = request_output(alloc, request, &input, told);
            if let Input::Whole(bytes) = input {
                reader.take_back(bytes);
            }
            Ok(output)
        }
        Err(ReadError::Memory) => Ok(Output::NoMemory),
        Err(ReadError::Reader) => Err(ReadError::Reader),
    }
}

// The output for the arguments and for what a reader reads. Errors: a read failed.
fn output_for<R: InputReader, P: Progress>(
    alloc: Global,
    words: &[&str],
    reader: &mut R,
    told: &mut P,
) -> Result<Output, ReadError>
    ensures output { IfOk result (IsLooked (requested (map (λ word. word.now) words.now)) (R.remaining reader.old)) }
    ensures taken { ConsumesAtMost (most_read (requested (map (λ word. word.now) words.now))) (R.remaining reader.old) (R.remaining reader.new) }
    ensures failed { R.has_failed reader.new ≡ (R.has_failed reader.old || is_err result) }
    ensures unread { requested (map (λ word. word.now) words.now) ≡ None → reader.new ≡ reader.old }
{
    match requested(words) {
        Some(request) => read_output(alloc, request, reader, told),
        None => Ok(Output::Usage),
    }
}

/// The whole program: the arguments (the program's name first), all input, all output. The number is that
/// of a `Status` of `resil_input`. `simulate` reports its progress after each pool.
pub(crate) fn look<R: InputReader, W: OutputWriter, P: Progress>(
    alloc: Global,
    words: &[&str],
    reader: &mut R,
    writer: &mut W,
    told: &mut P,
) -> u8
    ensures looks { ((result ≡ 4) × (R.has_failed reader.new ≡ true) × (writer.new ≡ writer.old))
        ⊎ ((out : Output) × (s : Status) × IsLooked (requested (map (λ word. word.now) words.now)) (R.remaining reader.old) out
        × IsWritten (W.contents writer.old) (W.contents writer.new) (W.has_failed writer.old) (W.has_failed writer.new) out s × (result ≡ code_of s)) }
    ensures no_read_fault { R.has_failed reader.old ≡ false → R.has_failed reader.new ≡ true → (result ≡ 4) × (writer.new ≡ writer.old) }
    ensures no_write_fault { W.has_failed writer.old ≡ false → W.has_failed writer.new ≡ true → result ≡ 4 }
    ensures taken { ConsumesAtMost (most_read (requested (map (λ word. word.now) words.now))) (R.remaining reader.old) (R.remaining reader.new) }
    ensures unread { requested (map (λ word. word.now) words.now) ≡ None → reader.new ≡ reader.old }
{
    match output_for(alloc, words, reader, told) {
        Ok(output) => write_output(writer, &output).code(),
        Err(_) => 4,
    }
}
