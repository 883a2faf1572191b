//! What the head of an input says, as text: what a page fills its fields with, so that it reads no TOML itself.

ghost use Rattle.std.specs.Prelude.{◌≡◌, IfOk, MatchResult, string_bytes};
ghost use Rattle.resil_heads.specs.CommandError.{IsError};
ghost use Rattle.resil_heads.specs.PoolHead.{said_of};
ghost use Rattle.resil_input.specs.CsvTable.{record_text};
ghost use Rattle.resil_page.specs.Head.{IsHeadRefusal, IsHeadText, IsHistoryHead, IsLoadHead, flag_word, history_text, load_fields, load_text, sizes_fields, unfinished_word};
ghost use Rattle.resil_simulate.specs.Head.{plan_of};

use resil_heads::pool_head::{PoolHead, read_pool_head};
use resil_heads::{CommandError, InputRefusal};
use resil_input::framing::split_input;
use resil_jdk::JdkLimits;
use resil_simulate::head::{LoadHead, Terms, Unfinished, Ways, read_load_head};
use resil_view::DRAWN_USES;
use std::alloc::{AllocError, Global};

/// Whose head an input has.
#[derive(Clone, Copy, Debug, PartialEq, Eq)]
pub(crate) enum HeadOf {
    /// That of a history, as `timeline` reads it.
    History,
    /// That of a load, as `simulate` reads it.
    Load,
}

// The record of the sizes of a pool. Errors: `AllocError` when out of memory.
fn sizes_text(alloc: Global, core: u32, max: u32, queue: u32) -> Result<String, AllocError>
    ensures { IfOk result (λ text. string_bytes text ≡ record_text (sizes_fields (record { core = core; max = max; queue = queue }))) }
{
    format!(in alloc; "{core},{max},{queue}\n")
}

// The sizes and the name that the head of a history says. Errors: `AllocError` when out of memory.
fn history_text(alloc: Global, head: &PoolHead) -> Result<Vec<u8>, AllocError>
    ensures { IfOk result (λ text. text.items ≡ history_text (said_of head.now)) }
{
    let limits = &head.limits;
    let mut text = sizes_text(alloc, limits.core(), limits.max(), limits.queue())?;
    text.push_str(head.name.as_str())?;
    Ok(text.into_bytes())
}

// A flag as a head has it.
fn flag_word(flag: bool) -> &'static str
    ensures { result.now ≡ flag_word flag }
{
    if flag { "true" } else { "false" }
}

// How long an unfinished job runs, as a head says it.
fn unfinished_word(unfinished: Unfinished) -> &'static str
    ensures { result.now ≡ unfinished_word unfinished }
{
    match unfinished {
        Unfinished::Run => "run",
        Unfinished::Takes => "takes",
    }
}

// The record of what the head of a load says beside the sizes. Errors: `AllocError` when out of memory.
fn terms_text(alloc: Global, ways: Ways, terms: Terms) -> Result<String, AllocError>
    ensures { IfOk result (λ text. string_bytes text ≡ record_text (load_fields ways terms)) }
{
    let (idle_for, wakes, made) = (ways.idle_for, ways.wakes, terms.made);
    let time_out = flag_word(ways.time_out);
    let unfinished = unfinished_word(terms.unfinished);
    match terms.takes {
        Some(takes) => {
            format!(in alloc; "{idle_for},{takes},{wakes},{time_out},{unfinished},{made}\n")
        }
        None => format!(in alloc; "{idle_for},,{wakes},{time_out},{unfinished},{made}\n"),
    }
}

// What the head of a load says, then the sizes of each pool. Errors: `AllocError` when out of memory.
fn load_text(
    alloc: Global,
    ways: Ways,
    terms: Terms,
    pools: &[JdkLimits],
) -> Result<Vec<u8>, AllocError>
    ensures { IfOk result (λ text. text.items ≡ load_text ways terms pools.now) }
{
    let mut text = terms_text(alloc, ways, terms)?;
    for limits in pools {
        let (core, max, queue) = (limits.core(), limits.max(), limits.queue());
        let record = sizes_text(alloc, core, max, queue)?;
        text.push_str(record.as_str())?;
    }
    Ok(text.into_bytes())
}

// The head of a history that an input has. Errors, in this order: `Refused` as `NoBody`; as `Head`. `Memory` may come at any step.
fn read_history_head(alloc: Global, input: &[u8]) -> Result<PoolHead, CommandError>
    ensures { MatchResult result (λ head. IsHistoryHead input.now (said_of head)) (IsError (IsHeadRefusal HeadOf.History input.now)) }
{
    let (head, _) = split_input(input).ok_or(InputRefusal::NoBody)?;
    let said = read_pool_head(alloc, DRAWN_USES, head)?;
    Ok(said)
}

// The head of a load that an input has. Errors as of `read_history_head`.
fn read_head_of_load(alloc: Global, input: &[u8]) -> Result<LoadHead, CommandError>
    ensures { MatchResult result (λ head. IsLoadHead input.now (plan_of head)) (IsError (IsHeadRefusal HeadOf.Load input.now)) }
{
    let (head, _) = split_input(input).ok_or(InputRefusal::NoBody)?;
    let said = read_load_head(alloc, head)?;
    Ok(said)
}

// The text of the head of a history that an input has. Errors as of `read_history_head`.
fn text_of_history(alloc: Global, input: &[u8]) -> Result<Vec<u8>, CommandError>
    ensures { MatchResult result (λ text. IsHeadText HeadOf.History input.now text.items) (IsError (IsHeadRefusal HeadOf.History input.now)) }
{
    let head = match read_history_head(alloc, input) {
        Ok(head) => head,
        Err(why) => return Err(why),
    };
    match history_text(alloc, &head) {
        Ok(text) => Ok(text),
        Err(_) => Err(CommandError::Memory),
    }
}

// The text of the head of a load that an input has. Errors as of `read_history_head`.
fn text_of_load(alloc: Global, input: &[u8]) -> Result<Vec<u8>, CommandError>
    ensures { MatchResult result (λ text. IsHeadText HeadOf.Load input.now text.items) (IsError (IsHeadRefusal HeadOf.Load input.now)) }
{
    let head = match read_head_of_load(alloc, input) {
        Ok(head) => head,
        Err(why) => return Err(why),
    };
    match load_text(alloc, head.ways, head.terms, &head.pools) {
        Ok(text) => Ok(text),
        Err(_) => Err(CommandError::Memory),
    }
}

/// What the head of an input says. For a history these are a record of its three sizes, and then its name, which the text ends with. For
/// a load they are a record of `idle_for`, `takes`, which is empty if it isn't there, `wakes`, `time_out`, `unfinished` and `made`, and
/// a record of the three sizes of each pool.
///
/// # Errors
///
/// In this order: `Refused` as `NoBody`; as `Head`. `Memory` may come at any step.
pub(crate) fn head_text(alloc: Global, whose: HeadOf, input: &[u8]) -> Result<Vec<u8>, CommandError>
    ensures { MatchResult result (λ text. IsHeadText whose input.now text.items) (IsError (IsHeadRefusal whose input.now)) }
{
    match whose {
        HeadOf::History => text_of_history(alloc, input),
        HeadOf::Load => text_of_load(alloc, input),
    }
}
