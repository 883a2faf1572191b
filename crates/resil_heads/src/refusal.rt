//! Why an input is refused, and the line that says so.
//!
//! All names that the program prints for a refusal are here, and in `specs/Refusal.antt`: the name of the variant,
//! whichever crate refused. The line is `refused`, the place, and the name.

ghost use Rattle.std.specs.Prelude.{◌≡◌, IfOk, string_bytes};
ghost use Rattle.resil_heads.specs.Refusal.{chain_name, head_name, load_name, part_line, pool_name, refusal_line, registry_name, retry_name, row_line, row_name, run_name, step_name};

use crate::error::HeadError;
use resil_decor::DecorError;
use resil_registry::RegistryError;
use resil_retry::RetryError;
use resil_rule::AdmitError;
use std::alloc::{AllocError, Global};

/// Why an input is refused, in the order of the steps.
#[derive(Clone, Copy, Debug)]
pub enum InputRefusal {
    /// It has more bytes than an input may have.
    TooLong,
    /// It has no separator line.
    NoBody,
    /// Its head is refused.
    Head(HeadError),
    /// The history in one pool is wanted, and its head has several.
    ManyPools,
    /// Its body doesn't begin with the header.
    BadHeader,
    /// The record at this position, from 1 after the header, isn't a row.
    BadRow(usize),
    /// The row at this position, from 1, can't be carried out.
    Row(usize, RowRefusal),
    /// The step at this position, from 1, can't be made.
    Step(usize, StepRefusal),
    /// The row at this position, from 1, of a load or of a history with times can't be taken.
    Load(usize, LoadRefusal),
    /// A result of a run after its history can't be read.
    BadResult,
    /// The run was carried out, and has no report.
    Run(RunRefusal),
}

/// Why the pool refuses a row.
#[derive(Clone, Copy, Debug)]
pub enum RowRefusal {
    /// The submission's number isn't its caller's next one.
    WrongNumber,
    /// No job with this id is out.
    NotOut,
    /// No worker may take a job, or no worker may end.
    NotAllowed,
    /// The core size of a resize isn't from 1 to 64.
    CoreOutOfRange,
    /// The maximum size of a resize is below its core size, or above that of the limits.
    MaxOutOfRange,
}

/// Why a caller's step on the permit word can't be made.
#[derive(Clone, Copy, Debug)]
pub enum StepRefusal {
    /// An exchange by a caller that has loaded nothing.
    NotLoaded,
    /// An add or a retire by a caller without a permit.
    NotHolding,
    /// A load, an add, a retire or a raise by a caller that has loaded a number.
    StillLoaded,
    /// A raise by a caller without a retired permit.
    NotRetired,
}

/// Why a row of a load, or of a history with times, can't be taken.
#[derive(Clone, Copy, Debug)]
pub enum LoadRefusal {
    /// The job of this submission has no finish in the history, and nothing else says how long it takes.
    NoTakes,
    /// No pool has the history up to this event.
    Illegal,
    /// Its time is below that of the row before it.
    TimeGoesBack,
    /// Its time, all runs up to it and the time after which an idle worker may end pass 2^64 - 1.
    TimeTooLate,
}

/// Why a run that was carried out has no report.
#[derive(Clone, Copy, Debug)]
pub enum RunRefusal {
    /// The pool didn't take a job's run, an accepted job has no result, or the pool has other sizes.
    Stranger,
    /// The receipts of the callers aren't what the history says.
    ReceiptsDiffer,
}

// The word that is printed for a refused head: the variant's name or, if another crate refused, the name of its
// refusal. `Memory` and `SameName` are never printed.
fn head_name(why: HeadError) -> &'static str
    ensures { result.now ≡ head_name why }
{
    match why {
        HeadError::Memory => "Memory",
        HeadError::BadToml => "BadToml",
        HeadError::UnknownKey => "UnknownKey",
        HeadError::MissingKey => "MissingKey",
        HeadError::BadValue => "BadValue",
        HeadError::Limits(why) => pool_name(why),
        HeadError::TooManyPermits => "TooManyPermits",
        HeadError::SameName(_) => "SameName",
        HeadError::Registry(why) => registry_name(why),
        HeadError::Retry(why) => retry_name(why),
        HeadError::Chain(why) => chain_name(why),
    }
}

// The word that is printed for a refusal of the pool: the variant's name.
fn pool_name(why: AdmitError) -> &'static str
    ensures { result.now ≡ pool_name why }
{
    match why {
        AdmitError::CoreOutOfRange => "CoreOutOfRange",
        AdmitError::MaxOutOfRange => "MaxOutOfRange",
        AdmitError::QueueOutOfRange => "QueueOutOfRange",
        AdmitError::Memory => "Memory",
        AdmitError::WrongNumber => "WrongNumber",
        AdmitError::NotOut => "NotOut",
        AdmitError::OtherJob => "OtherJob",
        AdmitError::NotDone => "NotDone",
    }
}

// The word that is printed for a refusal of a registry: the variant's name.
fn registry_name(why: RegistryError) -> &'static str
    ensures { result.now ≡ registry_name why }
{
    match why {
        RegistryError::ReservedName => "ReservedName",
        RegistryError::NoSuchConfig => "NoSuchConfig",
        RegistryError::NameTaken => "NameTaken",
        RegistryError::BadName => "BadName",
        RegistryError::Memory => "Memory",
    }
}

// The word that is printed for a refusal of a retry: the variant's name.
fn retry_name(why: RetryError) -> &'static str
    ensures { result.now ≡ retry_name why }
{
    match why {
        RetryError::IntervalTooLong => "IntervalTooLong",
        RetryError::BadMultiplier => "BadMultiplier",
        RetryError::CapBelowInitial => "CapBelowInitial",
        RetryError::EmptyScript => "EmptyScript",
        RetryError::NoAttempts => "NoAttempts",
        RetryError::TooManyAttempts => "TooManyAttempts",
        RetryError::Memory => "Memory",
    }
}

// The word that is printed for a refusal of a chain: the variant's name.
fn chain_name(why: DecorError) -> &'static str
    ensures { result.now ≡ chain_name why }
{
    match why {
        DecorError::TooManyLayers => "TooManyLayers",
        DecorError::TooManyCalls => "TooManyCalls",
        DecorError::Memory => "Memory",
    }
}

// The printed name of why a row can't be carried out.
fn row_name(why: RowRefusal) -> &'static str
    ensures { result.now ≡ row_name why }
{
    match why {
        RowRefusal::WrongNumber => "WrongNumber",
        RowRefusal::NotOut => "NotOut",
        RowRefusal::NotAllowed => "NotAllowed",
        RowRefusal::CoreOutOfRange => "CoreOutOfRange",
        RowRefusal::MaxOutOfRange => "MaxOutOfRange",
    }
}

// The printed name of a step that can't be made.
fn step_name(why: StepRefusal) -> &'static str
    ensures { result.now ≡ step_name why }
{
    match why {
        StepRefusal::NotLoaded => "NotLoaded",
        StepRefusal::NotHolding => "NotHolding",
        StepRefusal::StillLoaded => "StillLoaded",
        StepRefusal::NotRetired => "NotRetired",
    }
}

// The printed name of why a row of a load can't be taken.
fn load_name(why: LoadRefusal) -> &'static str
    ensures { result.now ≡ load_name why }
{
    match why {
        LoadRefusal::NoTakes => "NoTakes",
        LoadRefusal::Illegal => "Illegal",
        LoadRefusal::TimeGoesBack => "TimeGoesBack",
        LoadRefusal::TimeTooLate => "TimeTooLate",
    }
}

// The printed name of why a run has no report.
fn run_name(why: RunRefusal) -> &'static str
    ensures { result.now ≡ run_name why }
{
    match why {
        RunRefusal::Stranger => "Stranger",
        RunRefusal::ReceiptsDiffer => "ReceiptsDiffer",
    }
}

// The line of a refusal of a part of the input. Errors: out of memory.
fn part_line(alloc: Global, part: &str, name: &str) -> Result<String, AllocError>
    ensures { IfOk result (λ line. string_bytes line ≡ part_line part.now name.now) }
{
    format!(in alloc; "refused {part} {name}\n")
}

// The line of a refusal of a row, by its position from 1. Errors: out of memory.
fn row_line(alloc: Global, position: usize, name: &str) -> Result<String, AllocError>
    ensures { IfOk result (λ line. string_bytes line ≡ row_line position name.now) }
{
    format!(in alloc; "refused {position} {name}\n")
}

/// The line that is written for a refusal: the place, and the name.
///
/// # Errors
///
/// `AllocError` when out of memory.
pub fn refusal_line(alloc: Global, why: InputRefusal) -> Result<String, AllocError>
    ensures { IfOk result (λ line. string_bytes line ≡ refusal_line why) }
{
    match why {
        InputRefusal::TooLong => part_line(alloc, "input", "TooLong"),
        InputRefusal::NoBody => part_line(alloc, "input", "NoBody"),
        InputRefusal::Head(why) => part_line(alloc, "head", head_name(why)),
        InputRefusal::ManyPools => part_line(alloc, "head", "ManyPools"),
        InputRefusal::BadHeader => part_line(alloc, "body", "BadHeader"),
        InputRefusal::BadRow(position) => row_line(alloc, position, "BadRow"),
        InputRefusal::Row(position, why) => row_line(alloc, position, row_name(why)),
        InputRefusal::Step(position, why) => row_line(alloc, position, step_name(why)),
        InputRefusal::Load(position, why) => row_line(alloc, position, load_name(why)),
        InputRefusal::BadResult => part_line(alloc, "results", "BadRow"),
        InputRefusal::Run(why) => part_line(alloc, "run", run_name(why)),
    }
}
