//! The arguments of the program: its name, the command to carry out, and the command's options.
//!
//! `clap` reads them. The program shows neither help nor a version: a word that isn't one of its commands is refused, a request for
//! help included, and so are no arguments at all. Only `run` has options: a flag and a number of callers.

ghost use Rattle.std.specs.Prelude.{◌≡◌, Some, None, map, false, IfOk, IfSome, option_and_then};
ghost use Rattle.clap.specs.Words.{app_of, found_of, rows_of, subcommand_rows_of};
ghost use Rattle.clap.specs.declared.builder.command.Command.TheViews.{out-Command as fields_of};
ghost use Rattle.resil_words.specs.CommandLine.{FewCallers, HasFewCallers, RunExamples, program, request_of_match, request_of, run_command, run_options};

use clap::error::ErrorKind;
use clap::{Arg, ArgAction, ArgMatches, Command, value_parser};
use std::alloc::{AllocError, Global};
use thiserror::Error;

/// The most callers that `run` may have: as many as a pool of threads takes.
pub const MAX_CALLERS: u16 = 64;

/// What the arguments request.
#[derive(Clone, Copy, Debug, PartialEq, Eq)]
pub enum Request {
    /// A command that one thread carries out.
    Single(Single),
    /// `run`: carry out jobs on a pool of threads, and write its history and its results.
    Run(RunOptions),
}

/// A command that one thread carries out.
#[derive(Clone, Copy, Debug, PartialEq, Eq)]
pub enum Single {
    /// `replay`: carry out a list of events on one pool, and write its history.
    Replay,
    /// `audit`: judge a history, and write whether it is legal.
    Audit,
    /// `chain`: run jobs through layers, and write the result of each.
    Chain,
    /// `weave`: make callers' steps on one permit word, and write what each showed.
    Weave,
}

/// The options of `run`.
#[derive(Clone, Copy, Debug, PartialEq, Eq)]
pub struct RunOptions {
    /// `--hold`: all jobs are submitted before a worker starts.
    pub hold: bool,
    /// `--callers`: how many callers the pool has, from 1 to 64.
    pub callers: u16,
}

/// Why the arguments request nothing.
#[derive(Clone, Copy, Debug, PartialEq, Eq, Error)]
pub enum UsageError {
    /// Out of memory while the arguments were read.
    #[error("out of memory")]
    Memory,
    /// The arguments are refused.
    #[error("the arguments are refused")]
    Usage,
}

/// What the arguments request. The first of them is the program's name.
///
/// A last argument `--` is accepted. `--hold` and `--callers` come after `run`, in either order and
/// each at most once; without `--callers` there is one caller.
///
/// # Errors
///
/// `Usage` for all other arguments, a request for help or the version included; `Memory` when out of
/// memory.
pub fn parse_args<'a>(alloc: Global, words: &'a [&'a str]) -> Result<Request, UsageError>
    ensures request { IfOk result (λ request. request_of (map (λ word. word.now) words.entry.now) ≡ Some request) }
    ensures usage { result ≡ Err UsageError.Usage → request_of (map (λ word. word.now) words.entry.now) ≡ None }
    ensures callers { IfOk result HasFewCallers }
{
    let Ok(command) = program(alloc) else {
        return Err(UsageError::Memory);
    };
    match command.try_get_matches_from(words) {
        Ok(matches) => request_of_matches(&matches).ok_or(UsageError::Usage),
        Err(error) => {
            if error.kind() == ErrorKind::OutOfMemory {
                Err(UsageError::Memory)
            } else {
                Err(UsageError::Usage)
            }
        }
    }
}

// The program's command, with one subcommand for each request. Errors: out of memory.
fn program<'a>(alloc: Global) -> Result<Command<'a>, AllocError>
    ensures { IfOk result (λ command. app_of command ≡ program) }
{
    let run = run_command(alloc)?;
    Command::new(alloc, "resil")
        .subcommand_required(true)
        .disable_help_flag(true)
        .disable_help_subcommand(true)
        .subcommand(Command::new(alloc, "replay"))?
        .subcommand(Command::new(alloc, "audit"))?
        .subcommand(Command::new(alloc, "chain"))?
        .subcommand(Command::new(alloc, "weave"))?
        .subcommand(run)
}

// The command `run`, with its flag and its option. Errors: out of memory.
fn run_command<'a>(alloc: Global) -> Result<Command<'a>, AllocError>
    ensures app { IfOk result (λ command. app_of command ≡ run_command) }
    ensures globals { IfOk result (λ command. (fields_of command).has_globals ≡ false) }
{
    let hold = Arg::new(alloc, "hold")
        .long("hold")
        .action(ArgAction::SetTrue);
    let callers = Arg::new(alloc, "callers")
        .long("callers")
        .action(ArgAction::Set)
        .value_parser(value_parser!(u16).range(1..=64))
        .default_value("1");
    Command::new(alloc, "run")
        .disable_help_flag(true)
        .arg(hold)?
        .arg(callers)
}

// The request of the subcommand that the arguments named.
fn request_of_matches(matches: &ArgMatches<'_>) -> Option<Request>
    ensures request { result ≡ option_and_then request_of_match (subcommand_rows_of matches.now) }
    ensures callers { IfSome result HasFewCallers }
{
    let (command, options) = matches.subcommand()?;
    Some(match command {
        "replay" => Request::Single(Single::Replay),
        "audit" => Request::Single(Single::Audit),
        "chain" => Request::Single(Single::Chain),
        "weave" => Request::Single(Single::Weave),
        "run" => Request::Run(run_options(options)?),
        _ => return None,
    })
}

// The options of `run`, from its flag and its option.
fn run_options(matches: &ArgMatches<'_>) -> Option<RunOptions>
    ensures options { result ≡ run_options (rows_of (found_of matches.now)) }
    ensures callers { IfSome result (λ options. HasFewCallers (Request.Run options)) }
{
    let callers = matches.get_one::<u16>("callers")?;
    if callers == 0 || callers > MAX_CALLERS {
        return None;
    }
    let hold = matches.get_one::<bool>("hold").unwrap_or(false);
    Some(RunOptions { hold, callers })
}

/// Two facts of the definition of the arguments: the options of `run` in arguments that are written
/// out, and the number of callers in `--callers=` before any text. It does nothing: it exists for
/// its contract.
pub fn worked_run_options()
    ensures examples { RunExamples }
    ensures callers { FewCallers }
{}
