//! `simulate`: reads an input, and makes the text of its load's result: the numbers of each pool, or the history of one.

ghost use Rattle.std.specs.Prelude.{◌≡◌, ◌↔◌, All, IfOk, IsTrue, MatchResult, length, map};
ghost use Rattle.resil_heads.specs.CommandError.{IsError};
ghost use Rattle.resil_heads.specs.Parts.{SplitsInto};
ghost use Rattle.resil_virtual.specs.Load.{IsLoad};
ghost use Rattle.resil_virtual.specs.Simulated.{opening};
ghost use Rattle.resil_simulate.specs.Command.{AreArrivals, AreShown, IsArrivalsRefusal, IsHeadRefusal, IsHistoryText, IsLoadOf, IsPoolRun, IsRead, IsSimulateRefusal, IsTableText, first_sizes, own_sizes, pool_of, pools_of, resized_sizes, text_of};
ghost use Rattle.resil_simulate.specs.Head.{load_head_of, plan_of};
ghost use Rattle.resil_simulate.specs.Load.{IsHistoryLoadRefusal};
ghost use Rattle.resil_simulate.specs.Tally.{IsTallyOf, IsTimed};

use crate::head::{LoadHead, Ways, read_load_head};
use crate::load::{load_of, load_of_history};
use crate::numbers::{PoolNumbers, numbers_of};
use crate::rows::{Rows, read_rows};
use crate::table::table_text;
use crate::tally::Tally;
use crate::version::version_text;
use resil_heads::{CommandError, InputRefusal};
use resil_input::framing::split_input;
use resil_jdk::{JdkEvent, JdkLimits, TimedJdkEvent};
use resil_virtual::{Arrival, Simulation, VirtualPool, simulate};
use std::alloc::{AllocError, Global};

/// What learns how far a command is.
pub trait Progress {
    /// This many of the pools are done.
    fn done(&mut self, count: usize, of: usize);
}

/// Nobody learns it.
#[derive(Clone, Copy)]
pub struct Untold;

impl Progress for Untold {
    fn done(&mut self, _count: usize, _of: usize) {}
}

/// The maximum length of an input with a load, in bytes: 4 mebibytes.
pub const MAX_LOAD_LEN: usize = 4_194_304;

/// What is written of a load.
#[derive(Clone, Copy, Debug, PartialEq, Eq)]
pub enum LoadView {
    /// `simulate`: the numbers of each pool.
    Numbers,
    /// `simulate --history`: the history in one pool.
    History,
}

// What the head of an input says, and its body. Errors, in this order: `Refused` as `NoBody`; as `Head`. `Memory` may come at any step.
fn read_parts(alloc: Global, input: &[u8]) -> Result<(LoadHead, &[u8]), CommandError>
    ensures { MatchResult result (λ read. SplitsInto load_head_of input.now (plan_of read.0) read.1.now) (IsError (IsHeadRefusal input.now)) }
{
    let (head, body) = split_input(input).ok_or(InputRefusal::NoBody)?;
    let head = read_load_head(alloc, head)?;
    Ok((head, body))
}

/// The jobs of a load; what really happened to them, if they are those of a history; and the pools that they are carried out on.
#[derive(Drop)]
struct Load {
    arrivals: Vec<Arrival>,
    own: Option<PoolNumbers>,
    pools: Vec<JdkLimits>,
}

// The sizes of a resize, if a pool takes them.
fn resized_sizes(limits: JdkLimits, event: JdkEvent) -> JdkLimits
    ensures { result ≡ resized_sizes limits event }
{
    let JdkEvent::Resized { core, max } = event else {
        return limits;
    };
    match JdkLimits::new(core, max, limits.queue()) {
        Ok(own) => own,
        Err(_) => limits,
    }
}

// The sizes with which a history begins that resizes its pool before all else.
fn first_sizes(limits: JdkLimits, history: &[TimedJdkEvent]) -> JdkLimits
    ensures { result ≡ first_sizes limits history.now }
{
    match history {
        [first, ..] => resized_sizes(limits, first.event),
        [] => limits,
    }
}

// The sizes of a pool, or those of the recorder that wrote them.
fn own_sizes(is_one: bool, history: &[TimedJdkEvent], limits: JdkLimits) -> JdkLimits
    ensures { result ≡ own_sizes is_one history.now limits }
{
    if is_one && limits.max() == JdkLimits::MAX_WORKERS {
        first_sizes(limits, history)
    } else {
        limits
    }
}

// The pools that a load is carried out on. Errors: `AllocError` when out of memory.
fn pools_of(
    alloc: Global,
    pools: &[JdkLimits],
    history: &[TimedJdkEvent],
) -> Result<Vec<JdkLimits>, AllocError>
    ensures { IfOk result (λ all. all.items ≡ pools_of pools.now history.now) }
{
    let is_one = pools.len() == 1;
    let own = pools
        .iter()
        .map(|limits| own_sizes(is_one, history, *limits));
    own.collect(alloc)
}

// The jobs of a history, and its numbers. Errors: those of `load_of_history`.
fn history_of(
    alloc: Global,
    history: &[TimedJdkEvent],
    head: &LoadHead,
) -> Result<Load, CommandError>
    ensures { MatchResult result (λ load. IsLoadOf history.now (plan_of head.now) load.arrivals.items load.own load.pools.items) (IsError (IsHistoryLoadRefusal head.now.ways head.now.terms history.now)) }
{
    let arrivals = load_of_history(alloc, history, head.ways, head.terms)?;
    let pools = pools_of(alloc, &head.pools, history)?;
    match numbers_of(alloc, head.terms.made as usize, history) {
        Ok(own) => Ok(Load {
            arrivals,
            own: Some(own),
            pools,
        }),
        Err(_) => Err(CommandError::Memory),
    }
}

// The jobs of a body: those of its rows, or of a history. Errors, in this order: `BadHeader` or `BadRow`; those of `load_of`, or of
// `load_of_history`. `Memory` may come at any step.
fn read_arrivals(alloc: Global, body: &[u8], head: &LoadHead) -> Result<Load, CommandError>
    ensures { MatchResult result (λ load. AreArrivals body.now (plan_of head.now) load.arrivals.items load.own load.pools.items) (IsError (IsArrivalsRefusal body.now (plan_of head.now))) }
{
    match read_rows(alloc, body)? {
        Rows::Load(rows) => {
            let arrivals = load_of(alloc, &rows, head.ways)?;
            let pools = pools_of(alloc, &head.pools, &[])?;
            Ok(Load {
                arrivals,
                own: None,
                pools,
            })
        }
        Rows::History(history) => {
            let load = history_of(alloc, &history, head)?;
            Ok(load)
        }
    }
}

// The pool of these sizes, whose workers end and wake in this way.
fn pool_of(limits: JdkLimits, ways: Ways) -> VirtualPool
    ensures { result ≡ pool_of limits ways }
{
    VirtualPool {
        limits,
        time_out: ways.time_out,
        idle_for: ways.idle_for,
        wakes: ways.wakes,
    }
}

// The tally of what happens in a pool before the first job comes. Errors: `AllocError` when out of memory.
fn opening_tally(alloc: Global, pool: &VirtualPool) -> Result<Tally, AllocError>
    requires { IsTimed (opening pool.now) }
    ensures { IfOk result (IsTallyOf (opening pool.now)) }
{
    let mut tally = Tally::new(alloc);
    if let Some(first) = pool.opening() {
        tally.add(first)?;
    }
    Ok(tally)
}

// The numbers of a load in one pool. Its history isn't kept. Errors: `AllocError` when out of memory.
fn run_pool(
    alloc: Global,
    limits: JdkLimits,
    ways: Ways,
    arrivals: &[Arrival],
) -> Result<PoolNumbers, AllocError>
    requires { IsLoad ways.idle_for ways.wakes arrivals.now }
    ensures { IfOk result (IsPoolRun ways arrivals.now limits) }
{
    let pool = pool_of(limits, ways);
    let mut simulation = Simulation::new(alloc, pool, arrivals);
    let mut tally = opening_tally(alloc, &pool)?;
    while let Some(timed) = simulation.next()? {
        tally.add(timed)?;
    }
    Ok(tally.numbers())
}

// The numbers of a load in each of some pools, in order; the progress learns of each pool that is done. Errors: `AllocError` when out of memory.
fn run_pools<P: Progress>(
    alloc: Global,
    pools: &[JdkLimits],
    ways: Ways,
    arrivals: &[Arrival],
    told: &mut P,
) -> Result<Vec<(JdkLimits, PoolNumbers)>, AllocError>
    requires { IsLoad ways.idle_for ways.wakes arrivals.now }
    ensures pools { IfOk result (λ done. map (λ pool. pool.0) done.items ≡ pools.now) }
    ensures numbers { IfOk result (λ done. All (λ pool. IsPoolRun ways arrivals.now pool.0 pool.1) done.items) }
{
    let mut done = Vec::new(alloc);
    for limits in pools {
        let numbers = run_pool(alloc, *limits, ways, arrivals)?;
        done.push((*limits, numbers))?;
        told.done(done.len(), pools.len());
    }
    Ok(done)
}

// Whether pools can be shown: the history is that of one.
fn are_shown(shown: LoadView, pools: &[JdkLimits]) -> bool
    ensures { IsTrue result ↔ AreShown shown (length pools.now) }
{
    match shown {
        LoadView::Numbers => true,
        LoadView::History => pools.len() == 1,
    }
}

// What the head of an input says, and the jobs of its body. Errors: those of `text`.
fn read_load(alloc: Global, shown: LoadView, input: &[u8]) -> Result<(LoadHead, Load), CommandError>
    ensures { MatchResult result (λ read. IsRead shown input.now (plan_of read.0) read.1.arrivals.items read.1.own read.1.pools.items) (IsError (IsSimulateRefusal shown input.now)) }
{
    let (head, body) = match read_parts(alloc, input) {
        Ok(read) => read,
        Err(why) => return Err(why),
    };
    if !are_shown(shown, &head.pools) {
        return Err(CommandError::Refused(InputRefusal::ManyPools));
    }
    match read_arrivals(alloc, body, &head) {
        Ok(load) => Ok((head, load)),
        Err(why) => Err(why),
    }
}

/// The text of the numbers of what really happened, if the body is a history, and of each pool that the head of an input names.
///
/// # Errors
///
/// In this order: `Refused` as `NoBody`; as `Head`; as `BadHeader` or `BadRow`; as `Head` for `BadValue` if more events than there are
/// restate a state; as `Load` for `NoTakes`; `Illegal`; `TimeGoesBack`; `TimeTooLate`. `Memory` may come at any step.
pub fn numbers_text<P: Progress>(
    alloc: Global,
    input: &[u8],
    told: &mut P,
) -> Result<Vec<u8>, CommandError>
    ensures { MatchResult result (λ text. IsTableText input.now text.items) (IsError (IsSimulateRefusal LoadView.Numbers input.now)) }
{
    let (head, load) = match read_load(alloc, LoadView::Numbers, input) {
        Ok(read) => read,
        Err(why) => return Err(why),
    };
    let done = run_pools(alloc, &load.pools, head.ways, &load.arrivals, told)?;
    Ok(table_text(alloc, &load.own, &done)?)
}

/// The text of the history of the one pool that the head of an input names, with the times of its events.
///
/// # Errors
///
/// Those of `numbers_text`, with `ManyPools` after those of the head.
pub fn history_text(alloc: Global, input: &[u8]) -> Result<Vec<u8>, CommandError>
    ensures { MatchResult result (λ text. IsHistoryText input.now text.items) (IsError (IsSimulateRefusal LoadView.History input.now)) }
{
    let (head, load) = match read_load(alloc, LoadView::History, input) {
        Ok(read) => read,
        Err(why) => return Err(why),
    };
    let limits = load.pools[0];
    let history = simulate(alloc, &pool_of(limits, head.ways), &load.arrivals)?;
    Ok(version_text(alloc, limits, head.ways, &history)?)
}

/// The text that is wanted of an input. After each pool whose numbers are made, the progress learns how many are done.
///
/// # Errors
///
/// Those of `numbers_text` or of `history_text`.
pub fn text<P: Progress>(
    alloc: Global,
    shown: LoadView,
    input: &[u8],
    told: &mut P,
) -> Result<Vec<u8>, CommandError>
    ensures { MatchResult result (λ text. text_of shown input.now text.items) (IsError (IsSimulateRefusal shown input.now)) }
{
    match shown {
        LoadView::Numbers => numbers_text(alloc, input, told),
        LoadView::History => history_text(alloc, input),
    }
}
