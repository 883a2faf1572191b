//! The numbers of a history of any version, by the whole rule of the JDK's `ThreadPoolExecutor`.
//!
//! The events are legal. They are gone over once for each kind of number, with the load of the pool if a number depends on it. The
//! first events may restate the state in which a record begins: their submissions aren't counted.

ghost use Rattle.std.specs.Prelude.{◌≡◌, ◌<◌, ◌+◌, ◌-◌, ◌++◌, ◌∷◌, [], ◌^◌, ℕ, List, length, max, nat_lt, take, drop, IfOk, OnOk};
ghost use Rattle.std.specs.Ordering.{nat_cmp};
ghost use Rattle.std.specs.BTreeMap.{IsOrdered};
ghost use Rattle.resil_rule.specs.Limits.{Sizes};
ghost use Rattle.resil_jdk.specs.Admission.{IsLegal};
ghost use Rattle.resil_jdk.specs.declared.event.JdkEvent.{JdkEvent};
ghost use Rattle.resil_stats.specs.Stats.{AreAnswersOf, AreJdkCallersOf, AreJdkCountsOf, AreJdkMost, AreJdkStatsOf, HasRoomFor, IsJdkLoadAfter, IsMoved, MayBeAnswered, MayBeCounted, MayCome, MayMove, has_idle, idle, is_accepting, with_submission};

use resil_jdk::{JdkEvent, JdkReply};
use resil_rule::Verdict;
use std::alloc::{AllocError, Global};
use std::collections::BTreeMap;

/// What submissions were answered. Those that restate a state don't count.
#[derive(Clone, Copy, Default)]
pub struct JdkAnswers {
    /// The submissions, refused ones too.
    pub submissions: usize,
    /// The submissions that got a new worker below the core size.
    pub core: usize,
    /// The submissions that were put into the queue, while there was a worker.
    pub queued: usize,
    /// The submissions that got a new worker above the core size.
    pub extra: usize,
    /// The submissions that were refused since the pool was full.
    pub full: usize,
    /// The submissions that were refused since the pool was closed.
    pub closed: usize,
    /// The submissions that were put into the queue with a new worker, since there was none.
    pub first: usize,
    /// The submissions that went directly to an idle worker.
    pub handed: usize,
    /// Those of `full` before which a worker was idle.
    pub refused_idle: usize,
    /// Those of `extra` before which a worker was idle.
    pub extra_idle: usize,
}

impl JdkAnswers {
    // Counts one more event, before which a worker was idle or none was.
    #[tactic(auto, using(crate::proofs::CountLaws::filter_few, crate::proofs::CountLaws::filter_more, crate::proofs::CountLaws::idle_few, crate::proofs::CountLaws::idle_more))]
    fn record(&mut self, event: JdkEvent, is_idle: bool)
        requires { MayBeAnswered self.old }
        ensures { (before events : List JdkEvent) → AreAnswersOf before events self.old → is_idle ≡ has_idle (before ++ events) → AreAnswersOf before (events ++ event ∷ []) self.new }
    {
        let JdkEvent::Submit { reply, .. } = event else {
            return;
        };
        self.submissions += 1;
        match reply {
            JdkReply::Core => self.core += 1,
            JdkReply::First => self.first += 1,
            JdkReply::Queued => self.queued += 1,
            JdkReply::Handed => self.handed += 1,
            JdkReply::Extra => {
                self.extra += 1;
                self.extra_idle += usize::from(is_idle);
            }
            JdkReply::Full => {
                self.full += 1;
                self.refused_idle += usize::from(is_idle);
            }
            JdkReply::Closed => self.closed += 1,
        }
    }
}

/// How often each event happened that isn't a submission.
#[derive(Clone, Copy, Default)]
pub struct JdkCounts {
    /// The jobs that a worker took from the queue.
    pub taken: usize,
    /// The jobs that a worker finished.
    pub finished: usize,
    /// The idle workers that ended while nothing waited.
    pub idle_ends: usize,
    /// The changes of the sizes.
    pub resizes: usize,
    /// The workers that began without a job.
    pub started: usize,
    /// The workers that ended though jobs might wait.
    pub culled: usize,
    /// The jobs that left the queue without a worker.
    pub removed: usize,
    /// The stops of the pool.
    pub stops: usize,
    /// How often it was set whether core workers time out.
    pub time_outs: usize,
}

impl JdkCounts {
    // Counts one more event.
    #[tactic(auto, using(crate::proofs::CountLaws::filter_few, crate::proofs::CountLaws::filter_more, crate::proofs::CountLaws::made_few, crate::proofs::CountLaws::made_more))]
    fn record(&mut self, event: JdkEvent)
        requires { MayBeCounted self.old }
        ensures { (history : List JdkEvent) → AreJdkCountsOf history self.old → AreJdkCountsOf (history ++ event ∷ []) self.new }
    {
        match event {
            JdkEvent::Submit { .. } | JdkEvent::Close => {}
            JdkEvent::Take(_) => self.taken += 1,
            JdkEvent::Finish(_) => self.finished += 1,
            JdkEvent::IdleEnd => self.idle_ends += 1,
            JdkEvent::Resized { .. } => self.resizes += 1,
            JdkEvent::Start => self.started += 1,
            JdkEvent::Cull => self.culled += 1,
            JdkEvent::Remove(_) => self.removed += 1,
            JdkEvent::Stop => self.stops += 1,
            JdkEvent::TimeOut(_) => self.time_outs += 1,
        }
    }
}

/// How many jobs wait and run, and how many workers there are.
#[derive(Clone, Copy, Default)]
pub struct Load {
    /// The jobs in the queue.
    pub waiting: usize,
    /// The jobs that a worker runs.
    pub running: usize,
    /// The workers, busy and idle.
    pub workers: usize,
}

impl Load {
    /// The greater of each of the numbers.
    pub fn max(self, other: Load) -> Load
        ensures waiting { result.waiting ≡ max self.waiting other.waiting }
        ensures running { result.running ≡ max self.running other.running }
        ensures workers { result.workers ≡ max self.workers other.workers }
    {
        Load {
            waiting: self.waiting.max(other.waiting),
            running: self.running.max(other.running),
            workers: self.workers.max(other.workers),
        }
    }

    // How an event changes a load.
    fn moved(self, event: JdkEvent) -> Load
        requires { MayMove self event }
        ensures { IsMoved self event result }
    {
        let mut load = self;
        match event {
            JdkEvent::Submit { reply, .. } => match reply {
                JdkReply::Core | JdkReply::Extra => {
                    load.running += 1;
                    load.workers += 1;
                }
                JdkReply::First => {
                    load.waiting += 1;
                    load.workers += 1;
                }
                JdkReply::Queued => load.waiting += 1,
                JdkReply::Handed => load.running += 1,
                JdkReply::Full | JdkReply::Closed => {}
            },
            JdkEvent::Take(_) => {
                load.waiting -= 1;
                load.running += 1;
            }
            JdkEvent::Finish(_) => load.running -= 1,
            JdkEvent::Remove(_) => load.waiting -= 1,
            JdkEvent::Start => load.workers += 1,
            JdkEvent::IdleEnd | JdkEvent::Cull => load.workers -= 1,
            JdkEvent::Close | JdkEvent::Resized { .. } | JdkEvent::Stop | JdkEvent::TimeOut(_) => {}
        }
        load
    }

    /// The load after one more event of a legal history.
    pub fn after(self, event: JdkEvent) -> Load
        requires { MayCome self event }
        ensures { (limits : Sizes) (history : List JdkEvent) → IsLegal limits (history ++ event ∷ []) → IsJdkLoadAfter history self → IsJdkLoadAfter (history ++ event ∷ []) result }
    {
        self.moved(event)
    }

    /// How many workers run no job.
    pub(crate) fn idle(self) -> usize
        ensures number { result ≡ self.workers - self.running }
        ensures after { (history : List JdkEvent) → IsJdkLoadAfter history self → result ≡ idle history }
    {
        self.workers.saturating_sub(self.running)
    }
}

/// What one caller submitted.
///
/// ```
/// for (caller, numbers) in stats.callers.iter() {
///     println!(rt; "caller {caller}: {} of {} refused", numbers.refused, numbers.submissions)?;
/// }
/// ```
#[derive(Clone, Copy, Default)]
pub struct CallerStats {
    /// Its submissions, refused ones too.
    pub submissions: usize,
    /// Its jobs that were accepted.
    pub accepted: usize,
    /// Its submissions that were refused, since the pool was full or closed.
    pub refused: usize,
}

impl CallerStats {
    // The numbers with one more submission, which is accepted or refused.
    fn with_submission(self, is_accepted: bool) -> CallerStats
        requires { HasRoomFor self }
        ensures { result ≡ with_submission self is_accepted }
    {
        let mut more = self;
        more.submissions += 1;
        if is_accepted {
            more.accepted += 1;
        } else {
            more.refused += 1;
        }
        more
    }
}

/// The numbers of a history, up to its first illegal event.
///
/// ```
/// let stats = count_jdk(alloc, Verdict::Legal, 0, &history)?;
/// println!(rt; "{} refused, {} while a worker was idle", stats.answers.full, stats.answers.refused_idle)?;
/// ```
#[derive(Drop)]
pub struct JdkStats {
    /// What the submissions were answered.
    pub answers: JdkAnswers,
    /// How often each other event happened.
    pub counts: JdkCounts,
    /// The greatest of each number over all moments, the one before the first event too.
    pub most: Load,
    /// The jobs that were accepted, and that no worker ran.
    pub never_started: usize,
    /// What each caller submitted, for the callers that did, by their number.
    pub callers: BTreeMap<u16, CallerStats>,
    /// Whether the history is legal and, if not, where its first illegal event is.
    pub verdict: Verdict,
}

// How often each event happened that isn't a submission.
fn counts_of(events: &[JdkEvent]) -> JdkCounts
    ensures { AreJdkCountsOf events.now result }
{
    let mut counts = JdkCounts::default();
    for event in events {
        counts.record(*event);
    }
    counts
}

// The greatest load over all moments, and the last one.
#[derive(Clone, Copy)]
struct Levels {
    most: Load,
    last: Load,
}

// The loads of legal events.
fn levels_of(events: &[JdkEvent]) -> Levels
    requires { (limits : Sizes) × IsLegal limits events.now }
    ensures most { AreJdkMost events.now result.most }
    ensures last { IsJdkLoadAfter events.now result.last }
{
    let mut most = Load::default();
    let mut last = Load::default();
    for event in events {
        last = last.after(*event);
        most = most.max(last);
    }
    Levels { most, last }
}

// What events were answered that follow others.
fn answers_of(before: &[JdkEvent], events: &[JdkEvent]) -> JdkAnswers
    requires legal { (limits : Sizes) × IsLegal limits (before.now ++ events.now) }
    requires short { length before.now + length events.now < 2 ^ 64 }
    ensures { AreAnswersOf before.now events.now result }
{
    let mut load = levels_of(before).last;
    let mut answers = JdkAnswers::default();
    for event in events {
        answers.record(*event, load.idle() > 0);
        load = load.after(*event);
    }
    answers
}

// Whether a job is accepted by a reply.
fn is_accepting(reply: JdkReply) -> bool
    ensures { result ≡ is_accepting reply }
{
    !matches!(reply, JdkReply::Full | JdkReply::Closed)
}

// Counts one more event for its caller, if it is a submission. Errors, with nothing counted: `AllocError` when out of memory.
fn record_caller(
    callers: &mut BTreeMap<u16, CallerStats>,
    event: JdkEvent,
) -> Result<(), AllocError>
    requires room { (history : List JdkEvent) × AreJdkCallersOf history callers.old × (length history + 1 < 2 ^ 64) }
    requires ordered { IsOrdered nat_cmp callers.old }
    ensures counted { OnOk result ((history : List JdkEvent) → AreJdkCallersOf history callers.old → AreJdkCallersOf (history ++ event ∷ []) callers.new) }
    ensures ordered { IsOrdered nat_cmp callers.new }
{
    let JdkEvent::Submit { id, reply } = event else {
        return Ok(());
    };
    let nothing = CallerStats::default();
    let before = callers.get(&id.caller).copied().unwrap_or(nothing);
    callers.insert(id.caller, before.with_submission(is_accepting(reply)))?;
    Ok(())
}

// What each caller submitted. Errors: `AllocError` when out of memory.
fn callers_of(alloc: Global, events: &[JdkEvent]) -> Result<BTreeMap<u16, CallerStats>, AllocError>
    ensures callers { IfOk result (AreJdkCallersOf events.now) }
    ensures ordered { IfOk result (IsOrdered nat_cmp) }
{
    let mut callers = BTreeMap::new(alloc);
    for event in events {
        record_caller(&mut callers, *event)?;
    }
    Ok(callers)
}

/// The numbers of events that are legal by the whole rule: those before the first illegal one of a history with this verdict. The
/// first `restated` events restate the state in which the record begins.
///
/// # Errors
///
/// `AllocError` when out of memory.
pub fn count_jdk(
    alloc: Global,
    verdict: Verdict,
    restated: usize,
    events: &[JdkEvent],
) -> Result<JdkStats, AllocError>
    requires { (limits : Sizes) × IsLegal limits events.now }
    ensures numbers { IfOk result (AreJdkStatsOf restated events.now) }
    ensures verdict { IfOk result (λ stats. stats.verdict ≡ verdict) }
{
    let first = restated.min(events.len());
    let (before, counted) = (&events[..first], &events[first..]);
    let callers = callers_of(alloc, counted)?;
    let answers = answers_of(before, counted);
    let counts = counts_of(events);
    let Levels { most, last } = levels_of(events);
    Ok(JdkStats {
        answers,
        counts,
        most,
        never_started: last.waiting + counts.removed,
        callers,
        verdict,
    })
}
