//! Whether a history is legal in some pool of the JDK, of any sizes.
//!
//! Some events need sizes that aren't less: room for one more worker if one begins, a place in the queue if a job is put there, and one if
//! no idle worker gets a job at once. Everything else that the rule says of sizes also holds for smaller ones. So a history that is legal
//! in some pool is also legal in a pool of the least sizes that it needs, and one audit decides it.

ghost use Rattle.std.specs.Prelude.{◌≡◌, ◌↔◌, ◌≤◌, ◌++◌, ◌∷◌, [], List, IfNone, IfOk, IfSome, IsTrue, MatchOption, max, take};
ghost use Rattle.resil_rule.specs.Limits.{Sizes};
ghost use Rattle.resil_jdk.specs.Admission.{IsLegal};
ghost use Rattle.resil_jdk.specs.Limits.{AreJdkLimits};
ghost use Rattle.resil_jdk.specs.declared.event.JdkEvent.{JdkEvent};
ghost use Rattle.resil_simulate.specs.Legality.{AreEnough, AreTallied, IsAsked, IsIllegalAt, IsLegalSomewhere, MayBeTallied, asked_at, no_hand_off, one_more, one_place};

use resil_jdk::{JdkEvent, JdkLimits, JdkReply, audit};
use resil_rule::Verdict;
use std::alloc::{AllocError, Global};

// The sizes that events need, at least.
#[derive(Clone, Copy)]
struct AskedSizes {
    core: usize,
    max: usize,
    queue: usize,
}

impl AskedSizes {
    // The sizes of an event that needs none.
    const NONE: AskedSizes = AskedSizes {
        core: 0,
        max: 1,
        queue: 0,
    };

    // The greater of each.
    fn max(self, other: AskedSizes) -> AskedSizes
        ensures core { result.core ≡ max self.core other.core }
        ensures max { result.max ≡ max self.max other.max }
        ensures queue { result.queue ≡ max self.queue other.queue }
    {
        AskedSizes {
            core: self.core.max(other.core),
            max: self.max.max(other.max),
            queue: self.queue.max(other.queue),
        }
    }
}

// How often workers begin and end, jobs are queued, leave the queue, come to a worker and are finished, and sizes are set.
#[derive(Clone, Copy, Default)]
struct Tally {
    begun: usize,
    ended: usize,
    queued: usize,
    left: usize,
    at_once: usize,
    taken: usize,
    finished: usize,
    resizes: usize,
}

impl Tally {
    // Counts one more event.
    #[tactic(auto, using(resil_stats::proofs::CountLaws::filter_few, resil_stats::proofs::CountLaws::filter_more, resil_stats::proofs::CountLaws::made_few, resil_stats::proofs::CountLaws::made_more))]
    fn record(&mut self, event: JdkEvent)
        requires { MayBeTallied self.old }
        ensures { (history : List JdkEvent) → AreTallied history self.old → AreTallied (history ++ event ∷ []) self.new }
    {
        match event {
            JdkEvent::Submit { reply, .. } => match reply {
                JdkReply::Core | JdkReply::Extra => {
                    self.begun += 1;
                    self.at_once += 1;
                }
                JdkReply::First => {
                    self.begun += 1;
                    self.queued += 1;
                }
                JdkReply::Queued => self.queued += 1,
                JdkReply::Handed => self.at_once += 1,
                JdkReply::Full | JdkReply::Closed => {}
            },
            JdkEvent::Take(_) => {
                self.left += 1;
                self.taken += 1;
            }
            JdkEvent::Finish(_) => self.finished += 1,
            JdkEvent::Remove(_) => self.left += 1,
            JdkEvent::Start => self.begun += 1,
            JdkEvent::IdleEnd | JdkEvent::Cull => self.ended += 1,
            JdkEvent::Resized { .. } => self.resizes += 1,
            JdkEvent::Close | JdkEvent::Stop | JdkEvent::TimeOut(_) => {}
        }
    }
}

// One more worker than there are after events of this tally, 0 if they have a resize.
#[tactic(auto, using(resil_stats::proofs::CountLaws::filter_few))]
fn one_more(before: &Tally) -> usize
    requires { MayBeTallied before.now }
    ensures { (history : List JdkEvent) → AreTallied history before.now → result ≡ one_more history }
{
    if before.resizes != 0 {
        return 0;
    }
    before.begun.saturating_sub(before.ended) + 1
}

// One more place than jobs wait after events of this tally.
#[tactic(auto, using(resil_stats::proofs::CountLaws::made_few))]
fn one_place(before: &Tally) -> usize
    requires { MayBeTallied before.now }
    ensures { (history : List JdkEvent) → AreTallied history before.now → result ≡ one_place history }
{
    before.queued.saturating_sub(before.left) + 1
}

// One place if a worker is idle after events of this tally.
fn no_hand_off(before: &Tally) -> usize
    ensures { (history : List JdkEvent) → AreTallied history before.now → result ≡ no_hand_off history }
{
    let busy = before.at_once as u128 + before.taken as u128 + before.ended as u128;
    usize::from(busy < before.finished as u128 + before.begun as u128)
}

// What an event needs after events of this tally.
fn asked_at(before: &Tally, event: JdkEvent) -> AskedSizes
    requires { MayBeTallied before.now }
    ensures { (history : List JdkEvent) → AreTallied history before.now → result ≡ asked_at history event }
{
    match event {
        JdkEvent::Submit { reply, .. } => match reply {
            JdkReply::Core => AskedSizes {
                core: one_more(before),
                ..AskedSizes::NONE
            },
            JdkReply::First | JdkReply::Queued => AskedSizes {
                queue: one_place(before),
                ..AskedSizes::NONE
            },
            JdkReply::Extra => AskedSizes {
                core: 0,
                max: one_more(before),
                queue: no_hand_off(before),
            },
            JdkReply::Full => AskedSizes {
                queue: no_hand_off(before),
                ..AskedSizes::NONE
            },
            JdkReply::Handed | JdkReply::Closed => AskedSizes::NONE,
        },
        JdkEvent::Start => AskedSizes {
            core: one_more(before),
            ..AskedSizes::NONE
        },
        JdkEvent::Resized { max, .. } => AskedSizes {
            max: max as usize,
            ..AskedSizes::NONE
        },
        JdkEvent::Take(_)
        | JdkEvent::Finish(_)
        | JdkEvent::IdleEnd
        | JdkEvent::Close
        | JdkEvent::Cull
        | JdkEvent::Remove(_)
        | JdkEvent::Stop
        | JdkEvent::TimeOut(_) => AskedSizes::NONE,
    }
}

// What events need.
fn asked_by(events: &[JdkEvent]) -> AskedSizes
    ensures some { 1 ≤ result.max }
    ensures most { IsAsked [] events.now result }
    ensures least { (limits : Sizes) → AreJdkLimits limits → IsLegal limits events.now → AreEnough result limits }
{
    let mut tally = Tally::default();
    let mut most = AskedSizes::NONE;
    for event in events {
        most = most.max(asked_at(&tally, *event));
        tally.record(*event);
    }
    most
}

// The limits of these sizes, the maximum size no less than the core size, or `None` if no pool has sizes that large.
fn limits_of(least: AskedSizes) -> Option<JdkLimits>
    requires { 1 ≤ least.max }
    ensures sizes { IfSome result (λ limits. limits ≡ record { core = least.core; max = max least.max least.core; queue = least.queue }) }
    ensures in_range { IfSome result AreJdkLimits }
    ensures none { IfNone result ((limits : Sizes) → AreJdkLimits limits → ¬ AreEnough least limits) }
{
    let core = u32::try_from(least.core).ok()?;
    let max = u32::try_from(least.max).ok()?;
    let queue = u32::try_from(least.queue).ok()?;
    match JdkLimits::new(core, max.max(core), queue) {
        Ok(limits) => Some(limits),
        Err(_) => None,
    }
}

// The least sizes of a pool that could have these events, or `None` if there is no such pool.
fn least_limits(events: &[JdkEvent]) -> Option<JdkLimits>
    ensures legal { IfSome result (λ least. AreJdkLimits least × ((limits : Sizes) → AreJdkLimits limits → IsLegal limits events.now → IsLegal least events.now)) }
    ensures none { IfNone result (¬ IsLegalSomewhere events.now) }
{
    let least = asked_by(events);
    let limits = limits_of(least)?;
    Some(limits)
}

// Whether events are legal in some pool. Errors: `AllocError` when out of memory.
fn is_legal(alloc: Global, events: &[JdkEvent]) -> Result<bool, AllocError>
    ensures { IfOk result (λ is. IsTrue is ↔ IsLegalSomewhere events.now) }
{
    let Some(limits) = least_limits(events) else {
        return Ok(false);
    };
    match audit(alloc, &limits, events) {
        Ok(Verdict::Legal) => Ok(true),
        Ok(Verdict::FirstIllegal(_)) => Ok(false),
        // The only error of an audit is that it is out of memory.
        Err(_) => Err(AllocError),
    }
}

/// The position, from 1, of the first event up to which a history is legal in no pool, or `None` if it is legal in some pool. This is a
/// binary search.
///
/// # Errors
///
/// `AllocError` when out of memory.
pub fn first_illegal(alloc: Global, events: &[JdkEvent]) -> Result<Option<usize>, AllocError>
    ensures { IfOk result (λ first. MatchOption first (IsLegalSomewhere events.now) (IsIllegalAt events.now)) }
{
    if is_legal(alloc, events)? {
        return Ok(None);
    }
    let mut legal = 0;
    let mut illegal = events.len();
    while legal + 1 < illegal {
        let half = legal + (illegal - legal) / 2;
        if is_legal(alloc, &events[..half])? {
            legal = half;
        } else {
            illegal = half;
        }
    }
    Ok(Some(illegal))
}
