//! The audit of a history by the whole rule: whether it is legal, and where its first illegal event is.
//!
//! Each event is checked against the rule's state after the events before it. These are legal at every moment, so the first
//! event that may not follow them is the first illegal one. It is one pass, and an event takes the same time for any sizes
//! and any number of jobs in the pool, except for the growth of a table.

ghost use Rattle.std.specs.Prelude.{◌≡◌, IfOk, IfErr};
ghost use Rattle.resil_jdk.specs.Verdict.{IsVerdict, VerdictsAreOne};

use super::{JdkError, JdkEvent, JdkLimits, JdkRule};
use resil_rule::Verdict;
use std::alloc::Global;

/// Whether a history is legal under these limits, and if it isn't, which event is the first that may not follow those before
/// it (ThreadPoolExecutor class documentation).
///
/// # Errors
///
/// `Memory` when out of memory.
///
/// A cached pool has core size 0 and no queue. It hands a job to an idle worker if there is one:
///
/// ```
/// let limits = JdkLimits::new(0, JdkLimits::MAX_WORKERS, 0)?;
/// let first = Id { caller: 1, number: 1 };
/// let second = Id { caller: 1, number: 2 };
/// let mut history = vec![in alloc;
///     JdkEvent::Submit { id: first, reply: JdkReply::Extra },
///     JdkEvent::Finish(first),
///     JdkEvent::Submit { id: second, reply: JdkReply::Handed },
/// ]?;
/// assert_eq!(rt; audit(alloc, &limits, &history)?, Verdict::Legal);
/// // The one worker is busy, so nobody is idle.
/// let third = Id { caller: 1, number: 3 };
/// history.push(JdkEvent::Submit { id: third, reply: JdkReply::Handed })?;
/// assert_eq!(rt; audit(alloc, &limits, &history)?, Verdict::FirstIllegal(4));
/// ```
#[tactic(auto, using(crate::proofs::VerdictLaws::state_next))]
pub fn audit(alloc: Global, limits: &JdkLimits, history: &[JdkEvent]) -> Result<Verdict, JdkError>
    ensures verdict { IfOk result (IsVerdict limits.now history.now) }
    ensures memory { IfErr result (λ e. e ≡ JdkError.Memory) }
{
    let mut rule = JdkRule::new(alloc, *limits);
    for (index, event) in history.iter().enumerate() {
        if !rule.follow(*event)? {
            return Ok(Verdict::FirstIllegal(index + 1));
        }
    }
    Ok(Verdict::Legal)
}

/// The law of verdicts: a history has at most one. So an audit answers `Legal` exactly if the history is legal, and a
/// position exactly if the first illegal event is there.
#[tactic(auto, using(crate::proofs::VerdictLaws::verdict_unique))]
pub fn verdicts_are_one()
    ensures { VerdictsAreOne }
{}
