//! The audit of a history: whether it is legal, and if not, the first event that isn't.
//!
//! An audit compares each event with the state that a rule has after the events before it. The jobs of that
//! rule carry no work. A job with its own worker is picked at once, so all jobs that run are out. The events
//! before the current one are always legal, so the first event that may not follow them is the first illegal
//! one. The audit is one pass. For each event it looks at most through the places of the jobs that are out,
//! as many as the maximum size. The first submission of a new caller allocates the room to count that caller.

ghost use Rattle.std.specs.Prelude.{◌≡◌, ◌<◌, [], suc, length, IfOk, IfErr};
ghost use Rattle.std.specs.Bool.{OnTrue, OnFalse};
ghost use Rattle.resil_rule.specs.RuleView.{made_by, next_reply};
ghost use Rattle.resil_rule.specs.RuleState.{Follows};
ghost use Rattle.resil_rule.specs.Verdict.{IsVerdict, VerdictsAreOne, IsBarred};

use super::{AdmitError, Event, Id, Limits, Reply, Rule, Sizes};
use std::alloc::Global;

/// The verdict of an audit.
///
/// ```
/// match audit(alloc, &limits, &history)? {
///     Verdict::Legal => println!(rt; "legal")?,
///     Verdict::FirstIllegal(position) => println!(rt; "event {position} isn't allowed")?,
/// }
/// ```
#[derive(Clone, Copy, Debug, PartialEq, Eq)]
pub enum Verdict {
    /// Each event was allowed after those before it.
    Legal,
    /// The event at this position, counted from 1, is the first that wasn't allowed.
    FirstIllegal(usize),
}

/// Whether a history is legal under these limits, and if it isn't, which event is the first that may not
/// follow those before it (ThreadPoolExecutor class documentation).
///
/// # Errors
///
/// `Memory` if out of memory.
///
/// ```
/// let limits = Limits::new(1, 1, 1)?;
/// let verdict = audit(alloc, &limits, &[Event::Close, Event::Close])?;
/// assert_eq!(rt; verdict, Verdict::FirstIllegal(2));
/// ```
pub fn audit(alloc: Global, limits: &Limits, history: &[Event]) -> Result<Verdict, AdmitError>
    ensures verdict { IfOk result (IsVerdict limits.now history.now) }
    ensures memory { IfErr result (λ e. e ≡ AdmitError.Memory) }
{
    let sizes = Sizes::from(*limits);
    audit_by(alloc, &sizes, history)
}

/// The same for `Sizes`, which all `Limits` are too.
///
/// # Errors
///
/// `Memory` if out of memory.
///
/// ```
/// let sizes = Sizes::new(200, 400, 100)?;
/// let verdict = audit_by(alloc, &sizes, &[Event::Close, Event::Close])?;
/// assert_eq!(rt; verdict, Verdict::FirstIllegal(2));
/// ```
#[tactic(auto, using(crate::proofs::VerdictLaws::state_next))]
pub fn audit_by(alloc: Global, sizes: &Sizes, history: &[Event]) -> Result<Verdict, AdmitError>
    ensures verdict { IfOk result (IsVerdict sizes.now history.now) }
    ensures memory { IfErr result (λ e. e ≡ AdmitError.Memory) }
{
    let mut rule = Rule::new(alloc, *sizes, 0)?;
    for (index, event) in history.iter().enumerate() {
        if !rule.follow(*event)? {
            return Ok(Verdict::FirstIllegal(index + 1));
        }
    }
    Ok(Verdict::Legal)
}

/// The law of verdicts: a history has at most one. So an audit answers `Legal` exactly if the history is
/// legal, and a position exactly if the first illegal event is there.
#[tactic(auto, using(crate::proofs::VerdictLaws::verdict_unique))]
pub fn verdicts_are_one()
    ensures { VerdictsAreOne }
{}

impl Rule<()> {
    /// Carries out one more event, and returns whether the rule allows it: a submission with the reply that it has, or a take of the job with its id
    /// (ThreadPoolExecutor class documentation). A job with its own worker is picked at once. An event that it doesn't allow changes nothing.
    ///
    /// # Errors
    ///
    /// `Memory`, for a submission only, if out of memory.
    #[tactic(auto, using(crate::proofs::RefusalLaws::barred))]
    pub fn follow(&mut self, event: Event) -> Result<bool, AdmitError>
        requires { self.old.unpicked ≡ [] }
        ensures allowed { IfOk result (λ allowed. OnTrue allowed (Follows self.old event self.new)) }
        ensures refused { IfOk result (λ allowed. OnFalse allowed (IsBarred self.old event)) }
        ensures unchanged { IfOk result (λ allowed. OnFalse allowed (self.new ≡ self.old)) }
        ensures picked { self.new.unpicked ≡ [] }
        ensures limits { self.new.limits ≡ self.old.limits }
        ensures memory { IfErr result (λ e. e ≡ AdmitError.Memory) }
    {
        match event {
            Event::Submit { id, reply } => follow_submission(self, id, reply),
            // No job with its own worker waits to be picked, so a pick takes from the queue.
            Event::Take(id) => Ok(self.front() == Some(id) && self.pick().is_some()),
            Event::Finish(id) => match self.find(id) {
                Some(slot) => Ok(self.finish(slot)),
                None => Ok(false),
            },
            Event::IdleEnd => Ok(self.idle_end()),
            Event::Close => Ok(self.close()),
            Event::Resized { core, max } => Ok(self.resize(core, max).is_ok()),
        }
    }
}

// A submission and its reply.
fn follow_submission(rule: &mut Rule<()>, id: Id, reply: Reply) -> Result<bool, AdmitError>
    requires { rule.old.unpicked ≡ [] }
    ensures allowed { IfOk result (λ allowed. OnTrue allowed (Follows rule.old (Event.Submit id reply) rule.new)) }
    ensures refused { IfOk result (λ allowed. OnFalse allowed (IsBarred rule.old (Event.Submit id reply))) }
    ensures unchanged { IfOk result (λ allowed. OnFalse allowed (rule.new ≡ rule.old)) }
    ensures picked { rule.new.unpicked ≡ [] }
    ensures limits { rule.new.limits ≡ rule.old.limits }
    ensures memory { IfErr result (λ e. e ≡ AdmitError.Memory) }
{
    if !rule.is_next(id) || reply != rule.next_reply() {
        return Ok(false);
    }
    rule.reserve_caller(id.caller)?;
    submit_and_pick(rule, id, reply);
    Ok(true)
}

// Submits an id that is known to be its caller's next one, and whose reply is this. A job that gets its own worker is picked at once.
fn submit_and_pick(rule: &mut Rule<()>, id: Id, reply: Reply)
    requires picked { rule.old.unpicked ≡ [] }
    requires known { id.caller < length rule.old.made }
    requires next { id.number ≡ suc (made_by rule.old id.caller) }
    requires answer { reply ≡ next_reply rule.old }
    ensures follows { Follows rule.old (Event.Submit id reply) rule.new }
    ensures picked { rule.new.unpicked ≡ [] }
    ensures limits { rule.new.limits ≡ rule.old.limits }
{
    rule.submit_with_reply(id, (), reply);
    if rule.unpicked() > 0 {
        rule.pick();
    }
}
