//! What the rule of admission answers to the last event of a list, after it has carried out those before it.

use super::{AdmitError, Event, Id, Limits, Reply, Rule};
use std::alloc::Global;

/// What the rule answers to an event that it doesn't carry out.
#[derive(Clone, Copy)]
pub enum Answer {
    /// The submission gets this reply.
    Reply(Reply),
    /// The number of this caller's next submission.
    Next(u16, u64),
    /// The job at the front of the queue.
    Front(Id),
    /// No job waits in the queue.
    NoneWaits,
    /// A job waits in the queue.
    OneWaits,
    /// No worker is idle.
    NoneIdle,
    /// The pool is open, and has no more workers than its core size.
    NoneSpare,
    /// No job with that id is out.
    NotOut,
    /// The pool is closed already.
    Closed,
    /// The core size of a resize is out of its range.
    CoreOutOfRange,
    /// The core size that a resize asks for, and the largest maximum size that a resize may set.
    Greatest(u32, u32),
}

// The event as the rule would have it. A row of a `replay` has no reply, and doesn't name the job that is taken.
fn filled_in(rule: &Rule<()>, event: Event) -> Event {
    match event {
        Event::Submit { id, reply: _ } => Event::Submit {
            id,
            reply: rule.next_reply(),
        },
        Event::Take(id) => Event::Take(rule.front().unwrap_or(id)),
        other => other,
    }
}

/// Says why an event isn't carried out.
pub fn answer_to(rule: &Rule<()>, event: Event) -> Answer {
    match event {
        Event::Submit { id, reply: _ } if rule.is_next(id) => Answer::Reply(rule.next_reply()),
        Event::Submit { id, reply: _ } => {
            Answer::Next(id.caller, rule.submissions(id.caller).saturating_add(1))
        }
        Event::Take(_) => match rule.front() {
            None => Answer::NoneWaits,
            Some(front) if rule.has_idle_worker() => Answer::Front(front),
            Some(_) => Answer::NoneIdle,
        },
        Event::Finish(_) => Answer::NotOut,
        Event::IdleEnd if rule.waiting() > 0 => Answer::OneWaits,
        Event::IdleEnd if rule.has_idle_worker() => Answer::NoneSpare,
        Event::IdleEnd => Answer::NoneIdle,
        Event::Close => Answer::Closed,
        Event::Resized { core, max } => match rule.check_sizes(core, max) {
            Err(AdmitError::CoreOutOfRange) => Answer::CoreOutOfRange,
            _ => Answer::Greatest(core, rule.limits().max()),
        },
    }
}

/// A rule of these limits that has carried out all events but the last, and that last event. `None` if there are no events or if out of memory.
pub fn rule_at_last(alloc: Global, limits: Limits, events: &[Event]) -> Option<(Rule<()>, Event)> {
    let (last, before) = events.split_last()?;
    let mut rule = Rule::new(alloc, limits.into(), 0).ok()?;
    for event in before {
        let event = filled_in(&rule, *event);
        rule.follow(event).ok()?;
    }
    Some((rule, *last))
}

/// What a pool of these limits answers to the last event of a list, after it has carried out those before it. `None` if there
/// are no events or if out of memory.
pub fn answer_to_last(alloc: Global, limits: Limits, events: &[Event]) -> Option<Answer> {
    let (rule, event) = rule_at_last(alloc, limits, events)?;
    Some(answer_to(&rule, event))
}
