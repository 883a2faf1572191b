//! The text of the history of a load: in version 3 if the rule of `audit` has words for the pool, else in version 4.

ghost use Rattle.std.specs.Prelude.{◌≡◌, IfOk};
ghost use Rattle.resil_simulate.specs.Version.{own_event, own_reply, own_timed, in_own_words, has_own_sizes, version_text};

use crate::head::Ways;
use resil_jdk::{JdkEvent, JdkLimits, JdkReply, TimedJdkEvent};
use resil_record::text::record_text;
use resil_replay::timed::timed_text;
use resil_rule::{Event, Limits, Reply, Timed};
use std::alloc::{AllocError, Global};

// A reply that version 3 has a word for.
fn own_reply(reply: JdkReply) -> Option<Reply>
    ensures { result ≡ own_reply reply }
{
    match reply {
        JdkReply::Core => Some(Reply::Core),
        JdkReply::Queued => Some(Reply::Queued),
        JdkReply::Extra => Some(Reply::Extra),
        JdkReply::Full => Some(Reply::Full),
        JdkReply::Closed => Some(Reply::Closed),
        JdkReply::First | JdkReply::Handed => None,
    }
}

// An event that version 3 has a word for.
fn own_event(event: JdkEvent) -> Option<Event>
    ensures { result ≡ own_event event }
{
    match event {
        JdkEvent::Submit { id, reply } => match own_reply(reply) {
            Some(reply) => Some(Event::Submit { id, reply }),
            None => None,
        },
        JdkEvent::Take(id) => Some(Event::Take(id)),
        JdkEvent::Finish(id) => Some(Event::Finish(id)),
        JdkEvent::IdleEnd => Some(Event::IdleEnd),
        JdkEvent::Close => Some(Event::Close),
        JdkEvent::Resized { core, max } => Some(Event::Resized { core, max }),
        _ => None,
    }
}

fn own_timed(timed: TimedJdkEvent) -> Option<Timed>
    ensures { result ≡ own_timed timed }
{
    let event = own_event(timed.event)?;
    Some(Timed {
        event,
        at: timed.at,
    })
}

// The events that version 3 has words for. Errors: `AllocError` when out of memory.
fn in_own_words(alloc: Global, history: &[TimedJdkEvent]) -> Result<Vec<Timed>, AllocError>
    ensures { IfOk result (λ own. own.items ≡ in_own_words history.now) }
{
    let mut own = Vec::new(alloc);
    for timed in history {
        let Some(timed) = own_timed(*timed) else {
            continue;
        };
        own.push(timed)?;
    }
    Ok(own)
}

// Whether the rule of `audit` takes the sizes of a pool.
fn has_own_sizes(limits: JdkLimits) -> bool
    ensures { result ≡ has_own_sizes limits }
{
    let (core, max, queue) = (limits.core(), limits.max(), limits.queue());
    1 <= core && max <= Limits::MAX_WORKERS && 1 <= queue && queue <= Limits::MAX_WAITING
}

/// The text of a history of a pool of these sizes: in version 3, or in version 4 if the rule of `audit` doesn't take the sizes, or if core
/// workers time out.
///
/// # Errors
///
/// `AllocError` when out of memory.
pub fn version_text(
    alloc: Global,
    limits: JdkLimits,
    ways: Ways,
    history: &[TimedJdkEvent],
) -> Result<Vec<u8>, AllocError>
    ensures { IfOk result (λ text. text.items ≡ version_text limits ways history.now) }
{
    if ways.time_out || !has_own_sizes(limits) {
        return record_text(alloc, history);
    }
    let own = in_own_words(alloc, history)?;
    timed_text(alloc, &own)
}
