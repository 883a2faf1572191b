//! A history of `resil_rule`'s rule in the words of the whole rule.

ghost use Rattle.std.specs.Prelude.{◌≡◌, IfOk};
ghost use Rattle.resil_jdk.specs.FromRule.{jdk_event, jdk_history, jdk_reply};

use super::{JdkEvent, JdkReply};
use resil_rule::{Event, Reply};
use std::alloc::{AllocError, Global};

// The same reply.
fn jdk_reply(reply: Reply) -> JdkReply
    ensures { result ≡ jdk_reply reply }
{
    match reply {
        Reply::Core => JdkReply::Core,
        Reply::Queued => JdkReply::Queued,
        Reply::Extra => JdkReply::Extra,
        Reply::Full => JdkReply::Full,
        Reply::Closed => JdkReply::Closed,
    }
}

/// The same event.
pub fn jdk_event(event: Event) -> JdkEvent
    ensures { result ≡ jdk_event event }
{
    match event {
        Event::Submit { id, reply } => JdkEvent::Submit {
            id,
            reply: jdk_reply(reply),
        },
        Event::Take(id) => JdkEvent::Take(id),
        Event::Finish(id) => JdkEvent::Finish(id),
        Event::IdleEnd => JdkEvent::IdleEnd,
        Event::Close => JdkEvent::Close,
        Event::Resized { core, max } => JdkEvent::Resized { core, max },
    }
}

/// The same events, one for one.
///
/// # Errors
///
/// `AllocError` when out of memory.
pub fn jdk_history(alloc: Global, history: &[Event]) -> Result<Vec<JdkEvent>, AllocError>
    ensures { IfOk result (λ events. events.items ≡ jdk_history history.now) }
{
    history.iter().map(|event| jdk_event(*event)).collect(alloc)
}
