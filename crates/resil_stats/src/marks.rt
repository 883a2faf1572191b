//! What is marked in a chart: each refusal, each worker that begins without a job or ends though jobs may wait, each removal, and
//! what is done to the pool.

ghost use Rattle.std.specs.Prelude.{◌≡◌, IfOk};
ghost use Rattle.resil_stats.specs.Marks.{mark_at, marks_in, sign_at};

use resil_jdk::{JdkEvent, JdkReply};
use resil_rule::Id;
use std::alloc::{AllocError, Global};

/// What a mark stands for.
#[derive(Clone, Copy)]
pub enum Sign {
    /// The job was refused, since the pool was full.
    Full(Id),
    /// The job was refused, since the pool was closed.
    Closed(Id),
    /// A worker began without a job.
    Started,
    /// A worker without a job ended, though jobs might wait.
    Culled,
    /// The job left the queue, and no worker has it.
    Removed(Id),
    /// The pool was closed.
    Closing,
    /// The pool was stopped.
    Stopping,
    /// The sizes of the pool were changed to these.
    Resized { core: u32, max: u32 },
    /// From here on core workers time out, or no longer do.
    TimeOut(bool),
}

/// A mark, and its place.
#[derive(Clone, Copy)]
pub struct Mark {
    /// The place of its event in the history, from 1.
    pub at: usize,
    /// What it stands for.
    pub sign: Sign,
}

// What an event is marked by, if it is.
fn sign_at(event: JdkEvent) -> Option<Sign>
    ensures { result ≡ sign_at event }
{
    match event {
        JdkEvent::Submit { id, reply } => match reply {
            JdkReply::Full => Some(Sign::Full(id)),
            JdkReply::Closed => Some(Sign::Closed(id)),
            _ => None,
        },
        JdkEvent::Start => Some(Sign::Started),
        JdkEvent::Cull => Some(Sign::Culled),
        JdkEvent::Remove(id) => Some(Sign::Removed(id)),
        JdkEvent::Close => Some(Sign::Closing),
        JdkEvent::Stop => Some(Sign::Stopping),
        JdkEvent::Resized { core, max } => Some(Sign::Resized { core, max }),
        JdkEvent::TimeOut(is_on) => Some(Sign::TimeOut(is_on)),
        JdkEvent::Take(_) | JdkEvent::Finish(_) | JdkEvent::IdleEnd => None,
    }
}

// The mark of an event at a place, if it has one.
fn mark_at(at: usize, event: JdkEvent) -> Option<Mark>
    ensures { result ≡ mark_at (at, event) }
{
    let sign = sign_at(event)?;
    Some(Mark { at, sign })
}

/// The marks of events, in their order.
/// Errors: `AllocError` when out of memory.
#[tactic(auto, using(crate::proofs::PlaceLaws::made_none, crate::proofs::PlaceLaws::made_one))]
pub(crate) fn marks_of(alloc: Global, events: &[JdkEvent]) -> Result<Vec<Mark>, AllocError>
    ensures { IfOk result (λ marked. marked.items ≡ marks_in events.now) }
{
    let mut marked = Vec::new(alloc);
    for (index, event) in events.iter().enumerate() {
        let Some(mark) = mark_at(index + 1, *event) else {
            continue;
        };
        marked.push(mark)?;
    }
    Ok(marked)
}
