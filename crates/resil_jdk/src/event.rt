//! The events of a pool that goes by the whole rule. A history is a list of them, oldest first.

use resil_rule::Id;

/// The answer to a submission (ThreadPoolExecutor class documentation, "Core and maximum pool sizes", "Queuing", "Rejected
/// tasks"; `Closed` apart from `Full` is our own).
///
/// ```
/// let is_refused = matches!(reply, JdkReply::Full | JdkReply::Closed);
/// ```
#[derive(Clone, Copy, Debug, PartialEq, Eq)]
pub enum JdkReply {
    /// A new worker runs the job; there were fewer workers than the core size.
    Core,
    /// The job waits in the queue, and a new worker begins without a job, since there was no worker.
    First,
    /// The job waits in the queue.
    Queued,
    /// An idle worker runs the job; the pool has no queue ("Direct handoffs").
    Handed,
    /// A new worker above the core size runs the job; there was no place in the queue and no idle worker to hand it to.
    Extra,
    /// Refused: as `Extra`, but there are as many workers as the maximum size.
    Full,
    /// Refused: the pool is closed.
    Closed,
}

/// One entry of a history.
///
/// ```
/// for event in &history {
///     if let JdkEvent::Remove(id) = event {
///         println!(rt; "job {} of caller {} never ran", id.number, id.caller)?;
///     }
/// }
/// ```
#[derive(Clone, Copy, Debug, PartialEq, Eq)]
pub enum JdkEvent {
    /// A submission and its answer.
    Submit { id: Id, reply: JdkReply },
    /// A worker took this job from the front of the queue.
    Take(Id),
    /// A worker finished this job.
    Finish(Id),
    /// An idle worker ended; no job waits.
    IdleEnd,
    /// The pool was closed (`shutdown`). Jobs accepted before are still run.
    Close,
    /// The core and maximum sizes, in workers, are these from here on. No worker begins or ends because of it, and the
    /// capacity of the queue stays.
    Resized { core: u32, max: u32 },
    /// A worker began without a job (`prestartCoreThread`, a raised core size).
    Start,
    /// A worker without a job ended though jobs may wait: there were more workers than the maximum size, or the pool is
    /// stopped.
    Cull,
    /// A job left the queue without a worker (`remove`, `purge`, the oldest job that `DiscardOldestPolicy` discards, and
    /// what `shutdownNow` hands back).
    Remove(Id),
    /// The pool was stopped (`shutdownNow`): it is closed, and no job is taken from here on.
    Stop,
    /// Whether idle workers may end below the core size, too, from here on (`allowCoreThreadTimeOut`).
    TimeOut(bool),
}
