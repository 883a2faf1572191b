//! What a worker calls before and after each job that it runs. A hook never changes what a pool does.

use resil_admission::Id;

/// Functions that a worker calls around each job, while it doesn't hold the lock.
///
/// ```
/// impl Hook for Counts {
///     fn before(&self, _id: Id) {
///         self.begun.fetch_add(1, Ordering::SeqCst);
///     }
///
///     fn after(&self, _id: Id) {
///         self.ended.fetch_add(1, Ordering::SeqCst);
///     }
/// }
/// ```
pub trait Hook {
    /// Called before a job runs. The job was picked: if it waited in the queue, its take is in the history. The
    /// worker doesn't hold the lock, so a hook may submit jobs with a caller of its own: they come after that take.
    fn before(&self, id: Id);

    /// Called after the pool has accepted the end of its run: its finish is in the history, and so before any
    /// submission that the hook makes. Until the hook returns, this worker polls for no job; another one may poll up
    /// to 64 ms later for a job that the finish made available.
    fn after(&self, id: Id);
}

/// Does nothing before or after a job.
///
/// ```
/// pool.close(&rt, &mut closer);
/// let end = pool.work(&rt, worker, &mut no_bulkheads, &NoHook);
/// ```
#[derive(Clone, Copy, PartialEq, Eq, Debug)]
pub struct NoHook;

impl Hook for NoHook {
    fn before(&self, _id: Id) {}

    fn after(&self, _id: Id) {}
}
