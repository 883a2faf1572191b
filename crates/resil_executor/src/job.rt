//! A job that was picked: it is run once, and then ended once.
ghost use Rattle.std.specs.Prelude.{◌≡◌};

use resil_rule::{Id, Slot};
use resil_task::by_hand::RunOnce;

/// A job that a worker picked, and hasn't run yet.
#[derive(Drop)]
pub struct PickedJob<W> {
    pub(crate) slot: Slot,
    pub(crate) work: W,
}

/// A job that was run, with what its run returned. Only `PickedJob::run` makes one.
#[derive(Drop)]
pub struct RanJob<O> {
    pub(crate) slot: Slot,
    pub(crate) output: O,
}

impl<W> PickedJob<W> {
    /// The name of the submission that it came with.
    pub fn id(&self) -> Id
        ensures { result ≡ self.now.slot.id }
    {
        self.slot.id
    }

    /// Runs it, in one of the worker's contexts.
    pub fn run<C>(self, context: &mut C) -> RanJob<W::Output>
    where
        W: RunOnce<C>,
        ensures slot { result.slot ≡ self.slot }
        ensures ran { W.HasRun context.old self.work result.output context.new }
    {
        let PickedJob { slot, work } = self;
        let output = work.run(context);
        RanJob { slot, output }
    }
}
