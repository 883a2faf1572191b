//! The loop of a worker: one round after the other, until its pool is over.
//!
//! Each pool defines what a round does (`Rounds`): a poll for a job, in one turn, and the run of the job that it found. The
//! loop sleeps after a round that found none, and `Looks` counts such rounds in a row. No clause covers the sleep.
ghost use Rattle.std.specs.Prelude.{ℕ, ◌≡◌, ◌+◌, ◌<◌, ◌≤◌, ◌↔◌, true};
ghost use Rattle.resil_lock.specs.Work.{AfterRounds};

use crate::bell::Sleeper;
use crate::lock::Lock;
use crate::protocol::Guarded;
use std::sync::Wait;

/// The result of one round of a worker.
#[derive(Clone, Copy, Debug, PartialEq, Eq)]
pub enum Round {
    /// It ran a job.
    Ran,
    /// It found none.
    Nothing,
    /// It found none, and there will be none.
    Over,
}

/// The result of a poll for a job.
#[derive(Drop)]
pub enum Look<J> {
    /// A job.
    Found(J),
    /// No job.
    Nothing,
    /// No job, and there will be none.
    Over,
}

/// A worker with all that it needs, which makes one round after the other. Its contracts say what its rounds do.
///
/// ```
/// impl Rounds for AtWork {
///     fn round<R: Wait>(&mut self, _rt: &R, looks: &mut Looks) -> Round {
///         let Some(job) = self.pick(looks.timed_out()) else {
///             return Round::Over;
///         };
///         looks.has_found(&self.lock);
///         self.run(job);
///         Round::Ran
///     }
/// }
/// ```
pub trait Rounds {
    ghost use Rattle.std.specs.Prelude.{◌≡◌};

    /// A round may begin.
    ghost CanGo: { Self → Type 0 } = { λ _. Unit {0} };

    /// One round may lead from the first state to the second.
    ghost HasGone: { Self → Self → Type 0 } = { λ _ _. Unit {0} };

    /// The worker sees that its pool is over.
    ghost IsOver: { Self → Type 0 } = { λ _. Unit {0} };

    /// Polls for a job and runs the one that it finds. If it finds one, it calls `Looks::has_found` before it runs the job.
    fn round<R: Wait>(&mut self, rt: &R, looks: &mut Looks) -> Round
        requires { CanGo self.old }
        ensures can { CanGo self.new }
        ensures gone { HasGone self.old self.new }
        ensures over { result ≡ Round.Over → IsOver self.new };
}

/// How a worker polls for jobs: where it sleeps between two polls, and how many polls in a row may still be empty.
///
/// ```
/// let mut looks = Looks::new(20);
/// if found {
///     looks.has_found(&lock);
/// } else {
///     looks.sleep(&rt, &lock);
/// }
/// ```
#[derive(Drop)]
pub struct Looks {
    sleeper: Sleeper,
    // The worker times out after this many empty polls in a row.
    keep_alive: u32,
    // How many polls are left until then, including the next one.
    left: u32,
}

impl Looks {
    /// The polls of a worker that times out after `keep_alive` empty ones in a row, where 0 means 1.
    pub fn new(keep_alive: u32) -> Looks
        ensures { (result.keep_alive ≡ keep_alive) × (result.left ≡ keep_alive) }
    {
        Looks {
            sleeper: Sleeper::new(),
            keep_alive,
            left: keep_alive,
        }
    }

    /// Whether the worker times out with the next poll, if that one is empty too.
    pub fn timed_out(&self) -> bool
        ensures { (result ≡ true) ↔ (self.now.left ≤ 1) }
    {
        self.left <= 1
    }

    /// The worker has found a job: the count of empty polls begins anew. If it was the worker that searched, another one is
    /// woken, provided there is more to do.
    pub fn has_found<S: Guarded>(&mut self, lock: &Lock<S>)
        ensures keep_alive { self.new.keep_alive ≡ self.old.keep_alive }
        ensures anew { self.new.left ≡ self.old.keep_alive }
    {
        self.sleeper.found(&lock.bell);
        self.left = self.keep_alive;
    }

    /// The worker has found no job. It sleeps until there may be one, for 1 ms at first and for at most 64 ms. After it has
    /// timed out, the count of empty polls begins anew.
    pub fn sleep<S: Guarded, R: Wait>(&mut self, rt: &R, lock: &Lock<S>)
        ensures keep_alive { self.new.keep_alive ≡ self.old.keep_alive }
        ensures anew { self.old.left ≤ 1 → self.new.left ≡ self.old.keep_alive }
        ensures fewer { 1 < self.old.left → self.new.left + 1 ≡ self.old.left }
    {
        // A seat that sleeps at the door is called in first.
        lock.door.call_in();
        self.sleeper.wait(rt, &lock.bell);
        self.left = if self.timed_out() {
            self.keep_alive
        } else {
            self.left - 1
        };
    }
}

impl<S: Guarded> Lock<S> {
    /// Lets a worker make rounds until it sees that its pool is over. Then all other workers wake, so that they see it too.
    ///
    /// The worker times out after `keep_alive` empty polls in a row, where 0 means 1. After that the count begins anew.
    ///
    /// ```
    /// lock.work(&rt, &mut at_work, 20);
    /// ```
    pub fn work<W: Rounds, R: Wait>(&self, rt: &R, worker: &mut W, keep_alive: u32)
        requires { W.CanGo worker.old }
        ensures can { W.CanGo worker.new }
        ensures gone { (rounds : ℕ) × AfterRounds W.HasGone rounds worker.old worker.new }
        ensures over { W.IsOver worker.new }
    {
        let mut looks = Looks::new(keep_alive);
        for _ in rt.forever() {
            match worker.round(rt, &mut looks) {
                Round::Ran => {}
                Round::Nothing => looks.sleep(rt, self),
                Round::Over => {
                    self.ring_for_all();
                    return;
                }
            }
        }
        unreachable!()
    }
}
