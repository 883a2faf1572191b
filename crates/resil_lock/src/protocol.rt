//! What a seat knows, what the state says about itself, and what a seat knows after each kind of step. All of it
//! exists in proofs only, except `Guarded::has_work`.

use atomic_table::{Join, Play, Seat, Split, TableRule};
use std::collections::LinkedList;
use std::marker::PhantomData;

/// A state that stands for a log. It needn't keep the log.
pub trait Guarded: Drop {
    ghost use Rattle.std.specs.Prelude.{ℕ, Bool, false, List, IsTrue, ◌↔◌};
    ghost use Rattle.resil_lock.specs.declared.protocol.Rank.{Rank};

    /// What is fixed when the lock is made.
    type Key;

    /// The entries of a log.
    type Entry;

    /// With this key the state stands for this log.
    ghost StandsFor: { Self.Key → List Self.Entry → Self → Type 0 };

    /// What a seat of this rank may have written so far. If it excludes the empty list, no seat of this rank exists.
    ghost MayHaveWritten: { Rank → List Self.Entry → Type 0 };

    /// Whether an entry is one that only the seat with this number writes.
    ghost is_own: { ℕ → Self.Entry → Bool } = { λ _ _. false };

    /// What the last turn wrote. The state says so until the next turn.
    ghost written: { Self → List Self.Entry };

    /// A worker has something to do.
    ghost HasWork: { Self → Type 0 };

    /// Whether a worker has something to do. The lock asks at a release if a worker watches the bell, or has just found no job.
    fn has_work(&self) -> bool
        ensures { IsTrue result ↔ HasWork self.now };
}

/// A state under a lock where members' seats may be joined away.
pub trait WithJoins: Guarded {
    /// Any key. It is in what is left of a seat that was joined away.
    ghost spent_key: { Self.Key };
}

/// What a seat is for.
#[derive(Clone, Copy, Debug, PartialEq, Eq)]
pub enum Rank {
    /// It makes the workers' seats and the members'.
    Opener,
    /// It has a number. If all seats have numbers, that is its place among them.
    Member,
    /// It runs jobs, and has no number.
    Worker,
    /// Anything else. Any thread makes such a seat for itself.
    Visitor,
}

/// What a seat is doing between two steps.
pub enum Phase<E> {
    /// Between two turns.
    Idle,
    /// It holds the lock.
    Holding,
    /// It holds the lock, between the two steps of a join: the number of the seat that is joined away, and what that seat had seen.
    Joining(u64, LinkedList<E>),
    /// Joined away.
    Joined,
}

/// What a seat knows. It exists in contracts only.
pub struct View<K, E> {
    /// The key of its lock.
    pub key: K,
    /// What it is for.
    pub rank: Rank,
    /// Its number, or 0 if it has none.
    pub number: u64,
    /// For the opener, how many seats it has made, including its own.
    pub made: u64,
    /// How many turns it had. Only a release counts as one.
    pub turns: u64,
    /// What it is doing.
    pub phase: Phase<E>,
    /// The part of the log that it has seen.
    pub seen: LinkedList<E>,
    /// What its own turns wrote.
    pub own: LinkedList<E>,
}

/// The seat by which a thread takes the lock. It has no bytes.
pub type LockSeat<S, K, E> = Seat<Option<S>, View<K, E>>;

/// The rule of a table with one word and one slot. The state is in the slot while the word is 0.
pub struct LockRule<S: Guarded>(PhantomData<S>);

impl<S: Guarded> TableRule<Option<S>, View<S::Key, S::Entry>, S::Key> for LockRule<S> {
    ghost use Rattle.resil_lock.specs.Lock.{IsLocked, first_view};

    ghost holds = { IsLocked S.StandsFor S.MayHaveWritten S.is_own };

    ghost first = { first_view };
}

/// The exchange of 0 for 1.
pub struct TakeLock<S: Guarded>(PhantomData<S>);

impl<S: Guarded> Play<Option<S>, View<S::Key, S::Entry>> for TakeLock<S> {
    ghost use Rattle.resil_lock.specs.Lock.{AfterTake};

    ghost then = { AfterTake S.StandsFor S.MayHaveWritten S.is_own };
}

/// The store of 0.
pub struct ReleaseLock<S: Guarded>(PhantomData<S>);

impl<S: Guarded> Play<Option<S>, View<S::Key, S::Entry>> for ReleaseLock<S> {
    ghost use Rattle.resil_lock.specs.Lock.{AfterRelease};

    ghost then = { AfterRelease S.written };
}

/// The load that ends a join.
pub struct EndJoin<S: Guarded>(PhantomData<S>);

impl<S: Guarded> Play<Option<S>, View<S::Key, S::Entry>> for EndJoin<S> {
    ghost use Rattle.resil_lock.specs.Lock.{AfterJoin};

    ghost then = { AfterJoin S.MayHaveWritten S.is_own };
}

/// The load by which a visitor's seat comes in.
pub struct ComeIn;

impl<S, K, E> Play<S, View<K, E>> for ComeIn {
    ghost use Rattle.resil_lock.specs.Lock.{AfterComing};

    ghost then = { AfterComing };
}

/// A worker's seat, which is split from the opener's.
pub struct Hire;

impl<K, E> Split<View<K, E>> for Hire {
    ghost use Rattle.resil_lock.specs.Lock.{made_one, worker_view};

    ghost left = { made_one };

    ghost right = { worker_view };
}

/// A member's seat, which is split from the opener's and gets the next number.
pub struct Admit;

impl<K, E> Split<View<K, E>> for Admit {
    ghost use Rattle.resil_lock.specs.Lock.{made_one, member_view};

    ghost left = { made_one };

    ghost right = { member_view };
}

/// A member's seat that the holder joins away. The holder has seen all that this seat had seen.
pub struct Merge<S: WithJoins>(PhantomData<S>);

impl<S: WithJoins> Join<View<S::Key, S::Entry>> for Merge<S> {
    ghost use Rattle.resil_lock.specs.Lock.{joining_view, joined_view};

    ghost both = { joining_view };

    ghost spent = { joined_view S.spent_key };
}
