//! The lock, with all of its atomic steps.
//!
//! The word is 1 while a seat holds the lock. While the word is 0, the state is in the slot. A seat that exchanges 0 for 1 takes the
//! state out. It puts the state back before it stores 0.
ghost use Rattle.std.specs.Prelude.{◌≡◌, ◌≢◌, ℕ, ◌∷◌, [], ◌++◌, Some, None, IfOk, filter};
ghost use mathlib.Core.List.{IsPrefix};
ghost use Rattle.resil_lock.specs.Lock.{TookLock, IsCovered, IsNumbering, first_view, visitor_view, worker_view, member_view, made_one, holder_view, left_view};
ghost use Rattle.resil_lock.specs.declared.protocol.Phase.TheVariants.{Idle, Holding};
ghost use Rattle.resil_lock.specs.declared.protocol.Rank.TheVariants as rank;

use crate::bell::Bell;
use crate::door::Door;
use crate::protocol::{
    Admit, ComeIn, EndJoin, Guarded, Hire, LockRule, LockSeat, Merge, ReleaseLock, TakeLock, View,
    WithJoins,
};
use crate::work::Look;
use atomic_table::{Refused, Table};
use std::alloc::{AllocError, Global};
use std::sync::Wait;

/// A lock over a state. Threads take turns with the state, and it represents the log of all turns.
///
/// ```
/// let mut seat = lock.seat();
/// let mut state = lock.take(&rt, &mut seat);
/// state.count += 1;
/// lock.release(&mut seat, state);
/// ```
#[derive(Drop)]
pub struct Lock<S: Guarded> {
    /// The word and the slot.
    pub table: Table<Option<S>, View<S::Key, S::Entry>, S::Key, LockRule<S>, Global>,
    // Workers that find nothing to do wait here.
    pub(crate) bell: Bell,
    // Seats that find the lock taken wait here.
    pub(crate) door: Door,
    ghost one_word: { table.shared.table_id.words ≡ 1 },
}

impl<S: Guarded> Lock<S> {
    /// Returns a lock over a state that represents the empty log, and the opener's seat, which makes the seats of workers and members.
    ///
    /// # Errors
    ///
    /// `AllocError` when out of memory.
    ///
    /// ```
    /// let (lock, mut opener) = Lock::new(alloc, state, &key)?;
    /// let worker = lock.hire(&mut opener);
    /// ```
    pub fn new(
        alloc: Global,
        state: S,
        key: &S::Key,
    ) -> Result<(Lock<S>, LockSeat<S, S::Key, S::Entry>), AllocError>
        requires home { S.StandsFor key.now [] state }
        requires blank { S.MayHaveWritten rank.Opener [] }
        ensures key { IfOk result (λ r. r.0.table.shared.key ≡ key.now) }
        ensures source { IfOk result (λ r. r.1.table_id ≡ r.0.table.shared.table_id) }
        ensures opener { IfOk result (λ r. r.1.me ≡ (first_view key.now, [])) }
    {
        let Ok(mut slots) = Vec::with_capacity(alloc, 1) else {
            return Err(AllocError);
        };
        slots.push_reserved(Some(state));
        match Table::new(alloc, &[0], slots, key) {
            Ok((table, seat)) => Ok((
                Lock {
                    table,
                    bell: Bell::new(),
                    door: Door::new(),
                },
                seat,
            )),
            Err(Refused { slots: _ }) => Err(AllocError),
        }
    }

    /// Returns a visitor's seat, which has seen nothing. Any thread may make one. It takes no memory.
    pub fn seat(&self) -> LockSeat<S, S::Key, S::Entry>
        requires blank { S.MayHaveWritten rank.Visitor [] }
        ensures source { result.table_id ≡ self.now.table.shared.table_id }
        ensures me { result.me ≡ (visitor_view (first_view self.now.table.shared.key), []) }
    {
        self.table.shared.load_new_seat::<ComeIn>(0).1
    }

    /// Returns a worker's seat, which has seen nothing. The opener's seat makes and counts it.
    pub fn hire(&self, opener: &mut LockSeat<S, S::Key, S::Entry>) -> LockSeat<S, S::Key, S::Entry>
        requires source { opener.old.table_id ≡ self.now.table.shared.table_id }
        requires rank { opener.old.me.0.rank ≡ rank.Opener }
        requires blank { S.MayHaveWritten rank.Worker [] }
        ensures opener { (opener.new.table_id ≡ opener.old.table_id) × (opener.new.me ≡ (made_one opener.old.me.0, opener.old.me.1)) }
        ensures source { result.table_id ≡ self.now.table.shared.table_id }
        ensures me { result.me ≡ (worker_view opener.old.me.0, []) }
    {
        self.table.shared.split_seat::<Hire>(opener)
    }

    /// Returns a member's seat with the next number, which has seen nothing. The opener's seat makes and counts it. A member's seat can
    /// be joined into another seat.
    pub fn admit(&self, opener: &mut LockSeat<S, S::Key, S::Entry>) -> LockSeat<S, S::Key, S::Entry>
        requires source { opener.old.table_id ≡ self.now.table.shared.table_id }
        requires rank { opener.old.me.0.rank ≡ rank.Opener }
        requires blank { S.MayHaveWritten rank.Member [] }
        ensures opener { (opener.new.table_id ≡ opener.old.table_id) × (opener.new.me ≡ (made_one opener.old.me.0, opener.old.me.1)) }
        ensures source { result.table_id ≡ self.now.table.shared.table_id }
        ensures me { result.me ≡ (member_view opener.old.me.0, []) }
    {
        self.table.shared.split_seat::<Admit>(opener)
    }

    // Tries to exchange 0 for 1 until it succeeds. It reads the word first, since a failed exchange takes the word's cache line from
    // the holder.
    fn spin<R: Wait>(&self, rt: &R, seat: &mut LockSeat<S, S::Key, S::Entry>)
        requires source { seat.old.table_id ≡ self.now.table.shared.table_id }
        requires rest { (seat.old.me.0.phase ≡ Idle) × (seat.old.me.1 ≡ []) }
        ensures source { seat.new.table_id ≡ seat.old.table_id }
        ensures took { TookLock S.StandsFor S.MayHaveWritten S.is_own seat.old.me seat.new.me }
    {
        let mut tries = 0u32;
        for _ in rt.forever() {
            if !self.is_held()
                && self
                    .table
                    .shared
                    .compare_exchange::<TakeLock<S>>(seat, 0, 0, 1)
                    == 0
            {
                return;
            }
            self.wait_at_door(rt, tries);
            tries = tries.saturating_add(1);
        }
        unreachable!()
    }

    // Whether a seat holds the lock. Other threads may change that at any time.
    fn is_held(&self) -> bool {
        self.table.shared.peek(0) != 0
    }

    // Waits after a failed try. It pauses after the first tries. Later it sleeps until a seat is called in, or for at most 100
    // microseconds.
    fn wait_at_door<R: Wait>(&self, rt: &R, tries: u32) {
        if self.door.has_paused(tries) {
            return;
        }
        let openings = self.door.announce();
        if self.is_held() {
            self.door.sleep(rt, openings);
        }
    }

    /// Waits until no other seat holds the lock, then takes the lock and returns the state. The state represents the whole log, which
    /// begins with what the seat had seen.
    pub fn take<R: Wait>(&self, rt: &R, seat: &mut LockSeat<S, S::Key, S::Entry>) -> S
        requires source { seat.old.table_id ≡ self.now.table.shared.table_id }
        requires rest { (seat.old.me.0.phase ≡ Idle) × (seat.old.me.1 ≡ []) }
        ensures source { seat.new.table_id ≡ seat.old.table_id }
        ensures key { seat.new.me.0.key ≡ seat.old.me.0.key }
        ensures rank { seat.new.me.0.rank ≡ seat.old.me.0.rank }
        ensures own { seat.new.me.0.own ≡ seat.old.me.0.own }
        ensures view { seat.new.me.0 ≡ holder_view seat.old.me.0 seat.new.me.0.seen }
        ensures slot { seat.new.me.1 ≡ (0, None) ∷ [] }
        ensures begins { IsPrefix seat.old.me.0.seen seat.new.me.0.seen }
        ensures same_own { IsNumbering S.MayHaveWritten → filter (S.is_own seat.old.me.0.number) seat.new.me.0.seen ≡ filter (S.is_own seat.old.me.0.number) seat.old.me.0.seen }
        ensures home { S.StandsFor seat.new.me.0.key seat.new.me.0.seen result }
        ensures fits { S.MayHaveWritten seat.new.me.0.rank seat.new.me.0.own }
        ensures covered { IsCovered S.MayHaveWritten seat.new.me.0.seen seat.new.me.0.own }
    {
        self.spin(rt, seat);
        let Some(state) = self.table.shared.exchange(seat, 0, None) else {
            unreachable!()
        };
        state
    }

    /// Puts the state back and releases the lock. The log grows by what the turn wrote.
    ///
    /// It asks the state for work (`Guarded::has_work`) only if a worker watches the bell. If none does, the bell says that there may be
    /// work.
    pub fn release(&self, seat: &mut LockSeat<S, S::Key, S::Entry>, state: S)
        requires source { seat.old.table_id ≡ self.now.table.shared.table_id }
        requires slot { seat.old.me.1 ≡ (0, None) ∷ [] }
        requires holds { seat.old.me.0.phase ≡ Holding }
        requires home { S.StandsFor seat.old.me.0.key (seat.old.me.0.seen ++ S.written state) state }
        requires fits { S.MayHaveWritten seat.old.me.0.rank (seat.old.me.0.own ++ S.written state) }
        requires own { IsNumbering S.MayHaveWritten → (number : ℕ) → number ≢ seat.old.me.0.number → filter (S.is_own number) (S.written state) ≡ [] }
        ensures source { seat.new.table_id ≡ seat.old.table_id }
        ensures slot { seat.new.me.1 ≡ [] }
        ensures seen { seat.new.me.0 ≡ left_view seat.old.me.0 (S.written state) }
    {
        let ready = !self.bell.is_watched() || state.has_work();
        self.bell.set_ready(ready);
        self.put_back(seat, state);
    }

    /// Releases the lock as `release` does, after a worker has looked for a job. If the look found none, it always asks the state for work,
    /// since its worker starts to watch next. Without that the worker would look twice before each sleep.
    ///
    /// ```
    /// let mut state = lock.take(&rt, &mut seat);
    /// let look = state.look();
    /// lock.release_after(&mut seat, state, &look);
    /// ```
    pub fn release_after<J>(
        &self,
        seat: &mut LockSeat<S, S::Key, S::Entry>,
        state: S,
        look: &Look<J>,
    )
        requires source { seat.old.table_id ≡ self.now.table.shared.table_id }
        requires slot { seat.old.me.1 ≡ (0, None) ∷ [] }
        requires holds { seat.old.me.0.phase ≡ Holding }
        requires home { S.StandsFor seat.old.me.0.key (seat.old.me.0.seen ++ S.written state) state }
        requires fits { S.MayHaveWritten seat.old.me.0.rank (seat.old.me.0.own ++ S.written state) }
        requires own { IsNumbering S.MayHaveWritten → (number : ℕ) → number ≢ seat.old.me.0.number → filter (S.is_own number) (S.written state) ≡ [] }
        ensures source { seat.new.table_id ≡ seat.old.table_id }
        ensures slot { seat.new.me.1 ≡ [] }
        ensures seen { seat.new.me.0 ≡ left_view seat.old.me.0 (S.written state) }
    {
        let unwatched = matches!(look, Look::Found(_)) && !self.bell.is_watched();
        self.bell.set_ready(unwatched || state.has_work());
        self.put_back(seat, state);
    }

    // Puts the state back, stores 0, and wakes a seat that sleeps at the door if there were enough releases.
    fn put_back(&self, seat: &mut LockSeat<S, S::Key, S::Entry>, state: S)
        requires source { seat.old.table_id ≡ self.now.table.shared.table_id }
        requires slot { seat.old.me.1 ≡ (0, None) ∷ [] }
        requires holds { seat.old.me.0.phase ≡ Holding }
        requires home { S.StandsFor seat.old.me.0.key (seat.old.me.0.seen ++ S.written state) state }
        requires fits { S.MayHaveWritten seat.old.me.0.rank (seat.old.me.0.own ++ S.written state) }
        requires own { IsNumbering S.MayHaveWritten → (number : ℕ) → number ≢ seat.old.me.0.number → filter (S.is_own number) (S.written state) ≡ [] }
        ensures source { seat.new.table_id ≡ seat.old.table_id }
        ensures slot { seat.new.me.1 ≡ [] }
        ensures seen { seat.new.me.0 ≡ left_view seat.old.me.0 (S.written state) }
    {
        let vacant = self.table.shared.exchange(seat, 0, Some(state));
        drop(vacant);
        self.table.shared.store::<ReleaseLock<S>>(seat, 0, 0);
        self.door.open();
    }

    /// Wakes a sleeping worker if there may be something to do and no worker searches.
    pub fn ring(&self) {
        self.bell.ring();
    }

    /// Wakes all sleeping workers.
    pub fn ring_for_all(&self) {
        self.bell.ring_for_all();
    }
}

impl<S: WithJoins> Lock<S> {
    /// Joins a member's seat into the holder's. The holder has seen everything that the member's seat had seen, and no other entries that
    /// are the member's own.
    pub fn join(
        &self,
        holder: &mut LockSeat<S, S::Key, S::Entry>,
        from: LockSeat<S, S::Key, S::Entry>,
    )
        requires source { (holder.old.table_id ≡ self.now.table.shared.table_id) × (from.table_id ≡ self.now.table.shared.table_id) }
        requires holds { holder.old.me.0.phase ≡ Holding }
        requires rest { (from.me.0.phase ≡ Idle) × (from.me.1 ≡ []) }
        requires rank { from.me.0.rank ≡ rank.Member }
        ensures source { holder.new.table_id ≡ holder.old.table_id }
        ensures same { holder.new.me ≡ holder.old.me }
        ensures begins { IsPrefix from.me.0.seen holder.old.me.0.seen }
        ensures same_own { IsNumbering S.MayHaveWritten → filter (S.is_own from.me.0.number) holder.old.me.0.seen ≡ filter (S.is_own from.me.0.number) from.me.0.seen }
    {
        self.table.shared.join_seat::<Merge<S>>(holder, from);
        self.table.shared.load::<EndJoin<S>>(holder, 0);
    }
}
