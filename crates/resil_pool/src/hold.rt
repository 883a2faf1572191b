//! Rows that are held, and the closing after them: before the closing, the history has all of them, in their order, and nothing else.
//!
//! No other seat is used before the pool is closed. Contracts see one seat at a time, so the closer compares the history with the
//! rows while it holds the lock.

ghost use Rattle.std.specs.Prelude.{◌≡◌, ◌↔◌, true, IsTrue};
ghost use Rattle.std.specs.Bool.{OnTrue};
ghost use Rattle.resil_rule.specs.History.{is_closed};
ghost use Rattle.resil_pool.specs.Lock.{events_in, told, IsMoved, WritesAtMost, SeesClosing, WroteCloseAtMost};
ghost use Rattle.resil_pool.specs.Hold.{AreRows, BeginsWithRows, TellsOfRows};

use crate::lock::PoolState;
use crate::parts::Closer;
use crate::pool::Pool;
use crate::submit::is_submission_of;
use resil_admission::Event;
use resil_decor::Plan;
use std::sync::Wait;

/// A job that a caller is to submit.
#[derive(Drop)]
pub struct JobRow {
    /// The caller's number, from 1.
    pub caller: u16,
    /// The plan that the job runs.
    pub plan: Plan,
}

// Whether the events are the rows' submissions, in row order, and nothing else.
fn are_rows(events: &[Event], rows: &[JobRow]) -> bool
    ensures { IsTrue result ↔ AreRows rows.now events.now }
{
    if events.len() != rows.len() {
        return false;
    }
    for place in 0..rows.len() {
        if !is_submission_of(&events[place], rows[place].caller) {
            return false;
        }
    }
    true
}

impl PoolState {
    // Closes the machine, if it is open, and returns whether its history was that of the rows.
    fn close_after_rows(&mut self, rows: &[JobRow]) -> bool
        ensures wrote { IsMoved self.old.machine (told self.new) self.new.machine }
        ensures closes { WritesAtMost Event.Close (told self.new) }
        ensures closed { is_closed self.new.machine.history ≡ true }
        ensures in_order { IsTrue result ↔ AreRows rows.now self.old.machine.history }
    {
        let in_order = are_rows(self.machine.history(), rows);
        self.close();
        in_order
    }
}

/// Closes the pool, in one turn, and returns whether all rows were submitted before, in their order, and nothing else was
/// written. It is for `resil_workers`; everyone else closes a pool with `Pool::close`.
pub fn close_held<R: Wait>(rt: &R, pool: &Pool, closer: &mut Closer, rows: &[JobRow]) -> bool
    requires { closer.old.source ≡ pool.now.source }
    ensures source { closer.new.source ≡ closer.old.source }
    ensures seen { SeesClosing closer.old.source.limits closer.old.seen closer.new.seen }
    ensures wrote { WroteCloseAtMost closer.old.wrote closer.new.wrote }
    ensures closed { is_closed (events_in closer.new.seen) ≡ true }
    ensures begins { OnTrue result (BeginsWithRows rows.now (events_in closer.new.seen)) }
    ensures told { TellsOfRows result rows.now closer.old.source.limits closer.old.seen closer.new.seen }
{
    let mut state = pool.lock.take(rt, &mut closer.seat);
    let in_order = state.inner.close_after_rows(rows);
    pool.lock.release(&mut closer.seat, state);
    pool.lock.ring_for_all();
    in_order
}
