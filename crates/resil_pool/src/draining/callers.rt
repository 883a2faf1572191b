//! The callers of a pool that is drained: whether all are there, and their receipts in the order of their numbers.
//!
//! Callers may come in any order. Each is found by its number and joined into the closer, which holds the turn.
//! The closer has seen the whole history, and the submissions of each caller in it are those on its receipts.

ghost use Rattle.std.specs.Prelude.{◌≡◌, ◌≢◌, ◌≤◌, ◌<◌, ◌↔◌, [], All, IfSome, IfNone, IsTrue, None, length, map, slice_index_or, vec_capacity};
ghost use Rattle.resil_lock.specs.declared.protocol.Phase.TheVariants.{Holding};
ghost use Rattle.resil_pool.specs.Parts.{CallerView};
ghost use Rattle.resil_pool.specs.Draining.{AreNumbered, IsGathered};

use crate::lock::{Lock, LockSeat};
use crate::parts::Caller;
use crate::receipt::Receipt;

// The index of a caller with this number.
fn find_caller(callers: &[Caller], number: u16) -> Option<usize>
    ensures found { IfSome result (λ place. (place < length callers.now) × ((d : CallerView) → (slice_index_or callers.now place d).number ≡ number)) }
    ensures none { IfNone result (All (λ c. c.number ≢ number) callers.now) }
{
    callers.iter().position(|caller| caller.number == number)
}

// Whether the callers' numbers are 1 to `count`, each once.
pub(crate) fn are_numbered(callers: &[Caller], count: u16) -> bool
    ensures { IsTrue result ↔ AreNumbered count callers.now }
{
    if callers.len() != usize::from(count) {
        return false;
    }
    for below in 0..count {
        let Some(_place) = find_caller(callers, below + 1) else {
            return false;
        };
    }
    true
}

// Joins each caller into the closer, which holds the turn, and returns their receipts, in the order of their numbers.
pub(crate) fn join_callers(
    lock: &Lock,
    closer: &mut LockSeat,
    mut callers: Vec<Caller>,
    mut receipts: Vec<Vec<Receipt>>,
    count: u16,
) -> Vec<Vec<Receipt>>
    requires closer { closer.old.table_id ≡ lock.now.table.shared.table_id }
    requires callers { All (λ c. c.source.table_id ≡ lock.now.table.shared.table_id) callers.items }
    requires holds { closer.old.me.0.phase ≡ Holding }
    requires numbered { AreNumbered count callers.items }
    requires room { (receipts.items ≡ []) × (count ≤ vec_capacity receipts) }
    ensures source { closer.new.table_id ≡ closer.old.table_id }
    ensures same { closer.new.me ≡ closer.old.me }
    ensures gathered { IsGathered callers.items closer.old.me.0.seen (map (λ own. own.items) result.items) }
{
    for below in 0..count {
        let Some(place) = find_caller(callers.as_slice(), below + 1) else {
            unreachable!()
        };
        let Caller {
            seat,
            number: _,
            receipts: own,
        } = callers.swap_remove(place);
        lock.join(closer, seat);
        receipts.push_reserved(own);
    }
    receipts
}
