//! The calls for C.
//!
//! C must ensure that a handle that goes in is empty, or was filled by `new` and hasn't been freed since, and that only
//! one call at a time uses it. For an empty handle a call does nothing. It returns 255, or 0 if it returns a number.
ghost use Rattle.std.specs.Prelude.{◌≡◌, ◌≢◌, ◌+◌, ◌≤◌, ◌↔◌, ◌⊎◌, [], suc, List, None as nothing, Some, IfSome, false, length, slice_get, option_map};
ghost use Rattle.resil_rule.specs.declared.rule.Origin.TheVariants as origin;
ghost use Rattle.resil_rule.specs.declared.event.Event.{Event as EventOf};
ghost use Rattle.resil_rule.specs.declared.event.Event.TheVariants.{Finish, IdleEnd, Close, Resized};
ghost use Rattle.resil_rule.specs.Limits.{AreSizesWithin, IsQueue};
ghost use Rattle.resil_rule.specs.Sizes.{IsCoreOf, IsWideCore, IsWideMax};
ghost use Rattle.resil_rule.specs.Record.{IsLastOf};
ghost use Rattle.resil_rule.specs.RuleView.{MayEndIdle, HasOneToPick, made_by, with_finish, with_sizes, with_idle_end, with_close};
ghost use Rattle.resil_rule.specs.RuleState.{HasNoneToPick};
ghost use Rattle.resil_c.specs.Handles.{Has, AreBoth};
ghost use Rattle.resil_c.specs.Book.{in_64_bits, opened_book, answer_to, next_id, counts_of, AreCallers, AreCountsOf, IsBookOf, IsSubmitted, IsNextSubmitted, IsPicked, Follows};
ghost use Rattle.resil_c.specs.PlainData.{submit_number, slot_of, plain_event};

use crate::EMPTY;
use crate::pool::book::Book;
use crate::pool::handle::PoolHandle;
use crate::pool::plain_data::{
    CLOSED, PoolCounts, PoolEvent, PoolJob, open_number, origin_number, plain_event, plain_job,
    submit_number,
};
use resil_rule::{AdmitError, Id, Slot};
use std::alloc::Global;

/// Makes an open pool of these sizes without workers or jobs, and writes its handle to `out`. The core size is from 1 to
/// 1,024, the maximum size from the core size to 1,024, and the queue capacity from 1 to 65,536. The pool serves the callers
/// from 1 to `callers`, which is from 1 to 65,535, and keeps the last `kept` events.
///
/// 0: made. 1: out of memory. 2, 3, 4, 5: the core size, the maximum size, the queue capacity, the number of callers is
/// out of its range, checked in this order. Except after 0, `out` is unchanged.
#[unsafe(no_mangle)]
pub extern "C" fn resil_pool_new(
    alloc: Global,
    core: u32,
    max: u32,
    queue: u32,
    callers: u32,
    kept: u32,
    out: &mut PoolHandle,
) -> u8
    ensures answers { result ≤ 5 }
    ensures made { result ≡ 0 → out.new.value ≡ Some (opened_book (record { core = core; max = max; queue = queue }) callers kept) }
    ensures history { result ≡ 0 → Has (IsBookOf []) out.new.value }
    ensures core { (result ≡ 2) ↔ ¬ IsWideCore core }
    ensures max { (result ≡ 3) ↔ IsWideCore core × ¬ IsWideMax core max }
    ensures queue { (result ≡ 4) ↔ IsWideCore core × IsWideMax core max × ¬ IsQueue queue }
    ensures callers { (result ≡ 5) ↔ IsWideCore core × IsWideMax core max × IsQueue queue × ¬ AreCallers callers }
    ensures unchanged { result ≢ 0 → out.new ≡ out.old }
{
    let book = match Book::new(alloc, core, max, queue, callers, kept) {
        Ok(book) => book,
        Err(error) => return open_number(error),
    };
    let Ok(book) = Box::new(alloc, book) else {
        return 1;
    };
    *out = PoolHandle::of(book);
    0
}

/// Submits work under its caller's next number. Returns the reply of the rule of admission.
///
/// 0: core. 1: queued. 2: extra. 3: full. 4: closed. 5: the number isn't one more than the caller's submissions so
/// far. 6: the pool doesn't have this caller. After 5 and 6 nothing was changed. 255: the handle is empty.
#[unsafe(no_mangle)]
pub extern "C" fn resil_pool_submit(
    handle: PoolHandle,
    back: &mut PoolHandle,
    caller: u16,
    number: u64,
    work: u64,
) -> u8
    ensures answer { IfSome handle.value (λ b. result ≡ submit_number (answer_to b (record { caller = caller; number = number }))) }
    ensures submitted { result ≤ 4 → AreBoth (IsSubmitted (record { caller = caller; number = number }) work) handle.value back.new.value }
    ensures unchanged { (result ≡ 5) ⊎ (result ≡ 6) → back.new.value ≡ handle.value }
    ensures empty { (result ≡ 255) ↔ (handle.value ≡ nothing) }
    ensures unwritten { result ≡ 255 → back.new ≡ back.old }
{
    let Some(mut book) = handle.into_book() else {
        return EMPTY;
    };
    let answer = book.submit(Id { caller, number }, work);
    *back = PoolHandle::of(book);
    submit_number(answer)
}

/// Submits work under its caller's next number, which the pool counts: one more than all submissions that the rule has answered this caller,
/// including refusals. Returns the reply of the rule of admission, and writes the number to `number`.
///
/// 0: core. 1: queued. 2: extra. 3: full. 4: closed. 5: the caller's submissions have reached 2^64 - 1. 6: the pool doesn't
/// have this caller. After 5 and 6 nothing was changed, and `number` is unchanged. 255: the handle is empty.
#[unsafe(no_mangle)]
pub extern "C" fn resil_pool_submit_next(
    handle: PoolHandle,
    back: &mut PoolHandle,
    caller: u16,
    work: u64,
    number: &mut u64,
) -> u8
    ensures answer { IfSome handle.value (λ b. result ≡ submit_number (answer_to b (next_id b caller))) }
    ensures submitted { result ≤ 4 → AreBoth (IsNextSubmitted caller work) handle.value back.new.value }
    ensures number { result ≤ 4 → Has (λ b. number.new ≡ suc (made_by b.rule caller)) handle.value }
    ensures unchanged { (result ≡ 5) ⊎ (result ≡ 6) → back.new.value ≡ handle.value }
    ensures unnumbered { 5 ≤ result → number.new ≡ number.old }
    ensures empty { (result ≡ 255) ↔ (handle.value ≡ nothing) }
    ensures unwritten { result ≡ 255 → back.new ≡ back.old }
{
    let Some(mut book) = handle.into_book() else {
        return EMPTY;
    };
    let id = book.next_id(caller);
    let answer = submit_number(book.submit(id, work));
    *back = PoolHandle::of(book);
    if answer <= CLOSED {
        *number = id.number;
    }
    answer
}

/// Picks the job that runs next, and writes it to `job`: the oldest job with its own worker that wasn't picked yet, or
/// else, if a worker is idle, the oldest job of the queue.
///
/// 0: a job with its own worker. 1: a job of the queue. 2: there is none to pick, and nothing was changed. 255: the handle is empty.
#[unsafe(no_mangle)]
pub extern "C" fn resil_pool_pick(
    handle: PoolHandle,
    back: &mut PoolHandle,
    job: &mut PoolJob,
) -> u8
    ensures answers { (result ≤ 2) ⊎ (result ≡ 255) }
    ensures own { result ≡ 0 → AreBoth (IsPicked origin.OwnStart (slot_of job.new) job.new.work) handle.value back.new.value }
    ensures taken { result ≡ 1 → AreBoth (IsPicked origin.Queue (slot_of job.new) job.new.work) handle.value back.new.value }
    ensures some { IfSome handle.value (λ b. HasOneToPick b.rule → result ≢ 2) }
    ensures none { result ≡ 2 → Has (λ b. HasNoneToPick b.rule) handle.value }
    ensures unchanged { result ≡ 2 → back.new.value ≡ handle.value }
    ensures empty { (result ≡ 255) ↔ (handle.value ≡ nothing) }
    ensures unwritten { 2 ≤ result → job.new ≡ job.old }
    ensures untouched { result ≡ 255 → back.new ≡ back.old }
{
    let Some(mut book) = handle.into_book() else {
        return EMPTY;
    };
    let picked = book.pick();
    *back = PoolHandle::of(book);
    let Some(picked) = picked else {
        return 2;
    };
    *job = plain_job(picked.slot, picked.work);
    origin_number(picked.origin)
}

/// Ends a job that is out: it was picked, has this place, and isn't finished.
///
/// 0: ended. 1: no such job is out, and nothing was changed. 255: the handle is empty.
#[unsafe(no_mangle)]
pub extern "C" fn resil_pool_finish(
    handle: PoolHandle,
    back: &mut PoolHandle,
    caller: u16,
    number: u64,
    place: u32,
) -> u8
    ensures answers { (result ≤ 1) ⊎ (result ≡ 255) }
    ensures out { IfSome handle.value (λ b. (result ≡ 0) ↔ (slice_get b.rule.out place ≡ Some (Some (record { caller = caller; number = number })))) }
    ensures event { result ≡ 0 → AreBoth (λ b c. c.rule ≡ with_finish b.rule (record { id = record { caller = caller; number = number }; place = place })) handle.value back.new.value }
    ensures follows { result ≡ 0 → AreBoth (λ b c. Follows b (Finish (record { caller = caller; number = number })) c) handle.value back.new.value }
    ensures unchanged { result ≡ 1 → back.new.value ≡ handle.value }
    ensures empty { (result ≡ 255) ↔ (handle.value ≡ nothing) }
    ensures unwritten { result ≡ 255 → back.new ≡ back.old }
{
    let Some(mut book) = handle.into_book() else {
        return EMPTY;
    };
    let id = Id { caller, number };
    let place = place as usize;
    let finished = book.finish(Slot { id, place });
    *back = PoolHandle::of(book);
    if finished { 0 } else { 1 }
}

/// Sets the core size and the maximum size, in workers, from here on. The queue's capacity and all jobs stay. It starts and ends no worker.
///
/// 0: set, even if the sizes stay the same and if the pool is closed. 1: the core size isn't from 1 to 64, or to 1,024 if
/// the maximum size at `new` was greater than 64. 2: it is, and the maximum size isn't from the core size to the one at
/// `new`. After 1 and 2 nothing was changed. 255: the handle is empty.
#[unsafe(no_mangle)]
pub extern "C" fn resil_pool_resize(
    handle: PoolHandle,
    back: &mut PoolHandle,
    core: u32,
    max: u32,
) -> u8
    ensures answers { (result ≤ 2) ⊎ (result ≡ 255) }
    ensures core { IfSome handle.value (λ b. (result ≡ 1) ↔ ¬ IsCoreOf b.rule.limits core) }
    ensures max { IfSome handle.value (λ b. (result ≡ 2) ↔ IsCoreOf b.rule.limits core × ¬ AreSizesWithin b.rule.limits core max) }
    ensures event { result ≡ 0 → AreBoth (λ b c. c.rule ≡ with_sizes b.rule core max) handle.value back.new.value }
    ensures follows { result ≡ 0 → AreBoth (λ b c. Follows b (Resized core max) c) handle.value back.new.value }
    ensures unchanged { (result ≡ 1) ⊎ (result ≡ 2) → back.new.value ≡ handle.value }
    ensures empty { (result ≡ 255) ↔ (handle.value ≡ nothing) }
    ensures unwritten { result ≡ 255 → back.new ≡ back.old }
{
    let Some(mut book) = handle.into_book() else {
        return EMPTY;
    };
    let answer = book.resize(core, max);
    *back = PoolHandle::of(book);
    match answer {
        Ok(()) => 0,
        Err(AdmitError::CoreOutOfRange) => 1,
        Err(_) => 2,
    }
}

/// Ends an idle worker, if no job waits, fewer jobs run than there are workers, and either there are more workers
/// than the core size or the pool is closed.
///
/// 0: ended. 1: none may end, and nothing was changed. 255: the handle is empty.
#[unsafe(no_mangle)]
pub extern "C" fn resil_pool_idle_end(handle: PoolHandle, back: &mut PoolHandle) -> u8
    ensures answers { (result ≤ 1) ⊎ (result ≡ 255) }
    ensures ends { IfSome handle.value (λ b. (result ≡ 0) ↔ MayEndIdle b.rule) }
    ensures event { result ≡ 0 → AreBoth (λ b c. c.rule ≡ with_idle_end b.rule) handle.value back.new.value }
    ensures follows { result ≡ 0 → AreBoth (λ b c. Follows b IdleEnd c) handle.value back.new.value }
    ensures unchanged { result ≡ 1 → back.new.value ≡ handle.value }
    ensures empty { (result ≡ 255) ↔ (handle.value ≡ nothing) }
    ensures unwritten { result ≡ 255 → back.new ≡ back.old }
{
    let Some(mut book) = handle.into_book() else {
        return EMPTY;
    };
    let ended = book.idle_end();
    *back = PoolHandle::of(book);
    if ended { 0 } else { 1 }
}

/// Closes the pool. Jobs that were accepted before can still be picked.
///
/// 0: closed. 1: it was closed already, and nothing was changed. 255: the handle is empty.
#[unsafe(no_mangle)]
pub extern "C" fn resil_pool_close(handle: PoolHandle, back: &mut PoolHandle) -> u8
    ensures answers { (result ≤ 1) ⊎ (result ≡ 255) }
    ensures closes { IfSome handle.value (λ b. (result ≡ 0) ↔ (b.rule.closed ≡ false)) }
    ensures event { result ≡ 0 → AreBoth (λ b c. c.rule ≡ with_close b.rule) handle.value back.new.value }
    ensures follows { result ≡ 0 → AreBoth (λ b c. Follows b Close c) handle.value back.new.value }
    ensures unchanged { result ≡ 1 → back.new.value ≡ handle.value }
    ensures empty { (result ≡ 255) ↔ (handle.value ≡ nothing) }
    ensures unwritten { result ≡ 255 → back.new ≡ back.old }
{
    let Some(mut book) = handle.into_book() else {
        return EMPTY;
    };
    let closed = book.close();
    *back = PoolHandle::of(book);
    if closed { 0 } else { 1 }
}

/// Writes the numbers of the pool to `counts`, all at one moment.
///
/// 0: written. 255: the handle is empty, and `counts` is unchanged.
#[unsafe(no_mangle)]
pub extern "C" fn resil_pool_numbers(
    handle: PoolHandle,
    back: &mut PoolHandle,
    counts: &mut PoolCounts,
) -> u8
    ensures answers { (result ≡ 0) ⊎ (result ≡ 255) }
    ensures same { result ≡ 0 → back.new.value ≡ handle.value }
    ensures counts { IfSome handle.value (λ b. counts.new ≡ counts_of b) }
    ensures sum { result ≡ 0 → counts.new.accepted ≡ in_64_bits (counts.new.running + counts.new.waiting + counts.new.finished) }
    ensures history { IfSome handle.value (λ b. (events : List EventOf) → IsBookOf events b → AreCountsOf b.rule.limits events counts.new) }
    ensures empty { (result ≡ 255) ↔ (handle.value ≡ nothing) }
    ensures unwritten { result ≡ 255 → (back.new ≡ back.old) × (counts.new ≡ counts.old) }
{
    let Some(book) = handle.into_book() else {
        return EMPTY;
    };
    *counts = book.numbers();
    *back = PoolHandle::of(book);
    0
}

/// How many of the last events are kept now. 0 if the handle is empty.
#[unsafe(no_mangle)]
pub extern "C" fn resil_pool_event_count(handle: PoolHandle, back: &mut PoolHandle) -> usize
    ensures same { IfSome handle.value (λ _. back.new.value ≡ handle.value) }
    ensures count { IfSome handle.value (λ b. result ≡ length b.last.events) }
    ensures empty { handle.value ≡ nothing → (result ≡ 0) × (back.new ≡ back.old) }
{
    let Some(book) = handle.into_book() else {
        return 0;
    };
    let count = book.event_count();
    *back = PoolHandle::of(book);
    count
}

/// How many events came before those that are kept. 0 if the handle is empty.
#[unsafe(no_mangle)]
pub extern "C" fn resil_pool_lost(handle: PoolHandle, back: &mut PoolHandle) -> u64
    ensures same { IfSome handle.value (λ _. back.new.value ≡ handle.value) }
    ensures lost { IfSome handle.value (λ b. result ≡ b.last.lost) }
    ensures history { IfSome handle.value (λ b. (events : List EventOf) → IsBookOf events b → IsLastOf events b.last) }
    ensures empty { handle.value ≡ nothing → (result ≡ 0) × (back.new ≡ back.old) }
{
    let Some(book) = handle.into_book() else {
        return 0;
    };
    let lost = book.lost();
    *back = PoolHandle::of(book);
    lost
}

/// Writes one of the kept events to `event`, by its index from 0, oldest first.
///
/// 0: written. 1: the index isn't below the number of kept events, and `event` is unchanged. 255: the handle is empty.
#[unsafe(no_mangle)]
pub extern "C" fn resil_pool_event(
    handle: PoolHandle,
    back: &mut PoolHandle,
    index: usize,
    event: &mut PoolEvent,
) -> u8
    ensures answers { (result ≤ 1) ⊎ (result ≡ 255) }
    ensures same { result ≤ 1 → back.new.value ≡ handle.value }
    ensures event { result ≡ 0 → Has (λ b. option_map plain_event (slice_get b.last.events index) ≡ Some event.new) handle.value }
    ensures none { IfSome handle.value (λ b. (result ≡ 1) ↔ (length b.last.events ≤ index)) }
    ensures empty { (result ≡ 255) ↔ (handle.value ≡ nothing) }
    ensures unwritten { result ≢ 0 → event.new ≡ event.old }
    ensures untouched { result ≡ 255 → back.new ≡ back.old }
{
    let Some(book) = handle.into_book() else {
        return EMPTY;
    };
    let found = book.event(index);
    *back = PoolHandle::of(book);
    let Some(found) = found else {
        return 1;
    };
    *event = plain_event(found);
    0
}

/// Frees a pool, with all that is in it. For an empty handle it does nothing.
#[unsafe(no_mangle)]
pub extern "C" fn resil_pool_free(handle: PoolHandle) {
    drop(handle.into_book());
}
