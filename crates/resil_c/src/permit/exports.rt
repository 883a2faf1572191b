//! The calls for C.
//!
//! C must ensure that a handle that goes in is empty, or was filled by `new` or `split` and hasn't been freed since, and that only one call
//! at a time uses it. For an empty handle a call does nothing. It returns 255, or 0 if it returns a number.
ghost use Rattle.std.specs.Prelude.{◌≡◌, ◌≢◌, ◌+◌, ◌<◌, ◌≤◌, ◌↔◌, ◌⊎◌, [], None as nothing, IfSome, length};
ghost use Rattle.resil_permit.specs.declared.event.PermitEvent.TheVariants.{Gave, Retired, Raised};
ghost use Rattle.resil_permit.specs.declared.permits.Attempt.TheVariants.{Taken, Full, Contended};
ghost use Rattle.resil_permit.specs.Passes.{held_by, retired_by, own_events, IsSamePass, HasSeenMore, AppendsEvent};
ghost use Rattle.resil_permit.specs.TryAcquire.{IsTry};
ghost use Rattle.resil_permit.specs.History.{holders, in_use_count};
ghost use Rattle.resil_c.specs.Handles.{Has, AreBoth, UnlessEmpty};

use crate::EMPTY;
use crate::permit::handle::PermitHandle;
use crate::permit::owned_pass::OwnedPass;
use resil_permit::{Attempt, PermitError};
use std::alloc::Global;

/// Makes `max` permits, all free, and writes the handle of their first pass to `out`.
///
/// 0: made. 1: out of memory. 2: `max` is above 65,535. After 1 and 2 `out` is unchanged.
#[unsafe(no_mangle)]
pub extern "C" fn resil_permit_new(alloc: Global, max: u32, out: &mut PermitHandle) -> u8
    ensures answers { result ≤ 2 }
    ensures made { result ≡ 0 → Has (λ p. (p.source.max ≡ max) × (p.seen ≡ []) × (held_by p ≡ 0)) out.new.value }
    ensures retired { result ≡ 0 → Has (λ p. retired_by p ≡ 0) out.new.value }
    ensures too_many { (result ≡ 2) ↔ (65535 < max) }
    ensures unchanged { result ≢ 0 → out.new ≡ out.old }
{
    let pass = match OwnedPass::new(alloc, max) {
        Ok(pass) => pass,
        Err(PermitError::Memory) => return 1,
        Err(PermitError::TooManyPermits) => return 2,
    };
    let Ok(pass) = Box::new(alloc, pass) else {
        return 1;
    };
    *out = PermitHandle::of(pass);
    0
}

/// Writes the handle of a second pass, for another thread, to `out`. It holds nothing. The handle that went in comes back unchanged.
///
/// 0: made. 1: out of memory, and `out` is unchanged.
#[unsafe(no_mangle)]
pub extern "C" fn resil_permit_split(
    alloc: Global,
    handle: PermitHandle,
    back: &mut PermitHandle,
    out: &mut PermitHandle,
) -> u8
    ensures answers { (result ≤ 1) ⊎ (result ≡ 255) }
    ensures back { result ≤ 1 → back.new.value ≡ handle.value }
    ensures source { result ≡ 0 → AreBoth (λ p q. q.source ≡ p.source) handle.value out.new.value }
    ensures seen { result ≡ 0 → AreBoth (λ p q. q.seen ≡ p.seen) handle.value out.new.value }
    ensures number { result ≡ 0 → AreBoth (λ p q. (q.number ≢ p.number) × (own_events q ≡ [])) handle.value out.new.value }
    ensures held { result ≡ 0 → Has (λ q. held_by q ≡ 0) out.new.value }
    ensures retired { result ≡ 0 → Has (λ q. retired_by q ≡ 0) out.new.value }
    ensures unchanged { result ≢ 0 → out.new ≡ out.old }
    ensures empty { (result ≡ 255) ↔ (handle.value ≡ nothing) }
    ensures unwritten { result ≡ 255 → back.new ≡ back.old }
{
    let Some(mut pass) = handle.into_pass() else {
        return EMPTY;
    };
    let second = pass.split();
    *back = PermitHandle::of(pass);
    let Ok(second) = second else {
        return 1;
    };
    let Ok(second) = Box::new(alloc, second) else {
        return 1;
    };
    *out = PermitHandle::of(second);
    0
}

/// Tries once to take a permit.
///
/// 0: taken. 1: all permits in use were held. 2: contended: another thread came in between, and nothing was done. 255: empty.
#[unsafe(no_mangle)]
pub extern "C" fn resil_permit_try_once(handle: PermitHandle, back: &mut PermitHandle) -> u8
    ensures answers { (result ≤ 2) ⊎ (result ≡ 255) }
    ensures pass { UnlessEmpty IsSamePass handle.value back.new.value }
    ensures taken { result ≡ 0 → AreBoth (λ p q. IsTry p q Taken) handle.value back.new.value }
    ensures full { result ≡ 1 → AreBoth (λ p q. IsTry p q Full) handle.value back.new.value }
    ensures contended { result ≡ 2 → AreBoth (λ p q. IsTry p q Contended) handle.value back.new.value }
    ensures held { result ≡ 0 → AreBoth (λ p q. held_by q ≡ held_by p + 1) handle.value back.new.value }
    ensures held_no_more { result ≢ 0 → UnlessEmpty (λ p q. held_by q ≡ held_by p) handle.value back.new.value }
    ensures retired { UnlessEmpty (λ p q. retired_by q ≡ retired_by p) handle.value back.new.value }
    ensures empty { (result ≡ 255) ↔ (handle.value ≡ nothing) }
    ensures unwritten { result ≡ 255 → back.new ≡ back.old }
{
    let Some(mut pass) = handle.into_pass() else {
        return EMPTY;
    };
    let attempt = pass.try_once();
    *back = PermitHandle::of(pass);
    match attempt {
        Attempt::Taken => 0,
        Attempt::Full => 1,
        Attempt::Contended => 2,
    }
}

/// Gives a permit back.
///
/// 0: given back. 1: the pass holds no permit, and nothing was done. 255: empty.
#[unsafe(no_mangle)]
pub extern "C" fn resil_permit_leave(handle: PermitHandle, back: &mut PermitHandle) -> u8
    ensures answers { (result ≤ 1) ⊎ (result ≡ 255) }
    ensures pass { UnlessEmpty IsSamePass handle.value back.new.value }
    ensures gave { result ≡ 0 → AreBoth (λ p q. AppendsEvent p (Gave p.number) (λ _. Unit {0}) q) handle.value back.new.value }
    ensures held { result ≡ 0 → AreBoth (λ p q. held_by p ≡ held_by q + 1) handle.value back.new.value }
    ensures retired { UnlessEmpty (λ p q. retired_by q ≡ retired_by p) handle.value back.new.value }
    ensures none { result ≡ 1 → AreBoth (λ p q. (held_by p ≡ 0) × (q ≡ p)) handle.value back.new.value }
    ensures empty { (result ≡ 255) ↔ (handle.value ≡ nothing) }
    ensures unwritten { result ≡ 255 → back.new ≡ back.old }
{
    let Some(mut pass) = handle.into_pass() else {
        return EMPTY;
    };
    let gave = pass.leave();
    *back = PermitHandle::of(pass);
    if gave { 0 } else { 1 }
}

/// Retires a permit that the pass holds: the pass keeps it back, and one permit fewer is in use.
///
/// 0: retired. 1: the pass holds no permit, and nothing was done. 255: empty.
#[unsafe(no_mangle)]
pub extern "C" fn resil_permit_retire(handle: PermitHandle, back: &mut PermitHandle) -> u8
    ensures answers { (result ≤ 1) ⊎ (result ≡ 255) }
    ensures pass { UnlessEmpty IsSamePass handle.value back.new.value }
    ensures kept_back { result ≡ 0 → AreBoth (λ p q. AppendsEvent p (Retired p.number) (λ _. Unit {0}) q) handle.value back.new.value }
    ensures held { result ≡ 0 → AreBoth (λ p q. held_by p ≡ held_by q + 1) handle.value back.new.value }
    ensures retired { result ≡ 0 → AreBoth (λ p q. retired_by q ≡ retired_by p + 1) handle.value back.new.value }
    ensures none { result ≡ 1 → AreBoth (λ p q. (held_by p ≡ 0) × (q ≡ p)) handle.value back.new.value }
    ensures empty { (result ≡ 255) ↔ (handle.value ≡ nothing) }
    ensures unwritten { result ≡ 255 → back.new ≡ back.old }
{
    let Some(mut pass) = handle.into_pass() else {
        return EMPTY;
    };
    let kept_back = pass.retire();
    *back = PermitHandle::of(pass);
    if kept_back { 0 } else { 1 }
}

/// Raises a permit that the pass has retired: it is free, and one more permit is in use.
///
/// 0: raised. 1: the pass has retired no permit, and nothing was done. 255: empty.
#[unsafe(no_mangle)]
pub extern "C" fn resil_permit_raise(handle: PermitHandle, back: &mut PermitHandle) -> u8
    ensures answers { (result ≤ 1) ⊎ (result ≡ 255) }
    ensures pass { UnlessEmpty IsSamePass handle.value back.new.value }
    ensures raised { result ≡ 0 → AreBoth (λ p q. AppendsEvent p (Raised p.number) (λ _. Unit {0}) q) handle.value back.new.value }
    ensures held { UnlessEmpty (λ p q. held_by q ≡ held_by p) handle.value back.new.value }
    ensures retired { result ≡ 0 → AreBoth (λ p q. retired_by p ≡ retired_by q + 1) handle.value back.new.value }
    ensures none { result ≡ 1 → AreBoth (λ p q. (retired_by p ≡ 0) × (q ≡ p)) handle.value back.new.value }
    ensures empty { (result ≡ 255) ↔ (handle.value ≡ nothing) }
    ensures unwritten { result ≡ 255 → back.new ≡ back.old }
{
    let Some(mut pass) = handle.into_pass() else {
        return EMPTY;
    };
    let raised = pass.raise();
    *back = PermitHandle::of(pass);
    if raised { 0 } else { 1 }
}

/// How many permits the pass has retired and not raised again. The pass comes back unchanged. 0 if the handle is empty.
#[unsafe(no_mangle)]
pub extern "C" fn resil_permit_retired(handle: PermitHandle, back: &mut PermitHandle) -> u32
    ensures back { IfSome handle.value (λ _. back.new.value ≡ handle.value) }
    ensures retired { IfSome handle.value (λ p. result ≡ retired_by p) }
    ensures empty { handle.value ≡ nothing → (result ≡ 0) × (back.new ≡ back.old) }
{
    let Some(pass) = handle.into_pass() else {
        return 0;
    };
    let retired = pass.retired();
    *back = PermitHandle::of(pass);
    retired
}

/// The number of free permits at this point: those in use that no pass holds. 0 if the handle is empty.
#[unsafe(no_mangle)]
pub extern "C" fn resil_permit_available(handle: PermitHandle, back: &mut PermitHandle) -> u32
    ensures pass { UnlessEmpty IsSamePass handle.value back.new.value }
    ensures seen { UnlessEmpty HasSeenMore handle.value back.new.value }
    ensures free { UnlessEmpty (λ p q. result + length (holders q.seen) ≡ in_use_count p.source.max q.seen) handle.value back.new.value }
    ensures held { UnlessEmpty (λ p q. held_by q ≡ held_by p) handle.value back.new.value }
    ensures retired { UnlessEmpty (λ p q. retired_by q ≡ retired_by p) handle.value back.new.value }
    ensures empty { handle.value ≡ nothing → (result ≡ 0) × (back.new ≡ back.old) }
{
    let Some(mut pass) = handle.into_pass() else {
        return 0;
    };
    let free = pass.available();
    *back = PermitHandle::of(pass);
    free
}

/// Frees a pass. A permit that it holds or has retired is never given back. For an empty handle it does nothing.
#[unsafe(no_mangle)]
pub extern "C" fn resil_permit_free(handle: PermitHandle) {
    drop(handle.into_pass());
}
