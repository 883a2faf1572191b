//! The retry loop.
//!
//! The first call is attempt 1. If the answer of an attempt is to be tried again, and it isn't the last
//! attempt, the wait of that attempt and the next attempt follow, if the limit allows that wait.

ghost use Rattle.std.specs.Prelude.{ℕ, ◌≡◌, ◌≢◌, ◌≤◌, ◌-◌, ◌+◌};
ghost use Rattle.resil_call.specs.Retry.{IsRetried, IsRetriedWithin};
ghost use Rattle.resil_call.specs.Budget.{IsRetriedInBudget};
ghost use Rattle.resil_call.specs.Sharing.{CanCallAt, CanTry, IsAnswerAt, IsRetriedSharing, IsRetriedSharingWithin};

use crate::backoff::Backoff;
use crate::backoff_for::BackoffFor;
use crate::call::Call;
use crate::limit::{NoLimit, WaitBudget, WaitLimit};
use crate::pause::Pause;
use crate::policy::RetryPolicy;
use crate::retry_test::RetryTest;
use crate::shared::CallAndPause;
use crate::tried::{End, Tried};

/// Calls until an answer isn't to be tried again or no attempt is left, with the backoff's wait after
/// each attempt but the last. It returns the last answer, the number of attempts, and why no more were
/// made (Resilience4j user guide, Retry).
///
/// ```
/// let mut call = FromFn(|| -> Result<u32, u16> { Err(503) });
/// let tried = retry(&RetryPolicy::defaults(), &mut call, &mut NoPause);
/// assert!(rt; tried.answer == Err(503) && tried.attempts == 3 && tried.end == End::Exhausted);
/// ```
pub fn retry<B: Backoff, A: RetryTest<C::Output>, C: Call, P: Pause>(
    policy: &RetryPolicy<B, A>,
    call: &mut C,
    pause: &mut P,
) -> Tried<C::Output>
    requires attempts { 1 ≤ policy.now.max_attempts }
    requires can { C.CanCall call.old }
    requires ask { A.CanAsk policy.now.retry_on }
    requires waits { B.CanAsk policy.now.backoff }
    requires room { (more : ℕ) × P.HasRoom pause.old (policy.now.max_attempts - 1 + more) }
    ensures retried { IsRetried C.IsAnswer (A.IsVerdict policy.now.retry_on) (B.IsWait policy.now.backoff) P.IsPaused policy.now.max_attempts call.old call.new pause.old pause.new result }
    ensures can { C.CanCall call.new }
    ensures room { (all : (n : ℕ) → P.HasRoom pause.old n) → (n : ℕ) → P.HasRoom pause.new n }
    ensures in_time { result.end ≢ End.OutOfTime }
{
    retry_within(policy, &mut NoLimit, call, pause)
}

/// Like `retry`, but each wait may also depend on the answer before it, and before each pause the limit
/// must allow the whole wait. If it doesn't, there is no pause and no other attempt, and the last answer
/// is returned at once, with the end `OutOfTime`.
///
/// ```
/// let tried = retry_within(&policy, &mut WaitBudget(2_000), &mut call, &mut Sleep::new(&rt));
/// ```
pub fn retry_within<
    B: BackoffFor<C::Output>,
    A: RetryTest<C::Output>,
    L: WaitLimit,
    C: Call,
    P: Pause,
>(policy: &RetryPolicy<B, A>, limit: &mut L, call: &mut C, pause: &mut P) -> Tried<C::Output>
    requires attempts { 1 ≤ policy.now.max_attempts }
    requires can { C.CanCall call.old }
    requires ask { A.CanAsk policy.now.retry_on }
    requires waits { B.CanAsk policy.now.backoff }
    requires room { (more : ℕ) × P.HasRoom pause.old (policy.now.max_attempts - 1 + more) }
    ensures retried { IsRetriedWithin C.IsAnswer (A.IsVerdict policy.now.retry_on) (B.IsWaitFor policy.now.backoff) P.IsPaused L.IsAllowed policy.now.max_attempts call.old call.new pause.old pause.new limit.old limit.new result }
    ensures can { C.CanCall call.new }
    ensures room { (all : (n : ℕ) → P.HasRoom pause.old n) → (n : ℕ) → P.HasRoom pause.new n }
{
    let mut shared = CallAndPause { call, pause };
    retry_sharing_within(
        policy,
        limit,
        |shared: &mut CallAndPause<'_, C, P>| -> C::Output
            requires { C.CanCall shared.old.call.now }
            ensures answer { C.IsAnswer shared.old.call.now result shared.new.call.now }
            ensures can { C.CanCall shared.new.call.now }
            ensures pause { shared.new.pause.now ≡ shared.old.pause.now }
            ensures references { (shared.new.call.ghost_name ≡ shared.old.call.ghost_name) × (shared.new.pause.ghost_name ≡ shared.old.pause.ghost_name) }
        { shared.call.call() },
        &mut shared,
    )
}

/// `retry_within` with a budget of milliseconds. It also promises that the sum of all waits and what is
/// left are the budget.
///
/// ```
/// let mut budget = WaitBudget(2_000);
/// let tried = retry_in_budget(&policy, &mut budget, &mut call, &mut Sleep::new(&rt));
/// println!(rt; "{:?}, and {} ms are left", tried.end, budget.0)?;
/// ```
pub fn retry_in_budget<B: BackoffFor<C::Output>, A: RetryTest<C::Output>, C: Call, P: Pause>(
    policy: &RetryPolicy<B, A>,
    budget: &mut WaitBudget,
    call: &mut C,
    pause: &mut P,
) -> Tried<C::Output>
    requires attempts { 1 ≤ policy.now.max_attempts }
    requires can { C.CanCall call.old }
    requires ask { A.CanAsk policy.now.retry_on }
    requires waits { B.CanAsk policy.now.backoff }
    requires room { (more : ℕ) × P.HasRoom pause.old (policy.now.max_attempts - 1 + more) }
    ensures within { IsRetriedInBudget C.IsAnswer (A.IsVerdict policy.now.retry_on) (B.IsWaitFor policy.now.backoff) P.IsPaused policy.now.max_attempts call.old call.new pause.old pause.new budget.old budget.new result }
    ensures can { C.CanCall call.new }
    ensures room { (all : (n : ℕ) → P.HasRoom pause.old n) → (n : ℕ) → P.HasRoom pause.new n }
{
    retry_within(policy, budget, call, pause)
}

/// `retry` for calls that use the value that pauses between them, such as calls that record their own waits together
/// with the pauses: that value is lent to each call and to each pause in turn.
///
/// ```
/// let tried = retry_sharing(&policy, |log: &mut Log| read_and_note(log), &mut log);
/// ```
pub fn retry_sharing<T: Drop, B: Backoff, A: RetryTest<T>, S: Pause, F: Fn(&mut S) -> T>(
    policy: &RetryPolicy<B, A>,
    call: F,
    shared: &mut S,
) -> Tried<T>
    requires attempts { 1 ≤ policy.now.max_attempts }
    requires can { CanTry (CanCallAt (F.pre call)) (IsAnswerAt (F.post call)) S.HasRoom S.IsPaused policy.now.max_attempts shared.old }
    requires ask { A.CanAsk policy.now.retry_on }
    requires waits { B.CanAsk policy.now.backoff }
    ensures { IsRetriedSharing (IsAnswerAt (F.post call)) (A.IsVerdict policy.now.retry_on) (B.IsWait policy.now.backoff) S.IsPaused policy.now.max_attempts shared.old shared.new result }
{
    retry_sharing_within(policy, &mut NoLimit, call, shared)
}

/// `retry_within` for such calls.
///
/// ```
/// let tried = retry_sharing_within(&policy, &mut limit, |log: &mut Log| read_and_note(log), &mut log);
/// ```
pub fn retry_sharing_within<
    T: Drop,
    B: BackoffFor<T>,
    A: RetryTest<T>,
    L: WaitLimit,
    S: Pause,
    F: Fn(&mut S) -> T,
>(policy: &RetryPolicy<B, A>, limit: &mut L, call: F, shared: &mut S) -> Tried<T>
    requires attempts { 1 ≤ policy.now.max_attempts }
    requires can { CanTry (CanCallAt (F.pre call)) (IsAnswerAt (F.post call)) S.HasRoom S.IsPaused policy.now.max_attempts shared.old }
    requires ask { A.CanAsk policy.now.retry_on }
    requires waits { B.CanAsk policy.now.backoff }
    ensures { IsRetriedSharingWithin (IsAnswerAt (F.post call)) (A.IsVerdict policy.now.retry_on) (B.IsWaitFor policy.now.backoff) S.IsPaused L.IsAllowed policy.now.max_attempts shared.old shared.new limit.old limit.new result }
{
    let mut attempt = 1;
    let mut wait = 0;
    loop {
        let answer = call(shared);
        if !policy.retry_on.is_retried(&answer) {
            return Tried {
                answer,
                attempts: attempt,
                end: End::Accepted,
            };
        }
        if attempt >= policy.max_attempts {
            return Tried {
                answer,
                attempts: attempt,
                end: End::Exhausted,
            };
        }
        wait = policy.backoff.next_for(attempt, wait, &answer);
        if !limit.allows(wait) {
            return Tried {
                answer,
                attempts: attempt,
                end: End::OutOfTime,
            };
        }
        shared.pause(wait);
        attempt += 1;
    }
}
