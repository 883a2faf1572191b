//! Callees, which are calls that follow a script, and the retry of one.
//!
//! This is the retry of any call, by the policy of a configuration. The waits are recorded in
//! reserved room, one for each attempt but the last, so a retry allocates nothing and can't fail.

ghost use Rattle.std.specs.Prelude.{◌≡◌, ◌≤◌, ◌+◌, ◌-◌, ◌++◌, length, List, Some, IsSomeAnd};
ghost use Rattle.resil_retry.specs.declared.outcome.Outcome.{Outcome};
ghost use Rattle.resil_retry.specs.Retry.{retry_of, ending_at};
ghost use Rattle.resil_retry.specs.Script.{first, rest};

use crate::config::RetryConfig;
use crate::outcome::{Ending, Outcome};
use crate::waits::Waits;
use resil_call::{Call, End};

/// A call that returns outcomes, follows a script, and can be made repeatedly.
///
/// ```
/// let mut player = Player::new(&script);
/// let outcome = player.call();
/// ```
pub trait Callee: Call<Output = Outcome> {
    /// The outcomes of its calls from now on.
    ghost script: { Self → List Outcome };

    /// It can be called.
    ghost can_call: { (x : Self) → Self.CanCall x };

    /// A call returns the first outcome of its script and drops it, unless it is the only one.
    ghost answers: { (x y : Self) (outcome : Outcome) → Self.IsAnswer x outcome y → (first (script x) ≡ Some outcome) × (script y ≡ rest (script x)) };
}

/// Calls the callee until an outcome isn't to be retried or no attempt is left, records the wait
/// after each attempt but the last, in milliseconds, and returns the outcome and how the retry ended
/// (Resilience4j user guide, Retry). The list of waits needs room for `max_attempts - 1` more.
///
/// An outcome that isn't to be retried is returned at once: a value as `First` or `Later`, an error
/// as `Ignored`. If no attempt is left, the last outcome is returned as `Exhausted`; a value becomes
/// the error `Exceeded` if the configuration fails after the last attempt.
///
/// ```
/// let mut waits = Waits::new(alloc, config.max_attempts() as usize - 1)?;
/// let (outcome, ending) = retry(&config, &mut Player::new(&script), &mut waits);
/// ```
pub fn retry<C: Callee>(
    config: &RetryConfig,
    callee: &mut C,
    waits: &mut Waits,
) -> (Outcome, Ending)
    requires { config.now.max_attempts - 1 ≤ waits.old.room }
    ensures answer { IsSomeAnd (retry_of config.now (C.script callee.old)) (λ r. result ≡ (r.outcome, r.ending)) }
    ensures waits { IsSomeAnd (retry_of config.now (C.script callee.old)) (λ r. waits.new.items ≡ waits.old.items ++ r.waits) }
    ensures room { IsSomeAnd (retry_of config.now (C.script callee.old)) (λ r. waits.new.room + length r.waits ≡ waits.old.room) }
    ensures calls { IsSomeAnd (retry_of config.now (C.script callee.old)) (λ r. r.calls ≡ length r.waits + 1) }
    ensures callee { IsSomeAnd (retry_of config.now (C.script callee.old)) (λ r. C.script callee.new ≡ r.after) }
{
    let tried = resil_call::retry(config.policy(), callee, waits);
    match tried.end {
        End::Accepted => (tried.answer, ending_at(tried.attempts, tried.answer)),
        End::Exhausted => (config.exhausted_outcome(tried.answer), Ending::Exhausted),
        End::OutOfTime => unreachable!(),
    }
}

// How a retry ends with an outcome that isn't to be retried.
fn ending_at(attempt: u32, outcome: Outcome) -> Ending
    ensures { result ≡ ending_at attempt outcome }
{
    match outcome {
        Outcome::Value(_) if attempt == 1 => Ending::First,
        Outcome::Value(_) => Ending::Later,
        Outcome::Error(_) => Ending::Ignored,
    }
}
