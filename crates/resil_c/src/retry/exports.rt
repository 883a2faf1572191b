//! The calls for C.
//!
//! C needn't ensure anything for an interval. For an interval that no call has made a call returns 255, and writes nothing.
ghost use Rattle.std.specs.Prelude.{◌≡◌, ◌≢◌, ◌<◌, ◌≤◌, ◌↔◌, ◌⊎◌, Some};
ghost use Rattle.resil_retry.specs.declared.interval.Backoff.TheVariants.{Fixed, Exponential};
ghost use Rattle.resil_retry.specs.Interval.{interval as wait_after, interval_limit, IsBackoff, IsMultiplier};
ghost use Rattle.resil_c.specs.Handles.{Has};
ghost use Rattle.resil_c.specs.Retry.{backoff_of};

use crate::EMPTY;
use crate::retry::interval::RetryInterval;
use resil_retry::{Interval, RetryError};

/// Makes the interval of one wait of `ms` milliseconds after each attempt, and writes it to `out`.
///
/// 0: made. 1: the wait is above 31,536,000,000 ms, and `out` is unchanged.
#[unsafe(no_mangle)]
pub extern "C" fn resil_retry_fixed(ms: u64, out: &mut RetryInterval) -> u8
    ensures answers { result ≤ 1 }
    ensures too_long { (result ≡ 1) ↔ (interval_limit < ms) }
    ensures made { result ≡ 0 → backoff_of out.new ≡ Some (Fixed ms) }
    ensures unchanged { result ≢ 0 → out.new ≡ out.old }
{
    if Interval::fixed(ms).is_err() {
        return 1;
    }
    *out = RetryInterval::fixed(ms);
    0
}

/// Makes an interval that grows, and writes it to `out`: `initial` milliseconds after the first attempt, multiplied by
/// `numerator / denominator` from attempt to attempt, truncated to whole milliseconds at each step, and at most `cap` milliseconds.
///
/// 0: made. In this order: 1: `initial` or `cap` is above 31,536,000,000 ms. 2: not 1 <= `denominator` <= `numerator`
/// <= 1,000. 3: `cap` is below `initial`. After 1 to 3 `out` is unchanged.
#[unsafe(no_mangle)]
pub extern "C" fn resil_retry_exponential(
    initial: u64,
    numerator: u32,
    denominator: u32,
    cap: u64,
    out: &mut RetryInterval,
) -> u8
    ensures answers { result ≤ 3 }
    ensures too_long { (result ≡ 1) ↔ ((interval_limit < initial) ⊎ (interval_limit < cap)) }
    ensures bad_multiplier { (result ≡ 2) ↔ ((initial ≤ interval_limit) × (cap ≤ interval_limit) × ¬ IsMultiplier numerator denominator) }
    ensures cap_below_initial { (result ≡ 3) ↔ ((initial ≤ interval_limit) × IsMultiplier numerator denominator × (cap < initial)) }
    ensures made { result ≡ 0 → backoff_of out.new ≡ Some (Exponential initial numerator denominator cap) }
    ensures unchanged { result ≢ 0 → out.new ≡ out.old }
{
    match Interval::exponential(initial, numerator, denominator, cap) {
        Ok(_) => (),
        Err(RetryError::IntervalTooLong) => return 1,
        Err(RetryError::BadMultiplier) => return 2,
        Err(_) => return 3,
    }
    *out = RetryInterval::exponential(initial, numerator, denominator, cap);
    0
}

/// Writes the wait after an attempt, in milliseconds, to `wait`. Attempts are numbered from 1.
///
/// 0: written. 1: the attempt is 0. 255: no call has made this interval. After 1 and 255 `wait` is unchanged.
#[unsafe(no_mangle)]
pub extern "C" fn resil_retry_wait(interval: &RetryInterval, attempt: u32, wait: &mut u64) -> u8
    ensures answers { (result ≤ 1) ⊎ (result ≡ 255) }
    ensures wait { result ≡ 0 → Has (λ backoff. wait.new ≡ wait_after backoff attempt) (backoff_of interval.now) }
    ensures limit { result ≡ 0 → wait.new ≤ interval_limit }
    ensures no_attempt { result ≢ 255 → ((result ≡ 1) ↔ (attempt ≡ 0)) }
    ensures empty { (result ≡ 255) ↔ ¬ Has IsBackoff (backoff_of interval.now) }
    ensures unwritten { result ≢ 0 → wait.new ≡ wait.old }
{
    let Some(interval) = interval.interval() else {
        return EMPTY;
    };
    if attempt == 0 {
        return 1;
    }
    *wait = interval.after(attempt);
    0
}
