//! Retries: the waits that no chain reaches, and the texts of errors.
//!
//! `examples/chain` shows what a chain of one retry returns, and how its head and its rows are refused.

use crate::shared::{assert_all_shown, config, script};
use resil_retry::{Interval, Kind, MAX_INTERVAL, Outcome, Player, RetryError, Waits, retry};
use std::alloc::Global;

// Three attempts, half a second apart, at a call that fails and then returns 7, with just enough room for their waits.
// Returns the outcome, the ending, the waits and the room that is left, as one string.
fn played_later(alloc: Global) -> Result<String, RetryError> {
    let error = Outcome::Error(Kind::Code(1));
    let script = script(alloc, &[error, Outcome::Value(7)])?;
    let config = config(alloc, 3, &[], &[Kind::Code(2)])?;
    let mut waits = Waits::new(alloc, config.max_attempts() as usize - 1)?;
    let (outcome, ending) = retry(&config, &mut Player::new(&script), &mut waits);
    let text = format!(in alloc;
        "{outcome:?} {ending:?} {:?} {}",
        waits.items(),
        waits.room()
    )?;
    Ok(text)
}

#[test]
fn retry_by_hand(rt: HostRuntime) {
    let text = played_later(rt.alloc()).expect(&rt, "the script is played");
    assert!(rt; text.as_str() == "Value(7) Later [500] 1");
}

// The wait after the last attempt that a number can name. It comes at once, however slowly waits grow to their cap.
fn last_wait(initial: u64, numerator: u32, denominator: u32, cap: u64) -> Option<u64> {
    match Interval::exponential(initial, numerator, denominator, cap) {
        Ok(interval) => Some(interval.after(u32::MAX)),
        Err(_) => None,
    }
}

// Truncation keeps a wait of 1 at 3/2.
#[test]
fn last_waits(rt: HostRuntime) {
    assert!(rt; last_wait(1, 3, 2, 100) == Some(1));
    assert!(rt; last_wait(1, 1_000, 1, MAX_INTERVAL) == Some(31_536_000_000));
    assert!(rt; last_wait(1_000, 1_000, 999, MAX_INTERVAL) == Some(31_536_000_000));
}

const ERRORS: &str = "an interval may be at most 31,536,000,000 ms
the cap is below the initial interval
the script has no outcome
a retry must have at least one attempt
a retry may have at most 1,000 attempts
out of memory";

#[test]
fn refusals_as_text(rt: HostRuntime) {
    let errors = [
        RetryError::IntervalTooLong,
        RetryError::CapBelowInitial,
        RetryError::EmptyScript,
        RetryError::NoAttempts,
        RetryError::TooManyAttempts,
        RetryError::Memory,
    ];
    assert_all_shown(&rt, rt.alloc(), &errors, ERRORS);
}
