//! A chain that counts its calls and their outcomes, and reports its failures as they come.

use resil_bulkhead::{Bulkhead, NoPermit};
use resil_call::{Call, FromFn, TellsRefusal};
use resil_layers::{CallCounts, CallsText, Decorate, Observe};
use std::sync::Wait;

/// Why there is no price.
#[derive(Clone, Copy, Debug)]
enum PriceError {
    Full,
    TimedOut,
}

impl From<NoPermit> for PriceError {
    fn from(_refused: NoPermit) -> PriceError {
        PriceError::Full
    }
}

impl TellsRefusal for PriceError {
    fn is_refusal(&self) -> bool {
        matches!(self, PriceError::Full)
    }
}

/// Asks for three prices, the third of which times out, and then for one more while another caller holds the one permit.
fn ask_four<R: Wait>(rt: &R, bulkhead: &Bulkhead, counts: &CallCounts) -> u32 {
    let mut failures: u32 = 0;
    let mut asked: u32 = 0;
    let mut price = FromFn(|| {
        asked = asked.saturating_add(1);
        if asked < 3 {
            Ok(42)
        } else {
            Err(PriceError::TimedOut)
        }
    })
    .inside(bulkhead, rt)
    .counted(counts)
    .inspect(|answer: &Result<u32, PriceError>| {
        if answer.is_err() {
            failures = failures.saturating_add(1);
        }
    })
    .or_else(|_error| 0);
    for _ in 0..3 {
        price.call();
    }
    if bulkhead.enter(rt, &mut bulkhead.new_pass()) {
        price.call();
    }
    drop(price);
    failures
}

/// Prints the failures that the closure saw, and the counts as on an operator's page.
pub fn show<R: AllocGlobal + Print + Wait>(rt: &R) -> anyhow::Result<()> {
    let (bulkhead, _pass) = Bulkhead::new(rt.alloc(), "prices", 1)?;
    let counts = [CallCounts::new("prices")];
    let failures = ask_four(rt, &bulkhead, &counts[0]);
    println!(rt; "{failures} failures")?;
    print!(rt; "{}", CallsText(&counts))?;
    Ok(())
}
