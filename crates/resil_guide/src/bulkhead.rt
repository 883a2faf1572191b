//! A bulkhead of one permit: a call under it, a permit for a scope, and what an operator sees.
//!
//! The function that owns the bulkhead uses no `?` after it: that keeps the proof short.

ghost use Rattle.std.specs.Prelude.{◌≡◌, IfOk};
ghost use Rattle.resil_permit.specs.Passes.{held_by};

use resil_bulkhead::{Bulkhead, NoPermit, Pass, Permit};
use resil_call::FromFn;
use std::sync::Wait;
use std::time::{Clock, Duration};

/// Why no number was read.
#[derive(Clone, Copy, Debug)]
enum ReadError {
    Full,
    NotANumber,
}

impl From<NoPermit> for ReadError {
    fn from(_refused: NoPermit) -> ReadError {
        ReadError::Full
    }
}

/// Six and one, under a permit.
fn seven<R: Wait>(rt: &R, bulkhead: &Bulkhead, pass: &mut Pass) -> Result<u8, NoPermit>
    requires { pass.old.source ≡ bulkhead.now.permits }
    ensures source { pass.new.source ≡ pass.old.source }
    ensures seven { IfOk result (λ n. n ≡ 7) }
{
    let six: u8 = 6;
    bulkhead.call(rt, pass, &mut FromFn(|| six + 1))
}

/// Reads the number in a text under a permit, which every way out releases.
fn number<R: Wait>(
    rt: &R,
    bulkhead: &Bulkhead,
    pass: &mut Pass,
    text: &str,
) -> Result<u32, ReadError>
    requires { pass.old.source ≡ bulkhead.now.permits }
    ensures source { pass.new.source ≡ pass.old.source }
    ensures held { held_by pass.new ≡ held_by pass.old }
{
    let _permit = Permit::enter(pass, bulkhead, rt)?;
    let number = text.parse::<u32>().map_err(|_| ReadError::NotANumber)?;
    Ok(number)
}

/// Prints the outcomes of three calls, one after the other. Each waits at most 50 ms for its permit.
fn print_in_turn<R: Clock + Print + Wait>(rt: &R, bulkhead: &Bulkhead) -> anyhow::Result<()> {
    let mut letters = bulkhead.client();
    let longest = Duration::from_millis(50);
    for letter in 0..3u8 {
        let answer = letters.call_within(rt, longest, &mut FromFn(|| letter));
        println!(rt; "{answer:?}")?;
    }
    Ok(())
}

/// Prints the outcomes of calls, and the free permits, before, while and after another holds the one permit.
fn print_calls<R: Clock + Print + Wait>(
    rt: &R,
    bulkhead: &Bulkhead,
    pass: &mut Pass,
    operator: &mut Pass,
    other: &mut Pass,
) -> anyhow::Result<()>
    requires pass { pass.old.source ≡ bulkhead.now.permits }
    requires operator { operator.old.source ≡ bulkhead.now.permits }
    requires other { other.old.source ≡ bulkhead.now.permits }
{
    println!(rt; "{:?}", seven(rt, bulkhead, pass))?;
    println!(rt; "{:?}", number(rt, bulkhead, pass, "12"))?;
    println!(rt; "{:?}", number(rt, bulkhead, pass, "twelve"))?;
    println!(rt; "free: {}", bulkhead.available(operator))?;
    if let Ok(_permit) = Permit::enter(other, bulkhead, rt) {
        println!(rt; "free: {}", bulkhead.available(operator))?;
        println!(rt; "{:?}", seven(rt, bulkhead, pass))?;
    }
    println!(rt; "free: {}", bulkhead.available(operator))?;
    print_in_turn(rt, bulkhead)
}

/// A bulkhead of one permit, with a pass for the calls, one for an operator, and one for another caller that holds the
/// permit meanwhile.
pub fn show<R: AllocGlobal + Clock + Print + Wait>(rt: &R) -> anyhow::Result<()> {
    let (bulkhead, mut pass) = Bulkhead::new(rt.alloc(), "letters", 1)?;
    let mut operator = bulkhead.split(&mut pass);
    let mut other = bulkhead.split(&mut pass);
    print_calls(rt, &bulkhead, &mut pass, &mut operator, &mut other)
}
