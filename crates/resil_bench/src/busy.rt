//! The rule alone, while all workers of a pool have a job: one more is submitted, one of those that run ends, and the one that waits is
//! picked.

use crate::pool::QUEUE;
use crate::round::Round;
use anyhow::anyhow;
use resil_rule::{Id, Rule, Sizes, Slot};
use std::alloc::Global;

// The next number of Knuth's linear congruential generator for MMIX. Its upper bits are the random ones.
fn next_random(random: u64) -> u64 {
    random
        .wrapping_mul(6_364_136_223_846_793_005)
        .wrapping_add(1_442_695_040_888_963_407)
}

fn submit(rule: &mut Rule<u64>, number: u64) -> anyhow::Result<()> {
    match rule.submit(Id { caller: 1, number }, number) {
        Ok(_reply) => Ok(()),
        Err(_refused) => Err(anyhow!("a job is refused")),
    }
}

fn pick(rule: &mut Rule<u64>) -> anyhow::Result<Slot> {
    match rule.pick() {
        Some(picked) => Ok(picked.slot),
        None => Err(anyhow!("there is no job to pick")),
    }
}

// Gives each worker a job. Adds where it is.
fn occupy(rule: &mut Rule<u64>, out: &mut Vec<Slot>, workers: u32) -> anyhow::Result<()> {
    for number in 0..workers {
        submit(rule, u64::from(number).saturating_add(1))?;
        out.push(pick(rule)?)?;
    }
    Ok(())
}

// Submits a job, ends the one at this place, and picks the new one.
fn exchange(rule: &mut Rule<u64>, number: u64, place: Option<&mut Slot>) -> anyhow::Result<()> {
    let Some(slot) = place else {
        return Err(anyhow!("no job runs"));
    };
    submit(rule, number)?;
    if !rule.finish(*slot) {
        return Err(anyhow!("a job isn't out"));
    }
    *slot = pick(rule)?;
    Ok(())
}

// Does so for this many jobs, each in the place of a random one.
fn exchange_all(rule: &mut Rule<u64>, out: &mut Vec<Slot>, round: Round) -> anyhow::Result<()> {
    let mut random: u64 = 1;
    let mut number = u64::from(round.workers);
    for _ in 0..round.count {
        random = next_random(random);
        number = number.saturating_add(1);
        let index = (random >> 33).checked_rem(out.len() as u64).unwrap_or(0);
        exchange(rule, number, out.get_mut(index as usize))?;
    }
    Ok(())
}

/// Has the rule of a pool of this many workers take, run and end this many jobs, and returns how many these are.
pub(crate) fn run(alloc: Global, round: Round) -> anyhow::Result<u64> {
    let sizes = Sizes::new(round.workers, round.workers, QUEUE)?;
    let mut rule = Rule::new(alloc, sizes, 2)?;
    let mut out = Vec::new(alloc);
    let done = match occupy(&mut rule, &mut out, round.workers) {
        Ok(()) => exchange_all(&mut rule, &mut out, round),
        Err(error) => Err(error),
    };
    match done {
        Ok(()) => Ok(u64::from(round.count)),
        Err(error) => Err(error),
    }
}
