//! The histories of standard input, judged.

use super::row::{Row, parse_row};
use anyhow::{Context, anyhow};
use resil_jdk::{JdkEvent, JdkLimits, audit};
use resil_rule::Verdict;
use std::alloc::Global;
use std::io::{BufRead, BufReader};

// The history that is read: its limits and its events so far.
#[derive(Drop)]
struct Reading {
    alloc: Global,
    limits: Option<JdkLimits>,
    events: Vec<JdkEvent>,
}

impl Reading {
    // Continues with a row. At the end of a history it returns the verdict.
    fn step(&mut self, row: Row) -> anyhow::Result<Option<Verdict>> {
        match row {
            Row::Pool(limits) => {
                self.limits = Some(limits);
                self.events.clear();
                Ok(None)
            }
            Row::Event(event) => {
                self.events.push(event)?;
                Ok(None)
            }
            Row::End => match self.limits {
                Some(limits) => Ok(Some(audit(self.alloc, &limits, self.events.as_slice())?)),
                None => Err(anyhow!("no pool line before the end of a history")),
            },
        }
    }
}

// Prints a verdict.
fn tell<R: Print>(rt: &R, verdict: Verdict) -> anyhow::Result<()> {
    match verdict {
        Verdict::Legal => println!(rt; "legal")?,
        Verdict::FirstIllegal(position) => println!(rt; "illegal {position}")?,
    }
    Ok(())
}

/// Judges each history of standard input, and prints its verdict in a line.
pub(crate) fn judge_all<R: Input + Print + AllocGlobal>(rt: &R) -> anyhow::Result<()> {
    let alloc = rt.alloc();
    let mut reading = Reading {
        alloc,
        limits: None,
        events: Vec::new(alloc),
    };
    let mut lines = 0u64;
    for line in BufReader::new(alloc, rt.reader())?.lines(alloc) {
        lines = lines.saturating_add(1);
        let row = parse_row(line?.as_str()).context(format_args!("line {lines}"))?;
        if let Some(verdict) = reading.step(row)? {
            tell(rt, verdict)?;
        }
    }
    Ok(())
}
