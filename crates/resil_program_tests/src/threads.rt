//! Runs of several callers on several workers. Their order may differ, so their histories are
//! audited.

use crate::shared::{Host, answers, run_program};
use std::alloc::{AllocError, Global};
use std::test::Fail;

// How many lines of a text end with one of these ends, which are separated by bars.
fn count(text: &str, ends: &str) -> usize {
    text.lines()
        .filter(|line| ends.split('|').any(|end| line.ends_with(end)))
        .count()
}

// What `run` writes for an input with this many callers, if it succeeds.
fn report_of(rt: &impl Host, callers: &str, input: &[u8]) -> Option<String> {
    let words = ["resil", "run", "--callers", callers];
    let ended = run_program(rt, &words, input, Vec::new(rt.alloc()));
    if ended.status != 0 {
        return None;
    }
    String::from_utf8(ended.writer).ok()
}

// Whether a history has this many submissions and an idle end for each worker that started, and there
// is a result for each submission that was accepted, under one header.
fn is_balanced(history: &str, results: &str, submissions: usize) -> bool {
    let accepted = count(history, ",core|,queued|,extra");
    let submitted = count(history, ",core|,queued|,extra|,full|,closed");
    submitted == submissions
        && count(results, "").checked_sub(1) == Some(accepted)
        && count(history, "idle,,,") == count(history, ",core|,extra")
}

// The number of replies `core` in a report, if its history is balanced, and legal by `audit`.
fn core_replies_in(
    rt: &impl Host,
    head: &str,
    report: &str,
    submissions: usize,
) -> Result<Option<usize>, Fail> {
    let Some((history, results)) = report.split_once("\n\n") else {
        return Ok(None);
    };
    let judged = format!(in rt.alloc(); "{head}---\n{history}\n")?;
    let is_sound = is_balanced(history, results, submissions)
        && answers(rt, &["resil", "audit"], judged.as_bytes(), 0, "legal\n");
    Ok(is_sound.then_some(count(history, ",core")))
}

// The same for what `run` writes for these rows, if it succeeds.
fn core_replies(
    rt: &impl Host,
    callers: &str,
    head: &str,
    rows: &str,
    submissions: usize,
) -> Result<Option<usize>, Fail> {
    let input = format!(in rt.alloc(); "{head}---\ncaller,script\n{rows}")?;
    match report_of(rt, callers, input.as_bytes()) {
        Some(report) => core_replies_in(rt, head, &report, submissions),
        None => Ok(None),
    }
}

#[test]
fn three_callers(rt: HostRuntime) -> Result<(), Fail> {
    let head = "core = 2\nmax = 4\nqueue = 3\n";
    let rows =
        "1,V1\n2,V1\n3,V1\n1,V1\n2,V1\n3,V1\n1,V1\n2,V1\n3,V1\n1,V1\n2,V1\n3,V1\n1,V1\n2,V1\n3,V1\n\
         1,V1\n2,V1\n3,V1\n1,V1\n2,V1\n3,V1\n1,V1\n2,V1\n3,V1\n1,V1\n2,V1\n3,V1\n1,V1\n2,V1\n3,V1\n";
    assert!(rt; core_replies(&rt, "3", head, rows, 30)?.is_some());
    Ok(())
}

// A row of each of the callers 1 to 64.
fn rows_of_64(alloc: Global) -> Result<String, AllocError> {
    let mut rows = String::new(alloc);
    for caller in 1..65u16 {
        rows.push_str(&format!(in alloc; "{caller},V1\n")?)?;
    }
    Ok(rows)
}

#[test]
fn as_many_callers_as_a_pool_may_have(rt: HostRuntime) -> Result<(), Fail> {
    let head = "core = 64\nmax = 64\nqueue = 1\n";
    let rows = rows_of_64(rt.alloc())?;
    assert_eq!(rt; core_replies(&rt, "64", head, &rows, 64)?, Some(64));
    Ok(())
}
