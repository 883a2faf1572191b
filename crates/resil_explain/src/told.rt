//! Explains the line of an output, by what the line names.

use crate::body::{body_under, line_of, part_upto, read_record, remark, row_fault};
use crate::head::fault_of;
use crate::place::{Line, NameList, ShownBytes, near_separator};
use crate::table::said_of;
use resil_heads::forms::Body;
use resil_heads::subject::Subject;
use resil_input::answer::InWords;
use resil_input::framing::split_input;
use resil_jdk::{JdkEvent, JdkLimits};
use resil_record::answer::{JdkInWords, StateInWords};
use resil_rule::{Event, Limits, Rule, answer_to, rule_at_last};
use std::alloc::Global;
use std::{fmt, str};

/// An input to explain, the command that it is for, and the allocator to use.
#[derive(Clone, Copy)]
pub(crate) struct Context<'a, S> {
    pub alloc: Global,
    pub subject: S,
    pub input: &'a [u8],
}

/// Explains on standard error what the line of an output means for its input, in one to three lines that each begin with `resil: `: first
/// what the line names, which is a row (by its number from 1), the head, the header, or nothing with a place; then the command that
/// accepts what this one refuses. If the line is neither a refusal nor `illegal`, or when out of memory, it reports nothing.
pub(crate) fn explain<R: Eprint + AllocGlobal, S: Subject>(
    rt: &R,
    subject: S,
    line: &[u8],
    input: &[u8],
) -> Option<()> {
    let alloc = rt.alloc();
    let told = Context {
        alloc,
        subject,
        input,
    };
    let text = str::from_utf8(line).ok()?.strip_suffix('\n')?;
    if let Some(position) = text.strip_prefix("illegal ") {
        return explain_row(rt, told, position.parse().ok()?, "illegal");
    }
    let (place, name) = text.strip_prefix("refused ")?.split_once(' ')?;
    let other = other_command(alloc, subject, input, place, name)?;
    match place {
        "head" => explain_head(rt, told, name),
        "body" => explain_header(rt, told, other.is_some()),
        "input" if name == "NoBody" => explain_separator(rt, told),
        _ => match place.parse() {
            Ok(row) => explain_row(rt, told, row, name),
            Err(_) => explain_name(rt, said_of(subject, name)),
        },
    }?;
    explain_name(rt, other)
}

// What to report of a part of an input that another command accepts, if one does. `None` when out of memory for that part.
fn other_command<S: Subject>(
    alloc: Global,
    subject: S,
    input: &[u8],
    place: &str,
    name: &str,
) -> Option<Option<&'static str>> {
    let Some((head, body)) = split_input(input) else {
        return Some(None);
    };
    let number = match place {
        "head" => None,
        "body" => Some(0),
        _ => place.parse().ok(),
    };
    let read = match number {
        Some(number) => read_record(alloc, body, number)?,
        None => None,
    };
    Some(subject.other_command(alloc, name, head, read.as_ref()))
}

// Reports this, if it is anything.
fn explain_name<R: Eprint>(rt: &R, said: Option<&'static str>) -> Option<()> {
    let allowed = said?;
    eprintln!(rt; "resil: {allowed}").ok()
}

// Reports what is wrong in the line of a place.
fn explain_line<R: Eprint>(rt: &R, input: &[u8], place: usize, what: &str) -> Option<()> {
    let line = Line::around(input, place);
    eprintln!(rt; "resil: {line}{what}").ok()
}

// Reports the line that is nearly the separator of head and body, or where the separator must be.
fn explain_separator<R: Eprint, S: Subject>(rt: &R, told: Context<'_, S>) -> Option<()> {
    if let Some(line) = near_separator(told.input) {
        return eprintln!(rt;
            "resil: {line}this line must be just `---`, which separates the head from the body"
        ).ok();
    }
    let keys = told.subject.keys();
    let sizes = if keys.iter().any(|key| key.name() == "core") {
        "`core = ..`, `max = ..` and "
    } else {
        ""
    };
    eprintln!(rt;
        "resil: missing `---` line between head and body; add {sizes}`---` before the rows"
    ).ok()
}

// Reports why a head is refused.
fn explain_head<R: Eprint, S: Subject>(rt: &R, told: Context<'_, S>, name: &str) -> Option<()> {
    let (head, _) = split_input(told.input)?;
    let text = match str::from_utf8(head) {
        Ok(text) => text,
        Err(error) => {
            return explain_line(rt, told.input, error.valid_up_to(), "the head isn't UTF-8");
        }
    };
    match toml::table_from_str(told.alloc, text) {
        Ok(table) => {
            let fault = fault_of(told, text, &table, name)?;
            eprintln!(rt; "resil: {fault}").ok()
        }
        Err(error) => explain_line(rt, told.input, error.span()?.start, error.message()),
    }
}

// Reports what is there instead of a header, and which headers a body may have, unless it is another command's.
fn explain_header<R: Eprint, S: Subject>(
    rt: &R,
    told: Context<'_, S>,
    is_other: bool,
) -> Option<()> {
    let (_, text) = split_input(told.input)?;
    match read_record(told.alloc, text, 0)? {
        Some(record) => {
            let line = line_of(told.input, text, &record);
            let remark = remark(line.text);
            eprintln!(rt; "resil: {line}this isn't a valid header{remark}").ok()?;
        }
        None => eprintln!(rt; "resil: the body is empty").ok()?,
    }
    if is_other {
        return Some(());
    }
    let body = told.subject.body();
    let header = NameList(body.without_resizes().header, ",");
    eprintln!(rt; "resil: the body must begin with the header `{header}`").ok()?;
    let others = OtherHeaders {
        resized: body.has_resizes.then_some(body.header),
        others: told.subject.other_bodies(),
    };
    if others.is_empty() {
        return Some(());
    }
    eprintln!(rt; "resil: {others}").ok()
}

// The other headers that a body may have, each with its condition.
#[derive(Clone, Copy)]
struct OtherHeaders {
    // The header for a pool that is resized, if it is another.
    resized: Option<&'static [&'static str]>,
    others: &'static [(&'static str, Body)],
}

impl OtherHeaders {
    fn is_empty(self) -> bool {
        self.resized.is_none() && self.others.is_empty()
    }
}

impl fmt::Display for OtherHeaders {
    fn fmt<W: fmt::Write>(&self, f: &mut fmt::Formatter<W>) -> fmt::Result {
        let mut with = "with ";
        if let Some(header) = self.resized {
            let header = NameList(header, ",");
            write!(f, "or, if the pool is resized, with `{header}`")?;
            with = "";
        }
        for (when, other) in self.others {
            let header = NameList(other.header, ",");
            let before = if with.is_empty() { ", " } else { "" };
            write!(f, "{before}or, {when}, {with}`{header}`")?;
            with = "";
        }
        Ok(())
    }
}

// Reports why a row is refused, or what the rule replies there.
fn explain_row<R: Eprint, S: Subject>(
    rt: &R,
    told: Context<'_, S>,
    row: usize,
    name: &str,
) -> Option<()> {
    let (head, body) = split_input(told.input)?;
    let header = read_record(told.alloc, body, 0)??;
    let record = read_record(told.alloc, body, row)??;
    let line = line_of(told.input, body, &record);
    let rows = body_under(told.subject, &header);
    if name == "BadRow" {
        let fault = row_fault(rows, &record, &header, told.subject.callers())?;
        let remark = remark(line.text);
        return eprintln!(rt; "resil: row {row}, {line}{fault}{remark}").ok();
    }
    if name == "TimeGoesBack" {
        let before = read_record(told.alloc, body, row.saturating_sub(1))??;
        let place = rows.header.iter().position(|column| *column == "at")?;
        let (time, earlier) = (
            ShownBytes(record.get(place)?),
            ShownBytes(before.get(place)?),
        );
        return eprintln!(rt;
            "resil: row {row}, {line}its time, {time}, is before that of the previous row, {earlier}"
        ).ok();
    }
    let part = part_upto(told.alloc, body, row)?;
    if let Some((limits, events)) = told.subject.pool(told.alloc, head, part) {
        return explain_answer(rt, told.alloc, (row, line), limits, &events);
    }
    if let Some((limits, events)) = told.subject.whole_pool(told.alloc, head, part) {
        return explain_whole_answer(rt, told.alloc, (row, line), limits, &events);
    }
    let allowed = said_of(told.subject, name)?;
    eprintln!(rt; "resil: row {row}, {line}{allowed}").ok()
}

// Reports what the rule of admission replies at a row, by the events up to it, and the pool's state there.
fn explain_answer<R: Eprint>(
    rt: &R,
    alloc: Global,
    (row, line): (usize, Line<'_>),
    limits: Limits,
    events: &[Event],
) -> Option<()> {
    let before = events.get(..row).unwrap_or(events);
    let (rule, event) = rule_at_last(alloc, limits, before)?;
    let answer = InWords(answer_to(&rule, event));
    eprintln!(rt; "resil: row {row}, {line}{answer}").ok()?;
    say_pool(rt, &rule)
}

// Reports what the whole rule of the JDK's pools replies at a row, by the events up to it, and the pool's state there.
fn explain_whole_answer<R: Eprint>(
    rt: &R,
    alloc: Global,
    (row, line): (usize, Line<'_>),
    limits: JdkLimits,
    events: &[JdkEvent],
) -> Option<()> {
    let before = events.get(..row).unwrap_or(events);
    let (rule, event) = resil_jdk::rule_at_last(alloc, limits, before)?;
    let answer = JdkInWords(rule.answer_to(event));
    eprintln!(rt; "resil: row {row}, {line}{answer}").ok()?;
    let state = StateInWords(rule.state());
    eprintln!(rt; "resil: the pool at this point: {state}").ok()
}

// Reports the numbers of a pool.
fn say_pool<R: Eprint>(rt: &R, rule: &Rule<()>) -> Option<()> {
    let (workers, running) = (rule.workers(), rule.running());
    let (core, max) = (rule.core(), rule.max());
    let (waiting, queue) = (rule.waiting(), rule.limits().queue());
    eprintln!(rt;
        "resil: the pool at this point: workers {workers}, busy {running}; core size {core}, maximum size {max}; waiting {waiting} of {queue}"
    ).ok()
}
