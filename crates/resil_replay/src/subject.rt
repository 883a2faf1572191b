//! What `replay` and `audit` say of their inputs, to explain what is wrong with one.

use crate::head::{POOL_KEYS, read_head};
use crate::rows::{self, ReplayRow};
use crate::timed::{self, read_history};
use csv::ByteRecord;
use resil_heads::document::{check_keys, read_document};
use resil_heads::forms::{Body, Key};
use resil_heads::pool_head::{Uses, read_pool_head};
use resil_heads::run::RUN_KEYS;
use resil_heads::sizes::parse_limits;
use resil_heads::subject::Subject;
use resil_heads::{HeadError, HeadFault};
use resil_input::csv_rows::has_fields;
use resil_rule::{Event, Id, Limits, Reply};
use std::alloc::Global;

// The fields of the header of the results of a `run`.
const RESULTS_HEADER: &[&str] = &["caller", "number", "outcome", "calls", "waits", "asked"];

/// The inputs of `replay`.
#[derive(Clone, Copy)]
pub struct ReplaySubject;

/// The inputs of `audit`.
#[derive(Clone, Copy)]
pub struct AuditSubject;

// The event of a row. The reply, and the job that it takes, are up to the pool.
fn event_of(row: ReplayRow) -> Event {
    let (caller, number) = (0, 0);
    let reply = Reply::Full;
    match row {
        ReplayRow::Submit(id) => Event::Submit { id, reply },
        ReplayRow::Finish(id) => Event::Finish(id),
        ReplayRow::Take => Event::Take(Id { caller, number }),
        ReplayRow::Idle => Event::IdleEnd,
        ReplayRow::Close => Event::Close,
        ReplayRow::Resize { core, max } => Event::Resized { core, max },
    }
}

// Whether a head is refused by this name for a key or a size.
fn is_refused_head(name: &str) -> bool {
    matches!(
        name,
        "UnknownKey" | "CoreOutOfRange" | "MaxOutOfRange" | "QueueOutOfRange"
    )
}

impl Subject for ReplaySubject {
    fn keys(self) -> &'static [Key] {
        POOL_KEYS
    }

    fn fault_in(self, alloc: Global, head: &[u8]) -> Option<HeadFault> {
        read_head(alloc, head).err()
    }

    fn body(self) -> Body {
        rows::BODY
    }

    fn pool(self, alloc: Global, head: &[u8], part: &[u8]) -> Option<(Limits, Vec<Event>)> {
        let limits = read_head(alloc, head).ok()?;
        let read = rows::read_rows(alloc, part).ok()?;
        let events = read.rows.iter().map(|row| event_of(*row));
        Some((limits, events.collect(alloc).ok()?))
    }

    // Names `judge` if the body is a history.
    fn other_command(
        self,
        _alloc: Global,
        name: &str,
        _head: &[u8],
        record: Option<&ByteRecord>,
    ) -> Option<&'static str> {
        let header = record?;
        let untimed = timed::BODY.without_times();
        let is_history = has_fields(header, timed::BODY.header)
            || has_fields(header, untimed.header)
            || has_fields(header, untimed.without_resizes().header);
        (name == "BadHeader" && is_history).then_some(
            "this is a history; check it with `judge`, since `replay` takes events without replies",
        )
    }
}

// The sizes that the head of a `run` gives.
fn limits_of_run(alloc: Global, head: &[u8]) -> Result<Limits, HeadFault> {
    let table = read_document(alloc, head)?;
    check_keys(RUN_KEYS, &table)?;
    parse_limits(&table)
}

// What to say if `judge` accepts a head that `audit` refuses; nothing if there is no memory to read it.
fn judge_of_head(alloc: Global, head: &[u8]) -> Option<&'static str> {
    if read_pool_head(alloc, Uses::NONE, head).is_err() {
        return None;
    }
    let Err(fault) = limits_of_run(alloc, head) else {
        return Some(
            "the command `judge` gives the same answer for a history, and also accepts the head of a `run`",
        );
    };
    match fault.why() {
        HeadError::Memory => None,
        _ => Some("the command `judge` accepts this head: it checks histories of any JDK pool"),
    }
}

impl Subject for AuditSubject {
    fn keys(self) -> &'static [Key] {
        POOL_KEYS
    }

    fn fault_in(self, alloc: Global, head: &[u8]) -> Option<HeadFault> {
        read_head(alloc, head).err()
    }

    fn body(self) -> Body {
        timed::BODY.without_times()
    }

    fn said_of(self, name: &str) -> Option<&'static str> {
        (name == "TooLong").then_some(
            "an input of `audit` may have at most 1048576 bytes; the command `judge` gives the same answer for histories of up to 16777216",
        )
    }

    fn pool(self, alloc: Global, head: &[u8], part: &[u8]) -> Option<(Limits, Vec<Event>)> {
        let limits = read_head(alloc, head).ok()?;
        Some((limits, read_history(alloc, part).ok()?.events))
    }

    // Names `judge` if that accepts it.
    fn other_command(
        self,
        alloc: Global,
        name: &str,
        head: &[u8],
        record: Option<&ByteRecord>,
    ) -> Option<&'static str> {
        let has = |header| record.is_some_and(|record| has_fields(record, header));
        if is_refused_head(name) {
            return judge_of_head(alloc, head);
        }
        if name == "BadHeader" && has(timed::BODY.header) {
            Some(
                "the command `judge` gives the same answer for a history, and also accepts a history with times",
            )
        } else if name == "BadRow" && has(RESULTS_HEADER) {
            Some(
                "the command `judge` gives the same answer for a history, and also accepts the results of a `run` after it",
            )
        } else {
            None
        }
    }
}
