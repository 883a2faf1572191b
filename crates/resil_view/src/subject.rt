//! What a view of a history says of its inputs to the code that explains what is wrong with one.

use crate::command::HistoryView;
use crate::drawn::DRAWN_USES;
use crate::judge::{AnyHistory, Events, own_limits, read_any};
use crate::numbers::USES;
use resil_heads::forms::{Body, Key};
use resil_heads::pool_head::{POOL_KEYS, Uses, read_pool_head};
use resil_heads::subject::Subject;
use resil_heads::{FaultyKey, HeadError, HeadFault};
use resil_jdk::{JdkEvent, JdkLimits, jdk_history};
use resil_record::body;
use resil_replay::timed::{self, read_history};
use resil_rule::{Event, Limits};
use std::alloc::Global;

// What the bodies of a history may have besides those of `audit`.
const BODIES: &[(&str, Body)] = &[
    ("with times", timed::BODY),
    ("for any JDK pool", body::BODY),
];

// Why `stats` refuses a head: if that can be read, what it says of `made` doesn't fit the history.
fn fault_of_numbers(alloc: Global, head: &[u8]) -> HeadFault {
    match read_pool_head(alloc, USES, head).err() {
        Some(fault) => fault,
        None => HeadFault::at(FaultyKey::Known("made"), HeadError::BadValue),
    }
}

impl Subject for HistoryView {
    fn keys(self) -> &'static [Key] {
        POOL_KEYS
    }

    fn fault_in(self, alloc: Global, head: &[u8]) -> Option<HeadFault> {
        match self {
            HistoryView::Judge => read_pool_head(alloc, Uses::NONE, head).err(),
            HistoryView::Stats => Some(fault_of_numbers(alloc, head)),
            HistoryView::Timeline => read_pool_head(alloc, DRAWN_USES, head).err(),
        }
    }

    fn body(self) -> Body {
        timed::BODY.without_times()
    }

    fn other_bodies(self) -> &'static [(&'static str, Body)] {
        BODIES
    }

    fn said_of(self, name: &str) -> Option<&'static str> {
        (name == "BadRow").then_some(
            "a record after the history must be a result: a caller, a number, an outcome, calls, waits and answers",
        )
    }

    fn pool(self, alloc: Global, head: &[u8], part: &[u8]) -> Option<(Limits, Vec<Event>)> {
        let limits = own_limits(&read_pool_head(alloc, Uses::NONE, head).ok()?.limits)?;
        Some((limits, read_history(alloc, part).ok()?.events))
    }

    fn whole_pool(
        self,
        alloc: Global,
        head: &[u8],
        part: &[u8],
    ) -> Option<(JdkLimits, Vec<JdkEvent>)> {
        let limits = read_pool_head(alloc, Uses::NONE, head).ok()?.limits;
        let AnyHistory { events, times: _ } = read_any(alloc, part).ok()?;
        match events {
            Events::Own(events) => {
                // The rule of `audit` judges these, and `pool` gives them.
                if own_limits(&limits).is_some() {
                    return None;
                }
                Some((limits, jdk_history(alloc, &events).ok()?))
            }
            Events::Whole(events) => Some((limits, events)),
        }
    }
}
