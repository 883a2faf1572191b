//! What `simulate` says of its inputs to the code that explains what is wrong with one.

use crate::command::LoadView;
use crate::head::{LOAD_KEYS, read_load_head};
use crate::rows::LOAD_BODY;
use resil_heads::forms::{Body, Key};
use resil_heads::subject::Subject;
use resil_heads::{FaultyKey, HeadError, HeadFault};
use resil_record::body;
use resil_replay::timed;
use std::alloc::Global;

// A load may be a history with times.
const OTHER_BODIES: &[(&str, Body)] = &[
    ("for a history", timed::BODY),
    ("for a history of any JDK pool", body::BODY),
];

// Why a head is refused: if it can be read and names no more pools than the view has, what it says of `made` doesn't fit the history.
fn fault_of_load(alloc: Global, view: LoadView, head: &[u8]) -> Option<HeadFault> {
    match read_load_head(alloc, head) {
        Err(fault) => Some(fault),
        Ok(load) if view == LoadView::History && load.pools.len() > 1 => None,
        Ok(_) => Some(HeadFault::at(FaultyKey::Known("made"), HeadError::BadValue)),
    }
}

impl Subject for LoadView {
    fn keys(self) -> &'static [Key] {
        LOAD_KEYS
    }

    fn fault_in(self, alloc: Global, head: &[u8]) -> Option<HeadFault> {
        fault_of_load(alloc, self, head)
    }

    fn body(self) -> Body {
        LOAD_BODY
    }

    fn other_bodies(self) -> &'static [(&'static str, Body)] {
        OTHER_BODIES
    }

    fn said_of(self, name: &str) -> Option<&'static str> {
        Some(match name {
            "ManyPools" => "with `--history` there must be exactly one pool, with one size each",
            "TimeTooLate" =>
                "its time or a later end of the history, all runs up to it, `wakes` and `idle_for` may add up to at most 18446744073709551615",
            "NoTakes" =>
                "the head needs `takes`, since this job was never started, or with `unfinished = \"takes\"` never finished",
            "Illegal" =>
                "no pool of any size has this history: this event isn't allowed after those before it",
            _ => return None,
        })
    }
}
