//! What a command says of its inputs to the code that explains on standard error what is wrong with one of them.
//!
//! Each command has it beside the code that reads its heads and bodies, so the explanation knows no command, and no command knows it.

use crate::error::HeadFault;
use crate::forms::{Body, Key};
use csv::ByteRecord;
use resil_jdk::{JdkEvent, JdkLimits};
use resil_rule::{Event, Limits};
use std::alloc::Global;

/// The inputs of a command.
pub trait Subject: Copy {
    /// The keys of its heads.
    fn keys(self) -> &'static [Key];

    /// What the reader of its heads finds wrong with one, if it refuses it.
    fn fault_in(self, alloc: Global, head: &[u8]) -> Option<HeadFault>;

    /// What its bodies may have.
    fn body(self) -> Body;

    /// What else they may have, each under another header, and when.
    fn other_bodies(self) -> &'static [(&'static str, Body)] {
        &[]
    }

    /// The number of callers that a row may name.
    fn callers(self) -> u16 {
        1
    }

    /// What is said of a refusal that only this command has, by its name.
    fn said_of(self, _name: &str) -> Option<&'static str> {
        None
    }

    /// The limits of the pool that a head names, and the events of a part of its body, if the rule of admission answers its rows.
    fn pool(self, _alloc: Global, _head: &[u8], _part: &[u8]) -> Option<(Limits, Vec<Event>)> {
        None
    }

    /// The same, if the whole rule of the JDK's pools answers its rows.
    fn whole_pool(
        self,
        _alloc: Global,
        _head: &[u8],
        _part: &[u8],
    ) -> Option<(JdkLimits, Vec<JdkEvent>)> {
        None
    }

    /// What is said if another command takes what is refused by this name: the head, or the record of the body that the refusal is
    /// about, which is the header or a row.
    fn other_command(
        self,
        _alloc: Global,
        _name: &str,
        _head: &[u8],
        _record: Option<&ByteRecord>,
    ) -> Option<&'static str> {
        None
    }
}
