//! One record of version 4: its event and its time.
//!
//! The first field says which fields the row uses. All others must be empty.

ghost use Rattle.std.specs.Prelude.{◌≡◌};
ghost use Rattle.csv.specs.Records.{fields_of};
ghost use Rattle.resil_record.specs.Row.{are_empty, parse_event, parse_id, parse_lone_event, parse_reply, parse_row, parse_sizes, parse_switch};

use csv::ByteRecord;
use resil_input::fields::{field_at, is_text};
use resil_input::number::{parse_caller, parse_from_zero, parse_number};
use resil_jdk::{JdkEvent, JdkReply, TimedJdkEvent};
use resil_rule::Id;

// Whether the fields at these places are empty.
fn are_empty(fields: &ByteRecord, places: &[usize]) -> bool
    ensures { result ≡ are_empty (fields_of fields.now) places.now }
{
    places
        .iter()
        .all(|place| field_at(fields, *place).is_empty())
}

// Reads the name of a reply.
fn parse_reply(name: &[u8]) -> Option<JdkReply>
    ensures { result ≡ parse_reply name.now }
{
    if is_text(name, "core") {
        Some(JdkReply::Core)
    } else if is_text(name, "first") {
        Some(JdkReply::First)
    } else if is_text(name, "queued") {
        Some(JdkReply::Queued)
    } else if is_text(name, "handed") {
        Some(JdkReply::Handed)
    } else if is_text(name, "extra") {
        Some(JdkReply::Extra)
    } else if is_text(name, "full") {
        Some(JdkReply::Full)
    } else if is_text(name, "closed") {
        Some(JdkReply::Closed)
    } else {
        None
    }
}

// Reads the id of a job: a caller from 1 to 65,535, and a number from 1 to 18,446,744,073,709,551,615.
fn parse_id(fields: &ByteRecord) -> Option<Id>
    ensures { result ≡ parse_id (fields_of fields.now) }
{
    let caller = parse_caller(field_at(fields, 1))?;
    let number = parse_number(field_at(fields, 2))?;
    Some(Id { caller, number })
}

// Reads the sizes of a resize, each from 0 to 4,294,967,295. The rule may refuse them.
fn parse_sizes(fields: &ByteRecord) -> Option<JdkEvent>
    ensures { result ≡ parse_sizes (fields_of fields.now) }
{
    let core = u32::try_from(parse_from_zero(field_at(fields, 4))?).ok()?;
    let max = u32::try_from(parse_from_zero(field_at(fields, 5))?).ok()?;
    Some(JdkEvent::Resized { core, max })
}

// Reads `on` or `off`.
fn parse_switch(field: &[u8]) -> Option<bool>
    ensures { result ≡ parse_switch field.now }
{
    if is_text(field, "on") {
        Some(true)
    } else if is_text(field, "off") {
        Some(false)
    } else {
        None
    }
}

// Reads the name of an event that has no other field.
fn parse_lone_event(name: &[u8]) -> Option<JdkEvent>
    ensures { result ≡ parse_lone_event name.now }
{
    if is_text(name, "idle") {
        Some(JdkEvent::IdleEnd)
    } else if is_text(name, "close") {
        Some(JdkEvent::Close)
    } else if is_text(name, "start") {
        Some(JdkEvent::Start)
    } else if is_text(name, "cull") {
        Some(JdkEvent::Cull)
    } else if is_text(name, "stop") {
        Some(JdkEvent::Stop)
    } else {
        None
    }
}

// Reads an event from the fields of a record.
fn parse_event(fields: &ByteRecord) -> Option<JdkEvent>
    ensures { result ≡ parse_event (fields_of fields.now) }
{
    let name = field_at(fields, 0);
    if is_text(name, "submit") && are_empty(fields, &[4, 5, 6]) {
        let id = parse_id(fields)?;
        let reply = parse_reply(field_at(fields, 3))?;
        Some(JdkEvent::Submit { id, reply })
    } else if is_text(name, "take") && are_empty(fields, &[3, 4, 5, 6]) {
        parse_id(fields).map(JdkEvent::Take)
    } else if is_text(name, "finish") && are_empty(fields, &[3, 4, 5, 6]) {
        parse_id(fields).map(JdkEvent::Finish)
    } else if is_text(name, "remove") && are_empty(fields, &[3, 4, 5, 6]) {
        parse_id(fields).map(JdkEvent::Remove)
    } else if is_text(name, "resize") && are_empty(fields, &[1, 2, 3, 6]) {
        parse_sizes(fields)
    } else if is_text(name, "time_out") && are_empty(fields, &[1, 2, 3, 4, 5]) {
        parse_switch(field_at(fields, 6)).map(JdkEvent::TimeOut)
    } else if are_empty(fields, &[1, 2, 3, 4, 5, 6]) {
        parse_lone_event(name)
    } else {
        None
    }
}

/// Reads an event and its time from the fields of a record.
pub(crate) fn parse_row(fields: &ByteRecord) -> Option<TimedJdkEvent>
    ensures { result ≡ parse_row (fields_of fields.now) }
{
    let event = parse_event(fields)?;
    let at = parse_from_zero(field_at(fields, 7))?;
    Some(TimedJdkEvent { event, at })
}
