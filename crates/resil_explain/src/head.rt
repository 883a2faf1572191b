//! What is wrong with a head that is refused: the part that its reader names, the key, its line, and what is allowed there.

use crate::definition::{PathStep, place_of};
use crate::place::{Line, NameList, ShownBytes};
use crate::table::said_of;
use crate::told::Context;
use resil_heads::forms::{Form, Key, PERMIT_COUNT};
use resil_heads::layers::{EXPONENTIAL_RETRY_KEYS, title_and_keys};
use resil_heads::subject::Subject;
use resil_heads::{FaultyKey, HeadError, Part};
use std::alloc::{AllocError, Global};
use std::fmt;
use toml::{Table, Value};

/// What is wrong with a head.
#[derive(Clone, Copy)]
pub(crate) struct Explained<'a> {
    // Its line, from its key on.
    line: Option<Line<'a>>,
    part: Part,
    // The name of the part, or nothing.
    title: &'static str,
    // The key that it is about.
    key: &'a str,
    fault: Fault<'a>,
}

// What is wrong at a key.
#[derive(Clone, Copy)]
enum Fault<'a> {
    // It is an unknown key; these are known.
    Unknown(&'static [Key]),
    // It is a key for a retry with growing waits only.
    NeedsGrowth,
    // It is missing, and must be of this form.
    Missing(Form),
    // Its value isn't of this form.
    Value(Form),
    // The item at this place of its value names no kind of error.
    Kind(usize),
    // This, its value or the key itself, isn't a name.
    Name(&'a str),
    // The core size: the least and the greatest allowed.
    Core(i64, i64),
    // The maximum size: the least allowed, which is the core size, and the greatest.
    Greatest(i64, i64),
    // The maximum sizes of an array: the greatest allowed.
    EachMaximum(i64),
    // The capacity of the queue: the least and the greatest allowed.
    Places(i64, i64),
    // The attempts: the product of those of all retries.
    Calls(u128),
    // What is allowed there.
    Other(&'static str),
}

impl Explained<'_> {
    // The place of the fault: the line if it is known, the layer, and the title of the table.
    fn write_place<W: fmt::Write>(&self, f: &mut fmt::Formatter<W>) -> fmt::Result {
        match self.line {
            Some(line) => {
                let number = line.number;
                write!(f, "line {number}")?;
            }
            None => f.write_str("the head")?,
        }
        if let Part::Layer(place) = self.part {
            let number = place.saturating_add(1);
            write!(f, ", layer {number}")?;
        }
        if !self.title.is_empty() {
            let title = self.title;
            write!(f, ", {title}")?;
        }
        if let Some(line) = self.line {
            let text = ShownBytes(line.text);
            write!(f, ", `{text}`")?;
        }
        f.write_str(": ")
    }

    // What is wrong there.
    fn write_fault<W: fmt::Write>(&self, f: &mut fmt::Formatter<W>) -> fmt::Result {
        let key = ShownBytes(self.key.as_bytes());
        match self.fault {
            Fault::Unknown(words) => {
                let keys = NameList(words, ", ");
                write!(f, "unknown key `{key}`; the keys are {keys}")
            }
            Fault::NeedsGrowth => write!(
                f,
                "`{key}` is allowed only with `backoff = \"exponential\"`"
            ),
            Fault::Missing(form) => write!(f, "missing key `{key}`; it must be {form}"),
            Fault::Value(form) => write!(f, "`{key}` must be {form}"),
            Fault::Kind(place) => {
                let number = place.saturating_add(1);
                write!(
                    f,
                    "item {number} of `{key}` must be a string from `E0` to `E65535`, `FULL` or `EXCEEDED`"
                )
            }
            Fault::Name(name) => {
                let name = ShownBytes(name.as_bytes());
                write!(
                    f,
                    "the name `{name}` must be 1 to 64 bytes of ASCII letters, digits, `-`, `_` and `.`"
                )
            }
            Fault::Core(least, most) => write!(f, "the core size must be from {least} to {most}"),
            Fault::Greatest(0, most) => write!(f, "the maximum size must be from 1 to {most}"),
            Fault::Greatest(core, most) => {
                write!(
                    f,
                    "the maximum size must be from the core size, {core}, to {most}"
                )
            }
            Fault::EachMaximum(most) => write!(
                f,
                "each maximum size must be from 1 to {most}, and at least one must not be below a core size"
            ),
            Fault::Places(least, most) => write!(f, "the queue must have {least} to {most} places"),
            Fault::Calls(calls) => write!(
                f,
                "the attempts of all retries in a chain may multiply to at most 1000, and here they multiply to {calls}"
            ),
            Fault::Other(allowed) => f.write_str(allowed),
        }
    }
}

impl fmt::Display for Explained<'_> {
    fn fmt<W: fmt::Write>(&self, f: &mut fmt::Formatter<W>) -> fmt::Result {
        self.write_place(f)?;
        self.write_fault(f)
    }
}

fn is_one_of(keys: &[Key], name: &str) -> bool {
    keys.iter().any(|key| key.name() == name)
}

// The product of the attempts of all retries of a head.
fn calls_in(head: &Table) -> Option<u128> {
    let mut calls = 1u128;
    for layer in head.get("layer")?.as_array()? {
        let attempts = layer.get("attempts").and_then(Value::as_integer);
        let is_retry = layer.get("kind").and_then(Value::as_str) == Some("retry");
        if is_retry {
            let attempts = u128::try_from(attempts.unwrap_or(3)).unwrap_or(0);
            calls = calls.saturating_mul(attempts);
        }
    }
    Some(calls)
}

// What the value of one of these keys may be.
fn form_of(keys: &[Key], name: &str) -> Option<Form> {
    let key = keys.iter().find(|key| key.name() == name)?;
    Some(key.form())
}

// The least and the greatest integer that one of these keys may have.
fn range_of(keys: &[Key], name: &str) -> Option<(i64, i64)> {
    match form_of(keys, name)? {
        Form::Integer(least, most) | Form::Count(least, most) => Some((least, most)),
        Form::Sizes(least, most) => Some((i64::from(least), i64::from(most))),
        _ => None,
    }
}

// What the maximum size of a head of these keys may be, or each of them if it has arrays.
fn greatest(keys: &[Key], head: &Table) -> Option<Fault<'static>> {
    let (_, most) = range_of(keys, "max")?;
    Some(
        match (
            head.get("core")?.as_integer(),
            head.get("max")?.as_integer(),
        ) {
            (Some(core), Some(_)) => Fault::Greatest(core, most),
            _ => Fault::EachMaximum(most),
        },
    )
}

// A part of a head: its name, the keys that it may have, and its table.
#[derive(Clone, Copy)]
struct PartOfHead<'a> {
    part: Part,
    title: &'static str,
    keys: &'static [Key],
    table: &'a Table,
}

// The part of a head that has these keys.
fn part_of<'a>(keys: &'static [Key], head: &'a Table, part: Part) -> Option<PartOfHead<'a>> {
    let (title, keys, table) = match part {
        Part::Head => ("", keys, head),
        Part::Configuration(_) => ("", keys, head.get("permits")?.as_table()?),
        Part::Layer(place) => {
            let layer = head.get("layer")?.as_array()?.get(place)?.as_table()?;
            let (title, keys) = title_and_keys(layer);
            (title, keys, layer)
        }
    };
    Some(PartOfHead {
        part,
        title,
        keys,
        table,
    })
}

impl<'a> PartOfHead<'a> {
    // The name of a key of the part, empty if it is none.
    fn name_of(self, key: FaultyKey) -> Option<&'a str> {
        Some(match (self.part, key) {
            (Part::Configuration(place), _) | (_, FaultyKey::Other(place)) => {
                self.table.keys().nth(place)?.as_str()
            }
            (_, FaultyKey::Known(name) | FaultyKey::Item(name, _)) => name,
            (_, FaultyKey::Whole) => "",
        })
    }

    // What is wrong at a key of the part, by the name of the refusal.
    fn fault(
        self,
        head: &Table,
        (name, key): (&'a str, FaultyKey),
        why: &str,
    ) -> Option<Fault<'a>> {
        Some(match (why, self.part, key) {
            ("UnknownKey", ..)
                if self.title == "a retry" && is_one_of(EXPONENTIAL_RETRY_KEYS, name) => {
                Fault::NeedsGrowth
            }
            ("UnknownKey", ..) => Fault::Unknown(self.keys),
            ("MissingKey", ..) => Fault::Missing(form_of(self.keys, name)?),
            ("BadValue", Part::Configuration(_), _) => Fault::Value(PERMIT_COUNT),
            ("BadValue", _, FaultyKey::Item(_, place)) => Fault::Kind(place),
            ("BadValue", ..) => Fault::Value(form_of(self.keys, name)?),
            ("BadName", Part::Configuration(_), _) => Fault::Name(name),
            ("BadName", ..) => Fault::Name(self.table.get(name)?.as_str()?),
            ("CoreOutOfRange", ..) => {
                let (least, most) = range_of(self.keys, "core")?;
                Fault::Core(least, most)
            }
            ("MaxOutOfRange", ..) => greatest(self.keys, head)?,
            ("QueueOutOfRange", ..) => {
                let (least, most) = range_of(self.keys, "queue")?;
                Fault::Places(least, most)
            }
            ("TooManyCalls", ..) => Fault::Calls(calls_in(head)?),
            _ => return None,
        })
    }

    // The line at which a head has the faulty key, or at which the part begins that lacks it. Errors: out of memory.
    fn place(
        self,
        alloc: Global,
        head: &str,
        name: &str,
        fault: Fault<'_>,
    ) -> Result<Option<usize>, AllocError> {
        let is_there = self.table.get(name).is_some();
        let key = PathStep::Key(name);
        let layer = PathStep::Key("layer");
        match (self.part, fault) {
            (Part::Configuration(_), _) => place_of(alloc, head, &[PathStep::Key("permits"), key]),
            (Part::Layer(place), Fault::Kind(kind)) => {
                let (place, kind) = (PathStep::Item(place), PathStep::Item(kind));
                match place_of(alloc, head, &[layer, place, key, kind])? {
                    None => place_of(alloc, head, &[layer, place, key]),
                    found => Ok(found),
                }
            }
            (Part::Layer(place), _) if is_there => {
                place_of(alloc, head, &[layer, PathStep::Item(place), key])
            }
            (Part::Layer(place), _) => place_of(alloc, head, &[layer, PathStep::Item(place)]),
            (Part::Head, _) if is_there => place_of(alloc, head, &[key]),
            (Part::Head, _) => Ok(None),
        }
    }
}

/// Why the head of an input is refused by this name: what its reader says, or what the name alone says if its reader accepts it. `None`
/// when out of memory.
pub(crate) fn fault_of<'a, S: Subject>(
    told: Context<'a, S>,
    head: &str,
    table: &'a Table,
    name: &str,
) -> Option<Explained<'a>> {
    let (part, faulty) = match told.subject.fault_in(told.alloc, head.as_bytes()) {
        Some(found) if matches!(found.why(), HeadError::Memory) => return None,
        Some(found) => (found.part(), found.key()),
        None => (Part::Head, FaultyKey::Whole),
    };
    let of = part_of(told.subject.keys(), table, part)?;
    let key = of.name_of(faulty)?;
    let fault = match of.fault(table, (key, faulty), name) {
        Some(fault) => fault,
        None => Fault::Other(said_of(told.subject, name)?),
    };
    let place = of.place(told.alloc, head, key, fault).ok()?;
    Some(Explained {
        line: place.map(|place| Line::from(told.input, place)),
        part,
        title: of.title,
        key,
        fault,
    })
}
