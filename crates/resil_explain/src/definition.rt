//! Finds the place at which a head defines a value.
//!
//! A head that is refused for what it says is valid TOML, so its lines are read once more by the parser's own readers, up to the
//! definition. Steps lead to it: the key of a table, or the place of a table in an array.

use std::alloc::{AllocError, Global};
use toml_parser::text::{first, skip_blank, skip_ws};
use toml_parser::{ErrorKind, Key, ParseError, dotted_key, quoted, starts_string, unquoted};

/// A step to a value.
#[derive(Clone, Copy)]
pub(crate) enum PathStep<'a> {
    /// The value at a key of a table.
    Key(&'a str),
    /// The item at this place of an array, from 0.
    Item(usize),
}

// What follows the first `count` bytes of a text.
fn behind(text: &str, count: usize) -> &str {
    text.get(count..).unwrap_or("")
}

// How many steps have been taken after a name, or `None` if it leads elsewhere.
fn after_name(steps: &[PathStep<'_>], gone: usize, name: &str) -> Option<usize> {
    match steps.get(gone) {
        None => Some(gone),
        Some(PathStep::Key(key)) if *key == name => Some(gone.saturating_add(1)),
        Some(_) => None,
    }
}

// How far the headers read so far have led.
#[derive(Clone, Copy)]
struct Walk {
    // How many steps have been taken after the last header, or `None` if it leads elsewhere.
    gone: Option<usize>,
    // How many tables the array has so far, if a step chooses one of them.
    tables: usize,
}

impl Walk {
    // How many steps have been taken after a name. In an array of tables the name belongs to the last table.
    fn after(self, steps: &[PathStep<'_>], gone: usize, name: &str) -> Option<usize> {
        match steps.get(gone) {
            Some(PathStep::Item(place)) if place.saturating_add(1) == self.tables => {
                after_name(steps, gone.saturating_add(1), name)
            }
            _ => after_name(steps, gone, name),
        }
    }

    // How many steps have been taken after a key, which may have dots.
    fn after_key(self, steps: &[PathStep<'_>], before: usize, key: &Key) -> Option<usize> {
        let mut gone = before;
        for name in key.path.iter() {
            gone = self.after(steps, gone, name.as_str())?;
        }
        self.after(steps, gone, key.last.as_str())
    }

    // Enters the table of a header, which may be one more table of an array.
    fn enter(&mut self, steps: &[PathStep<'_>], key: &Key, is_item: bool) {
        self.gone = self.after_key(steps, 0, key);
        if is_item
            && let Some(gone) = self.gone
            && let Some(PathStep::Item(place)) = steps.get(gone)
        {
            self.tables = self.tables.saturating_add(1);
            let is_chosen = place.saturating_add(1) == self.tables;
            self.gone = is_chosen.then_some(gone.saturating_add(1));
        }
    }
}

// What follows a value.
fn behind_value(alloc: Global, value: &str) -> Result<&str, ParseError> {
    if starts_string(value) {
        return Ok(quoted(alloc, value)?.1);
    }
    if !matches!(first(value), b'[' | b'{') {
        return Ok(unquoted(alloc, value)?.1);
    }
    let mut depth = 0usize;
    let mut rest = value;
    for _part in 0..value.len() {
        let plain = rest.bytes().position(|byte| matches!(
            byte,
            b'"' | b'\'' | b'#' | b'[' | b']' | b'{' | b'}'
        ));
        rest = behind(rest, plain.unwrap_or(rest.len()));
        match first(rest) {
            b'"' | b'\'' => rest = quoted(alloc, rest)?.1,
            b'#' => rest = skip_blank(rest, true),
            opening => {
                rest = behind(rest, 1);
                if matches!(opening, b'[' | b'{') {
                    depth = depth.saturating_add(1);
                } else if depth <= 1 {
                    return Ok(rest);
                } else {
                    depth = depth.saturating_sub(1);
                }
            }
        }
    }
    Ok(rest)
}

// A key with its dots, and the value after `=`.
fn key_and_value(alloc: Global, start: &str) -> Result<(Key, &str), ParseError> {
    let (key, rest) = dotted_key(alloc, start)?;
    match rest.strip_prefix('=') {
        Some(value) => Ok((key, skip_ws(value))),
        None => Err(ParseError::at(ErrorKind::MissingEquals, rest)),
    }
}

// What follows an item of an array or a pair of an inline table, from the next one on.
fn behind_item(alloc: Global, value: &str) -> Result<&str, ParseError> {
    let rest = skip_blank(behind_value(alloc, value)?, true);
    Ok(skip_blank(rest.strip_prefix(',').unwrap_or(rest), true))
}

// The item at a place of an array, twice, in the form of a pair: its key and its value.
fn item(alloc: Global, array: &str, wanted: usize) -> Result<Option<(&str, &str)>, ParseError> {
    let Some(items) = array.strip_prefix('[') else {
        return Ok(None);
    };
    let mut start = skip_blank(items, true);
    for _place in 0..wanted {
        if first(start) == b']' {
            return Ok(None);
        }
        start = behind_item(alloc, start)?;
    }
    Ok((first(start) != b']').then_some((start, start)))
}

// The pair of an inline table that the next step leads to, with its value.
fn pair<'a>(
    alloc: Global,
    table: &'a str,
    steps: &[PathStep<'_>],
    gone: usize,
) -> Result<Option<(&'a str, &'a str)>, ParseError> {
    let Some(pairs) = table.strip_prefix('{') else {
        return Ok(None);
    };
    let mut start = skip_blank(pairs, true);
    for _pair in 0..table.len() {
        if first(start) == b'}' {
            return Ok(None);
        }
        let (key, value) = key_and_value(alloc, start)?;
        let name = key.path.first().unwrap_or(&key.last);
        if after_name(steps, gone, name.as_str()).is_some() {
            return Ok(Some((start, value)));
        }
        start = behind_item(alloc, value)?;
    }
    Ok(None)
}

// What the steps not yet taken lead to in a value.
fn inside<'a>(
    alloc: Global,
    outer: &'a str,
    steps: &[PathStep<'_>],
    gone: usize,
) -> Result<Option<&'a str>, ParseError> {
    let (mut found, mut value) = (outer, outer);
    for index in gone..steps.len() {
        let inner = match steps.get(index) {
            Some(PathStep::Item(place)) => item(alloc, value, *place)?,
            _ => pair(alloc, value, steps, index)?,
        };
        let Some((start, rest)) = inner else {
            return Ok(None);
        };
        found = start;
        value = rest;
    }
    Ok(Some(found))
}

// Enters the table of a header. Returns the header, if the steps lead to it, and what follows.
fn take_header<'a>(
    alloc: Global,
    walk: &mut Walk,
    steps: &[PathStep<'_>],
    start: &'a str,
) -> Result<(Option<&'a str>, &'a str), ParseError> {
    let (key, rest) = dotted_key(alloc, skip_ws(start.trim_start_matches('[')))?;
    walk.enter(steps, &key, start.starts_with("[["));
    let is_found = walk.gone == Some(steps.len());
    let next = skip_blank(rest.trim_start_matches(']'), true);
    Ok((is_found.then_some(start), next))
}

// Reads a key with its value. Returns what the steps lead to in them, and what follows.
fn take_pair<'a>(
    alloc: Global,
    walk: Walk,
    steps: &[PathStep<'_>],
    start: &'a str,
) -> Result<(Option<&'a str>, &'a str), ParseError> {
    let (key, value) = key_and_value(alloc, start)?;
    let next = skip_blank(behind_value(alloc, value)?, true);
    let gone = match walk.gone {
        Some(before) => walk.after_key(steps, before, &key),
        None => None,
    };
    let found = match gone {
        Some(gone) if gone == steps.len() => Some(start),
        Some(gone) => inside(alloc, value, steps, gone)?,
        None => None,
    };
    Ok((found, next))
}

// The rest of a document, which has no byte order mark, from the definition on that these steps lead to.
fn find<'a>(
    alloc: Global,
    document: &'a str,
    steps: &[PathStep<'_>],
) -> Result<Option<&'a str>, ParseError> {
    let mut walk = Walk {
        gone: Some(0),
        tables: 0,
    };
    let mut start = skip_blank(document, true);
    for _line in 0..document.len() {
        if start.is_empty() {
            return Ok(None);
        }
        let (found, next) = if start.starts_with('[') {
            take_header(alloc, &mut walk, steps, start)?
        } else {
            take_pair(alloc, walk, steps, start)?
        };
        if found.is_some() {
            return Ok(found);
        }
        start = next;
    }
    Ok(None)
}

/// The place in a head at which the definition begins that these steps lead to, or `None` if there is none.
///
/// # Errors
///
/// Out of memory.
pub(crate) fn place_of(
    alloc: Global,
    head: &str,
    steps: &[PathStep<'_>],
) -> Result<Option<usize>, AllocError> {
    match find(alloc, head.trim_start_matches('\u{feff}'), steps) {
        Ok(found) => Ok(found.map(|rest| head.len().saturating_sub(rest.len()))),
        Err(ParseError::OutOfMemory) => Err(AllocError),
        Err(ParseError::At(..)) => Ok(None),
    }
}
