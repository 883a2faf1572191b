//! The text of a chart: one SVG, with no script and no reference to anything outside it. Its one style gives colours for a dark background.
//!
//! Each number that is written comes from the chart, and its position is computed from it in whole hundredths of a pixel. `elements` has
//! the elements of bars, refusals and columns; clauses say how they begin. Templates write everything around them into a `Draft`: `frame`,
//! `jobs`, `bands` and `over`, by the places of `page`.

ghost use Rattle.std.specs.Prelude.{ℕ, ◌≡◌, ◌++◌, IfOk, List, OnOk, string_bytes};
ghost use Rattle.resil_stats.specs.Svg.{IsAddition, IsEachDrawn, IsGatheredDrawn, IsRestDrawn, IsSvgOf};

// Adds a template with its values to a draft.
macro_rules! put {
    ($draft:expr; $($template:tt)*) => { $draft.put(format_args!($($template)*)) };
}

// The same, as the end of a line.
macro_rules! line {
    ($draft:expr; $($template:tt)*) => { $draft.put(format_args_nl!($($template)*)) };
}

mod bands;
mod elements;
mod frame;
mod jobs;
mod over;
mod page;
mod sheet;

use crate::Picture;
use crate::results::OutcomesById;
use bands::write_bands;
use elements::push_elements;
use frame::{ending_text, ground_text, opening_text, push_name, push_style, write_frame};
use jobs::{write_labels, write_rows, write_running};
use over::write_over;
use page::{Clock, Page};
use sheet::{Sheet, points_of};
use std::alloc::{AllocError, Global};
use std::fmt::Display;

/// A text that `put!` and `line!` add to. Once it is out of memory, the rest is left out and its end reports that, so that nobody asks in
/// between.
#[derive(Drop)]
pub(crate) struct Draft {
    text: Result<String, AllocError>,
}

impl Draft {
    /// A text without a letter.
    pub(crate) fn new(alloc: Global) -> Draft {
        Draft {
            text: Ok(String::new(alloc)),
        }
    }

    /// Adds a template with its values.
    pub(crate) fn put<D: Display + Drop>(&mut self, template: D) {
        if let Ok(text) = &mut self.text {
            if text.write_fmt(template).is_err() {
                self.text = Err(AllocError);
            }
        }
    }

    /// Adds a time as data of an element, if there is one.
    pub(crate) fn put_time(&mut self, name: &str, time: Option<u64>) {
        if let Some(time) = time {
            put!(self; r#"{name}="{time}" "#);
        }
    }

    /// Adds the time of day of an element's title, if it is known.
    pub(crate) fn put_clock(&mut self, clock: Option<Clock>) {
        if let Some(clock) = clock {
            put!(self; ", {clock} UTC");
        }
    }

    /// The text, if it was made. If not, the draft is out of memory.
    pub(crate) fn made(&mut self, made: Result<String, AllocError>) -> Option<String> {
        if made.is_err() {
            self.text = Err(AllocError);
        }
        made.ok()
    }

    /// The whole text. Errors: `AllocError` when out of memory.
    pub(crate) fn finish(self) -> Result<String, AllocError> {
        self.text
    }
}

// Adds a part to a text, if the part could be made. Errors: `AllocError` when out of memory, also for the part.
fn push_part(text: &mut String, part: Result<String, AllocError>) -> Result<(), AllocError>
    ensures { OnOk result ((part : List ℕ) × (string_bytes text.new ≡ string_bytes text.old ++ part)) }
{
    text.push_str(part?.as_str())
}

// What is written before the bars, or the columns, and so is beneath them. Errors: `AllocError` when out of memory.
fn front_text(sheet: &Sheet, picture: &Picture) -> Result<String, AllocError> {
    let mut draft = Draft::new(sheet.alloc);
    write_frame(&mut draft, sheet, picture);
    if picture.drawn.is_gathered() {
        write_running(&mut draft, sheet, picture);
    } else {
        write_rows(&mut draft, &sheet.page);
    }
    write_bands(&mut draft, sheet, picture);
    write_over(&mut draft, &sheet.page, picture);
    line!(draft; r#"<g stroke-width=".6">"#);
    draft.finish()
}

// What is written between the bars and the refusals. Errors: `AllocError` when out of memory.
fn labels_text(sheet: &Sheet, picture: &Picture) -> Result<String, AllocError> {
    let mut draft = Draft::new(sheet.alloc);
    let below = sheet.page.rows_end();
    line!(draft; "</g>");
    write_labels(&mut draft, sheet, picture);
    line!(draft; r#"<g transform="translate(0 {below})">"#);
    draft.finish()
}

// Adds what is drawn of each event: the bars, the refusals and the levels. Errors: `AllocError` when out of memory.
fn push_each(text: &mut String, sheet: &Sheet, picture: &Picture) -> Result<(), AllocError>
    ensures { OnOk result (IsAddition (IsEachDrawn picture.now) (string_bytes text.old) (string_bytes text.new)) }
{
    push_part(text, front_text(sheet, picture))?;
    push_elements(text, sheet, &picture.drawn.bars)?;
    push_part(text, labels_text(sheet, picture))?;
    push_elements(text, sheet, &picture.marks)?;
    push_part(text, ending_text(sheet, picture))?;
    Ok(())
}

// Adds what is drawn of columns. Errors: `AllocError` when out of memory.
fn push_gathered(text: &mut String, sheet: &Sheet, picture: &Picture) -> Result<(), AllocError>
    ensures { OnOk result (IsAddition (IsGatheredDrawn picture.now) (string_bytes text.old) (string_bytes text.new)) }
{
    push_part(text, front_text(sheet, picture))?;
    push_elements(text, sheet, &picture.drawn.columns)?;
    push_part(text, ending_text(sheet, picture))?;
    Ok(())
}

// Adds all of a chart but its beginning. Errors: `AllocError` when out of memory.
fn push_rest(text: &mut String, sheet: &Sheet, picture: &Picture) -> Result<(), AllocError>
    ensures { OnOk result (IsAddition (IsRestDrawn picture.now) (string_bytes text.old) (string_bytes text.new)) }
{
    if picture.drawn.columns.is_empty() {
        push_each(text, sheet, picture)
    } else {
        push_gathered(text, sheet, picture)
    }
}

/// What a chart says that isn't in its history.
#[derive(Clone, Copy)]
pub struct Caption<'a> {
    /// A name, empty if there is none.
    pub name: &'a str,
    /// When the first event was, if that is known: in microseconds since midnight, UTC.
    pub began: Option<u64>,
    /// The first illegal event, if there is one, and what the rule says there.
    pub illegal: &'a str,
}

/// The text of a chart, laid out by the times of its events if they have times, with the results of its jobs. It begins with the number of
/// the events that are drawn, then the style, and a name unless that is empty. Each bar and each refusal has an element, in their order, or
/// each column if there are columns.
///
/// # Errors
///
/// `AllocError` when out of memory.
pub fn svg_text(
    alloc: Global,
    caption: Caption,
    picture: &Picture,
    times: Option<&[u64]>,
    outcomes: &OutcomesById,
) -> Result<Vec<u8>, AllocError>
    ensures { IfOk result (λ text. IsSvgOf caption.entry.name.now picture.now text.items) }
{
    let page = Page::of(picture, times, caption.began);
    let points = points_of(alloc, &page, picture)?;
    let sheet = Sheet {
        alloc,
        page,
        points: &points,
        outcomes,
        caption,
    };
    let mut text = opening_text(alloc, picture.levels.len())?;
    push_part(&mut text, ground_text(&sheet, picture))?;
    push_style(&mut text)?;
    push_name(&mut text, caption.name)?;
    match push_rest(&mut text, &sheet, picture) {
        Ok(()) => Ok(text.into_bytes()),
        Err(error) => Err(error),
    }
}
