//! The elements of bars, of marks between the bands and of columns. Clauses say how they begin.

ghost use Rattle.std.specs.Prelude.{ℕ, ◌≡◌, ◌++◌, IfOk, List, OnOk, string_bytes};
ghost use Rattle.resil_stats.specs.Svg.{IsAddition, IsMadeOf, refusal_opening, removal_opening, worker_opening};

use super::jobs::{JobName, Style, style_of, write_result};
use super::page::{GREY, INK, PAPER, Pixels, REFUSED, RIGHT};
use super::sheet::Sheet;
use super::{Draft, push_part};
use crate::{Bar, Column, Mark, Sign};
use resil_rule::Id;
use std::alloc::{AllocError, Global};

/// What has an element of its own.
pub(crate) trait Element: Copy {
    ghost use Rattle.std.specs.Prelude.{ℕ, List};

    // How the element begins.
    ghost begins: { Self → List ℕ };

    // How the element begins. Errors: `AllocError` when out of memory.
    fn opening(self, alloc: Global) -> Result<String, AllocError>
        ensures { IfOk result (λ text. string_bytes text ≡ begins self) };

    // Writes the rest of the element.
    fn write_rest(self, draft: &mut Draft, sheet: &Sheet);
}

// A bar begins with its class, its job, its places and its row.
impl Element for Bar {
    ghost use Rattle.resil_stats.specs.Svg.{bar_opening};

    ghost begins = { bar_opening };

    fn opening(self, alloc: Global) -> Result<String, AllocError> {
        let class = style_of(self.start).class;
        let (caller, number) = (self.id.caller, self.id.number);
        let (from, to, row) = (self.from, self.to, self.row);
        format!(in alloc;
            "<rect class=\"job {class}\" data-job=\"{caller}.{number}\" data-from=\"{from}\" data-to=\"{to}\" data-row=\"{row}\" "
        )
    }

    // Its position, its job, how that started, from where to where it runs, and its result. A job that isn't finished in the window has
    // a tip after its bar, past the end of the axis.
    fn write_rest(self, draft: &mut Draft, sheet: &Sheet) {
        let Bar { from, to, .. } = self;
        let (job, page) = (JobName(self.id), &sheet.page);
        let Style { words, fill, .. } = style_of(self.start);
        let (x, width) = (page.x(from), page.width(from, to));
        let (y, height) = (page.row_top(self.row), page.bar_height());
        let edge = if width.0 < 150 { "none" } else { PAPER };
        draft.put_time("data-start", page.time(from));
        if to <= page.events {
            draft.put_time("data-end", page.time(to));
        }
        put!(draft; r#"x="{x}" y="{y}" width="{width}" height="{height}" fill="{fill}" stroke="{edge}">"#);
        put!(draft; "<title>job {job}, {words}: runs from event {from}");
        if to > page.events {
            put!(draft; ", not finished");
        } else {
            put!(draft; " to event {to}");
        }
        write_result(draft, sheet, self.id, "; result ", usize::MAX);
        line!(draft; "</title></rect>");
        if to > page.window.end {
            let half = Pixels(height.0 / 2);
            line!(draft; r#"<path d="M{RIGHT} {y}l10 {half}l-10 {half}z" fill="{fill}"/>"#);
        }
    }
}

// The element of a mark between the bands. A mark of what is done to the pool lies over all bands, and has none here.
impl Element for Mark {
    ghost use Rattle.resil_stats.specs.Svg.{mark_opening};

    ghost begins = { mark_opening };

    fn opening(self, alloc: Global) -> Result<String, AllocError> {
        match self.sign {
            Sign::Full(id) => refusal_opening(alloc, "full", id, self.at),
            Sign::Closed(id) => refusal_opening(alloc, "closed", id, self.at),
            Sign::Started => worker_opening(alloc, "started", self.at),
            Sign::Culled => worker_opening(alloc, "culled", self.at),
            Sign::Removed(id) => removal_opening(alloc, id, self.at),
            Sign::Closing | Sign::Stopping | Sign::Resized { .. } | Sign::TimeOut(_) => {
                Ok(String::new(alloc))
            }
        }
    }

    // The sign of a refusal by a full pool is a cross, or a tick if events are close; by a closed pool, a diamond or a short tick. A
    // removal is an arrow out of the queue; a worker that begins or ends without a job is an arrow over the number of workers.
    fn write_rest(self, draft: &mut Draft, sheet: &Sheet) {
        let Some(
            MarkStyle {
                way,
                tick,
                stroke,
                told,
            },
        ) = look_of(self.sign)
        else {
            return;
        };
        let (at, page) = (self.at, &sheet.page);
        let x = page.x(at);
        let way = if page.has_room_for_signs() { way } else { tick };
        let width = if page.event_width() < 160 { "1.2" } else { "2" };
        draft.put_time("data-time", page.time(at));
        put!(draft; r#"d="M{x} {way}" fill="none" stroke="{stroke}" stroke-width="{width}"><title>"#);
        match self.sign {
            Sign::Full(id) | Sign::Closed(id) => {
                put!(draft; "job {} refused at event {at}: {told}", JobName(id));
            }
            Sign::Removed(id) => put!(draft; "job {} {told} at event {at}", JobName(id)),
            _ => put!(draft; "{told} at event {at}"),
        }
        draft.put_clock(page.clock(at));
        line!(draft; "</title></path>");
    }
}

// How a mark between the bands looks if events are far apart and if they are close, and what its title says.
#[derive(Clone, Copy)]
struct MarkStyle {
    way: &'static str,
    tick: &'static str,
    stroke: &'static str,
    told: &'static str,
}

// How a mark looks, if it is between the bands.
fn look_of(sign: Sign) -> Option<MarkStyle> {
    let (up, down) = ("131v-9m-3 3l3 -3l3 3", "122v9m-3 -3l3 3l3 -3");
    let (way, tick, stroke, told) = match sign {
        Sign::Full(_) => ("10m-4 0l8 12m0 -12l-8 12", "8v16", REFUSED, "full"),
        Sign::Closed(_) => ("11l4 5.5l-4 5.5l-4 -5.5z", "15v9", GREY, "closed"),
        Sign::Started => (up, up, INK, "a worker begins without a job"),
        Sign::Culled => (down, down, INK, "a worker is culled"),
        Sign::Removed(_) => {
            let out = "106v9m-3 -3l3 3l3 -3";
            (out, out, GREY, "is removed from the queue")
        }
        Sign::Closing | Sign::Stopping | Sign::Resized { .. } | Sign::TimeOut(_) => return None,
    };
    Some(MarkStyle {
        way,
        tick,
        stroke,
        told,
    })
}

// A column begins with its places and its numbers.
impl Element for Column {
    ghost use Rattle.resil_stats.specs.Svg.{column_opening};

    ghost begins = { column_opening };

    fn opening(self, alloc: Global) -> Result<String, AllocError> {
        let (from, to, full, closed) = (self.from, self.to, self.full, self.closed);
        let (waiting, workers) = (self.waiting, self.workers);
        format!(in alloc;
            "<rect class=\"column\" data-from=\"{from}\" data-to=\"{to}\" data-waiting=\"{waiting}\" data-workers=\"{workers}\" data-full=\"{full}\" data-closed=\"{closed}\" "
        )
    }

    // It lies over all bands, and shows nothing.
    fn write_rest(self, draft: &mut Draft, sheet: &Sheet) {
        let (from, to, full, closed) = (self.from, self.to, self.full, self.closed);
        let (waiting, workers, page) = (self.waiting, self.workers, &sheet.page);
        let (x, end) = page.ends(&self);
        let width = end.behind(x);
        let height = page.bands_end().less(104);
        if let Some((start, end)) = page.span(&self) {
            put!(draft; r#"data-start="{start}" data-end="{end}" "#);
        }
        put!(draft; r#"x="{x}" y="104" width="{width}" height="{height}" fill-opacity="0"><title>"#);
        put!(draft; "events {from} to {to}: at most {waiting} waiting, {workers} workers; ");
        put!(draft; "refused: {full} full, {closed} closed");
        draft.put_clock(page.clock(from));
        line!(draft; "</title></rect>");
    }
}

// How the element of a refusal begins: with its reason, its job and its place. Errors: `AllocError` when out of memory.
fn refusal_opening(alloc: Global, reason: &str, id: Id, at: usize) -> Result<String, AllocError>
    ensures { IfOk result (λ text. string_bytes text ≡ refusal_opening reason.now id at) }
{
    let (caller, number) = (id.caller, id.number);
    format!(in alloc;
        "<path class=\"refused {reason}\" data-job=\"{caller}.{number}\" data-at=\"{at}\" "
    )
}

// How the element of a worker that begins or ends without a job begins. Errors: `AllocError` when out of memory.
fn worker_opening(alloc: Global, class: &str, at: usize) -> Result<String, AllocError>
    ensures { IfOk result (λ text. string_bytes text ≡ worker_opening class.now at) }
{
    format!(in alloc; "<path class=\"{class}\" data-at=\"{at}\" ")
}

// How the element of a removal begins: with its job and its place. Errors: `AllocError` when out of memory.
fn removal_opening(alloc: Global, id: Id, at: usize) -> Result<String, AllocError>
    ensures { IfOk result (λ text. string_bytes text ≡ removal_opening id at) }
{
    let (caller, number) = (id.caller, id.number);
    format!(in alloc; "<path class=\"removed\" data-job=\"{caller}.{number}\" data-at=\"{at}\" ")
}

// The rest of an element. Errors: `AllocError` when out of memory.
fn rest_of<E: Element>(sheet: &Sheet, element: E) -> Result<String, AllocError> {
    let mut draft = Draft::new(sheet.alloc);
    element.write_rest(&mut draft, sheet);
    draft.finish()
}

/// Writes an element.
pub(crate) fn write_element<E: Element>(draft: &mut Draft, sheet: &Sheet, element: E) {
    if let Some(opening) = draft.made(element.opening(sheet.alloc)) {
        put!(draft; "{opening}");
        element.write_rest(draft, sheet);
    }
}

// Adds an element. Errors: `AllocError` when out of memory.
fn push_element<E: Element>(text: &mut String, sheet: &Sheet, element: E) -> Result<(), AllocError>
    ensures { OnOk result ((look : List ℕ) × (string_bytes text.new ≡ string_bytes text.old ++ (E.begins element ++ look))) }
{
    let opening = element.opening(sheet.alloc)?;
    text.push_str(opening.as_str())?;
    push_part(text, rest_of(sheet, element))?;
    Ok(())
}

/// Adds the elements of some things, in their order.
/// Errors: `AllocError` when out of memory.
pub(crate) fn push_elements<E: Element>(
    text: &mut String,
    sheet: &Sheet,
    elements: &[E],
) -> Result<(), AllocError>
    ensures { OnOk result (IsAddition (IsMadeOf E.begins elements.now) (string_bytes text.old) (string_bytes text.new)) }
{
    for element in elements {
        push_element(text, sheet, *element)?;
    }
    Ok(())
}
