//! The bands below the rows: the refusals, the depth of the queue under its capacity, and the workers between the core size and the maximum
//! size. Their outlines are lines of level and upright pieces, which go from the left end of the axis to the right one.

ghost use Rattle.std.specs.Prelude.{◌≡◌, ◌≤◌, ◌+◌};

use super::Draft;
use super::elements::write_element;
use super::over::column_of;
use super::page::{
    CLOSED, CORE, DEPTH, EXTRA, GREY, INK, LEFT, Pixels, QUEUED, REFUSED, RIGHT, SIZE, Scale,
    WORKERS,
};
use super::sheet::{Quantity, Sheet};
use crate::{Picture, Sign};

// The class of a line, its colour, and how long its dashes and the gaps between them are.
fn style_of(measure: Quantity) -> (&'static str, &'static str, &'static str) {
    match measure {
        Quantity::Waiting => ("waiting", DEPTH, "none"),
        Quantity::CoreSize => ("core-size", CORE, "5 3"),
        Quantity::GreatestSize => ("greatest-size", SIZE, "2 3"),
        _ => ("workers", INK, "none"),
    }
}

// Writes the steps to the points, which begin at the height of a first number.
fn write_steps(draft: &mut Draft, sheet: &Sheet, scale: &Scale, measure: Quantity, first: usize) {
    let mut height = scale.y(first);
    put!(draft; "M{LEFT} {height}");
    for point in sheet.points {
        let y = scale.y(measure.of(point));
        if y.0 != height.0 {
            let x = point.x;
            if x.0 == LEFT.0 {
                put!(draft; "V{y}");
            } else {
                put!(draft; "H{x}V{y}");
            }
        }
        height = y;
    }
    put!(draft; "H{RIGHT}");
}

/// Writes a line, which begins at a first number.
pub(crate) fn write_line(
    draft: &mut Draft,
    sheet: &Sheet,
    scale: &Scale,
    measure: Quantity,
    first: usize,
) {
    let (class, stroke, dashes) = style_of(measure);
    put!(draft; r#"<path class="{class}" d=""#);
    write_steps(draft, sheet, scale, measure, first);
    line!(draft; r#"" fill="none" stroke="{stroke}" stroke-dasharray="{dashes}" stroke-width="1.5"/>"#);
}

/// Writes the area between the line of 0 and the steps to the points.
pub(crate) fn write_area(
    draft: &mut Draft,
    sheet: &Sheet,
    scale: &Scale,
    measure: Quantity,
    fill: &str,
) {
    let bottom = scale.bottom;
    put!(draft; r#"<path d=""#);
    write_steps(draft, sheet, scale, measure, 0);
    line!(draft; r#"V{bottom}H{LEFT}Z" fill="{fill}"/>"#);
}

// How many digits a number has: eight if it has more.
fn digits(number: usize) -> usize {
    let bounds = [10, 100, 1000, 10_000, 100_000, 1_000_000, 10_000_000];
    let passed = bounds.iter().filter(|bound| number >= **bound);
    passed.count().saturating_add(1)
}

/// Writes a number of a scale in the gutter, after a word. The gutter has room for eight letters; more of them are drawn closer together.
pub(crate) fn write_number(draft: &mut Draft, word: &str, number: usize, y: Pixels, fill: &str) {
    put!(draft; r#"<text x="86" y="{y}" fill="{fill}" text-anchor="end""#);
    if word.len().saturating_add(digits(number)) > 8 {
        put!(draft; r#" textLength="80" lengthAdjust="spacingAndGlyphs""#);
    }
    line!(draft; ">{word}{number}</text>");
}

/// Writes the greatest number of a scale, hanging from its line, and the 0 on the other one.
pub(crate) fn write_ends(draft: &mut Draft, scale: &Scale, word: &str, most: usize, fill: &str) {
    write_number(draft, word, most, scale.top.and(15), fill);
    write_number(draft, "", 0, scale.bottom, GREY);
}

// Writes the refusals of columns, in grey, and over them those of a full pool, under a line at the most refusals of one column.
fn write_refused(draft: &mut Draft, sheet: &Sheet) {
    let refused = sheet.points.iter().map(|point| Quantity::Refused.of(point));
    let most = refused.max().unwrap_or(0);
    let scale = Scale::between(Pixels(800), Pixels(2800), most);
    write_area(draft, sheet, &scale, Quantity::Refused, CLOSED);
    write_area(draft, sheet, &scale, Quantity::Full, REFUSED);
    if most > 0 {
        let top = scale.top;
        line!(draft; r#"<path d="M{LEFT} {top}H{RIGHT}" fill="none" stroke="{CLOSED}" stroke-dasharray="2 3"/>"#);
        write_number(draft, "most ", most, scale.bottom.and(2), GREY);
    }
}

/// The top of the scale of the jobs that wait, and whether the capacity is in sight. A capacity above four times the most jobs that wait is
/// out of sight, and the scale then goes up to twice that number. If a height is given, a capacity above it is out of sight.
pub(crate) fn waiting_scale(picture: &Picture) -> (usize, bool) {
    let (capacity, most) = (picture.limits.queue() as usize, picture.stats.most.waiting);
    match picture.heights.waiting {
        Some(height) => (height, capacity <= height),
        None if capacity <= most.saturating_mul(4) => (capacity, true),
        None => (most.saturating_mul(2), false),
    }
}

/// The top of the scale of the workers, and whether the maximum size is in sight. One above 64 and above four times the most workers is out
/// of sight, and the scale then goes up to twice that number. If a height is given, one above it is out of sight.
pub(crate) fn workers_scale(picture: &Picture) -> (usize, bool) {
    let (_, greatest) = greatest_sizes(picture);
    let most = picture.stats.most.workers;
    match picture.heights.workers {
        Some(height) => (height, greatest <= height),
        None if greatest <= 64 || greatest <= most.saturating_mul(4) => (greatest, true),
        None => (most.saturating_mul(2), false),
    }
}

// Writes the depth of the queue, which is 0 if there is none. While the queue is full, an edge lies on the capacity. The band of the
// refusals shows nothing of it.
fn write_queue(draft: &mut Draft, sheet: &Sheet, picture: &Picture) {
    let capacity = picture.limits.queue() as usize;
    let most = picture.stats.most.waiting;
    if capacity == 0 {
        let scale = Scale::between(Pixels(3200), Pixels(10_400), 1);
        write_line(draft, sheet, &scale, Quantity::Waiting, 0);
        return write_number(draft, "", 0, scale.bottom, GREY);
    }
    let (greatest, is_seen) = waiting_scale(picture);
    let scale = Scale::between(Pixels(3200), Pixels(10_400), greatest);
    write_area(draft, sheet, &scale, Quantity::Waiting, QUEUED);
    write_line(draft, sheet, &scale, Quantity::Waiting, 0);
    let line = scale.y(capacity);
    if most >= capacity {
        let edge = Scale::between(line.less(2), line.and(2), 1);
        write_area(draft, sheet, &edge, Quantity::IsFull(capacity), REFUSED);
    }
    if is_seen {
        line!(draft; r#"<path class="capacity" d="M{LEFT} {line}H{RIGHT}" fill="none" stroke="{REFUSED}" stroke-dasharray="5 3"/>"#);
        let base = Pixels(line.and(15).0.min(9000));
        write_number(draft, "full ", capacity, base, REFUSED);
        write_number(draft, "", 0, scale.bottom, GREY);
    } else if most > 0 {
        let base = Pixels(scale.y(most).and(20).0.min(9000));
        write_number(draft, "most ", most, base, GREY);
        write_number(draft, "", 0, scale.bottom, GREY);
    }
}

// The place of the label of the core size, in hundredths of a pixel: at its line, but below the label of the maximum size and in the band
// of the workers.
fn core_label(line: u32) -> u32
    ensures below { 16500 ≤ result }
    ensures within { result ≤ 19800 }
    ensures beside { 15900 ≤ line → line ≤ 19200 → result ≡ line + 600 }
{
    line.saturating_add(600).max(16_500).min(19_800)
}

// The greatest core size and the greatest maximum size that the pool ever has.
fn greatest_sizes(picture: &Picture) -> (usize, usize) {
    let (core, max) = picture.opening;
    let cores = picture.levels.iter().map(|level| level.core).max();
    let greatest = picture.levels.iter().map(|level| level.max).max();
    let cores = cores.unwrap_or(core).max(core);
    (cores as usize, greatest.unwrap_or(max).max(max) as usize)
}

// Writes the number of workers, orange above the core size, and the lines of their sizes, which step at a resize. The gutter shows the
// sizes that the pool begins with. The 0 has its label if that of the core size leaves room for it.
fn write_workers(draft: &mut Draft, sheet: &Sheet, picture: &Picture) {
    let (core, max) = (picture.opening.0 as usize, picture.opening.1 as usize);
    let (cores, greatest) = greatest_sizes(picture);
    let most = picture.stats.most.workers;
    let (end, is_seen) = workers_scale(picture);
    let scale = Scale::between(Pixels(13_400), Pixels(19_800), end);
    write_area(draft, sheet, &scale, Quantity::Workers, EXTRA);
    write_area(draft, sheet, &scale, Quantity::CoreWorkers, WORKERS);
    write_line(draft, sheet, &scale, Quantity::Workers, 0);
    let is_core_seen = cores <= end;
    let labelled = if is_seen { greatest } else { most };
    let above = match picture.heights.workers {
        Some(_) => Pixels(scale.y(labelled).and(15).0.min(18_200)),
        None => scale.top.and(15),
    };
    if is_core_seen {
        write_line(draft, sheet, &scale, Quantity::CoreSize, core);
    }
    if is_seen {
        write_line(draft, sheet, &scale, Quantity::GreatestSize, max);
        write_number(draft, "max ", max, above, SIZE);
    } else {
        write_number(draft, "most ", most, above, GREY);
    }
    let line = core_label(scale.y(core).0);
    let base = Pixels(line.max(above.and(16).0).min(19_800));
    if is_core_seen {
        write_number(draft, "core ", core, base, CORE);
    }
    if !is_core_seen || base.and(16).0 <= scale.bottom.0 {
        write_number(draft, "", 0, scale.bottom, GREY);
    }
}

// What marks between the bands stand for.
#[derive(Clone, Copy, PartialEq, Eq)]
enum Between {
    Started,
    Culled,
    Removed,
}

// What a mark stands for that is between the bands.
fn kind_of(sign: Sign) -> Option<Between> {
    match sign {
        Sign::Started => Some(Between::Started),
        Sign::Culled => Some(Between::Culled),
        Sign::Removed(_) => Some(Between::Removed),
        _ => None,
    }
}

// Writes for each column the last of its marks between the bands that stand for this.
fn write_last_marks(draft: &mut Draft, sheet: &Sheet, picture: &Picture, kind: Between) {
    let mut last = usize::MAX;
    for mark in picture.marks.iter().rev() {
        if kind_of(mark.sign) == Some(kind) && column_of(picture, mark.at) != last {
            last = column_of(picture, mark.at);
            write_element(draft, sheet, *mark);
        }
    }
}

/// Writes the bands, without the refusals that are drawn one by one.
pub(crate) fn write_bands(draft: &mut Draft, sheet: &Sheet, picture: &Picture) {
    let below = sheet.page.rows_end();
    // In columns the number of the scale is below the name.
    let named = if picture.drawn.is_gathered() { 14 } else { 24 };
    line!(draft; r#"<g transform="translate(0 {below})"><g font-weight="bold"><text x="6" y="{named}">refused</text>"#);
    line!(draft; r#"<text x="6" y="70">waiting</text><text x="6" y="124">workers</text></g>"#);
    write_queue(draft, sheet, picture);
    if picture.drawn.is_gathered() {
        write_refused(draft, sheet);
        write_last_marks(draft, sheet, picture, Between::Started);
        write_last_marks(draft, sheet, picture, Between::Culled);
        write_last_marks(draft, sheet, picture, Between::Removed);
    }
    write_workers(draft, sheet, picture);
    line!(draft; "</g>");
}
