//! What is around the bands: the title, the first illegal event, the legend, the grid with its axis, the last lines.

ghost use Rattle.std.specs.Prelude.{◌≡◌, ◌++◌, IfOk, OnOk, string_bytes};
ghost use Rattle.resil_stats.specs.Svg.{name_line, opening, style, xml_letter};

use super::Draft;
use super::bands::{waiting_scale, workers_scale};
use super::jobs::taken_start;
use super::page::{CORE, Clock, EXTRA, GREY, GRID, INK, PAPER, Page, Pixels, QUEUED, REFUSED};
use super::sheet::Sheet;
use crate::axis::{DAY, HOUR, MILLISECOND, MINUTE, SECOND};
use crate::{Illegal, Period, Picture, Start, column_width};
use resil_rule::Verdict;
use std::alloc::{AllocError, Global};

// From this many days on, labels of ticks are wide.
const MANY_DAYS: u64 = 10_000 * DAY;

// Whether workers began or ended without a job, or jobs were removed.
fn has_more_signs(picture: &Picture) -> bool {
    let counts = picture.stats.counts;
    counts.started > 0 || counts.culled > 0 || counts.removed > 0
}

// How much lower the legend ends than in the shortest chart, in pixels: one line for the first illegal event and one for more signs.
fn lower_by(picture: &Picture) -> u32 {
    match (picture.illegal.is_some(), has_more_signs(picture)) {
        (true, true) => 48,
        (false, false) => 0,
        _ => 24,
    }
}

// The ending of the noun after a number.
fn plural(number: usize) -> &'static str {
    if number == 1 { "" } else { "s" }
}

/// The beginning of a chart of this many events.
/// Errors: `AllocError` when out of memory.
pub(crate) fn opening_text(alloc: Global, events: usize) -> Result<String, AllocError>
    ensures { IfOk result (λ text. string_bytes text ≡ opening events) }
{
    format!(in alloc; "<svg xmlns=\"http://www.w3.org/2000/svg\" data-events=\"{events}\"")
}

/// The rest of the first element, and the background, which begins a line higher if there is a name. Errors: `AllocError` when out of
/// memory.
pub(crate) fn ground_text(sheet: &Sheet, picture: &Picture) -> Result<String, AllocError> {
    let mut draft = Draft::new(sheet.alloc);
    let (line, top, y) = if sheet.caption.name.is_empty() {
        (0, "0", "")
    } else {
        (24, "-24", r#" y="-24""#)
    };
    let height = sheet.page.end().and(lower_by(picture)).and(line);
    if !picture.is_plain() {
        let Period { first, last } = picture.window.period;
        let ((waiting, _), (workers, _)) = (waiting_scale(picture), workers_scale(picture));
        put!(draft; r#" data-from="{first}" data-to="{last}" data-waiting="{waiting}" data-workers="{workers}""#);
    }
    line!(draft; r#" viewBox="0 {top} 800 {height}" width="800" height="{height}" font-family="sans-serif" font-size="16" fill="{INK}">"#);
    line!(draft; r#"<rect{y} width="800" height="{height}" fill="{PAPER}"/>"#);
    draft.finish()
}

/// Adds the style: a dark colour for each colour of `page`, for readers who prefer a dark background. Errors: `AllocError` when out of
/// memory.
pub(crate) fn push_style(text: &mut String) -> Result<(), AllocError>
    ensures { OnOk result (string_bytes text.new ≡ string_bytes text.old ++ style) }
{
    text.push_str(
        r##"<style>@media (prefers-color-scheme: dark) {
[fill="#fff"]{fill:#0d1117}[fill="#222"]{fill:#e6edf3}
[fill="#666"]{fill:#9198a1}[fill="#f3f3f1"]{fill:#161b22}[fill="#0072b2"]{fill:#58a6ff}
[fill="#e08a00"]{fill:#9a5b00}[fill="#b4e0fa"]{fill:#1f4a6b}[fill="#bcd7e8"]{fill:#26394d}
[fill="#7a4f00"]{fill:#d29922}[fill="#7b3294"]{fill:#d2a8ff}[fill="#a3142a"]{fill:#ff7b72}
[fill="#888"]{fill:#6e7681}[stroke="#fff"]{stroke:#0d1117}[stroke="#222"]{stroke:#e6edf3}
[stroke="#666"]{stroke:#9198a1}[stroke="#e3e3e3"]{stroke:#2b313a}[stroke="#0072b2"]{stroke:#58a6ff}
[stroke="#1c5f85"]{stroke:#79c0ff}[stroke="#7a4f00"]{stroke:#d29922}[stroke="#7b3294"]{stroke:#d2a8ff}
[stroke="#a3142a"]{stroke:#ff7b72}[stroke="#888"]{stroke:#6e7681}
}</style>
"##,
    )?;
    Ok(())
}

// Adds a character as XML writes it. Errors: `AllocError` when out of memory.
fn push_letter(text: &mut String, letter: char) -> Result<(), AllocError>
    ensures { OnOk result (string_bytes text.new ≡ string_bytes text.old ++ xml_letter letter) }
{
    match letter {
        '&' => text.push_str("&amp;"),
        '<' => text.push_str("&lt;"),
        '>' => text.push_str("&gt;"),
        '"' => text.push_str("&quot;"),
        '\'' => text.push_str("&#39;"),
        '\t' | '\n' | '\r' => text.push(' '),
        '\0'..' ' | '\u{fffe}' | '\u{ffff}' => text.push('\u{fffd}'),
        _ => text.push(letter),
    }
}

/// Adds the line of a name, above the sizes, unless it is empty. There is room for 64 letters. Errors: `AllocError` when out of memory.
pub(crate) fn push_name(text: &mut String, name: &str) -> Result<(), AllocError>
    ensures { OnOk result (string_bytes text.new ≡ string_bytes text.old ++ name_line name.now) }
{
    if name.is_empty() {
        return Ok(());
    }
    text.push_str(r#"<text x="6" y="2" font-size="17" font-weight="bold">"#)?;
    for letter in name.chars() {
        push_letter(text, letter)?;
    }
    text.push_str("</text>\n")?;
    Ok(())
}

// Writes the sizes that the pool begins with.
fn write_opening_sizes(draft: &mut Draft, picture: &Picture) {
    let ((core, max), queue) = (picture.opening, picture.limits.queue());
    let ending = if max == 1 { "" } else { "s" };
    put!(draft; r#"<text x="6" y="28" font-size="22" font-weight="bold">Pool of "#);
    if core < max {
        put!(draft; "{core} to ");
    }
    line!(draft; "{max} worker{ending}, queue of {queue}</text>");
}

// How many jobs wait after the last event.
fn waiting_at_the_end(picture: &Picture) -> usize {
    picture.levels.last().map_or(0, |level| level.waiting)
}

// Writes how many events are drawn, the verdict, how full the pool got, and when the first event was, if that is known.
fn write_facts(draft: &mut Draft, picture: &Picture, began: Option<u64>) {
    let stats = &picture.stats;
    let (drawn, waiting, workers) = (picture.levels.len(), stats.most.waiting, stats.most.workers);
    let (events, ending) = (picture.events, plural(picture.events));
    match stats.verdict {
        Verdict::Legal => put!(draft; r#"<text x="6" y="52">{events} event{ending}, legal"#),
        Verdict::FirstIllegal(place) => {
            put!(draft; r#"<text x="6" y="52">{drawn} of {events} event{ending} drawn, "#);
            put!(draft; r#"<tspan fill="{REFUSED}" font-weight="bold">illegal at {place}</tspan>"#);
        }
    }
    put!(draft; " &#183; at most {waiting} waiting, {workers} worker{}", plural(workers));
    if waiting_at_the_end(picture) > 0 {
        put!(draft; " &#183; {} still waiting", waiting_at_the_end(picture));
    }
    if let Some(began) = began {
        put!(draft; " &#183; began {} UTC", Clock(began.saturating_sub(began % SECOND)));
    }
    line!(draft; "</text>");
}

/// Whether core workers time out, by a history.
pub(crate) fn on_or_off(is_on: bool) -> &'static str {
    if is_on { "on" } else { "off" }
}

// Writes the legend: each colour has one meaning, in all bands. It says how many jobs started in each way, then how many were refused,
// then shows the sign of a full queue. The signs of refusals are crosses and diamonds, ticks, or areas.
fn write_legend(draft: &mut Draft, page: &Page, picture: &Picture) {
    let answers = picture.stats.answers;
    let (core, extra, full, closed) = (answers.core, answers.extra, answers.full, answers.closed);
    let (taken, told) = match taken_start(picture) {
        Start::Handed => (answers.handed, "handed"),
        _ => (picture.stats.counts.taken, "taken"),
    };
    let base = if has_more_signs(picture) { 54 } else { 78 };
    let (cross, diamond) = if picture.drawn.is_gathered() {
        ("&#9632;", "&#9632;")
    } else if page.has_room_for_signs() {
        ("&#215;", "&#9671;")
    } else {
        ("|", "&#305;")
    };
    put!(draft; r#"<text x="6" y="{base}">starts: <tspan fill="{CORE}">&#9632;</tspan> core {core}<tspan dx="10" fill="{EXTRA}">&#9632;</tspan> extra {extra}"#);
    put!(draft; r#"<tspan dx="10" fill="{QUEUED}">&#9632;</tspan> {told} {taken}<tspan dx="10">&#183;</tspan><tspan dx="10">refused: </tspan>"#);
    put!(draft; r#"<tspan fill="{REFUSED}" font-weight="bold">{cross}</tspan> full {full}"#);
    put!(draft; r#"<tspan dx="10" fill="{GREY}" font-weight="bold">{diamond}</tspan> closed {closed}<tspan dx="10">&#183;</tspan>"#);
    line!(draft; r#"<tspan dx="10" fill="{REFUSED}">&#9644;</tspan> queue full</text>"#);
}

// Writes what the signs between the bands mean and how many there are of each, if there are any.
fn write_more_signs(draft: &mut Draft, picture: &Picture) {
    if !has_more_signs(picture) {
        return;
    }
    let counts = picture.stats.counts;
    let (started, culled, removed) = (counts.started, counts.culled, counts.removed);
    put!(draft; r#"<text x="6" y="78">without a job: &#8593; started {started}<tspan dx="10">&#8595;</tspan> culled {culled}"#);
    line!(draft; r#"<tspan dx="10">&#183;</tspan><tspan dx="10">out of the queue: </tspan><tspan fill="{GREY}">&#8595;</tspan> removed {removed}</text>"#);
}

// The distance of the lines of the grid, in events: one of 1, 2, 5, 10 and so on, for at most ten lines.
fn grid_step(events: usize) -> usize {
    let mut step = 1usize;
    for factor in [
        2, 5, 10, 20, 50, 100, 200, 500, 1000, 2000, 5000, 10_000, 20_000,
    ] {
        if events > step.saturating_mul(11).saturating_sub(1) {
            step = factor;
        }
    }
    step
}

// Writes a line of the grid, with its place below.
fn write_grid_line(draft: &mut Draft, page: &Page, place: usize) {
    let (x, end) = (page.x(place), page.bands_end());
    let base = end.and(20);
    let anchor = if x.0 > 77_000 { "end" } else { "middle" };
    line!(draft; r#"<path d="M{x} 104V{end}" stroke="{GRID}"/><text x="{x}" y="{base}" fill="{GREY}" text-anchor="{anchor}">{place}</text>"#);
}

// Writes the grid of an axis of places: the first place of the history, if it is in the window, and all multiples of a step.
fn write_places(draft: &mut Draft, page: &Page) {
    let step = grid_step(page.places());
    let Period { first, last } = page.period;
    let first = usize::try_from(first).unwrap_or(usize::MAX);
    let passed = first.saturating_sub(1).checked_div(step).unwrap_or(0);
    if first <= 1 {
        write_grid_line(draft, page, 1);
    }
    for count in 1..12 {
        let place = step.saturating_mul(passed.saturating_add(count));
        if place > 1 && place as u64 <= last {
            write_grid_line(draft, page, place);
        }
    }
}

// The name of a unit of ticks, given in microseconds.
fn unit_name(unit: u64) -> &'static str {
    match unit {
        DAY => "d",
        HOUR => "h",
        MINUTE => "min",
        SECOND => "s",
        MILLISECOND => "ms",
        _ => "&#181;s",
    }
}

// Writes the label of a tick, by its time after the first event, in a unit: with a tenth if it isn't a whole number.
fn write_tick_label(draft: &mut Draft, place: (Pixels, Pixels), after: u64, unit: u64) {
    let ((center, base), name) = (place, unit_name(unit));
    let number = after.checked_div(unit).unwrap_or(0);
    let rest = after.checked_rem(unit).unwrap_or(0);
    let tenth = rest.saturating_mul(10).checked_div(unit).unwrap_or(0);
    put!(draft; r#"<text x="{center}" y="{base}" fill="{GREY}" text-anchor="middle">{number}"#);
    if tenth > 0 {
        put!(draft; ".{tenth}");
    }
    line!(draft; " {name}</text>");
}

// Writes the ticks of an axis of times, at most ten, with their times after the first event. A label without room is left out. There is
// no tick if all times are equal.
fn write_ticks(draft: &mut Draft, page: &Page) {
    let (period, end) = (page.period, page.bands_end());
    let step = period.tick_step();
    let unit = period.tick_unit(step);
    let base = end.and(20);
    // A label at the right end stays on the page; the label of a great many days is wide.
    let (wide, last) = if step < MANY_DAYS {
        (68, 76_500)
    } else {
        (112, 74_400)
    };
    let mut room = Pixels(0);
    for count in 0..10 {
        let Some(after) = step.checked_mul(count) else {
            return;
        };
        if period.length() == 0 || after > period.length() {
            return;
        }
        let x = Pixels(period.x_of(period.first.saturating_add(after)));
        line!(draft; r#"<path d="M{x} 104V{end}" stroke="{GRID}"/>"#);
        let center = Pixels(x.0.min(last));
        if center.0 >= room.0 {
            write_tick_label(draft, (center, base), after, unit);
            room = center.and(wide);
        }
    }
}

// Writes the grid and its axis, of times or of places.
fn write_grid(draft: &mut Draft, page: &Page) {
    let counted = if page.is_timed() {
        write_ticks(draft, page);
        "time"
    } else {
        write_places(draft, page);
        "event"
    };
    let base = page.bands_end().and(20);
    line!(draft; r#"<g font-weight="bold"><text x="6" y="100">jobs run</text><text x="6" y="{base}">{counted}</text></g>"#);
}

/// Writes what is around the bands, and begins the group that they are in: one line lower if an event is illegal.
pub(crate) fn write_frame(draft: &mut Draft, sheet: &Sheet, picture: &Picture) {
    let (page, caption, lower) = (&sheet.page, sheet.caption, lower_by(picture));
    write_opening_sizes(draft, picture);
    write_facts(draft, picture, caption.began);
    if let Some(Illegal { at, .. }) = picture.illegal {
        let told = caption.illegal;
        line!(draft; r#"<text x="6" y="76" fill="{REFUSED}">event {at}, {told}</text>"#);
    }
    line!(draft; r#"<g transform="translate(0 {lower})">"#);
    write_legend(draft, page, picture);
    write_more_signs(draft, picture);
    write_grid(draft, page);
}

// Writes what the axis counts, and from where.
fn write_counted(draft: &mut Draft, page: &Page) {
    let Some(first) = page.time(1) else {
        put!(draft; "The axis counts events, it is no clock.");
        return;
    };
    let from = page.period.first;
    let (apart, side) = if from < first {
        (first - from, "before")
    } else {
        (from - first, "after")
    };
    put!(draft; "The axis is time, counted from ");
    if apart > 0 {
        let (seconds, rest) = (apart / SECOND, apart % SECOND);
        put!(draft; "{seconds}.{rest:06} s {side} ");
    }
    put!(draft; "the first event.");
}

/// What is written after the refusals, or the columns: what the chart leaves open, and the end. Errors: `AllocError` when out of
/// memory.
pub(crate) fn ending_text(sheet: &Sheet, picture: &Picture) -> Result<String, AllocError> {
    let mut draft = Draft::new(sheet.alloc);
    let below = sheet.page.rows_end();
    put!(draft; r#"</g><g transform="translate(0 {below})" fill="{GREY}"><text x="6" y="244">"#);
    let page = &sheet.page;
    if picture.drawn.is_gathered() {
        if page.is_timed() {
            put!(draft; "Gathered: {} &#181;s", page.period.span_length());
        } else {
            let width = column_width(picture.window.events());
            put!(draft; "Gathered: {width} event{}", plural(width));
        }
        put!(draft; " a column, each drawn by its greatest numbers.");
    } else {
        put!(draft; "A history names no threads: a job stands in the first free row.");
    }
    put!(draft; r#"</text><text x="6" y="266">"#);
    write_counted(&mut draft, page);
    line!(draft; "</text></g></g></svg>");
    draft.finish()
}
