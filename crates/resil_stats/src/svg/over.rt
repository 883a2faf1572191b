//! The marks over all bands: the closing, the stop, the resizes and the other settings, and the first illegal event. The bars are drawn over their lines.

use super::Draft;
use super::frame::on_or_off;
use super::page::{INK, LEFT, LETTER, Page, Pixels, REFUSED, RESIZE, RIGHT};
use crate::{Illegal, Picture, Sign};

// If there are more settings than this, each is marked by a tick.
const MANY: usize = 24;

// The room that this many letters take.
fn room_for(letters: u32) -> u32 {
    LETTER.0.saturating_mul(letters)
}

// Writes a closing or a stop, by its name and its label. The label is at the right, or at the left if the right has no room. Returns up to
// where the next label at the left has room.
fn write_closing(
    draft: &mut Draft,
    page: &Page,
    at: usize,
    limit: Pixels,
    (name, word): (&str, &str),
) -> Pixels {
    let (x, end) = (page.x(at), page.bands_end());
    let label = room_for(word.len().saturating_add(1).min(20) as u32);
    put!(draft; r#"<path class="{name}" data-at="{at}" "#);
    draft.put_time("data-time", page.time(at));
    put!(draft; r#"d="M{x} 84V{end}" stroke="{INK}" stroke-width="1.6">"#);
    put!(draft; "<title>{name} at event {at}");
    draft.put_clock(page.clock(at));
    line!(draft; "</title></path>");
    if limit.behind(x).0 >= label {
        let beside = x.and(4);
        line!(draft; r#"<text x="{beside}" y="100" font-weight="bold">{word}</text>"#);
    } else if x.behind(LEFT).0 >= label {
        let beside = x.less(4);
        line!(draft; r#"<text x="{beside}" y="100" font-weight="bold" text-anchor="end">{word}</text>"#);
        return x.behind(Pixels(label));
    }
    x
}

// Writes a resize over all bands, with its label if there is room for it up to a limit, else by a tick at the top.
fn write_resize(
    draft: &mut Draft,
    page: &Page,
    at: usize,
    sizes: (u32, u32),
    limit: Option<Pixels>,
) {
    let (core, max) = sizes;
    let x = page.x(at);
    let end = match limit {
        Some(_) => page.bands_end(),
        None => Pixels(10_400),
    };
    put!(draft; r#"<path class="resize" data-at="{at}" data-core="{core}" data-max="{max}" "#);
    draft.put_time("data-time", page.time(at));
    put!(draft; r#"d="M{x} 84V{end}""#);
    put!(draft; r#" stroke="{RESIZE}" stroke-width="1.4" stroke-dasharray="4 3">"#);
    put!(draft; "<title>resize at event {at}: core {core}, max {max}");
    draft.put_clock(page.clock(at));
    line!(draft; "</title></path>");
    let room = limit.unwrap_or(x).behind(x).0;
    let beside = x.and(4);
    if room >= room_for(14) {
        line!(draft; r#"<text x="{beside}" y="100" fill="{RESIZE}">core {core}, max {max}</text>"#);
    } else if room >= room_for(6) {
        line!(draft; r#"<text x="{beside}" y="100" fill="{RESIZE}">{core}-{max}</text>"#);
    }
}

// Writes over all bands that core workers time out from a place on, or no longer do, with its label if there is room for it up to a limit,
// else by a tick at the top.
fn write_time_out(draft: &mut Draft, page: &Page, at: usize, is_on: bool, limit: Option<Pixels>) {
    let (x, told) = (page.x(at), on_or_off(is_on));
    let end = match limit {
        Some(_) => page.bands_end(),
        None => Pixels(10_400),
    };
    put!(draft; r#"<path class="time-out" data-at="{at}" data-on="{told}" "#);
    draft.put_time("data-time", page.time(at));
    put!(draft; r#"d="M{x} 84V{end}" stroke="{RESIZE}" stroke-width="1.4" stroke-dasharray="2 2">"#);
    put!(draft; "<title>time-out of core workers at event {at}: {told}");
    draft.put_clock(page.clock(at));
    line!(draft; "</title></path>");
    if limit.unwrap_or(x).behind(x).0 >= room_for(13) {
        let beside = x.and(4);
        line!(draft; r#"<text x="{beside}" y="100" fill="{RESIZE}">time-out {told}</text>"#);
    }
}

/// A number for the column of the event at a place. If each event is drawn, it has one of its own.
pub(crate) fn column_of(picture: &Picture, place: usize) -> usize {
    let columns = &picture.drawn.columns;
    if columns.is_empty() {
        return place;
    }
    columns
        .iter()
        .take_while(|column| column.to < place)
        .count()
}

// Whether a mark is of a resize, or of a setting of the time-out.
fn is_setting(sign: Sign) -> bool {
    matches!(sign, Sign::Resized { .. } | Sign::TimeOut(_))
}

// Writes the first illegal event over all bands, if it is drawn.
fn write_illegal(draft: &mut Draft, page: &Page, illegal: Illegal) {
    let Some(x) = page.illegal_x(illegal) else {
        return;
    };
    let (at, end) = (illegal.at, page.bands_end());
    put!(draft; r#"<path class="illegal" data-at="{at}" "#);
    draft.put_time("data-time", page.time(at));
    put!(draft; r#"d="M{x} 84V{end}" stroke="{REFUSED}" stroke-width="5">"#);
    put!(draft; "<title>first illegal event: {at}");
    draft.put_clock(page.clock(at));
    line!(draft; "</title></path>");
}

/// Writes the closing, the stop, each resize and each setting of the time-out, or only the last ones of each column if there are columns.
/// It goes from the last one to the first, since a label has the room up to the next mark. The first illegal event is the one after those
/// drawn, at the right end.
pub(crate) fn write_over(draft: &mut Draft, page: &Page, picture: &Picture) {
    let settings = picture.marks.iter().filter(|mark| is_setting(mark.sign));
    let is_short = settings.count() > MANY;
    let mut limit = RIGHT.and(8);
    let (mut resized, mut timed_out) = (usize::MAX, usize::MAX);
    for mark in picture.marks.iter().rev() {
        let room = if is_short { None } else { Some(limit) };
        match mark.sign {
            Sign::Closing => {
                limit = write_closing(draft, page, mark.at, limit, ("closing", "closed"));
            }
            Sign::Stopping => {
                limit = write_closing(draft, page, mark.at, limit, ("stop", "stopped"));
            }
            Sign::Resized { core, max } if column_of(picture, mark.at) != resized => {
                write_resize(draft, page, mark.at, (core, max), room);
                limit = page.x(mark.at);
                resized = column_of(picture, mark.at);
            }
            Sign::TimeOut(is_on) if column_of(picture, mark.at) != timed_out => {
                write_time_out(draft, page, mark.at, is_on, room);
                limit = page.x(mark.at);
                timed_out = column_of(picture, mark.at);
            }
            _ => {}
        }
    }
    if let Some(illegal) = picture.illegal {
        write_illegal(draft, page, illegal);
    }
}
