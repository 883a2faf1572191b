//! The jobs that run: a bar in its row for each job that started, or areas if events are gathered into columns.

ghost use Rattle.std.specs.Prelude.{◌≡◌};
ghost use Rattle.resil_stats.specs.Svg.{start_class};

use super::Draft;
use super::bands::{write_area, write_ends, write_number};
use super::page::{CORE, EXTRA, GREY, GROUND, INK, LETTER, PAPER, Page, QUEUED, Scale};
use super::sheet::{Quantity, Sheet};
use crate::{Bar, Picture, Start};
use resil_input::outcome_text::outcome_text;
use resil_rule::Id;
use std::fmt;

/// The name of a job: its caller and its number.
#[derive(Clone, Copy)]
pub(crate) struct JobName(pub Id);

impl fmt::Display for JobName {
    fn fmt<W: fmt::Write>(&self, f: &mut fmt::Formatter<W>) -> fmt::Result {
        let Id { caller, number } = self.0;
        write!(f, "{caller}.{number}")
    }
}

/// How jobs that started in this way are drawn, and what their titles say.
#[derive(Clone, Copy)]
pub(crate) struct Style {
    pub class: &'static str,
    pub words: &'static str,
    pub fill: &'static str,
}

/// How the jobs that started in this way are drawn.
pub(crate) fn style_of(start: Start) -> Style
    ensures { result.class.now ≡ start_class start }
{
    let (class, words, fill) = match start {
        Start::Core => ("core", "new core worker", CORE),
        Start::Extra => ("extra", "new extra worker", EXTRA),
        Start::Queued => ("queued", "from the queue", QUEUED),
        Start::Handed => ("handed", "to an idle worker", QUEUED),
    };
    Style { class, words, fill }
}

/// Writes the ground of each row, and the numbers of rows that have room for them.
pub(crate) fn write_rows(draft: &mut Draft, page: &Page) {
    let height = page.bar_height();
    let rows = page.rows as usize;
    for row in 1..=rows {
        let y = page.row_top(row);
        line!(draft; r#"<rect x="92" y="{y}" width="694" height="{height}" fill="{GROUND}"/>"#);
        if page.has_room_for_labels() || row == 1 || row == rows {
            write_number(draft, "", row, y.and(16), GREY);
        }
    }
}

/// The start of jobs that get a worker which already exists: a pool without a queue hands them over.
pub(crate) fn taken_start(picture: &Picture) -> Start {
    if picture.limits.queue() == 0 {
        Start::Handed
    } else {
        Start::Queued
    }
}

/// Writes areas instead of the rows, one above the other, by how the jobs started.
pub(crate) fn write_running(draft: &mut Draft, sheet: &Sheet, picture: &Picture) {
    let most = picture
        .heights
        .workers
        .unwrap_or(picture.stats.most.running);
    let scale = Scale::between(sheet.page.row_top(1), sheet.page.rows_end(), most);
    for start in [taken_start(picture), Start::Extra, Start::Core] {
        let Style { class, fill, .. } = style_of(start);
        put!(draft; r#"<g class="running-{class}">"#);
        write_area(draft, sheet, &scale, Quantity::Running(start), fill);
        line!(draft; "</g>");
    }
    let word = if picture.heights.workers.is_some() {
        ""
    } else {
        "most "
    };
    write_ends(draft, &scale, word, most, GREY);
}

/// Writes the result of a job, after these words, if it is known and there is room for this many letters.
pub(crate) fn write_result(draft: &mut Draft, sheet: &Sheet, id: Id, before: &str, letters: usize) {
    let Some(outcome) = sheet.outcomes.get(id) else {
        return;
    };
    if let Some(told) = draft.made(outcome_text(sheet.alloc, outcome)) {
        if before.len().saturating_add(told.len()) <= letters {
            put!(draft; "{before}{told}");
        }
    }
}

// Writes the label of a bar that has room for this many letters: the number of its job, with the caller before it if there are
// several, and with the result of the job if there is room for that too.
fn write_label(draft: &mut Draft, sheet: &Sheet, bar: Bar, has_one_caller: bool, letters: usize) {
    let Id { caller, number } = bar.id;
    let label = if has_one_caller {
        format!(in sheet.alloc; "{number}")
    } else {
        format!(in sheet.alloc; "{caller}.{number}")
    };
    let Some(label) = draft.made(label) else {
        return;
    };
    if label.len() <= letters {
        let x = sheet.page.x(bar.from).and(4);
        let y = sheet.page.row_top(bar.row).and(16);
        let fill = if bar.start == Start::Core { PAPER } else { INK };
        put!(draft; r#"<text x="{x}" y="{y}" fill="{fill}">{label}"#);
        write_result(draft, sheet, bar.id, " ", letters - label.len());
        line!(draft; "</text>");
    }
}

/// Writes what lies over the bars: their labels, if rows are high enough for any.
pub(crate) fn write_labels(draft: &mut Draft, sheet: &Sheet, picture: &Picture) {
    let has_one_caller = picture.stats.callers.len() == 1;
    line!(draft; r#"<g pointer-events="none">"#);
    if sheet.page.has_room_for_labels() {
        for bar in picture.drawn.bars.iter() {
            let room = sheet.page.width(bar.from, bar.to).less(6);
            let letters = (room.0 / LETTER.0) as usize;
            write_label(draft, sheet, *bar, has_one_caller, letters);
        }
    }
    line!(draft; "</g>");
}
