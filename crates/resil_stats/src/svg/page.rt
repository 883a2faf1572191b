//! Positions on the page, and colours.
//!
//! A page is 800 pixels wide. A gutter at its left has the names of the bands and their numbers. The rows of jobs are above three bands
//! of a fixed height: the refusals, the queue, the workers. These are written in a group that begins below the rows. All share one axis,
//! of places or of times. Letters are 16 pixels high, so that they can be read if the chart is shown at half its width. A label without
//! room is left out.

use crate::axis::{DAY, HOUR, MINUTE, Period, SECOND};
use crate::spans::time_at;
use crate::{Column, Illegal, Picture, Window};
use std::fmt;

// The colours on a light background; the style of `frame` has a dark one for each. Each has one meaning in all bands. Those of bars
// differ in grey, and for colour-blind readers, too.
pub(crate) const CORE: &str = "#0072b2";

pub(crate) const EXTRA: &str = "#e08a00";

pub(crate) const QUEUED: &str = "#b4e0fa";

pub(crate) const DEPTH: &str = "#1c5f85";

pub(crate) const WORKERS: &str = "#bcd7e8";

pub(crate) const SIZE: &str = "#7a4f00";

pub(crate) const RESIZE: &str = "#7b3294";

pub(crate) const REFUSED: &str = "#a3142a";

pub(crate) const CLOSED: &str = "#888";

pub(crate) const INK: &str = "#222";

pub(crate) const GREY: &str = "#666";

pub(crate) const GRID: &str = "#e3e3e3";

pub(crate) const GROUND: &str = "#f3f3f1";

pub(crate) const PAPER: &str = "#fff";

/// A length or a position, in hundredths of a pixel.
#[derive(Clone, Copy)]
pub(crate) struct Pixels(pub u32);

impl Pixels {
    /// This many whole pixels further.
    pub(crate) fn and(self, pixels: u32) -> Pixels {
        Pixels(self.0.saturating_add(pixels.saturating_mul(100)))
    }

    /// This many whole pixels nearer.
    pub(crate) fn less(self, pixels: u32) -> Pixels {
        Pixels(self.0.saturating_sub(pixels.saturating_mul(100)))
    }

    /// How far it is beyond another one.
    pub(crate) fn behind(self, other: Pixels) -> Pixels {
        Pixels(self.0.saturating_sub(other.0))
    }
}

impl fmt::Display for Pixels {
    fn fmt<W: fmt::Write>(&self, f: &mut fmt::Formatter<W>) -> fmt::Result {
        let (whole, rest) = (self.0 / 100, self.0 % 100);
        if rest == 0 {
            write!(f, "{whole}")
        } else {
            write!(f, "{whole}.{rest:02}")
        }
    }
}

/// A time of day, in microseconds since a midnight.
#[derive(Clone, Copy)]
pub(crate) struct Clock(pub u64);

impl fmt::Display for Clock {
    fn fmt<W: fmt::Write>(&self, f: &mut fmt::Formatter<W>) -> fmt::Result {
        let of_day = self.0 % DAY;
        let (hour, minute) = (of_day / HOUR, of_day % HOUR / MINUTE);
        let (second, rest) = (of_day % MINUTE / SECOND, of_day % SECOND);
        write!(f, "{hour:02}:{minute:02}:{second:02}")?;
        if rest == 0 {
            return Ok(());
        }
        write!(f, ".{rest:06}")
    }
}

/// The ends of the axis.
pub(crate) const LEFT: Pixels = Pixels(9200);

pub(crate) const RIGHT: Pixels = Pixels(78_600);

/// How wide a letter is, at most on average.
pub(crate) const LETTER: Pixels = Pixels(1020);

// The length of an axis of places.
const SPAN: u32 = 69_400;

// The least width of a bar on an axis of times: a third of a pixel, and no less.
const LEAST_BAR: u32 = 34;

// The top of the first row, how far it is from the next one, at least and at most, and how high many rows are together.
const ROWS_TOP: u32 = 10_800;

const LEAST_PITCH: u32 = 600;

const PITCH: u32 = 2400;

const ROWS_HEIGHT: u32 = 50_000;

// The area of the jobs that run in columns is as high as this many rows.
const AREA_ROWS: u32 = 5;

// Rows have labels, and refusals have signs, if they are no closer than this.
const LABELLED: u32 = 2000;

const SIGNED: u32 = 900;

// How far below the rows the last band and the page end, in pixels.
const BANDS_END: u32 = 198;

const PAGE_END: u32 = 276;

// This many of the equal parts of a length, and no more than all of them.
fn share(length: u32, parts: usize, all: usize) -> u32 {
    let parts = parts.min(all) as u64;
    let share = parts
        .saturating_mul(u64::from(length))
        .checked_div(all as u64);
    u32::try_from(share.unwrap_or(0)).unwrap_or(length)
}

/// The page of a chart.
#[derive(Clone, Copy)]
pub(crate) struct Page<'a> {
    /// How many events the history has that can be drawn, at least 1.
    pub events: usize,
    /// Which of them are drawn.
    pub window: Window,
    /// Their times, if they have times: then the axis is one of times.
    times: Option<&'a [u64]>,
    /// When the first event was, if that is known: in microseconds since midnight, UTC.
    began: Option<u64>,
    /// From where to where the axis goes.
    pub period: Period,
    /// How many rows there are.
    pub rows: u32,
    // The distance of a row from the next one, in hundredths of a pixel.
    pitch: u32,
}

impl<'a> Page<'a> {
    /// The page of a chart, for these times of its events and the time of day of the first one.
    pub(crate) fn of(picture: &Picture, times: Option<&'a [u64]>, began: Option<u64>) -> Page<'a> {
        let rows = if picture.drawn.is_gathered() {
            AREA_ROWS
        } else {
            picture.stats.most.workers.max(1).min(64) as u32
        };
        let pitch = ROWS_HEIGHT.checked_div(rows).unwrap_or(PITCH);
        Page {
            events: picture.levels.len().max(1),
            window: picture.window,
            times,
            began,
            period: picture.window.period,
            rows,
            pitch: pitch.max(LEAST_PITCH).min(PITCH),
        }
    }

    /// The time of the event at a place, if that is known.
    pub(crate) fn time(&self, place: usize) -> Option<u64> {
        self.times
            .map(|times| time_at(times, place.saturating_sub(1)))
    }

    /// The time of day at the event at a place, if that is known.
    pub(crate) fn clock(&self, place: usize) -> Option<Clock> {
        let (began, first, time) = (self.began?, self.time(1)?, self.time(place)?);
        let after = time.saturating_sub(first) % DAY;
        Some(Clock(began.saturating_add(after)))
    }

    /// How many places the axis has, if events have no times.
    pub(crate) fn places(&self) -> usize {
        let Period { first, last } = self.period;
        let places = last.saturating_add(1).saturating_sub(first).max(1);
        usize::try_from(places).unwrap_or(usize::MAX)
    }

    // The position of a place on an axis of places: place p of those from f to l is at left + (p - f) (right - left) / (l + 1 - f).
    fn x_of_place(&self, place: usize) -> Pixels {
        let first = usize::try_from(self.period.first).unwrap_or(usize::MAX);
        let along = share(SPAN, place.saturating_sub(first), self.places());
        Pixels(LEFT.0.saturating_add(along))
    }

    /// The position of a place on the axis: by its time, or by itself. What is after the window is at the right end.
    pub(crate) fn x(&self, place: usize) -> Pixels {
        match self.time(place) {
            Some(_) if place > self.window.end.max(1) => RIGHT,
            Some(time) => Pixels(self.period.x_of(time)),
            None => self.x_of_place(place),
        }
    }

    /// The position of the first illegal event: at the right end or, if an end or a beginning is given, at its moment, if that is drawn.
    pub(crate) fn illegal_x(&self, illegal: Illegal) -> Option<Pixels> {
        let Period { first, last } = self.period;
        if self.window.is_whole {
            return Some(RIGHT);
        }
        let moment = self.time(illegal.at).unwrap_or(illegal.at as u64);
        if moment < first || moment > last {
            return None;
        }
        Some(match self.time(illegal.at) {
            Some(time) => Pixels(self.period.x_of(time)),
            None => self.x_of_place(illegal.at),
        })
    }

    /// The width of a bar from one place to another.
    pub(crate) fn width(&self, from: usize, to: usize) -> Pixels {
        let width = self.x(to).behind(self.x(from));
        match self.times {
            Some(_) => Pixels(width.0.max(LEAST_BAR)),
            None => width,
        }
    }

    /// The beginning and the end of the span of a column, if it is one of time.
    pub(crate) fn span(&self, column: &Column) -> Option<(u64, u64)> {
        let time = self.time(column.from)?;
        Some(self.period.ends_of(time))
    }

    /// The two ends of a column on the axis.
    pub(crate) fn ends(&self, column: &Column) -> (Pixels, Pixels) {
        match (self.time(column.from), self.span(column)) {
            (Some(time), Some((start, _))) => (
                Pixels(self.period.x_of(start)),
                Pixels(self.period.column_end(time)),
            ),
            _ => (self.x(column.from), self.x(column.to.saturating_add(1))),
        }
    }

    /// Whether the axis is one of times.
    pub(crate) fn is_timed(&self) -> bool {
        self.times.is_some()
    }

    /// The length of the axis for each event.
    pub(crate) fn event_width(&self) -> u32 {
        let events = if self.is_timed() {
            self.window.events().max(1)
        } else {
            self.places()
        };
        share(SPAN, 1, events)
    }

    /// Whether refusals have room for signs: if not, they are ticks.
    pub(crate) fn has_room_for_signs(&self) -> bool {
        self.event_width() >= SIGNED
    }

    /// Whether rows have room for labels.
    pub(crate) fn has_room_for_labels(&self) -> bool {
        self.pitch >= LABELLED
    }

    /// The height of a bar.
    pub(crate) fn bar_height(&self) -> Pixels {
        Pixels(self.pitch - self.pitch / 6)
    }

    /// The top of a row; rows count from 1.
    pub(crate) fn row_top(&self, row: usize) -> Pixels {
        let above = row.saturating_sub(1).min(64) as u32;
        Pixels(self.pitch.saturating_mul(above).saturating_add(ROWS_TOP))
    }

    /// The end of the last row, from which everything below is measured.
    pub(crate) fn rows_end(&self) -> Pixels {
        self.row_top((self.rows as usize).saturating_add(1))
    }

    /// The end of the last band.
    pub(crate) fn bands_end(&self) -> Pixels {
        self.rows_end().and(BANDS_END)
    }

    /// The end of the page.
    pub(crate) fn end(&self) -> Pixels {
        self.rows_end().and(PAGE_END)
    }
}

/// The heights of numbers over a line.
#[derive(Clone, Copy)]
pub(crate) struct Scale {
    /// The line of 0.
    pub bottom: Pixels,
    /// The line of the greatest number.
    pub top: Pixels,
    most: usize,
}

impl Scale {
    /// The scale of a band between two lines, for numbers up to this one.
    pub(crate) fn between(top: Pixels, bottom: Pixels, most: usize) -> Scale {
        Scale {
            bottom,
            top: Pixels(top.0.min(bottom.0)),
            most: most.max(1),
        }
    }

    /// The height of a number, up to that of the greatest one.
    pub(crate) fn y(&self, number: usize) -> Pixels {
        let height = self.bottom.behind(self.top).0;
        self.bottom.behind(Pixels(share(height, number, self.most)))
    }
}
