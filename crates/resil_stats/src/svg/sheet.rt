//! What all parts of a chart share: its page, the points that its outlines go through, and the results of its jobs.

use super::Caption;
use super::page::{LEFT, Page, Pixels};
use crate::results::OutcomesById;
use crate::{Column, Level, Picture, Running, Start, Window};
use std::alloc::{AllocError, Global};

/// The page of a chart, and what is drawn on it.
#[derive(Clone, Copy)]
pub(crate) struct Sheet<'a> {
    pub alloc: Global,
    pub page: Page<'a>,
    pub points: &'a [Point],
    pub outcomes: &'a OutcomesById,
    pub caption: Caption<'a>,
}

/// The numbers that hold from a place on the axis on, and what runs there. An event that is drawn by itself is a column of one event.
#[derive(Clone, Copy)]
pub(crate) struct Point {
    pub x: Pixels,
    column: Column,
    running: Running,
}

/// What an outline shows of points.
#[derive(Clone, Copy)]
pub(crate) enum Quantity {
    Waiting,
    /// 1 if as many jobs wait as this capacity, else 0.
    IsFull(usize),
    Workers,
    /// The workers up to the core size.
    CoreWorkers,
    CoreSize,
    GreatestSize,
    /// The jobs that run and started in this way, above those drawn below them.
    Running(Start),
    /// The refusals of a full pool.
    Full,
    /// All refusals.
    Refused,
}

impl Quantity {
    /// The number of a point.
    pub(crate) fn of(self, point: &Point) -> usize {
        let (column, running) = (point.column, point.running);
        match self {
            Quantity::Waiting => column.waiting,
            Quantity::IsFull(capacity) => (column.waiting >= capacity) as usize,
            Quantity::Workers => column.workers,
            Quantity::CoreWorkers => column.workers.min(column.core as usize),
            Quantity::CoreSize => column.core as usize,
            Quantity::GreatestSize => column.max as usize,
            Quantity::Running(Start::Core) => running.core,
            Quantity::Running(Start::Extra) => running.core.saturating_add(running.extra),
            Quantity::Running(Start::Queued | Start::Handed) => running.all(),
            Quantity::Full => column.full,
            Quantity::Refused => column.full.saturating_add(column.closed),
        }
    }
}

// The numbers after an event, which is drawn by itself.
fn column_of(level: Level) -> Column {
    Column {
        from: level.at,
        to: level.at,
        waiting: level.waiting,
        workers: level.workers,
        peak: level.at,
        full: 0,
        closed: 0,
        core: level.core,
        max: level.max,
    }
}

// Adds a point, which replaces the one before it if that is at the same place. Errors: `AllocError` when out of memory.
fn push_point(points: &mut Vec<Point>, point: Point) -> Result<(), AllocError> {
    if let Some(last) = points.last_mut() {
        if last.x.0 == point.x.0 {
            *last = point;
            return Ok(());
        }
    }
    points.push(point)?;
    Ok(())
}

// How many jobs run after the event at a place, by how they started.
fn running_at(picture: &Picture, place: usize) -> Running {
    let areas = &picture.drawn.areas;
    areas
        .get(place.saturating_sub(1))
        .copied()
        .unwrap_or(Running::default())
}

// Adds the points of a column. After its span of time, its last event's numbers hold. Errors: `AllocError` when out of memory.
fn push_column(
    points: &mut Vec<Point>,
    page: &Page,
    picture: &Picture,
    column: Column,
) -> Result<(), AllocError> {
    let (x, end) = page.ends(&column);
    let running = running_at(picture, column.peak);
    push_point(points, Point { x, column, running })?;
    match picture.levels.get(column.to.saturating_sub(1)) {
        Some(level) if page.is_timed() => push_point(
            points,
            Point {
                x: end,
                column: column_of(*level),
                running: running_at(picture, column.to),
            },
        ),
        _ => Ok(()),
    }
}

// The numbers at the beginning of a window, after the event before it. They are drawn from the left end on.
fn push_first(points: &mut Vec<Point>, picture: &Picture) -> Result<(), AllocError> {
    let before = picture.window.before;
    match before
        .checked_sub(1)
        .and_then(|index| picture.levels.get(index))
    {
        Some(level) => push_point(
            points,
            Point {
                x: LEFT,
                column: column_of(*level),
                running: running_at(picture, before),
            },
        ),
        None => Ok(()),
    }
}

/// The points of the window of a chart: its beginning, and then each event, or each column if events are gathered. If several are at one
/// place, the last one counts. Errors: `AllocError` when out of memory.
pub(crate) fn points_of(
    alloc: Global,
    page: &Page,
    picture: &Picture,
) -> Result<Vec<Point>, AllocError> {
    let mut points = Vec::new(alloc);
    push_first(&mut points, picture)?;
    if !picture.drawn.is_gathered() {
        let Window { before, end, .. } = picture.window;
        for level in picture.levels.get(before..end).unwrap_or(&[]) {
            let point = Point {
                x: page.x(level.at),
                column: column_of(*level),
                running: Running::default(),
            };
            push_point(&mut points, point)?;
        }
    }
    for column in picture.drawn.columns.iter() {
        push_column(&mut points, page, picture, *column)?;
    }
    Ok(points)
}
