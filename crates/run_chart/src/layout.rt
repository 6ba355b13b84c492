//! Where the threads of a chart are drawn: each in a column from the row where it begins to the last that tells something of it. Behind
//! that a thread that begins later may stand in the column: behind the one with which the run starts always, behind another where
//! there are so many columns that one more would make them narrow.

use crate::chart::{Chart, Row, Shape};
use std::alloc::{AllocError, Global};

/// The lifeline of a thread, or of the attacker.
#[derive(Clone, Copy)]
pub(crate) struct Lifeline {
    /// The number of the thread, from 1; 0 is the attacker.
    pub(crate) thread: u32,
    /// Its column from the left, from 0.
    pub(crate) column: usize,
    /// The rows that are shown where it begins and ends, from 0.
    pub(crate) first: usize,
    pub(crate) last: usize,
}

/// Where a chart's parts are drawn.
#[derive(Drop)]
pub(crate) struct Layout {
    /// The lifelines, of which the first is the attacker's.
    pub(crate) lifelines: Vec<Lifeline>,
    /// The rows that are shown, by their numbers from 0: not those where a thread begins of which no other row tells.
    pub(crate) rows: Vec<usize>,
    /// How many columns there are.
    pub(crate) columns: usize,
}

/// Notes that a row tells something of a thread; 0 is the attacker, and no thread.
fn note(told: &mut [bool], thread: u32) {
    if let Some(is_told) = told.get_mut((thread as usize).wrapping_sub(1)) {
        *is_told = true;
    }
}

/// Of which threads rows tell more than that they begin.
fn told_threads(alloc: Global, chart: &Chart) -> Result<Vec<bool>, AllocError> {
    let mut told = vec![in alloc; false; chart.threads.len()]?;
    for row in &chart.rows {
        match row.shape {
            Shape::Arrow(from, to) => {
                note(&mut told, from);
                note(&mut told, to);
            }
            Shape::Note(thread) => note(&mut told, thread),
            Shape::Begin(_) | Shape::Bar | Shape::Violation(_) => {}
        }
    }
    Ok(told)
}

/// Whether a row is shown.
fn is_shown(told: &[bool], row: &Row) -> bool {
    match row.shape {
        Shape::Begin(thread) => match told.get((thread as usize).wrapping_sub(1)) {
            None => false,
            Some(is_told) => *is_told,
        },
        _ => true,
    }
}

/// The rows that are shown.
fn shown_rows(alloc: Global, chart: &Chart) -> Result<Vec<usize>, AllocError> {
    let told = told_threads(alloc, chart)?;
    let mut rows = Vec::new(alloc);
    for (index, row) in chart.rows.iter().enumerate() {
        if is_shown(&told, row) {
            rows.push(index)?;
        }
    }
    Ok(rows)
}

/// The lifeline of a thread goes on to that row.
fn extend(lifelines: &mut [Lifeline], thread: u32, at: usize) {
    for lifeline in lifelines {
        if lifeline.thread == thread {
            lifeline.last = at;
        }
    }
}

/// Notes a row in the lifelines.
fn note_row(lifelines: &mut Vec<Lifeline>, row: &Row, at: usize) -> Result<(), AllocError> {
    match row.shape {
        Shape::Begin(thread) => lifelines.push(Lifeline {
            thread,
            column: 0,
            first: at,
            last: at,
        })?,
        Shape::Arrow(from, to) => {
            extend(lifelines, from, at);
            extend(lifelines, to, at);
        }
        Shape::Note(thread) => extend(lifelines, thread, at),
        Shape::Bar | Shape::Violation(_) => {}
    }
    Ok(())
}

/// The lifelines, all in one column.
fn lifelines(alloc: Global, chart: &Chart, rows: &[usize]) -> Result<Vec<Lifeline>, AllocError> {
    let mut lifelines = Vec::new(alloc);
    lifelines.push(Lifeline {
        thread: 0,
        column: 0,
        first: 0,
        last: 0,
    })?;
    for (at, index) in rows.iter().enumerate() {
        if let Some(row) = chart.rows.get(*index) {
            note_row(&mut lifelines, row, at)?;
        }
    }
    extend(&mut lifelines, 0, rows.len().saturating_sub(1));
    Ok(lifelines)
}

/// The first column that a thread may take which begins at that row, by the last threads in them; one more where there is none. So
/// many columns are filled before one is taken that stands free.
fn free_column(columns: &[Lifeline], first: usize, most: usize) -> usize {
    for (column, ended) in columns.iter().enumerate() {
        if ended.last < first && (ended.thread == 1 || columns.len() >= most) {
            return column;
        }
    }
    columns.len()
}

/// Gives the lifeline a column; its number.
fn take_column(
    columns: &mut Vec<Lifeline>,
    lifeline: Lifeline,
    most: usize,
) -> Result<usize, AllocError> {
    let column = free_column(columns, lifeline.first, most);
    match columns.get_mut(column) {
        Some(ended) => *ended = lifeline,
        None => columns.push(lifeline)?,
    }
    Ok(column)
}

/// Gives each thread a column; how many there are.
fn give_columns(
    alloc: Global,
    lifelines: &mut [Lifeline],
    most: usize,
) -> Result<usize, AllocError> {
    let mut columns = Vec::new(alloc);
    for lifeline in lifelines {
        if lifeline.thread != 0 {
            lifeline.column = take_column(&mut columns, *lifeline, most)?;
        }
    }
    Ok(columns.len())
}

/// Puts the attacker in that column, and the threads from there on one further to the right.
fn make_room(lifelines: &mut [Lifeline], middle: usize) {
    for lifeline in lifelines {
        if lifeline.thread == 0 {
            lifeline.column = middle;
        } else if lifeline.column >= middle {
            lifeline.column = lifeline.column.saturating_add(1);
        }
    }
}

/// Where the parts of a chart are drawn, the attacker in the middle, where so many columns of threads aren't narrow.
pub(crate) fn lay_out(alloc: Global, chart: &Chart, most: usize) -> Result<Layout, AllocError> {
    let rows = shown_rows(alloc, chart)?;
    let mut lifelines = lifelines(alloc, chart, &rows)?;
    let threads = give_columns(alloc, &mut lifelines, most)?;
    make_room(&mut lifelines, threads - threads / 2);
    Ok(Layout {
        lifelines,
        rows,
        columns: threads.saturating_add(1),
    })
}

impl Layout {
    /// The column of a thread, or of the attacker.
    pub(crate) fn column(&self, thread: u32) -> usize {
        for lifeline in &self.lifelines {
            if lifeline.thread == thread {
                return lifeline.column;
            }
        }
        0
    }
}
