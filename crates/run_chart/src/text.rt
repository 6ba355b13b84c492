//! A chart as text.

use crate::chart::{Chart, Row, Shape};
use crate::labels::{heading, label};
use crate::layout::{Layout, lay_out};
use crate::texts::Text;
use std::alloc::{AllocError, Global};

/// How wide a column is at least and at most, in letters.
const NARROWEST: usize = 10;

const WIDEST: usize = 32;

/// Where the first lifeline stands.
const FIRST: usize = 8;

/// How many letters a heading and a note may have where the columns are narrower.
const HEADING: usize = 24;

const NOTE: usize = 72;

/// How many letters of a line there are for each thread that has a column of its own.
const OWN: usize = 40;

/// A chart that is printed.
#[derive(Clone, Copy)]
struct Page<'a> {
    alloc: Global,
    chart: &'a Chart,
    layout: &'a Layout,
    /// How wide a line is.
    width: usize,
    /// How wide a column is.
    column: usize,
}

/// How wide a column is where a line has that width and so many columns: a quarter of it stands right of the last lifeline.
fn column_width(width: usize, columns: usize) -> usize {
    let room = width.saturating_sub(FIRST).saturating_sub(width / 4);
    let gaps = columns.saturating_sub(1).max(1);
    (room / gaps).max(NARROWEST).min(WIDEST)
}

impl Page<'_> {
    /// Where the lifelines of a column stand.
    fn line_at(&self, column: usize) -> usize {
        column.saturating_mul(self.column).saturating_add(FIRST)
    }

    /// Where the lifeline of a thread stands.
    fn lifeline_at(&self, thread: u32) -> usize {
        let layout = self.layout;
        self.line_at(layout.column(thread))
    }

    /// Where a text of that length stands that belongs to that place, and how many letters of it are shown, of so many at most: where
    /// the line ends before it, it begins further to the left, and still right of the lifeline before.
    fn fitted(&self, place: usize, length: usize, most: usize) -> (usize, usize) {
        let before = place.saturating_sub(self.column);
        let first = before.saturating_add(1).max(FIRST);
        let last = self.width.saturating_sub(length.min(most));
        let begin = place.min(last).max(first);
        let room = self.width.saturating_sub(begin).max(NARROWEST);
        (begin, room.min(most))
    }

    /// Where a text of that length in a row begins, and how many letters of it are shown.
    fn text_at(&self, row: &Row, length: usize) -> (usize, usize) {
        match row.shape {
            Shape::Begin(thread) => {
                let most = self.column.saturating_sub(1).max(HEADING);
                self.fitted(self.lifeline_at(thread), length, most)
            }
            Shape::Arrow(from, to) => {
                let (begin, end) = (self.lifeline_at(from), self.lifeline_at(to));
                (
                    begin.min(end).saturating_add(2),
                    begin.abs_diff(end).saturating_sub(3),
                )
            }
            Shape::Note(thread) => {
                let place = self.lifeline_at(thread).saturating_add(2);
                self.fitted(place, length, self.column.saturating_sub(3).max(NOTE))
            }
            Shape::Bar | Shape::Violation(_) => (FIRST + 4, self.width),
        }
    }
}

/// Writes letters over those of a line from that place on.
fn write_over(line: &mut Vec<u8>, place: usize, letters: &[u8]) -> Result<(), AllocError> {
    for (index, letter) in letters.iter().enumerate() {
        match line.get_mut(place.saturating_add(index)) {
            Some(old) => *old = *letter,
            None => line.push(*letter)?,
        }
    }
    Ok(())
}

/// Makes a line so long, with that mark.
fn fill(line: &mut Vec<u8>, length: usize, mark: u8) -> Result<(), AllocError> {
    for _ in line.len()..length {
        line.push(mark)?;
    }
    Ok(())
}

/// The lifelines at the row that is shown as that one.
fn lifelines_at(page: Page<'_>, at: usize) -> Result<Vec<u8>, AllocError> {
    let mut line = Vec::new(page.alloc);
    let layout = page.layout;
    fill(&mut line, page.line_at(layout.columns), b' ')?;
    for lifeline in &layout.lifelines {
        if (lifeline.first < at || lifeline.thread == 0) && at <= lifeline.last {
            write_over(&mut line, page.line_at(lifeline.column), b"|")?;
        }
    }
    Ok(line)
}

/// Puts a line, without the blanks at its end.
fn put_line(out: &mut Vec<u8>, line: &[u8]) -> Result<(), AllocError> {
    out.extend_from_slice(line.trim_ascii_end())?;
    out.extend_from_slice(b"\n")
}

/// Writes a text over a line, and blanks where that ends before it; what is longer than its room is cut.
fn write_text(
    line: &mut Vec<u8>,
    (place, room): (usize, usize),
    mut text: Text,
) -> Result<(), AllocError> {
    text.cut(room);
    let letters = text.finish()?;
    fill(line, place, b' ')?;
    write_over(line, place, &letters)
}

/// Writes the number of a row's step over a line.
fn write_step(line: &mut Vec<u8>, page: Page<'_>, row: &Row) -> Result<(), AllocError> {
    let mut number = Text::new(page.alloc);
    number.put_number(b"", row.step);
    write_text(line, (0, FIRST), number)
}

/// Puts the line of a row's text.
fn put_text(out: &mut Vec<u8>, page: Page<'_>, row: &Row, at: usize) -> Result<(), AllocError> {
    let mut line = lifelines_at(page, at)?;
    write_step(&mut line, page, row)?;
    let text = label(page.alloc, page.chart, row);
    let place = page.text_at(row, text.len());
    write_text(&mut line, place, text)?;
    put_line(out, &line)
}

/// Puts the shaft of an arrow from one thread to another.
fn put_shaft(
    out: &mut Vec<u8>,
    page: Page<'_>,
    (from, to): (u32, u32),
    at: usize,
) -> Result<(), AllocError> {
    let mut line = lifelines_at(page, at)?;
    let (begin, end) = (page.lifeline_at(from), page.lifeline_at(to));
    let left = begin.min(end);
    for place in left.saturating_add(1)..begin.max(end) {
        write_over(&mut line, place, b"-")?;
    }
    if begin < end {
        write_over(&mut line, end.saturating_sub(1), b">")?;
    } else {
        write_over(&mut line, left.saturating_add(1), b"<")?;
    }
    put_line(out, &line)
}

/// Puts the line of what is so for the whole run, made of that mark.
fn put_bar(out: &mut Vec<u8>, page: Page<'_>, row: &Row, mark: u8) -> Result<(), AllocError> {
    let mut line = Vec::new(page.alloc);
    fill(&mut line, FIRST, b' ')?;
    let layout = page.layout;
    fill(
        &mut line,
        page.line_at(layout.columns.saturating_sub(1))
            .saturating_add(1),
        mark,
    )?;
    write_step(&mut line, page, row)?;
    let mut text = Text::new(page.alloc);
    text.push(b' ');
    text.put_text(&label(page.alloc, page.chart, row));
    text.push(b' ');
    let place = page.text_at(row, text.len());
    write_text(&mut line, place, text)?;
    put_line(out, &line)
}

/// Puts the lines of the row that is shown as that one.
fn put_row(out: &mut Vec<u8>, page: Page<'_>, row: &Row, at: usize) -> Result<(), AllocError> {
    match row.shape {
        Shape::Begin(_) | Shape::Note(_) => put_text(out, page, row, at),
        Shape::Arrow(from, to) => {
            put_text(out, page, row, at)?;
            put_shaft(out, page, (from, to), at)
        }
        Shape::Bar => put_bar(out, page, row, b'-'),
        Shape::Violation(_) => put_bar(out, page, row, b'='),
    }
}

/// Puts the line above all rows.
fn put_top(out: &mut Vec<u8>, page: Page<'_>) -> Result<(), AllocError> {
    let mut line = Vec::new(page.alloc);
    write_over(&mut line, 0, b"step")?;
    let text = heading(page.alloc, page.chart, 0);
    write_text(&mut line, (page.lifeline_at(0), WIDEST), text)?;
    put_line(out, &line)
}

/// Puts the lines of all rows.
fn put_rows(out: &mut Vec<u8>, page: Page<'_>) -> Result<(), AllocError> {
    let (chart, layout) = (page.chart, page.layout);
    for (at, index) in layout.rows.iter().enumerate() {
        if let Some(row) = chart.rows.get(*index) {
            put_row(out, page, row, at)?;
        }
    }
    Ok(())
}

/// Puts what a word stands for, on lines of that width: those behind the first are indented.
fn put_wrapped(
    out: &mut Vec<u8>,
    page: Page<'_>,
    mut word: Text,
    text: &[u8],
) -> Result<(), AllocError> {
    let indent = word.len();
    let room = page.width.saturating_sub(indent).max(NARROWEST);
    for part in text.chunks(room) {
        word.put(part);
        let line = word.finish()?;
        put_line(out, &line)?;
        word = Text::new(page.alloc);
        word.put_blanks(indent);
    }
    Ok(())
}

/// Puts what the abbreviations stand for.
fn put_legend(out: &mut Vec<u8>, page: Page<'_>) -> Result<(), AllocError> {
    let chart = page.chart;
    for (index, text) in chart.legend.texts.iter().enumerate() {
        let mut word = Text::new(page.alloc);
        word.put_number(b"M", index as u64 + 1);
        word.put(b" = ");
        put_wrapped(out, page, word, text)?;
    }
    Ok(())
}

/// Puts the whole text of a row that is cut.
fn put_whole(out: &mut Vec<u8>, page: Page<'_>, row: &Row) -> Result<(), AllocError> {
    let text = label(page.alloc, page.chart, row);
    let (_, room) = page.text_at(row, text.len());
    if text.len() <= room {
        return Ok(());
    }
    let mut word = Text::new(page.alloc);
    word.put_number(b"step ", row.step);
    word.put(b": ");
    let letters = text.finish()?;
    put_wrapped(out, page, word, &letters)
}

/// Puts the whole texts of the rows that are cut.
fn put_cut(out: &mut Vec<u8>, page: Page<'_>) -> Result<(), AllocError> {
    let (chart, layout) = (page.chart, page.layout);
    for index in &layout.rows {
        if let Some(row) = chart.rows.get(*index) {
            put_whole(out, page, row)?;
        }
    }
    Ok(())
}

/// Puts what stands beneath a chart, behind an empty line.
fn put_beneath(out: &mut Vec<u8>, page: Page<'_>) -> Result<(), AllocError> {
    let mut beneath = Vec::new(page.alloc);
    put_legend(&mut beneath, page)?;
    put_cut(&mut beneath, page)?;
    if !beneath.is_empty() {
        out.push(b'\n')?;
    }
    out.extend_from_slice(&beneath)
}

/// Puts a chart as text of lines of that width, where the columns have room: a column of letters for each thread and for the
/// attacker, and beneath it what the abbreviations stand for, and the whole of what is cut.
pub fn put_chart(
    out: &mut Vec<u8>,
    alloc: Global,
    chart: &Chart,
    width: usize,
) -> Result<(), AllocError> {
    let layout = lay_out(alloc, chart, width / OWN)?;
    let page = Page {
        alloc,
        chart,
        layout: &layout,
        width,
        column: column_width(width, layout.columns),
    };
    put_top(out, page)?;
    put_rows(out, page)?;
    put_beneath(out, page)
}
