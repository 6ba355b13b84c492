//! A chart as SVG (Scalable Vector Graphics 1.1). All measures are pixels, from the left and from the top.

ghost use Rattle.std.specs.Prelude.{◌<◌};

use crate::chart::{Chart, Row, Shape};
use crate::labels::{heading, label};
use crate::layout::{Layout, Lifeline, lay_out};
use crate::texts::Text;
use std::alloc::{AllocError, Global};

/// How wide a picture is at most, where its columns have room.
const WIDTH: u64 = 1_200;

/// How wide a column is at least and at most.
const NARROWEST: u64 = 84;

const WIDEST: u64 = 280;

/// Where the first lifeline stands.
const FIRST: u64 = 140;

/// How much stands right of the last lifeline.
const RIGHT: u64 = 340;

/// How wide the name of a thread is at most: it stands on both sides of the first lifeline.
const HEADING: u64 = 220;

/// How many threads have a column of their own.
const OWN: usize = 3;

/// Where bars and the legend begin.
const EDGE: u64 = 55;

/// How high a row is.
const ROW: u64 = 28;

/// Where the first row stands.
const TOP: u64 = 60;

/// How wide two letters are at most.
const TWO_LETTERS: u64 = 15;

/// How far from a lifeline a text begins.
const GAP: u64 = 8;

/// How far above its line a text stands.
const RISE: u64 = 5;

/// Where what an abbreviation stands for begins.
const LEGEND: u64 = 130;

/// How high a line of the legend is.
const LINE: u64 = 18;

/// A chart that is drawn.
#[derive(Clone, Copy)]
struct Page<'a> {
    alloc: Global,
    chart: &'a Chart,
    layout: &'a Layout,
    /// How wide a column is.
    column: u64,
}

/// How wide a column of so many is.
fn column_width(columns: usize) -> u64 {
    let gaps = (columns as u64).saturating_sub(1).max(1);
    ((WIDTH - FIRST - RIGHT) / gaps).max(NARROWEST).min(WIDEST)
}

/// Where the row that is shown as that one stands.
fn row_at(at: usize) -> u64 {
    (at as u64).saturating_mul(ROW).saturating_add(TOP)
}

/// How wide so many letters are at most.
fn width_of(letters: usize) -> u64 {
    (letters as u64)
        .saturating_mul(TWO_LETTERS)
        .saturating_add(1)
        / 2
}

/// How many letters have room there.
fn letters_in(width: u64) -> usize {
    (width.saturating_mul(2) / TWO_LETTERS) as usize
}

impl Page<'_> {
    /// Where the lifelines of a column stand.
    fn line_at(&self, column: usize) -> u64 {
        (column as u64)
            .saturating_mul(self.column)
            .saturating_add(FIRST)
    }

    /// Where the lifeline of a thread stands.
    fn lifeline_at(&self, thread: u32) -> u64 {
        let layout = self.layout;
        self.line_at(layout.column(thread))
    }

    /// How wide the picture is.
    fn width(&self) -> u64 {
        let layout = self.layout;
        self.line_at(layout.columns.saturating_sub(1))
            .saturating_add(RIGHT)
    }

    /// Where a note of so many letters begins that belongs to the lifeline there: where the picture ends before it, further to the
    /// left, and still right of the lifeline before.
    fn note_at(&self, line: u64, letters: usize) -> u64 {
        let place = line.saturating_add(GAP);
        let last = self.note_end().saturating_sub(width_of(letters));
        let first = place.saturating_sub(self.column).max(FIRST + GAP);
        place.min(last).max(first)
    }

    /// Where notes end at most.
    fn note_end(&self) -> u64 {
        self.width().saturating_sub(GAP)
    }

    /// How many letters of a row's text are shown, which has so many.
    fn room(&self, row: &Row, letters: usize) -> usize {
        match row.shape {
            Shape::Begin(_) => letters_in(self.column.min(HEADING).saturating_sub(GAP)),
            Shape::Arrow(_, _) => letters_in(self.column.saturating_sub(2 * GAP)),
            Shape::Note(thread) => {
                let left = self.note_at(self.lifeline_at(thread), letters);
                letters_in(self.note_end().saturating_sub(left))
            }
            Shape::Bar | Shape::Violation(_) => letters_in(WIDTH),
        }
    }

    /// How many letters of a legend stand on a line.
    fn letters(&self) -> usize
        ensures { 0 < result }
    {
        letters_in(self.width().saturating_sub(LEGEND + GAP)).max(1)
    }
}

/// Puts a letter that XML reads as it is: what begins or ends markup is written as an entity.
fn put_letter(out: &mut Text, letter: u8) {
    match letter {
        b'<' => out.put(b"&lt;"),
        b'>' => out.put(b"&gt;"),
        b'&' => out.put(b"&amp;"),
        b' '..=b'~' => out.push(letter),
        _ => out.push(b'?'),
    }
}

/// Puts text that XML reads as it is.
fn put_escaped(out: &mut Text, text: &[u8]) {
    for letter in text {
        put_letter(out, *letter);
    }
}

/// Puts where a text begins, at a place and of that class.
fn put_begin(out: &mut Text, class: &[u8], (left, top): (u64, u64)) {
    out.put(b"<text class=\"");
    out.put(class);
    out.put_number(b"\" x=\"", left);
    out.put_number(b"\" y=\"", top);
    out.put(b"\">");
}

/// What ends a text.
const END: &[u8] = b"</text>\n";

/// Puts a text at a place, of that class.
fn put_text(out: &mut Text, class: &[u8], place: (u64, u64), text: &[u8]) {
    put_begin(out, class, place);
    put_escaped(out, text);
    out.put(END);
}

/// Puts a line of that class.
fn put_line(out: &mut Text, class: &[u8], (left, top): (u64, u64), (right, bottom): (u64, u64)) {
    out.put(b"<line class=\"");
    out.put(class);
    out.put_number(b"\" x1=\"", left);
    out.put_number(b"\" y1=\"", top);
    out.put_number(b"\" x2=\"", right);
    out.put_number(b"\" y2=\"", bottom);
    out.put(b"\"/>\n");
}

/// Puts a rectangle of that class, which begins at the place and is so wide and high.
fn put_box(out: &mut Text, class: &[u8], (left, top): (u64, u64), (width, height): (u64, u64)) {
    out.put(b"<rect class=\"");
    out.put(class);
    out.put_number(b"\" x=\"", left);
    out.put_number(b"\" y=\"", top);
    out.put_number(b"\" width=\"", width);
    out.put_number(b"\" height=\"", height);
    out.put(b"\"/>\n");
}

/// Puts the number of a row's step at the left.
fn put_step(out: &mut Text, row: &Row, top: u64) {
    put_begin(out, b"step", (10, top));
    out.put_number(b"", row.step);
    out.put(END);
}

/// Puts who begins at a lifeline, in a box.
fn put_heading(out: &mut Text, text: &[u8], left: u64, top: u64) {
    let width = width_of(text.len()).saturating_add(GAP);
    let place = (left.saturating_sub(width / 2), top.saturating_sub(15));
    put_box(out, b"head", place, (width, 21));
    put_text(out, b"heading", (left, top), text);
}

/// Puts an arrow from one lifeline to another, and its message above it in the middle between the sender's lifeline and the next.
fn put_arrow(out: &mut Text, page: Page<'_>, text: &[u8], (from, to): (u32, u32), top: u64) {
    let (begin, end) = (page.lifeline_at(from), page.lifeline_at(to));
    let half = page.column / 2;
    let middle = if begin < end {
        begin.saturating_add(half)
    } else {
        begin.saturating_sub(half)
    };
    put_text(out, b"message", (middle, top.saturating_sub(RISE)), text);
    put_line(out, b"arrow", (begin, top), (end, top));
}

/// Puts a line across all columns, and what it says.
fn put_bar(out: &mut Text, page: Page<'_>, class: &[u8], text: &[u8], top: u64) {
    let right = page.width().saturating_sub(EDGE);
    put_line(out, class, (EDGE, top), (right, top));
    put_text(out, class, (FIRST + GAP, top.saturating_sub(RISE)), text);
}

/// Puts a note, on white: what is long stands on other lifelines.
fn put_note(out: &mut Text, text: &[u8], left: u64, top: u64) {
    let width = width_of(text.len());
    put_box(out, b"paper", (left, top.saturating_sub(12)), (width, 16));
    put_text(out, b"note", (left, top), text);
}

/// Puts what is drawn of a row, with that text.
fn put_shape(out: &mut Text, page: Page<'_>, row: &Row, text: &[u8], top: u64) {
    match row.shape {
        Shape::Begin(thread) => put_heading(out, text, page.lifeline_at(thread), top),
        Shape::Arrow(from, to) => put_arrow(out, page, text, (from, to), top),
        Shape::Note(thread) => {
            let left = page.note_at(page.lifeline_at(thread), text.len());
            put_note(out, text, left, top);
        }
        Shape::Bar => put_bar(out, page, b"phase", text, top),
        Shape::Violation(_) => put_bar(out, page, b"violation", text, top),
    }
}

/// Puts a row, with the number of its step.
fn put_row(out: &mut Text, page: Page<'_>, row: &Row, top: u64) -> Result<(), AllocError> {
    put_step(out, row, top);
    let mut text = label(page.alloc, page.chart, row);
    text.cut(page.room(row, text.len()));
    let letters = text.finish()?;
    put_shape(out, page, row, &letters, top);
    Ok(())
}

/// Puts all rows.
fn put_rows(out: &mut Text, page: Page<'_>) -> Result<(), AllocError> {
    let (chart, layout) = (page.chart, page.layout);
    for (at, index) in layout.rows.iter().enumerate() {
        if let Some(row) = chart.rows.get(*index) {
            put_row(out, page, row, row_at(at))?;
        }
    }
    Ok(())
}

/// Puts a lifeline: the attacker's from its heading on, another from its row on, each to a bar behind its last row.
fn put_lifeline(out: &mut Text, page: Page<'_>, lifeline: Lifeline) {
    let left = page.line_at(lifeline.column);
    let top = if lifeline.thread == 0 {
        TOP - ROW
    } else {
        row_at(lifeline.first)
    };
    let bottom = row_at(lifeline.last).saturating_add(ROW / 3);
    put_line(out, b"life", (left, top), (left, bottom));
    put_line(
        out,
        b"end",
        (left.saturating_sub(6), bottom),
        (left.saturating_add(6), bottom),
    );
}

/// Puts all lifelines, and above them the attacker's heading.
fn put_lifelines(out: &mut Text, page: Page<'_>) -> Result<(), AllocError> {
    let layout = page.layout;
    for lifeline in &layout.lifelines {
        put_lifeline(out, page, *lifeline);
    }
    let text = heading(page.alloc, page.chart, 0).finish()?;
    put_heading(out, &text, page.lifeline_at(0), TOP - ROW);
    Ok(())
}

/// Puts a text on lines of so many letters, the first of them there; where the next would stand.
fn put_wrapped(out: &mut Text, text: &[u8], letters: usize, first: u64) -> u64
    requires { 0 < letters }
{
    let mut top = first;
    for line in text.chunks(letters) {
        put_text(out, b"legend", (LEGEND, top), line);
        top = top.saturating_add(LINE);
    }
    top
}

/// Puts what the abbreviations stand for, from there on; where the next line would stand.
fn put_legend(out: &mut Text, page: Page<'_>, first: u64) -> u64 {
    let chart = page.chart;
    let letters = page.letters();
    let mut top = first;
    for (index, text) in chart.legend.texts.iter().enumerate() {
        put_begin(out, b"legend", (EDGE, top));
        out.put_number(b"M", index as u64 + 1);
        out.put(b" =");
        out.put(END);
        top = put_wrapped(out, text, letters, top);
    }
    top
}

/// Puts the whole text of a row, where it is cut, there; where the next line would stand.
fn put_whole(out: &mut Text, page: Page<'_>, row: &Row, first: u64) -> Result<u64, AllocError> {
    let text = label(page.alloc, page.chart, row);
    if text.len() <= page.room(row, text.len()) {
        return Ok(first);
    }
    put_begin(out, b"legend", (EDGE, first));
    out.put_number(b"step ", row.step);
    out.put(END);
    let letters = text.finish()?;
    Ok(put_wrapped(out, &letters, page.letters(), first))
}

/// Puts the whole texts of the rows that are cut, from there on; where the next line would stand.
fn put_cut(out: &mut Text, page: Page<'_>, first: u64) -> Result<u64, AllocError> {
    let (chart, layout) = (page.chart, page.layout);
    let mut top = first;
    for index in &layout.rows {
        if let Some(row) = chart.rows.get(*index) {
            top = put_whole(out, page, row, top)?;
        }
    }
    Ok(top)
}

/// How the parts of a chart look, and the head of an arrow.
const STYLE: &[u8] = b"<style>text{font-family:monospace;font-size:12px;fill:#222}\
.heading{font-weight:bold;text-anchor:middle}.message{text-anchor:middle}.step{fill:#888}\
.head{fill:#fff;stroke:#999}\
.life{stroke:#999;stroke-dasharray:4 3}.end{stroke:#999}\
.arrow{stroke:#222;marker-end:url(#head)}\
.note{fill:#345}.paper{fill:#fff}.phase{stroke:#36c}text.phase{stroke:none;fill:#36c}\
.violation{stroke:#c22;stroke-width:2}text.violation{stroke:none;fill:#c22;font-weight:bold}\
</style>\n\
<defs><marker id=\"head\" viewBox=\"0 0 8 8\" refX=\"8\" refY=\"4\" markerWidth=\"8\" markerHeight=\"8\" orient=\"auto\">\
<path d=\"M0 0L8 4L0 8z\" fill=\"#222\"/></marker></defs>\n\
<rect class=\"paper\" width=\"100%\" height=\"100%\"/>\n";

/// Puts where the picture begins, of that width and height.
fn put_top(out: &mut Text, width: u64, height: u64) {
    out.put_number(b"<svg xmlns=\"http://www.w3.org/2000/svg\" width=\"", width);
    out.put_number(b"\" height=\"", height);
    out.put_number(b"\" viewBox=\"0 0 ", width);
    out.put_number(b" ", height);
    out.put(b"\">\n");
    out.put(STYLE);
}

/// Puts the picture, whose parts are drawn first: then its height is known.
fn put_picture(out: &mut Vec<u8>, page: Page<'_>) -> Result<(), AllocError> {
    let layout = page.layout;
    let mut parts = Text::new(page.alloc);
    put_lifelines(&mut parts, page)?;
    put_rows(&mut parts, page)?;
    let legend = row_at(layout.rows.len()).saturating_add(2 * ROW);
    let cut = put_legend(&mut parts, page, legend);
    let bottom = put_cut(&mut parts, page, cut)?;
    let mut whole = Text::new(page.alloc);
    put_top(&mut whole, page.width(), bottom);
    whole.put_text(&parts);
    whole.put(b"</svg>\n");
    whole.append_to(out)
}

/// Puts a chart as SVG.
pub fn put_svg(out: &mut Vec<u8>, alloc: Global, chart: &Chart) -> Result<(), AllocError> {
    let layout = lay_out(alloc, chart, OWN)?;
    let page = Page {
        alloc,
        chart,
        layout: &layout,
        column: column_width(layout.columns),
    };
    put_picture(out, page)
}
