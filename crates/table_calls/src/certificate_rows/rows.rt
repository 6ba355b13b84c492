//! The lines of a table.
//!
//! A row with the name of an error expects it where the mark of its text stands, and a row with `ok` expects that its text
//! is read: of a certificate up to the mark, and as the text that is written of it. A row with another word expects a text,
//! of the report or the certificate that was set last.

use crate::certificate_rows::lines::Change;
use crate::certificate_rows::reading::{answer, changes, claims, constraints, fronts, nodes};
use crate::certificate_rows::settings::Setting;
use crate::certificate_rows::texts::text_of;
use pi_tree::Protocol;
use std::alloc::{AllocError, Global};
use table_protocols::spelled;
use table_rows::{Line, compared, named};

/// A row about the text that was set last.
#[derive(Clone, Copy)]
enum Row {
    Nodes,
    Constraints,
    Claims,
    Fronts,
    Changes(Change),
}

/// The first words of these rows.
const ROWS: [(&str, Row); 7] = [
    ("nodes", Row::Nodes),
    ("constraints", Row::Constraints),
    ("claims", Row::Claims),
    ("fronts", Row::Fronts),
    ("left_out", Row::Changes(Change::LeftOut)),
    ("doubled", Row::Changes(Change::Doubled)),
    ("exchanged", Row::Changes(Change::Exchanged)),
];

impl Setting {
    /// Sets something for the rows below, or compares what a row shows with what it expects.
    pub fn follow(&mut self, alloc: Global, line: &str) -> Result<Line, AllocError> {
        let (word, text) = line.split_once(' ').unwrap_or((line, ""));
        if self.set(alloc, word, text)? {
            return Ok(Line::Setting);
        }
        line_of(alloc, self, word, text)
    }
}

/// What a row shows of the protocol, and whether it expects that.
fn line_of(alloc: Global, setting: &Setting, word: &str, text: &str) -> Result<Line, AllocError> {
    match spelled(alloc, &setting.protocol) {
        Some(protocol) => line_for(alloc, &protocol, setting, word, text),
        None => Ok(Line::Wrong(String::from_str(alloc, "no protocol")?)),
    }
}

/// The same with the protocol.
fn line_for(
    alloc: Global,
    protocol: &Protocol,
    setting: &Setting,
    word: &str,
    text: &str,
) -> Result<Line, AllocError> {
    match named(&ROWS, word) {
        Some(row) => Ok(compared(shown(alloc, protocol, &setting.file, row)?, text)),
        None => answered(alloc, protocol, setting, word, text),
    }
}

/// What a row about the text that was set last shows.
fn shown(alloc: Global, protocol: &Protocol, file: &[u8], row: Row) -> Result<String, AllocError> {
    match row {
        Row::Nodes => nodes(alloc, protocol, file),
        Row::Constraints => constraints(alloc, protocol, file),
        Row::Claims => claims(alloc, protocol, file),
        Row::Fronts => fronts(alloc, protocol, file),
        Row::Changes(change) => changes(alloc, protocol, file, change),
    }
}

/// A row that expects this answer for a text: the name of an error, or `ok`.
fn answered(
    alloc: Global,
    protocol: &Protocol,
    setting: &Setting,
    name: &str,
    text: &str,
) -> Result<Line, AllocError> {
    let file = text_of(alloc, &setting.front, text)?;
    let shown = answer(alloc, protocol, setting.is_alone, &file.bytes)?;
    marked(alloc, shown, name, file.mark)
}

/// A row that shows this, and expects the name, with the place of the mark where there is one.
fn marked(
    alloc: Global,
    shown: String,
    name: &str,
    mark: Option<usize>,
) -> Result<Line, AllocError> {
    match mark {
        None => Ok(compared(shown, name)),
        Some(place) => {
            let expected = format!(in alloc; "{name}({place})")?;
            Ok(compared(shown, expected.as_str()))
        }
    }
}
