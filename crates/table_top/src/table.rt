//! The lines of a table.

use crate::calls::{call, calm_call, calm_status};
use crate::protocols::{About, told};
use crate::setting::Setting;
use crate::texts::bytes_of;
use crate::values::{request, steps};
use std::alloc::{AllocError, Global};
use table_rows::{Line, Rows, named, unknown};

/// What a row shows.
#[derive(Clone, Copy)]
enum Kind {
    Call,
    CalmCall,
    CalmStatus,
    Request,
    Steps,
    Protocol(About),
}

/// What rows show, by their first words.
const KINDS: [(&str, Kind); 9] = [
    ("call", Kind::Call),
    ("calm-call", Kind::CalmCall),
    ("calm-status", Kind::CalmStatus),
    ("request", Kind::Request),
    ("steps", Kind::Steps),
    ("description", Kind::Protocol(About::Description)),
    ("absences", Kind::Protocol(About::Absences)),
    ("copy", Kind::Protocol(About::Copy)),
    ("end", Kind::Protocol(About::End)),
];

/// What a row of that kind shows.
fn shown(alloc: Global, setting: &Setting, kind: Kind) -> Result<String, AllocError> {
    match kind {
        Kind::Call => call(alloc, setting),
        Kind::CalmCall => calm_call(alloc, setting),
        Kind::CalmStatus => calm_status(alloc, setting),
        Kind::Request => request(alloc, &setting.words),
        Kind::Steps => steps(alloc, &setting.run),
        Kind::Protocol(about) => told(alloc, setting, about),
    }
}

/// A row that shows this, and expects these bytes.
fn compared(shown: String, expected: &[u8]) -> Line {
    if shown.as_bytes() == expected {
        Line::Right
    } else {
        Line::Wrong(shown)
    }
}

/// A row of that kind, which expects the bytes that the text stands for.
fn row(alloc: Global, setting: &Setting, kind: Kind, text: &str) -> Result<Line, AllocError> {
    let shown = shown(alloc, setting, kind)?;
    Ok(compared(shown, &bytes_of(alloc, text)?))
}

impl Rows for Setting {
    fn new(alloc: Global, _name: &str) -> Result<Setting, AllocError> {
        Ok(Setting::new(alloc))
    }

    fn follow(&mut self, alloc: Global, line: &str) -> Result<Line, AllocError> {
        let (word, text) = line.split_once(' ').unwrap_or((line, ""));
        match named(&KINDS, word) {
            Some(kind) => row(alloc, self, kind, text),
            None if self.set(alloc, word, text)? => Ok(Line::Setting),
            None => unknown(alloc),
        }
    }
}
