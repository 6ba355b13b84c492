//! The lines of a derivation.

use crate::columns::{NUMBER_WIDTH, put_column, put_numbered};
use crate::entries::{put_parents, put_start, source_of};
use crate::spelling::{Setting, put_point};
use crate::tree::{Derivation, Line, Part};
use clause_sources::{Action, Sources};
use log_entries::{Origin, PlainLog};
use protocol_text::declared_word;
use std::alloc::AllocError;

/// The most levels by which a line is indented.
const MOST_LEVELS: usize = 40;

/// A log, the sources of its given clauses, and in which words it is told.
#[derive(Clone, Copy)]
struct Telling<'a> {
    setting: Setting<'a>,
    sources: &'a Sources,
    log: &'a PlainLog,
}

/// The word of the destructor of that number, from 1; empty where there is none.
fn destructor_word(setting: Setting<'_>, number: u32) -> &[u8] {
    let protocol = setting.protocol;
    match protocol.dtors.items.get(number.wrapping_sub(1) as usize) {
        None => b"",
        Some(destructor) => destructor.word.items.as_slice(),
    }
}

/// Puts that the attacker applies what has that word.
fn put_applied(out: &mut Vec<u8>, word: &[u8]) -> Result<(), AllocError> {
    out.extend_from_slice(b"the attacker applies ")?;
    out.extend_from_slice(word)
}

/// Puts what a run does where a source's clause is used; of one that does nothing, whose clause it is.
fn put_action(
    out: &mut Vec<u8>,
    setting: Setting<'_>,
    action: &Action,
    owner: &[u8],
) -> Result<(), AllocError> {
    match action {
        Action::Idle => out.extend_from_slice(owner),
        Action::Builds(number) => {
            put_applied(out, declared_word(&setting.protocol.ctors, *number))
        }
        Action::Reduces(number, rule) => {
            put_applied(out, destructor_word(setting, *number))?;
            put_numbered(out, b" by rule ", *rule as usize, b"")
        }
        Action::Reaches(way) => put_point(out, setting, way.point),
    }
}

/// Whose the given clause of that number is where its source does nothing: the last is the query's.
fn idle_owner(sources: &Sources, number: usize) -> &'static [u8] {
    if number == sources.items.len() {
        b"the query"
    } else {
        b"the attacker"
    }
}

/// Puts what a run does where the given clause of that number is used.
pub(crate) fn put_use(
    out: &mut Vec<u8>,
    setting: Setting<'_>,
    sources: &Sources,
    number: usize,
) -> Result<(), AllocError> {
    match source_of(sources, number) {
        None => Ok(()),
        Some(source) => put_action(out, setting, source.action(), idle_owner(sources, number)),
    }
}

/// Puts where an entry comes from.
fn put_origin(out: &mut Vec<u8>, telling: Telling<'_>, origin: Origin) -> Result<(), AllocError> {
    match origin {
        Origin::Given(number) => put_use(out, telling.setting, telling.sources, number),
        Origin::Resolvent {
            solved,
            unsolved,
            ..
        } => put_parents(out, solved, unsolved),
    }
}

/// Puts the line of the clause of an entry, and of a long one what it begins with.
fn put_clause_of(out: &mut Vec<u8>, telling: Telling<'_>, number: usize) -> Result<(), AllocError> {
    let log = telling.log;
    match log.items.get(number.wrapping_sub(1)) {
        None => out.extend_from_slice(b"\n"),
        Some(entry) => put_start(out, telling.setting.protocol, &entry.clause),
    }
}

/// Puts what is told of an entry.
fn put_part(out: &mut Vec<u8>, telling: Telling<'_>, line: Line) -> Result<(), AllocError> {
    match line.part {
        Part::Before => out.extend_from_slice(b"as above\n"),
        Part::Told(origin) => {
            put_origin(out, telling, origin)?;
            out.extend_from_slice(b":  ")?;
            put_clause_of(out, telling, line.entry)
        }
    }
}

/// The column in which a line of that level begins.
fn column_of(level: usize) -> usize {
    level
        .min(MOST_LEVELS)
        .saturating_mul(2)
        .saturating_add(NUMBER_WIDTH)
}

/// Puts the line of an entry, at its level.
fn put_line(
    out: &mut Vec<u8>,
    telling: Telling<'_>,
    line: Line,
    level: usize,
) -> Result<(), AllocError> {
    put_column(out, b"", line.entry, column_of(level))?;
    put_part(out, telling, line)
}

/// Adds the levels of the lines that are due behind one of that level, the next one last.
fn add_levels(levels: &mut Vec<usize>, level: usize, part: Part) -> Result<(), AllocError> {
    match part {
        Part::Told(Origin::Resolvent { .. }) => {
            let below = level.saturating_add(1);
            levels.extend_from_slice(&[below, below])
        }
        _ => Ok(()),
    }
}

/// Puts the lines of a derivation, with the levels of those that are due, the next one last; none for the first.
fn put_lines(
    out: &mut Vec<u8>,
    telling: Telling<'_>,
    lines: &[Line],
    levels: &mut Vec<usize>,
) -> Result<(), AllocError> {
    for line in lines {
        let level = levels.pop().unwrap_or(0);
        put_line(out, telling, *line, level)?;
        add_levels(levels, level, line.part)?;
    }
    Ok(())
}

/// Puts how many lines are shown and how many entries are left, where some are.
fn put_left(out: &mut Vec<u8>, told: &Derivation) -> Result<(), AllocError> {
    if told.rest.is_empty() {
        return Ok(());
    }
    put_numbered(
        out,
        b".. only ",
        told.lines.len(),
        b" lines are shown, and ",
    )?;
    put_numbered(out, b"", told.rest.len(), b" entries are left\n")
}

/// Puts a derivation, a line for each entry of it: below a resolvent stand the two entries that it is of, one level further in.
pub fn put_derivation(
    out: &mut Vec<u8>,
    setting: Setting<'_>,
    sources: &Sources,
    log: &PlainLog,
    told: &Derivation,
) -> Result<(), AllocError> {
    let telling = Telling {
        setting,
        sources,
        log,
    };
    let mut levels = Vec::new(setting.alloc);
    put_lines(out, telling, &told.lines, &mut levels)?;
    put_left(out, told)
}
