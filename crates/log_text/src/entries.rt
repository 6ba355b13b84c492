//! Entries of a log: where they come from, and their clauses.

use crate::columns::{put_blanks, put_numbered};
use crate::told::{LogEnd, QueryLog};
use cert_form::put_clause;
use clause_form::PlainClause;
use clause_sources::{Action, Source, Sources};
use log_entries::{Origin, PlainEntry};
use pi_tree::Protocol;
use std::alloc::AllocError;

/// How many bytes of a clause or a term are shown where it isn't shown whole.
pub(crate) const MOST_SHOWN: usize = 300;

/// The width of the column that tells where an entry comes from.
const WIDTH: usize = 19;

/// A log, the sources of its given clauses, and the protocol in whose words it is shown.
#[derive(Clone, Copy)]
pub(crate) struct Shown<'a> {
    pub protocol: &'a Protocol,
    pub sources: &'a Sources,
    pub log: &'a QueryLog,
}

/// The entry of that number, from 1; what is due has the number behind the last.
pub(crate) fn entry_at(log: &QueryLog, number: usize) -> Option<&PlainEntry> {
    match log.entries.items.get(number.wrapping_sub(1)) {
        Some(entry) => Some(entry),
        None => match &log.end {
            LogEnd::Spent(due) => Some(due),
            _ => None,
        },
    }
}

/// The source of the given clause of that number, from 1.
pub(crate) fn source_of(sources: &Sources, number: usize) -> Option<&Source> {
    sources.items.get(number.wrapping_sub(1))
}

/// The point that the given clause of that number comes from, if it is one of the process.
fn point_of(sources: &Sources, number: usize) -> Option<u32> {
    match source_of(sources, number)?.action() {
        Action::Reaches(way) => Some(way.point),
        _ => None,
    }
}

/// Whose the given clause of that number is.
fn owner(log: &QueryLog, number: usize) -> &'static [u8] {
    if number <= log.attackers {
        b"attacker"
    } else if number < log.given {
        b"process"
    } else {
        b"query"
    }
}

/// Puts the number of a given clause, and the point that it comes from, or else whose it is.
fn put_given(out: &mut Vec<u8>, shown: Shown<'_>, number: usize) -> Result<(), AllocError> {
    put_numbered(out, b"given ", number, b" ")?;
    match point_of(shown.sources, number) {
        None => out.extend_from_slice(owner(shown.log, number)),
        Some(point) => put_numbered(out, b"point ", point as usize, b""),
    }
}

/// Puts the numbers of the solved and the unsolved entry that a resolvent is of.
pub(crate) fn put_parents(
    out: &mut Vec<u8>,
    solved: usize,
    unsolved: usize,
) -> Result<(), AllocError> {
    put_numbered(out, b"", solved, b" into ")?;
    put_numbered(out, b"", unsolved, b"")
}

/// Puts where an entry comes from: a given clause, or a resolvent of a solved entry with an unsolved one.
fn put_origin(out: &mut Vec<u8>, shown: Shown<'_>, origin: Origin) -> Result<(), AllocError> {
    match origin {
        Origin::Given(number) => put_given(out, shown, number),
        Origin::Resolvent {
            k,
            solved,
            unsolved,
        } => {
            put_parents(out, solved, unsolved)?;
            if k > 1 {
                put_numbered(out, b" #", k, b"")
            } else {
                Ok(())
            }
        }
    }
}

/// Puts the column that tells where an entry comes from.
pub(crate) fn put_origin_column(
    out: &mut Vec<u8>,
    shown: Shown<'_>,
    origin: Origin,
) -> Result<(), AllocError> {
    let begin = out.len();
    put_origin(out, shown, origin)?;
    put_blanks(out, begin, WIDTH)
}

/// Puts the line of a clause, and of a long one what it begins with.
pub(crate) fn put_start(
    out: &mut Vec<u8>,
    protocol: &Protocol,
    clause: &PlainClause,
) -> Result<(), AllocError> {
    let most = out.len().saturating_add(MOST_SHOWN);
    put_clause(out, protocol, clause)?;
    if out.len() <= most {
        return out.extend_from_slice(b"\n");
    }
    out.truncate(most);
    out.extend_from_slice(b" ..\n")
}
