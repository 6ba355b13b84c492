//! The text of a log.

use crate::chain::{add_chain, add_largest, size_at};
use crate::columns::{NUMBER_WIDTH, put_column, put_numbered};
use crate::entries::{Shown, entry_at, put_origin_column, put_start};
use crate::told::{LogEnd, QueryLog, Told};
use cert_form::put_clause;
use clause_sources::Sources;
use log_entries::PlainEntry;
use pi_tree::Protocol;
use std::alloc::{AllocError, Global};

/// How many of the largest clauses are shown.
const MOST_LARGEST: usize = 5;

/// How many links of a chain are shown.
const MOST_LINKS: usize = 40;

/// The width of the column that tells what became of an entry.
const STATE_WIDTH: usize = 9;

/// The width of the column of a size.
const SIZE_WIDTH: usize = 12;

/// Puts the column that tells whether an entry is live, or which later one subsumes it.
fn put_state(out: &mut Vec<u8>, by: Option<usize>) -> Result<(), AllocError> {
    match by {
        None => out.extend_from_slice(b"live     "),
        Some(by) => put_column(out, b"by ", by, STATE_WIDTH),
    }
}

/// Puts the line of an entry: its number, what became of it, where it comes from, its clause.
fn put_entry(
    out: &mut Vec<u8>,
    shown: Shown<'_>,
    number: usize,
    entry: &PlainEntry,
) -> Result<(), AllocError> {
    put_column(out, b"", number, NUMBER_WIDTH)?;
    put_state(out, entry.by)?;
    put_origin_column(out, shown, entry.origin)?;
    put_clause(out, shown.protocol, &entry.clause)?;
    out.extend_from_slice(b"\n")
}

/// Puts the lines of the entries.
fn put_entries(out: &mut Vec<u8>, shown: Shown<'_>) -> Result<(), AllocError> {
    let log = shown.log;
    for (index, entry) in log.entries.items.iter().enumerate() {
        put_entry(out, shown, index + 1, entry)?;
    }
    Ok(())
}

/// How many entries no later one subsumes.
fn count_live(log: &QueryLog) -> usize {
    let mut count = 0usize;
    for entry in &log.entries.items {
        if entry.by.is_none() {
            count = count.saturating_add(1);
        }
    }
    count
}

/// Puts the column of an entry's number, or the word of what is due.
fn put_name(out: &mut Vec<u8>, log: &QueryLog, number: usize) -> Result<(), AllocError> {
    if number > log.entries.items.len() {
        out.extend_from_slice(b"due   ")
    } else {
        put_column(out, b"", number, NUMBER_WIDTH)
    }
}

/// Puts the line of an entry with its size and what its clause begins with.
pub(crate) fn put_sized(
    out: &mut Vec<u8>,
    shown: Shown<'_>,
    number: usize,
) -> Result<(), AllocError> {
    let log = shown.log;
    let Some(entry) = entry_at(log, number) else {
        return Ok(());
    };
    put_name(out, log, number)?;
    put_column(out, b"size ", size_at(log, number), SIZE_WIDTH)?;
    put_origin_column(out, shown, entry.origin)?;
    put_start(out, shown.protocol, &entry.clause)
}

/// Puts the lines of these entries with their sizes.
pub(crate) fn put_all_sized(
    out: &mut Vec<u8>,
    shown: Shown<'_>,
    numbers: &[usize],
) -> Result<(), AllocError> {
    for number in numbers {
        put_sized(out, shown, *number)?;
    }
    Ok(())
}

/// Puts these as the largest clauses.
fn put_largest(out: &mut Vec<u8>, shown: Shown<'_>, top: &[usize]) -> Result<(), AllocError> {
    out.extend_from_slice(b"\nthe largest clauses\n")?;
    put_all_sized(out, shown, top)
}

/// Puts how many entries a chain has, and how many of them are shown where it is long.
fn put_length(out: &mut Vec<u8>, length: usize) -> Result<(), AllocError> {
    put_numbered(out, b"\nhow the largest came about: ", length, b" entries")?;
    if length <= MOST_LINKS {
        return out.extend_from_slice(b"\n");
    }
    put_numbered(out, b", the last ", MOST_LINKS, b" of them\n")
}

/// Puts the chain that leads from a given clause to the entry of that number.
fn put_chain(
    out: &mut Vec<u8>,
    alloc: Global,
    shown: Shown<'_>,
    number: usize,
) -> Result<(), AllocError> {
    let mut chain = Vec::new(alloc);
    add_chain(&mut chain, shown.log, number)?;
    put_length(out, chain.len())?;
    chain.truncate(MOST_LINKS);
    chain.reverse();
    put_all_sized(out, shown, &chain)
}

/// Puts the largest clauses, and the chain that leads to the first of them.
fn put_growth(out: &mut Vec<u8>, alloc: Global, shown: Shown<'_>) -> Result<(), AllocError> {
    let mut top = Vec::new(alloc);
    add_largest(&mut top, shown.log, MOST_LARGEST)?;
    put_largest(out, shown, &top)?;
    match top.first() {
        None => Ok(()),
        Some(first) => put_chain(out, alloc, shown, *first),
    }
}

/// Puts how a log ends.
fn put_end(out: &mut Vec<u8>, end: &LogEnd) -> Result<(), AllocError> {
    match end {
        LogEnd::Closed => out.extend_from_slice(b"closed\n"),
        LogEnd::Spent(_) => out.extend_from_slice(b"the budget is spent, and one more is due\n"),
        LogEnd::Large(solved, unsolved) => {
            put_numbered(out, b"entry ", *solved, b" into ")?;
            put_numbered(out, b"", *unsolved, b" is too large\n")
        }
    }
}

/// Puts how many entries a log has, how many of them are live, and how it ends.
fn put_counts(out: &mut Vec<u8>, log: &QueryLog) -> Result<(), AllocError> {
    put_numbered(out, b"", log.entries.items.len(), b" entries, ")?;
    put_numbered(out, b"", count_live(log), b" live, ")?;
    put_end(out, &log.end)
}

/// Puts a log: how it ends, its entries, and where it isn't closed what grew.
fn put_logged(out: &mut Vec<u8>, alloc: Global, shown: Shown<'_>) -> Result<(), AllocError> {
    let log = shown.log;
    put_counts(out, log)?;
    put_entries(out, shown)?;
    match &log.end {
        LogEnd::Closed => Ok(()),
        _ => put_growth(out, alloc, shown),
    }
}

/// Puts what is told of the log of a query, each entry on a line of its own. The sources are those of the given clauses, in their
/// order; where there is no log they aren't read.
pub fn put_log(
    out: &mut Vec<u8>,
    alloc: Global,
    protocol: &Protocol,
    sources: &Sources,
    told: &Told,
) -> Result<(), AllocError> {
    match told {
        Told::TooLarge(point) => put_numbered(out, b"size point ", *point as usize, b"\n"),
        Told::Logged(log) => {
            let shown = Shown {
                protocol,
                sources,
                log,
            };
            put_logged(out, alloc, shown)
        }
    }
}
