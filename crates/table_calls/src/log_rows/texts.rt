//! Writes entries of logs as tables spell them.

use clause_saturate::{Origin, PlainEntry, PlainLog};
use std::alloc::{AllocError, Global};
use table_texts::writing::clause_text;

/// Where an entry comes from.
fn origin_text(alloc: Global, origin: Origin) -> Result<String, AllocError> {
    match origin {
        Origin::Given(k) => format!(in alloc; "given {k}"),
        Origin::Resolvent {
            k,
            solved,
            unsolved,
        } => format!(in alloc; "resolvent {k} of {solved} with {unsolved}"),
    }
}

/// Adds where an entry comes from, and its clause.
fn add_entry(alloc: Global, entry: &PlainEntry, text: &mut String) -> Result<(), AllocError> {
    text.push_str(origin_text(alloc, entry.origin)?.as_str())?;
    text.push_str(" ; ")?;
    text.push_str(clause_text(alloc, &entry.clause)?.as_str())?;
    Ok(())
}

/// Adds which entry subsumes another one first, if one does.
fn add_by(alloc: Global, by: Option<usize>, text: &mut String) -> Result<(), AllocError> {
    match by {
        Some(number) => text.push_str(format!(in alloc; " ; by {number}")?.as_str())?,
        None => {}
    }
    Ok(())
}

/// Adds the line of an entry.
fn add_line(alloc: Global, entry: &PlainEntry, text: &mut String) -> Result<(), AllocError> {
    add_entry(alloc, entry, text)?;
    add_by(alloc, entry.by, text)?;
    text.push('\n')?;
    Ok(())
}

/// Adds the lines of a log's entries.
pub fn add_entries(alloc: Global, log: &PlainLog, text: &mut String) -> Result<(), AllocError> {
    for entry in &log.items {
        add_line(alloc, entry, text)?;
    }
    Ok(())
}

/// Adds the line of an entry that is due.
pub fn add_due(alloc: Global, due: &PlainEntry, text: &mut String) -> Result<(), AllocError> {
    text.push_str("due ")?;
    add_line(alloc, due, text)
}

/// Adds the line of a pair that is too large.
pub fn add_large(
    alloc: Global,
    solved: usize,
    unsolved: usize,
    text: &mut String,
) -> Result<(), AllocError> {
    text.push_str(format!(in alloc; "large {solved} with {unsolved}\n")?.as_str())?;
    Ok(())
}
