//! What is derived of the goal of a query in a log that isn't closed.

use crate::chain::size_at;
use crate::entries::{Shown, entry_at};
use crate::lines::{put_all_sized, put_sized};
use crate::told::QueryLog;
use clause_form::PlainFact;
use clause_sources::Sources;
use log_entries::{Origin, PlainEntry};
use pi_tree::Protocol;
use std::alloc::{AllocError, Global};

/// How many clauses are shown.
const MOST_GOALS: usize = 5;

/// Whether an entry is live, was derived, and concludes `bad`.
fn is_goal(entry: &PlainEntry) -> bool {
    let is_bad = matches!(&entry.clause.concl, PlainFact::Bad(_));
    let is_derived = matches!(entry.origin, Origin::Resolvent { .. });
    is_bad && is_derived && entry.by.is_none()
}

/// Whether the entry of that number is such a one, and none of these.
fn is_further_goal(log: &QueryLog, number: usize, taken: &[usize]) -> bool {
    match entry_at(log, number) {
        None => false,
        Some(entry) => is_goal(entry) && !taken.contains(&number),
    }
}

/// The number of the smallest such entry that is none of these, if there is one.
fn smallest_besides(log: &QueryLog, taken: &[usize]) -> Option<usize> {
    let mut best = None;
    let mut least = usize::MAX;
    for number in 1..log.entries.items.len().saturating_add(2) {
        let size = size_at(log, number);
        if size < least && is_further_goal(log, number, taken) {
            best = Some(number);
            least = size;
        }
    }
    best
}

/// Adds the numbers of such entries, the smallest first, so many at most.
fn add_goals(found: &mut Vec<usize>, log: &QueryLog, most: usize) -> Result<(), AllocError> {
    for _ in 0..most {
        match smallest_besides(log, found.as_slice()) {
            None => return Ok(()),
            Some(number) => found.push(number)?,
        }
    }
    Ok(())
}

/// The number of the entry that is the query's clause, where the log has it.
fn query_entry(log: &QueryLog) -> Option<usize> {
    for (index, entry) in log.entries.items.iter().enumerate() {
        match entry.origin {
            Origin::Given(number) if number == log.given => return Some(index + 1),
            _ => {}
        }
    }
    None
}

/// Puts that nothing of the goal is derived, and the query's clause where the log has it.
fn put_none(out: &mut Vec<u8>, shown: Shown<'_>) -> Result<(), AllocError> {
    out.extend_from_slice(b"nothing of the goal is derived so far\n")?;
    match query_entry(shown.log) {
        None => Ok(()),
        Some(number) => {
            out.extend_from_slice(b"the query's clause, which waits for what is before its =>\n")?;
            put_sized(out, shown, number)
        }
    }
}

/// Puts the live clauses of the log that were derived and conclude `bad`, the smallest first, five at most; where there is none, the
/// query's.
pub fn put_goals(
    out: &mut Vec<u8>,
    alloc: Global,
    protocol: &Protocol,
    sources: &Sources,
    log: &QueryLog,
) -> Result<(), AllocError> {
    let shown = Shown {
        protocol,
        sources,
        log,
    };
    let mut found = Vec::new(alloc);
    add_goals(&mut found, log, MOST_GOALS)?;
    if found.is_empty() {
        return put_none(out, shown);
    }
    out.extend_from_slice(b"derived of the goal so far, the smallest first\n")?;
    put_all_sized(out, shown, &found)
}
