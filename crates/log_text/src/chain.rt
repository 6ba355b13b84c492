//! The largest entries, and the chain of resolvents that leads to one.

use crate::entries::entry_at;
use crate::told::QueryLog;
use clause_form::{PlainClause, PlainFact, PlainFacts, Tree, Trees};
use log_entries::Origin;
use std::alloc::AllocError;

/// How many symbols a term has, or the greatest number of the type where there are more.
#[cycle(symbols)]
fn symbols(tree: &Tree) -> usize {
    match tree {
        Tree::Var(_) => 1,
        Tree::App(_, arguments) => all_symbols(arguments).saturating_add(1),
    }
}

/// How many symbols terms have.
#[cycle(symbols)]
fn all_symbols(trees: &Trees) -> usize {
    let mut count = 0usize;
    for tree in &trees.items {
        count = count.saturating_add(symbols(tree));
    }
    count
}

/// How many symbols a fact has, its own word counted.
fn fact_symbols(fact: &PlainFact) -> usize {
    let terms = match fact {
        PlainFact::Att(_, term) => symbols(term),
        PlainFact::Mess(_, channel, message) => symbols(channel).saturating_add(symbols(message)),
        PlainFact::Tab(_, terms)
        | PlainFact::Ev(_, terms)
        | PlainFact::Mev(_, terms)
        | PlainFact::Bad(terms) => all_symbols(terms),
    };
    terms.saturating_add(1)
}

/// How many symbols facts have.
fn facts_symbols(facts: &PlainFacts) -> usize {
    let mut count = 0usize;
    for fact in &facts.items {
        count = count.saturating_add(fact_symbols(fact));
    }
    count
}

/// How many symbols a clause has, its constraints left out.
fn clause_symbols(clause: &PlainClause) -> usize {
    facts_symbols(&clause.hyps).saturating_add(fact_symbols(&clause.concl))
}

/// How many symbols the clause of the entry of that number has; what is due has the number behind the last.
pub(crate) fn size_at(log: &QueryLog, number: usize) -> usize {
    match entry_at(log, number) {
        None => 0,
        Some(entry) => clause_symbols(&entry.clause),
    }
}

/// The entry from which another was made: of the two that were resolved the later, which came about as this one did where
/// clauses grow without end.
fn parent(log: &QueryLog, number: usize) -> Option<usize> {
    match entry_at(log, number)?.origin {
        Origin::Given(_) => None,
        Origin::Resolvent {
            solved,
            unsolved,
            ..
        } => Some(solved.max(unsolved)),
    }
}

/// Adds the numbers from the entry back to a given clause.
pub(crate) fn add_chain(
    found: &mut Vec<usize>,
    log: &QueryLog,
    number: usize,
) -> Result<(), AllocError> {
    found.push(number)?;
    let mut next = number;
    for _ in &log.entries.items {
        match parent(log, next) {
            None => return Ok(()),
            Some(above) => next = above,
        }
        found.push(next)?;
    }
    Ok(())
}

/// The number of the largest entry that is none of these, if there is one.
fn largest_besides(log: &QueryLog, taken: &[usize]) -> Option<usize> {
    let mut best = None;
    let mut most = 0;
    for number in 1..log.entries.items.len().saturating_add(2) {
        let size = size_at(log, number);
        if size > most && !taken.contains(&number) {
            best = Some(number);
            most = size;
        }
    }
    best
}

/// Adds the numbers of the largest entries, the largest first, so many at most.
pub(crate) fn add_largest(
    found: &mut Vec<usize>,
    log: &QueryLog,
    most: usize,
) -> Result<(), AllocError> {
    for _ in 0..most {
        match largest_besides(log, found.as_slice()) {
            None => return Ok(()),
            Some(number) => found.push(number)?,
        }
    }
    Ok(())
}
