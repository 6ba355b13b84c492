//! What grows in clauses.

use cert_form::PlainClauses;
use clause_form::{PlainClause, PlainFact, Tree, Trees};
use std::alloc::{AllocError, Global};
use term_tree::Sym;

/// The symbol that stands above itself most often, and how often, itself counted.
#[derive(Clone, Copy)]
pub struct Growth {
    pub symbol: Sym,
    pub times: usize,
}

/// How often a symbol is among symbols.
fn times_among(above: &[Sym], symbol: Sym) -> usize {
    above.iter().filter(|one| one.is_same(symbol)).count()
}

/// The greater one.
fn greater(most: Option<Growth>, one: Growth) -> Option<Growth> {
    match most {
        Some(found) if found.times >= one.times => Some(found),
        _ => Some(one),
    }
}

/// What grows in a term that stands below these symbols, or grew elsewhere.
fn grown_term(
    tree: &Tree,
    above: &mut Vec<Sym>,
    most: Option<Growth>,
) -> Result<Option<Growth>, AllocError> {
    match tree {
        Tree::Var(_) => Ok(most),
        Tree::App(symbol, arguments) => {
            let symbol = *symbol;
            let times = times_among(above, symbol).saturating_add(1);
            let mut found = greater(most, Growth { symbol, times });
            above.push(symbol)?;
            'each: for argument in &arguments.items {
                found = grown_term(argument, above, found)?;
            }
            let _ = above.pop();
            Ok(found)
        }
    }
}

/// What grows in a whole term, or grew elsewhere.
fn grown_whole(
    alloc: Global,
    tree: &Tree,
    most: Option<Growth>,
) -> Result<Option<Growth>, AllocError> {
    let mut above = Vec::new(alloc);
    grown_term(tree, &mut above, most)
}

/// What grows in terms, or grew elsewhere.
fn grown_terms(
    alloc: Global,
    terms: &Trees,
    most: Option<Growth>,
) -> Result<Option<Growth>, AllocError> {
    let mut found = most;
    'each: for term in &terms.items {
        found = grown_whole(alloc, term, found)?;
    }
    Ok(found)
}

/// What grows in a fact, or grew elsewhere.
fn grown_fact(
    alloc: Global,
    fact: &PlainFact,
    most: Option<Growth>,
) -> Result<Option<Growth>, AllocError> {
    match fact {
        PlainFact::Att(_, term) => grown_whole(alloc, term, most),
        PlainFact::Mess(_, channel, message) => {
            let found = grown_whole(alloc, channel, most)?;
            grown_whole(alloc, message, found)
        }
        PlainFact::Tab(_, terms)
        | PlainFact::Ev(_, terms)
        | PlainFact::Mev(_, terms)
        | PlainFact::Bad(terms) => grown_terms(alloc, terms, most),
    }
}

/// What grows in a clause, or grew elsewhere.
fn grown_clause(
    alloc: Global,
    clause: &PlainClause,
    most: Option<Growth>,
) -> Result<Option<Growth>, AllocError> {
    let mut found = grown_fact(alloc, &clause.concl, most)?;
    'each: for hyp in &clause.hyps.items {
        found = grown_fact(alloc, hyp, found)?;
    }
    Ok(found)
}

/// What grows in clauses.
pub(crate) fn grown(alloc: Global, clauses: &PlainClauses) -> Result<Option<Growth>, AllocError> {
    let mut found = None;
    'each: for clause in &clauses.items {
        found = grown_clause(alloc, clause, found)?;
    }
    Ok(found)
}
