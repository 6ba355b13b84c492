//! Terms as trees, and what facts and clauses have of them.

use clause_form::{PlainClause, PlainFact, Tree, Trees, is_data_symbol};
use std::alloc::{AllocError, Global};
use term_tree::Sym;

/// Whether two terms are the same.
pub(crate) fn is_same(left: &Tree, right: &Tree) -> bool {
    match (left, right) {
        (Tree::Var(first), Tree::Var(second)) => first == second,
        (Tree::App(first, lefts), Tree::App(second, rights)) => {
            if !first.is_same(*second) || lefts.items.len() != rights.items.len() {
                return false;
            }
            'each: for (place, one) in lefts.items.iter().enumerate() {
                if !is_same(one, &rights.items[place]) {
                    return false;
                }
            }
            true
        }
        (Tree::Var(_), Tree::App(..)) | (Tree::App(..), Tree::Var(_)) => false,
    }
}

/// Whether a term stands in another one.
pub(crate) fn stands_in(tree: &Tree, whole: &Tree) -> bool {
    if is_same(tree, whole) {
        return true;
    }
    match whole {
        Tree::Var(_) => false,
        Tree::App(_, arguments) => {
            'each: for argument in &arguments.items {
                if stands_in(tree, argument) {
                    return true;
                }
            }
            false
        }
    }
}

/// Whether the symbol is that of names.
pub(crate) fn is_name(symbol: Sym) -> bool {
    match symbol {
        Sym::Point(_) | Sym::Attacker => true,
        Sym::Ctor(_) | Sym::Data(_) | Sym::Tuple(_) | Sym::Free(_) => false,
    }
}

/// Adds a term that isn't there.
pub(crate) fn add_new<'a>(tree: &'a Tree, found: &mut Vec<&'a Tree>) -> Result<(), AllocError> {
    for one in &*found {
        if is_same(one, tree) {
            return Ok(());
        }
    }
    found.push(tree)?;
    Ok(())
}

/// Adds the terms of a list.
fn add_terms<'a>(terms: &'a Trees, found: &mut Vec<&'a Tree>) -> Result<(), AllocError> {
    for term in &terms.items {
        found.push(term)?;
    }
    Ok(())
}

/// Adds the terms of a fact.
pub(crate) fn add_fact_terms<'a>(
    fact: &'a PlainFact,
    found: &mut Vec<&'a Tree>,
) -> Result<(), AllocError> {
    match fact {
        PlainFact::Att(_, term) => {
            found.push(term)?;
            Ok(())
        }
        PlainFact::Mess(_, channel, message) => {
            found.push(channel)?;
            found.push(message)?;
            Ok(())
        }
        PlainFact::Tab(_, terms)
        | PlainFact::Ev(_, terms)
        | PlainFact::Mev(_, terms)
        | PlainFact::Bad(terms) => add_terms(terms, found),
    }
}

/// The terms of a clause's facts, the conclusion's first.
pub(crate) fn terms_of<'a>(
    alloc: Global,
    clause: &'a PlainClause,
) -> Result<Vec<&'a Tree>, AllocError> {
    let mut found = Vec::new(alloc);
    add_fact_terms(&clause.concl, &mut found)?;
    'each: for hyp in &clause.hyps.items {
        add_fact_terms(hyp, &mut found)?;
    }
    Ok(found)
}

/// Adds the data parts of a term.
pub(crate) fn add_parts<'a>(tree: &'a Tree, parts: &mut Vec<&'a Tree>) -> Result<(), AllocError> {
    match tree {
        Tree::Var(_) => {
            parts.push(tree)?;
            Ok(())
        }
        Tree::App(symbol, arguments) => {
            if !is_data_symbol(*symbol) {
                parts.push(tree)?;
                return Ok(());
            }
            'each: for argument in &arguments.items {
                add_parts(argument, parts)?;
            }
            Ok(())
        }
    }
}

/// Adds the variables of a term, each as often as it occurs.
#[cycle(variables)]
pub(crate) fn add_variables(tree: &Tree, numbers: &mut Vec<u32>) -> Result<(), AllocError> {
    match tree {
        Tree::Var(number) => {
            numbers.push(*number)?;
            Ok(())
        }
        Tree::App(_, arguments) => add_all_variables(arguments, numbers),
    }
}

/// Adds the variables of terms, each as often as it occurs.
#[cycle(variables)]
pub(crate) fn add_all_variables(terms: &Trees, numbers: &mut Vec<u32>) -> Result<(), AllocError> {
    'each: for term in &terms.items {
        add_variables(term, numbers)?;
    }
    Ok(())
}

/// The variables of terms, each as often as it occurs.
pub(crate) fn variables_among(alloc: Global, terms: &[&Tree]) -> Result<Vec<u32>, AllocError> {
    let mut numbers = Vec::new(alloc);
    'each: for term in terms {
        add_variables(term, &mut numbers)?;
    }
    Ok(numbers)
}

/// A number above those of the variables of a clause's facts.
pub(crate) fn first_new(alloc: Global, clause: &PlainClause) -> Result<u32, AllocError> {
    let terms = terms_of(alloc, clause)?;
    let numbers = variables_among(alloc, &terms)?;
    let mut first = 0u32;
    'each: for number in numbers {
        first = first.max(number.saturating_add(1));
    }
    Ok(first)
}
