//! Terms in the arguments of names.

use crate::changing::{by_variables, changed_in_names, with_room};
use crate::trees::{add_new, first_new, is_name, terms_of};
use clause_form::{PlainClause, Tree};
use std::alloc::{AllocError, Global};

/// Adds the greatest terms within an argument of a name, or a part of one, that are names, or stand below so many symbols. A
/// symbol without arguments is left.
fn add_within<'a>(tree: &'a Tree, depth: u32, found: &mut Vec<&'a Tree>) -> Result<(), AllocError> {
    match tree {
        Tree::Var(_) => Ok(()),
        Tree::App(symbol, arguments) => {
            if arguments.items.is_empty() {
                return Ok(());
            }
            if depth == 0 || is_name(*symbol) {
                return add_new(tree, found);
            }
            'each: for argument in &arguments.items {
                add_within(argument, depth - 1, found)?;
            }
            Ok(())
        }
    }
}

/// Adds the same of all names within a term.
fn add_in_names<'a>(
    tree: &'a Tree,
    depth: u32,
    found: &mut Vec<&'a Tree>,
) -> Result<(), AllocError> {
    match tree {
        Tree::Var(_) => Ok(()),
        Tree::App(symbol, arguments) => {
            let within = is_name(*symbol);
            'each: for argument in &arguments.items {
                if within {
                    add_within(argument, depth, found)?;
                } else {
                    add_in_names(argument, depth, found)?;
                }
            }
            Ok(())
        }
    }
}

/// The greatest terms of a clause within arguments of names that are names, or stand below so many symbols.
fn terms_in_names<'a>(
    alloc: Global,
    depth: u32,
    clause: &'a PlainClause,
) -> Result<Vec<&'a Tree>, AllocError> {
    let terms = terms_of(alloc, clause)?;
    let mut found = Vec::new(alloc);
    'each: for term in &terms {
        add_in_names(*term, depth, &mut found)?;
    }
    Ok(found)
}

/// The clause in which these terms are new variables where they stand in arguments of names.
fn renamed(
    alloc: Global,
    terms: &[&Tree],
    clause: &PlainClause,
) -> Result<PlainClause, AllocError> {
    let from = first_new(alloc, clause)?;
    let table = by_variables(alloc, terms, from)?;
    let roomy = with_room(alloc, clause)?;
    changed_in_names(alloc, &table, &roomy)
}

/// The clause in which names, and what stands below so many symbols, are variables where they stand in arguments of names; none
/// where there is nothing of this kind.
pub(crate) fn named_clause(
    alloc: Global,
    depth: u32,
    clause: &PlainClause,
) -> Result<Option<PlainClause>, AllocError> {
    let found = terms_in_names(alloc, depth, clause)?;
    if found.is_empty() {
        return Ok(None);
    }
    let made = renamed(alloc, &found, clause)?;
    Ok(Some(made))
}
