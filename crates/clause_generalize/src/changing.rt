//! Terms, facts and clauses in which something is replaced.

use crate::trees::{is_name, is_same};
use clause_form::{PlainClause, PlainDiff, PlainDiffs, PlainFact, PlainFacts, Tree, Trees};
use std::alloc::{AllocError, Global};

/// A term, and the variable that comes in its place.
#[derive(Clone, Copy)]
pub(crate) struct Replacement<'a> {
    pub from: &'a Tree,
    pub to: u32,
}

/// What is replaced. Of terms within one another the outer one is.
#[derive(Clone, Copy)]
pub(crate) enum Change<'a> {
    /// Nothing.
    Nothing,
    /// These terms, wherever they stand.
    Everywhere(&'a [Replacement<'a>]),
    /// These terms, where they stand in an argument of a name.
    InNames(&'a [Replacement<'a>]),
    /// Variables from the first number on, each by the one so much greater.
    Moved { first: u32, by: u32 },
}

/// The variable that comes in the place of a term.
fn replacement_of(table: &[Replacement<'_>], tree: &Tree) -> Option<u32> {
    for one in table {
        if is_same(one.from, tree) {
            return Some(one.to);
        }
    }
    None
}

/// The variable that comes in the place of a term, which stands in an argument of a name or doesn't.
fn found(change: Change<'_>, is_inside: bool, tree: &Tree) -> Option<u32> {
    match change {
        Change::Nothing | Change::Moved { .. } => None,
        Change::Everywhere(table) => replacement_of(table, tree),
        Change::InNames(table) => {
            if is_inside {
                replacement_of(table, tree)
            } else {
                None
            }
        }
    }
}

/// What a variable becomes that isn't replaced by another term.
fn moved(change: Change<'_>, number: u32) -> u32 {
    match change {
        Change::Moved { first, by } => {
            if number < first {
                number
            } else {
                number.saturating_add(by)
            }
        }
        Change::Nothing | Change::Everywhere(_) | Change::InNames(_) => number,
    }
}

/// A term with what is replaced in it.
#[cycle(changed_terms)]
fn changed(
    alloc: Global,
    change: Change<'_>,
    is_inside: bool,
    tree: &Tree,
) -> Result<Tree, AllocError> {
    if let Some(number) = found(change, is_inside, tree) {
        return Ok(Tree::Var(number));
    }
    match tree {
        Tree::Var(number) => Ok(Tree::Var(moved(change, *number))),
        Tree::App(symbol, arguments) => {
            let within = is_inside || is_name(*symbol);
            let made = changed_each(alloc, change, within, arguments)?;
            Ok(Tree::App(*symbol, made))
        }
    }
}

/// Terms with what is replaced in them.
#[cycle(changed_terms)]
fn changed_each(
    alloc: Global,
    change: Change<'_>,
    is_inside: bool,
    terms: &Trees,
) -> Result<Trees, AllocError> {
    let mut items = Vec::with_capacity(alloc, terms.items.len())?;
    'each: for term in &terms.items {
        let made = changed(alloc, change, is_inside, term)?;
        items.push(made)?;
    }
    Ok(Trees { items })
}

/// The terms of a fact with what is replaced in them.
fn changed_terms(alloc: Global, change: Change<'_>, terms: &Trees) -> Result<Trees, AllocError> {
    changed_each(alloc, change, false, terms)
}

/// A fact with what is replaced in it.
pub(crate) fn changed_fact(
    alloc: Global,
    change: Change<'_>,
    fact: &PlainFact,
) -> Result<PlainFact, AllocError> {
    match fact {
        PlainFact::Att(phase, term) => {
            let made = changed(alloc, change, false, term)?;
            Ok(PlainFact::Att(*phase, made))
        }
        PlainFact::Mess(phase, channel, message) => {
            let first = changed(alloc, change, false, channel)?;
            let second = changed(alloc, change, false, message)?;
            Ok(PlainFact::Mess(*phase, first, second))
        }
        PlainFact::Tab(table, terms) => {
            let made = changed_terms(alloc, change, terms)?;
            Ok(PlainFact::Tab(*table, made))
        }
        PlainFact::Ev(event, terms) => {
            let made = changed_terms(alloc, change, terms)?;
            Ok(PlainFact::Ev(*event, made))
        }
        PlainFact::Mev(event, terms) => {
            let made = changed_terms(alloc, change, terms)?;
            Ok(PlainFact::Mev(*event, made))
        }
        PlainFact::Bad(terms) => {
            let made = changed_terms(alloc, change, terms)?;
            Ok(PlainFact::Bad(made))
        }
    }
}

/// Facts with what is replaced in them.
fn changed_facts(
    alloc: Global,
    change: Change<'_>,
    facts: &PlainFacts,
) -> Result<PlainFacts, AllocError> {
    let mut items = Vec::with_capacity(alloc, facts.items.len())?;
    'each: for fact in &facts.items {
        let made = changed_fact(alloc, change, fact)?;
        items.push(made)?;
    }
    Ok(PlainFacts { items })
}

/// A constraint with what is replaced in it, and with this number of the first variable that it binds.
fn changed_diff(
    alloc: Global,
    change: Change<'_>,
    diff: &PlainDiff,
    first: u32,
) -> Result<PlainDiff, AllocError> {
    let left = changed_terms(alloc, change, &diff.left)?;
    let right = changed_terms(alloc, change, &diff.right)?;
    Ok(PlainDiff { first, left, right })
}

/// Constraints with what is replaced in them.
fn changed_diffs(
    alloc: Global,
    change: Change<'_>,
    diffs: &PlainDiffs,
) -> Result<PlainDiffs, AllocError> {
    let mut items = Vec::with_capacity(alloc, diffs.items.len())?;
    'each: for diff in &diffs.items {
        let made = changed_diff(alloc, change, diff, diff.first)?;
        items.push(made)?;
    }
    Ok(PlainDiffs { items })
}

/// The replacements but that of this term.
fn others_than<'a>(
    alloc: Global,
    table: &[Replacement<'a>],
    tree: &Tree,
) -> Result<Vec<Replacement<'a>>, AllocError> {
    let mut kept = Vec::with_capacity(alloc, table.len())?;
    'each: for one in table {
        if !is_same(one.from, tree) {
            kept.push(*one)?;
        }
    }
    Ok(kept)
}

/// A conclusion with terms replaced in it wherever they stand, but for the whole of what the attacker has.
fn changed_conclusion(
    alloc: Global,
    table: &[Replacement<'_>],
    fact: &PlainFact,
) -> Result<PlainFact, AllocError> {
    match fact {
        PlainFact::Att(_, term) => {
            let kept = others_than(alloc, table, term)?;
            changed_fact(alloc, Change::Everywhere(&kept), fact)
        }
        PlainFact::Mess(..)
        | PlainFact::Tab(..)
        | PlainFact::Ev(..)
        | PlainFact::Mev(..)
        | PlainFact::Bad(_) => changed_fact(alloc, Change::Everywhere(table), fact),
    }
}

/// A clause with terms replaced wherever they stand, but for the whole of what the attacker has by its conclusion.
pub(crate) fn changed_everywhere(
    alloc: Global,
    table: &[Replacement<'_>],
    clause: &PlainClause,
) -> Result<PlainClause, AllocError> {
    let change = Change::Everywhere(table);
    let hyps = changed_facts(alloc, change, &clause.hyps)?;
    let diffs = changed_diffs(alloc, change, &clause.diffs)?;
    let concl = changed_conclusion(alloc, table, &clause.concl)?;
    Ok(PlainClause { hyps, diffs, concl })
}

/// A clause with what is replaced in it.
fn changed_clause(
    alloc: Global,
    change: Change<'_>,
    clause: &PlainClause,
) -> Result<PlainClause, AllocError> {
    let hyps = changed_facts(alloc, change, &clause.hyps)?;
    let diffs = changed_diffs(alloc, change, &clause.diffs)?;
    let concl = changed_fact(alloc, change, &clause.concl)?;
    Ok(PlainClause { hyps, diffs, concl })
}

/// A clause with terms replaced in the arguments of its names.
pub(crate) fn changed_in_names(
    alloc: Global,
    table: &[Replacement<'_>],
    clause: &PlainClause,
) -> Result<PlainClause, AllocError> {
    changed_clause(alloc, Change::InNames(table), clause)
}

/// A copy of a clause.
pub(crate) fn copied(alloc: Global, clause: &PlainClause) -> Result<PlainClause, AllocError> {
    changed_clause(alloc, Change::Nothing, clause)
}

/// How far the variables that constraints bind are moved, so that there is room below them for new variables of the clause.
const ROOM: u32 = 1 << 20;

/// Constraints whose bound variables are moved on.
fn moved_diffs(alloc: Global, diffs: &PlainDiffs) -> Result<PlainDiffs, AllocError> {
    let mut items = Vec::with_capacity(alloc, diffs.items.len())?;
    'each: for diff in &diffs.items {
        let first = diff.first;
        let change = Change::Moved { first, by: ROOM };
        let made = changed_diff(alloc, change, diff, first.saturating_add(ROOM))?;
        items.push(made)?;
    }
    Ok(PlainDiffs { items })
}

/// A copy of a clause with room for new variables below those that its constraints bind.
pub(crate) fn with_room(alloc: Global, clause: &PlainClause) -> Result<PlainClause, AllocError> {
    let hyps = changed_facts(alloc, Change::Nothing, &clause.hyps)?;
    let diffs = moved_diffs(alloc, &clause.diffs)?;
    let concl = changed_fact(alloc, Change::Nothing, &clause.concl)?;
    Ok(PlainClause { hyps, diffs, concl })
}

/// Replacements of terms by new variables, from this number on.
pub(crate) fn by_variables<'a>(
    alloc: Global,
    terms: &[&'a Tree],
    from: u32,
) -> Result<Vec<Replacement<'a>>, AllocError> {
    let mut table = Vec::with_capacity(alloc, terms.len())?;
    let mut number = from;
    'each: for term in terms {
        table.push(Replacement {
            from: *term,
            to: number,
        })?;
        number = number.saturating_add(1);
    }
    Ok(table)
}
