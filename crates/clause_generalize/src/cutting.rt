//! Terms that are too deep.

use crate::changing::{Replacement, by_variables, changed_everywhere, copied, with_room};
use crate::manner::Cut;
use crate::trees::{add_new, add_parts, first_new, is_same, terms_of};
use clause_form::{PlainClause, PlainFact, Tree, is_data_symbol};
use std::alloc::{AllocError, Global};
use term_tree::Sym;

/// How many of the symbols are those of tuples.
fn count_tuples(above: &[Sym]) -> usize {
    above
        .iter()
        .filter(|symbol| matches!(symbol, Sym::Tuple(_)))
        .count()
}

/// Whether a symbol stands too deep below these.
fn is_too_deep(cut: Cut, above: &[Sym], symbol: Sym) -> bool {
    match symbol {
        Sym::Tuple(_) => count_tuples(above) >= cut.tuples,
        Sym::Free(_) => false,
        Sym::Ctor(_) | Sym::Data(_) | Sym::Point(_) | Sym::Attacker => {
            above.iter().filter(|one| one.is_same(symbol)).count() >= cut.functions
        }
    }
}

/// Adds the greatest terms within a term that are too deep, where it stands below these symbols.
fn add_deep<'a>(
    cut: Cut,
    tree: &'a Tree,
    above: &mut Vec<Sym>,
    found: &mut Vec<&'a Tree>,
) -> Result<(), AllocError> {
    match tree {
        Tree::Var(_) => Ok(()),
        Tree::App(symbol, arguments) => {
            if is_too_deep(cut, above, *symbol) {
                return add_new(tree, found);
            }
            above.push(*symbol)?;
            'each: for argument in &arguments.items {
                add_deep(cut, argument, above, found)?;
            }
            let _ = above.pop();
            Ok(())
        }
    }
}

/// The greatest terms of a clause that are too deep.
fn deep_terms<'a>(
    alloc: Global,
    cut: Cut,
    clause: &'a PlainClause,
) -> Result<Vec<&'a Tree>, AllocError> {
    let terms = terms_of(alloc, clause)?;
    let mut above = Vec::new(alloc);
    let mut found = Vec::new(alloc);
    'each: for term in &terms {
        add_deep(cut, *term, &mut above, &mut found)?;
    }
    Ok(found)
}

/// Whether the fact says that the attacker has the term in the phase.
fn says_known(fact: &PlainFact, phase: u32, tree: &Tree) -> bool {
    match fact {
        PlainFact::Att(at, term) => *at == phase && is_same(term, tree),
        PlainFact::Mess(..)
        | PlainFact::Tab(..)
        | PlainFact::Ev(..)
        | PlainFact::Mev(..)
        | PlainFact::Bad(_) => false,
    }
}

/// Whether one of the facts says that the attacker has the term in the phase.
fn some_says_known(facts: &[PlainFact], phase: u32, tree: &Tree) -> bool {
    facts.iter().any(|fact| says_known(fact, phase, tree))
}

/// Whether the facts say of each of the terms that the attacker has it in the phase.
fn say_all_known(facts: &[PlainFact], phase: u32, parts: &[&Tree]) -> bool {
    parts.iter().all(|part| some_says_known(facts, phase, part))
}

/// The phase in which the attacker has all parts by the facts, if there is one.
fn phase_of_parts(facts: &[PlainFact], parts: &[&Tree]) -> Option<u32> {
    for fact in facts {
        if let PlainFact::Att(phase, _) = fact {
            if say_all_known(facts, *phase, parts) {
                return Some(*phase);
            }
        }
    }
    None
}

/// Whether a term is a tuple or another one that has data parts.
fn has_parts(tree: &Tree) -> bool {
    match tree {
        Tree::Var(_) => false,
        Tree::App(symbol, _) => is_data_symbol(*symbol),
    }
}

/// The data parts of a term.
fn parts_of<'a>(alloc: Global, tree: &'a Tree) -> Result<Vec<&'a Tree>, AllocError> {
    let mut parts = Vec::new(alloc);
    add_parts(tree, &mut parts)?;
    Ok(parts)
}

/// A term that is cut, and the phase in which the attacker has its parts by the clause's hypotheses.
#[derive(Clone, Copy)]
struct Known<'a> {
    phase: u32,
    replacement: Replacement<'a>,
}

/// The cut terms of which the attacker has the parts by the facts.
fn known_terms<'a>(
    alloc: Global,
    facts: &[PlainFact],
    table: &[Replacement<'a>],
) -> Result<Vec<Known<'a>>, AllocError> {
    let mut known = Vec::new(alloc);
    'each: for one in table {
        if has_parts(one.from) {
            let parts = parts_of(alloc, one.from)?;
            if let Some(phase) = phase_of_parts(facts, &parts) {
                known.push(Known {
                    phase,
                    replacement: *one,
                })?;
            }
        }
    }
    Ok(known)
}

/// Whether the fact says that the attacker has one of the terms in the phase.
fn says_some_known(fact: &PlainFact, phase: u32, parts: &[&Tree]) -> bool {
    parts.iter().any(|part| says_known(fact, phase, part))
}

/// Takes those facts away which say that the attacker has a part of one of these terms.
fn take_parts(
    alloc: Global,
    clause: &mut PlainClause,
    known: &[Known<'_>],
) -> Result<(), AllocError> {
    'each: for one in known {
        let parts = parts_of(alloc, one.replacement.from)?;
        clause
            .hyps
            .items
            .retain(|fact| !says_some_known(fact, one.phase, &parts));
    }
    Ok(())
}

/// Adds that the attacker has what came in the place of these terms.
fn add_known(clause: &mut PlainClause, known: &[Known<'_>]) -> Result<(), AllocError> {
    'each: for one in known {
        let term = Tree::Var(one.replacement.to);
        clause.hyps.items.push(PlainFact::Att(one.phase, term))?;
    }
    Ok(())
}

/// The clause with terms replaced, which says besides that the attacker has what comes in the place of these.
fn saying_known(
    alloc: Global,
    table: &[Replacement<'_>],
    known: &[Known<'_>],
    clause: &PlainClause,
) -> Result<PlainClause, AllocError> {
    let mut made = changed_everywhere(alloc, table, clause)?;
    add_known(&mut made, known)?;
    Ok(made)
}

/// The same of the clause without what it says of the parts of these terms.
fn saying_known_alone(
    alloc: Global,
    table: &[Replacement<'_>],
    known: &[Known<'_>],
    clause: &PlainClause,
) -> Result<PlainClause, AllocError> {
    let mut fewer = copied(alloc, clause)?;
    take_parts(alloc, &mut fewer, known)?;
    saying_known(alloc, table, known, &fewer)
}

/// Adds the clauses with these terms replaced, the better ones first.
fn add_cut(
    alloc: Global,
    deep: &[&Tree],
    clause: &PlainClause,
    found: &mut Vec<PlainClause>,
) -> Result<(), AllocError> {
    let from = first_new(alloc, clause)?;
    let table = by_variables(alloc, deep, from)?;
    let known = known_terms(alloc, &clause.hyps.items, &table)?;
    let roomy = with_room(alloc, clause)?;
    if !known.is_empty() {
        found.push(saying_known(alloc, &table, &known, &roomy)?)?;
        found.push(saying_known_alone(alloc, &table, &known, &roomy)?)?;
    }
    found.push(changed_everywhere(alloc, &table, &roomy)?)?;
    Ok(())
}

/// Clauses in which the terms that are too deep are variables, the better ones first: none where there is no such term. Where the
/// attacker has the parts of a term that is cut, he has what comes in its place: beside these parts, in place of them, or
/// without that being said.
pub(crate) fn cut_clauses(
    alloc: Global,
    cut: Cut,
    clause: &PlainClause,
) -> Result<Vec<PlainClause>, AllocError> {
    let mut found = Vec::new(alloc);
    let deep = deep_terms(alloc, cut, clause)?;
    if !deep.is_empty() {
        add_cut(alloc, &deep, clause, &mut found)?;
    }
    Ok(found)
}
