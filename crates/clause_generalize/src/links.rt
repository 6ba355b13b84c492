//! What links the events that must have run with the rest of a clause.

use crate::changing::{Change, changed_fact, copied};
use crate::manner::Links;
use crate::trees::{add_all_variables, add_fact_terms, stands_in, variables_among};
use clause_form::{PlainClause, PlainFact, Tree, Trees};
use std::alloc::{AllocError, Global};

/// What events are to be linked with: the conclusion and the hypotheses that can be selected.
#[derive(Clone, Copy)]
struct Linking<'a> {
    links: Links,
    /// The terms of these.
    terms: &'a [&'a Tree],
    /// Their variables.
    numbers: &'a [u32],
    /// The variables of which it is said that the attacker has what they stand for.
    known: &'a [u32],
}

/// Whether a hypothesis can be selected.
fn is_firm(fact: &PlainFact) -> bool {
    match fact {
        PlainFact::Att(_, Tree::Var(_)) | PlainFact::Mev(..) => false,
        PlainFact::Att(_, Tree::App(..))
        | PlainFact::Mess(..)
        | PlainFact::Tab(..)
        | PlainFact::Ev(..)
        | PlainFact::Bad(_) => true,
    }
}

/// The terms of the conclusion and of the hypotheses that can be selected.
fn firm_terms<'a>(alloc: Global, clause: &'a PlainClause) -> Result<Vec<&'a Tree>, AllocError> {
    let mut found = Vec::new(alloc);
    add_fact_terms(&clause.concl, &mut found)?;
    'each: for fact in &clause.hyps.items {
        if is_firm(fact) {
            add_fact_terms(fact, &mut found)?;
        }
    }
    Ok(found)
}

/// The variables of which it is said that the attacker has what they stand for.
fn known_variables(alloc: Global, clause: &PlainClause) -> Result<Vec<u32>, AllocError> {
    let mut numbers = Vec::new(alloc);
    'each: for fact in &clause.hyps.items {
        if let PlainFact::Att(_, Tree::Var(number)) = fact {
            numbers.push(*number)?;
        }
    }
    Ok(numbers)
}

/// Whether one of the numbers is among others.
fn is_some_among(numbers: &[u32], others: &[u32]) -> bool {
    numbers.iter().any(|number| others.contains(number))
}

/// Whether all numbers are among others.
fn are_all_among(numbers: &[u32], others: &[u32]) -> bool {
    numbers.iter().all(|number| others.contains(number))
}

/// Whether the term stands in one of the others.
fn stands_in_some(term: &Tree, others: &[&Tree]) -> bool {
    others.iter().any(|other| stands_in(term, other))
}

/// Whether the arguments of an event are linked.
fn are_linked(alloc: Global, linking: &Linking<'_>, arguments: &Trees) -> Result<bool, AllocError> {
    let mut numbers = Vec::new(alloc);
    add_all_variables(arguments, &mut numbers)?;
    match linking.links {
        Links::All => Ok(true),
        Links::Variable => Ok(is_some_among(&numbers, linking.numbers)),
        Links::Term => Ok(
            arguments
                .items
                .iter()
                .all(|term| stands_in_some(term, linking.terms)),
        ),
        Links::Unknown => Ok(!are_all_among(&numbers, linking.known)),
    }
}

/// Whether a hypothesis stays: an event that must have run where it is linked, and all others.
fn stays(alloc: Global, linking: &Linking<'_>, fact: &PlainFact) -> Result<bool, AllocError> {
    match fact {
        PlainFact::Mev(_, arguments) => are_linked(alloc, linking, arguments),
        PlainFact::Att(..)
        | PlainFact::Mess(..)
        | PlainFact::Tab(..)
        | PlainFact::Ev(..)
        | PlainFact::Bad(_) => Ok(true),
    }
}

/// Copies of the hypotheses that stay.
fn staying(
    alloc: Global,
    linking: &Linking<'_>,
    facts: &[PlainFact],
) -> Result<Vec<PlainFact>, AllocError> {
    let mut kept = Vec::new(alloc);
    'each: for fact in facts {
        if stays(alloc, linking, fact)? {
            let copied = changed_fact(alloc, Change::Nothing, fact)?;
            kept.push(copied)?;
        }
    }
    Ok(kept)
}

/// The clause without the events that must have run which aren't linked in this way.
pub(crate) fn linked(
    alloc: Global,
    links: Links,
    clause: &PlainClause,
) -> Result<PlainClause, AllocError> {
    let terms = firm_terms(alloc, clause)?;
    let numbers = variables_among(alloc, &terms)?;
    let known = known_variables(alloc, clause)?;
    let linking = Linking {
        links,
        terms: &terms,
        numbers: &numbers,
        known: &known,
    };
    let kept = staying(alloc, &linking, &clause.hyps.items)?;
    let mut made = copied(alloc, clause)?;
    made.hyps.items = kept;
    Ok(made)
}
