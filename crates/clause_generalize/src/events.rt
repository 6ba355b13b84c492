//! Events of clauses: those that may run, and those that must have run.

use crate::asked::{Asked, Required, is_once};
use crate::changing::{copied, with_room};
use crate::trees::{add_all_variables, first_new, is_same, terms_of, variables_among};
use clause_form::{PlainClause, PlainDiffs, PlainFact, PlainFacts, Tree, Trees};
use std::alloc::{AllocError, Global};

/// So many variables, from 0 on.
fn variables(alloc: Global, count: usize) -> Result<Trees, AllocError> {
    let mut items = Vec::with_capacity(alloc, count)?;
    let mut number = 0u32;
    'each: for _ in 0..count {
        items.push(Tree::Var(number))?;
        number = number.saturating_add(1);
    }
    Ok(Trees { items })
}

/// The clause that says that an event may run with any arguments, so many.
fn any_run(alloc: Global, event: u32, count: usize) -> Result<PlainClause, AllocError> {
    let arguments = variables(alloc, count)?;
    Ok(PlainClause {
        hyps: PlainFacts {
            items: Vec::new(alloc),
        },
        diffs: PlainDiffs {
            items: Vec::new(alloc),
        },
        concl: PlainFact::Ev(event, arguments),
    })
}

/// Where a clause concludes an event that isn't on the left side of the query: that this may run with any arguments.
pub(crate) fn unasked_run(
    alloc: Global,
    asked: &Asked,
    clause: &PlainClause,
) -> Result<Option<PlainClause>, AllocError> {
    if let PlainFact::Ev(event, arguments) = &clause.concl {
        if !asked.is_left(*event) {
            let made = any_run(alloc, *event, arguments.items.len())?;
            return Ok(Some(made));
        }
    }
    Ok(None)
}

/// Whether the fact is an event that must have run, for which the query doesn't ask.
fn is_unasked(asked: &Asked, fact: &PlainFact) -> bool {
    match fact {
        PlainFact::Mev(event, _) => asked.required(*event).is_none(),
        PlainFact::Att(..)
        | PlainFact::Mess(..)
        | PlainFact::Tab(..)
        | PlainFact::Ev(..)
        | PlainFact::Bad(_) => false,
    }
}

/// The clause without the events that must have run for which the query doesn't ask; none where there are no such events.
pub(crate) fn asked_alone(
    alloc: Global,
    asked: &Asked,
    clause: &PlainClause,
) -> Result<Option<PlainClause>, AllocError> {
    if !clause.hyps.items.iter().any(|fact| is_unasked(asked, fact)) {
        return Ok(None);
    }
    let mut made = copied(alloc, clause)?;
    made.hyps.items.retain(|fact| !is_unasked(asked, fact));
    Ok(Some(made))
}

/// Whether the clause has events that must have run.
pub(crate) fn has_events(clause: &PlainClause) -> bool {
    clause
        .hyps
        .items
        .iter()
        .any(|fact| matches!(fact, PlainFact::Mev(..)))
}

/// Puts a new variable in the place of each argument that the query leaves free, and tells the first number behind them.
fn free_arguments(required: &Required, arguments: &mut Trees, from: u32) -> u32 {
    let mut next = from;
    'each: for (place, argument) in arguments.items.iter_mut().enumerate() {
        if required.free.get(place).copied().unwrap_or(false) {
            *argument = Tree::Var(next);
            next = next.saturating_add(1);
        }
    }
    next
}

/// The same in a fact that is an event that must have run.
fn free_fact(asked: &Asked, fact: &mut PlainFact, from: u32) -> u32 {
    if let PlainFact::Mev(event, arguments) = fact {
        if let Some(required) = asked.required(*event) {
            return free_arguments(required, arguments, from);
        }
    }
    from
}

/// The clause with a new variable for each argument of an event that must have run which the query leaves free.
pub(crate) fn freed(
    alloc: Global,
    asked: &Asked,
    clause: &PlainClause,
) -> Result<PlainClause, AllocError> {
    let mut made = with_room(alloc, clause)?;
    let mut next = first_new(alloc, clause)?;
    'each: for fact in &mut made.hyps.items {
        next = free_fact(asked, fact, next);
    }
    Ok(made)
}

/// Adds the variables of constraints, each as often as it occurs.
fn add_diff_variables(diffs: &PlainDiffs, numbers: &mut Vec<u32>) -> Result<(), AllocError> {
    'each: for diff in &diffs.items {
        add_all_variables(&diff.left, numbers)?;
        add_all_variables(&diff.right, numbers)?;
    }
    Ok(())
}

/// All variables of a clause, each as often as it occurs.
fn all_variables(alloc: Global, clause: &PlainClause) -> Result<Vec<u32>, AllocError> {
    let terms = terms_of(alloc, clause)?;
    let mut numbers = variables_among(alloc, &terms)?;
    add_diff_variables(&clause.diffs, &mut numbers)?;
    Ok(numbers)
}

/// Whether the term is a variable that occurs once among these.
fn is_own(numbers: &[u32], tree: &Tree) -> bool {
    match tree {
        Tree::Var(number) => is_once(numbers, *number),
        Tree::App(..) => false,
    }
}

/// Whether terms are others, but for variables that occur once among these.
fn are_like(numbers: &[u32], terms: &Trees, others: &Trees) -> bool {
    terms.items.len() == others.items.len()
        && terms.items.iter().zip(&others.items).all(|(term, other)| is_own(numbers, term)
            || is_same(term, other))
}

/// Whether a fact is an event that must have run, and another fact is the same but for variables of the first alone.
fn is_like(numbers: &[u32], fact: &PlainFact, other: &PlainFact) -> bool {
    match (fact, other) {
        (PlainFact::Mev(event, terms), PlainFact::Mev(with, others)) => {
            event == with && are_like(numbers, terms, others)
        }
        _ => false,
    }
}

/// Whether the fact at a place is like another one.
fn is_repeated(numbers: &[u32], facts: &[PlainFact], place: usize) -> bool {
    let Some(fact) = facts.get(place) else {
        return false;
    };
    facts
        .iter()
        .enumerate()
        .any(|(at, other)| at != place && is_like(numbers, fact, other))
}

/// Leaves out the fact at a place, if it is an event that must have run which another one is like.
fn leave_out_repeat(numbers: &[u32], facts: &mut Vec<PlainFact>, place: usize) {
    if place < facts.len() && is_repeated(numbers, facts, place) {
        let _ = facts.remove(place);
    }
}

/// Leaves out the events that must have run which others are like, the last ones first.
pub(crate) fn leave_out_repeats(alloc: Global, clause: &mut PlainClause) -> Result<(), AllocError> {
    let numbers = all_variables(alloc, clause)?;
    let count = clause.hyps.items.len();
    'each: for behind in 0..count {
        leave_out_repeat(&numbers, &mut clause.hyps.items, count - 1 - behind);
    }
    Ok(())
}
