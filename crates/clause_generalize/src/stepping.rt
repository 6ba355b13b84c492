//! Steps that make a clause more general.

use crate::asked::Asked;
use crate::changing::copied;
use crate::cutting::cut_clauses;
use crate::events::{asked_alone, freed, has_events, leave_out_repeats, unasked_run};
use crate::links::linked;
use crate::manner::{Links, Manner};
use crate::naming::named_clause;
use clause_form::PlainClause;
use std::alloc::{AllocError, Global};

/// A step that makes a clause more general.
#[derive(Clone, Copy)]
pub enum Step {
    /// An event that the query doesn't ask for may run with any arguments.
    AnyRun,
    /// Constraints are left out.
    NoDiffs,
    /// Events that must have run are left out where the query doesn't ask for them.
    AskedAlone,
    /// What the query leaves free in events that must have run is left open.
    Freed,
    /// Events that must have run are left out where nothing links them.
    Linked,
    /// Terms that are too deep are cut.
    Cut,
    /// Terms in arguments of names are cut.
    Named,
}

/// In the order in which they are taken.
pub const STEPS: [Step; 7] = [
    Step::AnyRun,
    Step::NoDiffs,
    Step::AskedAlone,
    Step::Freed,
    Step::Linked,
    Step::Cut,
    Step::Named,
];

/// A list of one clause, or of none.
fn listed(alloc: Global, clause: Option<PlainClause>) -> Result<Vec<PlainClause>, AllocError> {
    let mut list = Vec::new(alloc);
    if let Some(one) = clause {
        list.push(one)?;
    }
    Ok(list)
}

/// The clause without its constraints; none where it has none.
fn without_diffs(alloc: Global, clause: &PlainClause) -> Result<Option<PlainClause>, AllocError> {
    if clause.diffs.items.is_empty() {
        return Ok(None);
    }
    let mut made = copied(alloc, clause)?;
    made.diffs.items = Vec::new(alloc);
    Ok(Some(made))
}

/// The clause with what the query leaves free in events left open; none where it has no events that must have run.
fn with_freed(
    alloc: Global,
    asked: &Asked,
    clause: &PlainClause,
) -> Result<Option<PlainClause>, AllocError> {
    if !has_events(clause) {
        return Ok(None);
    }
    let mut made = freed(alloc, asked, clause)?;
    leave_out_repeats(alloc, &mut made)?;
    Ok(Some(made))
}

/// The clause without events that aren't linked; none where it has no events that must have run.
fn with_linked(
    alloc: Global,
    links: Links,
    clause: &PlainClause,
) -> Result<Option<PlainClause>, AllocError> {
    if links == Links::All || !has_events(clause) {
        return Ok(None);
    }
    let made = linked(alloc, links, clause)?;
    Ok(Some(made))
}

/// What a step of this manner makes of a clause, for a query that asks this: the better ones first; none where it changes nothing. Each is
/// meant to subsume the clause, but that isn't claimed.
pub fn stepped(
    alloc: Global,
    asked: &Asked,
    manner: &Manner,
    step: Step,
    clause: &PlainClause,
) -> Result<Vec<PlainClause>, AllocError> {
    match step {
        Step::AnyRun => listed(alloc, unasked_run(alloc, asked, clause)?),
        Step::NoDiffs => {
            if manner.has_diffs {
                return listed(alloc, None);
            }
            listed(alloc, without_diffs(alloc, clause)?)
        }
        Step::AskedAlone => listed(alloc, asked_alone(alloc, asked, clause)?),
        Step::Freed => listed(alloc, with_freed(alloc, asked, clause)?),
        Step::Linked => listed(alloc, with_linked(alloc, manner.links, clause)?),
        Step::Cut => match manner.cut {
            None => listed(alloc, None),
            Some(cut) => cut_clauses(alloc, cut, clause),
        },
        Step::Named => match manner.names {
            None => listed(alloc, None),
            Some(depth) => listed(alloc, named_clause(alloc, depth, clause)?),
        },
    }
}
