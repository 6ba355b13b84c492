//! Raw clauses of the attacker's, over owned trees.

ghost use Rattle.std.specs.Prelude.{◌≡◌, [], map, IfOk};
ghost use Rattle.spec_clauses.specs.Fact.{Att};
ghost use Rattle.spec_translation.specs.Attacker.{variables_from, message_heard, message_sent};
ghost use Rattle.clause_diffs.specs.Plain.{term_of};
ghost use Rattle.clause_form.specs.PlainFacts.{plain_fact_of};

use clause_form::{PlainClause, PlainDiffs, PlainFact, PlainFacts, Tree, Trees};
use std::alloc::{AllocError, Global};

/// The phase of the facts that are made, and the allocator of what is made.
#[derive(Clone, Copy)]
pub(crate) struct InPhase {
    pub alloc: Global,
    pub phase: u32,
}

/// The clause of these hypotheses and this conclusion, without constraints.
fn plain_clause(alloc: Global, items: Vec<PlainFact>, concl: PlainFact) -> PlainClause
    ensures { result ≡ record {
      hypotheses = map plain_fact_of items.items;
      diffs = [];
      conclusion = plain_fact_of concl;
    } }
{
    PlainClause {
        hyps: PlainFacts { items },
        diffs: PlainDiffs {
            items: Vec::new(alloc),
        },
        concl,
    }
}

/// That in a phase the attacker has the last term, where in a phase before it, or the same, he has the others.
pub(crate) fn known(
    alloc: Global,
    before: u32,
    parts: Trees,
    phase: u32,
    whole: Tree,
) -> Result<PlainClause, AllocError>
    ensures { IfOk result (λ raw. raw ≡ record {
      hypotheses = map (Att before) parts;
      diffs = [];
      conclusion = Att phase (term_of whole);
    }) }
{
    let mut items = Vec::with_capacity(alloc, parts.items.len())?;
    'each: for part in parts.items {
        items.push(PlainFact::Att(before, part))?;
    }
    Ok(plain_clause(alloc, items, PlainFact::Att(phase, whole)))
}

/// So many variables, from 0 on.
pub(crate) fn variables(alloc: Global, count: u32) -> Result<Trees, AllocError>
    ensures { IfOk result (λ made. made ≡ variables_from 0 count) }
{
    let mut items = Vec::new(alloc);
    'each: for number in 0..count {
        items.push(Tree::Var(number))?;
    }
    Ok(Trees { items })
}

/// That in the phase the attacker hears what is sent on a channel that he has.
pub(crate) fn heard(alloc: Global, phase: u32) -> Result<PlainClause, AllocError>
    ensures { IfOk result (λ raw. raw ≡ message_heard phase) }
{
    let mut items = Vec::new(alloc);
    items.push(PlainFact::Mess(phase, Tree::Var(0), Tree::Var(1)))?;
    items.push(PlainFact::Att(phase, Tree::Var(0)))?;
    Ok(plain_clause(alloc, items, PlainFact::Att(phase, Tree::Var(1))))
}

/// That in the phase he sends what he has on a channel that he has.
pub(crate) fn sent(alloc: Global, phase: u32) -> Result<PlainClause, AllocError>
    ensures { IfOk result (λ raw. raw ≡ message_sent phase) }
{
    let mut items = Vec::new(alloc);
    items.push(PlainFact::Att(phase, Tree::Var(0)))?;
    items.push(PlainFact::Att(phase, Tree::Var(1)))?;
    Ok(plain_clause(
        alloc,
        items,
        PlainFact::Mess(phase, Tree::Var(0), Tree::Var(1)),
    ))
}
