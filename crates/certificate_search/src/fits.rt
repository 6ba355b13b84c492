//! Clauses that are fit for resolution: what makes clauses keeps them so.

ghost use Rattle.std.specs.Prelude.{List, map, IfOk, IfSome};
ghost use Rattle.spec_terms.specs.Term.{Term};
ghost use Rattle.spec_clauses.specs.Fact.{Clause as ClauseOf};
ghost use Rattle.spec_clauses.specs.Norm.{IsNormal};
ghost use Rattle.spec_clauses.specs.Inclusion.{Has};
ghost use Rattle.term_tree.specs.Bank.{Grows};
ghost use Rattle.clause_form.specs.Fit.{IsFit, AreFit, AreLowWithinLimit, clauses_at};
ghost use Rattle.clause_form.specs.Facts.{fact_of};
ghost use Rattle.clause_form.specs.Seen.{IsFactIn, AreFactsIn, IsClauseIn, AreClausesIn};
ghost use Rattle.certificate_search.specs.Fits.{AreFoundFit};

use crate::pool::{Candidate, Pair};
use clause_form::{
    Clause, Clauses, Fact, PlainClause, copy_into, is_selectable, is_variable_known, size_of,
    size_of_fact,
};
use clause_norms::norms_of;
use clause_resolve::{Resolved, resolvents_at};
use fact_fingerprint::fingerprint_of_fact;
use limits::MOST_SYMBOLS;
use literal_selection::{is_bad, selected};
use spec_clauses::norms_are_normal;
use std::alloc::{AllocError, Global};
use term_store::SharedBank;
use term_tree::Bank;

/// The clause at a place, if there is one.
pub(crate) fn clause_at(clauses: &Clauses, place: usize) -> Option<&Clause>
    ensures { (all : List Term) → AreFit all clauses.now →
        IfSome result (λ clause. IsFit all clause.now) }
{
    match clauses.items.get(place) {
        None => None,
        Some(clause) => Some(clause),
    }
}

/// Whether a clause says that the attacker has everything.
pub(crate) fn gives_all(bank: &SharedBank, clause: &Clause) -> bool
    requires { IsClauseIn bank.now clause.now }
{
    clause.hyps.items.is_empty() && is_variable_known(bank, &clause.concl)
}

/// The one clause of a list, where it has one, and this is within the limit of size.
fn only_one(bank: &SharedBank, made: Clauses) -> Option<Clause>
    requires known { AreClausesIn bank.now made }
    requires normal { (c : ClauseOf Term) → Has (clauses_at bank.now made) c → IsNormal c }
    requires low { AreLowWithinLimit bank.now made }
    ensures { IfSome result (IsFit bank.now) }
{
    let mut items = made.items;
    if items.len() != 1 {
        return None;
    }
    let clause = items.pop()?;
    if size_of(bank, &clause) > MOST_SYMBOLS {
        return None;
    }
    Some(clause)
}

/// The norm of a clause, where it is flat, has one, and this is within the limit of size. On `Err` the bank may have grown.
pub(crate) fn fit_norm(
    alloc: Global,
    bank: &mut SharedBank,
    plain: &PlainClause,
) -> Result<Option<Clause>, AllocError>
    ensures grows { Grows bank.old bank.new }
    ensures fit { IfOk result (λ found. IfSome found (IsFit bank.new)) }
{
    norms_are_normal();
    let raw = copy_into(alloc, bank, plain)?;
    let made = norms_of(alloc, bank, &raw)?;
    Ok(only_one(bank, made))
}

/// The hypothesis at a place of a clause, if it can be selected.
fn candidate(bank: &SharedBank, fact: &Fact, at: usize) -> Option<Candidate>
    requires { IsFactIn bank.now (fact_of fact.now) }
{
    if !is_selectable(bank, fact) {
        return None;
    }
    Some(Candidate {
        at,
        fingerprint: fingerprint_of_fact(bank, fact),
        size: size_of_fact(bank, fact),
    })
}

/// Those of the hypotheses that can be selected, in order.
fn candidates_among(
    alloc: Global,
    bank: &SharedBank,
    facts: &[Fact],
) -> Result<Vec<Candidate>, AllocError>
    requires { AreFactsIn bank.now (map fact_of facts.now) }
{
    let mut found = Vec::new(alloc);
    let mut at = 0usize;
    'each: for fact in facts {
        if let Some(one) = candidate(bank, fact, at) {
            found.push(one)?;
        }
        at = at.saturating_add(1);
    }
    Ok(found)
}

/// Those of a clause's hypotheses that can be selected, in order.
pub(crate) fn candidates(
    alloc: Global,
    bank: &SharedBank,
    clause: &Clause,
) -> Result<Vec<Candidate>, AllocError>
    requires { IsClauseIn bank.now clause.now }
{
    candidates_among(alloc, bank, &clause.hyps.items)
}

/// The place of the hypothesis that is selected, if the clause isn't solved.
pub(crate) fn selected_of(bank: &SharedBank, clause: &Clause) -> Option<usize>
    requires { IsFit bank.now clause.now }
{
    selected(bank, clause)
}

/// Whether a clause concludes neither `bad` nor `att` of a variable.
pub(crate) fn may_rest(bank: &SharedBank, clause: &Clause) -> bool
    requires { IsClauseIn bank.now clause.now }
{
    !is_bad(bank, &clause.concl) && !is_variable_known(bank, &clause.concl)
}

/// What a clause gives with another on its hypothesis at a place: nothing, where there is none.
fn fit_resolvents(
    alloc: Global,
    bank: &mut SharedBank,
    resting: &Clause,
    other: &Clause,
    at: usize,
) -> Result<Resolved, AllocError>
    requires resting { IsFit bank.old resting.now }
    requires other { IsFit bank.old other.now }
    ensures grows { Grows bank.old bank.new }
    ensures fit { IfOk result (AreFoundFit bank.new) }
{
    let facts = other.hyps.items.as_slice();
    if at >= facts.len() {
        return Ok(Resolved::NoUnifier);
    }
    let found = resolvents_at(alloc, bank, resting, other, at)?;
    Ok(found)
}

/// What a pair of clauses gives: nothing, where one isn't there.
pub(crate) fn resolved(
    alloc: Global,
    bank: &mut SharedBank,
    clauses: &Clauses,
    pair: Pair,
) -> Result<Resolved, AllocError>
    requires { AreFit bank.old clauses.now }
    ensures grows { Grows bank.old bank.new }
    ensures fit { IfOk result (AreFoundFit bank.new) }
{
    let Some(first) = clause_at(clauses, pair.resting) else {
        return Ok(Resolved::NoUnifier);
    };
    let Some(second) = clause_at(clauses, pair.other) else {
        return Ok(Resolved::NoUnifier);
    };
    fit_resolvents(alloc, bank, first, second, pair.at)
}

/// Whether the conclusion of the first clause of a pair unifies with the other one's hypothesis, their variables set apart. On `Err` the
/// bank may have grown.
pub(crate) fn meets(
    alloc: Global,
    bank: &mut SharedBank,
    clauses: &Clauses,
    pair: Pair,
) -> Result<bool, AllocError>
    requires { AreFit bank.old clauses.now }
    ensures grows { Grows bank.old bank.new }
{
    let mark = bank.mark();
    let found = resolved(alloc, bank, clauses, pair)?;
    bank.back(mark);
    match found {
        Resolved::NoUnifier => Ok(false),
        Resolved::Large | Resolved::Clauses(_) => Ok(true),
    }
}

/// Adds a clause at the end.
pub(crate) fn push_fit(clauses: &mut Clauses, clause: Clause) -> Result<(), AllocError>
    ensures { (all : List Term) → AreFit all clauses.old → IsFit all clause →
        AreFit all clauses.new }
{
    clauses.items.push(clause)?;
    Ok(())
}

/// Adds clauses at the end.
pub(crate) fn append_fit(clauses: &mut Clauses, made: Clauses) -> Result<(), AllocError>
    ensures { (all : List Term) → AreFit all clauses.old → AreFit all made →
        AreFit all clauses.new }
{
    let mut items = made.items;
    clauses.items.append(&mut items)?;
    Ok(())
}

/// Takes the clauses from a place on away.
pub(crate) fn cut_fit(clauses: &mut Clauses, place: usize)
    ensures { (all : List Term) → AreFit all clauses.old → AreFit all clauses.new }
{
    clauses.items.truncate(place);
}

/// Adds a copy of the clause at a place, if there is one.
fn add_copy(
    alloc: Global,
    clauses: &Clauses,
    place: usize,
    made: &mut Clauses,
) -> Result<(), AllocError>
    ensures { (all : List Term) → AreFit all clauses.now → AreFit all made.old →
        AreFit all made.new }
{
    let Some(clause) = clause_at(clauses, place) else {
        return Ok(());
    };
    let copied = clause.copy(alloc)?;
    push_fit(made, copied)
}

/// Copies of the clauses at these places, as far as they are there.
pub(crate) fn copies(
    alloc: Global,
    clauses: &Clauses,
    places: &[usize],
) -> Result<Clauses, AllocError>
    ensures { IfOk result (λ made. (all : List Term) → AreFit all clauses.now → AreFit all made) }
{
    let mut made = Clauses {
        items: Vec::new(alloc),
    };
    'each: for place in places {
        add_copy(alloc, clauses, *place, &mut made)?;
    }
    Ok(made)
}
