//! The instance of a given entry.

ghost use Rattle.std.specs.Prelude.{◌≡◌, List, ◌++◌, flat_map, nat_eq, option_map, IfOk, OnOk};
ghost use Rattle.spec_calculus.specs.Points.{numbered};
ghost use Rattle.spec_terms.specs.Term.{Subst};
ghost use Rattle.spec_clauses.specs.Fact.{terms_of};
ghost use Rattle.spec_clauses.specs.Flat.{flat_parts};
ghost use Rattle.spec_clauses.specs.Norm.{distinct};
ghost use Rattle.spec_saturation.specs.Key.{Entry};
ghost use Rattle.spec_attack_runs.specs.Source.{source_variables, part_of};
ghost use Rattle.spec_attack_runs.specs.Instance.{kept_variables as kept_of_part};
ghost use Rattle.term_tree.specs.Bank.{AreKnown, Grows};
ghost use Rattle.clause_form.specs.PlainFacts.{plain_fact_of};
ghost use Rattle.clause_form.specs.Seen.{clause_at, IsClauseIn};
ghost use Rattle.clause_sources.specs.Seen.{action_of};
ghost use Rattle.clause_instances.specs.Closing.{Closes, AddsClosed};
ghost use Rattle.clause_instances.specs.Closed.{AreSupposed, AreOfWay, IsClosedSource};
ghost use Rattle.clause_instances.specs.Descents.{IsInstanceOf, IsGivenAt};
ghost use Rattle.clause_instances.specs.Instances.{IsFoundIn, pending_at};

use crate::closing::Closing;
use crate::instance::{Derivation, Expansion, Instance, Pending, no_ids};
use clause_form::{
    Clause, Clauses, Ids, PlainClause, PlainFact, PlainFacts, copy_into, flatten, kept_variables,
};
use clause_sources::{Action, Source, add_source_variables};
use std::alloc::{AllocError, Global};
use term_store::SharedBank;
use term_tree::Bank;

/// The variables that the norm of the source's part keeps, each as often as it occurs, and then those of the source; none where
/// there is no such part. The bank is as before.
fn variables_of(
    alloc: Global,
    scratch: &mut SharedBank,
    source: &Source,
) -> Result<Option<Vec<u32>>, AllocError>
    ensures scratch { scratch.new ≡ scratch.old }
    ensures variables { IfOk result (λ found.
        option_map (λ numbers. distinct nat_eq numbers.items) found ≡
        option_map (λ part. distinct nat_eq (kept_of_part part ++ source_variables source.now))
        (part_of source.now)) }
{
    let mark = scratch.mark();
    let kept = kept_of(alloc, scratch, source);
    scratch.back(mark);
    match kept? {
        None => Ok(None),
        Some(mut variables) => {
            add_source_variables(alloc, source.raw(), source.action(), &mut variables)?;
            Ok(Some(variables))
        }
    }
}

/// The clause of that number, from 1.
fn part_at(parts: &Clauses, number: usize) -> Option<&Clause>
    ensures { option_map (λ part. part.now) result ≡ numbered parts.now number }
{
    match number.checked_sub(1) {
        None => None,
        Some(index) => parts.items.get(index),
    }
}

/// The variables that the norm of the flat part of that number keeps, each as often as it occurs.
fn kept_within(
    alloc: Global,
    scratch: &SharedBank,
    raw: &Clause,
    number: usize,
) -> Result<Option<Vec<u32>>, AllocError>
    requires { IsClauseIn scratch.now raw.now }
    ensures { IfOk result (λ found.
        option_map (λ numbers. distinct nat_eq numbers.items) found ≡
        option_map kept_of_part (numbered (flat_parts (clause_at scratch.now raw.now)) number)) }
{
    let parts = flatten(alloc, scratch, raw)?;
    match part_at(&parts, number) {
        None => Ok(None),
        Some(part) => {
            let kept = kept_variables(alloc, scratch, part)?;
            Ok(Some(kept))
        }
    }
}

/// The variables that the norm of the source's part keeps, each as often as it occurs. The bank may have grown.
fn kept_of(
    alloc: Global,
    scratch: &mut SharedBank,
    source: &Source,
) -> Result<Option<Vec<u32>>, AllocError>
    ensures grows { Grows scratch.old scratch.new }
    ensures kept { IfOk result (λ found.
        option_map (λ numbers. distinct nat_eq numbers.items) found ≡
        option_map kept_of_part (part_of source.now)) }
{
    let raw = copy_into(alloc, scratch, source.raw())?;
    kept_within(alloc, scratch, &raw, source.part)
}

/// The terms of a fact, closed, behind others, and whether none of them is over the limit of size. On `Err` the bank may have grown.
fn add_fact(
    alloc: Global,
    bank: &mut SharedBank,
    closing: &Closing,
    fact: &PlainFact,
    made: &mut Ids,
) -> Result<bool, AllocError>
    requires terms { AreKnown bank.old closing.now.terms }
    requires known { AreKnown bank.old made.old }
    ensures grows { Grows bank.old bank.new }
    ensures known { OnOk result (AreKnown bank.new made.new) }
    ensures adds { (s : Subst) → Closes bank.old closing.now s →
        IfOk result (λ small. AddsClosed bank.old bank.new s
        (terms_of (plain_fact_of fact.now)) made.old made.new small) }
{
    match fact {
        PlainFact::Att(_, term) => closing.add_one(alloc, bank, term, made),
        PlainFact::Mess(_, channel, message) => {
            let first = closing.add_one(alloc, bank, channel, made)?;
            let second = closing.add_one(alloc, bank, message, made)?;
            Ok(first & second)
        }
        PlainFact::Tab(_, terms)
        | PlainFact::Ev(_, terms)
        | PlainFact::Mev(_, terms)
        | PlainFact::Bad(terms) => closing.add_closed(alloc, bank, &terms.items, made),
    }
}

/// The terms of facts, closed, behind others, and whether none of them is over the limit of size. On `Err` the bank may have grown.
fn add_facts(
    alloc: Global,
    bank: &mut SharedBank,
    closing: &Closing,
    facts: &PlainFacts,
    made: &mut Ids,
) -> Result<bool, AllocError>
    requires terms { AreKnown bank.old closing.now.terms }
    requires known { AreKnown bank.old made.old }
    ensures grows { Grows bank.old bank.new }
    ensures known { OnOk result (AreKnown bank.new made.new) }
    ensures adds { (s : Subst) → Closes bank.old closing.now s →
        IfOk result (λ small. AddsClosed bank.old bank.new s
        (flat_map terms_of facts.now) made.old made.new small) }
{
    let mut small = true;
    'each: for fact in &facts.items {
        let one = add_fact(alloc, bank, closing, fact, made)?;
        small &= one;
    }
    Ok(small)
}

/// The terms of the hypotheses, closed; none where one of the clause's terms is over the limit of size. On `Err` the bank may have
/// grown.
fn supposed_of(
    alloc: Global,
    bank: &mut SharedBank,
    closing: &Closing,
    raw: &PlainClause,
) -> Result<Option<Ids>, AllocError>
    requires { AreKnown bank.old closing.now.terms }
    ensures grows { Grows bank.old bank.new }
    ensures supposed { (s : Subst) → Closes bank.old closing.now s →
        IfOk result (λ found. AreSupposed bank.new s raw.now found) }
{
    let mut made = no_ids(alloc);
    let hyps = add_facts(alloc, bank, closing, &raw.hyps, &mut made)?;
    let mut concluded = no_ids(alloc);
    let concl = add_fact(alloc, bank, closing, &raw.concl, &mut concluded)?;
    if concl & hyps {
        return Ok(Some(made));
    }
    Ok(None)
}

/// The messages and the sessions of an action, closed; none where one of them is over the limit of size. On `Err` the bank may have
/// grown.
fn way_of(
    alloc: Global,
    bank: &mut SharedBank,
    closing: &Closing,
    action: &Action,
) -> Result<Option<(Ids, Ids)>, AllocError>
    requires { AreKnown bank.old closing.now.terms }
    ensures grows { Grows bank.old bank.new }
    ensures way { (s : Subst) → Closes bank.old closing.now s →
        IfOk result (λ found. AreOfWay bank.new s (action_of action.now) found) }
{
    match action {
        Action::Idle | Action::Builds(_) | Action::Reduces(_, _) => {
            Ok(Some((no_ids(alloc), no_ids(alloc))))
        }
        Action::Reaches(way) => closing.both_closed(alloc, bank, &way.messages, &way.sessions),
    }
}

/// The source, closed; none where one of its terms is over the limit of size. On `Err` the bank may have grown.
fn closed_source(
    alloc: Global,
    bank: &mut SharedBank,
    closing: &Closing,
    source: &Source,
    index: usize,
) -> Result<Option<Instance>, AllocError>
    requires { AreKnown bank.old closing.now.terms }
    ensures grows { Grows bank.old bank.new }
    ensures closed { (s : Subst) → Closes bank.old closing.now s →
        IfOk result (λ found. IsClosedSource bank.new s source.now index found) }
{
    let Some(supposed) = supposed_of(alloc, bank, closing, source.raw())? else {
        return Ok(None);
    };
    let Some((messages, sessions)) = way_of(alloc, bank, closing, source.action())? else {
        return Ok(None);
    };
    Ok(Some(Instance {
        source: index,
        supposed,
        messages,
        sessions,
    }))
}

/// The instance of the given clause of that number with the pending terms; none where there is no such source, or where a term is
/// over the limit of size. On `Err` the bank may have grown.
pub(crate) fn instance_of(
    derivation: &Derivation<'_>,
    expansion: &mut Expansion,
    bank: &mut SharedBank,
    pending: &Pending,
    number: usize,
) -> Result<Option<Instance>, AllocError>
    requires { AreKnown bank.old pending.now.terms }
    ensures scratch { expansion.new.scratch ≡ expansion.old.scratch }
    ensures grows { Grows bank.old bank.new }
    ensures known { IfOk result (λ found. IsFoundIn bank.new found) }
    ensures instance { (log : List Entry) →
        IsGivenAt log (pending_at bank.old pending.now) number →
        IfOk result (λ found. IsInstanceOf bank.new derivation.now.sources.now log
        (pending_at bank.old pending.now) expansion.old.next found expansion.new.next) }
{
    let (alloc, sources) = (derivation.alloc, derivation.sources);
    let Expansion { scratch, next } = expansion;
    let Some(index) = number.checked_sub(1) else {
        return Ok(None);
    };
    let Some(source) = sources.items.get(index) else {
        return Ok(None);
    };
    let Some(variables) = variables_of(alloc, scratch, source)? else {
        return Ok(None);
    };
    let terms = &pending.terms;
    let closing = Closing::new(alloc, bank, variables, &terms.items, next)?;
    closed_source(alloc, bank, &closing, source, index)
}
