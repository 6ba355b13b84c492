//! Visits under unifiers.

ghost use Rattle.std.specs.Prelude.{◌≡◌, ◌<◌, true, length, map, IfOk, OnOk, MatchOption};
ghost use Rattle.spec_trees.specs.Tree.{bind};
ghost use Rattle.spec_calculus.specs.Bounds.{most_symbols};
ghost use Rattle.spec_terms.specs.Binding.{resolved};
ghost use Rattle.term_tree.specs.Bank.{tree_at, AreKnown, Names, Grows};
ghost use Rattle.unify_match.specs.Seen.{seen, IsReady};
ghost use Rattle.spec_translation.specs.Visit as translation;
ghost use Rattle.clause_form.specs.Seen.{NameTerms};
ghost use Rattle.clause_terms.specs.Scopes.{scope_at, IsScopeIn, NamesScope};
ghost use Rattle.clause_terms.specs.Slots.{held_of};
ghost use Rattle.unified_visits.specs.Sizes.{some_standing_over};
ghost use Rattle.unified_visits.specs.Built.{tree_under, AreBuilt};
ghost use Rattle.unified_visits.specs.Visits.{visit_at, IsVisitIn, NamesVisit};
ghost use Rattle.unified_visits.specs.Solving.{HasBelow, NamesKnown};

use crate::built::Built;
use crate::constrained::lifted;
use crate::substituted::{facts_under, term_under};
use crate::visit::Visit;
use clause_form::{Facts, Ids};
use clause_terms::{Scope, Standing};
use std::alloc::{AllocError, Global};
use term_tree::{Bank, Id};
use unify_match::{Binds, apply_unlimited};

/// The scope under the bindings; none where a term of it has more symbols than the limit. On `Err` the bank may have
/// grown.
fn scope_under<B: Bank>(
    alloc: Global,
    bank: &mut B,
    binds: &Binds,
    built: &mut Built,
    scope: &[Standing],
) -> Result<Option<Scope>, AllocError>
    requires known { IsScopeIn (B.trees bank.old) (map held_of scope.now) }
    requires ready { IsReady (B.trees bank.old) binds.now.pairs }
    requires built { AreBuilt (B.trees bank.old) binds.now.pairs built.old }
    ensures grows { Grows (B.trees bank.old) (B.trees bank.new) }
    ensures built { OnOk result (AreBuilt (B.trees bank.new) binds.now.pairs built.new) }
    ensures under { let made = map (translation.standing_under
        (resolved (seen (B.trees bank.old) binds.now.pairs)))
        (scope_at (B.trees bank.old) (map held_of scope.now)) in
        IfOk result (λ found. MatchOption found (some_standing_over most_symbols made ≡ true)
        (λ scope. NamesScope (B.trees bank.new) scope made)) }
{
    let mut items = Vec::new(alloc);
    'each: for standing in scope {
        match term_under(alloc, bank, binds, built, standing.term)? {
            None => return Ok(None),
            Some(term) => items.push(Standing {
                slot: standing.slot,
                term,
            })?,
        }
    }
    Ok(Some(Scope { items }))
}

/// The term under the bindings, whatever its size. On `Err` the bank is as before.
fn whole_under<B: Bank>(
    bank: &mut B,
    binds: &Binds,
    built: &Built,
    id: Id,
) -> Result<Id, AllocError>
    requires known { id.index < length (B.trees bank.old) }
    requires ready { IsReady (B.trees bank.old) binds.now.pairs }
    requires built { AreBuilt (B.trees bank.old) binds.now.pairs built.now }
    ensures grows { Grows (B.trees bank.old) (B.trees bank.new) }
    ensures names { IfOk result (λ made. Names (B.trees bank.new) made
        (tree_under (B.trees bank.old) binds.now.pairs id)) }
{
    match built.of(id) {
        Some(made) => Ok(made),
        None => apply_unlimited(bank, id, binds),
    }
}

/// The terms under the bindings, whatever their size. On `Err` the bank may have grown.
fn all_terms_under<B: Bank>(
    alloc: Global,
    bank: &mut B,
    binds: &Binds,
    built: &Built,
    terms: &[Id],
) -> Result<Ids, AllocError>
    requires known { AreKnown (B.trees bank.old) terms.now }
    requires ready { IsReady (B.trees bank.old) binds.now.pairs }
    requires built { AreBuilt (B.trees bank.old) binds.now.pairs built.now }
    ensures grows { Grows (B.trees bank.old) (B.trees bank.new) }
    ensures names { IfOk result (λ ids. NameTerms (B.trees bank.new) ids
        (map (bind (resolved (seen (B.trees bank.old) binds.now.pairs)))
        (map (tree_at (B.trees bank.old)) terms.now))) }
{
    let mut items = Vec::with_capacity(alloc, terms.len())?;
    'each: for term in terms {
        let made = whole_under(bank, binds, built, *term)?;
        items.push(made)?;
    }
    Ok(Ids { items })
}

/// The scope and the hypotheses of the visit under the bindings; none where a term of them is over the limit. On `Err` the
/// bank may have grown.
fn known_under<B: Bank>(
    alloc: Global,
    bank: &mut B,
    binds: &Binds,
    built: &mut Built,
    visit: &Visit,
) -> Result<Option<(Scope, Facts)>, AllocError>
    requires visit { IsVisitIn (B.trees bank.old) visit.now }
    requires ready { IsReady (B.trees bank.old) binds.now.pairs }
    requires built { AreBuilt (B.trees bank.old) binds.now.pairs built.old }
    ensures grows { Grows (B.trees bank.old) (B.trees bank.new) }
    ensures built { OnOk result (AreBuilt (B.trees bank.new) binds.now.pairs built.new) }
    ensures under { let made = translation.visit_under
        (resolved (seen (B.trees bank.old) binds.now.pairs))
        (visit_at (B.trees bank.old) visit.now) in
        IfOk result (λ found. MatchOption found (translation.is_large_visit made ≡ true)
        (λ known. NamesKnown (B.trees bank.new) known.0 known.1 made)) }
{
    match scope_under(alloc, bank, binds, built, &visit.scope.items)? {
        None => Ok(None),
        Some(scope) => match facts_under(alloc, bank, binds, built, &visit.hypotheses.items)? {
            None => Ok(None),
            Some(hypotheses) => Ok(Some((scope, hypotheses))),
        },
    }
}

/// The messages and the sessions of the visit under the bindings. On `Err` the bank may have grown.
fn past_under<B: Bank>(
    alloc: Global,
    bank: &mut B,
    binds: &Binds,
    built: &Built,
    visit: &Visit,
) -> Result<(Ids, Ids), AllocError>
    requires visit { IsVisitIn (B.trees bank.old) visit.now }
    requires ready { IsReady (B.trees bank.old) binds.now.pairs }
    requires built { AreBuilt (B.trees bank.old) binds.now.pairs built.now }
    ensures grows { Grows (B.trees bank.old) (B.trees bank.new) }
    ensures messages { IfOk result (λ past. NameTerms (B.trees bank.new) past.0
        (map (bind (resolved (seen (B.trees bank.old) binds.now.pairs)))
        (map (tree_at (B.trees bank.old)) visit.now.messages))) }
    ensures sessions { IfOk result (λ past. NameTerms (B.trees bank.new) past.1
        (map (bind (resolved (seen (B.trees bank.old) binds.now.pairs)))
        (map (tree_at (B.trees bank.old)) visit.now.sessions))) }
{
    let messages = all_terms_under(alloc, bank, binds, built, &visit.messages.items)?;
    let sessions = all_terms_under(alloc, bank, binds, built, &visit.sessions.items)?;
    Ok((messages, sessions))
}

/// The visit under the bindings; none where a term of its scope or hypotheses is over the limit. On `Err` the bank may
/// have grown.
pub fn visit_under<B: Bank>(
    alloc: Global,
    bank: &mut B,
    binds: &Binds,
    visit: &Visit,
) -> Result<Option<Visit>, AllocError>
    requires visit { IsVisitIn (B.trees bank.old) visit.now }
    requires ready { IsReady (B.trees bank.old) binds.now.pairs }
    requires below { HasBelow (resolved (seen (B.trees bank.old) binds.now.pairs)) visit.now.next }
    ensures grows { Grows (B.trees bank.old) (B.trees bank.new) }
    ensures under { let made = translation.visit_under
        (resolved (seen (B.trees bank.old) binds.now.pairs))
        (visit_at (B.trees bank.old) visit.now) in
        IfOk result (λ found. MatchOption found (translation.is_large_visit made ≡ true)
        (λ w. NamesVisit (B.trees bank.new) w made)) }
{
    let mut built = Built::new(alloc);
    match known_under(alloc, bank, binds, &mut built, visit)? {
        None => Ok(None),
        Some((scope, hypotheses)) => {
            let (messages, sessions) = past_under(alloc, bank, binds, &built, visit)?;
            let diffs = lifted(alloc, bank, binds, visit.next, &visit.diffs)?;
            Ok(Some(Visit {
                scope,
                hypotheses,
                diffs,
                messages,
                sessions,
                next: visit.next,
                phase: visit.phase,
            }))
        }
    }
}
