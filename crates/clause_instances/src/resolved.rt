//! The parents of a resolvent.

ghost use Rattle.std.specs.Prelude.{◌≡◌, ◌-◌, ◌≤◌, ◌++◌, List, true, false, cond, is_some, map, flat_map, nat_eq, option_map, IfOk, MatchOption, OnOk};
ghost use Rattle.spec_calculus.specs.Bounds.{most_symbols};
ghost use Rattle.spec_calculus.specs.Points.{numbered};
ghost use Rattle.spec_terms.specs.Binding.{resolved};
ghost use Rattle.spec_clauses.specs.Fact.{clause_terms};
ghost use Rattle.spec_clauses.specs.Limits.{IsWithinLimit};
ghost use Rattle.spec_clauses.specs.Norm.{norm as norm_of, distinct, IsNormal};
ghost use Rattle.spec_clauses.specs.Variables.{leaves, clause_variables, AreBelow};
ghost use Rattle.spec_saturation.specs.Key.{Entry};
ghost use Rattle.spec_translation.specs.Visit.{is_large_term};
ghost use Rattle.spec_attack_runs.specs.Instance.{kept_variables as kept_of_part, telling_parts, closing as closing_of, next_after};
ghost use Rattle.term_tree.specs.Bank.{tree_at, AreKnown, Names, Grows};
ghost use Rattle.unify_match.specs.Seen.{seen, IsReady};
ghost use Rattle.clause_form.specs.Fit.{HasLowVariables, IsLowWithinLimit};
ghost use Rattle.clause_form.specs.Seen.{clause_at, IsClauseIn, NamesClause};
ghost use Rattle.clause_resolve.specs.Met.{IsMet};
ghost use Rattle.log_entries.specs.PlainLogs.{TellPlainLog};
ghost use Rattle.clause_instances.specs.Closing.{AreClosed, AreBothIn};
ghost use Rattle.clause_instances.specs.Derivations.{HasNormedLog};
ghost use Rattle.clause_instances.specs.Parents.{NamesPart, own_terms as own_terms_of, AreOwnTerms, meeting_at, IsDescentOf, IsMeetingBy, DescendsBy};
ghost use Rattle.clause_instances.specs.Descents.{AreParentsOf, AreParentsIn, IsResolvedAt};
ghost use Rattle.clause_instances.specs.Instances.{pending_at};

use crate::closing::Closing;
use crate::instance::{Derivation, Expansion, Pending};
use clause_diffs::{add_terms_variables, distinct_of};
use clause_form::{
    Clause, Ids, Normal, PlainClause, Trees, are_solved, copy_into, flatten, kept_variables, norm,
    variables_of,
};
use clause_resolve::{Met, meet, set_apart, what_is_apart_outlasts_growth};
use clause_sources::read_trees;
use limits::MOST_SYMBOLS;
use literal_selection::selected;
use log_entries::PlainEntry;
use std::alloc::{AllocError, Global};
use term_store::SharedBank;
use term_tree::{Bank, Id};
use unify_match::{apply_bound, bindings_outlast_growth};

/// What the variables of the two parents stand for under the unifier, over owned trees, and the variables of the resolvent's part
/// that its norm keeps.
#[derive(Drop)]
pub(crate) struct Descent {
    pub variables: Vec<u32>,
    pub lefts: Trees,
    pub rights: Trees,
}

/// Two clauses, and what they become by a unifier.
#[derive(Clone, Copy)]
struct Parents<'a> {
    solved: &'a Clause,
    unsolved: &'a Clause,
    met: &'a Met,
}

/// The entry of that number.
pub(crate) fn entry<'a>(derivation: &Derivation<'a>, number: usize) -> Option<&'a PlainEntry>
    ensures { option_map (λ entry. entry.now) result ≡ numbered derivation.now.log.now number }
{
    let log = derivation.log;
    match number.checked_sub(1) {
        None => None,
        Some(index) => log.items.get(index),
    }
}

/// A clause that is its own norm, over ids of the bank and with variables of low numbers. On `Err` the bank may have grown.
fn copied(alloc: Global, bank: &mut SharedBank, plain: &PlainClause) -> Result<Clause, AllocError>
    requires { IsNormal plain.now }
    ensures grows { Grows bank.old bank.new }
    ensures names { IfOk result (λ clause. NamesClause bank.new clause plain.now) }
    ensures low { IfOk result (λ clause. IsLowWithinLimit bank.new clause) }
{
    let clause = copy_into(alloc, bank, plain)?;
    match norm(alloc, bank, clause)? {
        Normal::Tautology => unreachable!(),
        Normal::Clause(made) => Ok(made),
    }
}

/// Whether the part says something. On `Err` the bank may have grown.
fn tells(alloc: Global, bank: &mut SharedBank, part: &Clause) -> Result<bool, AllocError>
    requires { IsClauseIn bank.old part.now }
    ensures grows { Grows bank.old bank.new }
    ensures tells { IfOk result (λ tells. tells ≡
        is_some (norm_of (clause_at bank.old part.now))) }
{
    let copied = part.copy(alloc)?;
    match norm(alloc, bank, copied)? {
        Normal::Tautology => Ok(false),
        Normal::Clause(normal) => {
            drop(normal);
            Ok(true)
        }
    }
}

/// The number that is left behind a part, which says something or doesn't.
fn left_after(left: usize, says: bool) -> usize
    ensures { result ≡ cond says (left - 1) left }
{
    if !says {
        return left;
    }
    left.saturating_sub(1)
}

/// The flat part of that number of those that say something. The bank may have grown.
fn telling_part(
    alloc: Global,
    bank: &mut SharedBank,
    raw: &Clause,
    number: usize,
) -> Result<Option<Clause>, AllocError>
    requires { IsClauseIn bank.old raw.now }
    ensures grows { Grows bank.old bank.new }
    ensures part { IfOk result (λ found. NamesPart bank.new found
        (numbered (telling_parts (clause_at bank.old raw.now)) number)) }
{
    let parts = flatten(alloc, bank, raw)?;
    let mut left = number;
    'each: for part in &parts.items {
        let says = tells(alloc, bank, part)?;
        if says & (left == 1) {
            let found = part.copy(alloc)?;
            return Ok(Some(found));
        }
        left = left_after(left, says);
    }
    Ok(None)
}

/// The variables that the norm of that part keeps, each as often as it occurs. The bank may have grown.
fn kept_of(
    alloc: Global,
    bank: &mut SharedBank,
    raw: &Clause,
    number: usize,
) -> Result<Option<Vec<u32>>, AllocError>
    requires { IsClauseIn bank.old raw.now }
    ensures grows { Grows bank.old bank.new }
    ensures kept { IfOk result (λ found.
        option_map (λ numbers. distinct nat_eq numbers.items) found ≡
        option_map kept_of_part (numbered (telling_parts (clause_at bank.old raw.now)) number)) }
{
    match telling_part(alloc, bank, raw, number)? {
        None => Ok(None),
        Some(part) => {
            let kept = kept_variables(alloc, bank, &part)?;
            Ok(Some(kept))
        }
    }
}

/// The variables of a clause in the order of first occurrence.
fn own_numbers(alloc: Global, bank: &SharedBank, clause: &Clause) -> Result<Vec<u32>, AllocError>
    requires { IsClauseIn bank.now clause.now }
    ensures { IfOk result (λ numbers. numbers.items ≡
        distinct nat_eq (clause_variables (clause_at bank.now clause.now))) }
{
    let numbers = variables_of(alloc, bank, &clause.concl, &clause.hyps.items)?;
    distinct_of(alloc, numbers)
}

/// What the variable of that number stands for; none where that is over the limit of size. On `Err` the bank may have grown.
fn own_term(bank: &mut SharedBank, met: &Met, number: u32) -> Result<Option<Id>, AllocError>
    requires { IsReady bank.old met.now.binds.pairs }
    ensures grows { Grows bank.old bank.new }
    ensures term { let term = resolved (seen bank.old met.now.binds.pairs) number in
        IfOk result (λ found. MatchOption found (is_large_term term ≡ true)
        (λ id. (is_large_term term ≡ false) × Names bank.new id term)) }
{
    bindings_outlast_growth();
    let variable = bank.var(number)?;
    apply_bound(bank, variable, &met.binds, MOST_SYMBOLS)
}

/// What each variable of a clause stands for, in the order of first occurrence, where the clause's variables were raised by so much;
/// none where one of the terms is over the limit of size. The bank may have grown.
fn own_terms(
    alloc: Global,
    bank: &mut SharedBank,
    clause: &Clause,
    met: &Met,
    raised: u32,
) -> Result<Option<Ids>, AllocError>
    requires clause { IsClauseIn bank.old clause.now }
    requires low { AreBelow most_symbols (clause_terms (clause_at bank.old clause.now)) }
    requires raised { raised ≤ most_symbols }
    requires ready { IsReady bank.old met.now.binds.pairs }
    ensures grows { Grows bank.old bank.new }
    ensures terms { IfOk result (λ found. AreOwnTerms bank.new
        (own_terms_of bank.old met.now (clause_at bank.old clause.now) raised) found) }
{
    bindings_outlast_growth();
    let numbers = own_numbers(alloc, bank, clause)?;
    let mut items = Vec::with_capacity(alloc, numbers.len())?;
    'each: for number in &numbers {
        match own_term(bank, met, *number + raised)? {
            None => return Ok(None),
            Some(term) => items.push(term)?,
        }
    }
    Ok(Some(Ids { items }))
}

/// The descent with these terms, and these variables before those of the terms.
fn told(
    alloc: Global,
    bank: &SharedBank,
    kept: Vec<u32>,
    lefts: &Ids,
    rights: &Ids,
) -> Result<Descent, AllocError>
    requires lefts { AreKnown bank.now lefts.now }
    requires rights { AreKnown bank.now rights.now }
    ensures variables { IfOk result (λ found. found.variables.items ≡ kept.items ++
        (flat_map leaves (map (tree_at bank.now) lefts.now) ++
        flat_map leaves (map (tree_at bank.now) rights.now))) }
    ensures lefts { IfOk result (λ found. found.lefts ≡ map (tree_at bank.now) lefts.now) }
    ensures rights { IfOk result (λ found. found.rights ≡ map (tree_at bank.now) rights.now) }
{
    let mut variables = kept;
    add_terms_variables(bank, &lefts.items, &mut variables)?;
    add_terms_variables(bank, &rights.items, &mut variables)?;
    let lefts = read_trees(alloc, bank, &lefts.items)?;
    let rights = read_trees(alloc, bank, &rights.items)?;
    Ok(Descent {
        variables,
        lefts,
        rights,
    })
}

/// How the part of that number comes of two clauses that met; none where it doesn't, or where a term is over the limit of size. The
/// bank may have grown.
fn descent_of(
    alloc: Global,
    bank: &mut SharedBank,
    parents: Parents<'_>,
    number: usize,
) -> Result<Option<Descent>, AllocError>
    requires solved { IsClauseIn bank.old parents.solved.now }
    requires solved_low { HasLowVariables bank.old parents.solved.now }
    requires unsolved { IsClauseIn bank.old parents.unsolved.now }
    requires unsolved_low { HasLowVariables bank.old parents.unsolved.now }
    requires met { IsMet bank.old (clause_at bank.old parents.solved.now)
        (clause_at bank.old parents.unsolved.now) parents.met.now }
    ensures grows { Grows bank.old bank.new }
    ensures descends { IfOk result (λ found. IsDescentOf
        (meeting_at bank.old (clause_at bank.old parents.entry.solved.now)
        (clause_at bank.old parents.entry.unsolved.now) parents.entry.met.now) number found) }
{
    let met = parents.met;
    let Some(kept) = kept_of(alloc, bank, &met.raw, number)? else {
        return Ok(None);
    };
    let Some(lefts) = own_terms(alloc, bank, parents.solved, met, 0)? else {
        return Ok(None);
    };
    let Some(rights) = own_terms(alloc, bank, parents.unsolved, met, MOST_SYMBOLS as u32)? else {
        return Ok(None);
    };
    let found = told(alloc, bank, kept, &lefts, &rights)?;
    Ok(Some(found))
}

/// How the two clauses meet; none where the one isn't solved, where the other is, where there is no unifier, or where the raw
/// resolvent is over the limit of size. The bank may have grown.
fn met_of(
    alloc: Global,
    bank: &mut SharedBank,
    solved: &Clause,
    unsolved: &Clause,
) -> Result<Option<Met>, AllocError>
    requires solved { IsClauseIn bank.old solved.now }
    requires solved_low { HasLowVariables bank.old solved.now }
    requires unsolved { IsClauseIn bank.old unsolved.now }
    requires unsolved_low { HasLowVariables bank.old unsolved.now }
    requires small { IsWithinLimit (clause_at bank.old unsolved.now) }
    ensures grows { Grows bank.old bank.new }
    ensures meets { IfOk result (λ found. IsMeetingBy bank.new
        (clause_at bank.old solved.now) (clause_at bank.old unsolved.now) found) }
{
    what_is_apart_outlasts_growth();
    if !are_solved(bank, &solved.hyps.items) {
        return Ok(None);
    }
    let Some(at) = selected(bank, unsolved) else {
        return Ok(None);
    };
    let apart = set_apart(alloc, bank, unsolved, at)?;
    meet(alloc, bank, solved, &apart)
}

/// How the resolvent of that number comes from the two clauses; none where it doesn't, or where a term is over the limit of size. The
/// bank may have grown.
fn descent_between(
    alloc: Global,
    bank: &mut SharedBank,
    solved: &Clause,
    unsolved: &Clause,
    number: usize,
) -> Result<Option<Descent>, AllocError>
    requires solved { IsClauseIn bank.old solved.now }
    requires solved_low { HasLowVariables bank.old solved.now }
    requires unsolved { IsClauseIn bank.old unsolved.now }
    requires unsolved_low { HasLowVariables bank.old unsolved.now }
    requires small { IsWithinLimit (clause_at bank.old unsolved.now) }
    ensures grows { Grows bank.old bank.new }
    ensures descends { IfOk result (λ found. DescendsBy (clause_at bank.old solved.now)
        (clause_at bank.old unsolved.now) number found) }
{
    let Some(met) = met_of(alloc, bank, solved, unsolved)? else {
        return Ok(None);
    };
    let parents = Parents {
        solved,
        unsolved,
        met: &met,
    };
    descent_of(alloc, bank, parents, number)
}

/// The same of an unsolved clause that isn't over ids of the bank yet.
fn descent_beside(
    alloc: Global,
    bank: &mut SharedBank,
    solved: &Clause,
    unsolved: &PlainClause,
    number: usize,
) -> Result<Option<Descent>, AllocError>
    requires solved { IsClauseIn bank.old solved.now }
    requires solved_low { HasLowVariables bank.old solved.now }
    requires unsolved { IsNormal unsolved.now × IsWithinLimit unsolved.now }
    ensures grows { Grows bank.old bank.new }
    ensures descends { IfOk result (λ found. DescendsBy (clause_at bank.old solved.now)
        unsolved.now number found) }
{
    let right = copied(alloc, bank, unsolved)?;
    descent_between(alloc, bank, solved, &right, number)
}

/// The same of two clauses that aren't over ids of the bank yet.
fn descent_grown(
    alloc: Global,
    bank: &mut SharedBank,
    solved: &PlainClause,
    unsolved: &PlainClause,
    number: usize,
) -> Result<Option<Descent>, AllocError>
    requires solved { IsNormal solved.now × IsWithinLimit solved.now }
    requires unsolved { IsNormal unsolved.now × IsWithinLimit unsolved.now }
    ensures grows { Grows bank.old bank.new }
    ensures descends { IfOk result (λ found. DescendsBy solved.now unsolved.now number found) }
{
    let left = copied(alloc, bank, solved)?;
    descent_beside(alloc, bank, &left, unsolved, number)
}

/// The same; the bank is as before.
fn how_descends(
    alloc: Global,
    scratch: &mut SharedBank,
    solved: &PlainClause,
    unsolved: &PlainClause,
    number: usize,
) -> Result<Option<Descent>, AllocError>
    requires solved { IsNormal solved.now × IsWithinLimit solved.now }
    requires unsolved { IsNormal unsolved.now × IsWithinLimit unsolved.now }
    ensures scratch { scratch.new ≡ scratch.old }
    ensures descends { IfOk result (λ found. DescendsBy solved.now unsolved.now number found) }
{
    let mark = scratch.mark();
    let found = descent_grown(alloc, scratch, solved, unsolved, number);
    scratch.back(mark);
    found
}

/// The numbers of a resolvent, of its solved parent and of its unsolved one.
#[derive(Clone, Copy)]
pub(crate) struct Descends {
    pub number: usize,
    pub solved: usize,
    pub unsolved: usize,
}

/// The terms of both parents, closed, where the first variables get the given terms, and each further one the next name, from the
/// number on, which becomes that of the next name; none where one of them is over the limit of size. On `Err` the bank may have grown.
fn closed_parents(
    alloc: Global,
    bank: &mut SharedBank,
    found: Descent,
    given: &[Id],
    number: &mut u32,
) -> Result<Option<(Ids, Ids)>, AllocError>
    requires { AreKnown bank.old given.now }
    ensures grows { Grows bank.old bank.new }
    ensures known { IfOk result (λ both. AreBothIn bank.new both) }
    ensures closed { IfOk result (λ both. AreClosed bank.new
        (closing_of (map (tree_at bank.old) given.now) number.old found.variables.items)
        found.lefts found.rights both) }
    ensures next { OnOk result (number.new ≡ next_after
        (map (tree_at bank.old) given.now) number.old found.variables.items) }
{
    let Descent {
        variables,
        lefts,
        rights,
    } = found;
    let closing = Closing::new(alloc, bank, variables, given, number)?;
    closing.both_closed(alloc, bank, &lefts, &rights)
}

/// The parents of a resolvent with the pending terms, the solved one first; none where it isn't one of theirs, or where a term is
/// over the limit of size. On `Err` the bank may have grown.
pub(crate) fn parents_of(
    derivation: &Derivation<'_>,
    expansion: &mut Expansion,
    bank: &mut SharedBank,
    pending: &Pending,
    descends: Descends,
) -> Result<Option<(Pending, Pending)>, AllocError>
    requires known { AreKnown bank.old pending.now.terms }
    requires normed { HasNormedLog derivation.now.log.now }
    ensures scratch { expansion.new.scratch ≡ expansion.old.scratch }
    ensures grows { Grows bank.old bank.new }
    ensures known { IfOk result (λ found. AreParentsIn bank.new found) }
    ensures parents { (log : List Entry) → TellPlainLog derivation.now.log.now log →
        IsResolvedAt log (pending_at bank.old pending.now) descends →
        IfOk result (λ found. AreParentsOf bank.new log (pending_at bank.old pending.now)
        expansion.old.next found expansion.new.next) }
{
    let alloc = derivation.alloc;
    let Expansion { scratch, next } = expansion;
    let Some(solved) = entry(derivation, descends.solved) else {
        return Ok(None);
    };
    let Some(unsolved) = entry(derivation, descends.unsolved) else {
        return Ok(None);
    };
    let Some(found) = how_descends(
        alloc,
        scratch,
        &solved.clause,
        &unsolved.clause,
        descends.number,
    )?
    else {
        return Ok(None);
    };
    let terms = &pending.terms;
    let Some((first, second)) = closed_parents(alloc, bank, found, &terms.items, next)? else {
        return Ok(None);
    };
    let left = Pending {
        number: descends.solved,
        terms: first,
    };
    let right = Pending {
        number: descends.unsolved,
        terms: second,
    };
    Ok(Some((left, right)))
}
