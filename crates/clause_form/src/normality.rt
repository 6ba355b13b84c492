//! Whether a clause is its own norm: it is flat, and each rule of the norm leaves it as it is.

ghost use Rattle.std.specs.Prelude.{◌≡◌, ◌↔◌, ◌<◌, true, not, nat_eq, length, map, flat_map, Some, IsTrue, IfOk};
ghost use Rattle.std.specs.List.{count_by, list_any, list_all};
ghost use Rattle.spec_clauses.specs.Fact.{is_variable_known as is_variable_known_fact, phase_of};
ghost use Rattle.spec_clauses.specs.Flat.{is_flat as is_flat_fact, is_flat_clause as is_flat_clause_of};
ghost use Rattle.spec_clauses.specs.Norm.{elsewhere, is_lonely as is_lonely_fact, without_lonely, everything_known, generalized};
ghost use Rattle.spec_clauses.specs.Norm.{without_needless, without_repeats, is_tautology as is_tautology_of, tidied, IsNormal};
ghost use Rattle.spec_clauses.specs.Variables.{leaves, fact_variables};
ghost use Rattle.term_tree.specs.Bank.{tree_at, AreKnown};
ghost use Rattle.clause_form.specs.Facts.{fact_of};
ghost use Rattle.clause_form.specs.Seen.{fact_at, clause_at, IsFactIn, AreFactsIn, IsClauseIn};
ghost use Rattle.clause_form.specs.Normality.{are_different as are_different_facts, number_after, numbers_after};
ghost use Rattle.clause_form.specs.Normality.{unconstrained, AreFactsNumbered, KeepsItsFacts, KeepsItsVariables, KeepsItsDiffs};
ghost use Rattle.clause_form.specs.Standing.{TellsNumbers};

use crate::anchors::anchors_of;
use crate::facts::{Clause, Fact};
use crate::flat::is_data_symbol;
use crate::marks::are_many_different;
use crate::normal::is_general;
use crate::same::is_among;
use crate::selectable::is_variable_known;
use crate::standing::{note_elsewhere, stands_elsewhere};
use clause_diffs::{Counts, are_needed, are_tidied, is_void};
use limits::MOST_SYMBOLS;
use std::alloc::{AllocError, Global};
use term_tree::{Bank, Id, Node};

/// So many hypotheses are marked by their keys.
const MARKED: usize = 32;

/// The variables are noted in a table where so many hypotheses are `att` of one.
const NOTED: usize = 4;

/// So many variables have a place in the table.
const PLACED: usize = MOST_SYMBOLS as usize;

/// Whether a fact is flat: no `att` of a data constructor or a tuple.
fn is_flat<B: Bank>(bank: &B, fact: &Fact) -> bool
    requires { IsFactIn (B.trees bank.now) (fact_of fact.now) }
    ensures { result ≡ is_flat_fact (fact_at (B.trees bank.now) (fact_of fact.now)) }
{
    match fact {
        Fact::Att(_, term) => match bank.node(*term) {
            Node::Var(_) => true,
            Node::App(symbol, _) => !is_data_symbol(symbol),
        },
        _ => true,
    }
}

/// Whether facts are flat.
fn are_flat<B: Bank>(bank: &B, facts: &[Fact]) -> bool
    requires { AreFactsIn (B.trees bank.now) (map fact_of facts.now) }
    ensures { result ≡ list_all is_flat_fact (map (fact_at (B.trees bank.now))
        (map fact_of facts.now)) }
{
    for fact in facts {
        if !is_flat(bank, fact) {
            return false;
        }
    }
    true
}

/// Whether a clause is flat.
fn is_flat_clause<B: Bank>(bank: &B, clause: &Clause) -> bool
    requires { IsClauseIn (B.trees bank.now) clause.now }
    ensures { result ≡ is_flat_clause_of (clause_at (B.trees bank.now) clause.now) }
{
    is_flat(bank, &clause.concl) && are_flat(bank, &clause.hyps.items)
}

/// Whether no fact is the same as a later one.
pub(crate) fn are_different<B: Bank>(bank: &B, facts: &[Fact]) -> bool
    requires { AreFactsIn (B.trees bank.now) (map fact_of facts.now) }
    ensures { result ≡ are_different_facts (map (fact_at (B.trees bank.now))
        (map fact_of facts.now)) }
{
    'each: for (i, fact) in facts.iter().enumerate() {
        if is_among(bank, &facts[i + 1..], fact) {
            return false;
        }
    }
    true
}

/// Whether no hypothesis stands twice.
fn has_no_repeats<B: Bank>(bank: &B, clause: &Clause) -> bool
    requires { IsClauseIn (B.trees bank.now) clause.now }
    ensures { (result ≡ true) ↔ (without_repeats (clause_at (B.trees bank.now) clause.now) ≡
        clause_at (B.trees bank.now) clause.now) }
{
    if clause.hyps.items.len() >= MARKED {
        return are_many_different(bank, &clause.hyps.items);
    }
    are_different(bank, &clause.hyps.items)
}

/// Whether the conclusion is among the hypotheses.
fn is_tautology<B: Bank>(bank: &B, clause: &Clause) -> bool
    requires { IsClauseIn (B.trees bank.now) clause.now }
    ensures { result ≡ is_tautology_of (clause_at (B.trees bank.now) clause.now) }
{
    is_among(bank, &clause.hyps.items, &clause.concl)
}

/// Whether a variable stands in the clause besides its hypotheses `att` of a variable. The table tells it of those that
/// it has a place for.
fn is_elsewhere<B: Bank>(bank: &B, clause: &Clause, table: &[bool], number: u32) -> bool
    requires clause { IsClauseIn (B.trees bank.now) clause.now }
    requires table { TellsNumbers table.now (elsewhere (clause_at (B.trees bank.now) clause.now)) }
    ensures { result ≡ list_any (nat_eq number) (elsewhere
        (clause_at (B.trees bank.now) clause.now)) }
{
    let place = number as usize;
    if place < table.len() {
        return table[place];
    }
    stands_elsewhere(bank, number, clause)
}

/// Whether the fact is `att` of a variable that stands in such hypotheses alone.
fn is_lonely<B: Bank>(bank: &B, clause: &Clause, table: &[bool], fact: &Fact) -> bool
    requires clause { IsClauseIn (B.trees bank.now) clause.now }
    requires table { TellsNumbers table.now (elsewhere (clause_at (B.trees bank.now) clause.now)) }
    requires fact { IsFactIn (B.trees bank.now) (fact_of fact.now) }
    ensures { result ≡ is_lonely_fact (elsewhere (clause_at (B.trees bank.now) clause.now))
        (fact_at (B.trees bank.now) (fact_of fact.now)) }
{
    match fact {
        Fact::Att(_, term) => match bank.node(*term) {
            Node::Var(number) => !is_elsewhere(bank, clause, table, number),
            Node::App(_, _) => false,
        },
        _ => false,
    }
}

/// Whether none of the facts is `att` of a variable that stands in such hypotheses alone.
fn none_lonely<B: Bank>(bank: &B, clause: &Clause, table: &[bool], facts: &[Fact]) -> bool
    requires clause { IsClauseIn (B.trees bank.now) clause.now }
    requires table { TellsNumbers table.now (elsewhere (clause_at (B.trees bank.now) clause.now)) }
    requires facts { AreFactsIn (B.trees bank.now) (map fact_of facts.now) }
    ensures { result ≡ list_all (λ h. not (is_lonely_fact
        (elsewhere (clause_at (B.trees bank.now) clause.now)) h))
        (map (fact_at (B.trees bank.now)) (map fact_of facts.now)) }
{
    for fact in facts {
        if is_lonely(bank, clause, table, fact) {
            return false;
        }
    }
    true
}

/// How many of the facts are `att` of a variable.
fn variables_known<B: Bank>(bank: &B, facts: &[Fact]) -> usize
    requires { AreFactsIn (B.trees bank.now) (map fact_of facts.now) }
    ensures { result ≡ count_by is_variable_known_fact (map (fact_at (B.trees bank.now))
        (map fact_of facts.now)) }
{
    let mut count = 0;
    for fact in facts {
        if is_variable_known(bank, fact) {
            count += 1;
        }
    }
    count
}

/// Whether no hypothesis says only that the attacker has something. The other variables are noted first.
fn has_none_lonely_noted<B: Bank>(bank: &B, clause: &Clause) -> bool
    requires { IsClauseIn (B.trees bank.now) clause.now }
    ensures { (result ≡ true) ↔ (without_lonely (clause_at (B.trees bank.now) clause.now) ≡
        clause_at (B.trees bank.now) clause.now) }
{
    let mut table = [false; PLACED];
    note_elsewhere(bank, clause, &mut table);
    none_lonely(bank, clause, &table, &clause.hyps.items)
}

/// Whether no hypothesis says only that the attacker has something.
fn has_none_lonely<B: Bank>(bank: &B, clause: &Clause) -> bool
    requires { IsClauseIn (B.trees bank.now) clause.now }
    ensures { (result ≡ true) ↔ (without_lonely (clause_at (B.trees bank.now) clause.now) ≡
        clause_at (B.trees bank.now) clause.now) }
{
    if variables_known(bank, &clause.hyps.items) >= NOTED {
        return has_none_lonely_noted(bank, clause);
    }
    none_lonely(bank, clause, &[], &clause.hyps.items)
}

/// Whether the fact is `att` of the variable 0, of whatever phase.
fn is_first_variable_known<B: Bank>(bank: &B, fact: &Fact) -> bool
    requires { IsFactIn (B.trees bank.now) (fact_of fact.now) }
    ensures { let seen = fact_at (B.trees bank.now) (fact_of fact.now) in
        (result ≡ true) ↔ (seen ≡ (everything_known (phase_of seen)).conclusion) }
{
    match fact {
        Fact::Att(_, term) => match bank.node(*term) {
            Node::Var(number) => number == 0,
            Node::App(_, _) => false,
        },
        _ => false,
    }
}

/// Whether a clause has no constraints.
fn is_unconstrained(clause: &Clause) -> bool
    ensures { result ≡ nat_eq (length clause.now.diffs) 0 }
{
    clause.diffs.items.is_empty()
}

/// Whether the facts of the clause say in the shortest form that the attacker has everything.
fn is_known_alone<B: Bank>(bank: &B, clause: &Clause) -> bool
    requires { IsClauseIn (B.trees bank.now) clause.now }
    ensures { let seen = clause_at (B.trees bank.now) clause.now in
        (result ≡ true) ↔ (unconstrained seen ≡ everything_known (phase_of seen.conclusion)) }
{
    clause.hyps.items.is_empty() && is_first_variable_known(bank, &clause.concl)
}

/// Whether the clause says in the shortest form that the attacker has everything.
fn is_everything_known<B: Bank>(bank: &B, clause: &Clause) -> bool
    requires { IsClauseIn (B.trees bank.now) clause.now }
    ensures { let seen = clause_at (B.trees bank.now) clause.now in
        (result ≡ true) ↔ (seen ≡ everything_known (phase_of seen.conclusion)) }
{
    is_unconstrained(clause) && is_known_alone(bank, clause)
}

/// Whether the clause doesn't say that the attacker has everything, or says it in the shortest form.
fn is_own_general<B: Bank>(bank: &B, clause: &Clause) -> bool
    requires { IsClauseIn (B.trees bank.now) clause.now }
    ensures { (result ≡ true) ↔ (generalized (clause_at (B.trees bank.now) clause.now) ≡
        clause_at (B.trees bank.now) clause.now) }
{
    !is_general(bank, &clause.concl, &clause.hyps.items) || is_everything_known(bank, clause)
}

/// The least number that hasn't occurred once this one comes next, if none is left out.
fn after_number(number: u32, next: Option<u64>) -> Option<u64>
    ensures { result ≡ number_after next number }
{
    let next = next?;
    let number = u64::from(number);
    if number == next {
        return Some(number + 1);
    }
    if number < next {
        return Some(next);
    }
    None
}

/// The same of the variables of a term.
fn after_term<B: Bank>(bank: &B, id: Id, next: Option<u64>) -> Option<u64>
    requires { id.index < length (B.trees bank.now) }
    ensures { result ≡ numbers_after next (leaves (tree_at (B.trees bank.now) id)) }
{
    match bank.node(id) {
        Node::Var(number) => after_number(number, next),
        Node::App(_, arguments) => {
            let mut found = next;
            'each: for argument in arguments {
                found = after_term(bank, *argument, found);
            }
            found
        }
    }
}

/// The same of terms.
fn after_terms<B: Bank>(bank: &B, terms: &[Id], next: Option<u64>) -> Option<u64>
    requires { AreKnown (B.trees bank.now) terms.now }
    ensures { result ≡ numbers_after next (flat_map leaves
        (map (tree_at (B.trees bank.now)) terms.now)) }
{
    let mut found = next;
    for term in terms {
        found = after_term(bank, *term, found);
    }
    found
}

/// The same of a fact.
fn after_fact<B: Bank>(bank: &B, fact: &Fact, next: Option<u64>) -> Option<u64>
    requires { IsFactIn (B.trees bank.now) (fact_of fact.now) }
    ensures { result ≡ numbers_after next (fact_variables
        (fact_at (B.trees bank.now) (fact_of fact.now))) }
{
    let terms = fact.terms();
    after_terms(bank, terms.as_slice(), next)
}

/// The same of facts.
fn after_facts<B: Bank>(bank: &B, facts: &[Fact], next: Option<u64>) -> Option<u64>
    requires { AreFactsIn (B.trees bank.now) (map fact_of facts.now) }
    ensures { result ≡ numbers_after next (flat_map fact_variables
        (map (fact_at (B.trees bank.now)) (map fact_of facts.now))) }
{
    let mut found = next;
    for fact in facts {
        found = after_fact(bank, fact, found);
    }
    found
}

/// Whether the variables of the facts are numbered from 0 by their first occurrence, the conclusion's first.
fn is_numbered<B: Bank>(bank: &B, clause: &Clause) -> bool
    requires { IsClauseIn (B.trees bank.now) clause.now }
    ensures { (result ≡ true) ↔ AreFactsNumbered (clause_at (B.trees bank.now) clause.now) }
{
    let first = after_fact(bank, &clause.concl, Some(0));
    after_facts(bank, &clause.hyps.items, first).is_some()
}

/// Whether the clause is flat, and says more than its hypotheses, none of which stands twice.
fn keeps_its_facts<B: Bank>(bank: &B, clause: &Clause) -> bool
    requires { IsClauseIn (B.trees bank.now) clause.now }
    ensures { (result ≡ true) ↔ KeepsItsFacts (clause_at (B.trees bank.now) clause.now) }
{
    is_flat_clause(bank, clause) && has_no_repeats(bank, clause) && !is_tautology(bank, clause)
}

/// Whether the rules that speak of the variables of facts leave the clause as it is.
fn keeps_its_variables<B: Bank>(bank: &B, clause: &Clause) -> bool
    requires { IsClauseIn (B.trees bank.now) clause.now }
    ensures { (result ≡ true) ↔ KeepsItsVariables (clause_at (B.trees bank.now) clause.now) }
{
    is_numbered(bank, clause) && is_own_general(bank, clause) && has_none_lonely(bank, clause)
}

/// Whether the rules that speak of facts leave the clause as it is.
fn keeps_facts_and_variables<B: Bank>(bank: &B, clause: &Clause) -> bool
    requires { IsClauseIn (B.trees bank.now) clause.now }
    ensures { let seen = clause_at (B.trees bank.now) clause.now in
        (result ≡ true) ↔ (KeepsItsFacts seen × KeepsItsVariables seen) }
{
    keeps_its_facts(bank, clause) && keeps_its_variables(bank, clause)
}

/// Whether each constraint is needed.
fn has_none_needless<B: Bank>(alloc: Global, bank: &B, clause: &Clause) -> Result<bool, AllocError>
    requires { IsClauseIn (B.trees bank.now) clause.now }
    ensures { let seen = clause_at (B.trees bank.now) clause.now in
        IfOk result (λ yes. IsTrue yes ↔ (without_needless seen ≡ seen)) }
{
    let numbers = anchors_of(alloc, bank, &clause.concl, &clause.hyps.items)?;
    let anchors = Counts::new(alloc, numbers)?;
    are_needed(alloc, bank, &anchors, &clause.diffs.items)
}

/// Whether each constraint is needed, with the variables that it binds numbered, and none stands twice.
fn keeps_needed_diffs<B: Bank>(alloc: Global, bank: &B, clause: &Clause) -> Result<bool, AllocError>
    requires { IsClauseIn (B.trees bank.now) clause.now }
    ensures { let seen = clause_at (B.trees bank.now) clause.now in
        IfOk result (λ yes. IsTrue yes ↔
        ((without_needless seen ≡ seen) × (tidied seen ≡ seen))) }
{
    if !has_none_needless(alloc, bank, clause)? {
        return Ok(false);
    }
    are_tidied(alloc, bank, &clause.diffs.items)
}

/// Whether the rules that speak of constraints leave the clause as it is. Takes no memory where it has none.
fn keeps_its_diffs<B: Bank>(alloc: Global, bank: &B, clause: &Clause) -> Result<bool, AllocError>
    requires { IsClauseIn (B.trees bank.now) clause.now }
    ensures { IfOk result (λ yes. IsTrue yes ↔
        KeepsItsDiffs (clause_at (B.trees bank.now) clause.now)) }
{
    if is_unconstrained(clause) {
        return Ok(true);
    }
    if is_void(alloc, bank, &clause.diffs.items)? {
        return Ok(false);
    }
    keeps_needed_diffs(alloc, bank, clause)
}

/// Whether a clause is its own norm, and flat. Takes no memory where it has no constraints.
///
/// `Err` comes only for want of memory.
pub fn is_normal<B: Bank>(alloc: Global, bank: &B, clause: &Clause) -> Result<bool, AllocError>
    requires { IsClauseIn (B.trees bank.now) clause.now }
    ensures { IfOk result (λ yes. IsTrue yes ↔ IsNormal (clause_at (B.trees bank.now) clause.now)) }
{
    if !keeps_facts_and_variables(bank, clause) {
        return Ok(false);
    }
    keeps_its_diffs(alloc, bank, clause)
}
