//! Which variables stand in a clause besides its hypotheses `att` of a variable: noted in a table of the caller's, or
//! looked for one by one. Neither takes memory.

ghost use Rattle.std.specs.Prelude.{◌≡◌, ◌<◌, nat_eq, length, map, flat_map};
ghost use Rattle.std.specs.List.{list_any};
ghost use Rattle.spec_clauses.specs.Norm.{elsewhere};
ghost use Rattle.spec_clauses.specs.Variables.{leaves, fact_variables, firm_variables};
ghost use Rattle.term_tree.specs.Bank.{tree_at, AreKnown};
ghost use Rattle.clause_form.specs.Facts.{fact_of};
ghost use Rattle.clause_form.specs.Seen.{fact_at, clause_at, IsFactIn, AreFactsIn, IsClauseIn};
ghost use Rattle.clause_form.specs.Standing.{noted_one, noted, firm_numbers};

use crate::facts::{Clause, Fact};
use crate::selectable::is_variable_known;
use term_tree::{Bank, Id, Node};

/// Notes a variable, where the table has a place for it.
fn note_variable(number: u32, table: &mut [bool])
    ensures { table.new ≡ noted_one table.old number }
{
    let place = number as usize;
    if place < table.len() {
        table[place] = true;
    }
}

/// Notes the variables of a term.
fn note_in_term<B: Bank>(bank: &B, id: Id, table: &mut [bool])
    requires { id.index < length (B.trees bank.now) }
    ensures { table.new ≡ noted table.old (leaves (tree_at (B.trees bank.now) id)) }
{
    match bank.node(id) {
        Node::Var(number) => note_variable(number, table),
        Node::App(_, arguments) => {
            'each: for argument in arguments {
                note_in_term(bank, *argument, table);
            }
        }
    }
}

/// The same of terms.
fn note_in_terms<B: Bank>(bank: &B, terms: &[Id], table: &mut [bool])
    requires { AreKnown (B.trees bank.now) terms.now }
    ensures { table.new ≡ noted table.old (flat_map leaves
        (map (tree_at (B.trees bank.now)) terms.now)) }
{
    for term in terms {
        note_in_term(bank, *term, table);
    }
}

/// The same of a fact.
fn note_in_fact<B: Bank>(bank: &B, fact: &Fact, table: &mut [bool])
    requires { IsFactIn (B.trees bank.now) (fact_of fact.now) }
    ensures { table.new ≡ noted table.old (fact_variables
        (fact_at (B.trees bank.now) (fact_of fact.now))) }
{
    let terms = fact.terms();
    note_in_terms(bank, terms.as_slice(), table)
}

/// The same of a hypothesis, unless it is `att` of a variable.
fn note_in_firm<B: Bank>(bank: &B, fact: &Fact, table: &mut [bool])
    requires { IsFactIn (B.trees bank.now) (fact_of fact.now) }
    ensures { table.new ≡ noted table.old (firm_numbers
        (fact_at (B.trees bank.now) (fact_of fact.now))) }
{
    if !is_variable_known(bank, fact) {
        note_in_fact(bank, fact, table);
    }
}

/// The same of hypotheses.
fn note_in_hypotheses<B: Bank>(bank: &B, facts: &[Fact], table: &mut [bool])
    requires { AreFactsIn (B.trees bank.now) (map fact_of facts.now) }
    ensures { table.new ≡ noted table.old (firm_variables
        (map (fact_at (B.trees bank.now)) (map fact_of facts.now))) }
{
    for fact in facts {
        note_in_firm(bank, fact, table);
    }
}

/// The same of a clause.
pub(crate) fn note_elsewhere<B: Bank>(bank: &B, clause: &Clause, table: &mut [bool])
    requires { IsClauseIn (B.trees bank.now) clause.now }
    ensures { table.new ≡ noted table.old (elsewhere (clause_at (B.trees bank.now) clause.now)) }
{
    note_in_fact(bank, &clause.concl, table);
    note_in_hypotheses(bank, &clause.hyps.items, table);
}

/// Whether a variable stands in a term.
fn stands_in_term<B: Bank>(bank: &B, number: u32, id: Id) -> bool
    requires { id.index < length (B.trees bank.now) }
    ensures { result ≡ list_any (nat_eq number) (leaves (tree_at (B.trees bank.now) id)) }
{
    match bank.node(id) {
        Node::Var(other) => number == other,
        Node::App(_, arguments) => {
            'each: for argument in arguments {
                if stands_in_term(bank, number, *argument) {
                    return true;
                }
            }
            false
        }
    }
}

/// The same of terms.
fn stands_in_terms<B: Bank>(bank: &B, number: u32, terms: &[Id]) -> bool
    requires { AreKnown (B.trees bank.now) terms.now }
    ensures { result ≡ list_any (nat_eq number) (flat_map leaves
        (map (tree_at (B.trees bank.now)) terms.now)) }
{
    for term in terms {
        if stands_in_term(bank, number, *term) {
            return true;
        }
    }
    false
}

/// The same of a fact.
fn stands_in_fact<B: Bank>(bank: &B, number: u32, fact: &Fact) -> bool
    requires { IsFactIn (B.trees bank.now) (fact_of fact.now) }
    ensures { result ≡ list_any (nat_eq number) (fact_variables
        (fact_at (B.trees bank.now) (fact_of fact.now))) }
{
    let terms = fact.terms();
    stands_in_terms(bank, number, terms.as_slice())
}

/// The same of a hypothesis; it is false of `att` of a variable.
fn stands_in_firm<B: Bank>(bank: &B, number: u32, fact: &Fact) -> bool
    requires { IsFactIn (B.trees bank.now) (fact_of fact.now) }
    ensures { result ≡ list_any (nat_eq number) (firm_numbers
        (fact_at (B.trees bank.now) (fact_of fact.now))) }
{
    if is_variable_known(bank, fact) {
        return false;
    }
    stands_in_fact(bank, number, fact)
}

/// The same of hypotheses.
pub(crate) fn stands_in_hypotheses<B: Bank>(bank: &B, number: u32, facts: &[Fact]) -> bool
    requires { AreFactsIn (B.trees bank.now) (map fact_of facts.now) }
    ensures { result ≡ list_any (nat_eq number) (firm_variables
        (map (fact_at (B.trees bank.now)) (map fact_of facts.now))) }
{
    for fact in facts {
        if stands_in_firm(bank, number, fact) {
            return true;
        }
    }
    false
}

/// The same of a clause.
pub(crate) fn stands_elsewhere<B: Bank>(bank: &B, number: u32, clause: &Clause) -> bool
    requires { IsClauseIn (B.trees bank.now) clause.now }
    ensures { result ≡ list_any (nat_eq number) (elsewhere
        (clause_at (B.trees bank.now) clause.now)) }
{
    if stands_in_fact(bank, number, &clause.concl) {
        return true;
    }
    stands_in_hypotheses(bank, number, &clause.hyps.items)
}
