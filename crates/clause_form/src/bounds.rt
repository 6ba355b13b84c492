//! The numbers of a clause's variables: what sets the variables of two clauses apart.

ghost use Rattle.std.specs.Prelude.{◌≡◌, ℕ, ◌<◌, ◌≤◌, max, length, map, flat_map};
ghost use Rattle.spec_clauses.specs.Fact.{clause_terms};
ghost use Rattle.spec_clauses.specs.Variables.{leaves, fact_variables, AreBelow};
ghost use Rattle.term_tree.specs.Bank.{tree_at, AreKnown};
ghost use Rattle.clause_form.specs.Facts.{fact_of};
ghost use Rattle.clause_form.specs.Bounds.{above};
ghost use Rattle.clause_form.specs.Seen.{fact_at, clause_at, IsFactIn, AreFactsIn, IsClauseIn};

use crate::facts::{Clause, Fact};
use term_tree::{Bank, Id, Node};

/// The greater of a number and the least number above the variables of a term.
fn above_term<B: Bank>(bank: &B, id: Id, least: u64) -> u64
    requires { id.index < length (B.trees bank.now) }
    ensures { result ≡ max least (above (leaves (tree_at (B.trees bank.now) id))) }
{
    match bank.node(id) {
        Node::Var(number) => least.max(u64::from(number) + 1),
        Node::App(_, arguments) => {
            let mut found = least;
            'each: for argument in arguments {
                found = above_term(bank, *argument, found);
            }
            found
        }
    }
}

/// The same of terms.
fn above_terms<B: Bank>(bank: &B, terms: &[Id], least: u64) -> u64
    requires { AreKnown (B.trees bank.now) terms.now }
    ensures { result ≡ max least (above (flat_map leaves
        (map (tree_at (B.trees bank.now)) terms.now))) }
{
    let mut found = least;
    for term in terms {
        found = above_term(bank, *term, found);
    }
    found
}

/// The same of a fact.
fn above_fact<B: Bank>(bank: &B, fact: &Fact, least: u64) -> u64
    requires { IsFactIn (B.trees bank.now) (fact_of fact.now) }
    ensures { result ≡ max least (above (fact_variables
        (fact_at (B.trees bank.now) (fact_of fact.now)))) }
{
    let terms = fact.terms();
    above_terms(bank, terms.as_slice(), least)
}

/// The same of facts.
fn above_facts<B: Bank>(bank: &B, facts: &[Fact], least: u64) -> u64
    requires { AreFactsIn (B.trees bank.now) (map fact_of facts.now) }
    ensures { result ≡ max least (above (flat_map fact_variables
        (map (fact_at (B.trees bank.now)) (map fact_of facts.now)))) }
{
    let mut found = least;
    for fact in facts {
        found = above_fact(bank, fact, found);
    }
    found
}

/// The least number above all variables of a clause's facts: 0 where they have none. Takes no memory.
pub fn above_variables<B: Bank>(bank: &B, clause: &Clause) -> u64
    requires { IsClauseIn (B.trees bank.now) clause.now }
    ensures below { AreBelow result (clause_terms (clause_at (B.trees bank.now) clause.now)) }
    ensures least { (n : ℕ) → AreBelow n (clause_terms (clause_at (B.trees bank.now) clause.now)) →
        result ≤ n }
{
    let found = above_fact(bank, &clause.concl, 0);
    above_facts(bank, &clause.hyps.items, found)
}
