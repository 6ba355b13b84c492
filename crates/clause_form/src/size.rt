//! Sizes of facts and of clauses.

ghost use Rattle.std.specs.Prelude.{◌≡◌, map};
ghost use Rattle.spec_clauses.specs.Fact.{total, fact_size, clause_size};
ghost use Rattle.term_tree.specs.Bank.{capped};
ghost use Rattle.clause_form.specs.Facts.{fact_of};
ghost use Rattle.spec_clauses.specs.Head.{head_size};
ghost use Rattle.clause_form.specs.Heads.{head_seen};
ghost use Rattle.clause_form.specs.Seen.{fact_at, clause_at, IsFactIn, AreFactsIn, IsClauseIn};

use crate::facts::{Clause, Fact};
use crate::heads::Head;
use clause_diffs::{add_symbols, size_of_diffs, size_of_terms};
use term_tree::Bank;

/// The symbols of a head: its predicate, and the name of a table or an event.
pub fn head_symbols(head: Head) -> u64
    ensures { result ≡ head_size (head_seen head) }
{
    match head {
        Head::Att(_) | Head::Mess(_) | Head::Bad => 1,
        Head::Tab(_) | Head::Ev(_) | Head::Mev(_) => 2,
    }
}

/// The size of a fact, or `SIZE_LIMIT` where it is greater. Takes no memory.
pub fn size_of_fact<B: Bank>(bank: &B, fact: &Fact) -> u64
    requires { IsFactIn (B.trees bank.now) (fact_of fact.now) }
    ensures { result ≡ capped (fact_size (fact_at (B.trees bank.now) (fact_of fact.now))) }
{
    let terms = fact.terms();
    add_symbols(
        head_symbols(fact.head()),
        size_of_terms(bank, terms.as_slice()),
    )
}

/// The size of facts together.
fn size_of_facts<B: Bank>(bank: &B, facts: &[Fact]) -> u64
    requires { AreFactsIn (B.trees bank.now) (map fact_of facts.now) }
    ensures { result ≡ capped (total fact_size
        (map (fact_at (B.trees bank.now)) (map fact_of facts.now))) }
{
    let mut symbols = 0u64;
    for fact in facts {
        symbols = add_symbols(symbols, size_of_fact(bank, fact));
    }
    symbols
}

/// The size of a clause: one for each predicate, table, event, constraint, symbol and occurrence of a variable, or
/// `SIZE_LIMIT` where it is greater. Takes no memory.
pub fn size_of<B: Bank>(bank: &B, clause: &Clause) -> u64
    requires { IsClauseIn (B.trees bank.now) clause.now }
    ensures { result ≡ capped (clause_size (clause_at (B.trees bank.now) clause.now)) }
{
    let symbols = size_of_fact(bank, &clause.concl);
    let facts = add_symbols(symbols, size_of_facts(bank, &clause.hyps.items));
    add_symbols(facts, size_of_diffs(bank, &clause.diffs.items))
}
