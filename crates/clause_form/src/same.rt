//! Whether facts are the same.

ghost use Rattle.std.specs.Prelude.{◌≡◌, ◌<◌, length, map};
ghost use Rattle.spec_clauses.specs.Fact.{same_term as is_same_tree, same_terms as are_same_trees, same_fact as is_same_fact, is_among as is_among_facts};
ghost use Rattle.term_tree.specs.Bank.{tree_at, AreKnown};
ghost use Rattle.clause_form.specs.Facts.{fact_of};
ghost use Rattle.clause_form.specs.Seen.{fact_at, IsFactIn, AreFactsIn};

use crate::facts::Fact;
use term_tree::{Bank, Id};

/// Whether two terms are the same.
fn is_same_term<B: Bank>(bank: &B, left: Id, right: Id) -> bool
    requires left { left.index < length (B.trees bank.now) }
    requires right { right.index < length (B.trees bank.now) }
    ensures { result ≡ is_same_tree (tree_at (B.trees bank.now) left)
        (tree_at (B.trees bank.now) right) }
{
    bank.same(left, right)
}

/// Whether two lists of terms are the same.
fn are_same_terms<B: Bank>(bank: &B, lefts: &[Id], rights: &[Id]) -> bool
    requires lefts { AreKnown (B.trees bank.now) lefts.now }
    requires rights { AreKnown (B.trees bank.now) rights.now }
    ensures { result ≡ are_same_trees (map (tree_at (B.trees bank.now)) lefts.now)
        (map (tree_at (B.trees bank.now)) rights.now) }
{
    if lefts.len() != rights.len() {
        return false;
    }
    'each: for (i, left) in lefts.iter().enumerate() {
        if !is_same_term(bank, *left, rights[i]) {
            return false;
        }
    }
    true
}

/// Whether two facts are the same. Takes no memory.
pub fn same_fact<B: Bank>(bank: &B, left: &Fact, right: &Fact) -> bool
    requires left { IsFactIn (B.trees bank.now) (fact_of left.now) }
    requires right { IsFactIn (B.trees bank.now) (fact_of right.now) }
    ensures { result ≡ is_same_fact (fact_at (B.trees bank.now) (fact_of left.now))
        (fact_at (B.trees bank.now) (fact_of right.now)) }
{
    let (lefts, rights) = (left.terms(), right.terms());
    left.head() == right.head() && are_same_terms(bank, lefts.as_slice(), rights.as_slice())
}

/// Whether a fact is among facts. Takes no memory.
pub fn is_among<B: Bank>(bank: &B, facts: &[Fact], fact: &Fact) -> bool
    requires facts { AreFactsIn (B.trees bank.now) (map fact_of facts.now) }
    requires fact { IsFactIn (B.trees bank.now) (fact_of fact.now) }
    ensures { result ≡ is_among_facts (map (fact_at (B.trees bank.now)) (map fact_of facts.now))
        (fact_at (B.trees bank.now) (fact_of fact.now)) }
{
    for one in facts {
        if same_fact(bank, fact, one) {
            return true;
        }
    }
    false
}
