//! Whether many facts are different, by marks for their keys, which take no memory: a fact whose key has no mark is
//! none of those that were marked.

ghost use Rattle.std.specs.Prelude.{◌≡◌, map};
ghost use Rattle.spec_clauses.specs.Fact.{is_among as is_among_facts};
ghost use Rattle.clause_form.specs.Facts.{fact_of};
ghost use Rattle.clause_form.specs.Seen.{fact_at, IsFactIn, AreFactsIn};
ghost use Rattle.clause_form.specs.Keys.{fact_key};
ghost use Rattle.clause_form.specs.Marks.{is_marked as is_marked_key, marked, HaveMarks};
ghost use Rattle.clause_form.specs.Normality.{are_different};

use crate::facts::Fact;
use crate::keys::{key_of_fact, mixed};
use crate::same::is_among;
use term_tree::Bank;

/// So many places can be marked.
const PLACES: usize = 32768;

/// Whether both places of a key are marked.
fn is_marked(marks: &[bool; PLACES], key: u64) -> bool
    ensures { result ≡ is_marked_key marks.now key }
{
    let spread = mixed(key, 0);
    marks[(spread >> 49) as usize] && marks[(spread >> 34) as usize % PLACES]
}

/// Marks both places of a key.
fn mark(marks: &mut [bool; PLACES], key: u64)
    ensures { marks.new ≡ marked marks.old key }
{
    let spread = mixed(key, 0);
    marks[(spread >> 49) as usize] = true;
    marks[(spread >> 34) as usize % PLACES] = true;
}

/// Whether a fact with this key is among facts whose keys are marked.
fn is_among_marked<B: Bank>(
    bank: &B,
    facts: &[Fact],
    marks: &[bool; PLACES],
    key: u64,
    fact: &Fact,
) -> bool
    requires facts { AreFactsIn (B.trees bank.now) (map fact_of facts.now) }
    requires fact { IsFactIn (B.trees bank.now) (fact_of fact.now) }
    requires marked { HaveMarks (map (fact_at (B.trees bank.now)) (map fact_of facts.now))
        marks.now }
    requires key { key ≡ fact_key (fact_at (B.trees bank.now) (fact_of fact.now)) }
    ensures { result ≡ is_among_facts (map (fact_at (B.trees bank.now)) (map fact_of facts.now))
        (fact_at (B.trees bank.now) (fact_of fact.now)) }
{
    is_marked(marks, key) && is_among(bank, facts, fact)
}

/// Whether no fact of many is the same as a later one.
pub(crate) fn are_many_different<B: Bank>(bank: &B, facts: &[Fact]) -> bool
    requires { AreFactsIn (B.trees bank.now) (map fact_of facts.now) }
    ensures { result ≡ are_different (map (fact_at (B.trees bank.now))
        (map fact_of facts.now)) }
{
    let mut marks = [false; PLACES];
    let mut i = facts.len();
    'each: while i > 0 {
        let later = &facts[i..];
        i -= 1;
        let fact = &facts[i];
        let key = key_of_fact(bank, fact);
        if is_among_marked(bank, later, &marks, key, fact) {
            return false;
        }
        mark(&mut marks, key);
    }
    true
}
