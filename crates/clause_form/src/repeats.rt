//! Facts without those that are the same as an earlier one. Many facts are looked for by their keys.

ghost use Rattle.std.specs.Prelude.{◌≡◌, true, false, cond, None, [], ◌∷◌, ◌++◌, map, IfOk, OnOk};
ghost use Rattle.spec_clauses.specs.Fact.{same_fact as is_same_fact, is_among as is_among_facts};
ghost use Rattle.spec_clauses.specs.Norm.{distinct};
ghost use Rattle.clause_form.specs.Facts.{fact_of};
ghost use Rattle.clause_form.specs.Seen.{fact_at, IsFactIn, AreFactsIn, NameFacts};
ghost use Rattle.clause_form.specs.Tables.{HaveKeys};

use crate::facts::{Fact, Facts};
use crate::keys::key_of_fact;
use crate::normality::are_different;
use crate::same::{is_among, same_fact};
use std::alloc::{AllocError, Global};
use std::collections::HashMap;
use term_tree::Bank;

/// So many facts have a table.
const MANY: usize = 32;

/// Adds a copy of a fact that isn't there.
fn add_new<B: Bank>(
    alloc: Global,
    bank: &B,
    facts: &mut Facts,
    fact: &Fact,
) -> Result<(), AllocError>
    requires facts { AreFactsIn (B.trees bank.now) facts.old }
    requires fact { IsFactIn (B.trees bank.now) (fact_of fact.now) }
    ensures { OnOk result (facts.new ≡ cond (is_among_facts
        (map (fact_at (B.trees bank.now)) facts.old)
        (fact_at (B.trees bank.now) (fact_of fact.now))) facts.old
        (facts.old ++ fact_of fact.now ∷ [])) }
{
    if is_among(bank, &facts.items, fact) {
        return Ok(());
    }
    let copied = fact.copy(alloc)?;
    facts.push(copied)?;
    Ok(())
}

/// Copies of the facts, of those that are the same the first.
fn each_once<B: Bank>(alloc: Global, bank: &B, facts: &[Fact]) -> Result<Facts, AllocError>
    requires { AreFactsIn (B.trees bank.now) (map fact_of facts.now) }
    ensures { IfOk result (λ kept. NameFacts (B.trees bank.now) kept
        (distinct is_same_fact (map (fact_at (B.trees bank.now)) (map fact_of facts.now)))) }
{
    let mut kept = Facts::new(alloc);
    for fact in facts {
        add_new(alloc, bank, &mut kept, fact)?;
    }
    Ok(kept)
}

/// Whether a fact is the one at a place.
fn is_at<B: Bank>(bank: &B, facts: &[Fact], place: usize, fact: &Fact) -> bool
    requires facts { AreFactsIn (B.trees bank.now) (map fact_of facts.now) }
    requires fact { IsFactIn (B.trees bank.now) (fact_of fact.now) }
    ensures { result ≡ true → is_among_facts (map (fact_at (B.trees bank.now))
        (map fact_of facts.now)) (fact_at (B.trees bank.now) (fact_of fact.now)) ≡ true }
{
    if place < facts.len() {
        return same_fact(bank, fact, &facts[place]);
    }
    false
}

/// Whether a fact is among facts. It is not where no place is told for its key.
fn is_among_placed<B: Bank>(bank: &B, facts: &[Fact], place: Option<usize>, fact: &Fact) -> bool
    requires facts { AreFactsIn (B.trees bank.now) (map fact_of facts.now) }
    requires fact { IsFactIn (B.trees bank.now) (fact_of fact.now) }
    requires absent { place ≡ None → is_among_facts
        (map (fact_at (B.trees bank.now)) (map fact_of facts.now))
        (fact_at (B.trees bank.now) (fact_of fact.now)) ≡ false }
    ensures { result ≡ is_among_facts (map (fact_at (B.trees bank.now)) (map fact_of facts.now))
        (fact_at (B.trees bank.now) (fact_of fact.now)) }
{
    match place {
        Some(at) => {
            if is_at(bank, facts, at, fact) {
                return true;
            }
            is_among(bank, facts, fact)
        }
        None => false,
    }
}

/// Adds a copy of a fact that isn't there, with its place for its key.
fn add_placed<B: Bank>(
    alloc: Global,
    bank: &B,
    facts: &mut Facts,
    places: &mut HashMap<u64, usize>,
    fact: &Fact,
) -> Result<(), AllocError>
    requires facts { AreFactsIn (B.trees bank.now) facts.old }
    requires fact { IsFactIn (B.trees bank.now) (fact_of fact.now) }
    requires keyed { HaveKeys (B.trees bank.now) facts.old places.old }
    ensures added { OnOk result (facts.new ≡ cond
        (is_among_facts (map (fact_at (B.trees bank.now)) facts.old)
        (fact_at (B.trees bank.now) (fact_of fact.now))) facts.old
        (facts.old ++ fact_of fact.now ∷ [])) }
    ensures keyed { OnOk result (HaveKeys (B.trees bank.now) facts.new places.new) }
{
    let key = key_of_fact(bank, fact);
    let place = places.get(&key).copied();
    if is_among_placed(bank, &facts.items, place, fact) {
        return Ok(());
    }
    let at = facts.items.len();
    let copied = fact.copy(alloc)?;
    facts.push(copied)?;
    places.insert(key, at)?;
    Ok(())
}

/// Copies of many facts, of those that are the same the first.
fn each_of_many<B: Bank>(alloc: Global, bank: &B, facts: &[Fact]) -> Result<Facts, AllocError>
    requires { AreFactsIn (B.trees bank.now) (map fact_of facts.now) }
    ensures { IfOk result (λ kept. NameFacts (B.trees bank.now) kept
        (distinct is_same_fact (map (fact_at (B.trees bank.now)) (map fact_of facts.now)))) }
{
    let mut kept = Facts::new(alloc);
    let mut places = HashMap::new(alloc);
    for fact in facts {
        add_placed(alloc, bank, &mut kept, &mut places, fact)?;
    }
    Ok(kept)
}

/// The facts, of those that are the same the first.
pub(crate) fn without_repeats<B: Bank>(
    alloc: Global,
    bank: &B,
    facts: Facts,
) -> Result<Facts, AllocError>
    requires { AreFactsIn (B.trees bank.now) facts }
    ensures { IfOk result (λ kept. NameFacts (B.trees bank.now) kept
        (distinct is_same_fact (map (fact_at (B.trees bank.now)) facts))) }
{
    if facts.items.len() >= MANY {
        return each_of_many(alloc, bank, &facts.items);
    }
    if are_different(bank, &facts.items) {
        return Ok(facts);
    }
    each_once(alloc, bank, &facts.items)
}
