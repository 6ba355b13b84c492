//! Terms and facts under bindings. Each part is built once, in however many of them it stands.

ghost use Rattle.std.specs.Prelude.{◌≡◌, ◌<◌, true, length, map, IfOk, OnOk, MatchOption};
ghost use Rattle.spec_trees.specs.Tree.{Leaf, node, bind};
ghost use Rattle.spec_calculus.specs.Bounds.{most_symbols};
ghost use Rattle.spec_terms.specs.Binding.{resolved};
ghost use Rattle.spec_clauses.specs.Fact.{fact_under};
ghost use Rattle.term_tree.specs.Bank.{symbol_of, tree_at, AreKnown, Names, Grows};
ghost use Rattle.unify_match.specs.Seen.{seen, IsReady};
ghost use Rattle.clause_form.specs.Facts.{fact_of};
ghost use Rattle.clause_form.specs.Seen.{fact_at, IsFactIn, AreFactsIn, NameTerms, NamesFact, NameFacts};
ghost use Rattle.unified_visits.specs.Sizes.{some_over, some_over_in, some_fact_over};
ghost use Rattle.unified_visits.specs.Built.{IsUnder, AreBuilt};

use crate::built::Built;
use clause_form::{Fact, Facts, Ids};
use pi_tree::MOST_SYMBOLS;
use std::alloc::{AllocError, Global};
use term_tree::{Bank, Id, Node, Sym};
use unify_match::{Binds, apply_bound};

/// The term that a variable is bound to, under the bindings; none where it is over the limit.
fn bound_under<B: Bank>(
    bank: &mut B,
    binds: &Binds,
    built: &mut Built,
    to: Id,
) -> Result<Option<Id>, AllocError>
    requires known { to.index < length (B.trees bank.old) }
    requires ready { IsReady (B.trees bank.old) binds.now.pairs }
    requires built { AreBuilt (B.trees bank.old) binds.now.pairs built.old }
    ensures grows { Grows (B.trees bank.old) (B.trees bank.new) }
    ensures built { OnOk result (AreBuilt (B.trees bank.new) binds.now.pairs built.new) }
    ensures under { IfOk result (λ found.
        IsUnder (B.trees bank.old) (B.trees bank.new) binds.now.pairs to found) }
{
    match built.of(to) {
        Some(made) => Ok(Some(made)),
        None => match apply_bound(bank, to, binds, MOST_SYMBOLS)? {
            None => Ok(None),
            Some(made) => {
                built.put(to, made)?;
                Ok(Some(made))
            }
        },
    }
}

/// The variable under the bindings; none where it stands for a term over the limit.
fn variable_under<B: Bank>(
    bank: &mut B,
    binds: &Binds,
    built: &mut Built,
    id: Id,
    number: u32,
) -> Result<Option<Id>, AllocError>
    requires known { id.index < length (B.trees bank.old) }
    requires variable { tree_at (B.trees bank.old) id ≡ Leaf number }
    requires ready { IsReady (B.trees bank.old) binds.now.pairs }
    requires built { AreBuilt (B.trees bank.old) binds.now.pairs built.old }
    ensures grows { Grows (B.trees bank.old) (B.trees bank.new) }
    ensures built { OnOk result (AreBuilt (B.trees bank.new) binds.now.pairs built.new) }
    ensures under { IfOk result (λ found.
        IsUnder (B.trees bank.old) (B.trees bank.new) binds.now.pairs id found) }
{
    match binds.look(number) {
        None => {
            let found = apply_bound(bank, id, binds, MOST_SYMBOLS)?;
            Ok(found)
        }
        Some(to) => bound_under(bank, binds, built, to),
    }
}

/// The symbol of an application over what its arguments are now: the id itself where they are what they were. On `Err`
/// the bank is as before.
fn applied<B: Bank>(
    bank: &mut B,
    id: Id,
    symbol: Sym,
    arguments: &[Id],
    now: &[Id],
) -> Result<Id, AllocError>
    requires id { Names (B.trees bank.old) id
        (node (symbol_of symbol) (map (tree_at (B.trees bank.old)) arguments.now)) }
    requires known { AreKnown (B.trees bank.old) now.now }
    ensures grows { Grows (B.trees bank.old) (B.trees bank.new) }
    ensures names { IfOk result (λ made. Names (B.trees bank.new) made
        (node (symbol_of symbol) (map (tree_at (B.trees bank.old)) now.now))) }
{
    if *now == *arguments {
        return Ok(id);
    }
    bank.app(symbol, now)
}

/// The term under the bindings; none where it has more symbols than the limit. On `Err` the bank may have grown.
#[cycle(under)]
pub fn term_under<B: Bank>(
    alloc: Global,
    bank: &mut B,
    binds: &Binds,
    built: &mut Built,
    id: Id,
) -> Result<Option<Id>, AllocError>
    requires known { id.index < length (B.trees bank.old) }
    requires ready { IsReady (B.trees bank.old) binds.now.pairs }
    requires built { AreBuilt (B.trees bank.old) binds.now.pairs built.old }
    ensures grows { Grows (B.trees bank.old) (B.trees bank.new) }
    ensures built { OnOk result (AreBuilt (B.trees bank.new) binds.now.pairs built.new) }
    ensures under { IfOk result (λ found.
        IsUnder (B.trees bank.old) (B.trees bank.new) binds.now.pairs id found) }
{
    match built.of(id) {
        Some(made) => return Ok(Some(made)),
        None => {}
    }
    match bank.node(id) {
        Node::Var(number) => variable_under(bank, binds, built, id, number),
        Node::App(symbol, parts) => {
            let arguments = parts.to_vec(alloc)?;
            match terms_under(alloc, bank, binds, built, &arguments)? {
                None => Ok(None),
                Some(now) => {
                    let made = applied(bank, id, symbol, &arguments, &now.items)?;
                    built.put(id, made)?;
                    Ok(Some(made))
                }
            }
        }
    }
}

/// The terms under the bindings; none where one has more symbols than the limit. On `Err` the bank may have grown.
#[cycle(under)]
fn terms_under<B: Bank>(
    alloc: Global,
    bank: &mut B,
    binds: &Binds,
    built: &mut Built,
    terms: &[Id],
) -> Result<Option<Ids>, AllocError>
    requires known { AreKnown (B.trees bank.old) terms.now }
    requires ready { IsReady (B.trees bank.old) binds.now.pairs }
    requires built { AreBuilt (B.trees bank.old) binds.now.pairs built.old }
    ensures grows { Grows (B.trees bank.old) (B.trees bank.new) }
    ensures built { OnOk result (AreBuilt (B.trees bank.new) binds.now.pairs built.new) }
    ensures under { let made = map (bind (resolved (seen (B.trees bank.old) binds.now.pairs)))
        (map (tree_at (B.trees bank.old)) terms.now) in
        IfOk result (λ found. MatchOption found (some_over most_symbols made ≡ true)
        (λ ids. NameTerms (B.trees bank.new) ids made)) }
{
    let mut items = Vec::new(alloc);
    'each: for term in terms {
        match term_under(alloc, bank, binds, built, *term)? {
            None => return Ok(None),
            Some(made) => items.push(made)?,
        }
    }
    Ok(Some(Ids { items }))
}

/// The fact under the bindings; none where a term of it has more symbols than the limit. On `Err` the bank may have
/// grown.
fn fact_under<B: Bank>(
    alloc: Global,
    bank: &mut B,
    binds: &Binds,
    built: &mut Built,
    fact: &Fact,
) -> Result<Option<Fact>, AllocError>
    requires known { IsFactIn (B.trees bank.old) (fact_of fact.now) }
    requires ready { IsReady (B.trees bank.old) binds.now.pairs }
    requires built { AreBuilt (B.trees bank.old) binds.now.pairs built.old }
    ensures grows { Grows (B.trees bank.old) (B.trees bank.new) }
    ensures built { OnOk result (AreBuilt (B.trees bank.new) binds.now.pairs built.new) }
    ensures under { let made = fact_under (resolved (seen (B.trees bank.old) binds.now.pairs))
        (fact_at (B.trees bank.old) (fact_of fact.now)) in
        IfOk result (λ found. MatchOption found (some_over_in most_symbols made ≡ true)
        (λ fact. NamesFact (B.trees bank.new) (fact_of fact) made)) }
{
    let terms = fact.terms();
    match terms_under(alloc, bank, binds, built, terms.as_slice())? {
        None => Ok(None),
        Some(made) => Ok(Some(Fact::made_of(fact.head(), made))),
    }
}

/// The facts under the bindings; none where a term of them has more symbols than the limit. On `Err` the bank may have
/// grown.
pub fn facts_under<B: Bank>(
    alloc: Global,
    bank: &mut B,
    binds: &Binds,
    built: &mut Built,
    facts: &[Fact],
) -> Result<Option<Facts>, AllocError>
    requires known { AreFactsIn (B.trees bank.old) (map fact_of facts.now) }
    requires ready { IsReady (B.trees bank.old) binds.now.pairs }
    requires built { AreBuilt (B.trees bank.old) binds.now.pairs built.old }
    ensures grows { Grows (B.trees bank.old) (B.trees bank.new) }
    ensures built { OnOk result (AreBuilt (B.trees bank.new) binds.now.pairs built.new) }
    ensures under { let made = map (fact_under (resolved (seen (B.trees bank.old) binds.now.pairs)))
        (map (fact_at (B.trees bank.old)) (map fact_of facts.now)) in
        IfOk result (λ found. MatchOption found (some_fact_over most_symbols made ≡ true)
        (λ facts. NameFacts (B.trees bank.new) facts made)) }
{
    let mut items = Vec::new(alloc);
    'each: for fact in facts {
        match fact_under(alloc, bank, binds, built, fact)? {
            None => return Ok(None),
            Some(made) => items.push(made)?,
        }
    }
    Ok(Some(Facts { items }))
}
