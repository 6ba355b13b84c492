//! Facts and clauses with their variables renumbered.

ghost use Rattle.std.specs.Prelude.{◌≡◌, ◌↔◌, ◌<◌, true, IsTrue, ◌∷◌, nat_eq, length, map, flat_map, IfOk, OnOk};
ghost use Rattle.spec_trees.specs.Tree.{Leaf, bind};
ghost use Rattle.spec_clauses.specs.Fact.{fact_under};
ghost use Rattle.spec_clauses.specs.Variables.{fact_variables};
ghost use Rattle.spec_clauses.specs.Norm.{distinct, numbered_anew};
ghost use Rattle.term_tree.specs.Bank.{tree_at, AreKnown, Names, Grows};
ghost use Rattle.clause_diffs.specs.Diffs.{diffs_at, AreDiffsIn};
ghost use Rattle.clause_diffs.specs.Numbers.{placed};
ghost use Rattle.clause_form.specs.Facts.{fact_of, clause_of};
ghost use Rattle.clause_form.specs.Normals.{AreOwn, BindAfter};
ghost use Rattle.clause_form.specs.Seen.{fact_at, clause_at, IsFactIn, AreFactsIn, NameTerms, NamesFact, NameFacts, NamesClause};
ghost use Rattle.clause_form.specs.Remembered.{AreRemembered};

use crate::facts::{Clause, Fact, Facts};
use crate::memo::{Change, PLACES, remember, remembered};
use crate::variables::variables_of;
use clause_diffs::{Diff, Diffs, Ids, Order, tidied};
use std::alloc::{AllocError, Global};
use term_tree::{Bank, Id, Node};
use unify_match::argument;

/// Whether all arguments so far, and this one, are what they were.
fn is_kept(so_far: bool, argument: Id, made: Id) -> bool
    ensures { IsTrue result ↔ ((so_far ≡ true) × (made ≡ argument)) }
{
    so_far && argument.index == made.index
}

/// The variable that has a variable's place for its number: the id itself where that is its number.
fn renumbered_variable<B: Bank>(
    bank: &mut B,
    order: &Order,
    id: Id,
    number: u32,
) -> Result<Id, AllocError>
    requires known { id.index < length (B.trees bank.old) }
    requires variable { tree_at (B.trees bank.old) id ≡ Leaf number }
    ensures grows { Grows (B.trees bank.old) (B.trees bank.new) }
    ensures names { IfOk result (λ made. Names (B.trees bank.new) made
        (bind (placed order.now) (tree_at (B.trees bank.old) id))) }
{
    let place = order.place(number);
    if place == number {
        return Ok(id);
    }
    bank.var(place)
}

/// The term with each variable's place for its number: the id itself where nothing changes. The arguments
/// that are made wait on `stack`; what was renumbered is looked for among `changes`. On `Err` the bank may have
/// grown.
fn renumbered<B: Bank>(
    bank: &mut B,
    order: &Order,
    stack: &mut Vec<Id>,
    changes: &mut [Option<Change>; PLACES],
    id: Id,
) -> Result<Id, AllocError>
    requires known { id.index < length (B.trees bank.old) }
    requires changes { AreRemembered (B.trees bank.old) (placed order.now) changes.old }
    ensures grows { Grows (B.trees bank.old) (B.trees bank.new) }
    ensures names { IfOk result (λ made. Names (B.trees bank.new) made
        (bind (placed order.now) (tree_at (B.trees bank.old) id))) }
    ensures stack { OnOk result (stack.new.items ≡ stack.old.items) }
    ensures changes { OnOk result
        (AreRemembered (B.trees bank.new) (placed order.now) changes.new) }
{
    if bank.is_ground(id) {
        return Ok(id);
    }
    if let Some(made) = remembered(changes, id) {
        return Ok(made);
    }
    match bank.node(id) {
        Node::Var(number) => renumbered_variable(bank, order, id, number),
        Node::App(symbol, parts) => {
            let count = parts.len();
            let base = stack.len();
            let mut kept = true;
            'each: for i in 0..count {
                let part = argument(bank, id, i);
                let made = renumbered(bank, order, stack, changes, part)?;
                kept = is_kept(kept, part, made);
                stack.push(made)?;
            }
            if kept {
                stack.truncate(base);
                return Ok(id);
            }
            let made = bank.app(symbol, &stack[base..])?;
            stack.truncate(base);
            remember(changes, id, made);
            Ok(made)
        }
    }
}

/// The terms renumbered.
fn renumbered_terms<B: Bank>(
    bank: &mut B,
    order: &Order,
    stack: &mut Vec<Id>,
    changes: &mut [Option<Change>; PLACES],
    terms: &[Id],
) -> Result<Ids, AllocError>
    requires known { AreKnown (B.trees bank.old) terms.now }
    requires changes { AreRemembered (B.trees bank.old) (placed order.now) changes.old }
    ensures grows { Grows (B.trees bank.old) (B.trees bank.new) }
    ensures names { IfOk result (λ made. NameTerms (B.trees bank.new) made
        (map (bind (placed order.now)) (map (tree_at (B.trees bank.old)) terms.now))) }
    ensures changes { OnOk result
        (AreRemembered (B.trees bank.new) (placed order.now) changes.new) }
{
    let mut items = Vec::with_capacity(*stack.allocator(), terms.len())?;
    'each: for term in terms {
        let next = renumbered(bank, order, stack, changes, *term)?;
        items.push(next)?;
    }
    Ok(Ids { items })
}

/// The fact renumbered. One of a single term takes no list for it.
fn renumbered_fact<B: Bank>(
    bank: &mut B,
    order: &Order,
    stack: &mut Vec<Id>,
    changes: &mut [Option<Change>; PLACES],
    fact: &Fact,
) -> Result<Fact, AllocError>
    requires known { IsFactIn (B.trees bank.old) (fact_of fact.now) }
    requires changes { AreRemembered (B.trees bank.old) (placed order.now) changes.old }
    ensures grows { Grows (B.trees bank.old) (B.trees bank.new) }
    ensures names { IfOk result (λ made. NamesFact (B.trees bank.new) (fact_of made)
        (fact_under (placed order.now) (fact_at (B.trees bank.old) (fact_of fact.now)))) }
    ensures changes { OnOk result
        (AreRemembered (B.trees bank.new) (placed order.now) changes.new) }
{
    if let Fact::Att(phase, term) = fact {
        let made = renumbered(bank, order, stack, changes, *term)?;
        return Ok(Fact::Att(*phase, made));
    }
    let terms = fact.terms();
    let made = renumbered_terms(bank, order, stack, changes, terms.as_slice())?;
    Ok(Fact::made_of(fact.head(), made))
}

/// The facts renumbered.
fn renumbered_facts<B: Bank>(
    bank: &mut B,
    order: &Order,
    stack: &mut Vec<Id>,
    changes: &mut [Option<Change>; PLACES],
    facts: &[Fact],
) -> Result<Facts, AllocError>
    requires known { AreFactsIn (B.trees bank.old) (map fact_of facts.now) }
    requires changes { AreRemembered (B.trees bank.old) (placed order.now) changes.old }
    ensures grows { Grows (B.trees bank.old) (B.trees bank.new) }
    ensures names { IfOk result (λ made. NameFacts (B.trees bank.new) made
        (map (fact_under (placed order.now)) (map (fact_at (B.trees bank.old))
        (map fact_of facts.now)))) }
    ensures changes { OnOk result
        (AreRemembered (B.trees bank.new) (placed order.now) changes.new) }
{
    let mut items = Vec::with_capacity(*stack.allocator(), facts.len())?;
    'each: for fact in facts {
        let next = renumbered_fact(bank, order, stack, changes, fact)?;
        items.push(next)?;
    }
    Ok(Facts { items })
}

/// The variables of a clause by their first occurrence, the conclusion's first.
fn order_of<B: Bank>(
    alloc: Global,
    bank: &B,
    concl: &Fact,
    hyps: &[Fact],
) -> Result<Order, AllocError>
    requires concl { IsFactIn (B.trees bank.now) (fact_of concl.now) }
    requires hyps { AreFactsIn (B.trees bank.now) (map fact_of hyps.now) }
    ensures { IfOk result (λ order. order ≡ distinct nat_eq
        (flat_map fact_variables (fact_at (B.trees bank.now) (fact_of concl.now) ∷ map
        (fact_at (B.trees bank.now)) (map fact_of hyps.now)))) }
{
    let numbers = variables_of(alloc, bank, concl, hyps)?;
    Order::new(alloc, numbers)
}

/// The clause with these constraints, the variables of its facts numbered by this order. On `Err` the bank may have
/// grown.
fn clause_in_order<B: Bank>(
    bank: &mut B,
    order: &Order,
    concl: &Fact,
    hyps: &[Fact],
    diffs: Diffs,
) -> Result<Clause, AllocError>
    requires concl { IsFactIn (B.trees bank.old) (fact_of concl.now) }
    requires hyps { AreFactsIn (B.trees bank.old) (map fact_of hyps.now) }
    requires diffs { AreDiffsIn (B.trees bank.old) diffs }
    ensures grows { Grows (B.trees bank.old) (B.trees bank.new) }
    ensures names { IfOk result (λ made. NamesClause (B.trees bank.new) made record {
      hypotheses = map (fact_under (placed order.now))
          (map (fact_at (B.trees bank.old)) (map fact_of hyps.now));
      diffs = diffs_at (B.trees bank.old) diffs;
      conclusion = fact_under (placed order.now)
          (fact_at (B.trees bank.old) (fact_of concl.now));
    }) }
    ensures diffs { IfOk result (λ made. made.diffs ≡ diffs) }
{
    let mut stack = Vec::with_capacity(*diffs.items.allocator(), 16)?;
    let mut changes = [None; PLACES];
    let hyps = renumbered_facts(bank, order, &mut stack, &mut changes, hyps)?;
    let concl = renumbered_fact(bank, order, &mut stack, &mut changes, concl)?;
    Ok(Clause { hyps, diffs, concl })
}

/// The clause with its variables numbered by their first occurrence in its facts, and those that a constraint binds by their
/// first occurrence there, after the others; of equal constraints the first is kept. On `Err` the bank may have grown.
pub(crate) fn numbered_clause<B: Bank>(
    alloc: Global,
    bank: &mut B,
    concl: &Fact,
    hyps: &[Fact],
    diffs: &[Diff],
) -> Result<Clause, AllocError>
    requires concl { IsFactIn (B.trees bank.old) (fact_of concl.now) }
    requires hyps { AreFactsIn (B.trees bank.old) (map fact_of hyps.now) }
    requires diffs { AreDiffsIn (B.trees bank.old) diffs.now }
    requires own { AreOwn (clause_at (B.trees bank.old)
        (clause_of concl.now hyps.now diffs.now)) }
    ensures grows { Grows (B.trees bank.old) (B.trees bank.new) }
    ensures names { IfOk result (λ made. NamesClause (B.trees bank.new) made
        (numbered_anew (clause_at (B.trees bank.old)
        (clause_of concl.now hyps.now diffs.now)))) }
    ensures first { IfOk result (λ made. BindAfter (B.trees bank.new) made) }
{
    let order = order_of(alloc, bank, concl, hyps)?;
    let tidy = tidied(alloc, bank, &order, diffs)?;
    clause_in_order(bank, &order, concl, hyps, tidy)
}
