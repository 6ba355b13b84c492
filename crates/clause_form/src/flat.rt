//! The flat parts of clauses (Blanchet 2016, section 3.3.1).

ghost use Rattle.std.specs.Prelude.{◌≡◌, ◌<◌, ◌++◌, length, map, flat_map, IfOk, OnOk};
ghost use Rattle.spec_clauses.specs.Fact.{Att};
ghost use Rattle.spec_clauses.specs.Flat.{is_data, flat, flat_parts};
ghost use Rattle.term_tree.specs.Bank.{symbol_of, tree_at};
ghost use Rattle.clause_form.specs.Facts.{fact_of};
ghost use Rattle.clause_form.specs.Seen.{fact_at, clause_at, IsFactIn, AreFactsIn, IsClauseIn, NameFacts, NameClauses};

use crate::facts::{Clause, Clauses, Fact, Facts};
use clause_diffs::Diffs;
use std::alloc::{AllocError, Global};
use term_tree::{Bank, Id, Node, Sym};

/// Whether who has a term with this symbol at its root has its parts, and the other way round.
pub fn is_data_symbol(symbol: Sym) -> bool
    ensures { result ≡ is_data (symbol_of symbol) }
{
    match symbol {
        Sym::Data(_) | Sym::Tuple(_) => true,
        Sym::Ctor(_) | Sym::Free(_) | Sym::Point(_) | Sym::Attacker => false,
    }
}

/// Adds `att` of the parts of a term, in a phase.
fn add_parts<B: Bank>(bank: &B, phase: u32, id: Id, facts: &mut Facts) -> Result<(), AllocError>
    requires term { id.index < length (B.trees bank.now) }
    requires facts { AreFactsIn (B.trees bank.now) facts.old }
    ensures known { AreFactsIn (B.trees bank.now) facts.new }
    ensures parts { OnOk result (map (fact_at (B.trees bank.now)) facts.new ≡
        map (fact_at (B.trees bank.now)) facts.old ++ flat
        (Att phase (tree_at (B.trees bank.now) id))) }
{
    match bank.node(id) {
        Node::Var(_) => facts.push(Fact::Att(phase, id)),
        Node::App(symbol, arguments) => {
            if !is_data_symbol(symbol) {
                return facts.push(Fact::Att(phase, id));
            }
            'each: for argument in arguments {
                add_parts(bank, phase, *argument, facts)?;
            }
            Ok(())
        }
    }
}

/// Adds the flat facts that a fact stands for.
fn add_flat<B: Bank>(
    alloc: Global,
    bank: &B,
    fact: &Fact,
    facts: &mut Facts,
) -> Result<(), AllocError>
    requires fact { IsFactIn (B.trees bank.now) (fact_of fact.now) }
    requires facts { AreFactsIn (B.trees bank.now) facts.old }
    ensures known { AreFactsIn (B.trees bank.now) facts.new }
    ensures parts { OnOk result (map (fact_at (B.trees bank.now)) facts.new ≡
        map (fact_at (B.trees bank.now)) facts.old ++ flat
        (fact_at (B.trees bank.now) (fact_of fact.now))) }
{
    if let Fact::Att(phase, term) = fact {
        return add_parts(bank, *phase, *term, facts);
    }
    let copied = fact.copy(alloc)?;
    facts.push(copied)
}

/// The flat facts that a fact stands for.
fn flat_of<B: Bank>(alloc: Global, bank: &B, fact: &Fact) -> Result<Facts, AllocError>
    requires { IsFactIn (B.trees bank.now) (fact_of fact.now) }
    ensures { IfOk result (λ made. NameFacts (B.trees bank.now) made
        (flat (fact_at (B.trees bank.now) (fact_of fact.now)))) }
{
    let mut made = Facts::new(alloc);
    add_flat(alloc, bank, fact, &mut made)?;
    Ok(made)
}

/// The flat facts that facts stand for.
fn flat_of_all<B: Bank>(alloc: Global, bank: &B, facts: &Facts) -> Result<Facts, AllocError>
    requires { AreFactsIn (B.trees bank.now) facts.now }
    ensures { IfOk result (λ made. NameFacts (B.trees bank.now) made
        (flat_map flat (map (fact_at (B.trees bank.now)) facts.now))) }
{
    let mut made = Facts::new(alloc);
    for fact in &facts.items {
        add_flat(alloc, bank, fact, &mut made)?;
    }
    Ok(made)
}

/// The clause with these hypotheses and constraints, and this conclusion.
fn concluded(alloc: Global, hyps: &Facts, diffs: &Diffs, concl: Fact) -> Result<Clause, AllocError>
    ensures { IfOk result (λ made. made ≡ record {
      hypotheses = hyps.now;
      diffs = diffs.now;
      conclusion = fact_of concl;
    }) }
{
    let hyps = hyps.copy(alloc)?;
    let diffs = diffs.copy(alloc)?;
    Ok(Clause { hyps, diffs, concl })
}

/// The clauses with these hypotheses and constraints, one for each conclusion, in order.
fn concluding(
    alloc: Global,
    hyps: &Facts,
    diffs: &Diffs,
    concls: Facts,
) -> Result<Clauses, AllocError>
    ensures { IfOk result (λ made. made ≡ map (λ concl. record {
      hypotheses = hyps.now;
      diffs = diffs.now;
      conclusion = concl;
    }) concls) }
{
    let mut items = Vec::with_capacity(alloc, concls.items.len())?;
    for concl in concls.items {
        items.push(concluded(alloc, hyps, diffs, concl)?)?;
    }
    Ok(Clauses { items })
}

/// The flat parts of a clause: one for each flat fact of its conclusion, in order, each with all constraints.
pub fn flatten<B: Bank>(alloc: Global, bank: &B, clause: &Clause) -> Result<Clauses, AllocError>
    requires { IsClauseIn (B.trees bank.now) clause.now }
    ensures { IfOk result (λ parts. NameClauses (B.trees bank.now) parts
        (flat_parts (clause_at (B.trees bank.now) clause.now))) }
{
    let hyps = flat_of_all(alloc, bank, &clause.hyps)?;
    let concls = flat_of(alloc, bank, &clause.concl)?;
    concluding(alloc, &hyps, &clause.diffs, concls)
}
