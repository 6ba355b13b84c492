//! What is placed where: the hypotheses of the special clause, and those of the general one, firm and loose.

ghost use Rattle.std.specs.Prelude.{◌≡◌, ◌++◌, [], ◌∷◌, cond, map, option_map, IfOk, OnOk};
ghost use Rattle.spec_clauses.specs.Fact.{is_variable_known as is_variable_known_fact};
ghost use Rattle.spec_clauses.specs.Subsumption.{firm};
ghost use Rattle.spec_placements.specs.Placing.{known_variable as known_variable_of};
ghost use Rattle.spec_placements.specs.Placing.{loose_variables};
ghost use Rattle.clause_form.specs.Facts.{fact_of};
ghost use Rattle.clause_form.specs.Seen.{fact_at, IsFactIn, AreFactsIn, NameFacts};
ghost use Rattle.fact_placing.specs.Boards.{facts_at, loose_seen};

use clause_diffs::Diff;
use clause_form::{Fact, is_variable_known};
use std::alloc::{AllocError, Global};
use term_tree::{Bank, Node};

/// A hypothesis `att` of a variable: its phase, and the variable.
#[derive(Clone, Copy)]
pub struct Loose {
    pub phase: u32,
    pub variable: u32,
}

/// What is left to decide once the other hypotheses of the general clause are placed: the terms of its hypotheses `att` of a
/// variable have to be known at further positions, and its constraints have to be kept in those of the special clause.
#[derive(Clone, Copy)]
pub struct Ending<'a> {
    /// The hypotheses `att` of a variable of the general clause.
    pub loose: &'a [Loose],
    /// Its constraints.
    pub diffs: &'a [Diff],
    /// The constraints of the special clause.
    pub kept_in: &'a [Diff],
}

/// The hypotheses of the special clause, at whose positions those of the general one are placed, and what is left to decide
/// then. Where it is divided, the hypotheses of the general clause fall into parts that share no variable that isn't bound.
#[derive(Drop)]
pub struct Board<'a, B> {
    pub alloc: Global,
    pub bank: &'a B,
    pub hyps: &'a [Fact],
    pub ending: Ending<'a>,
    pub is_divided: bool,
}

/// Adds a hypothesis, if it isn't `att` of a variable.
fn add_firm<'a, B: Bank>(
    bank: &B,
    hyp: &'a Fact,
    found: &mut Vec<&'a Fact>,
) -> Result<(), AllocError>
    requires { IsFactIn (B.trees bank.now) (fact_of hyp.now) }
    ensures { OnOk result (map (λ f. fact_of f.now) found.new.items ≡ cond
        (is_variable_known_fact (fact_at (B.trees bank.now) (fact_of hyp.now)))
        (map (λ f. fact_of f.now) found.old.items)
        (map (λ f. fact_of f.now) found.old.items ++ fact_of hyp.now ∷ [])) }
{
    if is_variable_known(bank, hyp) {
        return Ok(());
    }
    found.push(hyp)?;
    Ok(())
}

/// The hypotheses of a clause but `att` of a variable, in order.
pub fn firm_of<'a, B: Bank>(
    alloc: Global,
    bank: &B,
    hyps: &'a [Fact],
) -> Result<Vec<&'a Fact>, AllocError>
    requires { AreFactsIn (B.trees bank.now) (map fact_of hyps.now) }
    ensures { let all = B.trees bank.now in IfOk result
        (λ found. NameFacts all (map (λ f. fact_of f.now) found.items)
        (firm (facts_at all (map fact_of hyps.now)))) }
{
    let mut found = Vec::new(alloc);
    for hyp in hyps {
        add_firm(bank, hyp, &mut found)?;
    }
    Ok(found)
}

/// The phase and the variable of which the fact is `att`.
fn known_variable<B: Bank>(bank: &B, fact: &Fact) -> Option<Loose>
    requires { IsFactIn (B.trees bank.now) (fact_of fact.now) }
    ensures { option_map loose_seen result ≡
        known_variable_of (fact_at (B.trees bank.now) (fact_of fact.now)) }
{
    match fact {
        Fact::Att(phase, term) => match bank.node(*term) {
            Node::Var(variable) => Some(Loose {
                phase: *phase,
                variable,
            }),
            Node::App(_, _) => None,
        },
        _ => None,
    }
}

/// Adds a hypothesis, if it is `att` of a variable.
fn add_loose<B: Bank>(bank: &B, hyp: &Fact, found: &mut Vec<Loose>) -> Result<(), AllocError>
    requires { IsFactIn (B.trees bank.now) (fact_of hyp.now) }
    ensures { OnOk result (map loose_seen found.new.items ≡ map loose_seen found.old.items ++
        loose_variables (fact_at (B.trees bank.now) (fact_of hyp.now) ∷ [])) }
{
    match known_variable(bank, hyp) {
        Some(loose) => {
            found.push(loose)?;
            Ok(())
        }
        None => Ok(()),
    }
}

/// The hypotheses `att` of a variable, in order.
pub fn loose_of<B: Bank>(alloc: Global, bank: &B, hyps: &[Fact]) -> Result<Vec<Loose>, AllocError>
    requires { AreFactsIn (B.trees bank.now) (map fact_of hyps.now) }
    ensures { IfOk result (λ found. map loose_seen found.items ≡ loose_variables
        (facts_at (B.trees bank.now) (map fact_of hyps.now))) }
{
    let mut found = Vec::new(alloc);
    for hyp in hyps {
        add_loose(bank, hyp, &mut found)?;
    }
    Ok(found)
}
