//! The variables of facts and clauses, in order.

ghost use Rattle.std.specs.Prelude.{◌≡◌, ◌++◌, ◌∷◌, map, flat_map, IfOk, OnOk};
ghost use Rattle.spec_clauses.specs.Variables.{fact_variables, firm_variables};
ghost use Rattle.clause_form.specs.Facts.{fact_of};
ghost use Rattle.clause_form.specs.Seen.{fact_at, IsFactIn, AreFactsIn};
ghost use Rattle.clause_form.specs.Standing.{firm_numbers};

use crate::facts::Fact;
use crate::selectable::is_variable_known;
use clause_diffs::add_terms_variables;
use std::alloc::{AllocError, Global};
use term_tree::Bank;

/// Adds the variables of a fact.
fn add_fact_variables<B: Bank>(
    bank: &B,
    fact: &Fact,
    numbers: &mut Vec<u32>,
) -> Result<(), AllocError>
    requires { IsFactIn (B.trees bank.now) (fact_of fact.now) }
    ensures { OnOk result (numbers.new.items ≡
        numbers.old.items ++ fact_variables (fact_at (B.trees bank.now) (fact_of fact.now))) }
{
    let terms = fact.terms();
    add_terms_variables(bank, terms.as_slice(), numbers)
}

/// Adds the variables of facts.
fn add_facts_variables<B: Bank>(
    bank: &B,
    facts: &[Fact],
    numbers: &mut Vec<u32>,
) -> Result<(), AllocError>
    requires { AreFactsIn (B.trees bank.now) (map fact_of facts.now) }
    ensures { OnOk result (numbers.new.items ≡ numbers.old.items ++ flat_map fact_variables
        (map (fact_at (B.trees bank.now)) (map fact_of facts.now))) }
{
    for fact in facts {
        add_fact_variables(bank, fact, numbers)?;
    }
    Ok(())
}

/// The variables of a clause, each as often as it occurs: the conclusion's first.
pub fn variables_of<B: Bank>(
    alloc: Global,
    bank: &B,
    concl: &Fact,
    hyps: &[Fact],
) -> Result<Vec<u32>, AllocError>
    requires concl { IsFactIn (B.trees bank.now) (fact_of concl.now) }
    requires hyps { AreFactsIn (B.trees bank.now) (map fact_of hyps.now) }
    ensures { IfOk result (λ numbers. numbers.items ≡
        flat_map fact_variables (fact_at (B.trees bank.now) (fact_of concl.now) ∷ map
        (fact_at (B.trees bank.now)) (map fact_of hyps.now))) }
{
    let mut numbers = Vec::with_capacity(alloc, 16)?;
    add_fact_variables(bank, concl, &mut numbers)?;
    add_facts_variables(bank, hyps, &mut numbers)?;
    Ok(numbers)
}

/// Adds the variables of a hypothesis, unless it is `att` of a variable.
fn add_firm_variables<B: Bank>(
    bank: &B,
    fact: &Fact,
    numbers: &mut Vec<u32>,
) -> Result<(), AllocError>
    requires { IsFactIn (B.trees bank.now) (fact_of fact.now) }
    ensures { OnOk result (numbers.new.items ≡
        numbers.old.items ++ firm_numbers (fact_at (B.trees bank.now) (fact_of fact.now))) }
{
    if is_variable_known(bank, fact) {
        return Ok(());
    }
    add_fact_variables(bank, fact, numbers)
}

/// Adds the variables of hypotheses but those `att` of a variable.
fn add_firms_variables<B: Bank>(
    bank: &B,
    facts: &[Fact],
    numbers: &mut Vec<u32>,
) -> Result<(), AllocError>
    requires { AreFactsIn (B.trees bank.now) (map fact_of facts.now) }
    ensures { OnOk result (numbers.new.items ≡ numbers.old.items ++ firm_variables
        (map (fact_at (B.trees bank.now)) (map fact_of facts.now))) }
{
    for fact in facts {
        add_firm_variables(bank, fact, numbers)?;
    }
    Ok(())
}

/// The variables of a clause but those of its hypotheses `att` of a variable.
pub(crate) fn variables_elsewhere<B: Bank>(
    alloc: Global,
    bank: &B,
    concl: &Fact,
    hyps: &[Fact],
) -> Result<Vec<u32>, AllocError>
    requires concl { IsFactIn (B.trees bank.now) (fact_of concl.now) }
    requires hyps { AreFactsIn (B.trees bank.now) (map fact_of hyps.now) }
    ensures { IfOk result (λ numbers. numbers.items ≡
        fact_variables (fact_at (B.trees bank.now) (fact_of concl.now)) ++ firm_variables
        (map (fact_at (B.trees bank.now)) (map fact_of hyps.now))) }
{
    let mut numbers = Vec::with_capacity(alloc, 16)?;
    add_fact_variables(bank, concl, &mut numbers)?;
    add_firms_variables(bank, hyps, &mut numbers)?;
    Ok(numbers)
}

/// The variables of hypotheses but those `att` of a variable.
pub(crate) fn firm_variables_of<B: Bank>(
    alloc: Global,
    bank: &B,
    hyps: &[Fact],
) -> Result<Vec<u32>, AllocError>
    requires { AreFactsIn (B.trees bank.now) (map fact_of hyps.now) }
    ensures { IfOk result (λ numbers. numbers.items ≡ firm_variables
        (map (fact_at (B.trees bank.now)) (map fact_of hyps.now))) }
{
    let mut numbers = Vec::with_capacity(alloc, 16)?;
    add_firms_variables(bank, hyps, &mut numbers)?;
    Ok(numbers)
}
