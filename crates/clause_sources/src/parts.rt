//! The sources of a raw clause.

ghost use Rattle.std.specs.Prelude.{◌≡◌, [], ◌∷◌, ◌++◌, nat_eq, map, filter_map, IfOk, OnOk};
ghost use Rattle.std.specs.Rc.{rc_value};
ghost use Rattle.spec_clauses.specs.Fact.{clause_under};
ghost use Rattle.spec_clauses.specs.Flat.{flat_parts};
ghost use Rattle.spec_clauses.specs.Norm.{distinct};
ghost use Rattle.spec_attack_runs.specs.Source.{action_under, source_variables};
ghost use Rattle.term_tree.specs.Bank.{Grows};
ghost use Rattle.clause_diffs.specs.Numbers.{placed};
ghost use Rattle.clause_form.specs.Seen.{clause_at, IsClauseIn, AreClausesIn};
ghost use Rattle.clause_sources.specs.Bound.{numbered_in_bound};
ghost use Rattle.clause_sources.specs.Seen.{action_of};
ghost use Rattle.clause_sources.specs.Listed.{told_number, told_numbers, Tells};

use crate::source::{Action, Source, Sources};
use crate::trees::{add_action_variables, add_clause_variables, numbered_action, numbered_clause};
use clause_diffs::Order;
use clause_form::{Clause, Clauses, Normal, PlainClause, copy_into, flatten, norm};
use std::alloc::{AllocError, Global};
use std::rc::Rc;
use term_tree::Bank;

/// Adds the number of a flat part, if the part says something. On `Err` the bank may have grown.
fn add_told<B: Bank>(
    alloc: Global,
    bank: &mut B,
    number: usize,
    part: Clause,
    numbers: &mut Vec<usize>,
) -> Result<(), AllocError>
    requires { IsClauseIn (B.trees bank.old) part }
    ensures grows { Grows (B.trees bank.old) (B.trees bank.new) }
    ensures told { OnOk result (numbers.new.items ≡ numbers.old.items ++
        filter_map told_number ((number, clause_at (B.trees bank.old) part) ∷ [])) }
{
    match norm(alloc, bank, part)? {
        Normal::Tautology => Ok(()),
        Normal::Clause(clause) => {
            drop(clause);
            numbers.push(number)?;
            Ok(())
        }
    }
}

/// The numbers of the flat parts, of a clause, that say something. On `Err` the bank may have grown.
fn told_of<B: Bank>(alloc: Global, bank: &mut B, parts: &Clauses) -> Result<Vec<usize>, AllocError>
    requires { AreClausesIn (B.trees bank.old) parts.now }
    ensures grows { Grows (B.trees bank.old) (B.trees bank.new) }
    ensures told { IfOk result (λ numbers. numbers.items ≡
        told_numbers (map (clause_at (B.trees bank.old)) parts.now)) }
{
    let mut numbers = Vec::new(alloc);
    'each: for (index, part) in parts.items.iter().enumerate() {
        let copied = part.copy(alloc)?;
        add_told(alloc, bank, index + 1, copied, &mut numbers)?;
    }
    Ok(numbers)
}

/// The numbers of the flat parts that say something. On `Err` the bank may have grown.
fn telling_grown<B: Bank>(
    alloc: Global,
    bank: &mut B,
    raw: &PlainClause,
) -> Result<Vec<usize>, AllocError>
    ensures grows { Grows (B.trees bank.old) (B.trees bank.new) }
    ensures told { IfOk result (λ numbers. numbers.items ≡ told_numbers (flat_parts raw.now)) }
{
    let clause = copy_into(alloc, bank, raw)?;
    let parts = flatten(alloc, bank, &clause)?;
    told_of(alloc, bank, &parts)
}

/// The numbers of the flat parts that say something. The bank is as before.
fn telling<B: Bank>(
    alloc: Global,
    bank: &mut B,
    raw: &PlainClause,
) -> Result<Vec<usize>, AllocError>
    ensures bank { B.trees bank.new ≡ B.trees bank.old }
    ensures told { IfOk result (λ numbers. numbers.items ≡ told_numbers (flat_parts raw.now)) }
{
    let mark = bank.mark();
    let told = telling_grown(alloc, bank, raw);
    bank.back(mark);
    told
}

/// Adds the variables of a source: those of the conclusion, hypotheses, constraints, messages and sessions, in this order.
pub fn add_source_variables(
    alloc: Global,
    raw: &PlainClause,
    action: &Action,
    numbers: &mut Vec<u32>,
) -> Result<(), AllocError>
    ensures { OnOk result (numbers.new.items ≡ numbers.old.items ++ source_variables
        record { raw = raw.now; part = 1; action = action_of action.now }) }
{
    add_clause_variables(alloc, raw, numbers)?;
    add_action_variables(action, numbers)
}

/// The variables of a raw clause and of an action, in order of their first occurrence.
fn order_of(alloc: Global, raw: &PlainClause, action: &Action) -> Result<Order, AllocError>
    ensures { IfOk result (λ order. order ≡ distinct nat_eq (source_variables
        record { raw = numbered_in_bound raw.now; part = 1; action = action_of action.now })) }
{
    let mut numbers = Vec::new(alloc);
    add_source_variables(alloc, raw, action, &mut numbers)?;
    Order::new(alloc, numbers)
}

/// What the sources of a raw clause share: the raw clause and the action, their variables numbered.
#[derive(Drop)]
struct Shared {
    raw: Rc<PlainClause>,
    action: Rc<Action>,
}

/// What the sources of a raw clause share, its variables numbered by this order.
fn shared_in(
    alloc: Global,
    order: &Order,
    raw: &PlainClause,
    action: &Action,
) -> Result<Shared, AllocError>
    ensures raw { IfOk result (λ made. rc_value made.raw ≡
        clause_under (placed order.now) (numbered_in_bound raw.now)) }
    ensures action { IfOk result (λ made. action_of (rc_value made.action) ≡
        action_under (placed order.now) (action_of action.now)) }
{
    let numbered = numbered_clause(alloc, order, raw)?;
    let raw = Rc::new(alloc, numbered)?;
    let done = numbered_action(alloc, order, action)?;
    let action = Rc::new(alloc, done)?;
    Ok(Shared { raw, action })
}

impl Shared {
    /// The source of a part.
    fn source_of(&self, part: usize) -> Result<Source, AllocError>
        ensures { IfOk result (λ made. made ≡ record {
          raw = rc_value self.now.raw;
          part = part;
          action = action_of (rc_value self.now.action);
        }) }
    {
        let raw = self.raw.clone()?;
        let action = self.action.clone()?;
        Ok(Source { raw, part, action })
    }
}

/// Adds the sources of a raw clause, with the variables that its constraints bind numbered: one for each of its flat parts that
/// says something, in order. The bank is as before.
pub fn add_sources<B: Bank>(
    alloc: Global,
    bank: &mut B,
    raw: &PlainClause,
    action: &Action,
    sources: &mut Sources,
) -> Result<(), AllocError>
    ensures bank { B.trees bank.new ≡ B.trees bank.old }
    ensures tells { OnOk result (Tells sources.old sources.new
        ((action_of action.now, numbered_in_bound raw.now) ∷ [])) }
{
    let told = telling(alloc, bank, raw)?;
    let order = order_of(alloc, raw, action)?;
    let shared = shared_in(alloc, &order, raw, action)?;
    'each: for part in &told {
        let source = shared.source_of(*part)?;
        sources.push(source)?;
    }
    Ok(())
}
