//! Constraints under unifiers. The variables that a constraint binds are lifted above all that the bindings put in, so that
//! none is taken for one of the visit's.

ghost use Rattle.std.specs.Prelude.{◌≡◌, ◌+◌, ◌-◌, ◌<◌, ◌≤◌, length, map, IfOk};
ghost use Rattle.std.specs.List.{AllByRecursion};
ghost use Rattle.spec_trees.specs.Tree.{Leaf, bind};
ghost use Rattle.spec_terms.specs.Binding.{resolved};
ghost use Rattle.spec_clauses.specs.Diff.{diff_under};
ghost use Rattle.term_tree.specs.Bank.{tree_at, AreKnown, Names, Grows};
ghost use Rattle.unify_match.specs.Seen.{seen, IsReady};
ghost use Rattle.clause_diffs.specs.Diffs.{diff_at, diffs_at, IsDiffIn, AreDiffsIn, NameTerms, NamesDiff, NameDiffs};
ghost use Rattle.unified_visits.specs.Lifting.{lifted_by, IsLiftReady, IsOwnBelow};
ghost use Rattle.unified_visits.specs.Solving.{HasBelow};

use crate::excluding::Excluded;
use clause_diffs::{Diff, Diffs, Ids};
use std::alloc::{AllocError, Global};
use term_tree::{Bank, Id, Node};
use unify_match::{Binds, apply_unlimited};

/// Bindings for the clause's variables of a constraint, the number from which on it binds variables, and the one that the
/// first of these gets.
#[derive(Clone, Copy)]
pub struct Lift<'a> {
    pub binds: &'a Binds,
    pub first: u32,
    pub next: u32,
}

/// The number of a variable that a constraint binds, lifted. `Err` comes where it would be past 32 bits.
fn lifted_number(lift: Lift<'_>, number: u32) -> Result<u32, AllocError>
    requires { lift.first ≤ number }
    ensures { IfOk result (λ made. made ≡ (number - lift.entry.first) + lift.entry.next) }
{
    match (number - lift.first).checked_add(lift.next) {
        Some(made) => Ok(made),
        None => Err(AllocError),
    }
}

/// A variable of a constraint: what it stands for under the bindings, or lifted where the constraint binds it. On `Err`
/// the bank may have grown.
fn lifted_variable<B: Bank>(
    bank: &mut B,
    lift: Lift<'_>,
    id: Id,
    number: u32,
) -> Result<Id, AllocError>
    requires known { id.index < length (B.trees bank.old) }
    requires is { tree_at (B.trees bank.old) id ≡ Leaf number }
    requires ready { IsLiftReady (B.trees bank.old) lift }
    ensures grows { Grows (B.trees bank.old) (B.trees bank.new) }
    ensures names { IfOk result (λ made. Names (B.trees bank.new) made
        (bind (lifted_by (B.trees bank.old) lift.entry) (tree_at (B.trees bank.old) id))) }
{
    let first = lift.first;
    if number < first {
        return apply_unlimited(bank, id, lift.binds);
    }
    let made = lifted_number(lift, number)?;
    bank.var(made)
}

/// A term of a constraint under the bindings. On `Err` the bank may have grown.
fn lifted_term<B: Bank>(
    alloc: Global,
    bank: &mut B,
    lift: Lift<'_>,
    id: Id,
) -> Result<Id, AllocError>
    requires known { id.index < length (B.trees bank.old) }
    requires ready { IsLiftReady (B.trees bank.old) lift }
    ensures grows { Grows (B.trees bank.old) (B.trees bank.new) }
    ensures names { IfOk result (λ made. Names (B.trees bank.new) made
        (bind (lifted_by (B.trees bank.old) lift.entry) (tree_at (B.trees bank.old) id))) }
{
    match bank.node(id) {
        Node::Var(number) => lifted_variable(bank, lift, id, number),
        Node::App(symbol, arguments) => {
            let parts = arguments.to_vec(alloc)?;
            let mut made = Vec::with_capacity(alloc, parts.len())?;
            'each: for part in &parts {
                let next = lifted_term(alloc, bank, lift, *part)?;
                made.push(next)?;
            }
            bank.app(symbol, &made)
        }
    }
}

/// Terms of a constraint under the bindings. On `Err` the bank may have grown.
fn lifted_terms<B: Bank>(
    alloc: Global,
    bank: &mut B,
    lift: Lift<'_>,
    terms: &[Id],
) -> Result<Ids, AllocError>
    requires known { AreKnown (B.trees bank.old) terms.now }
    requires ready { IsLiftReady (B.trees bank.old) lift }
    ensures grows { Grows (B.trees bank.old) (B.trees bank.new) }
    ensures names { IfOk result (λ made. NameTerms (B.trees bank.new) made
        (map (bind (lifted_by (B.trees bank.old) lift.entry))
        (map (tree_at (B.trees bank.old)) terms.now))) }
{
    let mut items = Vec::with_capacity(alloc, terms.len())?;
    'each: for term in terms {
        let next = lifted_term(alloc, bank, lift, *term)?;
        items.push(next)?;
    }
    Ok(Ids { items })
}

/// A constraint under the bindings, its bound variables from the number on. On `Err` the bank may have grown.
fn lifted_diff<B: Bank>(
    alloc: Global,
    bank: &mut B,
    binds: &Binds,
    next: u32,
    diff: &Diff,
) -> Result<Diff, AllocError>
    requires known { IsDiffIn (B.trees bank.old) diff.now }
    requires ready { IsReady (B.trees bank.old) binds.now.pairs }
    requires below { HasBelow (resolved (seen (B.trees bank.old) binds.now.pairs)) next }
    requires own { IsOwnBelow next (diff_at (B.trees bank.old) diff.now) }
    ensures grows { Grows (B.trees bank.old) (B.trees bank.new) }
    ensures names { IfOk result (λ made. NamesDiff (B.trees bank.new) made
        (diff_under (resolved (seen (B.trees bank.old) binds.now.pairs))
        (diff_at (B.trees bank.old) diff.now))) }
{
    let lift = Lift {
        binds,
        first: diff.first,
        next,
    };
    let left = lifted_terms(alloc, bank, lift, &diff.left.items)?;
    let right = lifted_terms(alloc, bank, lift, &diff.right.items)?;
    Ok(Diff {
        first: next,
        left,
        right,
    })
}

/// Constraints under the bindings, the bound variables of each from the number on. On `Err` the bank may have grown.
fn lifted_diffs<B: Bank>(
    alloc: Global,
    bank: &mut B,
    binds: &Binds,
    next: u32,
    diffs: &[Diff],
) -> Result<Diffs, AllocError>
    requires known { AreDiffsIn (B.trees bank.old) diffs.now }
    requires ready { IsReady (B.trees bank.old) binds.now.pairs }
    requires below { HasBelow (resolved (seen (B.trees bank.old) binds.now.pairs)) next }
    requires own { AllByRecursion (IsOwnBelow next) (diffs_at (B.trees bank.old) diffs.now) }
    ensures grows { Grows (B.trees bank.old) (B.trees bank.new) }
    ensures names { IfOk result (λ made. NameDiffs (B.trees bank.new) made
        (map (diff_under (resolved (seen (B.trees bank.old) binds.now.pairs)))
        (diffs_at (B.trees bank.old) diffs.now))) }
{
    let mut items = Vec::with_capacity(alloc, diffs.len())?;
    'each: for diff in diffs {
        let made = lifted_diff(alloc, bank, binds, next, diff)?;
        items.push(made)?;
    }
    Ok(Diffs { items })
}

/// The constraints of a visit under the bindings, in one block. On `Err` the bank may have grown.
pub fn lifted<B: Bank>(
    alloc: Global,
    bank: &mut B,
    binds: &Binds,
    next: u32,
    excluded: &Excluded,
) -> Result<Excluded, AllocError>
    requires known { AreDiffsIn (B.trees bank.old) excluded.now }
    requires ready { IsReady (B.trees bank.old) binds.now.pairs }
    requires below { HasBelow (resolved (seen (B.trees bank.old) binds.now.pairs)) next }
    requires own { AllByRecursion (IsOwnBelow next) (diffs_at (B.trees bank.old) excluded.now) }
    ensures grows { Grows (B.trees bank.old) (B.trees bank.new) }
    ensures names { IfOk result (λ made. NameDiffs (B.trees bank.new) made
        (map (diff_under (resolved (seen (B.trees bank.old) binds.now.pairs)))
        (diffs_at (B.trees bank.old) excluded.now))) }
{
    let none = Excluded::none(alloc);
    if excluded.has_no_block() {
        return Ok(none);
    }
    let listed = excluded.listed(alloc)?;
    let made = lifted_diffs(alloc, bank, binds, next, &listed.items)?;
    none.with(alloc, made)
}
