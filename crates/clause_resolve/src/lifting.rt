//! Constraints under the bindings of a unifier, as long as they are within the limit of size. The variables that a
//! constraint binds are lifted above all that the bindings put in, so that none is taken for one of the clause's.

ghost use Rattle.std.specs.Prelude.{◌≡◌, ◌+◌, ◌<◌, ◌≤◌, length, map, MatchResult};
ghost use Rattle.spec_trees.specs.Tree.{Leaf, bind, size};
ghost use Rattle.spec_terms.specs.Binding.{resolved};
ghost use Rattle.spec_calculus.specs.Bounds.{most_symbols};
ghost use Rattle.spec_clauses.specs.Diff.{diff_under, diff_size};
ghost use Rattle.spec_clauses.specs.Fact.{total};
ghost use Rattle.spec_clauses.specs.Variables.{IsBelow, AreBelow};
ghost use Rattle.term_tree.specs.Bank.{tree_at, AreKnown, Names, Grows};
ghost use Rattle.unify_match.specs.Seen.{seen, IsReady};
ghost use Rattle.clause_diffs.specs.Diffs.{diff_at, diffs_at, IsDiffIn, AreDiffsIn, AreDiffLeavesBelow, NameTerms, NamesDiff, NameDiffs};
ghost use Rattle.clause_resolve.specs.Low.{bound_from, AreDiffsBelow, KeepsBelow};
ghost use Rattle.clause_resolve.specs.Lifting.{lifted_by, IsLiftReady};
ghost use Rattle.clause_resolve.specs.Stops.{StopsAt};

use crate::spending::{applied, spend};
use crate::stop::Stop;
use clause_diffs::{Diff, Diffs, Ids};
use limits::MOST_SYMBOLS;
use std::alloc::Global;
use term_tree::{Bank, Id, Node};
use unify_match::Binds;

/// The number from which on variables are numbered that constraints bind, in clauses under a unifier: above all variables
/// of both clauses of a pair, of which one is set apart.
const BOUND_FROM: u32 = 2 * MOST_SYMBOLS as u32;

/// Bindings for the clause's variables of a constraint, and the number from which on it binds variables.
#[derive(Clone, Copy)]
pub struct Lift<'a> {
    pub binds: &'a Binds,
    pub first: u32,
}

/// The number of a variable that a constraint binds, lifted.
fn lifted_number(first: u32, number: u32) -> u32
    requires bound { first ≤ number }
    requires low { number < bound_from }
    ensures { result + first ≡ number + bound_from }
{
    number - first + BOUND_FROM
}

/// A variable of a constraint: what it stands for under the bindings, or lifted where the constraint binds it. On `Err`
/// the bank may have grown.
fn lifted_variable<B: Bank>(
    bank: &mut B,
    lift: Lift<'_>,
    id: Id,
    number: u32,
    left: &mut u64,
) -> Result<Id, Stop>
    requires known { id.index < length (B.trees bank.old) }
    requires is { tree_at (B.trees bank.old) id ≡ Leaf number }
    requires ready { IsLiftReady (B.trees bank.old) lift }
    requires low { number < bound_from }
    requires small { left.old ≤ most_symbols }
    ensures grows { Grows (B.trees bank.old) (B.trees bank.new) }
    ensures at_most { left.new ≤ left.old }
    ensures outcome { let term = bind (lifted_by (B.trees bank.old) lift.entry)
        (tree_at (B.trees bank.old) id) in
        MatchResult result
        (λ made. Names (B.trees bank.new) made term × (left.new + size term ≡ left.old))
        (λ stop. StopsAt stop (left.old < size term)) }
{
    let first = lift.first;
    if number < first {
        return applied(bank, lift.binds, id, left);
    }
    spend(1, left)?;
    let made = bank.var(lifted_number(first, number))?;
    Ok(made)
}

/// A term of a constraint under the bindings. On `Err` the bank may have grown.
#[cycle(sides)]
fn lifted_term<B: Bank>(
    alloc: Global,
    bank: &mut B,
    lift: Lift<'_>,
    id: Id,
    left: &mut u64,
) -> Result<Id, Stop>
    requires known { id.index < length (B.trees bank.old) }
    requires ready { IsLiftReady (B.trees bank.old) lift }
    requires low { IsBelow bound_from (tree_at (B.trees bank.old) id) }
    requires small { left.old ≤ most_symbols }
    ensures grows { Grows (B.trees bank.old) (B.trees bank.new) }
    ensures at_most { left.new ≤ left.old }
    ensures outcome { let term = bind (lifted_by (B.trees bank.old) lift.entry)
        (tree_at (B.trees bank.old) id) in
        MatchResult result
        (λ made. Names (B.trees bank.new) made term × (left.new + size term ≡ left.old))
        (λ stop. StopsAt stop (left.old < size term)) }
{
    match bank.node(id) {
        Node::Var(number) => lifted_variable(bank, lift, id, number, left),
        Node::App(symbol, parts) => {
            spend(1, left)?;
            let arguments = parts.to_vec(alloc)?;
            let made = lifted_terms(alloc, bank, lift, &arguments, left)?;
            let whole = bank.app(symbol, &made.items)?;
            Ok(whole)
        }
    }
}

/// Terms of a constraint under the bindings. On `Err` the bank may have grown.
#[cycle(sides)]
fn lifted_terms<B: Bank>(
    alloc: Global,
    bank: &mut B,
    lift: Lift<'_>,
    terms: &[Id],
    left: &mut u64,
) -> Result<Ids, Stop>
    requires known { AreKnown (B.trees bank.old) terms.now }
    requires ready { IsLiftReady (B.trees bank.old) lift }
    requires low { AreBelow bound_from (map (tree_at (B.trees bank.old)) terms.now) }
    requires small { left.old ≤ most_symbols }
    ensures grows { Grows (B.trees bank.old) (B.trees bank.new) }
    ensures at_most { left.new ≤ left.old }
    ensures outcome { let trees = map (bind (lifted_by (B.trees bank.old) lift.entry))
        (map (tree_at (B.trees bank.old)) terms.now) in
        MatchResult result
        (λ made. NameTerms (B.trees bank.new) made trees × (left.new + total size trees ≡ left.old))
        (λ stop. StopsAt stop (left.old < total size trees)) }
{
    let mut items = Vec::with_capacity(alloc, terms.len())?;
    'each: for term in terms {
        let next = lifted_term(alloc, bank, lift, *term, left)?;
        items.push(next)?;
    }
    Ok(Ids { items })
}

/// A constraint under the bindings. On `Err` the bank may have grown.
fn applied_diff<B: Bank>(
    alloc: Global,
    bank: &mut B,
    binds: &Binds,
    diff: &Diff,
    left: &mut u64,
) -> Result<Diff, Stop>
    requires known { IsDiffIn (B.trees bank.old) diff.now }
    requires ready { IsReady (B.trees bank.old) binds.now.pairs }
    requires low { AreDiffLeavesBelow bound_from (B.trees bank.old) diff.now }
    requires kept { KeepsBelow bound_from
        (resolved (seen (B.trees bank.old) binds.now.pairs)) }
    requires small { left.old ≤ most_symbols }
    ensures grows { Grows (B.trees bank.old) (B.trees bank.new) }
    ensures at_most { left.new ≤ left.old }
    ensures outcome { let tree = diff_under (resolved (seen (B.trees bank.old) binds.now.pairs))
        (diff_at (B.trees bank.old) diff.now) in
        MatchResult result
        (λ made. NamesDiff (B.trees bank.new) made tree × (left.new + diff_size tree ≡ left.old))
        (λ stop. StopsAt stop (left.old < diff_size tree)) }
{
    spend(1, left)?;
    let lift = Lift {
        binds,
        first: diff.first,
    };
    let lefts = lifted_terms(alloc, bank, lift, &diff.left.items, left)?;
    let rights = lifted_terms(alloc, bank, lift, &diff.right.items, left)?;
    Ok(Diff {
        first: BOUND_FROM,
        left: lefts,
        right: rights,
    })
}

/// The constraints under the bindings. On `Err` the bank may have grown.
pub(crate) fn applied_diffs<B: Bank>(
    alloc: Global,
    bank: &mut B,
    binds: &Binds,
    diffs: &[Diff],
    left: &mut u64,
) -> Result<Diffs, Stop>
    requires known { AreDiffsIn (B.trees bank.old) diffs.now }
    requires ready { IsReady (B.trees bank.old) binds.now.pairs }
    requires low { AreDiffsBelow bound_from (B.trees bank.old) diffs.now }
    requires kept { KeepsBelow bound_from
        (resolved (seen (B.trees bank.old) binds.now.pairs)) }
    requires small { left.old ≤ most_symbols }
    ensures grows { Grows (B.trees bank.old) (B.trees bank.new) }
    ensures outcome { let trees = map (diff_under
        (resolved (seen (B.trees bank.old) binds.now.pairs)))
        (diffs_at (B.trees bank.old) diffs.now) in
        MatchResult result
        (λ made. NameDiffs (B.trees bank.new) made trees ×
        (left.new + total diff_size trees ≡ left.old))
        (λ stop. StopsAt stop (left.old < total diff_size trees)) }
{
    let mut items = Vec::with_capacity(alloc, diffs.len())?;
    'each: for diff in diffs {
        let next = applied_diff(alloc, bank, binds, diff, left)?;
        items.push(next)?;
    }
    Ok(Diffs { items })
}
