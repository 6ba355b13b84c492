//! Whether the sides of a constraint can be equal, and whether terms for its bound variables alone make them so: both by
//! unification (Robinson 1965).

ghost use Rattle.std.specs.Prelude.{◌≡◌, ◌↔◌, IsTrue, IfOk};
ghost use Rattle.std.specs.List.{list_any};
ghost use Rattle.spec_terms.specs.Binding.{resolved};
ghost use Rattle.spec_clauses.specs.DiffDecision.{can_be_equal as can_be_equal_sides, is_never_met as is_never_met_sides};
ghost use Rattle.spec_clauses.specs.Shown.{TellsApart};
ghost use Rattle.unify_match.specs.Seen.{seen, IsReady};
ghost use Rattle.clause_diffs.specs.Diffs.{shown_at, diff_at, diffs_at, IsDiffIn, AreDiffsIn};
ghost use Rattle.clause_diffs.specs.Telling.{variable_of};

use crate::diffs::Diff;
use crate::meeting::unify_lists;
use crate::numbers::{distinct_of, is_number_among};
use crate::variables::own_variables;
use std::alloc::{AllocError, Global};
use term_tree::{Bank, Node};
use unify_match::Binds;

/// Whether the sides of a constraint can be equal: where they can't, each substitution meets it.
///
/// `Err` comes only for want of memory.
pub fn can_be_equal<B: Bank>(alloc: Global, bank: &B, diff: &Diff) -> Result<bool, AllocError>
    requires { IsDiffIn (B.trees bank.now) diff.now }
    ensures { IfOk result (λ yes. yes ≡ can_be_equal_sides (diff_at (B.trees bank.now) diff.now)) }
{
    let mut binds = Binds::new(alloc)?;
    unify_lists(bank, &diff.left.items, &diff.right.items, &mut binds)
}

/// The variable that a variable stands for under the bindings, if it stands for one. Takes no memory.
fn variable_under<B: Bank>(bank: &B, binds: &Binds, number: u32) -> Option<u32>
    requires ready { IsReady (B.trees bank.now) binds.now.pairs }
    ensures { result ≡ variable_of (resolved (seen (B.trees bank.now) binds.now.pairs) number) }
{
    let mut at = number;
    'chain: loop {
        match binds.look(at) {
            None => return Some(at),
            Some(id) => match bank.node(id) {
                Node::Var(next) => at = next,
                Node::App(_, _) => return None,
            },
        }
    }
}

/// Whether the bindings have a variable for each of the clause's variables in a constraint, and none for two of them.
fn tells_apart<B: Bank>(
    alloc: Global,
    bank: &B,
    binds: &Binds,
    diff: &Diff,
) -> Result<bool, AllocError>
    requires known { IsDiffIn (B.trees bank.now) diff.now }
    requires ready { IsReady (B.trees bank.now) binds.now.pairs }
    ensures { IfOk result (λ yes. IsTrue yes ↔ TellsApart
        (resolved (seen (B.trees bank.now) binds.now.pairs))
        (shown_at (B.trees bank.now) diff.now)) }
{
    let all = own_variables(alloc, bank, diff)?;
    let own = distinct_of(alloc, all)?;
    let mut taken = Vec::with_capacity(alloc, own.len())?;
    'each: for number in &own {
        match variable_under(bank, binds, *number) {
            Some(value) => {
                if is_number_among(value, &taken) {
                    return Ok(false);
                }
                taken.push(value)?;
            }
            None => return Ok(false),
        }
    }
    Ok(true)
}

/// Whether no substitution meets a constraint: terms for its bound variables alone make the sides equal.
///
/// `Err` comes only for want of memory.
pub fn is_never_met<B: Bank>(alloc: Global, bank: &B, diff: &Diff) -> Result<bool, AllocError>
    requires { IsDiffIn (B.trees bank.now) diff.now }
    ensures { IfOk result (λ yes. yes ≡ is_never_met_sides (diff_at (B.trees bank.now) diff.now)) }
{
    let mut binds = Binds::new(alloc)?;
    if !unify_lists(bank, &diff.left.items, &diff.right.items, &mut binds)? {
        return Ok(false);
    }
    tells_apart(alloc, bank, &binds, diff)
}

/// Whether no substitution meets one of the constraints, so that a clause with them says nothing.
///
/// `Err` comes only for want of memory.
pub fn is_void<B: Bank>(alloc: Global, bank: &B, diffs: &[Diff]) -> Result<bool, AllocError>
    requires { AreDiffsIn (B.trees bank.now) diffs.now }
    ensures { IfOk result (λ yes. yes ≡
        list_any is_never_met_sides (diffs_at (B.trees bank.now) diffs.now)) }
{
    for diff in diffs {
        if is_never_met(alloc, bank, diff)? {
            return Ok(true);
        }
    }
    Ok(false)
}
