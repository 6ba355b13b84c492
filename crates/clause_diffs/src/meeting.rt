//! Unification of lists of terms, item by item.

ghost use Rattle.std.specs.Prelude.{◌≡◌, [], map, IfOk, MatchBool};
ghost use Rattle.spec_terms.specs.Binding.{resolved};
ghost use Rattle.term_tree.specs.Bank.{tree_at, AreKnown};
ghost use Rattle.unify_match.specs.Seen.{seen, IsReady};
ghost use Rattle.clause_diffs.specs.Meeting.{IsMguOfAll, HaveNoUnifierOfAll};

use std::alloc::AllocError;
use term_tree::{Bank, Id};
use unify_match::{Binds, unify_all};

/// Binds variables to a most general unifier of two lists of terms; false where there is none, as where the
/// lengths differ.
///
/// `Err` comes only for want of memory.
pub fn unify_lists<B: Bank>(
    bank: &B,
    lefts: &[Id],
    rights: &[Id],
    binds: &mut Binds,
) -> Result<bool, AllocError>
    requires lefts { AreKnown (B.trees bank.now) lefts.now }
    requires rights { AreKnown (B.trees bank.now) rights.now }
    requires none { binds.old.pairs ≡ [] }
    requires ready { IsReady (B.trees bank.now) binds.old.pairs }
    ensures ready { IsReady (B.trees bank.now) binds.new.pairs }
    ensures outcome { let xs = map (tree_at (B.trees bank.now)) lefts.now in
        let ys = map (tree_at (B.trees bank.now)) rights.now in
        IfOk result (λ yes. MatchBool yes
        (IsMguOfAll xs ys (resolved (seen (B.trees bank.now) binds.new.pairs)))
        (HaveNoUnifierOfAll xs ys)) }
{
    if lefts.len() != rights.len() {
        return Ok(false);
    }
    unify_all(bank, lefts, rights, binds)
}
