//! What is left of the limit of size, and terms under the bindings of a unifier as long as it suffices.

ghost use Rattle.std.specs.Prelude.{◌≡◌, ◌+◌, ◌<◌, ◌≤◌, length, MatchResult};
ghost use Rattle.spec_trees.specs.Tree.{bind, size};
ghost use Rattle.spec_terms.specs.Binding.{resolved};
ghost use Rattle.spec_calculus.specs.Bounds.{most_symbols};
ghost use Rattle.term_tree.specs.Bank.{tree_at, Names, Grows};
ghost use Rattle.unify_match.specs.Seen.{seen, IsReady};
ghost use Rattle.clause_resolve.specs.Stops.{StopsAt};

use crate::stop::Stop;
use term_tree::{Bank, Id};
use unify_match::{Binds, apply_bound};

/// Takes symbols from those that are left.
pub(crate) fn spend(symbols: u64, left: &mut u64) -> Result<(), Stop>
    ensures at_most { left.new ≤ left.old }
    ensures outcome { MatchResult result
        (λ _. left.new + symbols ≡ left.old)
        (λ stop. StopsAt stop (left.old < symbols)) }
{
    if *left < symbols {
        return Err(Stop::Large);
    }
    *left -= symbols;
    Ok(())
}

/// A term under the bindings. On `Err` the bank may have grown.
pub(crate) fn applied<B: Bank>(
    bank: &mut B,
    binds: &Binds,
    id: Id,
    left: &mut u64,
) -> Result<Id, Stop>
    requires known { id.index < length (B.trees bank.old) }
    requires ready { IsReady (B.trees bank.old) binds.now.pairs }
    requires small { left.old ≤ most_symbols }
    ensures grows { Grows (B.trees bank.old) (B.trees bank.new) }
    ensures at_most { left.new ≤ left.old }
    ensures outcome { let term = bind (resolved (seen (B.trees bank.old) binds.now.pairs))
        (tree_at (B.trees bank.old) id) in
        MatchResult result
        (λ made. Names (B.trees bank.new) made term × (left.new + size term ≡ left.old))
        (λ stop. StopsAt stop (left.old < size term)) }
{
    match apply_bound(bank, id, binds, *left)? {
        Some(made) => {
            *left -= bank.size(made);
            Ok(made)
        }
        None => Err(Stop::Large),
    }
}
