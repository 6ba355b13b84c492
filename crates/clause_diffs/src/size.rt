//! Sizes of constraints.

ghost use Rattle.std.specs.Prelude.{◌≡◌, ℕ, ◌+◌, map};
ghost use Rattle.spec_trees.specs.Tree.{size};
ghost use Rattle.spec_clauses.specs.Diff.{diff_size};
ghost use Rattle.spec_clauses.specs.Fact.{total};
ghost use Rattle.term_tree.specs.Bank.{tree_at, AreKnown, capped};
ghost use Rattle.clause_diffs.specs.Diffs.{diff_at, diffs_at, IsDiffIn, AreDiffsIn};

use crate::diffs::Diff;
use term_tree::{Bank, Id, SIZE_LIMIT};

/// So many symbols more, as they are told.
pub fn add_symbols(symbols: u64, more: u64) -> u64
    ensures { (m n : ℕ) → symbols ≡ capped m → more ≡ capped n → result ≡ capped (m + n) }
{
    symbols.saturating_add(more).min(SIZE_LIMIT)
}

/// The size of terms together, or `SIZE_LIMIT` where it is greater. Takes no memory.
pub fn size_of_terms<B: Bank>(bank: &B, terms: &[Id]) -> u64
    requires { AreKnown (B.trees bank.now) terms.now }
    ensures { result ≡ capped (total size (map (tree_at (B.trees bank.now)) terms.now)) }
{
    let mut symbols = 0u64;
    for term in terms {
        symbols = add_symbols(symbols, bank.size(*term));
    }
    symbols
}

/// The size of a constraint: one, and one for each symbol and occurrence of a variable.
fn size_of_diff<B: Bank>(bank: &B, diff: &Diff) -> u64
    requires { IsDiffIn (B.trees bank.now) diff.now }
    ensures { result ≡ capped (diff_size (diff_at (B.trees bank.now) diff.now)) }
{
    let left = size_of_terms(bank, &diff.left.items);
    let right = size_of_terms(bank, &diff.right.items);
    add_symbols(1, add_symbols(left, right))
}

/// The size of constraints together, or `SIZE_LIMIT` where it is greater. Takes no memory.
pub fn size_of_diffs<B: Bank>(bank: &B, diffs: &[Diff]) -> u64
    requires { AreDiffsIn (B.trees bank.now) diffs.now }
    ensures { result ≡ capped (total diff_size (diffs_at (B.trees bank.now) diffs.now)) }
{
    let mut symbols = 0u64;
    for diff in diffs {
        symbols = add_symbols(symbols, size_of_diff(bank, diff));
    }
    symbols
}
