//! What rows about features show: those of a clause, and which of two clauses an index of both tells for each of them.

ghost use Rattle.clause_form.specs.Seen.{IsClauseIn};

use crate::clause_rows::pairs::is_small;
use clause_form::Clause;
use feature_index::{Features, Index, features};
use std::alloc::{AllocError, Global};
use table_texts::writing::write_behind;
use term_tree::{Bank, TreeBank};

/// The features of a clause, if it is within the limit of size.
fn features_within<B: Bank>(bank: &B, clause: &Clause) -> Option<Features>
    requires { IsClauseIn (B.trees bank.now) clause.now }
{
    if is_small(bank, clause) {
        return Some(features(bank, clause));
    }
    None
}

/// The lanes of a clause's features.
pub fn lanes_text<B: Bank>(alloc: Global, bank: &B, clause: &Clause) -> Result<String, AllocError>
    requires { IsClauseIn (B.trees bank.now) clause.now }
{
    match features_within(bank, clause) {
        Some(found) => format!(in alloc; "{:?}", found.lanes),
        None => String::from_str(alloc, "too large"),
    }
}

/// What an index of both clauses, 1 and 2, tells for each of them, and then for each once the first one is taken out.
pub fn candidates_text(
    alloc: Global,
    bank: &TreeBank,
    first: &Clause,
    second: &Clause,
) -> Result<String, AllocError>
    requires first { IsClauseIn bank.now first.now }
    requires second { IsClauseIn bank.now second.now }
{
    match (features_within(bank, first), features_within(bank, second)) {
        (Some(first), Some(second)) => indexed_text(alloc, first, second),
        _ => String::from_str(alloc, "too large"),
    }
}

/// The same of the features of both clauses.
fn indexed_text(alloc: Global, first: Features, second: Features) -> Result<String, AllocError> {
    let mut text = String::new(alloc);
    let mut index = Index::new(alloc)?;
    put(&mut index, 1, first)?;
    put(&mut index, 2, second)?;
    add_candidates(alloc, &index, [first, second], &mut text)?;
    index.remove(1);
    add_candidates(alloc, &index, [first, second], &mut text)?;
    Ok(text)
}

/// Puts an entry into an index that hasn't it.
fn put(index: &mut Index, entry: usize, features: Features) -> Result<(), AllocError> {
    if index.holds(entry) {
        return Ok(());
    }
    index.insert(entry, features)
}

/// Adds what an index tells for each of these features.
fn add_candidates(
    alloc: Global,
    index: &Index,
    asked: [Features; 2],
    text: &mut String,
) -> Result<(), AllocError> {
    for features in &asked {
        let found = index.candidates(*features)?;
        write_behind(" | ", text)?;
        text.push_str(format!(in alloc; "{found:?}")?.as_str())?;
    }
    Ok(())
}
