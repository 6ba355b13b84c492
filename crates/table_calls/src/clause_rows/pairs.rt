//! What rows of two clauses show: the resolvents of a pair, and the row of positions by which one subsumes the other.

ghost use Rattle.std.specs.Prelude.{◌≡◌, true, IfOk, IfSome};
ghost use Rattle.spec_clauses.specs.Limits.{IsWithinLimit};
ghost use Rattle.term_tree.specs.Bank.{Grows};
ghost use Rattle.clause_form.specs.Seen.{clause_at, IsClauseIn, AreClausesIn};
ghost use Rattle.clause_form.specs.Fit.{IsLowWithinLimit, IsFit};

use crate::clause_rows::features::candidates_text;
use crate::clause_rows::tables::texts_of;
use clause_form::{Clause, Normal, is_normal, norm, size_of};
use clause_resolve::{Resolved, resolvents};
use literal_selection::{is_solved, selected};
use multiset_subsume::{Row, cover_row, row_holds};
use pi_tree::MOST_SYMBOLS;
use std::alloc::{AllocError, Global};
use term_tree::{Bank, TreeBank};

/// A table of pairs of clauses.
#[derive(Clone, Copy)]
pub enum PairTable {
    /// The resolvents of a solved and an unsolved clause.
    Resolvents,
    /// The first row of positions by which the first clause subsumes the second.
    Subsumed,
    /// What an index of both by their features tells for each of them.
    Candidates,
}

impl PairTable {
    /// What a row with these two clauses, over ids of a bank, shows.
    pub fn shown_in(
        self,
        alloc: Global,
        bank: &mut TreeBank,
        first: &Clause,
        second: &Clause,
    ) -> Result<String, AllocError>
        requires first { IsClauseIn bank.old first.now }
        requires second { IsClauseIn bank.old second.now }
    {
        match fit_clause(alloc, bank, first)? {
            None => String::from_str(alloc, "not normal"),
            Some(first) => self.shown_of(alloc, bank, &first, second),
        }
    }

    /// The same where the first clause is its own norm.
    fn shown_of(
        self,
        alloc: Global,
        bank: &mut TreeBank,
        first: &Clause,
        second: &Clause,
    ) -> Result<String, AllocError>
        requires first { IsFit bank.old first.now }
        requires second { IsClauseIn bank.old second.now }
    {
        match self {
            PairTable::Resolvents => resolvents_text(alloc, bank, first, second),
            PairTable::Subsumed => cover_text(alloc, bank, first, second),
            PairTable::Candidates => candidates_text(alloc, bank, first, second),
        }
    }
}

/// Whether a clause has no more symbols than the limit.
pub fn is_small<B: Bank>(bank: &B, clause: &Clause) -> bool
    requires { IsClauseIn (B.trees bank.now) clause.now }
    ensures { result ≡ true → IsWithinLimit (clause_at (B.trees bank.now) clause.now) }
{
    size_of(bank, clause) <= MOST_SYMBOLS
}

/// A norm, if it is within the limit of size.
fn fit_of(alloc: Global, bank: &TreeBank, clause: Clause) -> Result<Option<Clause>, AllocError>
    requires known { IsClauseIn bank.now clause }
    requires low { IsLowWithinLimit bank.now clause }
    ensures { IfOk result (λ found. IfSome found (IsFit bank.now)) }
{
    if !is_small(bank, &clause) {
        return Ok(None);
    }
    if !is_normal(alloc, bank, &clause)? {
        return Ok(None);
    }
    Ok(Some(clause))
}

/// The clause with variables of low numbers, if it is its own norm within the limit of size.
pub fn fit_clause(
    alloc: Global,
    bank: &mut TreeBank,
    clause: &Clause,
) -> Result<Option<Clause>, AllocError>
    requires { IsClauseIn bank.old clause.now }
    ensures grows { Grows bank.old bank.new }
    ensures fit { IfOk result (λ found. IfSome found (IsFit bank.new)) }
{
    if !is_normal(alloc, bank, clause)? {
        return Ok(None);
    }
    let copied = clause.copy(alloc)?;
    match norm(alloc, bank, copied)? {
        Normal::Tautology => Ok(None),
        Normal::Clause(made) => fit_of(alloc, bank, made),
    }
}

/// The resolvents of a pair whose second clause is not known to be its own norm.
fn resolvents_text(
    alloc: Global,
    bank: &mut TreeBank,
    solved: &Clause,
    unsolved: &Clause,
) -> Result<String, AllocError>
    requires solved { IsFit bank.old solved.now }
    requires unsolved { IsClauseIn bank.old unsolved.now }
{
    match fit_clause(alloc, bank, unsolved)? {
        None => String::from_str(alloc, "not normal"),
        Some(unsolved) => fit_text(alloc, bank, solved, &unsolved),
    }
}

/// The resolvents of a pair of clauses that are their own norms.
fn fit_text(
    alloc: Global,
    bank: &mut TreeBank,
    solved: &Clause,
    unsolved: &Clause,
) -> Result<String, AllocError>
    requires solved { IsFit bank.old solved.now }
    requires unsolved { IsFit bank.old unsolved.now }
{
    if !is_solved(bank, solved) {
        return String::from_str(alloc, "not solved");
    }
    answer_text(alloc, bank, solved, unsolved)
}

/// The resolvents of a pair, on the hypothesis that is selected.
fn answer_text(
    alloc: Global,
    bank: &mut TreeBank,
    solved: &Clause,
    unsolved: &Clause,
) -> Result<String, AllocError>
    requires solved { IsFit bank.old solved.now }
    requires unsolved { IsFit bank.old unsolved.now }
{
    match selected(bank, unsolved) {
        None => String::from_str(alloc, "nothing selected"),
        Some(at) => match resolvents(alloc, bank, solved, unsolved, at)? {
            Resolved::NoUnifier => String::from_str(alloc, "none"),
            Resolved::Large => String::from_str(alloc, "large"),
            Resolved::Clauses(made) => made_text(alloc, bank, &made.items),
        },
    }
}

/// The texts of resolvents; `nothing` where there are none, as where all were tautologies.
fn made_text(alloc: Global, bank: &TreeBank, clauses: &[Clause]) -> Result<String, AllocError>
    requires { AreClausesIn bank.now clauses.now }
{
    if clauses.is_empty() {
        return String::from_str(alloc, "nothing");
    }
    texts_of(alloc, bank, clauses)
}

/// The first row by which the general clause subsumes the special one, or `none`.
fn cover_text(
    alloc: Global,
    bank: &TreeBank,
    general: &Clause,
    special: &Clause,
) -> Result<String, AllocError>
    requires general { IsFit bank.now general.now }
    requires special { IsClauseIn bank.now special.now }
{
    if !is_small(bank, special) {
        return String::from_str(alloc, "too large");
    }
    match cover_row(alloc, bank, general, special)? {
        None => String::from_str(alloc, "none"),
        Some(row) => held_text(alloc, bank, general, special, &row),
    }
}

/// A row that was found; `wrong` where it doesn't hold by itself.
fn held_text(
    alloc: Global,
    bank: &TreeBank,
    general: &Clause,
    special: &Clause,
    row: &Row,
) -> Result<String, AllocError>
    requires general { IsFit bank.now general.now }
    requires special { IsClauseIn bank.now special.now }
    requires small { IsWithinLimit (clause_at bank.now special.now) }
{
    if !row_holds(alloc, bank, general, special, row)? {
        return String::from_str(alloc, "wrong");
    }
    row_text(alloc, &row.items)
}

/// The positions of a row, or `-` where there are none.
fn row_text(alloc: Global, row: &[u32]) -> Result<String, AllocError> {
    if row.is_empty() {
        return String::from_str(alloc, "-");
    }
    let mut text = String::new(alloc);
    for position in row {
        add_position(alloc, *position, &mut text)?;
    }
    Ok(text)
}

/// Adds a position behind others.
pub fn add_position(alloc: Global, position: u32, text: &mut String) -> Result<(), AllocError> {
    if !text.is_empty() {
        text.push(' ')?;
    }
    text.push_str(format!(in alloc; "{position}")?.as_str())?;
    Ok(())
}
