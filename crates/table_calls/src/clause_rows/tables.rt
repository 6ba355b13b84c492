//! The tables of single clauses, and what a row of each shows, over the plain bank and over the shared one.

ghost use Rattle.clause_form.specs.Seen.{IsClauseIn, AreClausesIn};

use crate::clause_rows::features::lanes_text;
use crate::clause_rows::terms::{terms_text, trees_text};
use clause_form::{
    Clause, Normal, PlainClause, copy_into, flatten, is_normal, norm, read_out, size_of,
};
use clause_norms::norms_of;
use literal_selection::{is_solved, selected};
use std::alloc::{AllocError, Global};
use table_texts::writing::clause_text;
use term_store::SharedBank;
use term_tree::{Bank, SIZE_LIMIT, TreeBank};

/// A table of single clauses.
#[derive(Clone, Copy)]
pub enum ClauseTable {
    /// The norms of clauses.
    Norms,
    /// The norms of the flat parts of clauses.
    NormLists,
    /// The flat parts of clauses.
    Parts,
    /// The sizes of clauses.
    Sizes,
    /// What is selected in clauses.
    Selected,
    /// Which clauses are their own norms.
    Normal,
    /// Clauses that are read out of a bank, copied into another one and read out of that.
    Copies,
    /// The terms in the conclusions of clauses.
    Terms,
    /// How many trees a bank has once clauses are copied into it.
    Trees,
    /// The features of clauses.
    Features,
}

impl ClauseTable {
    /// What a row with this clause shows: over the plain bank, and over the shared one where that is something else.
    pub fn shown(self, alloc: Global, plain: &PlainClause) -> Result<String, AllocError> {
        let over_plain = self.shown_over_plain(alloc, plain)?;
        let over_shared = self.shown_over_shared(alloc, plain)?;
        both(alloc, over_plain, over_shared.as_str())
    }

    /// The same over the plain bank.
    fn shown_over_plain(self, alloc: Global, plain: &PlainClause) -> Result<String, AllocError> {
        let mut bank = TreeBank::new(alloc)?;
        self.shown_within(alloc, &mut bank, plain)
    }

    /// The same over the shared bank.
    fn shown_over_shared(self, alloc: Global, plain: &PlainClause) -> Result<String, AllocError> {
        let mut bank = SharedBank::new(alloc)?;
        self.shown_within(alloc, &mut bank, plain)
    }

    /// The same with a bank that hasn't the clause.
    fn shown_within<B: Bank>(
        self,
        alloc: Global,
        bank: &mut B,
        plain: &PlainClause,
    ) -> Result<String, AllocError> {
        let mark = bank.mark();
        match copy_into(alloc, bank, plain) {
            Ok(clause) => self.shown_in(alloc, bank, &clause),
            Err(error) => refused_text(alloc, bank.mark() == mark, error),
        }
    }

    /// The same of a clause over ids of a bank.
    fn shown_in<B: Bank>(
        self,
        alloc: Global,
        bank: &mut B,
        clause: &Clause,
    ) -> Result<String, AllocError>
        requires { IsClauseIn (B.trees bank.old) clause.now }
    {
        match self {
            ClauseTable::Norms => norm_text(alloc, bank, clause),
            ClauseTable::NormLists => norms_text(alloc, bank, clause),
            ClauseTable::Parts => parts_text(alloc, bank, clause),
            ClauseTable::Sizes => size_text(alloc, bank, clause),
            ClauseTable::Selected => selected_text(alloc, bank, clause),
            ClauseTable::Normal => normal_text(alloc, bank, clause),
            ClauseTable::Copies => copied_text(alloc, bank, clause),
            ClauseTable::Terms => terms_text(alloc, bank, clause),
            ClauseTable::Trees => trees_text(alloc, bank, clause),
            ClauseTable::Features => lanes_text(alloc, bank, clause),
        }
    }
}

/// The first text, and the second one behind it where that is another.
fn both(alloc: Global, first: String, second: &str) -> Result<String, AllocError> {
    if first.as_str() == second {
        return Ok(first);
    }
    format!(in alloc; "{first} / {second}")
}

/// What is shown where memory was refused: nothing where the bank is as it was, and else `grown`.
///
/// `bench/refused_allocations` tries it: a row that shows `grown` ends the program with another status than the refusal does.
fn refused_text(alloc: Global, is_kept: bool, error: AllocError) -> Result<String, AllocError> {
    if is_kept {
        return Err(error);
    }
    String::from_str(alloc, "grown")
}

/// The text of a clause over ids.
fn text_of<B: Bank>(alloc: Global, bank: &B, clause: &Clause) -> Result<String, AllocError>
    requires { IsClauseIn (B.trees bank.now) clause.now }
{
    let plain = read_out(alloc, bank, clause)?;
    clause_text(alloc, &plain)
}

/// Adds the text of a clause behind those of others.
fn add_text<B: Bank>(
    alloc: Global,
    bank: &B,
    clause: &Clause,
    texts: &mut String,
) -> Result<(), AllocError>
    requires { IsClauseIn (B.trees bank.now) clause.now }
{
    let text = text_of(alloc, bank, clause)?;
    if !texts.is_empty() {
        texts.push_str(" | ")?;
    }
    texts.push_str(text.as_str())?;
    Ok(())
}

/// The texts of clauses, one behind the other.
pub fn texts_of<B: Bank>(alloc: Global, bank: &B, clauses: &[Clause]) -> Result<String, AllocError>
    requires { AreClausesIn (B.trees bank.now) clauses.now }
{
    let mut texts = String::new(alloc);
    for clause in clauses {
        add_text(alloc, bank, clause, &mut texts)?;
    }
    Ok(texts)
}

/// The norm of a clause.
fn norm_text<B: Bank>(alloc: Global, bank: &mut B, clause: &Clause) -> Result<String, AllocError>
    requires { IsClauseIn (B.trees bank.old) clause.now }
{
    let copied = clause.copy(alloc)?;
    normed_text(alloc, bank, copied)
}

/// The norm of a clause; `grown` where memory was refused, and the bank isn't as it was.
fn normed_text<B: Bank>(alloc: Global, bank: &mut B, clause: Clause) -> Result<String, AllocError>
    requires { IsClauseIn (B.trees bank.old) clause }
{
    let mark = bank.mark();
    match norm(alloc, bank, clause) {
        Ok(Normal::Tautology) => String::from_str(alloc, "tautology"),
        Ok(Normal::Clause(made)) => text_of(alloc, bank, &made),
        Err(error) => refused_text(alloc, bank.mark() == mark, error),
    }
}

/// The norms of the flat parts of a clause; `grown` where memory was refused, and the bank isn't as it was.
fn norms_text<B: Bank>(alloc: Global, bank: &mut B, clause: &Clause) -> Result<String, AllocError>
    requires { IsClauseIn (B.trees bank.old) clause.now }
{
    let mark = bank.mark();
    match norms_of(alloc, bank, clause) {
        Ok(made) => texts_of(alloc, bank, &made.items),
        Err(error) => refused_text(alloc, bank.mark() == mark, error),
    }
}

/// The flat parts of a clause.
fn parts_text<B: Bank>(alloc: Global, bank: &B, clause: &Clause) -> Result<String, AllocError>
    requires { IsClauseIn (B.trees bank.now) clause.now }
{
    let parts = flatten(alloc, bank, clause)?;
    texts_of(alloc, bank, &parts.items)
}

/// The size of a clause.
fn size_text<B: Bank>(alloc: Global, bank: &B, clause: &Clause) -> Result<String, AllocError>
    requires { IsClauseIn (B.trees bank.now) clause.now }
{
    let size = size_of(bank, clause);
    format!(in alloc; "{size}")
}

/// The place of the selected hypothesis, from 0, or `solved`.
fn selected_text<B: Bank>(alloc: Global, bank: &B, clause: &Clause) -> Result<String, AllocError>
    requires { IsClauseIn (B.trees bank.now) clause.now }
{
    if size_of(bank, clause) == SIZE_LIMIT {
        return String::from_str(alloc, "too large");
    }
    place_text(alloc, selected(bank, clause), is_solved(bank, clause))
}

/// The place that was selected, or `solved`; `wrong` where these disagree.
fn place_text(alloc: Global, place: Option<usize>, solved: bool) -> Result<String, AllocError> {
    match place {
        Some(place) => {
            if solved {
                return String::from_str(alloc, "wrong");
            }
            format!(in alloc; "{place}")
        }
        None => String::from_str(alloc, solved_name(solved)),
    }
}

/// `solved`, or `wrong` for a clause that isn't.
fn solved_name(solved: bool) -> &'static str {
    if solved { "solved" } else { "wrong" }
}

/// Whether a clause is its own norm.
fn normal_text<B: Bank>(alloc: Global, bank: &B, clause: &Clause) -> Result<String, AllocError>
    requires { IsClauseIn (B.trees bank.now) clause.now }
{
    let is_so = is_normal(alloc, bank, clause)?;
    String::from_str(alloc, yes_or_no(is_so))
}

/// `yes`, or `no`.
pub fn yes_or_no(is_so: bool) -> &'static str {
    if is_so { "yes" } else { "no" }
}

/// The clause that is read out of the bank, copied into another one and read out of that.
fn copied_text<B: Bank>(alloc: Global, bank: &B, clause: &Clause) -> Result<String, AllocError>
    requires { IsClauseIn (B.trees bank.now) clause.now }
{
    let plain = read_out(alloc, bank, clause)?;
    text_of_plain(alloc, &plain)
}

/// The clause that is copied into a bank and read out of it.
fn text_of_plain(alloc: Global, plain: &PlainClause) -> Result<String, AllocError> {
    let mut bank = TreeBank::new(alloc)?;
    text_within(alloc, &mut bank, plain)
}

/// The clause that is copied into this bank and read out of it.
fn text_within(
    alloc: Global,
    bank: &mut TreeBank,
    plain: &PlainClause,
) -> Result<String, AllocError> {
    let copied = copy_into(alloc, bank, plain)?;
    text_of(alloc, bank, &copied)
}
