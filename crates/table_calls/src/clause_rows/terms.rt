//! What a bank tells of terms, and how many trees it holds. The terms are what `bad` stands over in the conclusion of a clause.

ghost use Rattle.std.specs.Prelude.{◌<◌, length, IfOk};
ghost use Rattle.term_tree.specs.Bank.{AreKnown};
ghost use Rattle.clause_form.specs.Seen.{IsClauseIn};

use crate::clause_rows::term_lists::{add_behind, number_of};
use clause_form::{Clause, Fact, PlainClause, copy_into, read_out};
use std::alloc::{AllocError, Global};
use term_tree::{Bank, Id, Mark, Sym, TreeBank};

/// Each of the terms, as `add_term` has it.
pub fn terms_text<B: Bank>(alloc: Global, bank: &B, clause: &Clause) -> Result<String, AllocError>
    requires { IsClauseIn (B.trees bank.now) clause.now }
{
    match &clause.concl {
        Fact::Bad(terms) => list_text(alloc, bank, &terms.items),
        _ => String::from_str(alloc, "no list"),
    }
}

/// The same of a list of terms.
fn list_text<B: Bank>(alloc: Global, bank: &B, terms: &[Id]) -> Result<String, AllocError>
    requires { AreKnown (B.trees bank.now) terms.now }
{
    let mut text = String::new(alloc);
    for term in terms {
        add_term(alloc, bank, terms, *term, &mut text)?;
    }
    Ok(text)
}

/// Adds the size of a term, whether it has no variable, and the place, from 1, of the first of the terms that is the same.
fn add_term<B: Bank>(
    alloc: Global,
    bank: &B,
    terms: &[Id],
    term: Id,
    text: &mut String,
) -> Result<(), AllocError>
    requires all { AreKnown (B.trees bank.now) terms.now }
    requires known { term.index < length (B.trees bank.now) }
{
    let size = bank.size(term);
    let kind = kind_name(bank.is_ground(term));
    let place = place_of(bank, terms, term);
    add_behind(format!(in alloc; "{size} {kind} {place}")?.as_str(), text)
}

/// `closed` for a term without variables, and else `open`.
fn kind_name(is_ground: bool) -> &'static str {
    if is_ground { "closed" } else { "open" }
}

/// The place, from 1, of the first of the terms that is the same; 0 where none is.
fn place_of<B: Bank>(bank: &B, terms: &[Id], term: Id) -> usize
    requires all { AreKnown (B.trees bank.now) terms.now }
    requires known { term.index < length (B.trees bank.now) }
{
    let mut place = 1usize;
    for other in terms {
        if bank.same(*other, term) {
            return place;
        }
        place = place.saturating_add(1);
    }
    0
}

/// How many trees the bank holds, once it is emptied and the clause is copied into it again.
pub fn trees_text<B: Bank>(
    alloc: Global,
    bank: &mut B,
    clause: &Clause,
) -> Result<String, AllocError>
    requires { IsClauseIn (B.trees bank.old) clause.now }
{
    let plain = read_out(alloc, bank, clause)?;
    copied_again(alloc, bank, &plain)
}

/// The same of a plain clause.
fn copied_again<B: Bank>(
    alloc: Global,
    bank: &mut B,
    plain: &PlainClause,
) -> Result<String, AllocError> {
    bank.back(Mark { len: 0 });
    copy_into(alloc, bank, plain)?;
    let held = bank.mark().len;
    format!(in alloc; "{held}")
}

/// The size of a term that is doubled as many times as a variable's number says.
pub fn tower_text(
    alloc: Global,
    bank: &mut TreeBank,
    term: Id,
    variable: Id,
) -> Result<String, AllocError>
    requires term { term.index < length bank.old }
    requires variable { variable.index < length bank.old }
{
    let times = number_of(bank, variable).unwrap_or(0);
    let made = tower(bank, term, times)?;
    let size = bank.size(made);
    format!(in alloc; "{size}")
}

/// A term doubled so many times.
fn tower(bank: &mut TreeBank, term: Id, times: u32) -> Result<Id, AllocError>
    requires { term.index < length bank.old }
    ensures { IfOk result (λ id. id.index < length bank.new) }
{
    let mut id = term;
    for _ in 0..times {
        id = doubled(bank, id)?;
    }
    Ok(id)
}

/// A constructor over a term and that term again.
fn doubled(bank: &mut TreeBank, term: Id) -> Result<Id, AllocError>
    requires { term.index < length bank.old }
    ensures { IfOk result (λ id. id.index < length bank.new) }
{
    bank.app(Sym::Ctor(1), &[term, term])
}
