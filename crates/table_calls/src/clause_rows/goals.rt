//! What rows of a query show: its goal clause, the first row by which a clause satisfies it, and whether a row holds.
//!
//! A query stands as in the file of a protocol: `event end(x) ==> event begin(x)`, of the names of `signature`.

ghost use Rattle.std.specs.Prelude.{◌≡◌, true};
ghost use Rattle.pi_tree.specs.Protocols.{protocol_of};
ghost use Rattle.clause_form.specs.Seen.{IsClauseIn};
ghost use Rattle.table_calls.specs.Asked.{IsAsked};

use crate::clause_rows::asking::asked_by;
use crate::clause_rows::pairs::{add_position, is_small};
use crate::clause_rows::tables::{texts_of, yes_or_no};
use clause_form::{Clause, PlainClause, copy_into};
use pi_tree::Protocol;
use query_derive::{Positions, QueryRow, goal_clause, query_row_holds, satisfies};
use std::alloc::{AllocError, Global};
use table_texts::reading::clause_of;
use table_texts::signature::number_in;
use term_tree::TreeBank;

/// A table whose rows begin with a query.
#[derive(Clone, Copy)]
pub enum GoalTable {
    /// The goal clause of a query.
    Goals,
    /// The first goal row of a clause.
    FirstRows,
    /// Whether a goal row holds of a clause.
    HeldRows,
}

impl GoalTable {
    /// What a row with these texts shows: a query, and what stands behind it.
    pub fn shown(self, alloc: Global, texts: &str) -> Result<String, AllocError> {
        let (query, others) = texts.split_once(" ;").unwrap_or((texts, ""));
        match asked_by(alloc, query)? {
            Some(protocol) => self.shown_of(alloc, &protocol, others),
            None => String::from_str(alloc, "no query"),
        }
    }

    /// The same of the query of a protocol.
    fn shown_of(
        self,
        alloc: Global,
        protocol: &Protocol,
        others: &str,
    ) -> Result<String, AllocError>
        requires { IsAsked (protocol_of protocol.now) }
    {
        match self {
            GoalTable::Goals => goal_text(alloc, protocol),
            GoalTable::FirstRows => first_text(alloc, protocol, others),
            GoalTable::HeldRows => held_text(alloc, protocol, others),
        }
    }
}

/// The goal clause.
fn goal_text(alloc: Global, protocol: &Protocol) -> Result<String, AllocError>
    requires { IsAsked (protocol_of protocol.now) }
{
    let mut bank = TreeBank::new(alloc)?;
    goal_within(alloc, &mut bank, protocol)
}

/// The goal clause, made in a bank.
fn goal_within(
    alloc: Global,
    bank: &mut TreeBank,
    protocol: &Protocol,
) -> Result<String, AllocError>
    requires { IsAsked (protocol_of protocol.now) }
{
    let goals = goal_clause(alloc, bank, protocol, 1)?;
    texts_of(alloc, bank, &goals.items)
}

/// The first goal row of the clause that a text spells.
fn first_text(alloc: Global, protocol: &Protocol, text: &str) -> Result<String, AllocError>
    requires { IsAsked (protocol_of protocol.now) }
{
    let Some(plain) = clause_of(alloc, text)? else {
        return String::from_str(alloc, "no clause");
    };
    let mut bank = TreeBank::new(alloc)?;
    let clause = copy_into(alloc, &mut bank, &plain)?;
    first_in(alloc, &bank, &clause, protocol)
}

/// The first goal row of a clause over ids, or `none`.
fn first_in(
    alloc: Global,
    bank: &TreeBank,
    clause: &Clause,
    protocol: &Protocol,
) -> Result<String, AllocError>
    requires known { IsClauseIn bank.now clause.now }
    requires asked { IsAsked (protocol_of protocol.now) }
{
    if !is_small(bank, clause) {
        return String::from_str(alloc, "too large");
    }
    match satisfies(alloc, bank, clause, protocol, 1)? {
        None => String::from_str(alloc, "none"),
        Some(row) => found_text(alloc, bank, clause, protocol, &row),
    }
}

/// A row that was found; `wrong` where it doesn't hold by itself.
fn found_text(
    alloc: Global,
    bank: &TreeBank,
    clause: &Clause,
    protocol: &Protocol,
    row: &QueryRow,
) -> Result<String, AllocError>
    requires known { IsClauseIn bank.now clause.now }
    requires asked { IsAsked (protocol_of protocol.now) }
{
    if !query_row_holds(alloc, bank, clause, protocol, 1, row)? {
        return String::from_str(alloc, "wrong");
    }
    row_text(alloc, row)
}

/// The number of an alternative, and the positions behind it.
fn row_text(alloc: Global, row: &QueryRow) -> Result<String, AllocError> {
    let mut text = String::new(alloc);
    add_position(alloc, row.alternative, &mut text)?;
    for position in &row.positions.items {
        add_position(alloc, *position, &mut text)?;
    }
    Ok(text)
}

/// Whether the row that the second text spells holds of the clause that the first one spells.
fn held_text(alloc: Global, protocol: &Protocol, texts: &str) -> Result<String, AllocError>
    requires { IsAsked (protocol_of protocol.now) }
{
    let (text, numbers) = texts.split_once(" ;").unwrap_or((texts, ""));
    let Some(plain) = clause_of(alloc, text)? else {
        return String::from_str(alloc, "no clause");
    };
    let row = row_of(alloc, numbers)?;
    held_of(alloc, protocol, &plain, &row)
}

/// Whether a row holds of a clause.
fn held_of(
    alloc: Global,
    protocol: &Protocol,
    plain: &PlainClause,
    row: &QueryRow,
) -> Result<String, AllocError>
    requires { IsAsked (protocol_of protocol.now) }
{
    let mut bank = TreeBank::new(alloc)?;
    let clause = copy_into(alloc, &mut bank, plain)?;
    let is_held = query_row_holds(alloc, &bank, &clause, protocol, 1, row)?;
    String::from_str(alloc, yes_or_no(is_held))
}

/// The row that numbers spell: that of an alternative, and positions.
fn row_of(alloc: Global, text: &str) -> Result<QueryRow, AllocError> {
    let mut numbers = text.split_ascii_whitespace();
    let alternative = match numbers.next() {
        Some(digits) => number_in(digits.as_bytes()),
        None => 0,
    };
    let mut items = Vec::new(alloc);
    for digits in numbers {
        items.push(number_in(digits.as_bytes()))?;
    }
    Ok(QueryRow {
        alternative,
        positions: Positions { items },
    })
}
