//! The tables, by the names of their files.

ghost use Rattle.clause_form.specs.Seen.{IsClauseIn};

use crate::clause_rows::declarations::DeclarationTable;
use crate::clause_rows::fingerprints::meeting_text;
use crate::clause_rows::goals::GoalTable;
use crate::clause_rows::pairs::PairTable;
use crate::clause_rows::tables::ClauseTable;
use crate::clause_rows::term_lists::TermTable;
use clause_form::{Clause, PlainClause, copy_into};
use std::alloc::{AllocError, Global};
use table_rows::named;
use table_texts::reading::clause_of;
use term_tree::TreeBank;

/// A table.
#[derive(Clone, Copy)]
pub enum Table {
    /// One whose rows have a clause each.
    Single(ClauseTable),
    /// One whose rows have two.
    Pair(PairKind),
    /// One whose rows begin with a query.
    Goal(GoalTable),
    /// One whose rows are declarations.
    Declarations(DeclarationTable),
}

/// A table whose rows have two clauses.
#[derive(Clone, Copy)]
pub enum PairKind {
    /// For the clauses themselves.
    Clauses(PairTable),
    /// For the lists of terms in them.
    Lists(TermTable),
    /// For the fingerprints of their conclusions.
    Fingerprints,
}

/// The tables, by the names of their files.
const TABLES: [(&str, Table); 25] = [
    ("norms.txt", Table::Single(ClauseTable::Norms)),
    ("norm_lists.txt", Table::Single(ClauseTable::NormLists)),
    ("parts.txt", Table::Single(ClauseTable::Parts)),
    ("sizes.txt", Table::Single(ClauseTable::Sizes)),
    ("selected.txt", Table::Single(ClauseTable::Selected)),
    ("normal.txt", Table::Single(ClauseTable::Normal)),
    ("copies.txt", Table::Single(ClauseTable::Copies)),
    ("terms.txt", Table::Single(ClauseTable::Terms)),
    ("trees.txt", Table::Single(ClauseTable::Trees)),
    ("features.txt", Table::Single(ClauseTable::Features)),
    (
        "resolvents.txt",
        Table::Pair(PairKind::Clauses(PairTable::Resolvents)),
    ),
    (
        "subsumed.txt",
        Table::Pair(PairKind::Clauses(PairTable::Subsumed)),
    ),
    (
        "candidates.txt",
        Table::Pair(PairKind::Clauses(PairTable::Candidates)),
    ),
    ("fingerprints.txt", Table::Pair(PairKind::Fingerprints)),
    (
        "unifiers.txt",
        Table::Pair(PairKind::Lists(TermTable::Unifiers)),
    ),
    (
        "matches.txt",
        Table::Pair(PairKind::Lists(TermTable::Matches)),
    ),
    (
        "taken_back.txt",
        Table::Pair(PairKind::Lists(TermTable::TakenBack)),
    ),
    (
        "renamed.txt",
        Table::Pair(PairKind::Lists(TermTable::Renamed)),
    ),
    ("moved.txt", Table::Pair(PairKind::Lists(TermTable::Moved))),
    (
        "towers.txt",
        Table::Pair(PairKind::Lists(TermTable::Towers)),
    ),
    ("goals.txt", Table::Goal(GoalTable::Goals)),
    ("goal_rows.txt", Table::Goal(GoalTable::FirstRows)),
    ("held_rows.txt", Table::Goal(GoalTable::HeldRows)),
    (
        "attacker.txt",
        Table::Declarations(DeclarationTable::Attacker),
    ),
    ("rules.txt", Table::Declarations(DeclarationTable::Rules)),
];

impl Table {
    /// The table in the file with this name.
    pub fn named(file: &str) -> Option<Table> {
        named(&TABLES, file)
    }

    /// What a row with these texts shows.
    pub fn shown(self, alloc: Global, texts: &str) -> Result<String, AllocError> {
        match self {
            Table::Single(table) => single_shown(alloc, table, texts),
            Table::Pair(kind) => kind.shown(alloc, texts),
            Table::Goal(table) => table.shown(alloc, texts),
            Table::Declarations(table) => table.shown(alloc, texts),
        }
    }
}

/// What a row with a clause shows.
fn single_shown(alloc: Global, table: ClauseTable, text: &str) -> Result<String, AllocError> {
    match clause_of(alloc, text)? {
        Some(clause) => table.shown(alloc, &clause),
        None => String::from_str(alloc, "no clause"),
    }
}

impl PairKind {
    /// What a row with these texts shows: two clauses, with ` ;` between, a `;` that no constraint has.
    fn shown(self, alloc: Global, texts: &str) -> Result<String, AllocError> {
        let (first, second) = texts.split_once(" ;").unwrap_or((texts, ""));
        let Some(first) = clause_of(alloc, first)? else {
            return String::from_str(alloc, "no pair");
        };
        let Some(second) = clause_of(alloc, second)? else {
            return String::from_str(alloc, "no pair");
        };
        let mut bank = TreeBank::new(alloc)?;
        self.shown_within(alloc, &mut bank, &first, &second)
    }

    /// The same with a bank that has neither.
    fn shown_within(
        self,
        alloc: Global,
        bank: &mut TreeBank,
        first: &PlainClause,
        second: &PlainClause,
    ) -> Result<String, AllocError> {
        let first = copy_into(alloc, bank, first)?;
        self.shown_before(alloc, bank, &first, second)
    }

    /// The same with the first clause over ids of a bank.
    fn shown_before(
        self,
        alloc: Global,
        bank: &mut TreeBank,
        first: &Clause,
        second: &PlainClause,
    ) -> Result<String, AllocError>
        requires { IsClauseIn bank.old first.now }
    {
        let second = copy_into(alloc, bank, second)?;
        self.shown_in(alloc, bank, first, &second)
    }

    /// The same with both clauses over ids of a bank.
    fn shown_in(
        self,
        alloc: Global,
        bank: &mut TreeBank,
        first: &Clause,
        second: &Clause,
    ) -> Result<String, AllocError>
        requires first { IsClauseIn bank.old first.now }
        requires second { IsClauseIn bank.old second.now }
    {
        match self {
            PairKind::Clauses(table) => table.shown_in(alloc, bank, first, second),
            PairKind::Lists(table) => table.shown_in(alloc, bank, first, second),
            PairKind::Fingerprints => meeting_text(alloc, bank, first, second),
        }
    }
}
