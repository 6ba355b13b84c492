//! The rows of a table: clauses, and what is expected of them, with ` ;` between; in constraints no space stands before a `;`.

use crate::clause_rows::table::Table;
use std::alloc::{AllocError, Global};
use table_rows::{Line, compared};

/// The rows of a table, if there is one with that name.
#[derive(Drop)]
pub struct ClauseRows {
    table: Option<Table>,
}

impl ClauseRows {
    /// The rows of the table in the file with this name.
    pub fn new(name: &str) -> ClauseRows {
        ClauseRows {
            table: Table::named(name),
        }
    }

    /// Compares what a row shows with what it expects.
    pub fn follow(&mut self, alloc: Global, line: &str) -> Result<Line, AllocError> {
        let (texts, expected) = line.rsplit_once(" ;").unwrap_or((line, line));
        match self.table {
            Some(table) => Ok(compared(table.shown(alloc, texts)?, expected.trim())),
            None => Ok(Line::Wrong(String::from_str(alloc, "no table")?)),
        }
    }
}
