//! The rows of a table. A row is a log, a line each:
//!
//!     clause => att(c)                           the clauses that are given, the goal last
//!     clause att(k) => bad
//!     budget 2                                   how many entries there may be at most
//!     given 1 ; => att(c)                        the entries in order: where each comes from, and its clause
//!     resolvent 1 of 5 with 3 ; => bad ; by 7    behind it the first later entry that subsumes it, if there is one
//!     closed                                     how the log ends, which is the end of the row
//!
//! It ends with `closed`, with `due` and the entry that is due, or with `large` and the solved and the unsolved entry of the
//! pair that is too large, as `large 1 with 2`. Rows may follow for the same clauses, from `budget` on.

use crate::log_rows::saturated::log_text;
use clause_form::PlainClause;
use std::alloc::{AllocError, Global};
use table_rows::{Line, compared, named};
use table_texts::reading::clause_of;
use table_texts::signature::number_in;

/// What a line of a row is that is no entry.
#[derive(Clone, Copy)]
enum Part {
    Clause,
    Budget,
    End,
}

/// The first words of these lines.
const PARTS: [(&str, Part); 5] = [
    ("clause", Part::Clause),
    ("budget", Part::Budget),
    ("closed", Part::End),
    ("due", Part::End),
    ("large", Part::End),
];

/// The rows of a table, the last one as far as it is read.
#[derive(Drop)]
pub struct LogRows {
    given: Vec<Box<PlainClause>>,
    budget: u64,
    expected: String,
    /// Whether a row with these clauses has ended.
    has_ended: bool,
}

impl LogRows {
    /// No line is read.
    pub fn new(alloc: Global) -> LogRows {
        LogRows {
            given: Vec::new(alloc),
            budget: 0,
            expected: String::new(alloc),
            has_ended: false,
        }
    }

    /// Reads the next line of a row, and compares the log that it shows with what it expects where it ends.
    pub fn follow(&mut self, alloc: Global, line: &str) -> Result<Line, AllocError> {
        let (word, text) = line.split_once(' ').unwrap_or((line, ""));
        match named(&PARTS, word) {
            Some(Part::Clause) => self.add_given(alloc, text),
            Some(Part::Budget) => Ok(self.set_budget(text)),
            Some(Part::End) => self.end(alloc, line),
            None => self.add_entry(line),
        }
    }

    /// Adds a given clause. The first one behind the end of a row begins the next.
    fn add_given(&mut self, alloc: Global, text: &str) -> Result<Line, AllocError> {
        if self.has_ended {
            self.given.clear();
            self.has_ended = false;
        }
        match clause_of(alloc, text)? {
            Some(clause) => {
                self.given.push(clause)?;
                Ok(Line::Setting)
            }
            None => Ok(Line::Wrong(String::from_str(alloc, "no clause")?)),
        }
    }

    /// Sets the budget.
    fn set_budget(&mut self, text: &str) -> Line {
        self.budget = u64::from(number_in(text.as_bytes()));
        Line::Setting
    }

    /// Adds an entry to what is expected.
    fn add_entry(&mut self, line: &str) -> Result<Line, AllocError> {
        self.expect(line)?;
        Ok(Line::Setting)
    }

    /// Adds a line to what is expected.
    fn expect(&mut self, line: &str) -> Result<(), AllocError> {
        self.expected.push_str(line)?;
        self.expected.push('\n')?;
        Ok(())
    }

    /// Ends the row with its last line.
    fn end(&mut self, alloc: Global, line: &str) -> Result<Line, AllocError> {
        self.expect(line)?;
        let shown = log_text(alloc, &self.given, self.budget)?;
        let line = compared(shown, self.expected.as_str());
        self.expected.clear();
        self.has_ended = true;
        Ok(line)
    }
}
