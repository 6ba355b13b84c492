//! The tables, by the names of their files.

use crate::bank_rows::BankRows;
use crate::certificate_rows::settings::Setting;
use crate::clause_rows::rows::ClauseRows;
use crate::file_rows::FileRows;
use crate::log_rows::rows::LogRows;
use std::alloc::{AllocError, Global};
use table_rows::{Line, Rows, named};

/// What the rows of a table are about.
#[derive(Clone, Copy)]
enum Topic {
    Files,
    Certificates,
    Logs,
    Banks,
}

/// The topics of the tables that aren't about clauses.
const TOPICS: [(&str, Topic); 8] = [
    ("tokens.txt", Topic::Files),
    ("protocols.txt", Topic::Files),
    ("certificates.txt", Topic::Certificates),
    ("numbered.txt", Topic::Certificates),
    ("reports.txt", Topic::Certificates),
    ("certificate_limits.txt", Topic::Certificates),
    ("logs.txt", Topic::Logs),
    ("banks.txt", Topic::Banks),
];

/// The rows of a table.
#[derive(Drop)]
pub enum TableRows {
    /// Rows about files.
    Files(FileRows),
    /// Rows about the texts of certificates.
    Certificates(Setting),
    /// Rows about logs.
    Logs(LogRows),
    /// Rows about banks.
    Banks(BankRows),
    /// Rows about clauses.
    Clauses(ClauseRows),
}

impl Rows for TableRows {
    fn new(alloc: Global, name: &str) -> Result<TableRows, AllocError> {
        Ok(match named(&TOPICS, name) {
            Some(Topic::Files) => TableRows::Files(FileRows::new(alloc)),
            Some(Topic::Certificates) => TableRows::Certificates(Setting::new(alloc)),
            Some(Topic::Logs) => TableRows::Logs(LogRows::new(alloc)),
            Some(Topic::Banks) => TableRows::Banks(BankRows::new(alloc)),
            None => TableRows::Clauses(ClauseRows::new(name)),
        })
    }

    fn follow(&mut self, alloc: Global, line: &str) -> Result<Line, AllocError> {
        match self {
            TableRows::Files(rows) => rows.follow(alloc, line),
            TableRows::Certificates(rows) => rows.follow(alloc, line),
            TableRows::Logs(rows) => rows.follow(alloc, line),
            TableRows::Banks(rows) => rows.follow(alloc, line),
            TableRows::Clauses(rows) => rows.follow(alloc, line),
        }
    }
}
