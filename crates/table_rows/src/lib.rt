//! Tables of rows that were worked out by hand: a program reads each table that its words name, and compares what each row
//! shows with what it expects.
//!
//! Nothing is proved here but that all is safe and ends. What a row is, and what it shows, is told by the program, as `Rows`.
#![tactic(auto)]

use std::alloc::{AllocError, Global};
use std::env::Env;
use std::process::ExitCode;
use std::rt::Files;
use std::{env, fs, io};

/// The status that a program ends with where a row shows something else than it expects.
const ANOTHER: u8 = 1;

/// The status that a program ends with where a table can't be read, or memory or the output fails.
const FAILED: u8 = 7;

/// What a line of a table is.
#[derive(Drop)]
pub enum Line {
    /// A setting, a part of a row that goes on, a comment or nothing.
    Setting,
    /// A row, or the end of one, that shows what it expects.
    Right,
    /// A row, or the end of one, that shows this, and expects something else.
    Wrong(String),
}

/// The rows of a table, read line by line.
pub trait Rows: Drop {
    /// The rows of the table with this name, of which no line is read.
    fn new(alloc: Global, name: &str) -> Result<Self, AllocError>;

    /// Does what a line says: sets something for the rows below, or compares what a row shows with what it expects. The line
    /// is neither empty nor a comment.
    fn follow(&mut self, alloc: Global, line: &str) -> Result<Line, AllocError>;
}

/// What a table of names has for this name, if anything.
pub fn named<T: Copy>(table: &[(&str, T)], name: &str) -> Option<T> {
    for (word, value) in table {
        if *word == name {
            return Some(*value);
        }
    }
    None
}

/// A row that shows this, and expects that.
pub fn compared(shown: String, expected: &str) -> Line {
    if shown.as_str() == expected {
        Line::Right
    } else {
        Line::Wrong(shown)
    }
}

/// A row that shows that its words are none of the table's.
pub fn unknown(alloc: Global) -> Result<Line, AllocError> {
    Ok(Line::Wrong(String::from_str(alloc, "no such word")?))
}

/// Checks the tables that the program's words name, and writes each row that shows something else than it expects, and how
/// many rows of each table show what they expect.
pub fn check<R: Rows, T: Env + Files + Print + AllocGlobal>(rt: &T) -> ExitCode {
    match check_tables::<R, T>(rt) {
        Ok(true) => ExitCode::SUCCESS,
        Ok(false) => ExitCode::from(ANOTHER),
        Err(_) => ExitCode::from(FAILED),
    }
}

/// Whether all rows of the tables that the words name show what they expect.
fn check_tables<R: Rows, T: Env + Files + Print + AllocGlobal>(rt: &T) -> io::Result<bool> {
    let words: Vec<String> = env::args(rt)?.collect(rt.alloc())?;
    let mut is_right = true;
    for name in words.iter().skip(1) {
        let table = fs::read_to_string(rt, name.as_str())?;
        if !check_table::<R, T>(rt, name.as_str(), table.as_str())? {
            is_right = false;
        }
    }
    Ok(is_right)
}

/// Whether all rows of the table show what they expect.
fn check_table<R: Rows, T: Print + AllocGlobal>(
    rt: &T,
    name: &str,
    table: &str,
) -> io::Result<bool> {
    let mut rows = R::new(rt.alloc(), name)?;
    let mut count = 0u64;
    let mut is_right = true;
    for (index, line) in table.lines().enumerate() {
        match follow(&mut rows, rt.alloc(), line)? {
            Line::Setting => {}
            Line::Right => count = count.saturating_add(1),
            Line::Wrong(shown) => {
                println!(rt; "{name}, behind {index} lines: {shown}")?;
                is_right = false;
            }
        }
    }
    println!(rt; "{name}: {count} rows")?;
    Ok(is_right)
}

/// What a line is; one that is empty or a comment is nothing.
fn follow<R: Rows>(rows: &mut R, alloc: Global, line: &str) -> Result<Line, AllocError> {
    if line.is_empty() || line.starts_with('#') {
        return Ok(Line::Setting);
    }
    rows.follow(alloc, line)
}
