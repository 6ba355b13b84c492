//! Tables of rows about the calls below `top`: what each answers, worked out by hand.
//!
//! The program reads each table that its words name, and compares what the rows show with what they expect. It writes
//! each row that shows something else, and how many rows a table has.
//!
//! What a table is about is told by its name (`tables`): files and what they spell (`file_rows`), clauses and what comes of them
//! (`clause_rows`), the logs of saturation (`log_rows`), verdicts over both banks (`bank_rows`), and the texts of certificates and reports
//! (`certificate_rows`).
#![tactic(auto)]

mod bank_rows;
mod certificate_rows;
mod clause_rows;
mod file_rows;
mod log_rows;
mod tables;

use std::process::ExitCode;
use table_rows::check;
use tables::TableRows;

fn main(rt: HostRuntime) -> ExitCode {
    check::<TableRows, HostRuntime>(&rt)
}
