//! Tables of worked rows that look at what no command line shows: calls of the verifier with faults of the outside and with
//! sinks of their own, and values of the calls below it, worked out by hand. The rows of whole command lines stand in `rows/`
//! at the top of the repository.
//!
//! The program reads each table that its words name, does what the rows say on files in memory, and compares what they
//! show with what is expected. It writes each row that shows something else, and how many rows a table has.
#![tactic(auto)]

mod calls;
mod descriptions;
mod ends;
mod protocols;
mod setting;
mod table;
mod texts;
mod values;

use setting::Setting;
use std::process::ExitCode;
use table_rows::check;

fn main(rt: HostRuntime) -> ExitCode {
    check::<Setting, HostRuntime>(&rt)
}
