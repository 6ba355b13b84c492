//! The words of the program's command line, as the request that they make.
//!
//! The words are read by `clap`, by the commands of `commands`, which `specs/Commands.antt` has as
//! plain data. `specs/Request.antt` says what request words make, by what `clap` defines of its
//! parse: the faults that it finds in the words and the matches that it makes of them. The module
//! `laws` has what follows from these definitions.
#![tactic(auto)]

ghost use Rattle.std.specs.Prelude.{◌≡◌, ◌↔◌, IfOk, IsSome, IsTrue, map, option_map};
ghost use Rattle.std.specs.Prelude.{string_bytes};
ghost use Rattle.clap.specs.Words.{found_of, rows_of, subcommand_rows_of};
ghost use Rattle.command_words.specs.Request.{asked, check_in, is_taken, list_in, replay_in};
ghost use Rattle.command_words.specs.Request.{request_of, request_seen, ring_in, verify_in};

mod commands;
pub mod laws;

use clap::ArgMatches;
use clap::error::ErrorKind;
use std::alloc::{AllocError, Global};

/// What the words of a command line ask the program to do. The names are those of the words.
#[derive(Clone, Copy, Debug, PartialEq, Eq)]
pub enum Request<'a> {
    /// `verify FILE [--budget N] [--format F]`: verify each query of the protocol in `file`.
    Verify {
        /// The name of the protocol's file.
        file: &'a str,
        /// How many clauses the saturation may keep for each query, from 0 to the limit of budgets.
        budget: u64,
        /// The format of certificates, 1 or 2.
        format: u64,
    },
    /// `check FILE REPORT`: check each certificate of a report on the protocol in `file`.
    Check {
        /// The name of the protocol's file.
        file: &'a str,
        /// The name of the file that spells the report.
        report: &'a str,
    },
    /// `list FILE QUERY`: list the clauses that the protocol in `file` and a query of it are translated into.
    List {
        /// The name of the protocol's file.
        file: &'a str,
        /// The number of the query, from 1 to the limit of queries.
        query: u64,
    },
    /// `replay FILE RUN`: replay a run of the protocol in `file`.
    Replay {
        /// The name of the protocol's file.
        file: &'a str,
        /// The name of the file that spells the run.
        run: &'a str,
    },
    /// `ring STAGES`: make the ring of so many keys, and verify its query.
    Ring {
        /// How many keys it has, from 2 to the limit.
        stages: u64,
    },
}

/// Reads the words of a command line, of which the first is the program's name, as `clap` does.
/// `None` is for words that `clap` refuses, requests for help among them. `Err` comes only for want of memory.
pub fn read_words<'a>(alloc: Global, words: &'a [String]) -> Result<Option<Request<'a>>, AllocError>
    ensures request { IfOk result (λ r. option_map request_seen r
        ≡ request_of (map string_bytes words.now)) }
    ensures taken { IfOk result (λ r. IsSome r
        ↔ IsTrue (is_taken (map string_bytes words.now))) }
{
    let commands = commands::program(alloc)?;
    match commands.try_get_matches_from(words) {
        Ok(matches) => Ok(requested(&matches)),
        Err(error) => match error.kind() {
            ErrorKind::OutOfMemory => Err(AllocError),
            _ => Ok(None),
        },
    }
}

/// The request in the matches of the program's words.
fn requested<'a>(matches: &ArgMatches<'a>) -> Option<Request<'a>>
    ensures { option_map request_seen result ≡ asked (subcommand_rows_of matches.now) }
{
    match matches.subcommand()? {
        (commands::VERIFY, given) => verify_requested(given),
        (commands::CHECK, given) => check_requested(given),
        (commands::LIST, given) => list_requested(given),
        (commands::REPLAY, given) => replay_requested(given),
        (commands::RING, given) => ring_requested(given),
        _ => None,
    }
}

/// The request in the matches of the words behind `verify`.
fn verify_requested<'a>(given: &ArgMatches<'a>) -> Option<Request<'a>>
    ensures { option_map request_seen result ≡ verify_in (rows_of (found_of given.now)) }
{
    Some(Request::Verify {
        file: given.get_str(commands::FILE)?,
        budget: given.get_one(commands::BUDGET)?,
        format: given.get_one(commands::FORMAT)?,
    })
}

/// The request in the matches of the words behind `check`.
fn check_requested<'a>(given: &ArgMatches<'a>) -> Option<Request<'a>>
    ensures { option_map request_seen result ≡ check_in (rows_of (found_of given.now)) }
{
    Some(Request::Check {
        file: given.get_str(commands::FILE)?,
        report: given.get_str(commands::REPORT)?,
    })
}

/// The request in the matches of the words behind `list`.
fn list_requested<'a>(given: &ArgMatches<'a>) -> Option<Request<'a>>
    ensures { option_map request_seen result ≡ list_in (rows_of (found_of given.now)) }
{
    Some(Request::List {
        file: given.get_str(commands::FILE)?,
        query: given.get_one(commands::QUERY)?,
    })
}

/// The request in the matches of the words behind `replay`.
fn replay_requested<'a>(given: &ArgMatches<'a>) -> Option<Request<'a>>
    ensures { option_map request_seen result ≡ replay_in (rows_of (found_of given.now)) }
{
    Some(Request::Replay {
        file: given.get_str(commands::FILE)?,
        run: given.get_str(commands::RUN)?,
    })
}

/// The request in the matches of the words behind `ring`.
fn ring_requested<'a>(given: &ArgMatches<'a>) -> Option<Request<'a>>
    ensures { option_map request_seen result ≡ ring_in (rows_of (found_of given.now)) }
{
    Some(Request::Ring {
        stages: given.get_one(commands::STAGES)?,
    })
}
