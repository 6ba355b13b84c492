//! The program's commands, as `clap` reads them.
ghost use Rattle.std.specs.Prelude.{◌≡◌, IfOk, false};
ghost use Rattle.clap.specs.Words.{Shape, app_of, rule_of, shape_of, with_subcommand};
ghost use Rattle.clap.specs.declared.builder.command.Command.TheViews.{out-Command as fields_of};
ghost use Rattle.command_words.specs.Commands.{check_shape, format_rule, list_shape, name_rule, program_app};
ghost use Rattle.command_words.specs.Commands.{replay_shape, ring_shape, verdicts_app, verify_shape};

use clap::builder::ValueParser;
use clap::{Arg, Command};
use limits::{MOST_BUDGET, MOST_KEYS, MOST_QUERIES};
use std::alloc::{AllocError, Global};

/// The word of the command that verifies a protocol.
pub const VERIFY: &str = "verify";

/// The word of the command that checks a report.
pub const CHECK: &str = "check";

/// The word of the command that lists clauses.
pub const LIST: &str = "list";

/// The word of the command that replays a run.
pub const REPLAY: &str = "replay";

/// The word of the command that makes a ring and verifies it.
pub const RING: &str = "ring";

/// The id of the argument with the name of the protocol's file.
pub const FILE: &str = "file";

/// The id of the argument with the budget, in clauses, and the name of its option.
pub const BUDGET: &str = "budget";

/// The id of the argument with the format of certificates, and the name of its option.
pub const FORMAT: &str = "format";

/// The id of the argument with the name of the report's file.
pub const REPORT: &str = "report";

/// The id of the argument with the number of a query, from 1.
pub const QUERY: &str = "query";

/// The id of the argument with the name of the run's file.
pub const RUN: &str = "run";

/// The id of the argument with the number of keys of a ring.
pub const STAGES: &str = "stages";

/// The budget, in clauses, where none is given, in decimal digits.
const DEFAULT_BUDGET: &str = "10000";

/// The formats of certificates: the first, and the last, which is taken where none is given, in decimal digits too.
const FIRST_FORMAT: u64 = 1;

const LAST_FORMAT: u64 = 2;

const DEFAULT_FORMAT: &str = "2";

/// The fewest keys of a ring.
const LEAST_KEYS: u64 = 2;

/// The program as `clap` reads its words: one of its commands has to be given.
///
/// `Err` comes only for want of memory.
pub fn program<'a>(alloc: Global) -> Result<Command<'a>, AllocError>
    ensures { IfOk result (λ c. app_of c ≡ program_app) }
{
    let verdicts = commands_on_verdicts(alloc)?;
    let listing = with_command(verdicts, list(alloc))?;
    let replaying = with_command(listing, replay(alloc))?;
    with_command(replaying, ring(alloc))
}

/// The program with the commands about verdicts.
fn commands_on_verdicts<'a>(alloc: Global) -> Result<Command<'a>, AllocError>
    ensures { IfOk result (λ c. app_of c ≡ verdicts_app) }
{
    let bare = Command::new(alloc, "hv").subcommand_required(true);
    let verifying = with_command(bare, verify(alloc))?;
    with_command(verifying, check(alloc))
}

/// The program with one more command, where there was memory for that.
fn with_command<'a>(
    program: Command<'a>,
    command: Result<Command<'a>, AllocError>,
) -> Result<Command<'a>, AllocError>
    ensures { (s : Shape) → IfOk command.entry (λ c. shape_of c ≡ s) →
        IfOk command.entry (λ c. (fields_of c).has_globals ≡ false) →
        IfOk result (λ c. app_of c ≡ with_subcommand (app_of program.entry) s) }
{
    match command {
        Ok(command) => program.subcommand(command),
        Err(error) => {
            drop(program);
            Err(error)
        }
    }
}

/// `--format F`
fn format<'a>(alloc: Global) -> Arg<'a>
    ensures rule { rule_of result ≡ format_rule }
    ensures local { result.global ≡ false }
{
    Arg::new(alloc, FORMAT)
        .long(FORMAT)
        .value_parser(ValueParser::unsigned(FIRST_FORMAT, LAST_FORMAT))
        .default_value(DEFAULT_FORMAT)
}

/// `verify FILE [--budget N] [--format F]`
fn verify<'a>(alloc: Global) -> Result<Command<'a>, AllocError>
    ensures shape { IfOk result (λ c. shape_of c ≡ verify_shape) }
    ensures local { IfOk result (λ c. (fields_of c).has_globals ≡ false) }
{
    let named = Command::new(alloc, VERIFY).arg(required_name(alloc, FILE))?;
    let budget = Arg::new(alloc, BUDGET)
        .long(BUDGET)
        .value_parser(ValueParser::unsigned(0, MOST_BUDGET))
        .default_value(DEFAULT_BUDGET);
    named.arg(budget)?.arg(format(alloc))
}

/// `check FILE REPORT`
fn check<'a>(alloc: Global) -> Result<Command<'a>, AllocError>
    ensures shape { IfOk result (λ c. shape_of c ≡ check_shape) }
    ensures local { IfOk result (λ c. (fields_of c).has_globals ≡ false) }
{
    Command::new(alloc, CHECK)
        .arg(required_name(alloc, FILE))?
        .arg(required_name(alloc, REPORT))
}

/// `list FILE QUERY`
fn list<'a>(alloc: Global) -> Result<Command<'a>, AllocError>
    ensures shape { IfOk result (λ c. shape_of c ≡ list_shape) }
    ensures local { IfOk result (λ c. (fields_of c).has_globals ≡ false) }
{
    let named = Command::new(alloc, LIST).arg(required_name(alloc, FILE))?;
    let query = Arg::new(alloc, QUERY)
        .required(true)
        .value_parser(ValueParser::unsigned(1, MOST_QUERIES as u64));
    named.arg(query)
}

/// `replay FILE RUN`
fn replay<'a>(alloc: Global) -> Result<Command<'a>, AllocError>
    ensures shape { IfOk result (λ c. shape_of c ≡ replay_shape) }
    ensures local { IfOk result (λ c. (fields_of c).has_globals ≡ false) }
{
    Command::new(alloc, REPLAY)
        .arg(required_name(alloc, FILE))?
        .arg(required_name(alloc, RUN))
}

/// `ring STAGES`
fn ring<'a>(alloc: Global) -> Result<Command<'a>, AllocError>
    ensures shape { IfOk result (λ c. shape_of c ≡ ring_shape) }
    ensures local { IfOk result (λ c. (fields_of c).has_globals ≡ false) }
{
    let stages = Arg::new(alloc, STAGES)
        .required(true)
        .value_parser(ValueParser::unsigned(LEAST_KEYS, MOST_KEYS));
    Command::new(alloc, RING).arg(stages)
}

/// An argument with the name of a file, which the command wants.
fn required_name<'a>(alloc: Global, id: &'a str) -> Arg<'a>
    ensures rule { rule_of result ≡ name_rule id.entry.now }
    ensures local { result.global ≡ false }
{
    Arg::new(alloc, id).required(true)
}
