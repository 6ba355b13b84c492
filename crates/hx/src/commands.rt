//! The program's commands.

use certificate_search::DEFAULT_BUDGET as SEARCH_BUDGET;
use pi_tree::{MOST_BUDGET, MOST_QUERIES};

/// The words of the commands.
const POINTS: &str = "points";

const LOG: &str = "log";

const WARN: &str = "warn";

const DRAW: &str = "draw";

const WHY: &str = "why";

const ATTACK: &str = "attack";

const REACH: &str = "reach";

const CERTIFY: &str = "certify";

const CHECK: &str = "check";

/// The options, which stand behind all other words of a command.
const BUDGET: &str = "--budget";

const SVG: &str = "--svg";

const FORMAT: &str = "--format";

const STRICT: &str = "--strict";

const WIDTH: &str = "--width";

const OF_ATTACK: &str = "--attack";

const RUNS: &str = "--runs";

/// The budget, in clauses, where none is given.
const DEFAULT_BUDGET: u32 = 1_000;

/// The budget with which it is asked whether something can happen, where none is given.
const REACH_BUDGET: u32 = 500;

/// How wide the lines of a chart are, in letters: where nothing is told, at least and at most.
const DEFAULT_WIDTH: u32 = 120;

const LEAST_WIDTH: u32 = 40;

const MOST_WIDTH: u64 = 1_000;

/// A query of which the log is asked for, and with which budget.
#[derive(Clone, Copy)]
pub struct LogOf {
    /// The number of the query, from 1 to the limit of queries.
    pub query: u32,
    /// How many clauses the saturation may keep, from 0 to the limit of budgets.
    pub budget: u32,
}

/// The format of certificates where none is named.
const DEFAULT_FORMAT: u8 = 2;

/// A query of which a certificate is looked for.
#[derive(Clone, Copy)]
pub struct CertificateOf {
    /// The number of the query, from 1 to the limit of queries.
    pub query: u32,
    /// How many clauses a plan of the search may keep, from 0 to the limit of budgets.
    pub budget: u32,
    /// The format in which the certificate is written, 1 or 2, where all is by selection.
    pub format: u8,
}

/// The run that is to be drawn.
#[derive(Clone, Copy)]
pub enum RunOf<'a> {
    /// That of the file with this name.
    File(&'a str),
    /// That of an attack.
    Attack(LogOf),
}

/// How a run is to be drawn.
#[derive(Clone, Copy)]
pub enum Look {
    /// As text, on lines of so many letters.
    Text(u32),
    /// As SVG.
    Svg,
}

/// What is to be shown of a protocol.
#[derive(Clone, Copy)]
pub enum Command<'a> {
    /// `points FILE`: the process, point by point.
    Points,
    /// `log FILE QUERY [--budget N]`: the log of a query.
    Log(LogOf),
    /// `warn FILE [--strict]`: what is odd about the protocol and its queries.
    Warn {
        /// Whether the status tells that there is something.
        is_strict: bool,
    },
    /// `draw FILE RUN [--svg | --width N]`, or `draw FILE --attack QUERY [--svg | --width N] [--budget N]`: a run as a chart.
    Draw {
        run: RunOf<'a>,
        look: Look,
    },
    /// `why FILE QUERY [--budget N]`: why the query isn't proved.
    Why(LogOf),
    /// `attack FILE QUERY [--budget N]`: a run that violates the query.
    Attack(LogOf),
    /// `reach FILE [--budget N] [--runs]`: what can happen.
    Reach {
        /// How many clauses each saturation may keep, from 0 to the limit of budgets.
        budget: u32,
        /// Whether the runs are shown.
        with_runs: bool,
    },
    /// `certify FILE QUERY [--budget N] [--format F]`: a report with a certificate of the query.
    Certify(CertificateOf),
    /// `check FILE REPORT`: what is found of the certificates of a report.
    Check {
        /// The name of the report's file.
        report: &'a str,
    },
}

/// What the words of a command line ask for.
#[derive(Clone, Copy)]
pub struct Request<'a> {
    /// The name of the protocol's file.
    pub file: &'a str,
    pub command: Command<'a>,
}

/// The word, where it is no option.
fn name_in(word: &str) -> Option<&str> {
    if word.starts_with('-') {
        return None;
    }
    Some(word)
}

/// The number that a word spells, where it is neither less nor greater than these.
fn number_in(word: &str, least: u32, most: u64) -> Option<u32> {
    match word.parse::<u32>() {
        Ok(number) if least <= number && u64::from(number) <= most => Some(number),
        _ => None,
    }
}

/// The budget that the last words of a command tell, or this one where there are none.
fn budget_in(words: &[String], default: u32) -> Option<u32> {
    match words {
        [] => Some(default),
        [option, budget] if option.as_str() == BUDGET => {
            number_in(budget.as_str(), 0, MOST_BUDGET)
        }
        _ => None,
    }
}

/// Of which query the words behind the name of a file ask for the log.
fn log_in(words: &[String]) -> Option<LogOf> {
    let [query, options @ ..] = words else {
        return None;
    };
    let query = number_in(query.as_str(), 1, MOST_QUERIES as u64)?;
    let budget = budget_in(options, DEFAULT_BUDGET)?;
    Some(LogOf { query, budget })
}

/// What is asked for, with an option more.
fn with_option(asked: CertificateOf, option: &str, value: &str) -> Option<CertificateOf> {
    match option {
        BUDGET => Some(CertificateOf {
            budget: number_in(value, 0, MOST_BUDGET)?,
            ..asked
        }),
        FORMAT => match value {
            "1" => Some(CertificateOf { format: 1, ..asked }),
            "2" => Some(CertificateOf { format: 2, ..asked }),
            _ => None,
        },
        _ => None,
    }
}

/// Of which query the words behind the name of a file ask for a certificate, each option at most once.
fn certify_in(words: &[String]) -> Option<CertificateOf> {
    let [query, options @ ..] = words else {
        return None;
    };
    let asked = CertificateOf {
        query: number_in(query.as_str(), 1, MOST_QUERIES as u64)?,
        budget: SEARCH_BUDGET,
        format: DEFAULT_FORMAT,
    };
    match options {
        [] => Some(asked),
        [option, value] => with_option(asked, option.as_str(), value.as_str()),
        [option, value, other, last] if option.as_str() != other.as_str() => {
            let first = with_option(asked, option.as_str(), value.as_str())?;
            with_option(first, other.as_str(), last.as_str())
        }
        _ => None,
    }
}

/// Whether the last words of a command are this option; none where they are anything else.
fn option_in(words: &[String], wanted: &str) -> Option<bool> {
    match words {
        [] => Some(false),
        [option] if option.as_str() == wanted => Some(true),
        _ => None,
    }
}

/// How the last words of a command ask for a run to be drawn.
fn look_in(words: &[String]) -> Option<Look> {
    match words {
        [] => Some(Look::Text(DEFAULT_WIDTH)),
        [option] if option.as_str() == SVG => Some(Look::Svg),
        [option, width] if option.as_str() == WIDTH => Some(Look::Text(number_in(
            width.as_str(),
            LEAST_WIDTH,
            MOST_WIDTH,
        )?)),
        _ => None,
    }
}

/// How the words behind the number of a query ask for the run of an attack to be drawn.
fn draw_attack_in<'a>(query: &str, words: &[String]) -> Option<Command<'a>> {
    let (others, budget) = match words {
        [others @ .., option, budget] if option.as_str() == BUDGET => {
            (others, number_in(budget.as_str(), 0, MOST_BUDGET)?)
        }
        _ => (words, DEFAULT_BUDGET),
    };
    let query = number_in(query, 1, MOST_QUERIES as u64)?;
    let look = look_in(others)?;
    let run = RunOf::Attack(LogOf { query, budget });
    Some(Command::Draw { run, look })
}

/// How the words behind the name of a file ask for a run to be drawn.
fn draw_in(words: &[String]) -> Option<Command<'_>> {
    match words {
        [option, query, others @ ..] if option.as_str() == OF_ATTACK => {
            draw_attack_in(query.as_str(), others)
        }
        [run, options @ ..] => {
            let run = RunOf::File(name_in(run.as_str())?);
            let look = look_in(options)?;
            Some(Command::Draw { run, look })
        }
        [] => None,
    }
}

/// How the words behind the name of a file ask what can happen.
fn reach_in<'a>(words: &[String]) -> Option<Command<'a>> {
    let (options, with_runs) = match words {
        [options @ .., last] if last.as_str() == RUNS => (options, true),
        _ => (words, false),
    };
    let budget = budget_in(options, REACH_BUDGET)?;
    Some(Command::Reach { budget, with_runs })
}

/// A command of the name of a file alone, where no word stands behind that.
fn alone<'a>(command: Command<'a>, words: &[String]) -> Option<Command<'a>> {
    if words.is_empty() {
        Some(command)
    } else {
        None
    }
}

/// Of which report the words behind the name of a file ask for the check.
fn check_in(words: &[String]) -> Option<Command<'_>> {
    let [report] = words else {
        return None;
    };
    let report = name_in(report.as_str())?;
    Some(Command::Check { report })
}

/// What the word of a command and those behind the name of the file ask to show.
fn command_in<'a>(word: &str, words: &'a [String]) -> Option<Command<'a>> {
    match word {
        POINTS => alone(Command::Points, words),
        LOG => Some(Command::Log(log_in(words)?)),
        WARN => Some(Command::Warn {
            is_strict: option_in(words, STRICT)?,
        }),
        DRAW => draw_in(words),
        WHY => Some(Command::Why(log_in(words)?)),
        ATTACK => Some(Command::Attack(log_in(words)?)),
        REACH => reach_in(words),
        CERTIFY => Some(Command::Certify(certify_in(words)?)),
        CHECK => check_in(words),
        _ => None,
    }
}

/// Reads the words of a command line, of which the first is the program's name. `None` is for words that are no command.
pub(crate) fn read_words(words: &[String]) -> Option<Request<'_>> {
    let [_, word, file, others @ ..] = words else {
        return None;
    };
    let file = name_in(file.as_str())?;
    let command = command_in(word.as_str(), others)?;
    Some(Request { file, command })
}
