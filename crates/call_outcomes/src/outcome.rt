//! What a call of the program comes to.

use cert_checker::Ruling;
use cert_form::PlainClauses;
use protocol_loading::ProtocolCode;
use query_verify::{Verdict, Verdicts};
use run_replay::Replayed;
use std::marker::Model;

/// Why a report is refused. The printed code of each is its number here, from 1. The place is that of the line in which it
/// stands; what begins there is told by the rules of docs/FORMATS.md.
#[derive(Clone, Copy)]
pub enum ReportCode {
    /// No report goes on with the byte that stands there, or ends there.
    Syntax,
    /// What stands there is no decimal number within the limit of digits, without leading zero.
    Number,
    /// The word names nothing of the protocol that may stand there.
    Symbol,
    /// What begins there has a wrong number of arguments.
    Arity,
    /// What begins there is too deep, one too many, or not the query that comes next; or the report ends before its last.
    Count,
    /// The file has more bytes than a report may have. This is looked at before all else; its line is 1.
    LongFile,
    /// A node stands earlier, or a number names no earlier node, or none to which the walk through the clauses comes next; or
    /// nodes are left to which it never came.
    NodeOrder,
    /// A node, or a clause up to a number, or all clauses up to one, have more symbols than the limit.
    NodeLarge,
}

/// Why the text of a run is refused. The printed code of each is its number here, from 1.
#[derive(Clone, Copy)]
pub enum RunCode {
    /// The line's first word is that of no step.
    Word,
    /// The line has another count of numbers than the step of its word, or something that is no decimal number
    /// within the limit of digits, without leading zero, where a number should stand.
    Number,
    /// The line has more bytes than the limit.
    LongLine,
    /// The file has more bytes than a run's text may have. This is looked at before all else; its line is 1.
    LongFile,
}

/// A text that is refused, why and where.
#[derive(Clone, Copy)]
pub enum Refusal {
    /// The protocol; line and column are counted from 1, in bytes.
    Protocol {
        line: u64,
        column: u64,
        code: ProtocolCode,
    },
    /// The report; the line is counted from 1.
    Report {
        line: u64,
        code: ReportCode,
    },
    /// The run; the line is counted from 1.
    Run {
        line: u64,
        code: RunCode,
    },
}

/// What is found of what a report claims of a query.
#[derive(Clone, Copy)]
pub enum Finding {
    /// That it is proved, with a certificate, of which this is ruled.
    Ruled(Ruling),
    /// That it is proved, with no certificate.
    Missing,
    /// That whether it holds is unknown, or that there is an attack, which is no proof.
    NotClaimed,
}

/// Findings, one for each query, in order.
pub struct Findings {
    pub items: Vec<Finding>,
}

impl Drop for Findings {
    fn drop(self) {
        let Findings { items } = self;
        drop(items);
    }
}

impl Model for Findings {
    ghost use Rattle.std.specs.Prelude.{List};
    ghost use Rattle.call_outcomes.specs.declared.outcome.Finding.{Finding};

    ghost Value = { List Finding };

    ghost view = { λ a. a.items.items };
}

/// The summary of a ring that was made and verified.
pub struct Ring {
    /// How many keys it has.
    pub stages: u64,
    /// How many bytes its text has.
    pub bytes: u64,
    /// How many clauses its protocol and query are translated into; 0 where the translation is too large.
    pub clauses: u64,
    /// The verdict of its query.
    pub verdict: Verdict,
}

impl Drop for Ring {
    fn drop(self) {
        let Ring {
            stages: _,
            bytes: _,
            clauses: _,
            verdict,
        } = self;
        drop(verdict);
    }
}

/// What a call of the program comes to.
pub enum Outcome {
    /// The words are no command.
    Usage,
    /// The protocol was read, and these are the verdicts of its queries, in their order.
    Verified(Verdicts),
    /// The protocol and the report were read, and this is found of what it claims of the queries, in their order.
    Checked(Findings),
    /// The protocol was read, and these are the clauses that it and the query are translated into.
    Listed(PlainClauses),
    /// The protocol was read, and its translation is too large at this point.
    ListLarge(u32),
    /// The protocol was read, and has no query of this number.
    NoQuery(u64),
    /// The protocol and the run were read, and the run replayed.
    Replayed(Replayed),
    /// The ring was made and verified, and this is its summary.
    Ring(Ring),
    /// A text was refused.
    Refused(Refusal),
    /// A file could not be read.
    ReadFault,
    /// Want of memory, which may come in place of any other outcome.
    Memory,
}

impl Drop for Outcome {
    fn drop(self) {
        match self {
            Outcome::Usage => {}
            Outcome::Verified(part) => drop(part),
            Outcome::Checked(part) => drop(part),
            Outcome::Listed(part) => drop(part),
            Outcome::ListLarge(_) => {}
            Outcome::NoQuery(_) => {}
            Outcome::Replayed(part) => drop(part),
            Outcome::Ring(part) => drop(part),
            Outcome::Refused(part) => drop(part),
            Outcome::ReadFault => {}
            Outcome::Memory => {}
        }
    }
}
