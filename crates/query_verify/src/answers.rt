//! Verdicts of queries.

use cert_form::Cert;
use clause_saturate::{PlainEntry, PlainLog};
use run_replay::Steps;
use std::marker::Model;

/// The verdict of a query. Entries of logs are counted from 1.
pub enum Verdict {
    /// No run violates the query; this certificate shows it.
    Proved(Cert),
    /// The log has as many entries as the budget allows, and this one is due.
    Budget(PlainLog, PlainEntry),
    /// The pair of this solved entry and this unsolved one is too large.
    SizePair(PlainLog, usize, usize),
    /// The visit of this point is too large.
    SizePoint(u32),
    /// The log is closed, and this is the first of its live solved entries with the conclusion `bad` that doesn't satisfy
    /// the query. It tells no attack.
    Unmet(PlainLog, usize),
    /// The log is closed, and the first such entry tells this run, which violates the query.
    Attack(Steps),
}

impl Drop for Verdict {
    fn drop(self) {
        match self {
            Verdict::Proved(part) => drop(part),
            Verdict::Budget(part0, part1) => {
                drop(part0);
                drop(part1);
            }
            Verdict::SizePair(part, _, _) => drop(part),
            Verdict::SizePoint(_) => {}
            Verdict::Unmet(part, _) => drop(part),
            Verdict::Attack(part) => drop(part),
        }
    }
}

/// Verdicts in order.
pub struct Verdicts {
    pub items: Vec<Verdict>,
}

impl Drop for Verdicts {
    fn drop(self) {
        let Verdicts { items } = self;
        drop(items);
    }
}

impl Model for Verdicts {
    ghost use Rattle.std.specs.Prelude.{List};
    ghost use Rattle.query_verify.specs.declared.answers.Verdict.{Verdict};
    ghost use Rattle.query_verify.specs.Codes.{coded_verdicts};

    ghost Value = { List Verdict };

    ghost coded = { coded_verdicts };

    ghost view = { λ a. a.items.items };
}
