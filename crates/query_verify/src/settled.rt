//! Verdicts that are settled before any goal: each query has the same.

ghost use Rattle.std.specs.Prelude.{IfOk};
ghost use Rattle.spec_calculus.specs.Syntax.{Query};
ghost use Rattle.spec_well_formed.specs.Limits.{IsWithinLimits};
ghost use Rattle.pi_tree.specs.Protocols.{protocol_of};
ghost use Rattle.query_verify.specs.Settled.{IsSettled};
ghost use Rattle.query_verify.specs.Told.{IsAnswer, AnswerQueries};

use crate::answers::{Verdict, Verdicts};
use crate::question::Asking;
use clause_saturate::{Entry, Log, entries_tell_logs, read_entry, read_log};
use pi_tree::Kind;
use spec_translation::translations_have_one_goal;
use std::alloc::{AllocError, Global};
use term_tree::Bank;

/// What settles the verdict of every query.
#[derive(Drop)]
pub(crate) enum Settled {
    /// The translation is too large at this point.
    TooLarge(u32),
    /// The log has as many entries as the budget allows before a goal is offered, and this one is due.
    Spent(Log, Entry),
    /// The pair of this solved entry and this unsolved one is too large, and met before a goal is offered.
    Large(Log, usize, usize),
}

/// The verdict, read out of the bank.
fn settled_verdict<B: Bank>(
    asking: &Asking<'_>,
    bank: &B,
    settled: &Settled,
) -> Result<Verdict, AllocError>
    requires { IsSettled (B.trees bank.now) (protocol_of asking.now.protocol.now)
        asking.now.budget settled.now }
    ensures { IfOk result (λ answer. (q : Query) →
        IsAnswer (protocol_of asking.now.protocol.now) q asking.now.budget answer) }
{
    entries_tell_logs();
    translations_have_one_goal();
    match settled {
        Settled::TooLarge(point) => Ok(Verdict::SizePoint(*point)),
        Settled::Spent(log, due) => {
            let entries = read_log(asking.alloc, bank, log)?;
            let entry = read_entry(asking.alloc, bank, due)?;
            Ok(Verdict::Budget(entries, entry))
        }
        Settled::Large(log, solved, unsolved) => {
            let entries = read_log(asking.alloc, bank, log)?;
            Ok(Verdict::SizePair(entries, *solved, *unsolved))
        }
    }
}

/// The verdicts of all queries, one for each.
pub(crate) fn settled_verdicts<B: Bank>(
    asking: &Asking<'_>,
    bank: &B,
    settled: &Settled,
) -> Result<Verdicts, AllocError>
    requires limits { IsWithinLimits (protocol_of asking.now.protocol.now) }
    requires settled { IsSettled (B.trees bank.now) (protocol_of asking.now.protocol.now)
        asking.now.budget settled.now }
    ensures { let P = protocol_of asking.now.protocol.now in
        IfOk result (λ answers. AnswerQueries P asking.now.budget P.queries answers) }
{
    let mut items = Vec::new(asking.alloc);
    'each: for index in 0..asking.protocol.count(Kind::Query) {
        let answer = settled_verdict(asking, bank, settled)?;
        items.push(answer)?;
    }
    Ok(Verdicts { items })
}
