//! Queries decided: the translation, the log of its clauses, and what that comes to.

ghost use Rattle.std.specs.Prelude.{◌≡◌, ◌<◌, ◌^◌, IfOk, OnOk, map};
ghost use Rattle.spec_well_formed.specs.Limits.{IsWithinLimits};
ghost use Rattle.spec_well_formed.specs.Rules.{HasProperRules};
ghost use Rattle.spec_well_formed.specs.Queries.{HasProperQueries};
ghost use Rattle.spec_well_formed.specs.WellFormed.{IsWellScoped};
ghost use Rattle.pi_tree.specs.Protocols.{protocol_of};
ghost use Rattle.pi_tree.specs.Accessors.{IsThere};
ghost use Rattle.pi_tree.specs.declared.accessors.Kind.TheVariants.{Query as OfQueries};
ghost use Rattle.term_tree.specs.Bank.{Grows};
ghost use Rattle.clause_form.specs.Seen.{clause_at};
ghost use Rattle.query_derive.specs.GoalRows.{OfQuery};
ghost use Rattle.log_entries.specs.Logs.{IsLogOf, IsClosedLog};
ghost use Rattle.cert_writer.specs.Known.{IsKnown};
ghost use Rattle.clause_instances.specs.Derivations.{HasNormedLog};
ghost use Rattle.query_verify.specs.Asked.{CanBeAsked, AreAskedOf, Answers, protocol_at, IsNeverLarge, TellsUnmet};
ghost use Rattle.query_verify.specs.Told.{IsAnswer, AnswerQueries};

use crate::answers::{Verdict, Verdicts};
use crate::question::{Asking, Question};
use crate::sharing::all_verdicts;
use attack_run::reconstruct;
use cert_writer::{Certified, ClosedLog, KnownRows, certify_with, none_known};
use clause_form::Clause;
use clause_saturate::{
    Log, PlainLog, Saturated, entries_tell_logs, read_entry, read_log, saturate,
};
use clause_translate::{Translated, translate};
use pi_tree::Protocol;
use spec_translation::{
    one_translation, translations_are_normal, translations_are_within_the_limit,
    translations_have_one_goal,
};
use std::alloc::{AllocError, Global};
use term_tree::Bank;

/// The verdict where the entry of that number, of a closed log, doesn't satisfy the query.
fn unsatisfied(question: &Question<'_>, log: PlainLog, number: usize) -> Result<Verdict, AllocError>
    requires question { CanBeAsked question.now }
    requires small { IsNeverLarge (protocol_at question.now) }
    requires normed { HasNormedLog log }
    ensures { IfOk result (λ answer. TellsUnmet question.now log number answer) }
{
    let attack = reconstruct(
        question.alloc,
        question.protocol,
        question.query,
        &log,
        number,
    )?;
    match attack {
        Some(steps) => Ok(Verdict::Attack(steps)),
        None => Ok(Verdict::Unmet(log, number)),
    }
}

/// The verdict where the log is closed.
pub(crate) fn closed<B: Bank>(
    question: &Question<'_>,
    bank: &mut B,
    given: &[Clause],
    log: &Log,
    known: &mut KnownRows,
) -> Result<Verdict, AllocError>
    requires question { CanBeAsked question.now }
    requires given { AreAskedOf question.now (B.trees bank.old) given.now }
    requires log { let all = B.trees bank.old in
        IsClosedLog all (map (clause_at all) given.now) question.now.budget log.now }
    requires kept { IsKnown (B.trees bank.old) known.old }
    ensures answers { IfOk result (λ answer. Answers question.now answer) }
    ensures kept { OnOk result (IsKnown (B.trees bank.old) known.new) }
    ensures live { known.new.live ≡ known.old.live }
    ensures given { known.new.given ≡ known.old.given }
    ensures bank { B.trees bank.new ≡ B.trees bank.old }
{
    entries_tell_logs();
    one_translation();
    translations_are_normal();
    translations_are_within_the_limit();
    let asked = ClosedLog {
        protocol: question.protocol,
        query: question.query,
        given,
        log,
    };
    match certify_with(question.alloc, bank, &asked, known)? {
        Certified::Cert(cert) => Ok(Verdict::Proved(cert)),
        Certified::Unsatisfied(number) => {
            let entries = read_log(question.alloc, bank, log)?;
            unsatisfied(question, entries, number)
        }
    }
}

/// The verdict by the log of the given clauses, and its end.
fn ended<B: Bank>(
    question: &Question<'_>,
    bank: &mut B,
    given: &[Clause],
    saturated: &Saturated,
) -> Result<Verdict, AllocError>
    requires question { CanBeAsked question.now }
    requires given { AreAskedOf question.now (B.trees bank.old) given.now }
    requires log { let all = B.trees bank.old in
        IsLogOf all (map (clause_at all) given.now) question.now.budget saturated.now }
    ensures answers { IfOk result (λ answer. Answers question.now answer) }
    ensures bank { B.trees bank.new ≡ B.trees bank.old }
{
    entries_tell_logs();
    match saturated {
        Saturated::Closed(log) => {
            let mut known = none_known(question.alloc);
            closed(question, bank, given, log, &mut known)
        }
        Saturated::Spent(log, due) => {
            let entries = read_log(question.alloc, bank, log)?;
            let entry = read_entry(question.alloc, bank, due)?;
            Ok(Verdict::Budget(entries, entry))
        }
        Saturated::Large(log, solved, unsolved) => {
            let entries = read_log(question.alloc, bank, log)?;
            Ok(Verdict::SizePair(entries, *solved, *unsolved))
        }
    }
}

/// The verdict by the clauses that the protocol and the query are translated into.
fn decided<B: Bank>(
    question: &Question<'_>,
    bank: &mut B,
    given: &[Clause],
) -> Result<Verdict, AllocError>
    requires question { CanBeAsked question.now }
    requires given { AreAskedOf question.now (B.trees bank.old) given.now }
    ensures answers { IfOk result (λ answer. Answers question.now answer) }
    ensures grows { Grows (B.trees bank.old) (B.trees bank.new) }
{
    translations_are_normal();
    translations_are_within_the_limit();
    translations_have_one_goal();
    let saturated = saturate(question.alloc, bank, given, question.budget)?;
    let answer = ended(question, bank, given, &saturated);
    drop(saturated);
    answer
}

/// The verdict of the query of that number with the budget, over the bank and what is added to it.
fn asked<B: Bank>(
    alloc: Global,
    bank: &mut B,
    protocol: &Protocol,
    query: u32,
    budget: u64,
) -> Result<Verdict, AllocError>
    requires limits { IsWithinLimits (protocol_of protocol.now) }
    requires rules { HasProperRules (protocol_of protocol.now) }
    requires scoped { IsWellScoped (protocol_of protocol.now) }
    requires queries { HasProperQueries (protocol_of protocol.now) }
    requires there { IsThere (protocol_of protocol.now) OfQueries query }
    requires budget { budget < 2 ^ 32 }
    ensures answers { let P = protocol_of protocol.now in
        IfOk result (λ answer. OfQuery P query (λ q. IsAnswer P q budget answer)) }
    ensures grows { Grows (B.trees bank.old) (B.trees bank.new) }
{
    match translate(alloc, bank, protocol, query)? {
        Translated::Large(point) => Ok(Verdict::SizePoint(point)),
        Translated::Clauses(given) => {
            let question = Question {
                alloc,
                protocol,
                query,
                budget,
            };
            decided(&question, bank, &given.items)
        }
    }
}

/// The verdict of the query of that number with the budget: exactly the one that the definitions give. The bank is as before.
///
/// The conditions hold of each protocol that is read, and of each budget that a command may name. `Err` comes for want of
/// memory, and where `translate` answers it since a number doesn't fit.
pub fn verdict<B: Bank>(
    alloc: Global,
    bank: &mut B,
    protocol: &Protocol,
    query: u32,
    budget: u64,
) -> Result<Verdict, AllocError>
    requires limits { IsWithinLimits (protocol_of protocol.now) }
    requires rules { HasProperRules (protocol_of protocol.now) }
    requires scoped { IsWellScoped (protocol_of protocol.now) }
    requires queries { HasProperQueries (protocol_of protocol.now) }
    requires there { IsThere (protocol_of protocol.now) OfQueries query }
    requires budget { budget < 2 ^ 32 }
    ensures answers { let P = protocol_of protocol.now in
        IfOk result (λ answer. OfQuery P query (λ q. IsAnswer P q budget answer)) }
    ensures bank { B.trees bank.new ≡ B.trees bank.old }
{
    let mark = bank.mark();
    let answer = asked(alloc, bank, protocol, query, budget);
    bank.back(mark);
    answer
}

/// The verdicts of all queries with the budget, one for each, in order. The bank is as before.
///
/// The conditions hold of each protocol that is read, and of each budget that a command may name. `Err` comes for want of
/// memory, and where `translate_common` answers it since a number doesn't fit.
pub fn verdicts<B: Bank>(
    alloc: Global,
    bank: &mut B,
    protocol: &Protocol,
    budget: u64,
) -> Result<Verdicts, AllocError>
    requires limits { IsWithinLimits (protocol_of protocol.now) }
    requires rules { HasProperRules (protocol_of protocol.now) }
    requires scoped { IsWellScoped (protocol_of protocol.now) }
    requires queries { HasProperQueries (protocol_of protocol.now) }
    requires budget { budget < 2 ^ 32 }
    ensures answers { let P = protocol_of protocol.now in
        IfOk result (λ answers. AnswerQueries P budget P.queries answers) }
    ensures bank { B.trees bank.new ≡ B.trees bank.old }
{
    let mark = bank.mark();
    let asking = Asking {
        alloc,
        protocol,
        budget,
    };
    let answers = all_verdicts(&asking, bank);
    bank.back(mark);
    answers
}
