//! All queries decided by one saturation: up to the goal it is done once, and from there for each query's goal.

ghost use Rattle.std.specs.Prelude.{◌≡◌, ◌<◌, ◌^◌, map, IfOk, OnOk};
ghost use Rattle.spec_well_formed.specs.Limits.{IsWithinLimits};
ghost use Rattle.spec_well_formed.specs.Rules.{HasProperRules};
ghost use Rattle.spec_well_formed.specs.Queries.{HasProperQueries};
ghost use Rattle.spec_well_formed.specs.WellFormed.{IsWellScoped};
ghost use Rattle.pi_tree.specs.Protocols.{protocol_of};
ghost use Rattle.term_tree.specs.Bank.{Grows};
ghost use Rattle.clause_form.specs.Seen.{clause_at};
ghost use Rattle.log_entries.specs.Logs.{IsLogOf};
ghost use Rattle.clause_saturate.specs.Common.{Shared, saturated, begun_log, begun_size, log_of, IsCommonOf, IsFreshCommon};
ghost use Rattle.clause_translate.specs.Whole.{IsCommonTo};
ghost use Rattle.cert_writer.specs.Known.{IsKnown};
ghost use Rattle.query_verify.specs.Asked.{CanBeAsked, AreAskedOf, Answers, protocol_at};
ghost use Rattle.query_verify.specs.Settled.{shared_of, AreGoalBehind};
ghost use Rattle.query_verify.specs.Told.{AnswerQueries};

use crate::answers::{Verdict, Verdicts};
use crate::deciding::closed;
use crate::question::{Asking, Question};
use crate::settled::{Settled, settled_verdicts};
use cert_writer::{KnownRows, known_rows, known_rows_outlast_growth};
use clause_form::{Clause, Clauses};
use clause_saturate::common::log;
use clause_saturate::{
    Begun, Common, End, Log, begin, commons_serve_each_goal, entries_tell_logs, finish, read_entry,
    read_log, rewind,
};
use clause_translate::{Translated, translate_common, with_goal};
use pi_tree::Kind;
use spec_translation::{
    translations_are_normal, translations_are_within_the_limit, translations_have_one_goal,
};
use std::alloc::{AllocError, Global};
use term_tree::Bank;

/// What the queries share: the common part of their logs, and the rows of its clauses and of what is given.
#[derive(Drop)]
struct Sharing {
    common: Common,
    known: KnownRows,
}

/// The verdict by the log of the given clauses, and its end.
fn told<B: Bank>(
    question: &Question<'_>,
    bank: &mut B,
    given: &[Clause],
    sharing: &mut Sharing,
    end: &End,
) -> Result<Verdict, AllocError>
    requires question { CanBeAsked question.now }
    requires given { AreAskedOf question.now (B.trees bank.old) given.now }
    requires log { let all = B.trees bank.old in IsLogOf all (map (clause_at all) given.now)
        question.now.budget (saturated (log_of sharing.old.common) end.now) }
    requires kept { IsKnown (B.trees bank.old) sharing.old.known }
    ensures answers { IfOk result (λ answer. Answers question.now answer) }
    ensures kept { OnOk result (IsKnown (B.trees bank.old) sharing.new.known) }
    ensures live { sharing.new.known.live ≡ sharing.old.known.live }
    ensures given { sharing.new.known.given ≡ sharing.old.known.given }
    ensures common { sharing.new.common ≡ sharing.old.common }
    ensures bank { B.trees bank.new ≡ B.trees bank.old }
{
    entries_tell_logs();
    match end {
        End::Closed => closed(
            question,
            bank,
            given,
            log(&sharing.common),
            &mut sharing.known,
        ),
        End::Spent(due) => {
            let entries = read_log(question.alloc, bank, log(&sharing.common))?;
            let entry = read_entry(question.alloc, bank, due)?;
            Ok(Verdict::Budget(entries, entry))
        }
        End::Large(solved, unsolved) => {
            let entries = read_log(question.alloc, bank, log(&sharing.common))?;
            Ok(Verdict::SizePair(entries, *solved, *unsolved))
        }
    }
}

/// Copies of clauses.
fn copies(alloc: Global, clauses: &[Clause]) -> Result<Clauses, AllocError>
    ensures { IfOk result (λ copied. copied ≡ clauses.now) }
{
    let mut items = Vec::with_capacity(alloc, clauses.len())?;
    'each: for clause in clauses {
        items.push(clause.copy(alloc)?)?;
    }
    Ok(Clauses { items })
}

/// The verdict by the log that goes on with the last of the clauses that the query is translated into, its goal.
fn gone_on<B: Bank>(
    question: &Question<'_>,
    bank: &mut B,
    given: &[Clause],
    sharing: &mut Sharing,
) -> Result<Verdict, AllocError>
    ghost shared: { Shared }
    requires question { CanBeAsked question.now }
    requires given { AreAskedOf question.now (B.trees bank.old) given.now }
    requires goal { AreGoalBehind (B.trees bank.old) shared given.now }
    requires budget { shared.budget ≡ question.now.budget }
    requires common { IsCommonOf (B.trees bank.old) shared sharing.old.common }
    requires kept { IsKnown (B.trees bank.old) sharing.old.known }
    ensures answers { IfOk result (λ answer. Answers question.now answer) }
    ensures kept { OnOk result (IsKnown (B.trees bank.old) sharing.new.known) }
    ensures live { sharing.new.known.live ≡ sharing.old.known.live }
    ensures given { sharing.new.known.given ≡ sharing.old.known.given }
    ensures grows { Grows (B.trees bank.old) (B.trees bank.new) }
    ensures common { IsCommonOf (B.trees bank.new) shared sharing.new.common }
    ensures begun { begun_log sharing.new.common ≡ begun_log sharing.old.common }
    ensures size { begun_size sharing.new.common ≡ begun_size sharing.old.common }
{
    translations_are_normal();
    translations_are_within_the_limit();
    known_rows_outlast_growth();
    let goal = given[given.len() - 1].copy(question.alloc)?;
    let end = finish(bank, &mut sharing.common, goal)?;
    let answer = told(question, bank, given, sharing, &end);
    drop(end);
    answer
}

/// The verdict of a query by the log that goes on with its goal from the common part. On `Err` the bank may have grown.
fn finished<B: Bank>(
    question: &Question<'_>,
    bank: &mut B,
    given: &[Clause],
    sharing: &mut Sharing,
) -> Result<Verdict, AllocError>
    ghost shared: { Shared }
    requires question { CanBeAsked question.now }
    requires given { IsCommonTo (protocol_at question.now) (B.trees bank.old) given.now }
    requires shared { shared ≡ shared_of (B.trees bank.old) given.now question.now.budget }
    requires common { IsCommonOf (B.trees bank.old) shared sharing.old.common }
    requires kept { IsKnown (B.trees bank.old) sharing.old.known }
    ensures answers { IfOk result (λ answer. Answers question.now answer) }
    ensures kept { OnOk result (IsKnown (B.trees bank.old) sharing.new.known) }
    ensures live { sharing.new.known.live ≡ sharing.old.known.live }
    ensures given { sharing.new.known.given ≡ sharing.old.known.given }
    ensures grows { Grows (B.trees bank.old) (B.trees bank.new) }
    ensures common { IsCommonOf (B.trees bank.new) shared sharing.new.common }
    ensures begun { begun_log sharing.new.common ≡ begun_log sharing.old.common }
    ensures size { begun_size sharing.new.common ≡ begun_size sharing.old.common }
{
    commons_serve_each_goal();
    known_rows_outlast_growth();
    translations_have_one_goal();
    let copied = copies(question.alloc, given)?;
    let all = with_goal(
        question.alloc,
        bank,
        question.protocol,
        question.query,
        copied,
    )?;
    let answer = gone_on(question, bank, &all.items, sharing);
    drop(all);
    answer
}

/// The verdict of a query by the log that goes on with its goal from the common part; log and bank are as before.
fn decided_by<B: Bank>(
    question: &Question<'_>,
    bank: &mut B,
    given: &[Clause],
    sharing: &mut Sharing,
) -> Result<Verdict, AllocError>
    requires question { CanBeAsked question.now }
    requires given { IsCommonTo (protocol_at question.now) (B.trees bank.old) given.now }
    requires common { IsFreshCommon (B.trees bank.old)
        (shared_of (B.trees bank.old) given.now question.now.budget) sharing.old.common }
    requires kept { IsKnown (B.trees bank.old) sharing.old.known }
    ensures answers { IfOk result (λ answer. Answers question.now answer) }
    ensures kept { OnOk result (IsKnown (B.trees bank.old) sharing.new.known) }
    ensures live { sharing.new.known.live ≡ sharing.old.known.live }
    ensures given { sharing.new.known.given ≡ sharing.old.known.given }
    ensures bank { B.trees bank.new ≡ B.trees bank.old }
    ensures common { IsFreshCommon (B.trees bank.new)
        (shared_of (B.trees bank.new) given.now question.now.budget) sharing.new.common }
{
    let answer = finished(question, bank, given, sharing);
    rewind(bank, &mut sharing.common);
    answer
}

/// The verdicts of all queries, one for each, by the logs that go on with their goals from the common part.
fn shared_verdicts<B: Bank>(
    asking: &Asking<'_>,
    bank: &mut B,
    given: &[Clause],
    sharing: &mut Sharing,
) -> Result<Verdicts, AllocError>
    requires limits { IsWithinLimits (protocol_of asking.now.protocol.now) }
    requires rules { HasProperRules (protocol_of asking.now.protocol.now) }
    requires scoped { IsWellScoped (protocol_of asking.now.protocol.now) }
    requires queries { HasProperQueries (protocol_of asking.now.protocol.now) }
    requires budget { asking.now.budget < 2 ^ 32 }
    requires given { IsCommonTo (protocol_of asking.now.protocol.now) (B.trees bank.old) given.now }
    requires common { IsFreshCommon (B.trees bank.old)
        (shared_of (B.trees bank.old) given.now asking.now.budget) sharing.old.common }
    requires kept { IsKnown (B.trees bank.old) sharing.old.known }
    ensures answers { let P = protocol_of asking.now.protocol.now in
        IfOk result (λ answers. AnswerQueries P asking.now.budget P.queries answers) }
    ensures bank { B.trees bank.new ≡ B.trees bank.old }
{
    let mut items = Vec::new(asking.alloc);
    'each: for index in 0..asking.protocol.count(Kind::Query) {
        let question = Question {
            alloc: asking.alloc,
            protocol: asking.protocol,
            query: index + 1,
            budget: asking.budget,
        };
        let answer = decided_by(&question, bank, given, sharing)?;
        items.push(answer)?;
    }
    Ok(Verdicts { items })
}

/// The verdicts of all queries by the clauses that stand before each goal.
fn begun_verdicts<B: Bank>(
    asking: &Asking<'_>,
    bank: &mut B,
    given: &[Clause],
) -> Result<Verdicts, AllocError>
    requires limits { IsWithinLimits (protocol_of asking.now.protocol.now) }
    requires rules { HasProperRules (protocol_of asking.now.protocol.now) }
    requires scoped { IsWellScoped (protocol_of asking.now.protocol.now) }
    requires queries { HasProperQueries (protocol_of asking.now.protocol.now) }
    requires budget { asking.now.budget < 2 ^ 32 }
    requires given { IsCommonTo (protocol_of asking.now.protocol.now) (B.trees bank.old) given.now }
    ensures answers { let P = protocol_of asking.now.protocol.now in
        IfOk result (λ answers. AnswerQueries P asking.now.budget P.queries answers) }
    ensures grows { Grows (B.trees bank.old) (B.trees bank.new) }
{
    translations_are_normal();
    translations_are_within_the_limit();
    entries_tell_logs();
    match begin(asking.alloc, bank, given, asking.budget)? {
        Begun::Ready(common) => {
            let copied = copies(asking.alloc, given)?;
            let known = known_rows(asking.alloc, copied, log(&common))?;
            let mut sharing = Sharing { common, known };
            let answers = shared_verdicts(asking, bank, given, &mut sharing);
            drop(sharing);
            answers
        }
        Begun::Spent(log, due) => settled_verdicts(asking, bank, &Settled::Spent(log, due)),
        Begun::Large(log, solved, unsolved) => {
            settled_verdicts(asking, bank, &Settled::Large(log, solved, unsolved))
        }
    }
}

/// The verdicts of all queries, one for each, in order. On `Err` the bank may have grown.
pub(crate) fn all_verdicts<B: Bank>(
    asking: &Asking<'_>,
    bank: &mut B,
) -> Result<Verdicts, AllocError>
    requires limits { IsWithinLimits (protocol_of asking.now.protocol.now) }
    requires rules { HasProperRules (protocol_of asking.now.protocol.now) }
    requires scoped { IsWellScoped (protocol_of asking.now.protocol.now) }
    requires queries { HasProperQueries (protocol_of asking.now.protocol.now) }
    requires budget { asking.now.budget < 2 ^ 32 }
    ensures answers { let P = protocol_of asking.now.protocol.now in
        IfOk result (λ answers. AnswerQueries P asking.now.budget P.queries answers) }
    ensures grows { Grows (B.trees bank.old) (B.trees bank.new) }
{
    match translate_common(asking.alloc, bank, asking.protocol)? {
        Translated::Large(point) => settled_verdicts(asking, bank, &Settled::TooLarge(point)),
        Translated::Clauses(given) => {
            let answers = begun_verdicts(asking, bank, &given.items);
            drop(given);
            answers
        }
    }
}
