//! The log of a query.

ghost use Rattle.std.specs.Prelude.{◌≡◌, ◌<◌, ◌^◌, length, map, IfOk};
ghost use Rattle.spec_translation.specs.Translation.{attacker_clauses as attackers_of};
ghost use Rattle.pi_tree.specs.Protocols.{protocol_of};
ghost use Rattle.pi_tree.specs.Accessors.{IsThere};
ghost use Rattle.pi_tree.specs.declared.accessors.Kind.TheVariants.{Query as OfQueries};
ghost use Rattle.clause_form.specs.Seen.{clause_at};
ghost use Rattle.log_entries.specs.Logs.{IsClosedLog, IsLogOf};
ghost use Rattle.clause_translate.specs.Whole.{TranslatesTo};
ghost use Rattle.query_derive.specs.GoalRows.{OfQuery};
ghost use Rattle.hx.specs.Readable.{IsReadable};
ghost use Rattle.hx.specs.Logged.{CanBeAsked, protocol_at, FindsUnmet, IsToldFor, CanExplainLog, TellsQueryLog, CanBeExplained};

use attacker_clauses::attacker_list;
use cert_writer::{Certified, certify};
use clause_form::Clause;
use clause_saturate::{Log, Saturated, entries_tell_logs, read_entry, read_log, saturate};
use clause_translate::{Translated, translate};
use log_text::{LogEnd, QueryLog, Told};
use pi_tree::Protocol;
use spec_translation::{
    one_translation, translations_are_normal, translations_are_within_the_limit,
    translations_have_one_goal,
};
use std::alloc::{AllocError, Global};
use term_store::SharedBank;
use term_tree::Bank;

/// A query of a protocol that is asked about, how many entries its log may have, and how many clauses are the attacker's.
#[derive(Clone, Copy)]
pub struct Asked<'a> {
    alloc: Global,
    protocol: &'a Protocol,
    query: u32,
    budget: u64,
    attackers: usize,
}

/// How many of the clauses of a translation are the attacker's. The bank may have grown.
#[tactic(auto, using(crate::proofs::Telling::as_many))]
fn count_attackers<B: Bank>(
    alloc: Global,
    bank: &mut B,
    protocol: &Protocol,
) -> Result<usize, AllocError>
    requires readable { IsReadable (protocol_of protocol.now) }
    ensures { IfOk result (λ count. count ≡ length (attackers_of (protocol_of protocol.now))) }
{
    let list = attacker_list(alloc, bank, protocol)?;
    Ok(list.items.len())
}

/// The first entry of a closed log that doesn't satisfy the query, if there is one.
fn first_unmet<B: Bank>(
    asked: &Asked<'_>,
    bank: &mut B,
    given: &[Clause],
    log: &Log,
) -> Result<Option<usize>, AllocError>
    requires asked { CanBeAsked asked.now }
    requires given { TranslatesTo (protocol_at asked.now) asked.now.query (B.trees bank.old)
        given.now }
    requires log { let all = B.trees bank.old in
        IsClosedLog all (map (clause_at all) given.now) asked.now.budget log.now }
    ensures found { let all = B.trees bank.old in IfOk result (λ unmet.
        OfQuery (protocol_at asked.now) asked.now.query (λ q.
        FindsUnmet (protocol_at asked.now) q asked.now.budget all log.now unmet)) }
    ensures bank { B.trees bank.new ≡ B.trees bank.old }
{
    match certify(asked.alloc, bank, asked.protocol, asked.query, given, log)? {
        Certified::Cert(cert) => {
            drop(cert);
            Ok(None)
        }
        Certified::Unsatisfied(number) => Ok(Some(number)),
    }
}

/// A closed log over trees.
fn closed<B: Bank>(
    asked: &Asked<'_>,
    bank: &mut B,
    given: &[Clause],
    log: &Log,
) -> Result<QueryLog, AllocError>
    requires asked { CanBeAsked asked.now }
    requires given { TranslatesTo (protocol_at asked.now) asked.now.query (B.trees bank.old)
        given.now }
    requires log { let all = B.trees bank.old in
        IsClosedLog all (map (clause_at all) given.now) asked.now.budget log.now }
    ensures told { IfOk result (IsToldFor asked.now) }
    ensures ready { IfOk result CanExplainLog }
{
    entries_tell_logs();
    translations_are_normal();
    translations_are_within_the_limit();
    let unmet = first_unmet(asked, bank, given, log)?;
    let entries = read_log(asked.alloc, bank, log)?;
    Ok(QueryLog {
        entries,
        end: LogEnd::Closed,
        attackers: asked.attackers,
        given: given.len(),
        unmet,
    })
}

/// The log over trees.
fn ended<B: Bank>(
    asked: &Asked<'_>,
    bank: &mut B,
    given: &[Clause],
    saturated: &Saturated,
) -> Result<QueryLog, AllocError>
    requires asked { CanBeAsked asked.now }
    requires given { TranslatesTo (protocol_at asked.now) asked.now.query (B.trees bank.old)
        given.now }
    requires log { let all = B.trees bank.old in
        IsLogOf all (map (clause_at all) given.now) asked.now.budget saturated.now }
    ensures told { IfOk result (IsToldFor asked.now) }
    ensures ready { IfOk result CanExplainLog }
{
    entries_tell_logs();
    match saturated {
        Saturated::Closed(log) => closed(asked, bank, given, log),
        Saturated::Spent(log, due) => {
            let entries = read_log(asked.alloc, bank, log)?;
            let entry = read_entry(asked.alloc, bank, due)?;
            Ok(QueryLog {
                entries,
                end: LogEnd::Spent(entry),
                attackers: asked.attackers,
                given: given.len(),
                unmet: None,
            })
        }
        Saturated::Large(log, solved, unsolved) => {
            let entries = read_log(asked.alloc, bank, log)?;
            Ok(QueryLog {
                entries,
                end: LogEnd::Large(*solved, *unsolved),
                attackers: asked.attackers,
                given: given.len(),
                unmet: None,
            })
        }
    }
}

/// The log of the given clauses.
fn log_of<B: Bank>(
    asked: &Asked<'_>,
    bank: &mut B,
    given: &[Clause],
) -> Result<QueryLog, AllocError>
    requires asked { CanBeAsked asked.now }
    requires given { TranslatesTo (protocol_at asked.now) asked.now.query (B.trees bank.old)
        given.now }
    ensures told { IfOk result (IsToldFor asked.now) }
    ensures ready { IfOk result CanExplainLog }
{
    translations_are_normal();
    translations_are_within_the_limit();
    translations_have_one_goal();
    let saturated = saturate(asked.alloc, bank, given, asked.budget)?;
    let log = ended(asked, bank, given, &saturated);
    drop(saturated);
    log
}

/// What is told of the log of the query of that number with the budget, over the bank and what is added to it.
fn told_in<B: Bank>(
    bank: &mut B,
    alloc: Global,
    protocol: &Protocol,
    query: u32,
    budget: u64,
) -> Result<Told, AllocError>
    requires readable { IsReadable (protocol_of protocol.now) }
    requires there { IsThere (protocol_of protocol.now) OfQueries query }
    requires budget { budget < 2 ^ 32 }
    ensures told { let P = protocol_of protocol.now in
        IfOk result (λ told. OfQuery P query (λ q. TellsQueryLog P q budget told)) }
    ensures ready { IfOk result (CanBeExplained (protocol_of protocol.now)) }
{
    one_translation();
    let asked = Asked {
        alloc,
        protocol,
        query,
        budget,
        attackers: count_attackers(alloc, bank, protocol)?,
    };
    match translate(alloc, bank, protocol, query)? {
        Translated::Large(point) => Ok(Told::TooLarge(point)),
        Translated::Clauses(given) => {
            let log = log_of(&asked, bank, &given.items);
            drop(given);
            Ok(Told::Logged(log?))
        }
    }
}

/// The log of the query of that number with the budget, as `verify` saturates: the one that the definitions give, entry by
/// entry; and of a closed one the first live solved entry that concludes `bad` and doesn't satisfy the query, if there is one.
///
/// The conditions hold of each protocol that is read, and of each budget that a command may name. `Err` comes for want of
/// memory, and where `translate` answers it since a number doesn't fit.
pub fn query_log(
    alloc: Global,
    protocol: &Protocol,
    query: u32,
    budget: u64,
) -> Result<Told, AllocError>
    requires readable { IsReadable (protocol_of protocol.now) }
    requires there { IsThere (protocol_of protocol.now) OfQueries query }
    requires budget { budget < 2 ^ 32 }
    ensures told { let P = protocol_of protocol.now in
        IfOk result (λ told. OfQuery P query (λ q. TellsQueryLog P q budget told)) }
    ensures ready { IfOk result (CanBeExplained (protocol_of protocol.now)) }
{
    let mut bank = SharedBank::new(alloc)?;
    let told = told_in(&mut bank, alloc, protocol, query, budget);
    drop(bank);
    told
}
