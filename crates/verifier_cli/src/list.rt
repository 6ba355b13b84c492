//! The command `list`: the clauses that a protocol and a query are translated into.

ghost use Rattle.std.specs.Prelude.{◌≡◌, ◌↔◌, ◌<◌, ◌≤◌, ℕ, List, length, map, true, option_map, IfOk};
ghost use Rattle.command_words.specs.Request as request;
ghost use Rattle.pi_tree.specs.Protocols.{protocol_of};
ghost use Rattle.protocol_loading.specs.Loaded.{IsLoaded};
ghost use Rattle.protocol_loading.specs.Outside.{outside};
ghost use Rattle.clause_form.specs.Seen.{clause_at, AreClausesIn};
ghost use Rattle.run_replay.specs.Limits.{IsLimited};
ghost use Rattle.call_outcomes.specs.SeenOutcome.{outcome_of};
ghost use Rattle.call_outcomes.specs.Text.{HasText};
ghost use Rattle.verifier_cli.specs.Listing.{IsListOf};
ghost use Rattle.verifier_cli.specs.Requests.{ComesTo};

use crate::decision::Decision;
use crate::loading::load_protocol;
use call_outcomes::Outcome;
use cert_form::{PlainClauses, read_clauses};
use clause_form::Clauses;
use clause_translate::{Translated, translate};
use hv_io::Files;
use pi_tree::{Kind, Protocol};
use spec_protocol_scope::{never_both, one_protocol, one_refusal};
use std::alloc::{AllocError, Global};
use term_store::SharedBank;
use term_tree::Bank;

/// The clauses of the bank, over trees of their own.
fn read_all<B: Bank>(alloc: Global, bank: &B, clauses: &Clauses) -> Result<PlainClauses, AllocError>
    requires { AreClausesIn (B.trees bank.now) clauses.now }
    ensures { IfOk result (λ plain. plain ≡ map (clause_at (B.trees bank.now)) clauses.now) }
{
    read_clauses(alloc, bank, &clauses.items)
}

/// The translation of the protocol and its query of that number, made in a bank.
fn translated_in<B: Bank>(
    alloc: Global,
    bank: &mut B,
    protocol: &Protocol,
    query: u32,
) -> Result<Outcome, AllocError>
    requires loaded { IsLoaded (protocol_of protocol.now) }
    requires there { (0 < query) × (query ≤ length protocol.now.queries) }
    ensures { IfOk result (λ outcome. IsListOf (protocol_of protocol.now) query
        (outcome_of outcome)) }
{
    match translate(alloc, bank, protocol, query)? {
        Translated::Clauses(clauses) => Ok(Outcome::Listed(read_all(alloc, bank, &clauses)?)),
        Translated::Large(point) => Ok(Outcome::ListLarge(point)),
    }
}

/// The translation of the protocol and its query of that number.
fn translated(alloc: Global, protocol: &Protocol, query: u32) -> Result<Outcome, AllocError>
    requires loaded { IsLoaded (protocol_of protocol.now) }
    requires there { (0 < query) × (query ≤ length protocol.now.queries) }
    ensures { IfOk result (λ outcome. IsListOf (protocol_of protocol.now) query
        (outcome_of outcome)) }
{
    let mut bank = SharedBank::new(alloc)?;
    translated_in(alloc, &mut bank, protocol, query)
}

/// Whether the protocol has a query of that number.
fn has_query(protocol: &Protocol, query: u64) -> bool
    requires { IsLimited (protocol_of protocol.now) }
    ensures { result ≡ true ↔ (0 < query) × (query ≤ length protocol.now.queries) }
{
    0 < query && query <= u64::from(protocol.count(Kind::Query))
}

/// What is listed of the protocol's query of that number.
fn listed(alloc: Global, protocol: &Protocol, query: u64) -> Outcome
    requires limited { IsLimited (protocol_of protocol.now) }
    requires loaded { IsLoaded (protocol_of protocol.now) }
    ensures { IsListOf (protocol_of protocol.now) query (outcome_of result) }
{
    if !has_query(protocol, query) {
        return Outcome::NoQuery(query);
    }
    match translated(alloc, protocol, query as u32) {
        Ok(outcome) => outcome,
        Err(_) => Outcome::Memory,
    }
}

/// Loads a protocol and lists the translation of one of its queries.
pub(crate) fn list_file<F: Files>(alloc: Global, file: &str, query: u64, files: &mut F) -> Decision
    ensures held_stays { (name : List ℕ) → F.held files.new name ≡ F.held files.old name }
    ensures read_faults_rise { (name : List ℕ) → F.faults files.old name ≤ F.faults files.new name }
    ensures words { HasText (option_map protocol_of result.protocol) (outcome_of result.outcome) }
    ensures comes { ComesTo (request.ListOf file.now query)
        (outside F.held F.faults F.loads files.old files.new)
        (option_map protocol_of result.protocol) (outcome_of result.outcome) }
{
    one_protocol();
    one_refusal();
    never_both();
    match load_protocol(alloc, file, files) {
        Err(outcome) => Decision {
            protocol: None,
            outcome,
        },
        Ok(protocol) => {
            let outcome = listed(alloc, &protocol, query);
            Decision {
                protocol: Some(protocol),
                outcome,
            }
        }
    }
}
