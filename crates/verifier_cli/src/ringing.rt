//! The command `ring`: the summary of a ring, which is made, read and verified like the text of a file.

ghost use Rattle.std.specs.Prelude.{◌≡◌, ◌≤◌, option_map, IfOk, IfSome};
ghost use Rattle.spec_calculus.specs.Bounds.{most_keys};
ghost use Rattle.spec_protocol_scope.specs.Spells.{Spells};
ghost use Rattle.spec_ring_text.specs.Meaning.{ring_protocol};
ghost use Rattle.spec_ring_text.specs.Text.{ring_text};
ghost use Rattle.pi_tree.specs.Accessors.{IsThere};
ghost use Rattle.pi_tree.specs.Protocols.{protocol_of};
ghost use Rattle.pi_tree.specs.declared.accessors.Kind.TheVariants.{Query as OfQueries};
ghost use Rattle.protocol_loading.specs.Loaded.{IsLoaded};
ghost use Rattle.query_derive.specs.GoalRows.{OfQuery};
ghost use Rattle.query_verify.specs.Told.{IsAnswer};
ghost use Rattle.call_outcomes.specs.SeenOutcome.{outcome_of};
ghost use Rattle.call_outcomes.specs.Text.{HasText};
ghost use Rattle.verifier_cli.specs.Ringing.{IsRingOf, IsSummaryOf, Rings};

use crate::decision::Decision;
use crate::loading::protocol_in;
use call_outcomes::{Outcome, Ring};
use pi_tree::Protocol;
use query_verify::{Verdict, verdict};
use ring_writer::make_ring;
use spec_protocol_scope::{never_both, one_protocol, one_refusal};
use spec_read_protocols::queries_of_read_protocols;
use spec_ring_text::ring_translations;
use spec_verdicts::proved_queries_hold;
use std::alloc::{AllocError, Global};
use term_store::SharedBank;

/// How many entries the log of a ring's query may have.
const BUDGET: u64 = 10_000;

/// How many clauses the translation of a ring has, beside one for each key.
const FURTHER_CLAUSES: u64 = 8;

/// The verdict of the first query of the protocol with the budget of rings, over a bank of its own.
fn first_verdict(alloc: Global, protocol: &Protocol) -> Result<Verdict, AllocError>
    requires loaded { IsLoaded (protocol_of protocol.now) }
    requires there { IsThere (protocol_of protocol.now) OfQueries 1 }
    ensures { let P = protocol_of protocol.now in
        IfOk result (λ answer. OfQuery P 1 (λ q. IsAnswer P q 10000 answer)) }
{
    let mut bank = SharedBank::new(alloc)?;
    verdict(alloc, &mut bank, protocol, 1, BUDGET)
}

/// The summary of the ring of so many keys, whose protocol and text these are.
fn summary(alloc: Global, protocol: &Protocol, stages: u64, text: &[u8]) -> Result<Ring, AllocError>
    requires loaded { IsLoaded (protocol_of protocol.now) }
    requires least { 2 ≤ stages }
    requires most { stages ≤ most_keys }
    requires ring { protocol_of protocol.now ≡ ring_protocol stages }
    requires text { text.now ≡ ring_text stages }
    ensures { IfOk result (λ ring. IsSummaryOf (protocol_of protocol.now) stages ring) }
{
    ring_translations();
    let verdict = first_verdict(alloc, protocol)?;
    Ok(Ring {
        stages,
        bytes: text.len() as u64,
        clauses: stages + FURTHER_CLAUSES,
        verdict,
    })
}

/// What the ring of so many keys comes to, whose protocol and text these are.
fn summed(alloc: Global, protocol: &Protocol, stages: u64, text: &[u8]) -> Outcome
    requires loaded { IsLoaded (protocol_of protocol.now) }
    requires least { 2 ≤ stages }
    requires most { stages ≤ most_keys }
    requires ring { protocol_of protocol.now ≡ ring_protocol stages }
    requires text { text.now ≡ ring_text stages }
    ensures { IsRingOf (protocol_of protocol.now) stages (outcome_of result) }
{
    match summary(alloc, protocol, stages, text) {
        Ok(ring) => Outcome::Ring(ring),
        Err(_) => Outcome::Memory,
    }
}

/// Reads the text of the ring of so many keys, and verifies the query of the protocol that it spells.
fn verify_ring(alloc: Global, stages: u64, text: &[u8]) -> Decision
    requires least { 2 ≤ stages }
    requires most { stages ≤ most_keys }
    requires text { text.now ≡ ring_text stages }
    requires spells { Spells text.now (ring_protocol stages) }
    ensures spelled { IfSome (option_map protocol_of result.protocol) (λ protocol.
        Spells (ring_text stages) protocol) }
    ensures words { HasText (option_map protocol_of result.protocol) (outcome_of result.outcome) }
    ensures rings { Rings stages (outcome_of result.outcome) }
{
    one_protocol();
    one_refusal();
    never_both();
    queries_of_read_protocols();
    proved_queries_hold();
    match protocol_in(alloc, text) {
        Err(outcome) => Decision {
            protocol: None,
            outcome,
        },
        Ok(protocol) => {
            let outcome = summed(alloc, &protocol, stages, text);
            Decision {
                protocol: Some(protocol),
                outcome,
            }
        }
    }
}

/// Makes the ring of so many keys, and verifies its query.
pub(crate) fn ring(alloc: Global, stages: u64) -> Decision
    requires least { 2 ≤ stages }
    requires most { stages ≤ most_keys }
    ensures spelled { IfSome (option_map protocol_of result.protocol) (λ protocol.
        Spells (ring_text stages) protocol) }
    ensures words { HasText (option_map protocol_of result.protocol) (outcome_of result.outcome) }
    ensures rings { Rings stages (outcome_of result.outcome) }
{
    match make_ring(alloc, stages) {
        Ok(text) => verify_ring(alloc, stages, &text),
        Err(_) => Decision {
            protocol: None,
            outcome: Outcome::Memory,
        },
    }
}
