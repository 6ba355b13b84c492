//! The sources of a translation's clauses (the reconstruction of attacks from derivations: Allamigeon and Blanchet 2005).

ghost use Rattle.std.specs.Prelude.{◌≡◌, ℕ, IfOk};
ghost use Rattle.spec_well_formed.specs.Limits.{IsWithinLimits};
ghost use Rattle.spec_well_formed.specs.Rules.{HasProperRules};
ghost use Rattle.spec_well_formed.specs.Queries.{HasProperQueries};
ghost use Rattle.spec_well_formed.specs.WellFormed.{IsWellScoped};
ghost use Rattle.spec_attack_runs.specs.Gathered.{AreSources};
ghost use Rattle.pi_tree.specs.Protocols.{protocol_of};
ghost use Rattle.pi_tree.specs.Accessors.{IsThere};
ghost use Rattle.pi_tree.specs.declared.accessors.Kind.TheVariants.{Query as OfQueries};
ghost use Rattle.term_tree.specs.Bank.{Grows};
ghost use Rattle.query_derive.specs.GoalRows.{OfQuery};
ghost use Rattle.clause_translate.specs.Gathering.{AreBefore};
ghost use Rattle.clause_translate.specs.Whole.{IsLargeAt};

use crate::whole::{no_choices, visit_main};
use attacker_sources::attacker_sources;
use clause_form::Clauses;
use clause_sources::{Action, Sources, add_sources};
use pi_tree::{MOST_VISITS, Protocol};
use process_visits::listing::Listing;
use query_derive::raw_goal_clause;
use std::alloc::{AllocError, Global};
use term_tree::Bank;

/// The sources of the attacker's clauses, and those of the visits. The bank may have grown.
fn common_sources<B: Bank>(
    alloc: Global,
    bank: &mut B,
    protocol: &Protocol,
) -> Result<Sources, AllocError>
    requires limits { IsWithinLimits (protocol_of protocol.now) }
    requires rules { HasProperRules (protocol_of protocol.now) }
    requires scoped { IsWellScoped (protocol_of protocol.now) }
    requires small { (point : ℕ) → IsLargeAt (protocol_of protocol.now) point → ⊥ }
    ensures grows { Grows (B.trees bank.old) (B.trees bank.new) }
    ensures sources { IfOk result (λ made. AreBefore (protocol_of protocol.now) made) }
{
    let known = attacker_sources(alloc, bank, protocol)?;
    let mut listing = Listing {
        clauses: Clauses {
            items: Vec::new(alloc),
        },
        left: MOST_VISITS,
        keeps: false,
        choices: no_choices(alloc),
        sources: Some(known),
    };
    match visit_main(alloc, bank, protocol, &mut listing)? {
        Some(_) => unreachable!(),
        None => match listing.sources.take() {
            None => unreachable!(),
            Some(sources) => Ok(sources),
        },
    }
}

/// The sources, in order. The bank may have grown.
fn sources_grown<B: Bank>(
    alloc: Global,
    bank: &mut B,
    protocol: &Protocol,
    query: u32,
) -> Result<Sources, AllocError>
    requires limits { IsWithinLimits (protocol_of protocol.now) }
    requires rules { HasProperRules (protocol_of protocol.now) }
    requires scoped { IsWellScoped (protocol_of protocol.now) }
    requires queries { HasProperQueries (protocol_of protocol.now) }
    requires there { IsThere (protocol_of protocol.now) OfQueries query }
    requires small { (point : ℕ) → IsLargeAt (protocol_of protocol.now) point → ⊥ }
    ensures grows { Grows (B.trees bank.old) (B.trees bank.new) }
    ensures sources { IfOk result (λ made. OfQuery (protocol_of protocol.now) query
        (λ q. AreSources (protocol_of protocol.now) q made)) }
{
    let mut sources = common_sources(alloc, bank, protocol)?;
    let raw = raw_goal_clause(alloc, protocol, query)?;
    add_sources(alloc, bank, &raw, &Action::Idle, &mut sources)?;
    Ok(sources)
}

/// The sources of the translation of the protocol and the query of that number: one for each of its clauses, in order. The bank is
/// as before.
///
/// The translation is not too large. The other conditions hold of each protocol that is read. `Err` comes for want of memory, and
/// where `translate` answers it since a number doesn't fit.
pub fn sources<B: Bank>(
    alloc: Global,
    bank: &mut B,
    protocol: &Protocol,
    query: u32,
) -> Result<Sources, AllocError>
    requires limits { IsWithinLimits (protocol_of protocol.now) }
    requires rules { HasProperRules (protocol_of protocol.now) }
    requires scoped { IsWellScoped (protocol_of protocol.now) }
    requires queries { HasProperQueries (protocol_of protocol.now) }
    requires there { IsThere (protocol_of protocol.now) OfQueries query }
    requires small { (point : ℕ) → IsLargeAt (protocol_of protocol.now) point → ⊥ }
    ensures bank { B.trees bank.new ≡ B.trees bank.old }
    ensures sources { IfOk result (λ made. OfQuery (protocol_of protocol.now) query
        (λ q. AreSources (protocol_of protocol.now) q made)) }
{
    let mark = bank.mark();
    let made = sources_grown(alloc, bank, protocol, query);
    bank.back(mark);
    made
}
