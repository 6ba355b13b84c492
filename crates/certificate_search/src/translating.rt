//! What a protocol and a query are translated into, for a search.

ghost use Rattle.spec_well_formed.specs.Limits.{IsWithinLimits};
ghost use Rattle.spec_well_formed.specs.Rules.{HasProperRules};
ghost use Rattle.spec_well_formed.specs.Queries.{HasProperQueries};
ghost use Rattle.spec_well_formed.specs.WellFormed.{IsWellScoped};
ghost use Rattle.pi_tree.specs.Protocols.{protocol_of};
ghost use Rattle.pi_tree.specs.Accessors.{IsThere};
ghost use Rattle.pi_tree.specs.declared.accessors.Kind.TheVariants.{Query as OfQueries};
ghost use Rattle.clause_form.specs.Seen.{AreClausesIn};

use cert_form::{PlainClauses, read_clauses};
use clause_form::{Clauses, size_of};
use clause_translate::{Translated, translate};
use pi_tree::Protocol;
use std::alloc::{AllocError, Global};
use term_store::SharedBank;

/// What a protocol and a query are translated into.
#[derive(Drop)]
pub enum Translation {
    Clauses(PlainClauses),
    /// More symbols than a plan may look at.
    OverBudget,
    /// The visit at this point is too large.
    Large(u32),
}

/// How many symbols the clauses have.
fn symbols_of(bank: &SharedBank, clauses: &Clauses) -> u64
    requires { AreClausesIn bank.now clauses.now }
{
    let mut symbols = 0u64;
    'each: for clause in &clauses.items {
        symbols = symbols.saturating_add(size_of(bank, clause));
    }
    symbols
}

/// The clauses that a protocol and a query are translated into, where they have no more symbols than these.
pub fn translated(
    alloc: Global,
    protocol: &Protocol,
    query: u32,
    most: u64,
) -> Result<Translation, AllocError>
    requires limits { IsWithinLimits (protocol_of protocol.now) }
    requires rules { HasProperRules (protocol_of protocol.now) }
    requires scoped { IsWellScoped (protocol_of protocol.now) }
    requires queries { HasProperQueries (protocol_of protocol.now) }
    requires there { IsThere (protocol_of protocol.now) OfQueries query }
{
    let mut bank = SharedBank::new(alloc)?;
    match translate(alloc, &mut bank, protocol, query)? {
        Translated::Large(point) => Ok(Translation::Large(point)),
        Translated::Clauses(clauses) => {
            if symbols_of(&bank, &clauses) > most {
                return Ok(Translation::OverBudget);
            }
            let plain = read_clauses(alloc, &bank, &clauses.items)?;
            Ok(Translation::Clauses(plain))
        }
    }
}
