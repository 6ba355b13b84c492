//! Deciding all queries of a protocol.

ghost use Rattle.std.specs.Prelude.{◌≤◌, IfOk};
ghost use Rattle.pi_tree.specs.Protocols.{protocol_of};
ghost use Rattle.protocol_loading.specs.Loaded.{IsLoaded};
ghost use Rattle.query_verify.specs.Told.{AnswerQueries};
ghost use Rattle.call_outcomes.specs.SeenOutcome.{outcome_of};
ghost use Rattle.call_outcomes.specs.Decided.{IsDecidedBy};

use crate::outcome::Outcome;
use pi_tree::{MOST_BUDGET, Protocol};
use query_verify::{Verdicts, verdicts};
use std::alloc::{AllocError, Global};
use term_store::SharedBank;

/// The verdicts of the queries of the protocol with the budget, over a bank of their own.
fn all_verdicts(alloc: Global, protocol: &Protocol, budget: u64) -> Result<Verdicts, AllocError>
    requires loaded { IsLoaded (protocol_of protocol.now) }
    requires budget { budget ≤ MOST_BUDGET }
    ensures { let P = protocol_of protocol.now in
        IfOk result (λ answers. AnswerQueries P budget P.queries answers) }
{
    let mut bank = SharedBank::new(alloc)?;
    verdicts(alloc, &mut bank, protocol, budget)
}

/// What the queries of the protocol come to with the budget.
pub fn decided(alloc: Global, protocol: &Protocol, budget: u64) -> Outcome
    requires loaded { IsLoaded (protocol_of protocol.now) }
    requires budget { budget ≤ MOST_BUDGET }
    ensures { IsDecidedBy (protocol_of protocol.now) budget (outcome_of result) }
{
    match all_verdicts(alloc, protocol, budget) {
        Ok(verdicts) => Outcome::Verified(verdicts),
        Err(_) => Outcome::Memory,
    }
}
