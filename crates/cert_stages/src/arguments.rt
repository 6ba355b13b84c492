//! How many arguments `bad` has for a query.

ghost use Rattle.std.specs.Prelude.{◌≡◌, IfOk};
ghost use Rattle.spec_well_formed.specs.Limits.{IsWithinLimits};
ghost use Rattle.spec_well_formed.specs.Queries.{HasProperQueries};
ghost use Rattle.spec_certificates.specs.Certificate.{bad_arguments};
ghost use Rattle.pi_tree.specs.Protocols.{protocol_of};
ghost use Rattle.pi_tree.specs.Accessors.{IsThere};
ghost use Rattle.pi_tree.specs.declared.accessors.Kind.TheVariants.{Query as OfQueries};
ghost use Rattle.clause_form.specs.Facts.{fact_of};
ghost use Rattle.query_derive.specs.GoalRows.{OfQuery};
ghost use Rattle.cert_stages.specs.Arguments.{arguments_of};

use clause_form::Fact;
use pi_tree::Protocol;
use query_derive::goal_clause;
use std::alloc::{AllocError, Global};
use term_tree::Bank;

/// How many arguments the fact has, if it is `bad`; 0 where it isn't.
fn arguments_of(fact: &Fact) -> usize
    ensures { result ≡ arguments_of (fact_of fact.now) }
{
    match fact {
        Fact::Bad(arguments) => arguments.items.len(),
        Fact::Att(..) | Fact::Mess(..) | Fact::Tab(..) | Fact::Ev(..) | Fact::Mev(..) => 0,
    }
}

/// How many arguments `bad` has for the query: as many as in the goal clause. On Ok the bank is as before.
pub fn goal_arguments<B: Bank>(
    alloc: Global,
    bank: &mut B,
    protocol: &Protocol,
    query: u32,
) -> Result<usize, AllocError>
    requires limits { IsWithinLimits (protocol_of protocol.now) }
    requires queries { HasProperQueries (protocol_of protocol.now) }
    requires there { IsThere (protocol_of protocol.now) OfQueries query }
    ensures count { IfOk result (λ count. OfQuery (protocol_of protocol.now) query
        (λ q. count ≡ bad_arguments q)) }
    ensures bank { B.trees bank.new ≡ B.trees bank.old }
{
    let mark = bank.mark();
    let goal = goal_clause(alloc, bank, protocol, query)?;
    bank.back(mark);
    Ok(arguments_of(&goal.items[0].concl))
}
