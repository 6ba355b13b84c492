//! The whole translation: the attacker's clauses, those of the visits, and the goal (Blanchet 2016, section 3.3).

ghost use Rattle.std.specs.Prelude.{◌≡◌, [], ◌++◌, map, IfOk, MatchOption, OnErr};
ghost use Rattle.spec_well_formed.specs.Limits.{IsWithinLimits};
ghost use Rattle.spec_well_formed.specs.Rules.{HasProperRules};
ghost use Rattle.spec_well_formed.specs.Queries.{HasProperQueries};
ghost use Rattle.spec_well_formed.specs.WellFormed.{IsWellScoped};
ghost use Rattle.pi_tree.specs.Protocols.{protocol_of};
ghost use Rattle.pi_tree.specs.Accessors.{IsThere};
ghost use Rattle.pi_tree.specs.declared.accessors.Kind.TheVariants.{Query as OfQueries};
ghost use Rattle.term_tree.specs.Bank.{Grows};
ghost use Rattle.spec_translation.specs.Visit.{first_visit};
ghost use Rattle.spec_translation.specs.Translation.{goal_clauses};
ghost use Rattle.clause_form.specs.Fit.{AreLowWithinLimit};
ghost use Rattle.clause_form.specs.Seen.{clause_at, AreClausesIn, NameClauses};
ghost use Rattle.query_derive.specs.GoalRows.{OfQuery};
ghost use Rattle.unified_visits.specs.Places.{HasFewPoints};
ghost use Rattle.unified_visits.specs.Short.{IsFitProcess, HasFitRules};
ghost use Rattle.clause_translate.specs.Gathering.{Tells};
ghost use Rattle.clause_translate.specs.Jobs.{Once, Ends};
ghost use Rattle.clause_translate.specs.Whole.{IsLargeAt, IsVisited, Translates, TranslatesTo, TranslatesAll, IsCommonTo, IsKept};
ghost use Rattle.clause_translate.specs.Soundness.{IsSound};

use crate::runs::translations_abstract_runs;
use crate::visits::visit_process;
use attacker_clauses::attacker_list;
use clause_form::Clauses;
use clause_sources::Choices;
use pi_tree::{MOST_VISITS, Protocol};
use process_visits::listing::Listing;
use query_derive::goal_clause;
use std::alloc::{AllocError, Global};
use term_tree::Bank;
use unified_visits::place::Place;
use unified_visits::visit::Visit;

/// What a protocol and a query are translated into.
#[derive(Drop)]
pub enum Translated {
    Clauses(Clauses),
    /// The point of the first visit that is too large.
    Large(u32),
}

/// No choices.
pub(crate) fn no_choices(alloc: Global) -> Choices
    ensures { result ≡ [] }
{
    Choices {
        items: Vec::new(alloc),
    }
}

/// Visits the main process, and tells the point of the first visit that is too large, if one is. Where no clause was
/// added the bank is as before; on `Err` it may have grown.
pub(crate) fn visit_main<B: Bank>(
    alloc: Global,
    bank: &mut B,
    protocol: &Protocol,
    listing: &mut Listing,
) -> Result<Option<u32>, AllocError>
    requires fit { IsFitProcess (protocol_of protocol.now) (protocol_of protocol.now).main }
    requires rules { HasFitRules (protocol_of protocol.now) }
    requires points { HasFewPoints 1 (protocol_of protocol.now).main }
    ensures grows { Grows (B.trees bank.old) (B.trees bank.new) }
    ensures ends { IfOk result (λ large. Ends (protocol_of protocol.now)
        (Once (protocol_of protocol.now).main 1 first_visit) (B.trees bank.new) listing.old
        listing.new large) }
    ensures tells { IfOk result (λ large. Tells (protocol_of protocol.now)
        (protocol_of protocol.now).main 1 first_visit listing.old listing.new large) }
    ensures back { IfOk result (λ large. listing.new.clauses ≡ listing.old.clauses
        → B.trees bank.new ≡ B.trees bank.old) }
{
    let place = Place {
        alloc,
        protocol,
        point: 1,
    };
    let first = Visit::first(alloc);
    visit_process(&protocol.main, &place, bank, listing, &first)
}

/// The point of the first visit that is too large, if one is, by visits that keep nothing. On `Err`, and where one is too
/// large, the bank may have grown.
fn first_large<B: Bank>(
    alloc: Global,
    bank: &mut B,
    protocol: &Protocol,
) -> Result<Option<u32>, AllocError>
    requires fit { IsFitProcess (protocol_of protocol.now) (protocol_of protocol.now).main }
    requires rules { HasFitRules (protocol_of protocol.now) }
    requires points { HasFewPoints 1 (protocol_of protocol.now).main }
    ensures grows { Grows (B.trees bank.old) (B.trees bank.new) }
    ensures large { IfOk result (λ large. MatchOption large (B.trees bank.new ≡ B.trees bank.old)
        (λ point. IsLargeAt (protocol_of protocol.now) point)) }
{
    let mut counted = Listing {
        clauses: Clauses {
            items: Vec::new(alloc),
        },
        left: MOST_VISITS,
        keeps: false,
        choices: no_choices(alloc),
        sources: None,
    };
    visit_main(alloc, bank, protocol, &mut counted)
}

/// The clauses with those that visits of the main process add, which are counted before one is kept. On `Err`, and where
/// one is too large, the bank may have grown.
fn visited<B: Bank>(
    alloc: Global,
    bank: &mut B,
    protocol: &Protocol,
    clauses: Clauses,
) -> Result<Translated, AllocError>
    requires clauses { AreClausesIn (B.trees bank.old) clauses }
    requires low { AreLowWithinLimit (B.trees bank.old) clauses }
    requires fit { IsFitProcess (protocol_of protocol.now) (protocol_of protocol.now).main }
    requires rules { HasFitRules (protocol_of protocol.now) }
    requires points { HasFewPoints 1 (protocol_of protocol.now).main }
    ensures grows { Grows (B.trees bank.old) (B.trees bank.new) }
    ensures visits { IfOk result (λ found. IsVisited (protocol_of protocol.now) (B.trees bank.old)
        (B.trees bank.new) clauses found) }
{
    match first_large(alloc, bank, protocol)? {
        Some(point) => return Ok(Translated::Large(point)),
        None => {}
    }
    let mut listing = Listing {
        clauses,
        left: MOST_VISITS,
        keeps: true,
        choices: no_choices(alloc),
        sources: None,
    };
    match visit_main(alloc, bank, protocol, &mut listing)? {
        Some(point) => Ok(Translated::Large(point)),
        None => Ok(Translated::Clauses(listing.clauses)),
    }
}

/// The clauses of `translate_common` with the goal of the query of that number behind them: the query's translation. On
/// `Err`, which is want of memory, the bank may have grown.
pub fn with_goal<B: Bank>(
    alloc: Global,
    bank: &mut B,
    protocol: &Protocol,
    query: u32,
    mut clauses: Clauses,
) -> Result<Clauses, AllocError>
    requires limits { IsWithinLimits (protocol_of protocol.now) }
    requires queries { HasProperQueries (protocol_of protocol.now) }
    requires there { IsThere (protocol_of protocol.now) OfQueries query }
    requires common { IsCommonTo (protocol_of protocol.now) (B.trees bank.old) clauses }
    ensures grows { Grows (B.trees bank.old) (B.trees bank.new) }
    ensures translates { IfOk result (λ all. TranslatesTo (protocol_of protocol.now) query
        (B.trees bank.new) all) }
    ensures names { IfOk result (λ all. OfQuery (protocol_of protocol.now) query
        (λ q. NameClauses (B.trees bank.new) all (map (clause_at (B.trees bank.old)) clauses
        ++ goal_clauses (protocol_of protocol.now) q))) }
{
    let mut goal = goal_clause(alloc, bank, protocol, query)?;
    clauses.items.append(&mut goal.items)?;
    Ok(clauses)
}

/// All of the translation but the goal. On `Err`, and where a visit is too large, the bank may have grown.
fn common_grown<B: Bank>(
    alloc: Global,
    bank: &mut B,
    protocol: &Protocol,
) -> Result<Translated, AllocError>
    requires limits { IsWithinLimits (protocol_of protocol.now) }
    requires rules { HasProperRules (protocol_of protocol.now) }
    requires scoped { IsWellScoped (protocol_of protocol.now) }
    ensures grows { Grows (B.trees bank.old) (B.trees bank.new) }
    ensures translates { IfOk result (λ found. TranslatesAll (protocol_of protocol.now)
        (B.trees bank.new) found) }
{
    let clauses = attacker_list(alloc, bank, protocol)?;
    match visited(alloc, bank, protocol, clauses)? {
        Translated::Large(point) => Ok(Translated::Large(point)),
        Translated::Clauses(common) => Ok(Translated::Clauses(common)),
    }
}

/// What the protocol and each of its queries are translated into, but for the goal: the attacker's clauses and those of the
/// visits of the main process in pre-order; or the point of the first visit that is too large. With the query's goal
/// clause behind them they are the query's translation.
///
/// The conditions hold of each protocol that is read. `Err` comes for want of memory, and, as if for that, where the new
/// variables of a pattern would lead past 2^31, as they do in no protocol that is read. On `Err`, and where a visit is too
/// large, the bank is as before.
pub fn translate_common<B: Bank>(
    alloc: Global,
    bank: &mut B,
    protocol: &Protocol,
) -> Result<Translated, AllocError>
    requires limits { IsWithinLimits (protocol_of protocol.now) }
    requires rules { HasProperRules (protocol_of protocol.now) }
    requires scoped { IsWellScoped (protocol_of protocol.now) }
    ensures grows { Grows (B.trees bank.old) (B.trees bank.new) }
    ensures translates { IfOk result (λ found. TranslatesAll (protocol_of protocol.now)
        (B.trees bank.new) found) }
    ensures large { IfOk result (λ found. IsKept (B.trees bank.old) (B.trees bank.new) found) }
    ensures err { OnErr result (B.trees bank.new ≡ B.trees bank.old) }
{
    let mark = bank.mark();
    match common_grown(alloc, bank, protocol) {
        Ok(Translated::Clauses(all)) => Ok(Translated::Clauses(all)),
        Ok(Translated::Large(point)) => {
            bank.back(mark);
            Ok(Translated::Large(point))
        }
        Err(error) => {
            bank.back(mark);
            Err(error)
        }
    }
}

/// The translation. On `Err`, and where a visit is too large, the bank may have grown.
fn translate_grown<B: Bank>(
    alloc: Global,
    bank: &mut B,
    protocol: &Protocol,
    query: u32,
) -> Result<Translated, AllocError>
    requires limits { IsWithinLimits (protocol_of protocol.now) }
    requires rules { HasProperRules (protocol_of protocol.now) }
    requires scoped { IsWellScoped (protocol_of protocol.now) }
    requires queries { HasProperQueries (protocol_of protocol.now) }
    requires there { IsThere (protocol_of protocol.now) OfQueries query }
    ensures grows { Grows (B.trees bank.old) (B.trees bank.new) }
    ensures translates { IfOk result (λ found. Translates (protocol_of protocol.now) query
        (B.trees bank.new) found) }
{
    match common_grown(alloc, bank, protocol)? {
        Translated::Large(point) => Ok(Translated::Large(point)),
        Translated::Clauses(known) => {
            let all = with_goal(alloc, bank, protocol, query, known)?;
            Ok(Translated::Clauses(all))
        }
    }
}

/// What the protocol and the query of that number are translated into: the attacker's clauses, those of the visits of
/// the main process in pre-order, and the goal; or the point of the first visit that is too large.
///
/// The clauses abstract every run of the protocol: by an abstraction that is one to one on the run's values, what the
/// attacker knows is derived from them with all events that were performed, and each event with those before it.
///
/// The conditions hold of each protocol that is read. `Err` comes for want of memory, and, as if for that, where the new
/// variables of a pattern would lead past 2^31, as they do in no protocol that is read. On `Err`, and where a visit is too
/// large, the bank is as before.
pub fn translate<B: Bank>(
    alloc: Global,
    bank: &mut B,
    protocol: &Protocol,
    query: u32,
) -> Result<Translated, AllocError>
    requires limits { IsWithinLimits (protocol_of protocol.now) }
    requires rules { HasProperRules (protocol_of protocol.now) }
    requires scoped { IsWellScoped (protocol_of protocol.now) }
    requires queries { HasProperQueries (protocol_of protocol.now) }
    requires there { IsThere (protocol_of protocol.now) OfQueries query }
    ensures grows { Grows (B.trees bank.old) (B.trees bank.new) }
    ensures translates { IfOk result (λ found. Translates (protocol_of protocol.now) query
        (B.trees bank.new) found) }
    ensures runs { IfOk result (λ found. IsSound (protocol_of protocol.now)
        (B.trees bank.new) found) }
    ensures large { IfOk result (λ found. IsKept (B.trees bank.old) (B.trees bank.new) found) }
    ensures err { OnErr result (B.trees bank.new ≡ B.trees bank.old) }
{
    translations_abstract_runs();
    let mark = bank.mark();
    match translate_grown(alloc, bank, protocol, query) {
        Ok(Translated::Clauses(all)) => Ok(Translated::Clauses(all)),
        Ok(Translated::Large(point)) => {
            bank.back(mark);
            Ok(Translated::Large(point))
        }
        Err(error) => {
            bank.back(mark);
            Err(error)
        }
    }
}
