//! The entries in which an attack is looked for.

ghost use Rattle.std.specs.Prelude.{◌≡◌, ℕ, IfOk, IfSome};
ghost use Rattle.spec_well_formed.specs.Limits.{IsWithinLimits};
ghost use Rattle.spec_well_formed.specs.Rules.{HasProperRules};
ghost use Rattle.spec_well_formed.specs.Queries.{HasProperQueries};
ghost use Rattle.spec_well_formed.specs.WellFormed.{IsWellScoped};
ghost use Rattle.pi_tree.specs.Protocols.{protocol_of};
ghost use Rattle.pi_tree.specs.Accessors.{IsThere};
ghost use Rattle.pi_tree.specs.declared.accessors.Kind.TheVariants.{Query as OfQueries};
ghost use Rattle.clause_form.specs.Fit.{AreFit};
ghost use Rattle.log_entries.specs.Beating.{clauses_of};
ghost use Rattle.clause_translate.specs.Whole.{TranslatesTo, IsLargeAt};
ghost use Rattle.clause_instances.specs.Derivations.{HasNormedLog};
ghost use Rattle.attack_candidates.specs.Sound.{CanBeSearched};
ghost use Rattle.attack_candidates.specs.Ended.{entries_of};

use crate::beginning::begun;
use crate::found::{Found, Searched};
use crate::searching::search;
use clause_form::Clause;
use clause_saturate::{Log, PlainLog, Saturated, saturate};
use clause_translate::{Translated, translate};
use pi_tree::Protocol;
use spec_translation::{
    one_translation, translations_are_normal, translations_are_within_the_limit,
    translations_have_one_goal,
};
use std::alloc::{AllocError, Global};
use term_store::SharedBank;

/// A log, and the numbers of the entries of it in which an attack is looked for, in the order in which they are tried. Entries are
/// numbered from 1.
#[derive(Drop)]
pub struct Candidates {
    pub log: PlainLog,
    pub entries: Vec<usize>,
}

/// A query of a protocol, and how many entries its log may have.
#[derive(Clone, Copy)]
pub struct Asked<'a> {
    alloc: Global,
    protocol: &'a Protocol,
    query: u32,
    budget: u64,
}

/// The log of a saturation, however it ends.
fn log_in(saturated: &Saturated) -> &Log
    ensures { result.now ≡ entries_of saturated.now }
{
    match saturated {
        Saturated::Closed(log) => log,
        Saturated::Spent(log, _) => log,
        Saturated::Large(log, _, _) => log,
    }
}

/// The candidates of a saturation of the given clauses.
fn candidates_in(
    asked: Asked<'_>,
    bank: &mut SharedBank,
    given: &[Clause],
    saturated: &Saturated,
) -> Result<Candidates, AllocError>
    requires limits { IsWithinLimits (protocol_of asked.protocol.now) }
    requires there { IsThere (protocol_of asked.protocol.now) OfQueries asked.query }
    requires given { AreFit bank.old given.now }
    requires log { AreFit bank.old (clauses_of (entries_of saturated.now)) }
    ensures { IfOk result (λ made. HasNormedLog made.log) }
{
    let searched = Searched {
        alloc: asked.alloc,
        protocol: asked.protocol,
        query: asked.query,
        log: log_in(saturated),
        is_closed: matches!(saturated, Saturated::Closed(_)),
    };
    let mut found = begun(&searched, bank, given)?;
    search(&searched, bank, &mut found)?;
    let Found { log, entries, .. } = found;
    Ok(Candidates { log, entries })
}

/// The candidates of the given clauses.
fn candidates_from(
    asked: Asked<'_>,
    bank: &mut SharedBank,
    given: &[Clause],
) -> Result<Candidates, AllocError>
    requires limits { IsWithinLimits (protocol_of asked.protocol.now) }
    requires there { IsThere (protocol_of asked.protocol.now) OfQueries asked.query }
    requires given { TranslatesTo (protocol_of asked.protocol.now) asked.query bank.old given.now }
    ensures { IfOk result (λ made. HasNormedLog made.log) }
{
    translations_are_normal();
    translations_are_within_the_limit();
    translations_have_one_goal();
    let saturated = saturate(asked.alloc, bank, given, asked.budget)?;
    candidates_in(asked, bank, given, &saturated)
}

/// The candidates of the query of that number with the budget, over the bank and what is added to it.
fn candidates_with(
    bank: &mut SharedBank,
    alloc: Global,
    protocol: &Protocol,
    query: u32,
    budget: u64,
) -> Result<Option<Candidates>, AllocError>
    requires limits { IsWithinLimits (protocol_of protocol.now) }
    requires rules { HasProperRules (protocol_of protocol.now) }
    requires scoped { IsWellScoped (protocol_of protocol.now) }
    requires queries { HasProperQueries (protocol_of protocol.now) }
    requires there { IsThere (protocol_of protocol.now) OfQueries query }
    ensures normed { IfOk result (λ found. IfSome found (λ made. HasNormedLog made.log)) }
    ensures small { IfOk result (λ found. IfSome found (λ made.
        (point : ℕ) → IsLargeAt (protocol_of protocol.now) point → ⊥)) }
{
    one_translation();
    let asked = Asked {
        alloc,
        protocol,
        query,
        budget,
    };
    match translate(alloc, bank, protocol, query)? {
        Translated::Large(_) => Ok(None),
        Translated::Clauses(given) => {
            let made = candidates_from(asked, bank, &given.items);
            drop(given);
            Ok(Some(made?))
        }
    }
}

/// The entries in which an attack on the query of that number is looked for: of a closed log the live solved ones that conclude
/// `bad` and don't satisfy the query. Where the log isn't closed, what comes of its goals by resolution with its live solved
/// entries is added to it, the smallest first, and looked at too. None where the translation is too large.
///
/// The conditions hold of each protocol that is read, and of each budget that a command may name. `Err` comes for want of
/// memory, and where `translate` answers it since a number doesn't fit.
pub fn candidates_of(
    alloc: Global,
    protocol: &Protocol,
    query: u32,
    budget: u64,
) -> Result<Option<Candidates>, AllocError>
    requires limits { IsWithinLimits (protocol_of protocol.now) }
    requires rules { HasProperRules (protocol_of protocol.now) }
    requires scoped { IsWellScoped (protocol_of protocol.now) }
    requires queries { HasProperQueries (protocol_of protocol.now) }
    requires there { IsThere (protocol_of protocol.now) OfQueries query }
    ensures normed { IfOk result (λ found. IfSome found (λ made. HasNormedLog made.log)) }
    ensures small { IfOk result (λ found. IfSome found (λ made.
        (point : ℕ) → IsLargeAt (protocol_of protocol.now) point → ⊥)) }
{
    let mut bank = SharedBank::new(alloc)?;
    let found = candidates_with(&mut bank, alloc, protocol, query, budget);
    drop(bank);
    found
}
