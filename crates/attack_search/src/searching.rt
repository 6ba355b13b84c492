//! The search, entry by entry.

ghost use Rattle.std.specs.Prelude.{IfOk};
ghost use Rattle.spec_well_formed.specs.Limits.{IsWithinLimits};
ghost use Rattle.pi_tree.specs.Protocols.{protocol_of};
ghost use Rattle.pi_tree.specs.Accessors.{IsThere};
ghost use Rattle.pi_tree.specs.declared.accessors.Kind.TheVariants.{Query as OfQueries};
ghost use Rattle.clause_instances.specs.Derivations.{HasNormedLog};
ghost use Rattle.clause_instances.specs.Instances.{AreKnownInstances};
ghost use Rattle.attack_search.specs.Found.{IsAttackIn, IsAttackWhereFound};

use crate::bounds::{MOST_CANDIDATES, MOST_INSTANCES, MOST_REPLAYED};
use attack_compiling::{Compilation, compiled};
use clause_instances::{Derivation, Instances, instances_of};
use clause_sources::Sources;
use instance_merging::{Merging, merged};
use log_entries::PlainLog;
use pi_model::Step;
use pi_tree::Protocol;
use run_replay::{Steps, violates};
use std::alloc::{AllocError, Global};
use term_store::SharedBank;
use thread_plans::{Attempt, Attempted, Order, Plan, Planning, carried_out, planned};

/// A query of a protocol, the sources of its translation, and a log of it, in which a run is looked for that violates the query.
#[derive(Clone, Copy)]
pub struct Search<'a> {
    pub alloc: Global,
    pub protocol: &'a Protocol,
    pub query: u32,
    pub sources: &'a Sources,
    pub log: &'a PlainLog,
}

/// How far a search came that found nothing: how many entries it tried, of how many instances in all, in how many steps.
#[derive(Clone, Copy, Drop)]
pub struct Effort {
    pub candidates: usize,
    pub instances: usize,
    pub steps: usize,
}

/// What a search tells.
#[derive(Drop)]
pub enum Searched {
    /// A run that violates the query.
    Found(Steps),
    Nothing(Effort),
}

/// How the instances of an entry are taken: merged where they visit one copy of a node, or as they are.
#[derive(Clone, Copy)]
enum Manner {
    Merged,
    Plain,
}

/// The steps as a run, where their replay ends in a violation of the query.
fn confirmed(search: &Search<'_>, items: Vec<Step>) -> Result<Option<Steps>, AllocError>
    requires limits { IsWithinLimits (protocol_of search.now.protocol.now) }
    requires there { IsThere (protocol_of search.now.protocol.now) OfQueries search.now.query }
    ensures { IfOk result (IsAttackIn (protocol_of search.now.protocol.now) search.now.query) }
{
    if items.len() > MOST_REPLAYED {
        return Ok(None);
    }
    if violates(search.alloc, search.protocol, &items, search.query)? {
        return Ok(Some(Steps { items }));
    }
    Ok(None)
}

/// The run that the instances are compiled to, where it violates the query.
fn compiled_attack(
    search: &Search<'_>,
    bank: &mut SharedBank,
    instances: &Instances,
    effort: &mut Effort,
) -> Result<Option<Steps>, AllocError>
    requires limits { IsWithinLimits (protocol_of search.now.protocol.now) }
    requires there { IsThere (protocol_of search.now.protocol.now) OfQueries search.now.query }
    requires known { AreKnownInstances bank.old instances.now }
    ensures { IfOk result (IsAttackIn (protocol_of search.now.protocol.now) search.now.query) }
{
    let compilation = Compilation {
        alloc: search.alloc,
        protocol: search.protocol,
        sources: search.sources,
        instances,
    };
    match compiled(&compilation, bank)? {
        None => Ok(None),
        Some(steps) => {
            effort.steps = effort.steps.saturating_add(steps.len());
            confirmed(search, steps)
        }
    }
}

/// The run that comes of the plan in that order, where it violates the query.
fn ordered_attack(
    search: &Search<'_>,
    plan: &Plan<'_>,
    order: Order,
    effort: &mut Effort,
) -> Result<Option<Steps>, AllocError>
    requires limits { IsWithinLimits (protocol_of search.now.protocol.now) }
    requires there { IsThere (protocol_of search.now.protocol.now) OfQueries search.now.query }
    ensures { IfOk result (IsAttackIn (protocol_of search.now.protocol.now) search.now.query) }
{
    let attempt = Attempt {
        alloc: search.alloc,
        protocol: search.protocol,
        query: search.query,
        plan,
        order,
    };
    let Attempted { steps, is_violated } = carried_out(attempt)?;
    effort.steps = effort.steps.saturating_add(steps.len());
    if is_violated {
        return confirmed(search, steps);
    }
    Ok(None)
}

/// The run that comes of the plan, where it violates the query.
fn planned_attack(
    search: &Search<'_>,
    plan: &Plan<'_>,
    effort: &mut Effort,
) -> Result<Option<Steps>, AllocError>
    requires limits { IsWithinLimits (protocol_of search.now.protocol.now) }
    requires there { IsThere (protocol_of search.now.protocol.now) OfQueries search.now.query }
    ensures { IfOk result (IsAttackIn (protocol_of search.now.protocol.now) search.now.query) }
{
    match ordered_attack(search, plan, Order::MissesFirst, effort)? {
        None => ordered_attack(search, plan, Order::InsertsFirst, effort),
        Some(found) => Ok(Some(found)),
    }
}

/// The run that the instances are compiled to, or else one that comes of a plan of them, where it violates the query.
fn attack_by(
    search: &Search<'_>,
    bank: &mut SharedBank,
    instances: &Instances,
    effort: &mut Effort,
) -> Result<Option<Steps>, AllocError>
    requires limits { IsWithinLimits (protocol_of search.now.protocol.now) }
    requires there { IsThere (protocol_of search.now.protocol.now) OfQueries search.now.query }
    requires known { AreKnownInstances bank.old instances.now }
    ensures { IfOk result (IsAttackIn (protocol_of search.now.protocol.now) search.now.query) }
{
    let planning = Planning {
        alloc: search.alloc,
        protocol: search.protocol,
        sources: search.sources,
    };
    let plan = planned(&planning, bank, instances)?;
    if let Some(found) = compiled_attack(search, bank, instances, effort)? {
        return Ok(Some(found));
    }
    match plan {
        None => Ok(None),
        Some(plan) => planned_attack(search, &plan, effort),
    }
}

/// The same of the instances when they are merged.
fn merged_attack(
    search: &Search<'_>,
    bank: &mut SharedBank,
    instances: &Instances,
    effort: &mut Effort,
) -> Result<Option<Steps>, AllocError>
    requires limits { IsWithinLimits (protocol_of search.now.protocol.now) }
    requires there { IsThere (protocol_of search.now.protocol.now) OfQueries search.now.query }
    requires known { AreKnownInstances bank.old instances.now }
    ensures { IfOk result (IsAttackIn (protocol_of search.now.protocol.now) search.now.query) }
{
    let merging = Merging {
        alloc: search.alloc,
        protocol: search.protocol,
        sources: search.sources,
    };
    match merged(&merging, bank, instances)? {
        None => Ok(None),
        Some(one) => attack_by(search, bank, &one, effort),
    }
}

/// The run that the entry of that number tells, over a bank without terms, where one is found that violates the query.
fn attack_in(
    search: &Search<'_>,
    bank: &mut SharedBank,
    entry: usize,
    manner: Manner,
    effort: &mut Effort,
) -> Result<Option<Steps>, AllocError>
    requires limits { IsWithinLimits (protocol_of search.now.protocol.now) }
    requires there { IsThere (protocol_of search.now.protocol.now) OfQueries search.now.query }
    requires normed { HasNormedLog search.now.log.now }
    ensures { IfOk result (IsAttackIn (protocol_of search.now.protocol.now) search.now.query) }
{
    let derivation = Derivation {
        alloc: search.alloc,
        sources: search.sources,
        log: search.log,
    };
    let Some(instances) = instances_of(&derivation, bank, entry)? else {
        return Ok(None);
    };
    effort.instances = effort.instances.saturating_add(instances.items.len());
    if instances.items.len() > MOST_INSTANCES {
        return Ok(None);
    }
    match manner {
        Manner::Merged => merged_attack(search, bank, &instances, effort),
        Manner::Plain => attack_by(search, bank, &instances, effort),
    }
}

/// The same over a bank of its own.
fn attack_of(
    search: &Search<'_>,
    entry: usize,
    manner: Manner,
    effort: &mut Effort,
) -> Result<Option<Steps>, AllocError>
    requires limits { IsWithinLimits (protocol_of search.now.protocol.now) }
    requires there { IsThere (protocol_of search.now.protocol.now) OfQueries search.now.query }
    requires normed { HasNormedLog search.now.log.now }
    ensures { IfOk result (IsAttackIn (protocol_of search.now.protocol.now) search.now.query) }
{
    let mut bank = SharedBank::new(search.alloc)?;
    let found = attack_in(search, &mut bank, entry, manner, effort);
    drop(bank);
    found
}

/// The run that the entry of that number tells, where one is found that violates the query: its instances are merged first, and then
/// taken as they are.
fn entry_attack(
    search: &Search<'_>,
    entry: usize,
    effort: &mut Effort,
) -> Result<Option<Steps>, AllocError>
    requires limits { IsWithinLimits (protocol_of search.now.protocol.now) }
    requires there { IsThere (protocol_of search.now.protocol.now) OfQueries search.now.query }
    requires normed { HasNormedLog search.now.log.now }
    ensures { IfOk result (IsAttackIn (protocol_of search.now.protocol.now) search.now.query) }
{
    match attack_of(search, entry, Manner::Merged, effort)? {
        None => attack_of(search, entry, Manner::Plain, effort),
        Some(found) => Ok(Some(found)),
    }
}

/// Looks for a run that violates the query, of these entries of the log in turn, which are numbered from 1.
pub fn find_attack(search: &Search<'_>, entries: &[usize]) -> Result<Searched, AllocError>
    requires limits { IsWithinLimits (protocol_of search.now.protocol.now) }
    requires there { IsThere (protocol_of search.now.protocol.now) OfQueries search.now.query }
    requires normed { HasNormedLog search.now.log.now }
    ensures { IfOk result
        (IsAttackWhereFound (protocol_of search.now.protocol.now) search.now.query) }
{
    let mut effort = Effort {
        candidates: 0,
        instances: 0,
        steps: 0,
    };
    'each: for entry in entries {
        if effort.candidates >= MOST_CANDIDATES {
            return Ok(Searched::Nothing(effort));
        }
        effort.candidates = effort.candidates.saturating_add(1);
        if let Some(steps) = entry_attack(search, *entry, &mut effort)? {
            return Ok(Searched::Found(steps));
        }
    }
    Ok(Searched::Nothing(effort))
}
