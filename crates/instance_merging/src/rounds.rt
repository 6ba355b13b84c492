//! Merging in rounds: after a substitution more sessions may be equal, so all instances are unified again until nothing changes.

ghost use Rattle.std.specs.Prelude.{IfOk};
ghost use Rattle.term_tree.specs.Bank.{Grows};
ghost use Rattle.clause_instances.specs.Instances.{AreKnownInstances, AreToldIn};
ghost use Rattle.instance_merging.specs.Changes.{IsRoundIn};

use crate::opening::{Change, Form, changed};
use crate::paths::{Paths, paths_of};
use crate::unifying::{Group, unify_group};
use clause_instances::Instances;
use clause_sources::Sources;
use pi_tree::Protocol;
use std::alloc::{AllocError, Global};
use term_store::SharedBank;
use unify_match::Binds;

/// The most instances that are merged.
const MOST_MERGED: usize = 500;

/// The most rounds. Each but the last binds a variable.
const MOST_ROUNDS: usize = 1000;

/// What instances are merged for: a protocol, and the sources of its clauses.
#[derive(Clone, Copy)]
pub struct Merging<'a> {
    pub alloc: Global,
    pub protocol: &'a Protocol,
    pub sources: &'a Sources,
}

/// How a round ends.
#[derive(Drop)]
enum Round {
    /// Two instances that are one thread don't agree.
    Fails,
    /// All agree as they are.
    Settled,
    /// The instances under what was bound.
    Bound(Instances),
}

/// A round: the instances, whose attacker's names of bare numbers are open variables, unified. On `Err` the bank may have grown.
fn one_round(
    alloc: Global,
    bank: &mut SharedBank,
    paths: &Paths<'_>,
    instances: &Instances,
) -> Result<Round, AllocError>
    requires { AreKnownInstances bank.old instances.now }
    ensures grows { Grows bank.old bank.new }
    ensures known { IfOk result (λ round. IsRoundIn bank.new round) }
{
    let group = Group { instances, paths };
    let mut binds = Binds::new(alloc)?;
    if !unify_group(bank, &group, &mut binds)? {
        return Ok(Round::Fails);
    }
    if binds.level() == 0 {
        return Ok(Round::Settled);
    }
    match changed(alloc, bank, Change::Under(&binds), instances)? {
        None => Ok(Round::Fails),
        Some(bound) => Ok(Round::Bound(bound)),
    }
}

/// The instances under what rounds bind, with open variables before and behind; none where a round fails. On `Err` the bank may have
/// grown.
fn settled(
    alloc: Global,
    bank: &mut SharedBank,
    paths: &Paths<'_>,
    opened: Instances,
) -> Result<Option<Instances>, AllocError>
    requires { AreKnownInstances bank.old opened }
    ensures grows { Grows bank.old bank.new }
    ensures known { IfOk result (λ found. AreToldIn bank.new found) }
{
    let mut instances = opened;
    'each: for _round in 0..MOST_ROUNDS {
        match one_round(alloc, bank, paths, &instances)? {
            Round::Fails => return Ok(None),
            Round::Settled => return Ok(Some(instances)),
            Round::Bound(bound) => instances = bound,
        }
    }
    Ok(None)
}

/// The instances, with their open variables bound, in the same order, such that those that visit one copy of a node received the same
/// there and went on alike. The open variables are the attacker's names of bare numbers, and those that stay open are these names
/// still. None where there are no such bindings, or more instances than are merged. On `Err` the bank may have grown.
pub fn merged(
    merging: &Merging<'_>,
    bank: &mut SharedBank,
    instances: &Instances,
) -> Result<Option<Instances>, AllocError>
    requires { AreKnownInstances bank.old instances.now }
    ensures grows { Grows bank.old bank.new }
    ensures known { IfOk result (λ found. AreToldIn bank.new found) }
{
    if instances.items.len() > MOST_MERGED {
        return Ok(None);
    }
    let Merging {
        alloc,
        protocol,
        sources,
    } = *merging;
    let paths = paths_of(alloc, protocol, sources, instances)?;
    let Some(open) = changed(alloc, bank, Change::Into(Form::Open), instances)? else {
        return Ok(None);
    };
    let Some(bound) = settled(alloc, bank, &paths, open)? else {
        return Ok(None);
    };
    changed(alloc, bank, Change::Into(Form::Closed), &bound)
}
