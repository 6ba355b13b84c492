//! All instances that an entry comes from, by an explicit stack of pending entries.

ghost use Rattle.std.specs.Prelude.{◌≡◌, List, [], ◌∷◌, IfOk};
ghost use Rattle.spec_saturation.specs.Key.{Entry};
ghost use Rattle.term_tree.specs.Bank.{AreKnown, Grows};
ghost use Rattle.log_entries.specs.PlainLogs.{TellPlainLog};
ghost use Rattle.clause_instances.specs.Derivations.{HasNormedLog, AreInstancesOf};
ghost use Rattle.clause_instances.specs.Descents.{IsGivenAt, IsResolvedAt, IsExpandedTo, IsExpandedIn, AddsExpanded};
ghost use Rattle.clause_instances.specs.Instances.{AreToldIn, pending_at};

use crate::given::instance_of;
use crate::instance::{
    Derivation, Expansion, Instance, Instances, MOST_INSTANCES, Pending, no_ids,
};
use crate::resolved::{Descends, entry, parents_of};
use log_entries::Origin;
use std::alloc::{AllocError, Global};
use term_store::SharedBank;

/// What a pending entry is: an instance, a resolvent of two others, or neither.
#[derive(Drop)]
enum Expanded {
    Nothing,
    Given(Instance),
    Resolved(Pending, Pending),
}

/// The instances that were told, and the entries that are left, the next one last.
#[derive(Drop)]
struct Progress {
    told: Vec<Instance>,
    stack: Vec<Pending>,
}

/// The entry as an instance of the given clause of that number. On `Err` the bank may have grown.
fn given(
    derivation: &Derivation<'_>,
    expansion: &mut Expansion,
    bank: &mut SharedBank,
    pending: &Pending,
    number: usize,
) -> Result<Expanded, AllocError>
    requires { AreKnown bank.old pending.now.terms }
    ensures scratch { expansion.new.scratch ≡ expansion.old.scratch }
    ensures grows { Grows bank.old bank.new }
    ensures known { IfOk result (λ made. IsExpandedIn bank.new made) }
    ensures given { (log : List Entry) →
        IsGivenAt log (pending_at bank.old pending.now) number →
        IfOk result (λ made. IsExpandedTo bank.new derivation.now.sources.now log
        (pending_at bank.old pending.now) expansion.old.next made expansion.new.next) }
{
    match instance_of(derivation, expansion, bank, pending, number)? {
        None => Ok(Expanded::Nothing),
        Some(instance) => Ok(Expanded::Given(instance)),
    }
}

/// The entry as a resolvent of these numbers. On `Err` the bank may have grown.
fn resolved(
    derivation: &Derivation<'_>,
    expansion: &mut Expansion,
    bank: &mut SharedBank,
    pending: &Pending,
    descends: Descends,
) -> Result<Expanded, AllocError>
    requires known { AreKnown bank.old pending.now.terms }
    requires normed { HasNormedLog derivation.now.log.now }
    ensures scratch { expansion.new.scratch ≡ expansion.old.scratch }
    ensures grows { Grows bank.old bank.new }
    ensures known { IfOk result (λ made. IsExpandedIn bank.new made) }
    ensures resolved { (log : List Entry) → TellPlainLog derivation.now.log.now log →
        IsResolvedAt log (pending_at bank.old pending.now) descends →
        IfOk result (λ made. IsExpandedTo bank.new derivation.now.sources.now log
        (pending_at bank.old pending.now) expansion.old.next made expansion.new.next) }
{
    match parents_of(derivation, expansion, bank, pending, descends)? {
        None => Ok(Expanded::Nothing),
        Some((left, right)) => Ok(Expanded::Resolved(left, right)),
    }
}

/// What a pending entry is. On `Err` the bank may have grown.
fn expand(
    derivation: &Derivation<'_>,
    expansion: &mut Expansion,
    bank: &mut SharedBank,
    pending: &Pending,
) -> Result<Expanded, AllocError>
    requires known { AreKnown bank.old pending.now.terms }
    requires normed { HasNormedLog derivation.now.log.now }
    ensures scratch { expansion.new.scratch ≡ expansion.old.scratch }
    ensures grows { Grows bank.old bank.new }
    ensures known { IfOk result (λ made. IsExpandedIn bank.new made) }
    ensures expanded { (log : List Entry) → TellPlainLog derivation.now.log.now log →
        IfOk result (λ made. IsExpandedTo bank.new derivation.now.sources.now log
        (pending_at bank.old pending.now) expansion.old.next made expansion.new.next) }
{
    let Some(entry) = entry(derivation, pending.number) else {
        return Ok(Expanded::Nothing);
    };
    match entry.origin {
        Origin::Given(number) => given(derivation, expansion, bank, pending, number),
        Origin::Resolvent {
            k,
            solved,
            unsolved,
        } => {
            let descends = Descends {
                number: k,
                solved,
                unsolved,
            };
            resolved(derivation, expansion, bank, pending, descends)
        }
    }
}

impl Progress {
    /// Adds what the entry is that was taken off the stack; false where nothing comes of it.
    fn add(&mut self, made: Expanded) -> Result<bool, AllocError>
        ensures { IfOk result (λ went. AddsExpanded self.old.told.items self.old.stack.items made
            self.new.told.items self.new.stack.items went) }
    {
        match made {
            Expanded::Nothing => Ok(false),
            Expanded::Given(instance) => {
                self.told.push(instance)?;
                Ok(true)
            }
            Expanded::Resolved(left, right) => {
                self.stack.push(right)?;
                self.stack.push(left)?;
                Ok(true)
            }
        }
    }

    /// The stack of that entry alone, its own variables lost.
    fn new(alloc: Global, number: usize) -> Result<Progress, AllocError>
        ensures none { IfOk result (λ made. made.told.items ≡ []) }
        ensures one { IfOk result (λ made. made.stack.items ≡
            record { number = number; terms = [] } ∷ []) }
    {
        let terms = no_ids(alloc);
        let stack = vec![in alloc; Pending { number, terms }]?;
        let told = Vec::new(alloc);
        Ok(Progress { told, stack })
    }
}

/// The instances that the entry of that number comes from, its own variables lost too, where the next name is the first; none where
/// it comes from nothing, from more instances than are told, or from one with a term over the limit of size. On `Err` the bank may
/// have grown.
fn told_of(
    derivation: &Derivation<'_>,
    expansion: &mut Expansion,
    bank: &mut SharedBank,
    number: usize,
) -> Result<Option<Instances>, AllocError>
    requires normed { HasNormedLog derivation.now.log.now }
    requires first { expansion.old.next ≡ 1 }
    ensures grows { Grows bank.old bank.new }
    ensures known { IfOk result (λ found. AreToldIn bank.new found) }
    ensures instances { (log : List Entry) → TellPlainLog derivation.now.log.now log →
        IfOk result (λ found. AreInstancesOf bank.new derivation.now.sources.now log number
        found) }
{
    let mut progress = Progress::new(derivation.alloc, number)?;
    'each: for _turn in 0..2 * MOST_INSTANCES {
        let Some(pending) = progress.stack.pop() else {
            return Ok(Some(Instances {
                items: progress.told,
            }));
        };
        let made = expand(derivation, expansion, bank, &pending)?;
        if !progress.add(made)? {
            return Ok(None);
        }
        if progress.stack.len() + progress.told.len() > MOST_INSTANCES {
            return Ok(None);
        }
    }
    Ok(None)
}

/// The instances that the entry of that number comes from, its own variables lost too; none where it comes from nothing, from more
/// instances than are told, or from one with a term over the limit of size. On `Err` the bank may have grown.
pub fn instances_of(
    derivation: &Derivation<'_>,
    bank: &mut SharedBank,
    number: usize,
) -> Result<Option<Instances>, AllocError>
    requires { HasNormedLog derivation.now.log.now }
    ensures grows { Grows bank.old bank.new }
    ensures known { IfOk result (λ found. AreToldIn bank.new found) }
    ensures instances { (log : List Entry) → TellPlainLog derivation.now.log.now log →
        IfOk result (λ found. AreInstancesOf bank.new derivation.now.sources.now log number
        found) }
{
    let mut expansion = Expansion {
        scratch: SharedBank::new(derivation.alloc)?,
        next: 1,
    };
    told_of(derivation, &mut expansion, bank, number)
}
