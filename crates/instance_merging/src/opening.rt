//! Terms and instances changed: the attacker's own names of bare numbers made variables, these bound, and made names again.

ghost use Rattle.std.specs.Prelude.{◌<◌, length, IfOk};
ghost use Rattle.term_tree.specs.Bank.{AreKnown, Grows};
ghost use Rattle.clause_instances.specs.Instances.{IsKnownInstance, IsFoundIn, AreKnownInstances, AreToldIn};
ghost use Rattle.instance_merging.specs.Changes.{IsReadyChange, AreFoundIn, IsTermIn};

use clause_form::{Ids, Tree, read_term};
use clause_instances::{Instance, Instances};
use limits::MOST_SYMBOLS;
use std::alloc::{AllocError, Global};
use term_store::SharedBank;
use term_tree::{Bank, Id, Sym};
use unify_match::{Binds, apply_bound};

/// How the attacker's own name of a bare number is written: as the variable of that number, which is open, or as a name.
#[derive(Clone, Copy)]
pub(crate) enum Form {
    Open,
    Closed,
}

/// A change of terms: into a form, or under bindings of open variables.
#[derive(Clone, Copy)]
pub(crate) enum Change<'a> {
    Into(Form),
    Under(&'a Binds),
}

/// The number of the attacker's own name that a term is, which isn't in the form yet.
fn own_number(form: Form, tree: &Tree) -> Option<u32> {
    match form {
        Form::Open => match tree {
            Tree::App(Sym::Attacker, arguments) => match arguments.items.first() {
                Some(Tree::Var(number)) => Some(*number),
                _ => None,
            },
            _ => None,
        },
        Form::Closed => match tree {
            Tree::Var(number) => Some(*number),
            _ => None,
        },
    }
}

/// The attacker's own name of that number, in the form. On `Err` the bank may have grown.
fn own_name(bank: &mut SharedBank, form: Form, number: u32) -> Result<Id, AllocError>
    ensures grows { Grows bank.old bank.new }
    ensures known { IfOk result (λ id. id.index < length bank.new) }
{
    let variable = bank.var(number)?;
    match form {
        Form::Open => Ok(variable),
        Form::Closed => bank.app(Sym::Attacker, &[variable]),
    }
}

/// The term in the form. On `Err` the bank may have grown.
fn formed(alloc: Global, bank: &mut SharedBank, form: Form, tree: &Tree) -> Result<Id, AllocError>
    ensures grows { Grows bank.old bank.new }
    ensures known { IfOk result (λ id. id.index < length bank.new) }
{
    if let Some(number) = own_number(form, tree) {
        return own_name(bank, form, number);
    }
    match tree {
        Tree::Var(number) => bank.var(*number),
        Tree::App(symbol, arguments) => {
            let mut ids = Vec::with_capacity(alloc, arguments.items.len())?;
            'each: for argument in &arguments.items {
                let id = formed(alloc, bank, form, argument)?;
                ids.push(id)?;
            }
            bank.app(*symbol, &ids)
        }
    }
}

/// The term changed; none where it is over the limit of size under the bindings. On `Err` the bank may have grown.
fn changed_term(
    alloc: Global,
    bank: &mut SharedBank,
    change: Change<'_>,
    id: Id,
) -> Result<Option<Id>, AllocError>
    requires known { id.index < length bank.old }
    requires ready { IsReadyChange bank.old change }
    ensures grows { Grows bank.old bank.new }
    ensures known { IfOk result (λ found. IsTermIn bank.new found) }
{
    match change {
        Change::Under(binds) => apply_bound(bank, id, binds, MOST_SYMBOLS),
        Change::Into(form) => {
            let tree = read_term(alloc, bank, id)?;
            let made = formed(alloc, bank, form, &tree)?;
            Ok(Some(made))
        }
    }
}

/// The terms changed; none where one of them is over the limit of size. On `Err` the bank may have grown.
fn changed_terms(
    alloc: Global,
    bank: &mut SharedBank,
    change: Change<'_>,
    ids: &[Id],
) -> Result<Option<Ids>, AllocError>
    requires known { AreKnown bank.old ids.now }
    requires ready { IsReadyChange bank.old change }
    ensures grows { Grows bank.old bank.new }
    ensures known { IfOk result (λ found. AreFoundIn bank.new found) }
{
    let mut items = Vec::with_capacity(alloc, ids.len())?;
    'each: for id in ids {
        match changed_term(alloc, bank, change, *id)? {
            None => return Ok(None),
            Some(made) => items.push(made)?,
        }
    }
    Ok(Some(Ids { items }))
}

/// The instance changed; none where one of its terms is over the limit of size. On `Err` the bank may have grown.
fn changed_instance(
    alloc: Global,
    bank: &mut SharedBank,
    change: Change<'_>,
    instance: &Instance,
) -> Result<Option<Instance>, AllocError>
    requires known { IsKnownInstance bank.old instance.now }
    requires ready { IsReadyChange bank.old change }
    ensures grows { Grows bank.old bank.new }
    ensures known { IfOk result (λ found. IsFoundIn bank.new found) }
{
    let Some(supposed) = changed_terms(alloc, bank, change, &instance.supposed.items)? else {
        return Ok(None);
    };
    let Some(messages) = changed_terms(alloc, bank, change, &instance.messages.items)? else {
        return Ok(None);
    };
    let Some(sessions) = changed_terms(alloc, bank, change, &instance.sessions.items)? else {
        return Ok(None);
    };
    Ok(Some(Instance {
        source: instance.source,
        supposed,
        messages,
        sessions,
    }))
}

/// The instances changed, in their order; none where a term is over the limit of size. On `Err` the bank may have grown.
pub(crate) fn changed(
    alloc: Global,
    bank: &mut SharedBank,
    change: Change<'_>,
    instances: &Instances,
) -> Result<Option<Instances>, AllocError>
    requires known { AreKnownInstances bank.old instances.now }
    requires ready { IsReadyChange bank.old change }
    ensures grows { Grows bank.old bank.new }
    ensures known { IfOk result (λ found. AreToldIn bank.new found) }
{
    let mut items = Vec::with_capacity(alloc, instances.items.len())?;
    'each: for instance in &instances.items {
        match changed_instance(alloc, bank, change, instance)? {
            None => return Ok(None),
            Some(made) => items.push(made)?,
        }
    }
    Ok(Some(Instances { items }))
}
