//! The uses of clauses of which a run was to be compiled: which are done, and which aren't.

ghost use Rattle.std.specs.Prelude.{◌≡◌, nat_eq};
ghost use Rattle.std.specs.List.{list_any};
ghost use Rattle.term_tree.specs.Bank.{AreKnown};
ghost use Rattle.clause_instances.specs.Instances.{IsKnownInstance, AreKnownInstances};

use crate::columns::put_numbered;
use crate::paths::Path;
use crate::spelling::put_terms;
use crate::stops::{Stop, Stopped, put_clause_use};
use clause_instances::Instance;
use clause_sources::{Action, Sources};
use std::alloc::AllocError;
use term_tree::Id;

/// The most uses that are shown.
const MOST_USES: usize = 200;

/// Whether the instance of that index was compiled.
fn is_done(stop: &Stop, index: usize) -> bool
    ensures { result ≡ list_any (λ other. nat_eq other index) stop.now.compiled.items }
{
    stop.compiled.contains(&index)
}

/// Whether a run does nothing where the clause of the instance is used, as where that is the query's.
fn is_idle(sources: &Sources, instance: &Instance) -> bool {
    match sources.items.get(instance.source) {
        None => false,
        Some(source) => matches!(source.action(), Action::Idle),
    }
}

/// The word for what became of an instance, that of this index.
fn state_of(stopped: &Stopped<'_>, index: usize, instance: &Instance) -> &'static [u8] {
    let stop = stopped.stop;
    if index == stop.instance {
        b"  stops     "
    } else if is_idle(stopped.sources, instance) {
        b"  no step   "
    } else if is_done(stop, index) {
        b"  done      "
    } else {
        b"  not done  "
    }
}

/// Puts terms behind a word, where there are any.
fn put_row(
    out: &mut Vec<u8>,
    stopped: &Stopped<'_>,
    word: &[u8],
    terms: &[Id],
) -> Result<(), AllocError>
    requires { AreKnown stopped.now.bank.now terms.now }
{
    if terms.is_empty() {
        return Ok(());
    }
    out.extend_from_slice(word)?;
    put_terms(out, stopped.setting, stopped.bank, terms)
}

/// Puts what a use receives, or supposes where it is the attacker's, and in which copies it is.
fn put_values(
    out: &mut Vec<u8>,
    stopped: &Stopped<'_>,
    instance: &Instance,
) -> Result<(), AllocError>
    requires { IsKnownInstance stopped.now.bank.now instance.now }
{
    if Path::of(stopped.sources, instance).is_none() {
        return put_row(out, stopped, b":", &instance.supposed.items);
    }
    put_row(out, stopped, b":", &instance.messages.items)?;
    put_row(out, stopped, b", in the copies", &instance.sessions.items)
}

/// Puts the line of a use, of that index.
fn put_line(
    out: &mut Vec<u8>,
    stopped: &Stopped<'_>,
    index: usize,
    instance: &Instance,
) -> Result<(), AllocError>
    requires { IsKnownInstance stopped.now.bank.now instance.now }
{
    out.extend_from_slice(state_of(stopped, index, instance))?;
    put_clause_use(out, stopped, instance)?;
    put_values(out, stopped, instance)?;
    out.extend_from_slice(b"\n")
}

/// Puts all uses of clauses, in the order in which they stand in the derivation, and what became of each.
pub(crate) fn put_uses(out: &mut Vec<u8>, stopped: &Stopped<'_>) -> Result<(), AllocError>
    requires { AreKnownInstances stopped.now.bank.now stopped.now.instances.now }
{
    let instances = stopped.instances;
    let count = instances.items.len();
    out.extend_from_slice(b"the uses of clauses, each in its phase in this order\n")?;
    'each: for index in 0..count.min(MOST_USES) {
        if let Some(instance) = stopped.instance(index) {
            put_line(out, stopped, index, instance)?;
        }
    }
    if count <= MOST_USES {
        return Ok(());
    }
    put_numbered(out, b".. only ", MOST_USES, b" of them are shown\n")
}
