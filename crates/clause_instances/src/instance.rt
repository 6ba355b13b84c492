//! Closed instances of sources.

ghost use Rattle.std.specs.Prelude.{◌≡◌, []};

use clause_form::Ids;
use clause_sources::Sources;
use log_entries::PlainLog;
use std::alloc::Global;
use std::marker::Model;
use term_store::SharedBank;

/// The most instances of which an attack is told.
pub const MOST_INSTANCES: usize = 100_000;

/// A closed instance of the source of that index: the terms of its hypotheses, and the messages and sessions of its way, over the
/// ids of a bank.
pub struct Instance {
    pub source: usize,
    pub supposed: Ids,
    pub messages: Ids,
    pub sessions: Ids,
}

impl Drop for Instance {
    fn drop(self) {
        let Instance {
            source: _,
            supposed,
            messages,
            sessions,
        } = self;
        drop(supposed);
        drop(messages);
        drop(sessions);
    }
}

/// Instances in order.
#[derive(Drop)]
pub struct Instances {
    pub items: Vec<Instance>,
}

impl Model for Instances {
    ghost use Rattle.std.specs.Prelude.{List};
    ghost use Rattle.clause_instances.specs.declared.instance.Instance.{Instance};
    ghost use Rattle.clause_instances.specs.Codes.{coded_instances};

    ghost Value = { List Instance };

    ghost coded = { coded_instances };

    ghost view = { λ a. a.items.items };
}

/// Where pending entries are expanded: a bank for clauses, which is as before behind each of them, and the number of the attacker's
/// next name.
#[derive(Drop)]
pub struct Expansion {
    pub scratch: SharedBank,
    pub next: u32,
}

/// An entry of the log whose instances are still to be told: its number, and the terms for the variables of its clause, over the ids
/// of a bank.
#[derive(Drop)]
pub struct Pending {
    pub number: usize,
    pub terms: Ids,
}

/// A log, and the sources of its given clauses.
#[derive(Clone, Copy)]
pub struct Derivation<'a> {
    pub alloc: Global,
    pub sources: &'a Sources,
    pub log: &'a PlainLog,
}

/// No ids. Takes no memory.
pub(crate) fn no_ids(alloc: Global) -> Ids
    ensures { result ≡ [] }
{
    Ids {
        items: Vec::new(alloc),
    }
}
