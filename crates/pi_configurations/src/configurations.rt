//! Configurations: where a run stands (Blanchet 2016, section 2.2).

ghost use Rattle.std.specs.Prelude.{◌≡◌, ◌^◌, ◌<◌, not, length, filter_map, option_map, IfOk};
ghost use Rattle.std.specs.List.{enumerate_from};
ghost use Rattle.spec_calculus.specs.Runs.{start, public_name};
ghost use Rattle.spec_calculus.specs.Points.{numbered};
ghost use Rattle.spec_calculus.specs.Refusals.{no_thread};
ghost use Rattle.pi_tree.specs.Protocols.{protocol_of};
ghost use Rattle.pi_tree.specs.Values.{value_of};
ghost use Rattle.pi_configurations.specs.Configurations.{configuration_of, IsConfigurationOf};

use crate::happenings::Happenings;
use crate::known::Known;
use crate::threads::{Thread, Threads};
use held_entries::Entries;
use pi_tree::{Declarations, Protocol, Value};
use std::alloc::{AllocError, Global};
use term_values::Environment;

/// Where a run stands: its threads, what the attacker knows, the events that were performed, the number of
/// the next name, how many steps were applied, the phase, and the entries of tables.
pub struct Conf {
    pub threads: Threads,
    pub known: Known,
    pub events: Happenings,
    pub next: u64,
    pub steps: u64,
    pub phase: u32,
    pub entries: Entries,
}

impl Drop for Conf {
    fn drop(self) {
        let Conf {
            threads,
            known,
            events,
            next: _,
            steps: _,
            phase: _,
            entries,
        } = self;
        drop(threads);
        drop(known);
        drop(events);
        drop(entries);
    }
}

/// The public names among the free names, in order of declaration.
fn public_names(alloc: Global, frees: &Declarations) -> Result<Known, AllocError>
    requires { length frees.now < 2 ^ 32 }
    ensures { IfOk result (λ vs. vs ≡ filter_map public_name (enumerate_from 1 frees.now)) }
{
    let mut known = Known::new(alloc);
    for (index, declared) in frees.items.iter().enumerate() {
        if declared.public {
            known.push(Value::Free(index as u32 + 1))?;
        }
    }
    Ok(known)
}

/// One thread at point 1 with nothing bound, in phase 0, and the public free names known.
fn first_configuration(alloc: Global, protocol: &Protocol) -> Result<Conf, AllocError>
    requires { length protocol.now.frees < 2 ^ 32 }
    ensures start { IfOk result (λ conf. configuration_of conf ≡ start (protocol_of protocol.now)) }
    ensures steps { IfOk result (λ conf. conf.steps ≡ 0) }
{
    let mut items = Vec::new(alloc);
    items.push(Thread::At(1, Environment::new(alloc)))?;
    Ok(Conf {
        threads: Threads { items },
        known: public_names(alloc, &protocol.frees)?,
        events: Happenings {
            items: Vec::new(alloc),
        },
        next: 0,
        steps: 0,
        phase: 0,
        entries: Entries::new(alloc),
    })
}

/// Where each run of the protocol starts: one thread at point 1 with nothing bound, in phase 0, and the public free
/// names known. Memory is taken for these alone.
#[tactic(auto, using(crate::proofs::Points::of_start))]
pub fn start(alloc: Global, protocol: &Protocol) -> Result<Conf, AllocError>
    requires { length protocol.now.frees < 2 ^ 32 }
    ensures start { IfOk result (λ conf. configuration_of conf ≡ start (protocol_of protocol.now)) }
    ensures steps { IfOk result (λ conf. conf.steps ≡ 0) }
    ensures of_protocol { IfOk result (λ conf. IsConfigurationOf (protocol_of protocol.now) conf) }
{
    let conf = first_configuration(alloc, protocol)?;
    Ok(conf)
}

impl Conf {
    /// How many steps were applied.
    pub fn steps(&self) -> u64
        ensures { result ≡ self.now.steps }
    {
        self.steps
    }
}

/// Whether there is a thread of that number.
pub fn is_thread(conf: &Conf, number: u32) -> bool
    ensures { result ≡ not (no_thread (configuration_of conf.now) number) }
{
    conf.threads.get(number).is_some()
}

/// The known value of that number, if there is one.
#[tactic(auto, using(term_values::proofs::Items::by_number))]
pub fn known_value(conf: &Conf, number: u32) -> Option<&Value>
    ensures { option_map (λ v. value_of v.now) result ≡ numbered conf.now.known number }
{
    match number.checked_sub(1) {
        None => None,
        Some(index) => conf.known.items.get(index as usize),
    }
}
