//! Where a compilation stopped, and why, as text.

ghost use Rattle.std.specs.Prelude.{◌≡◌, IfSome};
ghost use Rattle.pi_tree.specs.Protocols.{protocol_of};
ghost use Rattle.log_text.specs.Replayed.{CanReplay};
ghost use Rattle.term_tree.specs.Bank.{AreKnown};
ghost use Rattle.clause_instances.specs.Instances.{IsKnownInstance, AreKnownInstances};

use crate::columns::put_numbered;
use crate::paths::{Path, Place, are_same, failing_place};
use crate::refusing::{Attempt, Cause, Whereabouts, try_place, try_terms};
use crate::spelling::{Setting, put_point, put_terms};
use crate::tree_lines::put_use;
use crate::uses::put_uses;
use attack_state::State;
use clause_instances::{Instance, Instances};
use clause_sources::{Choice, Sources};
use hv_io::put_words;
use pi_tree::{Kind, Process};
use std::alloc::AllocError;
use term_store::SharedBank;
use term_tree::Id;

/// Where a compilation stops. Instances are told by their indices.
pub struct Stop {
    /// Those that were compiled, in the order in which they are.
    pub compiled: Vec<usize>,
    /// How many steps they are compiled to.
    pub steps: usize,
    /// The next one, which can't be compiled behind them.
    pub instance: usize,
    /// The run as it was when that was found. Of it nothing is promised.
    pub state: State,
}

impl Drop for Stop {
    fn drop(self) {
        let Stop {
            compiled,
            steps: _,
            instance: _,
            state,
        } = self;
        drop(compiled);
        drop(state);
    }
}

/// A compilation that stopped, with what it is of.
#[derive(Clone, Copy)]
pub struct Stopped<'a> {
    pub setting: Setting<'a>,
    pub bank: &'a SharedBank,
    pub sources: &'a Sources,
    pub instances: &'a Instances,
    pub stop: &'a Stop,
}

impl<'a> Stopped<'a> {
    /// What can be tried behind what was compiled.
    fn attempt(&self) -> Attempt<'a>
        ensures protocol { result.protocol.now ≡ self.now.setting.protocol.now }
        ensures bank { result.bank.now ≡ self.now.bank.now }
    {
        let stop = self.stop;
        Attempt {
            alloc: self.setting.alloc,
            protocol: self.setting.protocol,
            bank: self.bank,
            state: &stop.state,
        }
    }

    /// The instance of that index.
    pub(crate) fn instance(&self, index: usize) -> Option<&'a Instance>
        requires { AreKnownInstances self.now.bank.now self.now.instances.now }
        ensures { IfSome result (λ found. IsKnownInstance self.now.bank.now found.now) }
    {
        let instances = self.instances;
        match instances.items.get(index) {
            None => None,
            Some(instance) => Some(instance),
        }
    }

    /// Whether the place of the path was done, in the same copy.
    fn was_done(&self, path: &Path<'_>, place: &Place<'_>) -> bool {
        let stop = self.stop;
        stop.state
            .done
            .find(place.point, place.sessions(path))
            .is_some()
    }
}

/// Puts the rules of a label by which destructors are applied.
fn put_rules(out: &mut Vec<u8>, label: &[u32]) -> Result<(), AllocError> {
    for rule in label {
        if *rule != 0 {
            put_numbered(out, b" by rule ", *rule as usize, b"")?;
        }
    }
    Ok(())
}

/// Puts how a path goes on where there is a choice.
fn put_choice(out: &mut Vec<u8>, choice: Option<&Choice>) -> Result<(), AllocError> {
    match choice {
        None => Ok(()),
        Some(Choice::Else) => out.extend_from_slice(b" else"),
        Some(Choice::Taken(label)) => {
            out.extend_from_slice(b" then")?;
            put_rules(out, &label.items)
        }
    }
}

/// Puts what the path does at the place: the messages that are received, and how it goes on.
fn put_deed(
    out: &mut Vec<u8>,
    stopped: &Stopped<'_>,
    path: &Path<'_>,
    place: &Place<'_>,
) -> Result<(), AllocError>
    requires { AreKnown stopped.now.bank.now path.now.messages.now }
{
    put_terms(out, stopped.setting, stopped.bank, place.received(path))?;
    put_choice(out, place.choice(path))?;
    out.extend_from_slice(b"\n")
}

/// Whether an instance's thread comes by the place, in the same copy.
fn is_by(sources: &Sources, path: &Path<'_>, place: &Place<'_>, instance: &Instance) -> bool {
    let Some(other) = Path::of(sources, instance) else {
        return false;
    };
    let end = place.point.saturating_add(place.process.count_nodes());
    let way = other.way;
    place.point <= way.point
        && way.point < end
        && are_same(place.sessions(path), place.sessions(&other))
}

/// The first instance, of those that were compiled, whose thread comes by the place in the same copy.
fn earlier<'a>(stopped: &Stopped<'a>, path: &Path<'_>, place: &Place<'_>) -> Option<&'a Instance>
    requires { AreKnownInstances stopped.now.bank.now stopped.now.instances.now }
    ensures { IfSome result (λ found. IsKnownInstance stopped.now.bank.now found.now) }
{
    'each: for index in &stopped.stop.compiled {
        if let Some(instance) = stopped.instance(*index) {
            if is_by(stopped.sources, path, place, instance) {
                return Some(instance);
            }
        }
    }
    None
}

/// Puts an instance: the number of its clause, and what is done where that is used.
pub(crate) fn put_clause_use(
    out: &mut Vec<u8>,
    stopped: &Stopped<'_>,
    instance: &Instance,
) -> Result<(), AllocError> {
    let number = instance.source.saturating_add(1);
    put_numbered(out, b"clause ", number, b", ")?;
    put_use(out, stopped.setting, stopped.sources, number)
}

/// Puts what was done at the place before, for an instance.
fn put_before(
    out: &mut Vec<u8>,
    stopped: &Stopped<'_>,
    place: &Place<'_>,
    instance: &Instance,
) -> Result<(), AllocError>
    requires { IsKnownInstance stopped.now.bank.now instance.now }
{
    out.extend_from_slice(b"  before, for ")?;
    put_clause_use(out, stopped, instance)?;
    out.push(b':')?;
    match Path::of(stopped.sources, instance) {
        None => out.extend_from_slice(b"\n"),
        Some(path) => put_deed(out, stopped, &path, place),
    }
}

/// Puts what was done at the place before, and what is to be done now.
fn put_conflict(
    out: &mut Vec<u8>,
    stopped: &Stopped<'_>,
    path: &Path<'_>,
    place: &Place<'_>,
) -> Result<(), AllocError>
    requires messages { AreKnown stopped.now.bank.now path.now.messages.now }
    requires known { AreKnownInstances stopped.now.bank.now stopped.now.instances.now }
{
    out.extend_from_slice(b"this was done before in the same copy, and otherwise\n")?;
    if let Some(instance) = earlier(stopped, path, place) {
        put_before(out, stopped, place, instance)?;
    }
    out.extend_from_slice(b"  now:")?;
    put_deed(out, stopped, path, place)
}

/// Whether an output stands at the point.
fn is_output(setting: Setting<'_>, point: u32) -> bool {
    if point == 0 || point > setting.protocol.count(Kind::Point) {
        return false;
    }
    matches!(setting.protocol.node(point), Process::Output(..))
}

/// Puts that a thread stands at the point in place of where it is wanted.
fn put_standing(out: &mut Vec<u8>, setting: Setting<'_>, point: u32) -> Result<(), AllocError> {
    out.extend_from_slice(b"its thread stands at ")?;
    put_point(out, setting, point)?;
    if is_output(setting, point) {
        out.extend_from_slice(b" and nobody receives that")?;
    }
    Ok(())
}

/// Puts where a thread is in place of where it is wanted.
fn put_whereabouts(
    out: &mut Vec<u8>,
    setting: Setting<'_>,
    place: Whereabouts,
) -> Result<(), AllocError> {
    match place {
        Whereabouts::NotBegun => out.extend_from_slice(b"its thread hasn't begun by then"),
        Whereabouts::At(point) => put_standing(out, setting, point),
        Whereabouts::Ended(step) => put_words(
            out,
            format_args!("its thread came to its end before, in step {step}"),
        ),
        Whereabouts::CutOff(step) => put_words(
            out,
            format_args!("step {step}, the `next` of a phase, ended its thread before"),
        ),
    }
}

/// Puts why something can't be done; what can be is too long.
fn put_cause(
    out: &mut Vec<u8>,
    setting: Setting<'_>,
    tried: Result<(), Cause>,
) -> Result<(), AllocError> {
    match tried {
        Ok(()) | Err(Cause::TooLong) => out.extend_from_slice(b"it takes more than 100000 steps"),
        Err(Cause::ThreadAway(place)) => put_whereabouts(out, setting, place),
        Err(Cause::NameUnmade) => out.extend_from_slice(b"a name isn't made by then"),
        Err(Cause::MessageUnknown) => out.extend_from_slice(b"nobody has a message by then"),
        Err(Cause::EntryMissing) => {
            out.extend_from_slice(b"the table has no such entry by then")
        }
        Err(Cause::Refused(error)) => put_words(out, format_args!("{error}")),
        Err(Cause::Memory(error)) => Err(error),
    }
}

/// Whether a thread is elsewhere.
fn is_away(tried: &Result<(), Cause>) -> bool {
    matches!(tried, Err(Cause::ThreadAway(_)))
}

/// Puts why something can't be done, and the messages with which that is so where they matter.
fn put_failure(
    out: &mut Vec<u8>,
    stopped: &Stopped<'_>,
    tried: Result<(), Cause>,
    messages: &[Id],
) -> Result<(), AllocError>
    requires { AreKnown stopped.now.bank.now messages.now }
{
    let are_shown = !messages.is_empty() && !is_away(&tried);
    put_cause(out, stopped.setting, tried)?;
    if are_shown {
        out.push(b':')?;
        put_terms(out, stopped.setting, stopped.bank, messages)?;
    }
    out.extend_from_slice(b"\n")
}

/// Puts why the path can't be gone beyond the place.
fn put_place(
    out: &mut Vec<u8>,
    stopped: &Stopped<'_>,
    path: &Path<'_>,
    place: &Place<'_>,
) -> Result<(), AllocError>
    requires limited { CanReplay (protocol_of stopped.now.setting.protocol.now) }
    requires messages { AreKnown stopped.now.bank.now path.now.messages.now }
    requires known { AreKnownInstances stopped.now.bank.now stopped.now.instances.now }
{
    out.extend_from_slice(b"at ")?;
    put_point(out, stopped.setting, place.point)?;
    out.extend_from_slice(b"  ")?;
    if stopped.was_done(path, place) {
        return put_conflict(out, stopped, path, place);
    }
    let tried = try_place(&stopped.attempt(), path, place);
    put_failure(out, stopped, tried, place.received(path))
}

/// Puts why the attacker can't do what the instance wants.
fn put_want(out: &mut Vec<u8>, stopped: &Stopped<'_>, instance: &Instance) -> Result<(), AllocError>
    requires limited { CanReplay (protocol_of stopped.now.setting.protocol.now) }
    requires known { IsKnownInstance stopped.now.bank.now instance.now }
{
    let terms = &instance.supposed.items;
    let tried = try_terms(&stopped.attempt(), terms);
    put_failure(out, stopped, tried, terms)
}

/// Puts why the instance can't be compiled behind the others.
fn put_instance(
    out: &mut Vec<u8>,
    stopped: &Stopped<'_>,
    instance: &Instance,
) -> Result<(), AllocError>
    requires limited { CanReplay (protocol_of stopped.now.setting.protocol.now) }
    requires one { IsKnownInstance stopped.now.bank.now instance.now }
    requires known { AreKnownInstances stopped.now.bank.now stopped.now.instances.now }
{
    out.extend_from_slice(b"  ")?;
    put_clause_use(out, stopped, instance)?;
    out.extend_from_slice(b"\n")?;
    let Some(path) = Path::of(stopped.sources, instance) else {
        return put_want(out, stopped, instance);
    };
    match failing_place(stopped.setting.protocol, &path, &stopped.stop.state) {
        None => out.extend_from_slice(b"its way ends before its point\n"),
        Some(place) => put_place(out, stopped, &path, &place),
    }
}

/// Puts how many instances, of so many, are compiled to how many steps.
fn put_counts(out: &mut Vec<u8>, stop: &Stop, instances: usize) -> Result<(), AllocError> {
    put_numbered(out, b"", stop.compiled.len(), b" of ")?;
    put_numbered(
        out,
        b"",
        instances,
        b" uses of clauses are compiled to a run, of ",
    )?;
    put_numbered(
        out,
        b"",
        stop.steps,
        b" steps, and the next one can't be:\n",
    )
}

/// Puts where the compilation stopped, and all uses of clauses: those that are done, and those that aren't.
pub fn put_stop(out: &mut Vec<u8>, stopped: &Stopped<'_>) -> Result<(), AllocError>
    requires limited { CanReplay (protocol_of stopped.now.setting.protocol.now) }
    requires known { AreKnownInstances stopped.now.bank.now stopped.now.instances.now }
{
    let stop = stopped.stop;
    let instances = stopped.instances;
    put_counts(out, stop, instances.items.len())?;
    if let Some(instance) = stopped.instance(stop.instance) {
        put_instance(out, stopped, instance)?;
    }
    put_uses(out, stopped)
}
