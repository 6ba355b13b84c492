//! Why a node of the process, or what the attacker does, can't be done behind a run.

ghost use Rattle.std.specs.Prelude.{◌<◌, length, OnOk};
ghost use Rattle.pi_tree.specs.Protocols.{protocol_of};
ghost use Rattle.pi_configurations.specs.Configurations.{IsConfigurationOf};
ghost use Rattle.term_tree.specs.Bank.{AreKnown};
ghost use Rattle.log_text.specs.Replayed.{CanReplay};

use crate::paths::{Path, Place};
use attack_state::State;
use clause_sources::Choice;
use destructor_rules::{are_same, is_same};
use pi_model::{ApplyError, Conf, Numbers, Step, StepError, Thread, apply, start};
use pi_tree::{Process, Protocol, Value};
use std::alloc::{AllocError, Global};
use term_store::SharedBank;
use term_tree::Id;

/// The most steps that are told.
const MOST_STEPS: u64 = 100_000;

/// Where a thread is.
#[derive(Clone, Copy)]
pub(crate) enum Whereabouts {
    /// It hasn't begun.
    NotBegun,
    /// It stands at this point.
    At(u32),
    /// It came to its end in the step of that number, from 1.
    Ended(u64),
    /// The step of that number, a `next`, ended it.
    CutOff(u64),
}

/// Why something can't be done.
#[derive(Clone, Copy)]
pub(crate) enum Cause {
    /// The thread doesn't stand there, but is elsewhere.
    ThreadAway(Whereabouts),
    /// A name in a message isn't made by then.
    NameUnmade,
    /// The attacker doesn't have a message by then, nor does an output that waits.
    MessageUnknown,
    /// The table has no such entry by then.
    EntryMissing,
    /// The step is refused.
    Refused(StepError),
    /// There are more steps than are told.
    TooLong,
    /// There is no memory to find it out.
    Memory(AllocError),
}

impl From<AllocError> for Cause {
    fn from(error: AllocError) -> Cause {
        Cause::Memory(error)
    }
}

/// What is tried behind a run that was compiled so far.
#[derive(Clone, Copy)]
pub(crate) struct Attempt<'a> {
    pub alloc: Global,
    pub protocol: &'a Protocol,
    pub bank: &'a SharedBank,
    pub state: &'a State,
}

/// Checks that there is room for one more step.
fn check_room(conf: &Conf) -> Result<(), Cause>
    ensures { OnOk result (conf.now.steps < 100000) }
{
    if conf.steps >= MOST_STEPS {
        return Err(Cause::TooLong);
    }
    Ok(())
}

/// Makes a step.
fn make(attempt: &Attempt<'_>, conf: &mut Conf, step: &Step) -> Result<(), Cause>
    requires limits { CanReplay (protocol_of attempt.now.protocol.now) }
    requires run { IsConfigurationOf (protocol_of attempt.now.protocol.now) conf.old }
    ensures { IsConfigurationOf (protocol_of attempt.now.protocol.now) conf.new }
{
    check_room(conf)?;
    match apply(attempt.alloc, attempt.protocol, conf, step) {
        Ok(()) => Ok(()),
        Err(ApplyError::Refused(error)) => Err(Cause::Refused(error)),
        Err(ApplyError::Memory(error)) => Err(Cause::Memory(error)),
    }
}

/// Makes the steps of the run, which were made when it was compiled.
fn make_all(attempt: &Attempt<'_>, conf: &mut Conf) -> Result<(), Cause>
    requires limits { CanReplay (protocol_of attempt.now.protocol.now) }
    requires run { IsConfigurationOf (protocol_of attempt.now.protocol.now) conf.old }
    ensures { IsConfigurationOf (protocol_of attempt.now.protocol.now) conf.new }
{
    let state = attempt.state;
    'each: for step in &state.steps {
        make(attempt, conf, step)?;
    }
    Ok(())
}

/// The point at which the thread of that number stands, if it stands anywhere.
fn point_of(conf: &Conf, thread: u32) -> Option<u32> {
    match conf.threads.get(thread) {
        Some(Thread::At(point, _)) => Some(*point),
        _ => None,
    }
}

/// What ended the thread of that number in the last step, a `next` or another.
fn ended_by(conf: &Conf, step: &Step) -> Whereabouts {
    match step {
        Step::Next => Whereabouts::CutOff(conf.steps),
        _ => Whereabouts::Ended(conf.steps),
    }
}

/// Where the thread of that number is behind the step, if it was there before it.
fn moved(conf: &Conf, thread: u32, step: &Step, before: Whereabouts) -> Whereabouts {
    match point_of(conf, thread) {
        Some(point) => Whereabouts::At(point),
        None => match before {
            Whereabouts::At(_) => ended_by(conf, step),
            _ => before,
        },
    }
}

/// Where the thread of that number is at the start of a run.
fn first_place(conf: &Conf, thread: u32) -> Whereabouts {
    match point_of(conf, thread) {
        Some(point) => Whereabouts::At(point),
        None => Whereabouts::NotBegun,
    }
}

/// Makes the steps of the run, and tells where the thread of that number is behind them.
fn make_watching(attempt: &Attempt<'_>, conf: &mut Conf, thread: u32) -> Result<Whereabouts, Cause>
    requires limits { CanReplay (protocol_of attempt.now.protocol.now) }
    requires run { IsConfigurationOf (protocol_of attempt.now.protocol.now) conf.old }
    ensures { IsConfigurationOf (protocol_of attempt.now.protocol.now) conf.new }
{
    let state = attempt.state;
    let mut place = first_place(conf, thread);
    'each: for step in &state.steps {
        make(attempt, conf, step)?;
        place = moved(conf, thread, step, place);
    }
    Ok(place)
}

/// Checks that a thread stands at the point.
fn check_place(place: Whereabouts, point: u32) -> Result<(), Cause> {
    match place {
        Whereabouts::At(at) if at == point => Ok(()),
        _ => Err(Cause::ThreadAway(place)),
    }
}

/// The number of the value among those that are known, from 1.
fn place_of(conf: &Conf, value: &Value) -> Option<u32> {
    let mut place = 0u32;
    for known in &conf.known.items {
        place = place.saturating_add(1);
        if is_same(value, known) {
            return Some(place);
        }
    }
    None
}

/// The number of the first entry of the table with these values, from 1.
fn entry_of(conf: &Conf, table: u32, values: &[Value]) -> Option<u32> {
    let mut place = 0u32;
    for held in &conf.entries.items {
        place = place.saturating_add(1);
        if held.table == table && are_same(&held.args.items, values) {
            return Some(place);
        }
    }
    None
}

/// The number of the term's value among those that are known, from 1.
fn known_at(attempt: &Attempt<'_>, conf: &Conf, term: Id) -> Result<u32, Cause>
    requires { term.index < length attempt.now.bank.now }
{
    let state = attempt.state;
    let Some(value) = state.names.value_of(attempt.bank, term)? else {
        return Err(Cause::NameUnmade);
    };
    let place = place_of(conf, &value);
    drop(value);
    place.ok_or(Cause::MessageUnknown)
}

/// The number of the first entry of the table with the values of these terms, from 1.
fn entry_at(attempt: &Attempt<'_>, conf: &Conf, table: u32, terms: &[Id]) -> Result<u32, Cause>
    requires { AreKnown attempt.now.bank.now terms.now }
{
    let state = attempt.state;
    let Some(values) = state.names.values_of(attempt.bank, terms)? else {
        return Err(Cause::EntryMissing);
    };
    let place = entry_of(conf, table, &values.items);
    drop(values);
    place.ok_or(Cause::EntryMissing)
}

/// The step by which a thread at an input receives the message.
fn said(attempt: &Attempt<'_>, conf: &Conf, thread: u32, messages: &[Id]) -> Result<Step, Cause>
    requires { AreKnown attempt.now.bank.now messages.now }
{
    let Some(message) = messages.first() else {
        return Err(Cause::TooLong);
    };
    let place = known_at(attempt, conf, *message)?;
    Ok(Step::Say(thread, place))
}

/// The step by which a thread at a `let` goes on as was chosen.
fn chosen(alloc: Global, thread: u32, choice: Option<&Choice>) -> Result<Step, Cause> {
    match choice {
        None => Err(Cause::TooLong),
        Some(Choice::Else) => Ok(Step::Fail(thread)),
        Some(Choice::Taken(label)) => {
            let items = Vec::from_slice(alloc, &label.items)?;
            Ok(Step::Take(thread, Numbers { items }))
        }
    }
}

/// The step by which a thread at a `get` goes on as was chosen.
fn fetched(
    attempt: &Attempt<'_>,
    conf: &Conf,
    path: &Path<'_>,
    place: &Place<'_>,
    table: u32,
) -> Result<Step, Cause>
    requires { AreKnown attempt.now.bank.now path.now.messages.now }
{
    match place.choice(path) {
        None => Err(Cause::TooLong),
        Some(Choice::Else) => Ok(Step::Miss(place.thread)),
        Some(Choice::Taken(_)) => {
            let entry = entry_at(attempt, conf, table, place.received(path))?;
            Ok(Step::Get(place.thread, entry))
        }
    }
}

/// The step that the path takes at the place.
fn step_at(
    attempt: &Attempt<'_>,
    conf: &Conf,
    path: &Path<'_>,
    place: &Place<'_>,
) -> Result<Step, Cause>
    requires { AreKnown attempt.now.bank.now path.now.messages.now }
{
    let thread = place.thread;
    match place.process {
        Process::Nil => Err(Cause::ThreadAway(Whereabouts::At(place.point))),
        Process::Input(..) => said(attempt, conf, thread, place.received(path)),
        Process::Let(..) => chosen(attempt.alloc, thread, place.choice(path)),
        Process::Get(table, ..) => fetched(attempt, conf, path, place, *table),
        Process::Output(..) => Ok(Step::Hear(thread)),
        Process::Par(..) => Ok(Step::Split(thread)),
        Process::Copies(_) => Ok(Step::Copy(thread)),
        Process::New(..) => Ok(Step::Make(thread)),
        Process::Event(..) => Ok(Step::Mark(thread)),
        Process::Phase(..) => Ok(Step::Next),
        Process::Insert(..) => Ok(Step::Insert(thread)),
    }
}

/// Goes on from the place of the path behind the run.
fn go_on(
    attempt: &Attempt<'_>,
    conf: &mut Conf,
    path: &Path<'_>,
    place: &Place<'_>,
) -> Result<(), Cause>
    requires limits { CanReplay (protocol_of attempt.now.protocol.now) }
    requires run { IsConfigurationOf (protocol_of attempt.now.protocol.now) conf.old }
    requires known { AreKnown attempt.now.bank.now path.now.messages.now }
{
    let stands = make_watching(attempt, conf, place.thread)?;
    check_place(stands, place.point)?;
    let step = step_at(attempt, conf, path, place)?;
    let made = make(attempt, conf, &step);
    drop(step);
    made
}

/// Tries to go on from the place of the path, at which a walk stopped.
pub(crate) fn try_place(
    attempt: &Attempt<'_>,
    path: &Path<'_>,
    place: &Place<'_>,
) -> Result<(), Cause>
    requires limits { CanReplay (protocol_of attempt.now.protocol.now) }
    requires known { AreKnown attempt.now.bank.now path.now.messages.now }
{
    let mut conf = start(attempt.alloc, attempt.protocol)?;
    let tried = go_on(attempt, &mut conf, path, place);
    drop(conf);
    tried
}

/// Finds the terms among what the attacker knows.
fn find_all(attempt: &Attempt<'_>, conf: &Conf, terms: &[Id]) -> Result<(), Cause>
    requires { AreKnown attempt.now.bank.now terms.now }
{
    'each: for term in terms {
        known_at(attempt, conf, *term)?;
    }
    Ok(())
}

/// Has the attacker apply a constructor or a rule to these terms behind the run.
fn use_terms(attempt: &Attempt<'_>, conf: &mut Conf, terms: &[Id]) -> Result<(), Cause>
    requires limits { CanReplay (protocol_of attempt.now.protocol.now) }
    requires run { IsConfigurationOf (protocol_of attempt.now.protocol.now) conf.old }
    requires known { AreKnown attempt.now.bank.now terms.now }
{
    make_all(attempt, conf)?;
    check_room(conf)?;
    find_all(attempt, conf, terms)?;
    Err(Cause::Refused(StepError::NoRule))
}

/// Tries what an instance wants of the attacker: to apply a constructor or a rule to these terms.
pub(crate) fn try_terms(attempt: &Attempt<'_>, terms: &[Id]) -> Result<(), Cause>
    requires limits { CanReplay (protocol_of attempt.now.protocol.now) }
    requires known { AreKnown attempt.now.bank.now terms.now }
{
    let mut conf = start(attempt.alloc, attempt.protocol)?;
    let tried = use_terms(attempt, &mut conf, terms);
    drop(conf);
    tried
}
