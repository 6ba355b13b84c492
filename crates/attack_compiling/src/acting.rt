//! What a thread does at a node of its way.

ghost use Rattle.std.specs.Prelude.{◌≡◌, false, ◌-◌, ◌<◌, ◌^◌, List, length, map, option_map, IfOk, IfSome};
ghost use Rattle.std.specs.List.{find};
ghost use Rattle.std.specs.Option.{option_map_or};
ghost use Rattle.spec_trees.specs.Tree.{trees};
ghost use Rattle.spec_calculus.specs.Refusals.{at_output, at_input};
ghost use Rattle.spec_calculus.specs.Runs.{acting, knows};
ghost use Rattle.spec_terms.specs.Term.{Term};
ghost use Rattle.spec_attack_runs.specs.Compiling.{State as StateOf, first_number, with_name};
ghost use Rattle.spec_attack_runs.specs.Walking.{stands_at, acts_at, sends, offers, receives, passed, makes, chooses, is_entry, begin};
ghost use Rattle.pi_tree.specs.Processes.{process_of};
ghost use Rattle.pi_tree.specs.Protocols.{protocol_of};
ghost use Rattle.pi_tree.specs.Values.{value_of};
ghost use Rattle.pi_configurations.specs.Configurations.{configuration_of, IsConfigurationOf};
ghost use Rattle.pi_model.specs.Steps.{step_of};
ghost use Rattle.term_tree.specs.Bank.{tree_at, AreKnown, Grows};
ghost use Rattle.clause_sources.specs.Seen.{choice_of};
ghost use Rattle.attack_state.specs.Outcomes.{Does, GoesOn};
ghost use Rattle.attack_state.specs.States.{IsRun, IsState};
ghost use Rattle.attack_compiling.specs.Walks.{protocol_at, walk_of, IsOnWay, IsKnownWay, act_at, fetches_at, said};

use crate::standing::standing;
use crate::walking::{Route, Walk};
use attack_state::State;
use clause_sources::Choice;
use destructor_rules::are_same;
use pi_configurations::knowing::knows;
use pi_model::{Conf, Entries, Numbers, Step, Thread};
use pi_tree::{Process, Protocol, Value};
use std::alloc::{AllocError, Global};
use term_store::SharedBank;
use term_tree::{Bank, Id, Sym};
use term_values::{Bound, evaluate, is_value_of};

/// Whether the thread of that number stands at the point.
fn stands_at(conf: &Conf, thread: u32, point: u32) -> bool
    ensures { result ≡ stands_at (configuration_of conf.now) thread point }
{
    match conf.threads.get(thread) {
        None => false,
        Some(Thread::Ended) => false,
        Some(Thread::At(at, _)) => *at == point,
    }
}

/// Whether the thread of that number stands at an output on a channel that is known.
fn is_heard(conf: &Conf, protocol: &Protocol, thread: u32) -> bool
    requires { IsConfigurationOf (protocol_of protocol.now) conf.now }
    ensures { result ≡ option_map_or (knows (configuration_of conf.now))
        (acting (protocol_of protocol.now) (configuration_of conf.now) thread at_output) false }
{
    match standing(conf, protocol, thread) {
        None => false,
        Some(stand) => match stand.process {
            Process::Output(channel, _, _) => knows(conf, channel, &Bound::All(stand.environment)),
            _ => false,
        },
    }
}

/// The channel of the thread of that number, where it stands at an input.
fn channel_of(
    alloc: Global,
    conf: &Conf,
    protocol: &Protocol,
    thread: u32,
) -> Result<Option<Value>, AllocError>
    requires { IsConfigurationOf (protocol_of protocol.now) conf.now }
    ensures { IfOk result (λ found. option_map value_of found ≡
        acting (protocol_of protocol.now) (configuration_of conf.now) thread at_input) }
{
    match standing(conf, protocol, thread) {
        None => Ok(None),
        Some(stand) => match stand.process {
            Process::Input(channel, _, _) => {
                let value = evaluate(channel, alloc, stand.environment)?;
                Ok(Some(value))
            }
            _ => Ok(None),
        },
    }
}

/// Whether the thread of that number stands at an input on a channel that is known.
fn is_said(conf: &Conf, protocol: &Protocol, thread: u32) -> bool
    requires { IsConfigurationOf (protocol_of protocol.now) conf.now }
    ensures { result ≡ option_map_or (knows (configuration_of conf.now))
        (acting (protocol_of protocol.now) (configuration_of conf.now) thread at_input) false }
{
    match standing(conf, protocol, thread) {
        None => false,
        Some(stand) => match stand.process {
            Process::Input(channel, _, _) => knows(conf, channel, &Bound::All(stand.environment)),
            _ => false,
        },
    }
}

/// Whether the thread of that number waits at an output of the message on the channel.
fn offers(conf: &Conf, protocol: &Protocol, channel: &Value, message: &Value, thread: u32) -> bool
    requires { IsConfigurationOf (protocol_of protocol.now) conf.now }
    ensures { result ≡ offers (protocol_of protocol.now) (configuration_of conf.now)
        (value_of channel.now) (value_of message.now) thread }
{
    match standing(conf, protocol, thread) {
        None => false,
        Some(stand) => match stand.process {
            Process::Output(on, sent, _) => {
                let bound = Bound::All(stand.environment);
                is_value_of(on, channel, &bound) && is_value_of(sent, message, &bound)
            }
            _ => false,
        },
    }
}

/// The number of the first entry of the table with these values.
fn entry_of(entries: &Entries, table: u32, values: &[Value]) -> Option<u32>
    requires { length entries.now < 2 ^ 32 }
    ensures { result ≡ first_number (is_entry table (map value_of values.now)) entries.now }
{
    'each: for (index, held) in entries.items.iter().enumerate() {
        if held.table == table && are_same(&held.args.items, values) {
            return Some(index as u32 + 1);
        }
    }
    None
}

/// The step of the thread that walks, which stands at the point.
fn acts_at(
    state: &mut State,
    route: &Route<'_>,
    walk: &Walk<'_>,
    step: Step,
) -> Result<bool, AllocError>
    requires { IsRun (protocol_at route.now) state.old }
    ensures run { IfOk result (GoesOn (protocol_at route.now) state.new) }
    ensures does { (all : List Term) (st : StateOf) → IsState all state.old st →
        IfOk result (Does (acts_at (protocol_at route.now) walk.now.point
        (walk_of all route.now walk.now) (step_of step)) st all state.new) }
{
    if !stands_at(&state.conf, walk.thread, walk.point) {
        return Ok(false);
    }
    state.take_step(route.alloc, route.protocol, step)
}

/// An output on a channel that is known is heard; any other waits.
fn send(state: &mut State, route: &Route<'_>, walk: &Walk<'_>) -> Result<bool, AllocError>
    requires { IsRun (protocol_at route.now) state.old }
    ensures run { IfOk result (GoesOn (protocol_at route.now) state.new) }
    ensures does { (all : List Term) (st : StateOf) → IsState all state.old st →
        IfOk result (Does (sends (protocol_at route.now) walk.now.point
        (walk_of all route.now walk.now)) st all state.new) }
{
    if !stands_at(&state.conf, walk.thread, walk.point) {
        return Ok(false);
    }
    if is_heard(&state.conf, route.protocol, walk.thread) {
        return state.take_step(route.alloc, route.protocol, Step::Hear(walk.thread));
    }
    state.waiting.push(walk.thread)?;
    Ok(true)
}

/// An input on a channel that is known is said the message.
fn say(
    state: &mut State,
    route: &Route<'_>,
    bank: &SharedBank,
    walk: &Walk<'_>,
    message: Id,
) -> Result<bool, AllocError>
    requires run { IsRun (protocol_at route.now) state.old }
    requires message { message.index < length bank.now }
    ensures run { IfOk result (GoesOn (protocol_at route.now) state.new) }
    ensures does { (st : StateOf) → IsState bank.now state.old st → IfOk result (Does
        (said (protocol_at route.now) walk.now.point (walk_of bank.now route.now walk.now)
        (tree_at bank.now message)) st bank.now state.new) }
{
    match state.place(route.alloc, route.protocol, bank, message)? {
        None => Ok(false),
        Some(place) => acts_at(state, route, walk, Step::Say(walk.thread, place)),
    }
}

/// An input on a channel that is known is said the message, and one on another channel gets it from an output that waits.
fn receive(
    state: &mut State,
    route: &Route<'_>,
    bank: &SharedBank,
    walk: &Walk<'_>,
    message: Id,
) -> Result<bool, AllocError>
    requires run { IsRun (protocol_at route.now) state.old }
    requires message { message.index < length bank.now }
    ensures run { IfOk result (GoesOn (protocol_at route.now) state.new) }
    ensures does { (st : StateOf) → IsState bank.now state.old st → IfOk result (Does
        (receives (protocol_at route.now) walk.now.point (walk_of bank.now route.now walk.now)
        (tree_at bank.now message)) st bank.now state.new) }
{
    if is_said(&state.conf, route.protocol, walk.thread) {
        return say(state, route, bank, walk, message);
    }
    let Some(channel) = channel_of(route.alloc, &state.conf, route.protocol, walk.thread)? else {
        return Ok(false);
    };
    match state.names.value_of(bank, message)? {
        None => Ok(false),
        Some(value) => pass(state, route, walk, &channel, &value),
    }
}

/// The first thread that waits with the message on the channel.
fn first_offering(
    state: &State,
    protocol: &Protocol,
    channel: &Value,
    message: &Value,
) -> Option<u32>
    requires { IsConfigurationOf (protocol_of protocol.now) state.now.conf }
    ensures { result ≡ find (offers (protocol_of protocol.now)
        (configuration_of state.now.conf) (value_of channel.now) (value_of message.now))
        state.now.waiting.items }
{
    'each: for thread in &state.waiting {
        if offers(&state.conf, protocol, channel, message, *thread) {
            return Some(*thread);
        }
    }
    None
}

/// The message comes from the first thread that waits with it.
fn pass(
    state: &mut State,
    route: &Route<'_>,
    walk: &Walk<'_>,
    channel: &Value,
    message: &Value,
) -> Result<bool, AllocError>
    requires { IsRun (protocol_at route.now) state.old }
    ensures run { IfOk result (GoesOn (protocol_at route.now) state.new) }
    ensures does { (all : List Term) (st : StateOf) → IsState all state.old st →
        IfOk result (Does (passed (protocol_at route.now) walk.now.point
        (walk_of all route.now walk.now) (value_of channel.now)
        (value_of message.now)) st all state.new) }
{
    match first_offering(state, route.protocol, channel, message) {
        None => Ok(false),
        Some(sender) => {
            state.waiting.retain(|thread| sender != *thread);
            acts_at(state, route, walk, Step::Pass(sender, walk.thread))
        }
    }
}

/// A restriction makes a name, which is that of its point's term.
fn make(
    state: &mut State,
    route: &Route<'_>,
    bank: &mut SharedBank,
    walk: &Walk<'_>,
) -> Result<bool, AllocError>
    requires run { IsRun (protocol_at route.now) state.old }
    requires on_way { IsOnWay route.now walk.now }
    requires known { IsKnownWay bank.old route.now }
    ensures grows { Grows bank.old bank.new }
    ensures run { IfOk result (GoesOn (protocol_at route.now) state.new) }
    ensures does { (st : StateOf) → IsState bank.old state.old st → IfOk result (Does
        (makes (protocol_at route.now) walk.now.point (walk_of bank.old route.now walk.now))
        st bank.new state.new) }
{
    let number = state.conf.next;
    if !acts_at(state, route, walk, Step::Make(walk.thread))? {
        return Ok(false);
    }
    let mut arguments = route.received(walk).to_vec(route.alloc)?;
    arguments.extend_from_slice(route.copied(walk))?;
    let term = bank.app(Sym::Point(walk.point), &arguments)?;
    state.names.push(term, Value::Made(walk.point, number))?;
    Ok(true)
}

/// A `let` goes on as was chosen.
fn choose(
    state: &mut State,
    route: &Route<'_>,
    walk: &Walk<'_>,
    choice: &Choice,
) -> Result<bool, AllocError>
    requires { IsRun (protocol_at route.now) state.old }
    ensures run { IfOk result (GoesOn (protocol_at route.now) state.new) }
    ensures does { (all : List Term) (st : StateOf) → IsState all state.old st →
        IfOk result (Does (chooses (protocol_at route.now) walk.now.point
        (walk_of all route.now walk.now) (choice_of choice.now)) st all state.new) }
{
    match choice {
        Choice::Else => acts_at(state, route, walk, Step::Fail(walk.thread)),
        Choice::Taken(label) => {
            let items = label.items.to_vec(route.alloc)?;
            acts_at(
                state,
                route,
                walk,
                Step::Take(walk.thread, Numbers { items }),
            )
        }
    }
}

/// A `get` takes the first entry of its table with the values of these terms.
fn fetch(
    state: &mut State,
    route: &Route<'_>,
    bank: &SharedBank,
    walk: &Walk<'_>,
    terms: &[Id],
) -> Result<bool, AllocError>
    requires run { IsRun (protocol_at route.now) state.old }
    requires terms { AreKnown bank.now terms.now }
    ensures run { IfOk result (GoesOn (protocol_at route.now) state.new) }
    ensures does { (st : StateOf) → IsState bank.now state.old st → IfOk result (Does
        (fetches_at (protocol_at route.now) (process_of walk.now.process.now) walk.now.point
        (walk_of bank.now route.now walk.now) (map (tree_at bank.now) terms.now))
        st bank.now state.new) }
{
    let Process::Get(table, ..) = walk.process else {
        return Ok(false);
    };
    let Some(values) = state.names.values_of(bank, terms)? else {
        return Ok(false);
    };
    match entry_of(&state.conf.entries, *table, &values.items) {
        None => Ok(false),
        Some(entry) => acts_at(state, route, walk, Step::Get(walk.thread, entry)),
    }
}

/// Phases begin, up to the one of that number.
fn begin(state: &mut State, route: &Route<'_>, number: u32) -> Result<bool, AllocError>
    requires { IsRun (protocol_at route.now) state.old }
    ensures run { IfOk result (GoesOn (protocol_at route.now) state.new) }
    ensures does { (all : List Term) (st : StateOf) → IsState all state.old st →
        IfOk result (Does (begin (protocol_at route.now) (number - st.configuration.phase))
        st all state.new) }
{
    let mut left = number.saturating_sub(state.conf.phase);
    'each: while left > 0 {
        if !state.take_step(route.alloc, route.protocol, Step::Next)? {
            return Ok(false);
        }
        left -= 1;
    }
    Ok(true)
}

/// Does what stands at the node of the walk, and tells whether it can be done.
pub(crate) fn act(
    state: &mut State,
    route: &Route<'_>,
    bank: &mut SharedBank,
    walk: &Walk<'_>,
) -> Result<bool, AllocError>
    requires run { IsRun (protocol_at route.now) state.old }
    requires on_way { IsOnWay route.now walk.now }
    requires known { IsKnownWay bank.old route.now }
    ensures grows { Grows bank.old bank.new }
    ensures run { IfOk result (GoesOn (protocol_at route.now) state.new) }
    ensures does { (st : StateOf) → IsState bank.old state.old st → IfOk result (Does
        (act_at (protocol_at route.now) (process_of walk.now.process.now) walk.now.point
        (walk_of bank.old route.now walk.now)) st bank.new state.new) }
{
    match walk.process {
        Process::Nil => Ok(false),
        Process::Output(..) => send(state, route, walk),
        Process::Input(..) => match route.messages.get(walk.messages) {
            None => Ok(false),
            Some(message) => receive(state, route, bank, walk, *message),
        },
        Process::Par(..) => acts_at(state, route, walk, Step::Split(walk.thread)),
        Process::Copies(_) => acts_at(state, route, walk, Step::Copy(walk.thread)),
        Process::New(..) => make(state, route, bank, walk),
        Process::Let(..) => match route.next_choice(walk) {
            None => Ok(false),
            Some(choice) => choose(state, route, walk, choice),
        },
        Process::Event(..) => acts_at(state, route, walk, Step::Mark(walk.thread)),
        Process::Phase(number, _) => begin(state, route, *number),
        Process::Insert(..) => acts_at(state, route, walk, Step::Insert(walk.thread)),
        Process::Get(_, patterns, ..) => match route.next_choice(walk) {
            None => Ok(false),
            Some(Choice::Else) => acts_at(state, route, walk, Step::Miss(walk.thread)),
            Some(Choice::Taken(_)) => {
                let terms = route.next_messages(walk, patterns.items.len());
                fetch(state, route, bank, walk, terms)
            }
        },
    }
}
