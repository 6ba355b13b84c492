//! Threads unified: what instances received above the deepest node that two of them visit in one copy.

ghost use Rattle.std.specs.Prelude.{◌≡◌, List, take, IfSome};
ghost use Rattle.spec_terms.specs.Term.{Term};
ghost use Rattle.term_tree.specs.Bank.{AreKnown};
ghost use Rattle.clause_instances.specs.Instances.{AreKnownInstances};
ghost use Rattle.unify_match.specs.Seen.{IsReady};

use crate::paths::{Paths, Stop};
use clause_instances::Instances;
use clause_sources::Choice;
use std::alloc::AllocError;
use term_store::SharedBank;
use term_tree::Id;
use unify_match::{Binds, unify_all};

/// Instances and their paths.
#[derive(Clone, Copy)]
pub(crate) struct Group<'a> {
    pub instances: &'a Instances,
    pub paths: &'a Paths<'a>,
}

/// The thread of an instance: the nodes that it passes, and how.
#[derive(Clone, Copy)]
struct Thread<'a> {
    stops: &'a [Stop],
    choices: &'a [Choice],
    messages: &'a [Id],
    sessions: &'a [Id],
}

/// The first so many ids, or all.
fn front(ids: &[Id], count: usize) -> &[Id]
    ensures { result.now ≡ take count ids.now }
{
    if count < ids.len() {
        return &ids[..count];
    }
    ids
}

/// Whether two choices are the same.
fn is_same_choice(left: &Choice, right: &Choice) -> bool {
    match left {
        Choice::Else => matches!(right, Choice::Else),
        Choice::Taken(label) => match right {
            Choice::Else => false,
            Choice::Taken(other) => label.items.as_slice() == other.items.as_slice(),
        },
    }
}

/// Whether the first so many choices are there and the same.
fn are_same_choices(left: &[Choice], right: &[Choice], count: usize) -> bool {
    'each: for index in 0..count {
        match (left.get(index), right.get(index)) {
            (Some(one), Some(other)) if is_same_choice(one, other) => {}
            _ => return false,
        }
    }
    true
}

impl<'a> Group<'a> {
    /// The thread of the instance of that index.
    fn thread(&self, index: usize) -> Option<Thread<'a>>
        ensures { (all : List Term) → AreKnownInstances all self.now.instances.now →
            IfSome result (λ thread. AreKnown all thread.messages.now) }
    {
        let Group { instances, paths } = *self;
        let instance = instances.items.get(index)?;
        let path = paths.items.get(index)?;
        Some(Thread {
            stops: &path.stops,
            choices: path.choices,
            messages: &instance.messages.items,
            sessions: &instance.sessions.items,
        })
    }
}

/// Whether two threads are one at these stops: at one node, in one copy. A bank that shares equal terms has one id for them.
fn are_one(left: &Thread<'_>, here: &Stop, right: &Thread<'_>, there: &Stop) -> bool {
    here.point == there.point
        && front(left.sessions, here.sessions) == front(right.sessions, there.sessions)
}

/// The deepest stops at which two threads are one.
fn meeting(left: &Thread<'_>, right: &Thread<'_>) -> Option<(Stop, Stop)> {
    let mut found = None;
    'each: for (index, here) in left.stops.iter().enumerate() {
        match right.stops.get(index) {
            Some(there) if are_one(left, here, right, there) => found = Some((*here, *there)),
            _ => return found,
        }
    }
    found
}

/// Unifies what two threads received down to where they are one, and tells whether that can be and they chose the same there.
fn unify_threads(
    bank: &SharedBank,
    left: &Thread<'_>,
    right: &Thread<'_>,
    binds: &mut Binds,
) -> Result<bool, AllocError>
    requires left { AreKnown bank.now left.now.messages.now }
    requires right { AreKnown bank.now right.now.messages.now }
    requires ready { IsReady bank.now binds.old.pairs }
    ensures { IsReady bank.now binds.new.pairs }
{
    let Some((here, there)) = meeting(left, right) else {
        return Ok(true);
    };
    if !are_same_choices(left.choices, right.choices, here.choices) {
        return Ok(false);
    }
    let lefts = front(left.messages, here.messages);
    let rights = front(right.messages, there.messages);
    if lefts.len() != rights.len() {
        return Ok(false);
    }
    unify_all(bank, lefts, rights, binds)
}

/// Unifies the instance of that index with those before it, and tells whether that can be.
fn unify_before(
    bank: &SharedBank,
    group: &Group<'_>,
    index: usize,
    binds: &mut Binds,
) -> Result<bool, AllocError>
    requires known { AreKnownInstances bank.now group.now.instances.now }
    requires ready { IsReady bank.now binds.old.pairs }
    ensures { IsReady bank.now binds.new.pairs }
{
    let Some(thread) = group.thread(index) else {
        return Ok(true);
    };
    'each: for earlier in 0..index {
        if let Some(other) = group.thread(earlier) {
            if !unify_threads(bank, &other, &thread, binds)? {
                return Ok(false);
            }
        }
    }
    Ok(true)
}

/// Unifies each two instances, and tells whether that can be.
pub(crate) fn unify_group(
    bank: &SharedBank,
    group: &Group<'_>,
    binds: &mut Binds,
) -> Result<bool, AllocError>
    requires known { AreKnownInstances bank.now group.now.instances.now }
    requires ready { IsReady bank.now binds.old.pairs }
    ensures { IsReady bank.now binds.new.pairs }
{
    let instances = group.instances;
    'each: for index in 0..instances.items.len() {
        if !unify_before(bank, group, index, binds)? {
            return Ok(false);
        }
    }
    Ok(true)
}
