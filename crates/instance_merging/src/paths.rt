//! The nodes that ways pass.

use clause_instances::{Instance, Instances};
use clause_sources::{Action, Choice, Sources, Way};
use pi_tree::{Process, Protocol};
use std::alloc::{AllocError, Global};

/// A node that a way passes: its point, and how many copies were made, messages received and choices made down to it, its own among
/// them.
#[derive(Clone, Copy)]
pub(crate) struct Stop {
    pub point: u32,
    pub sessions: usize,
    pub messages: usize,
    pub choices: usize,
}

/// The nodes that an instance passes, from the main process down, and the choices of its way; none of an instance without a way.
#[derive(Drop)]
pub(crate) struct Path<'a> {
    pub stops: Vec<Stop>,
    pub choices: &'a [Choice],
}

/// The paths of instances, in their order.
#[derive(Drop)]
pub(crate) struct Paths<'a> {
    pub items: Vec<Path<'a>>,
}

/// How many messages a `get` takes in the choice of that index: so many, unless it goes to the else branch.
fn taken_at(way: &Way, index: usize, patterns: usize) -> usize {
    match way.choices.items.get(index) {
        Some(Choice::Taken(_)) => patterns,
        _ => 0,
    }
}

/// The stop at a process, where `above` tells its point and what was done above it.
fn stop_at(way: &Way, process: &Process, above: Stop) -> Stop {
    match process {
        Process::Input(..) => Stop {
            messages: above.messages.saturating_add(1),
            ..above
        },
        Process::Copies(_) => Stop {
            sessions: above.sessions.saturating_add(1),
            ..above
        },
        Process::Let(..) => Stop {
            choices: above.choices.saturating_add(1),
            ..above
        },
        Process::Get(_, patterns, ..) => {
            let taken = taken_at(way, above.choices, patterns.items.len());
            Stop {
                messages: above.messages.saturating_add(taken),
                choices: above.choices.saturating_add(1),
                ..above
            }
        }
        Process::Nil
        | Process::Output(..)
        | Process::Par(..)
        | Process::New(..)
        | Process::Event(..)
        | Process::Phase(..)
        | Process::Insert(..) => above,
    }
}

/// Adds the stops from a process down to the point of the way, where `above` tells the point of the process and what was done above
/// it. Points are numbered in pre-order.
fn add_stops(
    way: &Way,
    process: &Process,
    above: Stop,
    stops: &mut Vec<Stop>,
) -> Result<(), AllocError> {
    let stop = stop_at(way, process, above);
    stops.push(stop)?;
    if stop.point == way.point {
        return Ok(());
    }
    let next = Stop {
        point: stop.point.saturating_add(1),
        ..stop
    };
    match process {
        Process::Nil => Ok(()),
        Process::Output(_, _, below)
        | Process::Input(_, _, below)
        | Process::Copies(below)
        | Process::New(_, below)
        | Process::Event(_, below)
        | Process::Phase(_, below)
        | Process::Insert(_, _, below) => add_stops(way, below, next, stops),
        Process::Par(first, other)
        | Process::Let(_, _, first, other)
        | Process::Get(_, _, _, first, other) => {
            let after = next.point.saturating_add(first.count_nodes());
            if way.point < after {
                return add_stops(way, first, next, stops);
            }
            let beside = Stop {
                point: after,
                ..next
            };
            add_stops(way, other, beside, stops)
        }
    }
}

/// The path of a way.
fn path_of<'a>(alloc: Global, protocol: &Protocol, way: &'a Way) -> Result<Path<'a>, AllocError> {
    let mut stops = Vec::new(alloc);
    let root = Stop {
        point: 1,
        sessions: 0,
        messages: 0,
        choices: 0,
    };
    add_stops(way, &protocol.main, root, &mut stops)?;
    Ok(Path {
        stops,
        choices: &way.choices.items,
    })
}

/// The path of an instance.
fn path_in<'a>(
    alloc: Global,
    protocol: &Protocol,
    sources: &'a Sources,
    instance: &Instance,
) -> Result<Path<'a>, AllocError> {
    if let Some(source) = sources.items.get(instance.source) {
        if let Action::Reaches(way) = source.action() {
            return path_of(alloc, protocol, way);
        }
    }
    Ok(Path {
        stops: Vec::new(alloc),
        choices: &[],
    })
}

/// The paths of instances.
pub(crate) fn paths_of<'a>(
    alloc: Global,
    protocol: &Protocol,
    sources: &'a Sources,
    instances: &Instances,
) -> Result<Paths<'a>, AllocError> {
    let mut items = Vec::with_capacity(alloc, instances.items.len())?;
    'each: for instance in &instances.items {
        items.push(path_in(alloc, protocol, sources, instance)?)?;
    }
    Ok(Paths { items })
}
