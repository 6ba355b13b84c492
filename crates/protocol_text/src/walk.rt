//! The points of a process: its nodes in pre-order, each with where it stands.

ghost use Rattle.std.specs.Prelude.{◌≡◌, ◌++◌, map, IfOk, OnOk};
ghost use Rattle.spec_calculus.specs.Points.{nodes};
ghost use Rattle.pi_tree.specs.Processes.{process_of};
ghost use Rattle.protocol_text.specs.Spots.{node_of, phase_of, phases_in};

use pi_tree::{Process, Protocol};
use std::alloc::{AllocError, Global};

/// Where a point stands.
#[derive(Clone, Copy)]
pub struct Place {
    /// The phase in force there.
    pub phase: u32,
    /// How many blocks are open there: of a parallel composition's left side, a replication, or a branch.
    pub depth: usize,
    /// Whether the point begins an else branch.
    pub is_else: bool,
    /// The nearest point above it that gives an argument to the names that are made below: an input, a replication, or a
    /// `get` on whose first branch the point stands; 0 where there is none.
    pub giver: usize,
}

/// A point of a process: the process that stands there, and where it stands.
#[derive(Clone, Copy)]
pub struct Spot<'a> {
    /// The process that begins at the point.
    pub node: &'a Process,
    /// Where it stands.
    pub place: Place,
}

impl Place {
    /// Where the main process begins.
    fn start() -> Place
        ensures { result.phase ≡ 0 }
    {
        Place {
            phase: 0,
            depth: 0,
            is_else: false,
            giver: 0,
        }
    }

    /// What follows in the same block.
    fn behind(self) -> Place
        ensures { result.phase ≡ self.phase }
    {
        Place {
            is_else: false,
            ..self
        }
    }

    /// The first point of a block.
    fn inside(self) -> Place
        ensures { result.phase ≡ self.phase }
    {
        Place {
            depth: self.depth.saturating_add(1),
            is_else: false,
            ..self
        }
    }

    /// The first point of an else branch.
    fn otherwise(self) -> Place
        ensures { result.phase ≡ self.phase }
    {
        Place {
            is_else: true,
            ..self
        }
    }

    /// The same below that point, which gives an argument to names.
    fn given_by(self, point: usize) -> Place
        ensures { result.phase ≡ self.phase }
    {
        Place {
            giver: point,
            ..self
        }
    }

    /// The same in another phase.
    fn in_phase(self, phase: u32) -> Place
        ensures { result.phase ≡ phase }
    {
        Place { phase, ..self }
    }
}

/// Lists the points of a process that begins at the place, at the end of the list. Those that are listed already stand before
/// it, so that the number of each is its place in the list.
#[tactic(auto, using(crate::proofs::Listing::of_listing))]
fn list_spots<'a>(
    process: &'a Process,
    place: Place,
    list: &mut Vec<Spot<'a>>,
) -> Result<(), AllocError>
    ensures nodes { OnOk result (map node_of list.new.items ≡
        map node_of list.old.items ++ nodes (process_of process.now)) }
    ensures phases { OnOk result (map phase_of list.new.items ≡
        map phase_of list.old.items ++ phases_in place.phase (process_of process.now)) }
{
    list.push(Spot {
        node: process,
        place,
    })?;
    let point = list.len();
    let below = place.behind();
    match process {
        Process::Nil => Ok(()),
        Process::Output(_, _, next) => list_spots(next, below, list),
        Process::Input(_, _, next) => list_spots(next, below.given_by(point), list),
        Process::Par(left, right) => {
            list_spots(left, place.inside(), list)?;
            list_spots(right, below, list)
        }
        Process::Copies(copied) => list_spots(copied, place.inside().given_by(point), list),
        Process::New(_, next) => list_spots(next, below, list),
        Process::Let(_, _, next, otherwise) => {
            list_spots(next, place.inside(), list)?;
            list_spots(otherwise, place.otherwise(), list)
        }
        Process::Event(_, next) => list_spots(next, below, list),
        Process::Phase(number, next) => list_spots(next, below.in_phase(*number), list),
        Process::Insert(_, _, next) => list_spots(next, below, list),
        Process::Get(_, _, _, next, otherwise) => {
            list_spots(next, place.inside().given_by(point), list)?;
            list_spots(otherwise, place.otherwise(), list)
        }
    }
}

/// The points of the main process in order: exactly the nodes that the calculus numbers from 1, each with the phase in force
/// there. `Err` comes only for want of memory.
pub fn spots<'a>(alloc: Global, protocol: &'a Protocol) -> Result<Vec<Spot<'a>>, AllocError>
    ensures nodes { IfOk result (λ list. map node_of list.items ≡
        nodes (process_of protocol.now.main)) }
    ensures phases { IfOk result (λ list. map phase_of list.items ≡
        phases_in 0 (process_of protocol.now.main)) }
{
    let mut list = Vec::new(alloc);
    list_spots(&protocol.main, Place::start(), &mut list)?;
    Ok(list)
}
