//! Points: the nodes of a process in pre-order.

ghost use Rattle.std.specs.Prelude.{◌≡◌, ◌+◌, length};
ghost use Rattle.spec_calculus.specs.Points.{nodes, greatest_phase};
ghost use Rattle.pi_tree.specs.Processes.{process_of};
ghost use Rattle.pi_tree.specs.Accessors.{capped};
ghost use Rattle.pi_tree.specs.Walks.{Ends};

use crate::accessors::capped;
use crate::syntax::Process;

/// Where a walk over the nodes of a process ends.
pub(crate) enum Walk<'a> {
    /// At the node, whose names would have that many arguments, or the greatest number of the type where they would
    /// have more.
    At(&'a Process, u32),
    /// Past the process, with that many nodes still to be passed.
    Past(u32),
}

/// So many arguments more, or the greatest number of the type where there are more.
fn with_arguments(above: u32, count: usize) -> u32
    ensures { result ≡ capped (above + count) }
{
    above.saturating_add(capped(count))
}

impl Process {
    /// How many nodes the process has, or the greatest number of the type where there are more.
    pub fn count_nodes(&self) -> u32
        ensures { result ≡ capped (length (nodes (process_of self.now))) }
    {
        match self {
            Process::Nil => 1,
            Process::Output(_, _, next) => next.count_nodes().saturating_add(1),
            Process::Input(_, _, next) => next.count_nodes().saturating_add(1),
            Process::Par(left, right) => left
                .count_nodes()
                .saturating_add(right.count_nodes())
                .saturating_add(1),
            Process::Copies(copied) => copied.count_nodes().saturating_add(1),
            Process::New(_, next) => next.count_nodes().saturating_add(1),
            Process::Let(_, _, next, otherwise) => next
                .count_nodes()
                .saturating_add(otherwise.count_nodes())
                .saturating_add(1),
            Process::Event(_, next) => next.count_nodes().saturating_add(1),
            Process::Phase(_, next) => next.count_nodes().saturating_add(1),
            Process::Insert(_, _, next) => next.count_nodes().saturating_add(1),
            Process::Get(_, _, _, next, otherwise) => next
                .count_nodes()
                .saturating_add(otherwise.count_nodes())
                .saturating_add(1),
        }
    }

    /// The greatest phase that the process names, 0 where it names none.
    pub fn greatest_phase(&self) -> u32
        ensures { result ≡ greatest_phase (process_of self.now) }
    {
        match self {
            Process::Nil => 0,
            Process::Output(_, _, next) => next.greatest_phase(),
            Process::Input(_, _, next) => next.greatest_phase(),
            Process::Par(left, right) => left.greatest_phase().max(right.greatest_phase()),
            Process::Copies(copied) => copied.greatest_phase(),
            Process::New(_, next) => next.greatest_phase(),
            Process::Let(_, _, next, otherwise) => {
                next.greatest_phase().max(otherwise.greatest_phase())
            }
            Process::Event(_, next) => next.greatest_phase(),
            Process::Phase(number, next) => (*number).max(next.greatest_phase()),
            Process::Insert(_, _, next) => next.greatest_phase(),
            Process::Get(_, _, _, next, otherwise) => {
                next.greatest_phase().max(otherwise.greatest_phase())
            }
        }
    }

    /// Passes that many nodes, where a name that is made by the process has `above` arguments.
    #[tactic(auto, using(crate::proofs::Walks::of_walks))]
    pub(crate) fn walk(&self, skip: u32, above: u32) -> Walk<'_>
        ensures { Ends (process_of self.now) skip above result }
    {
        if skip == 0 {
            return Walk::At(self, above);
        }
        match self {
            Process::Nil => Walk::Past(skip - 1),
            Process::Output(_, _, next) => next.walk(skip - 1, above),
            Process::Input(_, _, next) => next.walk(skip - 1, with_arguments(above, 1)),
            Process::Par(left, right) => match left.walk(skip - 1, above) {
                Walk::At(node, arguments) => Walk::At(node, arguments),
                Walk::Past(rest) => right.walk(rest, above),
            },
            Process::Copies(copied) => copied.walk(skip - 1, with_arguments(above, 1)),
            Process::New(_, next) => next.walk(skip - 1, above),
            Process::Let(_, _, next, otherwise) => match next.walk(skip - 1, above) {
                Walk::At(node, arguments) => Walk::At(node, arguments),
                Walk::Past(rest) => otherwise.walk(rest, above),
            },
            Process::Event(_, next) => next.walk(skip - 1, above),
            Process::Phase(_, next) => next.walk(skip - 1, above),
            Process::Insert(_, _, next) => next.walk(skip - 1, above),
            Process::Get(_, patterns, _, next, otherwise) => {
                let inside = with_arguments(above, patterns.count());
                match next.walk(skip - 1, inside) {
                    Walk::At(node, arguments) => Walk::At(node, arguments),
                    Walk::Past(rest) => otherwise.walk(rest, above),
                }
            }
        }
    }
}
