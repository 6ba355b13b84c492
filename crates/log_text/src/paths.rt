//! The path of a thread down the process to the point of a way, and the place at which it can't be gone.

ghost use Rattle.std.specs.Prelude.{◌≡◌, List, IfSome};
ghost use Rattle.spec_terms.specs.Term.{Term};
ghost use Rattle.term_tree.specs.Bank.{AreKnown};

use attack_state::{Chosen, Done, State};
use clause_instances::Instance;
use clause_sources::{Action, Choice, Sources, Way};
use pi_tree::{Kind, Process, Protocol};
use term_tree::Id;

/// The way of a thread in an instance: that of the instance's source, with the closed messages and sessions.
#[derive(Clone, Copy)]
pub(crate) struct Path<'a> {
    pub way: &'a Way,
    pub messages: &'a [Id],
    pub sessions: &'a [Id],
}

/// A place on a path: the process there and its point, the thread that comes by, and how many messages, copies and choices are
/// behind it.
#[derive(Clone, Copy)]
pub(crate) struct Place<'a> {
    pub process: &'a Process,
    pub point: u32,
    pub thread: u32,
    messages: usize,
    sessions: usize,
    choices: usize,
}

/// The first so many items, or all where there are fewer.
fn first_of(items: &[Id], count: usize) -> &[Id]
    ensures { (all : List Term) → AreKnown all items.now → AreKnown all result.now }
{
    if count <= items.len() {
        &items[..count]
    } else {
        items
    }
}

/// The items behind the first so many.
fn behind(items: &[Id], count: usize) -> &[Id]
    ensures { (all : List Term) → AreKnown all items.now → AreKnown all result.now }
{
    if count <= items.len() {
        &items[count..]
    } else {
        &items[items.len()..]
    }
}

/// Whether two rows of terms are the same, over a bank in which equal terms have equal ids.
pub(crate) fn are_same(left: &[Id], right: &[Id]) -> bool {
    if left.len() != right.len() {
        return false;
    }
    for (index, id) in left.iter().enumerate() {
        if id.index != right[index].index {
            return false;
        }
    }
    true
}

/// Whether a node went on as the way says; where that says nothing it did.
fn is_choice(chosen: &Chosen, choice: Option<&Choice>) -> bool {
    match choice {
        None => true,
        Some(Choice::Else) => matches!(chosen, Chosen::Else),
        Some(Choice::Taken(label)) => match chosen {
            Chosen::Else => false,
            Chosen::Taken(numbers) => numbers.items.as_slice() == label.items.as_slice(),
        },
    }
}

impl<'a> Path<'a> {
    /// The way of an instance, where it has one.
    pub(crate) fn of(sources: &'a Sources, instance: &'a Instance) -> Option<Path<'a>>
        ensures { IfSome result (λ path. path.messages.now ≡ instance.now.messages) }
    {
        match sources.items.get(instance.source) {
            None => None,
            Some(source) => match source.action() {
                Action::Reaches(way) => Some(Path {
                    way,
                    messages: &instance.messages.items,
                    sessions: &instance.sessions.items,
                }),
                _ => None,
            },
        }
    }
}

impl<'a> Place<'a> {
    /// Where each path begins.
    pub(crate) fn first(protocol: &'a Protocol) -> Place<'a> {
        Place {
            process: &protocol.main,
            point: 1,
            thread: 1,
            messages: 0,
            sessions: 0,
            choices: 0,
        }
    }

    /// The numbers of the copies that the path comes from there, a replication's own among them.
    pub(crate) fn sessions(&self, path: &Path<'a>) -> &'a [Id] {
        let count = match self.process {
            Process::Copies(_) => self.sessions.saturating_add(1),
            _ => self.sessions,
        };
        first_of(path.sessions, count)
    }

    /// How the path goes on there, where there is a choice.
    pub(crate) fn choice(&self, path: &Path<'a>) -> Option<&'a Choice> {
        match self.process {
            Process::Let(..) | Process::Get(..) => {
                let way = path.way;
                way.choices.items.get(self.choices)
            }
            _ => None,
        }
    }

    /// How many messages are received there, or taken of an entry.
    fn count_received(&self, path: &Path<'a>) -> usize {
        match self.process {
            Process::Input(..) => 1,
            Process::Get(_, patterns, ..) => match self.choice(path) {
                Some(Choice::Taken(_)) => patterns.items.len(),
                _ => 0,
            },
            _ => 0,
        }
    }

    /// The messages that are received there, or taken of an entry.
    pub(crate) fn received(&self, path: &Path<'a>) -> &'a [Id]
        ensures { (all : List Term) → AreKnown all path.now.messages.now →
            AreKnown all result.now }
    {
        first_of(
            behind(path.messages, self.messages),
            self.count_received(path),
        )
    }

    /// Whether the path goes on there as was done.
    pub(crate) fn is_done(&self, path: &Path<'a>, done: &Done) -> bool {
        are_same(self.received(path), &done.messages) && is_choice(&done.choice, self.choice(path))
    }

    /// The place at which the path goes on in a process, whose point is that.
    fn into_next(self, path: &Path<'a>, process: &'a Process, point: u32) -> Place<'a> {
        Place {
            process,
            point,
            messages: self.messages.saturating_add(self.count_received(path)),
            sessions: self.sessions(path).len(),
            ..self
        }
    }

    /// The place behind a choice.
    fn behind_choice(
        self,
        path: &Path<'a>,
        next: &'a Process,
        otherwise: &'a Process,
    ) -> Option<Place<'a>> {
        let below = self.point.saturating_add(1);
        let place = match self.choice(path) {
            None => return None,
            Some(Choice::Taken(_)) => self.into_next(path, next, below),
            Some(Choice::Else) => {
                let after = below.saturating_add(next.count_nodes());
                self.into_next(path, otherwise, after)
            }
        };
        Some(Place {
            choices: self.choices.saturating_add(1),
            ..place
        })
    }

    /// The place behind a parallel composition, of which that thread is the right side.
    fn beside(
        self,
        path: &Path<'a>,
        left: &'a Process,
        right: &'a Process,
        other: u32,
    ) -> Place<'a> {
        let below = self.point.saturating_add(1);
        let after = below.saturating_add(left.count_nodes());
        let way = path.way;
        if way.point < after {
            return self.into_next(path, left, below);
        }
        Place {
            thread: other,
            ..self.into_next(path, right, after)
        }
    }

    /// The next place on the path, where that thread began here; none at the end of a process.
    pub(crate) fn next(self, path: &Path<'a>, other: u32) -> Option<Place<'a>> {
        let below = self.point.saturating_add(1);
        match self.process {
            Process::Nil => None,
            Process::Output(_, _, process)
            | Process::Input(_, _, process)
            | Process::New(_, process)
            | Process::Event(_, process)
            | Process::Phase(_, process)
            | Process::Insert(_, _, process) => Some(self.into_next(path, process, below)),
            Process::Copies(process) => Some(Place {
                thread: other,
                ..self.into_next(path, process, below)
            }),
            Process::Par(left, right) => Some(self.beside(path, left, right, other)),
            Process::Let(_, _, next, otherwise) | Process::Get(_, _, _, next, otherwise) => {
                self.behind_choice(path, next, otherwise)
            }
        }
    }
}

/// The first place on the path that isn't done so: where the walk stopped. None where all are.
pub(crate) fn failing_place<'a>(
    protocol: &'a Protocol,
    path: &Path<'a>,
    state: &State,
) -> Option<Place<'a>> {
    let way = path.way;
    let mut place = Place::first(protocol);
    'each: for _point in 0..protocol.count(Kind::Point) {
        let Some(done) = state.done.find(place.point, place.sessions(path)) else {
            return Some(place);
        };
        if !place.is_done(path, done) {
            return Some(place);
        }
        if place.point == way.point {
            return None;
        }
        match place.next(path, done.other) {
            None => return None,
            Some(next) => place = next,
        }
    }
    None
}
