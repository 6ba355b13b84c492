//! Nodes of the process that were done.

ghost use Rattle.std.specs.Prelude.{◌≡◌, Some, List, [], ◌∷◌, ◌++◌, OnOk};
ghost use Rattle.std.specs.List.{find};
ghost use Rattle.spec_terms.specs.Term.{Term};
ghost use Rattle.spec_attack_runs.specs.Compiling.{Done as DoneOf};
ghost use Rattle.spec_attack_runs.specs.Walking.{same_choice, same_deed, same_place};
ghost use Rattle.spec_calculus.specs.Choices.{same_label};
ghost use Rattle.term_tree.specs.Bank.{AreShared};
ghost use Rattle.clause_diffs.specs.Diffs.{NameTerms};
ghost use Rattle.fact_classes.specs.Classes.{listed};
ghost use Rattle.attack_state.specs.Listing.{AreListed, passes_at};
ghost use Rattle.attack_state.specs.States.{same_ids, chosen_of, NamesDone, NameDone, node_class, done_class, is_of, FindsDone};

use fact_classes::Classes;
use pi_model::Numbers;
use std::alloc::{AllocError, Global};
use term_tree::Id;

/// How a thread went on at a node.
pub enum Chosen {
    /// With the value of that label, which is empty at a `get` with an entry, and where nothing is chosen.
    Taken(Numbers),
    /// To the else branch.
    Else,
}

impl Drop for Chosen {
    fn drop(self) {
        match self {
            Chosen::Taken(part) => drop(part),
            Chosen::Else => {}
        }
    }
}

/// A node of the process that was done in a copy: its point, the numbers of the copies above it, a replication's own among them, what
/// it received or took of an entry, how it went on, and the thread that began there, where one did.
pub struct Done {
    pub point: u32,
    pub sessions: Vec<Id>,
    pub messages: Vec<Id>,
    pub choice: Chosen,
    pub other: u32,
}

impl Drop for Done {
    fn drop(self) {
        let Done {
            point: _,
            sessions,
            messages,
            choice,
            other: _,
        } = self;
        drop(sessions);
        drop(messages);
        drop(choice);
    }
}

/// Nodes that were done, in order. Beside them stands which there are of each class.
pub struct DoneNodes {
    alloc: Global,
    pub items: Vec<Done>,
    pub classes: Classes,
}

impl Drop for DoneNodes {
    fn drop(self) {
        let DoneNodes {
            alloc,
            items,
            classes,
        } = self;
        drop(alloc);
        drop(items);
        drop(classes);
    }
}

/// How many classes nodes stand in.
const CLASSES: usize = 65_521;

/// The class of the nodes of a point in a copy.
fn class_of(point: u32, sessions: &[Id]) -> usize
    ensures { result ≡ node_class point sessions.now }
{
    let mut class = point as usize % CLASSES;
    'each: for session in sessions {
        class = (class * 40_503 + session.index % CLASSES) % CLASSES;
    }
    class
}

/// Whether two rows of ids are the same: in a bank that shares equal terms, those of the same terms are.
fn are_same(left: &[Id], right: &[Id]) -> bool
    ensures { result ≡ same_ids left.now right.now }
{
    if left.len() != right.len() {
        return false;
    }
    'each: for (index, term) in left.iter().enumerate() {
        if term.index != right[index].index {
            return false;
        }
    }
    true
}

/// Whether two labels are the same.
fn are_same_labels(left: &[u32], right: &[u32]) -> bool
    ensures { result ≡ same_label left.now right.now }
{
    left == right
}

/// Whether two choices are the same.
fn is_same_choice(left: &Chosen, right: &Chosen) -> bool
    ensures { result ≡ same_choice (chosen_of left.now) (chosen_of right.now) }
{
    match left {
        Chosen::Else => matches!(right, Chosen::Else),
        Chosen::Taken(label) => match right {
            Chosen::Else => false,
            Chosen::Taken(other) => are_same_labels(&label.items, &other.items),
        },
    }
}

impl Done {
    /// Whether the same was done at another node.
    pub fn is_same_deed(&self, other: &Done) -> bool
        ensures { (all : List Term) (a b : DoneOf) → AreShared all → NamesDone all self.now a →
            NamesDone all other.now b → result ≡ same_deed a b }
    {
        are_same(&self.messages, &other.messages) && is_same_choice(&self.choice, &other.choice)
    }
}

impl DoneNodes {
    /// None.
    pub(crate) fn new(alloc: Global) -> DoneNodes
        ensures none { result.items.items ≡ [] }
        ensures listed { AreListed done_class [] result.classes }
    {
        DoneNodes {
            alloc,
            items: Vec::new(alloc),
            classes: Classes::none(alloc),
        }
    }

    /// One more.
    pub fn push(&mut self, done: Done) -> Result<(), AllocError>
        ensures items { OnOk result (self.new.items.items ≡ self.old.items.items ++ done ∷ []) }
        ensures listed { OnOk result (AreListed done_class self.old.items.items self.old.classes →
            AreListed done_class self.new.items.items self.new.classes) }
    {
        let class = class_of(done.point, &done.sessions);
        self.classes
            .push(self.alloc, Some(class), self.items.len())?;
        self.items.push(done)?;
        Ok(())
    }

    /// Whether the node of that number, from 0, is of the point in the copy.
    #[tactic(auto, using(crate::proofs::Listing::by_passing))]
    fn is_at(&self, number: usize, point: u32, sessions: &[Id]) -> bool
        ensures { result ≡ passes_at (is_of point sessions.now) self.now.items.items number }
    {
        match self.items.get(number) {
            None => false,
            Some(done) => done.point == point && are_same(&done.sessions, sessions),
        }
    }

    /// The number of the first of the point in the copy, from 0.
    fn first(&self, point: u32, sessions: &[Id]) -> Option<usize>
        ensures { result ≡ find (passes_at (is_of point sessions.now) self.now.items.items)
            (listed self.now.classes (Some (node_class point sessions.now))) }
    {
        'each: for index in self.classes.of(class_of(point, sessions)) {
            if self.is_at(*index, point, sessions) {
                return Some(*index);
            }
        }
        None
    }

    /// The first of the point in the copy.
    pub fn find(&self, point: u32, sessions: &[Id]) -> Option<&Done>
        ensures { (all : List Term) (ds : List DoneOf) (node : DoneOf) → AreShared all →
            NameDone all self.now.items.items ds →
            AreListed done_class self.now.items.items self.now.classes →
            node.point ≡ point → NameTerms all sessions.now node.sessions →
            FindsDone all result (find (same_place node) ds) }
    {
        match self.first(point, sessions) {
            None => None,
            Some(number) => self.items.get(number),
        }
    }
}
