//! Nodes of a plan: what threads are to do.

use clause_sources::Choice;
use destructor_rules::{are_same, is_same};
use pi_tree::{Process, Value, Values};

/// A node of the main process that a thread is to pass in one copy.
pub(crate) struct Node<'a> {
    pub process: &'a Process,
    pub point: u32,
    /// The index of the node above it; none at the first point.
    pub above: Option<usize>,
    /// Whether its thread is the one that begins at the node above, not the one that stands there.
    pub is_begun: bool,
    /// Which copy begins here, where it is a replication: the number that the instance has for it, and which of several with this number.
    pub session: Option<Value>,
    pub twin: u32,
    /// What is received or taken of an entry.
    pub taken: Values,
    /// How the thread goes on, where it is a `let` or a `get`.
    pub choice: Option<&'a Choice>,
    /// The number in the plan of the name that is made, where it is a restriction.
    pub name: u64,
}

impl Drop for Node<'_> {
    fn drop(self) {
        let Node {
            process: _,
            point: _,
            above: _,
            is_begun: _,
            session,
            twin: _,
            taken,
            choice: _,
            name: _,
        } = self;
        drop(session);
        drop(taken);
    }
}

/// Whether two copies are of one number; true where neither is a copy.
fn is_same_session(left: &Option<Value>, right: &Option<Value>) -> bool {
    match left {
        None => right.is_none(),
        Some(value) => match right {
            None => false,
            Some(other) => is_same(value, other),
        },
    }
}

/// Whether two choices are the same; true where nothing is chosen.
fn is_same_choice(left: Option<&Choice>, right: Option<&Choice>) -> bool {
    match left {
        None => right.is_none(),
        Some(Choice::Else) => matches!(right, Some(Choice::Else)),
        Some(Choice::Taken(label)) => match right {
            None | Some(Choice::Else) => false,
            Some(Choice::Taken(other)) => label.items.as_slice() == other.items.as_slice(),
        },
    }
}

impl Node<'_> {
    /// Whether it is the same node in the same copy.
    pub(crate) fn is_same_place(&self, other: &Node<'_>) -> bool {
        self.point == other.point
            && self.above == other.above
            && self.is_begun == other.is_begun
            && self.twin == other.twin
            && is_same_session(&self.session, &other.session)
    }

    /// Whether a thread does the same there.
    pub(crate) fn is_same_deed(&self, other: &Node<'_>) -> bool {
        is_same_choice(self.choice, other.choice) && are_same(&self.taken.items, &other.taken.items)
    }

    /// Whether the thread goes on as the else branch.
    pub(crate) fn is_otherwise(&self) -> bool {
        matches!(self.choice, Some(Choice::Else))
    }
}
