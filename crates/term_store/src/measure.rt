//! What is told of a tree: its size, and whether it has no variable.

ghost use Rattle.std.specs.Prelude.{◌≡◌, ◌<◌, ◌≤◌};
ghost use Rattle.term_store.specs.Measures.{tells_of};

use term_tree::SIZE_LIMIT;

/// The size of a tree as it is told, which is at least 1, and whether the tree has no variable. A bank has
/// one for each node, so both stand in one word: twice what the size is over 1, and 1 for no variable.
#[derive(Clone, Copy)]
pub struct Measure {
    word: u64,
}

impl Measure {
    /// This size, and whether there is no variable.
    pub(crate) fn new(size: u64, is_ground: bool) -> Measure
        requires some { 0 < size }
        requires small { size ≤ SIZE_LIMIT }
        ensures { tells_of result ≡ (size, is_ground) }
    {
        Measure {
            word: 2 * (size - 1) + is_ground as u64,
        }
    }

    /// The size.
    pub(crate) fn size(self) -> u64
        ensures { result ≡ (tells_of self).0 }
    {
        self.word / 2 + 1
    }

    /// Whether there is no variable.
    pub(crate) fn is_ground(self) -> bool
        ensures { result ≡ (tells_of self).1 }
    {
        self.word % 2 == 1
    }
}
