//! Terms that were renumbered, each with what it is then, so that a term that stands in a clause often is renumbered
//! once. Takes no memory.

ghost use Rattle.std.specs.Prelude.{◌<◌, List, length, IfSome};
ghost use Rattle.spec_trees.specs.Tree.{bind};
ghost use Rattle.spec_terms.specs.Term.{Term, Subst};
ghost use Rattle.term_tree.specs.Bank.{tree_at, Names};
ghost use Rattle.clause_form.specs.Remembered.{AreRemembered};

use term_tree::Id;

/// So many terms are remembered at most: each has its place by its id.
pub const PLACES: usize = 64;

/// A term, and what it is renumbered.
#[derive(Clone, Copy)]
pub struct Change {
    pub term: Id,
    pub made: Id,
}

/// What a term is renumbered, where it is remembered.
pub fn remembered(changes: &[Option<Change>; PLACES], term: Id) -> Option<Id>
    ensures { (all : List Term) (s : Subst) → AreRemembered all s changes.now →
        IfSome result (λ made. Names all made (bind s (tree_at all term))) }
{
    match changes[term.index % PLACES] {
        Some(change) => {
            if change.term.index == term.index {
                Some(change.made)
            } else {
                None
            }
        }
        None => None,
    }
}

/// Remembers what a term is renumbered, in the place of another.
pub fn remember(changes: &mut [Option<Change>; PLACES], term: Id, made: Id)
    ensures { (all : List Term) (s : Subst) → AreRemembered all s changes.old →
        term.index < length all → Names all made (bind s (tree_at all term)) →
        AreRemembered all s changes.new }
{
    changes[term.index % PLACES] = Some(Change { term, made });
}
