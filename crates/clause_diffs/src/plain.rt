//! Constraints over owned trees: they outlast every bank.

use std::marker::Model;
use term_tree::Sym;

/// A term as a tree that is owned: a variable by its number, or a symbol over its arguments.
#[cycle(tree)]
#[derive(Debug, Drop)]
pub enum Tree {
    Var(u32),
    App(Sym, Trees),
}

/// Trees in order.
#[cycle(tree)]
#[derive(Debug, Drop)]
pub struct Trees {
    pub items: Vec<Tree>,
}

impl Model for Trees {
    ghost use Rattle.std.specs.Prelude.{List, map};
    ghost use Rattle.spec_trees.specs.Tree.{depths, trees};
    ghost use Rattle.spec_terms.specs.Term.{Term, coded_terms};

    ghost Value = { List Term };

    ghost coded = { coded_terms };

    ghost use Rattle.clause_diffs.specs.Plain.{term_of};

    ghost view = { λ a. map term_of a.items.items };

    ghost size = { λ ts. depths (trees ts) };

    ghost use Rattle.clause_diffs.specs.PlainDepths.{trees_fall};

    ghost size_decreases = { λ a h. trees_fall a.items.items };
}

/// A constraint over owned trees. The variables from `first` on are those that it binds.
#[derive(Debug)]
pub struct PlainDiff {
    pub first: u32,
    pub left: Trees,
    pub right: Trees,
}

impl Drop for PlainDiff {
    fn drop(self) {
        let PlainDiff {
            first: _,
            left,
            right,
        } = self;
        drop(left);
        drop(right);
    }
}

impl Model for PlainDiff {
    ghost use Rattle.spec_clauses.specs.Diff.{Diff};
    ghost use Rattle.spec_clauses.specs.Shown.{diff_shown};
    ghost use Rattle.clause_diffs.specs.Codes.{coded_diff};

    ghost Value = { Diff };

    ghost coded = { coded_diff };

    ghost view = { λ d. diff_shown record { first = d.first; left = d.left; right = d.right } };
}

/// Constraints over owned trees, in order.
#[derive(Debug)]
pub struct PlainDiffs {
    pub items: Vec<PlainDiff>,
}

impl Drop for PlainDiffs {
    fn drop(self) {
        let PlainDiffs { items } = self;
        drop(items);
    }
}

impl Model for PlainDiffs {
    ghost use Rattle.std.specs.Prelude.{List};
    ghost use Rattle.spec_clauses.specs.Diff.{Diff};
    ghost use Rattle.clause_diffs.specs.Codes.{coded_diffs};

    ghost Value = { List Diff };

    ghost coded = { coded_diffs };

    ghost view = { λ a. a.items.items };
}
