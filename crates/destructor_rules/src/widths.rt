//! How many new variables a rule takes.

ghost use Rattle.std.specs.Prelude.{◌≡◌};
ghost use Rattle.spec_trees.specs.Tree.{trees};
ghost use Rattle.spec_well_formed.specs.Leaves.{leaves, row_leaves};
ghost use Rattle.spec_translation.specs.Applied.{greatest, rule_width};
ghost use Rattle.pi_tree.specs.Terms.{term_of};
ghost use Rattle.pi_tree.specs.Rules.{rule_of};

use pi_tree::{Rule, Term, Terms};

/// The greatest number of a variable of the term, and 0 where it has none.
#[cycle(greatest)]
fn greatest_in(term: &Term) -> u32
    ensures { result ≡ greatest (leaves (term_of term.now)) }
{
    match term {
        Term::Var(number) => *number,
        Term::Free(_) | Term::Made(_) => 0,
        Term::App(_, arguments) => greatest_of(arguments),
        Term::Tuple(parts) => greatest_of(parts),
    }
}

/// The greatest number of a variable of the terms.
#[tactic(auto, using(crate::proofs::Greatest::greatest_append))]
#[cycle(greatest)]
fn greatest_of(terms: &Terms) -> u32
    ensures { result ≡ greatest (row_leaves (trees terms.now)) }
{
    let mut found = 0u32;
    for term in &terms.items {
        found = found.max(greatest_in(term));
    }
    found
}

/// How many new variables the rule takes: its variables are numbered from 1, and this is the greatest of their numbers.
#[tactic(auto, using(crate::proofs::Greatest::greatest_append))]
pub fn rule_width(rule: &Rule) -> u32
    ensures { result ≡ rule_width (rule_of rule.now) }
{
    greatest_of(&rule.left).max(greatest_in(&rule.right))
}
