//! What the choices of a `let` are made by.

ghost use Rattle.spec_calculus.specs.Bounds.{most_points};
ghost use Rattle.pi_tree.specs.Patterns.{pattern_of};
ghost use Rattle.clause_terms.specs.Conditions.{IsShortPattern};
ghost use Rattle.unified_visits.specs.ShortProps.{short_props};
ghost use Rattle.unified_visits.specs.Visits.{HasFewCopies};

use pi_tree::Pat;
use term_values::Instruction;
use unified_visits::place::Place;
use unified_visits::visit::Visit;

/// A `let` where it is visited: the place, what is known there, below few copies, the pattern, whose tuples are short,
/// the instructions of the expression, and how many choices of rules these leave.
#[derive(Clone, Copy)]
pub struct Choosing<'a> {
    pub place: &'a Place<'a>,
    pub visit: &'a Visit,
    pub pattern: &'a Pat,
    pub instructions: &'a [Instruction<'a>],
    pub count: usize,
    ghost short: { IsShortPattern (pattern_of pattern.now) } by { Prim.hlevel short_props },
    ghost copies: { HasFewCopies most_points visit.now } by { Prim.hlevel short_props },
}
