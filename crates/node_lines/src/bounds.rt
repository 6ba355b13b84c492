//! In the terms of which nodes a bound variable stands.

ghost use Rattle.std.specs.Prelude.{◌≡◌};
ghost use Rattle.std.specs.List.{list_any};
ghost use Rattle.spec_node_counts.specs.Nodes as reading;
ghost use Rattle.node_lines.specs.Seen.{node_of};

use crate::nodes::TableNode;
use term_reader::FIRST_BOUND;

/// Whether a bound variable stands in the term of the node of that number: in none where there is no such node.
#[tactic(auto, using(crate::proofs::BoundNodes::bound))]
pub fn bound_at(bounds: &[bool], number: usize) -> bool
    ensures { result ≡ reading.bound_at bounds.now number }
{
    if number == 0 || number > bounds.len() {
        return false;
    }
    bounds[number - 1]
}

/// Whether one stands in that of one of these.
#[tactic(auto, using(crate::proofs::BoundNodes::rows))]
fn some_bound(bounds: &[bool], numbers: &[u32]) -> bool
    ensures { result ≡ list_any (reading.bound_at bounds.now) numbers.now }
{
    for number in numbers {
        if bound_at(bounds, *number as usize) {
            return true;
        }
    }
    false
}

/// Whether one stands in the term of the node.
pub fn is_bound_node(bounds: &[bool], node: &TableNode) -> bool
    ensures { result ≡ reading.is_bound_node bounds.now (node_of node.now) }
{
    match node {
        TableNode::Variable(number) => *number >= FIRST_BOUND,
        TableNode::Over(_, numbers) => some_bound(bounds, &numbers.items),
    }
}
