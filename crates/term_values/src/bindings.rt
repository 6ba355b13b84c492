//! What is bound where values of terms are compared, without a copy of it.

ghost use Rattle.std.specs.Prelude.{◌≡◌, map, option_map};
ghost use Rattle.spec_trees.specs.Tree.{trees};
ghost use Rattle.spec_calculus.specs.Values.{bound_to};
ghost use Rattle.spec_calculus.specs.Matching.{places, places_row};
ghost use Rattle.pi_tree.specs.Terms.{term_of};
ghost use Rattle.pi_tree.specs.Values.{value_of};
ghost use Rattle.pi_tree.specs.Slots.{name_of};
ghost use Rattle.term_values.specs.Bound.{bound_of, places_below};

use crate::environments::Environment;
use pi_tree::{Slot, Term, Terms, Value};

/// What is bound; of two of one slot the earlier counts.
#[derive(Clone, Copy)]
pub enum Bound<'a> {
    Nothing,
    /// All that the environment binds.
    All(&'a Environment),
    /// What is bound already, and then each slot of the terms, to what stands at its place in the values.
    Beside(&'a Bound<'a>, &'a Terms, &'a [Value]),
}

/// What stands at the first place of the slot in the term.
#[tactic(auto, using(crate::proofs::Places::of_places))]
#[cycle(place)]
fn place<'a>(slot: Slot, term: &Term, value: &'a Value) -> Option<&'a Value>
    ensures { option_map (λ v. value_of v.now) result ≡
        bound_to (places (term_of term.now) (value_of value.now)) (name_of slot) }
{
    match term {
        Term::Var(number) => {
            if Slot::Var(*number).is(slot) {
                Some(value)
            } else {
                None
            }
        }
        Term::Made(point) => {
            if Slot::Made(*point).is(slot) {
                Some(value)
            } else {
                None
            }
        }
        Term::Free(_) => None,
        Term::App(_, arguments) => place_below(slot, arguments, value),
        Term::Tuple(parts) => place_below(slot, parts, value),
    }
}

/// What stands at the first place of the slot in the terms under a node, whatever the node of the value.
#[tactic(auto, using(crate::proofs::Places::of_places))]
#[cycle(place)]
fn place_below<'a>(slot: Slot, terms: &Terms, value: &'a Value) -> Option<&'a Value>
    ensures { option_map (λ v. value_of v.now) result ≡
        bound_to (places_below (trees terms.now) (value_of value.now)) (name_of slot) }
{
    match value {
        Value::Free(_) | Value::Made(..) | Value::Fresh(_) => None,
        Value::App(_, arguments) => place_in(slot, terms, &arguments.items),
        Value::Tuple(parts) => place_in(slot, terms, &parts.items),
    }
}

/// What stands at the first place of the slot in the terms, each beside its value.
#[tactic(auto, using(crate::proofs::Places::of_places))]
#[cycle(place)]
fn place_in<'a>(slot: Slot, terms: &Terms, values: &'a [Value]) -> Option<&'a Value>
    ensures { option_map (λ v. value_of v.now) result ≡
        bound_to (places_row (trees terms.now) (trees (map value_of values.now))) (name_of slot) }
{
    for (index, term) in terms.items.iter().enumerate() {
        if index >= values.len() {
            return None;
        }
        if let Some(found) = place(slot, term, &values[index]) {
            return Some(found);
        }
    }
    None
}

/// What the slot is bound to, if it is.
#[tactic(auto, using(crate::proofs::Places::of_places))]
pub fn look_up<'a>(bound: &Bound<'a>, slot: Slot) -> Option<&'a Value>
    ensures { option_map (λ v. value_of v.now) result ≡
        bound_to (bound_of bound.now) (name_of slot) }
{
    match bound {
        Bound::Nothing => None,
        Bound::All(environment) => environment.look_up(slot),
        Bound::Beside(earlier, terms, values) => match look_up(earlier, slot) {
            Some(value) => Some(value),
            None => place_in(slot, terms, values),
        },
    }
}
