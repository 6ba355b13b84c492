//! Instances of a rule's terms.

ghost use Rattle.std.specs.Prelude.{◌≡◌, map, IfOk};
ghost use Rattle.spec_calculus.specs.Values.{same_value, same_values, value_of_bound};
ghost use Rattle.spec_calculus.specs.Matching.{instance_of};
ghost use Rattle.pi_tree.specs.Terms.{term_of};
ghost use Rattle.pi_tree.specs.Values.{value_of};
ghost use Rattle.destructor_rules.specs.Leaves.{leaf_of};

use crate::bindings::{Bindings, Leaf};
use crate::equality::is_same;
use pi_tree::{Term, Terms, Value, Values};
use std::alloc::{AllocError, Global};

/// What the leaf stands for; a leaf that is not bound is the free name 0, which nothing declares.
fn bound_value(leaf: Leaf, alloc: Global, bindings: &Bindings) -> Result<Value, AllocError>
    ensures { IfOk result (λ v. value_of v ≡ value_of_bound bindings.now (leaf_of leaf)) }
{
    match bindings.look_up(leaf) {
        Some(value) => value.copy(alloc),
        None => Ok(Value::Free(0)),
    }
}

/// The instance of the term.
#[tactic(auto, using(crate::proofs::Rows::rows))]
#[cycle(instance)]
pub fn instance(term: &Term, alloc: Global, bindings: &Bindings) -> Result<Value, AllocError>
    ensures { IfOk result (λ v. value_of v ≡ instance_of bindings.now (term_of term.now)) }
{
    match term {
        Term::Var(number) => bound_value(Leaf::Var(*number), alloc, bindings),
        Term::Free(number) => bound_value(Leaf::Free(*number), alloc, bindings),
        Term::Made(point) => bound_value(Leaf::Made(*point), alloc, bindings),
        Term::App(constructor, arguments) => {
            Ok(Value::App(*constructor, instances(arguments, alloc, bindings)?))
        }
        Term::Tuple(parts) => Ok(Value::Tuple(instances(parts, alloc, bindings)?)),
    }
}

/// The instances of the terms.
#[tactic(auto, using(crate::proofs::Rows::rows))]
#[cycle(instance)]
fn instances(terms: &Terms, alloc: Global, bindings: &Bindings) -> Result<Values, AllocError>
    ensures { IfOk result (λ vs. vs ≡ map (instance_of bindings.now) terms.now) }
{
    let mut items = Vec::new(alloc);
    for term in &terms.items {
        items.push(instance(term, alloc, bindings)?)?;
    }
    Ok(Values { items })
}

/// Whether the leaf stands for the value.
fn is_bound_value(leaf: Leaf, value: &Value, bindings: &Bindings) -> bool
    ensures { result ≡ same_value (value_of_bound bindings.now (leaf_of leaf))
        (value_of value.now) }
{
    match bindings.look_up(leaf) {
        Some(bound) => is_same(bound, value),
        None => is_same(&Value::Free(0), value),
    }
}

/// Whether the value is the instance of the term.
#[tactic(auto, using(crate::proofs::Rows::rows))]
#[cycle(is_instance)]
fn is_instance(term: &Term, value: &Value, bindings: &Bindings) -> bool
    ensures { result ≡ same_value (instance_of bindings.now (term_of term.now))
        (value_of value.now) }
{
    match term {
        Term::Var(number) => is_bound_value(Leaf::Var(*number), value, bindings),
        Term::Free(number) => is_bound_value(Leaf::Free(*number), value, bindings),
        Term::Made(point) => is_bound_value(Leaf::Made(*point), value, bindings),
        Term::App(constructor, arguments) => match value {
            Value::App(other, values) => {
                *constructor == *other && are_instances(arguments, &values.items, bindings)
            }
            _ => false,
        },
        Term::Tuple(parts) => match value {
            Value::Tuple(values) => are_instances(parts, &values.items, bindings),
            _ => false,
        },
    }
}

/// Whether the values are the instances of the terms.
#[tactic(auto, using(crate::proofs::Rows::rows))]
#[cycle(is_instance)]
pub fn are_instances(terms: &Terms, values: &[Value], bindings: &Bindings) -> bool
    ensures { result ≡ same_values (map (instance_of bindings.now) terms.now)
        (map value_of values.now) }
{
    if terms.items.len() != values.len() {
        return false;
    }
    for (index, term) in terms.items.iter().enumerate() {
        if !is_instance(term, &values[index], bindings) {
            return false;
        }
    }
    true
}
