//! Values of terms in an environment (Blanchet 2016, section 2.2).

ghost use Rattle.std.specs.Prelude.{◌≡◌, map, IfOk};
ghost use Rattle.std.specs.Rc.{rc_value};
ghost use Rattle.spec_calculus.specs.Values as calculus;
ghost use Rattle.spec_calculus.specs.Values.{same_value, same_values};
ghost use Rattle.pi_tree.specs.Terms.{term_of};
ghost use Rattle.pi_tree.specs.Values.{value_of};
ghost use Rattle.pi_tree.specs.Slots.{name_of};
ghost use Rattle.term_values.specs.Bound.{bound_of};

use crate::bindings::{Bound, look_up};
use crate::environments::Environment;
use destructor_rules::is_same;
use pi_tree::{Slot, Term, Terms, Value, Values};
use std::alloc::{AllocError, Global};
use std::rc::Rc;

/// What the slot is bound to; a slot that is not bound is the free name 0, which nothing declares.
fn bound_value(slot: Slot, alloc: Global, environment: &Environment) -> Result<Value, AllocError>
    ensures { IfOk result (λ v. value_of v ≡ calculus.value_of_bound environment.now
        (name_of slot)) }
{
    match environment.look_up(slot) {
        Some(value) => value.copy(alloc),
        None => Ok(Value::Free(0)),
    }
}

/// The value of the term.
#[tactic(auto, using(crate::proofs::Rows::of_rows))]
#[cycle(evaluate)]
pub fn evaluate(term: &Term, alloc: Global, environment: &Environment) -> Result<Value, AllocError>
    ensures { IfOk result (λ v. value_of v ≡ calculus.value_of environment.now (term_of term.now)) }
{
    match term {
        Term::Var(number) => bound_value(Slot::Var(*number), alloc, environment),
        Term::Made(point) => bound_value(Slot::Made(*point), alloc, environment),
        Term::Free(number) => Ok(Value::Free(*number)),
        Term::App(constructor, arguments) => Ok(Value::App(
            *constructor,
            evaluate_all(arguments, alloc, environment)?,
        )),
        Term::Tuple(parts) => Ok(Value::Tuple(evaluate_all(parts, alloc, environment)?)),
    }
}

/// The values of the terms.
#[tactic(auto, using(crate::proofs::Rows::of_rows))]
#[cycle(evaluate)]
pub fn evaluate_all(
    terms: &Terms,
    alloc: Global,
    environment: &Environment,
) -> Result<Values, AllocError>
    ensures { IfOk result (λ vs. vs ≡ calculus.values_of environment.now terms.now) }
{
    let mut items = Vec::with_capacity(alloc, terms.items.len())?;
    for term in &terms.items {
        items.push(evaluate(term, alloc, environment)?)?;
    }
    Ok(Values { items })
}

/// What the slot is bound to, shared with the environment; a slot that is not bound is the free name 0, which nothing declares.
fn bound_shared(
    slot: Slot,
    alloc: Global,
    environment: &Environment,
) -> Result<Rc<Value>, AllocError>
    ensures { IfOk result (λ v. value_of (rc_value v) ≡
        calculus.value_of_bound environment.now (name_of slot)) }
{
    match environment.shared(slot) {
        Some(value) => {
            let held = value.clone()?;
            Ok(held)
        }
        None => {
            let held = Rc::new(alloc, Value::Free(0))?;
            Ok(held)
        }
    }
}

/// The value of the term; that of a variable or of a restriction's name is shared with the environment.
pub fn evaluate_shared(
    term: &Term,
    alloc: Global,
    environment: &Environment,
) -> Result<Rc<Value>, AllocError>
    ensures { IfOk result (λ v. value_of (rc_value v) ≡
        calculus.value_of environment.now (term_of term.now)) }
{
    match term {
        Term::Var(number) => bound_shared(Slot::Var(*number), alloc, environment),
        Term::Made(point) => bound_shared(Slot::Made(*point), alloc, environment),
        Term::Free(_) | Term::App(..) | Term::Tuple(_) => {
            let value = evaluate(term, alloc, environment)?;
            let held = Rc::new(alloc, value)?;
            Ok(held)
        }
    }
}

/// Whether the slot is bound to the value.
fn is_bound_to(slot: Slot, value: &Value, bound: &Bound) -> bool
    ensures { result ≡ same_value (calculus.value_of_bound (bound_of bound.now) (name_of slot))
        (value_of value.now) }
{
    match look_up(bound, slot) {
        Some(found) => is_same(found, value),
        None => is_same(&Value::Free(0), value),
    }
}

/// Whether the value is that of the term. It takes no memory.
#[tactic(auto, using(crate::proofs::Rows::of_rows))]
#[cycle(is_value_of)]
pub fn is_value_of(term: &Term, value: &Value, bound: &Bound) -> bool
    ensures { result ≡ same_value (calculus.value_of (bound_of bound.now) (term_of term.now))
        (value_of value.now) }
{
    match term {
        Term::Var(number) => is_bound_to(Slot::Var(*number), value, bound),
        Term::Made(point) => is_bound_to(Slot::Made(*point), value, bound),
        Term::Free(number) => is_same(&Value::Free(*number), value),
        Term::App(constructor, arguments) => match value {
            Value::App(other, values) => {
                *constructor == *other && are_values_of(arguments, &values.items, bound)
            }
            _ => false,
        },
        Term::Tuple(parts) => match value {
            Value::Tuple(values) => are_values_of(parts, &values.items, bound),
            _ => false,
        },
    }
}

/// Whether the values are those of the terms.
#[tactic(auto, using(crate::proofs::Rows::of_rows))]
#[cycle(is_value_of)]
pub fn are_values_of(terms: &Terms, values: &[Value], bound: &Bound) -> bool
    ensures { result ≡ same_values (calculus.values_of (bound_of bound.now) terms.now)
        (map value_of values.now) }
{
    if terms.items.len() != values.len() {
        return false;
    }
    for (index, term) in terms.items.iter().enumerate() {
        if !is_value_of(term, &values[index], bound) {
            return false;
        }
    }
    true
}
