//! Equality of values.

ghost use Rattle.std.specs.Prelude.{◌≡◌, map};
ghost use Rattle.spec_calculus.specs.Values.{same_value, same_values};
ghost use Rattle.pi_tree.specs.Values.{value_of};

use pi_tree::Value;

/// Whether two values are equal.
#[cycle(same)]
pub fn is_same(left: &Value, right: &Value) -> bool
    ensures { result ≡ same_value (value_of left.now) (value_of right.now) }
{
    match left {
        Value::Free(number) => match right {
            Value::Free(other) => *number == *other,
            _ => false,
        },
        Value::Made(point, number) => match right {
            Value::Made(other_point, other) => *point == *other_point && *number == *other,
            _ => false,
        },
        Value::Fresh(number) => match right {
            Value::Fresh(other) => *number == *other,
            _ => false,
        },
        Value::App(constructor, arguments) => match right {
            Value::App(other, others) => {
                *constructor == *other && are_same(&arguments.items, &others.items)
            }
            _ => false,
        },
        Value::Tuple(parts) => match right {
            Value::Tuple(others) => are_same(&parts.items, &others.items),
            _ => false,
        },
    }
}

/// Whether two lists of values are equal.
#[tactic(auto, using(crate::proofs::Rows::rows))]
#[cycle(same)]
pub fn are_same(lefts: &[Value], rights: &[Value]) -> bool
    ensures { result ≡ same_values (map value_of lefts.now) (map value_of rights.now) }
{
    if lefts.len() != rights.len() {
        return false;
    }
    for (index, left) in lefts.iter().enumerate() {
        if !is_same(left, &rights[index]) {
            return false;
        }
    }
    true
}
