//! Matching a value against a pattern (Blanchet 2016, section 2.1).

ghost use Rattle.std.specs.Prelude.{◌≡◌, ◌++◌, map, cond, Some, None, option_map, IfOk};
ghost use Rattle.std.specs.Rc.{rc_value};
ghost use Rattle.spec_trees.specs.Tree.{trees};
ghost use Rattle.spec_calculus.specs.Matching.{matched, matched_row};
ghost use Rattle.spec_calculus.specs.Tables.{row_pattern, row_value};
ghost use Rattle.pi_tree.specs.Patterns.{pattern_of};
ghost use Rattle.pi_tree.specs.Values.{value_of};

use crate::bindings::Bound;
use crate::environments::Environment;
use crate::evaluation::is_value_of;
use pi_tree::{Pat, Pats, Slot, Value};
use std::alloc::{AllocError, Global};
use std::rc::Rc;

/// Whether the value matches the pattern; what the pattern binds then stands at the end of the bindings.
#[cycle(matches)]
fn matches(
    pattern: &Pat,
    alloc: Global,
    environment: &Environment,
    value: &Value,
    bindings: &mut Environment,
) -> Result<bool, AllocError>
    ensures { IfOk result (λ b. option_map (λ bs. bindings.old ++ bs)
        (matched environment.now (pattern_of pattern.now) (value_of value.now)) ≡
        cond b (Some bindings.new) None) }
{
    match pattern {
        Pat::Bind(number) => {
            bindings.bind(Slot::Var(*number), value.copy(alloc)?)?;
            Ok(true)
        }
        Pat::Equal(term) => Ok(is_value_of(term, value, &Bound::All(environment))),
        Pat::App(constructor, arguments) => match value {
            Value::App(other, values) => {
                if *constructor != *other {
                    return Ok(false);
                }
                all_match(arguments, alloc, environment, &values.items, bindings)
            }
            _ => Ok(false),
        },
        Pat::Tuple(parts) => match value {
            Value::Tuple(values) => {
                all_match(parts, alloc, environment, &values.items, bindings)
            }
            _ => Ok(false),
        },
    }
}

/// Whether each value matches the pattern beside it.
#[tactic(auto, using(crate::proofs::Rows::of_rows))]
#[cycle(matches)]
fn all_match(
    patterns: &Pats,
    alloc: Global,
    environment: &Environment,
    values: &[Value],
    bindings: &mut Environment,
) -> Result<bool, AllocError>
    ensures { IfOk result (λ b. option_map (λ bs. bindings.old ++ bs)
        (matched_row environment.now (trees patterns.now) (trees (map value_of values.now))) ≡
        cond b (Some bindings.new) None) }
{
    if patterns.items.len() != values.len() {
        return Ok(false);
    }
    for (index, pattern) in patterns.items.iter().enumerate() {
        if !matches(pattern, alloc, environment, &values[index], bindings)? {
            return Ok(false);
        }
    }
    Ok(true)
}

/// What the pattern binds where the value matches it.
#[tactic(auto, using(crate::proofs::Rows::of_rows))]
pub fn matched(
    alloc: Global,
    environment: &Environment,
    pattern: &Pat,
    value: &Value,
) -> Result<Option<Environment>, AllocError>
    ensures { IfOk result (λ o. o ≡ matched environment.now (pattern_of pattern.now)
        (value_of value.now)) }
{
    let mut bindings = Environment::new(alloc);
    if matches(pattern, alloc, environment, value, &mut bindings)? {
        Ok(Some(bindings))
    } else {
        Ok(None)
    }
}

/// What the pattern binds where the value matches it; a pattern that is a variable shares the value.
pub fn matched_shared(
    alloc: Global,
    environment: &Environment,
    pattern: &Pat,
    value: &Rc<Value>,
) -> Result<Option<Environment>, AllocError>
    ensures { IfOk result (λ o. o ≡ matched environment.now (pattern_of pattern.now)
        (value_of (rc_value value.now))) }
{
    match pattern {
        Pat::Bind(number) => {
            let held = value.clone()?;
            let mut bindings = Environment::new(alloc);
            bindings.bind_shared(Slot::Var(*number), held)?;
            Ok(Some(bindings))
        }
        Pat::Equal(_) | Pat::App(..) | Pat::Tuple(_) => {
            matched(alloc, environment, pattern, value)
        }
    }
}

/// What the patterns bind where the values match them, each the one beside it.
#[tactic(auto, using(crate::proofs::Rows::of_rows))]
pub fn matched_row(
    alloc: Global,
    environment: &Environment,
    patterns: &Pats,
    values: &[Value],
) -> Result<Option<Environment>, AllocError>
    ensures { IfOk result (λ o. o ≡ matched environment.now (row_pattern patterns.now)
        (row_value (map value_of values.now))) }
{
    let mut bindings = Environment::new(alloc);
    if all_match(patterns, alloc, environment, values, &mut bindings)? {
        Ok(Some(bindings))
    } else {
        Ok(None)
    }
}
