//! The value that a rule gives of its arguments.

ghost use Rattle.std.specs.Prelude.{◌≡◌, map, option_map, IfOk};
ghost use Rattle.spec_calculus.specs.Matching.{rule_value};
ghost use Rattle.pi_tree.specs.Rules.{rule_of};
ghost use Rattle.pi_tree.specs.Values.{value_of};

use crate::bindings::{Bindings, bind_row};
use crate::instances::{are_instances, instance};
use pi_tree::{Rule, Value};
use std::alloc::{AllocError, Global};

/// The value that the rule gives of the arguments: where they are an instance of its left side, that
/// instance of its right side, and else none.
pub fn rule_value(
    alloc: Global,
    rule: &Rule,
    arguments: &[Value],
) -> Result<Option<Value>, AllocError>
    ensures { IfOk result (λ o. option_map value_of o ≡
        rule_value (rule_of rule.now) (map value_of arguments.now)) }
{
    let mut bindings = Bindings::new(alloc);
    bind_row(&rule.left, alloc, arguments, &mut bindings)?;
    if !are_instances(&rule.left, arguments, &bindings) {
        return Ok(None);
    }
    Ok(Some(instance(&rule.right, alloc, &bindings)?))
}
