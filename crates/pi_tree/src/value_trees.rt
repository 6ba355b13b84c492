//! Values (Blanchet 2016, section 2.2).

ghost use Rattle.std.specs.Prelude.{◌≡◌, IfOk};

use std::alloc::{AllocError, Global};
use std::marker::Model;

/// A value. A name that a restriction made has the restriction's point and the name's number in the
/// run, a name that the attacker made that number alone.
#[cycle(value)]
#[derive(Debug, Drop)]
pub enum Value {
    Free(u32),
    Made(u32, u64),
    Fresh(u64),
    /// A constructor and its arguments.
    App(u32, Values),
    /// A tuple and its parts.
    Tuple(Values),
}

/// Values in order.
#[cycle(value)]
#[derive(Debug, Drop)]
pub struct Values {
    pub items: Vec<Value>,
}

impl Model for Values {
    ghost use Rattle.std.specs.Prelude.{List, map};
    ghost use Rattle.spec_trees.specs.Tree.{depths, trees};
    ghost use Rattle.spec_calculus.specs.Values as calculus;
    ghost use Rattle.spec_calculus.specs.Codes.{coded_values};

    ghost Value = { List calculus.Value };

    ghost coded = { coded_values };

    ghost use Rattle.pi_tree.specs.Values.{value_of};

    ghost view = { λ a. map value_of a.items.items };

    ghost size = { λ ts. depths (trees ts) };

    ghost use Rattle.pi_tree.specs.ValueDepths.{values_fall};

    ghost size_decreases = { λ a h. values_fall a.items.items };
}

impl Value {
    /// A copy, its arguments copied.
    #[cycle(value_copy)]
    pub fn copy(&self, alloc: Global) -> Result<Value, AllocError>
        ensures { IfOk result (λ copied. copied ≡ self.now) }
    {
        match self {
            Value::Free(number) => Ok(Value::Free(*number)),
            Value::Made(point, number) => Ok(Value::Made(*point, *number)),
            Value::Fresh(number) => Ok(Value::Fresh(*number)),
            Value::App(constructor, arguments) => {
                Ok(Value::App(*constructor, arguments.copy(alloc)?))
            }
            Value::Tuple(parts) => Ok(Value::Tuple(parts.copy(alloc)?)),
        }
    }
}

impl Values {
    /// A copy, item by item.
    #[cycle(value_copy)]
    pub fn copy(&self, alloc: Global) -> Result<Values, AllocError>
        ensures { IfOk result (λ copied. copied ≡ self.now) }
    {
        let mut items = Vec::with_capacity(alloc, self.items.len())?;
        for value in &self.items {
            items.push(value.copy(alloc)?)?;
        }
        Ok(Values { items })
    }
}
