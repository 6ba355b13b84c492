//! Closed terms of instances as values of a plan: names stand in them by numbers of the plan, since a run gives a name its number only
//! where it makes it.

use clause_form::{Tree, Trees};
use destructor_rules::are_same;
use pi_tree::{Value, Values};
use std::alloc::{AllocError, Global};
use term_tree::Sym;

/// A name that a restriction makes: its point, and what was received and which copies were made above it.
struct NameTerm {
    point: u32,
    arguments: Values,
}

impl Drop for NameTerm {
    fn drop(self) {
        let NameTerm {
            point: _,
            arguments,
        } = self;
        drop(arguments);
    }
}

/// The names of restrictions that a plan speaks of; they are numbered from 0.
pub(crate) struct PlanNames {
    alloc: Global,
    items: Vec<NameTerm>,
}

impl Drop for PlanNames {
    fn drop(self) {
        let PlanNames { alloc, items } = self;
        drop(alloc);
        drop(items);
    }
}

impl PlanNames {
    /// No names. Takes no memory.
    pub(crate) fn new(alloc: Global) -> PlanNames {
        PlanNames {
            alloc,
            items: Vec::new(alloc),
        }
    }

    /// The number of a name, which is added where it isn't there.
    pub(crate) fn number_of(&mut self, point: u32, arguments: Values) -> Result<u64, AllocError> {
        'each: for (index, name) in self.items.iter().enumerate() {
            if name.point == point && are_same(&name.arguments.items, &arguments.items) {
                return Ok(index as u64);
            }
        }
        let number = self.items.len() as u64;
        self.items.push(NameTerm { point, arguments })?;
        Ok(number)
    }

    /// The value of a symbol over values. A name of the attacker's has its own number, which is that of a leaf.
    fn applied(&mut self, symbol: Sym, mut values: Values) -> Result<Value, AllocError> {
        match symbol {
            Sym::Free(number) => Ok(Value::Free(number)),
            Sym::Point(point) => {
                let number = self.number_of(point, values)?;
                Ok(Value::Made(point, number))
            }
            Sym::Attacker => match values.items.pop() {
                None => Ok(Value::Fresh(0)),
                Some(leaf) => Ok(leaf),
            },
            Sym::Ctor(number) | Sym::Data(number) => Ok(Value::App(number, values)),
            Sym::Tuple(_) => Ok(Value::Tuple(values)),
        }
    }

    /// The value of a closed term.
    #[cycle(plan_value)]
    pub(crate) fn value_of(&mut self, tree: &Tree) -> Result<Value, AllocError> {
        match tree {
            Tree::Var(number) => Ok(Value::Fresh(u64::from(*number))),
            Tree::App(symbol, arguments) => {
                let values = self.values_of(arguments)?;
                self.applied(*symbol, values)
            }
        }
    }

    /// The values of closed terms.
    #[cycle(plan_value)]
    pub(crate) fn values_of(&mut self, trees: &Trees) -> Result<Values, AllocError> {
        let mut items = Vec::with_capacity(self.alloc, trees.items.len())?;
        'each: for tree in &trees.items {
            items.push(self.value_of(tree)?)?;
        }
        Ok(Values { items })
    }
}
