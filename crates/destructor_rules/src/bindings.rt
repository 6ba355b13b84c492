//! What the variables of a rule stand for: each leaf of its left side, bound to what stands at its
//! place in the arguments.

ghost use Rattle.std.specs.Prelude.{◌≡◌, [], ◌∷◌, ◌++◌, map, option_map, OnOk};
ghost use Rattle.spec_trees.specs.Tree.{trees};
ghost use Rattle.spec_calculus.specs.Values.{same_name, bound_to};
ghost use Rattle.spec_calculus.specs.Matching.{places, places_row};
ghost use Rattle.pi_tree.specs.Terms.{term_of};
ghost use Rattle.pi_tree.specs.Values.{value_of};
ghost use Rattle.destructor_rules.specs.Leaves.{leaf_of};

use pi_tree::{Term, Terms, Value};
use std::alloc::{AllocError, Global};
use std::marker::Model;

/// A leaf of a rule's term. Each is a variable of the rule, whatever it is elsewhere.
#[derive(Clone, Copy)]
pub enum Leaf {
    Var(u32),
    Free(u32),
    Made(u32),
}

impl Leaf {
    /// Whether two leaves are the same variable of the rule.
    fn is(self, other: Leaf) -> bool
        ensures { result ≡ same_name (leaf_of self) (leaf_of other) }
    {
        match self {
            Leaf::Var(number) => match other {
                Leaf::Var(another) => number == another,
                _ => false,
            },
            Leaf::Free(number) => match other {
                Leaf::Free(another) => number == another,
                _ => false,
            },
            Leaf::Made(point) => match other {
                Leaf::Made(another) => point == another,
                _ => false,
            },
        }
    }
}

/// A leaf and the value that it stands for.
#[derive(Drop)]
pub struct Binding {
    pub leaf: Leaf,
    pub value: Value,
}

/// Bindings in order; of two of one leaf the earlier counts.
#[derive(Drop)]
pub struct Bindings {
    pub items: Vec<Binding>,
}

impl Model for Bindings {
    ghost use Rattle.std.specs.Prelude.{map};
    ghost use Rattle.spec_calculus.specs.Values.{Environment};
    ghost use Rattle.spec_calculus.specs.Codes.{coded_environment};

    ghost Value = { Environment };

    ghost coded = { coded_environment };

    ghost use Rattle.destructor_rules.specs.Bindings.{binding_of};

    ghost view = { λ a. map binding_of a.items.items };
}

impl Bindings {
    /// No bindings.
    pub fn new(alloc: Global) -> Self
        ensures { result ≡ [] }
    {
        Bindings {
            items: Vec::new(alloc),
        }
    }

    /// The value that the leaf stands for, if it is bound.
    pub fn look_up(&self, leaf: Leaf) -> Option<&Value>
        ensures { option_map (λ v. value_of v.now) result ≡ bound_to self.now (leaf_of leaf) }
    {
        for binding in &self.items {
            if binding.leaf.is(leaf) {
                return Some(&binding.value);
            }
        }
        None
    }

    /// One more binding, at the end.
    fn bind(&mut self, leaf: Leaf, value: Value) -> Result<(), AllocError>
        ensures { OnOk result (self.new ≡ self.old ++ record
            { name = leaf_of leaf; value = value_of value } ∷ []) }
    {
        self.items.push(Binding { leaf, value })?;
        Ok(())
    }
}

/// Binds each leaf of the term to what stands at its place in the value.
#[cycle(places)]
pub fn bind_places(
    term: &Term,
    alloc: Global,
    value: &Value,
    bindings: &mut Bindings,
) -> Result<(), AllocError>
    ensures { OnOk result (bindings.new ≡ bindings.old ++ places (term_of term.now)
        (value_of value.now)) }
{
    match term {
        Term::Var(number) => bindings.bind(Leaf::Var(*number), value.copy(alloc)?),
        Term::Free(number) => bindings.bind(Leaf::Free(*number), value.copy(alloc)?),
        Term::Made(point) => bindings.bind(Leaf::Made(*point), value.copy(alloc)?),
        Term::App(_, arguments) => match value {
            Value::App(_, values) => bind_row(arguments, alloc, &values.items, bindings),
            Value::Tuple(values) => bind_row(arguments, alloc, &values.items, bindings),
            Value::Free(_) | Value::Made(..) | Value::Fresh(_) => Ok(()),
        },
        Term::Tuple(parts) => match value {
            Value::App(_, values) => bind_row(parts, alloc, &values.items, bindings),
            Value::Tuple(values) => bind_row(parts, alloc, &values.items, bindings),
            Value::Free(_) | Value::Made(..) | Value::Fresh(_) => Ok(()),
        },
    }
}

/// Binds the leaves of each of the terms to what stands at their places in the value beside it.
#[tactic(auto, using(crate::proofs::Rows::rows))]
#[cycle(places)]
pub fn bind_row(
    terms: &Terms,
    alloc: Global,
    values: &[Value],
    bindings: &mut Bindings,
) -> Result<(), AllocError>
    ensures { OnOk result (bindings.new ≡ bindings.old ++ places_row (trees terms.now)
        (trees (map value_of values.now))) }
{
    for (index, term) in terms.items.iter().enumerate() {
        if index >= values.len() {
            return Ok(());
        }
        bind_places(term, alloc, &values[index], bindings)?;
    }
    Ok(())
}
