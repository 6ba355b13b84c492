//! The values that the attacker knows.

ghost use Rattle.std.specs.Prelude.{◌≡◌, [], ◌∷◌, ◌++◌, Contains, IfSome, OnOk, OnErr};
ghost use Rattle.pi_tree.specs.Values.{value_of};

use crate::hashes::value_hash;
use pi_tree::Value;
use std::alloc::{AllocError, Global};
use std::collections::HashMap;
use std::marker::Model;

/// Values in order; they are numbered from 1. Contracts see this list alone.
///
/// Beside it stands where a value of each hash was added last. It only tells where to look first: nothing rests on it,
/// and what isn't found there is looked for in all of the list.
pub struct Known {
    pub items: Vec<Value>,
    latest: HashMap<u64, usize>,
}

impl Drop for Known {
    fn drop(self) {
        let Known { items, latest } = self;
        drop(items);
        drop(latest);
    }
}

impl Model for Known {
    ghost use Rattle.std.specs.Prelude.{List, map};
    ghost use Rattle.spec_calculus.specs.Values as calculus;
    ghost use Rattle.spec_calculus.specs.Codes.{coded_values};

    ghost Value = { List calculus.Value };

    ghost coded = { coded_values };

    ghost use Rattle.pi_tree.specs.Values.{value_of};

    ghost view = { λ a. map value_of a.items.items };
}

impl Known {
    /// Nothing known. Takes no memory.
    pub fn new(alloc: Global) -> Self
        ensures { result ≡ [] }
    {
        Known {
            items: Vec::new(alloc),
            latest: HashMap::new(alloc),
        }
    }

    /// One more value, at the end.
    pub fn push(&mut self, value: Value) -> Result<(), AllocError>
        ensures pushed { OnOk result (self.new ≡ self.old ++ value_of value ∷ []) }
        ensures unchanged { OnErr result (self.new ≡ self.old) }
    {
        self.latest.insert(value_hash(&value), self.items.len())?;
        self.items.push(value)?;
        Ok(())
    }

    /// The value of that hash that was added last, if one is found.
    pub fn latest_of(&self, hash: u64) -> Option<&Value>
        ensures { IfSome result (λ v. Contains self.now (value_of v.now)) }
    {
        let index = self.latest.get(&hash)?;
        self.items.get(*index)
    }
}
