//! What a thread has bound: its variables, and the names that its restrictions made.

ghost use Rattle.std.specs.Prelude.{◌≡◌, [], ◌∷◌, ◌++◌, option_map, IfOk, OnOk, OnErr};
ghost use Rattle.std.specs.Rc.{rc_value};
ghost use Rattle.spec_calculus.specs.Values.{bound_to};
ghost use Rattle.pi_tree.specs.Values.{value_of};
ghost use Rattle.pi_tree.specs.Slots.{name_of};

use pi_tree::{Slot, Value};
use std::alloc::{AllocError, Global};
use std::marker::Model;
use std::rc::Rc;

/// A slot with what it is bound to, which copies of an environment share.
#[derive(Debug)]
struct Binding {
    slot: Slot,
    value: Rc<Value>,
}

impl Drop for Binding {
    fn drop(self) {
        let Binding { slot, value } = self;
        drop(slot);
        drop(value);
    }
}

/// Slots with what they are bound to, in the order in which they were bound; of two of one slot the
/// earlier counts. Copies share the values.
#[derive(Debug)]
pub struct Environment {
    items: Vec<Binding>,
}

impl Drop for Environment {
    fn drop(self) {
        let Environment { items } = self;
        drop(items);
    }
}

impl Model for Environment {
    ghost use Rattle.std.specs.Prelude.{map};
    ghost use Rattle.spec_calculus.specs.Values as calculus;
    ghost use Rattle.spec_calculus.specs.Codes.{coded_environment};

    ghost Value = { calculus.Environment };

    ghost coded = { coded_environment };

    ghost use Rattle.term_values.specs.Bindings.{binding_of};

    ghost view = { λ a. map binding_of a.items.items };
}

impl Environment {
    /// Nothing bound.
    pub fn new(alloc: Global) -> Self
        ensures { result ≡ [] }
    {
        Environment {
            items: Vec::new(alloc),
        }
    }

    /// What the slot is bound to, if it is, for those who go on to share it.
    pub(crate) fn shared(&self, slot: Slot) -> Option<&Rc<Value>>
        ensures { option_map (λ v. value_of (rc_value v.now)) result ≡
            bound_to self.now (name_of slot) }
    {
        for binding in &self.items {
            if binding.slot.is(slot) {
                return Some(&binding.value);
            }
        }
        None
    }

    /// What the slot is bound to, if it is.
    pub fn look_up(&self, slot: Slot) -> Option<&Value>
        ensures { option_map (λ v. value_of v.now) result ≡ bound_to self.now (name_of slot) }
    {
        match self.shared(slot) {
            None => None,
            Some(value) => Some(value.as_ref()),
        }
    }

    /// One more binding, at the end, to a value that others may have too. On `Err` there is none more.
    pub(crate) fn bind_shared(&mut self, slot: Slot, value: Rc<Value>) -> Result<(), AllocError>
        ensures ok { OnOk result (self.new ≡ self.old ++ record
            { name = name_of slot; value = value_of (rc_value value) } ∷ []) }
        ensures err { OnErr result (self.new ≡ self.old) }
    {
        self.items.push(Binding { slot, value })?;
        Ok(())
    }

    /// One more binding, at the end. On `Err` there is none more.
    pub fn bind(&mut self, slot: Slot, value: Value) -> Result<(), AllocError>
        ensures ok { OnOk result (self.new ≡ self.old ++ record
            { name = name_of slot; value = value_of value } ∷ []) }
        ensures err { OnErr result (self.new ≡ self.old) }
    {
        let value = Rc::new(*self.items.allocator(), value)?;
        self.bind_shared(slot, value)
    }

    /// A copy, which shares the values.
    pub fn copy(&self, alloc: Global) -> Result<Environment, AllocError>
        ensures { IfOk result (λ copied. copied ≡ self.now) }
    {
        let mut items = Vec::with_capacity(alloc, self.items.len())?;
        for binding in &self.items {
            let value = binding.value.clone()?;
            let slot = binding.slot;
            items.push(Binding { slot, value })?;
        }
        Ok(Environment { items })
    }

    /// A copy with more bindings at its end.
    pub fn extended(
        &self,
        alloc: Global,
        mut bindings: Environment,
    ) -> Result<Environment, AllocError>
        ensures { IfOk result (λ whole. whole ≡ self.now ++ bindings) }
    {
        let mut whole = self.copy(alloc)?;
        whole.items.append(&mut bindings.items)?;
        Ok(whole)
    }
}
