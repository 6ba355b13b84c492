//! What is bound where a term or process stands.

ghost use Rattle.std.specs.Prelude.{◌≡◌, ◌≤◌, ◌∷◌, [], ◌++◌, None, length, map, option_map, OnOk};
ghost use Rattle.spec_protocol_scope.specs.Names as rules;
ghost use Rattle.scope_declarations.specs.Bound.{name_of, binding_of, bound_of, FindsBindings, FindsBound};
ghost use Rattle.scope_declarations.specs.Within.{most_bound};
ghost use Rattle.scope_declarations.specs.Text.{texts_of};
ghost use Rattle.scope_declarations.specs.declared.source.Text.{Text};

use crate::source::Text;
use crate::text::{same_text, text_of};
use std::alloc::{AllocError, Global};
use std::collections::HashMap;

/// What an identifier is bound to.
#[derive(Clone, Copy)]
pub enum BoundName {
    /// The variable of that number.
    Variable(u32),
    /// The name of the restriction at that point.
    Made(u32),
}

/// An identifier that is bound, by its token.
#[derive(Clone, Copy)]
pub struct Binding {
    pub token: usize,
    pub name: BoundName,
}

/// What a pattern binds, in order, and what each identifier is bound to, found by the hash of its word. Its `drop` is
/// written out, so that it is one call wherever bindings are let go.
pub struct Bindings {
    pub items: Vec<Binding>,
    pub names: HashMap<Vec<u8>, BoundName>,
}

impl Drop for Bindings {
    fn drop(self) {
        let Bindings { items, names } = self;
        drop(items);
        drop(names);
    }
}

impl Bindings {
    /// Nothing. Takes no memory.
    pub fn new(alloc: Global) -> Self
        ensures items { result.items.items ≡ [] }
        ensures finds { (t : Text) → FindsBindings t result }
    {
        Bindings {
            items: Vec::new(alloc),
            names: HashMap::new(alloc),
        }
    }
}

/// All that is bound at a place.
#[derive(Clone, Copy)]
pub enum Bound<'a> {
    /// Nothing.
    Nothing,
    /// What a restriction binds, and all that is bound outside of it.
    One(Binding, &'a Bound<'a>),
    /// What a pattern binds, and all that is bound outside of it.
    Inside(&'a Bindings, &'a Bound<'a>),
}

/// How many identifiers these are: no more than the tokens, and one.
pub fn count_of(whole: &Text, bindings: &Bindings) -> u32
    requires { FindsBindings whole.now bindings.now }
    ensures count { result ≡ length bindings.now.items.items }
    ensures few { result ≤ most_bound }
{
    bindings.items.len() as u32
}

/// What one of these binds the identifier to.
pub fn bound_by(whole: &Text, bindings: &Bindings, token: usize) -> Option<BoundName>
    requires { FindsBindings whole.now bindings.now }
    ensures { option_map name_of result ≡ rules.bound_as (texts_of whole.now)
        (map binding_of bindings.now.items.items) token }
{
    bindings.names.get(text_of(whole, token)).copied()
}

/// Binds an identifier that is not bound yet.
pub fn bind(
    bindings: &mut Bindings,
    alloc: Global,
    whole: &Text,
    binding: Binding,
) -> Result<(), AllocError>
    requires finds { FindsBindings whole.now bindings.old }
    requires fresh { rules.bound_as (texts_of whole.now) (map binding_of bindings.old.items.items)
        binding.token ≡ None }
    ensures items { OnOk result
        (bindings.new.items.items ≡ bindings.old.items.items ++ binding ∷ []) }
    ensures finds { OnOk result (FindsBindings whole.now bindings.new) }
{
    let word = Vec::from_slice(alloc, text_of(whole, binding.token))?;
    bindings.names.insert(word, binding.name)?;
    bindings.items.push(binding)?;
    Ok(())
}

/// What the identifier is bound to, the innermost first.
pub fn bound_as(bound: &Bound, whole: &Text, token: usize) -> Option<BoundName>
    requires { FindsBound whole.now bound.now }
    ensures { option_map name_of result ≡ rules.bound_as (texts_of whole.now) (bound_of bound.now)
        token }
{
    match bound {
        Bound::Nothing => None,
        Bound::One(binding, outer) => {
            if same_text(whole, binding.token, token) {
                Some(binding.name)
            } else {
                bound_as(outer, whole, token)
            }
        }
        Bound::Inside(bindings, outer) => match bound_by(whole, bindings, token) {
            Some(name) => Some(name),
            None => bound_as(outer, whole, token),
        },
    }
}
