//! Where a term of a process stands.

ghost use Rattle.scope_declarations.specs.Bound.{FindsBound};
ghost use Rattle.scope_declarations.specs.BoundProps.{bound_props};

use crate::bound::Bound;
use crate::scope::Scope;

/// Where a term of a process stands: what names are read by, and what is bound there.
#[derive(Clone, Copy)]
pub struct Place<'a, 'b> {
    pub scope: Scope<'a>,
    pub bound: &'b Bound<'b>,
    ghost finds: { FindsBound scope.text bound.now } by { Prim.hlevel bound_props },
}
