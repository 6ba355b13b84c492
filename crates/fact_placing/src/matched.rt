//! A constraint of the general clause under the bindings of a match.

ghost use Rattle.std.specs.Prelude.{◌≡◌, None, nat_lt, cond};
ghost use Rattle.unify_match.specs.Trail.{id_of};

use std::alloc::Global;
use term_tree::Id;
use unify_match::Binds;

/// What terms of a constraint are taken under: the bank that they stand in, the bindings, and the number from which on variables
/// are bound by the constraint. In a copy they are bound from `next` on.
#[derive(Drop)]
pub(crate) struct Matched<'a, B> {
    pub alloc: Global,
    pub bank: &'a B,
    pub binds: &'a Binds,
    pub first: u32,
    pub next: u32,
}

/// The term that a variable is bound to, if it is the clause's and is bound. Takes no memory.
pub(crate) fn value_of<B>(from: &Matched<'_, B>, number: u32) -> Option<Id>
    ensures { result ≡ cond (nat_lt number from.now.first)
        (id_of from.now.binds.now.pairs number) None }
{
    if number < from.first {
        return from.binds.look(number);
    }
    None
}
