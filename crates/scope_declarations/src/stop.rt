//! Why the rules of scope stop.

ghost use Rattle.std.specs.Prelude.{◌≡◌, alloc_error};
ghost use Rattle.scope_declarations.specs.declared.stop.Stop.TheVariants.{Memory};

use std::alloc::{AllocError, AllocFailed};

/// Why the rules of scope refuse a file.
#[derive(Clone, Copy)]
pub enum Code {
    /// A name that is not declared, or not yet.
    Unknown,
    /// A name that is declared or bound twice.
    Twice,
    /// A wrong number of arguments.
    Arity,
    /// A name of another kind than is wanted.
    Kind,
    /// A variable on the right of a rule that does not stand on its left.
    LooseVariable,
    /// A limit is passed.
    TooMany,
    /// A query for the name of one of several restrictions.
    AmbiguousNew,
    /// A phase that is not later than the one in force, or in a query one past the greatest.
    PhaseOrder,
}

/// Why no protocol was found.
#[derive(Clone, Copy)]
pub enum Stop {
    /// A fault, and the number of its token, from 0.
    Fault(Code, usize),
    /// There is no memory for it.
    Memory(AllocError),
}

impl From<AllocError> for Stop {
    ghost from_gives = { λ error e. e ≡ Memory error };

    fn from(error: AllocError) -> Stop {
        Stop::Memory(error)
    }
}

impl<T: Drop> From<AllocFailed<T>> for Stop {
    ghost from_gives = { λ _ e. e ≡ Memory alloc_error };

    fn from(_failed: AllocFailed<T>) -> Stop {
        Stop::Memory(AllocError)
    }
}
