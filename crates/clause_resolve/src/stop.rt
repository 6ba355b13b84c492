//! Why no clause was made of a pair.

ghost use Rattle.std.specs.Prelude.{◌≡◌, alloc_error};
ghost use Rattle.clause_resolve.specs.declared.stop.Stop.TheVariants.{Memory};

use std::alloc::{AllocError, AllocFailed};

/// Why no clause was made of a pair.
#[derive(Clone, Copy)]
pub enum Stop {
    /// It would have more symbols than the limit.
    Large,
    /// There is no memory for it.
    Memory(AllocError),
}

impl From<AllocError> for Stop {
    ghost from_gives = { λ error stop. stop ≡ Memory error };

    fn from(error: AllocError) -> Stop {
        Stop::Memory(error)
    }
}

impl<T: Drop> From<AllocFailed<T>> for Stop {
    ghost from_gives = { λ _ stop. stop ≡ Memory alloc_error };

    fn from(_failed: AllocFailed<T>) -> Stop {
        Stop::Memory(AllocError)
    }
}
