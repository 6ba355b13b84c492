//! Why tokens have no sketch.

ghost use Rattle.std.specs.Prelude.{◌≡◌, if◌then◌else◌, alloc_error};
ghost use Rattle.pi_parser.specs.declared.error.Fault.TheVariants as fault;

use std::alloc::{AllocError, AllocFailed};
use thiserror::Error;

/// Why the tokens of a file have no sketch. A place is the number of a byte, from 0: where the token begins, or the
/// length of the file at its end.
#[derive(Debug, Drop, Error)]
pub enum ParseError {
    /// No file of the grammar goes on with the token at this place.
    #[error("the token at byte {0} is unexpected")]
    Unexpected(usize),
    /// The token at this place begins the first construct that would stand below the last level.
    #[error("what begins at byte {0} stands too deep")]
    TooDeep(usize),
    /// There is no memory for the sketch.
    #[error("want of memory")]
    Memory(AllocError),
}

/// The same, with the number of the token, from 0, or the number of tokens at their end.
#[derive(Drop)]
pub enum Fault {
    /// The token is unexpected.
    Unexpected(usize),
    /// The token begins a construct that would stand too deep.
    TooDeep(usize),
    /// There is no memory.
    Memory(AllocError),
}

impl From<AllocError> for Fault {
    ghost from_gives = { λ error e. e ≡ fault.Memory error };

    fn from(error: AllocError) -> Fault {
        Fault::Memory(error)
    }
}

impl<T: Drop> From<AllocFailed<T>> for Fault {
    ghost from_gives = { λ _ e. e ≡ fault.Memory alloc_error };

    fn from(_failed: AllocFailed<T>) -> Fault {
        Fault::Memory(AllocError)
    }
}

/// The fault of a word below the last level: something begins there that would stand too deep, or the word is
/// unexpected.
pub fn lowest(begins: bool, at: usize) -> Fault
    ensures { result ≡ (if begins then fault.TooDeep at else fault.Unexpected at) }
{
    if begins {
        Fault::TooDeep(at)
    } else {
        Fault::Unexpected(at)
    }
}
