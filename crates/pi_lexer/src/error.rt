//! Why bytes have no tokens.

ghost use Rattle.std.specs.Prelude.{◌≡◌, alloc_error};
ghost use Rattle.pi_lexer.specs.declared.error.LexError.TheVariants.{Memory};

use std::alloc::{AllocError, AllocFailed};
use thiserror::Error;

/// Why the bytes of a file have no tokens. A place is the number of a byte, from 0.
#[derive(Debug, Drop, Error)]
pub enum LexError {
    /// No token begins with the byte at this place.
    #[error("no token begins at byte {0}")]
    BadByte(usize),
    /// The comment that begins at this place has no end.
    #[error("the comment at byte {0} has no end")]
    OpenComment(usize),
    /// The number that begins at this place has more digits than the limit.
    #[error("the number at byte {0} is too long")]
    LongNumber(usize),
    /// There is no memory for the tokens.
    #[error("want of memory")]
    Memory(AllocError),
}

impl<T: Drop> From<AllocFailed<T>> for LexError {
    ghost from_gives = { λ _ e. e ≡ Memory alloc_error };

    fn from(_failed: AllocFailed<T>) -> LexError {
        LexError::Memory(AllocError)
    }
}
