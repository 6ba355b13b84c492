//! Why bytes spell no run.

ghost use Rattle.std.specs.Prelude.{◌≡◌, alloc_error};
ghost use Rattle.run_replay.specs.declared.error.RunError.TheVariants.{Memory};

use std::alloc::{AllocError, AllocFailed};
use thiserror::Error;

/// Why the bytes of a file spell no run. A line is given by its number, from 1.
#[derive(Debug, Drop, Error)]
pub enum RunError {
    /// The first word of the line is that of no step.
    #[error("line {0} begins with the word of no step")]
    Word(u64),
    /// The line has another count of numbers than the step of its word, or something that is no
    /// decimal number within the limit of digits, without leading zero, where a number should stand.
    #[error("line {0} has not the numbers of its step")]
    Number(u64),
    /// The line has more bytes than the limit.
    #[error("line {0} has more than 256 bytes")]
    LongLine(u64),
    /// There is no memory for the steps.
    #[error("want of memory")]
    Memory(AllocError),
}

impl From<AllocError> for RunError {
    ghost from_gives = { λ _ e. e ≡ Memory alloc_error };

    fn from(_error: AllocError) -> RunError {
        RunError::Memory(AllocError)
    }
}

impl<T: Drop> From<AllocFailed<T>> for RunError {
    ghost from_gives = { λ _ e. e ≡ Memory alloc_error };

    fn from(_failed: AllocFailed<T>) -> RunError {
        RunError::Memory(AllocError)
    }
}
