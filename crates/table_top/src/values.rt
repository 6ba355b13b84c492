//! What command lines and the texts of runs are read as.

use command_words::read_words;
use run_replay::read_run;
use std::alloc::{AllocError, Global};

/// The request that the words make.
pub fn request(alloc: Global, words: &[String]) -> Result<String, AllocError> {
    let request = read_words(alloc, words)?;
    format!(in alloc; "{request:?}")
}

/// The steps that the run spells, or why it spells none, and at which line.
pub fn steps(alloc: Global, run: &[u8]) -> Result<String, AllocError> {
    match read_run(alloc, run) {
        Ok(steps) => format!(in alloc; "{:?}", steps.items),
        Err(error) => format!(in alloc; "refused {error:?}"),
    }
}
