//! Texts that are put together part by part.

use hv_io::put_words;
use std::alloc::{AllocError, Global};

/// A text. Where there is no memory for a part, it lacks that.
#[derive(Drop)]
pub(crate) struct Text {
    bytes: Vec<u8>,
    lacks_memory: bool,
}

impl Text {
    /// The empty text.
    pub(crate) fn new(alloc: Global) -> Text {
        Text {
            bytes: Vec::new(alloc),
            lacks_memory: false,
        }
    }

    /// Puts these bytes.
    pub(crate) fn put(&mut self, bytes: &[u8]) {
        if self.bytes.extend_from_slice(bytes).is_err() {
            self.lacks_memory = true;
        }
    }

    /// Puts a number in decimal.
    pub(crate) fn put_number(&mut self, number: u64) {
        if put_words(&mut self.bytes, number).is_err() {
            self.lacks_memory = true;
        }
    }

    /// Puts a number in decimal, behind blanks that fill a column.
    pub(crate) fn put_column(&mut self, number: u64) {
        if put_words(&mut self.bytes, format_args!("{number:5}")).is_err() {
            self.lacks_memory = true;
        }
    }

    /// Puts a comma, but not behind a bracket.
    pub(crate) fn put_separator(&mut self) {
        let is_first = matches!(self.bytes.last(), Some(b'(' | b'['));
        if !is_first {
            self.put(b",");
        }
    }

    /// Whether nothing is put.
    pub(crate) fn is_empty(&self) -> bool {
        self.bytes.is_empty()
    }

    /// Puts the text behind another. `Err` is want of memory, for this or for a part of the text.
    pub(crate) fn append_to(&self, other: &mut Vec<u8>) -> Result<(), AllocError> {
        if self.lacks_memory {
            return Err(AllocError);
        }
        other.extend_from_slice(&self.bytes)
    }
}
