//! Texts that are put together part by part.

use hv_io::put_words;
use std::alloc::{AllocError, Global};

/// A text. Where there is no memory for a part, it lacks that.
#[derive(Drop)]
pub(crate) struct Text {
    bytes: Vec<u8>,
    lacks_memory: bool,
}

impl Text {
    /// The empty text.
    pub(crate) fn new(alloc: Global) -> Text {
        Text {
            bytes: Vec::new(alloc),
            lacks_memory: false,
        }
    }

    /// How many bytes are put.
    pub(crate) fn len(&self) -> usize {
        self.bytes.len()
    }

    /// Puts a letter.
    pub(crate) fn push(&mut self, letter: u8) {
        if self.bytes.push(letter).is_err() {
            self.lacks_memory = true;
        }
    }

    /// Puts these bytes.
    pub(crate) fn put(&mut self, bytes: &[u8]) {
        if self.bytes.extend_from_slice(bytes).is_err() {
            self.lacks_memory = true;
        }
    }

    /// Puts the bytes of another text.
    pub(crate) fn put_text(&mut self, other: &Text) {
        self.put(&other.bytes);
        if other.lacks_memory {
            self.lacks_memory = true;
        }
    }

    /// Puts these bytes, and a number behind them in decimal.
    pub(crate) fn put_number(&mut self, bytes: &[u8], number: u64) {
        self.put(bytes);
        if put_words(&mut self.bytes, number).is_err() {
            self.lacks_memory = true;
        }
    }

    /// Keeps so many bytes of a longer text, and two dots behind them.
    pub(crate) fn shorten(&mut self, most: usize) {
        if self.bytes.len() > most {
            self.bytes.truncate(most);
            self.put(b"..");
        }
    }

    /// Keeps so many bytes, of which the last are two dots where it is longer.
    pub(crate) fn cut(&mut self, room: usize) {
        if self.bytes.len() > room {
            self.shorten(room.saturating_sub(2));
        }
    }

    /// Puts so many blanks.
    pub(crate) fn put_blanks(&mut self, count: usize) {
        for _ in 0..count {
            self.push(b' ');
        }
    }

    /// Puts a blank, where one is wanted.
    pub(crate) fn put_gap(&mut self, is_wanted: bool) {
        if is_wanted {
            self.push(b' ');
        }
    }

    /// Notes that there was no memory for a part.
    pub(crate) fn note_lack(&mut self) {
        self.lacks_memory = true;
    }

    /// Puts the text behind another. `Err` is want of memory, for this or for a part of the text.
    pub(crate) fn append_to(&self, other: &mut Vec<u8>) -> Result<(), AllocError> {
        if self.lacks_memory {
            return Err(AllocError);
        }
        other.extend_from_slice(&self.bytes)
    }

    /// The bytes. `Err` is want of memory for a part of the text.
    pub(crate) fn finish(self) -> Result<Vec<u8>, AllocError> {
        let Text {
            bytes,
            lacks_memory,
        } = self;
        if lacks_memory {
            Err(AllocError)
        } else {
            Ok(bytes)
        }
    }
}
