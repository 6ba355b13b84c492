//! Texts of tables, in which some bytes are written in another way.
//!
//! `#` marks a place, and is no byte of the text. `/` is a line feed, and `\` a byte that is no text. `{3 ab}` is `ababab`.

use std::alloc::{AllocError, Global};

/// A byte that no text of a character has.
const NO_TEXT: u8 = 0xff;

/// A text, and the place of its mark.
#[derive(Drop)]
pub struct Text {
    pub bytes: Vec<u8>,
    pub mark: Option<usize>,
}

/// A text as far as it is read: within a repetition, where that begins, and how often it stands.
#[derive(Drop)]
struct Reader {
    bytes: Vec<u8>,
    mark: Option<usize>,
    in_count: bool,
    start: usize,
    count: u32,
}

/// The byte that stands for this one in a text.
fn meant(byte: u8) -> u8 {
    match byte {
        b'/' => b'\n',
        b'\\' => NO_TEXT,
        _ => byte,
    }
}

impl Reader {
    /// Reads the next byte.
    fn read(&mut self, alloc: Global, byte: u8) -> Result<(), AllocError> {
        if self.in_count {
            self.read_count(byte);
            return Ok(());
        }
        match byte {
            b'#' => self.set_mark(),
            b'{' => self.open(),
            b'}' => return self.close(alloc),
            _ => self.bytes.push(meant(byte))?,
        }
        Ok(())
    }

    /// Marks the place.
    fn set_mark(&mut self) {
        self.mark = Some(self.bytes.len());
    }

    /// Begins a repetition.
    fn open(&mut self) {
        self.in_count = true;
        self.count = 0;
    }

    /// Reads a digit of a count, or the space behind it.
    fn read_count(&mut self, byte: u8) {
        if byte.is_ascii_digit() {
            let digit = u32::from(byte.saturating_sub(b'0'));
            self.count = self.count.saturating_mul(10).saturating_add(digit);
        } else {
            self.in_count = false;
            self.start = self.bytes.len();
        }
    }

    /// Ends a repetition.
    fn close(&mut self, alloc: Global) -> Result<(), AllocError> {
        let repeated = behind(alloc, &self.bytes, self.start)?;
        self.bytes.truncate(self.start);
        for _ in 0..self.count {
            self.bytes.extend_from_slice(&repeated)?;
        }
        Ok(())
    }
}

/// The bytes from a place on.
fn behind(alloc: Global, bytes: &[u8], start: usize) -> Result<Vec<u8>, AllocError> {
    Vec::from_slice(alloc, bytes.get(start..).unwrap_or(&[]))
}

/// The text that is written so, behind this front.
pub fn text_of(alloc: Global, front: &[u8], written: &str) -> Result<Text, AllocError> {
    let mut reader = Reader {
        bytes: Vec::from_slice(alloc, front)?,
        mark: None,
        in_count: false,
        start: 0,
        count: 0,
    };
    for byte in written.as_bytes() {
        reader.read(alloc, *byte)?;
    }
    let Reader { bytes, mark, .. } = reader;
    Ok(Text { bytes, mark })
}

/// The bytes of the text that is written so, behind this front.
pub fn bytes_of(alloc: Global, front: &[u8], written: &str) -> Result<Vec<u8>, AllocError> {
    let Text { bytes, .. } = text_of(alloc, front, written)?;
    Ok(bytes)
}
