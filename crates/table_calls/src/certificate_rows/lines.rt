//! Reports in which one line is another than it was.

use std::alloc::{AllocError, Global};

/// How a line is changed: it stands nowhere, twice, or behind the next.
#[derive(Clone, Copy)]
pub enum Change {
    LeftOut,
    Doubled,
    Exchanged,
}

/// How many lines the bytes have.
pub fn line_count(bytes: &[u8]) -> usize {
    bytes.iter().filter(|byte| **byte == b'\n').count()
}

/// The bytes with the line of this number changed, which is counted from 0.
pub fn changed(
    alloc: Global,
    bytes: &[u8],
    number: usize,
    change: Change,
) -> Result<Vec<u8>, AllocError> {
    let mut all = Vec::new(alloc);
    let mut held: &[u8] = &[];
    for (index, line) in bytes.split_inclusive(|byte| *byte == b'\n').enumerate() {
        if index == number {
            held = put_changed(&mut all, line, change)?;
        } else {
            put_both(&mut all, line, held)?;
            held = &[];
        }
    }
    all.extend_from_slice(held)?;
    Ok(all)
}

/// Adds a line that is changed so; what is to stand behind the next one.
fn put_changed<'a>(
    all: &mut Vec<u8>,
    line: &'a [u8],
    change: Change,
) -> Result<&'a [u8], AllocError> {
    match change {
        Change::LeftOut => Ok(&[]),
        Change::Exchanged => Ok(line),
        Change::Doubled => {
            put_both(all, line, line)?;
            Ok(&[])
        }
    }
}

/// Adds a line, and another one behind it.
fn put_both(all: &mut Vec<u8>, line: &[u8], behind: &[u8]) -> Result<(), AllocError> {
    all.extend_from_slice(line)?;
    all.extend_from_slice(behind)
}
