//! Texts of tables, in which some bytes are written with a backslash, and command lines.

use std::alloc::{AllocError, Global};

/// The bytes that stand behind a backslash, and how they are written there.
const ESCAPES: [(&str, u8); 4] = [("n", b'\n'), ("r", b'\r'), ("t", b'\t'), ("x80", 0x80)];

/// The words of a line, cut at each blank.
pub fn words_of(alloc: Global, line: &str) -> Result<Vec<String>, AllocError> {
    let mut words = Vec::new(alloc);
    for word in line.split(' ') {
        words.push(String::from_str(alloc, word)?)?;
    }
    Ok(words)
}

/// The bytes that a text stands for.
pub fn bytes_of(alloc: Global, text: &str) -> Result<Vec<u8>, AllocError> {
    let mut bytes = Vec::new(alloc);
    let (first, behind) = text.split_once('\\').unwrap_or((text, ""));
    bytes.extend_from_slice(first.as_bytes())?;
    for piece in behind.split('\\') {
        add_escaped(&mut bytes, piece)?;
    }
    Ok(bytes)
}

/// Adds the byte that is written at the beginning of what stands behind a backslash, and what follows it.
fn add_escaped(bytes: &mut Vec<u8>, piece: &str) -> Result<(), AllocError> {
    for (name, byte) in ESCAPES {
        if let Some(behind) = piece.strip_prefix(name) {
            bytes.push(byte)?;
            return bytes.extend_from_slice(behind.as_bytes());
        }
    }
    bytes.extend_from_slice(piece.as_bytes())
}
