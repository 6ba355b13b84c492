//! Numbers, and the columns of a line.

use hv_io::put_words;
use std::alloc::AllocError;

/// The width of the column of an entry's number.
pub(crate) const NUMBER_WIDTH: usize = 6;

/// Puts the digits of a number.
fn put_number(out: &mut Vec<u8>, number: usize) -> Result<(), AllocError> {
    put_words(out, format_args!("{number}"))
}

/// Puts a number, with words before and behind it.
pub(crate) fn put_numbered(
    out: &mut Vec<u8>,
    before: &[u8],
    number: usize,
    behind: &[u8],
) -> Result<(), AllocError> {
    out.extend_from_slice(before)?;
    put_number(out, number)?;
    out.extend_from_slice(behind)
}

/// Puts a blank, and further ones up to the column, counted from where the line or its part begins.
pub(crate) fn put_blanks(out: &mut Vec<u8>, begin: usize, column: usize) -> Result<(), AllocError> {
    out.push(b' ')?;
    for _ in out.len().saturating_sub(begin)..column {
        out.push(b' ')?;
    }
    Ok(())
}

/// Puts a column of that width: words, and a number behind them.
pub(crate) fn put_column(
    out: &mut Vec<u8>,
    words: &[u8],
    number: usize,
    width: usize,
) -> Result<(), AllocError> {
    let begin = out.len();
    put_numbered(out, words, number, b"")?;
    put_blanks(out, begin, width)
}
