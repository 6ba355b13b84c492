//! Words with a number in them.

use hv_io::put_words;
use std::alloc::AllocError;

/// Puts a number, with words before and behind it.
pub(crate) fn put_numbered(
    out: &mut Vec<u8>,
    before: &str,
    number: u64,
    behind: &str,
) -> Result<(), AllocError> {
    put_words(out, format_args!("{before}{number}{behind}"))
}
