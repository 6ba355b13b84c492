//! Words, numbers and places in a text.
ghost use Rattle.std.specs.Prelude.{◌≡◌, ◌≤◌, IfOk, OnOk, length};
ghost use Rattle.std.specs.Fmt.{AppendsText, decimal as decimal_of};
ghost use Rattle.hv_io.specs.Decimal.{IsDecimal};
ghost use Rattle.hv_io.specs.Place.{line_at, column_at};

use std::alloc::{AllocError, Global};
use std::fmt::Display;
use std::io::Write;

/// Puts words at the end of a text.
///
/// `Err` is want of memory, or that the words' own `fmt` fails. Nothing is said of the text then: it is to be let go.
pub fn put_words<D: Display + Drop>(text: &mut Vec<u8>, words: D) -> Result<(), AllocError>
    ensures { OnOk result (AppendsText text.old.items text.new.items (D.output words)) }
{
    match text.write_fmt(words) {
        Ok(()) => Ok(()),
        Err(_) => Err(AllocError),
    }
}

/// The decimal digits of `number`, without leading zero.
pub fn decimal(alloc: Global, number: u64) -> Result<Vec<u8>, AllocError>
    ensures printed { IfOk result (λ digits. digits.items ≡ decimal_of number) }
    ensures spelled { IfOk result (λ digits. IsDecimal number digits.items) }
{
    Ok(format!(in alloc; "{number}")?.into_bytes())
}

/// The line and the column of the byte at `at`, both counted from 1 in bytes.
pub fn place(bytes: &[u8], at: usize) -> (u64, u64)
    requires { at ≤ length bytes.now }
    ensures line { result.0 ≡ line_at bytes.now at }
    ensures column { result.1 ≡ column_at bytes.now at }
{
    let mut line = 1;
    let mut column = 1;
    for byte in &bytes[..at] {
        if *byte == b'\n' {
            line += 1;
            column = 1;
        } else {
            column += 1;
        }
    }
    (line, column)
}
