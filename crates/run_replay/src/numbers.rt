//! The numbers of a line.

ghost use Rattle.std.specs.Prelude.{◌≡◌, option_map, option_copied, IfOk};
ghost use Rattle.spec_run_text.specs.Reading.{numerals};
ghost use Rattle.run_replay.specs.Cut.{fields_of};

use crate::cut::cut;
use numerals::number;
use std::alloc::{AllocError, Global};

/// The numbers behind the first space of a line, which stand between spaces; `None` where one of the fields is
/// no number.
pub fn numbers(alloc: Global, behind: Option<&[u8]>) -> Result<Option<Vec<u32>>, AllocError>
    ensures { IfOk result (λ found. option_map (λ v. v.items) found ≡
        numerals (fields_of (option_copied behind.entry))) }
{
    let mut numbers = Vec::new(alloc);
    let mut rest = behind;
    while let Some(fields) = rest {
        let (field, later) = cut(fields, b' ');
        let Some(n) = number(field) else {
            return Ok(None);
        };
        numbers.push(n)?;
        rest = later;
    }
    Ok(Some(numbers))
}
