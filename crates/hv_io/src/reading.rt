//! Bytes that are read from a source, in as many reads as it asks for.
ghost use Rattle.std.specs.Prelude.{◌≡◌, ◌+◌, ◌≤◌, ℕ, List, ◌++◌, IfOk, OnOk, vec_len};
ghost use Rattle.std.specs.Io.Take.{take_limit, take_remaining};
ghost use Rattle.std.specs.Io.KnownBytes.{Consumes, IsAtEnd};
ghost use Rattle.hv_io.specs.Files.{HoldsFirst};

use crate::loading::LoadError;
use std::alloc::Global;
use std::io::{Read, Take};

/// How many bytes are asked for at once, at most.
const PIECE: usize = 4096;

/// The first bytes that the source will give: `most` of them, or all where there are fewer. It is asked for no more, and
/// there are fewer only where a read gave none.
///
/// # Errors
///
/// [`LoadError::Failed`] where a read fails.
pub fn read_first<R: Read + Drop>(
    alloc: Global,
    source: R,
    most: usize,
) -> Result<Vec<u8>, LoadError>
    ensures first { IfOk result (λ bytes. HoldsFirst most (R.remaining source) bytes.items) }
    ensures within { IfOk result (λ bytes. vec_len bytes ≤ most) }
{
    let mut limited = source.take(most as u64);
    let mut bytes = Vec::new(alloc);
    while read_piece(&mut limited, &mut bytes)? > 0 {}
    Ok(bytes)
}

/// Puts behind the bytes what one read gives, and says how many that are.
fn read_piece<R: Read>(source: &mut Take<R>, bytes: &mut Vec<u8>) -> Result<usize, LoadError>
    ensures count { IfOk result (λ n. take_limit source.new + n ≡ take_limit source.old) }
    ensures longer { IfOk result (λ n. vec_len bytes.new ≡ vec_len bytes.old + n) }
    ensures given { OnOk result ((given : List ℕ) ×
        (bytes.new.items ≡ bytes.old.items ++ given) ×
        Consumes (take_remaining R.remaining source.old) (take_remaining R.remaining source.new)
        given) }
    ensures end { IfOk result (λ n. n ≡ 0 →
        IsAtEnd (take_remaining R.remaining source.new)) }
{
    let mut piece = [0; PIECE];
    let Ok(given) = source.read(&mut piece) else {
        return Err(LoadError::Failed);
    };
    bytes.extend_from_slice(&piece[..given])?;
    Ok(given)
}
