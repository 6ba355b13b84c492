//! Bytes cut at a separator.

ghost use Rattle.std.specs.Prelude.{◌≡◌, ◌<◌, ◌≤◌, ◌==◌, length, IfSome, option_copied};
ghost use Rattle.std.specs.List.{before_first, position_or_len};
ghost use Rattle.run_replay.specs.Cut.{behind_first};

/// How many bytes stand before the first separator, or how many there are where there is none.
fn size_before(bytes: &[u8], separator: u8) -> usize
    ensures found { result ≡ position_or_len (λ b. b == separator) bytes.now }
    ensures within { result ≤ length bytes.now }
{
    bytes.iter().take_while(|byte| **byte != separator).count()
}

/// What stands before the first separator, and what stands behind it, if there is one.
#[tactic(auto, using(crate::proofs::Cutting::behind_slice, crate::proofs::Cutting::behind_none))]
pub fn cut(bytes: &[u8], separator: u8) -> (&[u8], Option<&[u8]>)
    ensures front { result.0.now ≡ before_first (λ b. b == separator) bytes.now }
    ensures behind { option_copied result.1 ≡ behind_first (λ b. b == separator) bytes.now }
    ensures shorter { IfSome result.1 (λ rest. length rest.now < length bytes.now) }
{
    let size = size_before(bytes, separator);
    if size < bytes.len() {
        (&bytes[..size], Some(&bytes[size + 1..]))
    } else {
        (bytes, None)
    }
}
