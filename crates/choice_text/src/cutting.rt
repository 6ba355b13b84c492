//! Lines cut off a text.

ghost use Rattle.std.specs.Prelude.{◌≡◌, ◌<◌, ◌≤◌, ◌==◌, ◌∷◌, length};
ghost use Rattle.std.specs.List.{position_or_len};
ghost use Rattle.choice_text.specs.Lines.{whole_lines, line_size};

/// How many bytes stand before the first line feed, or how many there are where there is none.
fn size_before(bytes: &[u8]) -> usize
    ensures found { result ≡ position_or_len (λ b. b == 10) bytes.now }
    ensures within { result ≤ length bytes.now }
{
    bytes.iter().take_while(|byte| **byte != b'\n').count()
}

/// How many bytes the first line has, with its line feed.
#[tactic(auto, using(crate::proofs::Cuts::size_with_end, crate::proofs::Cuts::size_without))]
fn line_size(bytes: &[u8]) -> usize
    ensures is { result ≡ line_size bytes.now }
    ensures within { result ≤ length bytes.now }
{
    let before = size_before(bytes);
    if before < bytes.len() {
        before + 1
    } else {
        before
    }
}

/// The first line, with its line feed, and what stands behind it.
#[tactic(auto, using(crate::proofs::Cuts::lines_cut, crate::proofs::Cuts::size_positive))]
pub(crate) fn cut_line(bytes: &[u8]) -> (&[u8], &[u8])
    requires some { 0 < length bytes.now }
    ensures cut { whole_lines bytes.now ≡ result.0.now ∷ whole_lines result.1.now }
    ensures shorter { length result.1.now < length bytes.now }
{
    let size = line_size(bytes);
    (&bytes[..size], &bytes[size..])
}
