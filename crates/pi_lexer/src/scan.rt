//! How far words, numbers, comments and symbols go.

ghost use Rattle.std.specs.Prelude.{◌≡◌, ◌≤◌, length, IfSome};
ghost use Rattle.std.specs.List.{prefix_len};
ghost use Rattle.std.specs.Char.{is_ascii_digit};
ghost use Rattle.spec_protocol_tokens.specs.Bytes.{is_blank, begins_word, is_in_word, symbols};
ghost use Rattle.spec_protocol_tokens.specs.Piece.{closed_after, longest_front};

/// Whether the byte is white space: a space, a tab, a carriage return or a line feed.
pub fn is_blank(byte: u8) -> bool
    ensures { result ≡ is_blank byte }
{
    matches!(byte, b' ' | b'\t' | b'\r' | b'\n')
}

/// Whether a word begins with the byte: a letter or `_`.
pub fn begins_word(byte: u8) -> bool
    ensures { result ≡ begins_word byte }
{
    byte.is_ascii_alphabetic() || byte == b'_'
}

/// Whether a word goes on with the byte: a letter, a digit, `_` or `'`.
pub fn is_in_word(byte: u8) -> bool
    ensures { result ≡ is_in_word byte }
{
    byte.is_ascii_alphanumeric() || byte == b'_' || byte == b'\''
}

/// How many bytes at the front a word goes on with.
pub fn word_len(bytes: &[u8]) -> usize
    ensures { result ≡ prefix_len is_in_word bytes.now }
{
    bytes.iter().take_while(|byte| is_in_word(**byte)).count()
}

/// How many digits stand at the front.
pub fn digits_len(bytes: &[u8]) -> usize
    ensures { result ≡ prefix_len is_ascii_digit bytes.now }
{
    bytes
        .iter()
        .take_while(|byte| byte.is_ascii_digit())
        .count()
}

/// How many bytes there are up to and with the first `*)`, if there is one.
#[tactic(auto, using(spec_protocol_tokens::proofs::Closing::option_map_zero, spec_protocol_tokens::proofs::Closing::closed_after_more, spec_protocol_tokens::proofs::Closing::closed_after_here))]
pub fn closed_after(bytes: &[u8]) -> Option<usize>
    ensures found { result ≡ closed_after bytes.now }
    ensures within { IfSome result (λ n. n ≤ length bytes.now) }
{
    for i in 0..bytes.len() {
        let rest = &bytes[i..];
        if rest.starts_with(b"*)") {
            return Some(i + 2);
        }
    }
    None
}

/// How many bytes the longest symbol at the front has; 0 where none stands there.
pub fn symbol_len(bytes: &[u8]) -> usize
    ensures { result ≡ longest_front symbols bytes.now }
{
    match bytes {
        [b'=', b'=', b'>', ..] => 3,
        [b'|', b'|', ..] | [b'&', b'&', ..] | [b'-', b'>', ..] => 2,
        [
            b'(' | b')' | b',' | b';' | b'.' | b'/' | b'=' | b'|' | b'!',
            ..
        ] => 1,
        _ => 0,
    }
}
