//! The reserved words.

ghost use Rattle.std.specs.Prelude.{◌≡◌};
ghost use Rattle.std.specs.Str.{bytes_eq};
ghost use Rattle.spec_protocol_tokens.specs.Bytes.{is_reserved};

fn is(word: &[u8], reserved: &[u8]) -> bool
    ensures { result ≡ bytes_eq word.now reserved.now }
{
    word == reserved
}

/// Whether the word is reserved.
pub fn is_reserved(word: &[u8]) -> bool
    ensures { result ≡ is_reserved word.now }
{
    is(word, b"private")
        || is(word, b"free")
        || is(word, b"fun")
        || is(word, b"data")
        || is(word, b"reduc")
        || is(word, b"event")
        || is(word, b"query")
        || is(word, b"attacker")
        || is(word, b"new")
        || is(word, b"false")
        || is(word, b"let")
        || is(word, b"in")
        || is(word, b"out")
        || is(word, b"if")
        || is(word, b"then")
        || is(word, b"else")
        || is(word, b"process")
        || is(word, b"phase")
        || is(word, b"table")
        || is(word, b"insert")
        || is(word, b"get")
        || is(word, b"suchthat")
}
