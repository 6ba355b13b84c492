//! Classes of bytes and of symbols.

ghost use Rattle.spec_certificate_text.specs.Spelled.{goes_on};
ghost use Rattle.std.specs.Prelude.{◌≡◌, ◌+◌, ◌<◌, ◌^◌, drop};
ghost use Rattle.spec_protocol_tokens.specs.Bytes.{begins_word, is_in_word};
ghost use Rattle.spec_protocol_scope.specs.Names.{is_variable};
ghost use Rattle.term_tree.specs.Bank.{symbol_of};
ghost use Rattle.spec_certificate_text.specs.Steps.{with_parts, has_arity, closing_byte, may_close, may_go_on, may_be_empty};

use clause_form::Trees;
use numerals::all_digits;
use pi_tree::MOST_ARGUMENTS;
use term_tree::Sym;

/// Whether a word may begin with the byte.
pub fn begins_word(byte: u8) -> bool
    ensures { result ≡ begins_word byte }
{
    byte.is_ascii_alphabetic() || byte == b'_'
}

/// Whether a word may go on with the byte.
pub fn is_in_word(byte: u8) -> bool
    ensures { result ≡ is_in_word byte }
{
    byte.is_ascii_alphanumeric() || byte == b'_' || byte == b'\''
}

/// What stands behind the first byte.
#[tactic(auto, using(crate::proofs::Variables::behind))]
pub fn behind_first(word: &[u8]) -> &[u8]
    ensures { result.now ≡ drop 1 word.now }
{
    if word.is_empty() { word } else { &word[1..] }
}

/// Whether the word is `v` and digits.
#[tactic(auto, using(crate::proofs::Variables::tested))]
pub fn is_variable(word: &[u8]) -> bool
    ensures { result ≡ is_variable word.now }
{
    word.len() >= 2 && word[0] == b'v' && all_digits(behind_first(word))
}

/// The symbol of so many arguments: a tuple is that of as many parts.
pub fn with_parts(symbol: Sym, parts: usize) -> Sym
    requires { parts < 2 ^ 32 }
    ensures { symbol_of result ≡ with_parts (symbol_of symbol) parts }
{
    match symbol {
        Sym::Tuple(_) => Sym::Tuple(parts as u32),
        other => other,
    }
}

/// Whether a symbol may have so many arguments.
pub fn has_arity(symbol: Sym, arity: u32, parts: usize) -> bool
    ensures { result ≡ has_arity (symbol_of symbol) arity parts }
{
    match symbol {
        Sym::Tuple(_) => parts <= MOST_ARGUMENTS,
        _ => parts == arity as usize,
    }
}

/// The byte that ends the arguments of a symbol.
pub fn closing_byte(symbol: Sym) -> u8
    ensures { result ≡ closing_byte (symbol_of symbol) }
{
    match symbol {
        Sym::Point(_) | Sym::Attacker => b']',
        _ => b')',
    }
}

/// Whether an argument behind so many others may be the last.
pub fn may_close(symbol: Sym, others: usize) -> bool
    ensures { result ≡ may_close (symbol_of symbol) (others + 1) }
{
    match symbol {
        Sym::Tuple(_) => others >= 1,
        _ => true,
    }
}

/// Whether an argument may be followed by another.
pub fn may_go_on(symbol: Sym) -> bool
    ensures { result ≡ may_go_on (symbol_of symbol) }
{
    match symbol {
        Sym::Attacker => false,
        _ => true,
    }
}

/// Whether the arguments may end before the first, where these were read.
pub fn may_be_empty(symbol: Sym, arguments: &Trees) -> bool
    ensures { result ≡ may_be_empty (symbol_of symbol) arguments.now }
{
    match symbol {
        Sym::Point(_) => arguments.items.is_empty(),
        _ => false,
    }
}

/// Whether a word could go on with the byte, or be more than a word alone.
pub fn goes_on(byte: u8) -> bool
    ensures { result ≡ goes_on byte }
{
    is_in_word(byte) || byte == b'(' || byte == b'@'
}
