//! What stands at the front of some bytes.

ghost use Rattle.std.specs.Prelude.{◌≡◌, ◌<◌, ◌≤◌, length, drop};
ghost use Rattle.std.specs.List.{prefix_len};
ghost use Rattle.spec_protocol_tokens.specs.Bytes.{is_in_word};
ghost use Rattle.spec_protocol_tokens.specs.Piece.{piece, piece_from, word_of, word_kind, number_of, comment_of, symbol_of, closed_after};
ghost use Rattle.spec_protocol_tokens.specs.Laws.{FitsIn};
ghost use Rattle.pi_lexer.specs.Token.{kind_of};
ghost use Rattle.pi_lexer.specs.Piece.{piece_of};

use crate::reserved::is_reserved;
use crate::scan::{begins_word, closed_after, digits_len, is_blank, symbol_len, word_len};
use crate::token::TokenKind;
use limits::MOST_DIGITS;

/// What stands at the front of some bytes, each with its number of bytes.
#[derive(Clone, Copy)]
pub enum Piece {
    /// One byte of white space.
    Blank,
    /// A comment.
    Comment(usize),
    /// A token.
    Lexeme(TokenKind, usize),
    /// A byte with which nothing begins.
    BadByte,
    /// A comment without an end.
    OpenComment,
    /// A number of more digits than the limit.
    LongNumber,
}

/// The kind of a word.
fn word_kind(word: &[u8]) -> TokenKind
    ensures { kind_of result ≡ word_kind word.now }
{
    if is_reserved(word) {
        TokenKind::Reserved
    } else {
        TokenKind::Ident
    }
}

/// The word at the front.
fn word(bytes: &[u8]) -> Piece
    ensures { piece_of result ≡ word_of (prefix_len is_in_word bytes.now) bytes.now }
{
    let size = word_len(bytes);
    Piece::Lexeme(word_kind(&bytes[..size]), size)
}

/// A number of so many digits.
fn number(digits: usize) -> Piece
    ensures { piece_of result ≡ number_of digits }
{
    if digits <= MOST_DIGITS {
        Piece::Lexeme(TokenKind::Number, digits)
    } else {
        Piece::LongNumber
    }
}

/// The comment whose `(*` stands at the front.
fn comment(bytes: &[u8]) -> Piece
    requires { 2 ≤ length bytes.now }
    ensures { piece_of result ≡ comment_of (closed_after (drop 2 bytes.now)) }
{
    match closed_after(&bytes[2..]) {
        Some(size) => Piece::Comment(2 + size),
        None => Piece::OpenComment,
    }
}

/// A symbol of so many bytes; of none, there is no symbol.
fn symbol(size: usize) -> Piece
    ensures { piece_of result ≡ symbol_of size }
{
    if size == 0 {
        Piece::BadByte
    } else {
        Piece::Lexeme(TokenKind::Symbol, size)
    }
}

/// What stands at the front of these bytes, the first of which is this one.
fn piece_from(byte: u8, bytes: &[u8]) -> Piece
    ensures { piece_of result ≡ piece_from byte bytes.now }
{
    if is_blank(byte) {
        Piece::Blank
    } else if begins_word(byte) {
        word(bytes)
    } else if byte.is_ascii_digit() {
        number(digits_len(bytes))
    } else if bytes.starts_with(b"(*") {
        comment(bytes)
    } else {
        symbol(symbol_len(bytes))
    }
}

/// What stands at the front of some bytes, as long as it goes.
pub fn first_piece(bytes: &[u8]) -> Piece
    requires { 0 < length bytes.now }
    ensures found { piece_of result ≡ piece bytes.now }
    ensures within { FitsIn (length bytes.now) (piece_of result) }
{
    piece_from(bytes[0], bytes)
}
