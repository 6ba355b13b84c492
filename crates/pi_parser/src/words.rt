//! The classes of tokens, and single words.

ghost use Rattle.std.specs.Prelude.{◌≡◌, ◌+◌, ◌<◌, ◌≤◌, List, map, length, slice_index_or, false, IsTrue, IfOk};
ghost use Rattle.std.specs.Str.{bytes_eq};
ghost use Rattle.spec_protocol_tokens.specs.Token as own;
ghost use Rattle.spec_protocol_grammar.specs.Classes.{class_of, class_by, class_among, reserved_class, symbol_class, number_class, same, fits, words, code};
ghost use Rattle.pi_lexer.specs.Token.{token_of, kind_of};
ghost use Rattle.pi_parser.specs.Gives.{Marks};
ghost use Rattle.pi_parser.specs.Tables.{table_of};

use crate::error::Fault;
use pi_lexer::{Token, TokenKind, Tokens};
use spec_protocol_grammar::Class;
use std::alloc::{AllocError, Global};

fn is(text: &[u8], spelling: &[u8]) -> bool
    ensures { result ≡ bytes_eq text.now spelling.now }
{
    text == spelling
}

/// The reserved words.
const RESERVED: [(&[u8], Class); 22] = [
    (b"private", Class::Private),
    (b"free", Class::Free),
    (b"fun", Class::Fun),
    (b"data", Class::Data),
    (b"reduc", Class::Reduc),
    (b"event", Class::Event),
    (b"query", Class::Query),
    (b"attacker", Class::Attacker),
    (b"process", Class::Process),
    (b"new", Class::New),
    (b"false", Class::False),
    (b"let", Class::Let),
    (b"in", Class::In),
    (b"out", Class::Out),
    (b"if", Class::If),
    (b"then", Class::Then),
    (b"else", Class::Else),
    (b"phase", Class::Phase),
    (b"table", Class::Table),
    (b"insert", Class::Insert),
    (b"get", Class::Get),
    (b"suchthat", Class::Suchthat),
];

/// The symbols.
const SYMBOLS: [(&[u8], Class); 13] = [
    (b"(", Class::Open),
    (b")", Class::Close),
    (b",", Class::Comma),
    (b";", Class::Semicolon),
    (b".", Class::Dot),
    (b"/", Class::Slash),
    (b"=", Class::Equals),
    (b"==>", Class::Implies),
    (b"|", Class::Bar),
    (b"||", Class::Or),
    (b"&&", Class::And),
    (b"!", Class::Bang),
    (b"->", Class::Arrow),
];

/// The class that a table gives a text, `Other` where it gives none.
fn class_among(table: &[(&[u8], Class)], text: &[u8]) -> Class
    ensures { result ≡ class_among (table_of table.now) text.now }
{
    'entries: for entry in table {
        if is(text, entry.0) {
            return entry.1;
        }
    }
    Class::Other
}

/// The class of a reserved word.
#[tactic(auto, unfolding(spec_protocol_grammar::specs::Classes::reserved_class))]
fn reserved_class(word: &[u8]) -> Class
    ensures { result ≡ reserved_class word.now }
{
    class_among(&RESERVED, word)
}

/// The class of a symbol.
#[tactic(auto, unfolding(spec_protocol_grammar::specs::Classes::symbol_class))]
fn symbol_class(symbol: &[u8]) -> Class
    ensures { result ≡ symbol_class symbol.now }
{
    class_among(&SYMBOLS, symbol)
}

/// The class of a number.
#[tactic(auto, unfolding(spec_protocol_grammar::specs::Classes::number_class))]
fn number_class(number: &[u8]) -> Class
    ensures { result ≡ number_class number.now }
{
    if is(number, b"0") {
        Class::Zero
    } else {
        Class::Number
    }
}

/// The class of a token.
pub fn class_of(source: &[u8], token: &Token) -> Class
    requires order { token.now.from ≤ token.now.to }
    requires within { token.now.to ≤ length source.now }
    ensures { result ≡ class_of source.now (token_of token.now) }
{
    let text = &source[token.from..token.to];
    match token.kind {
        TokenKind::Ident => Class::Name,
        TokenKind::Reserved => reserved_class(text),
        TokenKind::Number => number_class(text),
        TokenKind::Symbol => symbol_class(text),
    }
}

/// The class of the word at a place, the end behind the last one.
pub fn class_at(classes: &[Class], at: usize) -> Class
    ensures { result ≡ (words classes.now at).class }
{
    classes.get(at).copied().unwrap_or(Class::End)
}

/// A number for each class.
fn code(class: Class) -> u8
    ensures { result ≡ code class }
{
    match class {
        Class::Private => 0,
        Class::Free => 1,
        Class::Fun => 2,
        Class::Data => 3,
        Class::Reduc => 4,
        Class::Event => 5,
        Class::Query => 6,
        Class::Attacker => 7,
        Class::Process => 8,
        Class::New => 9,
        Class::False => 10,
        Class::Let => 11,
        Class::In => 12,
        Class::Out => 13,
        Class::If => 14,
        Class::Then => 15,
        Class::Else => 16,
        Class::Phase => 17,
        Class::Table => 18,
        Class::Insert => 19,
        Class::Get => 20,
        Class::Suchthat => 21,
        Class::Open => 22,
        Class::Close => 23,
        Class::Comma => 24,
        Class::Semicolon => 25,
        Class::Dot => 26,
        Class::Slash => 27,
        Class::Equals => 28,
        Class::Implies => 29,
        Class::Bar => 30,
        Class::Or => 31,
        Class::And => 32,
        Class::Bang => 33,
        Class::Arrow => 34,
        Class::Name => 35,
        Class::Zero => 36,
        Class::Number => 37,
        Class::Other => 38,
        Class::End => 39,
    }
}

/// Whether the word at a place is of this class.
pub fn is_at(classes: &[Class], at: usize, class: Class) -> bool
    requires { same class Class.End ≡ false }
    ensures found { result ≡ same class (words classes.now at).class }
    ensures within { IsTrue result → at < length classes.now }
{
    code(class) == code(class_at(classes, at))
}

/// Whether the word at a place will do where this class is wanted: `0` is a number too.
pub fn fits_at(classes: &[Class], at: usize, class: Class) -> bool
    ensures { result ≡ fits class (words classes.now at).class }
{
    let found = code(class_at(classes, at));
    let wanted = code(class);
    (wanted == code(Class::Number) && found == code(Class::Zero)) || wanted == found
}

/// The place behind a word of this class, which has to stand at this place.
pub fn mark(classes: &[Class], at: usize, class: Class) -> Result<usize, Fault>
    requires within { at ≤ length classes.now }
    requires other { fits class Class.End ≡ false }
    ensures found { Marks classes.now at class result }
    ensures within { IfOk result (λ end. (at < end) × (end ≤ length classes.now)) }
{
    if fits_at(classes, at, class) {
        Ok(at + 1)
    } else {
        Err(Fault::Unexpected(at))
    }
}
