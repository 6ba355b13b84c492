//! Tokens, and the list of them.

use std::marker::Model;

/// What kind of token.
#[derive(Clone, Copy, Debug)]
pub enum TokenKind {
    /// A name.
    Ident,
    /// A reserved word.
    Reserved,
    /// Decimal digits: one at least, and no more than the limit.
    Number,
    /// One of `( ) , ; . / = ==> | || && ! ->`.
    Symbol,
}

/// A token: its kind, and its span of the bytes. Its text is that slice of them.
#[derive(Clone, Copy)]
pub struct Token {
    /// What kind of token.
    pub kind: TokenKind,
    /// The place of its first byte, from 0.
    pub from: usize,
    /// The place behind its last byte, from 0.
    pub to: usize,
}

/// The tokens of a file, in the order of their places.
pub struct Tokens {
    /// The tokens.
    pub items: Vec<Token>,
}

impl Drop for Tokens {
    fn drop(self) {
        let Tokens { items } = self;
        drop(items);
    }
}

impl Model for Tokens {
    ghost use Rattle.std.specs.Prelude.{List, map};
    ghost use Rattle.spec_protocol_tokens.specs.Token as own;

    ghost Value = { List own.Token };

    ghost use Rattle.pi_lexer.specs.Token.{token_of};

    ghost view = { λ a. map token_of a.items.items };
}
