//! The texts of tokens, and where they stand.

ghost use Rattle.std.specs.Prelude.{◌≡◌, ◌≤◌, length};
ghost use Rattle.spec_protocol_tokens.specs.Token as own;
ghost use Rattle.spec_protocol_scope.specs.Names as rules;
ghost use Rattle.spec_protocol_scope.specs.Spells.{texts, place_of};
ghost use Rattle.pi_lexer.specs.Token.{token_of};
ghost use Rattle.scope_declarations.specs.Text.{texts_of};

use crate::source::Text;
use pi_lexer::Token;

/// The bytes of a token.
fn bytes_of(bytes: &[u8], token: Token) -> &[u8]
    requires order { token.from ≤ token.to }
    requires inside { token.to ≤ length bytes.now }
    ensures { result.now ≡ own.text bytes.now (token_of token) }
{
    &bytes[token.from..token.to]
}

/// The text of a token, nothing where there is none of this number.
pub fn text_of<'a>(whole: &Text<'a>, number: usize) -> &'a [u8]
    ensures { result.now ≡ texts_of whole.now number }
{
    let tokens = whole.tokens;
    if number < tokens.items.len() {
        bytes_of(whole.source, tokens.items[number])
    } else {
        &[]
    }
}

/// Whether two tokens have the same text.
pub fn same_text(whole: &Text, one: usize, other: usize) -> bool
    ensures { result ≡ rules.same_text (texts_of whole.now) one other }
{
    text_of(whole, one) == text_of(whole, other)
}

/// Where a token stands; behind the last, at the end.
pub fn place(whole: &Text, number: usize) -> usize
    ensures { result ≡ place_of whole.now.source.now whole.now.tokens.now number }
{
    let tokens = whole.tokens;
    if number < tokens.items.len() {
        tokens.items[number].from
    } else {
        whole.source.len()
    }
}
