//! The bytes of a file and their tokens.

ghost use Rattle.std.specs.Prelude.{◌+◌, ◌≤◌, length};
ghost use Rattle.spec_calculus.specs.Bounds.{most_bytes};
ghost use Rattle.spec_protocol_tokens.specs.Laws.{Ascend};
ghost use Rattle.scope_declarations.specs.Props.{scope_props};

use pi_lexer::Tokens;

/// The bytes of a file and their tokens, which stand in them one behind another. They are too few for a variable to
/// need a number of more than 32 bits.
#[derive(Clone, Copy)]
pub struct Text<'a> {
    pub source: &'a [u8],
    pub tokens: &'a Tokens,
    ghost spans: { Ascend 0 tokens.now (length source.now) } by { Prim.hlevel scope_props },
    ghost few: { length tokens.now + 2 ≤ most_bytes },
}
