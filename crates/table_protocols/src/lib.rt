//! The protocols that tables of rows are about: those that texts spell.
#![tactic(auto)]

ghost use Rattle.std.specs.Prelude.{◌≡◌, true, IfSome};
ghost use Rattle.spec_protocol_scope.specs.Spells.{IsSketchOf, Spells};
ghost use Rattle.pi_parser.specs.Files.{file_of};
ghost use Rattle.pi_tree.specs.Protocols.{protocol_of};
ghost use Rattle.pi_tree.specs.Accessors.{IsThere};
ghost use Rattle.pi_tree.specs.declared.accessors.Kind.TheVariants.{Query};

use pi_lexer::lex;
use pi_parser::{Sketch, parse};
use pi_tree::Protocol;
use scope_check::check_scope;
use std::alloc::Global;

/// What the grammar makes of the bytes, if they have a sketch.
fn sketch_of(alloc: Global, bytes: &[u8]) -> Option<Sketch>
    ensures { IfSome result (λ sketch. IsSketchOf bytes.now (file_of sketch)) }
{
    let tokens = lex(alloc, bytes).ok()?;
    parse(alloc, bytes, &tokens).ok()
}

/// The protocol that the sketch of the bytes stands for, if it stands for one.
fn scoped(alloc: Global, bytes: &[u8], sketch: &Sketch) -> Option<Box<Protocol>>
    requires { IsSketchOf bytes.now (file_of sketch.now) }
    ensures { IfSome result (λ protocol. Spells bytes.now (protocol_of protocol.value)) }
{
    match check_scope(alloc, bytes, sketch) {
        Ok(protocol) => Box::new(alloc, protocol).ok(),
        Err(_) => None,
    }
}

/// The protocol that the bytes spell, if they spell one. Takes memory for it; without it, there is none.
pub fn spelled(alloc: Global, bytes: &[u8]) -> Option<Box<Protocol>>
    ensures { IfSome result (λ protocol. Spells bytes.now (protocol_of protocol.value)) }
{
    let sketch = sketch_of(alloc, bytes)?;
    scoped(alloc, bytes, &sketch)
}

/// Whether the protocol has a query of that number, from 1. Takes no memory.
pub fn asks(protocol: &Protocol, query: u32) -> bool
    ensures { result ≡ true → IsThere (protocol_of protocol.now) Query query }
{
    query > 0 && query as usize <= protocol.queries.items.len()
}
