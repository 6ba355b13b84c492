//! Protocols with one query, which rows of goals spell.

ghost use Rattle.std.specs.Prelude.{IfOk, IfSome};
ghost use Rattle.pi_tree.specs.Protocols.{protocol_of};
ghost use Rattle.table_calls.specs.Asked.{IsAsked};

use pi_tree::Protocol;
use spec_protocol_scope::{query_leaves, within_limits};
use std::alloc::{AllocError, Global};
use table_protocols::{asks, spelled};

/// What stands before the query: the names that tables may use, with the numbers that they have in clauses.
const BEFORE: &str = "free c, d, k. fun f/1. fun g/1. fun h/2. fun enc/2. data box/1. data pair/2. \
    event e/2. event begin/1. event end/1. query ";

/// What stands behind it: a process with restrictions at the points 1, of no argument, and 4, of a copy and a message.
const BEHIND: &str = ". process new a; !in(c,x); new b";

/// The protocol that the bytes spell, if they spell one with a query.
fn read_asked(alloc: Global, bytes: &[u8]) -> Option<Box<Protocol>>
    ensures { IfSome result (λ protocol. IsAsked (protocol_of protocol.value)) }
{
    within_limits();
    query_leaves();
    let protocol = spelled(alloc, bytes)?;
    if asks(&protocol, 1) {
        return Some(protocol);
    }
    None
}

/// The protocol with the query that the text spells, as `attacker(c)`, if it spells one.
pub fn asked_by(alloc: Global, query: &str) -> Result<Option<Box<Protocol>>, AllocError>
    ensures { IfOk result (λ found. IfSome found (λ protocol.
        IsAsked (protocol_of protocol.value))) }
{
    let text = format!(in alloc; "{BEFORE}{query}{BEHIND}")?;
    Ok(read_asked(alloc, text.as_bytes()))
}
