//! Where a process of the protocol stands.

ghost use Rattle.pi_tree.specs.Protocols.{protocol_of};
ghost use Rattle.unified_visits.specs.Short.{HasFitRules};
ghost use Rattle.unified_visits.specs.ShortProps.{short_props};

use pi_tree::Protocol;
use std::alloc::Global;

/// A point of the protocol, each of whose rules has short tuples and few variables.
#[derive(Clone, Copy)]
pub struct Place<'a> {
    pub alloc: Global,
    pub protocol: &'a Protocol,
    pub point: u32,
    ghost rules: { HasFitRules (protocol_of protocol.now) } by { Prim.hlevel short_props },
}
