//! Messages on channels: on a public one the attacker hears and sends all.

ghost use Rattle.std.specs.Prelude.{◌≡◌, ◌<◌, false, length};
ghost use Rattle.std.specs.Option.{option_map_or};
ghost use Rattle.spec_calculus.specs.Points.{numbered};
ghost use Rattle.pi_tree.specs.Protocols.{protocol_of};
ghost use Rattle.term_tree.specs.Bank.{symbol_of, tree_at};
ghost use Rattle.process_visits.specs.Channels.{is_public_root};
ghost use Rattle.spec_translation.specs.Visit.{is_public_channel, sent};
ghost use Rattle.clause_form.specs.Facts.{fact_of};
ghost use Rattle.clause_form.specs.Seen.{NamesFact};

use clause_form::Fact;
use pi_tree::Protocol;
use term_tree::{Bank, Id, Node, Sym};

/// Whether the number is that of a public free name.
#[tactic(auto, using(crate::proofs::Numbered::by_number))]
fn is_public_free(protocol: &Protocol, number: u32) -> bool
    ensures { result ≡ option_map_or (λ declared. declared.public)
        (numbered protocol.now.frees number) false }
{
    match number.checked_sub(1) {
        None => false,
        Some(index) => match protocol.frees.items.get(index as usize) {
            None => false,
            Some(declared) => declared.public,
        },
    }
}

/// Whether the symbol is a public free name.
fn is_public_root(protocol: &Protocol, symbol: Sym) -> bool
    ensures { result ≡ is_public_root (protocol_of protocol.now) (symbol_of symbol) }
{
    match symbol {
        Sym::Free(number) => is_public_free(protocol, number),
        Sym::Ctor(_) | Sym::Data(_) | Sym::Tuple(_) | Sym::Point(_) | Sym::Attacker => false,
    }
}

/// Whether the channel is a public free name.
fn is_public_channel<B: Bank>(bank: &B, protocol: &Protocol, channel: Id) -> bool
    requires { channel.index < length (B.trees bank.now) }
    ensures { result ≡ is_public_channel (protocol_of protocol.now)
        (tree_at (B.trees bank.now) channel) }
{
    match bank.node(channel) {
        Node::Var(_) => false,
        Node::App(symbol, arguments) => {
            if arguments.len() > 0 {
                return false;
            }
            is_public_root(protocol, symbol)
        }
    }
}

/// That in the phase the message may be sent on the channel.
pub fn sent<B: Bank>(bank: &B, protocol: &Protocol, phase: u32, channel: Id, message: Id) -> Fact
    requires channel { channel.index < length (B.trees bank.now) }
    requires message { message.index < length (B.trees bank.now) }
    ensures { NamesFact (B.trees bank.now) (fact_of result)
        (sent (protocol_of protocol.now) phase (tree_at (B.trees bank.now) channel)
        (tree_at (B.trees bank.now) message)) }
{
    if is_public_channel(bank, protocol, channel) {
        Fact::Att(phase, message)
    } else {
        Fact::Mess(phase, channel, message)
    }
}
