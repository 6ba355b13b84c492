//! The words that a protocol has for symbols and events.

ghost use Rattle.std.specs.Prelude.{◌≡◌};
ghost use Rattle.pi_tree.specs.Protocols.{protocol_of};
ghost use Rattle.pi_tree.specs.Processes.{process_of};
ghost use Rattle.spec_certificate_text.specs.Words.{declared_word, word_at, word_of_process};

use pi_tree::{Declarations, Kind, Process, Protocol};

/// The word of the declaration of that number; none where there is no such.
#[tactic(auto, using(crate::proofs::Naming::by_number))]
pub fn declared_word(declarations: &Declarations, number: u32) -> &[u8]
    ensures { result.now ≡ declared_word declarations.now number }
{
    match number.checked_sub(1) {
        None => b"",
        Some(index) => match declarations.items.get(index as usize) {
            None => b"",
            Some(declared) => declared.word.items.as_slice(),
        },
    }
}

/// The word of a restriction; none of another process.
fn word_of_process(process: &Process) -> &[u8]
    ensures { result.now ≡ word_of_process (process_of process.now) }
{
    match process {
        Process::New(word, _) => word.items.as_slice(),
        _ => b"",
    }
}

/// The word of the restriction at the point; none where there is no such.
#[tactic(auto, using(crate::proofs::Naming::at_node, crate::proofs::Naming::past_nodes))]
pub fn word_at(protocol: &Protocol, point: u32) -> &[u8]
    ensures { result.now ≡ word_at (protocol_of protocol.now) point }
{
    if point == 0 || point > protocol.count(Kind::Point) {
        b""
    } else {
        word_of_process(protocol.node(point))
    }
}
