//! The symbols of clauses for the constructors of a protocol.

ghost use Rattle.std.specs.Prelude.{◌≡◌, ℕ};
ghost use Rattle.spec_calculus.specs.Runs as calculus;
ghost use Rattle.spec_calculus.specs.Syntax.{Constructor};
ghost use Rattle.spec_translation.specs.Conversion.{symbol_over};
ghost use Rattle.term_tree.specs.Bank.{symbol_of};
ghost use Rattle.pi_tree.specs.Protocols.{protocol_of};

use pi_tree::Protocol;
use term_tree::Sym;

/// Whether the number is that of a data constructor.
#[tactic(auto, using(crate::proofs::Numbers::by_number))]
fn is_data(protocol: &Protocol, constructor: u32) -> bool
    ensures { result ≡ calculus.is_data (protocol_of protocol.now) (Constructor constructor) }
{
    match constructor.checked_sub(1) {
        None => false,
        Some(index) => match protocol.ctors.items.get(index as usize) {
            None => false,
            Some(declared) => declared.is_data,
        },
    }
}

/// The symbol for a constructor: data constructors are told from others.
pub fn constructor_symbol(protocol: &Protocol, constructor: u32) -> Sym
    ensures { (count : ℕ) → symbol_of result ≡ symbol_over (protocol_of protocol.now) count
        (Constructor constructor) }
{
    if is_data(protocol, constructor) {
        Sym::Data(constructor)
    } else {
        Sym::Ctor(constructor)
    }
}
