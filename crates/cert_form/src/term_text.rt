//! The texts of terms as they stand.

ghost use Rattle.std.specs.Prelude.{OnOk};
ghost use Rattle.pi_tree.specs.Protocols.{protocol_of};
ghost use Rattle.clause_form.specs.Plain.{term_of};
ghost use Rattle.spec_certificate_text.specs.Text.{term_text};
ghost use Rattle.cert_form.specs.Appends.{Appends};

use crate::parts::{is_alone, put_closing, put_comma, put_opening, put_variable};
use clause_form::Tree;
use pi_tree::Protocol;
use std::alloc::AllocError;

/// Puts the text of a term.
pub fn put_spelled(out: &mut Vec<u8>, protocol: &Protocol, term: &Tree) -> Result<(), AllocError>
    ensures { OnOk result (Appends (term_text (protocol_of protocol.now) (term_of term.now))
        out.old.items out.new.items) }
{
    match term {
        Tree::Var(number) => put_variable(out, *number),
        Tree::App(symbol, arguments) => {
            let alone = is_alone(arguments);
            put_opening(out, protocol, *symbol, alone)?;
            'each: for (place, argument) in arguments.items.iter().enumerate() {
                put_comma(out, place)?;
                put_spelled(out, protocol, argument)?;
            }
            put_closing(out, *symbol, alone)
        }
    }
}
