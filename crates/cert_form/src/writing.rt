//! How terms are written: each as it stands, or by its number in a table.

use crate::parts::put_number;
use crate::term_text::put_spelled;
use clause_form::Tree;
use node_table::NodeTable;
use pi_tree::Protocol;
use std::alloc::AllocError;

/// How a certificate writes its terms.
pub trait TermWriter {
    ghost use Rattle.std.specs.Prelude.{List, [], ◌∷◌, ℕ, OnOk};
    ghost use Rattle.spec_calculus.specs.Syntax as calculus;
    ghost use Rattle.spec_terms.specs.Term.{Term};
    ghost use Rattle.pi_tree.specs.Protocols.{protocol_of};
    ghost use Rattle.clause_form.specs.Plain.{term_of};
    ghost use Rattle.cert_form.specs.Writing.{Writes};

    /// What is kept.
    ghost kept: { Self → List Term };

    /// What is kept of these terms, in order, where no others were written.
    ghost kept_of: { List Term → List Term };

    /// The text of a term in a certificate of the protocol that has these terms, in order.
    ghost one: { calculus.Protocol → List Term → Term → List ℕ → List ℕ };

    /// Puts the text of a term. `Err` is want of memory.
    fn put_term(
        &mut self,
        out: &mut Vec<u8>,
        protocol: &Protocol,
        term: &Tree,
    ) -> Result<(), AllocError>
        ensures { OnOk result (Writes kept_of (one (protocol_of protocol.now))
            (term_of term.now ∷ []) (λ text. text (term_of term.now)) (kept self.old)
            (kept self.new) out.old.items out.new.items) };
}

/// Writes each term as it stands, and keeps nothing.
#[derive(Drop)]
pub struct Spelled;

impl TermWriter for Spelled {
    ghost use Rattle.std.specs.Prelude.{[]};
    ghost use Rattle.spec_certificate_text.specs.Text.{term_text};

    ghost kept = { λ _. [] };

    ghost kept_of = { λ _. [] };

    ghost one = { λ P _ t. term_text P t };

    fn put_term(
        &mut self,
        out: &mut Vec<u8>,
        protocol: &Protocol,
        term: &Tree,
    ) -> Result<(), AllocError> {
        put_spelled(out, protocol, term)
    }
}

impl TermWriter for NodeTable {
    ghost use Rattle.spec_node_tables.specs.Table.{number_in};
    ghost use Rattle.spec_node_tables.specs.Text.{number_text};
    ghost use Rattle.node_table.specs.Entered.{table_of};

    ghost kept = { λ t. t };

    ghost kept_of = { table_of };

    ghost one = { λ _ all t. number_text (number_in (table_of all) t) };

    fn put_term(
        &mut self,
        out: &mut Vec<u8>,
        _protocol: &Protocol,
        term: &Tree,
    ) -> Result<(), AllocError> {
        let number = self.number(term)?;
        put_number(out, number)
    }
}
