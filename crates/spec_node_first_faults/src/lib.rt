//! The first faults of certificates by numbers, of certificates in either format, and of reports that have them.
//!
//! A reader goes from a state to others: behind some nodes it knows their terms, and behind some numbers how far the walk
//! through the clauses is. In each state it reads a kind of texts, and it tells the first fault that stands in them, exactly
//! where there is one. So something is read exactly where a text of the grammar stands, and no fault in it.
//!
//! The definitions stand in `specs/`, and in those of `spec_node_reading`. The laws about them that a reader would ask for are
//! the contracts of the functions below, which do nothing.
#![tactic(auto)]

ghost use Rattle.std.specs.Prelude.{◌≡◌, ◌↔◌, ℕ, List, [], length};
ghost use Rattle.spec_calculus.specs.Syntax.{Protocol};
ghost use Rattle.spec_terms.specs.Term.{Term};
ghost use Rattle.spec_clauses.specs.Fact.{Clause};
ghost use Rattle.spec_certificates.specs.Certificate.{Certificate};
ghost use Rattle.spec_certificate_text.specs.OfProtocol.{HasNames, IsShort};
ghost use Rattle.spec_certificate_text.specs.Outcomes.{Faulty};
ghost use Rattle.spec_certificate_text.specs.Reports.{Claim};
ghost use Rattle.spec_certificate_text.specs.Terms.{Code};
ghost use Rattle.spec_certificate_faults.specs.First.{IsFirstFault};
ghost use Rattle.spec_first_faults.specs.Told.{IsToldFirst, IsFaultless};
ghost use Rattle.spec_node_reading.specs.Clauses.{numbered_certificates, certificates_of_both};
ghost use Rattle.spec_node_reading.specs.Loops.{Behind};
ghost use Rattle.spec_node_reading.specs.Readable.{SpellsNumbered, SpellsCertificate};
ghost use Rattle.spec_node_reading.specs.Reading.{read_numbered, read_in_both};
ghost use Rattle.spec_node_reading.specs.Reports.{SpellsReport, read_report_in_both};
ghost use Rattle.spec_node_reading.specs.Reports.{reports_of_both};
ghost use Rattle.spec_node_first_faults.specs.Told.{IsNodeLineTold, IsLineTold, IsRestTold};

use spec_node_reading::{texts_are_read, what_is_read_is_spelled};

/// Of the line of a node, behind other nodes, the first fault is told, exactly where there is one.
pub fn the_first_fault_of_a_node_line_is_told()
    ensures { (P : Protocol) (before : List Term) → HasNames P → IsNodeLineTold P before }
{}

/// Of the line of a clause by numbers, behind other clauses, the first fault is told, exactly where there is one.
pub fn the_first_fault_of_a_clause_line_is_told()
    ensures { (P : Protocol) (table : List Term) (before : Behind (List (Clause Term))) →
        HasNames P → IsLineTold P table before }
{}

/// Of what stands behind the nodes the first fault is told, exactly where there is one: of the clauses, which are no more than
/// the limit, of the rows, which stand behind clauses that reach all nodes, and of the last line.
pub fn the_first_fault_behind_the_nodes_is_told()
    ensures { (P : Protocol) (table : List Term) → HasNames P → IsRestTold P table }
{}

/// Of a certificate by numbers the first fault is told, exactly where there is one. Bytes begin with the text of one exactly
/// where they begin with a text of the grammar and no fault stands in them.
pub fn the_first_fault_of_a_numbered_certificate_is_told()
    ensures told { (P : Protocol) → HasNames P →
        IsToldFirst (numbered_certificates P) (read_numbered P) }
    ensures spelled { (P : Protocol) (bytes : List ℕ) (c : Certificate) (rest : List ℕ) →
        HasNames P → SpellsNumbered P bytes c rest →
        IsFaultless (numbered_certificates P) bytes rest }
    ensures faultless { (P : Protocol) (bytes rest : List ℕ) → HasNames P →
        IsFaultless (numbered_certificates P) bytes rest →
        (c : Certificate) × SpellsNumbered P bytes c rest }
{
    texts_are_read();
    what_is_read_is_spelled();
}

/// Of a certificate in either format the first fault is told, exactly where there is one. Bytes begin with the text of one
/// exactly where they begin with a text of the grammar and no fault stands in them.
pub fn the_first_fault_of_a_certificate_in_either_format_is_told()
    ensures told { (P : Protocol) → HasNames P →
        IsToldFirst (certificates_of_both P) (read_in_both P) }
    ensures spelled { (P : Protocol) (bytes : List ℕ) (c : Certificate) (rest : List ℕ) →
        HasNames P → SpellsCertificate P bytes c rest →
        IsFaultless (certificates_of_both P) bytes rest }
    ensures faultless { (P : Protocol) (bytes rest : List ℕ) → HasNames P →
        IsFaultless (certificates_of_both P) bytes rest →
        (c : Certificate) × SpellsCertificate P bytes c rest }
{
    texts_are_read();
    what_is_read_is_spelled();
}

/// Of a report whose certificates are in either format the first fault is told, exactly where there is one. Bytes spell one
/// exactly where they are a text of the grammar and no fault stands in them.
pub fn the_first_fault_of_a_report_in_either_format_is_told()
    ensures told { (P : Protocol) (bytes : List ℕ) (place : ℕ) (code : Code) → HasNames P →
        (read_report_in_both P bytes ≡ Faulty place code) ↔
        IsFirstFault (reports_of_both P) bytes 0 place code }
    ensures spelled { (P : Protocol) (bytes : List ℕ) (claims : List Claim) → HasNames P →
        IsShort (length P.queries) →
        SpellsReport P bytes claims → IsFaultless (reports_of_both P) bytes [] }
    ensures faultless { (P : Protocol) (bytes : List ℕ) → HasNames P →
        IsFaultless (reports_of_both P) bytes [] →
        (claims : List Claim) × SpellsReport P bytes claims }
{
    texts_are_read();
    what_is_read_is_spelled();
}
