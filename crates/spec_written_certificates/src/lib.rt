//! A certificate that may stand in a report is spelled by what is written of it, in whichever format, whatever follows. So a
//! check reads what a verification wrote.
//!
//! What is written, and which bytes spell a certificate, are defined below this crate; here are worked examples with constraints.
//! The functions do nothing, and their contracts are the laws.
#![tactic(auto)]

ghost use Rattle.std.specs.Prelude.{◌≡◌, ℕ, List, [], ◌++◌, codes};
ghost use Rattle.spec_calculus.specs.Syntax.{Protocol};
ghost use Rattle.spec_certificates.specs.Certificate.{Certificate};
ghost use Rattle.spec_certificate_text.specs.Readable.{IsReadableCertificate};
ghost use Rattle.spec_certificate_text.specs.Text.{clause_text};
ghost use Rattle.spec_certificate_text.specs.Examples.{sending};
ghost use Rattle.spec_node_tables.specs.Large.{FitsInNodes};
ghost use Rattle.spec_node_reading.specs.Readable.{SpellsNumbered, SpellsPlain, SpellsCertificate};
ghost use Rattle.cert_form.specs.Writing.{format_for, text_in};
ghost use Rattle.spec_written_certificates.specs.Examples.{passed, sent_again, constrained};

use spec_node_tables::what_fits_in_nodes;

/// The texts of two clauses with constraints, and of a certificate of both in either format.
pub fn worked_constraints()
    ensures alone { clause_text sending passed [] ≡ codes "diff(v0;c) => att(v0)" }
    ensures two { clause_text sending sent_again [] ≡
        codes "att(v0), diff(v0;c), diff(v0,k,?0;enc(?0,?1),?1,?2) => mess(c,v0)" }
    ensures spelled { text_in 1 sending constrained [] ≡
        codes "cert 1\nc diff(v0;c) => att(v0)\n" ++
        codes "c att(v0), diff(v0;c), diff(v0,k,?0;enc(?0,?1),?1,?2) => mess(c,v0)\nend\n" }
    ensures numbered { text_in 2 sending constrained [] ≡
        codes "cert 2\nn v0\nn c\nn k\nn ?0\nn ?1\nn enc 4 5\nn ?2\n" ++
        codes "c diff(1;2) => att(1)\nc att(1), diff(1;2), diff(1,3,4;6,5,7) => mess(2,1)\nend\n" }
{}

/// Where a format is wanted, a certificate that may stand in a report is written in it, or without a table where it is too large
/// for one; and what is written spells it, whatever follows.
pub fn written_certificates_are_spelled()
    ensures { (P : Protocol) (c : Certificate) (format : ℕ) (rest : List ℕ) →
        IsReadableCertificate P c → SpellsCertificate P
        (text_in (format_for format c.clauses) P c [] ++ rest) c rest }
{
    what_fits_in_nodes();
}

/// A certificate is written by its table where format 2 is wanted and it is not too large for one; and else each term as it
/// stands.
pub fn certificates_are_written_in_their_formats()
    ensures by_table { (P : Protocol) (c : Certificate) (rest : List ℕ) →
        IsReadableCertificate P c → FitsInNodes c.clauses → SpellsNumbered P
        (text_in (format_for 2 c.clauses) P c [] ++ rest) c rest }
    ensures another { (P : Protocol) (c : Certificate) (format : ℕ) (rest : List ℕ) →
        IsReadableCertificate P c → (format ≡ 2 → ⊥) → SpellsPlain P
        (text_in (format_for format c.clauses) P c [] ++ rest) c rest }
    ensures too_large { (P : Protocol) (c : Certificate) (format : ℕ) (rest : List ℕ) →
        IsReadableCertificate P c → (FitsInNodes c.clauses → ⊥) → SpellsPlain P
        (text_in (format_for format c.clauses) P c [] ++ rest) c rest }
{
    what_fits_in_nodes();
}
