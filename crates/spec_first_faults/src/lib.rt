//! The first faults of the texts of events, facts, clauses, certificates and reports.
//!
//! A kind of texts is made of others: fixed bytes, runs of bytes, one text behind another, one of two, so many, and rows. A
//! fault stands in one of them behind texts of those before it, whatever their words name: digits that are no number, a word
//! that is that of no event, an event over another number of arguments, a constraint with another number of left sides than of
//! right sides, a clause past the limit, the number of another query than the next or of one past the last, and the end of all
//! bytes where a query is left; within terms those of terms. Of syntax a fault stands where some text of the whole goes on up to
//! there, and none with the byte there, or with the end.
//!
//! The first fault is the one at the earliest place, and at this place the one of the least number. Reading tells it, and it is
//! told exactly where there is one.
//!
//! The definitions stand in `specs/`. The laws about them that a reader would ask for are the contracts of the functions
//! below, which do nothing.
#![tactic(auto)]

ghost use Rattle.std.specs.Prelude.{◌≡◌, ◌↔◌, ℕ, List, [], length};
ghost use Rattle.spec_calculus.specs.Syntax.{Protocol};
ghost use Rattle.spec_terms.specs.Term.{Term};
ghost use Rattle.spec_clauses.specs.Fact.{Fact};
ghost use Rattle.spec_certificates.specs.Certificate.{Certificate};
ghost use Rattle.spec_certificate_text.specs.OfProtocol.{HasNames, IsShort};
ghost use Rattle.spec_certificate_text.specs.Text.{certificate_text};
ghost use Rattle.spec_certificate_text.specs.Terms.{Code};
ghost use Rattle.spec_certificate_text.specs.Outcomes.{Found, Faulty, read_number};
ghost use Rattle.spec_certificate_text.specs.Facts.{read_att, read_mess, read_event};
ghost use Rattle.spec_certificate_text.specs.Facts.{read_hypothesis, read_conclusion, read_diff};
ghost use Rattle.spec_certificate_text.specs.Clauses.{read_clause};
ghost use Rattle.spec_certificate_text.specs.Certificates.{read_certificate};
ghost use Rattle.spec_certificate_text.specs.Readable.{IsReadableCertificate};
ghost use Rattle.spec_certificate_text.specs.Reports.{Claim, read_report};
ghost use Rattle.spec_certificate_text.specs.ReportText.{SpellsReport};
ghost use Rattle.spec_certificate_faults.specs.First.{StandsAt, IsFirstFault};
ghost use Rattle.spec_first_faults.specs.Numbers.{numbers};
ghost use Rattle.spec_first_faults.specs.Facts.{known, sent, events, hypotheses, conclusions, diffs};
ghost use Rattle.spec_first_faults.specs.Clauses.{clauses, certificates};
ghost use Rattle.spec_first_faults.specs.Reports.{reports};
ghost use Rattle.spec_first_faults.specs.Told.{IsToldFirst, IsFaultless};

use spec_certificate_text::{certificates_are_read, reports_are_read};

/// Of a fact that speaks of terms alone the first fault is told, and it is told exactly where there is one.
pub fn the_first_fault_of_a_message_is_told()
    ensures known { (P : Protocol) (bytes : List ℕ) (at place : ℕ) (code : Code) → HasNames P →
        (read_att P bytes at ≡ Faulty place code) ↔ IsFirstFault (known P) bytes at place code }
    ensures sent { (P : Protocol) (bytes : List ℕ) (at place : ℕ) (code : Code) → HasNames P →
        (read_mess P bytes at ≡ Faulty place code) ↔ IsFirstFault (sent P) bytes at place code }
    ensures none_known { (P : Protocol) (bytes : List ℕ) (at place other : ℕ) (f : Fact Term)
        (rest : List ℕ) (code : Code) →
        HasNames P → read_att P bytes at ≡ Found f place rest →
        StandsAt (known P) bytes at other code → ⊥ }
    ensures none_sent { (P : Protocol) (bytes : List ℕ) (at place other : ℕ) (f : Fact Term)
        (rest : List ℕ) (code : Code) →
        HasNames P → read_mess P bytes at ≡ Found f place rest →
        StandsAt (sent P) bytes at other code → ⊥ }
{}

/// Of a number, an event, a fact, a constraint or a clause the first fault is told, exactly where there is one.
pub fn the_first_fault_of_a_clause_is_told()
    ensures numbers { IsToldFirst numbers read_number }
    ensures events { (P : Protocol) → HasNames P → IsToldFirst (events P) (read_event P) }
    ensures hypotheses { (P : Protocol) → HasNames P →
        IsToldFirst (hypotheses P) (read_hypothesis P) }
    ensures conclusions { (P : Protocol) → HasNames P →
        IsToldFirst (conclusions P) (read_conclusion P) }
    ensures diffs { (P : Protocol) → HasNames P → IsToldFirst (diffs P) (read_diff P) }
    ensures clauses { (P : Protocol) → HasNames P → IsToldFirst (clauses P) (read_clause P) }
{}

/// Of a certificate the first fault is told, exactly where there is one. Bytes begin with a certificate exactly where they begin
/// with a text of the grammar and no fault stands in them. There is one first fault at most.
pub fn the_first_fault_of_a_certificate_is_told()
    ensures told { (P : Protocol) → HasNames P →
        IsToldFirst (certificates P) (read_certificate P) }
    ensures spelled { (P : Protocol) (c : Certificate) (rest : List ℕ) → HasNames P →
        IsReadableCertificate P c → IsFaultless (certificates P) (certificate_text P c rest) rest }
    ensures faultless { (P : Protocol) (bytes rest : List ℕ) → HasNames P →
        IsFaultless (certificates P) bytes rest →
        (c : Certificate) × IsReadableCertificate P c × (bytes ≡ certificate_text P c rest) }
    ensures one { (P : Protocol) (bytes : List ℕ) (at place other : ℕ) (code another : Code) →
        IsFirstFault (certificates P) bytes at place code →
        IsFirstFault (certificates P) bytes at other another → (place ≡ other) × (code ≡ another) }
{
    certificates_are_read();
}

/// Of a report the first fault is told, exactly where there is one. Bytes spell a report exactly where they are a text of the
/// grammar and no fault stands in them. There is one first fault at most.
pub fn the_first_fault_of_a_report_is_told()
    ensures told { (P : Protocol) (bytes : List ℕ) (place : ℕ) (code : Code) → HasNames P →
        (read_report P bytes ≡ Faulty place code) ↔ IsFirstFault (reports P) bytes 0 place code }
    ensures spelled { (P : Protocol) (bytes : List ℕ) (claims : List Claim) → HasNames P →
        IsShort (length P.queries) →
        SpellsReport P bytes claims → IsFaultless (reports P) bytes [] }
    ensures faultless { (P : Protocol) (bytes : List ℕ) → HasNames P →
        IsFaultless (reports P) bytes [] → (claims : List Claim) × SpellsReport P bytes claims }
    ensures one { (P : Protocol) (bytes : List ℕ) (place other : ℕ) (code another : Code) →
        IsFirstFault (reports P) bytes 0 place code →
        IsFirstFault (reports P) bytes 0 other another → (place ≡ other) × (code ≡ another) }
{
    reports_are_read();
}
