//! Where a fault of syntax is told of a certificate or a report, no text of one goes on.
//!
//! The laws are the contracts of the functions below, which do nothing. They speak of the reading that `certificate_reading`
//! defines, and of the texts of `certificate_text` and `report_text`, which are defined without it.
#![tactic(auto)]

ghost use Rattle.std.specs.Prelude.{length};
ghost use Rattle.spec_calculus.specs.Syntax.{Protocol};
ghost use Rattle.spec_certificate_text.specs.OfProtocol.{HasNames, IsShort};
ghost use Rattle.spec_certificate_text.specs.Text.{fact_text, clause_text, certificate_text};
ghost use Rattle.spec_certificate_text.specs.Outcomes.{read_number};
ghost use Rattle.spec_certificate_text.specs.Facts.{one_term, one_side};
ghost use Rattle.spec_certificate_text.specs.Facts.{read_hypothesis, read_conclusion, read_diff};
ghost use Rattle.spec_certificate_text.specs.Clauses.{read_clause};
ghost use Rattle.spec_certificate_text.specs.Certificates.{read_certificate};
ghost use Rattle.spec_certificate_text.specs.Readable.{IsHypothesisOf, IsConclusionOf};
ghost use Rattle.spec_certificate_text.specs.Readable.{IsReadable, IsReadableCertificate};
ghost use Rattle.spec_reading_faults.specs.Syntax.{IsToldThere, NoneGoesOn};
ghost use Rattle.spec_reading_faults.specs.Syntax.{IsReportToldThere, NoReportGoesOn};

/// A fault of syntax at a byte is told by that byte and those before it: nothing behind it counts.
pub fn syntax_faults_are_told_there()
    ensures numbers { IsToldThere read_number }
    ensures terms { (P : Protocol) → IsToldThere (one_term P) }
    ensures sides { (P : Protocol) → IsToldThere (one_side P) }
    ensures hypotheses { (P : Protocol) → IsToldThere (read_hypothesis P) }
    ensures conclusions { (P : Protocol) → IsToldThere (read_conclusion P) }
    ensures constraints { (P : Protocol) → IsToldThere (read_diff P) }
    ensures clauses { (P : Protocol) → IsToldThere (read_clause P) }
    ensures certificates { (P : Protocol) → IsToldThere (read_certificate P) }
    ensures reports { (P : Protocol) → IsReportToldThere P }
{}

/// Where a fault of syntax is told at a byte, no text begins with this byte behind those before it, whatever stands behind: none
/// of a fact, of a clause, of a certificate that may stand there, or of a report.
pub fn no_text_goes_on()
    ensures hypotheses { (P : Protocol) → HasNames P →
        NoneGoesOn (fact_text P) (IsHypothesisOf P) (read_hypothesis P) }
    ensures conclusions { (P : Protocol) → HasNames P →
        NoneGoesOn (fact_text P) (IsConclusionOf P) (read_conclusion P) }
    ensures clauses { (P : Protocol) → HasNames P →
        NoneGoesOn (clause_text P) (IsReadable P) (read_clause P) }
    ensures certificates { (P : Protocol) → HasNames P →
        NoneGoesOn (certificate_text P) (IsReadableCertificate P) (read_certificate P) }
    ensures reports { (P : Protocol) → HasNames P → IsShort (length P.queries) →
        NoReportGoesOn P }
{}
