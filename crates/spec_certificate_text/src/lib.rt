//! The texts of clauses, certificates and reports, over the words of a protocol, and their reading.
//!
//! A clause is its hypotheses, a comma and a space between each two and a space behind the last, `=> ` and its conclusion:
//! `att(v0), att(v1) => att(enc(v0,v1))`. A fact of a phase past the first has `@` and that phase behind its predicate, as in
//! `att(v0) => att@1(v0)`. A certificate is lines: `cert 1`, the clauses behind `c `, the cover rows behind
//! `r`, the goal rows behind `g`, each number behind a space, and `end`; a line feed ends each. A report is a line for each
//! query of a protocol, in order, and behind `proved` a certificate or none; what is told of a query that isn't proved is not
//! looked at.
//!
//! Terms are read byte by byte, and facts, clauses, certificates and reports part by part. A byte takes what was read so far of a
//! term to what is read with it, ends a term that stands before it, or is refused. What stands round terms is read from left
//! to right, each part behind the one before. A refusal has a place and a code: that of a word, of a number or of a symbol's
//! arguments is where these begin. Parts are met in the order of their places, and the first fault that is met is told; only
//! the arguments of a symbol are counted where they end, and by then all of them were read without a fault. Where the bytes
//! end no word and no number has ended: none is looked up, and the fault is that the text does not go on.
//!
//! The definitions stand in `specs/`, each text as a function of what follows it. The laws about them that a reader would
//! ask for are the contracts of the functions below, which do nothing.
#![tactic(auto)]

ghost use Rattle.std.specs.Prelude.{◌≡◌, ℕ, List, [], ◌∷◌, codes, ◌+◌, ◌≤◌, false, length};
ghost use Rattle.spec_trees.specs.Tree.{node, depth};
ghost use Rattle.spec_calculus.specs.Syntax.{Protocol};
ghost use Rattle.spec_protocol_scope.specs.Spells.{Spells};
ghost use Rattle.spec_terms.specs.Term.{Attacker, Term};
ghost use Rattle.spec_clauses.specs.Fact.{Fact, Att, Mess, Tab, Ev, Mev, Bad, Clause};
ghost use Rattle.spec_certificates.specs.Certificate.{Certificate};
ghost use Rattle.spec_certificate_text.specs.Spelled.{Stops, goes_on};
ghost use Rattle.spec_certificate_text.specs.OfProtocol.{HasNames, IsTermOf, IsFactOf, IsClauseOf};
ghost use Rattle.spec_certificate_text.specs.OfProtocol.{IsCertificateOf, IsShort};
ghost use Rattle.spec_certificate_text.specs.Text.{term_text, fact_text, clause_text, certificate_text};
ghost use Rattle.spec_certificate_text.specs.Examples.{sending, answering, waiting, clause, v0, v1, c, k, enc};
ghost use Rattle.spec_certificate_text.specs.Examples.{made};
ghost use Rattle.spec_certificate_text.specs.Examples.{small};
ghost use Rattle.spec_calculus.specs.Bounds.{most_term_levels};
ghost use Rattle.spec_certificate_text.specs.Terms.{Code, Syntax, Number, Symbol, Arity};
ghost use Rattle.spec_certificate_text.specs.Runs.{Done, Refused, read_term};
ghost use Rattle.spec_certificate_text.specs.Outcomes.{Found, Faulty};
ghost use Rattle.spec_certificate_text.specs.Facts.{read_hypothesis, read_conclusion};
ghost use Rattle.spec_certificate_text.specs.Clauses.{read_clause};
ghost use Rattle.spec_certificate_text.specs.Walks as walks;
ghost use Rattle.spec_certificate_text.specs.Walks.{spelled_term, spelled_side, no_counts, with_state};
ghost use Rattle.spec_certificate_text.specs.Certificates.{read_certificate};
ghost use Rattle.spec_certificate_text.specs.Readable.{IsHypothesisOf, IsConclusionOf, IsReadable};
ghost use Rattle.spec_certificate_text.specs.Readable.{IsReadableCertificate};
ghost use Rattle.spec_certificate_text.specs.Reports.{Claim, read_report};
ghost use Rattle.spec_certificate_text.specs.ReportText.{SpellsReport};

use spec_protocol_scope::{distinct_words, words};

/// The texts of the seven clauses of a small protocol, which sends a new name encrypted.
pub fn worked_clauses()
    ensures channel { clause_text sending (clause [] (Att 0 c)) [] ≡ codes "=> att(c)" }
    ensures names { clause_text sending (clause [] (Att 0 (node Attacker (v0 ∷ [])))) [] ≡
        codes "=> att(@[v0])" }
    ensures encrypts { clause_text sending (clause (Att 0 v0 ∷ Att 0 v1 ∷ []) (Att 0 (enc v0 v1))) [] ≡
        codes "att(v0), att(v1) => att(enc(v0,v1))" }
    ensures hears { clause_text sending (clause (Mess 0 v1 v0 ∷ Att 0 v1 ∷ []) (Att 0 v0)) [] ≡
        codes "mess(v1,v0), att(v1) => att(v0)" }
    ensures says { clause_text sending (clause (Att 0 v0 ∷ Att 0 v1 ∷ []) (Mess 0 v0 v1)) [] ≡
        codes "att(v0), att(v1) => mess(v0,v1)" }
    ensures sends { clause_text sending (clause [] (Att 0 (enc (made 2) k))) [] ≡
        codes "=> att(enc(n@2[v0],k))" }
    ensures asks { clause_text sending (clause (Att 0 (made 2) ∷ []) (Bad [])) [] ≡
        codes "att(n@2[v0]) => bad()" }
{}

/// The texts of clauses about events, and of a certificate of one clause, which is one of the protocol.
pub fn worked_certificate()
    ensures begins { clause_text answering (clause (Mev 1 (made 3 ∷ []) ∷ [])
        (Att 0 (enc (made 3) k))) [] ≡ codes "mev(begin(n@3[v0])) => att(enc(n@3[v0],k))" }
    ensures ends { clause_text answering (clause (Ev 2 (v0 ∷ []) ∷ []) (Bad (v0 ∷ []))) [] ≡
        codes "ev(end(v0)) => bad(v0)" }
    ensures small { certificate_text sending small [] ≡
        codes "cert 1\nc => att(c)\nr 1\nr 3 1\ng 1 1\nend\n" }
    ensures is_one { IsCertificateOf sending small }
    ensures begins_is_one { IsClauseOf answering
        (clause (Mev 1 (made 3 ∷ []) ∷ []) (Att 0 (enc (made 3) k))) }
{}

/// The texts of clauses about a later phase and a table, and the refusals of phases and tables that the protocol hasn't.
pub fn worked_phases()
    ensures keeps { clause_text waiting (clause (Att 0 v0 ∷ []) (Att 1 v0)) [] ≡
        codes "att(v0) => att@1(v0)" }
    ensures says { clause_text waiting (clause (Att 1 v0 ∷ Att 1 v1 ∷ []) (Mess 1 v0 v1)) [] ≡
        codes "att@1(v0), att@1(v1) => mess@1(v0,v1)" }
    ensures stores { clause_text waiting (clause [] (Tab 1 (k ∷ []))) [] ≡
        codes "=> tab(keys(k))" }
    ensures keeps_is_one { IsClauseOf waiting (clause (Att 0 v0 ∷ []) (Att 1 v0)) }
    ensures past { read_hypothesis waiting (codes "att@2(c)") 0 ≡ Faulty 4 Symbol }
    ensures first { read_hypothesis waiting (codes "att@0(c)") 0 ≡ Faulty 4 Symbol }
    ensures zeros { read_hypothesis waiting (codes "att@01(c)") 0 ≡ Faulty 4 Number }
    ensures cut { read_hypothesis waiting (codes "att@2") 0 ≡ Faulty 5 Syntax }
    ensures table { read_conclusion waiting (codes "tab(k(c))") 0 ≡ Faulty 4 Symbol }
    ensures count { read_conclusion waiting (codes "tab(keys)") 0 ≡ Faulty 4 Arity }
{}

/// Terms of a protocol are told apart by their texts, where what follows begins with nothing that a word alone could go on with.
pub fn term_texts_determine_terms()
    ensures { (P : Protocol) (t u : Term) (k l : List ℕ) → HasNames P → IsTermOf P t →
        IsTermOf P u → Stops goes_on k → Stops goes_on l →
        term_text P t k ≡ term_text P u l → (t ≡ u) × (k ≡ l) }
{}

/// Facts of a protocol are told apart by their texts, whatever follows: none is the front of another's.
pub fn fact_texts_determine_facts()
    ensures { (P : Protocol) (f g : Fact Term) (k l : List ℕ) → HasNames P → IsFactOf P f →
        IsFactOf P g →
        fact_text P f k ≡ fact_text P g l → (f ≡ g) × (k ≡ l) }
{}

/// Clauses of a protocol are told apart by their texts, whatever follows: none is the front of another's.
pub fn clause_texts_determine_clauses()
    ensures { (P : Protocol) (c d : Clause Term) (k l : List ℕ) → HasNames P → IsClauseOf P c →
        IsClauseOf P d →
        clause_text P c k ≡ clause_text P d l → (c ≡ d) × (k ≡ l) }
{}

/// Certificates of a protocol are told apart by their texts, whatever follows: none is the front of another's.
pub fn certificate_texts_determine_certificates()
    ensures { (P : Protocol) (c d : Certificate) (k l : List ℕ) → HasNames P → IsCertificateOf P c →
        IsCertificateOf P d →
        certificate_text P c k ≡ certificate_text P d l → (c ≡ d) × (k ≡ l) }
{}

/// Every protocol that bytes spell has such names.
pub fn spelled_protocols_have_names()
    ensures { (bytes : List ℕ) (P : Protocol) → Spells bytes P → HasNames P }
{
    words();
    distinct_words();
}

/// Small texts, and what is read of them: a term, a bare symbol with a wrong number of arguments, an unknown argument, a
/// variable that is applied, numbers with a leading zero, an unknown restriction, a name without its arguments, a tuple of one
/// part, and texts that are cut off: before a term, within a word that would have a wrong number of arguments, or within one
/// that names nothing, within a number, and behind a term.
pub fn worked_readings()
    ensures term { read_term sending (codes "enc(n@2[v0],k))") 7 ≡
        Done (enc (made 2) k) 21 (codes ")") }
    ensures bare { read_term sending (codes "enc#") 0 ≡ Refused 0 Arity }
    ensures unknown { read_term sending (codes "enc(x)") 0 ≡ Refused 4 Symbol }
    ensures applied { read_term sending (codes "v01(c)") 0 ≡ Refused 0 Symbol }
    ensures point { read_term sending (codes "x@03[c]") 0 ≡ Refused 2 Number }
    ensures variable { read_term sending (codes "v01,") 0 ≡ Refused 1 Number }
    ensures restriction { read_term sending (codes "x@3#") 0 ≡ Refused 0 Symbol }
    ensures name { read_term sending (codes "n@2[]") 0 ≡ Refused 0 Arity }
    ensures part { read_term sending (codes "(c)") 0 ≡ Refused 2 Syntax }
    ensures cut { read_term sending (codes "enc(c,") 0 ≡ Refused 6 Syntax }
    ensures cut_symbol { read_term sending (codes "enc(enc") 0 ≡ Refused 7 Syntax }
    ensures cut_word { read_term sending (codes "enc(e") 0 ≡ Refused 5 Syntax }
    ensures cut_number { read_term sending (codes "(c,v01") 0 ≡ Refused 6 Syntax }
    ensures cut_point { read_term sending (codes "x@3") 0 ≡ Refused 3 Syntax }
    ensures cut_behind { read_term sending (codes "@[c]") 0 ≡ Refused 4 Syntax }
{}

/// A term that was read is what the bytes begin with: its text, and then the rest. It is a term of the protocol, at most
/// within the limit of levels, and the place is the one behind it.
pub fn what_is_read_is_there()
    ensures text { (P : Protocol) (bytes : List ℕ) (at place : ℕ) (t : Term) (rest : List ℕ) →
        read_term P bytes at ≡ Done t place rest → bytes ≡ term_text P t rest }
    ensures is_of { (P : Protocol) (bytes : List ℕ) (at place : ℕ) (t : Term) (rest : List ℕ) →
        read_term P bytes at ≡ Done t place rest → IsTermOf P t × (depth t ≤ most_term_levels) }
    ensures place { (P : Protocol) (bytes : List ℕ) (at place : ℕ) (t : Term) (rest : List ℕ) →
        read_term P bytes at ≡ Done t place rest → place + length rest ≡ at + length bytes }
{}

/// The text of a term of the protocol that is within the limit of levels is read as that term, where a byte follows with which
/// no word alone could go on.
pub fn term_texts_are_read()
    ensures { (P : Protocol) (t : Term) (at b : ℕ) (rest : List ℕ) → HasNames P → IsTermOf P t →
        depth t ≤ most_term_levels → goes_on b ≡ false →
        (place : ℕ) × (read_term P (term_text P t (b ∷ rest)) at ≡ Done t place (b ∷ rest)) }
{}

/// Facts that were read are what the bytes begin with, and the texts of facts that may stand there are read as these.
pub fn facts_are_read()
    ensures hypotheses { (P : Protocol) (bytes : List ℕ) (at place : ℕ) (f : Fact Term)
        (rest : List ℕ) →
        read_hypothesis P bytes at ≡ Found f place rest → (bytes ≡ fact_text P f rest) ×
        IsHypothesisOf P f }
    ensures conclusions { (P : Protocol) (bytes : List ℕ) (at place : ℕ) (f : Fact Term)
        (rest : List ℕ) →
        read_conclusion P bytes at ≡ Found f place rest → (bytes ≡ fact_text P f rest) ×
        IsConclusionOf P f }
    ensures hypothesis_texts { (P : Protocol) (f : Fact Term) (rest : List ℕ) (at : ℕ) →
        HasNames P → IsHypothesisOf P f →
        (place : ℕ) × (read_hypothesis P (fact_text P f rest) at ≡ Found f place rest) }
    ensures conclusion_texts { (P : Protocol) (f : Fact Term) (rest : List ℕ) (at : ℕ) →
        HasNames P → IsConclusionOf P f →
        (place : ℕ) × (read_conclusion P (fact_text P f rest) at ≡ Found f place rest) }
{}

/// A clause that was read is what the bytes begin with, and may stand in a text; the text of such a clause is read as this
/// clause, whatever follows.
pub fn clauses_are_read()
    ensures there { (P : Protocol) (bytes : List ℕ) (at place : ℕ) (c : Clause Term)
        (rest : List ℕ) →
        read_clause P bytes at ≡ Found c place rest → (bytes ≡ clause_text P c rest) ×
        IsReadable P c }
    ensures texts { (P : Protocol) (c : Clause Term) (rest : List ℕ) (at : ℕ) → HasNames P →
        IsReadable P c →
        (place : ℕ) × (read_clause P (clause_text P c rest) at ≡ Found c place rest) }
{}

/// A certificate that was read is what the bytes begin with, and may stand in a text; the text of such a certificate is read
/// as this certificate, whatever follows. So bytes that are refused begin with no certificate's text, and bytes begin with
/// one at most.
pub fn certificates_are_read()
    ensures there { (P : Protocol) (bytes : List ℕ) (at place : ℕ) (c : Certificate)
        (rest : List ℕ) →
        read_certificate P bytes at ≡ Found c place rest → (bytes ≡ certificate_text P c rest) ×
        IsReadableCertificate P c }
    ensures texts { (P : Protocol) (c : Certificate) (rest : List ℕ) (at : ℕ) → HasNames P →
        IsReadableCertificate P c →
        (place : ℕ) × (read_certificate P (certificate_text P c rest) at ≡ Found c place rest) }
    ensures refused { (P : Protocol) (bytes : List ℕ) (at place : ℕ) (code : Code) (c : Certificate)
        (rest : List ℕ) →
        HasNames P → read_certificate P bytes at ≡ Faulty place code → IsReadableCertificate P c →
        bytes ≡ certificate_text P c rest → ⊥ }
    ensures one { (P : Protocol) (c d : Certificate) (k l : List ℕ) → HasNames P →
        IsReadableCertificate P c →
        IsReadableCertificate P d → certificate_text P c k ≡ certificate_text P d l → (c ≡ d) ×
        (k ≡ l) }
{}

/// A clause is read as it is on a walk that keeps its state, be that a number.
pub fn clauses_are_read_on_walks()
    ensures { (P : Protocol) (state : ℕ) (bytes : List ℕ) (at : ℕ) →
        walks.read_clause (spelled_term P) (spelled_side P) no_counts P state bytes at ≡
        with_state state (read_clause P bytes at) }
{}

/// Claims that were read are what all bytes spell, and the text of a report is read as its claims. So bytes that are refused
/// are no report's text, and a text has one list of claims.
pub fn reports_are_read()
    ensures there { (P : Protocol) (bytes : List ℕ) (claims : List Claim) (place : ℕ)
        (rest : List ℕ) →
        read_report P bytes ≡ Found claims place rest → SpellsReport P bytes claims }
    ensures texts { (P : Protocol) (bytes : List ℕ) (claims : List Claim) → HasNames P →
        IsShort (length P.queries) →
        SpellsReport P bytes claims → (place : ℕ) × (read_report P bytes ≡ Found claims place []) }
    ensures refused { (P : Protocol) (bytes : List ℕ) (claims : List Claim) (place : ℕ)
        (code : Code) →
        HasNames P → IsShort (length P.queries) →
        read_report P bytes ≡ Faulty place code → SpellsReport P bytes claims → ⊥ }
    ensures one { (P : Protocol) (bytes : List ℕ) (claims others : List Claim) →
        HasNames P → IsShort (length P.queries) →
        SpellsReport P bytes claims → SpellsReport P bytes others → claims ≡ others }
{}
