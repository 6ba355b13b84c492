//! Certificates by numbers in bytes: which bytes spell one, what is read of bytes, and the first fault that stands in them.
//!
//! The kinds of texts are those of the grammar, whatever their words name: nodes, each on a line, clauses with numbers for
//! terms, rows, and the last line. What stands before counts: a node's faults are told by the nodes before it, and a number's
//! in a clause by the walk through all numbers before it. A fault stands behind parts in which none stands: digits that are no
//! number, a word that names nothing, a symbol or an event over another number of numbers, a clause past the limit, a number or
//! a node out of order, and too many symbols. Of syntax a fault stands where some text goes on up to there, and none with the
//! byte there, or with the end. The first fault is the one at the earliest place, and at this place the one of the least number.
//!
//! Reading goes part by part, and tells the first fault that it meets.
//!
//! The definitions stand in `specs/`. The laws about them that a reader would ask for are the contracts of the functions
//! below, which do nothing.
#![tactic(auto)]

ghost use Rattle.std.specs.Prelude.{◌≡◌, ℕ, List, [], ◌++◌, length, codes};
ghost use Rattle.spec_calculus.specs.Syntax.{Protocol};
ghost use Rattle.spec_certificates.specs.Certificate.{Certificate};
ghost use Rattle.spec_certificate_text.specs.OfProtocol.{HasNames, IsShort};
ghost use Rattle.spec_certificate_text.specs.Terms.{Code, Syntax, Number, Symbol, Arity, NodeOrder};
ghost use Rattle.spec_certificate_text.specs.Outcomes.{Found, Faulty};
ghost use Rattle.spec_certificate_text.specs.Reports.{Claim};
ghost use Rattle.spec_certificate_text.specs.Examples.{sending, answering};
ghost use Rattle.spec_node_tables.specs.Text.{text_with_nodes};
ghost use Rattle.spec_node_tables.specs.Examples.{silent, silent_certificate};
ghost use Rattle.spec_certificate_faults.specs.First.{IsFirstFault};
ghost use Rattle.spec_node_faults.specs.Grammar.{IsNumberable};
ghost use Rattle.spec_node_reading.specs.Clauses.{numbered_certificates, certificates_of_both};
ghost use Rattle.spec_node_reading.specs.Readable.{SpellsNumbered, SpellsPlain, SpellsCertificate};
ghost use Rattle.spec_node_reading.specs.Reading.{read_numbered, read_in_both};
ghost use Rattle.spec_node_reading.specs.Reports.{SpellsReport, read_report_in_both, reports_of_both};

/// The certificate of a name that nobody uses is read; without its last clause a node is never reached, which is told where
/// the rows begin. With a node twice at the start this is told at the second.
pub fn worked_certificates()
    ensures silent { read_numbered silent
        (codes "cert 2\nn c\nn v0\nn @ 2\nn v1\nn s\nc => att(1)\nc => att(3)\n" ++
        (codes "c mess(4,2), att(4) => att(2)\nc att(2), att(4) => mess(2,4)\n" ++
        codes "c att(5) => bad()\nr 1\nr 2\nr 3 1\nr 4\nr 5 1\nend\n#")) 0 ≡
        Found silent_certificate 161 (codes "#") }
    ensures unreached { read_numbered silent
        (codes "cert 2\nn c\nn v0\nn @ 2\nn v1\nn s\nc => att(1)\nc => att(3)\n" ++
        (codes "c mess(4,2), att(4) => att(2)\nc att(2), att(4) => mess(2,4)\n" ++
        codes "r 1\nr 2\nr 3 1\nr 4\nr 5 1\nend\n")) 0 ≡
        Faulty 115 NodeOrder }
    ensures twice { read_numbered silent (codes "cert 2\nn c\nn c\nn v0\n") 0 ≡
        Faulty 13 NodeOrder }
{}

/// Of nodes: a tuple of no number or of one, a variable with a number, a node that stands earlier before a byte that can't
/// follow, symbols with a wrong count of numbers before such a byte, a number with a leading zero, one that is not below the
/// node's own, and texts that are cut off within a word, behind a number and behind `()`.
pub fn worked_nodes()
    ensures empty { read_numbered sending (codes "cert 2\nn ()\n") 0 ≡ Faulty 9 Arity }
    ensures part { read_numbered sending (codes "cert 2\nn c\nn () 1\n") 0 ≡ Faulty 13 Arity }
    ensures variable { read_numbered sending (codes "cert 2\nn c\nn v0 1\n") 0 ≡ Faulty 13 Symbol }
    ensures spaced { read_numbered sending (codes "cert 2\nn v0 #") 0 ≡ Faulty 9 Symbol }
    ensures earlier { read_numbered sending (codes "cert 2\nn c\nn c#") 0 ≡ Faulty 13 NodeOrder }
    ensures bare { read_numbered sending (codes "cert 2\nn enc#") 0 ≡ Faulty 9 Arity }
    ensures spaced_bare { read_numbered sending (codes "cert 2\nn enc #") 0 ≡ Faulty 13 Syntax }
    ensures unknown { read_numbered sending (codes "cert 2\nn x#") 0 ≡ Faulty 9 Symbol }
    ensures restriction { read_numbered sending (codes "cert 2\nn x@2#") 0 ≡ Faulty 9 Symbol }
    ensures point { read_numbered sending (codes "cert 2\nn x@02#") 0 ≡ Faulty 11 Number }
    ensures leading { read_numbered sending (codes "cert 2\nn v01\n") 0 ≡ Faulty 10 Number }
    ensures own { read_numbered sending (codes "cert 2\nn c\nn () 1 2#") 0 ≡ Faulty 18 NodeOrder }
    ensures attacker { read_numbered sending (codes "cert 2\nn c\nn @ 1 1\n") 0 ≡ Faulty 16 Syntax }
    ensures cut_word { read_numbered sending (codes "cert 2\nn x") 0 ≡ Faulty 10 Syntax }
    ensures cut_number { read_numbered sending (codes "cert 2\nn c\nn () 2") 0 ≡
        Faulty 17 Syntax }
    ensures cut_tuple { read_numbered sending (codes "cert 2\nn ()") 0 ≡ Faulty 11 Syntax }
    ensures format { read_numbered sending (codes "cert 3\n") 0 ≡ Faulty 5 Syntax }
{}

/// Of clauses: numbers that are 0, past the table, or not the next; a number with a leading zero; events that are unknown, or
/// over a wrong count of numbers, before a byte that can't follow; and what stands behind the clauses where some node was
/// never reached: this is told where a row or the last line begins, and else that no text goes on.
pub fn worked_clauses()
    ensures zero { read_numbered sending (codes "cert 2\nn c\nc => att(0#") 0 ≡
        Faulty 20 NodeOrder }
    ensures past { read_numbered sending (codes "cert 2\nn c\nc => att(2#") 0 ≡
        Faulty 20 NodeOrder }
    ensures not_next { read_numbered sending (codes "cert 2\nn c\nn v0\nc => att(2)\n") 0 ≡
        Faulty 25 NodeOrder }
    ensures leading { read_numbered sending (codes "cert 2\nn c\nc => att(01)\n") 0 ≡
        Faulty 20 Number }
    ensures event { read_numbered answering (codes "cert 2\nc mev(x#") 0 ≡ Faulty 13 Symbol }
    ensures bare { read_numbered answering (codes "cert 2\nc mev(begin#") 0 ≡ Faulty 13 Arity }
    ensures two { read_numbered answering (codes "cert 2\nn c\nc mev(begin(1,1)#") 0 ≡
        Faulty 17 Arity }
    ensures rows { read_numbered sending (codes "cert 2\nn c\nr#") 0 ≡ Faulty 11 NodeOrder }
    ensures end { read_numbered sending (codes "cert 2\nn c\nend\n") 0 ≡ Faulty 11 NodeOrder }
    ensures neither { read_numbered sending (codes "cert 2\nn c\n#") 0 ≡ Faulty 11 Syntax }
    ensures cut { read_numbered sending (codes "cert 2\nn c\n") 0 ≡ Faulty 11 Syntax }
{}

/// There is one first fault at most, of a certificate by numbers, of one in either format, and of a report.
pub fn first_faults_are_one()
    ensures numbered { (P : Protocol) (bytes : List ℕ) (at place other : ℕ) (code another : Code) →
        IsFirstFault (numbered_certificates P) bytes at place code →
        IsFirstFault (numbered_certificates P) bytes at other another →
        (place ≡ other) × (code ≡ another) }
    ensures both { (P : Protocol) (bytes : List ℕ) (at place other : ℕ) (code another : Code) →
        IsFirstFault (certificates_of_both P) bytes at place code →
        IsFirstFault (certificates_of_both P) bytes at other another →
        (place ≡ other) × (code ≡ another) }
    ensures report { (P : Protocol) (bytes : List ℕ) (place other : ℕ) (code another : Code) →
        IsFirstFault (reports_of_both P) bytes 0 place code →
        IsFirstFault (reports_of_both P) bytes 0 other another →
        (place ≡ other) × (code ≡ another) }
{}

/// Bytes begin with the text of one certificate at most, in whichever format, and no text of one format is the front of one of
/// the other.
pub fn certificates_are_one()
    ensures one { (P : Protocol) (bytes : List ℕ) (c d : Certificate) (k l : List ℕ) → HasNames P →
        SpellsCertificate P bytes c k →
        SpellsCertificate P bytes d l → (c ≡ d) × (k ≡ l) }
    ensures apart { (P : Protocol) (bytes : List ℕ) (c d : Certificate) (k l : List ℕ) →
        SpellsPlain P bytes c k → SpellsNumbered P bytes d l → ⊥ }
{}

/// Bytes are the text of one report at most, whose certificates are of either format.
pub fn reports_are_one()
    ensures { (P : Protocol) (bytes : List ℕ) (claims others : List Claim) → HasNames P →
        SpellsReport P bytes claims → SpellsReport P bytes others → claims ≡ others }
{}

/// A certificate that was read is the one that the bytes spell, and then the rest: it may be written by a table, and its text by
/// its table is there; or it may be written without one, and its text is there. Claims that were read are what all bytes spell.
pub fn what_is_read_is_spelled()
    ensures numbered { (P : Protocol) (bytes : List ℕ) (at place : ℕ) (c : Certificate)
        (rest : List ℕ) →
        read_numbered P bytes at ≡ Found c place rest → SpellsNumbered P bytes c rest }
    ensures both { (P : Protocol) (bytes : List ℕ) (at place : ℕ) (c : Certificate)
        (rest : List ℕ) →
        read_in_both P bytes at ≡ Found c place rest → SpellsCertificate P bytes c rest }
    ensures report { (P : Protocol) (bytes : List ℕ) (claims : List Claim) (place : ℕ)
        (rest : List ℕ) →
        read_report_in_both P bytes ≡ Found claims place rest → SpellsReport P bytes claims }
{}

/// The text of a certificate that may be written by a table is read as this certificate, whatever follows; so is a certificate in
/// whichever format, and so are the claims of a report.
pub fn texts_are_read()
    ensures numbered { (P : Protocol) (c : Certificate) (rest : List ℕ) (at : ℕ) → HasNames P →
        IsNumberable P c →
        (place : ℕ) × (read_numbered P (text_with_nodes P c rest) at ≡ Found c place rest) }
    ensures both { (P : Protocol) (bytes : List ℕ) (c : Certificate) (rest : List ℕ) (at : ℕ) →
        HasNames P → SpellsCertificate P bytes c rest →
        (place : ℕ) × (read_in_both P bytes at ≡ Found c place rest) }
    ensures report { (P : Protocol) (bytes : List ℕ) (claims : List Claim) → HasNames P →
        IsShort (length P.queries) → SpellsReport P bytes claims →
        (place : ℕ) × (read_report_in_both P bytes ≡ Found claims place []) }
{}
