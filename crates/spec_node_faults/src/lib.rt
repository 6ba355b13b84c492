//! Certificates by numbers as they stand in a text, and the places of their faults, each code by itself.
//!
//! A text of the grammar is a certificate whose words, digits and counts of numbers are left open. Each code has a list of the
//! places at which it stands; the first fault is the one of the least place, and at one place the one of the least number.
#![tactic(auto)]

ghost use Rattle.std.specs.Prelude.{◌≡◌, ℕ, Some, None, List, [], ◌∷◌, ◌++◌, ◌≤◌, length, codes};
ghost use Rattle.spec_calculus.specs.Bounds.{most_clauses};
ghost use Rattle.spec_calculus.specs.Syntax.{Protocol};
ghost use Rattle.spec_clauses.specs.Inclusion.{Has};
ghost use Rattle.spec_certificates.specs.Certificate.{Certificate};
ghost use Rattle.spec_certificate_text.specs.OfProtocol.{IsCertificateOf, HasNames};
ghost use Rattle.spec_node_tables.specs.Nodes.{NodeCertificate, with_nodes};
ghost use Rattle.spec_node_tables.specs.Text.{numbered_text, text_with_nodes};
ghost use Rattle.spec_node_tables.specs.Large.{FitsInNodes};
ghost use Rattle.spec_certificate_text.specs.Loose.{Applied, Tupled, Made};
ghost use Rattle.spec_certificate_text.specs.Examples.{sending, answering};
ghost use Rattle.spec_node_tables.specs.Examples.{silent};
ghost use Rattle.spec_node_faults.specs.Loose.{Att, Mess, Bad, LooseCertificate, certificate_onto, written};
ghost use Rattle.spec_certificate_text.specs.Terms.{Code, Number, Symbol, Arity, Count, NodeOrder, NodeLarge};
ghost use Rattle.spec_node_faults.specs.Faults.{Fault, NotAfter, places, first_fault};
ghost use Rattle.spec_node_faults.specs.Grammar.{IsInGrammar, IsNumberable};
ghost use Rattle.spec_node_faults.specs.Examples.{over, alone, of, concludes, from, certificate, pair, enc, happened, apart, silent_nodes, four_clauses, last_clause, Tells, fault, got, nodes, c, v0, twice, doubled};

/// The certificate of a name that nobody uses has no fault; without its last clause a node is never reached.
pub fn worked_certificates()
    ensures none { first_fault silent 0 (certificate silent_nodes (four_clauses ++
        (last_clause ∷ []))) ≡
        None }
    ensures unreached { Tells silent (certificate silent_nodes four_clauses)
        (codes "cert 2\nn c\nn v0\nn @ 2\nn v1\nn s\nc => att(1)\nc => att(3)\n" ++
        (codes "c mess(4,2), att(4) => att(2)\nc att(2), att(4) => mess(2,4)\n" ++ codes "end\n"))
        115 NodeOrder }
{}

/// Small texts, and the faults of numbers behind nodes, and of nodes that stand earlier: which comes first, and where.
pub fn worked_numbers_of_nodes()
    ensures zero { Tells sending (nodes (c ∷ pair (codes "1") (codes "0") ∷ []))
        (codes "cert 2\nn c\nn () 1 0\nend\n") 18 NodeOrder }
    ensures own { Tells sending (nodes (c ∷ pair (codes "1") (codes "2") ∷ []))
        (codes "cert 2\nn c\nn () 1 2\nend\n") 18 NodeOrder }
    ensures twice { Tells sending (nodes (c ∷ c ∷ []))
        (codes "cert 2\nn c\nn c\nend\n") 13 NodeOrder }
    ensures applied_twice { Tells sending
        (nodes (c ∷ enc (codes "1") (codes "1") ∷ enc (codes "1") (codes "1") ∷ []))
        (codes "cert 2\nn c\nn enc 1 1\nn enc 1 1\nend\n") 23 NodeOrder }
    ensures leading_zero { Tells sending (nodes (c ∷ pair (codes "1") (codes "01") ∷ []))
        (codes "cert 2\nn c\nn () 1 01\nend\n") 18 Number }
    ensures variable { Tells sending (nodes (alone (codes "v01") ∷ []))
        (codes "cert 2\nn v01\nend\n") 10 Number }
    ensures point { Tells sending
        (nodes (v0 ∷ over (Made (codes "x") (codes "02")) (codes "1" ∷ []) ∷ []))
        (codes "cert 2\nn v0\nn x@02 1\nend\n") 16 Number }
{}

/// Small texts, and the faults of symbols and of their counts of arguments: which comes first, and where.
pub fn worked_symbols_of_nodes()
    ensures unknown { Tells sending (nodes (alone (codes "x") ∷ []))
        (codes "cert 2\nn x\nend\n") 9 Symbol }
    ensures restriction { Tells sending
        (nodes (v0 ∷ over (Made (codes "x") (codes "2")) (codes "1" ∷ []) ∷ []))
        (codes "cert 2\nn v0\nn x@2 1\nend\n") 14 Symbol }
    ensures applied_variable { Tells sending
        (nodes (c ∷ over (Applied (codes "v0")) (codes "1" ∷ []) ∷ []))
        (codes "cert 2\nn c\nn v0 1\nend\n") 13 Symbol }
    ensures constant { Tells sending (nodes (c ∷ over (Applied (codes "k")) (codes "1" ∷ []) ∷ []))
        (codes "cert 2\nn c\nn k 1\nend\n") 13 Arity }
    ensures bare { Tells sending (nodes (alone (codes "enc") ∷ []))
        (codes "cert 2\nn enc\nend\n") 9 Arity }
    ensures name { Tells sending (nodes (over (Made (codes "n") (codes "2")) [] ∷ []))
        (codes "cert 2\nn n@2\nend\n") 9 Arity }
    ensures empty_tuple { Tells sending (nodes (over Tupled [] ∷ []))
        (codes "cert 2\nn ()\nend\n") 9 Arity }
    ensures part { Tells sending (nodes (c ∷ over Tupled (codes "1" ∷ []) ∷ []))
        (codes "cert 2\nn c\nn () 1\nend\n") 13 Arity }
    ensures within { Tells sending (nodes (c ∷ over (Applied (codes "enc")) (codes "0" ∷ []) ∷ []))
        (codes "cert 2\nn c\nn enc 0\nend\n") 17 NodeOrder }
{}

/// Small texts, and the faults of numbers in clauses, and behind all clauses: which comes first, and where.
pub fn worked_numbers_of_clauses()
    ensures zero { Tells sending (certificate (c ∷ []) (got (codes "1" ∷ codes "0" ∷ [])))
        (codes "cert 2\nn c\nc => att(1)\nc => att(0)\nend\n") 32 NodeOrder }
    ensures past { Tells sending (certificate (c ∷ []) (got (codes "1" ∷ codes "2" ∷ [])))
        (codes "cert 2\nn c\nc => att(1)\nc => att(2)\nend\n") 32 NodeOrder }
    ensures not_next { Tells sending (certificate (c ∷ v0 ∷ []) (got (codes "2" ∷ codes "1" ∷ [])))
        (codes "cert 2\nn c\nn v0\nc => att(2)\nc => att(1)\nend\n") 25 NodeOrder }
    ensures not_next_within { Tells sending
        (certificate (c ∷ v0 ∷ enc (codes "2") (codes "1") ∷ []) (got (codes "3" ∷ [])))
        (codes "cert 2\nn c\nn v0\nn enc 2 1\nc => att(3)\nend\n") 35 NodeOrder }
    ensures unreached { Tells sending (certificate (c ∷ v0 ∷ []) (got (codes "1" ∷ [])))
        (codes "cert 2\nn c\nn v0\nc => att(1)\nend\n") 28 NodeOrder }
    ensures leading_zero { Tells sending (certificate (c ∷ []) (got (codes "01" ∷ [])))
        (codes "cert 2\nn c\nc => att(01)\nend\n") 20 Number }
{}

/// Small texts, and the faults of events: which comes first, and where.
pub fn worked_events_of_clauses()
    ensures unknown { Tells answering
        (certificate (c ∷ []) (happened (codes "x") (codes "1" ∷ []) ∷ []))
        (codes "cert 2\nn c\nc mev(x(1)) => bad()\nend\n") 17 Symbol }
    ensures bare { Tells answering (certificate [] (happened (codes "begin") [] ∷ []))
        (codes "cert 2\nc mev(begin) => bad()\nend\n") 13 Arity }
    ensures two { Tells answering
        (certificate (c ∷ []) (happened (codes "begin") (codes "1" ∷ codes "1" ∷ []) ∷ []))
        (codes "cert 2\nn c\nc mev(begin(1,1)) => bad()\nend\n") 17 Arity }
    ensures within { Tells answering
        (certificate (c ∷ []) (happened (codes "begin") (codes "1" ∷ codes "2" ∷ []) ∷ []))
        (codes "cert 2\nn c\nc mev(begin(1,2)) => bad()\nend\n") 25 NodeOrder }
{}

/// Small texts, and the faults of constraints: a bound variable stands in a constraint alone, and a constraint has as many left
/// sides as right ones.
pub fn worked_constraints()
    ensures none { first_fault sending 0 (certificate (c ∷ alone (codes "?0") ∷ [])
        (apart (codes "1" ∷ []) (codes "2" ∷ []) ∷ [])) ≡ None }
    ensures outside { Tells sending (certificate (alone (codes "?0") ∷ []) (got (codes "1" ∷ [])))
        (codes "cert 2\nn ?0\nc => att(1)\nend\n") 21 Symbol }
    ensures unpaired { Tells sending
        (certificate (c ∷ []) (apart (codes "1" ∷ []) (codes "1" ∷ codes "1" ∷ []) ∷ []))
        (codes "cert 2\nn c\nc diff(1;1,1) => bad()\nend\n") 13 Arity }
    ensures number { Tells sending (nodes (alone (codes "?01") ∷ []))
        (codes "cert 2\nn ?01\nend\n") 10 Number }
{}

/// A node of fifteen that doubles again and again has more symbols than the limit: fourteen are allowed.
pub fn worked_sizes()
    ensures large { Tells sending (nodes (c ∷ (doubled ++ (twice (codes "14") ∷ []))))
        (codes "cert 2\nn c\nn () 1 1\nn () 2 2\nn () 3 3\nn () 4 4\nn () 5 5\nn () 6 6\n" ++
        (codes "n () 7 7\nn () 8 8\nn () 9 9\nn () 10 10\nn () 11 11\nn () 12 12\n" ++
        codes "n () 13 13\nn () 14 14\nend\n")) 138 NodeLarge }
    ensures allowed { places sending 0 (nodes (c ∷ doubled)) NodeLarge ≡ [] }
    ensures clause { first_fault sending 0 (certificate (c ∷ doubled)
        (concludes (of (Mess None) (codes "14" ∷ codes "1" ∷ [])) ∷ [])) ≡ Some (fault 149 NodeLarge) }
    ensures behind { first_fault sending 0 (certificate (c ∷ doubled)
        (from (of (Att None) (codes "14" ∷ []) ∷ []) (of Bad []) ∷ [])) ≡ None }
{}

/// A certificate by numbers, written with the words of a protocol, has the text that the protocol gives it.
pub fn written_texts_are_texts()
    ensures { (P : Protocol) (c : NodeCertificate) (rest : List ℕ) →
        certificate_onto (written P c) rest ≡ numbered_text P c rest }
{}

/// The text of a certificate of a protocol that may be written by a table has no fault, of whatever code.
pub fn texts_have_no_faults()
    ensures { (P : Protocol) (c : Certificate) (at : ℕ) (code : Code) → HasNames P →
        IsCertificateOf P c → FitsInNodes c.clauses → length c.clauses ≤ most_clauses →
        places P at (written P (with_nodes c)) code ≡ [] }
{}

/// The first fault of a certificate of the grammar stands there, and none stands at an earlier place, or at the same place with
/// a lesser number; where there is no first one, there is none.
pub fn first_faults_are_first()
    ensures stands { (P : Protocol) (at : ℕ) (c : LooseCertificate) (f : Fault) →
        first_fault P at c ≡ Some f → Has (places P at c f.code) f.place }
    ensures first { (P : Protocol) (at : ℕ) (c : LooseCertificate) (f g : Fault) →
        first_fault P at c ≡ Some f → Has (places P at c g.code) g.place → NotAfter f g }
    ensures none { (P : Protocol) (at : ℕ) (c : LooseCertificate) (g : Fault) →
        first_fault P at c ≡ None → Has (places P at c g.code) g.place → ⊥ }
{}

/// A certificate of the grammar has no fault exactly where it is written so of a certificate that may be written by a table;
/// and so bytes are then the text of that certificate.
pub fn faultless_texts_are_texts()
    ensures meant { (P : Protocol) (at : ℕ) (c : LooseCertificate) → HasNames P → IsInGrammar c →
        ((code : Code) → places P at c code ≡ []) →
        (x : Certificate) × IsNumberable P x × (written P (with_nodes x) ≡ c) }
    ensures text { (P : Protocol) (at : ℕ) (c : LooseCertificate) → HasNames P → IsInGrammar c →
        ((code : Code) → places P at c code ≡ []) →
        (x : Certificate) × IsNumberable P x ×
        ((rest : List ℕ) → certificate_onto c rest ≡ text_with_nodes P x rest) }
    ensures grammar { (P : Protocol) (x : Certificate) → HasNames P → IsNumberable P x →
        IsInGrammar (written P (with_nodes x)) }
    ensures none { (P : Protocol) (at : ℕ) (x : Certificate) (code : Code) → HasNames P →
        IsNumberable P x → places P at (written P (with_nodes x)) code ≡ [] }
    ensures one { (P : Protocol) (x y : Certificate) (k l : List ℕ) → HasNames P →
        IsNumberable P x → IsNumberable P y →
        text_with_nodes P x k ≡ text_with_nodes P y l → (x ≡ y) × (k ≡ l) }
{}
