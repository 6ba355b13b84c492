//! Certificates by a table of nodes: each distinct term of the clauses is written once, and the clauses name terms by numbers.
//!
//! The table has the terms that a walk through the clauses completes, each the first time: the clauses in order, in each
//! the hypotheses in order, the constraints and then the conclusion, terms from left to right, arguments before the term that
//! they stand in.
//! The text is lines: `cert 2`, the nodes behind `n `, the clauses behind `c ` with numbers for terms, the rows as ever, and
//! `end`.
//!
//! The definitions stand in `specs/`, each text as a function of what follows it. The laws about them that a reader would
//! ask for are the contracts of the functions below, which do nothing.
#![tactic(auto)]

ghost use Rattle.std.specs.Prelude.{◌≡◌, ◌↔◌, ℕ, ◌<◌, ◌≤◌, false, Some, List, [], ◌∷◌, ◌++◌, length, codes};
ghost use Rattle.std.specs.List.{AllByRecursion, IsDistinct};
ghost use Rattle.spec_trees.specs.Tree.{node};
ghost use Rattle.spec_calculus.specs.Syntax.{Protocol};
ghost use Rattle.spec_calculus.specs.Points.{numbered};
ghost use Rattle.spec_terms.specs.Term.{Attacker, Term};
ghost use Rattle.spec_clauses.specs.Fact.{Clause, same_term, total, clause_size};
ghost use Rattle.spec_clauses.specs.Limits.{IsWithinLimit};
ghost use Rattle.spec_clauses.specs.Inclusion.{Has};
ghost use Rattle.spec_certificates.specs.Certificate.{Certificate};
ghost use Rattle.spec_certificate_text.specs.OfProtocol.{IsShort, HasNames, IsCertificateOf};
ghost use Rattle.spec_certificate_text.specs.Text.{term_text, clause_text, certificate_text};
ghost use Rattle.spec_certificate_text.specs.Examples.{answering, v0, v1, c};
ghost use Rattle.spec_certificate_text.specs.Sides.{spelled_clause};
ghost use Rattle.spec_node_tables.specs.Table.{terms_in_order, table, number_in, arguments_of, IsSubterm};
ghost use Rattle.spec_node_tables.specs.Nodes.{NodeCertificate, with_nodes, without_nodes, HasShortDiffs};
ghost use Rattle.spec_node_tables.specs.Text.{clause_over, numbered_text, text_with_nodes};
ghost use Rattle.spec_node_tables.specs.OfProtocol.{IsNodeCertificateOf};
ghost use Rattle.spec_node_tables.specs.Order.{IsInOrder};
ghost use Rattle.spec_node_tables.specs.Large.{most_certificate_symbols, FitsInNodes, is_large_in_nodes};
ghost use Rattle.spec_node_tables.specs.Examples.{silent, s, silent_clauses, silent_certificate, paired};

/// The table of the five clauses of a protocol that does nothing, and the texts of its certificate and of one with an event,
/// a tuple and a restricted name.
pub fn worked_certificates()
    ensures table { table silent_clauses ≡
        c ∷ v0 ∷ node Attacker (v0 ∷ []) ∷ v1 ∷ s ∷ [] }
    ensures silent { text_with_nodes silent silent_certificate [] ≡
        codes "cert 2\nn c\nn v0\nn @ 2\nn v1\nn s\nc => att(1)\nc => att(3)\n" ++
        (codes "c mess(4,2), att(4) => att(2)\nc att(2), att(4) => mess(2,4)\n" ++
        codes "c att(5) => bad()\nr 1\nr 2\nr 3 1\nr 4\nr 5 1\nend\n") }
    ensures paired { text_with_nodes answering paired [] ≡
        codes "cert 2\nn v0\nn n@3 1\nn k\nn enc 2 3\nn () 2 4\n" ++
        codes "c mev(begin(2)) => att(5)\nr 1 1\ng 1 1\nend\n" }
{}

/// The table: no term stands in it twice; it has just the subterms of the clauses' terms; the arguments of each term have
/// lower numbers; and the number of a term of it is where that stands.
pub fn tables_are_of_the_clauses()
    ensures distinct { (cs : List (Clause Term)) → IsDistinct same_term (table cs) }
    ensures subterms { (cs : List (Clause Term)) (t : Term) → Has (table cs) t ↔
        ((u : Term) × Has (terms_in_order cs) u × IsSubterm t u) }
    ensures arguments_first { (cs : List (Clause Term)) (t u : Term) → Has (table cs) t →
        Has (arguments_of t) u → number_in (table cs) u < number_in (table cs) t }
    ensures numbers { (cs : List (Clause Term)) (t : Term) → Has (table cs) t →
        numbered (table cs) (number_in (table cs) t) ≡ Some t }
{}

/// A certificate by numbers means the certificate that it was made of, where the clauses' variables in constraints are those
/// that a text spells as such.
pub fn numbers_give_certificates_back()
    ensures { (c : Certificate) → AllByRecursion HasShortDiffs c.clauses →
        without_nodes (with_nodes c) ≡ c }
{}

/// Clauses are written alike in both formats, but for their terms: where each term has its own text, the clause's text is the
/// one without a table.
pub fn clauses_are_written_alike()
    ensures { (P : Protocol) (c : Clause Term) (rest : List ℕ) →
        clause_text P c rest ≡ clause_over (term_text P) P (spelled_clause c) rest }
{}

/// Certificates by numbers are told apart by their texts, whatever follows: none is the front of another's.
pub fn numbered_texts_determine_certificates()
    ensures { (P : Protocol) (c d : NodeCertificate) (k l : List ℕ) → HasNames P →
        IsNodeCertificateOf P c → IsNodeCertificateOf P d →
        numbered_text P c k ≡ numbered_text P d l → (c ≡ d) × (k ≡ l) }
{}

/// So are certificates by their texts with tables. What they are made of is of the protocol where they are, as long as the
/// numbers are within the limit of digits.
pub fn node_texts_determine_certificates()
    ensures is_of { (P : Protocol) (c : Certificate) → IsCertificateOf P c →
        IsShort (length (table c.clauses)) → IsNodeCertificateOf P (with_nodes c) }
    ensures one { (P : Protocol) (c d : Certificate) (k l : List ℕ) → HasNames P →
        IsCertificateOf P c → IsCertificateOf P d → IsShort (length (table c.clauses)) →
        IsShort (length (table d.clauses)) →
        text_with_nodes P c k ≡ text_with_nodes P d l → (c ≡ d) × (k ≡ l) }
{}

/// No text of one format is the front of one of the other, not even of another protocol.
pub fn formats_are_told_apart()
    ensures { (P Q : Protocol) (c : Certificate) (d : NodeCertificate) (k l : List ℕ) →
        certificate_text P c k ≡ numbered_text Q d l → ⊥ }
{}

/// What may be written by a table has no more nodes than the limit of symbols, so that each number is within the limit of
/// digits; the test decides it; and clauses within the limit of size, of which the sizes together are within the limit of
/// all, may be written so.
pub fn what_fits_in_nodes()
    ensures few { (cs : List (Clause Term)) → FitsInNodes cs →
        length (table cs) ≤ most_certificate_symbols }
    ensures short { (cs : List (Clause Term)) → FitsInNodes cs → IsShort (length (table cs)) }
    ensures decided { (cs : List (Clause Term)) → (is_large_in_nodes cs ≡ false) ↔ FitsInNodes cs }
    ensures within { (cs : List (Clause Term)) → AllByRecursion IsWithinLimit cs →
        total clause_size cs ≤ most_certificate_symbols → FitsInNodes cs }
{}

/// A certificate by numbers is made of the certificate that it means exactly where its nodes stand in the order of the walk.
pub fn ordered_numbers_are_of_certificates()
    ensures { (c : NodeCertificate) → IsInOrder c ↔ (with_nodes (without_nodes c) ≡ c) }
{}
