//! The faults of the texts of terms, by what stands in the bytes; and that reading tells the first of them.
//!
//! A term may begin where the bytes begin, or among the arguments of another: behind its head, and behind arguments and their
//! commas, whatever their words name. There may stand: digits that are no number; a word that names nothing that may stand
//! there; a symbol over terms, of which it takes another number; or a term that is too deep. What stands there does not rest on
//! what stands elsewhere. Of syntax a fault stands where some text goes on up to there, and none with the byte that
//! stands there, or with the end of the bytes. A word and a number end before a byte that is none of theirs; at the end of the
//! bytes none has ended.
//!
//! The first fault is the one at the earliest place, and at this place the one of the least number.
//!
//! The definitions stand in `specs/`. The laws about them that a reader would ask for are the contracts of the functions
//! below, which do nothing.
#![tactic(auto)]

ghost use Rattle.std.specs.Prelude.{◌≡◌, ◌↔◌, ℕ, Bool, List};
ghost use Rattle.spec_calculus.specs.Syntax.{Protocol};
ghost use Rattle.spec_terms.specs.Term.{Term};
ghost use Rattle.spec_certificate_text.specs.OfProtocol.{HasNames};
ghost use Rattle.spec_certificate_text.specs.Terms.{Code};
ghost use Rattle.spec_certificate_text.specs.Runs.{Done, Refused, read_tree};
ghost use Rattle.spec_certificate_faults.specs.First.{StandsAt, IsFirstFault};
ghost use Rattle.spec_certificate_faults.specs.First.{IsTermText, terms_in};

/// Of a term, and of a side of a constraint, the first fault is told, and it is told exactly where there is one: what is read is a
/// text of the grammar, and no fault stands in it.
pub fn the_first_fault_of_a_term_is_told()
    ensures told { (binds : Bool) (P : Protocol) (bytes : List ℕ) (at place : ℕ) (code : Code) →
        HasNames P → (read_tree binds P bytes at ≡ Refused place code)
        ↔ IsFirstFault (terms_in binds P) bytes at place code }
    ensures none { (binds : Bool) (P : Protocol) (bytes : List ℕ) (at place other : ℕ)
        (t : Term) (rest : List ℕ) (code : Code) →
        HasNames P → read_tree binds P bytes at ≡ Done t place rest →
        StandsAt (terms_in binds P) bytes at other code → ⊥ }
    ensures text { (binds : Bool) (P : Protocol) (bytes : List ℕ) (at place : ℕ) (t : Term)
        (rest : List ℕ) →
        HasNames P → read_tree binds P bytes at ≡ Done t place rest → IsTermText bytes rest }
    ensures one { (binds : Bool) (P : Protocol) (bytes : List ℕ) (at place other : ℕ)
        (code another : Code) →
        IsFirstFault (terms_in binds P) bytes at place code →
        IsFirstFault (terms_in binds P) bytes at other another →
        (place ≡ other) × (code ≡ another) }
{}
