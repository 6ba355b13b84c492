//! How the terms of a certificate are read.

use crate::cursor::Cursor;
use crate::error::CertError;

/// What is read of a fact: its phase, or the number of its table or event, and its terms.
#[derive(Drop)]
pub enum ReadFact<T> {
    Att(u32, T),
    Mess(u32, T, T),
    Tab(u32, Vec<T>),
    Ev(u32, Vec<T>),
    Mev(u32, Vec<T>),
    Bad(Vec<T>),
}

/// How the terms of a certificate are read, and facts and constraints over them made. Each term leads from a state to another, and so
/// do the symbols that stand besides terms.
pub trait TermReader {
    ghost use Rattle.std.specs.Prelude.{◌≡◌, ℕ, Bool, map, IfOk};
    ghost use Rattle.std.specs.List.{AllByRecursion};
    ghost use Rattle.spec_terms.specs.Term.{Term as TermOf};
    ghost use Rattle.spec_clauses.specs.Fact.{Fact as FactOf};
    ghost use Rattle.spec_certificate_text.specs.Sides.{SidesOf};
    ghost use Rattle.spec_certificate_text.specs.Walks.{Walk};
    ghost use Rattle.fact_reader.specs.Walks.{Walks};
    ghost use Rattle.fact_reader.specs.Over.{fact_over, terms_in};

    /// A term that was read.
    type Term: Drop;

    /// A fact over such terms.
    type Fact: Drop;

    /// A constraint over such terms.
    type Diff: Drop;

    /// How far reading has come.
    type State;

    /// What a state is seen as.
    ghost Seen: { Type 0 };

    ghost seen: { Self.State → Seen };

    /// What reads a side of a constraint, in which variables may be bound, or a term of a fact; and what counts symbols.
    ghost walk: { Self → Bool → Walk Seen TermOf };

    ghost counts: { ℕ → Seen → Seen };

    /// What terms, facts and constraints are seen as, and of which this can be told.
    ghost term_of: { Self → Self.Term → TermOf };

    ghost fact_of: { Self → Self.Fact → FactOf TermOf };

    ghost diff_of: { Self → Self.Diff → SidesOf TermOf };

    ghost IsTerm: { Self → Self.Term → Type 0 };

    ghost IsFact: { Self → Self.Fact → Type 0 };

    ghost IsDiff: { Self → Self.Diff → Type 0 };

    /// Counts so many symbols more.
    fn count(&self, state: &mut Self::State, symbols: u64)
        ensures { seen state.new ≡ counts symbols (seen state.old) };

    /// The side of a constraint that stands there, in which variables may be bound, or the term of a fact.
    fn read_tree(
        &self,
        cursor: &mut Cursor<'_>,
        state: &mut Self::State,
        binds: bool,
    ) -> Result<Self::Term, CertError>
        ensures read { Walks (term_of self.now) (walk self.now binds)
            (seen state.old) (seen state.new) cursor.old cursor.new result }
        ensures same { cursor.new.bytes.now ≡ cursor.old.bytes.now }
        ensures known { IfOk result (IsTerm self.now) };

    /// The fact over terms that were read.
    fn make_fact(&self, read: ReadFact<Self::Term>) -> Self::Fact
        ensures seen { fact_of self.now result ≡ fact_over (term_of self.now) read }
        ensures known { AllByRecursion (IsTerm self.now) (terms_in read) → IsFact self.now result };

    /// The constraint of these sides.
    fn make_diff(&self, left: Vec<Self::Term>, right: Vec<Self::Term>) -> Self::Diff
        ensures seen { diff_of self.now result ≡ record {
          left = map (term_of self.now) left.items;
          right = map (term_of self.now) right.items;
        } }
        ensures known { AllByRecursion (IsTerm self.now) left.items →
            AllByRecursion (IsTerm self.now) right.items → IsDiff self.now result };
}
