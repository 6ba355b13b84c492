//! Terms that are spelled.

ghost use Rattle.std.specs.Prelude.{◌≡◌};
ghost use Rattle.clause_form.specs.Plain.{term_of};
ghost use Rattle.term_reader.specs.Naming.{protocol_in};
ghost use Rattle.spec_certificate_text.specs.Facts as facts;
ghost use Rattle.spec_certificate_text.specs.Clauses as clauses;
ghost use Rattle.fact_reader.specs.Gives.{same};
ghost use Rattle.fact_reader.specs.Reads.{Reads};

use crate::clauses::read_clause_by;
use crate::cursor::Cursor;
use crate::error::{CertError, error_at};
use crate::terms::{ReadFact, TermReader};
use clause_form::{PlainClause, PlainDiff, PlainDiffs, PlainFact, PlainFacts, Tree, Trees};
use term_reader::{FIRST_BOUND, Names, Read, term_at};

/// A side of a constraint, in which variables may be bound, or a term of a fact.
fn tree(names: &Names<'_>, cursor: &mut Cursor<'_>, binds: bool) -> Result<Tree, CertError>
    ensures read { Reads term_of (facts.one_tree binds (protocol_in names.now))
        cursor.old cursor.new result }
    ensures same { cursor.new.bytes.now ≡ cursor.old.bytes.now }
{
    match term_at(names, cursor.bytes, cursor.at, binds)? {
        Read::Done(term, place) => {
            cursor.at = place;
            Ok(term)
        }
        Read::Refused(place, code) => Err(error_at(place, code)),
    }
}

/// Where reading has come, as nothing is counted.
#[derive(Clone, Copy)]
struct Uncounted;

/// Reads each term as it is spelled.
#[derive(Clone, Copy)]
struct SpelledTerms<'a> {
    names: &'a Names<'a>,
}

impl TermReader for SpelledTerms<'_> {
    ghost use Rattle.std.specs.Prelude.{◌≡◌, map};
    ghost use Rattle.std.specs.List.{AllByRecursion};
    ghost use Rattle.clause_form.specs.Plain.{term_of as term_of_tree};
    ghost use Rattle.clause_form.specs.PlainFacts.{plain_fact_of};
    ghost use Rattle.term_reader.specs.Naming.{protocol_in};
    ghost use Rattle.spec_certificate_text.specs.Sides.{spelled_diff, meant_diff};
    ghost use Rattle.spec_certificate_text.specs.Walks.{spelled_tree, no_counts};
    ghost use Rattle.fact_reader.specs.Over.{fact_over, terms_in};

    type Term = Tree;

    type Fact = PlainFact;

    type Diff = PlainDiff;

    type State = Uncounted;

    ghost Seen = { Unit {0} };

    ghost seen = { λ _. tt };

    ghost walk = { λ r binds. spelled_tree binds (protocol_in r.names.now) };

    ghost counts = { no_counts };

    ghost term_of = { λ _. term_of_tree };

    ghost fact_of = { λ _. plain_fact_of };

    ghost diff_of = { λ _. spelled_diff };

    ghost IsTerm = { λ _ _. Unit {0} };

    ghost IsFact = { λ _ _. Unit {0} };

    ghost IsDiff = { λ _ d. meant_diff (spelled_diff d) ≡ d };

    fn count(&self, _state: &mut Uncounted, _symbols: u64) {}

    fn read_tree(
        &self,
        cursor: &mut Cursor<'_>,
        _state: &mut Uncounted,
        binds: bool,
    ) -> Result<Tree, CertError> {
        tree(self.names, cursor, binds)
    }

    fn make_fact(&self, read: ReadFact<Tree>) -> PlainFact
        ensures seen { plain_fact_of result ≡ fact_over term_of_tree read }
        ensures known { AllByRecursion (λ _. Unit {0}) (terms_in read) → Unit {0} }
    {
        match read {
            ReadFact::Att(phase, known) => PlainFact::Att(phase, known),
            ReadFact::Mess(phase, channel, message) => PlainFact::Mess(phase, channel, message),
            ReadFact::Tab(table, items) => PlainFact::Tab(table, Trees { items }),
            ReadFact::Ev(event, items) => PlainFact::Ev(event, Trees { items }),
            ReadFact::Mev(event, items) => PlainFact::Mev(event, Trees { items }),
            ReadFact::Bad(items) => PlainFact::Bad(Trees { items }),
        }
    }

    #[tactic(auto, using(crate::proofs::KeptState::sides))]
    fn make_diff(&self, left: Vec<Tree>, right: Vec<Tree>) -> PlainDiff
        ensures seen { spelled_diff result ≡ record {
          left = map term_of_tree left.items;
          right = map term_of_tree right.items;
        } }
        ensures known { AllByRecursion (λ _. Unit {0}) left.items →
            AllByRecursion (λ _. Unit {0}) right.items → meant_diff (spelled_diff result) ≡ result }
    {
        PlainDiff {
            first: FIRST_BOUND,
            left: Trees { items: left },
            right: Trees { items: right },
        }
    }
}

/// The clause that stands there, each term as it is spelled; or the first fault.
pub fn read_clause(names: &Names<'_>, cursor: &mut Cursor<'_>) -> Result<PlainClause, CertError>
    ensures read { Reads same (clauses.read_clause (protocol_in names.now))
        cursor.old cursor.new result }
    ensures same { cursor.new.bytes.now ≡ cursor.old.bytes.now }
{
    let read = read_clause_by(names, &SpelledTerms { names }, cursor, &mut Uncounted)?;
    Ok(PlainClause {
        hyps: PlainFacts { items: read.hyps },
        diffs: PlainDiffs { items: read.diffs },
        concl: read.concl,
    })
}
