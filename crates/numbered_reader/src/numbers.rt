//! Numbers of a table's nodes as the terms of clauses.

use crate::walked::{Walked, tree};
use clause_form::{Diff, Fact, Ids};
use fact_reader::{CertError, Cursor, ReadFact, TermReader};
use node_reader::Table;
use term_reader::FIRST_BOUND;
use term_tree::Id;

/// Reads terms as numbers of the nodes of a table.
#[derive(Clone, Copy)]
pub struct NumberedTerms<'a> {
    pub table: &'a Table,
}

impl TermReader for NumberedTerms<'_> {
    ghost use Rattle.std.specs.Prelude.{◌≡◌, ◌<◌, map, length};
    ghost use Rattle.std.specs.List.{AllByRecursion};
    ghost use Rattle.term_tree.specs.Bank.{tree_at};
    ghost use Rattle.term_tree.specs.declared.bank.Id.{Id as TermId};
    ghost use Rattle.clause_form.specs.Facts.{fact_of as fact_of_ids};
    ghost use Rattle.clause_diffs.specs.Diffs.{diff_at, IsDiffIn};
    ghost use Rattle.clause_form.specs.Seen.{fact_at, IsFactIn};
    ghost use Rattle.spec_certificate_text.specs.Sides.{spelled_diff, meant_diff};
    ghost use Rattle.spec_node_counts.specs.Counts.{Counted, with_symbols, read_tree};
    ghost use Rattle.fact_reader.specs.Over.{fact_over, terms_in};
    ghost use Rattle.node_reader.specs.Tables.{table_of};
    ghost use Rattle.numbered_reader.specs.Walks.{walked_of};

    type Term = Id;

    type Fact = Fact;

    type Diff = Diff;

    type State = Walked;

    ghost Seen = { Counted };

    ghost seen = { walked_of };

    ghost walk = { λ r binds. read_tree binds (table_of r.table.now) };

    ghost counts = { with_symbols };

    ghost term_of = { λ r. tree_at (table_of r.table.now).terms };

    ghost fact_of = { λ r f. fact_at (table_of r.table.now).terms (fact_of_ids f) };

    ghost diff_of = { λ r d. spelled_diff (diff_at (table_of r.table.now).terms d) };

    ghost IsTerm = { λ r id. id.index < length (table_of r.table.now).terms };

    ghost IsFact = { λ r f. IsFactIn (table_of r.table.now).terms (fact_of_ids f) };

    ghost IsDiff = { λ r d. let all = (table_of r.table.now).terms in
        IsDiffIn all d × (meant_diff (spelled_diff (diff_at all d)) ≡ diff_at all d) };

    fn count(&self, state: &mut Walked, symbols: u64) {
        *state = state.with_symbols(symbols);
    }

    fn read_tree(
        &self,
        cursor: &mut Cursor<'_>,
        state: &mut Walked,
        binds: bool,
    ) -> Result<Id, CertError> {
        tree(self.table, cursor, state, binds)
    }

    fn make_fact(&self, read: ReadFact<Id>) -> Fact
        ensures seen { fact_at (table_of self.now.table.now).terms (fact_of_ids result)
            ≡ fact_over (tree_at (table_of self.now.table.now).terms) read }
        ensures known { AllByRecursion
            (λ (id : TermId). id.index < length (table_of self.now.table.now).terms)
            (terms_in read)
            → IsFactIn (table_of self.now.table.now).terms (fact_of_ids result) }
    {
        match read {
            ReadFact::Att(phase, known) => Fact::Att(phase, known),
            ReadFact::Mess(phase, channel, message) => Fact::Mess(phase, channel, message),
            ReadFact::Tab(table, items) => Fact::Tab(table, Ids { items }),
            ReadFact::Ev(event, items) => Fact::Ev(event, Ids { items }),
            ReadFact::Mev(event, items) => Fact::Mev(event, Ids { items }),
            ReadFact::Bad(items) => Fact::Bad(Ids { items }),
        }
    }

    fn make_diff(&self, left: Vec<Id>, right: Vec<Id>) -> Diff
        ensures seen { spelled_diff (diff_at (table_of self.now.table.now).terms result) ≡ record {
          left = map (tree_at (table_of self.now.table.now).terms) left.items;
          right = map (tree_at (table_of self.now.table.now).terms) right.items;
        } }
        ensures known { let all = (table_of self.now.table.now).terms in
            AllByRecursion (λ (id : TermId). id.index < length all) left.items →
            AllByRecursion (λ (id : TermId). id.index < length all) right.items →
            IsDiffIn all result × (meant_diff (spelled_diff (diff_at all result)) ≡ diff_at all result) }
    {
        Diff {
            first: FIRST_BOUND,
            left: Ids { items: left },
            right: Ids { items: right },
        }
    }
}
