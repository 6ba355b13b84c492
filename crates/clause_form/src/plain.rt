//! Clauses over owned trees: they outlast every bank.

use clause_diffs::{PlainDiffs, Tree, Trees};
use std::marker::Model;

/// A fact over owned trees.
#[derive(Debug)]
pub enum PlainFact {
    Att(u32, Tree),
    Mess(u32, Tree, Tree),
    Tab(u32, Trees),
    Ev(u32, Trees),
    Mev(u32, Trees),
    Bad(Trees),
}

impl Drop for PlainFact {
    fn drop(self) {
        match self {
            PlainFact::Att(_, part) => drop(part),
            PlainFact::Mess(_, part1, part2) => {
                drop(part1);
                drop(part2);
            }
            PlainFact::Tab(_, part) => drop(part),
            PlainFact::Ev(_, part) => drop(part),
            PlainFact::Mev(_, part) => drop(part),
            PlainFact::Bad(part) => drop(part),
        }
    }
}

/// Facts over owned trees, in order.
#[derive(Debug)]
pub struct PlainFacts {
    pub items: Vec<PlainFact>,
}

impl Drop for PlainFacts {
    fn drop(self) {
        let PlainFacts { items } = self;
        drop(items);
    }
}

impl Model for PlainFacts {
    ghost use Rattle.std.specs.Prelude.{List, map};
    ghost use Rattle.spec_terms.specs.Term.{Term, coded_term};
    ghost use Rattle.spec_clauses.specs.Fact as horn;
    ghost use Rattle.clause_form.specs.Codes.{coded_facts};

    ghost Value = { List (horn.Fact Term) };

    ghost coded = { coded_facts coded_term };

    ghost use Rattle.clause_form.specs.PlainFacts.{plain_fact_of};

    ghost view = { λ a. map plain_fact_of a.items.items };
}

/// A clause over owned trees.
#[derive(Debug)]
pub struct PlainClause {
    pub hyps: PlainFacts,
    pub diffs: PlainDiffs,
    pub concl: PlainFact,
}

impl Drop for PlainClause {
    fn drop(self) {
        let PlainClause { hyps, diffs, concl } = self;
        drop(hyps);
        drop(diffs);
        drop(concl);
    }
}

impl Model for PlainClause {
    ghost use Rattle.spec_terms.specs.Term.{Term, coded_term};
    ghost use Rattle.spec_clauses.specs.Fact as horn;
    ghost use Rattle.clause_form.specs.Codes.{coded_clause};

    ghost Value = { horn.Clause Term };

    ghost coded = { coded_clause coded_term };

    ghost use Rattle.clause_form.specs.PlainFacts.{plain_fact_of};

    ghost view = { λ c. record {
      hypotheses = c.hyps;
      diffs = c.diffs;
      conclusion = plain_fact_of c.concl;
    } };
}
