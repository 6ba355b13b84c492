//! Facts and clauses over the ids of a bank (Blanchet 2016, section 2.3.1).

ghost use Rattle.std.specs.Prelude.{◌≡◌, IfOk};

use clause_diffs::{Diffs, Ids};
use std::alloc::{AllocError, Global};
use std::marker::Model;
use term_tree::Id;

/// A fact. Phases are numbered from 0, tables and events from 1.
pub enum Fact {
    /// In the phase the attacker has the term.
    Att(u32, Id),
    /// In the phase the message, which stands last, may be sent on the channel.
    Mess(u32, Id, Id),
    /// The table may have the entry of these terms.
    Tab(u32, Ids),
    /// The event may have run.
    Ev(u32, Ids),
    /// The event must have run: stands among hypotheses alone.
    Mev(u32, Ids),
    /// What the query asks about has come about: stands in conclusions alone.
    Bad(Ids),
}

impl Drop for Fact {
    fn drop(self) {
        match self {
            Fact::Att(_, _) => {}
            Fact::Mess(_, _, _) => {}
            Fact::Tab(_, part) => drop(part),
            Fact::Ev(_, part) => drop(part),
            Fact::Mev(_, part) => drop(part),
            Fact::Bad(part) => drop(part),
        }
    }
}

/// Facts in order.
#[derive(Drop)]
pub struct Facts {
    pub items: Vec<Fact>,
}

impl Model for Facts {
    ghost use Rattle.std.specs.Prelude.{List, map};
    ghost use Rattle.spec_clauses.specs.Fact as horn;
    ghost use Rattle.term_tree.specs.declared.bank.Id.{Id};
    ghost use Rattle.clause_form.specs.Codes.{coded_id, coded_facts};

    ghost Value = { List (horn.Fact Id) };

    ghost coded = { coded_facts coded_id };

    ghost use Rattle.clause_form.specs.Facts.{fact_of};

    ghost view = { λ a. map fact_of a.items.items };
}

/// A clause: where the hypotheses hold and the constraints are met, the conclusion holds.
pub struct Clause {
    pub hyps: Facts,
    pub diffs: Diffs,
    pub concl: Fact,
}

impl Drop for Clause {
    fn drop(self) {
        let Clause { hyps, diffs, concl } = self;
        drop(hyps);
        drop(diffs);
        drop(concl);
    }
}

impl Model for Clause {
    ghost use Rattle.clause_form.specs.Codes.{coded_id_clause};
    ghost use Rattle.clause_form.specs.Seen.{IdClause};

    ghost Value = { IdClause };

    ghost coded = { coded_id_clause };

    ghost use Rattle.clause_form.specs.Facts.{fact_of};

    ghost view = { λ c. record {
      hypotheses = c.hyps;
      diffs = c.diffs;
      conclusion = fact_of c.concl;
    } };
}

/// Clauses in order.
#[derive(Drop)]
pub struct Clauses {
    pub items: Vec<Clause>,
}

impl Model for Clauses {
    ghost use Rattle.std.specs.Prelude.{List};
    ghost use Rattle.clause_form.specs.Codes.{coded_id_clauses};
    ghost use Rattle.clause_form.specs.Seen.{IdClause};

    ghost Value = { List IdClause };

    ghost coded = { coded_id_clauses };

    ghost view = { λ a. a.items.items };
}

impl Fact {
    /// A copy, the ids the same.
    pub fn copy(&self, alloc: Global) -> Result<Fact, AllocError>
        ensures { IfOk result (λ copied. copied ≡ self.now) }
    {
        match self {
            Fact::Att(phase, term) => Ok(Fact::Att(*phase, *term)),
            Fact::Mess(phase, channel, message) => Ok(Fact::Mess(*phase, *channel, *message)),
            Fact::Tab(table, terms) => {
                let terms = terms.copy(alloc)?;
                Ok(Fact::Tab(*table, terms))
            }
            Fact::Ev(event, terms) => {
                let terms = terms.copy(alloc)?;
                Ok(Fact::Ev(*event, terms))
            }
            Fact::Mev(event, terms) => {
                let terms = terms.copy(alloc)?;
                Ok(Fact::Mev(*event, terms))
            }
            Fact::Bad(terms) => {
                let terms = terms.copy(alloc)?;
                Ok(Fact::Bad(terms))
            }
        }
    }
}

impl Facts {
    ghost use Rattle.std.specs.Prelude.{◌≡◌, [], ◌∷◌, ◌++◌, IfOk, OnOk, OnErr};
    ghost use Rattle.clause_form.specs.Facts.{fact_of};

    /// No facts. Takes no memory.
    pub fn new(alloc: Global) -> Facts
        ensures { result ≡ [] }
    {
        Facts {
            items: Vec::new(alloc),
        }
    }

    /// One more fact, at the end.
    pub fn push(&mut self, fact: Fact) -> Result<(), AllocError>
        ensures ok { OnOk result (self.new ≡ self.old ++ fact_of fact ∷ []) }
        ensures err { OnErr result (self.new ≡ self.old) }
    {
        self.items.push(fact)?;
        Ok(())
    }

    /// A copy, fact by fact.
    pub fn copy(&self, alloc: Global) -> Result<Facts, AllocError>
        ensures { IfOk result (λ copied. copied ≡ self.now) }
    {
        let mut items = Vec::with_capacity(alloc, self.items.len())?;
        for fact in &self.items {
            items.push(fact.copy(alloc)?)?;
        }
        Ok(Facts { items })
    }
}

impl Clause {
    ghost use Rattle.std.specs.Prelude.{◌≡◌};
    ghost use Rattle.clause_form.specs.Facts.{fact_of};

    /// Its hypotheses, constraints and conclusion.
    pub fn apart(self) -> (Facts, Diffs, Fact)
        ensures hypotheses { result.0 ≡ self.hypotheses }
        ensures diffs { result.1 ≡ self.diffs }
        ensures conclusion { fact_of result.2 ≡ self.conclusion }
    {
        let Clause { hyps, diffs, concl } = self;
        (hyps, diffs, concl)
    }

    /// A copy, the ids the same.
    pub fn copy(&self, alloc: Global) -> Result<Clause, AllocError>
        ensures { IfOk result (λ copied. copied ≡ self.now) }
    {
        Ok(Clause {
            hyps: self.hyps.copy(alloc)?,
            diffs: self.diffs.copy(alloc)?,
            concl: self.concl.copy(alloc)?,
        })
    }
}
