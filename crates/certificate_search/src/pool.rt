//! Clauses with the bank of their terms: each is its own norm within the limit of size, with variables of low numbers.

ghost use Rattle.certificate_search.specs.Searched.{CanBeSearched};

use crate::fits::{
    append_fit, candidates, clause_at, copies, cut_fit, fit_norm, gives_all, may_rest, meets,
    push_fit, resolved, selected_of,
};
use crate::found::Search;
use cert_form::{PlainClauses, read_clauses};
use clause_form::{Clause, Clauses, PlainClause, read_out, size_of};
use clause_resolve::Resolved;
use fact_fingerprint::{Fingerprint, conclusion_fingerprint};
use feature_index::{Features, features};
use literal_selection::is_bad;
use multiset_subsume::{Row, cover_row};
use query_derive::{QueryRow, satisfies};
use std::alloc::{AllocError, Global};
use std::marker::Model;
use term_store::SharedBank;
use term_tree::Bank;

/// Clauses over a bank: seen as how many there are. They are named by their places, from 0.
#[derive(Drop)]
pub struct Pool {
    alloc: Global,
    bank: SharedBank,
    clauses: Clauses,
}

impl Model for Pool {
    ghost use Rattle.std.specs.Prelude.{ℕ, length};
    ghost use Rattle.clause_form.specs.Fit.{AreFit};

    ghost Value = { ℕ };

    ghost view = { λ s. length s.clauses };

    ghost invariant = { λ s. AreFit s.bank s.clauses };
}

/// What a look at a clause shows.
#[derive(Clone, Copy)]
pub struct Looks {
    pub features: Features,
    pub conclusion: Fingerprint,
    pub size: u64,
}

/// A hypothesis on which a clause may be resolved: its place, from 0, its fingerprint and its size.
#[derive(Clone, Copy)]
pub struct Candidate {
    pub at: usize,
    pub fingerprint: Fingerprint,
    pub size: u64,
}

/// Two clauses that may be resolved, by their places: one that rests, and one with the place of its hypothesis that is chosen.
#[derive(Clone, Copy)]
pub struct Pair {
    pub resting: usize,
    pub other: usize,
    pub at: usize,
}

/// What a pair of clauses gives.
#[derive(Clone, Copy)]
pub enum Made {
    /// So many clauses, which stand at the end of the pool.
    Clauses(usize),
    /// A clause that is too large.
    Large,
}

/// How a clause that rests stands to a query.
#[derive(Drop)]
pub enum Goal {
    /// It doesn't conclude `bad`.
    NotDue,
    /// It concludes `bad`, and doesn't satisfy the query.
    Unmet,
    /// It concludes `bad`, and satisfies the query by this row.
    Met(QueryRow),
}

impl Pool {
    /// No clauses.
    fn new(alloc: Global) -> Result<Pool, AllocError> {
        let bank = SharedBank::new(alloc)?;
        Ok(Pool {
            alloc,
            bank,
            clauses: Clauses {
                items: Vec::new(alloc),
            },
        })
    }

    /// Adds the norms of clauses in order.
    fn add_all(&mut self, all: &PlainClauses) -> Result<(), AllocError> {
        'each: for plain in &all.items {
            let _ = self.add(plain)?;
        }
        Ok(())
    }

    /// The norms of clauses in order.
    pub fn of(alloc: Global, all: &PlainClauses) -> Result<Pool, AllocError> {
        let mut pool = Pool::new(alloc)?;
        pool.add_all(all)?;
        Ok(pool)
    }

    /// How many clauses there are.
    pub fn count(&self) -> usize {
        self.clauses.items.len()
    }

    /// What a look at the clause at a place shows.
    pub fn looks(&self, place: usize) -> Option<Looks> {
        let clause = clause_at(&self.clauses, place)?;
        Some(Looks {
            features: features(&self.bank, clause),
            conclusion: conclusion_fingerprint(&self.bank, clause),
            size: size_of(&self.bank, clause),
        })
    }

    /// Whether the clause at a place says that the attacker has everything.
    pub fn gives_everything(&self, place: usize) -> bool {
        match clause_at(&self.clauses, place) {
            None => false,
            Some(clause) => gives_all(&self.bank, clause),
        }
    }

    /// The first row by which the clause at the first place subsumes that at the second, if there is one.
    pub fn cover(&self, general: usize, special: usize) -> Result<Option<Row>, AllocError> {
        let Some(first) = clause_at(&self.clauses, general) else {
            return Ok(None);
        };
        let Some(second) = clause_at(&self.clauses, special) else {
            return Ok(None);
        };
        cover_row(self.alloc, &self.bank, first, second)
    }

    /// The hypotheses of the clause at a place on which it may be resolved, in order.
    pub fn candidates(&self, place: usize) -> Result<Vec<Candidate>, AllocError> {
        match clause_at(&self.clauses, place) {
            None => Ok(Vec::new(self.alloc)),
            Some(clause) => candidates(self.alloc, &self.bank, clause),
        }
    }

    /// The place of the hypothesis that is selected of the clause at a place, if it isn't solved.
    pub fn selected(&self, place: usize) -> Option<usize> {
        let clause = clause_at(&self.clauses, place)?;
        selected_of(&self.bank, clause)
    }

    /// Whether the clause at a place concludes neither `bad` nor `att` of a variable.
    pub fn may_rest(&self, place: usize) -> bool {
        match clause_at(&self.clauses, place) {
            None => false,
            Some(clause) => may_rest(&self.bank, clause),
        }
    }

    /// Whether the conclusion of the first clause of a pair unifies with the other one's hypothesis, their variables set apart.
    pub fn meets(&mut self, pair: Pair) -> Result<bool, AllocError> {
        meets(self.alloc, &mut self.bank, &self.clauses, pair)
    }

    /// How the clause at a place, which rests, stands to a query.
    pub fn goal(&self, place: usize, search: &Search<'_>) -> Result<Goal, AllocError>
        requires { CanBeSearched search.now }
    {
        let Some(clause) = clause_at(&self.clauses, place) else {
            return Ok(Goal::NotDue);
        };
        if !is_bad(&self.bank, &clause.concl) {
            return Ok(Goal::NotDue);
        }
        match satisfies(
            self.alloc,
            &self.bank,
            clause,
            search.protocol,
            search.query,
        )? {
            None => Ok(Goal::Unmet),
            Some(row) => Ok(Goal::Met(row)),
        }
    }

    /// The clause at a place over trees, if it is there.
    pub fn read(&self, place: usize) -> Result<Option<PlainClause>, AllocError> {
        match clause_at(&self.clauses, place) {
            None => Ok(None),
            Some(clause) => {
                let plain = read_out(self.alloc, &self.bank, clause)?;
                Ok(Some(plain))
            }
        }
    }

    /// The clauses at these places over trees.
    pub fn read_all(&self, places: &[usize]) -> Result<PlainClauses, AllocError> {
        let copied = copies(self.alloc, &self.clauses, places)?;
        read_clauses(self.alloc, &self.bank, &copied.items)
    }

    /// Adds the norm of a clause at the end, and tells its place; nothing where it has none, or is too large.
    pub fn add(&mut self, plain: &PlainClause) -> Result<Option<usize>, AllocError> {
        match fit_norm(self.alloc, &mut self.bank, plain)? {
            None => Ok(None),
            Some(clause) => {
                let place = self.clauses.items.len();
                push_fit(&mut self.clauses, clause)?;
                Ok(Some(place))
            }
        }
    }

    /// Adds the resolvents of a pair.
    pub fn resolve(&mut self, pair: Pair) -> Result<Made, AllocError> {
        match resolved(self.alloc, &mut self.bank, &self.clauses, pair)? {
            Resolved::NoUnifier => Ok(Made::Clauses(0)),
            Resolved::Large => Ok(Made::Large),
            Resolved::Clauses(made) => {
                let count = made.items.len();
                append_fit(&mut self.clauses, made)?;
                Ok(Made::Clauses(count))
            }
        }
    }

    /// Takes the clauses from a place on away.
    pub fn cut(&mut self, place: usize) {
        cut_fit(&mut self.clauses, place);
    }
}
