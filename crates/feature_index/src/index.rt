//! The index: entries with their features, in ascending order.

ghost use Rattle.std.specs.Prelude.{◌≡◌, ℕ, ◌≤◌, length, true, false, IfOk, OnOk, OnErr};
ghost use Rattle.std.specs.List.{list_all};
ghost use Rattle.spec_terms.specs.Term.{Term};
ghost use Rattle.spec_clauses.specs.Fact.{Clause};
ghost use Rattle.spec_clauses.specs.Flat.{is_flat};
ghost use Rattle.spec_clauses.specs.Inclusion.{Has};
ghost use Rattle.spec_clauses.specs.Subsumption.{Subsumes};
ghost use Rattle.spec_features.specs.Features.{features_of};
ghost use Rattle.feature_index.specs.Listed.{is_listed, with_entry, without_entry, candidates_of, IsAscending};
ghost use Rattle.feature_index.specs.Items.{place_in, stands_at};

use crate::lanes::{Features, may_cover};
use std::alloc::{AllocError, Global};
use std::marker::Model;

/// An entry with the features of its clause.
#[derive(Clone, Copy)]
struct Item {
    entry: usize,
    features: Features,
}

/// An index of the entries of a log, by the features of their clauses. Contracts see it as a list of entries with their
/// features, which ascend.
///
/// It is a plain list, all of which is looked through: an entry's eight lanes are compared at once, at some 1.5 nanoseconds an
/// entry. A tree by lanes takes three times as long or more (a trial in C, over 100 to 20,000 entries): few of its branches can
/// be passed over, and what is found has to be sorted. The place of an entry is found by a binary search, and what stands
/// behind it moves as it is put in or taken out.
#[derive(Drop)]
pub struct Index {
    items: Vec<Item>,
    alloc: Global,
}

impl Model for Index {
    ghost use Rattle.std.specs.Prelude.{List, map};
    ghost use Rattle.feature_index.specs.Listed.{Listed, coded_listed};

    ghost Value = { List Listed };

    ghost coded = { coded_listed };

    ghost use Rattle.feature_index.specs.Items.{listed_of};
    ghost use Rattle.feature_index.specs.Listed.{entries_of, IsAscending};

    ghost view = { λ index. map listed_of index.items.items };

    ghost invariant = { λ index. IsAscending 0 (entries_of (map listed_of index.items.items)) };
}

impl Index {
    ghost use Rattle.std.specs.Prelude.{[]};

    /// An index of no entries.
    pub fn new(alloc: Global) -> Result<Index, AllocError>
        ensures { IfOk result (λ index. index ≡ []) }
    {
        Ok(Index {
            items: Vec::new(alloc),
            alloc,
        })
    }

    /// The place of an entry, or where it is to stand.
    fn place_of(&self, entry: usize) -> usize
        ensures place { result ≡ place_in self.now entry }
        ensures within { result ≤ length self.now }
        ensures standing { stands_at self.now result entry ≡ is_listed entry self.now }
    {
        self.items.partition_point(|item| item.entry < entry)
    }

    /// Whether an entry stands at a place.
    fn is_at(&self, place: usize, entry: usize) -> bool
        ensures { result ≡ stands_at self.now place entry }
    {
        match self.items.get(place) {
            Some(item) => item.entry == entry,
            None => false,
        }
    }

    /// Whether the entry is in the index. Takes no memory.
    pub fn holds(&self, entry: usize) -> bool
        ensures { result ≡ is_listed entry self.now }
    {
        self.is_at(self.place_of(entry), entry)
    }

    /// Puts an entry in, which is not in the index. `Err` comes only for want of memory, and leaves the index as it was.
    pub fn insert(&mut self, entry: usize, features: Features) -> Result<(), AllocError>
        requires { is_listed entry self.old ≡ false }
        ensures ok { OnOk result (self.new ≡ with_entry
            record { entry = entry; features = features.lanes } self.old) }
        ensures err { OnErr result (self.new ≡ self.old) }
    {
        let place = self.place_of(entry);
        self.items.insert(place, Item { entry, features })?;
        Ok(())
    }

    /// Takes an entry out. Of one that isn't in the index nothing changes. Takes no memory.
    pub fn remove(&mut self, entry: usize)
        ensures left { self.new ≡ without_entry entry self.old }
        ensures absent { is_listed entry self.old ≡ false → self.new ≡ self.old }
    {
        let place = self.place_of(entry);
        if self.is_at(place, entry) {
            let _ = self.items.remove(place);
        }
    }

    /// The entries whose clauses may subsume one with these features: those for which `may_cover` is true, and no other,
    /// ascending. `Err` comes only for want of memory.
    pub fn candidates(&self, features: Features) -> Result<Vec<usize>, AllocError>
        ensures exact { IfOk result (λ found. found.items ≡ candidates_of features.lanes self.now) }
        ensures ascending { IfOk result (λ found. IsAscending 0 found.items) }

        // None is left out whose clause, of flat hypotheses, subsumes the clause with these features.
        ensures subsuming { IfOk result (λ found. (e : ℕ) (c d : Clause Term) →
            Has self.now record { entry = e; features = features_of c } →
            features.lanes ≡ features_of d → list_all is_flat c.hypotheses ≡ true →
            Subsumes c d → Has found.items e) }
    {
        let mut found = Vec::new(self.alloc);
        for item in &self.items {
            if may_cover(item.features, features) {
                found.push(item.entry)?;
            }
        }
        Ok(found)
    }
}
