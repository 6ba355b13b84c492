//! The table of terms: a shared bank that terms are put into, the arguments of each before it.

ghost use Rattle.std.specs.Prelude.{◌≡◌, IfOk, OnOk};
ghost use Rattle.spec_node_tables.specs.Table.{walk};
ghost use Rattle.term_tree.specs.Bank.{Names, Grows};
ghost use Rattle.clause_form.specs.Plain.{term_of};
ghost use Rattle.node_table.specs.Entered.{with_terms};

use crate::recent::RecentBank;
use clause_form::Tree;
use smallvec::SmallVec;
use std::alloc::{AllocError, Global};
use std::marker::Model;
use term_tree::{Id, Node};

/// How many arguments' ids are kept without memory of their own.
const IDS_INLINE: usize = 8;

/// The distinct terms of what was numbered, and their subterms, in the order in which a walk completes them.
#[derive(Drop)]
pub struct NodeTable {
    bank: RecentBank,
    alloc: Global,
}

impl Model for NodeTable {
    ghost use Rattle.std.specs.Prelude.{List};
    ghost use Rattle.spec_terms.specs.Term.{Term, coded_terms};

    ghost Value = { List Term };

    ghost coded = { coded_terms };

    ghost view = { λ t. t.bank };
}

/// The id of a tree, which is put into the bank where it isn't there, its arguments first. On `Err` the bank may have grown.
fn enter(alloc: Global, bank: &mut RecentBank, tree: &Tree) -> Result<Id, AllocError>
    ensures grows { Grows bank.old bank.new }
    ensures names { IfOk result (λ id. Names bank.new id (term_of tree.now)) }
    ensures walked { OnOk result (bank.new ≡ with_terms bank.old (walk (term_of tree.now))) }
{
    match tree {
        Tree::Var(number) => bank.var(*number),
        Tree::App(symbol, arguments) => {
            let mut ids: SmallVec<Id, IDS_INLINE> = SmallVec::new(alloc);
            'each: for argument in &arguments.items {
                let id = enter(alloc, bank, argument)?;
                ids.push(id)?;
            }
            bank.app(*symbol, ids.as_slice())
        }
    }
}

impl NodeTable {
    ghost use Rattle.std.specs.Prelude.{◌≡◌, ◌<◌, List, [], ◌∷◌, ◌++◌, length, IfOk, OnOk};
    ghost use Rattle.spec_terms.specs.Term.{Term};
    ghost use Rattle.spec_node_tables.specs.Table.{number_in};
    ghost use Rattle.term_tree.specs.Bank.{tree_at, IsNodeOf};
    ghost use Rattle.clause_form.specs.Plain.{term_of};
    ghost use Rattle.node_table.specs.Entered.{table_of};

    /// An empty table.
    pub fn new(alloc: Global) -> Result<Self, AllocError>
        ensures { IfOk result (λ table. table ≡ []) }
    {
        let bank = RecentBank::new(alloc)?;
        Ok(NodeTable { bank, alloc })
    }

    /// How many terms stand in the table.
    pub fn len(&self) -> usize
        ensures { result ≡ length self.now }
    {
        self.bank.len()
    }

    /// The root of a term of the table.
    pub fn node(&self, id: Id) -> Node<'_>
        requires { id.index < length self.now }
        ensures { IsNodeOf self.now result (tree_at self.now id) }
    {
        self.bank.node(id)
    }

    /// The number of a term of the table, from 1.
    pub fn number_of(&self, id: Id) -> u64
        requires { id.index < length self.now }
        ensures { result ≡ number_in self.now (tree_at self.now id) }
    {
        self.bank.equal_trees_have_equal_ids();
        let most = self.len();
        prove!(id.index < most);
        id.index as u64 + 1
    }

    /// The number of a tree, from 1. It is put into the table where it isn't there, its arguments first.
    ///
    /// `Err` is want of memory. Nothing is said of the table then.
    pub fn number(&mut self, tree: &Tree) -> Result<u64, AllocError>
        // The table of the terms so far, and then of these and this one.
        ensures table { (earlier : List Term) → self.old ≡ table_of earlier →
            OnOk result (self.new ≡ table_of (earlier ++ (term_of tree.now ∷ []))) }
        // The number stays, whatever terms follow.
        ensures number { (earlier later : List Term) → self.old ≡ table_of earlier →
            IfOk result (λ number. number ≡
            number_in (table_of (earlier ++ (term_of tree.now ∷ later))) (term_of tree.now)) }
    {
        let id = enter(self.alloc, &mut self.bank, tree)?;
        Ok(self.number_of(id))
    }
}
