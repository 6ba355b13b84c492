//! Terms closed: each variable gives way to a term of a list, or to a name of the attacker's own.

ghost use Rattle.std.specs.Prelude.{◌≡◌, ℕ, ◌+◌, ◌-◌, ◌<◌, List, [], ◌∷◌, not, length, map, IfOk, IfSome, OnOk};
ghost use Rattle.spec_trees.specs.Tree.{bind};
ghost use Rattle.spec_terms.specs.Term.{Term, Subst};
ghost use Rattle.spec_translation.specs.Visit.{is_large_term};
ghost use Rattle.spec_attack_runs.specs.Instance.{own_name as own_name_of, next_after};
ghost use Rattle.term_tree.specs.Bank.{tree_at, AreKnown, Names, Grows};
ghost use Rattle.clause_diffs.specs.Plain.{term_of};
ghost use Rattle.clause_instances.specs.Closing.{term_for, Closes, IsClosing, AddsClosed, AreClosed, AreBothIn};

use crate::instance::no_ids;
use clause_diffs::Order;
use clause_form::{Ids, Tree, Trees};
use limits::MOST_SYMBOLS;
use std::alloc::{AllocError, Global};
use term_tree::{Bank, Id, Sym};

/// The variables in order of their first occurrence, and the closed term for each.
#[derive(Drop)]
pub(crate) struct Closing {
    order: Order,
    terms: Ids,
}

/// The attacker's own name of that number. On `Err` the bank may have grown.
fn own_name<B: Bank>(bank: &mut B, number: u32) -> Result<Id, AllocError>
    ensures grows { Grows (B.trees bank.old) (B.trees bank.new) }
    ensures names { IfOk result (λ id. Names (B.trees bank.new) id (own_name_of number)) }
{
    let variable = bank.var(number)?;
    bank.app(Sym::Attacker, &[variable])
}

/// The number that comes next; want of memory where it doesn't fit.
fn following(number: u32) -> Result<u32, AllocError>
    ensures { IfOk result (λ next. next ≡ number + 1) }
{
    match number.checked_add(1) {
        None => Err(AllocError),
        Some(next) => Ok(next),
    }
}

/// The term for the variable of that place, from 0: a given one, or the next name of the attacker's own. On `Err` the bank may have
/// grown.
fn term_at<B: Bank>(
    bank: &mut B,
    given: &[Id],
    place: usize,
    number: &mut u32,
) -> Result<Id, AllocError>
    requires { AreKnown (B.trees bank.old) given.now }
    ensures grows { Grows (B.trees bank.old) (B.trees bank.new) }
    ensures names { (n : ℕ) → number.old ≡ n + (place - length given.now) →
        IfOk result (λ id. Names (B.trees bank.new) id
        (term_for (map (tree_at (B.trees bank.old)) given.now) n place)) }
    ensures next { (n : ℕ) → number.old ≡ n + (place - length given.now) →
        OnOk result (number.new ≡ n + ((place + 1) - length given.now)) }
{
    if place < given.len() {
        return Ok(given[place]);
    }
    let id = own_name(bank, *number)?;
    *number = following(*number)?;
    Ok(id)
}

/// Whether the term isn't over the limit of size.
fn is_small<B: Bank>(bank: &B, id: Id) -> bool
    requires { id.index < length (B.trees bank.now) }
    ensures { result ≡ not (is_large_term (tree_at (B.trees bank.now) id)) }
{
    bank.size(id) <= MOST_SYMBOLS
}

impl Closing {
    /// The first variables get the given terms, and each further one the next name of the attacker's own, from the number on, which
    /// becomes that of the next name.
    pub(crate) fn new<B: Bank>(
        alloc: Global,
        bank: &mut B,
        variables: Vec<u32>,
        given: &[Id],
        number: &mut u32,
    ) -> Result<Closing, AllocError>
        requires { AreKnown (B.trees bank.old) given.now }
        ensures grows { Grows (B.trees bank.old) (B.trees bank.new) }
        ensures closing { IfOk result (λ made. IsClosing (B.trees bank.new)
            (map (tree_at (B.trees bank.old)) given.now) number.old variables.items made) }
        ensures next { OnOk result (number.new ≡ next_after
            (map (tree_at (B.trees bank.old)) given.now) number.old variables.items) }
    {
        let order = Order::new(alloc, variables)?;
        let mut items = Vec::with_capacity(alloc, order.count())?;
        'each: for place in 0..order.count() {
            let id = term_at(bank, given, place, number)?;
            items.push(id)?;
        }
        Ok(Closing {
            order,
            terms: Ids { items },
        })
    }

    /// The closed term of a variable; none where it isn't among the variables.
    fn term_of(&self, number: u32) -> Option<Id>
        ensures known { (all : List Term) → AreKnown all self.now.terms →
            IfSome result (λ id. id.index < length all) }
        ensures is { (all : List Term) (s : Subst) → Closes all self.now s →
            IfSome result (λ id. tree_at all id ≡ s number) }
    {
        let place = self.order.place(number) as usize;
        if place < self.terms.items.len() {
            return Some(self.terms.items[place]);
        }
        None
    }

    /// The closed term of a term all of whose variables are among these. On `Err` the bank may have grown.
    pub(crate) fn closed<B: Bank>(
        &self,
        alloc: Global,
        bank: &mut B,
        tree: &Tree,
    ) -> Result<Id, AllocError>
        requires { AreKnown (B.trees bank.old) self.now.terms }
        ensures grows { Grows (B.trees bank.old) (B.trees bank.new) }
        ensures known { IfOk result (λ id. id.index < length (B.trees bank.new)) }
        ensures is { (s : Subst) → Closes (B.trees bank.old) self.now s →
            IfOk result (λ id. tree_at (B.trees bank.new) id ≡ bind s (term_of tree.now)) }
    {
        match tree {
            Tree::Var(number) => match self.term_of(*number) {
                None => Err(AllocError),
                Some(term) => Ok(term),
            },
            Tree::App(symbol, arguments) => {
                let mut ids = Vec::with_capacity(alloc, arguments.items.len())?;
                'each: for argument in &arguments.items {
                    let id = self.closed(alloc, bank, argument)?;
                    ids.push(id)?;
                }
                bank.app(*symbol, &ids)
            }
        }
    }

    /// Adds the closed term of a term, and tells whether it isn't over the limit of size. On `Err` the bank may have grown.
    pub(crate) fn add_one<B: Bank>(
        &self,
        alloc: Global,
        bank: &mut B,
        tree: &Tree,
        made: &mut Ids,
    ) -> Result<bool, AllocError>
        requires terms { AreKnown (B.trees bank.old) self.now.terms }
        requires known { AreKnown (B.trees bank.old) made.old }
        ensures grows { Grows (B.trees bank.old) (B.trees bank.new) }
        ensures known { OnOk result (AreKnown (B.trees bank.new) made.new) }
        ensures adds { (s : Subst) → Closes (B.trees bank.old) self.now s →
            IfOk result (λ small. AddsClosed (B.trees bank.old) (B.trees bank.new) s
            (term_of tree.now ∷ []) made.old made.new small) }
    {
        let id = self.closed(alloc, bank, tree)?;
        made.items.push(id)?;
        Ok(is_small(bank, id))
    }

    /// Adds the closed terms of terms, and tells whether none of them is over the limit of size. On `Err` the bank may have grown.
    pub(crate) fn add_closed<B: Bank>(
        &self,
        alloc: Global,
        bank: &mut B,
        trees: &[Tree],
        made: &mut Ids,
    ) -> Result<bool, AllocError>
        requires terms { AreKnown (B.trees bank.old) self.now.terms }
        requires known { AreKnown (B.trees bank.old) made.old }
        ensures grows { Grows (B.trees bank.old) (B.trees bank.new) }
        ensures known { OnOk result (AreKnown (B.trees bank.new) made.new) }
        ensures adds { (s : Subst) → Closes (B.trees bank.old) self.now s →
            IfOk result (λ small. AddsClosed (B.trees bank.old) (B.trees bank.new) s
            (map term_of trees.now) made.old made.new small) }
    {
        let mut small = true;
        'each: for tree in trees {
            let one = self.add_one(alloc, bank, tree, made)?;
            small &= one;
        }
        Ok(small)
    }

    /// The closed terms of two lists; none where one of them is over the limit of size. On `Err` the bank may have grown.
    pub(crate) fn both_closed<B: Bank>(
        &self,
        alloc: Global,
        bank: &mut B,
        lefts: &Trees,
        rights: &Trees,
    ) -> Result<Option<(Ids, Ids)>, AllocError>
        requires { AreKnown (B.trees bank.old) self.now.terms }
        ensures grows { Grows (B.trees bank.old) (B.trees bank.new) }
        ensures known { IfOk result (λ found. AreBothIn (B.trees bank.new) found) }
        ensures closed { (s : Subst) → Closes (B.trees bank.old) self.now s →
            IfOk result (λ found. AreClosed (B.trees bank.new) s lefts.now rights.now found) }
    {
        let mut first = no_ids(alloc);
        let mut second = no_ids(alloc);
        let small = self.add_closed(alloc, bank, &lefts.items, &mut first)?;
        let fits = self.add_closed(alloc, bank, &rights.items, &mut second)?;
        if small & fits {
            return Ok(Some((first, second)));
        }
        Ok(None)
    }
}
