//! The values of closed terms, and where values are known.

ghost use Rattle.std.specs.Prelude.{◌≡◌, ℕ, ◌%◌, ◌<◌, ◌^◌, Some, [], ◌∷◌, ◌++◌, List, length, map, option_map, IfOk, OnOk};
ghost use Rattle.std.specs.List.{find};
ghost use Rattle.spec_trees.specs.Tree.{Leaf, trees};
ghost use Rattle.spec_calculus.specs.Values.{FreeName, same_value};
ghost use Rattle.spec_terms.specs.Term.{Term};
ghost use Rattle.spec_attack_runs.specs.Compiling.{Named as NamedOf, first_number, named, closed_value, closed_values};
ghost use Rattle.pi_tree.specs.Values.{value_of};
ghost use Rattle.term_tree.specs.Bank.{symbol_of, tree_at, AreKnown, AreShared};
ghost use Rattle.fact_classes.specs.Classes.{listed};
ghost use Rattle.attack_state.specs.Applied.{applied};
ghost use Rattle.attack_state.specs.Listing.{AreListed, passes_at};
ghost use Rattle.attack_state.specs.States.{KnowsValues, KnowsSome, NameNamed, named_class, names_id};
ghost use Rattle.attack_state.specs.Valued.{AddsValue, AddsValues};

use destructor_rules::is_same;
use fact_classes::Classes;
use held_entries::keys::value_key;
use pi_configurations::known::Known as KnownValues;
use pi_tree::{Value, Values};
use std::alloc::{AllocError, Global};
use term_store::SharedBank;
use term_tree::{Bank, Id, Node, Sym};

/// The numbers of the known values by a key of the value: equal values have equal keys, so the first place of a value is the first
/// of its key's that has it.
pub struct Known {
    alloc: Global,
    pub classes: Classes,
    pub count: usize,
}

impl Drop for Known {
    fn drop(self) {
        let Known {
            alloc,
            classes,
            count: _,
        } = self;
        drop(alloc);
        drop(classes);
    }
}

/// Whether the value is the known one of that number, from 0.
#[tactic(auto, using(crate::proofs::Listing::by_passing))]
fn is_at(known: &KnownValues, number: usize, value: &Value) -> bool
    ensures { result ≡ passes_at (same_value (value_of value.now)) known.now number }
{
    match known.items.get(number) {
        None => false,
        Some(found) => is_same(value, found),
    }
}

impl Known {
    /// Nothing is known.
    pub(crate) fn new(alloc: Global) -> Known
        ensures { KnowsValues [] result }
    {
        Known {
            alloc,
            classes: Classes::none(alloc),
            count: 0,
        }
    }

    /// All of these values are known.
    pub(crate) fn reach(&mut self, known: &KnownValues) -> Result<(), AllocError>
        requires { KnowsSome known.now self.old }
        ensures { OnOk result (KnowsValues known.now self.new) }
    {
        'each: while self.count < known.items.len() {
            let class = value_key(&known.items[self.count]) as usize;
            self.classes.push(self.alloc, Some(class), self.count)?;
            self.count += 1;
        }
        Ok(())
    }

    /// The first place of the value among the known ones, from 1.
    pub(crate) fn first_place(&self, known: &KnownValues, value: &Value) -> Option<u32>
        requires knows { KnowsValues known.now self.now }
        requires room { length known.now < 2 ^ 32 }
        ensures { result ≡ first_number (same_value (value_of value.now)) known.now }
    {
        'each: for index in self.classes.of(value_key(value) as usize) {
            if is_at(known, *index, value) {
                return Some(*index as u32 + 1);
            }
        }
        None
    }
}

/// The value of a term whose root is applied to parts of these values: a constructor's, or a tuple.
fn applied(symbol: Sym, values: Values) -> Value
    ensures { value_of result ≡ applied (symbol_of symbol) values }
{
    match symbol {
        Sym::Ctor(number) | Sym::Data(number) => Value::App(number, values),
        _ => Value::Tuple(values),
    }
}

/// Adds the value of a term whose root is applied to parts of these values; true.
#[inline(never)]
fn add_applied(symbol: Sym, items: Vec<Value>, made: &mut Vec<Value>) -> Result<bool, AllocError>
    ensures { IfOk result (λ told. AddsValue (map value_of made.old.items)
        (map value_of made.new.items) told
        (Some (applied (symbol_of symbol) (map value_of items.items)))) }
{
    made.push(applied(symbol, Values { items }))?;
    Ok(true)
}

/// Adds a free name; true.
#[inline(never)]
fn add_free(number: u32, made: &mut Vec<Value>) -> Result<bool, AllocError>
    ensures { IfOk result (λ told. AddsValue (map value_of made.old.items)
        (map value_of made.new.items) told (Some (Leaf (FreeName number)))) }
{
    made.push(Value::Free(number))?;
    Ok(true)
}

/// The value that was made for a closed term: a name of a restriction or of the attacker.
pub struct Named {
    pub term: Id,
    pub value: Value,
}

impl Drop for Named {
    fn drop(self) {
        let Named { term: _, value } = self;
        drop(value);
    }
}

/// How many classes names stand in.
const CLASSES: usize = 65_521;

/// The values of names, which are looked up by their terms' ids.
pub struct Names {
    alloc: Global,
    pub items: Vec<Named>,
    pub classes: Classes,
}

impl Drop for Names {
    fn drop(self) {
        let Names {
            alloc,
            items,
            classes,
        } = self;
        drop(alloc);
        drop(items);
        drop(classes);
    }
}

impl Names {
    /// No names.
    pub(crate) fn new(alloc: Global) -> Names
        ensures none { result.items.items ≡ [] }
        ensures listed { AreListed named_class [] result.classes }
    {
        Names {
            alloc,
            items: Vec::new(alloc),
            classes: Classes::none(alloc),
        }
    }

    /// One more name.
    pub fn push(&mut self, term: Id, value: Value) -> Result<(), AllocError>
        ensures items { OnOk result (self.new.items.items ≡
            self.old.items.items ++ record { term = term; value = value } ∷ []) }
        ensures listed { OnOk result (AreListed named_class self.old.items.items self.old.classes →
            AreListed named_class self.new.items.items self.new.classes) }
    {
        self.classes
            .push(self.alloc, Some(term.index % CLASSES), self.items.len())?;
        self.items.push(Named { term, value })?;
        Ok(())
    }

    /// Whether the name of that number, from 0, is that of the term.
    #[tactic(auto, using(crate::proofs::Listing::by_passing))]
    fn is_at(&self, number: usize, term: Id) -> bool
        ensures { result ≡ passes_at (names_id term) self.now.items.items number }
    {
        match self.items.get(number) {
            None => false,
            Some(named) => named.term.index == term.index,
        }
    }

    /// The number of the first name of the term, from 0.
    fn first(&self, term: Id) -> Option<usize>
        ensures { result ≡ find (passes_at (names_id term) self.now.items.items)
            (listed self.now.classes (Some (term.index % 65521))) }
    {
        'each: for index in self.classes.of(term.index % CLASSES) {
            if self.is_at(*index, term) {
                return Some(*index);
            }
        }
        None
    }

    /// The value of a name, if one was made.
    fn get(&self, term: Id) -> Option<&Value>
        ensures { (all : List Term) (names : List NamedOf) → AreShared all → term.index < length all →
            NameNamed all self.now.items.items names →
            AreListed named_class self.now.items.items self.now.classes →
            option_map (λ v. value_of v.now) result ≡ named names (tree_at all term) }
    {
        match self.first(term) {
            None => None,
            Some(number) => match self.items.get(number) {
                None => None,
                Some(named) => Some(&named.value),
            },
        }
    }

    /// Adds the value of a name; false where none was made.
    #[inline(never)]
    fn add_named(
        &self,
        bank: &SharedBank,
        term: Id,
        made: &mut Vec<Value>,
    ) -> Result<bool, AllocError>
        requires { term.index < length bank.now }
        ensures { (names : List NamedOf) → NameNamed bank.now self.now.items.items names →
            AreListed named_class self.now.items.items self.now.classes →
            IfOk result (λ told. AddsValue (map value_of made.old.items)
            (map value_of made.new.items) told (named names (tree_at bank.now term))) }
    {
        bank.equal_trees_have_equal_ids();
        match self.get(term) {
            None => Ok(false),
            Some(value) => {
                made.push(value.copy(self.alloc)?)?;
                Ok(true)
            }
        }
    }

    /// Adds the value of a closed term; false where one of its names wasn't made. Terms are thousands of levels deep, so it keeps
    /// little at each level.
    #[cycle(add_value)]
    fn add_value(
        &self,
        bank: &SharedBank,
        term: Id,
        made: &mut Vec<Value>,
    ) -> Result<bool, AllocError>
        requires { term.index < length bank.now }
        ensures { (names : List NamedOf) → NameNamed bank.now self.now.items.items names →
            AreListed named_class self.now.items.items self.now.classes →
            IfOk result (λ told. AddsValue (map value_of made.old.items)
            (map value_of made.new.items) told (closed_value names (tree_at bank.now term))) }
    {
        match bank.node(term) {
            Node::Var(_) => Ok(false),
            Node::App(symbol, arguments) => match symbol {
                Sym::Free(number) => add_free(number, made),
                Sym::Point(_) | Sym::Attacker => self.add_named(bank, term, made),
                Sym::Ctor(_) | Sym::Data(_) | Sym::Tuple(_) => {
                    let mut items = Vec::with_capacity(self.alloc, arguments.len())?;
                    if !self.add_values(bank, arguments, &mut items)? {
                        return Ok(false);
                    }
                    add_applied(symbol, items, made)
                }
            },
        }
    }

    /// Adds the values of closed terms; false where one of their names wasn't made.
    #[cycle(add_value)]
    fn add_values(
        &self,
        bank: &SharedBank,
        terms: &[Id],
        made: &mut Vec<Value>,
    ) -> Result<bool, AllocError>
        requires { AreKnown bank.now terms.now }
        ensures { (names : List NamedOf) → NameNamed bank.now self.now.items.items names →
            AreListed named_class self.now.items.items self.now.classes →
            IfOk result (λ told. AddsValues (map value_of made.old.items)
            (map value_of made.new.items) told
            (closed_values names (trees (map (tree_at bank.now) terms.now)))) }
    {
        'each: for term in terms {
            if !self.add_value(bank, *term, made)? {
                return Ok(false);
            }
        }
        Ok(true)
    }

    /// The value of a closed term, where its names were made.
    pub fn value_of(&self, bank: &SharedBank, term: Id) -> Result<Option<Value>, AllocError>
        requires { term.index < length bank.now }
        ensures { (names : List NamedOf) → NameNamed bank.now self.now.items.items names →
            AreListed named_class self.now.items.items self.now.classes →
            IfOk result (λ found. option_map value_of found ≡
            closed_value names (tree_at bank.now term)) }
    {
        let mut made = Vec::new(self.alloc);
        if !self.add_value(bank, term, &mut made)? {
            return Ok(None);
        }
        Ok(made.pop())
    }

    /// The values of closed terms, where their names were made.
    pub fn values_of(&self, bank: &SharedBank, terms: &[Id]) -> Result<Option<Values>, AllocError>
        requires { AreKnown bank.now terms.now }
        ensures { (names : List NamedOf) → NameNamed bank.now self.now.items.items names →
            AreListed named_class self.now.items.items self.now.classes →
            IfOk result (λ found. found ≡
            closed_values names (trees (map (tree_at bank.now) terms.now))) }
    {
        let mut items = Vec::with_capacity(self.alloc, terms.len())?;
        if !self.add_values(bank, terms, &mut items)? {
            return Ok(None);
        }
        Ok(Some(Values { items }))
    }
}
