//! Entries of tables, and which of them a `get` may take.

ghost use Rattle.std.specs.Prelude.{◌≡◌, [], ◌∷◌, ◌++◌, map, is_some, option_map, IfOk, IfSome, OnOk, OnErr};
ghost use Rattle.std.specs.List.{list_any, flat_map};
ghost use Rattle.spec_calculus.specs.Limits.{is_large};
ghost use Rattle.spec_calculus.specs.Points.{numbered};
ghost use Rattle.held_entries.specs.Entries.{held_of, taken_by, asked_by};
ghost use Rattle.held_entries.specs.Index.{HasAll, IsListed, IsIndexOf, AreCandidates, answer_of, answer_at};

use crate::keys::{class_at, table_class};
use crate::wanted::Wanted;
use fact_classes::Classes;
use pi_tree::Values;
use std::alloc::{AllocError, Global};
use std::marker::Model;
use term_values::Environment;

/// An entry of a table, which is numbered from 1, with its values.
pub struct Held {
    pub table: u32,
    pub args: Values,
}

impl Drop for Held {
    fn drop(self) {
        let Held { table: _, args } = self;
        drop(args);
    }
}

/// What is asked of an entry.
#[derive(Clone, Copy)]
enum Question {
    /// May the `get` take it?
    IsTaken,
    /// Has the value of one of the condition's terms more symbols than the limit with it, where it matches?
    HasLarge,
}

/// Entries in the order in which they were written; they are numbered from 1. Contracts see this list alone.
///
/// Beside it stands which entries there are of each table, and of each table and value in a column, so that a `get` whose
/// patterns compare a column looks at few. Where memory ran out while an entry was written, it is given up.
pub struct Entries {
    pub items: Vec<Held>,
    classes: Option<Classes>,
    alloc: Global,
}

impl Drop for Entries {
    fn drop(self) {
        let Entries {
            items,
            classes,
            alloc,
        } = self;
        drop(items);
        drop(classes);
        drop(alloc);
    }
}

impl Model for Entries {
    ghost use Rattle.std.specs.Prelude.{List, map};
    ghost use Rattle.spec_calculus.specs.Tables as calculus;
    ghost use Rattle.held_entries.specs.EntryCodes.{coded_entries};

    ghost Value = { List calculus.Held };

    ghost coded = { coded_entries };

    ghost use Rattle.held_entries.specs.Entries.{held_of};
    ghost use Rattle.held_entries.specs.Index.{IsIndexOf};

    ghost view = { λ a. map held_of a.items.items };

    ghost invariant = { λ a. IsIndexOf a.classes (map held_of a.items.items) };
}

impl Held {
    /// The environment of the thread at a `get` of that table and what it binds of the entry, where it may take it.
    #[tactic(auto, using(crate::proofs::Taking::of_taking))]
    pub fn taken(&self, table: u32, wanted: &Wanted) -> Result<Option<Environment>, AllocError>
        ensures { IfOk result (λ o. o ≡ option_map (λ bs. wanted.now.environment.now ++ bs)
            (taken_by wanted.now table (held_of self.now))) }
    {
        if self.table == table {
            wanted.taken(&self.args.items)
        } else {
            Ok(None)
        }
    }

    /// Whether the value of one of the terms of the `get`'s condition has more symbols than the limit with the entry, where
    /// it matches.
    #[tactic(auto, using(crate::proofs::Taking::of_taking))]
    fn is_large_with(&self, table: u32, wanted: &Wanted) -> Result<bool, AllocError>
        ensures { IfOk result (λ b. b ≡ list_any is_large
            (asked_by wanted.now table (held_of self.now))) }
    {
        if self.table == table {
            wanted.is_large_with(&self.args.items)
        } else {
            Ok(false)
        }
    }

    /// What is answered of the entry.
    #[tactic(auto, using(crate::proofs::Taking::of_taking))]
    fn answer(&self, table: u32, wanted: &Wanted, question: Question) -> Result<bool, AllocError>
        ensures { IfOk result (λ b. b ≡ answer_of wanted.now table question (held_of self.now)) }
    {
        match question {
            Question::IsTaken => Ok(self.taken(table, wanted)?.is_some()),
            Question::HasLarge => self.is_large_with(table, wanted),
        }
    }
}

/// The classes with the number of one more entry.
#[tactic(auto, using(crate::proofs::Finding::of_listing))]
fn listing(
    alloc: Global,
    mut classes: Classes,
    held: &Held,
    number: usize,
) -> Result<Classes, AllocError>
    ensures kept { IfOk result (λ new. HasAll classes new) }
    ensures listed { IfOk result (λ new. IsListed new (held_of held.now) number) }
{
    classes.push(alloc, Some(table_class(held.table)), number)?;
    for (column, value) in held.args.items.iter().enumerate() {
        let class = class_at(held.table, column, value);
        classes.push(alloc, Some(class), number)?;
    }
    Ok(classes)
}

/// The classes, where there are any, with one more entry behind these.
#[tactic(auto, using(crate::proofs::Finding::of_index))]
fn with_entry(
    alloc: Global,
    classes: Option<Classes>,
    items: &[Held],
    held: &Held,
) -> Result<Option<Classes>, AllocError>
    requires { IsIndexOf classes (map held_of items.now) }
    ensures { IfOk result (λ new. IsIndexOf new
        (map held_of items.now ++ held_of held.now ∷ [])) }
{
    match classes {
        None => Ok(None),
        Some(classes) => {
            let new = listing(alloc, classes, held, items.len())?;
            Ok(Some(new))
        }
    }
}

impl Entries {
    /// No entries. Takes no memory.
    #[tactic(auto, using(crate::proofs::Finding::of_index))]
    pub fn new(alloc: Global) -> Self
        ensures { result ≡ [] }
    {
        Entries {
            items: Vec::new(alloc),
            classes: Some(Classes::none(alloc)),
            alloc,
        }
    }

    /// One more entry, at the end.
    #[tactic(auto, using(crate::proofs::Finding::of_index))]
    pub fn push(&mut self, held: Held) -> Result<(), AllocError>
        ensures pushed { OnOk result (self.new ≡ self.old ++ held_of held ∷ []) }
        ensures unchanged { OnErr result (self.new ≡ self.old) }
    {
        let classes = with_entry(self.alloc, self.classes.take(), &self.items, &held)?;
        self.items.push(held)?;
        self.classes = classes;
        Ok(())
    }

    /// The entry of that number, if there is one.
    #[tactic(auto, using(term_values::proofs::Items::by_number))]
    pub fn get(&self, number: u32) -> Option<&Held>
        ensures { option_map (λ h. held_of h.now) result ≡ numbered self.now number }
    {
        match number.checked_sub(1) {
            None => None,
            Some(index) => self.items.get(index as usize),
        }
    }

    /// The indices of some entries, among which all of the table are that match; `None` where these aren't told.
    #[tactic(auto, using(crate::proofs::Finding::of_candidates))]
    fn candidates(&self, table: u32, wanted: &Wanted) -> Result<Option<&[usize]>, AllocError>
        ensures { IfOk result (λ o. IfSome o (λ numbers. AreCandidates wanted.now.environment.now
            table wanted.now.patterns.now self.now numbers.now)) }
    {
        match &self.classes {
            None => Ok(None),
            Some(classes) => match wanted.class(table)? {
                None => Ok(None),
                Some(class) => Ok(Some(classes.of(class))),
            },
        }
    }

    /// Whether the answer of one of all entries is yes.
    fn some_of_all(
        &self,
        table: u32,
        wanted: &Wanted,
        question: Question,
    ) -> Result<bool, AllocError>
        ensures { IfOk result (λ b. b ≡ list_any (answer_of wanted.now table question) self.now) }
    {
        for held in &self.items {
            if held.answer(table, wanted, question)? {
                return Ok(true);
            }
        }
        Ok(false)
    }

    /// The answer of the entry at the index; no where there is none.
    #[tactic(auto, using(crate::proofs::Finding::of_answers))]
    fn answer_at(
        &self,
        index: usize,
        table: u32,
        wanted: &Wanted,
        question: Question,
    ) -> Result<bool, AllocError>
        ensures { IfOk result (λ b. b ≡ answer_at wanted.now table question self.now index) }
    {
        match self.items.get(index) {
            None => Ok(false),
            Some(held) => held.answer(table, wanted, question),
        }
    }

    /// Whether the answer of one of the entries at these indices is yes.
    fn some_of(
        &self,
        indices: &[usize],
        table: u32,
        wanted: &Wanted,
        question: Question,
    ) -> Result<bool, AllocError>
        ensures { IfOk result (λ b. b ≡
            list_any (answer_at wanted.now table question self.now) indices.now) }
    {
        for index in indices {
            if self.answer_at(*index, table, wanted, question)? {
                return Ok(true);
            }
        }
        Ok(false)
    }

    /// Whether the answer of one of the entries is yes.
    #[tactic(auto, using(crate::proofs::Finding::of_deciding))]
    fn some(&self, table: u32, wanted: &Wanted, question: Question) -> Result<bool, AllocError>
        ensures { IfOk result (λ b. b ≡ list_any (answer_of wanted.now table question) self.now) }
    {
        match self.candidates(table, wanted)? {
            None => self.some_of_all(table, wanted, question),
            Some(indices) => self.some_of(indices, table, wanted, question),
        }
    }

    /// Whether the `get` of that table may take one of the entries.
    pub fn some_taken(&self, table: u32, wanted: &Wanted) -> Result<bool, AllocError>
        ensures { IfOk result (λ b. b ≡ list_any (λ held.
            is_some (taken_by wanted.now table held)) self.now) }
    {
        self.some(table, wanted, Question::IsTaken)
    }

    /// Whether the value of one of the terms of the `get`'s condition has more symbols than the limit with one of the
    /// entries that match.
    #[tactic(auto, using(crate::proofs::Finding::of_deciding))]
    pub fn some_large(&self, table: u32, wanted: &Wanted) -> Result<bool, AllocError>
        ensures { IfOk result (λ b. b ≡ list_any is_large
            (flat_map (asked_by wanted.now table) self.now)) }
    {
        self.some(table, wanted, Question::HasLarge)
    }
}
