//! What rows of two lists of terms show: their unifiers and matches, and terms whose variables are renamed. A list is what
//! `bad` stands over in the conclusion of a clause.

ghost use Rattle.std.specs.Prelude.{◌≡◌, ◌<◌, length};
ghost use Rattle.term_tree.specs.Bank.{AreKnown};
ghost use Rattle.clause_form.specs.Seen.{IsClauseIn};
ghost use Rattle.unify_match.specs.Seen.{IsReady, AreBindings};

use crate::clause_rows::terms::tower_text;
use clause_form::{Clause, Fact, read_term};
use std::alloc::{AllocError, Global};
use table_texts::writing::term_text;
use term_tree::{Bank, Id, Node, TreeBank};
use unify_match::{
    Binds, apply_bound, bindings_are_seen_once, match_all_onto, match_onto, renumbered, shifted,
    unify, unify_all,
};

/// The most symbols of an instance that is built.
const MOST_SYMBOLS: u64 = 7;

/// The numbers of the variables whose bindings are shown are below this one.
const SHOWN_VARIABLES: u32 = 10;

/// The numbers of variables that are moved, and how far, are at most this one.
const FAR: u32 = 1000;

/// A table of pairs of lists of terms.
#[derive(Clone, Copy)]
pub enum TermTable {
    /// The terms of the first list under their most general unifier with those of the second one.
    Unifiers,
    /// The bindings by which the first list matches onto the second one.
    Matches,
    /// Whether a binding to the term of the second list can be taken back.
    TakenBack,
    /// The first term with each variable renamed to the number of the variable at its place in the second list.
    Renamed,
    /// The variable of the first list moved by the number of the one in the second list.
    Moved,
    /// The size of the term of the first list, doubled as often as the number of the variable in the second list says.
    Towers,
}

impl TermTable {
    /// What a row with these two clauses, over ids of a bank, shows.
    pub fn shown_in(
        self,
        alloc: Global,
        bank: &mut TreeBank,
        first: &Clause,
        second: &Clause,
    ) -> Result<String, AllocError>
        requires first { IsClauseIn bank.old first.now }
        requires second { IsClauseIn bank.old second.now }
    {
        match &first.concl {
            Fact::Bad(lefts) => match &second.concl {
                Fact::Bad(rights) => self.of_lists(alloc, bank, &lefts.items, &rights.items),
                _ => String::from_str(alloc, "no second list"),
            },
            _ => String::from_str(alloc, "no list"),
        }
    }

    /// What a row with these two lists shows.
    fn of_lists(
        self,
        alloc: Global,
        bank: &mut TreeBank,
        lefts: &[Id],
        rights: &[Id],
    ) -> Result<String, AllocError>
        requires lefts { AreKnown bank.old lefts.now }
        requires rights { AreKnown bank.old rights.now }
    {
        if lefts.len() == 0 || rights.len() == 0 {
            return String::from_str(alloc, "no terms");
        }
        match self {
            TermTable::Unifiers => unified_text(alloc, bank, lefts, rights),
            TermTable::Matches => matched_text(alloc, bank, lefts, rights),
            TermTable::TakenBack => taken_back_text(alloc, lefts[0], rights[0]),
            TermTable::Renamed => renamed_text(alloc, bank, lefts[0], rights),
            TermTable::Moved => moved_text(alloc, bank, lefts[0], rights[0]),
            TermTable::Towers => tower_text(alloc, bank, lefts[0], rights[0]),
        }
    }
}

/// The text of a term over ids.
pub fn text_of(alloc: Global, bank: &TreeBank, id: Id) -> Result<String, AllocError>
    requires { id.index < length bank.now }
{
    let tree = read_term(alloc, bank, id)?;
    term_text(alloc, &tree)
}

/// Unifies two terms, or two lists of them.
fn are_unified(
    bank: &TreeBank,
    lefts: &[Id],
    rights: &[Id],
    binds: &mut Binds,
) -> Result<bool, AllocError>
    requires lefts { AreKnown bank.now lefts.now }
    requires rights { AreKnown bank.now rights.now }
    requires ready { IsReady bank.now binds.old.pairs }
    ensures { IsReady bank.now binds.new.pairs }
{
    if lefts.len() != rights.len() {
        return Ok(false);
    }
    if lefts.len() == 1 {
        return unify(bank, lefts[0], rights[0], binds);
    }
    unify_all(bank, lefts, rights, binds)
}

/// The instances of the first list under its most general unifier with the second one, or `none`.
fn unified_text(
    alloc: Global,
    bank: &mut TreeBank,
    lefts: &[Id],
    rights: &[Id],
) -> Result<String, AllocError>
    requires lefts { AreKnown bank.old lefts.now }
    requires rights { AreKnown bank.old rights.now }
{
    let mut binds = Binds::new(alloc)?;
    if !are_unified(bank, lefts, rights, &mut binds)? {
        return String::from_str(alloc, "none");
    }
    instances_text(alloc, bank, lefts, &binds)
}

/// The instances of terms under bindings.
fn instances_text(
    alloc: Global,
    bank: &mut TreeBank,
    terms: &[Id],
    binds: &Binds,
) -> Result<String, AllocError>
    requires terms { AreKnown bank.old terms.now }
    requires ready { IsReady bank.old binds.now.pairs }
{
    let mut text = String::new(alloc);
    'each: for term in terms {
        let instance = instance_text(alloc, bank, *term, binds)?;
        add_behind(instance.as_str(), &mut text)?;
    }
    Ok(text)
}

/// Adds a text behind others.
pub fn add_behind(more: &str, text: &mut String) -> Result<(), AllocError> {
    if !text.is_empty() {
        text.push_str(", ")?;
    }
    text.push_str(more)?;
    Ok(())
}

/// The instance of a term under bindings, or `large`; the bank is cut back to what it was.
fn instance_text(
    alloc: Global,
    bank: &mut TreeBank,
    term: Id,
    binds: &Binds,
) -> Result<String, AllocError>
    requires known { term.index < length bank.old }
    requires ready { IsReady bank.old binds.now.pairs }
    ensures { bank.new ≡ bank.old }
{
    let mark = bank.mark();
    let text = match apply_bound(bank, term, binds, MOST_SYMBOLS)? {
        Some(made) => text_of(alloc, bank, made),
        None => String::from_str(alloc, "large"),
    };
    bank.back(mark);
    text
}

/// Matches a term, or a list of them, onto another one.
fn are_matched(
    bank: &TreeBank,
    lefts: &[Id],
    rights: &[Id],
    binds: &mut Binds,
) -> Result<bool, AllocError>
    requires lefts { AreKnown bank.now lefts.now }
    requires rights { AreKnown bank.now rights.now }
    requires bindings { AreBindings bank.now binds.old.pairs }
    ensures { AreBindings bank.now binds.new.pairs }
{
    if lefts.len() != rights.len() {
        return Ok(false);
    }
    if lefts.len() == 1 {
        return match_onto(bank, lefts[0], rights[0], binds);
    }
    match_all_onto(bank, lefts, rights, binds)
}

/// The bindings by which the first list matches onto the second one, or `none`.
fn matched_text(
    alloc: Global,
    bank: &TreeBank,
    lefts: &[Id],
    rights: &[Id],
) -> Result<String, AllocError>
    requires lefts { AreKnown bank.now lefts.now }
    requires rights { AreKnown bank.now rights.now }
{
    let mut binds = Binds::new(alloc)?;
    if !are_matched(bank, lefts, rights, &mut binds)? {
        return String::from_str(alloc, "none");
    }
    bindings_text(alloc, bank, &binds)
}

/// The bindings of the variables with small numbers; `-` where there are none.
fn bindings_text(alloc: Global, bank: &TreeBank, binds: &Binds) -> Result<String, AllocError>
    requires { AreBindings bank.now binds.now.pairs }
{
    let mut text = String::new(alloc);
    for number in 0..SHOWN_VARIABLES {
        add_binding(alloc, bank, binds, number, &mut text)?;
    }
    if text.is_empty() {
        return String::from_str(alloc, "-");
    }
    Ok(text)
}

/// Adds the binding of a variable, if it is bound.
fn add_binding(
    alloc: Global,
    bank: &TreeBank,
    binds: &Binds,
    number: u32,
    text: &mut String,
) -> Result<(), AllocError>
    requires { AreBindings bank.now binds.now.pairs }
{
    bindings_are_seen_once();
    match binds.look(number) {
        Some(id) => {
            let bound = text_of(alloc, bank, id)?;
            let shown = format!(in alloc; "v{number} = {bound}")?;
            add_behind(shown.as_str(), text)
        }
        None => Ok(()),
    }
}

/// Binds v0 and v1 to two terms, and takes the second binding back: `taken back` where v0 alone is bound then.
fn taken_back_text(alloc: Global, first: Id, second: Id) -> Result<String, AllocError> {
    let mut binds = Binds::new(alloc)?;
    binds.reserve(2)?;
    binds.bind(0, first);
    let level = binds.level();
    binds.bind(1, second);
    let is_bound = binds.look(1) == Some(second);
    binds.undo(level);
    if is_bound && binds.look(0) == Some(first) && binds.look(1).is_none() {
        return String::from_str(alloc, "taken back");
    }
    String::from_str(alloc, "wrong")
}

/// The number of the variable that a term is, if it is one.
pub fn number_of(bank: &TreeBank, id: Id) -> Option<u32>
    requires { id.index < length bank.now }
{
    match bank.node(id) {
        Node::Var(number) => Some(number),
        Node::App(_, _) => None,
    }
}

/// The numbers of the variables among terms, each at its place.
fn numbers_of(alloc: Global, bank: &TreeBank, terms: &[Id]) -> Result<Vec<Option<u32>>, AllocError>
    requires { AreKnown bank.now terms.now }
{
    let mut numbers = Vec::new(alloc);
    for term in terms {
        numbers.push(number_of(bank, *term))?;
    }
    Ok(numbers)
}

/// A term with its variables renamed by a table.
fn renamed_text(
    alloc: Global,
    bank: &mut TreeBank,
    term: Id,
    table: &[Id],
) -> Result<String, AllocError>
    requires term { term.index < length bank.old }
    requires table { AreKnown bank.old table.now }
{
    let numbers = numbers_of(alloc, bank, table)?;
    let made = renumbered(alloc, bank, term, &numbers)?;
    text_of(alloc, bank, made)
}

/// A variable moved by the number of another one.
fn moved_text(
    alloc: Global,
    bank: &mut TreeBank,
    variable: Id,
    offset: Id,
) -> Result<String, AllocError>
    requires variable { variable.index < length bank.old }
    requires offset { offset.index < length bank.old }
{
    let by = number_of(bank, offset).unwrap_or(0);
    match bank.node(variable) {
        Node::Var(number) => {
            if number > FAR || by > FAR {
                return String::from_str(alloc, "too far");
            }
            let made = shifted(alloc, bank, variable, by)?;
            text_of(alloc, bank, made)
        }
        Node::App(_, _) => String::from_str(alloc, "no variable"),
    }
}
