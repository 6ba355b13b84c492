//! The names that a file declares.

ghost use Rattle.std.specs.Prelude.{◌≡◌, ◌+◌, ◌<◌, ◌≤◌, [], ◌∷◌, ◌++◌, length, option_map, OnOk};
ghost use Rattle.std.specs.List.{list_all};
ghost use Rattle.std.specs.Char.{is_ascii_digit};
ghost use Rattle.spec_calculus.specs.Bounds.{most_names};
ghost use Rattle.spec_protocol_scope.specs.Names as rules;
ghost use Rattle.spec_protocol_scope.specs.Declarations.{with_free, with_constructor, with_destructor, with_event, with_table};
ghost use Rattle.spec_protocol_scope.specs.Scope as scoped;
ghost use Rattle.pi_tree.specs.Names.{declared_of};
ghost use Rattle.pi_tree.specs.Processes.{process_of};
ghost use Rattle.pi_tree.specs.Protocols.{protocol_of};
ghost use Rattle.pi_tree.specs.Rules.{destructor_of};
ghost use Rattle.scope_declarations.specs.Names.{names_of, IsKept, StaysKept, meaning_of};
ghost use Rattle.scope_declarations.specs.Scope.{scope_of};
ghost use Rattle.scope_declarations.specs.Tables.{TellsBesides};

use crate::scope::Scope;
use crate::text::text_of;
use pi_parser::ProcessSketch;
use pi_tree::{Declarations, Declared, Dtor, Dtors, Process, Protocol, Queries};
use std::alloc::{AllocError, Global};
use std::collections::HashMap;

/// A macro: the token that names it, and its body.
#[derive(Clone, Copy)]
pub struct Macro<'a> {
    pub name: usize,
    pub body: &'a ProcessSketch,
}

/// What a file has declared so far, in order; all of it shares one space of names. Its `drop` is written out, so that it
/// is one call wherever names are let go.
pub struct Names<'a> {
    pub frees: Declarations,
    pub ctors: Declarations,
    pub dtors: Dtors,
    pub events: Declarations,
    pub tables: Declarations,
    pub macros: Vec<Macro<'a>>,

    /// What each of them is, found by the hash of its word.
    pub meanings: HashMap<Vec<u8>, Meaning>,
}

impl Drop for Names<'_> {
    fn drop(self) {
        let Names {
            frees: _,
            ctors: _,
            dtors: _,
            events: _,
            tables: _,
            macros: _,
            meanings: _,
        } = self;
    }
}

impl<'a> Names<'a> {
    /// No names.
    pub fn new(alloc: Global) -> Self
        ensures none { names_of result ≡ rules.no_names }
        ensures kept { (text : rules.Texts) → IsKept text result }
    {
        Names {
            frees: Declarations {
                items: Vec::new(alloc),
            },
            ctors: Declarations {
                items: Vec::new(alloc),
            },
            dtors: Dtors {
                items: Vec::new(alloc),
            },
            events: Declarations {
                items: Vec::new(alloc),
            },
            tables: Declarations {
                items: Vec::new(alloc),
            },
            macros: Vec::new(alloc),
            meanings: HashMap::new(alloc),
        }
    }

    /// Adds a free name.
    pub fn add_free(&mut self, alloc: Global, free: Declared) -> Result<(), AllocError>
        requires { rules.count_of (names_of self.old) < most_names }
        ensures names { OnOk result
            (names_of self.new ≡ with_free (names_of self.old) (declared_of free)) }
        ensures kept { OnOk result (StaysKept self.old (declared_of free).word self.new) }
    {
        let meaning = Meaning::Free(number_behind(&self.frees));
        enter(&mut self.meanings, alloc, &free.word.items, meaning)?;
        append(&mut self.frees, free)?;
        Ok(())
    }

    /// Adds a constructor.
    pub fn add_constructor(&mut self, alloc: Global, found: Declared) -> Result<(), AllocError>
        requires { rules.count_of (names_of self.old) < most_names }
        ensures names { OnOk result
            (names_of self.new ≡ with_constructor (names_of self.old) (declared_of found)) }
        ensures kept { OnOk result (StaysKept self.old (declared_of found).word self.new) }
    {
        let meaning = Meaning::Constructor {
            number: number_behind(&self.ctors),
            arity: found.arity,
            is_data: found.is_data,
        };
        enter(&mut self.meanings, alloc, &found.word.items, meaning)?;
        append(&mut self.ctors, found)?;
        Ok(())
    }

    /// Adds a destructor.
    pub fn add_destructor(&mut self, alloc: Global, found: Dtor) -> Result<(), AllocError>
        requires { rules.count_of (names_of self.old) < most_names }
        ensures names { OnOk result
            (names_of self.new ≡ with_destructor (names_of self.old) (destructor_of found)) }
        ensures kept { OnOk result (StaysKept self.old (destructor_of found).word self.new) }
    {
        let meaning = Meaning::Destructor {
            number: destructor_behind(&self.dtors),
            arity: arity_of(&found),
        };
        enter(&mut self.meanings, alloc, &found.word.items, meaning)?;
        append_destructor(&mut self.dtors, found)?;
        Ok(())
    }

    /// Adds an event.
    pub fn add_event(&mut self, alloc: Global, found: Declared) -> Result<(), AllocError>
        requires { rules.count_of (names_of self.old) < most_names }
        ensures names { OnOk result
            (names_of self.new ≡ with_event (names_of self.old) (declared_of found)) }
        ensures kept { OnOk result (StaysKept self.old (declared_of found).word self.new) }
    {
        let meaning = Meaning::Event {
            number: number_behind(&self.events),
            arity: found.arity,
        };
        enter(&mut self.meanings, alloc, &found.word.items, meaning)?;
        append(&mut self.events, found)?;
        Ok(())
    }

    /// Adds a table.
    pub fn add_table(&mut self, alloc: Global, found: Declared) -> Result<(), AllocError>
        requires { rules.count_of (names_of self.old) < most_names }
        ensures names { OnOk result
            (names_of self.new ≡ with_table (names_of self.old) (declared_of found)) }
        ensures kept { OnOk result (StaysKept self.old (declared_of found).word self.new) }
    {
        let meaning = Meaning::Table {
            number: number_behind(&self.tables),
            arity: found.arity,
        };
        enter(&mut self.meanings, alloc, &found.word.items, meaning)?;
        append(&mut self.tables, found)?;
        Ok(())
    }

    /// The protocol of these names with this main process and these queries.
    pub fn into_protocol(self, main: Box<Process>, queries: Queries) -> Protocol
        ensures { protocol_of result ≡
            scoped.protocol_of (names_of self.entry) (process_of main.value) queries }
    {
        let Names {
            frees,
            ctors,
            dtors,
            events,
            tables,
            macros: _,
            meanings: _,
        } = self;
        Protocol {
            frees,
            ctors,
            dtors,
            events,
            tables,
            queries,
            main: Box::into_inner(main),
        }
    }
}

/// Enters a word with its meaning.
pub fn enter(
    meanings: &mut HashMap<Vec<u8>, Meaning>,
    alloc: Global,
    word: &[u8],
    meaning: Meaning,
) -> Result<(), AllocError>
    ensures { OnOk result (TellsBesides word.now meaning meanings.old meanings.new) }
{
    let word = Vec::from_slice(alloc, word)?;
    meanings.insert(word, meaning)?;
    Ok(())
}

/// The number of the name behind these.
fn number_behind(list: &Declarations) -> u32
    requires { length list.now < most_names }
    ensures { result ≡ length list.now + 1 }
{
    list.items.len() as u32 + 1
}

/// The number of the destructor behind these.
fn destructor_behind(list: &Dtors) -> u32
    requires { length list.now < most_names }
    ensures { result ≡ length list.now + 1 }
{
    list.items.len() as u32 + 1
}

/// Appends a declared name to its list.
fn append(list: &mut Declarations, item: Declared) -> Result<(), AllocError>
    ensures { OnOk result (list.new ≡ list.old ++ declared_of item ∷ []) }
{
    list.items.push(item)?;
    Ok(())
}

/// Appends a destructor to the list.
fn append_destructor(list: &mut Dtors, item: Dtor) -> Result<(), AllocError>
    ensures { OnOk result (list.new ≡ list.old ++ destructor_of item ∷ []) }
{
    list.items.push(item)?;
    Ok(())
}

/// What a declared name is, with its number among those of its kind, from 1.
#[derive(Clone, Copy)]
pub enum Meaning {
    Free(u32),
    Constructor {
        number: u32,
        arity: u32,
        is_data: bool,
    },
    Destructor {
        number: u32,
        arity: usize,
    },
    Event {
        number: u32,
        arity: u32,
    },
    Table {
        number: u32,
        arity: u32,
    },
    Macro,
}

/// How many arguments the rules of a destructor take.
pub fn arity_of(destructor: &Dtor) -> usize
    ensures { result ≡ rules.arity_of (destructor_of destructor.now).rules }
{
    match destructor.rules.items.first() {
        Some(rule) => rule.left.items.len(),
        None => 0,
    }
}

/// What the token's identifier is declared as.
pub fn look(scope: &Scope, token: usize) -> Option<Meaning>
    ensures { option_map meaning_of result ≡ rules.look (scope_of scope.now) token }
{
    let word = text_of(&scope.text, token);
    scope.names.meanings.get(word).copied()
}

/// How many names are declared.
pub fn count_of(names: &Names) -> usize
    requires { rules.count_of (names_of names.now) ≤ most_names }
    ensures { result ≡ rules.count_of (names_of names.now) }
{
    names.frees.items.len()
        + names.ctors.items.len()
        + names.dtors.items.len()
        + names.events.items.len()
        + names.tables.items.len()
        + names.macros.len()
}

/// Whether each byte is a digit.
fn are_digits(bytes: &[u8]) -> bool
    ensures { result ≡ list_all is_ascii_digit bytes.now }
{
    bytes.iter().all(|b| b.is_ascii_digit())
}

/// Whether the word is a variable's: `v`, and then one digit or more.
pub fn is_variable(word: &[u8]) -> bool
    ensures { result ≡ rules.is_variable word.now }
{
    match word {
        [first, digit, digits @ ..] => {
            *first == b'v' && digit.is_ascii_digit() && are_digits(digits)
        }
        _ => false,
    }
}
