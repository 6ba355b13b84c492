//! Terms, patterns, events and processes (Blanchet 2016, section 2.1, untyped).

ghost use Rattle.std.specs.Prelude.{◌≡◌, length, IfOk};
ghost use Rattle.spec_trees.specs.Tree.{some_leaf, some_leaves, trees};
ghost use Rattle.spec_calculus.specs.Syntax as calculus;
ghost use Rattle.spec_calculus.specs.Absence.{term_holds, some_term, some_pattern, some_side, some_hole, process_holds, is_free};
ghost use Rattle.pi_tree.specs.Terms.{term_of};
ghost use Rattle.pi_tree.specs.Patterns.{pattern_of};
ghost use Rattle.pi_tree.specs.Expressions.{expression_of};
ghost use Rattle.pi_tree.specs.Events.{event_of};
ghost use Rattle.pi_tree.specs.Processes.{condition_of, process_of};

use crate::expressions::Expr;
use crate::names::Word;
use std::alloc::{AllocError, Global};
use std::marker::Model;

/// A term. A variable has its number among those that are bound, in pre-order from 1, and in a rule or
/// an event of a query that of its first occurrence. Free names and constructors are numbered from 1 in
/// order of declaration; a name that a restriction makes has the number of the restriction's point.
#[cycle(term)]
#[derive(Debug)]
pub enum Term {
    Var(u32),
    Free(u32),
    Made(u32),
    /// A constructor and its arguments.
    App(u32, Terms),
    /// A tuple and its parts.
    Tuple(Terms),
}

impl Drop for Term {
    #[cycle(term_drop)]
    fn drop(self) {
        match self {
            Term::Var(_) => {}
            Term::Free(_) => {}
            Term::Made(_) => {}
            Term::App(_, part) => drop(part),
            Term::Tuple(part) => drop(part),
        }
    }
}

/// Terms in order.
#[cycle(term)]
#[derive(Debug, Drop)]
pub struct Terms {
    pub items: Vec<Term>,
}

impl Model for Terms {
    ghost use Rattle.std.specs.Prelude.{List, map};
    ghost use Rattle.spec_trees.specs.Tree.{depths, trees};
    ghost use Rattle.spec_calculus.specs.Syntax as calculus;
    ghost use Rattle.spec_calculus.specs.Codes.{coded_terms};

    ghost Value = { List calculus.Term };

    ghost coded = { coded_terms };

    ghost use Rattle.pi_tree.specs.Terms.{term_of};

    ghost view = { λ a. map term_of a.items.items };

    ghost size = { λ ts. depths (trees ts) };

    ghost use Rattle.pi_tree.specs.TermDepths.{terms_fall};

    ghost size_decreases = { λ a h. terms_fall a.items.items };
}

/// A pattern.
#[cycle(pattern)]
#[derive(Debug)]
pub enum Pat {
    /// Binds the variable of that number.
    Bind(u32),
    /// Takes what is equal to the term.
    Equal(Term),
    /// A data constructor and its arguments.
    App(u32, Pats),
    /// A tuple and its parts.
    Tuple(Pats),
}

impl Drop for Pat {
    #[cycle(pattern_drop)]
    fn drop(self) {
        match self {
            Pat::Bind(_) => {}
            Pat::Equal(part) => drop(part),
            Pat::App(_, part) => drop(part),
            Pat::Tuple(part) => drop(part),
        }
    }
}

/// Patterns in order.
#[cycle(pattern)]
#[derive(Debug, Drop)]
pub struct Pats {
    pub items: Vec<Pat>,
}

impl Model for Pats {
    ghost use Rattle.std.specs.Prelude.{List, map};
    ghost use Rattle.spec_trees.specs.Tree.{depths, trees};
    ghost use Rattle.spec_calculus.specs.Syntax as calculus;
    ghost use Rattle.spec_calculus.specs.Codes.{coded_patterns};

    ghost Value = { List calculus.Pattern };

    ghost coded = { coded_patterns };

    ghost use Rattle.pi_tree.specs.Patterns.{pattern_of};

    ghost view = { λ a. map pattern_of a.items.items };

    ghost size = { λ ts. depths (trees ts) };

    ghost use Rattle.pi_tree.specs.PatternDepths.{patterns_fall};

    ghost size_decreases = { λ a h. patterns_fall a.items.items };
}

/// An event, numbered from 1, and its arguments.
#[derive(Debug)]
pub struct Atom {
    pub event: u32,
    pub args: Terms,
}

impl Drop for Atom {
    fn drop(self) {
        let Atom { event: _, args } = self;
        drop(args);
    }
}

/// Events in order.
#[derive(Debug)]
pub struct Atoms {
    pub items: Vec<Atom>,
}

impl Drop for Atoms {
    fn drop(self) {
        let Atoms { items } = self;
        drop(items);
    }
}

impl Model for Atoms {
    ghost use Rattle.std.specs.Prelude.{List, map};
    ghost use Rattle.spec_calculus.specs.Syntax as calculus;
    ghost use Rattle.spec_calculus.specs.Codes.{coded_events};

    ghost Value = { List calculus.EventTerm };

    ghost coded = { coded_events };

    ghost use Rattle.pi_tree.specs.Events.{event_of};

    ghost view = { λ a. map event_of a.items.items };
}

/// A process. Its nodes are its points, numbered from 1 in pre-order, each `Nil` among them.
#[derive(Debug)]
pub enum Process {
    /// Does nothing.
    Nil,
    /// Sends a message, the second term, on a channel, the first, and goes on.
    Output(Term, Term, Box<Process>),
    /// Receives on a channel what matches the pattern, and goes on.
    Input(Term, Pat, Box<Process>),
    /// Two processes in parallel.
    Par(Box<Process>, Box<Process>),
    /// As many copies as are wanted.
    Copies(Box<Process>),
    /// Makes a name, spelled as the word says, and goes on.
    New(Word, Box<Process>),
    /// Goes on as the first process with a value of the expression that matches the pattern, and as the
    /// second where there is none.
    Let(Pat, Expr, Box<Process>, Box<Process>),
    /// Performs an event, and goes on.
    Event(Atom, Box<Process>),
    /// Waits for the phase of that number, and goes on in it.
    Phase(u32, Box<Process>),
    /// Writes the terms into the table of that number, from 1, as one more entry, and goes on.
    Insert(u32, Terms, Box<Process>),
    /// Goes on as the first process with an entry of the table of that number, from 1, that matches the patterns and
    /// with which the condition's two terms have equal values, and as the second where there is none.
    Get(u32, Pats, Option<(Term, Term)>, Box<Process>, Box<Process>),
}

impl Drop for Process {
    fn drop(self) {
        match self {
            Process::Nil => {}
            Process::Output(part0, part1, part2) => {
                drop(part0);
                drop(part1);
                drop(part2);
            }
            Process::Input(part0, part1, part2) => {
                drop(part0);
                drop(part1);
                drop(part2);
            }
            Process::Par(part0, part1) => {
                drop(part0);
                drop(part1);
            }
            Process::Copies(part) => drop(part),
            Process::New(part0, part1) => {
                drop(part0);
                drop(part1);
            }
            Process::Let(part0, part1, part2, part3) => {
                drop(part0);
                drop(part1);
                drop(part2);
                drop(part3);
            }
            Process::Event(part0, part1) => {
                drop(part0);
                drop(part1);
            }
            Process::Phase(_, part) => drop(part),
            Process::Insert(_, part1, part2) => {
                drop(part1);
                drop(part2);
            }
            Process::Get(_, part1, part2, part3, part4) => {
                drop(part1);
                drop(part2);
                drop(part3);
                drop(part4);
            }
        }
    }
}

impl Term {
    /// Whether the term holds the free name of that number.
    #[cycle(term_holds)]
    pub fn holds_free(&self, number: u32) -> bool
        ensures { result ≡ some_leaf (is_free number) (term_of self.now) }
    {
        match self {
            Term::Var(_) | Term::Made(_) => false,
            Term::Free(free) => *free == number,
            Term::App(_, arguments) => arguments.hold_free(number),
            Term::Tuple(parts) => parts.hold_free(number),
        }
    }
}

impl Terms {
    /// Whether one of the terms holds the free name of that number.
    #[cycle(term_holds)]
    pub fn hold_free(&self, number: u32) -> bool
        ensures { result ≡ some_leaves (is_free number) (trees self.now) }
    {
        for term in &self.items {
            if term.holds_free(number) {
                return true;
            }
        }
        false
    }
}

impl Pat {
    /// Whether a term of the pattern holds the free name of that number.
    #[cycle(pattern_holds)]
    pub fn holds_free(&self, number: u32) -> bool
        ensures { result ≡ some_leaf (some_hole (is_free number)) (pattern_of self.now) }
    {
        match self {
            Pat::Bind(_) => false,
            Pat::Equal(term) => term.holds_free(number),
            Pat::App(_, arguments) => arguments.hold_free(number),
            Pat::Tuple(parts) => parts.hold_free(number),
        }
    }
}

impl Pats {
    /// How many patterns there are.
    pub(crate) fn count(&self) -> usize
        ensures { result ≡ length self.now }
    {
        self.items.len()
    }

    /// Whether a term of one of the patterns holds the free name of that number.
    #[cycle(pattern_holds)]
    pub fn hold_free(&self, number: u32) -> bool
        ensures { result ≡ some_leaves (some_hole (is_free number)) (trees self.now) }
    {
        for pattern in &self.items {
            if pattern.holds_free(number) {
                return true;
            }
        }
        false
    }
}

/// Whether one of a condition's two terms holds the free name of that number.
fn condition_holds(condition: &Option<(Term, Term)>, number: u32) -> bool
    ensures { result ≡ some_side (is_free number) (condition_of condition.now) }
{
    match condition {
        None => false,
        Some((left, right)) => left.holds_free(number) || right.holds_free(number),
    }
}

impl Process {
    /// Whether a term of the process holds the free name of that number.
    pub fn holds_free(&self, number: u32) -> bool
        ensures { result ≡ process_holds number (process_of self.now) }
    {
        match self {
            Process::Nil => false,
            Process::Output(channel, message, next) => {
                channel.holds_free(number) || message.holds_free(number) || next.holds_free(number)
            }
            Process::Input(channel, pattern, next) => {
                channel.holds_free(number) || pattern.holds_free(number) || next.holds_free(number)
            }
            Process::Par(left, right) => left.holds_free(number) || right.holds_free(number),
            Process::Copies(copied) => copied.holds_free(number),
            Process::New(_, next) => next.holds_free(number),
            Process::Let(pattern, expression, next, otherwise) => {
                pattern.holds_free(number)
                    || expression.holds_free(number)
                    || next.holds_free(number)
                    || otherwise.holds_free(number)
            }
            Process::Event(atom, next) => atom.args.hold_free(number) || next.holds_free(number),
            Process::Phase(_, next) => next.holds_free(number),
            Process::Insert(_, arguments, next) => {
                arguments.hold_free(number) || next.holds_free(number)
            }
            Process::Get(_, patterns, condition, next, otherwise) => {
                patterns.hold_free(number)
                    || condition_holds(condition, number)
                    || next.holds_free(number)
                    || otherwise.holds_free(number)
            }
        }
    }
}

impl Term {
    /// A copy, its arguments copied.
    #[cycle(term_copy)]
    pub fn copy(&self, alloc: Global) -> Result<Term, AllocError>
        ensures { IfOk result (λ copied. copied ≡ self.now) }
    {
        match self {
            Term::Var(number) => Ok(Term::Var(*number)),
            Term::Free(number) => Ok(Term::Free(*number)),
            Term::Made(point) => Ok(Term::Made(*point)),
            Term::App(constructor, arguments) => {
                Ok(Term::App(*constructor, arguments.copy(alloc)?))
            }
            Term::Tuple(parts) => Ok(Term::Tuple(parts.copy(alloc)?)),
        }
    }
}

impl Terms {
    /// A copy, item by item.
    #[cycle(term_copy)]
    pub fn copy(&self, alloc: Global) -> Result<Terms, AllocError>
        ensures { IfOk result (λ copied. copied ≡ self.now) }
    {
        let mut items = Vec::new(alloc);
        for term in &self.items {
            items.push(term.copy(alloc)?)?;
        }
        Ok(Terms { items })
    }
}

impl Pat {
    /// A copy, its arguments copied.
    #[cycle(pattern_copy)]
    pub fn copy(&self, alloc: Global) -> Result<Pat, AllocError>
        ensures { IfOk result (λ copied. copied ≡ self.now) }
    {
        match self {
            Pat::Bind(number) => Ok(Pat::Bind(*number)),
            Pat::Equal(term) => Ok(Pat::Equal(term.copy(alloc)?)),
            Pat::App(constructor, arguments) => {
                Ok(Pat::App(*constructor, arguments.copy(alloc)?))
            }
            Pat::Tuple(parts) => Ok(Pat::Tuple(parts.copy(alloc)?)),
        }
    }
}

impl Pats {
    /// A copy, item by item.
    #[cycle(pattern_copy)]
    pub fn copy(&self, alloc: Global) -> Result<Pats, AllocError>
        ensures { IfOk result (λ copied. copied ≡ self.now) }
    {
        let mut items = Vec::new(alloc);
        for pattern in &self.items {
            items.push(pattern.copy(alloc)?)?;
        }
        Ok(Pats { items })
    }
}

impl Atom {
    /// A copy, its arguments copied.
    pub fn copy(&self, alloc: Global) -> Result<Atom, AllocError>
        ensures { IfOk result (λ copied. copied ≡ self.now) }
    {
        Ok(Atom {
            event: self.event,
            args: self.args.copy(alloc)?,
        })
    }
}

impl Atoms {
    /// A copy, item by item.
    pub fn copy(&self, alloc: Global) -> Result<Atoms, AllocError>
        ensures { IfOk result (λ copied. copied ≡ self.now) }
    {
        let mut items = Vec::new(alloc);
        for atom in &self.items {
            items.push(atom.copy(alloc)?)?;
        }
        Ok(Atoms { items })
    }
}

impl Process {
    /// A copy, all its nodes copied.
    pub fn copy(&self, alloc: Global) -> Result<Process, AllocError>
        ensures { IfOk result (λ copied. process_of copied ≡ process_of self.now) }
    {
        let copied = self.boxed_copy(alloc)?;
        Ok(Box::into_inner(copied))
    }

    /// A copy in a box. The children are copied first, so that boxes are all that is let go where a further copy finds
    /// no memory.
    fn boxed_copy(&self, alloc: Global) -> Result<Box<Process>, AllocError>
        ensures { IfOk result (λ copied. process_of copied.value ≡ process_of self.now) }
    {
        match self {
            Process::Nil => boxed(alloc, Process::Nil),
            Process::Output(channel, message, next) => {
                let next = next.boxed_copy(alloc)?;
                output_copy(alloc, channel, message, next)
            }
            Process::Input(channel, pattern, next) => {
                let next = next.boxed_copy(alloc)?;
                input_copy(alloc, channel, pattern, next)
            }
            Process::Par(left, right) => {
                let left = left.boxed_copy(alloc)?;
                let right = right.boxed_copy(alloc)?;
                boxed(alloc, Process::Par(left, right))
            }
            Process::Copies(copied) => {
                let copied = copied.boxed_copy(alloc)?;
                boxed(alloc, Process::Copies(copied))
            }
            Process::New(word, next) => {
                let next = next.boxed_copy(alloc)?;
                let word = word.copy(alloc)?;
                boxed(alloc, Process::New(word, next))
            }
            Process::Let(pattern, expression, next, otherwise) => {
                let next = next.boxed_copy(alloc)?;
                let otherwise = otherwise.boxed_copy(alloc)?;
                let_copy(alloc, pattern, expression, next, otherwise)
            }
            Process::Event(atom, next) => {
                let next = next.boxed_copy(alloc)?;
                let atom = atom.copy(alloc)?;
                boxed(alloc, Process::Event(atom, next))
            }
            Process::Phase(number, next) => {
                let next = next.boxed_copy(alloc)?;
                boxed(alloc, Process::Phase(*number, next))
            }
            Process::Insert(table, arguments, next) => {
                let next = next.boxed_copy(alloc)?;
                let arguments = arguments.copy(alloc)?;
                boxed(alloc, Process::Insert(*table, arguments, next))
            }
            Process::Get(table, patterns, condition, next, otherwise) => {
                let next = next.boxed_copy(alloc)?;
                let otherwise = otherwise.boxed_copy(alloc)?;
                let (patterns, condition) = wanted_copy(alloc, patterns, condition)?;
                boxed(
                    alloc,
                    Process::Get(*table, patterns, condition, next, otherwise),
                )
            }
        }
    }
}

/// A process in a box.
fn boxed(alloc: Global, process: Process) -> Result<Box<Process>, AllocError>
    ensures { IfOk result (λ made. process_of made.value ≡ process_of process) }
{
    Ok(Box::new(alloc, process)?)
}

/// An output of copies of these terms, in front of this process.
fn output_copy(
    alloc: Global,
    channel: &Term,
    message: &Term,
    next: Box<Process>,
) -> Result<Box<Process>, AllocError>
    ensures { IfOk result (λ copied. process_of copied.value ≡
        calculus.Output (term_of channel.now) (term_of message.now) (process_of next.value)) }
{
    let channel = channel.copy(alloc)?;
    let message = message.copy(alloc)?;
    boxed(alloc, Process::Output(channel, message, next))
}

/// An input of copies of these, in front of this process.
fn input_copy(
    alloc: Global,
    channel: &Term,
    pattern: &Pat,
    next: Box<Process>,
) -> Result<Box<Process>, AllocError>
    ensures { IfOk result (λ copied. process_of copied.value ≡
        calculus.Input (term_of channel.now) (pattern_of pattern.now) (process_of next.value)) }
{
    let channel = channel.copy(alloc)?;
    let pattern = pattern.copy(alloc)?;
    boxed(alloc, Process::Input(channel, pattern, next))
}

/// A choice by copies of these, between these processes.
fn let_copy(
    alloc: Global,
    pattern: &Pat,
    expression: &Expr,
    next: Box<Process>,
    otherwise: Box<Process>,
) -> Result<Box<Process>, AllocError>
    ensures { IfOk result (λ copied. process_of copied.value ≡
        calculus.Let (pattern_of pattern.now) (expression_of expression.now)
        (process_of next.value) (process_of otherwise.value)) }
{
    let pattern = pattern.copy(alloc)?;
    let expression = expression.copy(alloc)?;
    boxed(alloc, Process::Let(pattern, expression, next, otherwise))
}

/// A copy of the condition, its terms copied.
fn condition_copy(
    alloc: Global,
    condition: &Option<(Term, Term)>,
) -> Result<Option<(Term, Term)>, AllocError>
    ensures { IfOk result (λ copied. copied ≡ condition.now) }
{
    match condition {
        None => Ok(None),
        Some((left, right)) => {
            let left = left.copy(alloc)?;
            let right = right.copy(alloc)?;
            Ok(Some((left, right)))
        }
    }
}

/// Copies of what is wanted of an entry: of the patterns, and of the condition.
fn wanted_copy(
    alloc: Global,
    patterns: &Pats,
    condition: &Option<(Term, Term)>,
) -> Result<(Pats, Option<(Term, Term)>), AllocError>
    ensures patterns { IfOk result (λ copied. copied.0 ≡ patterns.now) }
    ensures condition { IfOk result (λ copied. copied.1 ≡ condition.now) }
{
    let patterns = patterns.copy(alloc)?;
    let condition = condition_copy(alloc, condition)?;
    Ok((patterns, condition))
}
