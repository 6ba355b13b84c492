//! The tests of a file, and the file with a mark in front of each branch: an event of its own without arguments. So whether a branch is
//! ever reached is a question like any other, whether an event can happen, of the protocol that the marked file spells.

use crate::sources::Source;
use crate::text::Text;
use crate::unused::words_in_use;
use pi_parser::{
    DeclarationSketch, NextSketch, ProcessSketch, TermSketch, TermsSketch, UnitSketch,
};
use std::alloc::{AllocError, Global};

/// What a test is.
#[derive(Clone, Copy)]
pub(crate) enum TestKind {
    /// `let pattern = expression in`.
    Let,
    /// `if left = right then`, and whether both sides are spelled the same.
    If { is_trivial: bool },
    /// `get table in`.
    Get,
}

/// A test of a file: the tokens, numbered from 0, with which it and its branches begin.
#[derive(Clone, Copy)]
pub(crate) struct Test {
    pub(crate) kind: TestKind,
    pub(crate) first: usize,
    /// Where it goes on when it succeeds.
    pub(crate) then: usize,
    /// Where it goes on when it fails, if that is written.
    pub(crate) otherwise: Option<usize>,
    /// The first token of the innermost branch that it stands in, if there is one.
    pub(crate) branch: Option<usize>,
}

/// The tests of a file, and the marks of its tokens.
#[derive(Drop)]
pub struct Tests {
    items: Vec<Test>,
    /// The numbers of the marks by tokens, from 1; 0 where there is none.
    marks: Vec<u32>,
    /// How many marks there are.
    count: u32,
    lacks_memory: bool,
}

/// The first token of a unit.
fn first_token(unit: &UnitSketch) -> usize {
    match unit {
        UnitSketch::Zero(first)
        | UnitSketch::Macro(first)
        | UnitSketch::Inner(first, _)
        | UnitSketch::Replicated(first, _)
        | UnitSketch::New(first, _, _)
        | UnitSketch::Output(first, _, _, _)
        | UnitSketch::Input(first, _, _, _)
        | UnitSketch::Happens(first, _, _)
        | UnitSketch::Let(first, _, _, _, _)
        | UnitSketch::If(first, _, _, _, _)
        | UnitSketch::Phase(first, _, _)
        | UnitSketch::Insert(first, _, _)
        | UnitSketch::Get(first, _, _, _, _, _) => *first,
    }
}

/// The first token of an else branch that is written.
fn first_of_next(next: &NextSketch) -> Option<usize> {
    match next {
        NextSketch::Omitted => None,
        NextSketch::Given(unit) => Some(first_token(unit)),
    }
}

/// Whether two terms are spelled the same.
#[cycle(same_terms)]
fn is_same_term(file: Source<'_>, left: &TermSketch, right: &TermSketch) -> bool {
    match (left, right) {
        (TermSketch::Named(one, parts), TermSketch::Named(other, others)) => {
            file.text(*one) == file.text(*other) && are_same_terms(file, parts, others)
        }
        (TermSketch::Grouped(_, parts), TermSketch::Grouped(_, others)) => {
            are_same_terms(file, parts, others)
        }
        _ => false,
    }
}

/// Whether terms in a row are spelled the same.
#[cycle(same_terms)]
fn are_same_terms(file: Source<'_>, left: &TermsSketch, right: &TermsSketch) -> bool {
    if left.items.len() != right.items.len() {
        return false;
    }
    for index in 0..left.items.len() {
        if !is_same_term(file, &left.items[index], &right.items[index]) {
            return false;
        }
    }
    true
}

impl Tests {
    /// None, over a file of so many tokens.
    fn new(alloc: Global, tokens: usize) -> Result<Tests, AllocError> {
        let marks = vec![in alloc; 0; tokens]?;
        Ok(Tests {
            items: Vec::new(alloc),
            marks,
            count: 0,
            lacks_memory: false,
        })
    }

    /// Marks a token, if it isn't.
    fn mark(&mut self, token: usize) {
        if let Some(mark) = self.marks.get_mut(token) {
            if *mark == 0 {
                self.count = self.count.saturating_add(1);
                *mark = self.count;
            }
        }
    }

    /// Lists a test, and marks it and its branches.
    fn list(&mut self, test: Test) {
        self.mark(test.first);
        self.mark(test.then);
        if let Some(otherwise) = test.otherwise {
            self.mark(otherwise);
        }
        if self.items.push(test).is_err() {
            self.lacks_memory = true;
        }
    }

    /// The tests.
    pub(crate) fn all(&self) -> &[Test] {
        &self.items
    }

    /// How many marks there are.
    pub fn count_marks(&self) -> u32 {
        self.count
    }

    /// The number of the mark of a token, from 1; 0 where there is none.
    pub(crate) fn mark_of(&self, token: usize) -> u32 {
        match self.marks.get(token) {
            None => 0,
            Some(mark) => *mark,
        }
    }
}

/// Lists the tests of a process that stands in that branch.
#[cycle(processes)]
fn list_process(
    tests: &mut Tests,
    file: Source<'_>,
    process: &ProcessSketch,
    branch: Option<usize>,
) {
    match process {
        ProcessSketch::Alone(unit) => list_unit(tests, file, unit, branch),
        ProcessSketch::Beside(unit, rest) => {
            list_unit(tests, file, unit, branch);
            list_process(tests, file, rest, branch);
        }
    }
}

/// Lists the tests of what follows.
#[cycle(processes)]
fn list_next(tests: &mut Tests, file: Source<'_>, next: &NextSketch, branch: Option<usize>) {
    match next {
        NextSketch::Omitted => {}
        NextSketch::Given(unit) => list_unit(tests, file, unit, branch),
    }
}

/// A test with these branches.
fn test_of(
    kind: TestKind,
    first: usize,
    unit: &UnitSketch,
    otherwise: &NextSketch,
    branch: Option<usize>,
) -> Test {
    Test {
        kind,
        first,
        then: first_token(unit),
        otherwise: first_of_next(otherwise),
        branch,
    }
}

/// Lists the tests of a unit. A macro's are those of its declaration.
#[cycle(processes)]
fn list_unit(tests: &mut Tests, file: Source<'_>, unit: &UnitSketch, branch: Option<usize>) {
    match unit {
        UnitSketch::Zero(_) | UnitSketch::Macro(_) => {}
        UnitSketch::Inner(_, process) => list_process(tests, file, process, branch),
        UnitSketch::Replicated(_, unit) => list_unit(tests, file, unit, branch),
        UnitSketch::New(_, _, next)
        | UnitSketch::Output(_, _, _, next)
        | UnitSketch::Input(_, _, _, next)
        | UnitSketch::Happens(_, _, next)
        | UnitSketch::Phase(_, _, next)
        | UnitSketch::Insert(_, _, next) => list_next(tests, file, next, branch),
        UnitSketch::Let(first, _, _, unit, otherwise) => {
            let test = test_of(TestKind::Let, *first, unit, otherwise, branch);
            tests.list(test);
            list_unit(tests, file, unit, Some(test.then));
            list_next(tests, file, otherwise, test.otherwise);
        }
        UnitSketch::If(first, left, right, unit, otherwise) => {
            let is_trivial = is_same_term(file, left, right);
            let kind = TestKind::If { is_trivial };
            let test = test_of(kind, *first, unit, otherwise, branch);
            tests.list(test);
            list_unit(tests, file, unit, Some(test.then));
            list_next(tests, file, otherwise, test.otherwise);
        }
        UnitSketch::Get(first, _, _, _, unit, otherwise) => {
            let test = test_of(TestKind::Get, *first, unit, otherwise, branch);
            tests.list(test);
            list_unit(tests, file, unit, Some(test.then));
            list_next(tests, file, otherwise, test.otherwise);
        }
    }
}

/// The tests of the main process, and of the macros whose words are in use, in the order of the file.
pub fn tests_of(file: Source<'_>) -> Result<Tests, AllocError> {
    let sketch = file.sketch;
    let tokens = file.tokens;
    let in_use = words_in_use(file)?;
    let mut tests = Tests::new(file.alloc, tokens.items.len())?;
    for declaration in &sketch.declarations {
        if let DeclarationSketch::Definition { name, process, .. } = declaration {
            if in_use.has(file.text(*name)) {
                list_process(&mut tests, file, process, None);
            }
        }
    }
    list_process(&mut tests, file, &sketch.main, None);
    if tests.lacks_memory {
        return Err(AllocError);
    }
    Ok(tests)
}

/// How many underscores a word begins with.
fn count_underscores(word: &[u8]) -> usize {
    let mut count = 0usize;
    for byte in word {
        if *byte != b'_' {
            return count;
        }
        count = count.saturating_add(1);
    }
    count
}

/// One underscore more than any word of the file begins with.
fn fresh_underscores(file: Source<'_>) -> usize {
    let tokens = file.tokens;
    let mut most = 0usize;
    for number in 0..tokens.items.len() {
        most = most.max(count_underscores(file.text(number)));
    }
    most.saturating_add(1)
}

/// The text of a marked file.
#[derive(Clone, Copy)]
struct Marking<'a> {
    file: Source<'a>,
    tests: &'a Tests,
    /// How many underscores stand in front of the number of a mark.
    underscores: usize,
}

impl Marking<'_> {
    /// Puts the name of a mark.
    fn put_name(&self, text: &mut Text, mark: u32) {
        for _ in 0..self.underscores {
            text.put(b"_");
        }
        text.put_number(u64::from(mark));
    }

    /// Puts the declarations of the marks.
    fn put_declarations(&self, text: &mut Text) {
        for index in 0..self.tests.count {
            text.put(b"event ");
            self.put_name(text, index.saturating_add(1));
            text.put(b"/0. ");
        }
    }

    /// Puts what stands in front of the token, beside blanks: the declarations, or its mark.
    fn put_front(&self, text: &mut Text, token: usize) {
        let sketch = self.file.sketch;
        if token == sketch.first {
            self.put_declarations(text);
        }
        let mark = self.tests.mark_of(token);
        if mark != 0 {
            text.put(b"event ");
            self.put_name(text, mark);
            text.put(b"; ");
        }
    }

    /// Puts all tokens, with marks.
    fn put_tokens(&self, text: &mut Text) {
        let file = self.file;
        let tokens = file.tokens;
        for token in 0..tokens.items.len() {
            self.put_front(text, token);
            text.put(file.text(token));
            text.put(b" ");
        }
    }
}

/// The file with an event in front of each test and of each branch that is written, without arguments and of a new name; these are
/// declared behind all other events.
pub fn marked_text(file: Source<'_>, tests: &Tests) -> Result<Vec<u8>, AllocError> {
    let marking = Marking {
        file,
        tests,
        underscores: fresh_underscores(file),
    };
    let mut text = Text::new(file.alloc);
    marking.put_tokens(&mut text);
    let mut bytes = Vec::new(file.alloc);
    text.append_to(&mut bytes)?;
    Ok(bytes)
}
