//! The words of the variables of a process, as the file spells them, and the macros in which its points stand. A protocol keeps the
//! numbers of its variables alone: they are numbered from 1 as the patterns bind them, from the front of the main process, each macro
//! put in where it is used. So the words in the patterns of the file are listed in that order, and at each unit the macro that it is
//! of. Nothing rests on it: a variable whose word isn't found is spelled by its number.

use crate::sources::Source;
use pi_parser::{
    DeclarationSketch, NextSketch, PatternSketch, PatternsSketch, ProcessSketch, UnitSketch,
};
use pi_tree::Word;
use std::alloc::{AllocError, Global};

/// How many levels of units and macros may be open: more than any file has.
pub(crate) const MOST_OPEN: u32 = 4_000_000;

/// The words of variables by their number, from 1, and those of the macros in which points stand.
#[derive(Drop)]
pub struct VariableWords {
    items: Vec<Word>,
    /// The macros in the order in which they are put in.
    roles: Vec<Word>,
    /// For each point the number of the innermost macro in which it stands, from 1; 0 where it stands in none.
    points: Vec<usize>,
    /// Whether there was no memory for one of them.
    lacks_memory: bool,
}

impl VariableWords {
    /// The word of the variable of that number, empty where it isn't known.
    pub fn word(&self, number: u32) -> &[u8] {
        match self.items.get((number as usize).wrapping_sub(1)) {
            None => b"",
            Some(word) => word.items.as_slice(),
        }
    }

    /// The word of the innermost macro in which the point of that number stands, empty where it stands in none or isn't known.
    pub fn role(&self, point: u32) -> &[u8] {
        match self.points.get((point as usize).wrapping_sub(1)) {
            None => b"",
            Some(number) => match self.roles.get((*number).wrapping_sub(1)) {
                None => b"",
                Some(word) => word.items.as_slice(),
            },
        }
    }

    /// The next point stands in the macro of that number.
    fn stand(&mut self, role: usize) {
        if self.points.push(role).is_err() {
            self.lacks_memory = true;
        }
    }

    /// Adds the word of the next macro.
    fn add_role(&mut self, alloc: Global, word: &[u8]) -> Result<(), AllocError> {
        let items = Vec::from_slice(alloc, word)?;
        self.roles.push(Word { items })?;
        Ok(())
    }

    /// The next macro that is put in has this word; its number.
    fn enter(&mut self, alloc: Global, word: &[u8]) -> usize {
        if self.add_role(alloc, word).is_err() {
            self.lacks_memory = true;
        }
        self.roles.len()
    }

    /// Adds the word of the next variable.
    fn add(&mut self, alloc: Global, word: &[u8]) -> Result<(), AllocError> {
        let items = Vec::from_slice(alloc, word)?;
        self.items.push(Word { items })?;
        Ok(())
    }

    /// The next variable has this word.
    fn note(&mut self, alloc: Global, word: &[u8]) {
        if self.add(alloc, word).is_err() {
            self.lacks_memory = true;
        }
    }
}

/// The process of the macro that the token of a file names, if there is one.
pub(crate) fn definition<'a>(file: Source<'a>, token: usize) -> Option<&'a ProcessSketch> {
    let sketch = file.sketch;
    let word = file.text(token);
    for declaration in &sketch.declarations {
        if let DeclarationSketch::Definition { name, process, .. } = declaration {
            if file.text(*name) == word {
                return Some(process);
            }
        }
    }
    None
}

/// Notes the words that a pattern binds.
#[cycle(patterns)]
fn note_pattern(words: &mut VariableWords, file: Source<'_>, pattern: &PatternSketch) {
    match pattern {
        PatternSketch::Named(token, parts) => {
            if parts.items.is_empty() {
                words.note(file.alloc, file.text(*token));
            } else {
                note_patterns(words, file, parts);
            }
        }
        PatternSketch::Equal(_, _) => {}
        PatternSketch::Grouped(_, parts) => note_patterns(words, file, parts),
    }
}

/// Notes the words that patterns in a row bind.
#[cycle(patterns)]
fn note_patterns(words: &mut VariableWords, file: Source<'_>, patterns: &PatternsSketch) {
    for pattern in &patterns.items {
        note_pattern(words, file, pattern);
    }
}

/// Notes the words that a process binds, and that its points stand in the macro of that number.
#[cycle(processes)]
fn note_process(
    words: &mut VariableWords,
    file: Source<'_>,
    process: &ProcessSketch,
    role: usize,
    left: u32,
) {
    if left == 0 {
        return;
    }
    match process {
        ProcessSketch::Alone(unit) => note_unit(words, file, unit, role, left - 1),
        ProcessSketch::Beside(unit, rest) => {
            words.stand(role);
            note_unit(words, file, unit, role, left - 1);
            note_process(words, file, rest, role, left - 1);
        }
    }
}

/// Notes the same of what follows.
#[cycle(processes)]
fn note_next(
    words: &mut VariableWords,
    file: Source<'_>,
    next: &NextSketch,
    role: usize,
    left: u32,
) {
    if left == 0 {
        return;
    }
    match next {
        NextSketch::Omitted => words.stand(role),
        NextSketch::Given(unit) => note_unit(words, file, unit, role, left - 1),
    }
}

/// Notes the same of the macro that the token names.
#[cycle(processes)]
fn note_macro(words: &mut VariableWords, file: Source<'_>, token: usize, left: u32) {
    if left == 0 {
        return;
    }
    if let Some(process) = definition(file, token) {
        let role = words.enter(file.alloc, file.text(token));
        note_process(words, file, process, role, left - 1);
    }
}

/// Notes the same of a unit.
#[cycle(processes)]
fn note_unit(
    words: &mut VariableWords,
    file: Source<'_>,
    unit: &UnitSketch,
    role: usize,
    left: u32,
) {
    if left == 0 {
        return;
    }
    match unit {
        UnitSketch::Macro(token) => note_macro(words, file, *token, left - 1),
        UnitSketch::Inner(_, process) => note_process(words, file, process, role, left - 1),
        _ => {
            words.stand(role);
            note_node(words, file, unit, role, left - 1);
        }
    }
}

/// Notes the same of what stands behind the point of a unit.
#[cycle(processes)]
fn note_node(
    words: &mut VariableWords,
    file: Source<'_>,
    unit: &UnitSketch,
    role: usize,
    left: u32,
) {
    if left == 0 {
        return;
    }
    match unit {
        UnitSketch::Zero(_) | UnitSketch::Macro(_) | UnitSketch::Inner(_, _) => {}
        UnitSketch::Replicated(_, unit) => note_unit(words, file, unit, role, left - 1),
        UnitSketch::New(_, _, next)
        | UnitSketch::Output(_, _, _, next)
        | UnitSketch::Happens(_, _, next)
        | UnitSketch::Phase(_, _, next)
        | UnitSketch::Insert(_, _, next) => note_next(words, file, next, role, left - 1),
        UnitSketch::Input(_, _, pattern, next) => {
            note_pattern(words, file, pattern);
            note_next(words, file, next, role, left - 1);
        }
        UnitSketch::Let(_, pattern, _, unit, otherwise) => {
            note_pattern(words, file, pattern);
            note_unit(words, file, unit, role, left - 1);
            note_next(words, file, otherwise, role, left - 1);
        }
        UnitSketch::If(_, _, _, unit, otherwise) => {
            note_unit(words, file, unit, role, left - 1);
            note_next(words, file, otherwise, role, left - 1);
        }
        UnitSketch::Get(_, _, patterns, _, unit, otherwise) => {
            note_patterns(words, file, patterns);
            note_unit(words, file, unit, role, left - 1);
            note_next(words, file, otherwise, role, left - 1);
        }
    }
}

/// The words of the variables of the main process, as the file spells them, and of the macros in which its points stand.
pub fn variable_words(file: Source<'_>) -> Result<VariableWords, AllocError> {
    let mut words = VariableWords {
        items: Vec::new(file.alloc),
        roles: Vec::new(file.alloc),
        points: Vec::new(file.alloc),
        lacks_memory: false,
    };
    note_process(&mut words, file, &file.sketch.main, 0, MOST_OPEN);
    if words.lacks_memory {
        return Err(AllocError);
    }
    Ok(words)
}
