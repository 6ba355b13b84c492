//! Names that are bound anew where that looks like a mistake.

use crate::scopes::{Binder, Bound, Hiding, Scope};
use crate::sources::Source;
use crate::text::Text;
use crate::variables::{MOST_OPEN, definition};
use pi_parser::{
    ConditionSketch, NextSketch, PatternSketch, PatternsSketch, ProcessSketch, TermSketch,
    TermsSketch, UnitSketch,
};
use std::alloc::AllocError;

/// Reads the names of a term.
#[cycle(terms)]
fn read_term(scope: &mut Scope, file: Source<'_>, term: &TermSketch) {
    match term {
        TermSketch::Named(token, parts) => {
            if parts.items.is_empty() {
                scope.read(file, *token);
            } else {
                read_terms(scope, file, parts);
            }
        }
        TermSketch::Grouped(_, parts) => read_terms(scope, file, parts),
    }
}

/// Reads the names of terms in a row.
#[cycle(terms)]
fn read_terms(scope: &mut Scope, file: Source<'_>, terms: &TermsSketch) {
    for term in &terms.items {
        read_term(scope, file, term);
    }
}

/// Reads the names of a condition.
fn read_condition(scope: &mut Scope, file: Source<'_>, condition: &ConditionSketch) {
    match condition {
        ConditionSketch::Always => {}
        ConditionSketch::SuchThat(left, right) => {
            read_term(scope, file, left);
            read_term(scope, file, right);
        }
    }
}

/// Reads the names of the terms in a pattern, which are those that are in scope before it.
#[cycle(reads)]
fn read_pattern(scope: &mut Scope, file: Source<'_>, pattern: &PatternSketch) {
    match pattern {
        PatternSketch::Named(_, parts) => read_patterns(scope, file, parts),
        PatternSketch::Equal(_, term) => read_term(scope, file, term),
        PatternSketch::Grouped(_, parts) => read_patterns(scope, file, parts),
    }
}

/// Reads the names of the terms in patterns in a row.
#[cycle(reads)]
fn read_patterns(scope: &mut Scope, file: Source<'_>, patterns: &PatternsSketch) {
    for pattern in &patterns.items {
        read_pattern(scope, file, pattern);
    }
}

/// Binds the names of a pattern.
#[cycle(binds)]
fn bind_pattern(scope: &mut Scope, file: Source<'_>, pattern: &PatternSketch, binder: Binder) {
    match pattern {
        PatternSketch::Named(token, parts) => {
            if parts.items.is_empty() {
                scope.bind(file, *token, binder);
            } else {
                bind_parts(scope, file, parts);
            }
        }
        PatternSketch::Equal(_, _) => {}
        PatternSketch::Grouped(_, parts) => bind_parts(scope, file, parts),
    }
}

/// Binds the names of the parts of a pattern.
#[cycle(binds)]
fn bind_parts(scope: &mut Scope, file: Source<'_>, patterns: &PatternsSketch) {
    for pattern in &patterns.items {
        bind_pattern(scope, file, pattern, Binder::Part);
    }
}

/// The token of a pattern that is a variable alone.
fn variable_of(pattern: &PatternSketch) -> Option<usize> {
    match pattern {
        PatternSketch::Named(token, parts) if parts.items.is_empty() => Some(*token),
        _ => None,
    }
}

/// Binds the variable of a `let` to an expression; one that is made of what it hides is a new state of that, and hides nothing.
fn bind_variable(scope: &mut Scope, file: Source<'_>, token: usize, expression: &TermSketch) {
    let before = scope.count_reads(file, token);
    read_term(scope, file, expression);
    if scope.count_reads(file, token) == before {
        scope.bind(file, token, Binder::Let);
    } else {
        scope.add(token, Binder::Let);
    }
}

/// Binds the pattern of a `let` to an expression.
fn bind_let(scope: &mut Scope, file: Source<'_>, pattern: &PatternSketch, expression: &TermSketch) {
    match variable_of(pattern) {
        Some(token) => bind_variable(scope, file, token, expression),
        None => {
            read_term(scope, file, expression);
            read_pattern(scope, file, pattern);
            bind_pattern(scope, file, pattern, Binder::Let);
        }
    }
}

/// Goes through a process in this scope.
#[cycle(processes)]
fn walk_process(scope: &mut Scope, file: Source<'_>, process: &ProcessSketch, left: u32) {
    if left == 0 {
        return;
    }
    match process {
        ProcessSketch::Alone(unit) => walk_unit(scope, file, unit, left - 1),
        ProcessSketch::Beside(unit, rest) => {
            walk_unit(scope, file, unit, left - 1);
            walk_process(scope, file, rest, left - 1);
        }
    }
}

/// Goes through what follows.
#[cycle(processes)]
fn walk_next(scope: &mut Scope, file: Source<'_>, next: &NextSketch, left: u32) {
    if left == 0 {
        return;
    }
    match next {
        NextSketch::Omitted => {}
        NextSketch::Given(unit) => walk_unit(scope, file, unit, left - 1),
    }
}

/// Goes through the macro that the token uses, put in there.
#[cycle(processes)]
fn walk_macro(scope: &mut Scope, file: Source<'_>, token: usize, left: u32) {
    if left == 0 {
        return;
    }
    if let Some(process) = definition(file, token) {
        let owner = scope.enter(token.saturating_add(1));
        walk_process(scope, file, process, left - 1);
        scope.enter(owner);
    }
}

/// Goes through a unit, and lets go of what it bound.
#[cycle(processes)]
fn walk_unit(scope: &mut Scope, file: Source<'_>, unit: &UnitSketch, left: u32) {
    if left == 0 {
        return;
    }
    let open = scope.count();
    walk_node(scope, file, unit, left - 1);
    scope.close(open);
}

/// Goes through both branches of a test; the second doesn't see what the first so many names don't have.
#[cycle(processes)]
fn walk_branches(
    scope: &mut Scope,
    file: Source<'_>,
    branches: (&UnitSketch, &NextSketch),
    open: usize,
    left: u32,
) {
    if left == 0 {
        return;
    }
    walk_unit(scope, file, branches.0, left - 1);
    scope.close(open);
    walk_next(scope, file, branches.1, left - 1);
}

/// Goes through a unit.
#[cycle(processes)]
fn walk_node(scope: &mut Scope, file: Source<'_>, unit: &UnitSketch, left: u32) {
    if left == 0 {
        return;
    }
    let open = scope.count();
    match unit {
        UnitSketch::Zero(_) => {}
        UnitSketch::Macro(token) => walk_macro(scope, file, *token, left - 1),
        UnitSketch::Inner(_, process) => walk_process(scope, file, process, left - 1),
        UnitSketch::Replicated(_, unit) => walk_unit(scope, file, unit, left - 1),
        UnitSketch::New(_, name, next) => {
            scope.bind(file, *name, Binder::New);
            walk_next(scope, file, next, left - 1);
        }
        UnitSketch::Output(_, channel, message, next) => {
            read_term(scope, file, channel);
            read_term(scope, file, message);
            walk_next(scope, file, next, left - 1);
        }
        UnitSketch::Input(_, channel, pattern, next) => {
            read_term(scope, file, channel);
            read_pattern(scope, file, pattern);
            bind_pattern(scope, file, pattern, Binder::Input);
            walk_next(scope, file, next, left - 1);
        }
        UnitSketch::Happens(_, atom, next) | UnitSketch::Insert(_, atom, next) => {
            read_terms(scope, file, &atom.arguments);
            walk_next(scope, file, next, left - 1);
        }
        UnitSketch::Let(_, pattern, expression, unit, otherwise) => {
            bind_let(scope, file, pattern, expression);
            walk_branches(scope, file, (unit, otherwise), open, left - 1);
        }
        UnitSketch::If(_, one, other, unit, otherwise) => {
            read_term(scope, file, one);
            read_term(scope, file, other);
            walk_branches(scope, file, (unit, otherwise), open, left - 1);
        }
        UnitSketch::Phase(_, _, next) => walk_next(scope, file, next, left - 1),
        UnitSketch::Get(_, _, patterns, condition, unit, otherwise) => {
            read_patterns(scope, file, patterns);
            bind_parts(scope, file, patterns);
            read_condition(scope, file, condition);
            walk_branches(scope, file, (unit, otherwise), open, left - 1);
        }
    }
}

/// Puts where a name is declared or bound.
fn put_origin(text: &mut Text, file: Source<'_>, bound: Bound) {
    text.put(b"line ");
    text.put_number(file.line(bound.token));
    text.put(match bound.by {
        None => b" declares".as_slice(),
        Some(_) => b" binds".as_slice(),
    });
}

/// Puts which name is hidden, and whether nobody reads it.
fn put_lost(text: &mut Text, file: Source<'_>, bound: Bound, is_read: bool) {
    text.put(b" hides the one that ");
    put_origin(text, file, bound);
    if bound.by.is_some() && !is_read {
        text.put(b", which nobody reads");
    }
}

/// Puts a word in a pattern that may be meant as the one that it hides.
fn put_meant(text: &mut Text, file: Source<'_>, word: &[u8], bound: Bound) {
    text.put(word);
    text.put(b" in this pattern is a new variable, though ");
    put_origin(text, file, bound);
    text.put(b" ");
    text.put(word);
    text.put(b"; meant =");
    text.put(word);
    text.put(b"?");
}

/// Puts a name that is bound anew at the token.
fn put_hiding(text: &mut Text, file: Source<'_>, token: usize, hiding: Hiding, is_read: bool) {
    let word = file.text(token);
    file.put_line(text, token);
    match hiding.binder {
        Binder::New => {
            text.put(b"new ");
            text.put(word);
            put_lost(text, file, hiding.hidden, is_read);
        }
        Binder::Input => {
            text.put(word);
            text.put(b" is received anew, and");
            put_lost(text, file, hiding.hidden, is_read);
        }
        Binder::Let | Binder::Part => put_meant(text, file, word, hiding.hidden),
    }
    text.put(b"\n");
}

/// Puts the names that are bound anew where that looks like a mistake, in the order of the file.
fn put_odd(text: &mut Text, file: Source<'_>, scope: &Scope) -> Result<(), AllocError> {
    for (token, noted) in scope.hidings()?.iter().enumerate() {
        if let Some(hiding) = noted {
            let is_read = scope.is_read(hiding.hidden);
            if hiding.is_odd(is_read) {
                put_hiding(text, file, token, *hiding, is_read);
            }
        }
    }
    Ok(())
}

/// Puts the names that the main process, and the macros that it uses, bind anew where that looks like a mistake.
pub(crate) fn put_hidden(text: &mut Text, file: Source<'_>) -> Result<(), AllocError> {
    let mut scope = Scope::of_declared(file)?;
    walk_process(&mut scope, file, &file.sketch.main, MOST_OPEN);
    put_odd(text, file, &scope)
}
