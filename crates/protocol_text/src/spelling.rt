//! How names, terms and patterns are spelled in the words of a protocol.

use crate::text::Text;
use crate::variables::VariableWords;
use pi_tree::{Declarations, Dtors, Expr, Exprs, Kind, Pat, Pats, Process, Protocol, Term, Terms};
use std::alloc::Global;

/// The words in which a process is spelled.
#[derive(Clone, Copy)]
pub struct Wording<'a> {
    /// Where the text is put together.
    pub alloc: Global,
    /// The protocol, with the words of its declared names and restrictions.
    pub protocol: &'a Protocol,
    /// The words of the variables of its process.
    pub variables: &'a VariableWords,
}

/// The word of the declared name of that number, from 1; empty where there is none.
pub fn declared_word(declarations: &Declarations, number: u32) -> &[u8] {
    match declarations.items.get((number as usize).wrapping_sub(1)) {
        None => b"",
        Some(declared) => declared.word.items.as_slice(),
    }
}

/// The word of the destructor of that number, from 1; empty where there is none.
fn destructor_word(destructors: &Dtors, number: u32) -> &[u8] {
    match destructors.items.get((number as usize).wrapping_sub(1)) {
        None => b"",
        Some(destructor) => destructor.word.items.as_slice(),
    }
}

/// The word of the restriction at the point; empty where there is none.
pub fn point_word(protocol: &Protocol, point: u32) -> &[u8] {
    if point == 0 || point > protocol.count(Kind::Point) {
        return b"";
    }
    match protocol.node(point) {
        Process::New(word, _) => word.items.as_slice(),
        _ => b"",
    }
}

/// Puts a variable: as the file spells it, or `$` and its number where its word isn't known.
fn put_variable(text: &mut Text, words: Wording<'_>, number: u32) {
    let word = words.variables.word(number);
    if word.is_empty() {
        text.put(b"$");
        text.put_number(u64::from(number));
    } else {
        text.put(word);
    }
}

/// Puts a term.
#[cycle(spell_term)]
pub(crate) fn put_term(text: &mut Text, words: Wording<'_>, term: &Term) {
    match term {
        Term::Var(number) => put_variable(text, words, *number),
        Term::Free(number) => text.put(declared_word(&words.protocol.frees, *number)),
        Term::Made(point) => text.put(point_word(words.protocol, *point)),
        Term::App(constructor, arguments) => {
            text.put(declared_word(&words.protocol.ctors, *constructor));
            if !arguments.items.is_empty() {
                put_terms(text, words, arguments);
            }
        }
        Term::Tuple(parts) => put_terms(text, words, parts),
    }
}

/// Puts terms in parentheses, a comma between each two.
#[cycle(spell_term)]
fn put_terms(text: &mut Text, words: Wording<'_>, terms: &Terms) {
    text.put(b"(");
    for term in &terms.items {
        text.put_separator();
        put_term(text, words, term);
    }
    text.put(b")");
}

/// Puts a pattern; where the message that it takes is meant, without the signs `=`.
#[cycle(spell_pattern)]
pub(crate) fn put_pattern(text: &mut Text, words: Wording<'_>, is_message: bool, pattern: &Pat) {
    match pattern {
        Pat::Bind(number) => put_variable(text, words, *number),
        Pat::Equal(term) => {
            if !is_message {
                text.put(b"=");
            }
            put_term(text, words, term);
        }
        Pat::App(constructor, arguments) => {
            text.put(declared_word(&words.protocol.ctors, *constructor));
            put_patterns(text, words, is_message, arguments);
        }
        Pat::Tuple(parts) => put_patterns(text, words, is_message, parts),
    }
}

/// Puts patterns in parentheses, a comma between each two.
#[cycle(spell_pattern)]
fn put_patterns(text: &mut Text, words: Wording<'_>, is_message: bool, patterns: &Pats) {
    text.put(b"(");
    for pattern in &patterns.items {
        text.put_separator();
        put_pattern(text, words, is_message, pattern);
    }
    text.put(b")");
}

/// Puts what a `let` evaluates.
#[cycle(spell_expression)]
pub(crate) fn put_expression(text: &mut Text, words: Wording<'_>, expression: &Expr) {
    match expression {
        Expr::Term(term) => put_term(text, words, term),
        Expr::App(constructor, arguments) => {
            text.put(declared_word(&words.protocol.ctors, *constructor));
            put_expressions(text, words, arguments);
        }
        Expr::Tuple(parts) => put_expressions(text, words, parts),
        Expr::Call(destructor, arguments) => {
            text.put(destructor_word(&words.protocol.dtors, *destructor));
            put_expressions(text, words, arguments);
        }
    }
}

/// Puts expressions in parentheses, a comma between each two.
#[cycle(spell_expression)]
fn put_expressions(text: &mut Text, words: Wording<'_>, expressions: &Exprs) {
    text.put(b"(");
    for expression in &expressions.items {
        text.put_separator();
        put_expression(text, words, expression);
    }
    text.put(b")");
}

/// Puts terms in parentheses; nothing where there are none.
pub(crate) fn put_arguments(text: &mut Text, words: Wording<'_>, terms: &Terms) {
    if !terms.items.is_empty() {
        put_terms(text, words, terms);
    }
}

/// Puts patterns in parentheses; nothing where there are none.
pub(crate) fn put_wanted(text: &mut Text, words: Wording<'_>, patterns: &Pats) {
    if !patterns.items.is_empty() {
        put_patterns(text, words, false, patterns);
    }
}
