//! Variables of queries that look like a name of the protocol.

use crate::likeness::look_alike;
use crate::sources::{Source, TokenList};
use crate::text::Text;
use pi_parser::{AlternativeSketch, DeclarationSketch, QuerySketch, TermSketch, TermsSketch};
use std::alloc::AllocError;

/// The tokens, numbered from 0, that declare names which terms of queries may have, and those behind the word `new`.
#[derive(Drop)]
struct Names {
    declared: Vec<usize>,
    made: Vec<usize>,
}

/// A name that a word looks like: the number of its token, and whether it is that of a restriction.
#[derive(Clone, Copy)]
struct Lookalike {
    name: usize,
    is_new: bool,
}

/// Lists the names of one declaration.
fn list_declared(declaration: &DeclarationSketch, found: &mut TokenList) {
    match declaration {
        DeclarationSketch::Free { name, others, .. } => {
            found.add(*name);
            for other in others {
                found.add(*other);
            }
        }
        DeclarationSketch::Fun { name, .. } | DeclarationSketch::Data { name, .. } => {
            found.add(*name)
        }
        _ => {}
    }
}

/// The declared names.
fn declared_names(source: Source<'_>) -> Result<Vec<usize>, AllocError> {
    let sketch = source.sketch;
    let mut found = TokenList::new(source.alloc);
    for declaration in &sketch.declarations {
        list_declared(declaration, &mut found);
    }
    found.all()
}

/// The words behind the word `new`.
fn made_names(source: Source<'_>) -> Result<Vec<usize>, AllocError> {
    let tokens = source.tokens;
    let mut found = TokenList::new(source.alloc);
    for number in 1..tokens.items.len() {
        if source.text(number - 1) == b"new".as_slice() {
            found.add(number);
        }
    }
    found.all()
}

/// Lists the tokens of the words that stand in a term without arguments.
#[cycle(words)]
fn list_words(term: &TermSketch, found: &mut TokenList) {
    match term {
        TermSketch::Named(token, arguments) => {
            if arguments.items.is_empty() {
                found.add(*token);
            }
            list_all_words(arguments, found);
        }
        TermSketch::Grouped(_, parts) => list_all_words(parts, found),
    }
}

/// Lists those of terms in a row.
#[cycle(words)]
fn list_all_words(terms: &TermsSketch, found: &mut TokenList) {
    for term in &terms.items {
        list_words(term, found);
    }
}

/// Lists those of an alternative.
fn list_alternative(alternative: &AlternativeSketch, found: &mut TokenList) {
    list_all_words(&alternative.atom.arguments, found);
    for other in &alternative.others {
        list_all_words(&other.arguments, found);
    }
}

/// The tokens of the words that stand in a correspondence without arguments; none of another query.
fn query_words(source: Source<'_>, question: &QuerySketch) -> Result<Vec<usize>, AllocError> {
    let mut found = TokenList::new(source.alloc);
    if let QuerySketch::Correspondence(_, left, alternatives) = question {
        list_all_words(&left.arguments, &mut found);
        for alternative in alternatives {
            list_alternative(alternative, &mut found);
        }
    }
    found.all()
}

/// How many of the tokens have this word.
fn count_of(source: Source<'_>, tokens: &[usize], word: &[u8]) -> usize {
    let mut count = 0usize;
    for token in tokens {
        if source.text(*token) == word {
            count = count.saturating_add(1);
        }
    }
    count
}

/// The first of the tokens whose word looks like this one.
fn first_alike(source: Source<'_>, tokens: &[usize], word: &[u8]) -> Option<usize> {
    for token in tokens {
        if look_alike(source.text(*token), word) {
            return Some(*token);
        }
    }
    None
}

/// The name that the word looks like; none for the word of a declared name.
fn lookalike_of(source: Source<'_>, names: &Names, word: &[u8]) -> Option<Lookalike> {
    if count_of(source, &names.declared, word) > 0 {
        return None;
    }
    if let Some(name) = first_alike(source, &names.made, word) {
        return Some(Lookalike { name, is_new: true });
    }
    match first_alike(source, &names.declared, word) {
        None => None,
        Some(name) => Some(Lookalike {
            name,
            is_new: false,
        }),
    }
}

/// Puts a variable of a query that looks like a name.
fn put_lookalike(
    text: &mut Text,
    source: Source<'_>,
    query: u64,
    variable: usize,
    alike: Lookalike,
) {
    source.put_line(text, variable);
    text.put(b"query ");
    text.put_number(query);
    text.put(b": ");
    text.put(source.text(variable));
    text.put(b" is a variable that stands once, so it may be anything; it looks like ");
    if alike.is_new {
        text.put(b"new ");
    }
    text.put(source.text(alike.name));
    text.put(b"\n");
}

/// Puts the variables of a query, with these words, that occur once and look like a name.
fn put_query(text: &mut Text, source: Source<'_>, names: &Names, query: u64, words: &[usize]) {
    for token in words {
        let word = source.text(*token);
        if count_of(source, words, word) == 1 {
            if let Some(alike) = lookalike_of(source, names, word) {
                put_lookalike(text, source, query, *token, alike);
            }
        }
    }
}

/// Puts the variables of queries that occur once in their query and look like a name of the protocol: a restriction's, or one
/// that is declared.
pub(crate) fn put_lookalikes(text: &mut Text, source: Source<'_>) -> Result<(), AllocError> {
    let declared = declared_names(source)?;
    let made = made_names(source)?;
    let names = Names { declared, made };
    let sketch = source.sketch;
    let mut query = 0u64;
    for declaration in &sketch.declarations {
        if let DeclarationSketch::Query { question, .. } = declaration {
            query = query.saturating_add(1);
            let words = query_words(source, question)?;
            put_query(text, source, &names, query, &words);
        }
    }
    Ok(())
}
