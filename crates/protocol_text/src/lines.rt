//! The text of the points of a process.

use crate::spelling::{
    Wording, declared_word, put_arguments, put_expression, put_pattern, put_term, put_wanted,
};
use crate::text::Text;
use crate::variables::VariableWords;
use crate::walk::{Place, Spot, spots};
use pi_tree::{Expr, Pat, Pats, Process, Protocol, Term, Terms};
use std::alloc::{AllocError, Global};

/// Puts two terms that are compared.
fn put_equality(text: &mut Text, words: Wording<'_>, left: &Term, right: &Term) {
    put_term(text, words, left);
    text.put(b" = ");
    put_term(text, words, right);
}

/// Puts `let pattern = expression in`, which is an `if` where two terms are compared.
fn put_let(text: &mut Text, words: Wording<'_>, pattern: &Pat, expression: &Expr) {
    if let (Pat::Equal(right), Expr::Term(left)) = (pattern, expression) {
        text.put(b"if ");
        put_equality(text, words, left, right);
        text.put(b" then");
    } else {
        text.put(b"let ");
        put_pattern(text, words, false, pattern);
        text.put(b" = ");
        put_expression(text, words, expression);
        text.put(b" in");
    }
}

/// Puts `get table(patterns) in`, with its condition.
fn put_get(
    text: &mut Text,
    words: Wording<'_>,
    table: u32,
    patterns: &Pats,
    condition: &Option<(Term, Term)>,
) {
    text.put(b"get ");
    text.put(declared_word(&words.protocol.tables, table));
    put_wanted(text, words, patterns);
    if let Some((left, right)) = condition {
        text.put(b" suchthat ");
        put_equality(text, words, left, right);
    }
    text.put(b" in");
}

/// Puts a word, a name with its arguments, and a semicolon.
fn put_act(text: &mut Text, words: Wording<'_>, word: &[u8], name: &[u8], arguments: &Terms) {
    text.put(word);
    text.put(name);
    put_arguments(text, words, arguments);
    text.put(b";");
}

/// Puts `out(channel,message);`.
fn put_output(text: &mut Text, words: Wording<'_>, channel: &Term, message: &Term) {
    text.put(b"out(");
    put_term(text, words, channel);
    text.put(b",");
    put_term(text, words, message);
    text.put(b");");
}

/// Puts `in(channel,pattern);`.
fn put_input(text: &mut Text, words: Wording<'_>, channel: &Term, pattern: &Pat) {
    text.put(b"in(");
    put_term(text, words, channel);
    text.put(b",");
    put_pattern(text, words, false, pattern);
    text.put(b");");
}

/// Puts what stands at a point, without what follows it.
fn put_process(text: &mut Text, words: Wording<'_>, process: &Process) {
    match process {
        Process::Nil => text.put(b"0"),
        Process::Output(channel, message, _) => put_output(text, words, channel, message),
        Process::Input(channel, pattern, _) => put_input(text, words, channel, pattern),
        Process::Par(_, _) => text.put(b"parallel:"),
        Process::Copies(_) => text.put(b"!"),
        Process::New(word, _) => {
            text.put(b"new ");
            text.put(&word.items);
            text.put(b";");
        }
        Process::Let(pattern, expression, _, _) => put_let(text, words, pattern, expression),
        Process::Event(atom, _) => {
            let name = declared_word(&words.protocol.events, atom.event);
            put_act(text, words, b"event ", name, &atom.args);
        }
        Process::Phase(number, _) => {
            text.put(b"phase ");
            text.put_number(u64::from(*number));
            text.put(b";");
        }
        Process::Insert(table, arguments, _) => {
            let name = declared_word(&words.protocol.tables, *table);
            put_act(text, words, b"insert ", name, arguments);
        }
        Process::Get(table, patterns, condition, _, _) => {
            put_get(text, words, *table, patterns, condition)
        }
    }
}

/// Puts what stands at a point, without what follows it.
pub fn put_node(out: &mut Vec<u8>, words: Wording<'_>, node: &Process) -> Result<(), AllocError> {
    let mut text = Text::new(words.alloc);
    put_process(&mut text, words, node);
    text.append_to(out)
}

/// Puts the messages that a process takes.
fn put_taken(text: &mut Text, words: Wording<'_>, process: &Process) {
    match process {
        Process::Input(_, pattern, _) => {
            text.put_separator();
            put_pattern(text, words, true, pattern);
        }
        Process::Get(_, patterns, _, _, _) => {
            for pattern in &patterns.items {
                text.put_separator();
                put_pattern(text, words, true, pattern);
            }
        }
        _ => {}
    }
}

/// Puts the messages that are taken at the point of that number, from 1, and at those above it, from the highest on.
fn put_messages(text: &mut Text, words: Wording<'_>, spots: &[Spot<'_>], point: usize) {
    let Some(spot) = spots.get(point.wrapping_sub(1)) else {
        return;
    };
    if spot.place.giver < point {
        put_messages(text, words, spots, spot.place.giver);
    }
    put_taken(text, words, spot.node);
}

/// Puts the sessions that are begun at the point of that number, from 1, and at those above it, from the highest on.
fn put_sessions(text: &mut Text, spots: &[Spot<'_>], point: usize) {
    let Some(spot) = spots.get(point.wrapping_sub(1)) else {
        return;
    };
    if spot.place.giver < point {
        put_sessions(text, spots, spot.place.giver);
    }
    if let Process::Copies(_) = spot.node {
        text.put_separator();
        text.put(b"!");
        text.put_number(point as u64);
    }
}

/// Puts, in a comment, the name of a session, or that which clauses have for what is made at a point: over the messages that are
/// taken above it, and then the sessions.
fn put_comment(text: &mut Text, words: Wording<'_>, spots: &[Spot<'_>], point: usize) {
    let Some(spot) = spots.get(point.wrapping_sub(1)) else {
        return;
    };
    match spot.node {
        Process::Copies(_) => {
            text.put(b"   (* session !");
            text.put_number(point as u64);
            text.put(b" *)");
        }
        Process::New(word, _) => {
            text.put(b"   (* ");
            text.put(&word.items);
            text.put(b"@");
            text.put_number(point as u64);
            text.put(b"[");
            put_messages(text, words, spots, spot.place.giver);
            put_sessions(text, spots, spot.place.giver);
            text.put(b"] *)");
        }
        _ => {}
    }
}

/// Puts the number of a point, the phase in force there, the blanks in front of what stands in so many blocks, and the word before
/// an else branch.
fn put_columns(text: &mut Text, point: usize, place: Place) {
    text.put_column(point as u64);
    text.put_column(u64::from(place.phase));
    text.put(b"  ");
    for _ in 0..place.depth {
        text.put(b"  ");
    }
    if place.is_else {
        text.put(b"else ");
    }
}

/// Puts the main process, a line for each point: its number, the phase in force there, what stands there, and behind it in a
/// comment the name of a session, or that which clauses have for the name that is made there.
pub fn put_points(
    out: &mut Vec<u8>,
    alloc: Global,
    protocol: &Protocol,
    variables: &VariableWords,
) -> Result<(), AllocError> {
    let spots = spots(alloc, protocol)?;
    let words = Wording {
        alloc,
        protocol,
        variables,
    };
    let mut text = Text::new(alloc);
    text.put(b"point phase\n");
    for index in 0..spots.len() {
        put_columns(&mut text, index + 1, spots[index].place);
        put_process(&mut text, words, spots[index].node);
        put_comment(&mut text, words, &spots, index + 1);
        text.put(b"\n");
    }
    text.append_to(out)
}
