//! Tests of which it is proved that they never succeed, never fail, or are never reached, as text.

use crate::marks::{Test, TestKind, Tests};
use crate::sources::Source;
use crate::text::Text;

/// The tests of a file, and what is known of their marks.
#[derive(Clone, Copy)]
pub struct DeadTests<'a> {
    pub tests: &'a Tests,
    /// The marks that no run performs, by their numbers from 1.
    pub never: &'a [u32],
}

impl DeadTests<'_> {
    /// Whether no run comes to the token.
    fn is_dead(&self, token: usize) -> bool {
        let mark = self.tests.mark_of(token);
        mark != 0 && self.never.contains(&mark)
    }

    /// Whether no run comes to the token, if there is one.
    fn is_dead_branch(&self, token: Option<usize>) -> bool {
        match token {
            None => false,
            Some(token) => self.is_dead(token),
        }
    }
}

/// The word of a test.
fn word_of(kind: TestKind) -> &'static [u8] {
    match kind {
        TestKind::Let => b"let",
        TestKind::If { .. } => b"if",
        TestKind::Get => b"get",
    }
}

/// Whether a test compares two sides that are spelled the same.
fn is_trivial(kind: TestKind) -> bool {
    match kind {
        TestKind::If { is_trivial } => is_trivial,
        TestKind::Let | TestKind::Get => false,
    }
}

/// What is told of a test, behind its word; nothing of one in a branch that no run reaches.
fn told_of(dead: DeadTests<'_>, test: Test) -> Option<&'static [u8]> {
    if dead.is_dead_branch(test.branch) {
        None
    } else if dead.is_dead(test.first) {
        Some(b" is never reached\n")
    } else if dead.is_dead(test.then) {
        Some(b" never succeeds\n")
    } else if dead.is_dead_branch(test.otherwise) {
        Some(b" never fails, so no run reaches its else branch\n")
    } else if is_trivial(test.kind) {
        Some(b" never fails, since both sides are the same\n")
    } else {
        None
    }
}

/// Puts the tests that have a branch that no run reaches.
pub(crate) fn put_dead_tests(text: &mut Text, file: Source<'_>, dead: DeadTests<'_>) {
    for test in dead.tests.all() {
        if let Some(told) = told_of(dead, *test) {
            file.put_line(text, test.first);
            text.put(b"this ");
            text.put(word_of(test.kind));
            text.put(told);
        }
    }
}
