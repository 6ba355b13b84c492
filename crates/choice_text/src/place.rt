//! What a line of a report is, and where it stands.

ghost use Rattle.std.specs.Prelude.{◌≡◌, ◌+◌, ◌<◌, ◌≤◌, suc, length, IfOk, OnOk};
ghost use Rattle.choice_text.specs.Lines as texts;
ghost use Rattle.choice_text.specs.Lines.{clauses_before, line_within, lines_left};
ghost use Rattle.choice_text.specs.Seen.{place_of, line_by};

use crate::parts::Refusal;
use crate::reading::{choice_line, front_behind};

/// Where a line stands.
#[derive(Clone, Copy)]
pub enum Place {
    /// Outside of certificates of format 3, or behind the choices of one.
    Elsewhere,
    /// In the nodes, clauses and choices of one, behind so many clauses, and a choice of the clause `last`, 0 where there is none.
    Within { clauses: usize, last: usize },
}

/// A choice: of a clause, from 1, a hypothesis, from 1, or 0 where none is chosen.
#[derive(Clone, Copy)]
pub struct Choice {
    pub clause: usize,
    pub hypothesis: usize,
}

/// What a line is.
#[derive(Clone, Copy)]
pub enum Line {
    /// The head of a certificate of another format than 3.
    Head,
    /// The head of one of format 3.
    ChoosingHead,
    Node,
    Clause,
    Says(Choice),
    /// A choice that can't be read, or a clause behind choices.
    Faulty(Refusal),
    Other,
}

/// What a line is in the nodes, clauses and choices of a certificate.
fn line_within(clauses: usize, last: usize, line: &[u8]) -> Line
    ensures { line_by result ≡ line_within clauses last line.now }
{
    match front_behind(line, 0) {
        b's' => choice_line(clauses, last, line),
        b'c' if last == 0 => Line::Clause,
        b'c' => Line::Faulty(Refusal::Syntax),
        b'n' => Line::Node,
        _ => Line::Other,
    }
}

impl Place {
    /// What a line is that stands there.
    pub(crate) fn line(self, line: &[u8]) -> Line
        ensures { line_by result ≡ texts.line_of (place_of self) line.now }
    {
        if line.starts_with(b"cert 3\n") {
            return Line::ChoosingHead;
        }
        if line.starts_with(b"cert ") {
            return Line::Head;
        }
        match self {
            Place::Elsewhere => Line::Other,
            Place::Within { clauses, last } => line_within(clauses, last, line),
        }
    }

    /// Where the line behind this one stands.
    pub(crate) fn behind(self, line: Line) -> Place
        requires few { clauses_before (place_of self) < usize.MAX }
        ensures is { place_of result ≡ texts.behind (place_of self) (line_by line) }
        ensures few { clauses_before (place_of result) ≤ clauses_before (place_of self) + 1 }
    {
        match (self, line) {
            (_, Line::ChoosingHead) => Place::Within {
                clauses: 0,
                last: 0,
            },
            (Place::Within { clauses, last }, Line::Clause) => Place::Within {
                clauses: clauses + 1,
                last,
            },
            (Place::Within { clauses, last: _ }, Line::Says(choice)) => Place::Within {
                clauses,
                last: choice.clause,
            },
            (place, Line::Node | Line::Faulty(_)) => place,
            _ => Place::Elsewhere,
        }
    }
}

impl Line {
    /// How many lines of the text without choices it is: none or one.
    pub(crate) fn lines_left(self) -> u64
        ensures { result ≡ lines_left (line_by self) }
    {
        match self {
            Line::Says(_) | Line::Faulty(_) => 0,
            _ => 1,
        }
    }
}
