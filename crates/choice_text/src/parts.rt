//! The parts of a text of a report.

use std::marker::Model;

/// Why a choice is refused.
#[derive(Clone, Copy)]
pub enum Refusal {
    /// The line can't go on with a byte that stands there, or ends with the text.
    Syntax,
    /// Digits are no number within the limit of digits without leading zero.
    Number,
    /// The clause isn't behind that of the choice before, or there is none of that number.
    Count,
}

/// A fault of a choice, and its line in the whole text, from 1.
#[derive(Clone, Copy)]
pub struct Fault {
    pub line: u64,
    pub refusal: Refusal,
}

/// What is said of the certificates of a report, in order: of the clauses of each, in order, which hypothesis is chosen, from 1, or 0
/// where none is; `None` where nothing is said of a clause, and nothing is of those past the end.
#[derive(Drop)]
pub struct Said {
    pub items: Vec<Vec<Option<usize>>>,
}

impl Model for Said {
    ghost use Rattle.std.specs.Prelude.{List, ℕ, Option, map};
    ghost use Rattle.choice_text.specs.Codes.{coded_said};

    ghost Value = { List (List (Option ℕ)) };

    ghost coded = { coded_said };

    ghost view = { λ a. map (λ said. said.items) a.items.items };
}

/// A text without its choices, these, and the first fault of one.
#[derive(Drop)]
pub struct Split {
    pub plain: Vec<u8>,
    pub said: Said,
    pub fault: Option<Fault>,
}
